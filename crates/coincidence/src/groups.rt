// Places of sides at which a letter stands, in groups by what stands beside it.
ghost use Rattle.std.specs.Prelude.{◌≡◌, ◌<◌, [], ◌∷◌, true, length, slice_index_or, IfOk, IfSome, OnOk};
ghost use Rattle.coincidence.specs.Places.{IsWith};
ghost use Rattle.coincidence.specs.Uses.{IsPut};
ghost use Rattle.coincidence.specs.declared.groups.Kind.TheVariants.{Power, Front, Before, Behind};

use crate::places::PlaceList;
use ports::NoMemory;
use std::alloc::Global;
use words::Letter;

/// What the places of a group have in common.
#[derive(Clone, Copy)]
pub enum Kind {
    /// The letter stands in a power of which the other side is empty. Such a power is told once.
    Power,
    /// The letter stands in front of its side, with at most one letter behind.
    Front,
    /// The letter stands before this one, with more behind.
    Before(Letter),
    /// The letter stands behind this one, with at most one letter behind.
    Behind(Letter),
}

/// Places of one kind.
#[derive(Drop)]
pub struct Group {
    pub kind: Kind,
    pub places: PlaceList,
}

// Whether it is the kind of powers.
fn is_power(kind: &Kind) -> bool
    ensures { result ≡ true → kind.now ≡ Power }
{
    match *kind {
        Kind::Power => true,
        _ => false,
    }
}

// Whether it is the kind of places in front.
fn is_front(kind: &Kind) -> bool
    ensures { result ≡ true → kind.now ≡ Front }
{
    match *kind {
        Kind::Front => true,
        _ => false,
    }
}

// Whether it is the kind of places before this letter.
fn is_before(kind: &Kind, next: Letter) -> bool
    ensures { result ≡ true → kind.now ≡ Before next }
{
    match *kind {
        Kind::Before(letter) => letter == next,
        _ => false,
    }
}

// Whether it is the kind of places behind this letter.
fn is_behind(kind: &Kind, last: Letter) -> bool
    ensures { result ≡ true → kind.now ≡ Behind last }
{
    match *kind {
        Kind::Behind(letter) => letter == last,
        _ => false,
    }
}

// Whether both are the same kind.
fn is_same(one: &Kind, other: &Kind) -> bool
    ensures { result ≡ true → one.now ≡ other.now }
{
    match *other {
        Kind::Power => is_power(one),
        Kind::Front => is_front(one),
        Kind::Before(next) => is_before(one, next),
        Kind::Behind(last) => is_behind(one, last),
    }
}

// The number of the group of the kind.
fn find(groups: &Vec<Group>, kind: &Kind) -> Option<usize>
    ensures { IfSome result (λ k. (k < length groups.now.items) × ((d : Group)
        → (slice_index_or groups.now.items k d).kind ≡ kind.now)) }
{
    for k in 0..groups.len() {
        if is_same(&groups[k].kind, kind) {
            return Some(k);
        }
    }
    None
}

// The place is in the group. Refused only where memory is wanting.
fn push_place(group: &mut Group, place: (usize, usize)) -> Result<(), NoMemory>
    ensures kind { group.new.kind ≡ group.old.kind }
    ensures places { OnOk result (IsWith group.old.places group.new.places place) }
{
    group.places.add(place)
}

// A group of the kind with the place alone. Refused only where memory is wanting.
fn group_with(alloc: Global, kind: Kind, place: (usize, usize)) -> Result<Group, NoMemory>
    ensures kind { IfOk result (λ group. group.kind ≡ kind) }
    ensures places { IfOk result (λ group. IsWith [] group.places place) }
{
    let mut places = PlaceList::new(alloc);
    places.add(place)?;
    Ok(Group { kind, places })
}

// The place is in the group of this number, of its kind. Refused only where memory is wanting.
fn put_there(groups: &mut Vec<Group>, k: usize, place: (usize, usize)) -> Result<(), NoMemory>
    requires { k < length groups.old.items }
    ensures { (kind : Kind) → ((d : Group) → (slice_index_or groups.old.items k d).kind ≡ kind)
        → OnOk result (IsPut groups.old.items groups.new.items kind place) }
{
    push_place(&mut groups[k], place)?;
    Ok(())
}

// The place is in a group more, of its kind. Refused only where memory is wanting.
fn put_new(
    alloc: Global,
    groups: &mut Vec<Group>,
    kind: Kind,
    place: (usize, usize),
) -> Result<(), NoMemory>
    ensures { OnOk result (IsPut groups.old.items groups.new.items kind place) }
{
    let group = group_with(alloc, kind, place)?;
    groups.push(group)?;
    Ok(())
}

/// The place is in the group of its kind. Refused only where memory is wanting.
pub fn put_in(
    alloc: Global,
    groups: &mut Vec<Group>,
    kind: Kind,
    place: (usize, usize),
) -> Result<(), NoMemory>
    ensures { OnOk result (IsPut groups.old.items groups.new.items kind place) }
{
    match find(groups, &kind) {
        Some(k) => put_there(groups, k, place),
        None => put_new(alloc, groups, kind, place),
    }
}
