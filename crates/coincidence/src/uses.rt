// The places of sides at which a letter stands, in groups by what stands beside.
ghost use Rattle.std.specs.Prelude.{◌≡◌, ℕ, ◌<◌, List, [], Bool, true, false, length, map, slice_index, IfOk, OnOk};
ghost use Rattle.coincidence.specs.Pending.{IsAmong};
ghost use Rattle.coincidence.specs.Uses.{side_of, other_of, told, list_at, groups_at, kind_of, kind_of_end, AreUses, IsNoted, IsPutAt, AreNoted, IsSideNoted};

use crate::groups::{Group, Kind, put_in};
use crate::periods::period;
use ports::NoMemory;
use presentation::Pairs;
use std::alloc::Global;
use std::marker::Model;
use words::{Letter, Word};

// Places of the sides of pairs, the first or the second ones: for each letter the groups of the
// places at which it stands.
#[derive(Drop)]
pub struct Uses {
    letters: Vec<Vec<Group>>,
}

impl Model for Uses {
    ghost use Rattle.std.specs.Prelude.{List, map};
    ghost use Rattle.coincidence.specs.declared.groups.Group.{Group};

    ghost Value = { List (List Group) };

    ghost view = { λ u. map (λ v. v.items) u.letters.items };
}

/// Whether the list ends with the entry.
pub fn ends_with(list: &Vec<(usize, usize)>, entry: (usize, usize)) -> bool
    ensures { result ≡ true → IsAmong entry list.now.items }
{
    let count = list.len();
    if count == 0 {
        return false;
    }
    list[count - 1].0 == entry.0 && list[count - 1].1 == entry.1
}

// There is a list of this number. Refused only where memory is wanting.
fn make_room(
    alloc: Global,
    lists: &mut Vec<Vec<(usize, usize)>>,
    number: usize,
) -> Result<(), NoMemory>
    ensures room { OnOk result (number < length lists.new.items) }
    ensures same { OnOk result ((a : ℕ) → list_at (map (λ v. v.items) lists.new.items) a
        ≡ list_at (map (λ v. v.items) lists.old.items) a) }
{
    while lists.len() <= number {
        lists.push(Vec::new(alloc))?;
    }
    Ok(())
}

// The entry stands in the list, at its end if it is new. Refused only where memory is wanting.
fn put(
    lists: &mut Vec<Vec<(usize, usize)>>,
    number: usize,
    entry: (usize, usize),
) -> Result<(), NoMemory>
    requires { number < length lists.old.items }
    ensures { OnOk result (IsNoted (map (λ v. v.items) lists.old.items)
        (map (λ v. v.items) lists.new.items) number entry) }
{
    if ends_with(&lists[number], entry) {
        return Ok(());
    }
    lists[number].push(entry)?;
    Ok(())
}

/// The entry is in the list of this number. Refused only where memory is wanting.
pub fn note(
    alloc: Global,
    lists: &mut Vec<Vec<(usize, usize)>>,
    number: usize,
    entry: (usize, usize),
) -> Result<(), NoMemory>
    ensures { OnOk result (IsNoted (map (λ v. v.items) lists.old.items)
        (map (λ v. v.items) lists.new.items) number entry) }
{
    make_room(alloc, lists, number)?;
    put(lists, number, entry)?;
    Ok(())
}

// There are groups of this letter. Refused only where memory is wanting.
fn letter_room(alloc: Global, letters: &mut Vec<Vec<Group>>, number: usize) -> Result<(), NoMemory>
    ensures room { OnOk result (number < length letters.new.items) }
    ensures same { OnOk result ((a : ℕ) → groups_at (map (λ v. v.items) letters.new.items) a
        ≡ groups_at (map (λ v. v.items) letters.old.items) a) }
{
    while letters.len() <= number {
        letters.push(Vec::new(alloc))?;
    }
    Ok(())
}

// The place is in the group of its kind of a letter. Refused only where memory is wanting.
fn put_within(
    alloc: Global,
    letters: &mut Vec<Vec<Group>>,
    number: usize,
    kind: Kind,
    place: (usize, usize),
) -> Result<(), NoMemory>
    requires { number < length letters.old.items }
    ensures { OnOk result (IsPutAt (map (λ v. v.items) letters.old.items)
        (map (λ v. v.items) letters.new.items) number kind place) }
{
    put_in(alloc, &mut letters[number], kind, place)?;
    Ok(())
}

// So at any letter.
fn put_at(
    alloc: Global,
    letters: &mut Vec<Vec<Group>>,
    letter: Letter,
    kind: Kind,
    place: (usize, usize),
) -> Result<(), NoMemory>
    ensures { OnOk result (IsPutAt (map (λ v. v.items) letters.old.items)
        (map (λ v. v.items) letters.new.items) letter kind place) }
{
    let number = letter.number();
    letter_room(alloc, letters, number)?;
    put_within(alloc, letters, number, kind, place)?;
    Ok(())
}

// The kind of a place with at most one letter behind.
fn end_kind(side: &Word, place: usize) -> Kind
    requires { place < length side.now }
    ensures { result ≡ kind_of_end side.now place }
{
    if place == 0 {
        return Kind::Front;
    }
    Kind::Behind(side.letter(place - 1))
}

// The kind of a place of a power, or of another side.
fn kind_at(side: &Word, place: usize, power: bool) -> Kind
    requires { place < length side.now }
    ensures { result ≡ kind_of power side.now place }
{
    if power {
        return Kind::Power;
    }
    if side.len() - place < 3 {
        return end_kind(side, place);
    }
    Kind::Before(side.letter(place + 1))
}

// The place that the list tells.
fn place_told(place: usize, power: bool) -> usize
    ensures { result ≡ told power place }
{
    if power { 0 } else { place }
}

// Each place of the side of a pair is in its group. Refused only where memory is wanting.
fn note_all(
    alloc: Global,
    letters: &mut Vec<Vec<Group>>,
    side: &Word,
    pair: usize,
    power: bool,
) -> Result<(), NoMemory>
    ensures { OnOk result (AreNoted power (map (λ v. v.items) letters.old.items)
        (map (λ v. v.items) letters.new.items) side.now pair) }
{
    for place in 0..side.len() {
        let kind = kind_at(side, place, power);
        let told = (pair, place_told(place, power));
        put_at(alloc, letters, side.letter(place), kind, told)?;
    }
    Ok(())
}

// Whether the side is a power and the other one empty.
fn is_power(side: &Word, other: &Word) -> bool {
    other.is_empty() && period(side) < side.len()
}

// The places of a pair's first side, or of its second, are in their groups. Refused only where
// memory is wanting.
fn note_side(
    alloc: Global,
    letters: &mut Vec<Vec<Group>>,
    pair: &(Word, Word),
    number: usize,
    second: bool,
) -> Result<(), NoMemory>
    ensures { OnOk result (IsSideNoted (map (λ v. v.items) letters.old.items)
        (map (λ v. v.items) letters.new.items) (side_of second pair.now) number) }
{
    let word = side(pair, second);
    let power = is_power(word, other_side(pair, second));
    note_all(alloc, letters, word, number, power)
}

/// The first side of the pair, or the second.
pub fn side(pair: &(Word, Word), second: bool) -> &Word
    ensures { result.now ≡ side_of second pair.now }
{
    if second { &pair.1 } else { &pair.0 }
}

/// The other side of the pair.
pub fn other_side(pair: &(Word, Word), second: bool) -> &Word
    ensures { result.now ≡ other_of second pair.now }
{
    if second { &pair.0 } else { &pair.1 }
}

impl Uses {
    /// The places of the first sides of the pairs, or of the second. Refused only where memory is
    /// wanting.
    pub fn new(alloc: Global, pairs: &Pairs, second: bool) -> Result<Uses, NoMemory>
        ensures { IfOk result (AreUses second pairs.now) }
    {
        let mut letters = Vec::new(alloc);
        for number in 0..pairs.len() {
            note_side(alloc, &mut letters, pairs.pair(number), number, second)?;
        }
        Ok(Uses { letters })
    }

    /// The groups of the places of the letter.
    pub fn of(&self, letter: Letter) -> &[Group]
        ensures { result.now ≡ groups_at self.now letter }
    {
        let number = letter.number();
        if number < self.letters.len() {
            self.letters[number].as_slice()
        } else {
            &[]
        }
    }
}
