// What relations and pairs ask for at a node.
ghost use Rattle.std.specs.Prelude.{◌≡◌, ◌≢◌, ◌⊎◌, ℕ, ◌-◌, ◌<◌, ◌≤◌, false, true, Some, length, slice_index_or, take, MatchOption};
ghost use Rattle.theory.specs.Word.{Word as Letters};
ghost use Rattle.theory.specs.Graph.{path as path_of};
ghost use Rattle.coincidence.specs.DueSpec.{IsDueFrom, IsDueAt};
ghost use Rattle.coincidence.specs.Holding.{HoldBefore, HoldOnceDrawn, MeetAt};
ghost use Rattle.coincidence.specs.Merging.{IsReached};
ghost use Rattle.coincidence.specs.Reading.{IsDueBoth};
ghost use Rattle.coincidence.specs.Pending.{IsAmong};
ghost use Rattle.coincidence.specs.Rings.{turned};
ghost use Rattle.coincidence.specs.Seen.{HoldWhereSeen, IsSeen};
ghost use Rattle.coincidence.specs.Starts.{AreFirstLetters, AreStarts, IsDueByLetter, IsDueInMask};
ghost use Rattle.coincidence.specs.declared.due.Due.TheVariants.{Nothing};
ghost use Rattle.coincidence.specs.Uses.{list_at, ArePeriods, IsDueInList};

use crate::due::Due;
use crate::edges::Edges;
use crate::first_letters::FirstLetters;
use crate::indexed::Indexed;
use crate::periods::Periods;
use crate::places::PlaceList;
use crate::seen::{Seen, take_first};
use crate::starts::Starts;
use presentation::Pairs;
use words::{Letter, Word};

// Where the first `count` letters of the word lead from the node.
fn prefix_path(edges: &Edges, node: usize, word: &Word, count: usize) -> Option<usize>
    requires { count ≤ length word.now }
    ensures { result ≡ path_of edges.now.graph node (take count word.now) }
{
    let mut at = node;
    for i in 0..count {
        match edges.target(at, word.letter(i)) {
            None => return None,
            Some(next) => at = next,
        }
    }
    Some(at)
}

// Where all but the last letter of the side lead from the node.
fn front_end(edges: &Edges, node: usize, side: &Word) -> Option<usize>
    ensures { result ≡ path_of edges.now.graph node (take (length side.now - 1) side.now) }
{
    prefix_path(edges, node, side, side.len().saturating_sub(1))
}

// Where the side leads from a node from which all but its last letter lead here.
fn side_end(edges: &Edges, at: usize, side: &Word) -> Option<usize>
    ensures { (node : ℕ)
        → path_of edges.now.graph node (take (length side.now - 1) side.now) ≡ Some at
        → result ≡ path_of edges.now.graph node side.now }
{
    let count = side.len();
    if count == 0 {
        return Some(at);
    }
    edges.target(at, side.letter(count - 1))
}

// What a side asks for at a node from which all but its last letter lead here, and the other side
// to the end.
fn due_to(edges: &Edges, end: Option<usize>, at: usize, side: &Word) -> Due
    ensures { (node : ℕ) (other : Letters) → end ≡ path_of edges.now.graph node other
        → path_of edges.now.graph node (take (length side.now - 1) side.now) ≡ Some at
        → IsDueFrom edges.now.graph node other side.now result }
{
    let count = side.len();
    if count == 0 {
        return Due::Nothing;
    }
    let Some(end) = end else {
        return Due::Nothing;
    };
    let last = side.letter(count - 1);
    match edges.target(at, last) {
        None => Due::Edge(at, last, end),
        Some(t) => {
            if t == end {
                return Due::Nothing;
            }
            Due::Join(at, last, t, end)
        }
    }
}

// Whether both lead somewhere, and to one node.
fn meet(first: Option<usize>, second: Option<usize>) -> bool
    ensures { result ≡ true → (n : ℕ) × (first ≡ Some n) × (second ≡ Some n) }
{
    match first {
        None => false,
        Some(end) => second == Some(end),
    }
}

/// What a pair asks for at the node, read both ways, or `None` where it holds there. The first side
/// is read but for its last letter.
#[inline(always)]
pub fn asked_beside(
    edges: &Edges,
    node: usize,
    first: &Word,
    one: usize,
    second: &Word,
) -> Option<Due>
    requires { path_of edges.now.graph node (take (length first.now - 1) first.now) ≡ Some one }
    ensures { MatchOption result (MeetAt edges.now.graph node (first.now, second.now))
        (IsDueBoth edges.now.graph node first.now second.now) }
{
    let Some(two) = front_end(edges, node, second) else {
        return Some(Due::Nothing);
    };
    let first_end = side_end(edges, one, first);
    let second_end = side_end(edges, two, second);
    if meet(first_end, second_end) {
        return None;
    }
    match due_to(edges, first_end, two, second) {
        Due::Nothing => Some(due_to(edges, second_end, one, first)),
        due => Some(due),
    }
}

// What a pair asks for at the node, read both ways, or `None` where it holds there.
#[inline(always)]
fn asked(edges: &Edges, node: usize, pair: &(Word, Word)) -> Option<Due>
    ensures { MatchOption result (MeetAt edges.now.graph node pair.now)
        (IsDueBoth edges.now.graph node pair.now.0 pair.now.1) }
{
    match front_end(edges, node, &pair.0) {
        None => Some(Due::Nothing),
        Some(one) => asked_beside(edges, node, &pair.0, one, &pair.1),
    }
}

// As `asked`; a pair that holds asks for nothing.
fn due_both(edges: &Edges, node: usize, pair: &(Word, Word)) -> Due
    ensures { IsDueBoth edges.now.graph node pair.now.0 pair.now.1 result }
{
    match asked(edges, node, pair) {
        None => Due::Nothing,
        Some(due) => due,
    }
}

/// What the pairs from a place on ask for at the node, up to the first that neither holds nor asks.
/// Those before the place hold there; it goes past those that do, and past one that asks, which
/// holds once what it asks for is drawn.
pub fn due_or_held(edges: &Edges, node: usize, pairs: &Pairs, held: &mut usize) -> Due
    requires { HoldBefore pairs.now edges.now.graph node held.old }
    ensures held { HoldOnceDrawn pairs.now edges.now.graph node result held.new }
    ensures due { result ≢ Nothing → IsDueAt edges.now.graph node pairs.now result }
{
    while *held < pairs.len() {
        match asked(edges, node, pairs.pair(*held)) {
            None => *held += 1,
            Some(due) => match due {
                Due::Nothing => return due,
                due => {
                    *held += 1;
                    return due;
                }
            },
        }
    }
    Due::Nothing
}

/// What the pairs from a place on ask for at the node. Those before it hold there.
pub fn due_from(edges: &Edges, node: usize, pairs: &Pairs, place: usize) -> Due
    requires { HoldBefore pairs.now edges.now.graph node place }
    ensures { IsDueAt edges.now.graph node pairs.now result }
{
    for i in place..pairs.len() {
        let pair = pairs.pair(i);
        match due_both(edges, node, pair) {
            Due::Nothing => {}
            due => return due,
        }
    }
    Due::Nothing
}

/// What the pairs ask for at the node.
pub fn due_at(edges: &Edges, node: usize, pairs: &Pairs) -> Due
    ensures { IsDueAt edges.now.graph node pairs.now result }
{
    due_from(edges, node, pairs, 0)
}

/// One side of the pair of a number, and the other.
#[derive(Drop)]
pub struct OneSide<'a> {
    pub pairs: &'a Pairs,
    pub number: usize,
    pub side: &'a Word,
    pub other: &'a Word,
}

// The side leads from the node back to it, and so does it from each node to which so many letters
// of it, after which it stays as it is, lead again and again: there the pair is seen to hold too.
fn note_round(edges: &Edges, node: usize, one: &OneSide, count: usize, seen: &mut Seen)
    requires within { count ≤ length one.now.side.now }
    requires stays { turned count one.now.side.now ≡ one.now.side.now }
    requires home { path_of edges.now.graph node one.now.side.now ≡ Some node }
    ensures { (n i : ℕ) → IsSeen seen.new n i → IsSeen seen.old n i
        ⊎ ((i ≡ one.now.number) × (path_of edges.now.graph n one.now.side.now ≡ Some n)) }
{
    let mut at = node;
    for _ in 0..one.side.len() {
        let Some(next) = prefix_path(edges, at, one.side, count) else {
            return;
        };
        if next == node {
            return;
        }
        seen.note(next, one.number);
        at = next;
    }
}

/// Pairs, the periods of their first sides, and their lists by the letters with which they begin.
#[derive(Drop)]
pub struct Begun<'a> {
    pub pairs: &'a Pairs,
    pub periods: &'a Periods,
    pub starts: &'a Starts,
}

// A pair that holds at the node is seen to hold there, and a power beside the empty word also where
// its letters lead as often as they are repeated.
#[inline(always)]
fn note_held(edges: &Edges, node: usize, begun: &Begun, number: usize, seen: &mut Seen)
    requires number { number < length begun.now.pairs.now }
    requires periods { ArePeriods false begun.now.pairs.now begun.now.periods.now }
    requires meets { (p : Letters × Letters) → MeetAt edges.now.graph node
        (slice_index_or begun.now.pairs.now number p) }
    requires seen { HoldWhereSeen begun.now.pairs.now edges.now.graph seen.old }
    ensures { HoldWhereSeen begun.now.pairs.now edges.now.graph seen.new }
{
    seen.note(node, number);
    let pair = begun.pairs.pair(number);
    let count = begun.periods.of(number);
    if pair.1.is_empty() && count < pair.0.len() && seen.has(node, number) {
        let one = OneSide {
            pairs: begun.pairs,
            number,
            side: &pair.0,
            other: &pair.1,
        };
        note_round(edges, node, &one, count, seen);
    }
}

// What a pair asks for at the node. It is seen to hold there if it does.
#[inline(always)]
fn due_or_seen(edges: &Edges, node: usize, begun: &Begun, number: usize, seen: &mut Seen) -> Due
    requires number { number < length begun.now.pairs.now }
    requires periods { ArePeriods false begun.now.pairs.now begun.now.periods.now }
    requires seen { HoldWhereSeen begun.now.pairs.now edges.now.graph seen.old }
    ensures due { (p : Letters × Letters) → IsDueBoth edges.now.graph node
        (slice_index_or begun.now.pairs.now number p).0
        (slice_index_or begun.now.pairs.now number p).1 result }
    ensures seen { HoldWhereSeen begun.now.pairs.now edges.now.graph seen.new }
{
    match asked(edges, node, begun.pairs.pair(number)) {
        None => {
            note_held(edges, node, begun, number, seen);
            Due::Nothing
        }
        Some(due) => due,
    }
}

// As `due_or_seen`, unless the pair was seen to hold there.
fn due_unless_seen(edges: &Edges, node: usize, begun: &Begun, number: usize, seen: &mut Seen) -> Due
    requires number { number < length begun.now.pairs.now }
    requires periods { ArePeriods false begun.now.pairs.now begun.now.periods.now }
    requires node { IsReached edges.now.graph node }
    requires seen { HoldWhereSeen begun.now.pairs.now edges.now.graph seen.old }
    ensures due { (p : Letters × Letters) → IsDueBoth edges.now.graph node
        (slice_index_or begun.now.pairs.now number p).0
        (slice_index_or begun.now.pairs.now number p).1 result }
    ensures seen { HoldWhereSeen begun.now.pairs.now edges.now.graph seen.new }
{
    if seen.has(node, number) {
        return Due::Nothing;
    }
    due_or_seen(edges, node, begun, number, seen)
}

// What the pairs of a list ask for at the node.
fn due_in_list(
    edges: &Edges,
    node: usize,
    begun: &Begun,
    list: &[(usize, usize)],
    seen: &mut Seen,
) -> Due
    requires within { (i p : ℕ) → IsAmong (i, p) list.now → i < length begun.now.pairs.now }
    requires periods { ArePeriods false begun.now.pairs.now begun.now.periods.now }
    requires node { IsReached edges.now.graph node }
    requires seen { HoldWhereSeen begun.now.pairs.now edges.now.graph seen.old }
    ensures due { IsDueInList edges.now.graph begun.now.pairs.now node list.now result }
    ensures seen { HoldWhereSeen begun.now.pairs.now edges.now.graph seen.new }
{
    for k in 0..list.len() {
        match due_unless_seen(edges, node, begun, list[k].0, seen) {
            Due::Nothing => {}
            due => return due,
        }
    }
    Due::Nothing
}

// What the pair of a number asks for at the node, if there is one.
#[inline(always)]
fn due_of_number(edges: &Edges, node: usize, begun: &Begun, number: usize, seen: &mut Seen) -> Due
    requires periods { ArePeriods false begun.now.pairs.now begun.now.periods.now }
    requires seen { HoldWhereSeen begun.now.pairs.now edges.now.graph seen.old }
    ensures some { result ≢ Nothing → number < length begun.now.pairs.now }
    ensures due { number < length begun.now.pairs.now → (p : Letters × Letters)
        → IsDueBoth edges.now.graph node (slice_index_or begun.now.pairs.now number p).0
        (slice_index_or begun.now.pairs.now number p).1 result }
    ensures seen { HoldWhereSeen begun.now.pairs.now edges.now.graph seen.new }
{
    if begun.pairs.len() <= number {
        return Due::Nothing;
    }
    due_or_seen(edges, node, begun, number, seen)
}

// What the pairs of a mask ask for at the node.
#[inline(always)]
fn due_in_mask(edges: &Edges, node: usize, begun: &Begun, mask: u64, seen: &mut Seen) -> Due
    requires periods { ArePeriods false begun.now.pairs.now begun.now.periods.now }
    requires seen { HoldWhereSeen begun.now.pairs.now edges.now.graph seen.old }
    ensures due { IsDueInMask edges.now.graph begun.now.pairs.now node mask result }
    ensures seen { HoldWhereSeen begun.now.pairs.now edges.now.graph seen.new }
{
    let mut left = mask;
    while let Some(number) = take_first(&mut left) {
        match due_of_number(edges, node, begun, number, seen) {
            Due::Nothing => {}
            due => return due,
        }
    }
    Due::Nothing
}

// What pairs with the letter in front ask for at the node, if it leads on.
fn due_by_letter(edges: &Edges, node: usize, begun: &Begun, letter: Letter, seen: &mut Seen) -> Due
    requires starts { AreStarts begun.now.pairs.now begun.now.starts.now }
    requires periods { ArePeriods false begun.now.pairs.now begun.now.periods.now }
    requires node { IsReached edges.now.graph node }
    requires seen { HoldWhereSeen begun.now.pairs.now edges.now.graph seen.old }
    ensures due { IsDueByLetter edges.now.graph begun.now.pairs.now node begun.now.starts.now
        letter result }
    ensures seen { HoldWhereSeen begun.now.pairs.now edges.now.graph seen.new }
{
    let Some(_) = edges.target(node, letter) else {
        return Due::Nothing;
    };
    due_in_list(edges, node, begun, begun.starts.of(letter), seen)
}

// What pairs with some letter in front ask for at the node.
fn due_by_letters(edges: &Edges, node: usize, begun: &Begun, seen: &mut Seen) -> Due
    requires short { IsDueInList edges.now.graph begun.now.pairs.now node
        (list_at begun.now.starts.now 0) Nothing }
    requires starts { AreStarts begun.now.pairs.now begun.now.starts.now }
    requires periods { ArePeriods false begun.now.pairs.now begun.now.periods.now }
    requires node { IsReached edges.now.graph node }
    requires seen { HoldWhereSeen begun.now.pairs.now edges.now.graph seen.old }
    ensures due { IsDueAt edges.now.graph node begun.now.pairs.now result }
    ensures seen { HoldWhereSeen begun.now.pairs.now edges.now.graph seen.new }
{
    for number in 0..edges.letters() {
        let letter = Letter::new(number as u8);
        match due_by_letter(edges, node, begun, letter, seen) {
            Due::Nothing => {}
            due => return due,
        }
    }
    Due::Nothing
}

// What pairs with some letter in front, or with none, ask for at the node.
fn due_in_lists(edges: &Edges, node: usize, begun: &Begun, seen: &mut Seen) -> Due
    requires starts { AreStarts begun.now.pairs.now begun.now.starts.now }
    requires periods { ArePeriods false begun.now.pairs.now begun.now.periods.now }
    requires node { IsReached edges.now.graph node }
    requires seen { HoldWhereSeen begun.now.pairs.now edges.now.graph seen.old }
    ensures due { IsDueAt edges.now.graph node begun.now.pairs.now result }
    ensures seen { HoldWhereSeen begun.now.pairs.now edges.now.graph seen.new }
{
    match due_in_list(edges, node, begun, begun.starts.short(), seen) {
        Due::Nothing => due_by_letters(edges, node, begun, seen),
        due => due,
    }
}

// What the pairs ask for at the node, where each has a bit.
fn due_where_open(
    edges: &Edges,
    node: usize,
    begun: &Begun,
    first: &FirstLetters,
    seen: &mut Seen,
) -> Due
    requires first { AreFirstLetters begun.now.pairs.now first.now.every first.now.letters.items }
    requires periods { ArePeriods false begun.now.pairs.now begun.now.periods.now }
    requires node { IsReached edges.now.graph node }
    requires seen { HoldWhereSeen begun.now.pairs.now edges.now.graph seen.old }
    ensures due { IsDueAt edges.now.graph node begun.now.pairs.now result }
    ensures seen { HoldWhereSeen begun.now.pairs.now edges.now.graph seen.new }
{
    let mask = seen.unseen(node, first.open(edges, node));
    due_in_mask(edges, node, begun, mask, seen)
}

/// What the pairs of a list, in front of whose sides a letter stands, ask for at the node. Those
/// that were seen to hold there are not read.
pub fn due_at_fronts(
    edges: &Edges,
    node: usize,
    begun: &Begun,
    fronts: &PlaceList,
    seen: &mut Seen,
) -> Due
    requires within { (i p : ℕ) → IsAmong (i, p) fronts.now → i < length begun.now.pairs.now }
    requires periods { ArePeriods false begun.now.pairs.now begun.now.periods.now }
    requires node { IsReached edges.now.graph node }
    requires seen { HoldWhereSeen begun.now.pairs.now edges.now.graph seen.old }
    ensures due { IsDueInList edges.now.graph begun.now.pairs.now node fronts.now result }
    ensures seen { HoldWhereSeen begun.now.pairs.now edges.now.graph seen.new }
{
    match fronts.mask() {
        None => due_in_list(edges, node, begun, fronts.as_slice(), seen),
        Some(mask) => due_in_mask(edges, node, begun, seen.unseen(node, mask), seen),
    }
}

/// What the relations ask for at the node. Only those are looked at of which no side begins with a
/// letter that does not lead on, and that were not seen to hold there.
pub fn due_at_start(edges: &Edges, node: usize, congruence: &Indexed, seen: &mut Seen) -> Due
    requires node { IsReached edges.now.graph node }
    requires seen { HoldWhereSeen congruence.now.congruence.presentation.relations edges.now.graph
        seen.old }
    ensures due { IsDueAt edges.now.graph node congruence.now.congruence.presentation.relations
        result }
    ensures seen { HoldWhereSeen congruence.now.congruence.presentation.relations edges.now.graph
        seen.new }
{
    let begun = Begun {
        pairs: congruence.relations(),
        periods: congruence.periods(false),
        starts: congruence.starts(),
    };
    match congruence.first_letters() {
        None => due_in_lists(edges, node, &begun, seen),
        Some(first) => due_where_open(edges, node, &begun, first, seen),
    }
}
