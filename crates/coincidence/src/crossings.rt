// What relations ask for across an edge, read along edges and back along lists of sources.
ghost use Rattle.std.specs.Prelude.{◌≡◌, ℕ, ◌-◌, ◌<◌, ◌≤◌, [], ◌∷◌, false, true, None, Some, length, slice_get, take};
ghost use Rattle.theory.specs.Word.{Word as Letters};
ghost use Rattle.theory.specs.Graph.{path as path_of, target as target_of};
ghost use Rattle.coincidence.specs.Merging.{EdgesReached, IsReached};
ghost use Rattle.coincidence.specs.Reading.{IsCut, IsDueBoth, IsDueBehind, IsDueAlong, IsDueThrough};
ghost use Rattle.coincidence.specs.Rings.{IsPeriod};
ghost use Rattle.coincidence.specs.Seen.{AreSidesOf, HoldWhereSeen};
ghost use Rattle.coincidence.specs.declared.due.Due.TheVariants.{Nothing};
ghost use Rattle.coincidence.specs.Uses.{ArePeriods, AreUses, ArePlaces, IsDueAtPlaces, IsDueInList, IsDueInPowers, IsDueInGroup, IsDueInSides, IsDueOfKind, IsShut};

use crate::due::Due;
use crate::edges::{Edge, Edges};
use crate::groups::{Group, Kind};
use crate::indexed::Indexed;
use crate::periods::Periods;
use crate::places::PlaceList;
use crate::reads::{Begun, OneSide, asked_beside, due_at_fronts};
use crate::rings::comes_round;
use crate::seen::Seen;
use crate::starts::Starts;
use crate::uses::{Uses, other_side, side};
use presentation::Pairs;
use words::{Letter, Word};

// Where all but the last letter of the side lead, read on from a place of it, from each node from
// which the letters before the place lead to this one.
fn front_from(edges: &Edges, node: usize, side: &Word, place: usize) -> Option<usize>
    requires { place < length side.now }
    ensures { (n : ℕ) → path_of edges.now.graph n (take place side.now) ≡ Some node
        → result ≡ path_of edges.now.graph n (take (length side.now - 1) side.now) }
{
    let mut at = node;
    for i in place..side.len() - 1 {
        match edges.target(at, side.letter(i)) {
            None => return None,
            Some(next) => at = next,
        }
    }
    Some(at)
}

// A side of a pair that is read up to a place of it, where it has come to a node in the middle, and
// the other side.
#[derive(Drop)]
struct Crossing<'a> {
    pairs: &'a Pairs,
    number: usize,
    side: &'a Word,
    place: usize,
    middle: usize,
    other: &'a Word,
}

// What a pair asks for at a node from which the one side leads to a place of it, unless it was seen
// to hold there. It is seen to if it does.
fn due_beyond(edges: &Edges, node: usize, crossing: &Crossing, seen: &mut Seen) -> Due
    requires place { crossing.now.place < length crossing.now.side.now }
    requires middle { path_of edges.now.graph node
        (take crossing.now.place crossing.now.side.now) ≡ Some crossing.now.middle }
    requires pair { AreSidesOf crossing.now.pairs.now crossing.now.number crossing.now.side.now
        crossing.now.other.now }
    requires node { IsReached edges.now.graph node }
    requires seen { HoldWhereSeen crossing.now.pairs.now edges.now.graph seen.old }
    ensures due { IsDueBoth edges.now.graph node crossing.now.side.now crossing.now.other.now
        result }
    ensures seen { HoldWhereSeen crossing.now.pairs.now edges.now.graph seen.new }
{
    if seen.has(node, crossing.number) {
        return Due::Nothing;
    }
    let Some(one) = front_from(edges, crossing.middle, crossing.side, crossing.place) else {
        return Due::Nothing;
    };
    match asked_beside(edges, node, crossing.side, one, crossing.other) {
        None => {
            seen.note(node, crossing.number);
            Due::Nothing
        }
        Some(due) => due,
    }
}

// What a pair asks for at the nodes from which the first letters of the one side, so many, lead to
// this one, and on to a place of it.
fn due_behind(edges: &Edges, node: usize, count: usize, crossing: &Crossing, seen: &mut Seen) -> Due
    requires count { count ≤ crossing.now.place }
    requires place { crossing.now.place < length crossing.now.side.now }
    requires middle { (n : ℕ)
        → path_of edges.now.graph n (take count crossing.now.side.now) ≡ Some node
        → path_of edges.now.graph n (take crossing.now.place crossing.now.side.now)
        ≡ Some crossing.now.middle }
    requires pair { AreSidesOf crossing.now.pairs.now crossing.now.number crossing.now.side.now
        crossing.now.other.now }
    requires reached { (n : ℕ)
        → path_of edges.now.graph n (take count crossing.now.side.now) ≡ Some node
        → IsReached edges.now.graph n }
    requires seen { HoldWhereSeen crossing.now.pairs.now edges.now.graph seen.old }
    ensures due { IsDueBehind edges.now.graph node (take count crossing.now.side.now)
        crossing.now.side.now crossing.now.other.now result }
    ensures seen { HoldWhereSeen crossing.now.pairs.now edges.now.graph seen.new }
{
    if count == 0 {
        return due_beyond(edges, node, crossing, seen);
    }
    let _letters = edges.letters();
    let letter = crossing.side.letter(count - 1);
    let mut at = edges.first_source(node, letter);
    while let Some(source) = at {
        match due_behind(edges, source, count - 1, crossing, seen) {
            Due::Nothing => {}
            due => return due,
        }
        at = edges.next_source(source, letter);
    }
    Due::Nothing
}

// Whether no edge leads to the node by the letter of the side before the place.
fn none_before(edges: &Edges, node: usize, side: &Word, place: usize) -> bool
    requires some { 0 < place }
    requires within { place < length side.now }
    ensures { result ≡ true → (other : Letters)
        → IsDueBehind edges.now.graph node (take place side.now) side.now other Nothing }
{
    let _letters = edges.letters();
    match edges.first_source(node, side.letter(place - 1)) {
        None => true,
        Some(_) => false,
    }
}

// What a pair asks for where the one side is read across this node, with so many letters before it.
// Most often nothing is read: the pair was seen to hold, or nothing leads to the node.
fn due_across(edges: &Edges, node: usize, one: &OneSide, place: usize, seen: &mut Seen) -> Due
    requires place { place < length one.now.side.now }
    requires pair { AreSidesOf one.now.pairs.now one.now.number one.now.side.now
        one.now.other.now }
    requires reached { EdgesReached edges.now.graph }
    requires node { IsReached edges.now.graph node }
    requires seen { HoldWhereSeen one.now.pairs.now edges.now.graph seen.old }
    ensures due { IsDueBehind edges.now.graph node (take place one.now.side.now) one.now.side.now
        one.now.other.now result }
    ensures seen { HoldWhereSeen one.now.pairs.now edges.now.graph seen.new }
{
    if place == 0 && seen.has(node, one.number) {
        return Due::Nothing;
    }
    if 0 < place && none_before(edges, node, one.side, place) {
        return Due::Nothing;
    }
    let crossing = Crossing {
        pairs: one.pairs,
        number: one.number,
        side: one.side,
        place,
        middle: node,
        other: one.other,
    };
    due_behind(edges, node, place, &crossing, seen)
}

// Whether the side may be read across the edge of the letter from the node with its letter at the
// place: the letters are the same, and the letter behind it, if it is not the last of the side, has
// an edge there.
fn may_cross(edges: &Edges, node: usize, letter: Letter, side: &Word, place: usize) -> bool
    requires { place < length side.now }
    ensures { result ≡ false → slice_get side.now place ≡ Some letter
        → IsCut edges.now.graph node side.now place }
{
    if side.letter(place) != letter {
        return false;
    }
    if side.len() - place < 3 {
        return true;
    }
    match edges.target(node, letter) {
        None => true,
        Some(next) => edges.target(next, side.letter(place + 1)).is_some(),
    }
}

// What a pair asks for where the one side, of which the count is the period, is read across the
// edge.
fn due_along(edges: &Edges, edge: &Edge, one: &OneSide, count: usize, seen: &mut Seen) -> Due
    requires period { IsPeriod count one.now.side.now }
    requires pair { AreSidesOf one.now.pairs.now one.now.number one.now.side.now
        one.now.other.now }
    requires reached { EdgesReached edges.now.graph }
    requires node { IsReached edges.now.graph edge.now.node }
    requires seen { HoldWhereSeen one.now.pairs.now edges.now.graph seen.old }
    ensures due { IsDueAlong edges.now.graph edge.now.node edge.now.letter one.now.side.now
        one.now.side.now one.now.other.now result }
    ensures seen { HoldWhereSeen one.now.pairs.now edges.now.graph seen.new }
{
    if comes_round(edges, edge, one.side, count, one.other) {
        return Due::Nothing;
    }
    for place in 0..one.side.len() {
        if may_cross(edges, edge.node, edge.letter, one.side, place) {
            match due_across(edges, edge.node, one, place, seen) {
                Due::Nothing => {}
                due => return due,
            }
        }
    }
    Due::Nothing
}

// The first sides of pairs, or the second ones, where letters stand in them, their periods, the
// edges along which they are read, and what serves to read pairs at a node.
#[derive(Drop)]
struct Sides<'a> {
    edges: &'a Edges,
    pairs: &'a Pairs,
    second: bool,
    uses: &'a Uses,
    periods: &'a Periods,
    firsts: &'a Periods,
    starts: &'a Starts,
}

// What pairs ask for at places of the letter, read from the node on.
fn due_at_places(
    node: usize,
    letter: Letter,
    sides: &Sides,
    places: &[(usize, usize)],
    seen: &mut Seen,
) -> Due
    requires places { ArePlaces sides.now.second sides.now.pairs.now places.now }
    requires reached { EdgesReached sides.now.edges.now.graph }
    requires node { IsReached sides.now.edges.now.graph node }
    requires seen { HoldWhereSeen sides.now.pairs.now sides.now.edges.now.graph seen.old }
    ensures due { IsDueAtPlaces sides.now.second sides.now.edges.now.graph sides.now.pairs.now node
        letter places.now result }
    ensures seen { HoldWhereSeen sides.now.pairs.now sides.now.edges.now.graph seen.new }
{
    for k in 0..places.len() {
        let pair = sides.pairs.pair(places[k].0);
        let one = OneSide {
            pairs: sides.pairs,
            number: places[k].0,
            side: side(pair, sides.second),
            other: other_side(pair, sides.second),
        };
        match due_across(sides.edges, node, &one, places[k].1, seen) {
            Due::Nothing => {}
            due => return due,
        }
    }
    Due::Nothing
}

// What powers ask for where they are read across the edge of the letter from the node.
fn due_in_powers(
    node: usize,
    letter: Letter,
    sides: &Sides,
    places: &[(usize, usize)],
    seen: &mut Seen,
) -> Due
    requires periods { ArePeriods sides.now.second sides.now.pairs.now sides.now.periods.now }
    requires places { ArePlaces sides.now.second sides.now.pairs.now places.now }
    requires reached { EdgesReached sides.now.edges.now.graph }
    requires node { IsReached sides.now.edges.now.graph node }
    requires seen { HoldWhereSeen sides.now.pairs.now sides.now.edges.now.graph seen.old }
    ensures due { IsDueInPowers sides.now.second sides.now.edges.now.graph sides.now.pairs.now node
        letter places.now result }
    ensures seen { HoldWhereSeen sides.now.pairs.now sides.now.edges.now.graph seen.new }
{
    let edge = Edge { node, letter };
    for k in 0..places.len() {
        let pair = sides.pairs.pair(places[k].0);
        let one = OneSide {
            pairs: sides.pairs,
            number: places[k].0,
            side: side(pair, sides.second),
            other: other_side(pair, sides.second),
        };
        let count = sides.periods.of(places[k].0);
        match due_along(sides.edges, &edge, &one, count, seen) {
            Due::Nothing => {}
            due => return due,
        }
    }
    Due::Nothing
}

// Whether two letters lead on from the node.
fn leads_on(edges: &Edges, node: usize, letter: Letter, next: Letter) -> bool
    ensures { result ≡ false → path_of edges.now.graph node (letter ∷ next ∷ []) ≡ None }
{
    match edges.target(node, letter) {
        None => false,
        Some(at) => edges.target(at, next).is_some(),
    }
}

// Whether an edge of the letter leads to the node.
fn has_source(edges: &Edges, node: usize, letter: Letter) -> bool
    ensures { result ≡ false → (n : ℕ) → target_of edges.now.graph n letter ≡ Some node → ⊥ }
{
    let _letters = edges.letters();
    edges.first_source(node, letter).is_some()
}

// Whether a place of the kind may be crossed by the edge of the letter from the node: the letter
// behind leads on, or the letter before leads to the node.
fn is_open(edges: &Edges, node: usize, letter: Letter, kind: Kind) -> bool
    ensures { result ≡ false → IsShut edges.now.graph node letter kind }
{
    match kind {
        Kind::Power => true,
        Kind::Front => true,
        Kind::Before(next) => leads_on(edges, node, letter, next),
        Kind::Behind(last) => has_source(edges, node, last),
    }
}

// What pairs ask for at the node, in front of whose sides a letter stands.
fn due_in_front(node: usize, sides: &Sides, fronts: &PlaceList, seen: &mut Seen) -> Due
    requires firsts { ArePeriods false sides.now.pairs.now sides.now.firsts.now }
    requires places { ArePlaces sides.now.second sides.now.pairs.now fronts.now }
    requires node { IsReached sides.now.edges.now.graph node }
    requires seen { HoldWhereSeen sides.now.pairs.now sides.now.edges.now.graph seen.old }
    ensures due { IsDueInList sides.now.edges.now.graph sides.now.pairs.now node fronts.now
        result }
    ensures seen { HoldWhereSeen sides.now.pairs.now sides.now.edges.now.graph seen.new }
{
    let begun = Begun {
        pairs: sides.pairs,
        periods: sides.firsts,
        starts: sides.starts,
    };
    due_at_fronts(sides.edges, node, &begun, fronts, seen)
}

// What pairs ask for at places of one kind.
fn due_of_kind(node: usize, letter: Letter, sides: &Sides, group: &Group, seen: &mut Seen) -> Due
    requires firsts { ArePeriods false sides.now.pairs.now sides.now.firsts.now }
    requires periods { ArePeriods sides.now.second sides.now.pairs.now sides.now.periods.now }
    requires places { ArePlaces sides.now.second sides.now.pairs.now group.now.places }
    requires reached { EdgesReached sides.now.edges.now.graph }
    requires node { IsReached sides.now.edges.now.graph node }
    requires seen { HoldWhereSeen sides.now.pairs.now sides.now.edges.now.graph seen.old }
    ensures due { IsDueOfKind sides.now.second sides.now.edges.now.graph sides.now.pairs.now node
        letter group.now.kind group.now.places result }
    ensures seen { HoldWhereSeen sides.now.pairs.now sides.now.edges.now.graph seen.new }
{
    let places = group.places.as_slice();
    match group.kind {
        Kind::Power => due_in_powers(node, letter, sides, places, seen),
        Kind::Front => due_in_front(node, sides, &group.places, seen),
        Kind::Before(_) => due_at_places(node, letter, sides, places, seen),
        Kind::Behind(_) => due_at_places(node, letter, sides, places, seen),
    }
}

// What pairs ask for at the places of a group, if they may be crossed.
fn due_in_group(node: usize, letter: Letter, sides: &Sides, group: &Group, seen: &mut Seen) -> Due
    requires firsts { ArePeriods false sides.now.pairs.now sides.now.firsts.now }
    requires periods { ArePeriods sides.now.second sides.now.pairs.now sides.now.periods.now }
    requires places { ArePlaces sides.now.second sides.now.pairs.now group.now.places }
    requires reached { EdgesReached sides.now.edges.now.graph }
    requires node { IsReached sides.now.edges.now.graph node }
    requires seen { HoldWhereSeen sides.now.pairs.now sides.now.edges.now.graph seen.old }
    ensures due { IsDueInGroup sides.now.second sides.now.edges.now.graph sides.now.pairs.now node
        letter group.now result }
    ensures seen { HoldWhereSeen sides.now.pairs.now sides.now.edges.now.graph seen.new }
{
    if is_open(sides.edges, node, letter, group.kind) {
        return due_of_kind(node, letter, sides, group, seen);
    }
    Due::Nothing
}

// What the first sides of pairs ask for, or the second, where they are read across the edge of the
// letter from the node.
fn due_in_sides(node: usize, letter: Letter, sides: &Sides, seen: &mut Seen) -> Due
    requires uses { AreUses sides.now.second sides.now.pairs.now sides.now.uses.now }
    requires firsts { ArePeriods false sides.now.pairs.now sides.now.firsts.now }
    requires periods { ArePeriods sides.now.second sides.now.pairs.now sides.now.periods.now }
    requires reached { EdgesReached sides.now.edges.now.graph }
    requires node { IsReached sides.now.edges.now.graph node }
    requires seen { HoldWhereSeen sides.now.pairs.now sides.now.edges.now.graph seen.old }
    ensures due { IsDueInSides sides.now.second sides.now.edges.now.graph sides.now.pairs.now node
        letter result }
    ensures seen { HoldWhereSeen sides.now.pairs.now sides.now.edges.now.graph seen.new }
{
    let groups = sides.uses.of(letter);
    for k in 0..groups.len() {
        match due_in_group(node, letter, sides, &groups[k], seen) {
            Due::Nothing => {}
            due => return due,
        }
    }
    Due::Nothing
}

// What the first sides of the relations ask for, or the second, across the edge.
fn due_in_relations(
    edges: &Edges,
    edge: &Edge,
    congruence: &Indexed,
    second: bool,
    seen: &mut Seen,
) -> Due
    requires reached { EdgesReached edges.now.graph }
    requires node { IsReached edges.now.graph edge.now.node }
    requires seen { HoldWhereSeen congruence.now.congruence.presentation.relations edges.now.graph
        seen.old }
    ensures due { IsDueInSides second edges.now.graph
        congruence.now.congruence.presentation.relations edge.now.node edge.now.letter result }
    ensures seen { HoldWhereSeen congruence.now.congruence.presentation.relations edges.now.graph
        seen.new }
{
    let sides = Sides {
        edges,
        pairs: congruence.relations(),
        second,
        uses: congruence.uses(second),
        periods: congruence.periods(second),
        firsts: congruence.periods(false),
        starts: congruence.starts(),
    };
    due_in_sides(edge.node, edge.letter, &sides, seen)
}

/// What the relations ask for where a side is read across the edge of the letter from the node.
/// Where they were seen to hold they are not read.
pub fn due_through(
    edges: &Edges,
    node: usize,
    letter: Letter,
    congruence: &Indexed,
    seen: &mut Seen,
) -> Due
    requires reached { EdgesReached edges.now.graph }
    requires node { IsReached edges.now.graph node }
    requires seen { HoldWhereSeen congruence.now.congruence.presentation.relations edges.now.graph
        seen.old }
    ensures due { IsDueThrough edges.now.graph congruence.now.congruence.presentation.relations node
        letter result }
    ensures seen { HoldWhereSeen congruence.now.congruence.presentation.relations edges.now.graph
        seen.new }
{
    let edge = Edge { node, letter };
    match due_in_relations(edges, &edge, congruence, false, seen) {
        Due::Nothing => due_in_relations(edges, &edge, congruence, true, seen),
        due => due,
    }
}
