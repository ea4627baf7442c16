// Edges that follow from others by relations.
ghost use Rattle.std.specs.Prelude.{◌≡◌, ℕ, ◌*◌, ◌<◌, ◌≤◌, length, max, suc, IfOk};
ghost use Rattle.theory.specs.Word.{IsOver};
ghost use Rattle.sims_one.specs.Edges.{IsEdge};
ghost use Rattle.sims_one.specs.Known.{Grows, Keeps, Extends};

use crate::indexed::Indexed;
use crate::known::{End, Known};
use crate::paths::MOST_NODES;
use crate::places::Place;
use crate::trail::{Edge, MOST_EDGES};
use ports::NoMemory;
use words::Word;

// A side of the relation of this number.
#[derive(Drop)]
struct Side<'a> {
    relation: usize,
    word: &'a Word,
}

// The side of the pair at a place.
fn side_of(pair: &(Word, Word), second: bool) -> &Word
    ensures { (letters : ℕ) → IsOver letters pair.now.0 → IsOver letters pair.now.1
        → IsOver letters result.now }
{
    if second { &pair.1 } else { &pair.0 }
}

// Reads a relation at a node. Where both sides lead from it but for the last letter of one, the
// edge of this letter is known from now on. False where they lead to two nodes.
fn read(
    presentation: &Indexed,
    known: &mut Known,
    relation: usize,
    node: usize,
) -> Result<bool, NoMemory>
    requires relation { relation < length presentation.now.presentation.relations }
    requires node { node < known.old.nodes }
    requires few { known.old.nodes ≤ MOST_NODES }
    ensures nodes { known.new.nodes ≡ known.old.nodes }
    ensures keeps { IfOk result (λ holds.
        Keeps presentation.now.presentation known.old known.new holds) }
{
    let letters = presentation.letters();
    let pair = presentation.relations().pair(relation);
    let left = known.follow(letters, node, &pair.0);
    let right = known.follow(letters, node, &pair.1);
    if left.length == pair.0.len() && right.length == pair.1.len() {
        return Ok(left.node == right.node);
    }
    if left.length == pair.0.len() && right.length + 1 == pair.1.len() {
        let letter = pair.1.letter(right.length).number();
        known.learn(Edge::new(letters, right.node, letter), left.node)?;
        return Ok(true);
    }
    if right.length == pair.1.len() && left.length + 1 == pair.0.len() {
        let letter = pair.0.letter(left.length).number();
        known.learn(Edge::new(letters, left.node, letter), right.node)?;
        return Ok(true);
    }
    Ok(true)
}

// Reads a relation at each node from which so many first letters of a side lead to the node. False
// where its sides lead to two nodes.
fn read_back(
    presentation: &Indexed,
    known: &mut Known,
    side: &Side,
    count: usize,
    node: usize,
) -> Result<bool, NoMemory>
    requires relation { side.now.relation < length presentation.now.presentation.relations }
    requires few { known.old.nodes ≤ MOST_NODES }
    requires side { IsOver presentation.now.presentation.letters side.now.word.now }
    requires count { count ≤ length side.now.word.now }
    ensures nodes { known.new.nodes ≡ known.old.nodes }
    ensures keeps { IfOk result (λ holds.
        Keeps presentation.now.presentation known.old known.new holds) }
{
    let back = known.go_back(side.word, count, node);
    if known.nodes <= back.node {
        return Ok(true);
    }
    if back.length == 0 {
        return read(presentation, known, side.relation, back.node);
    }
    let mut starts = back.starts;
    while let Some(start) = starts.pop() {
        if !read_back(presentation, known, side, back.length - 1, start)? {
            return Ok(false);
        }
    }
    Ok(true)
}

// The end from which edges go on along the letters behind the place: where not all letters that
// led to the end are behind it, the target of its edge.
fn shared_end(place: &Place, target: usize, end: End) -> End
    requires target { target < MOST_NODES }
    requires end { end.node < MOST_NODES }
    ensures { result.node < MOST_NODES }
{
    if place.shared < end.length {
        End {
            length: 0,
            node: target,
        }
    } else {
        end
    }
}

// How far known edges lead along the letters behind the place from the target of its edge, where
// they lead to the end along those behind the last place that was not covered.
fn lead_on(presentation: &Indexed, known: &Known, place: &Place, target: usize, end: End) -> End
    requires target { target < MOST_NODES }
    requires end { end.node < MOST_NODES }
    ensures { result.node < MOST_NODES }
{
    if place.is_covered() || end.length < place.shared {
        return end;
    }
    let letters = presentation.letters();
    let relations = presentation.relations();
    if relations.len() <= place.relation {
        return end;
    }
    let word = side_of(relations.pair(place.relation), place.second);
    let from = shared_end(place, target, end);
    let first = place.before.saturating_add(1).saturating_add(from.length);
    known.go_on(letters, from, word, first)
}

// Reads the relation of the place at each node from which its side goes over the edge there, where
// known edges lead along all letters behind, perhaps but for the last: so far do they lead. Else
// nothing follows from the edge there. False where the sides lead to two nodes.
fn read_place(
    presentation: &Indexed,
    known: &mut Known,
    place: &Place,
    edge: Edge,
    length: usize,
) -> Result<bool, NoMemory>
    requires { known.old.nodes ≤ MOST_NODES }
    ensures nodes { known.new.nodes ≡ known.old.nodes }
    ensures keeps { IfOk result (λ holds.
        Keeps presentation.now.presentation known.old known.new holds) }
{
    if length.saturating_add(1) < place.behind {
        return Ok(true);
    }
    let _letters = presentation.letters();
    let relations = presentation.relations();
    if relations.len() <= place.relation {
        return Ok(true);
    }
    let word = side_of(relations.pair(place.relation), place.second);
    if word.len() <= place.before {
        return Ok(true);
    }
    let side = Side {
        relation: place.relation,
        word,
    };
    read_back(presentation, known, &side, place.before, edge.node)
}

// Reads the relations that go over the edge. False where one fails.
fn read_edge(presentation: &Indexed, known: &mut Known, edge: Edge) -> Result<bool, NoMemory>
    requires few { known.old.nodes ≤ MOST_NODES }
    requires edge { IsEdge edge }
    ensures nodes { known.new.nodes ≡ known.old.nodes }
    ensures keeps { IfOk result (λ holds.
        Keeps presentation.now.presentation known.old known.new holds) }
{
    let Some(target) = known.target(edge.place) else {
        return Ok(true);
    };
    let mut end = End {
        length: 0,
        node: target,
    };
    for place in presentation.places().of(edge.letter) {
        end = lead_on(presentation, known, place, target, end);
        if !read_place(presentation, known, place, edge, end.length)? {
            return Ok(false);
        }
    }
    Ok(true)
}

// Reads the relations that go over the edges known, from this one on. False where one fails.
fn read_edges(presentation: &Indexed, known: &mut Known, first: usize) -> Result<bool, NoMemory>
    requires few { known.old.nodes ≤ MOST_NODES }
    ensures nodes { known.new.nodes ≡ known.old.nodes }
    ensures keeps { IfOk result (λ holds.
        Keeps presentation.now.presentation known.old known.new holds) }
{
    for number in first..MOST_EDGES {
        let Some(edge) = known.edge(number) else {
            return Ok(true);
        };
        if !read_edge(presentation, known, edge)? {
            return Ok(false);
        }
    }
    Ok(true)
}

// Reads each relation at the node that can lead from one without edges. False where one fails.
fn read_node(presentation: &Indexed, known: &mut Known, node: usize) -> Result<bool, NoMemory>
    requires node { node < known.old.nodes }
    requires few { known.old.nodes ≤ MOST_NODES }
    ensures nodes { known.new.nodes ≡ known.old.nodes }
    ensures keeps { IfOk result (λ holds.
        Keeps presentation.now.presentation known.old known.new holds) }
{
    let count = presentation.relations().len();
    for relation in presentation.places().short() {
        if count <= *relation {
            return Ok(true);
        }
        if !read(presentation, known, *relation, node)? {
            return Ok(false);
        }
    }
    Ok(true)
}

// Reads the relations at the node unless it has been seen before. False where one fails.
fn read_new_node(
    presentation: &Indexed,
    known: &mut Known,
    seen: usize,
    node: usize,
) -> Result<bool, NoMemory>
    requires node { node < known.old.nodes }
    requires few { known.old.nodes ≤ MOST_NODES }
    ensures nodes { known.new.nodes ≡ known.old.nodes }
    ensures keeps { IfOk result (λ holds.
        Keeps presentation.now.presentation known.old known.new holds) }
{
    if node < seen {
        return Ok(true);
    }
    read_node(presentation, known, node)
}

/// Puts the target at the place, which is known from now on, with all that follows from it. False
/// where another target is known there, or where a relation fails: then no table has it.
pub fn extend(
    presentation: &Indexed,
    known: &mut Known,
    place: usize,
    target: usize,
) -> Result<bool, NoMemory>
    requires place { place < presentation.now.presentation.letters * known.old.nodes }
    requires few { known.old.nodes ≤ MOST_NODES }
    requires target { target < MOST_NODES }
    ensures nodes { known.new.nodes ≡ max known.old.nodes (suc target) }
    ensures extends { IfOk result (λ holds.
        Extends presentation.now.presentation known.old place target known.new holds) }
    ensures grows { IfOk result (λ _. Grows known.old known.new) }
{
    let letters = presentation.letters();
    let seen = known.nodes;
    known.nodes = seen.max(target + 1);
    if let Some(other) = known.target(place) {
        return Ok(other == target);
    }
    let first = known.mark().edges;
    known.learn(Edge::at(letters, place), target)?;
    if !read_new_node(presentation, known, seen, target)? {
        return Ok(false);
    }
    read_edges(presentation, known, first)
}
