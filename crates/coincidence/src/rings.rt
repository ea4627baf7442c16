// Powers that lead from a node back to it, and ask for nothing there.
ghost use Rattle.std.specs.Prelude.{◌≡◌, ◌-◌, ◌<◌, ◌≤◌, ℕ, true, Some, length, take, drop};
ghost use Rattle.coincidence.specs.Reading.{IsDueAlong};
ghost use Rattle.coincidence.specs.Rings.{IsLoneEdge, IsLoneWalk, IsPeriod, turned};
ghost use Rattle.coincidence.specs.declared.due.Due.TheVariants.{Nothing};

use crate::edges::{Edge, Edges};
use words::{Letter, Word};

// The node whose edge of the letter leads to this node, where there is one alone.
fn lone_source(edges: &Edges, node: usize, letter: Letter) -> Option<usize>
    ensures { (source : ℕ) → result ≡ Some source
        → IsLoneEdge edges.now.graph source letter node }
{
    let _letters = edges.letters();
    let Some(source) = edges.first_source(node, letter) else {
        return None;
    };
    match edges.next_source(source, letter) {
        None => Some(source),
        Some(_) => None,
    }
}

// Where the letters of the word from one place up to another lead to the node from, where each of
// the edges is the only one of its letter into its end.
fn lone_start(edges: &Edges, node: usize, word: &Word, from: usize, to: usize) -> Option<usize>
    requires from { from ≤ to }
    requires to { to ≤ length word.now }
    ensures { (start : ℕ) → result ≡ Some start
        → IsLoneWalk edges.now.graph start (take (to - from) (drop from word.now)) node }
{
    let mut at = node;
    let mut place = to;
    while from < place {
        place -= 1;
        match lone_source(edges, at, word.letter(place)) {
            None => return None,
            Some(source) => at = source,
        }
    }
    Some(at)
}

// Whether the side, begun at the place, leads from the node back to it by such edges.
fn is_ring(edges: &Edges, node: usize, side: &Word, place: usize) -> bool
    requires { place ≤ length side.now }
    ensures { result ≡ true → IsLoneWalk edges.now.graph node (turned place side.now) node }
{
    let Some(middle) = lone_start(edges, node, side, 0, place) else {
        return false;
    };
    let Some(start) = lone_start(edges, middle, side, place, side.len()) else {
        return false;
    };
    if start == node {
        return true;
    }
    false
}

/// Whether the other side is empty, and the side a power that leads from the node, begun at each
/// place with the letter, back to the node by edges each of which is the only one of its letter
/// into its end. Then each read across the edge begins on such a ring, and comes back. The count is
/// the side's period.
pub fn comes_round(edges: &Edges, edge: &Edge, side: &Word, count: usize, other: &Word) -> bool
    requires { IsPeriod count side.now }
    ensures { result ≡ true → IsDueAlong edges.now.graph edge.now.node edge.now.letter side.now
        side.now other.now Nothing }
{
    if !other.is_empty() {
        return false;
    }
    if count == side.len() {
        return false;
    }
    for place in 0..count {
        if side.letter(place) == edge.letter && !is_ring(edges, edge.node, side, place) {
            return false;
        }
    }
    true
}
