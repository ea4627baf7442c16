// Marks of nodes.
ghost use Rattle.std.specs.Prelude.{◌≡◌, ℕ, ◌+◌, ◌<◌, ◌≤◌, All, length, slice_index, IfOk, MatchOption};
ghost use Rattle.word_graph.specs.Walk.{AreLeastWords};
ghost use Rattle.coincidence.specs.Marks.{AllMarked, IsFirstUnmarked, IsLeastUnmarked};

use ports::NoMemory;
use std::alloc::Global;
use word_graph::WordGraph;
use words::{Word, shortlex};

// The place of the lesser of two words whose nodes have no mark: of the one at a place so far, and
// of the next.
fn lesser_unmarked(
    least: &Vec<(usize, Word)>,
    marked: &Vec<bool>,
    first: Option<usize>,
    place: usize,
) -> Option<usize>
    requires place { place < length least.now.items }
    requires nodes { All (λ pair. pair.0 < length marked.now.items) least.now.items }
    requires first { IsLeastUnmarked least.now.items marked.now.items place first }
    ensures { IsLeastUnmarked least.now.items marked.now.items (place + 1) result }
{
    if marked[least[place].0] {
        return first;
    }
    let Some(before) = first else {
        return Some(place);
    };
    if shortlex(&least[before].1, &least[place].1).is_lt() {
        first
    } else {
        Some(place)
    }
}

// The place of the least word whose node has no mark.
fn least_unmarked(least: &Vec<(usize, Word)>, marked: &Vec<bool>) -> Option<usize>
    requires { All (λ pair. pair.0 < length marked.now.items) least.now.items }
    ensures { IsLeastUnmarked least.now.items marked.now.items (length least.now.items) result }
{
    let mut first = None;
    for place in 0..least.len() {
        first = lesser_unmarked(least, marked, first, place);
    }
    first
}

/// The node of the least word whose node has no mark; `None` where each has one. Only want of
/// memory refuses it.
pub fn first_unmarked(
    alloc: Global,
    graph: &WordGraph,
    marked: &Vec<bool>,
) -> Result<Option<usize>, NoMemory>
    requires { length marked.now.items ≡ length graph.now }
    ensures { IfOk result (λ found. MatchOption found (AllMarked graph.now marked.now.items)
        (IsFirstUnmarked graph.now marked.now.items)) }
{
    let _letters = graph.letters();
    let least = graph.least_words(alloc)?;
    match least_unmarked(&least, marked) {
        None => Ok(None),
        Some(place) => Ok(Some(least[place].0)),
    }
}
