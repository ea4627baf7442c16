// Nodes of a graph that are marked, where they lead to the end of a frame.
ghost use Rattle.std.specs.Prelude.{◌≡◌, ◌<◌, ◌≤◌, ◌↔◌, ℕ, length, IfOk, IsTrue};
ghost use Rattle.theory.specs.Graph.{target as target_of};
ghost use Rattle.reduced_automaton.specs.Framings.{AreMarks, IsGrown, IsLimit, IsMarked, IsSpread, LeadsTo, count_marked, frame_paths};
ghost use Rattle.reduced_automaton.specs.Paths.{GoesFar, GoesOn, narrowed};
ghost use Rattle.rewriting.specs.Tables.{edges};

use crate::frames::Frame;
use crate::paths::target_within;
use ports::NoMemory;
use rewriting::IndexAutomaton;
use std::alloc::Global;
use words::Letter;

// Whether the edge of one of the first letters, so many, leads to a marked node.
fn leads_by(
    graph: &IndexAutomaton,
    letters: usize,
    marks: &[bool],
    node: usize,
    letter: Letter,
) -> bool
    requires { length marks.now ≡ length (edges graph.now) }
    ensures { IsTrue result ↔ ((next : ℕ)
        × (target_of (narrowed letters (edges graph.now)) node letter ≡ Some next)
        × IsMarked marks.now next) }
{
    let _letters = graph.letters();
    match target_within(graph, letters, node, letter) {
        None => false,
        Some(next) => marks[next],
    }
}

// Whether an edge of one of the first letters leads to a marked node.
fn leads_to(graph: &IndexAutomaton, letters: usize, marks: &[bool], node: usize) -> bool
    requires few { letters ≤ graph.now.letters }
    requires count { length marks.now ≡ length (edges graph.now) }
    ensures { IsTrue result ↔ LeadsTo (narrowed letters (edges graph.now)) marks.now node }
{
    let _letters = graph.letters();
    for number in 0..letters {
        if leads_by(graph, letters, marks, node, Letter::new(number as u8)) {
            return true;
        }
    }
    false
}

/// The first layer: the nodes from which the suffix can be read.
pub fn ends_of(alloc: Global, graph: &IndexAutomaton, frame: &Frame) -> Result<Vec<bool>, NoMemory>
    ensures { IfOk result (λ ends.
        AreMarks (λ node. GoesOn (frame_paths (edges graph.now) frame.now) node 0)
        (length (edges graph.now)) ends.items) }
{
    let mut ends = Vec::with_capacity(alloc, graph.nodes())?;
    for node in 0..graph.nodes() {
        ends.push(graph.path_from(node, &frame.suffix).is_some())?;
    }
    Ok(ends)
}

/// The next layer: the nodes from which an edge of one of the first letters leads to a marked one.
pub fn layer_behind(
    alloc: Global,
    graph: &IndexAutomaton,
    letters: usize,
    marks: &[bool],
) -> Result<Vec<bool>, NoMemory>
    requires few { letters ≤ graph.now.letters }
    requires count { length marks.now ≡ length (edges graph.now) }
    ensures { IfOk result (λ layer.
        AreMarks (LeadsTo (narrowed letters (edges graph.now)) marks.now)
        (length (edges graph.now)) layer.items) }
{
    let mut layer = Vec::with_capacity(alloc, graph.nodes())?;
    for node in 0..graph.nodes() {
        layer.push(leads_to(graph, letters, marks, node))?;
    }
    Ok(layer)
}

// The ends, and the nodes from which an edge of one of the first letters leads to a marked one.
fn grown(
    alloc: Global,
    graph: &IndexAutomaton,
    letters: usize,
    ends: &[bool],
    marks: &[bool],
) -> Result<Vec<bool>, NoMemory>
    requires few { letters ≤ graph.now.letters }
    requires ends { length ends.now ≡ length (edges graph.now) }
    requires count { length marks.now ≡ length (edges graph.now) }
    ensures { IfOk result (λ new.
        AreMarks (IsGrown (narrowed letters (edges graph.now)) ends.now marks.now)
        (length (edges graph.now)) new.items) }
{
    let mut new = Vec::with_capacity(alloc, graph.nodes())?;
    for node in 0..graph.nodes() {
        new.push(ends[node] || leads_to(graph, letters, marks, node))?;
    }
    Ok(new)
}

// How many nodes are marked.
fn count(marks: &[bool]) -> usize
    ensures { result ≡ count_marked marks.now }
{
    let mut count = 0;
    for mark in marks {
        if *mark {
            count += 1;
        }
    }
    count
}

// Whether fewer nodes are marked in one list than in the other.
fn has_fewer(fewer: &[bool], marks: &[bool]) -> bool
    ensures { IsTrue result ↔ (count_marked fewer.now < count_marked marks.now) }
{
    count(fewer) < count(marks)
}

/// The nodes from which some word leads to an end, and how many letters are enough for one.
#[derive(Drop)]
pub struct Origins {
    pub marks: Vec<bool>,
    pub spread: usize,
}

/// The nodes from which some word leads to one of these ends.
pub fn leading(
    alloc: Global,
    graph: &IndexAutomaton,
    frame: &Frame,
    ends: &[bool],
) -> Result<Origins, NoMemory>
    requires few { frame.now.letters ≤ graph.now.letters }
    requires ends { AreMarks (λ node. GoesOn (frame_paths (edges graph.now) frame.now) node 0)
        (length (edges graph.now)) ends.now }
    ensures marks { IfOk result (λ origins.
        AreMarks (λ node. GoesFar (frame_paths (edges graph.now) frame.now) node 0)
        (length (edges graph.now)) origins.marks.items) }
    ensures spread { IfOk result (λ origins.
        IsSpread (frame_paths (edges graph.now) frame.now) origins.spread) }
{
    let _letters = graph.letters();
    let mut marks = Vec::from_slice(alloc, ends)?;
    let mut spread = 1;
    let mut growing = true;
    while growing {
        let new = grown(alloc, graph, frame.letters, ends, marks.as_slice())?;
        growing = has_fewer(marks.as_slice(), new.as_slice());
        marks = new;
        spread += 1;
    }
    Ok(Origins { marks, spread })
}

/// The least number such that no word of so many letters, or more, leads from the node to an end;
/// `None` where there are such words of any length. The marks are of the nodes from which some word
/// does.
pub fn limit_of(
    alloc: Global,
    graph: &IndexAutomaton,
    frame: &Frame,
    marks: Vec<bool>,
    start: usize,
) -> Result<Option<usize>, NoMemory>
    requires few { frame.now.letters ≤ graph.now.letters }
    requires start { start < length (edges graph.now) }
    requires marks { AreMarks (λ node. GoesFar (frame_paths (edges graph.now) frame.now) node 0)
        (length (edges graph.now)) marks.items }
    ensures { IfOk result (IsLimit (frame_paths (edges graph.now) frame.now) start) }
{
    let _letters = graph.letters();
    let mut far = marks;
    let mut letters = 0;
    while far[start] {
        let next = layer_behind(alloc, graph, frame.letters, far.as_slice())?;
        if !has_fewer(next.as_slice(), far.as_slice()) {
            return Ok(None);
        }
        far = next;
        letters += 1;
    }
    Ok(Some(letters))
}
