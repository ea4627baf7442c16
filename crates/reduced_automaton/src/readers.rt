// The next word that leads to an end.
ghost use Rattle.std.specs.Prelude.{◌≡◌, ◌≤◌, ◌<◌, ◌++◌, length, take, IfOk, IsTrue, MatchOption, OnOk, ℕ};
ghost use Rattle.std.specs.Option.{option_copied};
ghost use Rattle.theory.specs.Graph.{target as target_of};
ghost use Rattle.theory.specs.Word.{Word as Letters};
ghost use Rattle.theory.specs.ShortLex.{◌≺◌};
ghost use Rattle.theory.specs.Listing.{IsLast, IsNext};
ghost use Rattle.rewriting.specs.Tables.{edges};
ghost use Rattle.reduced_automaton.specs.Automaton.{Allows, AreDepths};
ghost use Rattle.reduced_automaton.specs.Paths.{AreNodesAlong, GoesOn, HasPath, IsLastOfLength, IsLeastEdge, IsLeastPath, IsNextOfLength, IsRise, IsWithoutEdge, all_paths};

use crate::paths::{AllPaths, KnownPaths};
use ports::NoMemory;
use rewriting::IndexAutomaton;
use std::alloc::Global;
use words::{Letter, Word};

/// Where the next word leaves a word: behind so many letters, by a letter to a node, from which so
/// many letters follow.
#[derive(Clone, Copy)]
pub struct Rise {
    pub place: usize,
    pub letter: Letter,
    pub node: usize,
    pub count: usize,
}

// The node to which the edge of the letter leads, where so many letters lead on from there.
fn edge_on<P: KnownPaths>(paths: &P, node: usize, letter: Letter, count: usize) -> Option<usize>
    requires { Allows (P.known paths.now) count }
    ensures { MatchOption result
        ((next : ℕ) → target_of (P.paths paths.now).graph node letter ≡ Some next
        → GoesOn (P.paths paths.now) next count → ⊥)
        (λ next. (target_of (P.paths paths.now).graph node letter ≡ Some next)
        × GoesOn (P.paths paths.now) next count) }
{
    let _letters = paths.letters();
    let next = paths.target(node, letter)?;
    if paths.goes_on(next, count) {
        Some(next)
    } else {
        None
    }
}

// The least letter, from a number on, that leads to a node from which so many letters lead on, and
// that node; `None` exactly where there is none.
fn least_edge<P: KnownPaths>(
    paths: &P,
    node: usize,
    from: usize,
    count: usize,
) -> Option<(Letter, usize)>
    requires { Allows (P.known paths.now) count }
    ensures { MatchOption result (IsWithoutEdge (P.paths paths.now) node count from)
        (λ edge. IsLeastEdge (P.paths paths.now) node count from edge.0 edge.1) }
{
    for number in from..paths.letters() {
        let letter = Letter::new(number as u8);
        if let Some(next) = edge_on(paths, node, letter, count) {
            return Some((letter, next));
        }
    }
    None
}

// The nodes to which the proper prefixes of the word lead from the root, as far as there are edges.
fn nodes_along<P: KnownPaths>(
    alloc: Global,
    paths: &P,
    root: usize,
    word: &Word,
) -> Result<Vec<usize>, NoMemory>
    ensures { IfOk result (λ nodes.
        AreNodesAlong (P.paths paths.now).graph root word.now nodes.items) }
{
    let mut nodes = Vec::with_capacity(alloc, word.len())?;
    let mut node = root;
    for place in 0..word.len() {
        nodes.push(node)?;
        match paths.target(node, word.letter(place)) {
            None => return Ok(nodes),
            Some(next) => node = next,
        }
    }
    Ok(nodes)
}

// The last place at which a greater letter leads on to a word of the same length.
fn rise_within<P: KnownPaths>(paths: &P, root: usize, word: &Word, nodes: &[usize]) -> Option<Rise>
    requires known { Allows (P.known paths.now) (length word.now) }
    requires nodes { AreNodesAlong (P.paths paths.now).graph root word.now nodes.now }
    ensures { MatchOption result (IsLastOfLength (P.paths paths.now) root word.now)
        (IsRise (P.paths paths.now) root word.now) }
{
    let _letters = paths.letters();
    for place in (0..nodes.len()).rev() {
        let count = word.len() - place - 1;
        let above = word.letter(place).number() + 1;
        if let Some(edge) = least_edge(paths, nodes[place], above, count) {
            return Some(Rise {
                place,
                letter: edge.0,
                node: edge.1,
                count,
            });
        }
    }
    None
}

// Puts the least word of so many letters from the node at the end.
fn extend_least<P: KnownPaths>(
    paths: &P,
    word: &mut Word,
    node: usize,
    count: usize,
) -> Result<(), NoMemory>
    requires known { Allows (P.known paths.now) count }
    requires goes { GoesOn (P.paths paths.now) node count }
    ensures { OnOk result ((v : Letters) × (word.new ≡ word.old ++ v)
        × IsLeastPath (P.paths paths.now) node count v) }
{
    let _letters = paths.letters();
    let mut at = node;
    for rest in (0..count).rev() {
        let Some(edge) = least_edge(paths, at, 0, rest) else {
            unreachable!()
        };
        word.push(edge.0)?;
        at = edge.1;
    }
    Ok(())
}

// The first letters of the word.
fn prefix(alloc: Global, word: &Word, count: usize) -> Result<Word, NoMemory>
    requires { count ≤ length word.now }
    ensures { IfOk result (λ u. u ≡ take count word.now) }
{
    let mut first = Word::with_capacity(alloc, count)?;
    first.append(&word.letters()[..count])?;
    Ok(first)
}

/// The least word as long as the word, and greater, that leads from the root to an end; `None`
/// exactly where there is none. Refused only where memory is wanting.
pub fn next_as_long<P: KnownPaths>(
    alloc: Global,
    paths: &P,
    root: usize,
    word: &Word,
) -> Result<Option<Word>, NoMemory>
    requires { Allows (P.known paths.now) (length word.now) }
    ensures { IfOk result (λ next. MatchOption next
        (IsLastOfLength (P.paths paths.now) root word.now)
        (IsNextOfLength (P.paths paths.now) root word.now)) }
{
    let nodes = nodes_along(alloc, paths, root, word)?;
    let Some(rise) = rise_within(paths, root, word, nodes.as_slice()) else {
        return Ok(None);
    };
    let mut next = prefix(alloc, word, rise.place)?;
    next.push(rise.letter)?;
    extend_least(paths, &mut next, rise.node, rise.count)?;
    Ok(Some(next))
}

/// The least word of so many letters that leads from the root to an end. Refused only where memory
/// is wanting.
pub fn least_word<P: KnownPaths>(
    alloc: Global,
    paths: &P,
    root: usize,
    count: usize,
) -> Result<Word, NoMemory>
    requires known { Allows (P.known paths.now) count }
    requires goes { GoesOn (P.paths paths.now) root count }
    ensures { IfOk result (IsLeastPath (P.paths paths.now) root count) }
{
    let mut word = Word::new(alloc);
    extend_least(paths, &mut word, root, count)?;
    Ok(word)
}

/// The least word in short-lex order with a path from the root that comes after the cursor, or the
/// least at all; `None` exactly where there is none. Refused only where memory is wanting.
pub fn next_path(
    alloc: Global,
    graph: &IndexAutomaton,
    depths: &[Option<usize>],
    after: Option<&Word>,
) -> Result<Option<Word>, NoMemory>
    requires { AreDepths graph.now.letters (edges graph.now) depths.now }
    ensures { IfOk result (λ next. MatchOption next
        (IsLast (HasPath (all_paths graph.now.letters (edges graph.now)) 0) ◌≺◌
        (option_copied after.entry))
        (IsNext (HasPath (all_paths graph.now.letters (edges graph.now)) 0) ◌≺◌
        (option_copied after.entry))) }
{
    let Some(word) = after else {
        return Ok(Some(Word::new(alloc)));
    };
    let paths = AllPaths::new(graph, depths);
    let next = next_as_long(alloc, &paths, 0, word)?;
    if next.is_some() {
        return Ok(next);
    }
    let _letters = paths.letters();
    let count = word.letters().len() + 1;
    if !paths.goes_on(0, count) {
        return Ok(None);
    }
    Ok(Some(least_word(alloc, &paths, 0, count)?))
}
