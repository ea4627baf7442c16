// How far words lead from the nodes of a graph.
ghost use Rattle.std.specs.Prelude.{◌≡◌, ◌+◌, ◌<◌, ◌↔◌, ℕ, length, replicate, IfOk, IsTrue};
ghost use Rattle.theory.specs.Graph.{IsGraph};
ghost use Rattle.rewriting.specs.Tables.{edges};
ghost use Rattle.reduced_automaton.specs.Automaton.{Allows, AreDepths, AreSettled, AreSettledTo, IsChange, LeadsBy, LeadsOn};

use ports::NoMemory;
use rewriting::IndexAutomaton;
use std::alloc::Global;
use words::Letter;

/// Whether there are paths of so many letters, where this is the greatest length, or there is none.
pub fn allows(depth: Option<usize>, count: usize) -> bool
    ensures { IsTrue result ↔ Allows depth count }
{
    match depth {
        None => true,
        Some(most) => count <= most,
    }
}

// Whether the edge of the letter leads to a node from which so many letters can follow.
fn leads_by(
    graph: &IndexAutomaton,
    depths: &[Option<usize>],
    node: usize,
    letter: Letter,
    count: usize,
) -> bool
    requires { length depths.now ≡ length (edges graph.now) }
    ensures { IsTrue result ↔ LeadsBy (edges graph.now) depths.now node count letter }
{
    let _letters = graph.letters();
    match graph.target(node, letter) {
        None => false,
        Some(next) => allows(depths[next], count),
    }
}

// Whether an edge leads from the node to one from which so many letters can follow.
fn leads_on(graph: &IndexAutomaton, depths: &[Option<usize>], node: usize, count: usize) -> bool
    requires { length depths.now ≡ length (edges graph.now) }
    ensures { IsTrue result ↔ LeadsOn (edges graph.now) depths.now node count }
{
    for number in 0..graph.letters() {
        if leads_by(graph, depths, node, Letter::new(number as u8), count) {
            return true;
        }
    }
    false
}

// So many places without a number. Refused only where memory is wanting.
fn no_numbers(alloc: Global, count: usize) -> Result<Vec<Option<usize>>, NoMemory>
    ensures { IfOk result (λ v. v.items ≡ replicate count None) }
{
    Ok(Vec::from_elem(alloc, None, count)?)
}

// A node without a depth gets the number of the round, where it has no edge on to a node from which
// as many letters can follow. Whether it got one.
fn settle(
    graph: &IndexAutomaton,
    depths: &mut Vec<Option<usize>>,
    node: usize,
    round: usize,
) -> bool
    requires node { node < length depths.old.items }
    requires count { length depths.old.items ≡ length (edges graph.now) }
    ensures settled { (k : ℕ) → IsGraph k (edges graph.now)
        → AreSettledTo k (edges graph.now) round node depths.old.items
        → AreSettledTo k (edges graph.now) round (node + 1) depths.new.items }
    ensures count { length depths.new.items ≡ length depths.old.items }
    ensures change { IsChange result depths.old.items depths.new.items }
{
    if depths[node].is_some() {
        return false;
    }
    if leads_on(graph, depths.as_slice(), node, round) {
        return false;
    }
    depths[node] = Some(round);
    true
}

// A round: each node in turn. Whether any got a depth.
fn settle_all(graph: &IndexAutomaton, depths: &mut Vec<Option<usize>>, round: usize) -> bool
    requires { length depths.old.items ≡ length (edges graph.now) }
    ensures settled { (k : ℕ) → IsGraph k (edges graph.now)
        → AreSettled k (edges graph.now) round depths.old.items
        → AreSettled k (edges graph.now) (round + 1) depths.new.items }
    ensures count { length depths.new.items ≡ length depths.old.items }
    ensures change { IsChange result depths.old.items depths.new.items }
{
    let mut changed = false;
    for node in 0..depths.len() {
        if settle(graph, depths, node, round) {
            changed = true;
        }
    }
    changed
}

/// The greatest length of a path from each node, in letters; `None` where there are paths of every
/// length. Refused only where memory is wanting.
pub fn depths_of(alloc: Global, graph: &IndexAutomaton) -> Result<Vec<Option<usize>>, NoMemory>
    ensures { IfOk result (λ depths. (k : ℕ) → IsGraph k (edges graph.now)
        → AreDepths k (edges graph.now) depths.items) }
{
    let _letters = graph.letters();
    let mut depths = no_numbers(alloc, graph.nodes())?;
    let mut round = 0;
    while settle_all(graph, &mut depths, round) {
        round += 1;
    }
    Ok(depths)
}
