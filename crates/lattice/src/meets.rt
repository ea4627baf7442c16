// The meet of two tables.
ghost use Rattle.std.specs.Prelude.{◌≡◌, ℕ, ◌+◌, ◌*◌, ◌^◌, ◌<◌, ◌≤◌, length, IfOk, OnOk};
ghost use Rattle.theory.specs.Graph.{IsGraph};
ghost use Rattle.theory.specs.Lattice.{Meet};
ghost use Rattle.lattice.specs.Products.{HasNode, IsBegun, IsProduct, IsStep};
ghost use Rattle.lattice.specs.Tables.{AreTables, HaveOneWidth, IsTableOf};

use indexmap::IndexSet;
use ports::NoMemory;
use std::alloc::Global;
use word_graph::WordGraph;
use words::Letter;

/// The table of the meet of two right congruences: it relates the words that both relate. Both
/// tables are standard and have one number of letters. Its nodes are the pairs of nodes to which
/// words lead in the two, so it has at most as many as there are such pairs. Refused only where
/// memory is wanting.
pub fn meet(alloc: Global, s: &WordGraph, t: &WordGraph) -> Result<WordGraph, NoMemory>
    requires { HaveOneWidth s.now t.now }
    ensures { IfOk result (λ g. (k : ℕ) → AreTables k s.now t.now
        → IsTableOf k (Meet s.now t.now) g) }
{
    product(alloc, s, t)?.standardise(alloc)
}

// The graph whose nodes are the pairs of nodes to which words lead.
fn product(alloc: Global, s: &WordGraph, t: &WordGraph) -> Result<WordGraph, NoMemory>
    requires { HaveOneWidth s.now t.now }
    ensures { IfOk result (λ g. (k : ℕ) → AreTables k s.now t.now → IsProduct k s.now t.now g) }
{
    let Some(_all) = s.nodes().checked_mul(t.nodes()) else {
        return Err(NoMemory);
    };
    let mut pairs = IndexSet::new(alloc);
    pairs.insert(0)?;
    let mut graph = WordGraph::new(alloc, s.letters(), 1)?;
    let mut place = 0;
    while place < pairs.len() {
        add_edges(s, t, &mut pairs, &mut graph, place)?;
        place += 1;
    }
    Ok(graph)
}

// Adds the edges of the pair at a place.
fn add_edges(
    s: &WordGraph,
    t: &WordGraph,
    pairs: &mut IndexSet<usize>,
    graph: &mut WordGraph,
    place: usize,
) -> Result<(), NoMemory>
    requires tables { HaveOneWidth s.now t.now }
    requires small { length s.now * length t.now < 2 ^ 64 }
    requires place { place < length pairs.old.keys }
    requires begun { (k : ℕ) → AreTables k s.now t.now
        → IsBegun k s.now t.now pairs.old.keys graph.old place 0 }
    ensures { OnOk result ((k : ℕ) → AreTables k s.now t.now
        → IsBegun k s.now t.now pairs.new.keys graph.new (place + 1) 0) }
{
    for number in 0..s.letters() {
        add_edge(s, t, pairs, graph, place, Letter::new(number as u8))?;
    }
    Ok(())
}

// Adds the edge of a letter from the pair at a place, and the pair to which it leads.
fn add_edge(
    s: &WordGraph,
    t: &WordGraph,
    pairs: &mut IndexSet<usize>,
    graph: &mut WordGraph,
    place: usize,
    letter: Letter,
) -> Result<(), NoMemory>
    requires tables { HaveOneWidth s.now t.now }
    requires small { length s.now * length t.now < 2 ^ 64 }
    requires place { place < length pairs.old.keys }
    requires letter { (k : ℕ) → AreTables k s.now t.now → letter < k }
    requires begun { (k : ℕ) → AreTables k s.now t.now
        → IsBegun k s.now t.now pairs.old.keys graph.old place letter }
    ensures begun { OnOk result ((k : ℕ) → AreTables k s.now t.now
        → IsBegun k s.now t.now pairs.new.keys graph.new place (letter + 1)) }
    ensures more { OnOk result (length pairs.old.keys ≤ length pairs.new.keys) }
{
    let pair = target_of(s, t, pairs[place], letter);
    let node = node_of(pairs, graph, pair)?;
    graph.set_target(place, letter, node);
    Ok(())
}

// The node of a pair: a new one without edges where there is none yet.
fn node_of(
    pairs: &mut IndexSet<usize>,
    graph: &mut WordGraph,
    pair: usize,
) -> Result<usize, NoMemory>
    requires { length graph.old ≡ length pairs.old.keys }
    ensures { IfOk result (λ node. (k : ℕ) → IsGraph k graph.old
        → HasNode k pairs.old.keys pairs.new.keys graph.old graph.new pair node) }
{
    let (node, is_new) = pairs.insert_full(pair)?;
    if is_new {
        graph.add_node()?;
    }
    Ok(node)
}

// The pair to which the edges of a letter lead from a pair.
fn target_of(s: &WordGraph, t: &WordGraph, pair: usize, letter: Letter) -> usize
    requires tables { HaveOneWidth s.now t.now }
    requires small { length s.now * length t.now < 2 ^ 64 }
    requires pair { pair < length s.now * length t.now }
    requires letter { (k : ℕ) → AreTables k s.now t.now → letter < k }
    ensures within { result < length s.now * length t.now }
    ensures step { IsStep s.now t.now pair letter result }
{
    let nodes = t.nodes();
    let left = s.target(pair / nodes, letter).unwrap_or(0);
    let right = t.target(pair % nodes, letter).unwrap_or(0);
    left * nodes + right
}
