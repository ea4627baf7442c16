// The join of two tables.
ghost use Rattle.std.specs.Prelude.{◌≡◌, ℕ, ◌+◌, ◌^◌, ◌<◌, ◌≤◌, length, slice_index, IfOk};
ghost use Rattle.theory.specs.Graph.{IsGraph};
ghost use Rattle.theory.specs.Lattice.{Join};
ghost use Rattle.lattice.specs.Quotients.{IsQuotient, IsQuotientTo};
ghost use Rattle.lattice.specs.Tables.{AreTables, HaveOneWidth, IsTableOf};

use congruence_closure::{Maps, least_classes};
use ports::NoMemory;
use std::alloc::Global;
use std::marker::Model;
use word_graph::WordGraph;
use words::Letter;

/// The table of the join of two right congruences, the least one that relates what either relates.
/// Both tables are standard and have one number of letters. Nodes of the two are merged that some
/// word leads to, from the roots on (Hopcroft and Karp 1971, for two automata): there are fewer
/// merges than nodes in both, and each looks at the edges of two nodes. Refused only where memory
/// is wanting.
pub fn join(alloc: Global, s: &WordGraph, t: &WordGraph) -> Result<WordGraph, NoMemory>
    requires { HaveOneWidth s.now t.now }
    ensures { IfOk result (λ g. (k : ℕ) → AreTables k s.now t.now
        → IsTableOf k (Join k s.now t.now) g) }
{
    let Some(nodes) = s.nodes().checked_add(t.nodes()) else {
        return Err(NoMemory);
    };
    let mut roots = Vec::new(alloc);
    roots.push((0, s.nodes()))?;
    let edges = BothEdges::new(s, t);
    let classes = least_classes(alloc, &edges, nodes, roots)?;
    quotient(alloc, s, classes.as_slice())?.standardise(alloc)
}

// The edges of two tables, as maps of their nodes: those of the second stand behind those of the
// first.
#[derive(Drop)]
struct BothEdges<'a> {
    s: &'a WordGraph,
    t: &'a WordGraph,
    letters: usize,
}

impl<'a> Model for BothEdges<'a> {
    ghost use Rattle.std.specs.Prelude.{◌≡◌, ◌+◌, ◌^◌, ◌<◌, ◌≤◌, length};
    ghost use Rattle.theory.specs.Graph.{Graph};
    ghost use Rattle.lattice.specs.Quotients.{width};
    ghost use Rattle.lattice.specs.Tables.{HaveOneWidth};

    ghost Value = { Graph × Graph };

    ghost view = { λ b. (b.s.now, b.t.now) };

    ghost invariant = { λ b. record {
      tables : HaveOneWidth b.s.now b.t.now;
      small : length b.s.now + length b.t.now < 2 ^ 64;
      letters : b.letters ≡ width b.s.now;
      few : b.letters ≤ 256;
    } };
}

impl<'a> BothEdges<'a> {
    // The edges of these tables.
    fn new(s: &'a WordGraph, t: &'a WordGraph) -> BothEdges<'a>
        requires tables { HaveOneWidth s.now t.now }
        requires small { length s.now + length t.now < 2 ^ 64 }
        ensures { result ≡ (s.now, t.now) }
    {
        let letters = s.letters();
        BothEdges { s, t, letters }
    }
}

impl<'a> Maps for BothEdges<'a> {
    ghost use Rattle.lattice.specs.Quotients.{both_edges};

    ghost maps = { λ b. both_edges b.0 b.1 };

    // One for each letter.
    fn count(&self) -> usize {
        self.letters
    }

    // Where the edge leads.
    fn image(&self, number: usize, map: usize) -> usize {
        let nodes = self.s.nodes();
        let letter = Letter::new(map as u8);
        if number < nodes {
            self.s.target(number, letter).unwrap_or(0)
        } else {
            nodes + self.t.target(number - nodes, letter).unwrap_or(0)
        }
    }
}

// The graph with the nodes of a table in which each edge leads to the least node of a class.
fn quotient(alloc: Global, s: &WordGraph, classes: &[usize]) -> Result<WordGraph, NoMemory>
    requires shape { length s.now ≤ length classes.now }
    requires below { (i : ℕ) → i < length s.now → slice_index classes.now i ≤ i }
    ensures { IfOk result (λ g. (k : ℕ) → IsGraph k s.now → IsQuotient k s.now classes.now g) }
{
    let mut graph = WordGraph::new(alloc, s.letters(), s.nodes())?;
    for node in 0..s.nodes() {
        add_edges(s, classes, &mut graph, node);
    }
    Ok(graph)
}

// Adds the edges of a node.
fn add_edges(s: &WordGraph, classes: &[usize], graph: &mut WordGraph, node: usize)
    requires shape { length s.now ≤ length classes.now }
    requires below { (i : ℕ) → i < length s.now → slice_index classes.now i ≤ i }
    requires begun { (k : ℕ) → IsGraph k s.now
        → IsQuotientTo k s.now classes.now graph.old node 0 }
    ensures { (k : ℕ) → IsGraph k s.now
        → IsQuotientTo k s.now classes.now graph.new (node + 1) 0 }
{
    for number in 0..s.letters() {
        let letter = Letter::new(number as u8);
        if let Some(next) = s.target(node, letter) {
            graph.set_target(node, letter, classes[next]);
        }
    }
}
