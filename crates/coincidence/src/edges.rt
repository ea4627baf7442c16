// Edges, and the lists of their sources.
ghost use Rattle.std.specs.Prelude.{◌≡◌, ◌≢◌, ℕ, ◌<◌, ◌≤◌, All, [], ◌∷◌, length, replicate, Option, None, Some, IfOk, OnOk, OnErr};
ghost use Rattle.std.specs.Option.{ForSome};
ghost use Rattle.theory.specs.Graph.{target as target_of};
ghost use Rattle.word_graph.specs.Edges.{with_edge, with_node};
ghost use Rattle.cells.specs.Rows.{with_entry};
ghost use Rattle.coincidence.specs.Links.{IsLinked, with_entry_at};

use cells::Cells;
use ports::NoMemory;
use std::alloc::Global;
use std::marker::Model;
use words::Letter;

// Where an edge starts, and its letter.
#[derive(Clone, Copy)]
pub struct Edge {
    pub node: usize,
    pub letter: Letter,
}

// A word graph that also lists, for each node and letter, the nodes where the edges of the letter
// into the node start. The lists are linked both ways, so that an edge is taken away at once.
#[derive(Drop)]
pub struct Edges {
    letters: usize,
    targets: Cells,
    firsts: Cells,
    nexts: Cells,
    befores: Cells,
}

impl Model for Edges {
    ghost use Rattle.coincidence.specs.Links.{Links, IsBacked, IsLinked};

    ghost Value = { Links };

    ghost view = { λ e. record { graph = e.targets; firsts = e.firsts; nexts = e.nexts } };

    ghost invariant = { λ e. record {
      linked : IsLinked e.letters
          (record { graph = e.targets; firsts = e.firsts; nexts = e.nexts });
      backed : IsBacked e.letters
          (record { graph = e.targets; firsts = e.firsts; nexts = e.nexts }) e.befores;
    } };
}

// Puts an entry at the node and letter, if there is a node.
fn put_at(cells: &mut Cells, node: Option<usize>, letter: Letter, entry: Option<usize>)
    requires node { ForSome node (λ n. n < length cells.old) }
    requires letter { All (λ row. letter < length row) cells.old }
    requires entry { ForSome entry (λ n. n < length cells.old) }
    ensures { cells.new ≡ with_entry_at cells.old node letter entry }
{
    if let Some(node) = node {
        cells.put(node, letter, entry);
    }
}

impl Edges {
    /// The root alone, without edges. Refused only where memory is wanting.
    pub fn new(alloc: Global, letters: usize) -> Result<Edges, NoMemory>
        requires { letters ≤ 256 }
        ensures { IfOk result (λ e. e ≡ record {
          graph = replicate letters None ∷ [];
          firsts = replicate letters None
              ∷ [];
          nexts = replicate letters None ∷ [];
        }) }
    {
        let targets = Cells::new(alloc, letters)?;
        let firsts = Cells::new(alloc, letters)?;
        let nexts = Cells::new(alloc, letters)?;
        let befores = Cells::new(alloc, letters)?;
        Ok(Edges {
            letters,
            targets,
            firsts,
            nexts,
            befores,
        })
    }

    /// How many nodes there are: at least one.
    pub fn nodes(&self) -> usize
        ensures { result ≡ length self.now.graph }
    {
        self.targets.nodes()
    }

    /// How many letters there are. What holds of all edges and their lists is told here.
    pub fn letters(&self) -> usize
        ensures { IsLinked result self.now }
    {
        self.letters
    }

    /// Where the edge of the letter leads from the node. `None` exactly where there is no such
    /// edge.
    pub fn target(&self, node: usize, letter: Letter) -> Option<usize>
        ensures { result ≡ target_of self.now.graph node letter }
    {
        self.targets.get(node, letter)
    }

    /// The first of the nodes whose edge of the letter leads to the node. `None` exactly where
    /// there is none.
    pub fn first_source(&self, node: usize, letter: Letter) -> Option<usize>
        ensures { result ≡ target_of self.now.firsts node letter }
    {
        self.firsts.get(node, letter)
    }

    /// The node after this one among those whose edge of the letter leads where its own does.
    /// `None` exactly where it is the last.
    pub fn next_source(&self, node: usize, letter: Letter) -> Option<usize>
        ensures { result ≡ target_of self.now.nexts node letter }
    {
        self.nexts.get(node, letter)
    }

    /// Adds a node without edges. Only want of memory refuses it, and then the edges stay as they
    /// were.
    pub fn add_node(&mut self) -> Result<(), NoMemory>
        ensures ok { OnOk result ((k : ℕ) → IsLinked k self.old
            → self.new.graph ≡ with_node k self.old.graph) }
        ensures err { OnErr result (self.new.graph ≡ self.old.graph) }
    {
        self.befores.add_row()?;
        self.firsts.add_row()?;
        self.nexts.add_row()?;
        self.targets.add_row()?;
        Ok(())
    }

    /// Makes an edge of the letter from one node to another. There was none.
    pub fn set_edge(&mut self, node: usize, letter: Letter, to: usize)
        requires node { node < length self.old.graph }
        requires letter { (k : ℕ) → IsLinked k self.old → letter < k }
        requires to { to < length self.old.graph }
        requires missing { target_of self.old.graph node letter ≡ None }
        ensures { self.new.graph ≡ with_edge self.old.graph node letter to }
    {
        let first = self.firsts.get(to, letter);
        self.nexts.put(node, letter, first);
        self.befores.put(node, letter, None);
        put_at(&mut self.befores, first, letter, Some(node));
        self.firsts.put(to, letter, Some(node));
        self.targets.put(node, letter, Some(to));
    }

    /// Takes the edge of the letter from the node away.
    pub fn remove_edge(&mut self, node: usize, letter: Letter)
        requires { target_of self.old.graph node letter ≢ None }
        ensures { self.new.graph ≡ with_entry self.old.graph node letter None }
    {
        let Some(to) = self.targets.get(node, letter) else {
            return;
        };
        let next = self.nexts.get(node, letter);
        let before = self.befores.get(node, letter);
        put_at(&mut self.befores, next, letter, before);
        self.targets.put(node, letter, None);
        match before {
            None => self.firsts.put(to, letter, next),
            Some(before) => self.nexts.put(before, letter, next),
        }
    }

    /// Takes all nodes but the root away, and all edges. It asks for no memory.
    pub fn clear(&mut self)
        ensures { (k : ℕ) → IsLinked k self.old → self.new.graph ≡ replicate k None ∷ [] }
    {
        self.targets.clear();
        self.firsts.clear();
        self.nexts.clear();
        self.befores.clear();
    }
}
