// What is new in a graph and not read yet.
ghost use Rattle.std.specs.Prelude.{◌≡◌, ℕ, ◌<◌, List, [], ◌∷◌, ◌++◌, Bool, true, false, Some, length, OnOk, IfSome};
ghost use Rattle.theory.specs.Graph.{Graph};
ghost use Rattle.theory.specs.Word.{Word as Letters};
ghost use Rattle.coincidence.specs.Absorbing.{Extends};
ghost use Rattle.coincidence.specs.Drawing.{IsLast};
ghost use Rattle.coincidence.specs.Holding.{HoldWhere};
ghost use Rattle.coincidence.specs.Live.{IsOn};
ghost use Rattle.coincidence.specs.Pending.{IsAmong, IsClosedBut};
ghost use Rattle.coincidence.specs.declared.pending.Pending.TheVariants.{NewNode as Node, NewEdge as Edge};

use ports::NoMemory;
use std::alloc::Global;
use std::marker::Model;
use words::Letter;

// All nodes are read where more than one entry is pending for so many nodes.
const NODES_READ: usize = 8;

// All nodes without a mark are read where more than one entry is pending for so many of them.
const UNMARKED_READ: usize = 2;

// A node or an edge that is new.
#[derive(Clone, Copy)]
pub enum Pending {
    NewNode(usize),
    NewEdge(usize, Letter),
}

// How many live nodes have no mark.
fn count_unmarked(live: &Vec<bool>, marked: &Vec<bool>) -> usize
    requires { length marked.now.items ≡ length live.now.items }
{
    (0..live.len())
        .filter(|node| live[*node] && !marked[*node])
        .count()
}

// The newest of a list.
fn newest(entries: &Vec<Pending>) -> Option<Pending>
    ensures { IsLast entries.now.items result }
{
    let count = entries.len();
    if 0 < count {
        Some(entries[count - 1])
    } else {
        None
    }
}

// What is pending: nodes, which are read first, and edges, of both the newest first. An entry of a
// node that is lost stays until it comes to be read, and asks for nothing then.
#[derive(Drop)]
pub struct Worklist {
    edges: Vec<Pending>,
    nodes: Vec<Pending>,
}

impl Model for Worklist {
    ghost use Rattle.std.specs.Prelude.{List, ◌++◌};
    ghost use Rattle.coincidence.specs.declared.pending.Pending.{Pending as Entry};

    ghost Value = { List Entry };

    ghost view = { λ w. w.edges.items ++ w.nodes.items };
}

impl Worklist {
    /// Nothing is pending.
    pub fn new(alloc: Global) -> Worklist
        ensures { result ≡ [] }
    {
        Worklist {
            edges: Vec::new(alloc),
            nodes: Vec::new(alloc),
        }
    }

    /// A node more. Only want of memory refuses it.
    pub fn push_node(&mut self, node: usize) -> Result<(), NoMemory>
        ensures { OnOk result (Extends (self.old ++ Node node ∷ []) self.new) }
    {
        self.nodes.push(Pending::NewNode(node))?;
        Ok(())
    }

    /// An edge more. Only want of memory refuses it.
    pub fn push_edge(&mut self, node: usize, letter: Letter) -> Result<(), NoMemory>
        ensures { OnOk result (Extends (self.old ++ Edge node letter ∷ []) self.new) }
    {
        self.edges.push(Pending::NewEdge(node, letter))?;
        Ok(())
    }

    /// Whether a node is pending.
    pub fn has_node(&self) -> bool {
        !self.nodes.is_empty()
    }

    /// The newest node.
    pub fn last_node(&self) -> Option<Pending>
        ensures { IfSome result (λ node. IsLast self.now (Some node)) }
    {
        newest(&self.nodes)
    }

    /// The newest node, or where none is pending the newest edge.
    pub fn last(&self) -> Option<Pending>
        ensures { IsLast self.now result }
    {
        let count = self.nodes.len();
        if 0 < count {
            return newest(&self.nodes);
        }
        newest(&self.edges)
    }

    /// Takes the last entry away.
    pub fn drop_last(&mut self)
        ensures { (front : List Pending) (entry : Pending) → self.old ≡ front ++ entry ∷ []
            → self.new ≡ front }
    {
        if self.nodes.is_empty() {
            self.edges.pop();
        } else {
            self.nodes.pop();
        }
    }

    // How many entries there are.
    fn len(&self) -> usize {
        self.nodes.len().saturating_add(self.edges.len())
    }

    // Nothing is pending any more.
    fn clear(&mut self) {
        self.edges.clear();
        self.nodes.clear();
    }

    // Each of so many nodes is pending, and nothing else.
    fn take_nodes(&mut self, count: usize) -> Result<(), NoMemory>
        ensures { OnOk result ((node : ℕ) → node < count → IsAmong (Node node) self.new) }
    {
        self.clear();
        for node in 0..count {
            self.push_node(node)?;
        }
        Ok(())
    }

    /// Where much is pending for so many nodes, each of them is pending in its place: relations are
    /// then read once at each node, and not at each of their places across each edge. Only want of
    /// memory refuses it.
    pub fn gather(&mut self, count: usize) -> Result<(), NoMemory>
        ensures { OnOk result ((pairs : List (Letters × Letters)) (graph : Graph)
            (live : List Bool) → length live ≡ count → IsClosedBut pairs graph live self.old
            → IsClosedBut pairs graph live self.new) }
    {
        if count / NODES_READ < self.len() {
            self.take_nodes(count)?;
        }
        Ok(())
    }

    // The node is pending, if it lives and has no mark.
    fn take_unmarked_node(&mut self, live: bool, marked: bool, node: usize) -> Result<(), NoMemory>
        ensures there { OnOk result (live ≡ true → marked ≡ false
            → IsAmong (Node node) self.new) }
        ensures still { OnOk result ((entry : Pending) → IsAmong entry self.old
            → IsAmong entry self.new) }
    {
        if live && !marked {
            self.push_node(node)?;
        }
        Ok(())
    }

    // Each live node without a mark is pending, and nothing else.
    fn take_unmarked(&mut self, live: &Vec<bool>, marked: &Vec<bool>) -> Result<(), NoMemory>
        requires { length marked.now.items ≡ length live.now.items }
        ensures { OnOk result ((node : ℕ) → IsOn live.now.items node
            → (IsOn marked.now.items node → ⊥) → IsAmong (Node node) self.new) }
    {
        self.clear();
        for node in 0..live.len() {
            self.take_unmarked_node(live[node], marked[node], node)?;
        }
        Ok(())
    }

    /// Where more is pending than half of the live nodes without a mark, each of these is pending
    /// in its place. At marked nodes the relations hold. Only want of memory refuses it.
    pub fn gather_unmarked(&mut self, live: &Vec<bool>, marked: &Vec<bool>) -> Result<(), NoMemory>
        requires { length marked.now.items ≡ length live.now.items }
        ensures { OnOk result ((pairs : List (Letters × Letters)) (graph : Graph)
            → HoldWhere pairs graph marked.now.items
            → IsClosedBut pairs graph live.now.items self.old
            → IsClosedBut pairs graph live.now.items self.new) }
    {
        if count_unmarked(live, marked) / UNMARKED_READ < self.len() {
            self.take_unmarked(live, marked)?;
        }
        Ok(())
    }
}
