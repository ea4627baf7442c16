// Cosets: the nodes of a table, while memory was never wanting.
ghost use Rattle.std.specs.Prelude.{◌≡◌, ℕ, ◌<◌, ◌≤◌, List, [], ◌∷◌, ◌++◌, true, false, length, replicate, None, IfOk, OnOk};
ghost use Rattle.theory.specs.Congruence.{Congruence, IsWellFormed};
ghost use Rattle.theory.specs.Graph.{target as target_of};
ghost use Rattle.word_graph.specs.Edges.{with_edge, with_node};
ghost use Rattle.coincidence.specs.Absorbing.{Extends};
ghost use Rattle.coincidence.specs.Cosets.{IsWhole};
ghost use Rattle.coincidence.specs.Live.{IsOn};
ghost use Rattle.coincidence.specs.declared.pending.Pending.TheVariants.{NewNode};

use crate::edges::Edges;
use crate::order::Order;
use crate::pending::Worklist;
use crate::seen::Seen;
use ports::NoMemory;
use std::alloc::Global;
use words::Letter;

/// The nodes of a coset table: their edges, which of them are live and which marked, their order as
/// far as it is known, what is new and not read yet, by which nodes lost ones were replaced, the
/// pairs that are still to become one, and which relations were seen to hold where.
#[derive(Drop)]
pub struct Cosets {
    pub edges: Edges,
    pub live: Vec<bool>,
    pub marked: Vec<bool>,
    pub order: Order,
    pub pending: Worklist,
    pub replaced_by: Vec<usize>,
    pub queue: Vec<(usize, usize)>,
    pub seen: Seen,
}

impl Cosets {
    /// The root alone, live, without mark and edges. Refused only where memory is wanting.
    pub fn new(alloc: Global, letters: usize) -> Result<Cosets, NoMemory>
        requires { letters ≤ 256 }
        ensures whole { IfOk result (λ t. (c : Congruence) → IsWellFormed c
            → c.presentation.letters ≡ letters → IsWhole c t) }
        ensures edges { IfOk result (λ t. t.edges ≡ record {
          graph = replicate letters None ∷ [];
          firsts = replicate letters None
              ∷ [];
          nexts = replicate letters None ∷ [];
        }) }
        ensures live { IfOk result (λ t. t.live.items ≡ true ∷ []) }
        ensures marked { IfOk result (λ t. t.marked.items ≡ false ∷ []) }
    {
        let order = Order::new(alloc)?;
        let edges = Edges::new(alloc, letters)?;
        let mut cosets = Cosets::bare(alloc, edges, order);
        match cosets.add_root() {
            Ok(()) => Ok(cosets),
            Err(fault) => {
                drop(cosets);
                Err(fault)
            }
        }
    }

    // Edges and an order of nodes, beside which nothing is noted yet.
    fn bare(alloc: Global, edges: Edges, order: Order) -> Cosets
        ensures edges { result.edges ≡ edges }
        ensures order { result.order ≡ order }
        ensures live { result.live.items ≡ [] }
        ensures marked { result.marked.items ≡ [] }
        ensures pending { result.pending ≡ [] }
        ensures seen { result.seen ≡ [] }
    {
        Cosets {
            edges,
            live: Vec::new(alloc),
            marked: Vec::new(alloc),
            order,
            pending: Worklist::new(alloc),
            replaced_by: Vec::new(alloc),
            queue: Vec::new(alloc),
            seen: Seen::new(alloc),
        }
    }

    // The root is live, without mark, and pending. Refused only where memory is wanting.
    fn add_root(&mut self) -> Result<(), NoMemory>
        ensures edges { self.new.edges ≡ self.old.edges }
        ensures order { self.new.order ≡ self.old.order }
        ensures live { OnOk result (self.new.live.items ≡ self.old.live.items ++ true ∷ []) }
        ensures marked { OnOk result
            (self.new.marked.items ≡ self.old.marked.items ++ false ∷ []) }
        ensures pending { OnOk result
            (Extends (self.old.pending ++ NewNode 0 ∷ []) self.new.pending) }
        ensures seen { self.new.seen ≡ self.old.seen }
    {
        self.live.push(true)?;
        self.marked.push(false)?;
        self.pending.push_node(0)
    }

    /// Makes an edge of the letter from a live node to a new one, whose number it gives; both are
    /// pending. Refused only where memory is wanting.
    pub fn define(&mut self, node: usize, letter: Letter) -> Result<usize, NoMemory>
        requires whole { (c : Congruence) × IsWhole c self.old
            × (letter < c.presentation.letters) }
        requires node { IsOn self.old.live.items node }
        requires missing { target_of self.old.edges.graph node letter ≡ None }
        ensures whole { OnOk result ((c : Congruence) → IsWhole c self.old → IsWhole c self.new) }
        ensures fresh { IfOk result (λ n. n ≡ length self.old.edges.graph) }
        ensures graph { IfOk result (λ n. (c : Congruence) → IsWhole c self.old
            → self.new.edges.graph
            ≡ with_edge (with_node c.presentation.letters self.old.edges.graph) node letter n) }
        ensures live { OnOk result (self.new.live.items ≡ self.old.live.items ++ true ∷ []) }
        ensures marked { OnOk result
            (self.new.marked.items ≡ self.old.marked.items ++ false ∷ []) }
    {
        let _letters = self.edges.letters();
        let fresh = self.edges.nodes();
        self.seen.cut(fresh);
        self.live.push(true)?;
        self.marked.push(false)?;
        self.order.add_node()?;
        self.pending.push_edge(node, letter)?;
        self.pending.push_node(fresh)?;
        self.edges.add_node()?;
        self.edges.set_edge(node, letter, fresh);
        Ok(fresh)
    }
}
