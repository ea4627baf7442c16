// All that follows, drawn from what is pending.
ghost use Rattle.std.specs.Prelude.{◌≡◌, ◌≢◌, None, Some, true, IfOk, OnOk};
ghost use Rattle.std.specs.Option.{ForSome};
ghost use Rattle.theory.specs.Graph.{PathsRelate};
ghost use Rattle.coincidence.specs.Closing.{ClosedThere};
ghost use Rattle.coincidence.specs.DueSpec.{IsDueIn};
ghost use Rattle.coincidence.specs.Holding.{HoldBefore, HoldOnceDrawn, HoldWhere, IsReach};
ghost use Rattle.coincidence.specs.Cosets.{IsGathered, IsWhole};
ghost use Rattle.coincidence.specs.Live.{IsLiveGraph, IsOn};
ghost use Rattle.coincidence.specs.Pending.{IsClosedBut};
ghost use Rattle.coincidence.specs.Drawing.{IsDueOf};
ghost use Rattle.coincidence.specs.Seen.{HoldWhereSeen};
ghost use Rattle.coincidence.specs.declared.due.Due.TheVariants.{Nothing};

use crate::cosets::Cosets;
use crate::crossings::due_through;
use crate::due::Due;
use crate::edges::Edges;
use crate::indexed::Indexed;
use crate::pending::{Pending, Worklist};
use crate::reads::{due_at, due_at_start, due_from, due_or_held};
use crate::seen::Seen;
use ports::NoMemory;

// What the relations ask for at a node, or across an edge, that is pending.
fn due_of(
    congruence: &Indexed,
    edges: &Edges,
    live: &Vec<bool>,
    entry: Pending,
    seen: &mut Seen,
) -> Due
    requires live { IsLiveGraph edges.now.graph live.now.items }
    requires seen { HoldWhereSeen congruence.now.congruence.presentation.relations edges.now.graph
        seen.old }
    ensures due { IsDueOf congruence.now.congruence.presentation.relations edges.now.graph
        live.now.items entry result }
    ensures seen { HoldWhereSeen congruence.now.congruence.presentation.relations edges.now.graph
        seen.new }
{
    match entry {
        Pending::NewNode(node) => {
            if live.len() <= node {
                return Due::Nothing;
            }
            if !live[node] {
                return Due::Nothing;
            }
            due_at_start(edges, node, congruence, seen)
        }
        Pending::NewEdge(node, letter) => {
            let Some(_) = edges.target(node, letter) else {
                return Due::Nothing;
            };
            due_through(edges, node, letter, congruence, seen)
        }
    }
}

// What relations or pairs ask for, with nothing read but what is pending, and the pairs at the
// root.
fn due_next(
    congruence: &Indexed,
    edges: &Edges,
    live: &Vec<bool>,
    pending: &mut Worklist,
    seen: &mut Seen,
) -> Due
    requires live { IsLiveGraph edges.now.graph live.now.items }
    requires seen { HoldWhereSeen congruence.now.congruence.presentation.relations edges.now.graph
        seen.old }
    requires closed { IsClosedBut congruence.now.congruence.presentation.relations edges.now.graph
        live.now.items pending.old }
    ensures due { IsDueIn congruence.now.congruence edges.now.graph live.now.items None result }
    ensures closed { IsClosedBut congruence.now.congruence.presentation.relations edges.now.graph
        live.now.items pending.new }
    ensures seen { HoldWhereSeen congruence.now.congruence.presentation.relations edges.now.graph
        seen.new }
{
    while let Some(entry) = pending.last() {
        match due_of(congruence, edges, live, entry, seen) {
            Due::Nothing => {
                pending.drop_last();
            }
            due => return due,
        }
    }
    due_at(edges, 0, congruence.pairs())
}

// What relations ask for at the nodes that are pending, with edges left for later. With nothing no
// node is pending any more.
fn due_in_nodes(
    congruence: &Indexed,
    edges: &Edges,
    live: &Vec<bool>,
    pending: &mut Worklist,
    seen: &mut Seen,
) -> Due
    requires live { IsLiveGraph edges.now.graph live.now.items }
    requires seen { HoldWhereSeen congruence.now.congruence.presentation.relations edges.now.graph
        seen.old }
    requires closed { IsClosedBut congruence.now.congruence.presentation.relations edges.now.graph
        live.now.items pending.old }
    ensures due { result ≢ Nothing → IsDueIn congruence.now.congruence edges.now.graph
        live.now.items None result }
    ensures closed { IsClosedBut congruence.now.congruence.presentation.relations edges.now.graph
        live.now.items pending.new }
    ensures seen { HoldWhereSeen congruence.now.congruence.presentation.relations edges.now.graph
        seen.new }
{
    while let Some(node) = pending.last_node() {
        match due_of(congruence, edges, live, node, seen) {
            Due::Nothing => {
                pending.drop_last();
            }
            due => return due,
        }
    }
    Due::Nothing
}

// What relations ask for at one node, or the pairs at the root. The relations before a place are
// known to hold at the node; the place goes past those that do once what is asked for is drawn.
fn due_there(
    congruence: &Indexed,
    edges: &Edges,
    live: &Vec<bool>,
    node: usize,
    held: &mut usize,
) -> Due
    requires live { IsLiveGraph edges.now.graph live.now.items }
    requires node { IsOn live.now.items node }
    requires held { HoldBefore congruence.now.congruence.presentation.relations edges.now.graph
        node held.old }
    ensures due { IsDueIn congruence.now.congruence edges.now.graph live.now.items (Some node)
        result }
    ensures held { HoldOnceDrawn congruence.now.congruence.presentation.relations edges.now.graph
        node result held.new }
{
    match due_at(edges, 0, congruence.pairs()) {
        Due::Nothing => {}
        due => return due,
    }
    let relations = congruence.relations();
    match due_or_held(edges, node, relations, held) {
        Due::Nothing => due_from(edges, node, relations, *held),
        due => due,
    }
}

/// Where relations are read: everywhere, or at one node, at which so many of them, the first ones,
/// hold; and whether they hold at all marked nodes.
#[derive(Clone, Copy)]
pub struct Reach {
    pub at: Option<usize>,
    pub held: usize,
    pub marked: bool,
}

impl Cosets {
    // Whether relations hold at marked nodes, and some node is pending.
    fn is_at_nodes(&self, marked: bool) -> bool
        ensures { result ≡ true → marked ≡ true }
    {
        marked && self.pending.has_node()
    }

    // What is asked for next anywhere, where relations hold at marked nodes. Once no node is
    // pending, those without a mark are, where that is less than the edges. Refused only where
    // memory is wanting.
    fn due_unmarked(&mut self, congruence: &Indexed) -> Result<Due, NoMemory>
        requires whole { IsWhole congruence.now.congruence self.old }
        requires hold { HoldWhere congruence.now.congruence.presentation.relations
            self.old.edges.graph self.old.marked.items }
        ensures same { OnOk result (self.new
            ≡ record self.old { pending = self.new.pending; seen = self.new.seen }) }
        ensures whole { OnOk result (IsWhole congruence.now.congruence self.new) }
        ensures due { IfOk result (IsDueIn congruence.now.congruence self.new.edges.graph
            self.new.live.items None) }
    {
        match due_in_nodes(
            congruence,
            &self.edges,
            &self.live,
            &mut self.pending,
            &mut self.seen,
        ) {
            Due::Nothing => {}
            due => return Ok(due),
        }
        self.pending.gather_unmarked(&self.live, &self.marked)?;
        Ok(due_next(
            congruence,
            &self.edges,
            &self.live,
            &mut self.pending,
            &mut self.seen,
        ))
    }

    // What is asked for next: anywhere, or at one node, at which the relations before a place are
    // known to hold; it goes past those that do once what is asked for is drawn. Entries that ask
    // for nothing are no longer pending. Refused only where memory is wanting.
    fn next_due(
        &mut self,
        congruence: &Indexed,
        at: Option<usize>,
        held: &mut usize,
        marked: bool,
    ) -> Result<Due, NoMemory>
        requires whole { IsWhole congruence.now.congruence self.old }
        requires at { ForSome at (IsOn self.old.live.items) }
        requires held { ForSome at (λ node. HoldBefore
            congruence.now.congruence.presentation.relations self.old.edges.graph node held.old) }
        requires hold { marked ≡ true → HoldWhere
            congruence.now.congruence.presentation.relations self.old.edges.graph
            self.old.marked.items }
        ensures same { OnOk result (self.new
            ≡ record self.old { pending = self.new.pending; seen = self.new.seen }) }
        ensures whole { OnOk result (IsWhole congruence.now.congruence self.new) }
        ensures due { IfOk result (IsDueIn congruence.now.congruence self.new.edges.graph
            self.new.live.items at) }
        ensures held { IfOk result (λ due. ForSome at (λ node. HoldOnceDrawn
            congruence.now.congruence.presentation.relations self.new.edges.graph node due
            held.new)) }
    {
        match at {
            None => {
                if self.is_at_nodes(marked) {
                    return self.due_unmarked(congruence);
                }
                Ok(due_next(
                    congruence,
                    &self.edges,
                    &self.live,
                    &mut self.pending,
                    &mut self.seen,
                ))
            }
            Some(node) => Ok(due_there(congruence, &self.edges, &self.live, node, held)),
        }
    }

    /// Draws what the relations ask for everywhere, or at one node and where it goes, and the pairs
    /// at the root, until nothing is left. Marks go with their nodes. Refused only where memory is
    /// wanting.
    pub fn close(&mut self, congruence: &Indexed, reach: Reach) -> Result<(), NoMemory>
        requires whole { IsWhole congruence.now.congruence self.old }
        requires reach { IsReach congruence.now.congruence.presentation.relations
            self.old.edges.graph self.old.live.items self.old.marked.items reach }
        ensures whole { OnOk result (IsWhole congruence.now.congruence self.new) }
        ensures relates { OnOk result (PathsRelate self.new.edges.graph
            (ClosedThere congruence.now.congruence self.old.edges.graph reach.at)) }
        ensures gathered { OnOk result (IsGathered self.old self.new) }
    {
        let mut place = reach.at;
        let mut held = reach.held;
        loop {
            match self.next_due(congruence, place, &mut held, reach.marked)? {
                Due::Nothing => return Ok(()),
                Due::Edge(node, letter, to) => {
                    self.pending.push_edge(node, letter)?;
                    self.edges.set_edge(node, letter, to);
                }
                Due::Join(_, _, x, y) => place = self.merge(x, y, place)?,
            }
        }
    }
}
