// Coset tables.
ghost use Rattle.std.specs.Prelude.{◌≡◌, ◌≢◌, ℕ, ◌<◌, ◌≤◌, ◌+◌, Bool, true, false, List, [], ◌∷◌, length, replicate, slice_index_or, slice_set, IfOk, OnOk, OnErr, IsTrue, IsErr, Option, None, Some, MatchOption, ◌⊎◌};
ghost use Rattle.std.specs.Option.{ForSome};
ghost use Rattle.theory.specs.Congruence.{IsRightSided};
ghost use Rattle.theory.specs.Word.{Word as Letters};
ghost use Rattle.theory.specs.Facts.{AllDefined, ClosedAll, ClosedAt};
ghost use Rattle.theory.specs.Graph.{target as target_of, path, SameEnd, PathsRelate, Shows, IsGraph};
ghost use Rattle.word_graph.specs.Standard.{IsStandardGraph};
ghost use Rattle.word_graph.specs.Walk.{IsFirstMissing};
ghost use Rattle.coincidence.specs.Closing.{ClosedThere};
ghost use Rattle.coincidence.specs.Holding.{HoldBefore, HoldFrom, IsReach, MeetAt};
ghost use Rattle.coincidence.specs.Links.{IsSources};
ghost use Rattle.coincidence.specs.Marks.{AllMarked, IsFirstUnmarked, KeepsMarks, KeepsNumbers};
ghost use Rattle.coincidence.specs.Merged.{MergedNodes};
ghost use Rattle.coincidence.specs.Table.{CosetTable, IsTable, IsLive, IsDefined, IsDrawn, HoldWhereMarked, links_of};

use crate::closing::Reach;
use crate::copies::word_graph;
use crate::cosets::Cosets;
use crate::indexed::Indexed;
use ports::NoMemory;
use presentation::Congruence;
use std::alloc::Global;
use std::marker::Model;
use word_graph::WordGraph;
use words::Letter;

/// The coset table of a congruence (libsemigroups, `ToddCoxeter`): a partial rooted word graph with
/// root 0, of which some nodes are live, and of these some marked. The live nodes are exactly those
/// that some word leads to from the root, and only they have edges. The root is always live. For
/// each node and letter, the nodes whose edge of the letter leads to the node stand in a list.
///
/// Each call that gives a `Result` may find memory wanting. It then answers `NoMemory`, as does
/// each later call, and the table shows the root alone. Nodes stand in four bytes, so that there is
/// no memory for more than 2³² − 1 of them.
#[derive(Drop)]
pub struct Table {
    alloc: Global,
    congruence: Indexed,
    cosets: Cosets,
    failed: bool,
}

impl Model for Table {
    ghost use Rattle.coincidence.specs.Table.{CosetTable, IsHeld, shown};

    ghost Value = { CosetTable };

    ghost view = { λ t. shown t.congruence.congruence t.failed t.cosets };

    ghost invariant = { λ t. IsHeld t.congruence.congruence t.failed t.cosets };
}

// Memory was wanting: the table answers so from now on.
fn fail(failed: &mut bool) -> NoMemory
    ensures { failed.new ≡ true }
{
    *failed = true;
    NoMemory
}

impl Table {
    /// The table of the congruence with the root alone and no edge. The congruence has right pairs,
    /// or none. Refused only where memory is wanting.
    pub fn new(alloc: Global, congruence: &Congruence) -> Result<Table, NoMemory>
        requires { IsRightSided congruence.now.congruence }
        ensures table { IfOk result IsTable }
        ensures congruence { IfOk result (λ t. t.congruence ≡ congruence.now.congruence) }
        ensures graph { IfOk result (λ t. t.graph
            ≡ replicate congruence.now.congruence.presentation.letters None ∷ []) }
        ensures live { IfOk result (λ t. t.live ≡ true ∷ []) }
        ensures marked { IfOk result (λ t. t.marked ≡ false ∷ []) }
        ensures ok { IfOk result (λ t. t.failed ≡ false) }
    {
        let cosets = Cosets::new(alloc, congruence.presentation().letters())?;
        let _letters = cosets.edges.letters();
        match Indexed::copy_of(alloc, congruence) {
            Ok(congruence) => Ok(Table {
                alloc,
                congruence,
                cosets,
                failed: false,
            }),
            Err(fault) => {
                drop(cosets);
                Err(fault)
            }
        }
    }

    /// Where the edge of the letter leads from the node. `None` exactly where there is no such
    /// edge. No call on the table has found memory wanting.
    pub fn target(&self, node: usize, letter: Letter) -> Option<usize>
        requires { self.now.failed ≡ false }
        ensures { result ≡ target_of self.now.graph node letter }
    {
        self.cosets.edges.target(node, letter)
    }

    /// The next relation, this one or one behind it, that is not known to hold at the live node:
    /// of those before it both sides lead from the node to one node. It tells nothing of the
    /// relation itself, and may be behind the last one.
    pub fn next_unknown(&self, node: usize, relation: usize) -> usize
        requires { IsLive self.now node }
        ensures { HoldFrom self.now.congruence.presentation.relations self.now.graph node relation
            result }
    {
        if self.failed {
            return relation;
        }
        self.cosets.seen.next_unseen(node, relation)
    }

    /// The first in the list of the nodes whose edge of the letter leads to the node. `None`
    /// exactly where there is none. No call on the table has found memory wanting.
    pub fn first_source(&self, node: usize, letter: Letter) -> Option<usize>
        requires { self.now.failed ≡ false }
        ensures first { result ≡ target_of self.now.firsts node letter }
        ensures list { (list : List ℕ) × IsSources (links_of self.now) node letter list }
    {
        let _letters = self.cosets.edges.letters();
        self.cosets.edges.first_source(node, letter)
    }

    /// The node after this one in the list of the nodes whose edge of the letter leads where its
    /// own does. `None` exactly where it is the last. The node has an edge of the letter, and no
    /// call on the table has found memory wanting.
    pub fn next_source(&self, node: usize, letter: Letter) -> Option<usize>
        requires failed { self.now.failed ≡ false }
        requires edge { target_of self.now.graph node letter ≢ None }
        ensures next { result ≡ target_of self.now.nexts node letter }
        ensures list { (to : ℕ) → target_of self.now.graph node letter ≡ Some to
            → (list : List ℕ) × IsSources (links_of self.now) to letter list }
    {
        let _letters = self.cosets.edges.letters();
        self.cosets.edges.next_source(node, letter)
    }

    /// Makes an edge of the letter from the live node to a new node, which is live and not marked,
    /// and tells its number. The node had no such edge.
    pub fn define(&mut self, node: usize, letter: Letter) -> Result<usize, NoMemory>
        requires node { IsLive self.old node }
        requires letter { letter < self.old.congruence.presentation.letters }
        requires missing { target_of self.old.graph node letter ≡ None }
        ensures ok { IfOk result (IsDefined self.old self.new node letter) }
        ensures err { OnErr result (self.new.failed ≡ true) }
        ensures failed { self.old.failed ≡ true → IsErr result }
        ensures congruence { self.new.congruence ≡ self.old.congruence }
        ensures table { IsTable self.new }
    {
        if self.failed {
            return Err(NoMemory);
        }
        match self.cosets.define(node, letter) {
            Ok(fresh) => {
                let _letters = self.cosets.edges.letters();
                Ok(fresh)
            }
            Err(NoMemory) => Err(fail(&mut self.failed)),
        }
    }

    /// Makes an edge of the letter from one live node to another. The node had no such edge.
    pub fn draw(&mut self, node: usize, letter: Letter, to: usize) -> Result<(), NoMemory>
        requires node { IsLive self.old node }
        requires to { IsLive self.old to }
        requires letter { letter < self.old.congruence.presentation.letters }
        requires missing { target_of self.old.graph node letter ≡ None }
        ensures ok { OnOk result (IsDrawn self.old self.new node letter to) }
        ensures err { OnErr result (self.new.failed ≡ true) }
        ensures failed { self.old.failed ≡ true → IsErr result }
        ensures congruence { self.new.congruence ≡ self.old.congruence }
        ensures table { IsTable self.new }
    {
        if self.failed {
            return Err(NoMemory);
        }
        let Ok(()) = self.cosets.pending.push_edge(node, letter) else {
            return Err(fail(&mut self.failed));
        };
        self.cosets.edges.set_edge(node, letter, to);
        let _letters = self.cosets.edges.letters();
        Ok(())
    }

    /// Makes two live nodes one, and with them all nodes to which this leads: the paths then relate
    /// what they related before, the words that lead to the one node and the words that lead to the
    /// other, and what follows from that by adding letters (a coincidence: Sims 1994, 5.1). The
    /// numbers of nodes stay, and nodes that are merged into another are no longer live. A word's
    /// node is marked then where the word is related to one whose node was marked.
    pub fn identify(&mut self, x: usize, y: usize) -> Result<(), NoMemory>
        requires x { IsLive self.old x }
        requires y { IsLive self.old y }
        ensures relates { OnOk result (PathsRelate self.new.graph
            (MergedNodes self.old.graph x y)) }
        ensures marks { OnOk result (KeepsMarks self.old.graph self.old.marked self.new.graph
            self.new.marked) }
        ensures numbers { OnOk result (KeepsNumbers self.old.graph self.new.graph) }
        ensures ok { OnOk result (self.new.failed ≡ false) }
        ensures err { OnErr result (self.new.failed ≡ true) }
        ensures failed { self.old.failed ≡ true → IsErr result }
        ensures congruence { self.new.congruence ≡ self.old.congruence }
        ensures table { IsTable self.new }
    {
        if self.failed {
            return Err(NoMemory);
        }
        match self.cosets.identify(x, y) {
            Ok(()) => {
                let _letters = self.cosets.edges.letters();
                Ok(())
            }
            Err(NoMemory) => Err(fail(&mut self.failed)),
        }
    }

    // Draws what follows from the relations, read at every node or at one alone, and from the
    // pairs.
    fn close(&mut self, reach: Reach) -> Result<(), NoMemory>
        requires { IsReach self.old.congruence.presentation.relations self.old.graph
            self.old.live self.old.marked reach }
        ensures relates { OnOk result (PathsRelate self.new.graph
            (ClosedThere self.old.congruence self.old.graph reach.at)) }
        ensures marks { OnOk result (KeepsMarks self.old.graph self.old.marked self.new.graph
            self.new.marked) }
        ensures numbers { OnOk result (KeepsNumbers self.old.graph self.new.graph) }
        ensures nodes { OnOk result (length self.new.graph ≡ length self.old.graph) }
        ensures ok { OnOk result (self.new.failed ≡ false) }
        ensures err { OnErr result (self.new.failed ≡ true) }
        ensures failed { self.old.failed ≡ true → IsErr result }
        ensures congruence { self.new.congruence ≡ self.old.congruence }
        ensures table { IsTable self.new }
    {
        if self.failed {
            return Err(NoMemory);
        }
        match self.cosets.close(&self.congruence, reach) {
            Ok(()) => {
                let _letters = self.cosets.edges.letters();
                Ok(())
            }
            Err(NoMemory) => Err(fail(&mut self.failed)),
        }
    }

    /// Draws all that follows from the relations, read at the words that lead to the live node, and
    /// from the pairs, read at the empty word, until nothing new follows: the paths then relate
    /// what they related before, and what follows from it (the row of a word: Sims 1994, 5.2).
    /// So many relations, the first ones, hold at the node already, and are not read there; 0 is
    /// always right. Marks go with their words, as at `identify`.
    pub fn close_at(&mut self, node: usize, held: usize) -> Result<(), NoMemory>
        requires node { IsLive self.old node }
        requires held { HoldBefore self.old.congruence.presentation.relations self.old.graph node
            held }
        ensures relates { OnOk result ((w : Letters) → path self.old.graph 0 w ≡ Some node
            → PathsRelate self.new.graph
            (ClosedAt self.old.congruence (SameEnd self.old.graph) w)) }
        ensures marks { OnOk result (KeepsMarks self.old.graph self.old.marked self.new.graph
            self.new.marked) }
        ensures numbers { OnOk result (KeepsNumbers self.old.graph self.new.graph) }
        ensures ok { OnOk result (self.new.failed ≡ false) }
        ensures err { OnErr result (self.new.failed ≡ true) }
        ensures failed { self.old.failed ≡ true → IsErr result }
        ensures congruence { self.new.congruence ≡ self.old.congruence }
        ensures table { IsTable self.new }
    {
        self.close(Reach {
            at: Some(node),
            held,
            marked: false,
        })
    }

    // All nodes are pending, where much is.
    fn gather(&mut self) -> Result<(), NoMemory>
        ensures same { OnOk result (self.new ≡ self.old) }
        ensures err { OnErr result (self.new.failed ≡ true) }
        ensures failed { self.old.failed ≡ true → IsErr result }
        ensures congruence { self.new.congruence ≡ self.old.congruence }
        ensures table { IsTable self.new }
    {
        if self.failed {
            return Err(NoMemory);
        }
        match self.cosets.pending.gather(self.cosets.live.len()) {
            Ok(()) => Ok(()),
            Err(NoMemory) => Err(fail(&mut self.failed)),
        }
    }

    /// Draws all that follows from the relations, read at each word that has a path, and from the
    /// pairs, read at the empty word, until nothing new follows: the paths then relate what they
    /// related before, and what follows from it. Marks go with their words, as at `identify`.
    pub fn close_all(&mut self) -> Result<(), NoMemory>
        ensures relates { OnOk result (PathsRelate self.new.graph
            (ClosedAll self.old.congruence (SameEnd self.old.graph))) }
        ensures marks { OnOk result (KeepsMarks self.old.graph self.old.marked self.new.graph
            self.new.marked) }
        ensures numbers { OnOk result (KeepsNumbers self.old.graph self.new.graph) }
        ensures nodes { OnOk result (length self.new.graph ≡ length self.old.graph) }
        ensures ok { OnOk result (self.new.failed ≡ false) }
        ensures err { OnErr result (self.new.failed ≡ true) }
        ensures failed { self.old.failed ≡ true → IsErr result }
        ensures congruence { self.new.congruence ≡ self.old.congruence }
        ensures table { IsTable self.new }
    {
        self.gather()?;
        self.close(Reach {
            at: None,
            held: 0,
            marked: false,
        })
    }

    // All live nodes without a mark are pending, where more is.
    fn gather_unmarked(&mut self) -> Result<(), NoMemory>
        requires { HoldWhereMarked self.old }
        ensures same { OnOk result (self.new ≡ self.old) }
        ensures err { OnErr result (self.new.failed ≡ true) }
        ensures failed { self.old.failed ≡ true → IsErr result }
        ensures congruence { self.new.congruence ≡ self.old.congruence }
        ensures table { IsTable self.new }
    {
        if self.failed {
            return Err(NoMemory);
        }
        match self
            .cosets
            .pending
            .gather_unmarked(&self.cosets.live, &self.cosets.marked)
        {
            Ok(()) => Ok(()),
            Err(NoMemory) => Err(fail(&mut self.failed)),
        }
    }

    /// As [`close_all`](Table::close_all), where both sides of each relation lead from each marked
    /// node to one node: relations need be read at the other nodes alone.
    pub fn close_unmarked(&mut self) -> Result<(), NoMemory>
        requires { HoldWhereMarked self.old }
        ensures relates { OnOk result (PathsRelate self.new.graph
            (ClosedAll self.old.congruence (SameEnd self.old.graph))) }
        ensures marks { OnOk result (KeepsMarks self.old.graph self.old.marked self.new.graph
            self.new.marked) }
        ensures numbers { OnOk result (KeepsNumbers self.old.graph self.new.graph) }
        ensures nodes { OnOk result (length self.new.graph ≡ length self.old.graph) }
        ensures ok { OnOk result (self.new.failed ≡ false) }
        ensures err { OnErr result (self.new.failed ≡ true) }
        ensures failed { self.old.failed ≡ true → IsErr result }
        ensures congruence { self.new.congruence ≡ self.old.congruence }
        ensures table { IsTable self.new }
    {
        self.gather_unmarked()?;
        self.close(Reach {
            at: None,
            held: 0,
            marked: true,
        })
    }

    /// Marks the live node, and changes nothing else.
    pub fn mark(&mut self, node: usize) -> Result<(), NoMemory>
        requires { IsLive self.old node }
        ensures ok { OnOk result (self.new
            ≡ record self.old { marked = slice_set self.old.marked node true }) }
        ensures err { OnErr result (self.new.failed ≡ true) }
        ensures failed { self.old.failed ≡ true → IsErr result }
        ensures congruence { self.new.congruence ≡ self.old.congruence }
        ensures table { IsTable self.new }
    {
        if self.failed {
            return Err(NoMemory);
        }
        self.cosets.marked[node] = true;
        Ok(())
    }

    /// The node of the least word in short-lex order whose node is not marked. `None` exactly where
    /// each live node is marked.
    pub fn first_unprocessed(&mut self) -> Result<Option<usize>, NoMemory>
        ensures first { IfOk result (λ found. MatchOption found
            (AllMarked self.old.graph self.old.marked)
            (IsFirstUnmarked self.old.graph self.old.marked)) }
        ensures same { OnOk result (self.new ≡ self.old) }
        ensures err { OnErr result (self.new.failed ≡ true) }
        ensures failed { self.old.failed ≡ true → IsErr result }
        ensures congruence { self.new.congruence ≡ self.old.congruence }
        ensures table { IsTable self.new }
    {
        if self.failed {
            return Err(NoMemory);
        }
        let letters = self.congruence.presentation().letters();
        match self.cosets.order.first_unmarked(
            self.alloc,
            &self.cosets.edges,
            letters,
            &self.cosets.marked,
        ) {
            Ok(found) => Ok(found),
            Err(NoMemory) => Err(fail(&mut self.failed)),
        }
    }

    /// The least word in short-lex order that has no path, as the live node that all but its last
    /// letter lead to, and that letter. `None` exactly where each word has a path.
    pub fn first_missing(&mut self) -> Result<Option<(usize, Letter)>, NoMemory>
        ensures first { IfOk result (λ found. MatchOption found
            (AllDefined self.old.congruence.presentation.letters (SameEnd self.old.graph))
            (λ p. IsFirstMissing self.old.congruence.presentation.letters self.old.graph p.0 p.1)) }
        ensures same { OnOk result (self.new ≡ self.old) }
        ensures err { OnErr result (self.new.failed ≡ true) }
        ensures failed { self.old.failed ≡ true → IsErr result }
        ensures congruence { self.new.congruence ≡ self.old.congruence }
        ensures table { IsTable self.new }
    {
        if self.failed {
            return Err(NoMemory);
        }
        let letters = self.congruence.presentation().letters();
        match self.cosets.order.first_missing(&self.cosets.edges, letters) {
            Ok(found) => Ok(found),
            Err(NoMemory) => Err(fail(&mut self.failed)),
        }
    }

    /// The live part of the table as a word graph of its own, whose equal paths are those of the
    /// table: each of its nodes is reached. It is standard where each word has a path.
    pub fn graph(&mut self) -> Result<WordGraph, NoMemory>
        ensures shows { IfOk result (λ g. Shows g (SameEnd self.old.graph)) }
        ensures graph { IfOk result (λ g. IsGraph self.old.congruence.presentation.letters g) }
        ensures standard { IfOk result (λ g. AllDefined self.old.congruence.presentation.letters
            (SameEnd self.old.graph) → IsStandardGraph self.old.congruence.presentation.letters g) }
        ensures same { OnOk result (self.new ≡ self.old) }
        ensures err { OnErr result (self.new.failed ≡ true) }
        ensures failed { self.old.failed ≡ true → IsErr result }
        ensures congruence { self.new.congruence ≡ self.old.congruence }
        ensures table { IsTable self.new }
    {
        if self.failed {
            return Err(NoMemory);
        }
        match self.live_graph() {
            Ok(graph) => Ok(graph),
            Err(NoMemory) => Err(fail(&mut self.failed)),
        }
    }

    /// As [`graph`](Table::graph), of a table that is only lent. Refused only where memory is
    /// wanting, for which no later call answers, or was for an earlier one.
    pub fn live_graph(&self) -> Result<WordGraph, NoMemory>
        ensures shows { IfOk result (λ g. Shows g (SameEnd self.now.graph)) }
        ensures graph { IfOk result (λ g. IsGraph self.now.congruence.presentation.letters g) }
        ensures standard { IfOk result (λ g. AllDefined self.now.congruence.presentation.letters
            (SameEnd self.now.graph) → IsStandardGraph self.now.congruence.presentation.letters g) }
        ensures failed { self.now.failed ≡ true → IsErr result }
    {
        let _congruence = &self.congruence;
        if self.failed {
            return Err(NoMemory);
        }
        let graph = word_graph(&self.cosets.edges, self.alloc)?;
        let standard = graph.standardise(self.alloc)?;
        Ok(standard)
    }
}
