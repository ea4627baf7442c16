// The strategy of rows with lookahead, a row at a time.
ghost use Rattle.std.specs.Prelude.{◌≡◌, ℕ, ◌+◌, ◌≤◌, min, [], ◌∷◌, replicate, IfOk, OnOk, true, false, ◌↔◌, IsTrue, None};
ghost use Rattle.theory.specs.Congruence.{IsRightSided};
ghost use Rattle.theory.specs.Facts.{AllDefined, ClosedAll};
ghost use Rattle.theory.specs.Graph.{SameEnd, PathsRelate, Shows, IsGraph};
ghost use Rattle.word_graph.specs.Standard.{IsStandardGraph};
ghost use Rattle.coincidence.specs.Table.{HoldWhereMarked};
ghost use Rattle.coincidence.specs.Marks.{KeepsMarks};
ghost use Rattle.coincidence.specs.Table.{IsTable};
ghost use Rattle.theory.specs.Hlt.{has_lookahead};
ghost use Rattle.coset_enumeration.specs.Enumeration.{IsFresh};
ghost use Rattle.tc_hlt.specs.Stage.{IsAtEnd, IsAtStage, HasRows, HasLastRow, IsWhole, IsReady, Stands, IsTurn, TellsNext};

use crate::rows::{make_row, trace};
use coincidence::Table;
use coset_enumeration::answer;
use ports::NoMemory;
use presentation::Congruence;
use race::{Progress, Racer};
use std::alloc::Global;
use std::marker::Model;
use word_graph::WordGraph;

// How many rows are made from one lookahead to the next.
const LOOKAHEAD_ROWS: usize = 100;

/// A coset enumeration by the strategy of Haselgrove, Leech and Trotter with lookahead and a budget
/// of rows: an engine that decides whether after at most so many each defined word is related to
/// one with a row, or all words are defined after a lookahead.
#[derive(Drop)]
pub struct Hlt {
    congruence: Congruence,
    table: Table,
    budget: usize,
    made: usize,
    begun: bool,
    next: usize,
    said: Progress,
}

impl Model for Hlt {
    ghost use Rattle.coset_enumeration.specs.Enumeration.{EnumerationRun, run_of};
    ghost use Rattle.tc_hlt.specs.Stage.{IsRun};

    ghost Value = { EnumerationRun };

    ghost view = { λ h. run_of h.table h.budget h.made h.begun h.said };

    ghost invariant = { λ h. IsRun h.table h.congruence.congruence h.next
        (run_of h.table h.budget h.made h.begun h.said) };
}

// Traces both sides of each pair from the root, and makes their ends one.
fn start(table: &mut Table, congruence: &Congruence) -> Result<(), NoMemory>
    requires table { IsTable table.old }
    requires fresh { IsFresh table.old }
    requires congruence { congruence.now.congruence ≡ table.old.congruence }
    ensures ready { OnOk result (IsReady table.new 0 0) }
    ensures congruence { table.new.congruence ≡ table.old.congruence }
    ensures table { IsTable table.new }
{
    let pairs = congruence.pairs();
    for i in 0..pairs.len() {
        let pair = pairs.pair(i);
        let first = trace(table, 0, &pair.0)?;
        let second = trace(table, 0, &pair.1)?;
        table.identify(first, second)?;
    }
    Ok(())
}

// Starts, if no turn was made.
fn begin(table: &mut Table, congruence: &Congruence, begun: bool) -> Result<(), NoMemory>
    requires table { IsTable table.old }
    requires fresh { begun ≡ false → IsFresh table.old }
    requires congruence { congruence.now.congruence ≡ table.old.congruence }
    ensures ready { OnOk result ((made node : ℕ) → Stands table.old begun made node
        → IsReady table.new made node) }
    ensures congruence { table.new.congruence ≡ table.old.congruence }
    ensures table { IsTable table.new }
{
    if begun {
        return Ok(());
    }
    start(table, congruence)
}

// Whether a lookahead comes after so many rows.
fn is_lookahead(made: usize) -> bool
    ensures { result ≡ has_lookahead made }
{
    0 < made && made % LOOKAHEAD_ROWS == 0
}

// Draws all facts at all words; at those with a row the relations hold. Tells whether each word has
// a path then.
fn draw_all(table: &mut Table) -> Result<bool, NoMemory>
    requires table { IsTable table.old }
    requires rows { HoldWhereMarked table.old }
    ensures relates { OnOk result (PathsRelate table.new.graph
        (ClosedAll table.old.congruence (SameEnd table.old.graph))) }
    ensures marks { OnOk result (KeepsMarks table.old.graph table.old.marked table.new.graph
        table.new.marked) }
    ensures whole { IfOk result (λ whole. IsTrue whole
        ↔ AllDefined table.new.congruence.presentation.letters (SameEnd table.new.graph)) }
    ensures ok { OnOk result (table.new.failed ≡ false) }
    ensures congruence { table.new.congruence ≡ table.old.congruence }
    ensures table { IsTable table.new }
{
    table.close_unmarked()?;
    let missing = table.first_missing()?;
    Ok(missing.is_none())
}

// The lookahead after the last row, if one comes. Tells whether each word has a path after it.
fn look_ahead(table: &mut Table, made: usize) -> Result<bool, NoMemory>
    requires table { IsTable table.old }
    requires row { HasLastRow table.old made }
    ensures rows { OnOk result (HasRows table.new made) }
    ensures whole { IfOk result (λ whole. IsTrue whole ↔ IsWhole table.new made) }
    ensures congruence { table.new.congruence ≡ table.old.congruence }
    ensures table { IsTable table.new }
{
    if !is_lookahead(made) {
        return Ok(false);
    }
    draw_all(table)
}

// Makes the row of the node, if one is due, and the lookahead after it. Tells whether each word has
// a path after a lookahead.
fn row_due(
    table: &mut Table,
    congruence: &Congruence,
    row: Option<usize>,
    made: usize,
) -> Result<bool, NoMemory>
    requires table { IsTable table.old }
    requires turn { IsTurn table.old true row made }
    requires congruence { congruence.now.congruence ≡ table.old.congruence }
    ensures rows { OnOk result (HasRows table.new made) }
    ensures whole { IfOk result (λ whole. IsTrue whole ↔ IsWhole table.new made) }
    ensures congruence { table.new.congruence ≡ table.old.congruence }
    ensures table { IsTable table.new }
{
    let Some(node) = row else {
        return Ok(false);
    };
    make_row(table, congruence, node)?;
    look_ahead(table, made)
}

// One turn: the row of the node, if one is due, and the lookahead after it, with which so many rows
// are made. Tells the node of the next row, unless the strategy has ended.
fn go_on(
    table: &mut Table,
    congruence: &Congruence,
    begun: bool,
    row: Option<usize>,
    made: usize,
) -> Result<Option<usize>, NoMemory>
    requires table { IsTable table.old }
    requires turn { IsTurn table.old begun row made }
    requires congruence { congruence.now.congruence ≡ table.old.congruence }
    ensures rows { OnOk result (HasRows table.new made) }
    ensures next { IfOk result (TellsNext table.new made) }
    ensures congruence { table.new.congruence ≡ table.old.congruence }
    ensures table { IsTable table.new }
{
    begin(table, congruence, begun)?;
    let whole = row_due(table, congruence, row, made)?;
    if whole {
        return Ok(None);
    }
    table.first_unprocessed()
}

// The rows made after a turn: one more, within the budget.
fn count(made: usize, budget: usize) -> usize
    requires { made ≤ budget }
    ensures { result ≡ min (made + 1) budget }
{
    if made < budget { made + 1 } else { made }
}

impl Racer for Hlt {
    ghost use Rattle.std.specs.Prelude.{◌≡◌, ◌≢◌, ℕ, ◌<◌, ◌≤◌, ◌+◌, min, true};
    ghost use Rattle.race.specs.declared.engines.Progress.{Progress as Answer};
    ghost use Rattle.theory.specs.Hlt.{HltEnds};
    ghost use Rattle.coset_enumeration.specs.Enumeration.{EnumerationTask};
    ghost use Rattle.tc_hlt.specs.Stage.{left_of, IsAtStage};

    ghost Task = { EnumerationTask };

    ghost task = { λ h. record { congruence = h.congruence; budget = h.budget } };

    ghost condition = { λ t. HltEnds t.congruence t.budget };

    ghost measure = { left_of };

    ghost said = { λ h. h.said };

    /// One row with all that follows from it, and after a row whose number is a multiple of 100 all
    /// that follows at all words; at the first turn, before it, what the pairs give. Without a
    /// budget no row is made. After it the paths of the graph relate what the facts of the stage
    /// with so many rows do, unless memory was wanting.
    fn advance(&mut self) -> Progress
        ensures task { (self.new.congruence ≡ self.old.congruence)
            × (self.new.budget ≡ self.old.budget) }
        ensures said { self.new.said ≡ result }
        ensures decided { result ≡ Answer.Decided → HltEnds self.new.congruence self.new.budget }
        ensures spent { result ≡ Answer.Spent → ¬ (HltEnds self.new.congruence self.new.budget) }
        ensures more { result ≡ Answer.More → left_of self.new < left_of self.old }
        ensures stays_decided { self.old.said ≡ Answer.Decided
            → (result ≡ Answer.Decided) × (self.new ≡ self.old) }
        ensures stays_spent { self.old.said ≡ Answer.Spent
            → (result ≡ Answer.Spent) × (self.new ≡ self.old) }
        ensures stays_out_of_memory { self.old.said ≡ Answer.NoMemory → result ≡ Answer.NoMemory }
        ensures stage { result ≢ Answer.NoMemory
            → IsAtStage self.new.congruence self.new.made self.new.graph }
        ensures within { result ≢ Answer.NoMemory → self.new.made ≤ self.new.budget }
        ensures made { self.old.said ≡ Answer.More → result ≢ Answer.NoMemory
            → self.new.made ≡ min (self.old.made + 1) self.old.budget }
        ensures begun { self.new.begun ≡ true }
    {
        let Progress::More = self.said else {
            return self.said;
        };
        let row = (self.made < self.budget).then_some(self.next);
        let made = count(self.made, self.budget);
        let Ok(next) = go_on(&mut self.table, &self.congruence, self.begun, row, made) else {
            self.begun = true;
            self.said = Progress::NoMemory;
            return Progress::NoMemory;
        };
        self.made = made;
        self.begun = true;
        self.said = answer(next.is_some(), self.made, self.budget);
        self.next = next.unwrap_or(0);
        self.said
    }
}

impl Hlt {
    /// The enumeration of the congruence with a budget of so many rows. No turn has been made. The
    /// congruence has right pairs, or none. Refused only where memory is wanting.
    pub fn new(alloc: Global, congruence: &Congruence, rows: usize) -> Result<Hlt, NoMemory>
        requires { IsRightSided congruence.now.congruence }
        ensures { IfOk result (λ h. h ≡ record {
          congruence = congruence.now.congruence;
          budget = rows;
          made = 0;
          begun = false;
          graph = replicate congruence.now.congruence.presentation.letters None ∷ [];
          said = Progress.More;
        }) }
    {
        let table = Table::new(alloc, congruence)?;
        Ok(Hlt {
            congruence: congruence.copy(alloc)?,
            table,
            budget: rows,
            made: 0,
            begun: false,
            next: 0,
            said: Progress::More,
        })
    }

    /// Whether a turn has given `Decided`.
    pub fn is_decided(&self) -> bool
        ensures { IsTrue result ↔ (self.now.said ≡ Progress.Decided) }
    {
        self.said == Progress::Decided
    }

    /// The graph of an enumeration that is decided: the standard one with the equal paths of the
    /// table, which shows the facts of the last stage, at which the strategy has ended and each
    /// word is defined. Refused only where memory is wanting.
    pub fn graph(&self) -> Result<WordGraph, NoMemory>
        requires { self.now.said ≡ Progress.Decided }
        ensures standard { IfOk result (λ g. IsStandardGraph
            self.now.congruence.presentation.letters g) }
        ensures shows { IfOk result (λ g. Shows g (SameEnd self.now.graph)) }
        ensures end { IfOk result (λ g. IsAtEnd self.now.congruence self.now.made g) }
        ensures graph { IfOk result (λ g. IsGraph self.now.congruence.presentation.letters g) }
        ensures complete { IfOk result (λ g. AllDefined self.now.congruence.presentation.letters
            (SameEnd g)) }
    {
        let _budget = self.budget;
        let graph = self.table.live_graph()?;
        Ok(graph)
    }
}
