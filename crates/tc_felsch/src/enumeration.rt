// Felsch's strategy, a definition at a time.
ghost use Rattle.std.specs.Prelude.{◌≡◌, ◌≢◌, ℕ, suc, ◌+◌, ◌<◌, ◌≤◌, List, [], ◌∷◌, length, replicate, IfOk, OnOk, IfSome, IsSome, is_some, MatchOption, true, false, ◌↔◌, IsTrue, cond, Option, None, Some};
ghost use Rattle.theory.specs.Congruence.{IsRightSided};
ghost use Rattle.theory.specs.Facts.{AllDefined};
ghost use Rattle.theory.specs.Graph.{SameEnd, Shows, IsGraph};
ghost use Rattle.word_graph.specs.Walk.{IsFirstMissing};
ghost use Rattle.word_graph.specs.Standard.{IsStandardGraph};
ghost use Rattle.coincidence.specs.Table.{CosetTable, IsTable, IsDefined};
ghost use Rattle.tc_felsch.specs.Stage.{IsAtStage};

use coincidence::Table;
use coset_enumeration::answer;
use ports::NoMemory;
use presentation::Congruence;
use race::{Progress, Racer};
use std::alloc::Global;
use std::marker::Model;
use word_graph::WordGraph;
use words::Letter;

/// A coset enumeration by Felsch's strategy with a budget of definitions: an engine that decides
/// whether each word is defined after at most so many.
#[derive(Drop)]
pub struct Felsch {
    table: Table,
    budget: usize,
    made: usize,
    begun: bool,
    next: Option<(usize, Letter)>,
    said: Progress,
}

impl Model for Felsch {
    ghost use Rattle.coset_enumeration.specs.Enumeration.{EnumerationRun, run_of};
    ghost use Rattle.tc_felsch.specs.Stage.{IsRun};

    ghost Value = { EnumerationRun };

    ghost view = { λ f. run_of f.table f.budget f.made f.begun f.said };

    ghost invariant = { λ f. IsRun f.table f.next
        (run_of f.table f.budget f.made f.begun f.said) };
}

// Makes the definition that is due, if there is one.
fn define_due(table: &mut Table, due: Option<(usize, Letter)>) -> Result<(), NoMemory>
    requires table { IsTable table.old }
    requires due { IfSome due (λ p. IsFirstMissing table.old.congruence.presentation.letters
        table.old.graph p.0 p.1) }
    ensures none { OnOk result (due ≡ None → table.new ≡ table.old) }
    ensures some { OnOk result (IfSome due
        (λ p. IsDefined table.old table.new p.0 p.1 (length table.old.graph))) }
    ensures congruence { table.new.congruence ≡ table.old.congruence }
    ensures table { IsTable table.new }
{
    match due {
        None => Ok(()),
        Some(due) => {
            let _made = table.define(due.0, due.1)?;
            Ok(())
        }
    }
}

// Makes the definition that is due, if there is one, draws what follows, and tells the next one.
fn go_on(
    table: &mut Table,
    due: Option<(usize, Letter)>,
) -> Result<Option<(usize, Letter)>, NoMemory>
    requires table { IsTable table.old }
    requires due { IfSome due (λ p. IsFirstMissing table.old.congruence.presentation.letters
        table.old.graph p.0 p.1) }
    ensures start { OnOk result (due ≡ None
        → table.old.graph ≡ replicate table.old.congruence.presentation.letters None ∷ []
        → IsAtStage table.new.congruence 0 table.new.graph) }
    ensures stage { OnOk result (IsSome due → (i : ℕ)
        → IsAtStage table.old.congruence i table.old.graph
        → IsAtStage table.new.congruence (suc i) table.new.graph) }
    ensures nodes { OnOk result (length table.new.graph
        ≡ length table.old.graph + cond (is_some due) 1 0) }
    ensures next { IfOk result (λ next. MatchOption next
        (AllDefined table.new.congruence.presentation.letters (SameEnd table.new.graph))
        (λ p. IsFirstMissing table.new.congruence.presentation.letters table.new.graph p.0 p.1)) }
    ensures congruence { table.new.congruence ≡ table.old.congruence }
    ensures table { IsTable table.new }
{
    define_due(table, due)?;
    table.close_all()?;
    table.first_missing()
}

// The definitions made after a turn: one more, unless it was the first turn.
fn count(made: usize, begun: bool) -> usize
    requires { begun ≡ true → made < usize.MAX }
    ensures { result ≡ made + cond begun 1 0 }
{
    if begun { made + 1 } else { made }
}

impl Racer for Felsch {
    ghost use Rattle.std.specs.Prelude.{◌≡◌, ◌≢◌, ℕ, ◌<◌, ◌+◌, cond};
    ghost use Rattle.race.specs.declared.engines.Progress.{Progress as Answer};
    ghost use Rattle.theory.specs.Felsch.{FelschEnds};
    ghost use Rattle.coset_enumeration.specs.Enumeration.{EnumerationTask};
    ghost use Rattle.tc_felsch.specs.Stage.{left_of, IsAtStage};

    ghost Task = { EnumerationTask };

    ghost task = { λ f. record { congruence = f.congruence; budget = f.budget } };

    ghost condition = { λ t. FelschEnds t.congruence t.budget };

    ghost measure = { left_of };

    ghost said = { λ f. f.said };

    /// One definition with all that follows from it; at the first turn, what follows without a
    /// definition. After it the paths of the table's graph relate what the facts of the stage with
    /// so many definitions do, and the graph has at most one node more than definitions were made,
    /// nodes that no word leads to any more among them, unless memory was wanting.
    fn advance(&mut self) -> Progress
        ensures task { (self.new.congruence ≡ self.old.congruence)
            × (self.new.budget ≡ self.old.budget) }
        ensures said { self.new.said ≡ result }
        ensures decided { result ≡ Answer.Decided → FelschEnds self.new.congruence self.new.budget }
        ensures spent { result ≡ Answer.Spent → ¬ (FelschEnds self.new.congruence self.new.budget) }
        ensures more { result ≡ Answer.More → left_of self.new < left_of self.old }
        ensures stays_decided { self.old.said ≡ Answer.Decided
            → (result ≡ Answer.Decided) × (self.new ≡ self.old) }
        ensures stays_spent { self.old.said ≡ Answer.Spent
            → (result ≡ Answer.Spent) × (self.new ≡ self.old) }
        ensures stays_out_of_memory { self.old.said ≡ Answer.NoMemory → result ≡ Answer.NoMemory }
        ensures stage { result ≢ Answer.NoMemory
            → IsAtStage self.new.congruence self.new.made self.new.graph }
        ensures nodes { result ≢ Answer.NoMemory → length self.new.graph ≤ suc self.new.made }
        ensures within { result ≢ Answer.NoMemory → self.new.made ≤ self.new.budget }
        ensures made { self.old.said ≡ Answer.More → result ≢ Answer.NoMemory
            → self.new.made ≡ self.old.made + cond self.old.begun 1 0 }
        ensures begun { self.new.begun ≡ true }
    {
        let Progress::More = self.said else {
            return self.said;
        };
        let due = self.next.take();
        let Ok(next) = go_on(&mut self.table, due) else {
            self.begun = true;
            self.said = Progress::NoMemory;
            return Progress::NoMemory;
        };
        self.made = count(self.made, self.begun);
        self.begun = true;
        self.said = answer(next.is_some(), self.made, self.budget);
        self.next = next;
        self.said
    }
}

impl Felsch {
    /// The enumeration of the congruence with a budget of so many definitions. No turn has been
    /// made. The congruence has right pairs, or none. Refused only where memory is wanting.
    pub fn new(alloc: Global, congruence: &Congruence, defs: usize) -> Result<Felsch, NoMemory>
        requires { IsRightSided congruence.now.congruence }
        ensures { IfOk result (λ f. f ≡ record {
          congruence = congruence.now.congruence;
          budget = defs;
          made = 0;
          begun = false;
          graph = replicate congruence.now.congruence.presentation.letters None ∷ [];
          said = Progress.More;
        }) }
    {
        let table = Table::new(alloc, congruence)?;
        Ok(Felsch {
            table,
            budget: defs,
            made: 0,
            begun: false,
            next: None,
            said: Progress::More,
        })
    }

    /// Whether a turn has given `Decided`.
    pub fn is_decided(&self) -> bool
        ensures { IsTrue result ↔ (self.now.said ≡ Progress.Decided) }
    {
        self.said == Progress::Decided
    }

    /// The graph of an enumeration that is decided: the standard one with the equal paths of the
    /// table. Each of its nodes is reached, its paths relate what the facts of the last stage do,
    /// at which each word is defined, and it has at most one node more than definitions were made.
    /// Refused only where memory is wanting.
    pub fn graph(&self) -> Result<WordGraph, NoMemory>
        requires { self.now.said ≡ Progress.Decided }
        ensures standard { IfOk result (λ g. IsStandardGraph
            self.now.congruence.presentation.letters g) }
        ensures shows { IfOk result (λ g. Shows g (SameEnd self.now.graph)) }
        ensures stage { IfOk result (λ g. IsAtStage self.now.congruence self.now.made g) }
        ensures nodes { IfOk result (λ g. length g ≤ suc self.now.made) }
        ensures graph { IfOk result (λ g. IsGraph self.now.congruence.presentation.letters g) }
        ensures complete { IfOk result (λ g. AllDefined self.now.congruence.presentation.letters
            (SameEnd g)) }
    {
        let _budget = self.budget;
        let graph = self.table.live_graph()?;
        Ok(graph)
    }
}
