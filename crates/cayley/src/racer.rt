// An engine that lists the elements of a semigroup, and then finds their classes.
ghost use Rattle.std.specs.Prelude.{◌≡◌, ◌≢◌, ℕ, ◌<◌, ◌≤◌, ◌↔◌, false, length, IfOk, MatchOption, IsTrue, Option, None, Some};
ghost use Rattle.theory.specs.Congruence.{AreElements};
ghost use Rattle.theory.specs.Value.{HasAtMostValues, HasMoreValues};
ghost use Rattle.elements.specs.Generators.{HaveOneShape, value_by};
ghost use Rattle.froidure_pin.specs.Rules.{IsWholeTable};
ghost use Rattle.cayley.specs.Whole.{AreTablesOf, AreClassesOf};
ghost use Rattle.cayley.specs.Tables.{FitTogether};
ghost use Rattle.cayley.specs.Run.{AreListed, AreSought, HasMore};

use crate::classes::{Classes, by_pairs};
use elements::Element;
use froidure_pin::{CayleyTables, FroidurePin, Run, Steps, Table};
use ports::NoMemory;
use presentation::{Kind, Pairs};
use race::{Progress, Racer};
use std::alloc::Global;
use std::marker::{Brand, Model};
use std::sync::ledger::{Blank, Ledger};

/// A search for the classes of the elements that generators generate, under the least congruence of
/// a kind that has pairs, with a bound on the number of elements: an engine that decides whether
/// there are at most so many (libsemigroups, `CongruenceByPairs`).
#[derive(Drop)]
pub struct PairsRacer<E: Element> {
    alloc: Global,
    generators: Vec<E>,
    kind: Kind,
    pairs: Pairs,
    bound: usize,
    tables: Option<CayleyTables>,
    classes: Option<Classes>,
    said: Progress,
}

impl<E: Element> Model for PairsRacer<E> {
    ghost use Rattle.cayley.specs.Run.{PairsRun, run_code, IsRun};

    ghost Value = { PairsRun E };

    ghost coded = { run_code E.code };

    ghost view = { λ r. record {
      task = record {
        generators = r.generators.items;
        kind = r.kind;
        pairs = r.pairs;
        bound = r.bound;
      };
      tables = r.tables;
      classes = r.classes;
      said = r.said;
    } };

    ghost invariant = { λ r. IsRun E.shape E.product E.eq (record {
      task = record {
        generators = r.generators.items;
        kind = r.kind;
        pairs = r.pairs;
        bound = r.bound;
      };
      tables = r.tables;
      classes = r.classes;
      said = r.said;
    }) };
}

// The table of generators; none where there are more elements than the bound.
fn counted_table<E: Element, L: Ledger>(
    alloc: Global,
    blank: Blank,
    generators: &Vec<E>,
    bound: usize,
) -> Result<Option<Table<E>>, NoMemory>
    requires name { blank.name ≡ L.name }
    requires parts { (blank.parts ≡ L.parts) × (0 < L.parts) }
    requires some { 0 < length generators.now.items }
    requires few { length generators.now.items ≤ 256 }
    requires shape { HaveOneShape E.shape generators.now.items }
    ensures { IfOk result (λ found. (unused : E) → MatchOption found
        (HasMoreValues (length generators.now.items) E.eq
        (value_by E.product generators.now.items unused) bound)
        (λ table. HasAtMostValues (length generators.now.items) E.eq
        (value_by E.product generators.now.items unused) bound
        × IsWholeTable E.shape E.product E.eq generators.now.items unused table)) }
{
    let mut steps = Steps::<L>::open(blank);
    match FroidurePin::run(alloc, generators, bound, &mut steps)? {
        Run::Over => Ok(None),
        Run::Whole(table) => Ok(Some(table)),
    }
}

// The tables of generators; none where there are more elements than the bound.
fn tables_of<E: Element>(
    alloc: Global,
    generators: &Vec<E>,
    bound: usize,
) -> Result<Option<CayleyTables>, NoMemory>
    requires some { 0 < length generators.now.items }
    requires few { length generators.now.items ≤ 256 }
    requires shape { HaveOneShape E.shape generators.now.items }
    ensures { IfOk result (λ found. (unused : E) → MatchOption found
        (HasMoreValues (length generators.now.items) E.eq
        (value_by E.product generators.now.items unused) bound)
        (λ tables. HasAtMostValues (length generators.now.items) E.eq
        (value_by E.product generators.now.items unused) bound
        × AreTablesOf E.product E.eq generators.now.items unused tables)) }
{
    match counted_table::<E, Brand>(alloc, Blank::new(1), generators, bound)? {
        None => Ok(None),
        Some(table) => Ok(Some(table.tables()?)),
    }
}

// The first turn: the tables, unless there are more elements than the bound.
fn list_elements<E: Element>(
    alloc: Global,
    generators: &Vec<E>,
    bound: usize,
    tables: &mut Option<CayleyTables>,
) -> Progress
    requires some { 0 < length generators.now.items }
    requires few { length generators.now.items ≤ 256 }
    requires shape { HaveOneShape E.shape generators.now.items }
    requires none { tables.old ≡ None }
    ensures { (unused : E)
        → AreListed E.product E.eq generators.now.items unused bound tables.new result }
{
    match tables_of(alloc, generators, bound) {
        Err(NoMemory) => Progress::NoMemory,
        Ok(None) => Progress::Spent,
        Ok(Some(found)) => {
            *tables = Some(found);
            Progress::More
        }
    }
}

// The second turn: the classes.
fn find_classes(
    alloc: Global,
    tables: &CayleyTables,
    kind: Kind,
    pairs: &Pairs,
    classes: &mut Option<Classes>,
) -> Progress
    requires fit { FitTogether tables.now }
    requires elements { AreElements false (length tables.now.letters) pairs.now }
    ensures { AreSought tables.now kind pairs.now classes.new result }
{
    match by_pairs(alloc, tables, kind, pairs) {
        Err(NoMemory) => Progress::NoMemory,
        Ok(found) => {
            *classes = Some(found);
            Progress::Decided
        }
    }
}

impl<E: Element> Racer for PairsRacer<E> {
    ghost use Rattle.std.specs.Prelude.{◌≡◌, ◌≢◌, ℕ, ◌<◌};
    ghost use Rattle.race.specs.declared.engines.Progress.{Progress as Answer};
    ghost use Rattle.cayley.specs.Run.{PairsTask as TaskOf, HasFew as IsFew, left_of as turns_left};

    ghost Task = { TaskOf E };

    ghost task = { λ r. r.task };

    ghost condition = { IsFew E.product E.eq };

    ghost measure = { turns_left };

    ghost said = { λ r. r.said };

    /// The first turn lists the elements (`FroidurePin::run`), and gives `Spent` exactly where they
    /// are more than the bound. The second one finds their classes (`by_pairs`), and gives
    /// `Decided`. Either gives `NoMemory` where memory is wanting, and so does each turn after it.
    fn advance(&mut self) -> Progress
        ensures task { self.new.task ≡ self.old.task }
        ensures said { self.new.said ≡ result }
        ensures decided { result ≡ Answer.Decided → IsFew E.product E.eq self.new.task }
        ensures spent { result ≡ Answer.Spent → ¬ (IsFew E.product E.eq self.new.task) }
        ensures more { result ≡ Answer.More → turns_left self.new < turns_left self.old }
        ensures lists_first { self.old.said ≡ Answer.More → self.old.tables ≡ None
            → result ≢ Answer.Decided }
        ensures stays_decided { self.old.said ≡ Answer.Decided
            → (result ≡ Answer.Decided) × (self.new ≡ self.old) }
        ensures stays_spent { self.old.said ≡ Answer.Spent
            → (result ≡ Answer.Spent) × (self.new ≡ self.old) }
        ensures stays_out_of_memory { self.old.said ≡ Answer.NoMemory → result ≡ Answer.NoMemory }
    {
        let Progress::More = self.said else {
            return self.said;
        };
        let Some(tables) = &self.tables else {
            self.said = list_elements(self.alloc, &self.generators, self.bound, &mut self.tables);
            return self.said;
        };
        self.said = find_classes(
            self.alloc,
            tables,
            self.kind,
            &self.pairs,
            &mut self.classes,
        );
        self.said
    }
}

impl<E: Element> PairsRacer<E> {
    /// The search for the classes of the elements that the generators generate, under the least
    /// congruence of the kind that has the pairs, with a bound on the number of elements. The
    /// generators are the letters, in their order: from 1 to 256, of one shape; the sides of the
    /// pairs are elements. No turn has been made.
    pub fn new(
        alloc: Global,
        generators: Vec<E>,
        kind: Kind,
        pairs: Pairs,
        bound: usize,
    ) -> PairsRacer<E>
        requires some { 0 < length generators.items }
        requires few { length generators.items ≤ 256 }
        requires shape { HaveOneShape E.shape generators.items }
        requires elements { AreElements false (length generators.items) pairs }
        ensures { result ≡ record {
          task = record {
            generators = generators.items;
            kind = kind;
            pairs = pairs;
            bound = bound;
          };
          tables = None;
          classes = None;
          said = Progress.More;
        } }
    {
        PairsRacer {
            alloc,
            generators,
            kind,
            pairs,
            bound,
            tables: None,
            classes: None,
            said: Progress::More,
        }
    }

    /// Whether a turn has given `Decided`.
    pub fn is_decided(&self) -> bool
        ensures { IsTrue result ↔ (self.now.said ≡ Progress.Decided) }
    {
        self.said == Progress::Decided
    }

    /// Whether a turn has given `Spent`: the generators have more values than the bound.
    pub fn is_spent(&self) -> bool
        ensures spent { IsTrue result ↔ (self.now.said ≡ Progress.Spent) }
        ensures more { self.now.said ≡ Progress.Spent → HasMore E.product E.eq self.now.task }
    {
        self.said == Progress::Spent
    }

    /// The tables of a search that is decided: those of the generators.
    pub fn tables(&self) -> &CayleyTables
        requires { self.now.said ≡ Progress.Decided }
        ensures found { self.now.tables ≡ Some result.now }
        ensures tables { (unused : E)
            → AreTablesOf E.product E.eq self.now.task.generators unused result.now }
    {
        match &self.tables {
            Some(tables) => tables,
            None => unreachable!(),
        }
    }

    /// The classes of a search that is decided: two words are related exactly where their numbers
    /// in its tables have one class.
    pub fn classes(&self) -> &Classes
        requires { self.now.said ≡ Progress.Decided }
        ensures found { self.now.classes ≡ Some result.now }
        ensures classes { (tables : CayleyTables) → self.now.tables ≡ Some tables → (unused : E)
            → AreClassesOf E.product E.eq self.now.task.generators unused self.now.task.kind
            self.now.task.pairs tables result.now }
    {
        match &self.classes {
            Some(classes) => classes,
            None => unreachable!(),
        }
    }
}
