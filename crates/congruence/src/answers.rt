// Answers about a problem that was decided.
ghost use Rattle.std.specs.Prelude.{◌≡◌, ◌↔◌, true, false, IfOk, IsTrue, MatchOption};
ghost use Rattle.std.specs.Option.{option_copied};
ghost use Rattle.theory.specs.Word.{IsElement};
ghost use Rattle.theory.specs.ShortLex.{◌≺◌};
ghost use Rattle.theory.specs.Class.{IsLeast, IsNormal, IsRuleList};
ghost use Rattle.theory.specs.Listing.{IsLast, IsNext, GoesOnOrEnds};
ghost use Rattle.problem.specs.Problem.{SameClassOf, allows_rules, count_of, has_empty_word, is_presented};
ghost use Rattle.race.specs.declared.engines.Progress.TheVariants.{Decided};
ghost use Rattle.element_tables.specs.CayleyGraphs.{AreTablesFor};
ghost use Rattle.congruence_classes.specs.ClassLists.{IsSolutionFor};
ghost use Rattle.congruence_classes.specs.ElementLists.{element_list};
ghost use Rattle.congruence_classes.specs.Indexes.{IsIndexWithin};
ghost use Rattle.congruence.specs.Classes.{problem_of};
ghost use Rattle.congruence.specs.Engines.{HasDecided, IsTaskFor, said_of, task_of};

use crate::engine::{Ended, Engine};
use congruence_classes::{
    CosetClasses, ElementClasses, GeneratedProblem, Index, ReducedClasses, equal_in, index_in,
    next_in, normal_in, rules_in,
};
use froidure_pin::CayleyTables;
use ports::NoMemory;
use rewriting::Rules;
use std::marker::Model;
use words::Word;

/// How the classes are known: by the graph of the cosets, by the reduced words of rewriting rules,
/// or by the tables of the elements, which the lanes hold.
#[derive(Drop)]
pub enum Classes {
    Cosets(CosetClasses),
    Reduced(ReducedClasses),
    Elements(GeneratedProblem),
}

/// What is known of a problem that was decided (libsemigroups, `Congruence`). The empty word
/// counts as a class of a monoid, and is no element of a semigroup.
#[derive(Drop)]
pub struct Solved {
    classes: Classes,
    lanes: Ended,
    winner: usize,
}

impl Model for Solved {
    ghost use Rattle.congruence.specs.Classes.{problem_of};
    ghost use Rattle.congruence.specs.Engines.{HasDecided};
    ghost use Rattle.congruence.specs.Solution.{Solution};

    ghost Value = { Solution };

    ghost view = { λ s. record { problem = problem_of s.classes; lanes = s.lanes } };

    ghost invariant = { λ s. HasDecided (problem_of s.classes) s.lanes s.winner };
}

// The classes of the elements of the problem, which is given by generators and which the lane of
// this number has decided.
fn elements_of<'a>(
    lanes: &'a Ended,
    winner: usize,
    posed: &'a GeneratedProblem,
) -> ElementClasses<'a>
    requires { HasDecided posed.now lanes.now winner }
    ensures { IsSolutionFor posed.now (element_list result) }
{
    let engine = lanes.lanes()[winner].racer();
    engine.element_classes(posed.alloc(), posed.problem())
}

// The number of these classes, if it is at most the bound.
fn index_of_elements(lanes: &Ended, winner: usize, posed: &GeneratedProblem, bound: usize) -> Index
    requires { HasDecided posed.now lanes.now winner }
    ensures { IsIndexWithin (SameClassOf posed.now) bound result }
{
    let elements = elements_of(lanes, winner, posed);
    index_in(posed.problem(), &elements, bound)
}

// The first least word of these classes after the cursor, or the first at all.
fn next_of_elements(
    lanes: &Ended,
    winner: usize,
    posed: &GeneratedProblem,
    after: Option<&Word>,
) -> Result<Option<Word>, NoMemory>
    requires { HasDecided posed.now lanes.now winner }
    ensures goes_on { GoesOnOrEnds (IsLeast (SameClassOf posed.now)) ◌≺◌ }
    ensures next { IfOk result (λ next. MatchOption next
        (IsLast (IsLeast (SameClassOf posed.now)) ◌≺◌ (option_copied after.entry))
        (IsNext (IsLeast (SameClassOf posed.now)) ◌≺◌ (option_copied after.entry))) }
{
    let elements = elements_of(lanes, winner, posed);
    next_in(posed.problem(), &elements, after)
}

impl Classes {
    // The number of classes, if it is at most the bound.
    fn index(&mut self, lanes: &Ended, winner: usize, bound: usize) -> Result<Index, NoMemory>
        requires { HasDecided (problem_of self.old) lanes.now winner }
        ensures kept { self.new ≡ self.old }
        ensures index { IfOk result (IsIndexWithin (SameClassOf (problem_of self.old)) bound) }
    {
        match self {
            Classes::Cosets(classes) => classes.index(bound),
            Classes::Reduced(classes) => classes.index(bound),
            Classes::Elements(posed) => Ok(index_of_elements(lanes, winner, posed, bound)),
        }
    }

    // The first least word of a class after the cursor, or the first at all.
    fn next_after(
        &mut self,
        lanes: &Ended,
        winner: usize,
        after: Option<&Word>,
    ) -> Result<Option<Word>, NoMemory>
        requires { HasDecided (problem_of self.old) lanes.now winner }
        ensures kept { self.new ≡ self.old }
        ensures goes_on { GoesOnOrEnds (IsLeast (SameClassOf (problem_of self.old))) ◌≺◌ }
        ensures next { IfOk result (λ next. MatchOption next
            (IsLast (IsLeast (SameClassOf (problem_of self.old))) ◌≺◌ (option_copied after.entry))
            (IsNext (IsLeast (SameClassOf (problem_of self.old))) ◌≺◌
            (option_copied after.entry))) }
    {
        match self {
            Classes::Cosets(classes) => classes.next_after(after),
            Classes::Reduced(classes) => classes.next_after(after),
            Classes::Elements(posed) => next_of_elements(lanes, winner, posed, after),
        }
    }
}

impl Solved {
    // The answers by the classes that the winner gave, with the lanes of the race.
    pub(crate) fn new(classes: Classes, lanes: Ended, winner: usize) -> Solved
        requires { HasDecided (problem_of classes) lanes winner }
        ensures { result ≡ record { problem = problem_of classes; lanes = lanes } }
    {
        Solved {
            classes,
            lanes,
            winner,
        }
    }

    // The engine that has decided the problem.
    fn engine(&self) -> &Engine
        ensures decided { said_of result.now ≡ Decided }
        ensures task { IsTaskFor self.now.problem (task_of result.now) }
    {
        self.lanes.lanes()[self.winner].racer()
    }

    /// The lanes of the race for the problem, as it left them.
    pub fn lanes(&self) -> &Ended
        ensures { result.now ≡ self.now.lanes }
    {
        &self.lanes
    }

    /// The number of classes, if it is at most the bound. Refused only where memory is wanting.
    /// What is known stays the same; reduced words are found faster another time.
    pub fn index(&mut self, bound: usize) -> Result<Index, NoMemory>
        ensures kept { self.new ≡ self.old }
        ensures index { IfOk result (IsIndexWithin (SameClassOf self.old.problem) bound) }
    {
        self.classes.index(&self.lanes, self.winner, bound)
    }

    /// Whether the two words, which are elements, are of one class. Refused only where memory is
    /// wanting.
    pub fn equal(&self, u: &Word, v: &Word) -> Result<bool, NoMemory>
        requires left { IsElement (has_empty_word self.now.problem) (count_of self.now.problem)
            u.now }
        requires right { IsElement (has_empty_word self.now.problem) (count_of self.now.problem)
            v.now }
        ensures { IfOk result (λ same. IsTrue same ↔ SameClassOf self.now.problem u.now v.now) }
    {
        match &self.classes {
            Classes::Cosets(classes) => classes.equal(u, v),
            Classes::Reduced(classes) => classes.equal(u, v),
            Classes::Elements(posed) => {
                let elements = elements_of(&self.lanes, self.winner, posed);
                equal_in(posed.problem(), &elements, u, v)
            }
        }
    }

    /// The normal form of the word, which is an element: the least word of its class in short-lex
    /// order. Refused only where memory is wanting.
    pub fn normal(&self, u: &Word) -> Result<Word, NoMemory>
        requires { IsElement (has_empty_word self.now.problem) (count_of self.now.problem) u.now }
        ensures { IfOk result (IsNormal (SameClassOf self.now.problem) u.now) }
    {
        match &self.classes {
            Classes::Cosets(classes) => classes.normal(u),
            Classes::Reduced(classes) => classes.normal(u),
            Classes::Elements(posed) => {
                let elements = elements_of(&self.lanes, self.winner, posed);
                normal_in(posed.problem(), &elements, u)
            }
        }
    }

    /// The first least word of a class after the cursor, or the first at all; `None` where there is
    /// none. The cursor need not be the least word of its class. What holds of every decided
    /// problem is told here: after each cursor comes a next class, or none. Refused only where
    /// memory is wanting.
    pub fn next_after(&mut self, after: Option<&Word>) -> Result<Option<Word>, NoMemory>
        ensures kept { self.new ≡ self.old }
        ensures goes_on { GoesOnOrEnds (IsLeast (SameClassOf self.old.problem)) ◌≺◌ }
        ensures next { IfOk result (λ next. MatchOption next
            (IsLast (IsLeast (SameClassOf self.old.problem)) ◌≺◌ (option_copied after.entry))
            (IsNext (IsLeast (SameClassOf self.old.problem)) ◌≺◌ (option_copied after.entry))) }
    {
        self.classes.next_after(&self.lanes, self.winner, after)
    }

    /// The reduced rules of a two-sided congruence, in short-lex order of their left sides
    /// (Froidure and Pin 1997). Refused only where memory is wanting.
    pub fn rules(&self) -> Result<Rules, NoMemory>
        requires { allows_rules self.now.problem ≡ true }
        ensures { IfOk result (IsRuleList (SameClassOf self.now.problem)) }
    {
        match &self.classes {
            Classes::Cosets(classes) => classes.rules(),
            Classes::Reduced(classes) => classes.rules(),
            Classes::Elements(posed) => {
                let elements = elements_of(&self.lanes, self.winner, posed);
                rules_in(posed.alloc(), posed.problem(), &elements)
            }
        }
    }

    /// The words of the elements, and their Cayley graphs; the problem is given by generators. They
    /// are those of the elements, whatever the pairs are (Froidure and Pin 1997).
    pub fn tables(&self) -> &CayleyTables
        requires { is_presented self.now.problem ≡ false }
        ensures { AreTablesFor self.now.problem result.now }
    {
        self.engine().tables()
    }
}
