// How the rules and equations of a completion follow from the relations.
ghost use Rattle.std.specs.HashMap.{get};
ghost use Rattle.std.specs.Prelude.{◌≡◌, ◌<◌, ◌≤◌, [], None, Some, is_some, length, slice_get, Contains, IfOk, OnOk, IsTrue};
ghost use Rattle.theory.specs.Word.{Word as Letters};
ghost use Rattle.theory.specs.PlacedStep.{LeadTo, read_sides};
ghost use Rattle.theory.specs.Completion.{IsReduced, Listed, Reduces};
ghost use Rattle.rewriting.specs.Traces.{LeadBy};
ghost use Rattle.chains.specs.Chains.{IsStraight, steps_of};
ghost use Rattle.chains.specs.Derivations.{Derived, all_of};
ghost use Rattle.knuth_bendix.specs.Logs.{AreLogged, AreNumbersOf, Grows, IsFor, IsLogged, Shows, same_words};
ghost use Rattle.knuth_bendix.specs.Overlaps.{critical_at, overlaps_by, rule_at};

use crate::indexed_rules::{IndexedRules, Sharing};
use chains::{ChainStep, Derivations, Fact, around, turn_back};
use ports::NoMemory;
use presentation::{Pairs, Presentation};
use rewriting::{Applied, Reduction};
use std::alloc::Global;
use std::collections::HashMap;
use std::marker::Model;
use words::Word;

// The two words of a pair in memory of their own.
fn copied(alloc: Global, left: &Word, right: &Word) -> Result<(Word, Word), NoMemory>
    ensures { IfOk result (λ pair. pair ≡ (left.now, right.now)) }
{
    let left = left.copy(alloc)?;
    let right = right.copy(alloc)?;
    Ok((left, right))
}

// Puts in the fact that the steps lead from the first word of the pair to the second.
fn push_fact(
    alloc: Global,
    derivations: &mut Derivations,
    pair: &(Word, Word),
    steps: Vec<ChainStep>,
) -> Result<(), NoMemory>
    requires { LeadTo (all_of derivations.old) pair.now.0 (steps_of steps.items) pair.now.1 }
    ensures grows { OnOk result (Grows (Some derivations.old) (Some derivations.new)) }
    ensures logged { OnOk result (IsLogged (Some derivations.new) pair.now) }
{
    let (left, right) = copied(alloc, &pair.0, &pair.1)?;
    derivations.push(Fact { left, right, steps })?;
    Ok(())
}

// A number of each relation, by its words.
fn numbers_of(alloc: Global, relations: &Pairs) -> Result<HashMap<(Word, Word), usize>, NoMemory>
    ensures { IfOk result (λ numbers.
        AreNumbersOf relations.now (length relations.now) (get same_words numbers)) }
{
    let mut numbers = HashMap::new(alloc);
    for number in 0..relations.len() {
        let pair = relations.pair(number);
        let words = copied(alloc, &pair.0, &pair.1)?;
        let _old = numbers.insert(words, number)?;
    }
    Ok(numbers)
}

// Facts, and numbers under which those of two words are likely to be found: only a hint, since each
// is checked where it is read.
#[derive(Drop)]
struct Facts {
    derivations: Derivations,
    likely: HashMap<(Word, Word), usize>,
}

impl Facts {
    // The number of the relation or fact of the two words.
    fn number_of(&self, pair: &(Word, Word)) -> usize
        requires { Contains (all_of self.now.derivations).relations pair.now }
        ensures { slice_get (all_of self.now.derivations).relations result ≡ Some pair.now }
    {
        let likely = match self.likely.get(pair) {
            Some(number) => *number,
            None => 0,
        };
        match self.derivations.number_of(likely, &pair.0, &pair.1) {
            Some(number) => number,
            None => unreachable!(),
        }
    }

    // Whether the two words are those of a relation or fact that was put among those likely.
    fn is_found(&self, pair: &(Word, Word)) -> bool
        ensures { IsTrue result → IsLogged (Some self.now.derivations) pair.now }
    {
        match self.likely.get(pair) {
            Some(number) => {
                let found = self.derivations.number_of(*number, &pair.0, &pair.1);
                found.is_some()
            }
            None => false,
        }
    }

    // The step of a rule that is applied.
    fn step_of(&self, rules: &IndexedRules, at: Applied) -> ChainStep
        requires within { at.rule < length rules.now }
        requires logged { AreLogged (Some self.now.derivations) rules.now }
        ensures { IsFor rules.now (all_of self.now.derivations).relations at result }
    {
        ChainStep {
            place: at.place,
            relation: self.number_of(rules.rule(at.rule)),
            forward: true,
        }
    }

    // The steps of rules that are applied.
    fn steps_of(
        &self,
        alloc: Global,
        rules: &IndexedRules,
        trace: &[Applied],
    ) -> Result<Vec<ChainStep>, NoMemory>
        requires lead { (u : Letters) × (v : Letters) × LeadBy rules.now u trace.now v }
        requires logged { AreLogged (Some self.now.derivations) rules.now }
        ensures { IfOk result (λ steps. (u v : Letters) → LeadBy rules.now u trace.now v
            → LeadTo (all_of self.now.derivations) u (steps_of steps.items) v) }
    {
        let mut steps = Vec::new(alloc);
        for at in trace {
            steps.push(self.step_of(rules, *at))?;
        }
        Ok(steps)
    }

    // Logs the fact that the steps lead from the left word to the right one.
    fn push(
        &mut self,
        alloc: Global,
        left: &Word,
        right: &Word,
        steps: Vec<ChainStep>,
    ) -> Result<(), NoMemory>
        requires { LeadTo (all_of self.old.derivations) left.now (steps_of steps.items) right.now }
        ensures grows { OnOk result
            (Grows (Some self.old.derivations) (Some self.new.derivations)) }
        ensures logged { OnOk result
            (IsLogged (Some self.new.derivations) (left.now, right.now)) }
    {
        let pair = copied(alloc, left, right)?;
        if self.is_found(&pair) {
            return Ok(());
        }
        let number = self.derivations.len();
        push_fact(alloc, &mut self.derivations, &pair, steps)?;
        let _none = self.likely.insert(pair, number)?;
        Ok(())
    }
}

/// How rules and equations follow from the relations, or nothing, where nothing is logged.
#[derive(Drop)]
pub struct Log {
    facts: Option<Facts>,
}

impl Model for Log {
    ghost use Rattle.std.specs.Prelude.{Option, option_map};
    ghost use Rattle.chains.specs.Derivations.{Derived};

    ghost Value = { Option Derived };

    ghost view = { λ l. option_map (λ f. f.derivations) l.facts };
}

impl Log {
    /// The log of nothing.
    pub fn none() -> Log
        ensures { result ≡ None }
    {
        Log { facts: None }
    }

    /// The log without facts. Refused only where memory is wanting.
    pub fn new(alloc: Global, presentation: &Presentation) -> Result<Log, NoMemory>
        ensures { IfOk result (λ log. log ≡ Some (record {
          presentation = presentation.now.presentation;
          facts = [];
        })) }
    {
        let likely = numbers_of(alloc, presentation.relations())?;
        let derivations = Derivations::new(alloc, presentation)?;
        Ok(Log {
            facts: Some(Facts {
                derivations,
                likely,
            }),
        })
    }

    /// Whether something is logged.
    pub fn is_logged(&self) -> bool
        ensures { result ≡ is_some self.now }
    {
        self.facts.is_some()
    }

    /// A word to which the rules lead from the word, and to which none applies; and steps over what
    /// is logged that lead there, if something is. Refused only where memory is wanting.
    pub fn reduce(
        &self,
        alloc: Global,
        rules: &IndexedRules,
        word: &Word,
    ) -> Result<(Word, Vec<ChainStep>), NoMemory>
        requires { AreLogged self.now rules.now }
        ensures reached { IfOk result (λ r. Reduces (Listed rules.now) word.now r.0) }
        ensures reduced { IfOk result (λ r. IsReduced (Listed rules.now) r.0) }
        ensures shown { IfOk result (λ r. Shows self.now word.now r.1.items r.0) }
    {
        let mut room = Reduction::new(alloc);
        self.reduce_in(alloc, rules, &mut room, word)
    }

    /// The same in room that is kept from one word to the next. Refused only where memory is
    /// wanting.
    pub fn reduce_in(
        &self,
        alloc: Global,
        rules: &IndexedRules,
        room: &mut Reduction,
        word: &Word,
    ) -> Result<(Word, Vec<ChainStep>), NoMemory>
        requires { AreLogged self.now rules.now }
        ensures reached { IfOk result (λ r. Reduces (Listed rules.now) word.now r.0) }
        ensures reduced { IfOk result (λ r. IsReduced (Listed rules.now) r.0) }
        ensures shown { IfOk result (λ r. Shows self.now word.now r.1.items r.0) }
    {
        match &self.facts {
            None => Ok((rules.reduce_in(room, word)?, Vec::new(alloc))),
            Some(facts) => {
                let (reduced, trace) = rules.reduce_traced(word)?;
                let steps = facts.steps_of(alloc, rules, trace.as_slice())?;
                Ok((reduced, steps))
            }
        }
    }

    /// Logs that the steps lead from the left word to the right one, if something is logged.
    /// Refused only where memory is wanting.
    pub fn push(
        &mut self,
        alloc: Global,
        left: &Word,
        right: &Word,
        steps: Vec<ChainStep>,
    ) -> Result<(), NoMemory>
        requires { Shows self.old left.now steps.items right.now }
        ensures grows { OnOk result (Grows self.old self.new) }
        ensures logged { OnOk result (IsLogged self.new (left.now, right.now)) }
    {
        if let Some(facts) = &mut self.facts {
            facts.push(alloc, left, right, steps)?;
        }
        Ok(())
    }

    /// Steps from where those lead that go back from one word of a pair, over the pair, to where
    /// those lead that go on from the other. Refused only where memory is wanting.
    pub fn across(
        &self,
        alloc: Global,
        pair: &(Word, Word),
        forward: bool,
        back: &[ChainStep],
        on: &[ChainStep],
    ) -> Result<Vec<ChainStep>, NoMemory>
        requires { IsLogged self.now pair.now }
        ensures { IfOk result (λ steps. (left right : Letters)
            → Shows self.now (read_sides forward pair.now).0 back.now left
            → Shows self.now (read_sides forward pair.now).1 on.now right
            → Shows self.now left steps.items right) }
    {
        let Some(facts) = &self.facts else {
            return Ok(Vec::new(alloc));
        };
        let step = ChainStep {
            place: 0,
            relation: facts.number_of(pair),
            forward,
        };
        around(alloc, back, &[step], on)
    }

    /// Steps from where those lead that go back from the first word of a critical pair, over the
    /// word of the overlap, to where those lead that go on from the second. Refused only where
    /// memory is wanting.
    pub fn over(
        &self,
        alloc: Global,
        rules: &IndexedRules,
        overlap: Sharing,
        back: &[ChainStep],
        on: &[ChainStep],
    ) -> Result<Vec<ChainStep>, NoMemory>
        requires first { overlap.first < length rules.now }
        requires second { overlap.second < length rules.now }
        requires shared_first { overlap.shared ≤ length (rule_at rules.now overlap.first).0 }
        requires shared_second { overlap.shared ≤ length (rule_at rules.now overlap.second).0 }
        requires overlaps { overlaps_by (rule_at rules.now overlap.first).0
            (rule_at rules.now overlap.second).0 overlap.shared }
        requires logged { AreLogged self.now rules.now }
        ensures { IfOk result (λ steps. (left right : Letters)
            → Shows self.now (critical_at rules.now overlap).0 back.now left
            → Shows self.now (critical_at rules.now overlap).1 on.now right
            → Shows self.now left steps.items right) }
    {
        let Some(facts) = &self.facts else {
            return Ok(Vec::new(alloc));
        };
        let first = rules.rule(overlap.first);
        let second = rules.rule(overlap.second);
        let up = ChainStep {
            place: 0,
            relation: facts.number_of(first),
            forward: false,
        };
        let down = ChainStep {
            place: first.0.len() - overlap.shared,
            relation: facts.number_of(second),
            forward: true,
        };
        around(alloc, back, &[up, down], on)
    }

    /// Steps by the relations of the presentation from the one word to the other, over words that
    /// are all different: there by the first steps, and back by the others, which lead to the same
    /// word. Refused only where memory is wanting.
    pub fn spell(
        &self,
        from: &Word,
        there: Vec<ChainStep>,
        back: &[ChainStep],
    ) -> Result<Vec<ChainStep>, NoMemory>
        requires logged { (d : Derived) × (self.now ≡ Some d) }
        requires shown { (middle : Letters) × (to : Letters)
            × Shows self.now from.now there.items middle × Shows self.now to back.now middle }
        ensures { IfOk result (λ chain. (d : Derived) (middle to : Letters) → self.now ≡ Some d
            → Shows self.now from.now there.items middle → Shows self.now to back.now middle
            → IsStraight d.presentation from.now chain.items to) }
    {
        let Some(facts) = &self.facts else {
            unreachable!();
        };
        let mut steps = there;
        turn_back(&mut steps, back)?;
        facts.derivations.spell(from, steps.as_slice())
    }
}
