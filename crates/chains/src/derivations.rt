// Facts that follow from a presentation, each by steps over the relations and earlier facts.
ghost use Rattle.std.specs.Prelude.{◌≡◌, ℕ, ◌+◌, ◌<◌, [], ◌∷◌, ◌++◌, List, length, map, reverse, slice_get, Contains, IsTrue, ◌↔◌, MatchOption, IfSome, IfOk, OnOk, OnErr};
ghost use Rattle.theory.specs.Word.{Word as Letters};
ghost use Rattle.theory.specs.PlacedStep.{Gives, LeadTo};
ghost use Rattle.chains.specs.Chains.{AllFit, Fits, IsStraight, step_of, steps_of};
ghost use Rattle.chains.specs.Walks.{IsWalk, here};
ghost use Rattle.chains.specs.Derivations.{AreKept, Derived, GoesOn, IsFrontOf, LeadAlike, Proves, all_of, pair_of, weight_of};

use crate::guide::{Guide, Weights};
use crate::pending::{put, reversed};
use crate::search::find;
use crate::steps::ChainStep;
use crate::walks::Walk;
use ports::NoMemory;
use presentation::Presentation;
use std::alloc::Global;
use std::collections::HashMap;
use std::marker::Model;
use words::Word;

// Steps that stand for no more steps by relations are not shortened.
const FEW_STEPS: u64 = 200;

// Steps that stand for more steps by relations are spelled out by the chains of their facts.
const MANY_STEPS: u64 = 1_000_000;

// So many more letters than the words of given steps may those of lighter ones have.
const MORE_LETTERS: usize = 4;

/// Two words, and steps that lead from the left one to the right one.
#[derive(Drop)]
pub struct Fact {
    /// The word where the steps begin.
    pub left: Word,
    /// The word where they end.
    pub right: Word,
    /// The steps. A number below that of the relations is that of a relation, and the others are
    /// those of facts, in their order.
    pub steps: Vec<ChainStep>,
}

/// The log of what was derived from a presentation: facts, each by steps over the relations and the
/// facts before it. What is used many times is logged once, and spelled out when it is asked for.
#[derive(Drop)]
pub struct Derivations {
    alloc: Global,
    presentation: Presentation,
    facts: Vec<Fact>,
}

// How much relations and facts weigh, and what a search for lighter steps goes by.
#[derive(Drop)]
struct Scale {
    weights: Weights,
    guide: Guide,
}

impl Scale {
    // Puts in the next fact, which has this number.
    fn add(&mut self, number: usize, fact: &Fact) -> Result<(), NoMemory> {
        let steps = fact.steps.as_slice();
        self.weights.push(steps)?;
        let weight = self.weights.of(steps);
        self.guide.add(&fact.left, &fact.right, number, weight)
    }
}

impl Model for Derivations {
    ghost use Rattle.chains.specs.Derivations.{AreDerived, Derived};

    ghost Value = { Derived };

    ghost view = { λ d. record {
      presentation = d.presentation.presentation;
      facts = d.facts.items;
    } };

    ghost invariant = { λ d. AreDerived d.presentation.presentation d.facts.items };
}

impl Derivations {
    /// The log without facts. Refused only where memory is wanting.
    pub fn new(alloc: Global, presentation: &Presentation) -> Result<Derivations, NoMemory>
        ensures { IfOk result (λ d. d ≡ record {
          presentation = presentation.now.presentation;
          facts = [];
        }) }
    {
        Ok(Derivations {
            alloc,
            presentation: presentation.copy(alloc)?,
            facts: Vec::new(alloc),
        })
    }

    /// How many relations and facts there are: the number of the next fact.
    pub fn len(&self) -> usize
        ensures { result ≡ length (all_of self.now).relations }
    {
        self.presentation.relations().len() + self.facts.len()
    }

    // The words of the relation or fact of this number.
    fn sides(&self, number: usize) -> (&Word, &Word)
        requires { number < length (all_of self.now).relations }
        ensures { slice_get (all_of self.now).relations number
            ≡ Some (result.0.now, result.1.now) }
    {
        let relations = self.presentation.relations();
        if number < relations.len() {
            let pair = relations.pair(number);
            return (&pair.0, &pair.1);
        }
        let fact = &self.facts[number - relations.len()];
        (&fact.left, &fact.right)
    }

    // Whether the relation or fact of this number is that of the two words.
    fn is_of(&self, number: usize, left: &Word, right: &Word) -> bool
        requires { number < length (all_of self.now).relations }
        ensures { IsTrue result ↔ (slice_get (all_of self.now).relations number
            ≡ Some (left.now, right.now)) }
    {
        let (first, second) = self.sides(number);
        first.letters() == left.letters() && second.letters() == right.letters()
    }

    /// A number of the relation or fact of the two words. `None` exactly where there is none. The
    /// number that is likely to be it is looked at first, and then all of them.
    pub fn number_of(&self, likely: usize, left: &Word, right: &Word) -> Option<usize>
        ensures { MatchOption result
            (Contains (all_of self.now).relations (left.now, right.now) → ⊥)
            (λ number. slice_get (all_of self.now).relations number
            ≡ Some (left.now, right.now)) }
    {
        if likely < self.len() && self.is_of(likely, left, right) {
            return Some(likely);
        }
        for number in 0..self.len() {
            if self.is_of(number, left, right) {
                return Some(number);
            }
        }
        None
    }

    /// Logs a fact that follows from the relations and the facts so far: its steps lead from its
    /// left word to its right one. Its number is that of the relations and facts before it. Refused
    /// only where memory is wanting, and then the log stays as it was.
    pub fn push(&mut self, fact: Fact) -> Result<(), NoMemory>
        requires { Proves (all_of self.old) fact }
        ensures ok { OnOk result (self.new ≡ record {
          presentation = self.old.presentation;
          facts = self.old.facts ++ fact ∷ [];
        }) }
        ensures err { OnErr result (self.new ≡ self.old) }
    {
        self.facts.push(fact)?;
        Ok(())
    }

    // Makes the next step: one by a relation at once, and one by a fact whose chain is kept by the
    // chain; in the place of one by another fact, the steps of the fact are to be made.
    fn read_next(
        &self,
        kept: &HashMap<usize, Vec<ChainStep>>,
        pending: &mut Vec<ChainStep>,
        walk: &mut Walk,
    ) -> Result<(), NoMemory>
        requires kept { AreKept self.now kept.now }
        requires some { 0 < length pending.old.items }
        requires begun { (from : Letters) × IsWalk self.now.presentation from walk.old }
        requires fits { AllFit (all_of self.now) (here walk.old) (reverse pending.old.items) }
        ensures { OnOk result
            (GoesOn self.now pending.old.items walk.old pending.new.items walk.new) }
    {
        let Some(step) = pending.pop() else {
            unreachable!();
        };
        let relations = self.presentation.relations().len();
        if step.relation < relations {
            return walk.go(self.alloc, &self.presentation, step);
        }
        if let Some(chain) = kept.get(&step.relation) {
            return walk.go_instead(self.alloc, &self.presentation, step, chain.as_slice());
        }
        let fact = &self.facts[step.relation - relations];
        put(pending, step, fact.steps.as_slice())
    }

    // Spells steps out, those by facts whose chains are kept by the chains.
    fn spell_by(
        &self,
        kept: &HashMap<usize, Vec<ChainStep>>,
        from: &Word,
        steps: &[ChainStep],
    ) -> Result<Vec<ChainStep>, NoMemory>
        requires kept { AreKept self.now kept.now }
        requires fits { AllFit (all_of self.now) from.now steps.now }
        ensures { IfOk result (λ chain. (to : Letters)
            → LeadTo (all_of self.now) from.now (steps_of steps.now) to
            → IsStraight self.now.presentation from.now chain.items to) }
    {
        let mut walk = Walk::new(self.alloc, from)?;
        let mut pending = reversed(self.alloc, steps)?;
        while !pending.is_empty() {
            self.read_next(kept, &mut pending, &mut walk)?;
        }
        Ok(walk.steps)
    }

    // Keeps the chain of a fact.
    fn keep(&self, kept: &mut HashMap<usize, Vec<ChainStep>>, number: usize) -> Result<(), NoMemory>
        requires within { number < length self.now.facts }
        requires kept { AreKept self.now kept.old }
        ensures { OnOk result (AreKept self.now kept.new) }
    {
        let fact = &self.facts[number];
        let chain = self.spell_by(kept, &fact.left, fact.steps.as_slice())?;
        let _none = kept.insert(self.presentation.relations().len() + number, chain)?;
        Ok(())
    }

    // Marks the facts that the steps use.
    fn mark(&self, needed: &mut Vec<bool>, steps: &[ChainStep])
        ensures { length needed.new.items ≡ length needed.old.items }
    {
        let relations = self.presentation.relations().len();
        for step in steps {
            if relations <= step.relation && step.relation - relations < needed.len() {
                needed[step.relation - relations] = true;
            }
        }
    }

    // Which facts the steps use, or facts that they use.
    fn needed(&self, steps: &[ChainStep]) -> Result<Vec<bool>, NoMemory>
        ensures { IfOk result (λ needed. length needed.items ≡ length self.now.facts) }
    {
        let mut needed = vec![in self.alloc; false; self.facts.len()]?;
        self.mark(&mut needed, steps);
        for number in (0..self.facts.len()).rev() {
            if needed[number] {
                self.mark(&mut needed, self.facts[number].steps.as_slice());
            }
        }
        Ok(needed)
    }

    // The chains of the facts that are needed. The facts before a fact come first, so what a chain
    // stands on is kept.
    fn chains_of(&self, needed: &Vec<bool>) -> Result<HashMap<usize, Vec<ChainStep>>, NoMemory>
        requires { length needed.now.items ≡ length self.now.facts }
        ensures { IfOk result (AreKept self.now) }
    {
        let mut kept = HashMap::new(self.alloc);
        for number in 0..self.facts.len() {
            if needed[number] {
                self.keep(&mut kept, number)?;
            }
        }
        Ok(kept)
    }

    // The chains of the facts that the steps use. None, where the steps stand for so few that these
    // are made at once sooner than the chains of all facts.
    fn chains_for(&self, steps: &[ChainStep]) -> Result<HashMap<usize, Vec<ChainStep>>, NoMemory>
        ensures { IfOk result (AreKept self.now) }
    {
        if self.weight_of(steps)? <= MANY_STEPS {
            return Ok(HashMap::new(self.alloc));
        }
        let needed = self.needed(steps)?;
        self.chains_of(&needed)
    }

    // Spells these very steps out.
    fn spell_as_given(&self, from: &Word, steps: &[ChainStep]) -> Result<Vec<ChainStep>, NoMemory>
        requires { AllFit (all_of self.now) from.now steps.now }
        ensures { IfOk result (λ chain. (to : Letters)
            → LeadTo (all_of self.now) from.now (steps_of steps.now) to
            → IsStraight self.now.presentation from.now chain.items to) }
    {
        let kept = self.chains_for(steps)?;
        self.spell_by(&kept, from, steps)
    }

    // The word that the step gives, or `None` where it does not fit.
    fn next(&self, step: ChainStep, word: &Word) -> Result<Option<Word>, NoMemory>
        ensures { IfOk result (λ found. MatchOption found
            (Fits (all_of self.now) word.now (step_of step) → ⊥)
            (Gives (all_of self.now) word.now (step_of step))) }
    {
        if step.relation >= self.len() {
            return Ok(None);
        }
        let (first, second) = self.sides(step.relation);
        step.exchanged(self.alloc, first, second, word)
    }

    // The word to which the steps lead, and how many letters the longest word on the way has; or
    // `None` where some step does not fit.
    fn end_of(&self, from: &Word, steps: &[ChainStep]) -> Result<Option<(Word, usize)>, NoMemory>
        ensures { IfOk result (λ found. MatchOption found
            (AllFit (all_of self.now) from.now steps.now → ⊥)
            (λ end. LeadTo (all_of self.now) from.now (steps_of steps.now) end.0)) }
    {
        let mut word = from.copy(self.alloc)?;
        let mut letters = word.len();
        for place in 0..steps.len() {
            let Some(next) = self.next(steps[place], &word)? else {
                return Ok(None);
            };
            letters = letters.max(next.len());
            word = next;
        }
        Ok(Some((word, letters)))
    }

    // Whether the steps lead from the one word to the other.
    fn do_lead(&self, from: &Word, steps: &[ChainStep], to: &Word) -> Result<bool, NoMemory>
        ensures { IfOk result (λ yes. IsTrue yes
            → LeadTo (all_of self.now) from.now (steps_of steps.now) to.now) }
    {
        let Some(end) = self.end_of(from, steps)? else {
            return Ok(false);
        };
        Ok(end.0.letters() == to.letters())
    }

    // Steps that lead where the given ones do and weigh less than the limit, where a search finds
    // some.
    fn find_lighter(
        &self,
        guide: &Guide,
        from: &Word,
        steps: &[ChainStep],
        limit: u64,
    ) -> Result<Option<Vec<ChainStep>>, NoMemory>
        ensures { IfOk result (λ lighter. IfSome lighter
            (λ found. LeadAlike (all_of self.now) from.now steps.now found.items)) }
    {
        if limit <= 1 {
            return Ok(None);
        }
        let Some((to, letters)) = self.end_of(from, steps)? else {
            return Ok(None);
        };
        let letters = letters.saturating_add(MORE_LETTERS);
        let Some(found) = find(self.alloc, guide, from, &to, letters, limit)? else {
            return Ok(None);
        };
        if !self.do_lead(from, found.as_slice(), &to)? {
            return Ok(None);
        }
        Ok(Some(found))
    }

    // Steps that lead where the given ones do: others that weigh less than the limit, where a search
    // finds some, and else the same.
    fn lighter(
        &self,
        guide: &Guide,
        from: &Word,
        steps: &[ChainStep],
        limit: u64,
    ) -> Result<Vec<ChainStep>, NoMemory>
        ensures { IfOk result (λ found.
            LeadAlike (all_of self.now) from.now steps.now found.items) }
    {
        match self.find_lighter(guide, from, steps, limit)? {
            Some(found) => Ok(found),
            None => Ok(Vec::from_slice(self.alloc, steps)?),
        }
    }

    // The fact of this number, over a log of those before it: by steps that weigh less than the
    // limit, where some are found.
    fn fact_over(
        &self,
        light: &Derivations,
        guide: &Guide,
        number: usize,
        limit: u64,
    ) -> Result<Fact, NoMemory>
        requires within { number < length self.now.facts }
        requires front { IsFrontOf number self.now light.now }
        ensures proves { IfOk result (λ fact. Proves (all_of light.now) fact) }
        ensures words { IfOk result (λ fact. slice_get (map pair_of self.now.facts) number
            ≡ Some (pair_of fact)) }
    {
        let fact = &self.facts[number];
        let steps = light.lighter(guide, &fact.left, fact.steps.as_slice(), limit)?;
        Ok(Fact {
            left: fact.left.copy(self.alloc)?,
            right: fact.right.copy(self.alloc)?,
            steps,
        })
    }

    // What a search over the relations goes by.
    fn guide(&self) -> Result<Guide, NoMemory> {
        let mut guide = Guide::new(self.alloc)?;
        let relations = self.presentation.relations();
        for number in 0..relations.len() {
            let pair = relations.pair(number);
            guide.add(&pair.0, &pair.1, number, 1)?;
        }
        Ok(guide)
    }

    // What steps are weighed by while the log has no facts.
    fn scale(&self) -> Result<Scale, NoMemory> {
        let relations = self.presentation.relations().len();
        Ok(Scale {
            weights: Weights::of_relations(self.alloc, relations)?,
            guide: self.guide()?,
        })
    }

    // Puts the fact of this number behind those before it: by lighter steps, where it is needed and
    // some are found.
    fn put_lighter(
        &self,
        light: &mut Derivations,
        scale: &mut Scale,
        number: usize,
        is_needed: bool,
    ) -> Result<(), NoMemory>
        requires within { number < length self.now.facts }
        requires front { IsFrontOf number self.now light.old }
        ensures { OnOk result (IsFrontOf (number + 1) self.now light.new) }
    {
        let limit = if is_needed {
            scale.weights.of(self.facts[number].steps.as_slice())
        } else {
            0
        };
        let fact = self.fact_over(light, &scale.guide, number, limit)?;
        scale.add(light.len(), &fact)?;
        light.push(fact)?;
        Ok(())
    }

    // The log with lighter steps for the facts that are needed, where some are found. Its facts are
    // put among what a search goes by.
    fn lightened(&self, scale: &mut Scale, needed: &Vec<bool>) -> Result<Derivations, NoMemory>
        requires { length needed.now.items ≡ length self.now.facts }
        ensures { IfOk result (IsFrontOf (length self.now.facts) self.now) }
    {
        let mut light = Derivations::new(self.alloc, &self.presentation)?;
        for number in 0..self.facts.len() {
            self.put_lighter(&mut light, scale, number, needed[number])?;
        }
        Ok(light)
    }

    // The log, and steps over it from the word on, with lighter steps in both, where some are found.
    fn shortened(
        &self,
        from: &Word,
        steps: &[ChainStep],
    ) -> Result<(Derivations, Vec<ChainStep>), NoMemory>
        ensures log { IfOk result (λ r. IsFrontOf (length self.now.facts) self.now r.0) }
        ensures steps { IfOk result (λ r.
            LeadAlike (all_of self.now) from.now steps.now r.1.items) }
    {
        let needed = self.needed(steps)?;
        let mut scale = self.scale()?;
        let light = self.lightened(&mut scale, &needed)?;
        let lighter = light.lighter(&scale.guide, from, steps, scale.weights.of(steps))?;
        Ok((light, lighter))
    }

    // How many steps by relations the steps stand for, or the greatest number.
    fn weight_of(&self, steps: &[ChainStep]) -> Result<u64, NoMemory> {
        let mut weights = Weights::of_relations(self.alloc, self.presentation.relations().len())?;
        for number in 0..self.facts.len() {
            weights.push(self.facts[number].steps.as_slice())?;
        }
        Ok(weights.of(steps))
    }

    // Spells out lighter steps than those given, where some are found: after the first search facts
    // may be needed that were not before, so there are two.
    fn spell_shortened(&self, from: &Word, steps: &[ChainStep]) -> Result<Vec<ChainStep>, NoMemory>
        requires { AllFit (all_of self.now) from.now steps.now }
        ensures { IfOk result (λ chain. (to : Letters)
            → LeadTo (all_of self.now) from.now (steps_of steps.now) to
            → IsStraight self.now.presentation from.now chain.items to) }
    {
        let (light, lighter) = self.shortened(from, steps)?;
        let (lightest, least) = light.shortened(from, lighter.as_slice())?;
        lightest.spell_as_given(from, least.as_slice())
    }

    /// Spells steps over relations and facts out as steps over relations alone, from the word on.
    /// Where a word is met again, what lies between is dropped, so no word stands twice and the
    /// list is never longer than words there are. Where the list would be long, other steps that lead
    /// to the same word are looked for first, and where it would still be very long, each fact that
    /// is used is spelled out once. Refused only where memory is wanting.
    pub fn spell(&self, from: &Word, steps: &[ChainStep]) -> Result<Vec<ChainStep>, NoMemory>
        requires { AllFit (all_of self.now) from.now steps.now }
        ensures { IfOk result (λ chain. (to : Letters)
            → LeadTo (all_of self.now) from.now (steps_of steps.now) to
            → IsStraight self.now.presentation from.now chain.items to) }
    {
        if self.weight_of(steps)? <= FEW_STEPS {
            return self.spell_as_given(from, steps);
        }
        self.spell_shortened(from, steps)
    }
}
