// Completion, an equation at a time.
ghost use Rattle.std.specs.Prelude.{◌≡◌, ◌≤◌, ◌<◌, ◌⊎◌, ◌↔◌, All, [], cond, length, true, false, None, is_some, IfOk, IsTrue, OnOk, MatchBool, MatchOption, MatchResult};
ghost use Rattle.theory.specs.Word.{Word as Letters};
ghost use Rattle.theory.specs.Chain.{Related};
ghost use Rattle.chains.specs.Chains.{IsStraight};
ghost use Rattle.theory.specs.Congruence.{of_presentation};
ghost use Rattle.theory.specs.Class.{IsRuleList, SameClass};
ghost use Rattle.theory.specs.Completion.{AreRules, CompletionEnds, Listed, Rule};
ghost use Rattle.knuth_bendix.specs.Held.{IsSound, held_of};
ghost use Rattle.knuth_bendix.specs.Overlaps.{AreShort};
ghost use Rattle.knuth_bendix.specs.Logs.{IsLogOf, KeepsLog, LogsHeld};
ghost use Rattle.knuth_bendix.specs.Runs.{AreShortRelations, CompletionRun, IsTurn};

use crate::confluence::are_joined;
use crate::equations::Equations;
use crate::indexed_rules::IndexedRules;
use crate::lengths::Lengths;
use crate::logs::Log;
use crate::overlaps::Pending;
use crate::rule_changes::join;
use chains::ChainStep;
use ports::NoMemory;
use presentation::{Pairs, Presentation};
use race::{Progress, Racer};
use rewriting::Rules;
use std::alloc::Global;
use std::marker::Model;
use words::{Word, shortlex};

/// A completion of a presentation within a bound on the length of words: an engine that decides
/// whether it ends there, as `CompletionEnds` of `theory` says. The rules that it holds have no
/// longer side.
#[derive(Drop)]
pub struct Completion {
    alloc: Global,
    presentation: Presentation,
    length: usize,
    rules: IndexedRules,
    pending: Pending,
    said: Progress,
}

impl Model for Completion {
    ghost use Rattle.std.specs.Prelude.{is_some};
    ghost use Rattle.knuth_bendix.specs.Logs.{IsLogOf, LogsHeld};
    ghost use Rattle.knuth_bendix.specs.Runs.{CompletionRun, IsCompletion, left_of};

    ghost Value = { CompletionRun };

    ghost view = { λ c. record {
      presentation = c.presentation.presentation;
      length = c.length;
      rules = c.rules;
      left = left_of c.presentation.presentation c.length c.rules c.pending.equations;
      said = c.said;
      logged = is_some c.pending.log;
    } };

    ghost invariant = { λ c. IsCompletion c.presentation.presentation c.length c.rules
        c.pending.equations c.said × IsLogOf c.presentation.presentation c.pending.log
        × LogsHeld c.pending.log c.rules c.pending.equations };
}

// Whether neither side of the relation has more letters than the bound.
fn is_short(relation: &(Word, Word), bound: usize) -> bool
    ensures { IsTrue result ↔ ((length relation.now.0 ≤ bound) × (length relation.now.1 ≤ bound)) }
{
    relation.0.len() <= bound && relation.1.len() <= bound
}

// The relations both of whose sides are within the bound.
fn short_relations(alloc: Global, relations: &Pairs, bound: usize) -> Result<Equations, NoMemory>
    ensures { IfOk result (AreShortRelations bound relations.now) }
{
    let mut equations = Equations::new(alloc);
    for place in 0..relations.len() {
        let relation = relations.pair(place);
        if is_short(relation, bound) {
            equations.push(relation.0.copy(alloc)?, relation.1.copy(alloc)?)?;
        }
    }
    Ok(equations)
}

// Whether both sides of each relation are within the bound.
fn are_short(relations: &Pairs, bound: usize) -> bool
    ensures { IsTrue result ↔ All (λ r. (length r.0 ≤ bound) × (length r.1 ≤ bound)) relations.now }
{
    for place in 0..relations.len() {
        if !is_short(relations.pair(place), bound) {
            return false;
        }
    }
    true
}

// Whether completion ends, once no equation is left: each relation is within the length, and each
// longer overlap leads to one word.
fn ends(
    alloc: Global,
    presentation: &Presentation,
    length: usize,
    rules: &IndexedRules,
) -> Result<bool, NoMemory>
    requires { IsSound presentation.now.presentation length
        (record { rules = rules.now; equations = [] }) }
    ensures { IfOk result (λ ends. MatchBool ends
        (CompletionEnds presentation.now.presentation length)
        (CompletionEnds presentation.now.presentation length → ⊥)) }
{
    if !are_short(presentation.relations(), length) {
        return Ok(false);
    }
    let joined = are_joined(alloc, rules, Lengths::Beyond(length))?;
    Ok(joined)
}

// What the last turn tells.
fn last_answer(ends: bool) -> Progress
    ensures { result ≡ cond ends Progress.Decided Progress.Spent }
{
    if ends {
        Progress::Decided
    } else {
        Progress::Spent
    }
}

// One turn: an equation is joined, or if none is left, it is decided whether completion ends.
fn go_on(
    presentation: &Presentation,
    length: usize,
    rules: &mut IndexedRules,
    pending: &mut Pending,
) -> Result<Progress, NoMemory>
    requires sound { IsSound presentation.now.presentation length
        (held_of rules.old pending.old.equations) }
    requires held { LogsHeld pending.old.log rules.old pending.old.equations }
    ensures turn { IfOk result (IsTurn presentation.now.presentation length
        (held_of rules.old pending.old.equations) (held_of rules.new pending.new.equations)) }
    ensures logged { OnOk result
        (KeepsLog pending.old.log pending.new.log rules.new pending.new.equations) }
{
    match pending.equations.pop() {
        Some(pair) => {
            join(rules, &pair, length, pending)?;
            Ok(Progress::More)
        }
        None => {
            rules.rebuild()?;
            let ends = ends(pending.alloc, presentation, length, rules)?;
            Ok(last_answer(ends))
        }
    }
}

// What a turn tells: after want of memory no rules are held.
fn told_by(alloc: Global, turn: Result<Progress, NoMemory>, rules: &mut IndexedRules) -> Progress
    ensures { MatchResult turn (λ said. (result ≡ said) × (rules.new ≡ rules.old))
        (λ _. (result ≡ Progress.NoMemory) × (rules.new ≡ [])) }
{
    match turn {
        Ok(said) => said,
        Err(NoMemory) => {
            *rules = IndexedRules::new(alloc);
            Progress::NoMemory
        }
    }
}

// After want of memory nothing is logged.
fn settle(log: &mut Log, said: Progress)
    ensures kept { (said ≡ Progress.NoMemory → ⊥) → log.new ≡ log.old }
    ensures lost { said ≡ Progress.NoMemory → log.new ≡ None }
{
    if said == Progress::NoMemory {
        *log = Log::none();
    }
}

impl Racer for Completion {
    ghost use Rattle.std.specs.Prelude.{◌≡◌, ◌⊎◌, ℕ, ◌<◌};
    ghost use Rattle.race.specs.declared.engines.Progress.{Progress as Answer};
    ghost use Rattle.theory.specs.Completion.{AreRules, CompletionEnds};
    ghost use Rattle.knuth_bendix.specs.Overlaps.{AreShort};
    ghost use Rattle.knuth_bendix.specs.Runs.{CompletionTask};

    ghost Task = { CompletionTask };

    ghost task = { λ c. record { presentation = c.presentation; length = c.length } };

    ghost condition = { λ t. CompletionEnds t.presentation t.length };

    ghost measure = { λ c. c.left };

    ghost said = { λ c. c.said };

    /// Joins one pair of words that are related: a relation, or the words to which an overlap
    /// leads. Where none is left that fits, the last turn tests the longer overlaps. After it two
    /// words within the length have one normal form exactly where the relation of that length
    /// relates them. No rule that is held has a longer side.
    fn advance(&mut self) -> Progress
        ensures task { (self.new.presentation ≡ self.old.presentation)
            × (self.new.length ≡ self.old.length) }
        ensures said { self.new.said ≡ result }
        ensures decided { result ≡ Answer.Decided
            → CompletionEnds self.new.presentation self.new.length }
        ensures spent { result ≡ Answer.Spent
            → ¬ (CompletionEnds self.new.presentation self.new.length) }
        ensures more { result ≡ Answer.More → self.new.left < self.old.left }
        ensures stays_decided { self.old.said ≡ Answer.Decided
            → (result ≡ Answer.Decided) × (self.new ≡ self.old) }
        ensures stays_spent { self.old.said ≡ Answer.Spent
            → (result ≡ Answer.Spent) × (self.new ≡ self.old) }
        ensures stays_out_of_memory { self.old.said ≡ Answer.NoMemory → result ≡ Answer.NoMemory }
        ensures rules { (result ≡ Answer.Decided) ⊎ (result ≡ Answer.Spent)
            → AreRules self.new.presentation self.new.length self.new.rules }
        ensures short { AreShort self.new.length self.new.rules }
        ensures logged { (result ≡ Answer.NoMemory → ⊥) → self.new.logged ≡ self.old.logged }
    {
        let Progress::More = self.said else {
            return self.said;
        };
        let turn = go_on(
            &self.presentation,
            self.length,
            &mut self.rules,
            &mut self.pending,
        );
        let said = told_by(self.alloc, turn, &mut self.rules);
        settle(&mut self.pending.log, said);
        self.said = said;
        said
    }
}

impl Completion {
    // The completion before the first turn, with the log.
    fn with_log(
        alloc: Global,
        presentation: &Presentation,
        length: usize,
        log: Log,
    ) -> Result<Completion, NoMemory>
        requires { IsLogOf presentation.now.presentation log }
        ensures presentation { IfOk result (λ c. c.presentation ≡ presentation.now.presentation) }
        ensures length { IfOk result (λ c. c.length ≡ length) }
        ensures rules { IfOk result (λ c. c.rules ≡ []) }
        ensures said { IfOk result (λ c. c.said ≡ Progress.More) }
        ensures logged { IfOk result (λ c. c.logged ≡ is_some log) }
    {
        let equations = short_relations(alloc, presentation.relations(), length)?;
        Ok(Completion {
            alloc,
            presentation: presentation.copy(alloc)?,
            length,
            rules: IndexedRules::new(alloc),
            pending: Pending::new(alloc, equations, log),
            said: Progress::More,
        })
    }

    /// The completion of the presentation within so many letters. No turn has been made. Refused
    /// only where memory is wanting.
    pub fn new(
        alloc: Global,
        presentation: &Presentation,
        length: usize,
    ) -> Result<Completion, NoMemory>
        ensures presentation { IfOk result (λ c. c.presentation ≡ presentation.now.presentation) }
        ensures length { IfOk result (λ c. c.length ≡ length) }
        ensures rules { IfOk result (λ c. c.rules ≡ []) }
        ensures said { IfOk result (λ c. c.said ≡ Progress.More) }
        ensures logged { IfOk result (λ c. c.logged ≡ false) }
    {
        Completion::with_log(alloc, presentation, length, Log::none())
    }

    /// The completion of the presentation within so many letters, which logs how each rule follows
    /// from the relations. It makes the same turns as one that logs nothing, and each takes longer.
    /// Refused only where memory is wanting.
    pub fn logged(
        alloc: Global,
        presentation: &Presentation,
        length: usize,
    ) -> Result<Completion, NoMemory>
        ensures presentation { IfOk result (λ c. c.presentation ≡ presentation.now.presentation) }
        ensures length { IfOk result (λ c. c.length ≡ length) }
        ensures rules { IfOk result (λ c. c.rules ≡ []) }
        ensures said { IfOk result (λ c. c.said ≡ Progress.More) }
        ensures logged { IfOk result (λ c. c.logged ≡ true) }
    {
        let log = Log::new(alloc, presentation)?;
        Completion::with_log(alloc, presentation, length, log)
    }

    /// Whether a turn has given `Decided`.
    pub fn is_decided(&self) -> bool
        ensures { IsTrue result ↔ (self.now.said ≡ Progress.Decided) }
    {
        self.said == Progress::Decided
    }

    /// Whether it is logged how rules follow from the relations.
    pub fn is_logged(&self) -> bool
        ensures { IsTrue result ↔ (self.now.logged ≡ true) }
    {
        self.pending.log.is_logged()
    }

    /// The rules of a completion that has decided: the reduced rules of the presentation's
    /// congruence, in short-lex order of their left sides (Sims 1994, 2.6; libsemigroups,
    /// `active_rules`). Refused only where memory is wanting.
    pub fn rules(&self) -> Result<Rules, NoMemory>
        requires { self.now.said ≡ Progress.Decided }
        ensures list { IfOk result (IsRuleList
            (SameClass (of_presentation self.now.presentation))) }
        ensures rules { IfOk result (λ r. (u v : Letters)
            → Listed r u v ↔ Rule self.now.presentation self.now.length u v) }
        ensures ends { CompletionEnds self.now.presentation self.now.length }
    {
        let mut rules = self.rules.copy(self.alloc)?.into_vec();
        rules.sort_by(|first, second| shortlex(&first.0, &second.0))?;
        Ok(Rules::from_vec(self.alloc, rules))
    }

    /// Steps by the relations that lead from the one word to the other, over words that are all
    /// different; `None` exactly where the two are not related. The completion logs, as one made by
    /// [`Completion::logged`] does, and has decided. Refused only where memory is wanting.
    pub fn chain(&self, u: &Word, v: &Word) -> Result<Option<Vec<ChainStep>>, NoMemory>
        requires logged { self.now.logged ≡ true }
        requires decided { self.now.said ≡ Progress.Decided }
        ensures { IfOk result (λ found. MatchOption found
            (Related (of_presentation self.now.presentation) u.now v.now → ⊥)
            (λ steps. IsStraight self.now.presentation u.now steps.items v.now)) }
    {
        let log = &self.pending.log;
        let (left, there) = log.reduce(self.alloc, &self.rules, u)?;
        let (right, back) = log.reduce(self.alloc, &self.rules, v)?;
        if left.letters() != right.letters() {
            return Ok(None);
        }
        let chain = log.spell(u, there, back.as_slice())?;
        Ok(Some(chain))
    }
}
