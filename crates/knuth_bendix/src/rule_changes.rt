// Adding a rule, and what it changes in the rules that are there.
ghost use Rattle.std.specs.Prelude.{◌≡◌, ℕ, ◌<◌, [], length, IfOk, IsTrue, OnOk, ◌↔◌};
ghost use Rattle.theory.specs.ShortLex.{◌≺◌};
ghost use Rattle.theory.specs.Word.{IsFactor, Word as Letters};
ghost use Rattle.knuth_bendix.specs.Changes.{AddsRule, IsDone, Joins, Rewrites};
ghost use Rattle.knuth_bendix.specs.Held.{held_of};
ghost use Rattle.knuth_bendix.specs.Overlaps.{rule_at};
ghost use Rattle.knuth_bendix.specs.Logs.{AreLogged, Grows, IsLogged, KeepsLog, LogsHeld, LogsRule, Shows};
ghost use Rattle.theory.specs.Completion.{IsReduced, Listed, Reduces};

use crate::indexed_rules::IndexedRules;
use crate::lengths::Lengths;
use crate::logs::Log;
use crate::overlaps::Pending;
use chains::ChainStep;
use ports::NoMemory;
use rewriting::has_factor;
use std::alloc::Global;
use std::cmp::Ordering;
use words::{Word, shortlex};

// The reduced right side of a rule. The rule that has it is logged.
fn reduce_right(
    alloc: Global,
    rules: &IndexedRules,
    rule: &(Word, Word),
    log: &mut Log,
) -> Result<Word, NoMemory>
    requires rules { AreLogged log.old rules.now }
    requires rule { IsLogged log.old rule.now }
    ensures reached { IfOk result (λ w. Reduces (Listed rules.now) rule.now.1 w) }
    ensures reduced { IfOk result (λ w. IsReduced (Listed rules.now) w) }
    ensures grows { OnOk result (Grows log.old log.new) }
    ensures logged { IfOk result (λ w. IsLogged log.new (rule.now.0, w)) }
{
    let (right, on) = log.reduce(alloc, rules, &rule.1)?;
    let steps = log.across(alloc, rule, true, &[], on.as_slice())?;
    log.push(alloc, &rule.0, &right, steps)?;
    Ok(right)
}

// Rewrites the right side of the rule at a place. Kept out of line, since few rules come here.
#[inline(never)]
fn reduce_right_at(
    alloc: Global,
    rules: &mut IndexedRules,
    place: usize,
    log: &mut Log,
) -> Result<(), NoMemory>
    requires place { place < length rules.old }
    requires logged { AreLogged log.old rules.old }
    ensures rewrites { OnOk result (Rewrites rules.old rules.new) }
    ensures others { OnOk result ((i : ℕ) → i < length rules.old → (i ≡ place → ⊥)
        → rule_at rules.new i ≡ rule_at rules.old i) }
    ensures done { OnOk result ((f : Letters) → IsDone f rules.old rules.new place) }
    ensures grows { OnOk result (Grows log.old log.new) }
    ensures logged { OnOk result (AreLogged log.new rules.new) }
{
    let right = reduce_right(alloc, rules, rules.rule(place), log)?;
    rules.set_right(place, right);
    Ok(())
}

// Whether the left side of a rule stands in the right side of a rule, by their places.
#[inline(always)]
fn has_in_right(rules: &IndexedRules, left: usize, right: usize) -> bool
    requires left { left < length rules.now }
    requires right { right < length rules.now }
    ensures { IsTrue result ↔ IsFactor (rule_at rules.now left).0 (rule_at rules.now right).1 }
{
    if !rules.may_stand_in_right(left, right) {
        return false;
    }
    has_factor(&rules.rule(right).1, &rules.rule(left).0)
}

// Rewrites the right side of the rule at a place, if the left side of the newest rule stands in it.
#[inline(always)]
fn rewrite_right(
    alloc: Global,
    rules: &mut IndexedRules,
    place: usize,
    newest: usize,
    log: &mut Log,
) -> Result<(), NoMemory>
    requires place { place < length rules.old }
    requires newest { newest < length rules.old }
    requires logged { AreLogged log.old rules.old }
    ensures rewrites { OnOk result (Rewrites rules.old rules.new) }
    ensures others { OnOk result ((i : ℕ) → i < length rules.old → (i ≡ place → ⊥)
        → rule_at rules.new i ≡ rule_at rules.old i) }
    ensures done { OnOk result (IsDone (rule_at rules.old newest).0 rules.old rules.new place) }
    ensures grows { OnOk result (Grows log.old log.new) }
    ensures logged { OnOk result (AreLogged log.new rules.new) }
{
    let _count = rules.len();
    if has_in_right(rules, newest, place) {
        reduce_right_at(alloc, rules, place, log)?;
    }
    Ok(())
}

// Rewrites the right sides in which the left side of the newest rule stands.
#[inline(never)]
fn rewrite_rights(
    alloc: Global,
    rules: &mut IndexedRules,
    newest: usize,
    log: &mut Log,
) -> Result<(), NoMemory>
    requires newest { newest < length rules.old }
    requires logged { AreLogged log.old rules.old }
    ensures rewrites { OnOk result (Rewrites rules.old rules.new) }
    ensures done { OnOk result ((i : ℕ) → i < length rules.new
        → IsDone (rule_at rules.old newest).0 rules.old rules.new i) }
    ensures grows { OnOk result (Grows log.old log.new) }
    ensures logged { OnOk result (AreLogged log.new rules.new) }
{
    for place in 0..rules.len() {
        rewrite_right(alloc, rules, place, newest, log)?;
    }
    Ok(())
}

// Adds the rule that leads from the one word to the other. Rules in which its left side stands
// become equations, and so do the words to which its overlaps within the length lead where no rules
// join them.
fn add_rule(
    rules: &mut IndexedRules,
    left: Word,
    right: Word,
    length: usize,
    pending: &mut Pending,
) -> Result<(), NoMemory>
    requires falls { right ≺ left }
    requires rule { IsLogged pending.old.log (left, right) }
    requires held { LogsHeld pending.old.log rules.old pending.old.equations }
    ensures adds { OnOk result (AddsRule length left right
        (held_of rules.old pending.old.equations) (held_of rules.new pending.new.equations)) }
    ensures logged { OnOk result
        (KeepsLog pending.old.log pending.new.log rules.new pending.new.equations) }
{
    let gone = rules.add(left, right)?;
    pending.equations.extend(gone)?;
    let newest = rules.len() - 1;
    rewrite_rights(pending.alloc, rules, newest, &mut pending.log)?;
    pending.join_all(rules, newest, Lengths::UpTo(length))?;
    Ok(())
}

// Logs the rule that two words make to which those of a pair were reduced, each with the steps that
// lead there.
fn log_rule(
    alloc: Global,
    pair: &(Word, Word),
    left: &(Word, Vec<ChainStep>),
    right: &(Word, Vec<ChainStep>),
    log: &mut Log,
) -> Result<(), NoMemory>
    requires down { Shows log.old pair.now.0 left.now.1.items left.now.0 }
    requires on { Shows log.old pair.now.1 right.now.1.items right.now.0 }
    requires logged { IsLogged log.old pair.now }
    ensures grows { OnOk result (Grows log.old log.new) }
    ensures rule { OnOk result (LogsRule log.new left.now.0 right.now.0) }
{
    match shortlex(&left.0, &right.0) {
        Ordering::Equal => Ok(()),
        Ordering::Less => {
            let steps = log.across(alloc, pair, false, right.1.as_slice(), left.1.as_slice())?;
            log.push(alloc, &right.0, &left.0, steps)
        }
        Ordering::Greater => {
            let steps = log.across(alloc, pair, true, left.1.as_slice(), right.1.as_slice())?;
            log.push(alloc, &left.0, &right.0, steps)
        }
    }
}

// The words to which the rules lead the two of a pair. The rule that they make is logged.
fn reduce_both(
    alloc: Global,
    rules: &IndexedRules,
    pair: &(Word, Word),
    log: &mut Log,
) -> Result<(Word, Word), NoMemory>
    requires rules { AreLogged log.old rules.now }
    requires pair { IsLogged log.old pair.now }
    ensures down_left { IfOk result (λ r. Reduces (Listed rules.now) pair.now.0 r.0) }
    ensures down_right { IfOk result (λ r. Reduces (Listed rules.now) pair.now.1 r.1) }
    ensures end_left { IfOk result (λ r. IsReduced (Listed rules.now) r.0) }
    ensures end_right { IfOk result (λ r. IsReduced (Listed rules.now) r.1) }
    ensures grows { OnOk result (Grows log.old log.new) }
    ensures rule { IfOk result (λ r. LogsRule log.new r.0 r.1) }
{
    let left = log.reduce(alloc, rules, &pair.0)?;
    let right = log.reduce(alloc, rules, &pair.1)?;
    log_rule(alloc, pair, &left, &right, log)?;
    Ok((left.0, right.0))
}

/// Joins the two words: where the rules lead them to different words, a rule is added. Its overlaps
/// whose words have at most `length` letters are joined too, or become equations. Refused only
/// where memory is wanting.
pub fn join(
    rules: &mut IndexedRules,
    pair: &(Word, Word),
    length: usize,
    pending: &mut Pending,
) -> Result<(), NoMemory>
    requires pair { IsLogged pending.old.log pair.now }
    requires held { LogsHeld pending.old.log rules.old pending.old.equations }
    ensures joins { OnOk result (Joins length pair.now.0 pair.now.1
        (held_of rules.old pending.old.equations) (held_of rules.new pending.new.equations)) }
    ensures logged { OnOk result
        (KeepsLog pending.old.log pending.new.log rules.new pending.new.equations) }
{
    let (left, right) = reduce_both(pending.alloc, rules, pair, &mut pending.log)?;
    match shortlex(&left, &right) {
        Ordering::Equal => Ok(()),
        Ordering::Less => add_rule(rules, right, left, length, pending),
        Ordering::Greater => add_rule(rules, left, right, length, pending),
    }
}
