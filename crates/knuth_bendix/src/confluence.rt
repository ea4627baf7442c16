// The last test: whether overlaps lead to one word.
ghost use Rattle.std.specs.Prelude.{◌≡◌, ℕ, ◌+◌, ◌-◌, ◌<◌, ◌≤◌, false, [], length, None, IfOk, MatchBool};
ghost use Rattle.theory.specs.Word.{Word as Letters};
ghost use Rattle.knuth_bendix.specs.Marks.{AreSharesOf};
ghost use Rattle.knuth_bendix.specs.Overlaps.{AreJoined, HasLength, IsSplit, rule_at};

use crate::equations::Equations;
use crate::indexed_rules::IndexedRules;
use crate::lengths::Lengths;
use crate::logs::Log;
use crate::overlaps::Pending;
use crate::shares::Shares;
use ports::NoMemory;
use std::alloc::Global;

// Whether each overlap of two rules leads to one word. Nothing waits, nor is logged, before; what
// waits then are words that differ.
fn joins_without_rest(
    pending: &mut Pending,
    rules: &IndexedRules,
    first: usize,
    second: usize,
    lengths: Lengths,
) -> Result<bool, NoMemory>
    requires first { first < length rules.now }
    requires second { second < length rules.now }
    requires empty { pending.old.equations ≡ [] }
    requires unlogged { pending.old.log ≡ None }
    ensures { IfOk result (λ joined. MatchBool joined
        (AreJoined lengths rules.now [] (rule_at rules.now first) (rule_at rules.now second))
        ((u : Letters) × (v : Letters) × IsSplit lengths rules.now u v)) }
{
    pending.join_shared(rules, first, second, lengths)?;
    Ok(pending.equations.is_empty())
}

// Whether each overlap of two rules leads to one word. What the left side of the first may share is
// given.
fn pair_is_joined(
    alloc: Global,
    rules: &IndexedRules,
    ahead: &Shares,
    first: usize,
    second: usize,
) -> Result<bool, NoMemory>
    requires first { first < length rules.now }
    requires second { second < length rules.now }
    requires ahead { AreSharesOf (rule_at rules.now first).0 ahead.now }
    ensures { IfOk result (λ joined. MatchBool joined
        (AreJoined ahead.now.lengths rules.now [] (rule_at rules.now first)
        (rule_at rules.now second))
        ((u : Letters) × (v : Letters) × IsSplit ahead.now.lengths rules.now u v)) }
{
    let marks = rules.marks(second);
    if !ahead.may_share(marks.first, marks.letters) {
        return Ok(true);
    }
    let mut pending = Pending::new(alloc, Equations::new(alloc), Log::none());
    joins_without_rest(&mut pending, rules, first, second, ahead.lengths)
}

// Whether an overlap of a left side of so many letters with one that is no longer than the longest
// may stand in a word of such a length.
fn may_stand_in(lengths: Lengths, first: usize, longest: usize) -> bool
    ensures { result ≡ false → (second shared : ℕ) → second ≤ longest → 0 < shared
        → shared < second → HasLength lengths (first + (second - shared)) → ⊥ }
{
    match lengths {
        Lengths::UpTo(_) => true,
        Lengths::Beyond(length) => longest > length.saturating_sub(first).saturating_add(1),
    }
}

// Whether each overlap of a rule with any leads to one word. What its left side may share is given.
fn all_are_joined(
    alloc: Global,
    rules: &IndexedRules,
    ahead: &Shares,
    first: usize,
) -> Result<bool, NoMemory>
    requires first { first < length rules.now }
    requires ahead { AreSharesOf (rule_at rules.now first).0 ahead.now }
    ensures { IfOk result (λ joined. MatchBool joined
        ((second : ℕ) → second < length rules.now
        → AreJoined ahead.now.lengths rules.now [] (rule_at rules.now first)
        (rule_at rules.now second))
        ((u : Letters) × (v : Letters) × IsSplit ahead.now.lengths rules.now u v)) }
{
    for second in 0..rules.len() {
        if !pair_is_joined(alloc, rules, ahead, first, second)? {
            return Ok(false);
        }
    }
    Ok(true)
}

// Whether each overlap of a rule with any, in a word of such a length, leads to one word. No left
// side has more letters than the longest.
fn row_is_joined(
    alloc: Global,
    rules: &IndexedRules,
    first: usize,
    longest: usize,
    lengths: Lengths,
) -> Result<bool, NoMemory>
    requires first { first < length rules.now }
    requires longest { (place : ℕ) → place < length rules.now
        → length (rule_at rules.now place).0 ≤ longest }
    ensures { IfOk result (λ joined. MatchBool joined
        ((second : ℕ) → second < length rules.now
        → AreJoined lengths rules.now [] (rule_at rules.now first) (rule_at rules.now second))
        ((u : Letters) × (v : Letters) × IsSplit lengths rules.now u v)) }
{
    if !may_stand_in(lengths, rules.rule(first).0.len(), longest) {
        return Ok(true);
    }
    let ahead = rules.shares_ahead(first, lengths);
    all_are_joined(alloc, rules, &ahead, first)
}

/// Whether each overlap of the rules in a word of such a length leads to one word (Sims 1994, 2.3).
/// Refused only where memory is wanting.
pub fn are_joined(alloc: Global, rules: &IndexedRules, lengths: Lengths) -> Result<bool, NoMemory>
    ensures { IfOk result (λ joined. MatchBool joined
        ((first second : ℕ) → first < length rules.now → second < length rules.now
        → AreJoined lengths rules.now [] (rule_at rules.now first) (rule_at rules.now second))
        ((u : Letters) × (v : Letters) × IsSplit lengths rules.now u v)) }
{
    let longest = rules.longest_left();
    for first in 0..rules.len() {
        if !row_is_joined(alloc, rules, first, longest, lengths)? {
            return Ok(false);
        }
    }
    Ok(true)
}
