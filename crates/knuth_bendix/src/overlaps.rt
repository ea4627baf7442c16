// Overlaps of left sides, and the pairs of words to which they lead.
ghost use Rattle.std.specs.Prelude.{◌≡◌, ℕ, ◌+◌, ◌-◌, ◌*◌, ◌<◌, ◌≤◌, false, [], ◌∷◌, ◌++◌, length, IfOk, OnOk, IsTrue, ◌↔◌, reverse};
ghost use Rattle.std.specs.List.Sorted.{IsPermutation};
ghost use Rattle.knuth_bendix.specs.Overlaps.{AreJoined, AreShort, Gains, HasLength, IsJoinedBy, IsOverlap, ReducesTo, critical_at, critical_pair, overlaps_by, rule_at};
ghost use Rattle.knuth_bendix.specs.Logs.{AreLogged, Grows, KeepsLog, LogsHeld, Shows};
ghost use Rattle.knuth_bendix.specs.Marks.{AreSharesOf};
ghost use Rattle.knuth_bendix.specs.Joining.{JoinsRules};

use crate::equations::Equations;
use crate::indexed_rules::{IndexedRules, Sharing};
use crate::lengths::Lengths;
use crate::logs::Log;
use crate::shares::Shares;
use chains::ChainStep;
use ports::NoMemory;
use rewriting::Reduction;
use std::alloc::Global;
use words::{Letter, Word};

// Whether the last letters of the first word, so many, are the first letters of the second.
fn overlap(first: &Word, second: &Word, shared: usize) -> bool
    requires some { 0 < shared }
    requires first { shared ≤ length first.now }
    requires second { shared ≤ length second.now }
    ensures { IsTrue result ↔ overlaps_by first.now second.now shared }
{
    let start = first.len() - shared;
    first.letter(start) == second.letter(0)
        && first.letters()[start..] == second.letters()[..shared]
}

// How many letters left sides of these lengths may share, some and not all, in words of such
// lengths: from the first number up to the second.
fn shared_by(lengths: Lengths, first: usize, second: usize) -> (usize, usize)
    ensures some { 0 < result.0 }
    ensures few { result.0 - 1 ≤ first }
    ensures first { result.1 ≤ first }
    ensures second { result.1 ≤ second }
    ensures within { (shared : ℕ) → 0 < shared → shared < first → shared < second
        → HasLength lengths (first + (second - shared))
        ↔ ((result.0 ≤ shared) × (shared < result.1)) }
{
    let most = first.min(second);
    match lengths {
        Lengths::UpTo(length) => {
            let fewest = second.saturating_sub(length.saturating_sub(first));
            (fewest.min(most).max(1), most)
        }
        Lengths::Beyond(length) => {
            let end = second.saturating_sub(length.saturating_sub(first));
            (1, end.min(most))
        }
    }
}

// Room for the words of an overlap, which is kept from one to the next.
#[derive(Drop)]
struct Room {
    left: Word,
    right: Word,
    reduction: Reduction,
}

impl Room {
    // Room for no letter. It takes no memory.
    fn new(alloc: Global) -> Room {
        Room {
            left: Word::new(alloc),
            right: Word::new(alloc),
            reduction: Reduction::new(alloc),
        }
    }
}

/// Equations that wait, the log of how these and the rules follow, and room for the words of an
/// overlap.
#[derive(Drop)]
pub struct Pending {
    pub alloc: Global,
    pub equations: Equations,
    pub log: Log,
    room: Room,
}

// Makes a word of some letters and then others.
fn put_joined(word: &mut Word, front: &[Letter], back: &[Letter]) -> Result<(), NoMemory>
    ensures { OnOk result (word.new ≡ front.now ++ back.now) }
{
    word.clear();
    word.append(front)?;
    word.append(back)?;
    Ok(())
}

// Puts the words into the room to which two rules lead from the word in which their left sides
// share so many letters.
fn put_critical_pair(
    room: &mut Room,
    first: &(Word, Word),
    second: &(Word, Word),
    shared: usize,
) -> Result<(), NoMemory>
    requires first { shared ≤ length first.now.0 }
    requires second { shared ≤ length second.now.0 }
    ensures left { OnOk result (room.new.left ≡ (critical_pair first.now second.now shared).0) }
    ensures right { OnOk result (room.new.right ≡ (critical_pair first.now second.now shared).1) }
{
    let start = first.0.len() - shared;
    put_joined(
        &mut room.left,
        first.1.letters(),
        &second.0.letters()[shared..],
    )?;
    put_joined(
        &mut room.right,
        &first.0.letters()[..start],
        second.1.letters(),
    )?;
    Ok(())
}

// The reduced words to which an overlap of two rules leads, and steps from the first to the second.
fn reduced_pair(
    alloc: Global,
    rules: &IndexedRules,
    overlap: Sharing,
    room: &mut Room,
    log: &Log,
) -> Result<(Word, Word, Vec<ChainStep>), NoMemory>
    requires first { overlap.first < length rules.now }
    requires second { overlap.second < length rules.now }
    requires shared_first { overlap.shared ≤ length (rule_at rules.now overlap.first).0 }
    requires shared_second { overlap.shared ≤ length (rule_at rules.now overlap.second).0 }
    requires overlaps { overlaps_by (rule_at rules.now overlap.first).0
        (rule_at rules.now overlap.second).0 overlap.shared }
    requires logged { AreLogged log.now rules.now }
    ensures reduces { IfOk result (λ r. ReducesTo rules.now overlap r.0 r.1) }
    ensures shown { IfOk result (λ r. Shows log.now r.0 r.2.items r.1) }
{
    let first = rules.rule(overlap.first);
    let second = rules.rule(overlap.second);
    put_critical_pair(room, first, second, overlap.shared)?;
    let (left, back) = log.reduce_in(alloc, rules, &mut room.reduction, &room.left)?;
    let (right, on) = log.reduce_in(alloc, rules, &mut room.reduction, &room.right)?;
    let steps = log.over(alloc, rules, overlap, back.as_slice(), on.as_slice())?;
    Ok((left, right, steps))
}

impl Pending {
    /// Equations and their log, with room for no letter. It takes no memory.
    pub fn new(alloc: Global, equations: Equations, log: Log) -> Pending
        ensures equations { result.equations ≡ equations }
        ensures log { result.log ≡ log }
    {
        Pending {
            alloc,
            equations,
            log,
            room: Room::new(alloc),
        }
    }

    // Puts the words to which an overlap leads among the equations, where they differ, and logs the
    // steps that lead from the left one to the right one.
    fn push_different(
        &mut self,
        left: Word,
        right: Word,
        steps: Vec<ChainStep>,
    ) -> Result<(), NoMemory>
        requires shown { Shows self.old.log left steps.items right }
        requires logged { AreLogged self.old.log self.old.equations }
        ensures same { OnOk result (left ≡ right → self.new.equations ≡ self.old.equations) }
        ensures different { OnOk result
            ((left ≡ right → ⊥)
            → IsPermutation (self.old.equations ++ (left, right) ∷ []) self.new.equations) }
        ensures grows { OnOk result (Grows self.old.log self.new.log) }
        ensures logged { OnOk result (AreLogged self.new.log self.new.equations) }
    {
        if left.letters() != right.letters() {
            self.log.push(self.alloc, &left, &right, steps)?;
            self.equations.push(left, right)?;
        }
        Ok(())
    }

    // Joins the words to which an overlap of two rules leads: where the rules lead them to
    // different words, these become an equation.
    fn join_overlap(&mut self, rules: &IndexedRules, overlap: Sharing) -> Result<(), NoMemory>
        requires first { overlap.first < length rules.now }
        requires second { overlap.second < length rules.now }
        requires shared_first { overlap.shared ≤ length (rule_at rules.now overlap.first).0 }
        requires shared_second { overlap.shared ≤ length (rule_at rules.now overlap.second).0 }
        requires overlaps { overlaps_by (rule_at rules.now overlap.first).0
            (rule_at rules.now overlap.second).0 overlap.shared }
        requires held { LogsHeld self.old.log rules.now self.old.equations }
        ensures gains { OnOk result ((lengths : Lengths)
            → IsOverlap lengths (rule_at rules.now overlap.first)
            (rule_at rules.now overlap.second) overlap.shared
            → Gains lengths rules.now self.old.equations self.new.equations 1) }
        ensures joined { OnOk result (IsJoinedBy rules.now self.new.equations
            (critical_at rules.now overlap).0 (critical_at rules.now overlap).1) }
        ensures logged { OnOk result
            (KeepsLog self.old.log self.new.log rules.now self.new.equations) }
    {
        let (left, right, steps) = reduced_pair(
            self.alloc,
            rules,
            overlap,
            &mut self.room,
            &self.log,
        )?;
        self.push_different(left, right, steps)?;
        Ok(())
    }

    /// Joins the overlaps of two rules, by their places, in words of such lengths, one number of
    /// shared letters after another: where the two ways to rewrite a word lead to different ones,
    /// these become an equation. Refused only where memory is wanting.
    // Kept out of line, since few pairs of rules come here.
    #[inline(never)]
    pub fn join_shared(
        &mut self,
        rules: &IndexedRules,
        first: usize,
        second: usize,
        lengths: Lengths,
    ) -> Result<(), NoMemory>
        requires first { first < length rules.now }
        requires second { second < length rules.now }
        requires held { LogsHeld self.old.log rules.now self.old.equations }
        ensures { OnOk result (JoinsRules lengths rules.now (rule_at rules.now first)
            (rule_at rules.now second) self.old self.new) }
    {
        let (fewest, end) = shared_by(
            lengths,
            rules.rule(first).0.len(),
            rules.rule(second).0.len(),
        );
        for shared in fewest..end {
            if overlap(&rules.rule(first).0, &rules.rule(second).0, shared) {
                let sharing = Sharing {
                    first,
                    second,
                    shared,
                };
                self.join_overlap(rules, sharing)?;
            }
        }
        Ok(())
    }

    // Joins the overlaps of two rules, by their places, in whose words the second begins behind the
    // first. What the left side of the first may share is given.
    #[inline(always)]
    fn join_ahead(
        &mut self,
        rules: &IndexedRules,
        ahead: &Shares,
        first: usize,
        second: usize,
    ) -> Result<(), NoMemory>
        requires first { first < length rules.now }
        requires second { second < length rules.now }
        requires ahead { AreSharesOf (rule_at rules.now first).0 ahead.now }
        requires held { LogsHeld self.old.log rules.now self.old.equations }
        ensures { OnOk result (JoinsRules ahead.now.lengths rules.now (rule_at rules.now first)
            (rule_at rules.now second) self.old self.new) }
    {
        let marks = rules.marks(second);
        if !ahead.may_share(marks.first, marks.letters) {
            return Ok(());
        }
        self.join_shared(rules, first, second, ahead.lengths)
    }

    // The same, where it is given what the left side of the second may share, read from its end.
    #[inline(always)]
    fn join_behind(
        &mut self,
        rules: &IndexedRules,
        behind: &Shares,
        first: usize,
        second: usize,
    ) -> Result<(), NoMemory>
        requires first { first < length rules.now }
        requires second { second < length rules.now }
        requires behind { AreSharesOf (reverse (rule_at rules.now second).0) behind.now }
        requires held { LogsHeld self.old.log rules.now self.old.equations }
        ensures { OnOk result (JoinsRules behind.now.lengths rules.now (rule_at rules.now first)
            (rule_at rules.now second) self.old self.new) }
    {
        let marks = rules.marks(first);
        if !behind.may_share(marks.last, marks.letters) {
            return Ok(());
        }
        self.join_shared(rules, first, second, behind.lengths)
    }

    /// Joins the overlaps of a rule, by its place, with each rule, itself among them, on both
    /// sides, in words of such lengths. Refused only where memory is wanting.
    #[inline(never)]
    pub fn join_all(
        &mut self,
        rules: &IndexedRules,
        newest: usize,
        lengths: Lengths,
    ) -> Result<(), NoMemory>
        requires newest { newest < length rules.now }
        requires held { LogsHeld self.old.log rules.now self.old.equations }
        ensures gains { OnOk result ((most : ℕ) → AreShort most rules.now
            → Gains lengths rules.now self.old.equations self.new.equations
            (length rules.now * (most + most))) }
        ensures joined { OnOk result ((other : ℕ) → other < length rules.now
            → AreJoined lengths rules.now self.new.equations (rule_at rules.now newest)
            (rule_at rules.now other)
            × AreJoined lengths rules.now self.new.equations (rule_at rules.now other)
            (rule_at rules.now newest)) }
        ensures logged { OnOk result
            (KeepsLog self.old.log self.new.log rules.now self.new.equations) }
    {
        let ahead = rules.shares_ahead(newest, lengths);
        let behind = rules.shares_behind(newest, lengths)?;
        for other in 0..rules.len() {
            self.join_ahead(rules, &ahead, newest, other)?;
            self.join_behind(rules, &behind, other, newest)?;
        }
        Ok(())
    }
}
