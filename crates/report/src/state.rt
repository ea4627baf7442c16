// What is known while the queries of a script are answered.
ghost use Rattle.std.specs.Prelude.{◌≡◌, ◌<◌, true, None, Some, IsSome, OnOk, MatchOption};
ghost use Rattle.problem.specs.declared.kinds.Problem.{Problem as Posed};
ghost use Rattle.problem.specs.Problem.{IsPosable, is_presented};
ghost use Rattle.report.specs.Answers.{state_bounds};
ghost use Rattle.report.specs.Kept.{KeepsFound, KeepsOf, KeepsSettings};

use crate::bounds::Bounds;
use congruence::{Verdict, solve};
use knuth_bendix::Completion;
use ports::{Gate, NoMemory};
use problem::{Budgets, Problem};
use query_answers::{drop_completion, logged_completion};
use report_lines::KnownElements;
use std::alloc::Global;
use std::mem::replace;
use std::thread::Threads;

/// What the queries of one script are answered with: its budgets, the bound up to which an index is
/// written out, how many workers may be at it, and what was found of the problem so far: a verdict,
/// a completion that logs, at its end, and what is known of elements.
#[derive(Drop)]
pub struct State {
    budgets: Budgets,
    classes: usize,
    workers: usize,
    // What was found of the problem, if it was looked for.
    pub(crate) verdict: Option<Verdict>,
    completion: Option<Completion>,
    pub(crate) elements: KnownElements,
}

// Lets go of a verdict, if there is one, where verdicts come from.
fn drop_verdict(verdict: Option<Verdict>) {
    if let Some(verdict) = verdict {
        verdict.let_go();
    }
}

// Lets go of a completion that logs, if there is one.
fn drop_log(completion: Option<Completion>) {
    if let Some(completion) = completion {
        drop_completion(completion);
    }
}

impl State {
    /// Nothing is found yet.
    pub fn new(bounds: Bounds) -> State
        ensures bounds { state_bounds result ≡ bounds }
        ensures kept { (problem : Posed) → KeepsOf problem result }
    {
        State {
            budgets: bounds.budgets,
            classes: bounds.classes,
            workers: bounds.workers,
            verdict: None,
            completion: None,
            elements: KnownElements::new(),
        }
    }

    // Finds out about the problem, where that was not done yet.
    pub(crate) fn decide<R: Threads + Sync, G: Gate + Sync>(
        &mut self,
        rt: &R,
        alloc: Global,
        problem: &Problem,
        gate: &G,
    ) -> Result<(), NoMemory>
        requires posable { IsPosable problem.now }
        requires workers { 0 < self.old.workers }
        requires kept { KeepsOf problem.now self.old }
        ensures kept { KeepsOf problem.now self.new }
        ensures settings { KeepsSettings self.old self.new }
        ensures stays { KeepsFound self.old self.new }
        ensures found { OnOk result (IsSome self.new.verdict) }
    {
        if self.verdict.is_some() {
            return Ok(());
        }
        let verdict = solve(rt, alloc, problem, &self.budgets, self.workers, gate)?;
        drop_verdict(replace(&mut self.verdict, Some(verdict)));
        Ok(())
    }

    // Runs a completion that logs to its end, where that was not done yet.
    pub(crate) fn complete(&mut self, alloc: Global, problem: &Problem) -> Result<(), NoMemory>
        requires posable { IsPosable problem.now }
        requires presented { is_presented problem.now ≡ true }
        requires kept { KeepsOf problem.now self.old }
        ensures kept { KeepsOf problem.now self.new }
        ensures settings { KeepsSettings self.old self.new }
        ensures stays { KeepsFound self.old self.new }
        ensures found { OnOk result (IsSome self.new.completion) }
    {
        if self.completion.is_some() {
            return Ok(());
        }
        let completion = logged_completion(alloc, problem, self.budgets.length)?;
        drop_log(replace(&mut self.completion, Some(completion)));
        Ok(())
    }

    /// Lets go of what was found.
    pub fn let_go(self) {
        let State {
            verdict,
            completion,
            elements,
            ..
        } = self;
        drop_verdict(verdict);
        drop_log(completion);
        drop(elements);
    }

    // The completion that logs, if it was run.
    pub(crate) fn completion(&self) -> Option<&Completion>
        ensures { MatchOption result (self.now.completion ≡ None)
            (λ completion. self.now.completion ≡ Some completion.now) }
    {
        self.completion.as_ref()
    }

    // How many workers may be at it.
    pub(crate) fn workers(&self) -> usize
        ensures { result ≡ self.now.workers }
    {
        self.workers
    }

    // The bound up to which an index is written out.
    pub(crate) fn classes(&self) -> usize
        ensures { result ≡ self.now.classes }
    {
        self.classes
    }
}
