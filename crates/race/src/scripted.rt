// An engine for tests.
ghost use Rattle.std.specs.Prelude.{◌≡◌, IfOk};
ghost use Rattle.race.specs.Script.{scripting, IsScript};

use crate::engines::{Progress, Racer};
use ports::NoMemory;
use std::alloc::Global;
use std::marker::Model;

/// An engine for tests that gives these answers in turn, and the last one for good. Its condition
/// holds exactly where the last one is `Decided`.
#[derive(Drop)]
pub struct Scripted {
    answers: Vec<Progress>,
    at: usize,
    last: Progress,
}

impl Model for Scripted {
    ghost use Rattle.race.specs.Script.{Scripting, scripting, IsScripting};

    ghost Value = { Scripting };

    ghost view = { λ s. scripting s.answers.items s.at s.last };

    ghost invariant = { λ s. IsScripting (scripting s.answers.items s.at s.last) };
}

impl Scripted {
    /// The engine that gives these answers: `More` any number of times, or never, and then one
    /// other.
    pub fn new(_alloc: Global, answers: Vec<Progress>) -> Result<Scripted, NoMemory>
        requires { IsScript answers.items }
        ensures { IfOk result (λ s. s ≡ scripting answers.items 0 Progress.More) }
    {
        Ok(Scripted {
            answers,
            at: 0,
            last: Progress::More,
        })
    }
}

impl Racer for Scripted {
    ghost use Rattle.std.specs.Prelude.{◌≡◌, length};
    ghost use Rattle.race.specs.Script.{final_of};
    ghost use Rattle.race.specs.declared.engines.Progress.TheVariants.{Decided};
    ghost use Rattle.std.specs.Prelude.{List};
    ghost use Rattle.race.specs.declared.engines.Progress.{Progress};

    ghost Task = { List Progress };

    ghost task = { λ s. s.script };

    ghost condition = { λ script. final_of script ≡ Decided };

    ghost measure = { λ s. length s.left };

    ghost said = { λ s. s.last };

    fn advance(&mut self) -> Progress {
        let Progress::More = self.last else {
            return self.last;
        };
        let answer = self.answers[self.at];
        self.at += 1;
        self.last = answer;
        answer
    }
}
