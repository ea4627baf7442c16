// Branches of the search.
ghost use Rattle.std.specs.Prelude.{◌≡◌, ◌≤◌, ℕ, ◌++◌, ◌∷◌, [], option_to_list, true, false, IfOk, MatchOption};
ghost use Rattle.sims_one.specs.Known.{IsKnown, IsBranch};
ghost use Rattle.theory.specs.Congruence.{Presentation as Relations};
ghost use Rattle.sims_one.specs.Search.{NoneWithin};
ghost use Rattle.sims_one.specs.Targets.{AreAllowed, IsFront};

use crate::deductions::extend;
use crate::indexed::Indexed;
use crate::known::{Known, Mark};
use crate::sims::MOST_CLASSES;
use ports::NoMemory;
use std::alloc::Global;

/// What is known behind all targets of a branch, and for each of them how much was known before.
#[derive(Drop)]
pub struct Levels {
    known: Known,
    marks: Vec<Mark>,
}

/// A front part of the targets of tables, and what is known behind each front part of it.
#[derive(Drop)]
pub struct Branch {
    /// The targets.
    pub targets: Vec<usize>,
    levels: Levels,
    /// How many targets may still be put in a search.
    pub left: usize,
}

impl Branch {
    /// The branch of all tables. Refused only where memory is wanting.
    pub fn new(alloc: Global, presentation: &Indexed) -> Result<Branch, NoMemory>
        ensures targets { IfOk result (λ b. b.targets.items ≡ []) }
        ensures branch { IfOk result (λ b. (p : Relations) (n : ℕ)
            → IsBranch p n b.targets.items b.levels) }
    {
        let known = Known::new(alloc, presentation.letters())?;
        Ok(Branch {
            targets: Vec::new(alloc),
            levels: Levels {
                known,
                marks: Vec::new(alloc),
            },
            left: usize::MAX,
        })
    }

    /// What is known behind all the targets.
    pub fn known(&self) -> &Known
        ensures { (p : Relations) (n : ℕ)
            → IsBranch p n self.now.targets.items self.now.levels
            → IsKnown p n self.now.targets.items result.now }
    {
        &self.levels.known
    }

    /// Puts the target behind the others, with what is known then, and tells that tables may have
    /// it; else no table has it, and the targets are left as they are. Refused only where memory is
    /// wanting, and then the branch is any.
    pub fn enter(
        &mut self,
        presentation: &Indexed,
        classes: usize,
        target: usize,
    ) -> Result<bool, NoMemory>
        requires classes { classes ≤ MOST_CLASSES }
        requires branch { IsBranch presentation.now.presentation classes
            self.old.targets.items self.old.levels }
        requires front { IsFront presentation.now.presentation.letters
            (self.old.targets.items ++ target ∷ []) }
        requires allowed { AreAllowed presentation.now.presentation classes
            (self.old.targets.items ++ target ∷ []) }
        ensures entered { IfOk result (λ b. b ≡ true
            → self.new.targets.items ≡ self.old.targets.items ++ target ∷ []) }
        ensures none { IfOk result (λ b. b ≡ false → NoneWithin presentation.now.presentation
            classes (self.old.targets.items ++ target ∷ [])) }
        ensures branch { IfOk result (λ _. IsBranch presentation.now.presentation classes
            self.new.targets.items self.new.levels) }
        ensures same { IfOk result (λ b. b ≡ false
            → self.new.targets.items ≡ self.old.targets.items) }
    {
        let place = self.targets.len();
        let mark = self.levels.known.mark();
        if !extend(presentation, &mut self.levels.known, place, target)? {
            self.levels.known.forget(mark);
            return Ok(false);
        }
        self.levels.marks.push(mark)?;
        self.targets.push(target)?;
        Ok(true)
    }

    /// Takes the last target away, with what became known by it.
    pub fn pop(&mut self) -> Option<usize>
        ensures targets { self.old.targets.items
            ≡ self.new.targets.items ++ option_to_list result }
        ensures branch { (p : Relations) (n : ℕ)
            → IsBranch p n self.old.targets.items self.old.levels
            → MatchOption result (self.old.targets.items ≡ [])
            (λ _. IsBranch p n self.new.targets.items self.new.levels) }
    {
        let Some(target) = self.targets.pop() else {
            return None;
        };
        if let Some(mark) = self.levels.marks.pop() {
            self.levels.known.forget(mark);
        }
        Some(target)
    }
}
