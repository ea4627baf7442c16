// Engines, and what a turn of one gives.

/// What a turn of an engine gives.
#[derive(Clone, Copy, Debug, PartialEq, Eq)]
pub enum Progress {
    /// There is more to do.
    More,
    /// The engine's condition holds.
    Decided,
    /// The engine's condition fails: its budget is used up.
    Spent,
    /// Memory ran out.
    NoMemory,
}

/// An engine that is advanced by turns, until it has decided whether its condition holds
/// (libsemigroups, `Runner`).
///
/// Its ghost members say what it means to a contract: the task that it was made for, the condition
/// of the task that it decides, a measure of the turns that are left, and what its last turn gave.
pub trait Racer: Drop {
    ghost use Rattle.std.specs.Prelude.{◌≡◌, ℕ, ◌<◌};
    ghost use Rattle.race.specs.declared.engines.Progress.{Progress};

    /// What the engine was made for.
    ghost Task: { Type 0 };

    ghost task: { Self → Task };

    /// What it decides of a task.
    ghost condition: { Task → Type 0 };

    /// It falls with each turn that gives `More`.
    ghost measure: { Self → ℕ };

    /// What the last turn gave, and `More` where there was none.
    ghost said: { Self → Progress };

    /// One turn. It gives `Decided` only where the condition of the engine's task holds, `Spent`
    /// only where it fails, and `More` only where the measure fell. `NoMemory` may come in the
    /// place of any of these. The task stays the same. After `Decided` or `Spent` each further turn
    /// gives the same and changes nothing; after `NoMemory` it gives `NoMemory`.
    fn advance(&mut self) -> Progress
        ensures task { task self.new ≡ task self.old }
        ensures said { said self.new ≡ result }
        ensures decided { result ≡ Progress.Decided → condition (task self.new) }
        ensures spent { result ≡ Progress.Spent → ¬ (condition (task self.new)) }
        ensures more { result ≡ Progress.More → measure self.new < measure self.old }
        ensures stays_decided { said self.old ≡ Progress.Decided
            → (result ≡ Progress.Decided) × (self.new ≡ self.old) }
        ensures stays_spent { said self.old ≡ Progress.Spent
            → (result ≡ Progress.Spent) × (self.new ≡ self.old) }
        ensures stays_out_of_memory { said self.old ≡ Progress.NoMemory
            → result ≡ Progress.NoMemory };
}
