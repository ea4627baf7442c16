// Parts of a work.
use ports::NoMemory;

/// A part of a work, which is run once.
///
/// Its ghost members say what it means to a contract: the task that it was made for, which is plain
/// data, and whether it is done, so that its task is fulfilled.
pub trait Part: Drop {
    ghost use Rattle.std.specs.Prelude.{◌≡◌, OnOk};

    /// What the part was made for.
    ghost Task: { Type 0 };

    ghost task: { Self → Task };

    /// Whether the task is fulfilled.
    ghost is_done: { Self → Type 0 };

    /// Runs the part. The task stays the same, and after `Ok` the part is done. Refused only where
    /// memory is wanting.
    fn run(&mut self) -> Result<(), NoMemory>
        ensures task { task self.new ≡ task self.old }
        ensures done { OnOk result (is_done self.new) };
}
