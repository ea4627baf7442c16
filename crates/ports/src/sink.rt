ghost use Rattle.std.specs.Prelude.{◌≡◌, ◌<◌, ◌≤◌, ℕ, List, [], Option, length, OnOk, OnErr, IfOk, IsErrOf};
ghost use Rattle.ports.specs.Bytes.{Takes, TakesAll, Rose};

use super::fault::WriteFault;

/// Where bytes are written, with a count of the calls that failed and one of those that were
/// refused memory.
pub trait Sink {
    // the bytes that were taken, where the sink tells them
    ghost taken: { Self → Option (List ℕ) };

    // how many calls have failed
    ghost faults: { Self → ℕ };

    // how many calls were refused memory
    ghost refusals: { Self → ℕ };

    /// Takes just the first bytes of the piece, at most its length, and answers how many: at least
    /// one where the piece is not empty. An answer leaves both counts as they were, and no call
    /// lowers either.
    ///
    /// `Failed` comes only where the count of faults rose, and takes a prefix of the piece.
    /// `NoMemory` comes only where the count of refusals rose, and takes nothing.
    fn write(&mut self, bytes: &[u8]) -> Result<usize, WriteFault>
        ensures within { IfOk result (λ n. n ≤ length bytes.now) }
        ensures progress { IfOk result (λ n. 0 < length bytes.now → 0 < n) }
        ensures bytes { Takes (taken self.old) (taken self.new) result bytes.now }
        ensures nothing { IsErrOf result WriteFault.NoMemory
            → TakesAll (taken self.old) (taken self.new) [] }
        ensures faults_kept { faults self.old ≤ faults self.new }
        ensures refusals_kept { refusals self.old ≤ refusals self.new }
        ensures quiet { OnOk result ((faults self.new ≡ faults self.old)
            × (refusals self.new ≡ refusals self.old)) }
        ensures failed { IsErrOf result WriteFault.Failed
            → Rose (faults self.old) (faults self.new) }
        ensures refused { IsErrOf result WriteFault.NoMemory
            → Rose (refusals self.old) (refusals self.new) };
}
