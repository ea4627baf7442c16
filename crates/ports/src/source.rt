ghost use Rattle.std.specs.Prelude.{◌≡◌, ◌<◌, ◌≤◌, ℕ, List, Option, length, OnOk, OnErr, IfOk};
ghost use Rattle.ports.specs.Bytes.{Gives, Rose};

use super::fault::Failed;

/// Bytes to be read, and a count of the calls that failed.
pub trait Source {
    // the bytes that are left, where the source tells them
    ghost left: { Self → Option (List ℕ) };

    // how many calls have failed
    ghost faults: { Self → ℕ };

    /// Reads the next bytes into the front of `buf`, at most its length, and answers how many. An
    /// answer of 0 is the end of input, and comes only where nothing is left. It is not told what
    /// stands in `buf` behind these bytes.
    ///
    /// `Failed` comes only where the count of faults rose, and takes nothing; it is not told what
    /// `buf` then holds. An answer leaves the count as it was, and no call lowers it.
    fn read(&mut self, buf: &mut [u8]) -> Result<usize, Failed>
        requires { 0 < length buf.old }
        ensures within { IfOk result (λ n. n ≤ length buf.new) }
        ensures bytes { Gives (left self.old) (left self.new) result buf.new }
        ensures kept { faults self.old ≤ faults self.new }
        ensures quiet { OnOk result (faults self.new ≡ faults self.old) }
        ensures failed { OnErr result (Rose (faults self.old) (faults self.new)) };
}
