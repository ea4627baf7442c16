ghost use Rattle.std.specs.Prelude.{◌≡◌, ◌<◌, ◌≤◌, ◌++◌, length, min, take, drop, Some, IsOk, IfOk};
ghost use Rattle.ports.specs.Bytes.{Gives};

use super::fault::Failed;
use super::source::Source;
use std::marker::Model;

/// A source over bytes in memory, of which no call fails.
#[derive(Drop)]
pub struct SureSource {
    bytes: Vec<u8>,
    read: usize,
}

// the bytes that are left
impl Model for SureSource {
    ghost use Rattle.std.specs.Prelude.{◌≤◌, ℕ, List, length, drop};

    ghost Value = { List ℕ };

    ghost view = { λ s. drop s.read s.bytes.items };

    ghost invariant = { λ s. s.read ≤ length s.bytes.items };
}

impl SureSource {
    /// A source that gives these bytes.
    pub fn new(bytes: Vec<u8>) -> SureSource
        ensures { result ≡ bytes.items }
    {
        SureSource { bytes, read: 0 }
    }
}

impl Source for SureSource {
    ghost left = { λ s. Some s };

    ghost faults = { λ _. 0 };

    /// Gives as many bytes as fit `buf`, and leaves what stands in `buf` behind them.
    fn read(&mut self, buf: &mut [u8]) -> Result<usize, Failed>
        requires { 0 < length buf.old }
        ensures within { IfOk result (λ n. n ≤ length buf.new) }
        ensures bytes { Gives (Some self.old) (Some self.new) result buf.new }

        ensures sure { IsOk result }
        ensures count { IfOk result (λ n. n ≡ min (length buf.old) (length self.old)) }
        ensures after { IfOk result (λ n. self.new ≡ drop n self.old) }
        ensures buffer { IfOk result (λ n. buf.new ≡ take n self.old ++ drop n buf.old) }
    {
        let n = buf.len().min(self.bytes.len() - self.read);
        buf[..n].copy_from_slice(&self.bytes[self.read..self.read + n]);
        self.read += n;
        Ok(n)
    }
}
