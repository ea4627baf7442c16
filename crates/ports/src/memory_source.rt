ghost use Rattle.std.specs.Prelude.{◌≡◌, ◌<◌, ◌≤◌, ◌↔◌, ◌++◌, length, min, take, drop, Some, Contains, IsErr, IfOk, OnOk, OnErr};
ghost use Rattle.ports.specs.Bytes.{Gives, Rose, next};
ghost use Rattle.ports.specs.InMemory.{source_start, source_read, source_failed};

use super::fault::Failed;
use super::source::Source;
use std::marker::Model;

/// A source over bytes in memory, which gives them in pieces. Calls of given numbers fail.
#[derive(Drop)]
pub struct MemSource {
    bytes: Vec<u8>,
    read: usize,
    piece: usize,
    fails: Vec<u64>,
    calls: u64,
    faults: u64,
}

impl Model for MemSource {
    ghost use Rattle.std.specs.Prelude.{◌<◌, ◌≤◌, length, drop};
    ghost use Rattle.ports.specs.InMemory.{SourceState};

    ghost Value = { SourceState };

    ghost view = { λ s. record {
      left = drop s.read s.bytes.items;
      piece = s.piece;
      fails = s.fails.items;
      calls = s.calls;
      faults = s.faults;
    } };

    ghost invariant = { λ s. (s.read ≤ length s.bytes.items) × (0 < s.piece) };
}

impl MemSource {
    /// A source that gives these bytes, at most `piece` of them a call. `fails` has the numbers of
    /// the calls that fail, where the first call is number 1.
    pub fn new(bytes: Vec<u8>, piece: usize, fails: Vec<u64>) -> MemSource
        requires { 0 < piece }
        ensures { result ≡ source_start bytes.items piece fails.items }
    {
        MemSource {
            bytes,
            read: 0,
            piece,
            fails,
            calls: 0,
            faults: 0,
        }
    }

    /// How many calls failed.
    pub fn faults(&self) -> u64
        ensures { result ≡ self.now.faults }
    {
        self.faults
    }
}

impl Source for MemSource {
    ghost left = { λ s. Some s.left };

    ghost faults = { λ s. s.faults };

    /// Gives as many bytes as fit `buf` and one piece, and leaves what stands in `buf` behind them.
    /// A call fails exactly where its number is one of those that fail, and then changes nothing
    /// but the counts.
    fn read(&mut self, buf: &mut [u8]) -> Result<usize, Failed>
        requires { 0 < length buf.old }
        ensures within { IfOk result (λ n. n ≤ length buf.new) }
        ensures bytes { Gives (Some self.old.left) (Some self.new.left) result buf.new }
        ensures kept { self.old.faults ≤ self.new.faults }
        ensures quiet { OnOk result (self.new.faults ≡ self.old.faults) }
        ensures failed { OnErr result (Rose self.old.faults self.new.faults) }

        ensures fails { IsErr result ↔ Contains self.old.fails (next self.old.calls) }
        ensures count { IfOk result (λ n. n
            ≡ min (length buf.old) (min self.old.piece (length self.old.left))) }
        ensures after { IfOk result (λ n. self.new ≡ source_read self.old n) }
        ensures after_failure { OnErr result (self.new ≡ source_failed self.old) }
        ensures buffer { IfOk result (λ n. buf.new ≡ take n self.old.left ++ drop n buf.old) }
        ensures buffer_kept { OnErr result (buf.new ≡ buf.old) }
    {
        self.calls = self.calls.saturating_add(1);
        if self.fails.contains(&self.calls) {
            self.faults = self.faults.saturating_add(1);
            return Err(Failed);
        }
        let n = buf.len().min(self.piece).min(self.bytes.len() - self.read);
        buf[..n].copy_from_slice(&self.bytes[self.read..self.read + n]);
        self.read += n;
        Ok(n)
    }
}
