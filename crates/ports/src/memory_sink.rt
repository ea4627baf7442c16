ghost use Rattle.std.specs.Prelude.{◌≡◌, ◌<◌, ◌≤◌, ◌↔◌, ◌++◌, [], length, min, take, Some, Contains, IfOk, IsErrOf, OnOk};
ghost use Rattle.ports.specs.Bytes.{Rose, Takes, TakesAll, next};
ghost use Rattle.ports.specs.InMemory.{sink_start, sink_took, sink_failed, sink_refused};

use super::fault::WriteFault;
use super::sink::Sink;
use std::alloc::Global;
use std::marker::Model;

/// A sink in memory, which keeps what it takes, and takes it in pieces. Calls of given numbers
/// fail.
#[derive(Drop)]
pub struct MemSink {
    bytes: Vec<u8>,
    piece: usize,
    fails: Vec<u64>,
    calls: u64,
    faults: u64,
    refusals: u64,
}

impl Model for MemSink {
    ghost use Rattle.std.specs.Prelude.{◌<◌};
    ghost use Rattle.ports.specs.InMemory.{SinkState};

    ghost Value = { SinkState };

    ghost view = { λ s. record {
      taken = s.bytes.items;
      piece = s.piece;
      fails = s.fails.items;
      calls = s.calls;
      faults = s.faults;
      refusals = s.refusals;
    } };

    ghost invariant = { λ s. 0 < s.piece };
}

impl MemSink {
    /// A sink that has taken nothing, and takes at most `piece` bytes a call. `fails` has the
    /// numbers of the calls that fail, where the first call is number 1.
    pub fn new(alloc: Global, piece: usize, fails: Vec<u64>) -> MemSink
        requires { 0 < piece }
        ensures { result ≡ sink_start piece fails.items }
    {
        MemSink {
            bytes: Vec::new(alloc),
            piece,
            fails,
            calls: 0,
            faults: 0,
            refusals: 0,
        }
    }

    /// The bytes that were taken.
    pub fn taken(&self) -> &[u8]
        ensures { result.now ≡ self.now.taken }
    {
        &self.bytes
    }

    /// How many calls failed. Those that were refused memory are not among them.
    pub fn faults(&self) -> u64
        ensures { result ≡ self.now.faults }
    {
        self.faults
    }
}

impl Sink for MemSink {
    ghost taken = { λ s. Some s.taken };

    ghost faults = { λ s. s.faults };

    ghost refusals = { λ s. s.refusals };

    /// Takes the first piece of the bytes. A call fails exactly where its number is one of those
    /// that fail, and then changes nothing but the counts, as does a call that is refused memory.
    fn write(&mut self, bytes: &[u8]) -> Result<usize, WriteFault>
        ensures within { IfOk result (λ n. n ≤ length bytes.now) }
        ensures progress { IfOk result (λ n. 0 < length bytes.now → 0 < n) }
        ensures bytes { Takes (Some self.old.taken) (Some self.new.taken) result bytes.now }
        ensures nothing { IsErrOf result WriteFault.NoMemory
            → TakesAll (Some self.old.taken) (Some self.new.taken) [] }
        ensures faults_kept { self.old.faults ≤ self.new.faults }
        ensures refusals_kept { self.old.refusals ≤ self.new.refusals }
        ensures quiet { OnOk result ((self.new.faults ≡ self.old.faults)
            × (self.new.refusals ≡ self.old.refusals)) }
        ensures failed { IsErrOf result WriteFault.Failed → Rose self.old.faults self.new.faults }
        ensures refused { IsErrOf result WriteFault.NoMemory
            → Rose self.old.refusals self.new.refusals }

        ensures fails { IsErrOf result WriteFault.Failed
            ↔ Contains self.old.fails (next self.old.calls) }
        ensures count { IfOk result (λ n. n ≡ min (length bytes.now) self.old.piece) }
        ensures after { IfOk result (λ n. self.new ≡ sink_took self.old (take n bytes.now)) }
        ensures after_failure { IsErrOf result WriteFault.Failed → self.new ≡ sink_failed self.old }
        ensures after_refusal { IsErrOf result WriteFault.NoMemory
            → self.new ≡ sink_refused self.old }
    {
        self.calls = self.calls.saturating_add(1);
        if self.fails.contains(&self.calls) {
            self.faults = self.faults.saturating_add(1);
            return Err(WriteFault::Failed);
        }
        let n = bytes.len().min(self.piece);
        if self.bytes.extend_from_slice(&bytes[..n]).is_err() {
            self.refusals = self.refusals.saturating_add(1);
            return Err(WriteFault::NoMemory);
        }
        Ok(n)
    }
}
