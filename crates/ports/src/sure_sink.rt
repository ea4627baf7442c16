ghost use Rattle.std.specs.Prelude.{◌≡◌, ◌<◌, ◌≤◌, [], length, Some, IfOk, IsErrOf, IsOkUnless, OnOk, OnErr};
ghost use Rattle.ports.specs.Bytes.{Rose, Takes, TakesAll};
ghost use Rattle.ports.specs.InMemory.{sure_sink_start, sure_sink_took, sure_sink_refused};

use super::fault::WriteFault;
use super::sink::Sink;
use std::alloc::Global;
use std::marker::Model;

/// A sink in memory, which keeps what it takes, and takes each piece whole. No call fails unless it
/// is refused memory.
#[derive(Drop)]
pub struct SureSink {
    bytes: Vec<u8>,
    refusals: u64,
}

impl Model for SureSink {
    ghost use Rattle.ports.specs.InMemory.{SureSinkState};

    ghost Value = { SureSinkState };

    ghost view = { λ s. record { taken = s.bytes.items; refusals = s.refusals } };
}

impl SureSink {
    /// A sink that has taken nothing.
    pub fn new(alloc: Global) -> SureSink
        ensures { result ≡ sure_sink_start }
    {
        SureSink {
            bytes: Vec::new(alloc),
            refusals: 0,
        }
    }

    /// The bytes that were taken.
    pub fn taken(&self) -> &[u8]
        ensures { result.now ≡ self.now.taken }
    {
        &self.bytes
    }
}

impl Sink for SureSink {
    ghost taken = { λ s. Some s.taken };

    ghost faults = { λ _. 0 };

    ghost refusals = { λ s. s.refusals };

    /// Takes the whole piece. A call that is refused memory changes nothing but the count of
    /// refusals.
    fn write(&mut self, bytes: &[u8]) -> Result<usize, WriteFault>
        ensures within { IfOk result (λ n. n ≤ length bytes.now) }
        ensures progress { IfOk result (λ n. 0 < length bytes.now → 0 < n) }
        ensures bytes { Takes (Some self.old.taken) (Some self.new.taken) result bytes.now }
        ensures nothing { IsErrOf result WriteFault.NoMemory
            → TakesAll (Some self.old.taken) (Some self.new.taken) [] }
        ensures refusals_kept { self.old.refusals ≤ self.new.refusals }
        ensures quiet { OnOk result (self.new.refusals ≡ self.old.refusals) }
        ensures refused { IsErrOf result WriteFault.NoMemory
            → Rose self.old.refusals self.new.refusals }

        ensures sure { IsOkUnless result WriteFault.NoMemory }
        ensures count { IfOk result (λ n. n ≡ length bytes.now) }
        ensures after { OnOk result (self.new ≡ sure_sink_took self.old bytes.now) }
        ensures after_refusal { OnErr result (self.new ≡ sure_sink_refused self.old) }
    {
        if self.bytes.extend_from_slice(bytes).is_err() {
            self.refusals = self.refusals.saturating_add(1);
            return Err(WriteFault::NoMemory);
        }
        Ok(bytes.len())
    }
}
