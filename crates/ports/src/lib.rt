//! Where bytes come from and go to.
//!
//! A [`Source`] gives bytes and a [`Sink`] takes them, each in pieces of any size, and each call
//! may fail. A source counts its failed calls, and a sink counts these and the calls that were
//! refused memory, so that a caller's contract can say that a failure is told only where one
//! happened. A count never falls, and may stay at the last value of a `u64` once it is there.
//!
//! [`read_all`] reads a source to its end, and [`write_all`] passes a whole piece to a sink.
//! [`MemSource`], [`MemSink`], [`SureSource`] and [`SureSink`] hold their bytes in memory.
//!
//! A [`Gate`] stands before each turn of a lane in a race over threads; at [`Open`] no turn waits.
#![tactic(auto)]

mod fault;
mod gate;
mod memory_sink;
mod memory_source;
mod read;
mod sink;
mod source;
mod sure_sink;
mod sure_source;
mod write;

pub use fault::{Failed, NoMemory, ReadFault, WriteFault};
pub use gate::{Gate, Open};
pub use memory_sink::MemSink;
pub use memory_source::MemSource;
pub use read::read_all;
pub use sink::Sink;
pub use source::Source;
pub use sure_sink::SureSink;
pub use sure_source::SureSource;
pub use write::write_all;
