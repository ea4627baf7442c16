ghost use Rattle.std.specs.Prelude.{◌≡◌};
ghost use Rattle.ports.specs.declared.fault.ReadFault.TheVariants as read_fault;
ghost use Rattle.ports.specs.declared.fault.WriteFault.TheVariants as write_fault;

use std::alloc::{AllocError, AllocFailed};
use thiserror::Error;

/// A call on the outside failed.
#[derive(Clone, Copy, Debug, PartialEq, Eq, Error)]
#[error("a call on the outside failed")]
pub struct Failed;

/// Memory ran out.
#[derive(Clone, Copy, Debug, PartialEq, Eq, Error)]
#[error("out of memory")]
pub struct NoMemory;

/// Why bytes were not written.
#[derive(Clone, Copy, Debug, PartialEq, Eq, Error)]
pub enum WriteFault {
    /// A call on the sink failed.
    #[error("cannot write")]
    Failed,
    /// Memory ran out.
    #[error("out of memory")]
    NoMemory,
}

/// Why bytes were not read.
#[derive(Clone, Copy, Debug, PartialEq, Eq, Error)]
pub enum ReadFault {
    /// A call on the source failed.
    #[error("cannot read")]
    Failed,
    /// More bytes came than were allowed.
    #[error("too long")]
    TooLong,
    /// Memory ran out.
    #[error("out of memory")]
    NoMemory,
}

impl From<AllocError> for NoMemory {
    fn from(_e: AllocError) -> NoMemory {
        NoMemory
    }
}

impl<T: Drop> From<AllocFailed<T>> for NoMemory {
    fn from(_e: AllocFailed<T>) -> NoMemory {
        NoMemory
    }
}

impl From<NoMemory> for WriteFault {
    ghost from_gives = { λ _ e. e ≡ write_fault.NoMemory };

    fn from(_e: NoMemory) -> WriteFault {
        WriteFault::NoMemory
    }
}

impl From<AllocError> for ReadFault {
    ghost from_gives = { λ _ e. e ≡ read_fault.NoMemory };

    fn from(_e: AllocError) -> ReadFault {
        ReadFault::NoMemory
    }
}

impl<T: Drop> From<AllocFailed<T>> for ReadFault {
    ghost from_gives = { λ _ e. e ≡ read_fault.NoMemory };

    fn from(_e: AllocFailed<T>) -> ReadFault {
        ReadFault::NoMemory
    }
}

impl From<NoMemory> for ReadFault {
    ghost from_gives = { λ _ e. e ≡ read_fault.NoMemory };

    fn from(_e: NoMemory) -> ReadFault {
        ReadFault::NoMemory
    }
}

impl From<Failed> for ReadFault {
    ghost from_gives = { λ _ e. e ≡ read_fault.Failed };

    fn from(_e: Failed) -> ReadFault {
        ReadFault::Failed
    }
}
