// Why a text is no table.
ghost use Rattle.std.specs.Prelude.{◌≡◌};
ghost use Rattle.table_texts.specs.declared.fault.TableFault.TheVariants as table_fault;

use ports::NoMemory;
use std::alloc::{AllocError, AllocFailed};
use thiserror::Error;

/// Why a text is no table.
#[derive(Clone, Copy, Debug, PartialEq, Eq, Error)]
pub enum TableFault {
    /// The least place at which something is wrong. Row i has the places from i times the number of
    /// letters on.
    #[error("bad table at place {0}")]
    BadTable(usize),
    /// Memory ran out.
    #[error("out of memory")]
    NoMemory,
}

impl From<AllocError> for TableFault {
    ghost from_gives = { λ _ e. e ≡ table_fault.NoMemory };

    fn from(_error: AllocError) -> TableFault {
        TableFault::NoMemory
    }
}

impl<T: Drop> From<AllocFailed<T>> for TableFault {
    ghost from_gives = { λ _ e. e ≡ table_fault.NoMemory };

    fn from(_error: AllocFailed<T>) -> TableFault {
        TableFault::NoMemory
    }
}

impl From<NoMemory> for TableFault {
    ghost from_gives = { λ _ e. e ≡ table_fault.NoMemory };

    fn from(_error: NoMemory) -> TableFault {
        TableFault::NoMemory
    }
}
