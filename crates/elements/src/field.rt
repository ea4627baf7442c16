// The entries of an element as they are written, and what is wrong with them.
ghost use Rattle.std.specs.Prelude.{◌≡◌};
ghost use Rattle.elements.specs.declared.field.ElementFault.TheVariants as fault;

use std::alloc::{AllocError, AllocFailed};
use thiserror::Error;

/// One entry as it is written: a number, a dash (which stands for an undefined image or minus
/// infinity), or neither.
#[derive(Clone, Copy, Debug, PartialEq, Eq)]
pub enum Field {
    /// A number.
    Number(u32),
    /// The sign `-`.
    Dash,
    /// Anything else.
    Bad,
}

/// Why entries make no element. Places count from 0, from the left.
#[derive(Clone, Copy, Debug, PartialEq, Eq, Error)]
pub enum ElementFault {
    /// Not as many entries as the shape asks for.
    #[error("wrong number of entries")]
    BadCount,
    /// The first entry that is out of form or out of range.
    #[error("bad entry at place {0}")]
    BadEntry(usize),
    /// The first image that an earlier place has.
    #[error("not injective at place {0}")]
    NotInjective(usize),
    /// Memory is wanting.
    #[error("out of memory")]
    NoMemory,
}

impl From<AllocError> for ElementFault {
    ghost from_gives = { λ _ e. e ≡ fault.NoMemory };

    fn from(_error: AllocError) -> ElementFault {
        ElementFault::NoMemory
    }
}

impl<T: Drop> From<AllocFailed<T>> for ElementFault {
    ghost from_gives = { λ _ e. e ≡ fault.NoMemory };

    fn from(_error: AllocFailed<T>) -> ElementFault {
        ElementFault::NoMemory
    }
}
