// Why a relation is not added.
ghost use Rattle.std.specs.Prelude.{◌≡◌};
ghost use Rattle.presentation.specs.declared.fault.AddFault.TheVariants as add_fault;

use ports::NoMemory;
use thiserror::Error;

/// Why a relation is not added to a presentation.
#[derive(Clone, Copy, Debug, PartialEq, Eq, Error)]
pub enum AddFault {
    /// A side is the empty word, which is no element of a semigroup.
    #[error("a side of the relation is empty")]
    EmptyWord,
    /// The presentation has as many relations as it may.
    #[error("there are too many relations")]
    TooMany,
    /// Memory ran out.
    #[error("out of memory")]
    NoMemory,
}

impl From<NoMemory> for AddFault {
    ghost from_gives = { λ _ e. e ≡ add_fault.NoMemory };

    fn from(_error: NoMemory) -> AddFault {
        AddFault::NoMemory
    }
}
