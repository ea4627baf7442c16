// Why bytes make no alphabet, or no word.
ghost use Rattle.std.specs.Prelude.{◌≡◌};
ghost use Rattle.words.specs.declared.fault.AlphabetFault.TheVariants as alphabet_fault;
ghost use Rattle.words.specs.declared.fault.WordFault.TheVariants as word_fault;

use ports::NoMemory;
use std::alloc::AllocError;
use thiserror::Error;

/// Why bytes make no alphabet. Places count from 0.
#[derive(Clone, Copy, Debug, PartialEq, Eq, Error)]
pub enum AlphabetFault {
    /// There is no byte.
    #[error("the alphabet is empty")]
    Empty,
    /// The byte at this place is no letter.
    #[error("byte {0} of the alphabet is no letter")]
    NotALetter(usize),
    /// The letter at this place stands at an earlier place too.
    #[error("byte {0} of the alphabet is a letter that it has already")]
    Repeated(usize),
    /// Memory ran out.
    #[error("out of memory")]
    NoMemory,
}

/// Why bytes are no word over an alphabet. Places count from 0.
#[derive(Clone, Copy, Debug, PartialEq, Eq, Error)]
pub enum WordFault {
    /// The word is empty, and may not be.
    #[error("the word is empty")]
    EmptyWord,
    /// The byte at this place is no letter of the alphabet.
    #[error("byte {0} of the word is not in the alphabet")]
    NotInAlphabet(usize),
    /// The text has more than 4,096 bytes.
    #[error("the word is too long")]
    TooLong,
    /// Memory ran out.
    #[error("out of memory")]
    NoMemory,
}

impl From<AllocError> for AlphabetFault {
    ghost from_gives = { λ _ e. e ≡ alphabet_fault.NoMemory };

    fn from(_error: AllocError) -> AlphabetFault {
        AlphabetFault::NoMemory
    }
}

impl From<NoMemory> for WordFault {
    ghost from_gives = { λ _ e. e ≡ word_fault.NoMemory };

    fn from(_error: NoMemory) -> WordFault {
        WordFault::NoMemory
    }
}
