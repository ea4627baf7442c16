// Why a text is no word with powers.
ghost use Rattle.std.specs.Prelude.{◌≡◌};
ghost use Rattle.word_powers.specs.declared.fault.PowerFault.TheVariants as power_fault;

use ports::NoMemory;
use thiserror::Error;

/// Why bytes are no word with powers over an alphabet. Places count from 0.
#[derive(Clone, Copy, Debug, PartialEq, Eq, Error)]
pub enum PowerFault {
    /// The word is empty, and may not be.
    #[error("the word is empty")]
    EmptyWord,
    /// The byte at this place is no letter of the alphabet, and stands in no word.
    #[error("byte {0} of the word is not in the alphabet")]
    NotInAlphabet(usize),
    /// No word goes on with the byte at this place, or the word ends too early there.
    #[error("byte {0} of the word is not well placed")]
    BadPower(usize),
    /// The text stands for more than 4,096 letters.
    #[error("the word is too long")]
    TooLong,
    /// Memory ran out.
    #[error("out of memory")]
    NoMemory,
}

impl From<NoMemory> for PowerFault {
    ghost from_gives = { λ _ e. e ≡ power_fault.NoMemory };

    fn from(_error: NoMemory) -> PowerFault {
        PowerFault::NoMemory
    }
}
