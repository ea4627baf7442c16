// Why a line is refused.
ghost use Rattle.std.specs.Prelude.{◌≡◌, None, Some};
ghost use Rattle.line_parts.specs.Faults.{fault_of_alphabet, fault_of_element, fault_of_powers, fault_of_table, fault_of_word};

use crate::cause::Cause;
use elements::ElementFault;
use ports::NoMemory;
use std::alloc::{AllocError, AllocFailed};
use std::marker::Model;
use table_texts::TableFault;
use word_powers::PowerFault;
use words::{AlphabetFault, WordFault};

/// Why a line is refused: for its cause, or for want of memory. Contracts see the cause, if there
/// is one.
#[derive(Drop)]
pub struct LineFault {
    cause: Option<Cause>,
}

impl Model for LineFault {
    ghost use Rattle.std.specs.Prelude.{Option};
    ghost use Rattle.line_parts.specs.declared.cause.Cause.{Cause as CauseOf};

    ghost Value = { Option CauseOf };

    ghost view = { λ f. f.cause };
}

impl LineFault {
    /// The fault of a line that has this cause.
    pub fn refused(cause: Cause) -> LineFault
        ensures { result ≡ Some cause }
    {
        LineFault { cause: Some(cause) }
    }

    /// The fault of a line that has this cause; what the lines before it gave is let go.
    pub fn refused_after<T: Drop>(given: T, cause: Cause) -> LineFault
        ensures { result ≡ Some cause }
    {
        drop(given);
        LineFault::refused(cause)
    }

    /// Memory is wanting.
    pub fn no_memory() -> LineFault
        ensures { result ≡ None }
    {
        LineFault { cause: None }
    }

    /// The cause, unless memory is wanting.
    pub fn cause(&self) -> Option<Cause>
        ensures { result ≡ self.now }
    {
        self.cause
    }
}

impl From<Cause> for LineFault {
    ghost from_gives = { λ cause e. e ≡ Some cause };

    fn from(cause: Cause) -> LineFault {
        LineFault::refused(cause)
    }
}

impl From<ElementFault> for LineFault {
    ghost from_gives = { λ fault e. e ≡ fault_of_element fault };

    fn from(fault: ElementFault) -> LineFault {
        match fault {
            ElementFault::BadCount => LineFault::refused(Cause::WrongNumberOfEntries),
            ElementFault::BadEntry(_) => LineFault::refused(Cause::BadEntry),
            ElementFault::NotInjective(_) => LineFault::refused(Cause::NotInjective),
            ElementFault::NoMemory => LineFault::no_memory(),
        }
    }
}

impl From<AlphabetFault> for LineFault {
    ghost from_gives = { λ fault e. e ≡ fault_of_alphabet fault };

    fn from(fault: AlphabetFault) -> LineFault {
        match fault {
            AlphabetFault::Empty => LineFault::refused(Cause::NotALetter),
            AlphabetFault::NotALetter(_) => LineFault::refused(Cause::NotALetter),
            AlphabetFault::Repeated(_) => LineFault::refused(Cause::RepeatedLetter),
            AlphabetFault::NoMemory => LineFault::no_memory(),
        }
    }
}

impl From<WordFault> for LineFault {
    ghost from_gives = { λ fault e. e ≡ fault_of_word fault };

    fn from(fault: WordFault) -> LineFault {
        match fault {
            WordFault::EmptyWord => LineFault::refused(Cause::EmptyWord),
            WordFault::NotInAlphabet(_) => LineFault::refused(Cause::NotInAlphabet),
            WordFault::TooLong => LineFault::refused(Cause::WordTooLong),
            WordFault::NoMemory => LineFault::no_memory(),
        }
    }
}

impl From<PowerFault> for LineFault {
    ghost from_gives = { λ fault e. e ≡ fault_of_powers fault };

    fn from(fault: PowerFault) -> LineFault {
        match fault {
            PowerFault::EmptyWord => LineFault::refused(Cause::EmptyWord),
            PowerFault::NotInAlphabet(_) => LineFault::refused(Cause::NotInAlphabet),
            PowerFault::BadPower(_) => LineFault::refused(Cause::BadPower),
            PowerFault::TooLong => LineFault::refused(Cause::WordTooLong),
            PowerFault::NoMemory => LineFault::no_memory(),
        }
    }
}

impl From<TableFault> for LineFault {
    ghost from_gives = { λ fault e. e ≡ fault_of_table fault };

    fn from(fault: TableFault) -> LineFault {
        match fault {
            TableFault::BadTable(_) => LineFault::refused(Cause::BadTable),
            TableFault::NoMemory => LineFault::no_memory(),
        }
    }
}

impl From<NoMemory> for LineFault {
    ghost from_gives = { λ _ e. e ≡ None };

    fn from(_error: NoMemory) -> LineFault {
        LineFault::no_memory()
    }
}

impl From<AllocError> for LineFault {
    ghost from_gives = { λ _ e. e ≡ None };

    fn from(_error: AllocError) -> LineFault {
        LineFault::no_memory()
    }
}

impl<T: Drop> From<AllocFailed<T>> for LineFault {
    ghost from_gives = { λ _ e. e ≡ None };

    fn from(_error: AllocFailed<T>) -> LineFault {
        LineFault::no_memory()
    }
}
