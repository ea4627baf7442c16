// Why a search ends early.
use ports::NoMemory;

/// Why a search ends before it has its answer.
#[derive(Clone, Copy)]
pub enum Halt {
    /// It has taken all the steps that it may take.
    Steps,
    /// Memory ran out.
    NoMemory,
}

impl From<NoMemory> for Halt {
    fn from(_e: NoMemory) -> Halt {
        Halt::NoMemory
    }
}

// A search that may take any number of steps ends early for memory alone.
impl From<Halt> for NoMemory {
    fn from(_e: Halt) -> NoMemory {
        NoMemory
    }
}
