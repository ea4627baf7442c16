// Why a script is refused.
ghost use Rattle.std.specs.Prelude.{◌≡◌};
ghost use Rattle.query_lang.specs.Faults.{fault_at_line};

use line_parts::LineFault;

/// Why bytes make no script.
#[derive(Clone, Copy)]
pub enum ScriptFault {
    /// The first line, counted from 1, that is out of form or out of place, and the number of its
    /// cause.
    Bad { line: usize, cause: u8 },
    /// Memory is wanting.
    NoMemory,
}

impl ScriptFault {
    /// The fault at the line of this number.
    pub(crate) fn at_line(fault: LineFault, line: usize) -> ScriptFault
        ensures { result ≡ fault_at_line line fault }
    {
        match fault.cause() {
            Some(cause) => ScriptFault::Bad {
                line,
                cause: cause.number(),
            },
            None => ScriptFault::NoMemory,
        }
    }
}
