// Why a run ends without the whole report.
ghost use Rattle.std.specs.Prelude.{◌≡◌};
ghost use Rattle.ports.specs.Writes.{TellsRefusals, WritesBytes};
ghost use Rattle.run_parts.specs.Status.{GainsLineOf};
ghost use Rattle.run_parts.specs.Status.{line_of_fault, of_read, of_script, of_settings, of_write, status_of, text_of};
ghost use Rattle.run_parts.specs.declared.fault.Fault.TheVariants as fault;

use itoa::Buffer;
use ports::{NoMemory, ReadFault, Sink, WriteFault, write_all};
use query_lang::{ScriptFault, cause_text};
use settings::SettingsFault;
use std::alloc::AllocError;

/// Why a run ends without the whole report. Each has a status and a line of its own.
#[derive(Clone, Copy)]
pub enum Fault {
    /// The input has more bytes than a script may have: status 2.
    TooLong,
    /// The first faulty line of the script, counted from 1, and the number of its cause: status 2.
    Script { line: usize, cause: u8 },
    /// The words of the command line are refused: status 3.
    Arguments,
    /// The source failed: status 4.
    Read,
    /// The sink of the report failed: status 5.
    Write,
    /// Memory is wanting: status 6.
    NoMemory,
}

impl From<ReadFault> for Fault {
    ghost from_gives = { λ f e. e ≡ of_read f };

    fn from(fault: ReadFault) -> Fault {
        match fault {
            ReadFault::Failed => Fault::Read,
            ReadFault::TooLong => Fault::TooLong,
            ReadFault::NoMemory => Fault::NoMemory,
        }
    }
}

impl From<WriteFault> for Fault {
    ghost from_gives = { λ f e. e ≡ of_write f };

    fn from(fault: WriteFault) -> Fault {
        match fault {
            WriteFault::Failed => Fault::Write,
            WriteFault::NoMemory => Fault::NoMemory,
        }
    }
}

impl From<ScriptFault> for Fault {
    ghost from_gives = { λ f e. e ≡ of_script f };

    fn from(fault: ScriptFault) -> Fault {
        match fault {
            ScriptFault::Bad { line, cause } => Fault::Script { line, cause },
            ScriptFault::NoMemory => Fault::NoMemory,
        }
    }
}

impl From<SettingsFault> for Fault {
    ghost from_gives = { λ f e. e ≡ of_settings f };

    fn from(fault: SettingsFault) -> Fault {
        match fault {
            SettingsFault::Refused => Fault::Arguments,
            SettingsFault::NoMemory => Fault::NoMemory,
        }
    }
}

impl From<AllocError> for Fault {
    ghost from_gives = { λ _ e. e ≡ fault.NoMemory };

    fn from(_error: AllocError) -> Fault {
        Fault::NoMemory
    }
}

impl From<NoMemory> for Fault {
    ghost from_gives = { λ _ e. e ≡ fault.NoMemory };

    fn from(_fault: NoMemory) -> Fault {
        Fault::NoMemory
    }
}

impl Fault {
    /// The status that the program ends with.
    pub fn status(self) -> u8
        ensures { result ≡ status_of self }
    {
        match self {
            Fault::TooLong => 2,
            Fault::Script { .. } => 2,
            Fault::Arguments => 3,
            Fault::Read => 4,
            Fault::Write => 5,
            Fault::NoMemory => 6,
        }
    }

    // Writes what the fault says. It asks for no memory.
    fn write_text<E: Sink>(self, err: &mut E) -> Result<(), WriteFault>
        ensures bytes { WritesBytes E.Sink (text_of self) err.old err.new result }
        ensures refusals { TellsRefusals E.Sink err.old err.new result }
    {
        match self {
            Fault::TooLong => write_all(err, b"script too long"),
            Fault::Script { line, cause } => write_place(err, line, cause),
            Fault::Arguments => write_all(err, b"arguments refused"),
            Fault::Read => write_all(err, b"cannot read input"),
            Fault::Write => write_all(err, b"cannot write output"),
            Fault::NoMemory => write_all(err, b"out of memory"),
        }
    }

    // Writes the line of the fault, with the program's name and the line feed.
    fn write_line<E: Sink>(self, err: &mut E) -> Result<(), WriteFault>
        ensures bytes { WritesBytes E.Sink (line_of_fault self) err.old err.new result }
        ensures refusals { TellsRefusals E.Sink err.old err.new result }
    {
        write_all(err, b"semi: ")?;
        self.write_text(err)?;
        write_all(err, b"\n")
    }

    /// Writes the line of the fault to `err`, and gives the fault's status. A refused write to
    /// `err` changes no status.
    pub fn tell<E: Sink>(self, err: &mut E) -> u8
        ensures status { result ≡ status_of self }
        ensures told { GainsLineOf E.Sink self err.old err.new }
    {
        let _ = self.write_line(err);
        self.status()
    }
}

// Writes the number of a line and the text of its cause.
fn write_place<E: Sink>(err: &mut E, line: usize, cause: u8) -> Result<(), WriteFault>
    ensures bytes { WritesBytes E.Sink (text_of (fault.Script line cause)) err.old err.new result }
    ensures refusals { TellsRefusals E.Sink err.old err.new result }
{
    let mut buffer = Buffer::new();
    write_all(err, b"line ")?;
    write_all(err, buffer.format(line).as_bytes())?;
    write_all(err, b": ")?;
    write_all(err, cause_text(cause))
}
