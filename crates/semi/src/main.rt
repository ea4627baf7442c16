//! Reads a script, which presents a monoid or a semigroup by relations or generates one by
//! transformations, partial permutations, Boolean matrices or truncated max-plus matrices, and
//! writes the answers of its queries. Where it is asked to, it makes the script of a dihedral group
//! in place of reading one.
#![tactic(auto)]

ghost use Rattle.std.specs.Prelude.{◌≡◌, ◌≤◌, ◌⊎◌, [], false, true, map, string_bytes};
ghost use Rattle.std.specs.Io.Buffered.{writer_buffer};
ghost use Rattle.ports.specs.Bytes.{Rose};
ghost use Rattle.query_lang.specs.Asked.{ScriptOf};
ghost use Rattle.settings.specs.Settings.{AreAccepted, AreRefused};
ghost use Rattle.semi.specs.Settings.{OnInput};
ghost use Rattle.run_parts.specs.Input.{IsRefused, IsScript};
ghost use Rattle.run_parts.specs.Status.{GainsLineOf};
ghost use Rattle.semi.specs.Report.{HasReport};
ghost use Rattle.run_parts.specs.Status.{status_of};

mod adapters;
#[cfg(test)]
mod failing_tests;
#[cfg(test)]
mod gate_tests;
#[cfg(test)]
mod tests;
mod top;
mod whole;

use adapters::{InputSource, OutputSink};
use ports::{Open, Sink, Source};
use run_parts::Fault;
use std::alloc::Global;
use std::env;
use std::io::{BufWriter, ErrorKind, Write};
use std::process::ExitCode;
use std::rt::Env;
use std::thread::Threads;
use top::semi;

// The words of the command line. They are refused where one of them is no text.
fn arguments(rt: &(impl Env + AllocGlobal)) -> Result<Vec<String>, Fault> {
    match env::args(rt) {
        Ok(words) => Ok(words.collect(rt.alloc())?),
        Err(error) if error.kind() == ErrorKind::OutOfMemory => Err(Fault::NoMemory),
        Err(_) => Err(Fault::Arguments),
    }
}

// A sink that keeps back what it takes and writes it in blocks, so that many lines cost few writes.
fn buffered<W: Write + Drop>(alloc: Global, writer: W) -> Result<OutputSink<BufWriter<W>>, Fault> {
    match BufWriter::new(alloc, writer) {
        Ok(writer) => Ok(OutputSink::new(writer)),
        Err(_) => Err(Fault::NoMemory),
    }
}

// The status once the sink has passed on what it kept back. Where that fails, the report is not
// whole; a status that tells of a fault stays.
fn pass_on<W: Write + Drop, E: Sink>(
    status: u8,
    out: &mut OutputSink<BufWriter<W>>,
    err: &mut E,
) -> u8
    ensures status { ((result ≡ status) × (err.new ≡ err.old))
        ⊎ ((status ≤ 1) × (result ≡ status_of Fault.Write) × Rose out.old.faults out.new.faults
        × GainsLineOf E.Sink Fault.Write err.old err.new) }
    ensures passed { result ≤ 1 → writer_buffer out.new.writer ≡ [] }
    ensures quiet { result ≤ 1 → out.new.faults ≡ out.old.faults }
    ensures counted { out.old.faults ≤ out.new.faults }
{
    if status > 1 {
        let _ = out.flush();
        return status;
    }
    match out.flush() {
        Ok(()) => status,
        Err(fault) => Fault::from(fault).tell(err),
    }
}

// The program over a sink that keeps back what it takes: as `semi`, but that a whole report which
// does not leave the sink is a fault of the sink.
fn run<R: Threads + Sync, S: Source, W: Write + Drop, E: Sink>(
    rt: &R,
    alloc: Global,
    words: &Vec<String>,
    source: &mut S,
    out: &mut OutputSink<BufWriter<W>>,
    err: &mut E,
) -> u8
    // the whole report has left the sink, at 1 with an undecided answer
    ensures decided { result ≡ 0 → OnInput (map string_bytes words.now.items) (S.left source.old)
        (λ settings input. HasReport settings input false) }
    ensures undecided { result ≡ 1 → OnInput (map string_bytes words.now.items) (S.left source.old)
        (λ settings input. HasReport settings input true) }
    ensures passed { result ≤ 1 → writer_buffer out.new.writer ≡ [] }
    ensures quiet { result ≤ 1 → (S.faults source.new ≡ S.faults source.old)
        × (out.new.faults ≡ out.old.faults) }

    // each other status has its cause, and is told
    ensures refused { result ≡ 2 → OnInput (map string_bytes words.now.items) (S.left source.old)
        (λ _. IsRefused) }
    ensures arguments { result ≡ 3 → AreRefused (map string_bytes words.now.items) }
    ensures read { result ≡ 4 → Rose (S.faults source.old) (S.faults source.new) }
    ensures write { result ≡ 5 → Rose out.old.faults out.new.faults }
    ensures range { result ≤ 6 }
    ensures told { 2 ≤ result → (fault : Fault) × (result ≡ status_of fault)
        × GainsLineOf E.Sink fault err.old err.new }
    ensures err_untouched { result ≤ 1 → err.new ≡ err.old }

    // words that are refused give 3, a refused input 2, and a script its whole report, where
    // nothing fails and memory is not wanting
    ensures rejects { AreRefused (map string_bytes words.now.items) → (result ≡ 3) ⊎ (result ≡ 6) }
    ensures refuses { AreAccepted (map string_bytes words.now.items)
        → (Rose (S.faults source.old) (S.faults source.new) → ⊥)
        → (result ≡ 6) ⊎ OnInput (map string_bytes words.now.items) (S.left source.old)
        (λ _ input. IsRefused input → result ≡ 2) }
    ensures answers { AreAccepted (map string_bytes words.now.items)
        → (Rose (S.faults source.old) (S.faults source.new) → ⊥)
        → (Rose out.old.faults out.new.faults → ⊥)
        → (result ≡ 6) ⊎ OnInput (map string_bytes words.now.items) (S.left source.old)
        (λ _ input. (script : ScriptOf) → IsScript input script → result ≤ 1) }
{
    let status = semi(rt, alloc, words, source, out, err, &Open);
    pass_on(status, out, err)
}

// The run by the words of the command line, where what the sink takes is kept back.
fn run_words<R: Env + AllocGlobal + Threads + Sync, S: Source, W: Write + Drop, E: Sink>(
    rt: &R,
    source: &mut S,
    writer: W,
    err: &mut E,
) -> Result<u8, Fault> {
    let words = arguments(rt)?;
    let mut out = buffered(rt.alloc(), writer)?;
    Ok(run(rt, rt.alloc(), &words, source, &mut out, err))
}

fn main(rt: HostRuntime) -> ExitCode {
    let mut source = InputSource::new(rt.stdin());
    let mut err = OutputSink::new(rt.stderr());
    let status = match run_words(&rt, &mut source, rt.stdout(), &mut err) {
        Ok(status) => status,
        Err(fault) => fault.tell(&mut err),
    };
    ExitCode::from(status)
}
