// The whole program, over words, a source and two sinks.
ghost use Rattle.std.specs.Prelude.{◌≡◌, ◌≤◌, ◌⊎◌, false, true, IfSome, map, string_bytes};
ghost use Rattle.ports.specs.Bytes.{Rose};
ghost use Rattle.semi.specs.Ends.{EndsBy, EndsUnder};
ghost use Rattle.run_parts.specs.Input.{IsRefusal, IsRefused, IsScript};
ghost use Rattle.run_parts.specs.Status.{GainsLineOf};
ghost use Rattle.semi.specs.Report.{GainsBeginning, GainsReport};
ghost use Rattle.query_lang.specs.Asked.{ScriptOf};
ghost use Rattle.semi.specs.Settings.{OnInput};
ghost use Rattle.semi.specs.Settings.{AskToMake, UnlessMade};
ghost use Rattle.run_parts.specs.Taken.{IsTakenAt, IsTakenWhole};
ghost use Rattle.settings.specs.Settings.{AreAccepted, AreRefused};
ghost use Rattle.run_parts.specs.Status.{status_of};
ghost use Rattle.run_parts.specs.declared.fault.Fault.{Fault};

use crate::whole::write_report;
use ports::{Gate, Sink, Source};
use run_parts::{Fault, choose_script};
use settings::{Settings, settings_of};
use std::alloc::Global;
use std::thread::Threads;

// Makes or reads the script that the settings ask for and writes its report, and tells whether an
// answer is undecided.
fn run_under<R: Threads + Sync, S: Source, O: Sink, G: Gate + Sync>(
    rt: &R,
    alloc: Global,
    settings: Settings,
    source: &mut S,
    out: &mut O,
    gate: &G,
) -> Result<bool, Fault>
    requires workers { 1 ≤ settings.workers }
    requires make { IfSome settings.make (λ k. (1 ≤ k) × (k ≤ 200)) }
    ensures { EndsUnder S.Source O.Sink source.old source.new out.old out.new settings result }
{
    let script = choose_script(alloc, settings, source)?;
    let written = write_report(rt, alloc, settings, &script, out, gate);
    script.let_go();
    Ok(written?)
}

// The same under the settings of the words.
fn run<R: Threads + Sync, S: Source, O: Sink, G: Gate + Sync>(
    rt: &R,
    alloc: Global,
    words: &Vec<String>,
    source: &mut S,
    out: &mut O,
    gate: &G,
) -> Result<bool, Fault>
    ensures { EndsBy S.Source O.Sink source.old source.new out.old out.new
        (map string_bytes words.now.items) result }
{
    let settings = settings_of(alloc, words)?;
    run_under(rt, alloc, settings, source, out, gate)
}

/// The program: reads the source as a script, of a presentation or of elements, or makes one where
/// the words ask for it, and writes the script's report to `out`; gives the status.
///
/// - 0: the whole report was written, and no answer is undecided. 1: the same, with one at least.
/// - 2: the input, read in full, is longer than 1,048,576 bytes, or a line of it is faulty.
/// - 3: the words are not those of the command; nothing is read.
/// - 4: the source failed. 5: `out` failed. 6: memory is wanting.
///
/// Where a script is made, the source is left as it is, and only 0, 1, 5 and 6 come.
///
/// `err` gets one line at the statuses from 2 on; at 2 it tells the first faulty line and its
/// cause. `words` begins with the program's name. Where a problem is raced for by several workers,
/// each turn is behind the gate.
pub fn semi<R: Threads + Sync, S: Source, O: Sink, E: Sink, G: Gate + Sync>(
    rt: &R,
    alloc: Global,
    words: &Vec<String>,
    source: &mut S,
    out: &mut O,
    err: &mut E,
    gate: &G,
) -> u8
    // the whole report, at 1 with an undecided answer
    ensures decided { result ≡ 0 → OnInput (map string_bytes words.now.items) (S.left source.old)
        (λ settings input. GainsReport settings input false (O.taken out.old) (O.taken out.new)) }
    ensures undecided { result ≡ 1 → OnInput (map string_bytes words.now.items) (S.left source.old)
        (λ settings input. GainsReport settings input true (O.taken out.old) (O.taken out.new)) }

    // each other status has its cause
    ensures refused { result ≡ 2 → OnInput (map string_bytes words.now.items) (S.left source.old)
        (λ _. IsRefused) }
    ensures arguments { result ≡ 3 → AreRefused (map string_bytes words.now.items) }
    ensures read { result ≡ 4 → Rose (S.faults source.old) (S.faults source.new) }
    ensures write { result ≡ 5 → Rose (O.faults out.old) (O.faults out.new) }
    ensures range { result ≤ 6 }

    // no call failed at 0 to 3
    ensures quiet { result ≤ 3 → (S.faults source.new ≡ S.faults source.old)
        × (O.faults out.new ≡ O.faults out.old) }

    // what the source and the sinks are left with
    ensures source_untouched { result ≡ 3 → source.new ≡ source.old }
    ensures source_taken { result ≤ 1 → UnlessMade (map string_bytes words.now.items)
        (IsTakenWhole (S.left source.old) (S.left source.new)) }
    ensures out_untouched { 2 ≤ result → result ≤ 4 → out.new ≡ out.old }
    ensures beginning { result ≡ 5 → OnInput (map string_bytes words.now.items) (S.left source.old)
        (λ settings input. GainsBeginning settings input (O.taken out.old) (O.taken out.new)) }
    ensures memory { result ≡ 6
        → (out.new ≡ out.old) ⊎ OnInput (map string_bytes words.now.items) (S.left source.old)
        (λ settings input. GainsBeginning settings input (O.taken out.old) (O.taken out.new)) }
    ensures told { 2 ≤ result → (fault : Fault) × (result ≡ status_of fault)
        × (result ≡ 2 → OnInput (map string_bytes words.now.items) (S.left source.old)
        (λ _ input. IsRefusal input fault))
        × UnlessMade (map string_bytes words.now.items)
        (IsTakenAt fault (S.left source.old) (S.left source.new))
        × GainsLineOf E.Sink fault err.old err.new }
    ensures err_untouched { result ≤ 1 → err.new ≡ err.old }

    // where a script is made, the source is left as it is, and is at no fault, nor is the script
    ensures made { AskToMake (map string_bytes words.now.items) → source.new ≡ source.old }
    ensures made_status { AskToMake (map string_bytes words.now.items)
        → (result ≤ 1) ⊎ (5 ≤ result) }

    // words that are refused give 3, or memory is wanting
    ensures rejects { AreRefused (map string_bytes words.now.items) → (result ≡ 3) ⊎ (result ≡ 6) }

    // where nothing fails, memory is wanting, or a refused input gives 2, and a script its whole
    // report
    ensures refuses { AreAccepted (map string_bytes words.now.items)
        → (Rose (S.faults source.old) (S.faults source.new) → ⊥)
        → (result ≡ 6) ⊎ OnInput (map string_bytes words.now.items) (S.left source.old)
        (λ _ input. IsRefused input → result ≡ 2) }
    ensures answers { AreAccepted (map string_bytes words.now.items)
        → (Rose (S.faults source.old) (S.faults source.new) → ⊥)
        → (Rose (O.faults out.old) (O.faults out.new) → ⊥)
        → (result ≡ 6) ⊎ OnInput (map string_bytes words.now.items) (S.left source.old)
        (λ _ input. (script : ScriptOf) → IsScript input script → result ≤ 1) }
{
    match run(rt, alloc, words, source, out, gate) {
        Ok(undecided) => u8::from(undecided),
        Err(fault) => fault.tell(err),
    }
}
