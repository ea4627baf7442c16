// The script that a source holds.
ghost use Rattle.std.specs.Prelude.{◌≡◌, ◌≤◌, IfErr, IfOk, IfSome, IsErrOf, MatchResult, OnOk};
ghost use Rattle.ports.specs.Bytes.{Rose};
ghost use Rattle.run_parts.specs.Input.{IsRefusal, IsScript};
ghost use Rattle.run_parts.specs.Taken.{IsTakenAt, IsTakenWhole};
ghost use Rattle.run_parts.specs.Status.{status_of};
ghost use Rattle.run_parts.specs.declared.fault.Fault.{Fault};

use crate::fault::Fault;
use ports::{Source, read_all};
use query_lang::{Script, read_script};
use std::alloc::Global;

/// The greatest length of a script, in bytes.
const MOST_BYTES: usize = 1_048_576;

/// Reads the whole source as a script. Refused with `Read` where the source failed, with `TooLong`
/// where more bytes came than a script may have, and with `Script` at the first faulty line.
pub fn take_script<S: Source>(alloc: Global, source: &mut S) -> Result<Script, Fault>
    ensures script { IfOk result (λ script. IfSome (S.left source.old)
        (λ input. IsScript input script)) }
    ensures refused { IfErr result (λ fault. status_of fault ≡ 2
        → IfSome (S.left source.old) (λ input. IsRefusal input fault)) }
    ensures taken { MatchResult result
        (λ script. IsTakenWhole (S.left source.old) (S.left source.new))
        (λ fault. IsTakenAt fault (S.left source.old) (S.left source.new)) }
    ensures read { IsErrOf result Fault.Read → Rose (S.faults source.old) (S.faults source.new) }
    ensures only { (IsErrOf result Fault.Arguments → ⊥) × (IsErrOf result Fault.Write → ⊥) }
    ensures kept { S.faults source.old ≤ S.faults source.new }
    ensures quiet { OnOk result (S.faults source.new ≡ S.faults source.old) }
    ensures quiet_refused { IfErr result
        (λ fault. status_of fault ≡ 2 → S.faults source.new ≡ S.faults source.old) }
{
    let bytes = read_all(alloc, source, MOST_BYTES)?;
    let script = read_script(alloc, bytes.as_slice())?;
    Ok(script)
}
