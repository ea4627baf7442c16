// The script that is made in place of one that is read.
ghost use Rattle.std.specs.Prelude.{◌≡◌, ◌≤◌, ◌⊎◌, IfErr, IfOk, IfSome, IsErrOf, IsSome, MatchResult, OnOk};
ghost use Rattle.ports.specs.Bytes.{Rose};
ghost use Rattle.run_parts.specs.Made.{input_of, made_script};
ghost use Rattle.run_parts.specs.Input.{IsRefusal, IsScript};
ghost use Rattle.run_parts.specs.Status.{status_of};
ghost use Rattle.run_parts.specs.Taken.{IsTakenAt, IsTakenWhole};
ghost use Rattle.run_parts.specs.declared.fault.Fault.{Fault};

use crate::fault::Fault;
use crate::reading::take_script;
use ports::{NoMemory, Source};
use query_lang::{Script, read_script};
use settings::Settings;
use std::alloc::Global;

/// The script of the dihedral group with `2 * k` elements, with four queries.
pub fn made_script(alloc: Global, k: usize) -> Result<Vec<u8>, NoMemory>
    requires least { 1 ≤ k }
    requires most { k ≤ 200 }
    ensures { IfOk result (λ script. script.items ≡ made_script k) }
{
    let mut script = Vec::from_slice(alloc, b"monoid ab\nrel aa 1\nrel ")?;
    script.resize(script.len() + k, b'b')?;
    script.extend_from_slice(b" 1\nrel abab 1\nindex\nequal ab ba\nnormal aba\nclasses 3\n")?;
    Ok(script)
}

// Makes the script and reads it.
fn read_made(alloc: Global, k: usize) -> Result<Script, Fault>
    requires least { 1 ≤ k }
    requires most { k ≤ 200 }
    ensures script { IfOk result (λ script. IsScript (made_script k) script) }
    ensures fault { IfErr result (λ fault. fault ≡ Fault.NoMemory) }
{
    let bytes = made_script(alloc, k)?;
    let script = read_script(alloc, bytes.as_slice())?;
    Ok(script)
}

/// The script that the settings ask to make, or else the source, read whole. To make one leaves
/// the source as it is, and fails only with `NoMemory`.
pub fn choose_script<S: Source>(
    alloc: Global,
    settings: Settings,
    source: &mut S,
) -> Result<Script, Fault>
    requires { IfSome settings.make (λ k. (1 ≤ k) × (k ≤ 200)) }
    ensures script { IfOk result (λ script. IfSome (input_of settings (S.left source.old))
        (λ input. IsScript input script)) }
    ensures refused { IfErr result (λ fault. status_of fault ≡ 2
        → IfSome (input_of settings (S.left source.old)) (λ input. IsRefusal input fault)) }
    ensures made { IsSome settings.make → source.new ≡ source.old }
    ensures made_fault { IsSome settings.make → IfErr result (λ fault. fault ≡ Fault.NoMemory) }
    ensures taken { IsSome settings.make ⊎ MatchResult result
        (λ script. IsTakenWhole (S.left source.old) (S.left source.new))
        (λ fault. IsTakenAt fault (S.left source.old) (S.left source.new)) }
    ensures read { IsErrOf result Fault.Read → Rose (S.faults source.old) (S.faults source.new) }
    ensures only { (IsErrOf result Fault.Arguments → ⊥) × (IsErrOf result Fault.Write → ⊥) }
    ensures kept { S.faults source.old ≤ S.faults source.new }
    ensures quiet { OnOk result (S.faults source.new ≡ S.faults source.old) }
    ensures quiet_refused { IfErr result
        (λ fault. status_of fault ≡ 2 → S.faults source.new ≡ S.faults source.old) }
{
    match settings.make {
        Some(k) => read_made(alloc, k),
        None => take_script(alloc, source),
    }
}
