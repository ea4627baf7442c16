// Laws of inputs.
ghost use Rattle.std.specs.Prelude.{◌≡◌, ℕ, ◌≤◌, List};
ghost use Rattle.query_lang.specs.Asked.{ScriptOf};
ghost use Rattle.run_parts.specs.Input.{IsRefusal, IsScript};
ghost use Rattle.run_parts.specs.Made.{made_script};
ghost use Rattle.run_parts.specs.declared.fault.Fault.{Fault};

/// The made script reads as a script, whichever group it is of.
pub fn made_script_reads()
    ensures { (k : ℕ) → 1 ≤ k → k ≤ 200 → (script : ScriptOf) × IsScript (made_script k) script }
{}

/// An input is refused for one fault: it is too long, or else it has one first faulty line, with
/// one cause.
pub fn refusal_is_one()
    ensures { (input : List ℕ) (one other : Fault)
        → IsRefusal input one → IsRefusal input other → one ≡ other }
{}
