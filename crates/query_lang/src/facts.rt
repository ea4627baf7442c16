// Laws of scripts.
ghost use Rattle.std.specs.Prelude.{◌≡◌, ℕ, ◌⊎◌, List, None};
ghost use Rattle.line_parts.specs.declared.cause.Cause.{Cause};
ghost use Rattle.line_parts.specs.Token.{Line};
ghost use Rattle.query_lang.specs.Asked.{ScriptOf};
ghost use Rattle.query_lang.specs.Grammar.{Said, Step, lines_of};
ghost use Rattle.query_lang.specs.LineCauses.{AreScript, IsFirstFault, cause_of_line};

pub use line_parts::facts::{
    numbers_are_decimals, powers_are_read, tables_are_read, tokens_are_longest_runs,
};

/// After whatever lines, a line is read exactly where it has no cause of refusal, and then to one
/// partial script.
pub fn line_is_read_or_refused()
    ensures read { (before : Said) (line : Line) → cause_of_line before line ≡ None
        → (after : Said) × Step before line after }
    ensures not_both { (before after : Said) (line : Line) → Step before line after
        → cause_of_line before line ≡ None }
    ensures one { (before one other : Said) (line : Line)
        → Step before line one → Step before line other → one ≡ other }
{}

/// Bytes are one script, or have one first fault, and not both.
pub fn bytes_are_a_script_or_have_a_fault()
    ensures either { (bytes : List ℕ) → ((script : ScriptOf) × AreScript (lines_of bytes) script)
        ⊎ ((n : ℕ) × (cause : Cause) × IsFirstFault (lines_of bytes) n cause) }
    ensures not_both { (bytes : List ℕ) (script : ScriptOf) (n : ℕ) (cause : Cause)
        → AreScript (lines_of bytes) script → IsFirstFault (lines_of bytes) n cause → ⊥ }
    ensures one_script { (bytes : List ℕ) (one other : ScriptOf)
        → AreScript (lines_of bytes) one → AreScript (lines_of bytes) other → one ≡ other }
    ensures one_fault { (bytes : List ℕ) (m n : ℕ) (one other : Cause)
        → IsFirstFault (lines_of bytes) m one → IsFirstFault (lines_of bytes) n other
        → (m ≡ n) × (one ≡ other) }
{}
