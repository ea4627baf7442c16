// What the faults of a text mean.
ghost use Rattle.std.specs.Prelude.{◌≡◌, ◌↔◌, ℕ, Bool, List, Some, None};
ghost use Rattle.words.specs.Alphabet.{IsAlphabetOf, IsFirstFault, IsLetterByte, alphabet_fault};
ghost use Rattle.words.specs.declared.fault.AlphabetFault.{AlphabetFault};

/// The texts with no fault are the alphabets of letters.
pub fn alphabets_have_no_fault()
    ensures { (wide : Bool) (text : List ℕ)
        → IsAlphabetOf (IsLetterByte wide) text ↔ (alphabet_fault wide text ≡ None) }
{}

/// The fault of a text is its first: all bytes before it are letters, and no two of them alike.
pub fn fault_is_first()
    ensures { (wide : Bool) (text : List ℕ) (fault : AlphabetFault)
        → alphabet_fault wide text ≡ Some fault → IsFirstFault wide text fault }
{}
