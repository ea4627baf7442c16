// Laws of tokens.
ghost use Rattle.std.specs.Prelude.{◌≡◌, ℕ, Bool, ◌↔◌, List, Some, Ok, Err};
ghost use Rattle.theory.specs.Graph.{Graph};
ghost use Rattle.theory.specs.Word.{Word};
ghost use Rattle.words.specs.Alphabet.{IsAlphabet};
ghost use Rattle.word_powers.specs.Powers.{IsOutcome, IsReadable, IsWordText};
ghost use Rattle.line_parts.specs.declared.cause.Cause.TheVariants.{BadTable, TableBreaksRelation};
ghost use Rattle.line_parts.specs.PowerWords.{powers_of};
ghost use Rattle.line_parts.specs.Tables.{BreaksRelation, IsCongruenceTable, IsLowTable, IsTable, IsTextOf, congruence_table_of, low_table_of};
ghost use Rattle.line_parts.specs.Token.{AreTokens, IsNumberText, Line, Token, number_of, tokens_of};

/// The tokens of a line are its longest runs of bytes without blanks, in order.
pub fn tokens_are_longest_runs()
    ensures { (bytes : List ℕ) (tokens : Line)
        → (tokens_of bytes ≡ tokens) ↔ AreTokens bytes tokens }
{}

/// A token is read to a number exactly where it is the number in decimal, perhaps behind leading
/// zeros, and has at most seven digits; each other token is refused.
pub fn numbers_are_decimals()
    ensures { (t : Token) (n : ℕ) → (number_of t ≡ Some n) ↔ IsNumberText n t }
{}

/// A token is taken for a table exactly where it is the text of a standard one over so many
/// letters, and of at most so many classes, or such that the relations hold at it. It is a bad
/// table exactly where it is the text of no such one, whatever the relations, and it breaks a
/// relation exactly where it is, and the sides of a relation lead from some node to different ones.
pub fn tables_are_read()
    ensures low { (is_monoid : Bool) (k n : ℕ) (t : Token) (g : Graph)
        → (low_table_of is_monoid k n t ≡ Ok g) ↔ (IsTextOf k t g × IsLowTable is_monoid k n g) }
    ensures congruence { (is_monoid : Bool) (k : ℕ) (relations : List (Word × Word)) (t : Token)
        (g : Graph) → (congruence_table_of is_monoid k relations t ≡ Ok g)
        ↔ (IsTextOf k t g × IsCongruenceTable is_monoid k relations g) }
    ensures bad { (is_monoid : Bool) (k : ℕ) (relations : List (Word × Word)) (t : Token)
        → (congruence_table_of is_monoid k relations t ≡ Err BadTable)
        ↔ ((g : Graph) → IsTextOf k t g → IsTable is_monoid k g → ⊥) }
    ensures breaks { (is_monoid : Bool) (k : ℕ) (relations : List (Word × Word)) (t : Token)
        → (congruence_table_of is_monoid k relations t ≡ Err TableBreaksRelation)
        ↔ ((g : Graph) × IsTextOf k t g × IsTable is_monoid k g × BreaksRelation relations g) }
{}

/// A word with powers is read exactly as the grammar of these words says, and refused with the
/// fault that it has.
pub fn powers_are_read()
    ensures outcome { (alphabet : List ℕ) (allow_empty : Bool) (t : Token) → IsAlphabet alphabet
        → IsOutcome alphabet allow_empty t (powers_of alphabet allow_empty t) }
    ensures word { (alphabet : List ℕ) (allow_empty : Bool) (t : Token) (u : Word)
        → IsAlphabet alphabet → (powers_of alphabet allow_empty t ≡ Ok u)
        ↔ (IsWordText alphabet t u × IsReadable allow_empty u) }
{}
