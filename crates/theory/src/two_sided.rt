// Tables of two-sided congruences.
ghost use Rattle.std.specs.Prelude.{ℕ, ◌↔◌, List};
ghost use Rattle.theory.specs.Word.{Word, IsOver};
ghost use Rattle.theory.specs.Graph.{Graph, SameEnd, IsCompleteTable};
ghost use Rattle.theory.specs.Chain.{Related};
ghost use Rattle.theory.specs.Lattice.{AreEdgePairs, free_with};
ghost use Rattle.theory.specs.declared.Kind.TheVariants.{TwoSided, Right};
ghost use Rattle.theory.specs.TwoSidedTable.{IsTwoSidedTable, IsKeptInFront, AreNodeWords, AgreesAtLetters};

/// A table is two-sided exactly where its path equality is kept under multiplication on the left,
/// and for this it is enough to follow its edges from each node to which a letter leads from the
/// root.
pub fn two_sided_tables_are_congruences()
    ensures kept { (k : ℕ) (g : Graph) → IsCompleteTable k g
        → IsTwoSidedTable g ↔ IsKeptInFront k g }
    ensures tested { (k : ℕ) (g : Graph) → IsCompleteTable k g → (word : ℕ → Word)
        → AreNodeWords g word → IsTwoSidedTable g ↔ AgreesAtLetters k g word }
{}

/// A table is the right congruence that its edges generate, and is two-sided exactly where it is
/// the two-sided congruence that they generate.
pub fn tables_are_generated_by_edges()
    ensures right { (k : ℕ) (g : Graph) (word : ℕ → Word) (pairs : List (Word × Word))
        → IsCompleteTable k g → AreEdgePairs k g word pairs
        → (u v : Word) → IsOver k u → Related (free_with k Right pairs) u v ↔ SameEnd g u v }
    ensures two_sided { (k : ℕ) (g : Graph) (word : ℕ → Word) (pairs : List (Word × Word))
        → IsCompleteTable k g → AreEdgePairs k g word pairs
        → IsTwoSidedTable g ↔ ((u v : Word) → IsOver k u
        → Related (free_with k TwoSided pairs) u v ↔ SameEnd g u v) }
{}
