// The lattice of right congruences.
ghost use Rattle.std.specs.Prelude.{◌≡◌, ℕ, ◌<◌, ◌↔◌, ◌⊎◌, ◌++◌, List, Some, length};
ghost use Rattle.theory.specs.Word.{Word, IsOver};
ghost use Rattle.theory.specs.Congruence.{Presentation, AreElements};
ghost use Rattle.theory.specs.Graph.{Graph, path, SameEnd, IsGraph, IsComplete, IsCompleteTable, PathsRelate};
ghost use Rattle.theory.specs.LowIndex.{Rows, graph_of, IsStandard, IsCompatible};
ghost use Rattle.theory.specs.Lattice.{IsRightCongruence, Meet, Join, HasFreeRoot, IsProductOf, MergedAll, AreEdgePairs, MergedAt, HasBoth};

use crate::predicates::Relation;

/// The path equality of a table is a right congruence, and so are the meet and the join of two.
pub fn meet_and_join_are_right_congruences()
    ensures table { (k : ℕ) (g : Graph) → IsCompleteTable k g → IsRightCongruence k (SameEnd g) }
    ensures meet { (k : ℕ) (s t : Graph) → IsCompleteTable k s → IsCompleteTable k t
        → IsRightCongruence k (Meet s t) }
    ensures join { (k : ℕ) (s t : Graph) → IsCompleteTable k s → IsCompleteTable k t
        → IsRightCongruence k (Join k s t) }
    ensures standard { (k : ℕ) (rows : Rows) → IsStandard k rows
        → IsCompleteTable k (graph_of rows) }
{}

/// The join has both, and lies within each right congruence that has both.
pub fn join_is_least<R: Relation>()
    ensures has { (k : ℕ) (s t : Graph) → IsCompleteTable k s → IsCompleteTable k t → (u v : Word)
        → SameEnd s u v ⊎ SameEnd t u v → Join k s t u v }
    ensures least { (k : ℕ) (s t : Graph) → IsRightCongruence k R.relates
        → ((u v : Word) → SameEnd s u v → R.relates u v)
        → ((u v : Word) → SameEnd t u v → R.relates u v) → (u v : Word) → Join k s t u v
        → R.relates u v }
{}

/// Where both tables meet a relation at each node, so does the table of the meet; where one does,
/// so does that of the join. No edge leads into the root of the meet where none leads into that of
/// one, and none into that of the join where none leads into those of both.
pub fn meet_and_join_keep_relations()
    ensures meet { (p : Presentation) → AreElements p.is_monoid p.letters p.relations
        → (s t rows : Rows) → IsStandard p.letters s
        → IsStandard p.letters t → IsStandard p.letters rows
        → PathsRelate (graph_of rows) (Meet (graph_of s) (graph_of t))
        → IsCompatible p s → IsCompatible p t → IsCompatible p rows }
    ensures join { (p : Presentation) → AreElements p.is_monoid p.letters p.relations
        → (s t rows : Rows) → IsStandard p.letters s
        → IsStandard p.letters t → IsStandard p.letters rows
        → PathsRelate (graph_of rows) (Join p.letters (graph_of s) (graph_of t))
        → IsCompatible p s → IsCompatible p rows }
    ensures meet_root { (k : ℕ) (s t g : Graph) → IsCompleteTable k g → PathsRelate g (Meet s t)
        → HasFreeRoot s → HasFreeRoot g }
    ensures join_root { (k : ℕ) (s t g : Graph) → IsCompleteTable k g → PathsRelate g (Join k s t)
        → HasFreeRoot s → HasFreeRoot t → HasFreeRoot g }
{}

/// A complete product of two tables shows their meet, and merging the edges of one into the other
/// shows their join.
pub fn products_meet_and_merges_join()
    ensures meet { (k : ℕ) (s t g : Graph) (left right : ℕ → ℕ) → IsGraph k g
        → IsProductOf s t g left right → IsComplete k g → IsCompleteTable k s
        → PathsRelate g (Meet s t) }
    ensures join { (k : ℕ) (s t : Graph) (word : ℕ → Word) (pairs : List (Word × Word))
        → IsCompleteTable k s → IsCompleteTable k t
        → AreEdgePairs k t word pairs → (u v : Word)
        → MergedAll (SameEnd s) pairs u v ↔ Join k s t u v }
{}

/// A graph that has both tables shows their join as long as it has no more; this stays so when
/// nodes are merged to which related words lead, and what was related stays related.
pub fn merging_keeps_the_join()
    ensures shows { (k : ℕ) (s t g : Graph) (word : ℕ → Word) → IsCompleteTable k s
        → IsCompleteTable k t → IsGraph k g → HasBoth k s t g word
        → ((u v : Word) → SameEnd g u v → Join k s t u v) → PathsRelate g (Join k s t) }
    ensures within { (k : ℕ) (s t g : Graph) (x y : ℕ) (p q : Word) → IsCompleteTable k s
        → IsCompleteTable k t
        → ((u v : Word) → SameEnd g u v → Join k s t u v) → path g 0 p ≡ Some x
        → path g 0 q ≡ Some y → Join k s t p q
        → (u v : Word) → MergedAt g x y u v → Join k s t u v }
    ensures has { (g : Graph) (x y : ℕ) (p q : Word) → path g 0 p ≡ Some x → path g 0 q ≡ Some y
        → ((u v : Word) → SameEnd g u v → MergedAt g x y u v) × MergedAt g x y p q }
{}
