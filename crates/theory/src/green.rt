// Green's relations and idempotents, by the Cayley graphs.
ghost use Rattle.std.specs.Prelude.{◌≡◌, ℕ, ◌<◌, ◌↔◌, List, Contains};
ghost use Rattle.theory.specs.Word.{Word};
ghost use Rattle.theory.specs.Semigroup.{Semigroup, value_of, Numbering, IsNumberOf};
ghost use Rattle.theory.specs.Green.{IsGreenR, IsGreenL, IsGreenH, IsGreenJ, IsIdempotent, IsEdge, IsEdgeOfEither, AreConnected, follow, AreClasses};

use crate::predicates::Numbers;
use crate::values::Values;

/// Two elements are related by R exactly where their numbers are connected in the right Cayley
/// graph, by L in the left one, by H in each of them, and by J in both together.
pub fn green_by_cayley_graphs<V: Values>()
    ensures { (s : Semigroup V.shape V.product V.eq) (t : Numbering s)
        → (u v : Word) (i j : ℕ) → IsNumberOf t i u → IsNumberOf t j v
        → (IsGreenR V.product V.eq s.letters (value_of s) (value_of s u) (value_of s v)
        ↔ AreConnected (IsEdge s.letters t.right) i j)
        × (IsGreenL V.product V.eq s.letters (value_of s) (value_of s u) (value_of s v)
        ↔ AreConnected (IsEdge s.letters t.left) i j)
        × (IsGreenH V.product V.eq s.letters (value_of s) (value_of s u) (value_of s v)
        ↔ (AreConnected (IsEdge s.letters t.right) i j
        × AreConnected (IsEdge s.letters t.left) i j))
        × (IsGreenJ V.product V.eq s.letters (value_of s) (value_of s u) (value_of s v)
        ↔ AreConnected (IsEdgeOfEither s.letters t.right t.left) i j) }
{}

/// An element is idempotent exactly where its own word leads in the right Cayley graph from its
/// number back to it.
pub fn idempotents_by_cayley_graphs<V: Values>()
    ensures { (s : Semigroup V.shape V.product V.eq) (t : Numbering s)
        → (u : Word) (i : ℕ) → IsNumberOf t i u
        → IsIdempotent V.product V.eq (value_of s u) ↔ (follow t.right i (t.word i) ≡ i) }
{}

/// The classes of numbers are listed in at most one way. Two numbers of one class are related, and
/// related numbers stand in one class.
pub fn classes_are_one<R: Numbers>()
    ensures one { (n : ℕ) (cs ds : List (List ℕ)) → AreClasses n R.relates cs
        → AreClasses n R.relates ds → cs ≡ ds }
    ensures related { (n : ℕ) (cs : List (List ℕ)) → AreClasses n R.relates cs
        → (c : List ℕ) → Contains cs c → (i j : ℕ) → Contains c i → Contains c j → R.relates i j }
    ensures together { (n : ℕ) (cs : List (List ℕ)) → AreClasses n R.relates cs
        → (i j : ℕ) → i < n → j < n → R.relates i j
        → (c : List ℕ) × Contains cs c × Contains c i × Contains c j }
{}
