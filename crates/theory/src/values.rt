// Values of words over generators.
ghost use Rattle.theory.specs.declared.Kind.{Kind};
ghost use Rattle.std.specs.Prelude.{◌≡◌, ℕ, ◌<◌, ◌↔◌, false, List, [], ◌++◌, IsTrue};
ghost use Rattle.theory.specs.Word.{Word, IsElement};
ghost use Rattle.theory.specs.Congruence.{AreElements};
ghost use Rattle.theory.specs.Class.{IsNormal, IsClassList};
ghost use Rattle.theory.specs.Generated.{GeneratedValue, GeneratedNumber, Linked, AreMerges};
ghost use Rattle.theory.specs.Semigroup.{Semigroup, value_of, Numbering, IsNumberOf};
ghost use Rattle.theory.specs.Value.{IsProduct, SameValue, SameElement, HasAtMostValues, HasMoreValues};

/// What values are: those of one shape have an associative product, which keeps their shape and
/// what is equal. Equality is that of `Eq`.
pub trait Values: Eq {
    /// Values of one shape can be multiplied.
    ghost shape: { Self → ℕ × ℕ };

    /// The product, which acts from the left factor first.
    ghost product: { Self → Self → Self };

    /// Whether two values can be multiplied.
    fn same_shape(&self, other: &Self) -> bool
        ensures { IsTrue result ↔ (shape self.now ≡ shape other.now) };

    /// The values of one shape have an associative product, which keeps their shape and what is
    /// equal.
    ghost products: { (one : ℕ × ℕ) → IsProduct (λ x. shape x ≡ one) product Self.eq };
}

/// The value of a product is the product of the values.
pub fn value_of_product<V: Values>()
    ensures { (s : Semigroup V.shape V.product V.eq) (u v : Word)
        → IsElement false s.letters u → IsElement false s.letters v
        → IsTrue (V.eq (value_of s (u ++ v)) (V.product (value_of s u) (value_of s v))) }
{}

/// Without pairs two elements are related exactly where their values are equal.
pub fn related_by_value<V: Values>()
    ensures { (s : Semigroup V.shape V.product V.eq) (kind : Kind) (u v : Word)
        → SameElement s.letters V.eq (value_of s) kind [] u v
        ↔ SameValue s.letters V.eq (value_of s) u v }
{}

/// With pairs two elements are related exactly where their values are, by the least equivalence
/// that has the values of the pairs and is kept under multiplication by generators on the sides of
/// its kind.
pub fn related_by_values<V: Values>()
    ensures { (s : Semigroup V.shape V.product V.eq) (kind : Kind) (pairs : List (Word × Word))
        → AreElements false s.letters pairs
        → (u v : Word) → IsElement false s.letters u → IsElement false s.letters v
        → SameElement s.letters V.eq (value_of s) kind pairs u v
        ↔ GeneratedValue s kind pairs (value_of s u) (value_of s v) }
{}

/// The same on numbers of values: by the least equivalence that has the numbers of the pairs and is
/// kept along the edges of the right, the left, or both Cayley graphs.
pub fn related_by_numbers<V: Values>()
    ensures { (s : Semigroup V.shape V.product V.eq) (kind : Kind) (pairs : List (Word × Word))
        → AreElements false s.letters pairs → (t : Numbering s)
        → (u v : Word) (i j : ℕ) → IsNumberOf t i u → IsNumberOf t j v
        → SameElement s.letters V.eq (value_of s) kind pairs u v
        ↔ GeneratedNumber t kind pairs i j }
{}

/// So it is enough to merge numbers: those of the pairs, and for each merge those to which its
/// edges lead. Two elements are related exactly where the merges link their numbers.
pub fn related_by_merges<V: Values>()
    ensures { (s : Semigroup V.shape V.product V.eq) (kind : Kind) (pairs : List (Word × Word))
        → AreElements false s.letters pairs → (t : Numbering s)
        → (merges : List (ℕ × ℕ)) → AreMerges t kind pairs merges
        → (u v : Word) (i j : ℕ) → IsNumberOf t i u → IsNumberOf t j v
        → SameElement s.letters V.eq (value_of s) kind pairs u v ↔ Linked t.count merges i j }
{}

/// An element has one normal form, by which relatedness is decided, and the classes of elements one
/// list.
pub fn element_classes_are_determined<V: Values>()
    ensures normal { (s : Semigroup V.shape V.product V.eq) (kind : Kind)
        → (pairs : List (Word × Word)) → AreElements false s.letters pairs → (u v w : Word)
        → IsNormal (SameElement s.letters V.eq (value_of s) kind pairs) u v
        → IsNormal (SameElement s.letters V.eq (value_of s) kind pairs) u w → v ≡ w }
    ensures decide { (s : Semigroup V.shape V.product V.eq) (kind : Kind)
        → (pairs : List (Word × Word)) → AreElements false s.letters pairs → (u v x y : Word)
        → IsNormal (SameElement s.letters V.eq (value_of s) kind pairs) u x
        → IsNormal (SameElement s.letters V.eq (value_of s) kind pairs) v y
        → SameElement s.letters V.eq (value_of s) kind pairs u v ↔ (x ≡ y) }
    ensures list { (s : Semigroup V.shape V.product V.eq) (kind : Kind)
        → (pairs : List (Word × Word)) → AreElements false s.letters pairs → (xs ys : List Word)
        → IsClassList (SameElement s.letters V.eq (value_of s) kind pairs) xs
        → IsClassList (SameElement s.letters V.eq (value_of s) kind pairs) ys → xs ≡ ys }
{}

/// Elements that have at most m values, and more than n, show that n is less than m.
pub fn values_bound<V: Values>()
    ensures { (k : ℕ) (value_of : Word → V) (m n : ℕ) → HasAtMostValues k V.eq value_of m
        → HasMoreValues k V.eq value_of n → n < m }
{}
