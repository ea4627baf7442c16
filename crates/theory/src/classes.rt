// Classes of words, and their least words.
ghost use Rattle.std.specs.Prelude.{◌≡◌, ℕ, ◌<◌, ◌↔◌, List, length, Option};
ghost use Rattle.theory.specs.Word.{Word};
ghost use Rattle.theory.specs.ShortLex.{◌≺◌};
ghost use Rattle.theory.specs.Listing.{IsNext};
ghost use Rattle.theory.specs.Congruence.{Congruence};
ghost use Rattle.theory.specs.Class.{SameClass, IsLeast, IsNormal, IsClassList, HasIndex, HasMoreThan, IsInfinite, IsRuleList, Covers};

/// A class has one least word, so a word has one normal form.
pub fn normal_form_is_one()
    ensures least { (c : Congruence) (u v : Word) → IsLeast (SameClass c) u
        → IsLeast (SameClass c) v → SameClass c u v → u ≡ v }
    ensures normal { (c : Congruence) (u v w : Word) → IsNormal (SameClass c) u v
        → IsNormal (SameClass c) u w → v ≡ w }
{}

/// Two words are of one class exactly where their normal forms are one.
pub fn normal_forms_decide()
    ensures { (c : Congruence) (u v x y : Word) → IsNormal (SameClass c) u x
        → IsNormal (SameClass c) v y → SameClass c u v ↔ (x ≡ y) }
{}

/// There is at most one class list.
pub fn class_list_is_one()
    ensures { (c : Congruence) (xs ys : List Word) → IsClassList (SameClass c) xs
        → IsClassList (SameClass c) ys → xs ≡ ys }
{}

/// There is at most one index; it is greater than each number that the classes exceed, and where
/// they exceed every number there is none.
pub fn index_is_one()
    ensures one { (c : Congruence) (m n : ℕ) → HasIndex (SameClass c) m → HasIndex (SameClass c) n
        → m ≡ n }
    ensures bound { (c : Congruence) (n m : ℕ) → HasIndex (SameClass c) n
        → HasMoreThan (SameClass c) m → m < n }
    ensures finite { (c : Congruence) (n : ℕ) → HasIndex (SameClass c) n → IsInfinite (SameClass c)
        → ⊥ }
{}

/// The classes are no more than the words that cover them.
pub fn cover_bounds()
    ensures { (c : Congruence) (words : List Word) (n : ℕ) → Covers (SameClass c) words
        → HasMoreThan (SameClass c) n → n < length words }
{}

/// Where each least word has a greater one, the classes are infinitely many.
pub fn next_words_are_infinite()
    ensures { (c : Congruence) → ((cursor : Option Word)
        → (u : Word) × IsNext (IsLeast (SameClass c)) ◌≺◌ cursor u) → IsInfinite (SameClass c) }
{}

/// There is at most one list of the reduced rules.
pub fn rule_list_is_one()
    ensures { (c : Congruence) (ps qs : List (Word × Word)) → IsRuleList (SameClass c) ps
        → IsRuleList (SameClass c) qs → ps ≡ qs }
{}
