// One-sided congruences by marked words.
ghost use Rattle.std.specs.Prelude.{ℕ, ◌≡◌, ◌↔◌, ◌++◌, List, Option, None};
ghost use Rattle.theory.specs.Word.{Word, IsOver, IsElement};
ghost use Rattle.theory.specs.Congruence.{Congruence, IsWellFormed, of_presentation};
ghost use Rattle.theory.specs.Chain.{Related};
ghost use Rattle.theory.specs.ShortLex.{◌≺◌};
ghost use Rattle.theory.specs.Class.{SameClass, IsLeast, IsNormal, IsClassList, IsInfinite};
ghost use Rattle.theory.specs.Listing.{IsNext, IsLast, IsListOf, AreInfinite};
ghost use Rattle.theory.specs.Completion.{Rule, Reduces, IsReduced, CompletionEnds};
ghost use Rattle.theory.specs.Marked.{marker_before, marker_behind, marked, as_marked_word, completed, completed_word, IsMarkedReduced};

/// A congruence relates two words exactly where the relations of the marked presentation relate the
/// marked words.
pub fn marked_words_are_related()
    ensures related { (c : Congruence) → IsWellFormed c → (u v : Word)
        → IsOver c.presentation.letters u
        → Related c u v ↔ Related (of_presentation (marked c)) (as_marked_word c u)
        (as_marked_word c v) }
    ensures elements { (c : Congruence) → IsWellFormed c
        → IsWellFormed (of_presentation (marked c)) }
    ensures framed { (c : Congruence) (u : Word)
        → as_marked_word c u ≡ marker_before c.kind c.presentation.letters
        ++ (u ++ marker_behind c.kind c.presentation.letters) }
{}

/// Where completion of the marked presentation ends, two words are related exactly where their
/// marked words have one normal form, and that is the marked normal form.
pub fn marked_words_decide()
    ensures related { (c : Congruence) (L : ℕ) → IsWellFormed c → CompletionEnds (marked c) L
        → (u v x y : Word) → IsOver c.presentation.letters u
        → Reduces (Rule (marked c) L) (as_marked_word c u) x → IsReduced (Rule (marked c) L) x
        → Reduces (Rule (marked c) L) (as_marked_word c v) y → IsReduced (Rule (marked c) L) y
        → Related c u v ↔ (x ≡ y) }
    ensures normal { (c : Congruence) (L : ℕ) → IsWellFormed c → CompletionEnds (marked c) L
        → (u x : Word)
        → IsElement c.presentation.is_monoid c.presentation.letters u
        → Reduces (Rule (marked c) L) (as_marked_word c u) x → IsReduced (Rule (marked c) L) x
        → (w : Word) × (x ≡ as_marked_word c w) × IsNormal (SameClass c) u w }
{}

/// An element is least exactly where its marked word is; where completion ends, exactly where no
/// rule applies to that.
pub fn marked_words_are_least()
    ensures least { (c : Congruence) → IsWellFormed c → (u : Word)
        → IsElement c.presentation.is_monoid c.presentation.letters u
        → IsLeast (SameClass c) u ↔ IsLeast (SameClass (of_presentation (marked c)))
        (as_marked_word c u) }
    ensures reduced { (c : Congruence) (L : ℕ) → IsWellFormed c → CompletionEnds (marked c) L
        → (u : Word)
        → IsElement c.presentation.is_monoid c.presentation.letters u
        → IsLeast (SameClass c) u ↔ IsReduced (Rule (marked c) L) (as_marked_word c u) }
{}

/// So the classes are listed by these elements, one after another and in one list, and are
/// infinitely many exactly where these are.
pub fn marked_words_list_classes()
    ensures next { (c : Congruence) (L : ℕ) → IsWellFormed c → CompletionEnds (marked c) L
        → (cursor : Option Word) (u : Word)
        → IsNext (IsLeast (SameClass c)) ◌≺◌ cursor u ↔ IsNext (IsMarkedReduced c L) ◌≺◌ cursor u }
    ensures last { (c : Congruence) (L : ℕ) → IsWellFormed c → CompletionEnds (marked c) L
        → (cursor : Option Word)
        → IsLast (IsLeast (SameClass c)) ◌≺◌ cursor ↔ IsLast (IsMarkedReduced c L) ◌≺◌ cursor }
    ensures list { (c : Congruence) (L : ℕ) → IsWellFormed c → CompletionEnds (marked c) L
        → (words : List Word)
        → IsClassList (SameClass c) words ↔ IsListOf (IsMarkedReduced c L) ◌≺◌ None words }
    ensures infinite { (c : Congruence) (L : ℕ) → IsWellFormed c → CompletionEnds (marked c) L
        → IsInfinite (SameClass c) ↔ AreInfinite (IsMarkedReduced c L) ◌≺◌ }
{}

/// For each kind of congruence there is one presentation to complete. Where completion ends, it
/// decides the congruence, and an element is least exactly where no rule applies to the word that
/// stands for it.
pub fn completion_decides_each_kind()
    ensures words { (c : Congruence) → IsWellFormed c → (u v : Word)
        → IsOver c.presentation.letters u
        → Related c u v ↔ Related (of_presentation (completed c)) (completed_word c u)
        (completed_word c v) }
    ensures elements { (c : Congruence) → IsWellFormed c
        → IsWellFormed (of_presentation (completed c)) }
    ensures related { (c : Congruence) → IsWellFormed c → (L : ℕ) → CompletionEnds (completed c) L
        → (u v x y : Word) → IsOver c.presentation.letters u
        → Reduces (Rule (completed c) L) (completed_word c u) x → IsReduced (Rule (completed c) L) x
        → Reduces (Rule (completed c) L) (completed_word c v) y → IsReduced (Rule (completed c) L) y
        → Related c u v ↔ (x ≡ y) }
    ensures least { (c : Congruence) → IsWellFormed c → (L : ℕ) → CompletionEnds (completed c) L
        → (u : Word)
        → IsElement c.presentation.is_monoid c.presentation.letters u
        → IsLeast (SameClass c) u ↔ IsReduced (Rule (completed c) L) (completed_word c u) }
{}
