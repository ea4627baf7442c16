// Completion within a bound: its rules, and what they are where it ends.
ghost use Rattle.std.specs.Prelude.{List, ◌≡◌, ℕ, ◌↔◌, ◌⊎◌};
ghost use Rattle.theory.specs.Word.{Word, IsElement, IsProperFactor};
ghost use Rattle.theory.specs.ShortLex.{◌≺◌};
ghost use Rattle.theory.specs.Congruence.{Presentation, Congruence, IsTwoSided, IsWellFormed, of_presentation, with_relations};
ghost use Rattle.theory.specs.Chain.{Related};
ghost use Rattle.theory.specs.Class.{SameClass, IsLeast, IsReducedRule};
ghost use Rattle.theory.specs.Completion.{Within, Rule, Reduces, IsReduced, Joinable, OverlapsJoin, CompletionEnds, HasLongSide, HasBadOverlap, Listed, AreRules};

/// Each rule leads to a lesser word, a left side has one right side, and none stands inside
/// another.
pub fn rules_are_reduced()
    ensures falls { (p : Presentation) (L : ℕ) (l r : Word) → Rule p L l r → r ≺ l }
    ensures one { (p : Presentation) (L : ℕ) (l r s : Word) → Rule p L l r → Rule p L l s → r ≡ s }
    ensures apart { (p : Presentation) (L : ℕ) (l r f g : Word) → Rule p L l r → Rule p L f g
        → IsProperFactor f l → ⊥ }
{}

/// The rules are finitely many, and lead each word to one to which none applies.
pub fn rules_are_finite()
    ensures listed { (p : Presentation) (L : ℕ)
        → (rules : List (Word × Word)) × ((l r : Word) → Listed rules l r ↔ Rule p L l r) }
    ensures reduced { (p : Presentation) (L : ℕ) (u : Word)
        → (v : Word) × Reduces (Rule p L) u v × IsReduced (Rule p L) v }
{}

/// Where completion ends, rewriting is confluent: whichever rules are applied, the words meet.
pub fn rewriting_is_confluent()
    ensures { (p : Presentation) (L : ℕ) → CompletionEnds p L → (u v w : Word)
        → Reduces (Rule p L) u v → Reduces (Rule p L) u w
        → Joinable (Rule p L) v w }
{}

/// Where completion ends, its rules lead two words to one exactly where they are related, and are
/// the reduced rules.
pub fn completion_is_complete()
    ensures joinable { (p : Presentation) (L : ℕ) → IsWellFormed (of_presentation p)
        → CompletionEnds p L
        → (u v : Word) → Related (of_presentation p) u v ↔ Joinable (Rule p L) u v }
    ensures reduced { (p : Presentation) (L : ℕ) → IsWellFormed (of_presentation p)
        → CompletionEnds p L
        → (u v : Word) → Rule p L u v ↔ IsReducedRule (SameClass (of_presentation p)) u v }
    ensures normal { (p : Presentation) (L : ℕ) → IsWellFormed (of_presentation p)
        → CompletionEnds p L
        → (u v x y : Word) → Reduces (Rule p L) u x → IsReduced (Rule p L) x
        → Reduces (Rule p L) v y → IsReduced (Rule p L) y
        → Related (of_presentation p) u v ↔ (x ≡ y) }
{}

/// Where a two-sided congruence is completed with its pairs as relations, the rules lead two words
/// to one exactly where they are related.
pub fn completion_decides()
    ensures { (c : Congruence) (L : ℕ) → IsWellFormed c → IsTwoSided c
        → CompletionEnds (with_relations c.presentation c.pairs) L
        → (u v : Word) → Related c u v ↔ Joinable
        (Rule (with_relations c.presentation c.pairs) L) u v }
{}

/// What is related within a bound is related, and whether two words are so can be decided.
pub fn within_is_decided()
    ensures related { (p : Presentation) (L : ℕ) (u v : Word) → Within p L u v
        → Related (of_presentation p) u v }
    ensures decided { (p : Presentation) (L : ℕ) (u v : Word)
        → Within p L u v ⊎ (Within p L u v → ⊥) }
{}

/// Completion does not end where an overlap leads to two reduced words, or a side of a relation is
/// too long.
pub fn completion_fails()
    ensures overlap { (p : Presentation) (L : ℕ) → HasBadOverlap p L → CompletionEnds p L → ⊥ }
    ensures length { (p : Presentation) (L : ℕ) → HasLongSide p L → CompletionEnds p L → ⊥ }
{}

/// Completion ends, or one of these two is there.
pub fn completion_ends_or_fails()
    ensures { (p : Presentation) (L : ℕ)
        → CompletionEnds p L ⊎ (HasLongSide p L ⊎ HasBadOverlap p L) }
{}

/// Where completion ends, an element is least exactly where no rule applies.
pub fn reduced_words_are_least()
    ensures { (p : Presentation) (L : ℕ) → IsWellFormed (of_presentation p) → CompletionEnds p L
        → (u : Word) → IsElement p.is_monoid p.letters u
        → IsLeast (SameClass (of_presentation p)) u ↔ IsReduced (Rule p L) u }
{}

/// A list of rules as completion leaves it has just its rules, and it is enough to test the
/// overlaps of the list.
pub fn kept_rules_are_the_rules()
    ensures rules { (p : Presentation) (L : ℕ) (rules : List (Word × Word)) → AreRules p L rules
        → (u v : Word) → Listed rules u v ↔ Rule p L u v }
    ensures reduces { (p : Presentation) (L : ℕ) (rules : List (Word × Word)) → AreRules p L rules
        → (u v : Word)
        → Reduces (Listed rules) u v ↔ Reduces (Rule p L) u v }
    ensures reduced { (p : Presentation) (L : ℕ) (rules : List (Word × Word)) → AreRules p L rules
        → (u : Word)
        → IsReduced (Listed rules) u ↔ IsReduced (Rule p L) u }
    ensures overlaps { (p : Presentation) (L : ℕ) (rules : List (Word × Word)) → AreRules p L rules
        → OverlapsJoin (Listed rules)
        → OverlapsJoin (Rule p L) }
{}
