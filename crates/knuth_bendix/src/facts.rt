// What the lists of rules are that completion keeps.
ghost use Rattle.std.specs.Prelude.{◌≡◌, ℕ, ◌↔◌, List};
ghost use Rattle.theory.specs.Word.{Word};
ghost use Rattle.theory.specs.Congruence.{Presentation};
ghost use Rattle.theory.specs.Completion.{Fits, Within, Reduces, IsReduced, Listed, AreRules};
ghost use Rattle.knuth_bendix.specs.Links.{IsLinkedUp};

/// Rules whose overlaps are linked below, and which link the relations, are the rules within the
/// bound where their right sides are reduced and related to the left ones.
pub fn linked_rules_are_kept()
    ensures { (p : Presentation) (L : ℕ) (rules : List (Word × Word))
        → IsLinkedUp p L (Listed rules) rules
        → ((l r : Word) → Listed rules l r → Within p L l r)
        → ((l r : Word) → Listed rules l r → IsReduced (Listed rules) r)
        → AreRules p L rules }
{}

/// Two words that fit are related within the bound exactly where the rules lead them to one reduced
/// word.
pub fn normal_forms_decide_within()
    ensures { (p : Presentation) (L : ℕ) (rules : List (Word × Word)) → AreRules p L rules
        → (u v x y : Word) → Fits p L u → Fits p L v
        → Reduces (Listed rules) u x → IsReduced (Listed rules) x → Reduces (Listed rules) v y
        → IsReduced (Listed rules) y
        → Within p L u v ↔ (x ≡ y) }
{}
