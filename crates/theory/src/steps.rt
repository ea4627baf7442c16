// Chains of steps with places.
ghost use Rattle.std.specs.Prelude.{◌≡◌, ◌↔◌, List, ◌∷◌, ◌++◌, map, reverse, length};
ghost use Rattle.theory.specs.Word.{Word};
ghost use Rattle.theory.specs.Congruence.{Presentation, Congruence, IsTwoSided, with_relations};
ghost use Rattle.theory.specs.Chain.{Related};
ghost use Rattle.theory.specs.PlacedStep.{PlacedStep, Gives, AllGive, LeadTo, last_word, turned_step, shifted_step, AreDifferent};

/// A two-sided congruence, its pairs taken as relations, relates two words exactly where steps lead
/// from one to the other.
pub fn placed_steps_decide()
    ensures { (c : Congruence) → IsTwoSided c → (u v : Word)
        → Related c u v ↔ ((steps : List PlacedStep)
        × LeadTo (with_relations c.presentation c.pairs) u steps v) }
{}

/// A step gives one word, and steps one list of words.
pub fn placed_steps_are_functions()
    ensures one { (p : Presentation) (u : Word) (step : PlacedStep) (v w : Word) → Gives p u step v
        → Gives p u step w → v ≡ w }
    ensures all { (p : Presentation) (u : Word) (steps : List PlacedStep) (vs ws : List Word)
        → AllGive p u steps vs → AllGive p u steps ws
        → vs ≡ ws }
    ensures last { (p : Presentation) (u : Word) (steps : List PlacedStep) (v w : Word)
        → LeadTo p u steps v → LeadTo p u steps w → v ≡ w }
{}

/// Steps may be made one after another, back, and in a context.
pub fn placed_steps_compose()
    ensures after { (p : Presentation) (u v w : Word) (s t : List PlacedStep) → LeadTo p u s v
        → LeadTo p v t w → LeadTo p u (s ++ t) w }
    ensures back { (p : Presentation) (u : Word) (s : List PlacedStep) (v : Word) → LeadTo p u s v
        → LeadTo p v (reverse (map turned_step s)) u }
    ensures inside { (p : Presentation) (x y u : Word) (s : List PlacedStep) (v : Word)
        → LeadTo p u s v
        → LeadTo p (x ++ (u ++ y)) (map (shifted_step (length x)) s) (x ++ (v ++ y)) }
{}

/// Where steps lead from one word to another, steps do whose words are all different.
pub fn placed_steps_need_no_detour()
    ensures { (p : Presentation) (u : Word) (steps : List PlacedStep) (v : Word)
        → LeadTo p u steps v
        → (short : List PlacedStep) × (vs : List Word) × AllGive p u short vs × (last_word u vs ≡ v)
        × AreDifferent (u ∷ vs) }
{}
