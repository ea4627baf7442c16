// Words in short-lex order, and chains of steps.
ghost use Rattle.std.specs.Prelude.{List, ◌≡◌, ◌++◌};
ghost use Rattle.std.specs.Cmp.{IsTotalOrder};
ghost use Rattle.std.specs.declared.cmp.Ordering.TheVariants.{Equal};
ghost use Rattle.theory.specs.Word.{Word};
ghost use Rattle.theory.specs.ShortLex.{shortlex, ◌≺◌};
ghost use Rattle.theory.specs.Congruence.{Presentation, Congruence, of_presentation};
ghost use Rattle.theory.specs.PlacedStep.{PlacedStep, AllGive, last_word};
ghost use Rattle.theory.specs.Chain.{Related, IsCongruenceOf};

use crate::predicates::Words;

/// Short-lex is a total order.
pub fn shortlex_is_total()
    ensures { IsTotalOrder shortlex }
{}

/// Words that compare alike are one.
pub fn shortlex_is_exact()
    ensures { (u v : Word) → shortlex u v ≡ Equal → u ≡ v }
{}

/// Short-lex is kept under multiplication on both sides.
pub fn shortlex_is_kept()
    ensures { (x u v y : Word) → u ≺ v → (x ++ (u ++ y)) ≺ (x ++ (v ++ y)) }
{}

/// Short-lex is well founded: a set that has a word once it has all words before it has every word.
pub fn shortlex_is_well_founded<P: Words>()
    ensures { ((u : Word) → ((v : Word) → v ≺ u → P.has v) → P.has u) → (u : Word) → P.has u }
{}

/// Relatedness by chains is a congruence of its kind.
pub fn related_is_congruence()
    ensures { (c : Congruence) → IsCongruenceOf c.kind (Related c) }
{}

/// Two words are related exactly where steps with places lead from one to the other.
pub fn placed_steps_join()
    ensures related { (p : Presentation) (u : Word) (steps : List PlacedStep) (vs : List Word)
        → AllGive p u steps vs
        → Related (of_presentation p) u (last_word u vs) }
    ensures steps { (p : Presentation) (u v : Word) → Related (of_presentation p) u v
        → (steps : List PlacedStep) × (vs : List Word) × AllGive p u steps vs
        × (last_word u vs ≡ v) }
{}
