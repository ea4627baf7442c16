//! What chains say of a presentation.
ghost use Rattle.std.specs.Prelude.{◌≡◌, ◌↔◌, List, true};
ghost use Rattle.chains.specs.Chains.{IsChain, steps_of};
ghost use Rattle.chains.specs.declared.steps.ChainStep.{ChainStep};
ghost use Rattle.theory.specs.Word.{Word};
ghost use Rattle.theory.specs.Congruence.{Presentation, of_presentation};
ghost use Rattle.theory.specs.Chain.{Related};
ghost use Rattle.theory.specs.PlacedStep.{LeadTo};

/// Steps that `check` accepts join words that the relations relate.
pub fn checked_words_are_related()
    ensures { (p : Presentation) (u v : Word) (steps : List ChainStep)
        → LeadTo p u (steps_of steps) v → Related (of_presentation p) u v }
{}

/// Steps have one chain of words.
pub fn words_of_steps_are_one()
    ensures { (p : Presentation) (u : Word) (steps : List ChainStep) (ws xs : List Word)
        → IsChain p u steps ws → IsChain p u steps xs → ws ≡ xs }
{}
