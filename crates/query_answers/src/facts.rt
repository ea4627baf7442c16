// Laws of the definitions.
ghost use Rattle.std.specs.Prelude.{◌≡◌, ◌≢◌, ◌↔◌, ℕ, Bool, List, [], ◌∷◌};
ghost use Rattle.theory.specs.Word.{Word};
ghost use Rattle.problem.specs.declared.budgets.Budgets.{Budgets};
ghost use Rattle.problem.specs.declared.kinds.Problem.{Problem};
ghost use Rattle.query_lang.specs.declared.script.Query.{Query};
ghost use Rattle.report_lines.specs.Lines.{no_chain_line};
ghost use Rattle.query_answers.specs.Answer.{IsAnswer, awaited_by};

use crate::awaited::Awaited;

/// The problem, the budgets and the bound determine whether a query is left undecided, and the
/// lines of its answer where it waits for no completion that logs.
pub fn answer_is_one()
    ensures undecided { (p : Problem) (budgets : Budgets) (bound : ℕ) (query : Query)
        (lines others : List (List ℕ)) (undecided other : Bool)
        → IsAnswer p budgets bound query lines undecided
        → IsAnswer p budgets bound query others other → undecided ≡ other }
    ensures lines { (p : Problem) (budgets : Budgets) (bound : ℕ) (query : Query)
        (lines others : List (List ℕ)) (undecided other : Bool)
        → awaited_by query ≢ Awaited.Log
        → IsAnswer p budgets bound query lines undecided
        → IsAnswer p budgets bound query others other → lines ≡ others }
{}

/// A chain is one of many that may be told, but that there is none is told by each answer or by
/// none.
pub fn chain_kind_is_one()
    ensures { (p : Problem) (budgets : Budgets) (bound : ℕ) (u v : Word)
        (lines others : List (List ℕ)) (undecided other : Bool)
        → IsAnswer p budgets bound (Query.Chain u v) lines undecided
        → IsAnswer p budgets bound (Query.Chain u v) others other
        → (lines ≡ no_chain_line ∷ []) ↔ (others ≡ no_chain_line ∷ []) }
{}
