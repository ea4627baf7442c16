// Elements and their values.
ghost use Rattle.std.specs.Prelude.{◌≡◌, ◌↔◌, []};
ghost use Rattle.theory.specs.Word.{Word};
ghost use Rattle.problem.specs.declared.kinds.Problem.{Problem};
ghost use Rattle.problem.specs.Problem.{SameClassOf, SameValueOf, HasOneShape, pairs_of};

/// Without pairs two elements of generators of one shape are related exactly where their values are
/// equal.
pub fn elements_are_related_by_value()
    ensures { (p : Problem) → HasOneShape p → pairs_of p ≡ []
        → (u v : Word) → SameClassOf p u v ↔ SameValueOf p u v }
{}
