// What the relations of an identity, of a zero and of inverse letters say.
ghost use Rattle.std.specs.Prelude.{◌≡◌, ◌≢◌, ℕ, ◌<◌, List, [], ◌∷◌, ◌++◌, Option, option_to_list};
ghost use Rattle.theory.specs.Word.{Word, IsOver};
ghost use Rattle.theory.specs.Congruence.{Presentation, of_presentation, with_relations};
ghost use Rattle.theory.specs.Chain.{Related};
ghost use Rattle.presentation.specs.Added.{HasRelations, identity_relations, zero_relations, inverse_relations};

/// Where each letter has the relations of an identity, the letter may be put behind or before each
/// word that is not empty.
pub fn identity_relations_make_an_identity()
    ensures behind { (p : Presentation) (e : ℕ) → HasRelations p (identity_relations p.letters e)
        → (u : Word) → u ≢ [] → IsOver p.letters u
        → Related (of_presentation p) (u ++ e ∷ []) u }
    ensures before { (p : Presentation) (e : ℕ) → HasRelations p (identity_relations p.letters e)
        → (u : Word) → u ≢ [] → IsOver p.letters u
        → Related (of_presentation p) (e ∷ u) u }
{}

/// Where each letter has the relations of a zero, each product with the letter is related to it.
pub fn zero_relations_make_a_zero()
    ensures behind { (p : Presentation) (z : ℕ) → HasRelations p (zero_relations p.letters z)
        → (u : Word) → IsOver p.letters u
        → Related (of_presentation p) (u ++ z ∷ []) (z ∷ []) }
    ensures before { (p : Presentation) (z : ℕ) → HasRelations p (zero_relations p.letters z)
        → (u : Word) → IsOver p.letters u
        → Related (of_presentation p) (z ∷ u) (z ∷ []) }
{}

/// Where two letters have the relations of inverse letters, both products are related to the letter
/// that is given, or to the empty word.
pub fn inverse_relations_make_inverses()
    ensures product { (p : Presentation) (x y : ℕ) (e : Option ℕ)
        → HasRelations p (inverse_relations x y e)
        → Related (of_presentation p) (x ∷ y ∷ []) (option_to_list e) }
    ensures exchanged { (p : Presentation) (x y : ℕ) (e : Option ℕ)
        → HasRelations p (inverse_relations x y e)
        → Related (of_presentation p) (y ∷ x ∷ []) (option_to_list e) }
{}

/// A presentation with more relations has these, and those that it had.
pub fn further_relations_are_had()
    ensures further { (p : Presentation) (pairs : List (Word × Word))
        → HasRelations (with_relations p pairs) pairs }
    ensures earlier { (p : Presentation) (pairs more : List (Word × Word))
        → HasRelations p pairs → HasRelations (with_relations p more) pairs }
{}
