// What partial tables know, and the stages of Felsch and of Haselgrove, Leech and Trotter.
ghost use Rattle.std.specs.Prelude.{◌≡◌, ℕ, suc, ◌<◌, ◌≤◌, ◌⊎◌, ◌↔◌, IsTrue, List, [], ◌∷◌, length, Contains};
ghost use Rattle.theory.specs.Word.{Word, IsOver, IsPrefix};
ghost use Rattle.theory.specs.Congruence.{Congruence, IsWellFormed, IsRightSided, as_right, as_right_word};
ghost use Rattle.theory.specs.Chain.{Related};
ghost use Rattle.theory.specs.Facts.{Facts, HasFacts, Defines, Merged, ClosedAt, ClosedAll, AllDefined};
ghost use Rattle.theory.specs.Felsch.{FelschFacts, FelschStage, FelschEnds};
ghost use Rattle.theory.specs.Hlt.{HltFacts, HltDefines, lookahead_rows, has_lookahead, FactsFrom, Drawn, IsMet, HltStage, AllMet, HasEnded, HltEnds};
ghost use Rattle.theory.specs.Graph.{Graph, SameEnd, PathsRelate, IsModel};

use crate::predicates::{Relation, Words};

/// The facts are the least relation that has its parts.
pub fn facts_are_least<D: Words, U: Words, V: Relation>()
    ensures parts { (c : Congruence) → HasFacts c D.has U.has (Facts c D.has U.has) }
    ensures least { (c : Congruence) → HasFacts c D.has U.has V.relates → (u v : Word)
        → Facts c D.has U.has u v → V.relates u v }
{}

/// The facts grow with the words that are defined, and with those at which relations are read.
pub fn facts_grow<D: Words, U: Words, E: Words, X: Words>()
    ensures { (c : Congruence) → ((w : Word) → D.has w → E.has w) → ((w : Word) → U.has w → X.has w)
        → (u v : Word) → Facts c D.has U.has u v → Facts c E.has X.has u v }
{}

/// So they grow from stage to stage of each strategy.
pub fn stages_grow()
    ensures felsch { (c : Congruence) (D : List Word) (w u v : Word) → FelschFacts c D u v
        → FelschFacts c (w ∷ D) u v }
    ensures hlt { (c : Congruence) (U : List Word) (w u v : Word) → HltFacts c U u v
        → HltFacts c (w ∷ U) u v }
{}

/// Whatever is a fact, the paths of each graph that is a model relate.
pub fn facts_hold_in_models<D: Words, U: Words>()
    ensures { (c : Congruence) (g : Graph) → IsModel c D.has U.has g → (u v : Word)
        → Facts c D.has U.has u v → SameEnd g u v }
{}

/// The facts of a right-sided congruence lie within it.
pub fn facts_are_related<D: Words, U: Words>()
    ensures { (c : Congruence) → IsRightSided c → (u v : Word) → Facts c D.has U.has u v
        → Related c u v }
{}

/// So do those of each stage of each strategy.
pub fn stages_are_related()
    ensures felsch { (c : Congruence) (D : List Word) → IsRightSided c → (u v : Word)
        → FelschFacts c D u v → Related c u v }
    ensures hlt { (c : Congruence) (U : List Word) → IsRightSided c → (u v : Word)
        → HltFacts c U u v → Related c u v }
{}

/// Each stage of Felsch's strategy is determined, and a larger budget suffices where a smaller one
/// does. That a budget does not suffice is shown by one stage more, or by a word that is undefined
/// at the last.
pub fn felsch_stage_is_one()
    ensures one { (c : Congruence) (i : ℕ) (D D' : List Word) → FelschStage c i D
        → FelschStage c i D' → D ≡ D' }
    ensures more { (c : Congruence) (n m : ℕ) → n ≤ m → FelschEnds c n → FelschEnds c m }
    ensures past { (c : Congruence) (n : ℕ) (D : List Word) → FelschStage c (suc n) D
        → FelschEnds c n → ⊥ }
    ensures fails { (c : Congruence) (n : ℕ) (D : List Word) (w : Word) → FelschStage c n D
        → IsOver c.presentation.letters w
        → (FelschFacts c D w w → ⊥) → FelschEnds c n → ⊥ }
{}

/// Where all words are defined, the facts are exactly the congruence, and the finitely many words
/// that were defined cover its classes.
pub fn felsch_is_complete()
    ensures related { (c : Congruence) (D : List Word) → IsWellFormed c → IsRightSided c
        → AllDefined c.presentation.letters (FelschFacts c D)
        → (u v : Word) → IsOver c.presentation.letters u → FelschFacts c D u v ↔ Related c u v }
    ensures finite { (c : Congruence) (D : List Word) → IsRightSided c
        → AllDefined c.presentation.letters (FelschFacts c D)
        → (u : Word) → IsOver c.presentation.letters u
        → (w : Word) × Contains ([] ∷ D) w × Related c u w }
{}

/// Each stage of the strategy of rows is determined, and a larger budget suffices where a smaller
/// one does; no rows never suffice. A budget does not suffice where no less one does and its own
/// stage has not ended: a defined word is related to none that had its row, and if a lookahead has
/// come, not all words are defined. Where there is a stage past a budget that suffices, a lookahead
/// has ended it.
pub fn hlt_stage_is_one()
    ensures one { (c : Congruence) (i : ℕ) (U U' : List Word) → HltStage c i U → HltStage c i U'
        → U ≡ U' }
    ensures more { (c : Congruence) (m n : ℕ) → m ≤ n → HltEnds c m → HltEnds c n }
    ensures past { (c : Congruence) (m : ℕ) (U : List Word) → HltStage c (suc m) U
        → (ends : HltEnds c m) → IsTrue (has_lookahead (length ends.words))
        × AllDefined c.presentation.letters (HltFacts c ends.words) }
    ensures next { (c : Congruence) (m : ℕ) (U : List Word) → ((i : ℕ) → i < m → HltEnds c i → ⊥)
        → HltStage c m U → (HasEnded c U → ⊥) → HltEnds c m → ⊥ }
    ensures fails { (c : Congruence) (i : ℕ) (U : List Word) (w : Word) → HltStage c i U
        → HltFacts c U w w → (IsMet (HltFacts c U) U w → ⊥)
        → (IsTrue (has_lookahead i) → AllDefined c.presentation.letters (HltFacts c U) → ⊥)
        → HasEnded c U → ⊥ }
    ensures none { (c : Congruence) → HltEnds c 0 → ⊥ }
{}

/// Where the strategy of rows has ended, all words are defined, the facts are exactly the
/// congruence, and finitely many words cover its classes; those with a row do if every defined word
/// is related to one.
pub fn hlt_is_complete()
    ensures defined { (c : Congruence) (U : List Word) → HasEnded c U
        → AllDefined c.presentation.letters (HltFacts c U) }
    ensures related { (c : Congruence) (U : List Word) → IsWellFormed c → IsRightSided c
        → HasEnded c U
        → (u v : Word) → IsOver c.presentation.letters u → HltFacts c U u v ↔ Related c u v }
    ensures finite { (c : Congruence) (U : List Word) → IsRightSided c → HasEnded c U
        → (words : List Word) × ((u : Word) → IsOver c.presentation.letters u
        → (w : Word) × Contains words w × Related c u w) }
    ensures rows { (c : Congruence) (U : List Word) → IsRightSided c → AllMet c U
        → (u : Word) → IsOver c.presentation.letters u → (w : Word) × Contains U w × Related c u w }
{}

/// Closing a graph that has the definitions and nothing but facts gives the facts.
pub fn felsch_closes()
    ensures { (c : Congruence) (D : List Word) (g : Graph)
        → ((u v : Word) → Defines (Contains D) u v → SameEnd g u v)
        → ((u v : Word) → SameEnd g u v → FelschFacts c D u v)
        → (u v : Word) → ClosedAll c (SameEnd g) u v ↔ FelschFacts c D u v }
{}

/// A definition and closing give the facts of the next stage of Felsch's strategy.
pub fn felsch_goes_on()
    ensures { (c : Congruence) (D : List Word) (w u v : Word)
        → ClosedAll c (Merged (FelschFacts c D) w w) u v ↔ FelschFacts c (w ∷ D) u v }
{}

/// Closing at the word of a row alone gives the facts after the row, before a lookahead.
pub fn hlt_row_closes()
    ensures { (c : Congruence) (U : List Word) (w : Word) (g : Graph)
        → ((u v : Word) → HltFacts c U u v ⊎ Defines (HltDefines c (w ∷ U)) u v → SameEnd g u v)
        → ((u v : Word) → SameEnd g u v → FactsFrom c (Drawn c U) (w ∷ U) u v)
        → (u v : Word) → ClosedAt c (SameEnd g) w u v ↔ FactsFrom c (Drawn c U) (w ∷ U) u v }
{}

/// Where no lookahead comes after the row, these are the facts of the stage; where one comes,
/// closing everywhere gives them. Before the first one they are those of the rows alone.
pub fn hlt_looks_ahead()
    ensures none { (c : Congruence) (U : List Word) (w : Word)
        → (IsTrue (has_lookahead (suc (length U))) → ⊥)
        → (u v : Word) → FactsFrom c (Drawn c U) (w ∷ U) u v ↔ HltFacts c (w ∷ U) u v }
    ensures drawn { (c : Congruence) (U : List Word) (w : Word) (g : Graph)
        → IsTrue (has_lookahead (suc (length U))) → PathsRelate g (FactsFrom c (Drawn c U) (w ∷ U))
        → (u v : Word) → ClosedAll c (SameEnd g) u v ↔ HltFacts c (w ∷ U) u v }
    ensures first { (c : Congruence) (U : List Word) → length U < lookahead_rows
        → (u v : Word) → HltFacts c U u v ↔ Facts c (HltDefines c U) (Contains U) u v }
{}

/// A graph whose paths are the facts where a strategy ends decides the congruence, whatever its
/// kind.
pub fn graphs_decide()
    ensures felsch { (c : Congruence) (D : List Word) (g : Graph) → IsWellFormed c
        → AllDefined (as_right c).presentation.letters (FelschFacts (as_right c) D)
        → PathsRelate g (FelschFacts (as_right c) D) → (u v : Word)
        → IsOver (as_right c).presentation.letters (as_right_word c u)
        → Related c u v ↔ SameEnd g (as_right_word c u) (as_right_word c v) }
    ensures hlt { (c : Congruence) (U : List Word) (g : Graph) → IsWellFormed c
        → HasEnded (as_right c) U
        → PathsRelate g (HltFacts (as_right c) U) → (u v : Word)
        → IsOver (as_right c).presentation.letters (as_right_word c u)
        → Related c u v ↔ SameEnd g (as_right_word c u) (as_right_word c v) }
{}

/// At each stage of both strategies the prefixes of defined words are defined.
pub fn prefixes_are_defined()
    ensures felsch { (c : Congruence) (i : ℕ) (D : List Word) → FelschStage c i D → (u p : Word)
        → FelschFacts c D u u → IsPrefix p u
        → FelschFacts c D p p }
    ensures hlt { (c : Congruence) (i : ℕ) (U : List Word) → HltStage c i U → (u p : Word)
        → HltFacts c U u u → IsPrefix p u → HltFacts c U p p }
{}
