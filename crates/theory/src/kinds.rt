// Each kind of congruence as one of another kind.
ghost use Rattle.std.specs.Prelude.{List, [], ◌↔◌, reverse};
ghost use Rattle.theory.specs.Word.{Word};
ghost use Rattle.theory.specs.Congruence.{Presentation, Congruence, IsWellFormed, IsTwoSided, IsRightSided, of_presentation, with_relations, read_backwards, as_right, as_right_word};
ghost use Rattle.theory.specs.Chain.{Related};
ghost use Rattle.theory.specs.declared.Kind.TheVariants.{Left};

/// The pairs of a two-sided congruence are relations.
pub fn pairs_are_relations()
    ensures related { (c : Congruence) → IsTwoSided c → (u v : Word)
        → Related c u v ↔ Related (of_presentation (with_relations c.presentation c.pairs)) u v }
    ensures elements { (c : Congruence) → IsWellFormed c
        → IsWellFormed (of_presentation (with_relations c.presentation c.pairs)) }
{}

/// A left congruence is the right congruence of the reversed presentation and the reversed pairs,
/// on reversed words.
pub fn left_is_right_reversed()
    ensures { (p : Presentation) (pairs : List (Word × Word)) (u v : Word)
        → let c : Congruence = record { presentation = p; kind = Left; pairs = pairs } in
        Related c u v ↔ Related (read_backwards c) (reverse u) (reverse v) }
{}

/// A congruence relates two words exactly where the right congruence that stands for it relates the
/// words that stand for them.
pub fn each_kind_is_right()
    ensures related { (c : Congruence) (u v : Word)
        → Related c u v ↔ Related (as_right c) (as_right_word c u) (as_right_word c v) }
    ensures sided { (c : Congruence) → IsRightSided (as_right c) }
    ensures elements { (c : Congruence) → IsWellFormed c → IsWellFormed (as_right c) }
{}
