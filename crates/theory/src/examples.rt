// Small examples, as theorems.
ghost use Rattle.std.specs.Prelude.{◌≡◌, ◌⊎◌, ◌↔◌, ℕ, nat_eq, [], ◌∷◌, reverse};
ghost use Rattle.std.specs.declared.cmp.Ordering.TheVariants.{Less, Equal, Greater};
ghost use Rattle.theory.specs.Word.{Word};
ghost use Rattle.theory.specs.ShortLex.{shortlex};
ghost use Rattle.theory.specs.Congruence.{as_right, as_right_word};
ghost use Rattle.theory.specs.Value.{value, SameElement};
ghost use Rattle.theory.specs.declared.Kind.TheVariants.{TwoSided, Right, Left};
ghost use Rattle.theory.specs.Listing.{IsListOf};
ghost use Rattle.theory.specs.Class.{SameClass, IsLeast, IsNormal, IsClassList, HasIndex, IsInfinite};
ghost use Rattle.theory.specs.Facts.{AllDefined};
ghost use Rattle.theory.specs.Felsch.{FelschFacts, FelschStage, FelschEnds};
ghost use Rattle.theory.specs.Hlt.{HltFacts, HltStage, HltEnds};
ghost use Rattle.theory.specs.Completion.{Rule, Listed, CompletionEnds};
ghost use Rattle.theory.specs.Graph.{PathsRelate};
ghost use Rattle.theory.specs.LowIndex.{graph_of, IsLowIndex, TableLess};
ghost use Rattle.theory.specs.Lattice.{Meet, Join};
ghost use Rattle.theory.specs.TwoSidedTable.{IsTwoSidedTable};
ghost use Rattle.theory.specs.Examples.{a1, a2, a3, order_three, cyclic, aba, bab, braid, b1, ab, ba, right_pair, left_pair, left_four, semilattice, free_one, point_rows, swap_rows, tail_rows, composed, three_maps, band_value, band_pair, tail_swap_rows, right_pair_rows, bicyclic_right, power};
ghost use Rattle.theory.specs.Marked.{marked};

/// The shorter word is less; words of one length compare letter by letter.
pub fn shortlex_of_words()
    ensures shorter { shortlex (1 ∷ []) (0 ∷ 0 ∷ []) ≡ Less }
    ensures letters { shortlex (1 ∷ 0 ∷ []) (0 ∷ 1 ∷ []) ≡ Greater }
    ensures equal { shortlex (1 ∷ 0 ∷ []) (1 ∷ 0 ∷ []) ≡ Equal }
{}

/// With aaa related to 1, Felsch's strategy defines a and then aa. At the start 1 alone is defined,
/// then 1 and a, and then all words, since aaa is related to 1.
pub fn felsch_stages()
    ensures first { FelschStage cyclic 1 (a1 ∷ []) }
    ensures second { FelschStage cyclic 2 (a2 ∷ a1 ∷ []) }
    ensures at_start { (u : Word) → FelschFacts cyclic [] u u → u ≡ [] }
    ensures after_one { (u : Word) → FelschFacts cyclic (a1 ∷ []) u u → (u ≡ []) ⊎ (u ≡ a1) }
    ensures closed { FelschFacts cyclic (a2 ∷ a1 ∷ []) [] a3 }
    ensures after_two { AllDefined 1 (FelschFacts cyclic (a2 ∷ a1 ∷ [])) }
{}

/// So two definitions suffice, and one does not.
pub fn two_definitions()
    ensures enough { FelschEnds cyclic 2 }
    ensures needed { FelschEnds cyclic 1 → ⊥ }
{}

/// The rows are those of 1, a and aa. Before the first 1 alone is defined, after it all words.
pub fn hlt_stages()
    ensures first { HltStage cyclic 1 ([] ∷ []) }
    ensures second { HltStage cyclic 2 (a1 ∷ [] ∷ []) }
    ensures third { HltStage cyclic 3 (a2 ∷ a1 ∷ [] ∷ []) }
    ensures at_start { (u : Word) → HltFacts cyclic [] u u → u ≡ [] }
    ensures after_one { AllDefined 1 (HltFacts cyclic ([] ∷ [])) }
{}

/// Three rows suffice, and two do not.
pub fn three_rows()
    ensures enough { HltEnds cyclic 3 }
    ensures needed { HltEnds cyclic 2 → ⊥ }
{}

/// Its classes are those of 1, a and aa.
pub fn three_classes()
    ensures list { IsClassList (SameClass cyclic) ([] ∷ a1 ∷ a2 ∷ []) }
    ensures index { HasIndex (SameClass cyclic) 3 }
{}

/// Completion ends at length three, with the one rule aaa to 1, and not at two.
pub fn length_three()
    ensures enough { CompletionEnds order_three 3 }
    ensures needed { CompletionEnds order_three 2 → ⊥ }
    ensures rule { (u v : Word) → Rule order_three 3 u v → (u ≡ a3) × (v ≡ []) }
{}

/// With aa and a, bb and b, ab and ba related, completion ends at length two, with the rules aa to
/// a, ba to ab and bb to b, and not at one.
pub fn length_two()
    ensures enough { CompletionEnds semilattice 2 }
    ensures needed { CompletionEnds semilattice 1 → ⊥ }
    ensures rules { (u v : Word) → Listed ((a2, a1) ∷ (ba, ab) ∷ (1 ∷ 1 ∷ [], b1) ∷ []) u v
        ↔ Rule semilattice 2 u v }
{}

/// With aba and bab related, the one rule at length three is bab to aba, and completion does not
/// end: the overlap babab leads to two words.
pub fn braid_does_not_end()
    ensures rules { (u v : Word) → Listed ((bab, aba) ∷ []) u v ↔ Rule braid 3 u v }
    ensures fails { CompletionEnds braid 3 → ⊥ }
{}

/// In the group with aa, bbb and abab related to 1 and the right pair a, 1 the classes are those of
/// 1, b and ba.
pub fn classes_with_right_pair()
    ensures list { IsClassList (SameClass right_pair) ([] ∷ b1 ∷ ba ∷ []) }
    ensures index { HasIndex (SameClass right_pair) 3 }
{}

/// With the left pair a, 1 they are those of 1, b and ab.
pub fn classes_with_left_pair()
    ensures list { IsClassList (SameClass left_pair) ([] ∷ b1 ∷ ab ∷ []) }
    ensures index { HasIndex (SameClass left_pair) 3 }
{}

/// The least words of a left congruence are not the least words of the right congruence that stands
/// for it, read backwards: there ab is the least word for ab, which backwards is ba, and ba is not
/// least.
pub fn least_words_are_not_reversed()
    ensures list { IsClassList (SameClass left_four) ([] ∷ a1 ∷ b1 ∷ ab ∷ []) }
    ensures there { IsNormal (SameClass (as_right left_four)) (as_right_word left_four ab) ab }
    ensures backwards { reverse ab ≡ ba }
    ensures here { IsLeast (SameClass left_four) ba → ⊥ }
{}

/// A ring of three nodes is a table with aaa related to 1.
pub fn ring_of_three()
    ensures { IsLowIndex order_three 3 ((1 ∷ []) ∷ (2 ∷ []) ∷ (0 ∷ []) ∷ []) }
{}

/// The free monoid with one generator has three tables of at most two nodes, in this order.
pub fn free_tables()
    ensures { IsListOf (IsLowIndex free_one 2) TableLess None
        (point_rows ∷ swap_rows ∷ tail_rows ∷ []) }
{}

/// The value of a word is its generators' product from left to right.
pub fn value_of_two_maps()
    ensures ab { value composed three_maps [] (0 ∷ 1 ∷ []) ≡ 2 ∷ 1 ∷ 0 ∷ [] }
    ensures aaa { value composed three_maps [] (0 ∷ 0 ∷ 0 ∷ []) ≡ 1 ∷ 0 ∷ 2 ∷ [] }
{}

/// On a band of four elements the pair a, ab relates b and ba as a left pair and as a two-sided
/// one, and not as a right pair; it never relates a and b.
pub fn pairs_on_a_band()
    ensures left { SameElement 2 nat_eq band_value Left band_pair b1 ba }
    ensures two_sided { SameElement 2 nat_eq band_value TwoSided band_pair b1 ba }
    ensures right { SameElement 2 nat_eq band_value Right band_pair b1 ba → ⊥ }
    ensures apart { SameElement 2 nat_eq band_value TwoSided band_pair a1 b1 → ⊥ }
{}

/// In the free monoid with one generator the meet of a swap and a tail is a swap behind a tail, and
/// their join relates all words.
pub fn meet_and_join_of_two_tables()
    ensures meet { PathsRelate (graph_of tail_swap_rows)
        (Meet (graph_of swap_rows) (graph_of tail_rows)) }
    ensures join { PathsRelate (graph_of point_rows)
        (Join 1 (graph_of swap_rows) (graph_of tail_rows)) }
{}

/// The table of a right pair that is not two-sided: 1 and a lead from the root to one node, and not
/// from that of b.
pub fn right_pair_is_not_two_sided()
    ensures { IsTwoSidedTable (graph_of right_pair_rows) → ⊥ }
{}

/// Where bc is 1 and c is related to 1 on the right, the marked presentation is completed at length
/// two, and not at one. The least words are the powers of b, so there are infinitely many classes.
pub fn right_pair_completed()
    ensures enough { CompletionEnds (marked bicyclic_right) 2 }
    ensures needed { CompletionEnds (marked bicyclic_right) 1 → ⊥ }
    ensures least { (u : Word) → IsLeast (SameClass bicyclic_right) u ↔ ((n : ℕ) × (u ≡ power n)) }
    ensures infinite { IsInfinite (SameClass bicyclic_right) }
{}
