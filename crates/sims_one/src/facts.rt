// Laws of tables of low index.
ghost use Rattle.std.specs.Prelude.{◌≡◌, ℕ, ◌<◌, List};
ghost use Rattle.theory.specs.Congruence.{Presentation as Relations, AreElements};
ghost use Rattle.theory.specs.Graph.{Graph, PathsRelate};
ghost use Rattle.theory.specs.Listing.{GoesOnOrEnds};
ghost use Rattle.theory.specs.LowIndex.{Rows, graph_of, IsLowIndex, TableLess};
ghost use Rattle.theory.specs.Word.{Word};
ghost use Rattle.sims_one.specs.Graphs.{HasFewClasses, HaveSamePaths, StandsFor};

use theory::predicates::Relation;

/// Each graph that meets the relations at each node and has at most so many classes has the equal
/// paths of one table of the search, and of no other.
pub fn graph_has_one_table()
    ensures exists { (p : Relations) (n : ℕ) (g : Graph) → 0 < p.letters
        → AreElements p.is_monoid p.letters p.relations → StandsFor p n g
        → (rows : Rows) × IsLowIndex p n rows × HaveSamePaths (graph_of rows) g }
    ensures one { (p : Relations) (n : ℕ) (g : Graph) (s t : Rows)
        → IsLowIndex p n s → IsLowIndex p n t
        → HaveSamePaths (graph_of s) g → HaveSamePaths (graph_of t) g → s ≡ t }
{}

/// Each right congruence with at most so many classes is the path equality of a table of the
/// search, so that the search lists all of them (Sims 1994, ch. 5).
pub fn right_congruence_has_a_table<R: Relation>()
    ensures { (p : Relations) (n : ℕ) (elements : List Word)
        → AreElements p.is_monoid p.letters p.relations → HasFewClasses p n R.relates elements
        → (rows : Rows) × IsLowIndex p n rows × PathsRelate (graph_of rows) R.relates }
{}

/// After each cursor comes a next table of low index, or none.
pub fn tables_go_on()
    ensures { (p : Relations) (n : ℕ) → 0 < p.letters → GoesOnOrEnds (IsLowIndex p n) TableLess }
{}
