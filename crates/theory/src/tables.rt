// Tables of low index.
ghost use Rattle.std.specs.Prelude.{◌↔◌, length, ◌≡◌, ℕ, ◌<◌, ◌++◌, Some};
ghost use Rattle.theory.specs.Word.{Word, IsOver};
ghost use Rattle.theory.specs.Facts.{AllDefined};
ghost use Rattle.theory.specs.Congruence.{Presentation, of_presentation};
ghost use Rattle.theory.specs.Chain.{Related};
ghost use Rattle.theory.specs.Graph.{Graph, IsGraph, IsComplete, path, SameEnd};
ghost use Rattle.theory.specs.LowIndex.{Rows, graph_of, IsStandard, IsLowIndex};

/// The path equality of a table is a right congruence, and holds wherever the relations relate
/// words.
pub fn table_is_right_congruence()
    ensures kept { (g : Graph) (node : ℕ) (u v y : Word) → path g node u ≡ path g node v
        → path g node (u ++ y) ≡ path g node (v ++ y) }
    ensures related { (p : Presentation) (n : ℕ) (rows : Rows) → IsLowIndex p n rows
        → (u v : Word) → Related (of_presentation p) u v
        → path (graph_of rows) 0 u ≡ path (graph_of rows) 0 v }
{}

/// There is at most one standard table with given equal paths.
pub fn standard_table_is_one()
    ensures { (k : ℕ) (s t : Rows) → IsStandard k s → IsStandard k t
        → ((u v : Word) → SameEnd (graph_of s) u v ↔ SameEnd (graph_of t) u v) → s ≡ t }
{}

/// In a complete graph each word has a path, and a reached graph where each word has one is
/// complete.
pub fn complete_graphs_define_all()
    ensures defined { (k : ℕ) (g : Graph) → IsGraph k g → IsComplete k g
        → AllDefined k (SameEnd g) }
    ensures complete { (k : ℕ) (g : Graph)
        → ((node : ℕ) → node < length g → (u : Word) × IsOver k u × (path g 0 u ≡ Some node))
        → AllDefined k (SameEnd g) → IsComplete k g }
{}
