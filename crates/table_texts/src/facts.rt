// Laws of tables.
ghost use Rattle.std.specs.Prelude.{◌≡◌, ℕ, ◌<◌, ◌≤◌, List, length, All};
ghost use Rattle.theory.specs.LowIndex.{Rows, graph_of, entries};
ghost use Rattle.word_graph.specs.Table.{HasWidth};
ghost use Rattle.table_texts.specs.TableText.{table_text, table_read, IsFaultless};

/// The text of a table reads as the table: nothing is wrong in it.
pub fn printed_table_is_read()
    ensures read { (k : ℕ) (rows : Rows) → 0 < k → HasWidth k rows → 0 < length rows
        → length rows ≤ 1024 → All (λ m. m < length rows) (entries rows)
        → table_read (table_text (graph_of rows)) ≡ graph_of rows }
    ensures good { (k : ℕ) (rows : Rows) → 0 < k → HasWidth k rows → 0 < length rows
        → length rows ≤ 1024 → All (λ m. m < length rows) (entries rows)
        → IsFaultless k (table_read (table_text (graph_of rows))) }
{}

/// A text in which nothing is wrong is the text of the table that it reads as.
pub fn read_table_is_printed()
    ensures { (k : ℕ) (text : List ℕ) → IsFaultless k (table_read text)
        → table_text (table_read text) ≡ text }
{}
