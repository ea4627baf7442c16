// Complete word graphs as texts.
ghost use Rattle.std.specs.Prelude.{◌≡◌, ℕ, ◌≤◌, IfOk, OnOk, IsErrOf};
ghost use Rattle.theory.specs.Graph.{IsGraph};
ghost use Rattle.table_texts.specs.TableText.{table_text, table_read, IsFaultless, IsLeastFault};

use crate::fault::TableFault;
use crate::texts::{print_row, read_rows, rows_of};
use ports::NoMemory;
use std::alloc::Global;
use word_graph::{MOST_LETTERS, WordGraph};

/// The targets in decimal, with a comma between each two of a row, and a slash between each two
/// rows. Refused only where memory is wanting.
pub fn print_table(graph: &WordGraph, alloc: Global) -> Result<Vec<u8>, NoMemory>
    ensures { IfOk result (λ text. text.items ≡ table_text graph.now) }
{
    let mut text = Vec::new(alloc);
    for node in 0..graph.nodes() {
        if 0 < node {
            text.push(b'/')?;
        }
        let printed = print_row(alloc, graph.rows().row(node))?;
        text.extend_from_slice(printed.as_slice())?;
    }
    Ok(text)
}

/// The complete graph of so many letters that a text prints. Refused with `BadTable` exactly
/// where something is wrong in the text, with the least place at which something is; else only
/// where memory is wanting.
pub fn read_table(alloc: Global, letters: usize, text: &[u8]) -> Result<WordGraph, TableFault>
    requires { letters ≤ MOST_LETTERS }
    ensures ok { IfOk result (λ g. g ≡ table_read text.now) }
    ensures graph { IfOk result (λ g. IsGraph letters g) }
    ensures good { OnOk result (IsFaultless letters (table_read text.now)) }
    ensures bad { (place : ℕ) → IsErrOf result (TableFault.BadTable place)
        → IsLeastFault letters (table_read text.now) place }
{
    let pieces = rows_of(alloc, text)?;
    match read_rows(alloc, letters, pieces.as_slice()) {
        Ok(entries) => Ok(WordGraph::of_entries(pieces.len(), letters, entries)),
        Err(fault) => return Err(fault),
    }
}
