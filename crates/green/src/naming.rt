// A name for each strongly connected component.
ghost use Rattle.std.specs.Prelude.{◌≡◌, ◌<◌, [], length, IfOk};
ghost use Rattle.theory.specs.Green.{AreConnected, IsEdge};
ghost use Rattle.cayley.specs.Tables.{AreEdges, FitTogether, edge};
ghost use Rattle.green.specs.Naming.{AreNames, AreNamesAlong};
ghost use Rattle.green.specs.Touring.{IsTour, state_at};

use crate::depth_first::DepthFirst;
use crate::edges::{Edges, rows_along};
use froidure_pin::{CayleyTables, Rows};
use ports::NoMemory;
use std::alloc::Global;

// For each number the name of its component in the graph with these rows.
fn names_in(alloc: Global, rows: &Rows, letters: usize) -> Result<Vec<u32>, NoMemory>
    requires { AreEdges letters (length rows.now) rows.now }
    ensures { IfOk result (λ names. AreNames (length rows.now)
        (AreConnected (IsEdge letters (edge rows.now))) names.items) }
{
    let mut search = DepthFirst::new(alloc, rows.len())?;
    for number in 0..rows.len() {
        search.visit(rows, letters, number)?;
    }
    search.names(alloc)
}

// For each number the name of its component. Linear in the number of edges.
pub(crate) fn component_names(
    alloc: Global,
    edges: Edges,
    tables: &CayleyTables,
) -> Result<Vec<u32>, NoMemory>
    requires { FitTogether tables.now }
    ensures { IfOk result (λ names. AreNamesAlong edges tables.now names.items) }
{
    names_in(
        alloc,
        rows_along(edges, tables),
        tables.letters.as_slice().len(),
    )
}
