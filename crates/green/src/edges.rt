// Edges of Cayley graphs.
ghost use Rattle.std.specs.Prelude.{◌≡◌};
ghost use Rattle.green.specs.EdgeRows.{rows_along};

use froidure_pin::{CayleyTables, Rows};

// Which edges are followed: those of the right Cayley graph, or of the left one.
#[derive(Clone, Copy)]
pub enum Edges {
    Right,
    Left,
}

// The rows of these edges.
pub(crate) fn rows_along(edges: Edges, tables: &CayleyTables) -> &Rows
    ensures { result.now ≡ rows_along edges tables.now }
{
    match edges {
        Edges::Right => &tables.right,
        Edges::Left => &tables.left,
    }
}
