// A table read out.
ghost use Rattle.std.specs.Prelude.{◌≡◌, ◌+◌, ◌*◌, ◌≤◌, length, IfOk};
ghost use Rattle.froidure_pin.specs.Found.{entry};
ghost use Rattle.froidure_pin.specs.Numbering.{IsRowBy};

use super::lists::{Numbers, Rows, Words};
use super::rows::entry;
use ports::NoMemory;
use std::alloc::Global;

/// The words of a table, its right and its left Cayley graph, and the numbers of its letters. A
/// graph has a row for each element, and in it a number for each letter.
#[derive(Drop)]
pub struct CayleyTables {
    pub words: Words,
    pub right: Rows,
    pub left: Rows,
    pub letters: Numbers,
}

// The row of a parent.
pub(crate) fn row_of(
    alloc: Global,
    letters: usize,
    numbers: &Vec<u32>,
    parent: usize,
) -> Result<Numbers, NoMemory>
    requires { (parent + 1) * letters ≤ length numbers.now.items }
    ensures { IfOk result (λ row. IsRowBy letters (entry letters numbers.now.items parent) row) }
{
    let mut row = Vec::new(alloc);
    for letter in 0..letters {
        row.push(entry(numbers, letters, parent, letter))?;
    }
    Ok(Numbers::from_vec(row))
}
