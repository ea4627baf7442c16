// Products of square matrices over a semiring, row by row.
ghost use Rattle.std.specs.Prelude.{◌≡◌, ◌*◌, ◌<◌, ◌++◌, IfOk, OnOk, length, map};
ghost use Rattle.std.specs.List.{range_with_len};
ghost use Rattle.elements.specs.Matrix.{row_by_column, matrix_product};

use ports::NoMemory;
use std::alloc::Global;

// A semiring, as far as products of matrices need it.
pub(crate) trait Semiring {
    type Entry: Copy;

    // The sum of two entries.
    ghost add: { Self.Entry → Self.Entry → Self.Entry };

    // The product of two entries.
    ghost multiply: { Self → Self.Entry → Self.Entry → Self.Entry };

    // The entry that adds nothing.
    ghost nothing: { Self.Entry };

    fn nothing(&self) -> Self::Entry
        ensures { result ≡ nothing };

    // A sum with the product of p and q.
    fn add_product(&self, sum: Self::Entry, p: Self::Entry, q: Self::Entry) -> Self::Entry
        ensures { result ≡ add sum (multiply self.now p q) };
}

// The number of places in a matrix of this dimension.
pub(crate) fn square(dimension: u32) -> usize
    ensures { result ≡ dimension * dimension }
{
    dimension as usize * dimension as usize
}

// The product of two matrices.
pub(crate) fn multiply<S: Semiring>(
    alloc: Global,
    semiring: &S,
    dimension: u32,
    left: &[S::Entry],
    right: &[S::Entry],
) -> Result<Vec<S::Entry>, NoMemory>
    requires left { length left.now ≡ dimension * dimension }
    requires right { length right.now ≡ dimension * dimension }
    ensures { IfOk result (λ v. v.items ≡ matrix_product S.add (S.multiply semiring.now) S.nothing
        dimension left.now right.now) }
{
    let length = dimension as usize;
    let mut product = Vec::with_capacity(alloc, square(dimension))?;
    for i in 0..length {
        let start = i * length;
        push_row(semiring, &mut product, &left[start..start + length], right)?;
    }
    Ok(product)
}

// Adds a row of the product, from that row of the left matrix.
fn push_row<S: Semiring>(
    semiring: &S,
    product: &mut Vec<S::Entry>,
    row: &[S::Entry],
    right: &[S::Entry],
) -> Result<(), NoMemory>
    requires { length right.now ≡ length row.now * length row.now }
    ensures { OnOk result (product.new.items ≡ product.old.items
        ++ map (row_by_column S.add (S.multiply semiring.now) S.nothing row.now right.now)
        (range_with_len 0 (length row.now))) }
{
    for j in 0..row.len() {
        product.push(entry_of(semiring, row, right, j))?;
    }
    Ok(())
}

// A row of the left matrix times a column of the right one.
fn entry_of<S: Semiring>(
    semiring: &S,
    row: &[S::Entry],
    right: &[S::Entry],
    column: usize,
) -> S::Entry
    requires right { length right.now ≡ length row.now * length row.now }
    requires column { column < length row.now }
    ensures { result ≡ row_by_column S.add (S.multiply semiring.now) S.nothing row.now right.now
        column }
{
    let mut sum = semiring.nothing();
    for (k, p) in row.iter().enumerate() {
        let place = k * row.len() + column;
        sum = semiring.add_product(sum, *p, right[place]);
    }
    sum
}
