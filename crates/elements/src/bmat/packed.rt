// Boolean matrices of up to eight rows as the binary digits of one number, the first entry the
// highest one.
ghost use Rattle.std.specs.Prelude.{◌≡◌, ◌*◌, ◌+◌, ◌<◌, ◌≤◌, ◌^◌, ◌||◌, ◌&&◌, ◌==◌, false, IfOk, length};
ghost use Rattle.std.specs.Int.{bit_at};
ghost use Rattle.std.specs.List.{between};
ghost use Rattle.elements.specs.Bits.{bits, column_of_ones};
ghost use Rattle.elements.specs.Matrix.{matrix_product};

use ports::NoMemory;
use std::alloc::Global;

// The binary digit at a place, counted from the right.
fn is_set(x: u64, place: u32) -> bool
    requires { place < 64 }
    ensures { result ≡ (bit_at x place == 1) }
{
    x >> place & 1 == 1
}

// The last `count` binary digits.
pub(crate) fn unpacked(alloc: Global, count: u32, x: u64) -> Result<Vec<bool>, NoMemory>
    requires { count ≤ 64 }
    ensures { IfOk result (λ v. v.items ≡ bits count x) }
{
    let mut entries = Vec::with_capacity(alloc, count as usize)?;
    for i in 0..count {
        entries.push(is_set(x, count - 1 - i))?;
    }
    Ok(entries)
}

// A row of a matrix of n rows.
fn row_at(n: u32, x: u64, i: u32) -> u64
    requires few { n ≤ 8 }
    requires row { i < n }
    ensures row { bits n result ≡ between (i * n) (i * n + n) (bits (n * n) x) }
    ensures below { result < 2 ^ n }
{
    x >> (n * (n - 1 - i)) & ((1 << n) - 1)
}

// The matrix of n rows whose last column is ones, and all else zeros.
fn last_column(n: u32) -> u64
    requires { n ≤ 8 }
    ensures { result ≡ column_of_ones n n }
{
    let mut ones = 0;
    for _ in 0..n {
        ones = ones << n | 1;
    }
    ones
}

// The product of two matrices of n rows: the sum of each column of the left one times the row of
// the right one at the same place.
pub(crate) fn packed_product(n: u32, left: u64, right: u64) -> u64
    requires few { n ≤ 8 }
    ensures product { bits (n * n) result ≡ matrix_product ◌||◌ ◌&&◌ false n
        (bits (n * n) left) (bits (n * n) right) }
    ensures below { result < 2 ^ (n * n) }
{
    let ones = last_column(n);
    let mut product = 0;
    for k in 0..n {
        let column = left >> (n - 1 - k) & ones;
        product |= column * row_at(n, right, k);
    }
    product
}
