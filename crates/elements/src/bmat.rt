// Boolean matrices.
ghost use Rattle.std.specs.Prelude.{◌≡◌, ◌≢◌, ℕ, ◌*◌, ◌^◌, ◌<◌, ◌≤◌, ◌⊎◌, ◌||◌, ◌&&◌, false, IfOk, IsErrOf, IsTrue, ◌↔◌, [], ◌∷◌, length, map, All, MatchOption, codes, fold};
ghost use Rattle.std.specs.List.{join_by};
ghost use Rattle.std.proofs.Common.{rules};
ghost use Rattle.std.specs.Cmp.Rules.{comparing};
ghost use Rattle.std.specs.Ordering.{as_partial_cmp};
ghost use Rattle.elements.specs.Fields.{IsFirstRefused};
ghost use Rattle.elements.specs.Hashes.{bits_number, block_number, bits_hash};
ghost use Rattle.elements.specs.Bits.{bits};
ghost use Rattle.elements.specs.BMat.{IsBooleanMatrix, boolean_product, IsBit, field_of_bit, bit_text};
ghost use Rattle.elements.specs.BMatLaws.{boolean_matrix_eq, boolean_matrix_cmp, boolean_matrix_hash, boolean_matrix_total, boolean_matrix_ties, boolean_matrix_order, boolean_matrix_alike, boolean_products, one_boolean_dimension};

use super::element::Element;
use super::field::{ElementFault, Field};
use super::matrix::{Semiring, multiply, square};
use packed::{packed_product, unpacked};
use ports::NoMemory;
use std::alloc::Global;
use std::cmp::{Ordering, min};
use std::hash::{Hash, Hasher};
use std::marker::Model;
use theory::values::Values;

mod packed;

// A matrix of more than eight rows.
#[derive(Drop)]
struct LongMatrix {
    dimension: u32,
    entries: Vec<bool>,
}

// Up to eight rows are the binary digits of one number, the first entry the highest one. The
// dimension stands before it.
#[derive(Drop)]
enum Form {
    Packed(u32, u64),
    Long(Box<LongMatrix>),
}

/// A square Boolean matrix, row by row (libsemigroups, `BMat` and `BMat8`). Contracts see its
/// dimension n and its entries. Its shape is the dimension.
#[derive(Drop)]
pub struct BMat {
    form: Form,
}

impl Model for BMat {
    ghost use Rattle.elements.specs.BMat.{BooleanMatrix};

    ghost Value = { BooleanMatrix };

    ghost use Rattle.elements.specs.BMatForms.{matrix_of, IsForm};

    ghost view = { λ m. matrix_of m.form };

    ghost invariant = { λ m. IsForm m.form };
}

impl PartialEq for BMat {
    ghost eq = { boolean_matrix_eq };

    ghost laws = { Prim.search (comparing, rules) };

    fn eq(&self, other: &BMat) -> bool {
        match &self.form {
            Form::Packed(n, x) => match &other.form {
                Form::Packed(m, y) => *n == *m && *x == *y,
                Form::Long(_) => false,
            },
            Form::Long(long) => match &other.form {
                Form::Packed(_, _) => false,
                Form::Long(more) => {
                    long.dimension == more.dimension && long.entries == more.entries
                }
            },
        }
    }
}

impl Eq for BMat {
    ghost laws = { Prim.search (comparing, rules) };
}

impl PartialOrd for BMat {
    ghost partial_cmp = { as_partial_cmp boolean_matrix_cmp };

    ghost laws = { boolean_matrix_order };

    fn partial_cmp(&self, other: &BMat) -> Option<Ordering> {
        Some(self.cmp(other))
    }
}

impl Ord for BMat {
    ghost cmp = { boolean_matrix_cmp };

    ghost total = { boolean_matrix_total };

    ghost matches_partial_cmp = { Prim.search (comparing, rules) };

    ghost matches_eq = { boolean_matrix_ties };

    fn cmp(&self, other: &BMat) -> Ordering {
        match &self.form {
            Form::Packed(n, x) => match &other.form {
                Form::Packed(m, y) => n.cmp(m).then(x.cmp(y)),
                Form::Long(_) => Ordering::Less,
            },
            Form::Long(long) => match &other.form {
                Form::Packed(_, _) => Ordering::Greater,
                Form::Long(more) => long
                    .dimension
                    .cmp(&more.dimension)
                    .then(long.entries.cmp(&more.entries)),
            },
        }
    }
}

impl Hash for BMat {
    ghost hash_input = { boolean_matrix_hash };

    ghost respects_eq = { boolean_matrix_alike };

    fn hash<H: Hasher>(&self, state: &mut H) {
        match &self.form {
            Form::Packed(n, x) => hash_packed(*n, *x, state),
            Form::Long(long) => hash_bits(&long.entries, state),
        }
    }
}

impl Values for BMat {
    ghost shape = { λ m. (m.dimension, 0) };

    ghost product = { boolean_product };

    ghost products = { boolean_products };

    fn same_shape(&self, other: &BMat) -> bool {
        self.dimension() == other.dimension()
    }
}

impl Element for BMat {
    ghost one_shape = { one_boolean_dimension };

    fn product(&self, alloc: Global, other: &BMat) -> Result<BMat, NoMemory> {
        match &self.form {
            Form::Packed(n, x) => match &other.form {
                Form::Packed(_, y) => {
                    let form = Form::Packed(*n, packed_product(*n, *x, *y));
                    Ok(BMat { form })
                }
                Form::Long(_) => unreachable!(),
            },
            Form::Long(long) => match &other.form {
                Form::Packed(_, _) => unreachable!(),
                Form::Long(more) => {
                    let dimension = long.dimension;
                    let entries = multiply(
                        alloc,
                        &Booleans,
                        dimension,
                        &long.entries,
                        &more.entries,
                    )?;
                    let form = Form::Long(Box::new(alloc, LongMatrix { dimension, entries })?);
                    Ok(BMat { form })
                }
            },
        }
    }

    fn copy(&self, alloc: Global) -> Result<BMat, NoMemory> {
        match &self.form {
            Form::Packed(n, x) => {
                let form = Form::Packed(*n, *x);
                Ok(BMat { form })
            }
            Form::Long(long) => {
                let dimension = long.dimension;
                let entries = Vec::from_slice(alloc, long.entries.as_slice())?;
                let form = Form::Long(Box::new(alloc, LongMatrix { dimension, entries })?);
                Ok(BMat { form })
            }
        }
    }
}

// The semiring of `or` and `and`.
#[derive(Clone, Copy)]
struct Booleans;

impl Semiring for Booleans {
    type Entry = bool;

    ghost add = { ◌||◌ };

    ghost multiply = { λ unused. ◌&&◌ };

    ghost nothing = { false };

    fn nothing(&self) -> bool {
        false
    }

    fn add_product(&self, sum: bool, p: bool, q: bool) -> bool {
        sum | p & q
    }
}

// Feeds a hasher the one number of up to eight rows, where there is a row.
fn hash_packed<H: Hasher>(n: u32, x: u64, state: &mut H)
    requires few { n ≤ 8 }
    requires below { x < 2 ^ (n * n) }
    ensures { state.new ≡ fold H.write state.old (bits_hash (bits (n * n) x)) }
{
    if 0 < n {
        state.write_u64(x);
    }
}

// Feeds a hasher one number for each 64 bits. The dimension is left out, since the matrices of a
// set have the same one.
fn hash_bits<H: Hasher>(bits: &[bool], state: &mut H)
    ensures { state.new ≡ fold H.write state.old (bits_hash bits.now) }
{
    for k in 0..bits.len().div_ceil(64) {
        state.write_u64(block_at(bits, 64 * k));
    }
}

// The bits from i on as a number, 64 at most.
fn block_at(bits: &[bool], i: usize) -> u64
    requires { i < length bits.now }
    ensures { result ≡ block_number bits.now i }
{
    number_of(&bits[i..min(i + 64, bits.len())])
}

// The last 64 of these bits as a number.
fn number_of(bits: &[bool]) -> u64
    ensures { result ≡ bits_number bits.now }
{
    let mut number = 0;
    for bit in bits {
        number = number << 1 | *bit as u64;
    }
    number
}

// The bit that a field names.
fn bit_of(field: Field) -> Option<bool>
    ensures { MatchOption result (IsBit field → ⊥) (λ b. (field ≡ field_of_bit b) × IsBit field) }
{
    match field {
        Field::Number(0) => Some(false),
        Field::Number(1) => Some(true),
        _ => None,
    }
}

// The digit of a bit.
fn digit_of(bit: bool) -> u8
    ensures { result ∷ [] ≡ bit_text bit }
{
    if bit { b'1' } else { b'0' }
}

// The entries as 0 and 1, with one space between each two.
fn print_bits(alloc: Global, entries: &[bool]) -> Result<Vec<u8>, NoMemory>
    ensures { IfOk result (λ text. text.items ≡ join_by bit_text (codes " ") entries.now) }
{
    let mut text = Vec::new(alloc);
    for (i, bit) in entries.iter().enumerate() {
        if 0 < i {
            text.push(b' ')?;
        }
        text.push(digit_of(*bit))?;
    }
    Ok(text)
}

// The bits that the fields name.
fn read_bits(alloc: Global, fields: &[Field]) -> Result<Vec<bool>, ElementFault>
    ensures entries { IfOk result (λ v. map field_of_bit v.items ≡ fields.now) }
    ensures count { IsErrOf result ElementFault.BadCount → ⊥ }
    ensures good { IfOk result (λ v. All IsBit fields.now) }
    ensures entry { (place : ℕ) → IsErrOf result (ElementFault.BadEntry place)
        → IsFirstRefused IsBit fields.now place }
    ensures refused { (place : ℕ) → IsFirstRefused IsBit fields.now place
        → IsErrOf result (ElementFault.BadEntry place) ⊎ IsErrOf result ElementFault.NoMemory }
    ensures injective { (place : ℕ) → IsErrOf result (ElementFault.NotInjective place) → ⊥ }
{
    let mut entries = Vec::with_capacity(alloc, fields.len())?;
    for (i, field) in fields.iter().enumerate() {
        match bit_of(*field) {
            Some(bit) => entries.push(bit)?,
            None => return Err(ElementFault::BadEntry(i)),
        }
    }
    Ok(entries)
}

// The matrix of these entries, packed if it has up to eight rows.
fn from_entries(alloc: Global, dimension: u32, entries: Vec<bool>) -> Result<BMat, NoMemory>
    requires { length entries.items ≡ dimension * dimension }
    ensures { IfOk result (λ m. (m.dimension ≡ dimension) × (m.entries ≡ entries.items)) }
{
    if dimension <= 8 {
        let form = Form::Packed(dimension, number_of(&entries));
        return Ok(BMat { form });
    }
    let form = Form::Long(Box::new(alloc, LongMatrix { dimension, entries })?);
    Ok(BMat { form })
}

impl BMat {
    /// The number of rows.
    pub fn dimension(&self) -> u32
        ensures dimension { result ≡ self.now.dimension }
        ensures valid { IsBooleanMatrix self.now }
    {
        match &self.form {
            Form::Packed(n, _) => *n,
            Form::Long(long) => long.dimension,
        }
    }

    /// The matrix of this dimension with these entries, row by row. Refused with `BadCount` exactly
    /// where there are not `dimension` times `dimension` entries, then with `BadEntry` at the first
    /// entry that is neither 0 nor 1; never with `NotInjective`.
    pub fn read(alloc: Global, dimension: u32, fields: &[Field]) -> Result<BMat, ElementFault>
        ensures entries { IfOk result (λ m. (m.dimension ≡ dimension)
            × (map field_of_bit m.entries ≡ fields.now)) }
        ensures valid { IfOk result IsBooleanMatrix }
        ensures count { IsErrOf result ElementFault.BadCount
            ↔ (length fields.now ≢ dimension * dimension) }
        ensures entry { (place : ℕ) → IsErrOf result (ElementFault.BadEntry place)
            → (length fields.now ≡ dimension * dimension) × IsFirstRefused IsBit fields.now place }
        ensures refused { (place : ℕ) → length fields.now ≡ dimension * dimension
            → IsFirstRefused IsBit fields.now place
            → IsErrOf result (ElementFault.BadEntry place) ⊎ IsErrOf result ElementFault.NoMemory }
        ensures injective { (place : ℕ) → IsErrOf result (ElementFault.NotInjective place) → ⊥ }
    {
        if fields.len() != square(dimension) {
            return Err(ElementFault::BadCount);
        }
        let entries = read_bits(alloc, fields)?;
        match from_entries(alloc, dimension, entries) {
            Ok(made) => Ok(made),
            Err(_) => Err(ElementFault::NoMemory),
        }
    }

    /// The entries as 0 and 1, row by row, with one space between each two.
    pub fn print(&self, alloc: Global) -> Result<Vec<u8>, NoMemory>
        ensures { IfOk result (λ text. text.items ≡ join_by bit_text (codes " ") self.now.entries) }
    {
        match &self.form {
            Form::Packed(n, x) => print_bits(alloc, &unpacked(alloc, *n * *n, *x)?),
            Form::Long(long) => print_bits(alloc, &long.entries),
        }
    }
}
