// Truncated max-plus matrices.
ghost use Rattle.std.specs.Prelude.{◌≡◌, ◌≢◌, ℕ, ◌+◌, ◌*◌, ◌<◌, ◌⊎◌, None, IfOk, IsErrOf, IsTrue, ◌↔◌, length, map, codes};
ghost use Rattle.std.specs.List.{join_by};
ghost use Rattle.std.proofs.Common.{rules};
ghost use Rattle.std.specs.Cmp.Rules.{comparing};
ghost use Rattle.std.specs.Ordering.{as_partial_cmp};
ghost use Rattle.elements.specs.Fields.{field_of, IsBelowOrDash, IsFirstRefused, decimal_or_dash};
ghost use Rattle.elements.specs.MaxPlus.{IsTruncatedMatrix, greater_of, truncated_sum, truncated_product};
ghost use Rattle.elements.specs.MaxPlusLaws.{truncated_matrix_eq, truncated_matrix_cmp, truncated_matrix_hash, truncated_matrix_equivalence, truncated_matrix_partial_equivalence, truncated_matrix_total, truncated_matrix_ties, truncated_matrix_order, truncated_matrix_alike, truncated_products, one_truncated_shape};

use super::element::Element;
use super::entries::{hash_entries, print_optional, read_optional};
use super::field::{ElementFault, Field};
use super::matrix::{Semiring, multiply, square};
use ports::NoMemory;
use std::alloc::Global;
use std::cmp::Ordering;
use std::hash::{Hash, Hasher};
use std::marker::Model;
use theory::values::Values;

/// A square matrix over minus infinity and the numbers 0 to t, row by row (libsemigroups,
/// `MaxPlusTruncMat`). Contracts see its dimension n, its bound t and its entries, where none
/// stands for minus infinity. Its shape is the dimension and the bound.
#[derive(Drop)]
pub struct MaxPlusTrunc {
    dimension: u32,
    bound: u32,
    entries: Vec<Option<u32>>,
}

impl Model for MaxPlusTrunc {
    ghost use Rattle.elements.specs.MaxPlus.{TruncatedMatrix, IsTruncatedMatrix};

    ghost Value = { TruncatedMatrix };

    ghost view = { λ m. record {
      dimension = m.dimension;
      bound = m.bound;
      entries = m.entries.items;
    } };

    ghost invariant = { λ m. IsTruncatedMatrix
        (record { dimension = m.dimension; bound = m.bound; entries = m.entries.items }) };
}

impl PartialEq for MaxPlusTrunc {
    ghost eq = { truncated_matrix_eq };

    ghost laws = { truncated_matrix_partial_equivalence };

    fn eq(&self, other: &MaxPlusTrunc) -> bool {
        self.dimension == other.dimension
            && self.bound == other.bound
            && self.entries == other.entries
    }
}

impl Eq for MaxPlusTrunc {
    ghost laws = { truncated_matrix_equivalence };
}

impl PartialOrd for MaxPlusTrunc {
    ghost partial_cmp = { as_partial_cmp truncated_matrix_cmp };

    ghost laws = { truncated_matrix_order };

    fn partial_cmp(&self, other: &MaxPlusTrunc) -> Option<Ordering> {
        Some(self.cmp(other))
    }
}

impl Ord for MaxPlusTrunc {
    ghost cmp = { truncated_matrix_cmp };

    ghost total = { truncated_matrix_total };

    ghost matches_partial_cmp = { Prim.search (comparing, rules) };

    ghost matches_eq = { truncated_matrix_ties };

    fn cmp(&self, other: &MaxPlusTrunc) -> Ordering {
        self.dimension.cmp(&other.dimension).then(
            self.bound
                .cmp(&other.bound)
                .then(self.entries.cmp(&other.entries)),
        )
    }
}

impl Hash for MaxPlusTrunc {
    ghost hash_input = { truncated_matrix_hash };

    ghost respects_eq = { truncated_matrix_alike };

    fn hash<H: Hasher>(&self, state: &mut H) {
        hash_entries(&self.entries, state);
    }
}

impl Values for MaxPlusTrunc {
    ghost shape = { λ m. (m.dimension, m.bound) };

    ghost product = { truncated_product };

    ghost products = { truncated_products };

    fn same_shape(&self, other: &MaxPlusTrunc) -> bool {
        self.dimension == other.dimension && self.bound == other.bound
    }
}

impl Element for MaxPlusTrunc {
    ghost one_shape = { one_truncated_shape };

    fn product(&self, alloc: Global, other: &MaxPlusTrunc) -> Result<MaxPlusTrunc, NoMemory> {
        let (dimension, bound) = (self.dimension, self.bound);
        let semiring = TruncatedSums { bound };
        let entries = multiply(alloc, &semiring, dimension, &self.entries, &other.entries)?;
        Ok(MaxPlusTrunc {
            dimension,
            bound,
            entries,
        })
    }

    fn copy(&self, alloc: Global) -> Result<MaxPlusTrunc, NoMemory> {
        let (dimension, bound) = (self.dimension, self.bound);
        let entries = Vec::from_slice(alloc, self.entries.as_slice())?;
        Ok(MaxPlusTrunc {
            dimension,
            bound,
            entries,
        })
    }
}

// The semiring of the maximum and of sums up to a bound.
#[derive(Clone, Copy)]
struct TruncatedSums {
    bound: u32,
}

impl Semiring for TruncatedSums {
    type Entry = Option<u32>;

    ghost add = { greater_of };

    ghost multiply = { λ s. truncated_sum s.bound };

    ghost nothing = { None };

    fn nothing(&self) -> Option<u32> {
        None
    }

    fn add_product(&self, sum: Option<u32>, p: Option<u32>, q: Option<u32>) -> Option<u32> {
        greater(sum, sum_up_to(self.bound, p, q))
    }
}

// The maximum, over minus infinity.
fn greater(p: Option<u32>, q: Option<u32>) -> Option<u32>
    ensures { result ≡ greater_of p q }
{
    match (p, q) {
        (Some(x), Some(y)) => Some(if x < y { y } else { x }),
        (Some(x), None) => Some(x),
        (None, _) => q,
    }
}

// The sum up to the bound, or minus infinity.
fn sum_up_to(bound: u32, p: Option<u32>, q: Option<u32>) -> Option<u32>
    ensures { result ≡ truncated_sum bound p q }
{
    match (p, q) {
        (Some(x), Some(y)) => {
            let sum = x as u64 + y as u64;
            Some(if sum < bound as u64 {
                sum as u32
            } else {
                bound
            })
        }
        _ => None,
    }
}

impl MaxPlusTrunc {
    /// The number of rows.
    pub fn dimension(&self) -> u32
        ensures dimension { result ≡ self.now.dimension }
        ensures valid { IsTruncatedMatrix self.now }
    {
        self.dimension
    }

    /// The greatest number that an entry may be.
    pub fn bound(&self) -> u32
        ensures bound { result ≡ self.now.bound }
    {
        self.bound
    }

    /// The matrix of this shape, the dimension n and the bound t, with these entries, row by row; a
    /// dash is minus infinity. Refused with `BadCount` exactly where there are not n times n
    /// entries, then with `BadEntry` at the first entry that is neither a dash nor a number from 0
    /// to t; never with `NotInjective`.
    pub fn read(
        alloc: Global,
        shape: (u32, u32),
        fields: &[Field],
    ) -> Result<MaxPlusTrunc, ElementFault>
        ensures shape { IfOk result (λ m. (m.dimension ≡ shape.0) × (m.bound ≡ shape.1)) }
        ensures entries { IfOk result (λ m. map field_of m.entries ≡ fields.now) }
        ensures valid { IfOk result IsTruncatedMatrix }
        ensures count { IsErrOf result ElementFault.BadCount
            ↔ (length fields.now ≢ shape.0 * shape.0) }
        ensures entry { (place : ℕ) → IsErrOf result (ElementFault.BadEntry place)
            → (length fields.now ≡ shape.0 * shape.0)
            × IsFirstRefused (IsBelowOrDash (shape.1 + 1)) fields.now place }
        ensures refused { (place : ℕ) → length fields.now ≡ shape.0 * shape.0
            → IsFirstRefused (IsBelowOrDash (shape.1 + 1)) fields.now place
            → IsErrOf result (ElementFault.BadEntry place) ⊎ IsErrOf result ElementFault.NoMemory }
        ensures injective { (place : ℕ) → IsErrOf result (ElementFault.NotInjective place) → ⊥ }
    {
        let (dimension, bound) = shape;
        if fields.len() != square(dimension) {
            return Err(ElementFault::BadCount);
        }
        let entries = read_optional(alloc, bound as u64 + 1, fields)?;
        Ok(MaxPlusTrunc {
            dimension,
            bound,
            entries,
        })
    }

    /// The entries in decimal, row by row, with one space between each two; `-` for minus infinity.
    pub fn print(&self, alloc: Global) -> Result<Vec<u8>, NoMemory>
        ensures { IfOk result (λ text. text.items
            ≡ join_by decimal_or_dash (codes " ") self.now.entries) }
    {
        print_optional(alloc, &self.entries)
    }
}
