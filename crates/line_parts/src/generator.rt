// The entries of a generator line.
ghost use Rattle.std.specs.Prelude.{◌≡◌, ℕ, List, Result, IfOk, IfErr, Ok, map};
ghost use Rattle.elements.specs.declared.field.Field.{Field};
ghost use Rattle.line_parts.specs.declared.cause.Cause.{Cause};
ghost use Rattle.line_parts.specs.Elements.{transformation_of, partial_permutation_of, boolean_matrix_of, truncated_matrix_of};
ghost use Rattle.line_parts.specs.Faults.{IsLineFault};
ghost use Rattle.line_parts.specs.Fields.{field_of};
ghost use Rattle.line_parts.specs.Texts.{texts};

use crate::fault::LineFault;
use crate::tokens::{is_word, number_of};
use elements::{BMat, Element, Field, MaxPlusTrunc, PPerm, Transf};
use std::alloc::{AllocError, Global};

/// An element that a generator line gives, by the two numbers of the header; where the header has
/// one number, the second is 0.
pub trait Generator: Element {
    /// The shape that the header's numbers ask for.
    ghost shape_for: { ℕ × ℕ → ℕ × ℕ };

    /// The element with these entries, or why there is none.
    ghost generator_of: { ℕ × ℕ → List Field → Result Self Cause };

    /// The element with these entries. Refused for its cause, or for want of memory.
    fn generator(alloc: Global, sizes: (u32, u32), fields: &[Field]) -> Result<Self, LineFault>
        ensures ok { IfOk result (λ g. generator_of sizes fields.now ≡ Ok g) }
        ensures shape { IfOk result (λ g. Self.shape g ≡ shape_for sizes) }
        ensures err { IfErr result (IsLineFault (generator_of sizes fields.now)) };
}

impl Generator for Transf {
    ghost shape_for = { λ sizes. (sizes.0, 0) };

    ghost generator_of = { transformation_of };

    fn generator(alloc: Global, sizes: (u32, u32), fields: &[Field]) -> Result<Transf, LineFault> {
        Ok(Transf::read(alloc, sizes.0, fields)?)
    }
}

impl Generator for PPerm {
    ghost shape_for = { λ sizes. (sizes.0, 0) };

    ghost generator_of = { partial_permutation_of };

    fn generator(alloc: Global, sizes: (u32, u32), fields: &[Field]) -> Result<PPerm, LineFault> {
        Ok(PPerm::read(alloc, sizes.0, fields)?)
    }
}

impl Generator for BMat {
    ghost shape_for = { λ sizes. (sizes.0, 0) };

    ghost generator_of = { boolean_matrix_of };

    fn generator(alloc: Global, sizes: (u32, u32), fields: &[Field]) -> Result<BMat, LineFault> {
        Ok(BMat::read(alloc, sizes.0, fields)?)
    }
}

impl Generator for MaxPlusTrunc {
    ghost shape_for = { λ sizes. sizes };

    ghost generator_of = { truncated_matrix_of };

    fn generator(
        alloc: Global,
        sizes: (u32, u32),
        fields: &[Field],
    ) -> Result<MaxPlusTrunc, LineFault> {
        Ok(MaxPlusTrunc::read(alloc, sizes, fields)?)
    }
}

// An entry as it is written.
fn field_of(token: &[u8]) -> Field
    ensures { result ≡ field_of token.now }
{
    match number_of(token) {
        Some(number) => Field::Number(number),
        None if is_word(b"-", token) => Field::Dash,
        None => Field::Bad,
    }
}

/// The entries as they are written. Only want of memory refuses.
pub fn fields_of(alloc: Global, tokens: &[&[u8]]) -> Result<Vec<Field>, AllocError>
    ensures { IfOk result (λ fields. fields.items ≡ map field_of (texts tokens.now)) }
{
    tokens.iter().map(|token| field_of(token)).collect(alloc)
}
