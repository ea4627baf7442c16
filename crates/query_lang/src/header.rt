// The header of a script.
ghost use Rattle.std.specs.Prelude.{◌≡◌, [], IfOk, IfErr, None, Some, Ok, Err, Contains};
ghost use Rattle.problem.specs.declared.kinds.Problem.{Problem};
ghost use Rattle.words.specs.Alphabet.{IsAlphabetFault, alphabet_fault, marker};
ghost use Rattle.line_parts.specs.Faults.{IsLineFault};
ghost use Rattle.line_parts.specs.Texts.{texts};
ghost use Rattle.query_lang.specs.Header.{free_way, generators_named, header_for, named_kind, none_of, one_size, started, told, two_sizes};
ghost use Rattle.query_lang.specs.Reading.{AreGenerators};

use crate::draft::{Draft, GeneratorKind};
use crate::outline::Outline;
use line_parts::{Cause, LineFault, is_word, number_within, one_token, two_tokens};
use problem::Problem;
use std::alloc::Global;
use words::{Alphabet, AlphabetFault};

// The degree or the dimension of a header, by the tokens behind its name, and 0 in the place of the
// other number.
fn one_size(greatest: u32, tokens: &[&[u8]]) -> Result<(u32, u32), Cause>
    ensures ok { (problem : Problem) → IfOk result (λ sizes.
        told (one_size greatest problem) (texts tokens.now) ≡ Ok (sizes, problem)) }
    ensures err { (problem : Problem) → IfErr result (λ cause.
        told (one_size greatest problem) (texts tokens.now) ≡ Err cause) }
{
    let token = one_token(tokens)?;
    let size = number_within(1, greatest, token).ok_or(Cause::BadNumber)?;
    Ok((size, 0))
}

// The dimension and the bound of a header, by the tokens behind its name.
fn two_sizes(tokens: &[&[u8]]) -> Result<(u32, u32), Cause>
    ensures ok { (problem : Problem) → IfOk result (λ sizes.
        told (two_sizes problem) (texts tokens.now) ≡ Ok (sizes, problem)) }
    ensures err { (problem : Problem) → IfErr result (λ cause.
        told (two_sizes problem) (texts tokens.now) ≡ Err cause) }
{
    let (first, second) = two_tokens(tokens)?;
    let dimension = number_within(1, 16, first).ok_or(Cause::BadNumber)?;
    let bound = number_within(0, 65535, second).ok_or(Cause::BadNumber)?;
    Ok((dimension, bound))
}

impl GeneratorKind {
    // The numbers of the header of this kind, by the tokens behind its name, 0 in the place of one
    // that it has not.
    fn sizes(self, tokens: &[&[u8]]) -> Result<(u32, u32), Cause>
        ensures ok { IfOk result (λ sizes.
            told (header_for self) (texts tokens.now) ≡ Ok (sizes, none_of self)) }
        ensures err { IfErr result (λ cause.
            told (header_for self) (texts tokens.now) ≡ Err cause) }
    {
        match self {
            GeneratorKind::Transf => one_size(64, tokens),
            GeneratorKind::PPerm => one_size(64, tokens),
            GeneratorKind::BMat => one_size(16, tokens),
            GeneratorKind::MaxPlus => two_sizes(tokens),
        }
    }
}

// The kind of generators whose header has this name.
fn named_kind(name: &[u8]) -> Option<GeneratorKind>
    ensures { result ≡ named_kind name.now }
{
    match name {
        text if is_word(b"trans", text) => Some(GeneratorKind::Transf),
        text if is_word(b"pperm", text) => Some(GeneratorKind::PPerm),
        text if is_word(b"bmat", text) => Some(GeneratorKind::BMat),
        text if is_word(b"mpt", text) => Some(GeneratorKind::MaxPlus),
        _ => None,
    }
}

// The alphabet of these letters, of both cases where they are wide.
fn alphabet_of(alloc: Global, wide: bool, letters: &[u8]) -> Result<Alphabet, AlphabetFault>
    ensures ok { IfOk result (λ alphabet. alphabet ≡ letters.now) }
    ensures faultless { IfOk result (λ _. alphabet_fault wide letters.now ≡ None) }
    ensures unmarked { IfOk result (λ alphabet. ¬ Contains alphabet marker) }
    ensures err { IfErr result (IsAlphabetFault (alphabet_fault wide letters.now)) }
{
    if wide {
        Alphabet::wide(alloc, letters)
    } else {
        Alphabet::new(alloc, letters)
    }
}

/// What the header of a monoid or a semigroup gives, by the tokens behind its name: no relation
/// yet. Letters are of both cases where they are wide. Refused for the cause of the tokens, or for
/// want of memory.
pub fn outline_of(
    alloc: Global,
    wide: bool,
    monoid: bool,
    tokens: &[&[u8]],
) -> Result<Outline, LineFault>
    ensures ok { IfOk result (λ outline. started (Some (free_way wide monoid))
        (texts tokens.now) ≡ Ok ((0, 0), Problem.Presented outline)) }
    ensures unpaired { IfOk result (λ outline. outline.congruence.pairs ≡ []) }
    ensures err { IfErr result (IsLineFault
        (started (Some (free_way wide monoid)) (texts tokens.now))) }
{
    let letters = one_token(tokens)?;
    let alphabet = alphabet_of(alloc, wide, letters)?;
    Ok(Outline::new(alloc, alphabet, monoid))
}

/// What the header of generators gives, by its name and the tokens behind it: no generator yet.
pub fn header_of(alloc: Global, name: &[u8], tokens: &[&[u8]]) -> Result<Draft, Cause>
    ensures ok { IfOk result (λ draft. started (generators_named name.now) (texts tokens.now)
        ≡ Ok draft) }
    ensures generators { IfOk result (λ draft. AreGenerators draft.1) }
    ensures err { IfErr result (λ cause. started (generators_named name.now) (texts tokens.now)
        ≡ Err cause) }
{
    let kind = named_kind(name).ok_or(Cause::UnknownHeader)?;
    let sizes = kind.sizes(tokens)?;
    Ok(Draft::new(alloc, kind, sizes))
}
