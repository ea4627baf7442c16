// The words of lines.
ghost use Rattle.std.specs.Prelude.{◌≡◌, IfOk, IfErr, Ok, Err, length};
ghost use Rattle.theory.specs.Word.{IsElement};
ghost use Rattle.line_parts.specs.Faults.{IsLineFault};
ghost use Rattle.line_parts.specs.LineWords.{both_elements, element_of, one_relation, one_token, one_word, two_tokens, two_words};
ghost use Rattle.line_parts.specs.Texts.{texts};

use crate::cause::Cause;
use crate::fault::LineFault;
use crate::tokens::relation_of;
use crate::version::Version;
use std::alloc::Global;
use theory::Relation;
use word_powers::read_powers;
use words::{Alphabet, Word};

/// The word over the alphabet, with powers in the second version, which is empty only where that is
/// allowed. Refused for its cause, or for want of memory.
pub fn element_of(
    alloc: Global,
    version: Version,
    alphabet: &Alphabet,
    allow_empty: bool,
    token: &[u8],
) -> Result<Word, LineFault>
    ensures ok { IfOk result (λ word. element_of version alphabet.now allow_empty token.now
        ≡ Ok word) }
    ensures element { IfOk result (IsElement allow_empty (length alphabet.now)) }
    ensures err { IfErr result (IsLineFault
        (element_of version alphabet.now allow_empty token.now)) }
{
    // Here the alphabet's invariant is used.
    let _letters = alphabet.len();
    match version {
        Version::One => Ok(alphabet.read_word(alloc, token, allow_empty)?),
        Version::Two => Ok(read_powers(alphabet, alloc, token, allow_empty)?),
    }
}

/// Two such words. Refused for the cause of the first one that has a cause, or for want of memory.
pub fn both_elements(
    alloc: Global,
    version: Version,
    alphabet: &Alphabet,
    allow_empty: bool,
    first: &[u8],
    second: &[u8],
) -> Result<(Word, Word), LineFault>
    ensures ok { IfOk result (λ words. both_elements version alphabet.now allow_empty first.now
        second.now ≡ Ok words) }
    ensures first { IfOk result (λ words. IsElement allow_empty (length alphabet.now) words.0) }
    ensures second { IfOk result (λ words. IsElement allow_empty (length alphabet.now) words.1) }
    ensures err { IfErr result (IsLineFault
        (both_elements version alphabet.now allow_empty first.now second.now)) }
{
    let first = element_of(alloc, version, alphabet, allow_empty, first)?;
    let second = element_of(alloc, version, alphabet, allow_empty, second)?;
    Ok((first, second))
}

/// The token, if there is no other.
pub fn one_token<'a>(tokens: &[&'a [u8]]) -> Result<&'a [u8], Cause>
    ensures ok { IfOk result (λ token. one_token (texts tokens.now) ≡ Ok token.now) }
    ensures err { IfErr result (λ cause. one_token (texts tokens.now) ≡ Err cause) }
{
    match tokens {
        [token] => Ok(token),
        _ => Err(Cause::WrongNumberOfWords),
    }
}

/// The two tokens, if there is no other.
pub fn two_tokens<'a>(tokens: &[&'a [u8]]) -> Result<(&'a [u8], &'a [u8]), Cause>
    ensures ok { IfOk result (λ both. two_tokens (texts tokens.now) ≡ Ok (both.0.now, both.1.now)) }
    ensures err { IfErr result (λ cause. two_tokens (texts tokens.now) ≡ Err cause) }
{
    match tokens {
        [first, second] => Ok((first, second)),
        _ => Err(Cause::WrongNumberOfWords),
    }
}

/// The word that the tokens are.
pub fn one_word(
    alloc: Global,
    version: Version,
    alphabet: &Alphabet,
    allow_empty: bool,
    tokens: &[&[u8]],
) -> Result<Word, LineFault>
    ensures ok { IfOk result (λ word. one_word version alphabet.now allow_empty (texts tokens.now)
        ≡ Ok word) }
    ensures element { IfOk result (IsElement allow_empty (length alphabet.now)) }
    ensures err { IfErr result (IsLineFault
        (one_word version alphabet.now allow_empty (texts tokens.now))) }
{
    element_of(alloc, version, alphabet, allow_empty, one_token(tokens)?)
}

/// The two words that the tokens are.
pub fn two_words(
    alloc: Global,
    version: Version,
    alphabet: &Alphabet,
    allow_empty: bool,
    tokens: &[&[u8]],
) -> Result<(Word, Word), LineFault>
    ensures ok { IfOk result (λ words. two_words version alphabet.now allow_empty (texts tokens.now)
        ≡ Ok words) }
    ensures first { IfOk result (λ words. IsElement allow_empty (length alphabet.now) words.0) }
    ensures second { IfOk result (λ words. IsElement allow_empty (length alphabet.now) words.1) }
    ensures err { IfErr result (IsLineFault
        (two_words version alphabet.now allow_empty (texts tokens.now))) }
{
    let (first, second) = two_tokens(tokens)?;
    both_elements(alloc, version, alphabet, allow_empty, first, second)
}

/// The one of Green's relations that the tokens are.
pub fn one_relation(tokens: &[&[u8]]) -> Result<Relation, Cause>
    ensures { result ≡ one_relation (texts tokens.now) }
{
    relation_of(one_token(tokens)?).ok_or(Cause::UnknownRelation)
}
