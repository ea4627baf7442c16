// Lines, cut into tokens.
ghost use Rattle.std.specs.Prelude.{◌≡◌, IfOk};
ghost use Rattle.line_parts.specs.Token.{is_blank, tokens_of, is_kept, is_word, number_of, number_within, letter_of, relation_of};
ghost use Rattle.line_parts.specs.Texts.{texts};

use std::alloc::{AllocError, Global};
use theory::Relation;
use words::is_letter;

fn is_blank(byte: u8) -> bool
    ensures { result ≡ is_blank byte }
{
    byte == b' ' || byte == b'\t' || byte == b'\r'
}

/// The tokens of a line, which blanks part. Only want of memory refuses.
pub fn tokens_of(alloc: Global, line: &[u8]) -> Result<Vec<&[u8]>, AllocError>
    ensures { IfOk result (λ tokens. texts tokens.items ≡ tokens_of line.now) }
{
    line.split(|byte| is_blank(*byte))
        .filter(|token| !token.is_empty())
        .collect(alloc)
}

/// Whether a line is kept: it has a token, and is no comment.
pub fn is_kept(line: &[&[u8]]) -> bool
    ensures { result ≡ is_kept (texts line.now) }
{
    match line.first() {
        Some(first) => !first.starts_with(b"#"),
        None => false,
    }
}

/// Whether a token reads so.
pub fn is_word(text: &[u8], token: &[u8]) -> bool
    ensures { result ≡ is_word text.now token.now }
{
    token == text
}

/// The number of one to seven decimal digits, if the token is one.
pub fn number_of(token: &[u8]) -> Option<u32>
    ensures { result ≡ number_of token.now }
{
    if token.is_empty() || token.len() > 7 {
        return None;
    }
    let mut number = 0u32;
    for byte in token {
        if !byte.is_ascii_digit() {
            return None;
        }
        number = number * 10 + u32::from(*byte - b'0');
    }
    Some(number)
}

/// The number from `low` to `high`, if the token is one.
pub fn number_within(low: u32, high: u32, token: &[u8]) -> Option<u32>
    ensures { result ≡ number_within low high token.now }
{
    number_of(token).filter(|number| low <= *number && *number <= high)
}

/// The letter, if the token is one; of both cases where letters are wide.
pub fn letter_of(wide: bool, token: &[u8]) -> Option<u8>
    ensures { result ≡ letter_of wide token.now }
{
    match token {
        [letter] if is_letter(wide, *letter) => Some(*letter),
        _ => None,
    }
}

/// The one of Green's relations that the token names, if it names one.
pub fn relation_of(token: &[u8]) -> Option<Relation>
    ensures { result ≡ relation_of token.now }
{
    match token {
        text if is_word(b"r", text) => Some(Relation::R),
        text if is_word(b"l", text) => Some(Relation::L),
        text if is_word(b"h", text) => Some(Relation::H),
        text if is_word(b"j", text) => Some(Relation::J),
        _ => None,
    }
}
