// Lines that give letters a role.
ghost use Rattle.std.specs.Prelude.{◌≡◌, ◌≤◌};
ghost use Rattle.query_lang.specs.Roles.{count_for, count_for_both, place_named};

use line_parts::is_word;
use words::{Alphabet, Letter};

/// What a line says of letters: one is an identity or a zero, or two are inverse (libsemigroups,
/// `add_identity_rules`, `add_zero_rules`, `add_inverse_rules`).
#[derive(Clone, Copy)]
pub enum Role {
    Identity,
    Zero,
    Inverse,
}

// The letter that the token is.
fn letter_named(alphabet: &Alphabet, token: &[u8]) -> Option<Letter>
    ensures { result ≡ place_named alphabet.now token.now }
{
    match token {
        [byte] => alphabet.letter(*byte),
        _ => None,
    }
}

/// How many relations make the token an identity or a zero, by texts: two for each letter, and one
/// for the letter that it is.
pub fn count_for(alphabet: &Alphabet, token: &[u8]) -> usize
    ensures count { result ≡ count_for alphabet.now token.now }
    ensures few { result ≤ 106 }
{
    match letter_named(alphabet, token) {
        Some(_) => 2 * alphabet.len() - 1,
        None => 2 * alphabet.len(),
    }
}

/// How many relations make the tokens inverse, by texts.
pub fn count_for_both(x: &[u8], y: &[u8]) -> usize
    ensures count { result ≡ count_for_both x.now y.now }
    ensures few { result ≤ 2 }
{
    if is_word(x, y) { 1 } else { 2 }
}
