// The order of words.
ghost use Rattle.std.specs.Prelude.{◌≡◌};
ghost use Rattle.theory.specs.ShortLex.{shortlex};

use crate::letters::Word;
use std::cmp::Ordering;

/// Compares two words in short-lex order: the shorter word comes first, and of two words of one
/// length the one with the smaller letter at the first place where they differ (Sims 1994, 2.1;
/// libsemigroups, `shortlex_compare`). It takes no memory.
pub fn shortlex(u: &Word, v: &Word) -> Ordering
    ensures { result ≡ shortlex u.now v.now }
{
    u.len().cmp(&v.len()).then(u.letters().cmp(v.letters()))
}
