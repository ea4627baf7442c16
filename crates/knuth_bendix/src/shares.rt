// How many letters the end of a word may share with the beginnings of others.
ghost use Rattle.std.specs.Prelude.{◌≡◌, ℕ, ◌+◌, ◌-◌, ◌*◌, ◌%◌, ◌^◌, ◌<◌, ◌≤◌, false, length, slice_index_or};
ghost use Rattle.theory.specs.Word.{Word as Letters};
ghost use Rattle.knuth_bendix.specs.Marks.{AreSharesOf, BoundsOne, BoundsShares, key};
ghost use Rattle.knuth_bendix.specs.Overlaps.{HasLength, overlaps_by};

use crate::lengths::Lengths;
use crate::marks::key_of;
use words::Word;

// How many keys there are.
const KEYS: usize = 256;

/// How many letters the end of a word may share with the beginning of a longer one, at most, by the
/// key of that; the lengths of the words in which they meet, and how many letters these may have
/// behind the word.
#[derive(Drop)]
pub struct Shares {
    most: [usize; KEYS],
    pub lengths: Lengths,
    room: usize,
}

// How many letters words of such lengths may have behind so many, at most.
fn room_behind(lengths: Lengths, letters: usize) -> usize
    ensures { (n : ℕ) → n < 2 ^ 64 → HasLength lengths (letters + n) → n ≤ result }
{
    match lengths {
        Lengths::UpTo(length) => length.saturating_sub(letters),
        Lengths::Beyond(_) => usize::MAX,
    }
}

// The key of the last letter of the word and no other.
fn last_row(word: &Word) -> usize
    requires { 0 < length word.now }
    ensures row { result ≡ slice_index_or word.now (length word.now - 1) 0 % 32 * 8 }
    ensures few { result ≤ 248 }
{
    word.letter(word.len() - 1).number() % 32 * 8
}

// Notes that words that begin with the last letter of the word may share it.
fn note_last(most: &mut [usize; KEYS], word: &Word)
    ensures { BoundsOne word.now most.new }
{
    if word.is_empty() {
        return;
    }
    let row = last_row(word);
    for second in 0..8 {
        most[row + second] = 1;
    }
}

// Notes which words may share more letters, the fewest first.
fn note_more(most: &mut [usize; KEYS], word: &Word)
    requires { BoundsOne word.now most.old }
    ensures { BoundsShares word.now most.new }
{
    let letters = word.len();
    for shared in 2..letters {
        let start = letters - shared;
        let key = key_of(word.letter(start).number(), word.letter(start + 1).number());
        most[usize::from(key)] = shared;
    }
}

impl Shares {
    /// What the end of the word may share, in words of such lengths.
    pub fn of(word: &Word, lengths: Lengths) -> Shares
        ensures shares { AreSharesOf word.now result }
        ensures lengths { result.lengths ≡ lengths }
    {
        let mut most = [0; KEYS];
        note_last(&mut most, word);
        note_more(&mut most, word);
        Shares {
            most,
            lengths,
            room: room_behind(lengths, word.len()),
        }
    }

    /// Whether the end of the word may share letters, some and not all, with the beginning of
    /// another of this key and of so many letters, in a word of these lengths.
    pub fn may_share(&self, first: u8, letters: usize) -> bool
        ensures { result ≡ false → (f g : Letters) (shared : ℕ) → AreSharesOf f self.now
            → first ≡ key g → letters ≡ length g → 0 < shared → shared < length f
            → shared < length g → overlaps_by f g shared
            → HasLength self.now.lengths (length f + (length g - shared)) → ⊥ }
    {
        let most = self.most[usize::from(first)];
        0 < most && letters.saturating_sub(most) <= self.room
    }
}
