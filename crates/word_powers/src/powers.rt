// Words with powers, as texts.
ghost use Rattle.std.specs.Prelude.{◌≡◌, ◌↔◌, ℕ, ◌+◌, ◌<◌, ◌≤◌, List, ◌++◌, slice_range, OnOk, length, IfSome, IfNone, IfOk, IsTrue, IsFalse};
ghost use Rattle.theory.specs.Word.{IsOver};
ghost use Rattle.words.specs.Alphabet.{IsAlphabet};
ghost use Rattle.words.specs.WordText.{is_empty_text};
ghost use Rattle.word_powers.specs.Powers.{HasWord, IsFaultAt, IsLong, IsOutcome, IsReadable, IsShort, IsStranger, IsWordText, StandsFor, power};
ghost use Rattle.word_powers.specs.PowerMarks.{IsSmall, closed_marks, growth, grown_behind, marks_after, opened_marks, outset_marks};
ghost use Rattle.word_powers.specs.PowerSteps.{after_caret, after_digit, copies, depth_after, is_ready, is_full, is_whole, next, plain_sign, sign_of};

use crate::fault::PowerFault;
use ports::NoMemory;
use std::alloc::Global;
use words::{Alphabet, Letter, Word};

// The most letters of a word that is read.
const MOST_LETTERS: usize = 4096;

// How deep groups may nest.
const MOST_GROUPS: usize = 8;

// What a byte of a text means.
#[derive(Clone, Copy)]
enum Sign {
    Letter(u8),
    Open,
    Close,
    Caret,
    Digit(u8),
    Stranger,
}

// What was read last: nothing of the text or of a group, the text `1`, a base, `^`, or an exponent
// of this number.
#[derive(Clone, Copy)]
enum Last {
    Start,
    One,
    Base,
    Caret,
    Digits(usize),
}

// What a byte that is no letter means.
fn plain_sign(byte: u8) -> Sign
    ensures { result ≡ plain_sign byte }
{
    match byte {
        b'(' => Sign::Open,
        b')' => Sign::Close,
        b'^' => Sign::Caret,
        b'0'..=b'9' => Sign::Digit(byte - b'0'),
        _ => Sign::Stranger,
    }
}

// Whether the text is the empty word's.
fn is_empty_text(text: &[u8]) -> bool
    ensures { result ≡ is_empty_text text.now }
{
    match text {
        [] => true,
        [byte] => *byte == b'1',
        _ => false,
    }
}

// Inside how many groups the next byte stands.
fn depth_after(depth: usize, sign: Sign) -> usize
    requires { depth ≤ 8 }
    ensures { result ≡ depth_after depth sign }
{
    match sign {
        Sign::Open => depth + 1,
        Sign::Close => depth.saturating_sub(1),
        _ => depth,
    }
}

// Whether what was read is a word.
fn is_whole(depth: usize, last: Last) -> bool
    ensures { result ≡ is_whole depth last }
{
    depth == 0 && !matches!(last, Last::Caret)
}

impl Last {
    // Whether an item may begin.
    fn is_ready(self) -> bool
        ensures { result ≡ is_ready self }
    {
        matches!(self, Last::Start | Last::Base | Last::Digits(_))
    }

    // Whether an item has ended, or may have.
    fn is_full(self) -> bool
        ensures { result ≡ is_full self }
    {
        matches!(self, Last::Base | Last::Digits(_))
    }

    // What stands behind `^`.
    fn after_caret(self) -> Option<Last>
        ensures { result ≡ after_caret self }
    {
        match self {
            Last::Base => Some(Last::Caret),
            _ => None,
        }
    }

    // What stands behind a digit, inside so many groups.
    fn after_digit(self, depth: usize, digit: u8) -> Option<Last>
        ensures { result ≡ after_digit depth self digit }
    {
        match self {
            Last::Start if depth == 0 && digit == 1 => Some(Last::One),
            Last::Caret if digit != 0 => Some(Last::Digits(usize::from(digit))),
            Last::Digits(number) if number < 1000 => Some(Last::Digits(
                10 * number + usize::from(digit),
            )),
            _ => None,
        }
    }

    // What was read last, one byte further, where that may be.
    fn next(self, depth: usize, sign: Sign) -> Option<Last>
        ensures { result ≡ next depth self sign }
    {
        match sign {
            Sign::Letter(_) if self.is_ready() => Some(Last::Base),
            Sign::Open if self.is_ready() && depth < MOST_GROUPS => Some(Last::Start),
            Sign::Close if self.is_full() && 0 < depth => Some(Last::Base),
            Sign::Caret => self.after_caret(),
            Sign::Digit(digit) => self.after_digit(depth, digit),
            _ => None,
        }
    }
}

// Where the words lie that a text is read as: how many groups are open, and where each begins; what
// was read last; and where the last base begins, and of how many letters it is.
#[derive(Clone, Copy)]
struct Marks {
    depth: usize,
    last: Last,
    starts: [usize; MOST_GROUPS],
    base: usize,
    width: usize,
}

impl Marks {
    // Nothing was read.
    fn new() -> Marks
        ensures { result ≡ outset_marks }
    {
        Marks {
            depth: 0,
            last: Last::Start,
            starts: [0; MOST_GROUPS],
            base: 0,
            width: 0,
        }
    }

    // A group begins, where so many letters were written.
    fn opened(mut self, len: usize) -> Marks
        requires { self.depth < 8 }
        ensures { result ≡ opened_marks self len }
    {
        self.starts[self.depth] = len;
        self.depth += 1;
        self.last = Last::Start;
        self.base = len;
        self.width = 0;
        self
    }

    // The last group ends, and is a base.
    fn closed(mut self, len: usize) -> Marks
        requires filled { 0 < self.depth }
        requires few { self.depth ≤ 8 }
        ensures { result ≡ closed_marks self len }
    {
        self.depth -= 1;
        self.last = Last::Base;
        self.base = self.starts[self.depth];
        self.width = len.saturating_sub(self.base);
        self
    }

    // How many more copies of the base a byte asks for.
    fn copies(self, sign: Sign) -> usize
        requires { IsSmall self.last }
        ensures copies { result ≡ copies self.last sign }
        ensures few { result < 100_000 }
    {
        match (self.last, sign) {
            (Last::Caret, Sign::Digit(digit)) => usize::from(digit).saturating_sub(1),
            (Last::Digits(number), Sign::Digit(digit)) => 9 * number + usize::from(digit),
            _ => 0,
        }
    }

    // How many letters a byte adds.
    fn growth(self, sign: Sign) -> usize
        requires exponent { IsSmall self.last }
        requires base { self.width ≤ 4096 }
        ensures growth { result ≡ growth self sign }
        ensures few { result < 1_000_000_000 }
    {
        match sign {
            Sign::Letter(_) => 1,
            _ => self.copies(sign) * self.width,
        }
    }

    // Writes the letters that a byte adds.
    fn write(self, word: &mut Word, sign: Sign) -> Result<(), NoMemory>
        requires exponent { IsSmall self.last }
        requires base { self.base + self.width ≤ length word.old }
        requires few { length word.old ≤ 4096 }
        ensures { OnOk result (word.new ≡ word.old ++ grown_behind self word.old sign) }
    {
        match sign {
            Sign::Letter(number) => word.push(Letter::new(number)),
            _ => repeat(word, self.base, self.base + self.width, self.copies(sign)),
        }
    }

    // One byte further, where so many letters were written before it. A byte that may not stand
    // there changes nothing.
    fn after(self, sign: Sign, len: usize) -> Marks
        requires { self.depth ≤ 8 }
        ensures { result ≡ marks_after self len sign (next self.depth self.last sign) }
    {
        let Some(last) = self.last.next(self.depth, sign) else {
            return self;
        };
        match sign {
            Sign::Letter(_) => Marks {
                last,
                base: len,
                width: 1,
                ..self
            },
            Sign::Open => self.opened(len),
            Sign::Close => self.closed(len),
            _ => Marks { last, ..self },
        }
    }
}

// Puts so many copies of the letters from one place up to another at the end.
fn repeat(word: &mut Word, start: usize, end: usize, copies: usize) -> Result<(), NoMemory>
    requires ordered { start ≤ end }
    requires within { end ≤ length word.old }
    ensures { OnOk result (word.new ≡ word.old ++ power copies (slice_range word.old start end)) }
{
    for _ in 0..copies {
        word.append_within(start, end)?;
    }
    Ok(())
}

// What a byte means.
fn sign_for(alphabet: &Alphabet, byte: u8) -> Sign
    ensures { result ≡ sign_of alphabet.now byte }
{
    let _count = alphabet.len();
    match alphabet.letter(byte) {
        Some(letter) => Sign::Letter(letter.number() as u8),
        None => plain_sign(byte),
    }
}

// The place of the first byte with which the text begins no word, or its end, where it is no
// word itself.
fn first_bad(alphabet: &Alphabet, text: &[u8]) -> Option<usize>
    requires { IsAlphabet alphabet.now }
    ensures fault { IfSome result (IsFaultAt alphabet.now text.now) }
    ensures word { IfNone result (HasWord alphabet.now text.now) }
{
    let mut depth = 0;
    let mut last = Last::Start;
    for (place, byte) in text.iter().enumerate() {
        let sign = sign_for(alphabet, *byte);
        match last.next(depth, sign) {
            Some(next) => {
                depth = depth_after(depth, sign);
                last = next;
            }
            None => return Some(place),
        }
    }
    if is_whole(depth, last) {
        None
    } else {
        Some(text.len())
    }
}

// Whether the word of the text is short enough to be read.
fn fits(alphabet: &Alphabet, text: &[u8]) -> bool
    requires alphabet { IsAlphabet alphabet.now }
    requires word { HasWord alphabet.now text.now }
    ensures short { IsTrue result → StandsFor alphabet.now text.now IsShort }
    ensures long { IsFalse result → StandsFor alphabet.now text.now IsLong }
{
    let mut len = 0;
    let mut marks = Marks::new();
    for byte in text {
        let sign = sign_for(alphabet, *byte);
        let longer = len + marks.growth(sign);
        if longer > MOST_LETTERS {
            return false;
        }
        marks = marks.after(sign, len);
        len = longer;
    }
    true
}

// The word of the text.
fn build(alphabet: &Alphabet, alloc: Global, text: &[u8]) -> Result<Word, NoMemory>
    requires alphabet { IsAlphabet alphabet.now }
    requires word { StandsFor alphabet.now text.now IsShort }
    ensures { IfOk result (IsWordText alphabet.now text.now) }
{
    let mut word = Word::new(alloc);
    let mut marks = Marks::new();
    for byte in text {
        let sign = sign_for(alphabet, *byte);
        let len = word.len();
        marks.write(&mut word, sign)?;
        marks = marks.after(sign, len);
    }
    Ok(word)
}

// Whether a byte at the place stands in no word.
fn is_stranger(alphabet: &Alphabet, text: &[u8], place: usize) -> bool
    ensures { IsTrue result ↔ IsStranger alphabet.now text.now place }
{
    match text.get(place) {
        Some(byte) => matches!(sign_for(alphabet, *byte), Sign::Stranger),
        None => false,
    }
}

// The word of a text, or why it is refused.
fn read(
    alphabet: &Alphabet,
    alloc: Global,
    text: &[u8],
    allow_empty: bool,
) -> Result<Word, PowerFault>
    requires { IsAlphabet alphabet.now }
    ensures { IsOutcome alphabet.now allow_empty text.now result }
{
    if is_empty_text(text) {
        return if allow_empty {
            Ok(Word::new(alloc))
        } else {
            Err(PowerFault::EmptyWord)
        };
    }
    if let Some(place) = first_bad(alphabet, text) {
        return if is_stranger(alphabet, text, place) {
            Err(PowerFault::NotInAlphabet(place))
        } else {
            Err(PowerFault::BadPower(place))
        };
    }
    if !fits(alphabet, text) {
        return Err(PowerFault::TooLong);
    }
    let word = build(alphabet, alloc, text)?;
    Ok(word)
}

/// The word of a text with powers. A text is `1` or has no byte, for the empty word, or it is
/// one or more items; an item is a base, or a base, `^` and an exponent; a base is a letter of
/// the alphabet, or one or more items between `(` and `)`. Groups nest at most eight deep, and
/// an exponent has at most four digits, the first of them not `0`. An item stands for its
/// base's word as often as the exponent says, and items for their words written together.
///
/// Refused with `EmptyWord` exactly where the text is the empty word's and that is not allowed.
/// Where the text is no word's, it is refused at the first byte with which it begins no word's
/// text, or at its end if there is none: with `NotInAlphabet` exactly where a byte stands there
/// that is no letter, no digit and none of `(`, `)` and `^`, and else with `BadPower`. Refused
/// with `TooLong` exactly where the word has more than 4,096 letters, and with `NoMemory` only
/// where nothing else refuses it.
pub fn read_powers(
    alphabet: &Alphabet,
    alloc: Global,
    text: &[u8],
    allow_empty: bool,
) -> Result<Word, PowerFault>
    ensures ok { IfOk result (IsWordText alphabet.now text.now) }
    ensures readable { IfOk result (IsReadable allow_empty) }
    ensures over { IfOk result (IsOver (length alphabet.now)) }
    ensures empty_word { (result ≡ Err PowerFault.EmptyWord)
        ↔ (IsTrue (is_empty_text text.now) × IsFalse allow_empty) }
    ensures not_in_alphabet { (place : ℕ) → (result ≡ Err (PowerFault.NotInAlphabet place))
        ↔ (IsFaultAt alphabet.now text.now place × IsStranger alphabet.now text.now place) }
    ensures bad_power { (place : ℕ) → (result ≡ Err (PowerFault.BadPower place))
        ↔ (IsFaultAt alphabet.now text.now place × ¬ IsStranger alphabet.now text.now place) }
    ensures too_long { (result ≡ Err PowerFault.TooLong)
        ↔ StandsFor alphabet.now text.now IsLong }
    ensures no_memory { result ≡ Err PowerFault.NoMemory
        → StandsFor alphabet.now text.now (IsReadable allow_empty) }
{
    // Here the invariant is used.
    let _letters = alphabet.len();
    read(alphabet, alloc, text, allow_empty)
}
