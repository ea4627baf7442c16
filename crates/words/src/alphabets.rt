// Alphabets, and words as texts.
ghost use Rattle.std.specs.Prelude.{◌≡◌, ◌≢◌, ℕ, ◌<◌, ◌≤◌, ◌↔◌, Bool, true, false, IsTrue, List, [], ◌∷◌, ◌++◌, length, Contains, slice_get, IfOk, IfErr, IfSome};
ghost use Rattle.theory.specs.Word.{IsOver};
ghost use Rattle.words.specs.Alphabet.{IsAlphabet, IsAlphabetFault, IsAlphabetOf, IsLetterByte, alphabet_fault, fault_at, first_fault, is_letter, marker, place_of};
ghost use Rattle.words.specs.WordText.{IsWordFault, ReadsBack, first_stranger, letters_of, text_of, word_of, is_empty_text};

use crate::fault::{AlphabetFault, WordFault};
use crate::letters::{Letter, Word};
use ports::NoMemory;
use std::alloc::Global;
use std::marker::Model;

// The most letters of a word that is read.
const MOST_LETTERS: usize = 4096;

/// The byte of the marker: a letter that no alphabet of [`new`](Alphabet::new) or
/// [`wide`](Alphabet::wide) has, for words that are set apart from all that they read.
pub const MARKER: u8 = b'#';

/// An alphabet: one or more letters, no two alike, in order (libsemigroups, the alphabet of a
/// `Presentation`). Each is a byte from `a` to `z` or from `A` to `Z`, or the [`MARKER`]; so there
/// are at most 53.
#[derive(Drop)]
pub struct Alphabet {
    bytes: Vec<u8>,
}

impl Model for Alphabet {
    ghost use Rattle.std.specs.Prelude.{List, ℕ};
    ghost use Rattle.words.specs.Alphabet.{IsAlphabet};

    ghost Value = { List ℕ };

    ghost view = { λ a. a.bytes.items };

    ghost invariant = { λ a. IsAlphabet a.bytes.items };
}

/// Whether the byte is a letter: of lower case, or where letters are wide of one of both cases.
pub fn is_letter(wide: bool, byte: u8) -> bool
    ensures { result ≡ is_letter wide byte }
{
    byte.is_ascii_lowercase() || (wide && byte.is_ascii_uppercase())
}

// What is wrong with a byte behind these letters.
fn fault_at(wide: bool, before: &[u8], byte: u8) -> Option<AlphabetFault>
    ensures { result ≡ fault_at wide before.now byte }
{
    if !is_letter(wide, byte) {
        return Some(AlphabetFault::NotALetter(before.len()));
    }
    if before.contains(&byte) {
        return Some(AlphabetFault::Repeated(before.len()));
    }
    None
}

// The first fault from the left.
fn first_fault(wide: bool, text: &[u8]) -> Option<AlphabetFault>
    ensures { result ≡ first_fault wide [] text.now }
{
    for (place, byte) in text.iter().enumerate() {
        let fault = fault_at(wide, &text[..place], *byte);
        if fault.is_some() {
            return fault;
        }
    }
    None
}

// Why the text is no alphabet.
fn alphabet_fault(wide: bool, text: &[u8]) -> Option<AlphabetFault>
    ensures { result ≡ alphabet_fault wide text.now }
{
    if text.is_empty() {
        return Some(AlphabetFault::Empty);
    }
    first_fault(wide, text)
}

// Whether the text stands for the empty word.
fn is_empty_text(text: &[u8]) -> bool
    ensures { result ≡ is_empty_text text.now }
{
    match text {
        [] => true,
        [byte] => *byte == b'1',
        _ => false,
    }
}

// The bytes, and one more behind them.
fn with_byte(alloc: Global, bytes: &[u8], byte: u8) -> Result<Vec<u8>, NoMemory>
    ensures { IfOk result (λ longer. longer.items ≡ bytes.now ++ byte ∷ []) }
{
    let mut longer = Vec::from_slice(alloc, bytes)?;
    longer.push(byte)?;
    Ok(longer)
}

impl Alphabet {
    /// The alphabet of these bytes. Refused with `Empty` exactly where there is no byte, and else
    /// with `NotALetter` or `Repeated` exactly at the first byte from the left that is none of `a`
    /// to `z` or stands at an earlier place too; with `NoMemory` only where there is no such fault.
    pub fn new(alloc: Global, text: &[u8]) -> Result<Alphabet, AlphabetFault>
        ensures ok { IfOk result (λ alphabet. alphabet ≡ text.now) }
        ensures faultless { IfOk result (λ _. alphabet_fault false text.now ≡ None) }
        ensures alphabet { IfOk result (IsAlphabetOf (IsLetterByte false)) }
        ensures err { IfErr result (IsAlphabetFault (alphabet_fault false text.now)) }
    {
        Alphabet::of_letters(alloc, false, text)
    }

    /// The alphabet of these bytes, as [`new`](Alphabet::new) gives it, where `A` to `Z` are
    /// letters too.
    pub fn wide(alloc: Global, text: &[u8]) -> Result<Alphabet, AlphabetFault>
        ensures ok { IfOk result (λ alphabet. alphabet ≡ text.now) }
        ensures faultless { IfOk result (λ _. alphabet_fault true text.now ≡ None) }
        ensures alphabet { IfOk result (IsAlphabetOf (IsLetterByte true)) }
        ensures err { IfErr result (IsAlphabetFault (alphabet_fault true text.now)) }
    {
        Alphabet::of_letters(alloc, true, text)
    }

    // The alphabet of these bytes, of one case or of both.
    fn of_letters(alloc: Global, wide: bool, text: &[u8]) -> Result<Alphabet, AlphabetFault>
        ensures ok { IfOk result (λ alphabet. alphabet ≡ text.now) }
        ensures faultless { IfOk result (λ _. alphabet_fault wide text.now ≡ None) }
        ensures alphabet { IfOk result (IsAlphabetOf (IsLetterByte wide)) }
        ensures err { IfErr result (IsAlphabetFault (alphabet_fault wide text.now)) }
    {
        if let Some(fault) = alphabet_fault(wide, text) {
            return Err(fault);
        }
        let bytes = Vec::from_slice(alloc, text)?;
        Ok(Alphabet { bytes })
    }

    /// Whether the marker is one of the letters.
    pub fn has_marker(&self) -> bool
        ensures { IsTrue result ↔ Contains self.now marker }
    {
        self.bytes.contains(&MARKER)
    }

    /// The alphabet with the marker as one further last letter; it has none yet. Refused only where
    /// memory is wanting.
    pub fn with_marker(&self, alloc: Global) -> Result<Alphabet, NoMemory>
        requires { ¬ Contains self.now marker }
        ensures { IfOk result (λ alphabet. alphabet ≡ self.now ++ marker ∷ []) }
    {
        let bytes = with_byte(alloc, self.bytes.as_slice(), MARKER)?;
        Ok(Alphabet { bytes })
    }

    /// How many letters the alphabet has: from 1 to 53.
    pub fn len(&self) -> usize
        ensures len { result ≡ length self.now }
        ensures alphabet { IsAlphabet self.now }
        ensures filled { 0 < result }
        ensures few { result ≤ 53 }
    {
        let bytes = &self.bytes;
        bytes.len()
    }

    /// The letter that the byte is: its place. `None` exactly where the alphabet does not have it.
    pub fn letter(&self, byte: u8) -> Option<Letter>
        ensures letter { result ≡ place_of self.now byte }
        ensures within { IfSome result (λ letter. letter < length self.now) }
    {
        match self.place(byte) {
            Some(place) => Some(Letter::new(place as u8)),
            None => None,
        }
    }

    // The place of the byte.
    fn place(&self, byte: u8) -> Option<usize>
        ensures place { result ≡ place_of self.now byte }
        ensures alphabet { IsAlphabet self.now }
    {
        self.bytes.iter().position(|other| *other == byte)
    }

    /// The byte of a letter of the alphabet.
    pub fn byte(&self, letter: Letter) -> u8
        requires { letter < length self.now }
        ensures { slice_get self.now letter ≡ Some result }
    {
        self.bytes[letter.number()]
    }

    /// The same alphabet in memory of its own. Refused only where memory is wanting.
    pub fn copy(&self, alloc: Global) -> Result<Alphabet, NoMemory>
        ensures { IfOk result (λ a. a ≡ self.now) }
    {
        let bytes = Vec::from_slice(alloc, self.bytes.as_slice())?;
        Ok(Alphabet { bytes })
    }

    // The place of the first byte that is no letter, among as many as a word may have.
    fn first_stranger(&self, text: &[u8]) -> Option<usize>
        ensures { result ≡ first_stranger self.now text.now }
    {
        text.iter()
            .take(MOST_LETTERS)
            .position(|byte| self.letter(*byte).is_none())
    }

    // The letters of bytes.
    fn letters_of(&self, alloc: Global, text: &[u8]) -> Result<Word, NoMemory>
        ensures { IfOk result (λ word. word ≡ letters_of self.now text.now) }
    {
        let mut word = Word::new(alloc);
        for byte in text {
            if let Some(letter) = self.letter(*byte) {
                word.push(letter)?;
            }
        }
        Ok(word)
    }

    /// The word of a text: the letters of its bytes, and the empty word where it is `1` or has no
    /// byte. Refused with `EmptyWord` exactly where it is the empty word's and that is not allowed;
    /// else with `NotInAlphabet` exactly at the first byte among the first 4,096 that is no letter
    /// of the alphabet; else with `TooLong` exactly where there are more than 4,096 bytes; with
    /// `NoMemory` only where nothing else refuses it.
    pub fn read_word(
        &self,
        alloc: Global,
        text: &[u8],
        allow_empty: bool,
    ) -> Result<Word, WordFault>
        ensures ok { IfOk result (λ word. word_of self.now allow_empty text.now ≡ Ok word) }
        ensures over { IfOk result (IsOver (length self.now)) }
        ensures spells { IfOk result (λ word. text.now ≢ [] → text_of self.now word ≡ text.now) }
        ensures err { IfErr result (IsWordFault (word_of self.now allow_empty text.now)) }
    {
        if is_empty_text(text) {
            return if allow_empty {
                Ok(Word::new(alloc))
            } else {
                Err(WordFault::EmptyWord)
            };
        }
        if let Some(place) = self.first_stranger(text) {
            return Err(WordFault::NotInAlphabet(place));
        }
        if text.len() > MOST_LETTERS {
            return Err(WordFault::TooLong);
        }
        let word = self.letters_of(alloc, text)?;
        Ok(word)
    }

    /// The bytes of a word's letters, and `1` for the empty word. Refused only where memory is
    /// wanting.
    pub fn print_word(&self, alloc: Global, word: &Word) -> Result<Vec<u8>, NoMemory>
        requires { IsOver (length self.now) word.now }
        ensures text { IfOk result (λ text. text.items ≡ text_of self.now word.now) }
        ensures reads_back { IfOk result (λ text. ReadsBack self.now text.items word.now) }
    {
        // Here the invariant is used.
        let _bytes = &self.bytes;
        let text = self.text_of(alloc, word)?;
        Ok(text)
    }

    // The text of a word.
    fn text_of(&self, alloc: Global, word: &Word) -> Result<Vec<u8>, NoMemory>
        requires { IsOver (length self.now) word.now }
        ensures { IfOk result (λ text. text.items ≡ text_of self.now word.now) }
    {
        let mut text = Vec::new(alloc);
        for letter in word.letters() {
            text.push(self.byte(*letter))?;
        }
        if text.is_empty() {
            text.push(b'1')?;
        }
        Ok(text)
    }
}
