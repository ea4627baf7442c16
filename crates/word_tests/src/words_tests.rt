// Where texts of alphabets and words go wrong.
use std::test::Fail;
use word_powers::{PowerFault, read_powers};
use words::{Alphabet, AlphabetFault, Letter, MARKER, WordFault};

// Why the text is no alphabet of lower case.
const NARROW: [(&[u8], Option<AlphabetFault>); 6] = [
    (b"", Some(AlphabetFault::Empty)),
    (b"ab", None),
    (b"aB", Some(AlphabetFault::NotALetter(1))),
    (b"aba", Some(AlphabetFault::Repeated(2))),
    (b"a1", Some(AlphabetFault::NotALetter(1))),
    (b"aa1", Some(AlphabetFault::Repeated(1))),
];

// Why the text is no alphabet of both cases.
const WIDE: [(&[u8], Option<AlphabetFault>); 7] = [
    (b"", Some(AlphabetFault::Empty)),
    (b"aB", None),
    (b"ZzAa", None),
    (b"aBa", Some(AlphabetFault::Repeated(2))),
    (b"A[", Some(AlphabetFault::NotALetter(1))),
    (b"@", Some(AlphabetFault::NotALetter(0))),
    (b"a#", Some(AlphabetFault::NotALetter(1))),
];

#[test]
fn tells_why_a_text_is_no_alphabet(rt: HostRuntime) {
    for (text, want) in &NARROW {
        assert_eq!(rt; Alphabet::new(rt.alloc(), text).err(), *want);
    }
    for (text, want) in &WIDE {
        assert_eq!(rt; Alphabet::wide(rt.alloc(), text).err(), *want);
    }
}

#[test]
fn the_marker_is_a_further_last_letter(rt: HostRuntime) -> Result<(), Fail> {
    let alloc = rt.alloc();
    let alphabet = Alphabet::wide(alloc, b"bA")?;
    assert!(rt; !alphabet.has_marker());
    let marked = alphabet.with_marker(alloc)?;
    assert!(rt; marked.has_marker());
    assert_eq!(rt; marked.letter(MARKER).map(Letter::number), Some(2));
    Ok(())
}

// So many letters `a`, the text behind them, and why they are no word of a semigroup over `ab`.
const TEXTS: [(usize, &[u8], Option<WordFault>); 8] = [
    (0, b"1", Some(WordFault::EmptyWord)),
    (0, b"", Some(WordFault::EmptyWord)),
    (0, b"ac", Some(WordFault::NotInAlphabet(1))),
    (0, b"a1", Some(WordFault::NotInAlphabet(1))),
    (4095, b"b", None),
    (4095, b"c", Some(WordFault::NotInAlphabet(4095))),
    (4096, b"b", Some(WordFault::TooLong)),
    (4096, b"c", Some(WordFault::TooLong)),
];

#[test]
fn tells_why_a_text_is_no_word(rt: HostRuntime) -> Result<(), Fail> {
    let alloc = rt.alloc();
    let alphabet = Alphabet::new(alloc, b"ab")?;
    for (count, last, want) in &TEXTS {
        let mut text = vec![in alloc; b'a'; *count]?;
        text.extend_from_slice(last)?;
        let fault = alphabet.read_word(alloc, &text, false).err();
        assert_eq!(rt; fault, *want, "{count}");
    }
    Ok(())
}

// Why the text is no word with powers.
const POWERS: [(&[u8], PowerFault); 15] = [
    (b"(ab", PowerFault::BadPower(3)),
    (b"a^05", PowerFault::BadPower(2)),
    (b"a^12345", PowerFault::BadPower(6)),
    (b"a)", PowerFault::BadPower(1)),
    (b"1a", PowerFault::BadPower(1)),
    (b"2", PowerFault::BadPower(0)),
    (b"(((((((((", PowerFault::BadPower(8)),
    (b"()", PowerFault::BadPower(1)),
    (b"a^", PowerFault::BadPower(2)),
    (b"a^2^3", PowerFault::BadPower(3)),
    (b"ac", PowerFault::NotInAlphabet(1)),
    (b"1c", PowerFault::NotInAlphabet(1)),
    (b"(a^*", PowerFault::NotInAlphabet(3)),
    (b"a^4097", PowerFault::TooLong),
    (b"1", PowerFault::EmptyWord),
];

#[test]
fn tells_where_powers_go_wrong(rt: HostRuntime) -> Result<(), Fail> {
    let alloc = rt.alloc();
    let alphabet = Alphabet::new(alloc, b"ab")?;
    for (text, want) in &POWERS {
        let fault = read_powers(&alphabet, alloc, text, false).err();
        assert_eq!(rt; fault, Some(*want));
    }
    Ok(())
}
