// Single edges of an automaton, and single questions about a frame.
ghost use Rattle.std.specs.Prelude.{◌≡◌, ◌≤◌, length, IfSome};
ghost use Rattle.rewriting.specs.Rules.{AreOver};

use crate::helpers::word;
use reduced_automaton::{Automaton, Frame};
use rewriting::Rules;
use std::alloc::Global;
use std::process::Abort;
use words::{Alphabet, Letter, shortlex};

// The rule of two texts, if it falls; else none.
fn rules_of(alloc: Global, alphabet: &Alphabet, left: &str, right: &str) -> Option<Rules>
    ensures { IfSome result (AreOver (length alphabet.now)) }
{
    let left = word(alloc, alphabet, left)?;
    let right = word(alloc, alphabet, right)?;
    let mut rules = Rules::new(alloc);
    if shortlex(&right, &left).is_lt() {
        rules.push(left, right).ok()?;
    }
    Some(rules)
}

// The automaton of that rule.
fn automaton(alloc: Global, alphabet: &Alphabet, left: &str, right: &str) -> Option<Automaton>
    ensures { IfSome result (λ a. a.letters ≡ length alphabet.now) }
{
    let rules = rules_of(alloc, alphabet, left, right)?;
    Automaton::build(alloc, alphabet.len(), &rules).ok()
}

// The one state is the empty word, and the first letter makes the left side.
fn check_steps(rt: &impl Abort, automaton: &Automaton) {
    assert!(rt; automaton.states() == 1);
    assert!(rt; automaton.step_from(0, Letter::new(0)).is_none());
    assert!(rt; automaton.step_from(0, Letter::new(1)) == Some(0));
}

// Whether no rule applies to the word of the text.
fn is_reduced(alloc: Global, alphabet: &Alphabet, automaton: &Automaton, text: &str) -> Option<bool>
    requires { automaton.now.letters ≡ length alphabet.now }
{
    let word = word(alloc, alphabet, text)?;
    Some(automaton.is_reduced(&word))
}

fn check_words(rt: &impl Abort, alloc: Global, alphabet: &Alphabet, automaton: &Automaton)
    requires { automaton.now.letters ≡ length alphabet.now }
{
    assert!(rt; is_reduced(alloc, alphabet, automaton, "bab") == Some(false));
    assert!(rt; is_reduced(alloc, alphabet, automaton, "bb") == Some(true));
}

#[test]
fn a_left_side_leads_nowhere(rt: HostRuntime) {
    let alphabet = Alphabet::new(rt.alloc(), b"ab").expect(&rt, "an alphabet");
    let automaton = automaton(rt.alloc(), &alphabet, "a", "").expect(&rt, "an automaton");
    check_steps(&rt, &automaton);
    check_words(&rt, rt.alloc(), &alphabet, &automaton);
}

// The frame of the texts and so many letters.
fn frame(alloc: Global, alphabet: &Alphabet, around: &(&str, usize, &str)) -> Option<Frame>
    requires { around.now.1 ≤ length alphabet.now }
    ensures { IfSome result (λ f. f.letters ≤ length alphabet.now) }
{
    Some(Frame {
        prefix: word(alloc, alphabet, around.0)?,
        letters: around.1,
        suffix: word(alloc, alphabet, around.2)?,
    })
}

// Whether the word in the frame that follows the one text is the other, or there is none.
fn follows(
    alloc: Global,
    alphabet: &Alphabet,
    automaton: &Automaton,
    frame: &Frame,
    texts: (&str, Option<&str>),
) -> Option<bool>
    requires { frame.now.letters ≤ automaton.now.letters }
{
    let after = word(alloc, alphabet, texts.0)?;
    match (automaton.next_in(frame, Some(&after)).ok()?, texts.1) {
        (Some(next), Some(text)) => Some(next == word(alloc, alphabet, text)?),
        (next, text) => Some(next.is_none() && text.is_none()),
    }
}

// The sides of a rule over bcm; a prefix, so many letters and a suffix; a cursor, which need not be
// in the frame; whether infinitely many words stand in it, and the next. With no letter there is
// the empty word alone, and around a prefix that is not reduced there is none.
type Row<'a> = (
    [&'a str; 2],
    (&'a str, usize, &'a str),
    &'a str,
    (bool, Option<&'a str>),
);

const ASKED: [Row<'static>; 5] = [
    (["cm", "m"], ("", 2, "m"), "bc", (true, Some("cb"))),
    (["cm", "m"], ("", 2, "m"), "cm", (true, Some("bbb"))),
    (["cm", "m"], ("", 0, "m"), "", (false, None)),
    (["bc", ""], ("b", 2, ""), "", (true, Some("b"))),
    (["bc", ""], ("bc", 2, ""), "", (false, None)),
];

// Whether the automaton tells this of the frame.
fn tells(
    alloc: Global,
    alphabet: &Alphabet,
    automaton: &Automaton,
    frame: &Frame,
    after: &str,
    want: (bool, Option<&str>),
) -> Option<bool>
    requires { frame.now.letters ≤ automaton.now.letters }
{
    let is_infinite = automaton.is_infinite_in(frame).ok()?;
    let is_next = follows(alloc, alphabet, automaton, frame, (after, want.1))?;
    Some(is_infinite == want.0 && is_next)
}

// The automaton of the row's rule answers.
fn check_row(rt: &impl Abort, alloc: Global, alphabet: &Alphabet, row: &Row) {
    let (rule, around, after, want) = row;
    assert!(rt; around.1 <= alphabet.len());
    let frame = frame(alloc, alphabet, around).expect(rt, "a frame");
    let automaton = automaton(alloc, alphabet, rule[0], rule[1]).expect(rt, "an automaton");
    assert!(rt; tells(alloc, alphabet, &automaton, &frame, after, *want) == Some(true));
    drop(automaton);
}

// Each row is answered.
fn check_rows(rt: &impl Abort, alloc: Global, rows: &[Row]) {
    let alphabet = Alphabet::new(alloc, b"bcm").expect(rt, "an alphabet");
    for row in rows {
        check_row(rt, alloc, &alphabet, row);
    }
}

#[test]
fn asks_once_for_a_frame(rt: HostRuntime) {
    check_rows(&rt, rt.alloc(), &ASKED);
}
