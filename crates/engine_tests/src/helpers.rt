// What several tests build.
ghost use Rattle.std.specs.Prelude.{◌≡◌, length, true, false, IfSome};
ghost use Rattle.theory.specs.Word.{IsOver};

use presentation::{Congruence, Kind, Pairs, Presentation};
use race::{Progress, Racer};
use std::alloc::Global;
use std::sync::atomic::{AtomicBool, Ordering};
use word_powers::read_powers;
use words::{Alphabet, Word};

/// The word of a text with powers; `None` where it is none.
pub fn word(alloc: Global, alphabet: &Alphabet, text: &str) -> Option<Word>
    ensures { IfSome result (IsOver (length alphabet.now)) }
{
    read_powers(alphabet, alloc, text.as_bytes(), true).ok()
}

// Adds the relation of two texts.
fn add(alloc: Global, presentation: &mut Presentation, sides: &(&str, &str)) -> Option<()> {
    let left = word(alloc, presentation.alphabet(), sides.0)?;
    let right = word(alloc, presentation.alphabet(), sides.1)?;
    presentation.add(left, right).ok()
}

/// The monoid or semigroup of the relations.
pub fn presented(
    alloc: Global,
    letters: &str,
    monoid: bool,
    relations: &[(&str, &str)],
) -> Option<Presentation> {
    let alphabet = Alphabet::new(alloc, letters.as_bytes()).ok()?;
    let mut presentation = Presentation::new(alloc, alphabet, monoid);
    for sides in relations {
        add(alloc, &mut presentation, sides)?;
    }
    Some(presentation)
}

/// The congruence without pairs on the monoid of one letter with these relations.
pub fn right_congruence(alloc: Global, relations: &[(&str, &str)]) -> Option<Congruence>
    ensures { IfSome result (λ c. c.congruence.kind ≡ Kind.Right) }
{
    let monoid = presented(alloc, "a", true, relations)?;
    Some(Congruence::new(monoid, Kind::Right, Pairs::new(alloc)))
}

/// Whether the turns give these answers, one after another.
pub fn gives<R: Racer>(mut engine: R, answers: &[Progress]) -> bool {
    for answer in answers {
        if engine.advance() != *answer {
            return false;
        }
    }
    true
}

// How often a thread looks for a mark that is to come.
pub const MANY: u32 = 200_000_000;

// Sets a mark, and looks so often for another. Whether it was seen.
fn meets(mine: &AtomicBool, other: &AtomicBool, looks: u32) -> bool {
    mine.store(true, Ordering::SeqCst);
    for _ in 0..looks {
        if other.load(Ordering::SeqCst) {
            return true;
        }
    }
    false
}

/// Looks for the mark of another, and sets its own before.
#[derive(Drop)]
pub struct Seeker<'a> {
    mine: &'a AtomicBool,
    other: &'a AtomicBool,
    looks: u32,
    pub saw: bool,
    pub done: bool,
}

/// One that has not looked.
pub fn seeks<'a>(mine: &'a AtomicBool, other: &'a AtomicBool, looks: u32) -> Seeker<'a>
    ensures { result.done ≡ false }
{
    Seeker {
        mine,
        other,
        looks,
        saw: false,
        done: false,
    }
}

impl<'a> Seeker<'a> {
    /// Sets its mark, and looks for the other.
    pub fn look(&mut self)
        ensures { self.new.done ≡ true }
    {
        self.saw = meets(self.mine, self.other, self.looks);
        self.done = true;
    }
}
