// Words reduced by the rules of a completion, as they are or with the marker.
ghost use Rattle.std.specs.Prelude.{◌≡◌, ℕ, ◌+◌, ◌≤◌, ◌↔◌, false, length, IfOk, IsTrue, MatchOption};
ghost use Rattle.std.specs.Option.{option_copied};
ghost use Rattle.theory.specs.Congruence.{IsWellFormed};
ghost use Rattle.theory.specs.ShortLex.{◌≺◌};
ghost use Rattle.theory.specs.Completion.{IsReduced, Listed, Reduces};
ghost use Rattle.theory.specs.Listing.{IsLast, IsNext, AreFinite, AreInfinite, GoesOnOrEnds};
ghost use Rattle.theory.specs.Word.{Word as Letters};
ghost use Rattle.congruence_classes.specs.Rewriting.{AreRulesOf, IsReducedIn, IsReducerOf, marker_frame, rules_in, within_frame, word_in};

use ports::NoMemory;
use presentation::{Congruence, Kind};
use reduced_automaton::{Automaton, Frame, Framed};
use rewriting::Rules;
use std::alloc::Global;
use words::{Letter, Word};

/// The rules of a completion. With two-sided pairs words are reduced as they are; with right pairs
/// the marker stands before them, with left pairs behind them (libsemigroups, `KnuthBendix`).
#[derive(Drop)]
pub enum Reducer {
    /// Words are reduced as they are.
    Plain(Automaton),
    /// Words are reduced with the marker.
    Marked(Framed),
}

// The word of the letters.
fn word_of(alloc: Global, letters: &[Letter]) -> Result<Word, NoMemory>
    ensures { IfOk result (λ w. w ≡ letters.now) }
{
    let mut word = Word::new(alloc);
    for letter in letters {
        word.push(*letter)?;
    }
    Ok(word)
}

// What stands between the prefix and the suffix.
fn word_inside(alloc: Global, frame: &Frame, word: &Word) -> Result<Word, NoMemory>
    requires { length frame.now.prefix + length frame.now.suffix ≤ length word.now }
    ensures { IfOk result (λ inside. (u : Letters)
        → word.now ≡ within_frame frame.now u → inside ≡ u) }
{
    let letters = word.letters();
    word_of(
        alloc,
        &letters[frame.prefix.len()..letters.len() - frame.suffix.len()],
    )
}

// The frame of the words of the congruence: the marker before them for right pairs, behind them
// for left pairs.
fn marker_frame(alloc: Global, congruence: &Congruence) -> Result<Frame, NoMemory>
    ensures { IfOk result (λ frame. frame ≡ marker_frame congruence.now.congruence) }
{
    let letters = congruence.presentation().letters();
    let mut frame = Frame {
        prefix: Word::new(alloc),
        letters,
        suffix: Word::new(alloc),
    };
    let marker = Letter::new(letters as u8);
    match congruence.kind() {
        Kind::TwoSided => {}
        Kind::Right => frame.prefix.push(marker)?,
        Kind::Left => frame.suffix.push(marker)?,
    }
    Ok(frame)
}

impl Reducer {
    /// The rules of a completion that ends for the congruence. Refused only where memory is
    /// wanting.
    pub fn new(alloc: Global, congruence: &Congruence, rules: &Rules) -> Result<Reducer, NoMemory>
        requires rules { AreRulesOf congruence.now.congruence rules.now }
        ensures { IfOk result (IsReducerOf congruence.now.congruence) }
    {
        let letters = congruence.presentation().letters();
        if congruence.is_two_sided() {
            let automaton = Automaton::build(alloc, letters, rules)?;
            return Ok(Reducer::Plain(automaton));
        }
        let automaton = Automaton::build(alloc, letters + 1, rules)?;
        let frame = marker_frame(alloc, congruence)?;
        Ok(Reducer::Marked(Framed::new(automaton, frame)?))
    }

    // The automaton of the rules.
    fn automaton(&self) -> &Automaton
        ensures { result.now.rules ≡ rules_in self.now }
    {
        match self {
            Reducer::Plain(automaton) => automaton,
            Reducer::Marked(framed) => framed.automaton(),
        }
    }

    /// The rules.
    pub fn rules(&self) -> &Rules
        ensures { result.now ≡ rules_in self.now }
    {
        self.automaton().rules()
    }

    /// The word to which the rules lead from the word as it is reduced here, and to which none
    /// applies. Refused only where memory is wanting.
    pub fn reduce(&self, alloc: Global, word: &Word) -> Result<Word, NoMemory>
        ensures reached { IfOk result (λ w.
            Reduces (Listed (rules_in self.now)) (word_in self.now word.now) w) }
        ensures reduced { IfOk result (λ w. IsReduced (Listed (rules_in self.now)) w) }
    {
        match self {
            Reducer::Plain(automaton) => automaton.reduce(word),
            Reducer::Marked(framed) => {
                let frame = framed.frame();
                let behind = word.concat(alloc, &frame.suffix)?;
                framed
                    .automaton()
                    .reduce(&frame.prefix.concat(alloc, &behind)?)
            }
        }
    }

    /// The word for which this one is reduced here; there is one. Refused only where memory is
    /// wanting.
    pub fn word_inside(&self, alloc: Global, word: Word) -> Result<Word, NoMemory>
        requires { (u : Letters) × (word ≡ word_in self.now u) }
        ensures { IfOk result (λ inside. (u : Letters)
            → word ≡ word_in self.now u → inside ≡ u) }
    {
        match self {
            Reducer::Plain(_) => Ok(word),
            Reducer::Marked(framed) => word_inside(alloc, framed.frame(), &word),
        }
    }

    /// Whether there are infinitely many words over the letters to which no rule applies as they
    /// are reduced here; else they have a list. It takes no memory.
    pub fn is_infinite(&self) -> bool
        ensures infinite { IsTrue result ↔ AreInfinite (IsReducedIn self.now) ◌≺◌ }
        ensures finite { result ≡ false → AreFinite (IsReducedIn self.now) ◌≺◌ }
    {
        match self {
            Reducer::Plain(automaton) => automaton.is_infinite(),
            Reducer::Marked(framed) => framed.is_infinite(),
        }
    }

    /// The least of these words after the cursor, or the least at all; `None` where there is none.
    /// After each cursor comes a next one, or none. Refused only where memory is wanting. The
    /// reducer stays the same, but that more may be found already.
    pub fn next_after(&mut self, after: Option<&Word>) -> Result<Option<Word>, NoMemory>
        ensures kept { self.new ≡ self.old }
        ensures goes_on { GoesOnOrEnds (IsReducedIn self.old) ◌≺◌ }
        ensures next { IfOk result (λ next. MatchOption next
            (IsLast (IsReducedIn self.old) ◌≺◌ (option_copied after.entry))
            (IsNext (IsReducedIn self.old) ◌≺◌ (option_copied after.entry))) }
    {
        match self {
            Reducer::Plain(automaton) => automaton.next_after(after),
            Reducer::Marked(framed) => framed.next_after(after),
        }
    }
}
