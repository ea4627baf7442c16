// The automaton of a list of rules.
ghost use Rattle.std.specs.Prelude.{◌≡◌, ◌<◌, ◌≤◌, ◌↔◌, false, length, IfOk, IsTrue, MatchOption};
ghost use Rattle.std.specs.Option.{option_copied};
ghost use Rattle.theory.specs.Word.{IsOver};
ghost use Rattle.theory.specs.ShortLex.{◌≺◌};
ghost use Rattle.theory.specs.Completion.{IsReduced, Listed, Reduces};
ghost use Rattle.theory.specs.Listing.{IsLast, IsNext, AreFinite, AreInfinite, GoesOnOrEnds};
ghost use Rattle.rewriting.specs.Rules.{AreOver};
ghost use Rattle.rewriting.specs.Tables.{IsStateList};
ghost use Rattle.rewriting.specs.Tries.{Reads, longer};
ghost use Rattle.reduced_automaton.specs.Automaton.{IsReducedWord, Leads};
ghost use Rattle.reduced_automaton.specs.Frames.{IsFramed};
ghost use Rattle.reduced_automaton.specs.Framings.{IsFraming};

use crate::depths::depths_of;
use crate::frames::{Frame, Scope};
use crate::framings::Framing;
use crate::readers::next_path;
use ports::NoMemory;
use rewriting::{IndexAutomaton, Rules};
use std::alloc::Global;
use std::marker::Model;
use words::{Letter, Word};

/// A finite automaton that reads just the words over so many letters to which no rule of a list
/// applies (Sims 1994, 3.5; libsemigroups, the Gilman graph of `KnuthBendix`).
#[derive(Drop)]
pub struct Automaton {
    alloc: Global,
    rules: Rules,
    table: IndexAutomaton,
    depths: Vec<Option<usize>>,
}

impl Model for Automaton {
    ghost use Rattle.reduced_automaton.specs.Automaton.{IsAutomaton, Reading, reading_of};

    ghost Value = { Reading };

    ghost view = { λ a. reading_of a.rules a.table };

    ghost invariant = { λ a. IsAutomaton a.rules a.table a.depths.items };
}

impl Automaton {
    /// The automaton of the rules, whose words are over the letters below `letters`, at most 256.
    /// Refused only where memory is wanting.
    pub fn build(alloc: Global, letters: usize, rules: &Rules) -> Result<Automaton, NoMemory>
        requires few { letters ≤ 256 }
        requires over { AreOver letters rules.now }
        ensures letters { IfOk result (λ a. a.letters ≡ letters) }
        ensures rules { IfOk result (λ a. a.rules ≡ rules.now) }
    {
        let _count = rules.len();
        let rules = rules.copy(alloc)?;
        let table = IndexAutomaton::of(alloc, letters, &rules)?;
        let _letters = table.letters();
        let depths = depths_of(alloc, &table)?;
        Ok(Automaton {
            alloc,
            rules,
            table,
            depths,
        })
    }

    /// How many states there are. What the states are is told here: the empty word is the first,
    /// and the others are the proper prefixes of left sides. It takes no memory.
    pub fn states(&self) -> usize
        ensures count { result ≡ length self.now.states }
        ensures states { IsStateList self.now.rules self.now.states }
    {
        let _rules = &self.rules;
        self.table.nodes()
    }

    // The longest state at the end of the state and the letter, and the rule whose left side stands
    // there.
    fn read(&self, state: usize, letter: Letter) -> (usize, Option<usize>)
        requires { state < length self.now.states }
        ensures { Reads self.now.rules self.now.states
            (longer self.now.states state letter) result.0 result.1 }
    {
        let _count = self.rules.len();
        self.table.read(state, letter)
    }

    /// Where the state's word with the letter leads: `None` exactly where a left side stands at its
    /// end, and else the longest state that does. It takes no memory. It is for those who walk the
    /// automaton themselves; the program makes no call of it.
    pub fn step_from(&self, state: usize, letter: Letter) -> Option<usize>
        requires { state < length self.now.states }
        ensures { Leads self.now.rules self.now.states
            (longer self.now.states state letter) result }
    {
        let (next, end) = self.read(state, letter);
        match end {
            None => Some(next),
            Some(_) => None,
        }
    }

    /// The rules.
    pub fn rules(&self) -> &Rules
        ensures { result.now ≡ self.now.rules }
    {
        &self.rules
    }

    /// A word to which the rules lead from the word, and to which none applies. The word is read
    /// once, letter by letter, and where a left side ends, reading goes on where it began with the
    /// right side. Refused only where memory is wanting.
    pub fn reduce(&self, word: &Word) -> Result<Word, NoMemory>
        ensures reached { IfOk result (λ w. Reduces (Listed self.now.rules) word.now w) }
        ensures reduced { IfOk result (λ w. IsReduced (Listed self.now.rules) w) }
    {
        self.table.reduce(self.alloc, &self.rules, word)
    }

    /// Whether no rule applies to the word, which is over the letters. It takes no memory.
    pub fn is_reduced(&self, word: &Word) -> bool
        requires { IsOver self.now.letters word.now }
        ensures { IsTrue result ↔ IsReduced (Listed self.now.rules) word.now }
    {
        self.table.path(word).is_some()
    }

    /// Whether infinitely many words over the letters are reduced; else they have a list. It takes
    /// no memory.
    pub fn is_infinite(&self) -> bool
        ensures infinite { IsTrue result ↔ AreInfinite (IsReducedWord self.now) ◌≺◌ }
        ensures finite { result ≡ false → AreFinite (IsReducedWord self.now) ◌≺◌ }
    {
        self.depths[0].is_none()
    }

    /// The least reduced word after the cursor in short-lex order, or the least at all; `None`
    /// exactly where there is none. The cursor may be any word. What holds of every automaton is
    /// told here: after each cursor comes a next reduced word, or none. Refused only where memory
    /// is wanting.
    pub fn next_after(&self, after: Option<&Word>) -> Result<Option<Word>, NoMemory>
        ensures goes_on { GoesOnOrEnds (IsReducedWord self.now) ◌≺◌ }
        ensures next { IfOk result (λ next. MatchOption next
            (IsLast (IsReducedWord self.now) ◌≺◌ (option_copied after.entry))
            (IsNext (IsReducedWord self.now) ◌≺◌ (option_copied after.entry))) }
    {
        next_path(self.alloc, &self.table, self.depths.as_slice(), after)
    }

    // What is found once for the frame.
    pub(crate) fn framing(&self, frame: &Frame) -> Result<Framing, NoMemory>
        requires { frame.now.letters ≤ self.now.letters }
        ensures { IfOk result (IsFraming self.now.letters self.now.graph frame.now) }
    {
        Framing::of(self.alloc, &self.table, frame)
    }

    // Whether infinitely many words stand in the frame.
    pub(crate) fn is_infinite_by(&self, frame: &Frame, framing: &Framing) -> bool
        requires { IsFraming self.now.letters self.now.graph frame.now framing.now }
        ensures infinite { IsTrue result ↔ AreInfinite (IsFramed self.now frame.now) ◌≺◌ }
        ensures finite { result ≡ false → AreFinite (IsFramed self.now frame.now) ◌≺◌ }
    {
        let _rules = &self.rules;
        framing.limit.is_none()
    }

    // The least word in the frame after the cursor.
    pub(crate) fn next_by(
        &self,
        frame: &Frame,
        framing: &mut Framing,
        after: Option<&Word>,
    ) -> Result<Option<Word>, NoMemory>
        requires { IsFraming self.now.letters self.now.graph frame.now framing.old }
        ensures framing { IsFraming self.now.letters self.now.graph frame.now framing.new }
        ensures goes_on { GoesOnOrEnds (IsFramed self.now frame.now) ◌≺◌ }
        ensures next { IfOk result (λ next. MatchOption next
            (IsLast (IsFramed self.now frame.now) ◌≺◌ (option_copied after.entry))
            (IsNext (IsFramed self.now frame.now) ◌≺◌ (option_copied after.entry))) }
    {
        let scope = Scope {
            alloc: self.alloc,
            graph: &self.table,
            frame,
        };
        framing.next_after(&scope, after)
    }

    /// Whether infinitely many words stand in the frame, whose letters are at most as many as those
    /// of the automaton; else they have a list. Refused only where memory is wanting.
    pub fn is_infinite_in(&self, frame: &Frame) -> Result<bool, NoMemory>
        requires { frame.now.letters ≤ self.now.letters }
        ensures infinite { IfOk result (λ is.
            IsTrue is ↔ AreInfinite (IsFramed self.now frame.now) ◌≺◌) }
        ensures finite { IfOk result (λ is.
            is ≡ false → AreFinite (IsFramed self.now frame.now) ◌≺◌) }
    {
        let framing = self.framing(frame)?;
        Ok(self.is_infinite_by(frame, &framing))
    }

    /// The least word in the frame after the cursor in short-lex order, or the least at all; `None`
    /// exactly where there is none. The letters of the frame are at most as many as those of the
    /// automaton, and the cursor may be any word. What holds of every frame is told here: after
    /// each cursor comes a next word, or none. Refused only where memory is wanting. What is found
    /// about the frame is not kept: a [`Framed`](crate::Framed) keeps it.
    pub fn next_in(&self, frame: &Frame, after: Option<&Word>) -> Result<Option<Word>, NoMemory>
        requires { frame.now.letters ≤ self.now.letters }
        ensures goes_on { GoesOnOrEnds (IsFramed self.now frame.now) ◌≺◌ }
        ensures next { IfOk result (λ next. MatchOption next
            (IsLast (IsFramed self.now frame.now) ◌≺◌ (option_copied after.entry))
            (IsNext (IsFramed self.now frame.now) ◌≺◌ (option_copied after.entry))) }
    {
        let _rules = &self.rules;
        let mut framing = self.framing(frame)?;
        self.next_by(frame, &mut framing, after)
    }
}
