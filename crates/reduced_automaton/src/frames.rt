// Frames: the words that are reduced between a prefix and a suffix.
ghost use Rattle.std.specs.Prelude.{◌≡◌, ◌≤◌, ◌↔◌, false, IfOk, IsTrue, MatchOption};
ghost use Rattle.std.specs.Option.{option_copied};
ghost use Rattle.theory.specs.ShortLex.{◌≺◌};
ghost use Rattle.theory.specs.Listing.{IsLast, IsNext, AreFinite, AreInfinite, GoesOnOrEnds};
ghost use Rattle.reduced_automaton.specs.Frames.{IsFramed};

use crate::automata::Automaton;
use crate::framings::Framing;
use ports::NoMemory;
use rewriting::IndexAutomaton;
use std::alloc::Global;
use std::marker::Model;
use words::Word;

/// A frame stands for the words over the first letters, so many, for which the prefix, the word and
/// the suffix, written together, are reduced. Where the prefix or the suffix has a letter that the
/// automaton has not, there is no such word.
#[derive(Drop)]
pub struct Frame {
    pub prefix: Word,
    pub letters: usize,
    pub suffix: Word,
}

/// Where the words of a frame are looked for: the graph, and the frame.
#[derive(Clone, Copy)]
pub struct Scope<'a> {
    pub alloc: Global,
    pub graph: &'a IndexAutomaton,
    pub frame: &'a Frame,
}

/// An automaton with a frame, and what is found once to list the words in it.
#[derive(Drop)]
pub struct Framed {
    automaton: Automaton,
    frame: Frame,
    framing: Framing,
}

impl Model for Framed {
    ghost use Rattle.reduced_automaton.specs.Frames.{FramedReading};
    ghost use Rattle.reduced_automaton.specs.Framings.{IsFraming};

    ghost Value = { FramedReading };

    ghost view = { λ f. record { automaton = f.automaton; frame = f.frame } };

    ghost invariant = { λ f.
        IsFraming f.automaton.letters f.automaton.graph f.frame f.framing };
}

impl Framed {
    /// The automaton with this frame, whose letters are at most as many as its own. Refused only
    /// where memory is wanting.
    pub fn new(automaton: Automaton, frame: Frame) -> Result<Framed, NoMemory>
        requires { frame.letters ≤ automaton.letters }
        ensures automaton { IfOk result (λ f. f.automaton ≡ automaton) }
        ensures frame { IfOk result (λ f. f.frame ≡ frame) }
    {
        let framing = automaton.framing(&frame)?;
        Ok(Framed {
            automaton,
            frame,
            framing,
        })
    }

    /// The automaton.
    pub fn automaton(&self) -> &Automaton
        ensures { result.now ≡ self.now.automaton }
    {
        &self.automaton
    }

    /// The frame.
    pub fn frame(&self) -> &Frame
        ensures { result.now ≡ self.now.frame }
    {
        &self.frame
    }

    /// Whether infinitely many words stand in the frame; else they have a list. It takes no memory.
    pub fn is_infinite(&self) -> bool
        ensures infinite { IsTrue result
            ↔ AreInfinite (IsFramed self.now.automaton self.now.frame) ◌≺◌ }
        ensures finite { result ≡ false
            → AreFinite (IsFramed self.now.automaton self.now.frame) ◌≺◌ }
    {
        self.automaton.is_infinite_by(&self.frame, &self.framing)
    }

    /// The least word in the frame after the cursor in short-lex order, or the least at all; `None`
    /// exactly where there is none. The cursor may be any word. What holds of every frame is told
    /// here: after each cursor comes a next word, or none. Refused only where memory is wanting,
    /// and then all stays as it was, but that more may be found already.
    pub fn next_after(&mut self, after: Option<&Word>) -> Result<Option<Word>, NoMemory>
        ensures automaton { self.new.automaton ≡ self.old.automaton }
        ensures frame { self.new.frame ≡ self.old.frame }
        ensures goes_on { GoesOnOrEnds (IsFramed self.old.automaton self.old.frame) ◌≺◌ }
        ensures next { IfOk result (λ next. MatchOption next
            (IsLast (IsFramed self.old.automaton self.old.frame) ◌≺◌ (option_copied after.entry))
            (IsNext (IsFramed self.old.automaton self.old.frame) ◌≺◌
            (option_copied after.entry))) }
    {
        self.automaton
            .next_by(&self.frame, &mut self.framing, after)
    }
}
