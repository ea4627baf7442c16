// What is found once for a frame, and the next word in it.
ghost use Rattle.std.specs.Prelude.{◌≡◌, ◌<◌, ◌≤◌, ◌↔◌, ℕ, Some, None, length, IfOk, IsTrue, MatchOption, OnOk};
ghost use Rattle.std.specs.Option.{option_copied};
ghost use Rattle.theory.specs.Graph.{path as path_of};
ghost use Rattle.theory.specs.ShortLex.{◌≺◌};
ghost use Rattle.theory.specs.Listing.{IsLast, IsNext};
ghost use Rattle.reduced_automaton.specs.Framings.{IsFraming, IsFramingIn, IsLeastFrom, IsNextLength, IsPathIn, IsUnder, paths_in};
ghost use Rattle.reduced_automaton.specs.Paths.{GoesFar, IsLastOfLength, IsNextOfLength};
ghost use Rattle.rewriting.specs.Tables.{edges};

use crate::frames::{Frame, Scope};
use crate::marks::{ends_of, layer_behind, leading, limit_of};
use crate::paths::FramePaths;
use crate::readers::{least_word, next_as_long};
use ports::NoMemory;
use rewriting::IndexAutomaton;
use std::alloc::Global;
use words::Word;

/// Where the prefix leads; the least number that is greater than the length of each word in the
/// frame, if there is one; how many letters are enough to lead from a node to an end, where any
/// do; and the layers that have been found: layer n marks the nodes from which just n letters do.
#[derive(Drop)]
pub struct Framing {
    pub start: Option<usize>,
    pub limit: Option<usize>,
    pub spread: usize,
    pub layers: Vec<Vec<bool>>,
}

// Whether the number is below the limit, or there is none.
fn is_under(limit: Option<usize>, count: usize) -> bool
    ensures { IsTrue result ↔ IsUnder limit count }
{
    match limit {
        None => true,
        Some(limit) => count < limit,
    }
}

impl Framing {
    /// What is found once for the frame. Refused only where memory is wanting.
    pub fn of(alloc: Global, graph: &IndexAutomaton, frame: &Frame) -> Result<Framing, NoMemory>
        requires { frame.now.letters ≤ graph.now.letters }
        ensures { IfOk result (IsFraming graph.now.letters (edges graph.now) frame.now) }
    {
        let _letters = graph.letters();
        let ends = ends_of(alloc, graph, frame)?;
        let origins = leading(alloc, graph, frame, ends.as_slice())?;
        let spread = origins.spread;
        let marks = origins.marks;
        let start = graph.path(&frame.prefix);
        let limit = match start {
            None => Some(0),
            Some(node) => limit_of(alloc, graph, frame, marks, node)?,
        };
        let mut layers = Vec::new(alloc);
        layers.push(ends)?;
        Ok(Framing {
            start,
            limit,
            spread,
            layers,
        })
    }

    // Finds the layers up to this one.
    fn grow(&mut self, scope: &Scope, count: usize) -> Result<(), NoMemory>
        requires { IsFramingIn scope.now self.old }
        ensures framing { IsFramingIn scope.now self.new }
        ensures known { OnOk result (count < length self.new.layers.items) }
    {
        let _letters = scope.graph.letters();
        while self.layers.len() <= count {
            let last = self.layers[self.layers.len() - 1].as_slice();
            let layer = layer_behind(scope.alloc, scope.graph, scope.frame.letters, last)?;
            self.layers.push(layer)?;
        }
        Ok(())
    }

    // The least word in the frame that is as long as the word, and greater.
    fn next_of_length(
        &mut self,
        scope: &Scope,
        start: usize,
        word: &Word,
    ) -> Result<Option<Word>, NoMemory>
        requires framing { IsFramingIn scope.now self.old }
        requires start { self.old.start ≡ Some start }
        ensures framing { IsFramingIn scope.now self.new }
        ensures next { IfOk result (λ next. MatchOption next
            (IsLastOfLength (paths_in scope.now) start word.now)
            (IsNextOfLength (paths_in scope.now) start word.now)) }
    {
        if !is_under(self.limit, word.len()) {
            return Ok(None);
        }
        self.grow(scope, word.len())?;
        let paths = FramePaths::new(scope.graph, scope.frame, self.layers.as_slice());
        next_as_long(scope.alloc, &paths, start, word)
    }

    // The least length of a word in the frame, from a number on.
    fn next_length(
        &mut self,
        scope: &Scope,
        start: usize,
        from: usize,
    ) -> Result<Option<usize>, NoMemory>
        requires framing { IsFramingIn scope.now self.old }
        requires start { self.old.start ≡ Some start }
        ensures framing { IsFramingIn scope.now self.new }
        ensures known { IfOk result (λ next. MatchOption next (Unit {0})
            (λ count. count < length self.new.layers.items)) }
        ensures next { IfOk result (λ next. MatchOption next
            (GoesFar (paths_in scope.now) start from → ⊥)
            (IsNextLength (paths_in scope.now) start from)) }
    {
        let _letters = scope.graph.letters();
        if !is_under(self.limit, from) {
            return Ok(None);
        }
        let mut count = from;
        for more in 0..self.spread {
            self.grow(scope, count)?;
            if self.layers[count][start] {
                return Ok(Some(count));
            }
            count += 1;
        }
        Ok(None)
    }

    // The least word in the frame of at least so many letters.
    fn least_from(
        &mut self,
        scope: &Scope,
        start: usize,
        from: usize,
    ) -> Result<Option<Word>, NoMemory>
        requires framing { IsFramingIn scope.now self.old }
        requires start { self.old.start ≡ Some start }
        ensures framing { IsFramingIn scope.now self.new }
        ensures next { IfOk result (λ next. MatchOption next
            (GoesFar (paths_in scope.now) start from → ⊥)
            (IsLeastFrom (paths_in scope.now) start from)) }
    {
        let Some(count) = self.next_length(scope, start, from)? else {
            return Ok(None);
        };
        let paths = FramePaths::new(scope.graph, scope.frame, self.layers.as_slice());
        Ok(Some(least_word(scope.alloc, &paths, start, count)?))
    }

    /// The least word in the frame after the cursor, or the least at all; `None` exactly where
    /// there is none. Refused only where memory is wanting.
    pub fn next_after(
        &mut self,
        scope: &Scope,
        after: Option<&Word>,
    ) -> Result<Option<Word>, NoMemory>
        requires { IsFramingIn scope.now self.old }
        ensures framing { IsFramingIn scope.now self.new }
        ensures next { IfOk result (λ next. MatchOption next
            (IsLast (IsPathIn (edges scope.now.graph.now) scope.now.frame.now) ◌≺◌
            (option_copied after.entry))
            (IsNext (IsPathIn (edges scope.now.graph.now) scope.now.frame.now) ◌≺◌
            (option_copied after.entry))) }
    {
        let Some(start) = self.start else {
            return Ok(None);
        };
        let Some(word) = after else {
            return self.least_from(scope, start, 0);
        };
        let next = self.next_of_length(scope, start, word)?;
        if next.is_some() {
            return Ok(next);
        }
        self.least_from(scope, start, word.letters().len() + 1)
    }
}
