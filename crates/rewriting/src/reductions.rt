// Reduction of a word, which is read once with a stack of states.
ghost use Rattle.std.specs.Prelude.{◌≡◌, ◌+◌, ◌-◌, ◌<◌, ◌≤◌, [], ◌∷◌, ◌++◌, length, take, reverse, IfOk, OnOk};
ghost use Rattle.theory.specs.Completion.{IsReduced, Listed, Reduces};
ghost use Rattle.rewriting.specs.Tables.{IsTableOf};
ghost use Rattle.rewriting.specs.Tries.{words_of};
ghost use Rattle.rewriting.specs.Reductions.{IsReductionAt, IsReductionBy, kept, weight_at, weight_of};

use crate::factors::word_of;
use crate::index_automaton::IndexAutomaton;
use crate::rule_lists::Rules;
use crate::traces::follow;
use ports::NoMemory;
use std::alloc::Global;
use words::{Letter, Word};

/// A word that is being reduced, and the room for one: the letters that are read, the states of
/// each front of them, and the letters that are left, the next one last.
#[derive(Drop)]
pub struct Reduction {
    pub done: Vec<Letter>,
    pub states: Vec<usize>,
    pub rest: Vec<Letter>,
}

impl Reduction {
    /// The room of no word. It takes no memory.
    pub fn new(alloc: Global) -> Reduction
        ensures done { result.done.items ≡ [] }
        ensures states { result.states.items ≡ [] }
        ensures rest { result.rest.items ≡ [] }
    {
        Reduction {
            done: Vec::new(alloc),
            states: Vec::new(alloc),
            rest: Vec::new(alloc),
        }
    }
}

// Puts the letters at the end, the last one first.
fn put_reversed(rest: &mut Vec<Letter>, letters: &[Letter]) -> Result<(), NoMemory>
    ensures { OnOk result (rest.new.items ≡ rest.old.items ++ reverse letters.now) }
{
    for place in (0..letters.len()).rev() {
        rest.push(letters[place])?;
    }
    Ok(())
}

/// Nothing is read of the word, in the room of what was read before. Refused only where memory is
/// wanting.
pub fn begin(reduction: &mut Reduction, word: &Word) -> Result<(), NoMemory>
    ensures done { OnOk result (reduction.new.done.items ≡ []) }
    ensures states { OnOk result (reduction.new.states.items ≡ 0 ∷ []) }
    ensures rest { OnOk result (reduction.new.rest.items ≡ reverse word.now) }
{
    reduction.done.clear();
    reduction.states.clear();
    reduction.rest.clear();
    reduction.done.reserve(word.len())?;
    reduction.states.reserve(word.len().saturating_add(1))?;
    reduction.rest.reserve(word.len())?;
    reduction.states.push(0)?;
    put_reversed(&mut reduction.rest, word.letters())
}

/// The letter is read, and the state follows. Refused only where memory is wanting.
pub fn push(reduction: &mut Reduction, letter: Letter, state: usize) -> Result<(), NoMemory>
    ensures done { OnOk result
        (reduction.new.done.items ≡ reduction.old.done.items ++ letter ∷ []) }
    ensures states { OnOk result
        (reduction.new.states.items ≡ reduction.old.states.items ++ state ∷ []) }
    ensures rest { OnOk result (reduction.new.rest.items ≡ reduction.old.rest.items) }
{
    reduction.done.push(letter)?;
    reduction.states.push(state)?;
    Ok(())
}

/// A left side ends at the next letter: back to where it began, with the right side to be read.
/// Refused only where memory is wanting.
pub fn go_back(reduction: &mut Reduction, rule: &(Word, Word)) -> Result<(), NoMemory>
    requires some { 0 < length rule.now.0 }
    requires within { length rule.now.0 ≤ length reduction.old.done.items + 1 }
    ensures done { OnOk result (reduction.new.done.items
        ≡ take (kept reduction.old rule.now.0) reduction.old.done.items) }
    ensures states { OnOk result (reduction.new.states.items
        ≡ take (kept reduction.old rule.now.0 + 1) reduction.old.states.items) }
    ensures rest { OnOk result
        (reduction.new.rest.items ≡ reduction.old.rest.items ++ reverse rule.now.1) }
{
    let keep = reduction.done.len() - (rule.0.len() - 1);
    reduction.done.truncate(keep);
    reduction.states.truncate(keep + 1);
    put_reversed(&mut reduction.rest, rule.1.letters())?;
    Ok(())
}

impl IndexAutomaton {
    // Reads one letter.
    fn read_letter(
        &self,
        rules: &Rules,
        word: &Word,
        reduction: &mut Reduction,
        letter: Letter,
    ) -> Result<(), NoMemory>
        requires table { IsTableOf self.now.letters rules.now self.now }
        requires reducing { IsReductionAt rules.now (words_of rules.now self.now.prefixes) word.now
            letter reduction.old }
        ensures reducing { OnOk result (IsReductionBy rules.now
            (words_of rules.now self.now.prefixes) word.now reduction.new) }
        ensures less { OnOk result (weight_of rules.now word.now reduction.new
            < weight_at rules.now word.now letter reduction.old) }
    {
        let _count = rules.len();
        let state = reduction.states[reduction.done.len()];
        let step = self.read(state, letter);
        let _applied = follow(reduction, rules, letter, step)?;
        Ok(())
    }

    // The same in room that is there.
    fn reduce_in(
        &self,
        room: &mut Reduction,
        alloc: Global,
        rules: &Rules,
        word: &Word,
    ) -> Result<Word, NoMemory>
        requires { IsTableOf self.now.letters rules.now self.now }
        ensures reached { IfOk result (λ w. Reduces (Listed rules.now) word.now w) }
        ensures reduced { IfOk result (λ w. IsReduced (Listed rules.now) w) }
    {
        let _count = rules.len();
        begin(room, word)?;
        while let Some(letter) = room.rest.pop() {
            self.read_letter(rules, word, room, letter)?;
        }
        word_of(alloc, room.done.as_slice())
    }

    /// A word to which the rules lead from the word, and to which none applies; the automaton is
    /// that of the rules. The word is read once, letter by letter, and where a left side ends,
    /// reading goes on where it began with the right side. Refused only where memory is wanting.
    pub fn reduce(&self, alloc: Global, rules: &Rules, word: &Word) -> Result<Word, NoMemory>
        requires { IsTableOf self.now.letters rules.now self.now }
        ensures reached { IfOk result (λ w. Reduces (Listed rules.now) word.now w) }
        ensures reduced { IfOk result (λ w. IsReduced (Listed rules.now) w) }
    {
        let mut room = Reduction::new(alloc);
        self.reduce_in(&mut room, alloc, rules, word)
    }
}
