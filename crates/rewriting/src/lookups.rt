// How rules are found at the end of a word: in a table of those that were there when it was made,
// and by their last letters where they are newer.
ghost use Rattle.std.specs.Prelude.{◌≡◌, ℕ, ◌+◌, ◌<◌, ◌≤◌, [], ◌∷◌, ◌++◌, List, length, map, not, Some, IfOk, OnOk, IsTrue, ◌↔◌, MatchOption};
ghost use Rattle.std.specs.List.{filter, range_with_len};
ghost use Rattle.theory.specs.Word.{Word as Letters};
ghost use Rattle.theory.specs.ShortLex.{◌≺◌};
ghost use Rattle.rewriting.specs.Rules.{AreFalling, stands_in};
ghost use Rattle.rewriting.specs.States.{EndsAt, IsStep};
ghost use Rattle.rewriting.specs.Tables.{IsTableOf};
ghost use Rattle.rewriting.specs.Tries.{longer, words_of, Reads};
ghost use Rattle.rewriting.specs.Reductions.{weight_at, weight_of};
ghost use Rattle.rewriting.specs.Traces.{LeadsOn};
ghost use Rattle.rewriting.specs.Newer.{AreNewer};
ghost use Rattle.rewriting.specs.Parts.{through};
ghost use Rattle.rewriting.specs.Lookups.{IsAtLetter, IsLookup, IsRewriting, IsRewritingAt, StandsLast, moves_of, reads_to};

use crate::index_automaton::IndexAutomaton;
use crate::newer::{Newer, key_of, key_on};
use crate::parts::{part, places_after};
use crate::reductions::Reduction;
use crate::rule_lists::Rules;
use crate::traces::{Applied, follow};
use ports::NoMemory;
use std::alloc::Global;
use std::mem;
use words::{Letter, Word};

// With more newer rules than this the table is made anew. More of them slow each rule that is
// added; fewer cost more tables.
const NEWER_AT_MOST: usize = 32;

// A table with many states is dear: so many of them are worth one newer rule more.
const STATES_FOR_ONE_MORE: usize = 32;

/// The table of the rules that were there when it was made, the place where each of these stands
/// now, if it is still there, the place of the first newer rule, behind which all are newer, and
/// these by their last letters.
#[derive(Drop)]
pub struct Lookup {
    pub table: Option<IndexAutomaton>,
    pub places: Vec<Option<usize>>,
    pub first: usize,
    pub newer: Newer,
}

// Whether the word stands at the end of the letters and the letter.
fn stands_last(letters: &[Letter], letter: Letter, word: &[Letter]) -> bool
    requires { 0 < length word.now }
    ensures { IsTrue result ↔ StandsLast (letters.now ++ letter ∷ []) word.now }
{
    let last = word.len() - 1;
    word[last] == letter && letters.ends_with(&word[..last])
}

// The first places, so many.
fn all_places(alloc: Global, count: usize) -> Result<Vec<Option<usize>>, NoMemory>
    ensures { IfOk result (λ places. places.items ≡ map Some (range_with_len 0 count)) }
{
    let mut places = Vec::new(alloc);
    for place in 0..count {
        places.push(Some(place))?;
    }
    Ok(places)
}

impl Lookup {
    /// The lookup of no rule.
    pub fn new(alloc: Global) -> Lookup
        ensures { IsLookup [] result }
    {
        Lookup {
            table: None,
            places: Vec::new(alloc),
            first: 0,
            newer: Newer::none(alloc),
        }
    }

    /// The lookup of the rules by a table of them all. Refused only where memory is wanting.
    pub fn of(rules: &Rules) -> Result<Lookup, NoMemory>
        ensures { IfOk result (IsLookup rules.now) }
    {
        let alloc = rules.alloc;
        let count = rules.len();
        let places = all_places(alloc, count)?;
        let table = IndexAutomaton::of(alloc, rules.letters(), rules)?;
        Ok(Lookup {
            table: Some(table),
            places,
            first: count,
            newer: Newer::none(alloc),
        })
    }

    // How many states the table has.
    fn states(&self) -> usize
        ensures { result ≡ length (moves_of self.now).prefixes }
    {
        match &self.table {
            Some(table) => table.nodes(),
            None => 1,
        }
    }

    // The last rule of the list is a newer one, and the others are those that were found so far.
    fn put_last(&mut self, rules: &Rules) -> Result<(), NoMemory>
        requires { (others : List (Letters × Letters)) × (last : Letters × Letters)
            × (rules.now ≡ others ++ last ∷ []) × IsLookup others self.old }
        ensures { OnOk result (IsLookup rules.now self.new) }
    {
        self.newer.put_last(rules, self.first)
    }

    // The rules have gone to other places, and behind the first ones, so many, all are newer.
    fn place_anew(
        &mut self,
        rules: &Rules,
        moved: &[Option<usize>],
        first: usize,
    ) -> Result<(), NoMemory>
        requires { first ≤ length rules.now }
        ensures table { OnOk result (self.new.table ≡ self.old.table) }
        ensures places { OnOk result
            (self.new.places.items ≡ map (through moved.now) self.old.places.items) }
        ensures first { OnOk result (self.new.first ≡ first) }
        ensures newer { OnOk result (AreNewer rules.now first self.new.newer) }
    {
        let alloc = rules.alloc;
        self.places = places_after(alloc, self.places.as_slice(), moved)?;
        self.first = first;
        self.newer = Newer::of(alloc, rules, first)?;
        Ok(())
    }

    // How many rules may be newer before the table is made anew.
    fn newer_at_most(&self) -> usize {
        NEWER_AT_MOST + self.states() / STATES_FOR_ONE_MORE
    }

    // Makes the table anew if many rules are newer.
    fn renew(&mut self, rules: &Rules) -> Result<(), NoMemory>
        requires { IsLookup rules.now self.old }
        ensures { OnOk result (IsLookup rules.now self.new) }
    {
        if self.newer_at_most() < rules.len() - self.first {
            *self = Lookup::of(rules)?;
        }
        Ok(())
    }

    /// Takes out the rules in whose left sides that of a new rule stands, and puts the new rule at
    /// the end. What was taken out is given back, in order. Refused only where memory is wanting,
    /// and then rules and lookup are to be given up.
    pub fn put(
        &mut self,
        rules: &mut Rules,
        left: Word,
        right: Word,
    ) -> Result<Vec<(Word, Word)>, NoMemory>
        requires lookup { IsLookup rules.old self.old }
        requires falls { right ≺ left }
        ensures lookup { OnOk result (IsLookup rules.new self.new) }
        ensures kept { OnOk result
            (rules.new ≡ filter (λ q. not (stands_in left q.0)) rules.old ++ (left, right) ∷ []) }
        ensures gone { IfOk result (λ gone.
            gone.items ≡ filter (λ q. stands_in left q.0) rules.old) }
    {
        let alloc = rules.alloc;
        if !rules.has_in_left(&left) {
            rules.push(left, right)?;
            self.put_last(rules)?;
            self.renew(rules)?;
            return Ok(Vec::new(alloc));
        }
        let old = mem::replace(rules, Rules::new(alloc));
        let parts = part(alloc, old.into_vec(), &left, self.first)?;
        *rules = Rules::from_vec(alloc, parts.kept);
        rules.push(left, right)?;
        self.place_anew(rules, parts.moved.as_slice(), parts.first)?;
        self.renew(rules)?;
        Ok(parts.gone)
    }

    // Whether the left side of the newer rule of a number, from 0, stands at the end of the letters
    // and the letter.
    fn ends(&self, rules: &Rules, letters: &[Letter], letter: Letter, number: usize) -> bool
        requires { self.now.first + number < length rules.now }
        ensures { IsTrue result
            ↔ EndsAt rules.now (letters.now ++ letter ∷ []) (self.now.first + number) }
    {
        let _count = rules.len();
        stands_last(letters, letter, rules.rule(self.first + number).0.letters())
    }

    // A newer rule whose left side stands at the end of the letters and the letter.
    fn newer_end(&self, rules: &Rules, letters: &[Letter], letter: Letter) -> Option<usize>
        requires { AreNewer rules.now self.now.first self.now.newer }
        ensures { MatchOption result
            ((place : ℕ) → self.now.first ≤ place
            → EndsAt rules.now (letters.now ++ letter ∷ []) place → ⊥)
            (EndsAt rules.now (letters.now ++ letter ∷ [])) }
    {
        let _count = rules.len();
        let others = self.newer.depth - 1;
        if letters.len() < others {
            return None;
        }
        let key = key_on(key_of(&letters[letters.len() - others..]), letter);
        let mut at = self.newer.last_of(key);
        while let Some(number) = at {
            if self.ends(rules, letters, letter, number) {
                return Some(self.first + number);
            }
            at = self.newer.before[number];
        }
        None
    }

    // What the table reads: the longest state at the end of the state and the letter, and the
    // number of a left side that stands there.
    fn read(&self, state: usize, letter: Letter) -> (usize, Option<usize>)
        requires { state < length (moves_of self.now).prefixes }
        ensures { (k : ℕ) (tabled : List (Letters × Letters)) → AreFalling tabled
            → IsTableOf k tabled (moves_of self.now)
            → Reads tabled (words_of tabled (moves_of self.now).prefixes)
            (longer (words_of tabled (moves_of self.now).prefixes) state letter) result.0 result.1 }
    {
        match &self.table {
            Some(table) => table.read(state, letter),
            None => (0, None),
        }
    }

    /// What the letter leads to behind a reduced word, at whose end the state is the longest one:
    /// the place of a rule whose left side stands there, or else the longest state.
    #[inline(always)]
    pub fn step(
        &self,
        rules: &Rules,
        done: &[Letter],
        state: usize,
        letter: Letter,
    ) -> (usize, Option<usize>)
        requires { IsAtLetter rules.now self.now done.now state }
        ensures { (at : IsAtLetter rules.now self.now done.now state)
            → IsStep rules.now (reads_to at) (done.now ++ letter ∷ []) result.0 result.1 }
    {
        if let Some(place) = self.newer_end(rules, done, letter) {
            return (0, Some(place));
        }
        let (next, end) = self.read(state, letter);
        match end {
            Some(number) => (next, self.places[number]),
            None => (next, None),
        }
    }

    /// Reads one letter, and tells the rule that is applied there, if one is. Refused only where
    /// memory is wanting.
    #[inline(always)]
    pub fn read_letter(
        &self,
        rules: &Rules,
        word: &Word,
        reduction: &mut Reduction,
        letter: Letter,
    ) -> Result<Option<Applied>, NoMemory>
        requires { IsRewritingAt rules.now self.now word.now letter reduction.old }
        ensures rewriting { OnOk result (IsRewriting rules.now self.now word.now reduction.new) }
        ensures less { OnOk result (weight_of rules.now word.now reduction.new
            < weight_at rules.now word.now letter reduction.old) }
        ensures traced { IfOk result (λ applied. LeadsOn rules.now letter reduction.old applied
            reduction.new) }
    {
        let state = reduction.states[reduction.done.len()];
        let step = self.step(rules, reduction.done.as_slice(), state, letter);
        follow(reduction, rules, letter, step)
    }
}
