// Newer rules, which are found by the last letters of their left sides.
ghost use Rattle.std.specs.Prelude.{◌≡◌, ℕ, ◌+◌, ◌*◌, ◌%◌, ◌<◌, ◌≤◌, List, [], ◌∷◌, ◌++◌, length, slice_index_or, slice_set, None, Some, IfOk, OnOk, IsTrue};
ghost use Rattle.theory.specs.Word.{Word as Letters};
ghost use Rattle.rewriting.specs.Tries.{left_at};
ghost use Rattle.rewriting.specs.Newer.{AreNewer, end_key, key_from};

use crate::rule_lists::Rules;
use ports::NoMemory;
use std::alloc::Global;
use words::Letter;

// How many keys there are.
const KEYS: usize = 256;

// A key is made of no more letters than these.
const LETTERS_AT_MOST: usize = 8;

/// Rules behind the first ones by the keys of the last letters of their left sides, so many: the
/// last one of each key, and the last one before each that has its key.
#[derive(Drop)]
pub struct Newer {
    pub depth: usize,
    pub latest: Vec<Option<usize>>,
    pub before: Vec<Option<usize>>,
}

/// The key that a letter makes behind a key.
pub fn key_on(key: usize, letter: Letter) -> usize
    requires { key < 256 }
    ensures key { result ≡ (key * 7 + letter) % 256 }
    ensures few { result < 256 }
{
    (key * 7 + letter.number()) % KEYS
}

/// The key of the letters.
pub fn key_of(letters: &[Letter]) -> usize
    ensures key { result ≡ key_from 0 letters.now }
    ensures few { result < 256 }
{
    let mut key = 0;
    for place in 0..letters.len() {
        key = key_on(key, letters[place]);
    }
    key
}

// As many letters as each left side has behind the first ones.
fn depth_of(rules: &Rules, first: usize) -> usize
    ensures some { 0 < result }
    ensures long { (place : ℕ) → first ≤ place → place < length rules.now
        → result ≤ length (left_at rules.now place) }
{
    let mut depth = LETTERS_AT_MOST;
    for place in first..rules.len() {
        depth = depth.min(rules.rule(place).0.len());
    }
    depth
}

impl Newer {
    /// No rule, with keys of a letter, since these are made the soonest. It takes no memory.
    pub fn none(alloc: Global) -> Newer
        ensures depth { 0 < result.depth }
        ensures before { result.before.items ≡ [] }
        ensures latest { result.latest.items ≡ [] }
    {
        Newer {
            depth: 1,
            latest: Vec::new(alloc),
            before: Vec::new(alloc),
        }
    }

    // Puts a rule at the end, by its left side.
    fn push(&mut self, left: &[Letter]) -> Result<(), NoMemory>
        requires long { self.old.depth ≤ length left.now }
        requires keys { length self.old.latest.items ≡ 256 }
        ensures depth { OnOk result (self.new.depth ≡ self.old.depth) }
        ensures before { OnOk result (self.new.before.items ≡ self.old.before.items
            ++ slice_index_or self.old.latest.items (end_key self.old.depth left.now) None ∷ []) }
        ensures latest { OnOk result (self.new.latest.items ≡ slice_set self.old.latest.items
            (end_key self.old.depth left.now) (Some (length self.old.before.items))) }
    {
        let key = key_of(&left[left.len() - self.depth..]);
        let number = self.before.len();
        let earlier = self.latest[key];
        self.before.push(earlier)?;
        self.latest[key] = Some(number);
        Ok(())
    }

    /// The rules behind the first ones, so many. Refused only where memory is wanting.
    pub fn of(alloc: Global, rules: &Rules, first: usize) -> Result<Newer, NoMemory>
        requires { first ≤ length rules.now }
        ensures { IfOk result (AreNewer rules.now first) }
    {
        let mut newer = Newer {
            depth: depth_of(rules, first),
            latest: Vec::from_elem(alloc, None, KEYS)?,
            before: Vec::new(alloc),
        };
        for place in first..rules.len() {
            newer.push(rules.rule(place).0.letters())?;
        }
        Ok(newer)
    }

    // Whether a rule with this left side can be put at the end.
    fn takes(&self, left: &[Letter]) -> bool
        ensures { IsTrue result → (self.now.depth ≤ length left.now)
            × (length self.now.latest.items ≡ 256) }
    {
        self.latest.len() == KEYS && self.depth <= left.len()
    }

    /// The last rule of the list is put behind these, which are all others behind the first ones,
    /// so many. Refused only where memory is wanting.
    pub fn put_last(&mut self, rules: &Rules, first: usize) -> Result<(), NoMemory>
        requires { (others : List (Letters × Letters)) × (last : Letters × Letters)
            × (rules.now ≡ others ++ last ∷ []) × AreNewer others first self.old }
        ensures { OnOk result (AreNewer rules.now first self.new) }
    {
        let left = rules.rule(rules.len() - 1).0.letters();
        if !self.takes(left) {
            *self = Newer::of(rules.alloc, rules, first)?;
            return Ok(());
        }
        self.push(left)?;
        Ok(())
    }

    /// The last rule of a key, by its number behind the first ones.
    pub fn last_of(&self, key: usize) -> Option<usize>
        ensures { result ≡ slice_index_or self.now.latest.items key None }
    {
        match self.latest.get(key) {
            Some(number) => *number,
            None => None,
        }
    }
}
