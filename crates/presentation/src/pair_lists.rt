// Lists of pairs of words.
ghost use Rattle.std.specs.Prelude.{◌≡◌, ℕ, ◌<◌, List, [], ◌∷◌, ◌++◌, length, map, slice_index_or, IfOk, OnOk, OnErr, IsTrue, ◌↔◌};
ghost use Rattle.theory.specs.Word.{reversed_pairs};
ghost use Rattle.theory.specs.Marked.{marked_word, marked_pairs};

use ports::NoMemory;
use std::alloc::Global;
use std::marker::Model;
use theory::Kind;
use words::{Letter, Word};

/// A list of pairs of words.
#[derive(Drop)]
pub struct Pairs {
    items: Vec<(Word, Word)>,
}

impl Model for Pairs {
    ghost use Rattle.std.specs.Prelude.{List};
    ghost use Rattle.theory.specs.Word.{Word as Letters};

    ghost Value = { List (Letters × Letters) };

    ghost view = { λ p. p.items.items };
}

// The word with the marker: before it for right pairs, behind it for left pairs.
fn marked_word(alloc: Global, kind: Kind, marker: Letter, word: &Word) -> Result<Word, NoMemory>
    ensures { IfOk result (λ marked. marked ≡ marked_word kind marker word.now) }
{
    match kind {
        Kind::TwoSided => word.copy(alloc),
        Kind::Right => {
            let mut front = Word::new(alloc);
            front.push(marker)?;
            front.concat(alloc, word)
        }
        Kind::Left => {
            let mut marked = word.copy(alloc)?;
            marked.push(marker)?;
            Ok(marked)
        }
    }
}

impl Pairs {
    /// The list without pairs.
    pub fn new(alloc: Global) -> Pairs
        ensures { result ≡ [] }
    {
        Pairs {
            items: Vec::new(alloc),
        }
    }

    /// These pairs, in order. It takes no memory.
    pub fn from_vec(pairs: Vec<(Word, Word)>) -> Pairs
        ensures { result ≡ pairs.items }
    {
        Pairs { items: pairs }
    }

    /// The pairs, in order. It takes no memory.
    pub fn into_vec(self) -> Vec<(Word, Word)>
        ensures { result.items ≡ self }
    {
        self.items
    }

    /// The pairs, in order, lent.
    pub fn as_slice(&self) -> &[(Word, Word)]
        ensures { result.now ≡ self.now }
    {
        self.items.as_slice()
    }

    /// How many pairs there are.
    pub fn len(&self) -> usize
        ensures { result ≡ length self.now }
    {
        self.items.len()
    }

    /// Whether there is no pair.
    pub fn is_empty(&self) -> bool
        ensures { IsTrue result ↔ (self.now ≡ []) }
    {
        self.items.is_empty()
    }

    /// The pair at a place, from 0.
    pub fn pair(&self, place: usize) -> &(Word, Word)
        requires { place < length self.now }
        ensures { result.now ≡ slice_index_or self.now place result.now }
    {
        &self.items[place]
    }

    /// Puts a pair at the end. Refused only where memory is wanting, and then the list stays as it
    /// was.
    pub fn push(&mut self, left: Word, right: Word) -> Result<(), NoMemory>
        ensures ok { OnOk result (self.new ≡ self.old ++ (left, right) ∷ []) }
        ensures err { OnErr result (self.new ≡ self.old) }
    {
        self.items.push((left, right))?;
        Ok(())
    }

    /// Puts these pairs behind the others, which stay where they are. Refused only where memory is
    /// wanting, and then the list stays as it was.
    pub fn append(&mut self, more: Pairs) -> Result<(), NoMemory>
        ensures ok { OnOk result (self.new ≡ self.old ++ more) }
        ensures err { OnErr result (self.new ≡ self.old) }
    {
        let mut more = more.items;
        self.items.append(&mut more)?;
        Ok(())
    }

    // Where its memory comes from.
    pub(crate) fn allocator(&self) -> Global {
        *self.items.allocator()
    }

    /// The same pairs in memory of their own. Refused only where memory is wanting.
    pub fn copy(&self, alloc: Global) -> Result<Pairs, NoMemory>
        ensures { IfOk result (λ p. p ≡ self.now) }
    {
        let mut copy = Pairs::new(alloc);
        for pair in &self.items {
            let left = pair.0.copy(alloc)?;
            let right = pair.1.copy(alloc)?;
            copy.push(left, right)?;
        }
        Ok(copy)
    }

    /// These pairs, and then the others, in memory of their own. Refused only where memory is
    /// wanting.
    pub fn concat(&self, alloc: Global, other: &Pairs) -> Result<Pairs, NoMemory>
        ensures { IfOk result (λ p. p ≡ self.now ++ other.now) }
    {
        let mut all = self.copy(alloc)?;
        for pair in &other.items {
            let left = pair.0.copy(alloc)?;
            let right = pair.1.copy(alloc)?;
            all.push(left, right)?;
        }
        Ok(all)
    }

    /// Each word of each pair read from right to left, in memory of their own. Refused only where
    /// memory is wanting.
    pub fn reversed(&self, alloc: Global) -> Result<Pairs, NoMemory>
        ensures { IfOk result (λ p. p ≡ reversed_pairs self.now) }
    {
        let mut reversed = Pairs::new(alloc);
        for pair in &self.items {
            let left = pair.0.reversed(alloc)?;
            let right = pair.1.reversed(alloc)?;
            reversed.push(left, right)?;
        }
        Ok(reversed)
    }

    // Each word of each pair with the marker, in memory of their own. Refused only where memory is
    // wanting.
    pub(crate) fn marked(
        &self,
        alloc: Global,
        kind: Kind,
        marker: Letter,
    ) -> Result<Pairs, NoMemory>
        ensures { IfOk result (λ p. p ≡ marked_pairs kind marker self.now) }
    {
        let mut marked = Pairs::new(alloc);
        for pair in &self.items {
            let left = marked_word(alloc, kind, marker, &pair.0)?;
            let right = marked_word(alloc, kind, marker, &pair.1)?;
            marked.push(left, right)?;
        }
        Ok(marked)
    }
}
