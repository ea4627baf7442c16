// Pairs of words that are to be joined.
ghost use Rattle.std.specs.Prelude.{◌≡◌, ◌≤◌, [], ◌∷◌, ◌++◌, All, IfSome, OnOk, MatchOption, IsTrue, ◌↔◌};
ghost use Rattle.std.specs.List.Sorted.{IsPermutation};
ghost use Rattle.std.specs.Ordering.{as_partial_cmp, eq_by_cmp};
ghost use Rattle.std.specs.Cmp.{eq_by_cmp_equiv, partial_equiv_from_equiv};
ghost use Rattle.std.specs.Cmp.Rules.{comparing};
ghost use Rattle.std.proofs.Common.{rules};
ghost use Rattle.knuth_bendix.specs.Waiting.{longer, turn_cmp, turn_total};

use ports::NoMemory;
use std::alloc::Global;
use std::cmp::Ordering;
use std::collections::BinaryHeap;
use std::marker::Model;
use words::Word;

// A pair of words, and how many were put in before it.
#[derive(Drop)]
struct Equation {
    pair: (Word, Word),
    number: u64,
}

impl Equation {
    // How many letters the longer word has.
    fn longer(&self) -> usize
        ensures { result ≡ longer self.now.pair }
    {
        self.pair.0.len().max(self.pair.1.len())
    }
}

impl PartialEq for Equation {
    ghost eq = { eq_by_cmp turn_cmp };

    ghost laws = { partial_equiv_from_equiv (eq_by_cmp_equiv turn_total) };

    fn eq(&self, other: &Equation) -> bool {
        self.cmp(other).is_eq()
    }
}

impl Eq for Equation {
    ghost laws = { Prim.search (comparing, rules) };
}

impl PartialOrd for Equation {
    ghost partial_cmp = { as_partial_cmp turn_cmp };

    ghost laws = { Prim.search (comparing, rules) };

    fn partial_cmp(&self, other: &Equation) -> Option<Ordering> {
        Some(self.cmp(other))
    }
}

// The equation to be taken first is the greatest, as a `BinaryHeap` wants it.
impl Ord for Equation {
    ghost cmp = { turn_cmp };

    ghost total = { turn_total };

    ghost matches_partial_cmp = { Prim.search (comparing, rules) };

    ghost matches_eq = { Prim.search (comparing, rules) };

    fn cmp(&self, other: &Equation) -> Ordering {
        other
            .longer()
            .cmp(&self.longer())
            .then(other.number.cmp(&self.number))
    }
}

// Pairs of related words that no rules join yet. The pair whose longer word is shortest is taken
// first, and of those of one length the oldest.
#[derive(Drop)]
pub struct Equations {
    heap: BinaryHeap<Equation>,
    // How many were put in, or the greatest number.
    pushed: u64,
}

impl Model for Equations {
    ghost use Rattle.std.specs.Prelude.{List, map};
    ghost use Rattle.std.specs.BinaryHeap.{IsHeap, heap_items};
    ghost use Rattle.theory.specs.Word.{Word as Letters};
    ghost use Rattle.knuth_bendix.specs.Waiting.{turn_cmp};

    ghost Value = { List (Letters × Letters) };

    ghost view = { λ e. map (λ q. q.pair) (heap_items e.heap) };

    ghost invariant = { λ e. IsHeap turn_cmp (heap_items e.heap) };
}

impl Equations {
    /// No pair.
    pub fn new(alloc: Global) -> Equations
        ensures { result ≡ [] }
    {
        Equations {
            heap: BinaryHeap::new(alloc),
            pushed: 0,
        }
    }

    /// Whether there is no pair.
    pub fn is_empty(&self) -> bool
        ensures { IsTrue result ↔ (self.now ≡ []) }
    {
        self.heap.is_empty()
    }

    /// Puts a pair in. Refused only where memory is wanting.
    pub fn push(&mut self, left: Word, right: Word) -> Result<(), NoMemory>
        ensures { OnOk result (IsPermutation (self.old ++ (left, right) ∷ []) self.new) }
    {
        let number = self.pushed;
        self.heap.push(Equation {
            pair: (left, right),
            number,
        })?;
        self.pushed = number.saturating_add(1);
        Ok(())
    }

    /// Puts the pairs in. Refused only where memory is wanting.
    pub fn extend(&mut self, pairs: Vec<(Word, Word)>) -> Result<(), NoMemory>
        ensures { OnOk result (IsPermutation (self.old ++ pairs.items) self.new) }
    {
        for pair in pairs {
            self.push(pair.0, pair.1)?;
        }
        Ok(())
    }

    /// Takes out a pair whose longer word is no longer than that of any other; `None` exactly where
    /// there is none.
    pub fn pop(&mut self) -> Option<(Word, Word)>
        ensures pair { MatchOption result ((self.old ≡ []) × (self.new ≡ []))
            (λ pair. IsPermutation self.old (pair ∷ self.new)) }
        ensures shortest { IfSome result (λ pair.
            All (λ other. longer pair ≤ longer other) self.new) }
    {
        let first = self.heap.pop()?;
        Some(first.pair)
    }
}
