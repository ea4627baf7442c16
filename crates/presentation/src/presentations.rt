// Presentations.
ghost use Rattle.std.specs.Prelude.{◌≡◌, ℕ, ◌<◌, ◌≤◌, ◌+◌, ◌↔◌, Bool, List, [], ◌∷◌, ◌++◌, length, Contains, suc, IfOk, OnOk, OnErr, IsTrue, IfErr};
ghost use Rattle.theory.specs.Word.{IsOver};
ghost use Rattle.theory.specs.Congruence.{AreElements, with_relations};
ghost use Rattle.theory.specs.Marked.{with_marker};
ghost use Rattle.words.specs.Alphabet.{marker};
ghost use Rattle.presentation.specs.Presented.{IsPresented, HasEmptySide, with_more, with_relation, backwards};

use crate::fault::AddFault;
use crate::pair_lists::Pairs;
use ports::NoMemory;
use std::alloc::Global;
use std::marker::Model;
use words::{Alphabet, Word};

/// The most relations that a presentation has.
pub const MOST_RELATIONS: usize = 8192;

/// A monoid or a semigroup by generators and relations (libsemigroups, `Presentation`): an
/// alphabet, and pairs of words over it. The empty word is an element of a monoid, and no side of a
/// relation of a semigroup is empty. There are at most [`MOST_RELATIONS`] relations.
#[derive(Drop)]
pub struct Presentation {
    alphabet: Alphabet,
    monoid: bool,
    relations: Pairs,
}

impl Model for Presentation {
    ghost use Rattle.std.specs.Prelude.{length};
    ghost use Rattle.presentation.specs.Presented.{Presented, IsPresented};

    ghost Value = { Presented };

    ghost view = { λ p. record {
      alphabet = p.alphabet;
      presentation = record
          { letters = length p.alphabet; is_monoid = p.monoid; relations = p.relations };
    } };

    ghost invariant = { λ p. IsPresented
        (record {
          alphabet = p.alphabet;
          presentation = record
              { letters = length p.alphabet; is_monoid = p.monoid; relations = p.relations };
        }) };
}

impl Presentation {
    /// The free monoid or semigroup over the alphabet: no relation.
    pub fn new(alloc: Global, alphabet: Alphabet, monoid: bool) -> Presentation
        ensures { result ≡ record {
          alphabet = alphabet;
          presentation = record
              { letters = length alphabet; is_monoid = monoid; relations = [] };
        } }
    {
        Presentation {
            alphabet,
            monoid,
            relations: Pairs::new(alloc),
        }
    }

    /// The alphabet. What holds of every presentation is told here: the sides of its relations are
    /// elements, and there are at most [`MOST_RELATIONS`].
    pub fn alphabet(&self) -> &Alphabet
        ensures alphabet { result.now ≡ self.now.alphabet }
        ensures presented { IsPresented self.now }
    {
        &self.alphabet
    }

    /// How many letters the alphabet has: from 1 to 53.
    pub fn letters(&self) -> usize
        ensures letters { result ≡ self.now.presentation.letters }
        ensures some { 0 < result }
        ensures few { result ≤ 53 }
    {
        self.alphabet.len()
    }

    /// Whether the empty word is an element.
    pub fn is_monoid(&self) -> bool
        ensures { result ≡ self.now.presentation.is_monoid }
    {
        self.monoid
    }

    /// The relations, in the order in which they were added.
    pub fn relations(&self) -> &Pairs
        ensures relations { result.now ≡ self.now.presentation.relations }
        ensures presented { IsPresented self.now }
    {
        &self.relations
    }

    /// Puts the relation of the two words at the end; their letters are those of the alphabet.
    /// Refused with `EmptyWord` exactly where a side is empty and this is no monoid, and else with
    /// `TooMany` exactly where there are [`MOST_RELATIONS`] relations already; with `NoMemory` only
    /// where neither is so. After a refusal the presentation is as it was.
    pub fn add(&mut self, u: Word, v: Word) -> Result<(), AddFault>
        requires left { IsOver self.old.presentation.letters u }
        requires right { IsOver self.old.presentation.letters v }
        ensures ok { OnOk result (self.new ≡ with_relation self.old u v) }
        ensures empty_word { (result ≡ Err AddFault.EmptyWord)
            ↔ HasEmptySide self.old.presentation.is_monoid u v }
        ensures too_many { (result ≡ Err AddFault.TooMany)
            ↔ (¬ (HasEmptySide self.old.presentation.is_monoid u v)
            × (length self.old.presentation.relations ≡ MOST_RELATIONS)) }
        ensures err { OnErr result (self.new ≡ self.old) }
    {
        if !self.monoid && (u.is_empty() || v.is_empty()) {
            return Err(AddFault::EmptyWord);
        }
        if self.relations.len() == MOST_RELATIONS {
            return Err(AddFault::TooMany);
        }
        self.relations.push(u, v)?;
        Ok(())
    }

    // Whether there is room for so many relations more.
    pub(crate) fn has_room(&self, more: usize) -> bool
        requires { more ≤ MOST_RELATIONS }
        ensures { IsTrue result ↔ (length self.now.presentation.relations + more ≤ MOST_RELATIONS) }
    {
        self.relations.len() <= MOST_RELATIONS - more
    }

    // Puts relations at the end. Refused only where memory is wanting.
    pub(crate) fn append(&mut self, more: Pairs) -> Result<(), NoMemory>
        requires few { length self.old.presentation.relations + length more ≤ MOST_RELATIONS }
        requires elements { AreElements self.old.presentation.is_monoid
            self.old.presentation.letters more }
        ensures ok { OnOk result (self.new ≡ with_more self.old more) }
        ensures err { OnErr result (self.new ≡ self.old) }
    {
        self.relations.append(more)?;
        Ok(())
    }

    /// The presentation with each side of each relation read from right to left: of the opposite
    /// monoid or semigroup. Refused only where memory is wanting.
    pub fn reversed(&self, alloc: Global) -> Result<Presentation, NoMemory>
        ensures { IfOk result (λ p. p ≡ backwards self.now) }
    {
        let alphabet = self.alphabet.copy(alloc)?;
        let relations = self.relations.reversed(alloc)?;
        Ok(Presentation {
            alphabet,
            monoid: self.monoid,
            relations,
        })
    }

    /// The presentation with the pairs as further relations. There are together at most
    /// [`MOST_RELATIONS`], and the sides of the pairs are elements. Refused only where memory is
    /// wanting.
    pub fn with_pairs(&self, alloc: Global, pairs: &Pairs) -> Result<Presentation, NoMemory>
        requires few { length self.now.presentation.relations + length pairs.now ≤ MOST_RELATIONS }
        requires elements { AreElements self.now.presentation.is_monoid
            self.now.presentation.letters pairs.now }
        ensures { IfOk result (λ p. p ≡ with_more self.now pairs.now) }
    {
        let alphabet = self.alphabet.copy(alloc)?;
        let relations = self.relations.concat(alloc, pairs)?;
        Ok(Presentation {
            alphabet,
            monoid: self.monoid,
            relations,
        })
    }

    // The presentation with the marker as a further last letter, and marked pairs as further
    // relations. Refused only where memory is wanting.
    pub(crate) fn with_marker(
        &self,
        alloc: Global,
        marked: &Pairs,
    ) -> Result<Presentation, NoMemory>
        requires unmarked { ¬ Contains self.now.alphabet marker }
        requires few { length self.now.presentation.relations + length marked.now ≤ MOST_RELATIONS }
        requires elements { AreElements self.now.presentation.is_monoid
            (suc self.now.presentation.letters) (self.now.presentation.relations ++ marked.now) }
        ensures { IfOk result (λ p. p ≡ record {
          alphabet = self.now.alphabet ++ marker ∷ [];
          presentation = with_relations (with_marker self.now.presentation) marked.now;
        }) }
    {
        let alphabet = self.alphabet.with_marker(alloc)?;
        let relations = self.relations.concat(alloc, marked)?;
        Ok(Presentation {
            alphabet,
            monoid: self.monoid,
            relations,
        })
    }

    /// The same presentation in memory of its own. Refused only where memory is wanting.
    pub fn copy(&self, alloc: Global) -> Result<Presentation, NoMemory>
        ensures { IfOk result (λ p. p ≡ self.now) }
    {
        let alphabet = self.alphabet.copy(alloc)?;
        let relations = self.relations.copy(alloc)?;
        Ok(Presentation {
            alphabet,
            monoid: self.monoid,
            relations,
        })
    }
}
