// Congruences given by pairs.
ghost use Rattle.std.specs.Prelude.{◌≡◌, List, [], ◌∷◌, ◌++◌, length, ◌≢◌, ◌≤◌, ◌+◌, Contains, IfOk};
ghost use Rattle.theory.specs.Word.{IsElement};
ghost use Rattle.theory.specs.Congruence.{AreElements, IsWellFormed, is_two_sided};
ghost use Rattle.theory.specs.Marked.{marked};
ghost use Rattle.words.specs.Alphabet.{marker};
ghost use Rattle.presentation.specs.Presented.{IsPosed};

use crate::pair_lists::Pairs;
use crate::presentations::{MOST_RELATIONS, Presentation};
use ports::NoMemory;
use std::alloc::Global;
use std::marker::Model;
use theory::Kind;
use words::{Letter, Word};

/// The congruence of a kind that pairs generate on a presentation (libsemigroups, `Congruence`).
/// The sides of the pairs are elements.
#[derive(Drop)]
pub struct Congruence {
    presentation: Presentation,
    kind: Kind,
    pairs: Pairs,
}

impl Model for Congruence {
    ghost use Rattle.presentation.specs.Presented.{Posed, IsPosed};

    ghost Value = { Posed };

    ghost view = { λ c. record {
      alphabet = c.presentation.alphabet;
      congruence = record
          { presentation = c.presentation.presentation; kind = c.kind; pairs = c.pairs };
    } };

    ghost invariant = { λ c. IsPosed
        (record {
          alphabet = c.presentation.alphabet;
          congruence = record
              { presentation = c.presentation.presentation; kind = c.kind; pairs = c.pairs };
        }) };
}

impl Congruence {
    /// The congruence that the pairs generate. Their sides are elements of the presentation.
    pub fn new(presentation: Presentation, kind: Kind, pairs: Pairs) -> Congruence
        requires { AreElements presentation.presentation.is_monoid presentation.presentation.letters
            pairs }
        ensures { result ≡ record {
          alphabet = presentation.alphabet;
          congruence = record
              { presentation = presentation.presentation; kind = kind; pairs = pairs };
        } }
    {
        let _relations = presentation.relations();
        Congruence {
            presentation,
            kind,
            pairs,
        }
    }

    /// The presentation. What holds of every congruence is told here: the sides of relations and
    /// pairs are elements.
    pub fn presentation(&self) -> &Presentation
        ensures alphabet { result.now.alphabet ≡ self.now.alphabet }
        ensures presentation { result.now.presentation ≡ self.now.congruence.presentation }
        ensures posed { IsPosed self.now }
    {
        &self.presentation
    }

    /// Where the pairs may be used.
    pub fn kind(&self) -> Kind
        ensures { result ≡ self.now.congruence.kind }
    {
        self.kind
    }

    /// The pairs.
    pub fn pairs(&self) -> &Pairs
        ensures { result.now ≡ self.now.congruence.pairs }
    {
        &self.pairs
    }

    /// Whether it is generated as a two-sided congruence: its pairs are two-sided, or there are
    /// none.
    pub fn is_two_sided(&self) -> bool
        ensures { result ≡ is_two_sided self.now.congruence }
    {
        match self.kind {
            Kind::TwoSided => true,
            Kind::Right | Kind::Left => self.pairs.is_empty(),
        }
    }

    /// The congruence with one pair more behind the others; all pairs are of this kind. The sides
    /// are elements. Refused only where memory is wanting.
    pub fn with_pair(self, kind: Kind, left: Word, right: Word) -> Result<Congruence, NoMemory>
        requires left { IsElement self.congruence.presentation.is_monoid
            self.congruence.presentation.letters left }
        requires right { IsElement self.congruence.presentation.is_monoid
            self.congruence.presentation.letters right }
        ensures { IfOk result (λ c. c ≡ record {
          alphabet = self.alphabet;
          congruence = record {
            presentation = self.congruence.presentation;
            kind = kind;
            pairs = self.congruence.pairs ++ (left, right) ∷ [];
          };
        }) }
    {
        let Congruence {
            presentation,
            mut pairs,
            ..
        } = self;
        pairs.push(left, right)?;
        Ok(Congruence {
            presentation,
            kind,
            pairs,
        })
    }

    /// The presentation with one further last letter, the marker `#`, that stands for this one-sided
    /// congruence: behind the relations, each pair with the marker before both words for right pairs
    /// and behind both for left pairs. The alphabet has no marker, and relations and pairs are
    /// together at most [`MOST_RELATIONS`](crate::MOST_RELATIONS). Refused only where memory is
    /// wanting.
    pub fn marked(&self, alloc: Global) -> Result<Presentation, NoMemory>
        requires one_sided { self.now.congruence.kind ≢ Kind.TwoSided }
        requires unmarked { ¬ Contains self.now.alphabet marker }
        requires few { length self.now.congruence.presentation.relations
            + length self.now.congruence.pairs ≤ MOST_RELATIONS }
        ensures { IfOk result (λ p. p ≡ record {
          alphabet = self.now.alphabet ++ marker ∷ [];
          presentation = marked self.now.congruence;
        }) }
    {
        let marker = Letter::new(self.presentation.letters() as u8);
        let pairs = self.pairs.marked(alloc, self.kind, marker)?;
        let presentation = self.presentation.with_marker(alloc, &pairs)?;
        Ok(presentation)
    }

    /// The same congruence in memory of its own. Refused only where memory is wanting.
    pub fn copy(&self, alloc: Global) -> Result<Congruence, NoMemory>
        ensures { IfOk result (λ c. c ≡ self.now) }
    {
        let presentation = self.presentation.copy(alloc)?;
        let pairs = self.pairs.copy(alloc)?;
        Ok(Congruence {
            presentation,
            kind: self.kind,
            pairs,
        })
    }
}
