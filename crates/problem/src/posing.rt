// Generators, and the values of words over them.
ghost use Rattle.std.specs.Prelude.{◌≡◌, ◌≢◌, ℕ, ◌<◌, ◌≤◌, [], false, length, slice_get, Some, IfOk};
ghost use Rattle.theory.specs.Word.{IsOver, IsElement};
ghost use Rattle.theory.specs.Congruence.{AreElements};
ghost use Rattle.elements.specs.Generators.{HaveOneShape, value_by};
ghost use Rattle.problem.specs.Posed.{IsPosed, one_pair_more};
ghost use Rattle.problem.specs.Problem.{are_two_sided};

use super::lists::Gens;
use elements::Element;
use ports::NoMemory;
use presentation::{Kind, Pairs};
use std::alloc::Global;
use std::marker::Model;
use words::{Alphabet, Letter, Word};

/// Generators of one shape, as many as the alphabet has letters: the first is that of the first
/// letter, and so on; and pairs of elements that generate a congruence of a kind on their
/// semigroup. Contracts see the bytes of the letters, the generators, the kind and the pairs.
#[derive(Drop)]
pub struct Posed<E: Element> {
    alphabet: Alphabet,
    generators: Gens<E>,
    kind: Kind,
    pairs: Pairs,
}

impl<E: Element> Model for Posed<E> {
    ghost use Rattle.problem.specs.Posed.{PosedOf, IsPosed, posed_code};

    ghost Value = { PosedOf E };

    ghost coded = { posed_code E.code };

    ghost view = { λ p. record {
      letters = p.alphabet;
      generators = p.generators;
      kind = p.kind;
      pairs = p.pairs;
    } };

    ghost invariant = { λ p. IsPosed E.shape p.alphabet p.generators p.pairs };
}

impl<E: Element> Posed<E> {
    /// These generators, by these letters, and these pairs of words over them.
    pub fn new(alphabet: Alphabet, generators: Gens<E>, kind: Kind, pairs: Pairs) -> Posed<E>
        requires one_each { length generators ≡ length alphabet }
        requires shape { HaveOneShape E.shape generators }
        requires elements { AreElements false (length alphabet) pairs }
        ensures { result ≡ record {
          letters = alphabet;
          generators = generators;
          kind = kind;
          pairs = pairs;
        } }
    {
        Posed {
            alphabet,
            generators,
            kind,
            pairs,
        }
    }

    /// The letters. What holds of all that is posed is told here.
    pub fn alphabet(&self) -> &Alphabet
        ensures letters { result.now ≡ self.now.letters }
        ensures posed { IsPosed E.shape self.now.letters self.now.generators self.now.pairs }
    {
        &self.alphabet
    }

    /// The generators: from 1 to 53, of one shape.
    pub fn generators(&self) -> &Vec<E>
        ensures generators { result.now.items ≡ self.now.generators }
        ensures one_each { length self.now.generators ≡ length self.now.letters }
        ensures some { 0 < length self.now.generators }
        ensures few { length self.now.generators ≤ 53 }
        ensures shape { HaveOneShape E.shape self.now.generators }
    {
        prove!(self.generators.as_vec().len() == self.alphabet.len());
        self.generators.as_vec()
    }

    /// The generators in memory of their own. Refused only where memory is wanting.
    pub fn copied_generators(&self, alloc: Global) -> Result<Vec<E>, NoMemory>
        ensures { IfOk result (λ copy. copy.items ≡ self.now.generators) }
    {
        Ok(self.generators.copy(alloc)?.into_vec())
    }

    /// The kind of the pairs.
    pub fn kind(&self) -> Kind
        ensures { result ≡ self.now.kind }
    {
        self.kind
    }

    /// The pairs, whose sides are elements.
    pub fn pairs(&self) -> &Pairs
        ensures pairs { result.now ≡ self.now.pairs }
        ensures elements { AreElements false (length self.now.generators) self.now.pairs }
    {
        &self.pairs
    }

    /// The same with one pair more behind the others; all pairs are of this kind. The sides are
    /// elements. Refused only where memory is wanting.
    pub fn with_pair(self, kind: Kind, left: Word, right: Word) -> Result<Posed<E>, NoMemory>
        requires left { IsElement false (length self.letters) left }
        requires right { IsElement false (length self.letters) right }
        ensures { IfOk result (λ posed. posed ≡ one_pair_more self kind (left, right)) }
    {
        let Posed {
            alphabet,
            generators,
            mut pairs,
            ..
        } = self;
        pairs.push(left, right)?;
        Ok(Posed {
            alphabet,
            generators,
            kind,
            pairs,
        })
    }

    /// Whether the pairs are two-sided, or there are none.
    pub fn is_two_sided(&self) -> bool
        ensures { result ≡ are_two_sided self.now.kind self.now.pairs }
    {
        match self.kind {
            Kind::TwoSided => true,
            Kind::Right | Kind::Left => self.pairs.is_empty(),
        }
    }

    /// The same in memory of its own. Refused only where memory is wanting.
    pub fn copy(&self, alloc: Global) -> Result<Posed<E>, NoMemory>
        ensures { IfOk result (λ posed. posed ≡ self.now) }
    {
        Ok(Posed {
            alphabet: self.alphabet.copy(alloc)?,
            generators: self.generators.copy(alloc)?,
            kind: self.kind,
            pairs: self.pairs.copy(alloc)?,
        })
    }

    /// The generator of a letter.
    pub fn generator(&self, letter: Letter) -> &E
        requires { letter < length self.now.letters }
        ensures generator { slice_get self.now.generators letter ≡ Some result.now }
        ensures shape { HaveOneShape E.shape self.now.generators }
    {
        prove!(self.generators.as_vec().len() == self.alphabet.len());
        &self.generators.as_vec()[letter.number()]
    }

    /// The value of a word: the product of its generators, from left to right. Only want of memory
    /// refuses it.
    pub fn value(&self, alloc: Global, word: &Word) -> Result<E, NoMemory>
        requires some { word.now ≢ [] }
        requires over { IsOver (length self.now.letters) word.now }
        ensures { IfOk result (λ x. (unused : E)
            → x ≡ value_by E.product self.now.generators unused word.now) }
    {
        let mut value = self.generator(word.letter(0)).copy(alloc)?;
        for place in 1..word.len() {
            value = value.product(alloc, self.generator(word.letter(place)))?;
        }
        Ok(value)
    }
}
