// What the algorithm finds.
ghost use Rattle.std.specs.Prelude.{List, ◌≡◌, ◌≢◌, ◌<◌, ◌≤◌, [], length, slice_get, IfOk, Some};
ghost use Rattle.theory.specs.Class.{IsRuleList};
ghost use Rattle.theory.specs.Value.{SameValue};
ghost use Rattle.theory.specs.Word.{IsOver};
ghost use Rattle.elements.specs.Generators.{value_by};
ghost use Rattle.froidure_pin.specs.Rules.{IsWholeTable};
ghost use Rattle.froidure_pin.specs.Numbering.{AreRowsBy, IsRowBy, left_number, letter_number, number_of, right_number};

use super::lists::{Rows, Words};
use super::parts::Factor;
use super::rows::entry;
use super::rules::Products;
use super::spell::spell;
use super::tables::{CayleyTables, row_of};
use elements::Element;
use indexmap::IndexSet;
use ports::NoMemory;
use std::marker::Model;
use words::{Letter, Word};

/// The elements of a semigroup in short-lex order of their least words, and its Cayley graphs
/// (Froidure and Pin 1997). Elements are numbered from 0 in that order, and letters from 0 in the
/// order of the generators. Contracts see the elements, their words, how many letters there are,
/// and the numbers of the products by each letter on the right and on the left.
#[derive(Drop)]
pub struct Table<E: Element> {
    pub(crate) elements: IndexSet<E>,

    // of each element's word
    pub(crate) factors: Vec<Factor>,

    pub(crate) letters: usize,

    // a row of one number for each letter, for the empty word and then for each element
    pub(crate) right: Vec<u32>,

    pub(crate) left: Vec<u32>,
}

impl<E: Element> Model for Table<E> {
    ghost use Rattle.std.specs.Prelude.{length};
    ghost use Rattle.froidure_pin.specs.Found.{words_of};
    ghost use Rattle.froidure_pin.specs.Numbering.{TableOf, table_code, AreParts};

    ghost Value = { TableOf E };

    ghost coded = { table_code E.code };

    ghost view = { λ t. record {
      elements = t.elements.keys;
      words = words_of t.factors.items;
      letters = t.letters;
      right = t.right.items;
      left = t.left.items;
    } };

    ghost invariant = { λ t. AreParts t.letters (length t.elements.keys)
        t.factors.items t.right.items t.left.items };
}

impl<E: Element> Table<E> {
    /// How many elements there are.
    pub fn len(&self) -> usize
        ensures { result ≡ length self.now.elements }
    {
        self.elements.len()
    }

    /// How many letters there are, from 1 to 256: one for each generator.
    pub fn letters(&self) -> usize
        ensures letters { result ≡ self.now.letters }
        ensures few { result ≤ 256 }
    {
        self.letters
    }

    /// The element of this number.
    pub fn element(&self, number: usize) -> &E
        requires { number < length self.now.elements }
        ensures { slice_get self.now.elements number ≡ Some result.now }
    {
        &self.elements[number]
    }

    /// The least word of the element of this number. Only want of memory refuses it.
    pub fn word(&self, number: usize) -> Result<Word, NoMemory>
        requires { number < length self.now.elements }
        ensures { IfOk result (λ word. slice_get self.now.words number ≡ Some word) }
    {
        let alloc = *self.factors.allocator();
        spell(alloc, &self.factors, number)
    }

    /// The number of a letter's generator.
    pub fn generator(&self, letter: Letter) -> usize
        requires { letter < self.now.letters }
        ensures within { result < length self.now.elements }
        ensures number { result ≡ letter_number self.now letter }
    {
        self.right[letter.number()] as usize
    }

    /// The number of the product of the element of a number by a letter's generator: the edge of
    /// the right Cayley graph.
    pub fn right(&self, number: usize, letter: Letter) -> usize
        requires number { number < length self.now.elements }
        requires letter { letter < self.now.letters }
        ensures within { result < length self.now.elements }
        ensures number { result ≡ right_number self.now number letter }
    {
        entry(&self.right, self.letters, number + 1, letter.number())
    }

    /// The number of the product of a letter's generator by the element of a number: the edge of
    /// the left Cayley graph.
    pub fn left(&self, number: usize, letter: Letter) -> usize
        requires number { number < length self.now.elements }
        requires letter { letter < self.now.letters }
        ensures within { result < length self.now.elements }
        ensures number { result ≡ left_number self.now number letter }
    {
        entry(&self.left, self.letters, number + 1, letter.number())
    }

    /// The number of the value of a word: from its first letter along the right Cayley graph. It
    /// takes no memory.
    pub fn index_of(&self, word: &Word) -> usize
        requires some { word.now ≢ [] }
        requires over { IsOver self.now.letters word.now }
        ensures within { result < length self.now.elements }
        ensures number { result ≡ number_of self.now word.now }
    {
        let mut number = self.generator(word.letter(0));
        for place in 1..word.len() {
            number = self.right(number, word.letter(place));
        }
        number
    }

    /// The reduced rules of the semigroup, in short-lex order of their left sides: each is a word
    /// that is not least in its class, while each proper factor is, with the least word of its
    /// class. Only want of memory refuses it.
    pub fn rules(&self) -> Result<Vec<(Word, Word)>, NoMemory>
        ensures { IfOk result (λ rules. (generators : List E) (unused : E)
            → IsWholeTable E.shape E.product E.eq generators unused self.now
            → IsRuleList (SameValue (length generators) E.eq (value_by E.product generators unused))
            rules.items) }
    {
        let alloc = *self.factors.allocator();
        let products = Products {
            letters: self.letters,
            factors: &self.factors,
            right: &self.right,
        };
        products.rules(alloc)
    }

    /// The words, the numbers of the products by each letter on the right and on the left, and the
    /// numbers of the letters. The lists that the table has are handed over, and its elements are
    /// dropped; only the numbers of the letters take memory. Only want of memory refuses it.
    pub fn tables(self) -> Result<CayleyTables, NoMemory>
        ensures words { IfOk result (λ tables. tables.words ≡ self.words) }
        ensures right { IfOk result (λ tables. AreRowsBy (length self.elements) self.letters
            (right_number self) tables.right) }
        ensures left { IfOk result (λ tables. AreRowsBy (length self.elements) self.letters
            (left_number self) tables.left) }
        ensures letters { IfOk result (λ tables. IsRowBy self.letters
            (letter_number self) tables.letters) }
    {
        let alloc = *self.factors.allocator();
        let letters = row_of(alloc, self.letters, &self.right, 0)?;
        let count = self.factors.len();
        Ok(CayleyTables {
            words: Words::new(self.factors),
            right: Rows::new(self.letters, count, self.right),
            left: Rows::new(self.letters, count, self.left),
            letters,
        })
    }
}
