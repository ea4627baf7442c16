// The elements that were found so far.
ghost use Rattle.std.specs.Prelude.{◌≡◌, ◌+◌, ◌*◌, ◌<◌, ◌↔◌, [], ◌∷◌, ◌++◌, length, not, IfOk, OnOk, IsTrue};
ghost use Rattle.std.specs.List.{list_any, position_or_len};
ghost use Rattle.indexmap.specs.IndexSet.{insert_key};
ghost use Rattle.froidure_pin.specs.Found.{entry, tail_at, tail_of};
ghost use Rattle.froidure_pin.specs.Kept.{HasTakenIn, IsNew, lists_of, table_of};
ghost use Rattle.froidure_pin.specs.Numbering.{AreParts};

use super::parts::{Factor, Tail, in_four_bytes};
use super::rows::entry;
use super::table::Table;
use elements::Element;
use indexmap::IndexSet;
use ports::NoMemory;
use std::alloc::Global;

// What is found so far.
#[derive(Drop)]
pub(crate) struct Growth<E: Element> {
    pub(crate) elements: IndexSet<E>,

    // of each element's word
    pub(crate) factors: Vec<Factor>,

    // of each element's word
    pub(crate) tails: Vec<Tail>,

    // a row of one number for each letter, for the empty word and then for each element that was
    // multiplied
    pub(crate) right: Vec<u32>,

    // the same with the letters on the left, of the elements whose words are shorter than those
    // that are multiplied now
    pub(crate) left: Vec<u32>,
}

// Takes in an element, and says its number and whether it is new.
fn insert<E: Element>(elements: &mut IndexSet<E>, made: E) -> Result<(usize, bool), NoMemory>
    ensures keys { OnOk result (elements.new.keys ≡ insert_key E.eq elements.old.keys made) }
    ensures number { IfOk result (λ it. it.0 ≡ position_or_len (E.eq made) elements.old.keys) }
    ensures is_new { IfOk result (λ it. it.1 ≡ not (list_any (E.eq made) elements.old.keys)) }
{
    Ok(elements.insert_full(made)?)
}

// Puts a number behind the others, in four bytes.
fn push_number(numbers: &mut Vec<u32>, number: usize) -> Result<(), NoMemory>
    ensures { OnOk result (numbers.new.items ≡ numbers.old.items ++ number ∷ []) }
{
    numbers.push(in_four_bytes(number)?)?;
    Ok(())
}

impl<E: Element> Growth<E> {
    // Nothing is found yet.
    pub(crate) fn new(alloc: Global) -> Growth<E>
        ensures { IsNew result }
    {
        Growth {
            elements: IndexSet::new(alloc),
            factors: Vec::new(alloc),
            tails: Vec::new(alloc),
            right: Vec::new(alloc),
            left: Vec::new(alloc),
        }
    }

    // Takes in a product, with what its word is made of where it is new, and keeps its number.
    fn take_in(&mut self, made: E, factor: Factor, tail: Tail) -> Result<(), NoMemory>
        ensures { OnOk result (HasTakenIn E.eq self.old self.new made factor tail) }
    {
        let (number, is_new) = insert(&mut self.elements, made)?;
        push_number(&mut self.right, number)?;
        if !is_new {
            return Ok(());
        }
        self.factors.push(factor)?;
        self.tails.push(tail)?;
        Ok(())
    }

    // Takes in a product, and says whether there are more elements than the bound then.
    pub(crate) fn goes_over(
        &mut self,
        made: E,
        factor: Factor,
        tail: Tail,
        bound: usize,
    ) -> Result<bool, NoMemory>
        ensures taken { OnOk result (HasTakenIn E.eq self.old self.new made factor tail) }
        ensures over { IfOk result (λ over. IsTrue over ↔ (bound < length self.new.elements.keys)) }
    {
        self.take_in(made, factor, tail)?;
        Ok(self.elements.len() > bound)
    }

    // The first letter of an element's word with one letter more, and the number of the rest.
    pub(crate) fn tail_of_product(
        &self,
        letters: usize,
        number: usize,
        letter: usize,
    ) -> Result<Tail, NoMemory>
        requires within { number < length self.now.tails.items }
        requires place { (tail_at self.now.tails.items number).suffix * letters + letter
            < length self.now.right.items }
        requires known { entry letters self.now.right.items
            (tail_at self.now.tails.items number).suffix letter
            < length self.now.factors.items }
        ensures { let tail = tail_at self.now.tails.items number in
            IfOk result (λ made. made ≡ tail_of tail.first
            (entry letters self.now.right.items tail.suffix letter + 1)) }
    {
        let tail = self.tails[number];
        let suffix = entry(&self.right, letters, tail.suffix as usize, letter);
        Tail::new(tail.first as usize, suffix + 1)
    }

    // The table of what is found.
    pub(crate) fn into_table(self, letters: usize) -> Table<E>
        requires { AreParts letters (length self.elements.keys) self.factors.items
            self.right.items self.left.items }
        ensures { result ≡ table_of (lists_of self) letters }
    {
        Table {
            elements: self.elements,
            factors: self.factors,
            letters,
            right: self.right,
            left: self.left,
        }
    }
}
