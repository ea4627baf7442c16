// The products of the elements by each letter on the right.
ghost use Rattle.std.specs.Prelude.{◌∷◌, [], ◌++◌, ◌≡◌, ◌+◌, ◌*◌, ◌<◌, ◌≤◌, ◌↔◌, length, slice_index_or, IfOk, IfSome, IsTrue, OnOk, OnErr, Ok, None, true, false};
ghost use Rattle.elements.specs.Generators.{HaveOneShape};
ghost use Rattle.froidure_pin.specs.Found.{IsNumbered, factor_of, generated, parent, tail_of, words_of};
ghost use Rattle.froidure_pin.specs.Growing.{AreMultiplied, HasGenerators, IsAt, IsMultiplied, IsWithin, UnlessOver, is_rest_word, with_steps};
ghost use Rattle.froidure_pin.specs.Kept.{HasTakenIn, IsNew, lists_of};

use super::growth::Growth;
use super::parts::{Factor, Tail};
use super::rows::{entry, number_at};
use super::rules::is_product;
use super::steps::Steps;
use elements::Element;
use ports::NoMemory;
use std::alloc::Global;
use std::sync::ledger::Ledger;

// The product of two elements, counted as one step.
fn multiply<E: Element, L: Ledger>(
    alloc: Global,
    left: &E,
    right: &E,
    steps: &mut Steps<L>,
) -> Result<E, NoMemory>
    requires { E.shape left.now ≡ E.shape right.now }
    ensures made { IfOk result (λ made. made ≡ E.product left.now right.now) }
    ensures step { OnOk result (steps.new ≡ steps.old + 1) }
    ensures none { OnErr result (steps.new ≡ steps.old) }
{
    let made = left.product(alloc, right)?;
    steps.tick();
    Ok(made)
}

// What stays while elements are found: the generators, and how many elements there may be.
#[derive(Drop)]
pub(crate) struct Enumerator<'a, E: Element> {
    pub(crate) generators: &'a Vec<E>,
    pub(crate) bound: usize,
}

// A call that may find more elements than the bound says so, and the growth is of no use then.
impl<'a, E: Element> Enumerator<'a, E> {
    // Takes in the generator of a letter.
    fn take_generator(&self, growth: &mut Growth<E>, letter: usize) -> Result<bool, NoMemory>
        requires { letter < length self.now.generators.now.items }
        ensures taken { OnOk result ((made : E)
            × (slice_index_or self.now.generators.now.items letter made ≡ made)
            × HasTakenIn E.eq growth.old growth.new made (factor_of 0 letter)
            (tail_of letter 0)) }
        ensures over { IfOk result (λ over. IsTrue over
            ↔ (self.now.bound < length growth.new.elements.keys)) }
    {
        let factor = Factor::new(0, letter)?;
        let tail = Tail::new(letter, 0)?;
        let copy = self.generators[letter].copy(*growth.right.allocator())?;
        growth.goes_over(copy, factor, tail, self.bound)
    }

    // Takes in the generators, and the row of the empty word on the left.
    pub(crate) fn take_generators(&self, growth: &mut Growth<E>) -> Result<bool, NoMemory>
        requires some { 0 < length self.now.generators.now.items }
        requires shape { HaveOneShape E.shape self.now.generators.now.items }
        requires none { IsNew growth.old }
        ensures { IfOk result (λ over. (unused : E)
            → let s = generated E.product E.eq self.now.generators.now.items unused in
            UnlessOver s self.now.bound over
            (HasGenerators s self.now.bound (lists_of growth.new))) }
    {
        for letter in 0..self.generators.len() {
            if self.take_generator(growth, letter)? {
                return Ok(true);
            }
        }
        growth.begin_left(self.generators)?;
        Ok(false)
    }

    // The number of the product of an element by a letter, where the graphs tell it: without its
    // first letter, the element's word with the letter has a lesser word, and that one is read in
    // its place.
    fn read_product(&self, growth: &Growth<E>, number: usize, letter: usize) -> Option<u32>
        requires shape { HaveOneShape E.shape self.now.generators.now.items }
        requires letter { letter < length self.now.generators.now.items }
        requires at { (unused : E)
            → IsAt (generated E.product E.eq self.now.generators.now.items unused)
            (lists_of growth.now) number letter }
        ensures read { IfSome result (λ product. (unused : E)
            → IsNumbered (generated E.product E.eq self.now.generators.now.items unused)
            (words_of growth.now.factors.items) product
            (parent (words_of growth.now.factors.items) (number + 1) ++ letter ∷ [])) }
        ensures least { result ≡ None → is_rest_word (length self.now.generators.now.items)
            (lists_of growth.now) number letter ≡ true }
    {
        let letters = self.generators.len();
        let tail = growth.tails[number];
        let rest = entry(&growth.right, letters, tail.suffix as usize, letter);
        if is_product(&growth.factors, rest, tail.suffix as usize, letter) {
            return None;
        }
        let factor = growth.factors[rest];
        let product = entry(
            &growth.left,
            letters,
            factor.prefix as usize,
            tail.first as usize,
        );
        Some(number_at(&growth.right, letters, product + 1, factor.last as usize))
    }

    // Takes in the product of an element by a letter. It is multiplied out only where the graphs do
    // not tell it.
    fn take_product<L: Ledger>(
        &self,
        growth: &mut Growth<E>,
        number: usize,
        letter: usize,
        steps: &mut Steps<L>,
    ) -> Result<bool, NoMemory>
        requires shape { HaveOneShape E.shape self.now.generators.now.items }
        requires letter { letter < length self.now.generators.now.items }
        requires few { length growth.old.elements.keys ≤ self.now.bound }
        requires at { (unused : E)
            → IsAt (generated E.product E.eq self.now.generators.now.items unused)
            (lists_of growth.old) number letter }
        ensures taken { IfOk result (λ over. (unused : E)
            → let s = generated E.product E.eq self.now.generators.now.items unused in
            UnlessOver s self.now.bound over
            (IsMultiplied s self.now.bound (with_steps (lists_of growth.old) steps.old)
            (with_steps (lists_of growth.new) steps.new) number (letter + 1))) }
        ensures counted { steps.old ≤ steps.new }
        ensures most { steps.new ≤ steps.old + 1 }
    {
        if let Some(product) = self.read_product(growth, number, letter) {
            growth.right.push(product)?;
            return Ok(false);
        }
        let tail = growth.tail_of_product(self.generators.len(), number, letter)?;
        let factor = Factor::new(number + 1, letter)?;
        let alloc = *growth.right.allocator();
        let element = &growth.elements[number];
        let made = multiply(alloc, element, &self.generators[letter], steps)?;
        growth.goes_over(made, factor, tail, self.bound)
    }

    // Takes in the products of an element by each letter.
    fn take_products<L: Ledger>(
        &self,
        growth: &mut Growth<E>,
        number: usize,
        steps: &mut Steps<L>,
    ) -> Result<bool, NoMemory>
        requires shape { HaveOneShape E.shape self.now.generators.now.items }
        requires few { length growth.old.elements.keys ≤ self.now.bound }
        requires at { (unused : E)
            → IsAt (generated E.product E.eq self.now.generators.now.items unused)
            (lists_of growth.old) number 0 }
        ensures taken { IfOk result (λ over. (unused : E)
            → let s = generated E.product E.eq self.now.generators.now.items unused in
            UnlessOver s self.now.bound over
            (IsMultiplied s self.now.bound (with_steps (lists_of growth.old) steps.old)
            (with_steps (lists_of growth.new) steps.new) number (length s.generators))) }
        ensures counted { steps.old ≤ steps.new }
        ensures most { steps.new ≤ steps.old + length self.now.generators.now.items }
    {
        for letter in 0..self.generators.len() {
            if self.take_product(growth, number, letter, steps)? {
                return Ok(true);
            }
        }
        Ok(false)
    }

    // Takes in the products of the elements whose words are of one length by each letter, and then
    // their rows on the left: those from the first number to before the last.
    pub(crate) fn take_level<L: Ledger>(
        &self,
        growth: &mut Growth<E>,
        first: usize,
        last: usize,
        steps: &mut Steps<L>,
    ) -> Result<bool, NoMemory>
        requires some { 0 < length self.now.generators.now.items }
        requires shape { HaveOneShape E.shape self.now.generators.now.items }
        requires order { first < last }
        requires few { length growth.old.elements.keys ≤ self.now.bound }
        requires within { (unused : E)
            → IsWithin (generated E.product E.eq self.now.generators.now.items unused)
            (lists_of growth.old) first last first }
        ensures taken { IfOk result (λ over. (unused : E)
            → let s = generated E.product E.eq self.now.generators.now.items unused in
            UnlessOver s self.now.bound over
            (AreMultiplied s self.now.bound (with_steps (lists_of growth.old) steps.old)
            (with_steps (lists_of growth.new) steps.new) last)) }
        ensures counted { steps.old ≤ steps.new }
        ensures most { steps.new + first * length self.now.generators.now.items
            ≤ steps.old + last * length self.now.generators.now.items }
    {
        for number in first..last {
            if self.take_products(growth, number, steps)? {
                return Ok(true);
            }
        }
        growth.add_left_rows(self.generators, first, last)?;
        Ok(false)
    }
}
