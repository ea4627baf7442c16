// Rows of numbers, one behind the other.
ghost use Rattle.std.specs.Prelude.{◌≡◌, ℕ, ◌+◌, ◌*◌, ◌<◌, length, OnOk};
ghost use Rattle.elements.specs.Generators.{HaveOneShape};
ghost use Rattle.froidure_pin.specs.Found.{entry, generated, words_of};
ghost use Rattle.froidure_pin.specs.Growing.{AreLeftNumbers, IsGrown, IsWithin, ReachesAsLong};
ghost use Rattle.froidure_pin.specs.Kept.{lists_of};

use super::growth::Growth;
use super::parts::Factor;
use elements::Element;
use ports::NoMemory;

// What the row of a parent has at a letter, in four bytes.
pub(crate) fn number_at(numbers: &Vec<u32>, letters: usize, parent: usize, letter: usize) -> u32
    requires { parent * letters + letter < length numbers.now.items }
    ensures { result ≡ entry letters numbers.now.items parent letter }
{
    numbers[parent * letters + letter]
}

// What the row of a parent has at a letter.
pub(crate) fn entry(numbers: &Vec<u32>, letters: usize, parent: usize, letter: usize) -> usize
    requires { parent * letters + letter < length numbers.now.items }
    ensures { result ≡ entry letters numbers.now.items parent letter }
{
    number_at(numbers, letters, parent, letter) as usize
}

// The number of a letter times a word, from that of the letter times the word's parent.
fn left_number(
    letters: usize,
    right: &Vec<u32>,
    left: &Vec<u32>,
    factor: Factor,
    before: usize,
) -> u32
    requires letter { factor.last < letters }
    requires parent { factor.prefix * letters + before < length left.now.items }
    requires product { (entry letters left.now.items factor.prefix before + 1) * letters
        + factor.last < length right.now.items }
    ensures { result ≡ entry letters right.now.items
        (entry letters left.now.items factor.prefix before + 1) factor.last }
{
    let number = entry(left, letters, factor.prefix as usize, before);
    number_at(right, letters, number + 1, factor.last as usize)
}

impl<E: Element> Growth<E> {
    // Adds the row of the empty word on the left, which is that on the right.
    pub(crate) fn begin_left(&mut self, generators: &Vec<E>) -> Result<(), NoMemory>
        requires shape { HaveOneShape E.shape generators.now.items }
        requires some { 0 < length generators.now.items }
        requires grown { (unused : E)
            → IsGrown (generated E.product E.eq generators.now.items unused)
            (lists_of self.old) 1 0 }
        ensures kept { self.new ≡ record self.old { left = self.new.left } }
        ensures rows { OnOk result (length self.new.left.items ≡ length generators.now.items) }
        ensures left { OnOk result ((unused : E)
            → AreLeftNumbers (generated E.product E.eq generators.now.items unused)
            (words_of self.new.factors.items) self.new.left.items) }
    {
        let alloc = *self.right.allocator();
        self.left = Vec::from_slice(alloc, &self.right[..generators.len()])?;
        Ok(())
    }

    // Adds the row of a word on the left: each letter times the word.
    fn add_left_row(&mut self, generators: &Vec<E>, number: usize) -> Result<(), NoMemory>
        requires shape { HaveOneShape E.shape generators.now.items }
        requires some { 0 < length generators.now.items }
        requires within { number < length self.old.elements.keys }
        requires grown { (row : ℕ) × ((unused : E)
            → IsGrown (generated E.product E.eq generators.now.items unused)
            (lists_of self.old) row 0) }
        requires reach { ReachesAsLong (length generators.now.items)
            (words_of self.old.factors.items) (length self.old.right.items) number }
        requires rows { length self.old.left.items ≡ (number + 1) * length generators.now.items }
        requires left { (unused : E)
            → AreLeftNumbers (generated E.product E.eq generators.now.items unused)
            (words_of self.old.factors.items) self.old.left.items }
        ensures kept { self.new ≡ record self.old { left = self.new.left } }
        ensures rows { OnOk result (length self.new.left.items
            ≡ (number + 1 + 1) * length generators.now.items) }
        ensures left { OnOk result ((unused : E)
            → AreLeftNumbers (generated E.product E.eq generators.now.items unused)
            (words_of self.new.factors.items) self.new.left.items) }
    {
        let letters = generators.len();
        for letter in 0..letters {
            let factor = self.factors[number];
            let product = left_number(letters, &self.right, &self.left, factor, letter);
            self.left.push(product)?;
        }
        Ok(())
    }

    // Adds the rows of the words of one length on the left: those from the first number to before
    // the last.
    pub(crate) fn add_left_rows(
        &mut self,
        generators: &Vec<E>,
        first: usize,
        last: usize,
    ) -> Result<(), NoMemory>
        requires shape { HaveOneShape E.shape generators.now.items }
        requires some { 0 < length generators.now.items }
        requires order { first < last }
        requires within { (unused : E)
            → IsWithin (generated E.product E.eq generators.now.items unused)
            (lists_of self.old) first last last }
        ensures kept { self.new ≡ record self.old { left = self.new.left } }
        ensures within { OnOk result ((unused : E)
            → IsWithin (generated E.product E.eq generators.now.items unused)
            (lists_of self.new) last (length self.new.elements.keys) last) }
    {
        for number in first..last {
            self.add_left_row(generators, number)?;
        }
        Ok(())
    }
}
