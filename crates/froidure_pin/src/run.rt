// The elements, one length of words after another.
ghost use Rattle.std.specs.Prelude.{◌≡◌, List, ◌+◌, ◌*◌, ◌<◌, ◌≤◌, ◌↔◌, length, IfOk, Ok, true, false};
ghost use Rattle.theory.specs.Class.{IsRuleList};
ghost use Rattle.theory.specs.Value.{HasAtMostValues, HasMoreValues, SameValue};
ghost use Rattle.theory.specs.Word.{Word};
ghost use Rattle.elements.specs.Generators.{HaveOneShape, value_by};
ghost use Rattle.froidure_pin.specs.Found.{IsTableOf, generated};
ghost use Rattle.froidure_pin.specs.Growing.{AreFoundFrom, UnlessOver, with_steps};
ghost use Rattle.froidure_pin.specs.Kept.{IsNew, lists_of};
ghost use Rattle.froidure_pin.specs.Numbering.{IsNumbering};

use super::growth::Growth;
use super::products::Enumerator;
use super::steps::Steps;
use super::table::Table;
use elements::Element;
use ports::NoMemory;
use std::alloc::Global;
use std::sync::ledger::Ledger;

/// What a run ends with.
#[derive(Drop)]
pub enum Run<E: Element> {
    /// All elements.
    Whole(Table<E>),
    /// There are more elements than the bound.
    Over,
}

/// The algorithm of Froidure and Pin (1997).
pub struct FroidurePin;

impl FroidurePin {
    /// The table of the semigroup that the generators generate, or `Over` exactly where it has more
    /// elements than the bound. The generators are the letters, in their order. Each product that
    /// is multiplied out is one step: there are no more of them than elements and reduced rules
    /// together, and, however the run ends, no more than the bound times the generators. Only want
    /// of memory refuses a run.
    pub fn run<E: Element, L: Ledger>(
        alloc: Global,
        generators: &Vec<E>,
        bound: usize,
        steps: &mut Steps<L>,
    ) -> Result<Run<E>, NoMemory>
        requires some { 0 < length generators.now.items }
        requires few { length generators.now.items ≤ 256 }
        requires shape { HaveOneShape E.shape generators.now.items }
        ensures whole { IfOk result (λ run. (unused : E)
            → ((table : Table E) × (run ≡ Run.Whole table))
            ↔ HasAtMostValues (length generators.now.items) E.eq
            (value_by E.product generators.now.items unused) bound) }
        ensures over { IfOk result (λ run. (unused : E)
            → (run ≡ Run.Over)
            ↔ HasMoreValues (length generators.now.items) E.eq
            (value_by E.product generators.now.items unused) bound) }
        ensures table { (table : Table E) → result ≡ Ok (Run.Whole table) → (unused : E)
            → IsTableOf E.product E.eq generators.now.items unused table.words table.elements }
        ensures numbers { (table : Table E) → result ≡ Ok (Run.Whole table) → (unused : E)
            → IsNumbering E.product E.eq generators.now.items unused table }
        ensures steps { (table : Table E) → result ≡ Ok (Run.Whole table)
            → (unused : E) (rules : List (Word × Word))
            → IsRuleList (SameValue (length generators.now.items) E.eq
            (value_by E.product generators.now.items unused)) rules
            → steps.new ≤ steps.old + (length table.elements + length rules) }
        ensures counted { steps.old ≤ steps.new }
        ensures most { steps.new ≤ steps.old + bound * length generators.now.items }
    {
        let mut growth = Growth::new(alloc);
        let enumerator = Enumerator { generators, bound };
        if enumerator.take_all(&mut growth, steps)? {
            return Ok(Run::Over);
        }
        Ok(Run::Whole(growth.into_table(generators.len())))
    }
}

impl<'a, E: Element> Enumerator<'a, E> {
    // Takes in all elements, one length of words after another, and says whether there are more
    // than the bound; then the growth is of no use.
    fn take_all<L: Ledger>(
        &self,
        growth: &mut Growth<E>,
        steps: &mut Steps<L>,
    ) -> Result<bool, NoMemory>
        requires some { 0 < length self.now.generators.now.items }
        requires shape { HaveOneShape E.shape self.now.generators.now.items }
        requires none { IsNew growth.old }
        ensures found { IfOk result (λ over. (unused : E)
            → let s = generated E.product E.eq self.now.generators.now.items unused in
            UnlessOver s self.now.bound over
            (AreFoundFrom s self.now.bound (with_steps (lists_of growth.new) steps.new) steps.old
            (length growth.new.elements.keys))) }
        ensures counted { steps.old ≤ steps.new }
        ensures most { steps.new
            ≤ steps.old + self.now.bound * length self.now.generators.now.items }
    {
        if self.take_generators(growth)? {
            return Ok(true);
        }
        let mut first = 0;
        while first < growth.elements.len() {
            let last = growth.elements.len();
            if self.take_level(growth, first, last, steps)? {
                return Ok(true);
            }
            first = last;
        }
        Ok(false)
    }
}
