// The classes of elements.
ghost use Rattle.std.specs.Prelude.{◌≡◌, ◌<◌, false, length, slice_index, IfOk};
ghost use Rattle.theory.specs.Congruence.{AreElements};
ghost use Rattle.cayley.specs.Tables.{FitTogether, AreClasses};
ghost use Rattle.cayley.specs.Placing.{ArePlacedClasses};

use crate::placing::placed;
use crate::sides::{Sides, numbered};
use congruence_closure::least_classes;
use froidure_pin::CayleyTables;
use ports::NoMemory;
use presentation::{Kind, Pairs};
use std::alloc::Global;
use std::marker::Model;

/// For each element of a semigroup, by its number, the least number of its class. Contracts see the
/// list of these numbers. Kept are the least numbers of the classes, in order, and for each element
/// the place of that of its class.
#[derive(Drop)]
pub struct Classes {
    roots: Vec<usize>,
    places: Vec<usize>,
}

impl Model for Classes {
    ghost use Rattle.std.specs.Prelude.{List, ℕ, map, slice_index};
    ghost use Rattle.cayley.specs.Placing.{ArePlacedClasses};

    ghost Value = { List ℕ };

    ghost view = { λ c. map (slice_index c.roots.items) c.places.items };

    ghost invariant = { λ c. ArePlacedClasses (map (slice_index c.roots.items) c.places.items)
        c.roots.items c.places.items };
}

impl Classes {
    /// How many elements there are.
    pub fn len(&self) -> usize
        ensures { result ≡ length self.now }
    {
        self.places.len()
    }

    /// The least number of the class of an element, by the element's own number.
    pub fn class_of(&self, number: usize) -> usize
        requires { number < length self.now }
        ensures { result ≡ slice_index self.now number }
    {
        self.roots[self.places[number]]
    }

    /// The least numbers of the classes, in order, and for each element, by its number, the place
    /// of that of its class. It takes no memory.
    pub fn placed(&self) -> (&[usize], &[usize])
        ensures { ArePlacedClasses self.now result.0.now result.1.now }
    {
        (self.roots.as_slice(), self.places.as_slice())
    }
}

/// The classes of the elements of a semigroup under the least congruence of a kind that has the
/// pairs (Froidure and Pin 1997): two elements are of one class exactly where the least equivalence
/// relates their numbers that has the numbers of each pair, and is kept along the edges of the
/// right, the left, or both Cayley graphs. The tables are those of a whole run, or at least fit
/// together, and the sides of the pairs are elements. There are fewer
/// merges than elements, and each follows the edges of two numbers. Only want of memory refuses it.
pub fn by_pairs(
    alloc: Global,
    tables: &CayleyTables,
    kind: Kind,
    pairs: &Pairs,
) -> Result<Classes, NoMemory>
    requires fit { FitTogether tables.now }
    requires elements { AreElements false (length tables.now.letters) pairs.now }
    ensures { IfOk result (AreClasses tables.now kind pairs.now) }
{
    let merged = numbered(alloc, tables, pairs)?;
    let sides = Sides::new(tables, kind);
    let numbers = least_classes(alloc, &sides, tables.words.len(), merged)?;
    let (roots, places) = placed(alloc, numbers.as_slice())?;
    Ok(Classes { roots, places })
}
