// Classes, as their numbers come.
ghost use Rattle.std.specs.Prelude.{◌≡◌, ◌<◌, ◌∷◌, ◌++◌, [], length, map, slice_set, OnOk};
ghost use Rattle.theory.specs.Green.{class_at};

use ports::NoMemory;
use std::alloc::Global;
use std::marker::Model;

/// Takes numbers as they are grouped: each begins a class, or comes to the end of one.
pub trait Collector {
    ghost use Rattle.std.specs.Prelude.{◌≡◌, ℕ, ◌<◌, List, [], ◌∷◌, ◌++◌, length, slice_set, OnOk};
    ghost use Rattle.theory.specs.Green.{class_at};

    // what stays the same while numbers come
    ghost Source: { Type 0 };

    ghost source: { Self → Source };

    // numbers below it may come
    ghost bound: { Source → ℕ };

    // what has come are these classes
    ghost holds: { Self → List (List ℕ) → Type 0 };

    /// A class begins with this number. Only want of memory refuses it.
    fn begin(&mut self, number: usize) -> Result<(), NoMemory>
        requires number { number < bound (source self.old) }
        ensures source { OnOk result (source self.new ≡ source self.old) }
        ensures holds { OnOk result ((classes : List (List ℕ)) → holds self.old classes
            → holds self.new (classes ++ (number ∷ []) ∷ [])) };

    /// This number comes to the end of the class at a place. Only want of memory refuses it.
    fn add(&mut self, place: usize, number: usize) -> Result<(), NoMemory>
        requires number { number < bound (source self.old) }
        requires place { (classes : List (List ℕ)) × holds self.old classes
            × (place < length classes) }
        ensures source { OnOk result (source self.new ≡ source self.old) }
        ensures holds { OnOk result ((classes : List (List ℕ)) → holds self.old classes
            → holds self.new (slice_set classes place
            (class_at classes place ++ number ∷ []))) };
}

// Classes of the numbers below a bound, as lists.
#[derive(Drop)]
pub(crate) struct Lists {
    alloc: Global,
    bound: usize,
    lists: Vec<Vec<usize>>,
}

impl Model for Lists {
    ghost use Rattle.std.specs.Prelude.{List, ℕ, map};

    ghost Value = { ℕ × List (List ℕ) };

    ghost view = { λ l. (l.bound, map (λ v. v.items) l.lists.items) };
}

// Puts a number at the end of the list at a place.
fn put(lists: &mut Vec<Vec<usize>>, place: usize, number: usize) -> Result<(), NoMemory>
    requires { place < length lists.old.items }
    ensures { OnOk result (map (λ v. v.items) lists.new.items
        ≡ slice_set (map (λ v. v.items) lists.old.items) place
        (class_at (map (λ v. v.items) lists.old.items) place ++ number ∷ [])) }
{
    lists[place].push(number)?;
    Ok(())
}

impl Lists {
    // No list.
    pub(crate) fn new(alloc: Global, bound: usize) -> Lists
        ensures { result ≡ (bound, []) }
    {
        Lists {
            alloc,
            bound,
            lists: Vec::new(alloc),
        }
    }

    // The lists.
    pub(crate) fn into_lists(self) -> Vec<Vec<usize>>
        ensures { map (λ v. v.items) result.items ≡ self.1 }
    {
        self.lists
    }
}

impl Collector for Lists {
    ghost use Rattle.std.specs.Prelude.{◌≡◌, ℕ};

    ghost Source = { ℕ };

    ghost source = { λ lists. lists.0 };

    ghost bound = { λ bound. bound };

    ghost holds = { λ lists classes. lists.1 ≡ classes };

    fn begin(&mut self, number: usize) -> Result<(), NoMemory> {
        let mut list = Vec::new(self.alloc);
        list.push(number)?;
        self.lists.push(list)?;
        Ok(())
    }

    fn add(&mut self, place: usize, number: usize) -> Result<(), NoMemory> {
        put(&mut self.lists, place, number)
    }
}
