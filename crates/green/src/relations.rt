// Classes of elements under Green's relations, and idempotents.
ghost use Rattle.std.specs.Prelude.{◌≡◌, ◌<◌, ◌≤◌, [], List, ℕ, length, map, option_map, IfOk, IfSome, OnOk, None, Some};
ghost use Rattle.std.specs.Option.{IsSome};
ghost use Rattle.theory.specs.Green.{AreClasses};
ghost use Rattle.theory.specs.Listing.{IsListOf};
ghost use Rattle.froidure_pin.specs.declared.tables.CayleyTables.{CayleyTables};
ghost use Rattle.cayley.specs.Tables.{FitTogether};
ghost use Rattle.green.specs.Known.{AreNamesIn, HasNames, KeepsNames, StaysKnown};
ghost use Rattle.green.specs.Naming.{AreNamesAlong};
ghost use Rattle.green.specs.Related.{AreOfLetters, AreRelated, DoAgree, DoCommute, IsIdempotentAt};

use crate::collector::{Collector, Lists};
use crate::edges::Edges;
use crate::grouping::collect;
use crate::idempotent;
use crate::joining::joined_names;
use crate::naming::component_names;
use crate::pairing::names_of_pairs;
use froidure_pin::CayleyTables;
use ports::NoMemory;
use std::alloc::Global;
use std::marker::Model;
use theory::Relation;

/// The names of the R-, L- and H-classes of the elements of one semigroup, as far as they were
/// found. An R- or L-class goes by one of its numbers, and an H-class by the place of the pair of
/// both among those that there are; the classes of J are found by the least R-class that meets an
/// L-class, since in a finite semigroup J is D (Howie 1995, proposition 2.1.4).
#[derive(Drop)]
pub struct ClassNames {
    right: Option<Vec<u32>>,
    left: Option<Vec<u32>>,
    both: Option<Vec<u32>>,
}

impl Model for ClassNames {
    ghost use Rattle.std.specs.Prelude.{option_map};
    ghost use Rattle.green.specs.Known.{KnownNames};

    ghost Value = { KnownNames };

    ghost view = { λ c. record {
      right = option_map (λ v. v.items) c.right;
      left = option_map (λ v. v.items) c.left;
      both = option_map (λ v. v.items) c.both;
    } };
}

// Finds the names of the components along these edges, unless they are known.
fn find(
    alloc: Global,
    edges: Edges,
    tables: &CayleyTables,
    known: &mut Option<Vec<u32>>,
) -> Result<(), NoMemory>
    requires fit { FitTogether tables.now }
    requires known { IfSome (option_map (λ v. v.items) known.old)
        (AreNamesAlong edges tables.now) }
    ensures known { IfSome (option_map (λ v. v.items) known.new)
        (AreNamesAlong edges tables.now) }
    ensures kept { StaysKnown (option_map (λ v. v.items) known.old)
        (option_map (λ v. v.items) known.new) }
    ensures some { OnOk result (IsSome (option_map (λ v. v.items) known.new)) }
{
    if known.is_none() {
        *known = Some(component_names(alloc, edges, tables)?);
    }
    Ok(())
}

// The names that are known.
fn names(known: &Option<Vec<u32>>) -> &[u32]
    requires { IsSome (option_map (λ v. v.items) known.now) }
    ensures { option_map (λ v. v.items) known.now ≡ Some result.now }
{
    known.as_ref().unwrap().as_slice()
}

impl ClassNames {
    /// Nothing is found yet.
    pub fn new() -> ClassNames
        ensures nothing { result ≡ record { right = None; left = None; both = None } }
        ensures known { (t : CayleyTables) → AreNamesIn t result }
    {
        ClassNames {
            right: None,
            left: None,
            both: None,
        }
    }

    // Finds the names of the classes of R and L.
    fn find_both(&mut self, alloc: Global, tables: &CayleyTables) -> Result<(), NoMemory>
        requires fit { FitTogether tables.now }
        requires known { AreNamesIn tables.now self.old }
        ensures known { AreNamesIn tables.now self.new }
        ensures kept { KeepsNames self.old self.new }
        ensures right { OnOk result (IsSome self.new.right) }
        ensures left { OnOk result (IsSome self.new.left) }
    {
        find(alloc, Edges::Right, tables, &mut self.right)?;
        find(alloc, Edges::Left, tables, &mut self.left)
    }

    // Finds the names of the classes of R, L and H.
    fn find_all(&mut self, alloc: Global, tables: &CayleyTables) -> Result<(), NoMemory>
        requires fit { FitTogether tables.now }
        requires known { AreNamesIn tables.now self.old }
        ensures known { AreNamesIn tables.now self.new }
        ensures kept { KeepsNames self.old self.new }
        ensures right { OnOk result (IsSome self.new.right) }
        ensures left { OnOk result (IsSome self.new.left) }
        ensures both { OnOk result (IsSome self.new.both) }
    {
        self.find_both(alloc, tables)?;
        if self.both.is_none() {
            let pairs = names_of_pairs(alloc, names(&self.right), names(&self.left))?;
            self.both = Some(pairs);
        }
        Ok(())
    }

    /// Collects the classes of the elements of a semigroup under one of Green's relations: numbers
    /// come in ascending order, so the numbers of each class ascend, and the classes stand by their
    /// least numbers. The tables are those of a whole run, or at least fit together and have edges
    /// that commute, and the same ones at each call. Linear in the size of the tables; no graph is
    /// searched twice. Refused only for want of memory, and then what was found is kept.
    pub fn collect<C: Collector>(
        &mut self,
        alloc: Global,
        tables: &CayleyTables,
        relation: Relation,
        collector: &mut C,
    ) -> Result<(), NoMemory>
        requires fit { FitTogether tables.now }
        requires commute { DoCommute tables.now }
        requires known { AreNamesIn tables.now self.old }
        requires bound { length tables.now.words ≤ C.bound (C.source collector.old) }
        requires empty { C.holds collector.old [] }
        ensures known { AreNamesIn tables.now self.new }
        ensures kept { KeepsNames self.old self.new }
        ensures found { OnOk result (HasNames relation self.new) }
        ensures source { OnOk result (C.source collector.new ≡ C.source collector.old) }
        ensures collected { OnOk result ((classes : List (List ℕ))
            × AreClasses (length tables.now.words) (AreRelated relation tables.now) classes
            × C.holds collector.new classes) }
    {
        match relation {
            Relation::R => {
                find(alloc, Edges::Right, tables, &mut self.right)?;
                collect(alloc, names(&self.right), collector)
            }
            Relation::L => {
                find(alloc, Edges::Left, tables, &mut self.left)?;
                collect(alloc, names(&self.left), collector)
            }
            Relation::H => {
                self.find_all(alloc, tables)?;
                collect(alloc, names(&self.both), collector)
            }
            Relation::J => {
                self.find_both(alloc, tables)?;
                let joined = joined_names(alloc, names(&self.right), names(&self.left))?;
                collect(alloc, &joined, collector)
            }
        }
    }

    /// The classes of the elements of a semigroup under one of Green's relations, as `collect`
    /// finds them.
    pub fn classes(
        &mut self,
        alloc: Global,
        tables: &CayleyTables,
        relation: Relation,
    ) -> Result<Vec<Vec<usize>>, NoMemory>
        requires fit { FitTogether tables.now }
        requires commute { DoCommute tables.now }
        requires known { AreNamesIn tables.now self.old }
        ensures known { AreNamesIn tables.now self.new }
        ensures kept { KeepsNames self.old self.new }
        ensures found { OnOk result (HasNames relation self.new) }
        ensures classes { IfOk result (λ found. AreClasses (length tables.now.words)
            (AreRelated relation tables.now) (map (λ c. c.items) found.items)) }
    {
        let mut lists = Lists::new(alloc, tables.words.len());
        self.collect(alloc, tables, relation, &mut lists)?;
        Ok(lists.into_lists())
    }

    /// The numbers of the idempotents of a semigroup, ascending (libsemigroups,
    /// `FroidurePin::idempotents`). The tables are those of a whole run, or at least fit together,
    /// have words of their letters, edges that commute, and words that lead to one product in
    /// either graph, and the same ones at each call. By Green's theorem (Howie 1995, theorem 2.2.5)
    /// an H-class with an idempotent is a group, so only one number of each H-class is multiplied,
    /// and its powers are followed only where they stay in the class. Refused only for want of
    /// memory, and then what was found is kept.
    pub fn idempotents(
        &mut self,
        alloc: Global,
        tables: &CayleyTables,
    ) -> Result<Vec<usize>, NoMemory>
        requires fit { FitTogether tables.now }
        requires commute { DoCommute tables.now }
        requires words { AreOfLetters tables.now }
        requires agree { DoAgree tables.now }
        requires known { AreNamesIn tables.now self.old }
        ensures known { AreNamesIn tables.now self.new }
        ensures kept { KeepsNames self.old self.new }
        ensures found { OnOk result (HasNames Relation.H self.new) }
        ensures idempotents { IfOk result (λ found.
            IsListOf (IsIdempotentAt tables.now) ◌<◌ None found.items) }
    {
        self.find_all(alloc, tables)?;
        idempotent::idempotents(alloc, tables, names(&self.left), names(&self.both))
    }
}

/// The classes of the elements of a semigroup under one of Green's relations, for who asks once:
/// as `ClassNames::classes` finds them. Refused only for want of memory.
pub fn classes(
    alloc: Global,
    tables: &CayleyTables,
    relation: Relation,
) -> Result<Vec<Vec<usize>>, NoMemory>
    requires fit { FitTogether tables.now }
    requires commute { DoCommute tables.now }
    ensures { IfOk result (λ found. AreClasses (length tables.now.words)
        (AreRelated relation tables.now) (map (λ c. c.items) found.items)) }
{
    ClassNames::new().classes(alloc, tables, relation)
}

/// The numbers of the idempotents of a semigroup, ascending, for who asks once: as
/// `ClassNames::idempotents` finds them. Refused only for want of memory.
pub fn idempotents(alloc: Global, tables: &CayleyTables) -> Result<Vec<usize>, NoMemory>
    requires fit { FitTogether tables.now }
    requires commute { DoCommute tables.now }
    requires words { AreOfLetters tables.now }
    requires agree { DoAgree tables.now }
    ensures { IfOk result (λ found. IsListOf (IsIdempotentAt tables.now) ◌<◌ None found.items) }
{
    ClassNames::new().idempotents(alloc, tables)
}
