// What is known of the elements of a problem while its queries are answered.
ghost use Rattle.std.specs.Prelude.{◌≡◌, ◌<◌, [], IfOk, OnOk, None};
ghost use Rattle.std.specs.Option.{IsSome};
ghost use Rattle.theory.specs.Listing.{IsListOf};
ghost use Rattle.theory.specs.declared.Relation.TheVariants.{H};
ghost use Rattle.problem.specs.declared.kinds.Problem.{Problem as Posed};
ghost use Rattle.problem.specs.Problem.{HasOneShape, pairs_of};
ghost use Rattle.element_tables.specs.CayleyGraphs.{AreTablesFor};
ghost use Rattle.green.specs.Known.{HasNames};
ghost use Rattle.green.specs.Related.{IsIdempotentAt};
ghost use Rattle.report_lines.specs.Known.{AreKnownOf, KeepsKnown};

use crate::texts::Texts;
use froidure_pin::CayleyTables;
use green::ClassNames;
use ports::NoMemory;
use problem::Problem;
use std::alloc::Global;

/// What was found of the elements of one problem that is given by generators: the names of their
/// classes under Green's relations, and the texts of their least words.
#[derive(Drop)]
pub struct KnownElements {
    pub names: ClassNames,
    pub texts: Option<Texts>,
}

impl KnownElements {
    /// Nothing is found yet.
    pub fn new() -> KnownElements
        ensures { (problem : Posed) → AreKnownOf problem result }
    {
        KnownElements {
            names: ClassNames::new(),
            texts: None,
        }
    }

    /// The idempotents, by the numbers of the tables, ascending. Only want of memory refuses it.
    pub(crate) fn idempotents(
        &mut self,
        alloc: Global,
        problem: &Problem,
        tables: &CayleyTables,
    ) -> Result<Vec<usize>, NoMemory>
        requires tables { AreTablesFor problem.now tables.now }
        requires shape { HasOneShape problem.now }
        requires unpaired { pairs_of problem.now ≡ [] }
        requires known { AreKnownOf problem.now self.old }
        ensures known { AreKnownOf problem.now self.new }
        ensures kept { KeepsKnown self.old self.new }
        ensures found { OnOk result (HasNames H self.new.names) }
        ensures idempotents { IfOk result (λ found.
            IsListOf (IsIdempotentAt tables.now) ◌<◌ None found.items) }
    {
        let _problem = problem;
        self.names.idempotents(alloc, tables)
    }

    /// Finds the texts of the words of the tables, unless they are known. Only want of memory
    /// refuses it.
    pub(crate) fn find_texts(
        &mut self,
        alloc: Global,
        problem: &Problem,
        tables: &CayleyTables,
    ) -> Result<(), NoMemory>
        requires tables { AreTablesFor problem.now tables.now }
        requires shape { HasOneShape problem.now }
        requires unpaired { pairs_of problem.now ≡ [] }
        requires known { AreKnownOf problem.now self.old }
        ensures known { AreKnownOf problem.now self.new }
        ensures kept { KeepsKnown self.old self.new }
        ensures some { OnOk result (IsSome self.new.texts) }
    {
        if self.texts.is_none() {
            self.texts = Some(Texts::new(alloc, problem.alphabet(), &tables.words)?);
        }
        Ok(())
    }
}
