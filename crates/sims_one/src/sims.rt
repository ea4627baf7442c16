// The search for the tables of a presentation, one after another.
ghost use Rattle.std.specs.Prelude.{◌≡◌, ◌≢◌, ℕ, ◌<◌, ◌≤◌, List, [], IfOk, IfSome, OnOk, OnErr, IsErr, true, false, Option, None, Some, MatchOption};
ghost use Rattle.theory.specs.Congruence.{Presentation as Relations};
ghost use Rattle.theory.specs.Listing.{IsNext, IsLast};
ghost use Rattle.theory.specs.Graph.{Graph};
ghost use Rattle.theory.specs.LowIndex.{Rows, graph_of, IsStandard, IsLowIndex, TableLess};
ghost use Rattle.word_graph.specs.Standard.{IsStandardGraph};
ghost use Rattle.sims_one.specs.Targets.{cursor_of, table_of};
ghost use Rattle.sims_one.specs.Search.{Search, IsNextGraph, IsFound, IsCursor};

use crate::branch::Branch;
use crate::indexed::Indexed;
use crate::paths::greatest;
use crate::places::Places;
use crate::search::find_next;
use ports::NoMemory;
use presentation::Presentation;
use std::alloc::Global;
use std::marker::Model;
use word_graph::WordGraph;

/// The most classes of the tables that are searched for.
pub const MOST_CLASSES: usize = 16;

// A table that was found, its targets, and its branch.
#[derive(Drop)]
struct Found {
    targets: Vec<usize>,
    graph: WordGraph,
    branch: Branch,
}

/// A search for the standard tables of at most so many classes at which the relations of a
/// presentation hold, in the order of their rows (libsemigroups, `Sims1`). In a semigroup the root
/// is no class, and no edge leads to it. It is for those who want the tables one by one; the
/// program asks for pages.
///
/// Each call but `new` may find memory wanting. It then answers `NoMemory`, as does each later
/// call.
#[derive(Drop)]
pub struct Sims {
    alloc: Global,
    presentation: Presentation,
    places: Places,
    classes: usize,
    last: Vec<usize>,
    branch: Option<Branch>,
    failed: bool,
}

impl Model for Sims {
    ghost use Rattle.std.specs.Prelude.{◌≡◌, ◌<◌, ◌≤◌, length, IfSome};
    ghost use Rattle.sims_one.specs.Targets.{cursor_of};
    ghost use Rattle.sims_one.specs.Known.{IsBranch};
    ghost use Rattle.sims_one.specs.Search.{Search, IsCursor};

    ghost Value = { Search };

    ghost view = { λ s. record {
      presentation = s.presentation.presentation;
      classes = s.classes;
      after = cursor_of s.presentation.presentation.letters s.last.items;
      failed = s.failed;
    } };

    ghost invariant = { λ s. record {
      few : s.classes ≤ 16;
      cursor : IsCursor s.presentation.presentation.letters s.last.items;
      branch : IfSome s.branch (λ b. IsBranch s.presentation.presentation s.classes
          b.targets.items b.levels);
      same : IfSome s.branch (λ b. (b.targets.items ≡ s.last.items)
          × (0 < length b.targets.items));
    } };
}

impl Sims {
    /// The search from the first table on. Refused only where memory is wanting.
    pub fn new(alloc: Global, presentation: &Presentation, n: usize) -> Result<Sims, NoMemory>
        requires { n ≤ MOST_CLASSES }
        ensures { IfOk result (λ s. s ≡ record {
          presentation = presentation.now.presentation;
          classes = n;
          after = None;
          failed = false;
        }) }
    {
        let presentation = presentation.copy(alloc)?;
        let places = Places::new(alloc, &presentation)?;
        Ok(Sims {
            alloc,
            presentation,
            places,
            classes: n,
            last: Vec::new(alloc),
            branch: None,
            failed: false,
        })
    }

    /// From now on the tables after this one, which is standard over the letters of the
    /// presentation, and need not be a table of the search.
    pub fn resume(&mut self, table: &WordGraph) -> Result<(), NoMemory>
        requires { IsStandardGraph self.old.presentation.letters table.now }
        ensures ok { OnOk result ((rows : Rows) → table.now ≡ graph_of rows
            → self.new ≡ record self.old { after = Some rows }) }
        ensures err { OnErr result (self.new ≡ record self.old { failed = true }) }
        ensures failed { self.old.failed ≡ true → IsErr result }
    {
        if self.failed {
            return Err(NoMemory);
        }
        let _letters = self.presentation.letters();
        match table.targets(self.alloc) {
            Ok(targets) => {
                self.last = targets;
                self.branch = None;
                Ok(())
            }
            Err(fault) => {
                self.failed = true;
                Err(fault)
            }
        }
    }

    // The next table, found from the branch of the last one where it is there, and that is taken.
    fn find(&mut self) -> Result<Option<Found>, NoMemory>
        ensures same { self.new ≡ self.old }
        ensures found { IfOk result (λ found. MatchOption found
            (IsLast (IsLowIndex self.old.presentation self.old.classes) TableLess self.old.after)
            (λ f. IsFound self.old f.targets.items f.branch.levels f.graph)) }
        ensures branch { IfOk result (λ found. IfSome found
            (λ f. f.branch.targets.items ≡ f.targets.items)) }
    {
        let letters = self.presentation.letters();
        let _relations = self.presentation.relations();
        let indexed = Indexed::new(&self.presentation, &self.places);
        let branch = self.branch.take();
        let Some(branch) = find_next(
            self.alloc,
            &indexed,
            self.classes,
            self.last.as_slice(),
            branch,
        )?
        else {
            return Ok(None);
        };
        let targets = Vec::from_slice(self.alloc, branch.targets.as_slice())?;
        let nodes = greatest(targets.as_slice()) + 1;
        let graph = WordGraph::of_targets(self.alloc, letters, nodes, targets.as_slice())?;
        Ok(Some(Found {
            targets,
            graph,
            branch,
        }))
    }

    /// The next table: the least of those after the last one, or after the table of `resume`.
    /// `None` exactly where there is none, and then nothing changes.
    pub fn next(&mut self) -> Result<Option<WordGraph>, NoMemory>
        ensures some { IfOk result (λ found. (g : Graph) → found ≡ Some g
            → (rows : Rows)
            × IsNextGraph self.old.presentation self.old.classes self.old.after g rows
            × (self.new ≡ record self.old { after = Some rows })) }
        ensures none { IfOk result (λ found. found ≡ None
            → IsLast (IsLowIndex self.old.presentation self.old.classes) TableLess self.old.after) }
        ensures same { IfOk result (λ found. found ≡ None → self.new ≡ self.old) }
        ensures err { OnErr result (self.new ≡ record self.old { failed = true }) }
        ensures failed { self.old.failed ≡ true → IsErr result }
    {
        if self.failed {
            return Err(NoMemory);
        }
        match self.find() {
            Ok(Some(found)) => {
                self.last = found.targets;
                self.branch = Some(found.branch);
                Ok(Some(found.graph))
            }
            Ok(None) => Ok(None),
            Err(fault) => {
                self.failed = true;
                Err(fault)
            }
        }
    }
}
