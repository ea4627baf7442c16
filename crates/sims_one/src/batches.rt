// A page by parts, in batches.
ghost use Rattle.std.specs.Prelude.{◌≡◌, ◌≤◌, ◌<◌, ◌++◌, [], map, flat_map, length, true, false, IfOk, OnOk};
ghost use Rattle.sims_one.specs.Asked.{asked, IsAsked, AreTables};
ghost use Rattle.sims_one.specs.Fronts.{AreOpen, AreJoined, part_tasks, lists_in};

use crate::cut::{first_fronts, split_all};
use crate::request::Request;
use crate::runs::run_parts;
use crate::table_parts::TablePart;
use crate::team::Team;
use ports::{Gate, NoMemory};
use std::cmp::min;
use std::thread::Threads;

// How often front parts are made longer before the first batch, at most.
const FIRST_ROUNDS: usize = 4;

// How many front parts each worker has then in a large search, and how few are left when they are
// made longer again.
const ENOUGH: usize = 64;

const FEW: usize = 8;

// How often the front parts that are left are made longer, at most.
const ROUNDS: usize = 12;

// How many parts of the first batch each worker has, and the most of a further one, which has twice
// as many as the one before it.
const FIRST_SHARE: usize = 2;

const MOST_SHARE: usize = 256;

// A search: the front parts behind which it has still to go, the tables before these, and how many
// parts of the next batch each worker has.
#[derive(Drop)]
struct Sweep {
    fronts: Vec<Vec<usize>>,
    tables: Vec<Vec<usize>>,
    share: usize,
}

// The parts of these front parts.
fn parts_of<'a>(
    request: &Request<'a>,
    fronts: &[Vec<usize>],
) -> Result<Vec<TablePart<'a>>, NoMemory>
    requires asked { IsAsked (asked request.now) }
    requires opened { AreOpen (asked request.now) (lists_in fronts.now) }
    ensures { IfOk result (λ parts. part_tasks parts.items
        ≡ map (λ t. (asked request.now, t)) (lists_in fronts.now)) }
{
    let mut parts = Vec::new(request.alloc);
    for front in fronts {
        let front = Vec::from_slice(request.alloc, front.as_slice())?;
        parts.push(TablePart::new(request, front))?;
    }
    Ok(parts)
}

// Puts what the parts have found behind the tables.
fn add_tables(tables: &mut Vec<Vec<usize>>, parts: Vec<TablePart>) -> Result<(), NoMemory>
    ensures { OnOk result (lists_in tables.new.items
        ≡ lists_in tables.old.items ++ flat_map (λ s. s.tables) parts.entry.items) }
{
    for part in parts {
        let mut found = part.into_tables();
        tables.append(&mut found)?;
    }
    Ok(())
}

impl Sweep {
    // The whole search, cut at the first target.
    fn new(request: &Request) -> Result<Sweep, NoMemory>
        requires { IsAsked (asked request.now) }
        ensures { IfOk result (λ s. AreJoined (asked request.now)
            (lists_in s.fronts.items) (lists_in s.tables.items)) }
    {
        let fronts = first_fronts(request)?;
        Ok(Sweep {
            fronts,
            tables: Vec::new(request.alloc),
            share: FIRST_SHARE,
        })
    }

    // Whether all is searched, or there are tables enough.
    fn is_over(&self, request: &Request) -> bool
        ensures over { result ≡ true → AreJoined (asked request.now)
            (lists_in self.now.fronts.items) (lists_in self.now.tables.items)
            → AreTables (asked request.now) (lists_in self.now.tables.items) }
        ensures some { result ≡ false → 0 < length self.now.fronts.items }
    {
        self.fronts.is_empty() || self.tables.len() > request.count
    }

    // Makes the front parts longer, unless fewer than two would be left of more.
    fn split(&mut self, request: &Request) -> Result<(), NoMemory>
        requires asked { IsAsked (asked request.now) }
        requires joined { AreJoined (asked request.now)
            (lists_in self.old.fronts.items) (lists_in self.old.tables.items) }
        ensures { OnOk result (AreJoined (asked request.now)
            (lists_in self.new.fronts.items) (lists_in self.new.tables.items)) }
    {
        let longer = split_all(request, self.fronts.as_slice())?;
        if longer.len() > 1 || self.fronts.len() < 2 {
            self.fronts = longer;
        }
        Ok(())
    }

    // How many parts the next batch has.
    fn batch_size(&self, workers: usize) -> usize
        ensures { 1 ≤ result }
    {
        workers.saturating_mul(self.share).max(1)
    }

    // Searches behind the next front parts, a batch of them.
    fn run_batch<T: Threads + Sync, G: Gate + Sync>(
        &mut self,
        team: &Team<T, G>,
        request: &Request,
    ) -> Result<(), NoMemory>
        requires workers { 1 ≤ team.now.workers }
        requires asked { IsAsked (asked request.now) }
        requires some { 0 < length self.old.fronts.items }
        requires joined { AreJoined (asked request.now)
            (lists_in self.old.fronts.items) (lists_in self.old.tables.items) }
        ensures joined { OnOk result (AreJoined (asked request.now)
            (lists_in self.new.fronts.items) (lists_in self.new.tables.items)) }
        ensures fewer { OnOk result (length self.new.fronts.items
            < length self.old.fronts.items) }
    {
        let most = min(self.batch_size(team.workers), self.fronts.len());
        self.share = min(self.share.saturating_mul(2), MOST_SHARE);
        let rest = self.fronts.split_off(most)?;
        let mut parts = parts_of(request, self.fronts.as_slice())?;
        self.fronts = rest;
        run_parts(team.rt, request.alloc, &mut parts, team.workers, team.gate)?;
        add_tables(&mut self.tables, parts)
    }

    // Makes the front parts longer until there are enough, but not more often than a small search
    // is worth.
    fn grow(&mut self, request: &Request, enough: usize) -> Result<(), NoMemory>
        requires asked { IsAsked (asked request.now) }
        requires joined { AreJoined (asked request.now)
            (lists_in self.old.fronts.items) (lists_in self.old.tables.items) }
        ensures { OnOk result (AreJoined (asked request.now)
            (lists_in self.new.fronts.items) (lists_in self.new.tables.items)) }
    {
        for _ in 0..FIRST_ROUNDS {
            if self.fronts.len() >= enough {
                return Ok(());
            }
            self.split(request)?;
        }
        Ok(())
    }

    // Batches, while there are at least so many front parts and the search is not over.
    fn run<T: Threads + Sync, G: Gate + Sync>(
        &mut self,
        team: &Team<T, G>,
        request: &Request,
        least: usize,
    ) -> Result<(), NoMemory>
        requires workers { 1 ≤ team.now.workers }
        requires asked { IsAsked (asked request.now) }
        requires joined { AreJoined (asked request.now)
            (lists_in self.old.fronts.items) (lists_in self.old.tables.items) }
        ensures joined { OnOk result (AreJoined (asked request.now)
            (lists_in self.new.fronts.items) (lists_in self.new.tables.items)) }
        ensures over { least ≡ 1 → OnOk result (AreTables (asked request.now)
            (lists_in self.new.tables.items)) }
    {
        while self.fronts.len() >= least {
            if self.is_over(request) {
                return Ok(());
            }
            self.run_batch(team, request)?;
        }
        Ok(())
    }

    // Batches until few front parts are left, which are made longer each time. Those at the end of
    // the list have most of the search behind them.
    fn run_wide<T: Threads + Sync, G: Gate + Sync>(
        &mut self,
        team: &Team<T, G>,
        request: &Request,
    ) -> Result<(), NoMemory>
        requires workers { 1 ≤ team.now.workers }
        requires asked { IsAsked (asked request.now) }
        requires joined { AreJoined (asked request.now)
            (lists_in self.old.fronts.items) (lists_in self.old.tables.items) }
        ensures { OnOk result (AreJoined (asked request.now)
            (lists_in self.new.fronts.items) (lists_in self.new.tables.items)) }
    {
        let few = team.workers.saturating_mul(FEW);
        for _ in 0..ROUNDS {
            self.run(team, request, few)?;
            if self.is_over(request) {
                return Ok(());
            }
            self.split(request)?;
        }
        Ok(())
    }
}

/// The tables that are asked for, by parts that run over so many workers. The front parts are made
/// longer until there are enough of them, and again each time that few are left. Refused only where
/// memory is wanting.
pub fn tables_by_parts<T: Threads + Sync, G: Gate + Sync>(
    team: &Team<T, G>,
    request: &Request,
) -> Result<Vec<Vec<usize>>, NoMemory>
    requires workers { 1 ≤ team.now.workers }
    requires asked { IsAsked (asked request.now) }
    ensures { IfOk result (λ ts. AreTables (asked request.now) (lists_in ts.items)) }
{
    let mut sweep = Sweep::new(request)?;
    let enough = team.workers.saturating_mul(ENOUGH);
    sweep.grow(request, enough)?;
    if sweep.fronts.len() >= enough {
        sweep.run_wide(team, request)?;
    }
    sweep.run(team, request, 1)?;
    Ok(sweep.tables)
}
