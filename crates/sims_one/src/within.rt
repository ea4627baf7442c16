// The tables behind a front part that a page asks for.
ghost use Rattle.std.specs.Prelude.{◌≡◌, ◌≤◌, ◌<◌, ◌≢◌, ◌↔◌, ℕ, List, length, IfOk, OnOk, IsTrue, MatchOption, true, false, []};
ghost use Rattle.std.specs.declared.cmp.Ordering.TheVariants.{Less, Equal, Greater};
ghost use Rattle.theory.specs.LowIndex.{graph_of};
ghost use Rattle.sims_one.specs.Targets.{table_of, IsTable, IsWithin};
ghost use Rattle.sims_one.specs.Known.{IsBranch};
ghost use Rattle.sims_one.specs.Search.{Before, NoneWithin, NoneFrom};
ghost use Rattle.sims_one.specs.Asked.{asked, IsAsked, IsWanted, IsFirstWithin, AddsWanted, AreTablesWithin};
ghost use Rattle.sims_one.specs.Fronts.{IsOpen, lists_in};

use crate::branch::Branch;
use crate::halt::Halt;
use crate::paths::greatest;
use crate::request::Request;
use crate::search::{search, search_after, search_next};
use ports::NoMemory;
use std::cmp::Ordering;
use word_graph::WordGraph;

/// Less where all that goes on behind the front part comes before the cursor, greater where it
/// comes after, and equal where the cursor goes on behind the front part itself.
pub fn place_of(front: &[usize], cursor: &[usize]) -> Ordering
    ensures less { result ≡ Less → (u : List ℕ) → IsWithin front.now u → Before u cursor.now }
    ensures equal { result ≡ Equal → IsWithin front.now cursor.now × (0 < length cursor.now) }
    ensures greater { result ≡ Greater → (u : List ℕ) → 0 < length u → IsWithin front.now u
        → Before cursor.now u }
{
    for i in 0..front.len() {
        if cursor.len() <= i {
            return Ordering::Greater;
        }
        if cursor[i] < front[i] {
            return Ordering::Greater;
        }
        if front[i] < cursor[i] {
            return Ordering::Less;
        }
    }
    if cursor.is_empty() {
        Ordering::Greater
    } else {
        Ordering::Equal
    }
}

/// The branch of the front part. `None` only where no table goes on behind it. Refused only where
/// memory is wanting.
pub fn branch_of(request: &Request, front: &[usize]) -> Result<Option<Branch>, NoMemory>
    requires few { request.now.classes ≤ 16 }
    requires opened { IsOpen (asked request.now) front.now }
    ensures { IfOk result (λ found. MatchOption found
        (NoneWithin request.now.presentation.now.presentation request.now.classes front.now)
        (λ b. IsBranch request.now.presentation.now.presentation request.now.classes
        b.targets.items b.levels × (b.targets.items ≡ front.now))) }
{
    let mut branch = Branch::new(request.alloc, request.presentation)?;
    for target in front {
        if !branch.enter(request.presentation, request.classes, *target)? {
            return Ok(None);
        }
    }
    Ok(Some(branch))
}

// Makes of the branch of a front part that of the least table after the cursor that goes on behind
// it, and tells that there is one.
fn search_place(request: &Request, place: Ordering, branch: &mut Branch) -> Result<bool, Halt>
    requires asked { IsAsked (asked request.now) }
    requires branch { IsBranch request.now.presentation.now.presentation request.now.classes
        branch.old.targets.items branch.old.levels }
    requires along { place ≡ Equal → IsWithin branch.old.targets.items request.now.cursor.now
        × (0 < length request.now.cursor.now) }
    requires behind { place ≢ Equal → (u : List ℕ) → 0 < length u
        → IsWithin branch.old.targets.items u → Before request.now.cursor.now u }
    ensures found { IfOk result (λ b. b ≡ true → IsFirstWithin (asked request.now)
        branch.old.targets.items request.now.cursor.now
        branch.new.targets.items branch.new.levels) }
    ensures none { IfOk result (λ b. b ≡ false → NoneFrom request.now.presentation.now.presentation
        request.now.classes request.now.cursor.now branch.old.targets.items) }
{
    let _letters = request.presentation.letters();
    if place == Ordering::Equal {
        search_after(
            request.presentation,
            request.classes,
            request.cursor,
            branch,
        )
    } else {
        search(request.presentation, request.classes, branch)
    }
}

// The branch of the least table after the cursor that goes on behind the front part. `None` exactly
// where there is none. The search may take so many steps.
fn first_within(request: &Request, front: &[usize], steps: usize) -> Result<Option<Branch>, Halt>
    requires asked { IsAsked (asked request.now) }
    requires opened { IsOpen (asked request.now) front.now }
    ensures { IfOk result (λ found. MatchOption found
        (NoneFrom request.now.presentation.now.presentation request.now.classes
        request.now.cursor.now front.now)
        (λ b. IsFirstWithin (asked request.now) front.now request.now.cursor.now
        b.targets.items b.levels)) }
{
    let place = place_of(front, request.cursor);
    if place == Ordering::Less {
        return Ok(None);
    }
    let Some(mut branch) = branch_of(request, front)? else {
        return Ok(None);
    };
    branch.left = steps;
    if search_place(request, place, &mut branch)? {
        Ok(Some(branch))
    } else {
        Ok(None)
    }
}

/// The table of these targets as a graph. Refused only where memory is wanting.
pub fn table_graph(request: &Request, targets: &[usize]) -> Result<WordGraph, NoMemory>
    requires { IsTable request.now.presentation.now.presentation request.now.classes targets.now }
    ensures { IfOk result (λ g. g
        ≡ graph_of (table_of request.now.presentation.now.presentation.letters targets.now)) }
{
    let letters = request.presentation.letters();
    let _relations = request.presentation.relations();
    WordGraph::of_targets(request.alloc, letters, greatest(targets) + 1, targets)
}

// Whether the table is asked for, before or after the cursor.
fn is_wanted(request: &Request, targets: &[usize]) -> Result<bool, NoMemory>
    requires { IsTable request.now.presentation.now.presentation request.now.classes targets.now }
    ensures { IfOk result (λ b. IsTrue b ↔ IsWanted (asked request.now) targets.now) }
{
    if !request.two_sided {
        return Ok(true);
    }
    let _letters = request.presentation.letters();
    let _relations = request.presentation.relations();
    let graph = table_graph(request, targets)?;
    graph.is_two_sided(request.alloc)
}

// Puts the table behind the others where it is asked for.
fn add_wanted(
    request: &Request,
    targets: &[usize],
    tables: &mut Vec<Vec<usize>>,
) -> Result<(), NoMemory>
    requires { IsTable request.now.presentation.now.presentation request.now.classes targets.now }
    ensures { OnOk result (AddsWanted (asked request.now) targets.now
        (lists_in tables.old.items) (lists_in tables.new.items)) }
{
    if is_wanted(request, targets)? {
        tables.push(Vec::from_slice(request.alloc, targets)?)?;
    }
    Ok(())
}

// Fills the empty list with the tables that are asked for, from that of the branch on, up to one
// more than a page has. A function of its own, since here no way out lets anything go.
fn add_tables(
    request: &Request,
    front: &[usize],
    branch: &mut Branch,
    tables: &mut Vec<Vec<usize>>,
) -> Result<(), Halt>
    requires asked { IsAsked (asked request.now) }
    requires first { IsFirstWithin (asked request.now) front.now request.now.cursor.now
        branch.old.targets.items branch.old.levels }
    requires empty { tables.old.items ≡ [] }
    ensures { OnOk result (AreTablesWithin (asked request.now) front.now
        (lists_in tables.new.items)) }
{
    let _letters = request.presentation.letters();
    loop {
        add_wanted(request, &branch.targets, tables)?;
        if tables.len() > request.count {
            return Ok(());
        }
        if !search_next(request.presentation, request.classes, branch, front.len())? {
            return Ok(());
        }
    }
}

/// The first tables that go on behind the front part and are asked for, in order, one more than a
/// page has; all of them where they are fewer. The search may take so many steps. It ends early
/// only where it would take more, or where memory is wanting.
pub fn tables_within(
    request: &Request,
    front: &[usize],
    steps: usize,
) -> Result<Vec<Vec<usize>>, Halt>
    requires asked { IsAsked (asked request.now) }
    requires opened { IsOpen (asked request.now) front.now }
    ensures { IfOk result (λ ts. AreTablesWithin (asked request.now) front.now
        (lists_in ts.items)) }
{
    let mut tables = Vec::new(request.alloc);
    if let Some(mut branch) = first_within(request, front, steps)? {
        add_tables(request, front, &mut branch, &mut tables)?;
    }
    Ok(tables)
}
