// The cut of the search at front parts.
ghost use Rattle.std.specs.Prelude.{◌≡◌, ◌≤◌, ◌++◌, ◌∷◌, [], IfOk, OnOk};
ghost use Rattle.sims_one.specs.Known.{IsBranch};
ghost use Rattle.sims_one.specs.Asked.{asked, IsAsked};
ghost use Rattle.sims_one.specs.Fronts.{IsOpen, AreOpen, AreLonger, AddsLonger, AreJoined, lists_in};

use crate::branch::Branch;
use crate::request::Request;
use crate::search::{candidate_limit, least_candidate, least_target, most_nodes};
use crate::within::{branch_of, place_of};
use ports::NoMemory;
use std::cmp::Ordering;

// How many targets front parts gain at a time.
const DEPTH: usize = 3;

// Adds the front parts with at most so many targets more than the branch, in order, but for those
// behind which there is no table after the cursor. The targets of a whole table stay as they are.
#[cycle(grow)]
fn grow(
    request: &Request,
    branch: &mut Branch,
    depth: usize,
    fronts: &mut Vec<Vec<usize>>,
) -> Result<(), NoMemory>
    requires asked { IsAsked (asked request.now) }
    requires branch { IsBranch request.now.presentation.now.presentation request.now.classes
        branch.old.targets.items branch.old.levels }
    ensures fronts { OnOk result (AddsLonger (asked request.now) branch.old.targets.items
        (lists_in fronts.old.items) (lists_in fronts.new.items)) }
    ensures branch { OnOk result (IsBranch request.now.presentation.now.presentation
        request.now.classes branch.new.targets.items branch.new.levels) }
    ensures same { OnOk result (branch.new.targets.items ≡ branch.old.targets.items) }
{
    if place_of(&branch.targets, request.cursor) == Ordering::Less {
        return Ok(());
    }
    let place = branch.targets.len();
    let known = branch.known();
    if depth == 0 || request.presentation.letters() * known.nodes <= place {
        fronts.push(Vec::from_slice(request.alloc, &branch.targets)?)?;
        return Ok(());
    }
    let least = least_candidate(known, place, least_target(request.presentation));
    let limit = candidate_limit(request.presentation, request.classes, known, place);
    for target in least..limit {
        grow_with(request, branch, target, depth - 1, fronts)?;
    }
    Ok(())
}

// The same behind the targets of the branch with one more.
#[cycle(grow)]
fn grow_with(
    request: &Request,
    branch: &mut Branch,
    target: usize,
    depth: usize,
    fronts: &mut Vec<Vec<usize>>,
) -> Result<(), NoMemory>
    requires asked { IsAsked (asked request.now) }
    requires branch { IsBranch request.now.presentation.now.presentation request.now.classes
        branch.old.targets.items branch.old.levels }
    requires opened { IsOpen (asked request.now) (branch.old.targets.items ++ target ∷ []) }
    ensures fronts { OnOk result (AddsLonger (asked request.now)
        (branch.old.targets.items ++ target ∷ [])
        (lists_in fronts.old.items) (lists_in fronts.new.items)) }
    ensures branch { OnOk result (IsBranch request.now.presentation.now.presentation
        request.now.classes branch.new.targets.items branch.new.levels) }
    ensures same { OnOk result (branch.new.targets.items ≡ branch.old.targets.items) }
{
    if !branch.enter(request.presentation, request.classes, target)? {
        return Ok(());
    }
    grow(request, branch, depth, fronts)?;
    branch.pop();
    Ok(())
}

// Adds the front parts with a few targets more than this one, as `grow` does.
fn split(request: &Request, front: &[usize], fronts: &mut Vec<Vec<usize>>) -> Result<(), NoMemory>
    requires asked { IsAsked (asked request.now) }
    requires opened { IsOpen (asked request.now) front.now }
    ensures { OnOk result (AddsLonger (asked request.now) front.now
        (lists_in fronts.old.items) (lists_in fronts.new.items)) }
{
    let Some(mut branch) = branch_of(request, front)? else {
        return Ok(());
    };
    grow(request, &mut branch, DEPTH, fronts)
}

/// The front parts of one target, in order. Refused only where memory is wanting.
pub fn first_fronts(request: &Request) -> Result<Vec<Vec<usize>>, NoMemory>
    requires { request.now.classes ≤ 16 }
    ensures { IfOk result (λ fronts. AreJoined (asked request.now) (lists_in fronts.items) []) }
{
    let _letters = request.presentation.letters();
    let limit = most_nodes(request.presentation, request.classes).min(2);
    let mut fronts = Vec::new(request.alloc);
    for target in least_target(request.presentation)..limit {
        fronts.push(Vec::from_slice(request.alloc, &[target])?)?;
    }
    Ok(fronts)
}

/// The front parts with a few targets more, in order, but for those behind which there is no table
/// after the cursor. Refused only where memory is wanting.
pub fn split_all(request: &Request, fronts: &[Vec<usize>]) -> Result<Vec<Vec<usize>>, NoMemory>
    requires asked { IsAsked (asked request.now) }
    requires opened { AreOpen (asked request.now) (lists_in fronts.now) }
    ensures { IfOk result (λ longer. AreLonger (asked request.now)
        (lists_in fronts.now) (lists_in longer.items)) }
{
    let mut all = Vec::new(request.alloc);
    for front in fronts {
        split(request, front, &mut all)?;
    }
    Ok(all)
}
