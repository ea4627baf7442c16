// Searching for tables, a target at a time.
ghost use Rattle.std.specs.Prelude.{◌≡◌, ℕ, suc, ◌+◌, ◌*◌, ◌<◌, ◌≤◌, ◌↔◌, List, [], ◌∷◌, ◌++◌, length, take, slice_get, Some, IsTrue, IfOk, IfSome, true, false, MatchOption};
ghost use Rattle.sims_one.specs.Targets.{seen, least_target, most_nodes, IsFront, AreAllowed, IsWithin};
ghost use Rattle.sims_one.specs.Known.{HasEdges, IsBranch};
ghost use Rattle.sims_one.specs.Search.{IsLeastWithin, NoneWithin, IsLeastBeyond, NoneBeyond, IsLeastAfter, NoneAfter, NoneFrom, IsCursor, IsFoundBranch};

use crate::branch::Branch;
use crate::halt::Halt;
use crate::indexed::Indexed;
use crate::known::Known;
use crate::paths::is_sound;
use crate::sims::MOST_CLASSES;
use crate::trail::MOST_EDGES;
use ports::NoMemory;
use std::alloc::Global;

/// The most nodes of a table of at most so many classes: in a semigroup the root is no class.
pub fn most_nodes(presentation: &Indexed, classes: usize) -> usize
    requires { classes ≤ MOST_CLASSES }
    ensures { result ≡ most_nodes presentation.now.presentation.is_monoid classes }
{
    if presentation.is_monoid() {
        classes
    } else {
        classes + 1
    }
}

/// The least target of a table: in a semigroup no edge leads to the root.
pub fn least_target(presentation: &Indexed) -> usize
    ensures { result ≡ least_target presentation.now.presentation.is_monoid }
{
    if presentation.is_monoid() { 0 } else { 1 }
}

// Whether the target is one that a table of at most so many classes may have.
fn is_allowed(presentation: &Indexed, classes: usize, target: usize) -> bool
    requires { classes ≤ MOST_CLASSES }
    ensures { IsTrue result ↔ ((least_target presentation.now.presentation.is_monoid ≤ target)
        × (target < most_nodes presentation.now.presentation.is_monoid classes)) }
{
    least_target(presentation) <= target && target < most_nodes(presentation, classes)
}

/// The least target to be tried at the place, from the first one on: where it is known, no lesser.
pub fn least_candidate(known: &Known, place: usize, first: usize) -> usize
    requires { place < MOST_EDGES }
    ensures from { first ≤ result }
    ensures all { (u : List ℕ) (m : ℕ) → HasEdges known.now.targets u → slice_get u place ≡ Some m
        → first ≤ m → result ≤ m }
{
    match known.target(place) {
        Some(target) => first.max(target),
        None => first,
    }
}

/// The targets to be tried at the place are below this one: those that a table may have, up to the
/// next new node, and where the target is known, no greater.
pub fn candidate_limit(presentation: &Indexed, classes: usize, known: &Known, place: usize) -> usize
    requires classes { classes ≤ MOST_CLASSES }
    requires place { place < MOST_EDGES }
    requires few { known.now.nodes ≤ 17 }
    ensures allowed { result ≤ most_nodes presentation.now.presentation.is_monoid classes }
    ensures numbered { result ≤ known.now.nodes + 1 }
    ensures all { (u : List ℕ) (m : ℕ) → HasEdges known.now.targets u → slice_get u place ≡ Some m
        → m < most_nodes presentation.now.presentation.is_monoid classes → m ≤ known.now.nodes
        → m < result }
{
    let limit = most_nodes(presentation, classes).min(known.nodes + 1);
    match known.target(place) {
        Some(target) => limit.min(target + 1),
        None => limit,
    }
}

/// Makes of the branch that of the least table of at most so many classes that goes on behind its
/// targets, and tells that there is one; else leaves the targets as they are. It ends early only
/// where memory is wanting, or no step is left to the branch, and then the branch is any.
#[cycle(search)]
pub fn search(presentation: &Indexed, classes: usize, branch: &mut Branch) -> Result<bool, Halt>
    requires classes { classes ≤ MOST_CLASSES }
    requires branch { IsBranch presentation.now.presentation classes
        branch.old.targets.items branch.old.levels }
    ensures found { IfOk result (λ b. b ≡ true → IsLeastWithin presentation.now.presentation classes
        branch.old.targets.items branch.new.targets.items) }
    ensures none { IfOk result (λ b. b ≡ false
        → NoneWithin presentation.now.presentation classes branch.old.targets.items) }
    ensures branch { IfOk result (λ _. IsBranch presentation.now.presentation classes
        branch.new.targets.items branch.new.levels) }
    ensures same { IfOk result (λ b. b ≡ false
        → branch.new.targets.items ≡ branch.old.targets.items) }
{
    if presentation.letters() * branch.known().nodes <= branch.targets.len() {
        return Ok(is_sound(presentation, &branch.targets));
    }
    search_from(presentation, classes, branch, least_target(presentation))
}

/// Makes of the branch that of the least table of at most so many classes that goes on behind its
/// targets with one that is not below the first, and tells that there is one; else leaves the
/// targets as they are. A target is wanting in the rows of the nodes seen. It ends early as
/// `search` does.
#[cycle(search)]
pub fn search_from(
    presentation: &Indexed,
    classes: usize,
    branch: &mut Branch,
    first: usize,
) -> Result<bool, Halt>
    requires classes { classes ≤ MOST_CLASSES }
    requires branch { IsBranch presentation.now.presentation classes
        branch.old.targets.items branch.old.levels }
    requires wanting { length branch.old.targets.items
        < presentation.now.presentation.letters * seen branch.old.targets.items }
    requires first { least_target presentation.now.presentation.is_monoid ≤ first }
    ensures found { IfOk result (λ b. b ≡ true → IsLeastBeyond presentation.now.presentation classes
        branch.old.targets.items first branch.new.targets.items) }
    ensures none { IfOk result (λ b. b ≡ false
        → NoneBeyond presentation.now.presentation classes branch.old.targets.items first) }
    ensures branch { IfOk result (λ _. IsBranch presentation.now.presentation classes
        branch.new.targets.items branch.new.levels) }
    ensures same { IfOk result (λ b. b ≡ false
        → branch.new.targets.items ≡ branch.old.targets.items) }
{
    let _letters = presentation.letters();
    let place = branch.targets.len();
    let known = branch.known();
    let least = least_candidate(known, place, first);
    let limit = candidate_limit(presentation, classes, known, place);
    for target in least..limit {
        if search_with(presentation, classes, branch, target)? {
            return Ok(true);
        }
    }
    Ok(false)
}

/// The search behind the targets with one more.
#[cycle(search)]
pub fn search_with(
    presentation: &Indexed,
    classes: usize,
    branch: &mut Branch,
    target: usize,
) -> Result<bool, Halt>
    requires classes { classes ≤ MOST_CLASSES }
    requires branch { IsBranch presentation.now.presentation classes
        branch.old.targets.items branch.old.levels }
    requires front { IsFront presentation.now.presentation.letters
        (branch.old.targets.items ++ target ∷ []) }
    requires allowed { AreAllowed presentation.now.presentation classes
        (branch.old.targets.items ++ target ∷ []) }
    ensures found { IfOk result (λ b. b ≡ true → IsLeastWithin presentation.now.presentation classes
        (branch.old.targets.items ++ target ∷ []) branch.new.targets.items) }
    ensures none { IfOk result (λ b. b ≡ false → NoneWithin presentation.now.presentation classes
        (branch.old.targets.items ++ target ∷ [])) }
    ensures branch { IfOk result (λ _. IsBranch presentation.now.presentation classes
        branch.new.targets.items branch.new.levels) }
    ensures same { IfOk result (λ b. b ≡ false
        → branch.new.targets.items ≡ branch.old.targets.items) }
{
    if branch.left == 0 {
        return Err(Halt::Steps);
    }
    branch.left -= 1;
    if !branch.enter(presentation, classes, target)? {
        return Ok(false);
    }
    if search(presentation, classes, branch)? {
        return Ok(true);
    }
    branch.pop();
    Ok(false)
}

/// Makes of the branch that of the least table of at most so many classes after the cursor, and
/// tells that there is one; else leaves the targets as they are, and no table after the cursor goes
/// on behind them. They are the first targets of the cursor. It ends early as `search` does.
#[cycle(search_after)]
pub fn search_after(
    presentation: &Indexed,
    classes: usize,
    cursor: &[usize],
    branch: &mut Branch,
) -> Result<bool, Halt>
    requires classes { classes ≤ MOST_CLASSES }
    requires cursor { IsFront presentation.now.presentation.letters cursor.now }
    requires full { length cursor.now ≡ presentation.now.presentation.letters * seen cursor.now }
    requires within { IsWithin branch.old.targets.items cursor.now }
    requires branch { IsBranch presentation.now.presentation classes
        branch.old.targets.items branch.old.levels }
    ensures found { IfOk result (λ b. b ≡ true → IsLeastAfter presentation.now.presentation classes
        cursor.now branch.new.targets.items) }
    ensures within { IfOk result (λ b. b ≡ true
        → IsWithin branch.old.targets.items branch.new.targets.items) }
    ensures none { IfOk result (λ b. b ≡ false → NoneFrom presentation.now.presentation classes
        cursor.now branch.old.targets.items) }
    ensures branch { IfOk result (λ _. IsBranch presentation.now.presentation classes
        branch.new.targets.items branch.new.levels) }
    ensures same { IfOk result (λ b. b ≡ false
        → branch.new.targets.items ≡ branch.old.targets.items) }
{
    let place = branch.targets.len();
    if cursor.len() <= place {
        return Ok(false);
    }
    let target = cursor[place];
    if search_along(presentation, classes, cursor, branch, target)? {
        return Ok(true);
    }
    search_from(presentation, classes, branch, target + 1)
}

/// The search after the cursor behind the targets with one of the cursor more.
#[cycle(search_after)]
pub fn search_along(
    presentation: &Indexed,
    classes: usize,
    cursor: &[usize],
    branch: &mut Branch,
    target: usize,
) -> Result<bool, Halt>
    requires classes { classes ≤ MOST_CLASSES }
    requires cursor { IsFront presentation.now.presentation.letters cursor.now }
    requires full { length cursor.now ≡ presentation.now.presentation.letters * seen cursor.now }
    requires within { IsWithin (branch.old.targets.items ++ target ∷ []) cursor.now }
    requires branch { IsBranch presentation.now.presentation classes
        branch.old.targets.items branch.old.levels }
    ensures found { IfOk result (λ b. b ≡ true → IsLeastAfter presentation.now.presentation classes
        cursor.now branch.new.targets.items) }
    ensures within { IfOk result (λ b. b ≡ true
        → IsWithin (branch.old.targets.items ++ target ∷ []) branch.new.targets.items) }
    ensures none { IfOk result (λ b. b ≡ false → NoneFrom presentation.now.presentation classes
        cursor.now (branch.old.targets.items ++ target ∷ [])) }
    ensures branch { IfOk result (λ _. IsBranch presentation.now.presentation classes
        branch.new.targets.items branch.new.levels) }
    ensures same { IfOk result (λ b. b ≡ false
        → branch.new.targets.items ≡ branch.old.targets.items) }
{
    if !is_allowed(presentation, classes, target) {
        return Ok(false);
    }
    if !branch.enter(presentation, classes, target)? {
        return Ok(false);
    }
    if search_after(presentation, classes, cursor, branch)? {
        return Ok(true);
    }
    branch.pop();
    Ok(false)
}

/// Makes of the branch of a table that of the least table of at most so many classes after it that
/// goes on behind as many of its targets as are kept, and tells that there is one. It ends early as
/// `search` does.
pub fn search_next(
    presentation: &Indexed,
    classes: usize,
    branch: &mut Branch,
    kept: usize,
) -> Result<bool, Halt>
    requires classes { classes ≤ MOST_CLASSES }
    requires branch { IsBranch presentation.now.presentation classes
        branch.old.targets.items branch.old.levels }
    requires full { presentation.now.presentation.letters * seen branch.old.targets.items
        ≤ length branch.old.targets.items }
    requires kept { kept ≤ length branch.old.targets.items }
    ensures found { IfOk result (λ b. b ≡ true → IsLeastAfter presentation.now.presentation classes
        branch.old.targets.items branch.new.targets.items) }
    ensures within { IfOk result (λ b. b ≡ true
        → IsWithin (take kept branch.old.targets.items) branch.new.targets.items) }
    ensures none { IfOk result (λ b. b ≡ false → NoneFrom presentation.now.presentation classes
        branch.old.targets.items (take kept branch.old.targets.items)) }
    ensures branch { IfOk result (λ b. b ≡ true → IsBranch presentation.now.presentation classes
        branch.new.targets.items branch.new.levels) }
{
    while kept < branch.targets.len() {
        let Some(target) = branch.pop() else {
            return Ok(false);
        };
        if search_from(presentation, classes, branch, target + 1)? {
            return Ok(true);
        }
    }
    Ok(false)
}

// The branch of the least table of at most so many classes after the cursor, or of the least table
// of all where the cursor has no target. Refused only where memory is wanting.
fn find_after(
    alloc: Global,
    presentation: &Indexed,
    classes: usize,
    cursor: &[usize],
) -> Result<Option<Branch>, NoMemory>
    requires classes { classes ≤ MOST_CLASSES }
    requires cursor { IsCursor presentation.now.presentation.letters cursor.now }
    ensures { IfOk result (λ found. MatchOption found
        (NoneAfter presentation.now.presentation classes cursor.now)
        (λ b. IsFoundBranch presentation.now.presentation classes cursor.now
        b.targets.items b.levels)) }
{
    let _letters = presentation.letters();
    let mut branch = Branch::new(alloc, presentation)?;
    if cursor.is_empty() {
        if search(presentation, classes, &mut branch)? {
            return Ok(Some(branch));
        }
        return Ok(None);
    }
    if search_after(presentation, classes, cursor, &mut branch)? {
        return Ok(Some(branch));
    }
    Ok(None)
}

/// The branch of the least table of at most so many classes after the cursor, or of the least table
/// of all where the cursor has no target. `None` exactly where there is no table. The branch of the
/// cursor, where there is one, spares the way to it. Refused only where memory is wanting.
pub fn find_next(
    alloc: Global,
    presentation: &Indexed,
    classes: usize,
    cursor: &[usize],
    branch: Option<Branch>,
) -> Result<Option<Branch>, NoMemory>
    requires classes { classes ≤ MOST_CLASSES }
    requires cursor { IsCursor presentation.now.presentation.letters cursor.now }
    requires branch { IfSome branch (λ b. IsBranch presentation.now.presentation classes
        b.targets.items b.levels) }
    requires same { IfSome branch (λ b. (b.targets.items ≡ cursor.now)
        × (0 < length b.targets.items)) }
    ensures { IfOk result (λ found. MatchOption found
        (NoneAfter presentation.now.presentation classes cursor.now)
        (λ b. IsFoundBranch presentation.now.presentation classes cursor.now
        b.targets.items b.levels)) }
{
    let Some(mut branch) = branch else {
        return find_after(alloc, presentation, classes, cursor);
    };
    if search_next(presentation, classes, &mut branch, 0)? {
        Ok(Some(branch))
    } else {
        Ok(None)
    }
}
