// The nodes that lost nodes were replaced by.
ghost use Rattle.std.specs.Prelude.{◌≡◌, ℕ, ◌<◌, ◌≤◌, length, OnOk};
ghost use Rattle.coincidence.specs.Live.{IsOn};
ghost use Rattle.coincidence.specs.Replaced.{IsKnown, StaysInClass};

use ports::NoMemory;

/// Room for so many nodes; what stands there does not matter. Refused only where memory is wanting.
pub fn make_room(replaced_by: &mut Vec<usize>, count: usize) -> Result<(), NoMemory>
    ensures { OnOk result (count ≤ length replaced_by.new.items) }
{
    while replaced_by.len() < count {
        replaced_by.push(0)?;
    }
    Ok(())
}

// The node that a lost one was replaced by. Where that is lost too, it is skipped from now on, so
// that ways are halved as they are gone.
fn follow(live: &Vec<bool>, replaced_by: &mut Vec<usize>, node: usize) -> usize
    requires replaced { IsKnown live.now.items replaced_by.old.items node }
    requires lost { IsOn live.now.items node → ⊥ }
    ensures less { result < node }
    ensures stays { StaysInClass live.now.items replaced_by.old.items replaced_by.new.items node
        result }
{
    let next = replaced_by[node];
    if live[next] {
        return next;
    }
    let further = replaced_by[next];
    replaced_by[node] = further;
    further
}

/// The node, or where it is lost, the live node that is kept for it in the end.
pub fn representative(live: &Vec<bool>, replaced_by: &mut Vec<usize>, node: usize) -> usize
    requires { IsKnown live.now.items replaced_by.old.items node }
    ensures live { IsOn live.now.items result }
    ensures stays { StaysInClass live.now.items replaced_by.old.items replaced_by.new.items node
        result }
{
    let mut at = node;
    while !live[at] {
        at = follow(live, replaced_by, at);
    }
    at
}
