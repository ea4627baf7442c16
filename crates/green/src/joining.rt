// Names of classes that meet.
ghost use Rattle.std.specs.Prelude.{◌≡◌, ℕ, ◌<◌, length, slice_index, IfOk};
ghost use Rattle.green.specs.Grouping.{AreSmall};
ghost use Rattle.green.specs.Joining.{AreJoinedNames, IsLeastThatMeets};

use crate::states::in_four_bytes;
use ports::NoMemory;
use std::alloc::Global;

// For each second name the least first name that meets it, where one does.
fn least_names(alloc: Global, first: &[u32], second: &[u32]) -> Result<Vec<u32>, NoMemory>
    requires count { length second.now ≡ length first.now }
    requires first { AreSmall first.now }
    requires second { AreSmall second.now }
    ensures count { IfOk result (λ least. length least.items ≡ length first.now) }
    ensures least { IfOk result (λ least. (i : ℕ) → i < length first.now
        → IsLeastThatMeets first.now second.now (slice_index second.now i)
        (slice_index least.items (slice_index second.now i))) }
{
    let none = in_four_bytes(first.len())?;
    let mut least = vec![in alloc; none; first.len()]?;
    for number in 0..first.len() {
        let name = second[number] as usize;
        if first[number] < least[name] {
            least[name] = first[number];
        }
    }
    Ok(least)
}

// For each number the least first name that meets its second name.
pub(crate) fn joined_names(
    alloc: Global,
    first: &[u32],
    second: &[u32],
) -> Result<Vec<u32>, NoMemory>
    requires count { length second.now ≡ length first.now }
    requires first { AreSmall first.now }
    requires second { AreSmall second.now }
    ensures { IfOk result (λ names. AreJoinedNames first.now second.now names.items) }
{
    let least = least_names(alloc, first, second)?;
    let mut names = Vec::with_capacity(alloc, second.len())?;
    for name in second {
        names.push(least[*name as usize])?;
    }
    Ok(names)
}
