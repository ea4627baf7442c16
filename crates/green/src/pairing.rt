// Names of pairs of names.
ghost use Rattle.std.specs.Prelude.{◌≡◌, length, IfOk};
ghost use Rattle.green.specs.Pairing.{AreNamesOfPairs};

use crate::states::in_four_bytes;
use indexmap::IndexSet;
use ports::NoMemory;
use std::alloc::Global;

// For each number a name of its two names: the place of the pair among those that differ.
pub(crate) fn names_of_pairs(
    alloc: Global,
    first: &[u32],
    second: &[u32],
) -> Result<Vec<u32>, NoMemory>
    requires { length second.now ≡ length first.now }
    ensures { IfOk result (λ names. AreNamesOfPairs first.now second.now names.items) }
{
    let mut pairs: IndexSet<(u32, u32)> = IndexSet::new(alloc);
    let mut names = Vec::with_capacity(alloc, first.len())?;
    for number in 0..first.len() {
        let (place, _) = pairs.insert_full((first[number], second[number]))?;
        names.push(in_four_bytes(place)?)?;
    }
    Ok(names)
}
