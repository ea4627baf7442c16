// Classes of numbers by their names.
ghost use Rattle.std.specs.Prelude.{◌≡◌, ◌+◌, ◌<◌, ◌≤◌, [], length, List, ℕ, IfOk, OnOk};
ghost use Rattle.theory.specs.Green.{AreClasses};
ghost use Rattle.green.specs.Grouping.{AreCollected, AreSmall, HaveOneName};

use crate::collector::Collector;
use crate::states::in_four_bytes;
use ports::NoMemory;
use std::alloc::Global;

// Puts a number into the class of its name, or into a new one; so many are there before and, as
// the answer says, after it.
fn put<C: Collector>(
    names: &[u32],
    number: usize,
    places: &mut Vec<Option<u32>>,
    count: usize,
    collector: &mut C,
) -> Result<usize, NoMemory>
    requires number { number < length names.now }
    requires small { AreSmall names.now }
    requires bound { length names.now ≤ C.bound (C.source collector.old) }
    requires collected { AreCollected names.now number places.old.items count
        (C.holds collector.old) }
    ensures source { OnOk result (C.source collector.new ≡ C.source collector.old) }
    ensures collected { IfOk result (λ now. AreCollected names.now (number + 1) places.new.items
        now (C.holds collector.new)) }
{
    let name = names[number] as usize;
    if let Some(place) = places[name] {
        collector.add(place as usize, number)?;
        return Ok(count);
    }
    let place = in_four_bytes(count)?;
    places[name] = Some(place);
    collector.begin(number)?;
    Ok(place as usize + 1)
}

// Collects the classes of numbers that have one name. Names are less than how many numbers there
// are.
pub(crate) fn collect<C: Collector>(
    alloc: Global,
    names: &[u32],
    collector: &mut C,
) -> Result<(), NoMemory>
    requires small { AreSmall names.now }
    requires bound { length names.now ≤ C.bound (C.source collector.old) }
    requires empty { C.holds collector.old [] }
    ensures source { OnOk result (C.source collector.new ≡ C.source collector.old) }
    ensures collected { OnOk result ((classes : List (List ℕ))
        × AreClasses (length names.now) (HaveOneName names.now) classes
        × C.holds collector.new classes) }
{
    let mut places: Vec<Option<u32>> = vec![in alloc; None; names.len()]?;
    let mut count = 0;
    for number in 0..names.len() {
        count = put(names, number, &mut places, count, collector)?;
    }
    Ok(())
}
