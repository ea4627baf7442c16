// Merging until no pair waits.
ghost use Rattle.std.specs.Prelude.{◌≡◌, ◌<◌, ◌≤◌, ◌+◌, List, ℕ, [], ◌++◌, length, IfOk, OnOk, All};
ghost use Rattle.congruence_closure.specs.Labels.{AreBelow};
ghost use Rattle.congruence_closure.specs.Maps.{AreIn, AreInto, AreLeastClasses};
ghost use Rattle.congruence_closure.specs.Closing.{IsClosing, images};

use crate::parents::{flatten, merge, singletons};
use ports::NoMemory;
use std::alloc::Global;

/// Maps of the numbers below a bound, which contracts see, into themselves.
pub trait Maps {
    ghost use Rattle.std.specs.Prelude.{◌≡◌, ◌<◌};
    ghost use Rattle.congruence_closure.specs.Maps.{MapList};

    ghost maps: { Self → MapList };

    /// How many maps there are.
    fn count(&self) -> usize
        ensures { result ≡ (maps self.now).count };

    /// The image of a number under a map.
    fn image(&self, number: usize, map: usize) -> usize
        requires number { number < (maps self.now).bound }
        requires map { map < (maps self.now).count }
        ensures { result ≡ (maps self.now).image number map };
}

// The images of two numbers wait to be merged, map by map.
fn push_images<M: Maps>(
    maps: &M,
    left: usize,
    right: usize,
    waiting: &mut Vec<(usize, usize)>,
) -> Result<(), NoMemory>
    requires maps { AreInto (M.maps maps.now) }
    requires left { left < (M.maps maps.now).bound }
    requires right { right < (M.maps maps.now).bound }
    ensures images { OnOk result (waiting.new.items ≡ waiting.old.items
        ++ images (M.maps maps.now) left right (M.maps maps.now).count) }
    ensures count { OnOk result (length waiting.new.items
        ≡ length waiting.old.items + (M.maps maps.now).count) }
    ensures within { OnOk result (All (AreIn (M.maps maps.now).bound) waiting.old.items
        → All (AreIn (M.maps maps.now).bound) waiting.new.items) }
{
    for map in 0..maps.count() {
        waiting.push((maps.image(left, map), maps.image(right, map)))?;
    }
    Ok(())
}

// Merges the pairs that wait, and for each merge the images of its numbers, until none waits.
fn close<M: Maps>(
    maps: &M,
    parents: &mut Vec<usize>,
    mut waiting: Vec<(usize, usize)>,
) -> Result<(), NoMemory>
    requires maps { AreInto (M.maps maps.now) }
    requires count { length parents.old.items ≡ (M.maps maps.now).bound }
    requires below { AreBelow parents.old.items }
    requires within { All (AreIn (M.maps maps.now).bound) waiting.items }
    ensures count { OnOk result (length parents.new.items ≡ (M.maps maps.now).bound) }
    ensures below { OnOk result (AreBelow parents.new.items) }
    ensures closed { OnOk result ((pairs : List (ℕ × ℕ))
        → IsClosing (M.maps maps.now) pairs parents.old.items waiting.items
        → IsClosing (M.maps maps.now) pairs parents.new.items []) }
{
    while let Some((left, right)) = waiting.pop() {
        if merge(parents, left, right) {
            push_images(maps, left, right, &mut waiting)?;
        }
    }
    Ok(())
}

/// For each number below a bound the least number of its class, under the least equivalence that
/// has the pairs and is kept by the maps. The bound is that of the maps; images and the numbers of
/// pairs are below it. There are fewer merges than numbers, and for each the images of two numbers
/// are looked at. Refused only where memory is wanting.
pub fn least_classes<M: Maps>(
    alloc: Global,
    maps: &M,
    bound: usize,
    pairs: Vec<(usize, usize)>,
) -> Result<Vec<usize>, NoMemory>
    requires bound { bound ≡ (M.maps maps.now).bound }
    requires maps { AreInto (M.maps maps.now) }
    requires pairs { All (AreIn bound) pairs.items }
    ensures { IfOk result (λ classes.
        AreLeastClasses (M.maps maps.now) pairs.items classes.items) }
{
    let mut classes = singletons(alloc, bound)?;
    close(maps, &mut classes, pairs)?;
    flatten(&mut classes);
    Ok(classes)
}
