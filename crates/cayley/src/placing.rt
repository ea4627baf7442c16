// The classes of numbers in the order of their least numbers.
ghost use Rattle.std.specs.Prelude.{IfOk};
ghost use Rattle.cayley.specs.Placing.{AreNamed, ArePlacedClasses};

use ports::NoMemory;
use std::alloc::Global;

// The least numbers of the classes, in order, and for each number the place of that of its class.
pub(crate) fn placed(alloc: Global, classes: &[usize]) -> Result<(Vec<usize>, Vec<usize>), NoMemory>
    requires { AreNamed classes.now }
    ensures { IfOk result (λ found. ArePlacedClasses classes.now found.0.items found.1.items) }
{
    let mut roots: Vec<usize> = Vec::new(alloc);
    let mut places: Vec<usize> = Vec::new(alloc);
    for number in 0..classes.len() {
        let least = classes[number];
        if least < number {
            places.push(places[least])?;
        } else {
            places.push(roots.len())?;
            roots.push(number)?;
        }
    }
    Ok((roots, places))
}
