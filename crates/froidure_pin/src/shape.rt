// Whether generators can be multiplied.
ghost use Rattle.std.specs.Prelude.{IsTrue, ◌↔◌};
ghost use Rattle.elements.specs.Generators.{HaveOneShape};

use elements::Element;

/// Whether the generators are of one shape, so that they generate a semigroup: each is held
/// against the first.
pub fn have_one_shape<E: Element>(generators: &Vec<E>) -> bool
    ensures { IsTrue result ↔ HaveOneShape E.shape generators.now.items }
{
    if generators.is_empty() {
        return true;
    }
    for generator in generators {
        if !generators[0].same_shape(generator) {
            return false;
        }
    }
    true
}
