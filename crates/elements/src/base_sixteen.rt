// The digits of a number in base 16.
ghost use Rattle.std.specs.Prelude.{◌≡◌, ◌<◌};
ghost use Rattle.elements.specs.Digits.{digit_at};

// The digit at a place, counted from the right.
pub(crate) fn digit(x: u64, place: u32) -> u64
    requires { place < 16 }
    ensures digit { result ≡ digit_at x place }
    ensures below { result < 16 }
{
    x >> (4 * place) & 15
}
