// What words are made of, in numbers of four bytes.
ghost use Rattle.std.specs.Prelude.{◌≡◌, IfOk};
ghost use Rattle.froidure_pin.specs.Found.{factor_of, tail_of};

use ports::NoMemory;

// A number in four bytes. One that does not fit in them is refused: there is no memory for more.
pub(crate) fn in_four_bytes(number: usize) -> Result<u32, NoMemory>
    ensures { IfOk result (λ packed. packed ≡ number) }
{
    u32::try_from(number).map_err(|_| NoMemory)
}

// A word without its last letter, by its number plus one, or 0 where nothing is left; and the last
// letter.
#[derive(Clone, Copy)]
pub(crate) struct Factor {
    pub(crate) prefix: u32,
    pub(crate) last: u32,
}

impl Factor {
    // Refused where there is no memory for more elements.
    pub(crate) fn new(prefix: usize, last: usize) -> Result<Factor, NoMemory>
        ensures { IfOk result (λ factor. factor ≡ factor_of prefix last) }
    {
        Ok(Factor {
            prefix: in_four_bytes(prefix)?,
            last: in_four_bytes(last)?,
        })
    }
}

// The first letter of a word; and the word without it, by its number plus one, or 0 where nothing
// is left.
#[derive(Clone, Copy)]
pub(crate) struct Tail {
    pub(crate) first: u32,
    pub(crate) suffix: u32,
}

impl Tail {
    // Refused where there is no memory for more elements.
    pub(crate) fn new(first: usize, suffix: usize) -> Result<Tail, NoMemory>
        ensures { IfOk result (λ tail. tail ≡ tail_of first suffix) }
    {
        Ok(Tail {
            first: in_four_bytes(first)?,
            suffix: in_four_bytes(suffix)?,
        })
    }
}
