// Entries of four bytes.
ghost use Rattle.std.specs.Prelude.{◌≡◌, ◌<◌};
ghost use Rattle.std.specs.Option.{ForSome};

use std::marker::Model;

/// A number or none in four bytes: none is 0, and a number stands with one added.
#[derive(Clone, Copy)]
pub struct Entry {
    code: u32,
}

impl Model for Entry {
    ghost use Rattle.std.specs.Prelude.{ℕ, Option};
    ghost use Rattle.std.proofs.Common.{ap};
    ghost use Rattle.cells.specs.Codes.{coded, code_of, code_back};

    ghost Value = { Option ℕ };

    ghost view = { λ e. coded e.code };

    ghost inverse = { λ x. record { code = code_of x } };

    ghost inverse_ok = { λ e h. ap (λ n. record { code = n }) (code_back e.code) };
}

impl Entry {
    /// The entry of a number, or of none.
    pub fn new(number: Option<usize>) -> Entry
        requires { ForSome number (λ n. n < u32.MAX) }
        ensures { result ≡ number }
    {
        match number {
            None => Entry { code: 0 },
            Some(number) => Entry {
                code: number as u32 + 1,
            },
        }
    }

    /// The number that stands there, if there is one.
    pub fn value(&self) -> Option<usize>
        ensures value { result ≡ self.now }
        ensures few { ForSome result (λ n. n < u32.MAX) }
    {
        (self.code as usize).checked_sub(1)
    }
}
