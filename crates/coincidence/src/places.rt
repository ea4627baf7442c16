// Lists of places, with the bits of the pairs that they are of.
ghost use Rattle.std.specs.Prelude.{◌≡◌, ℕ, [], Some, OnOk, IfSome};
ghost use Rattle.coincidence.specs.Places.{HasBit, IsMaskOf, IsWith};

use crate::seen::with_bit;
use crate::uses::ends_with;
use ports::NoMemory;
use std::alloc::Global;
use std::marker::Model;

/// Numbers of pairs, each with a place in its side, and the bits of the pairs, if each has one.
#[derive(Drop)]
pub struct PlaceList {
    entries: Vec<(usize, usize)>,
    mask: Option<u64>,
}

impl Model for PlaceList {
    ghost use Rattle.std.specs.Prelude.{IfSome};
    ghost use Rattle.coincidence.specs.Places.{IsMaskOf, Places};

    ghost Value = { Places };

    ghost view = { λ l. l.entries.items };

    ghost invariant = { λ l. IfSome l.mask (λ mask. IsMaskOf mask l.entries.items) };
}

// The mask with the bit of the pair, if there is one and the pair has a bit.
fn mask_with(mask: Option<u64>, pair: usize) -> Option<u64>
    ensures { IfSome result (λ new. HasBit new pair × ((old : ℕ) × (mask ≡ Some old)
        × ((i : ℕ) → HasBit old i → HasBit new i))) }
{
    match mask {
        None => None,
        Some(bits) => with_bit(bits, pair),
    }
}

impl PlaceList {
    /// No place.
    pub fn new(alloc: Global) -> PlaceList
        ensures { result ≡ [] }
    {
        PlaceList {
            entries: Vec::new(alloc),
            mask: Some(0),
        }
    }

    /// The place is in the list, at its end if it is new. Refused only where memory is wanting.
    pub fn add(&mut self, place: (usize, usize)) -> Result<(), NoMemory>
        ensures { OnOk result (IsWith self.old self.new place) }
    {
        if ends_with(&self.entries, place) {
            return Ok(());
        }
        self.entries.push(place)?;
        self.mask = mask_with(self.mask, place.0);
        Ok(())
    }

    /// The places.
    pub fn as_slice(&self) -> &[(usize, usize)]
        ensures { result.now ≡ self.now }
    {
        self.entries.as_slice()
    }

    /// The bits of the pairs, if each of them has one.
    pub fn mask(&self) -> Option<u64>
        ensures { IfSome result (λ mask. IsMaskOf mask self.now) }
    {
        self.mask
    }
}
