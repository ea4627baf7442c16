// Which relations were seen to hold at which nodes.
ghost use Rattle.std.specs.Prelude.{◌≡◌, ◌<◌, ◌≤◌, ◌⊎◌, ℕ, [], true, length, slice_index_or, OnOk, IfNone, IfSome};
ghost use Rattle.coincidence.specs.Places.{HasBit};
ghost use Rattle.coincidence.specs.Seen.{IsSeen};

use ports::NoMemory;
use std::alloc::Global;
use std::marker::Model;

// It is kept of so many relations, the first ones, where they hold: as many as a number has bits.
const RELATIONS_KEPT: usize = 64;

// For each node the relations that were seen to hold there, as bits of one number. At nodes past
// the last number none was seen to.
#[derive(Drop)]
pub struct Seen {
    relations: Vec<u64>,
}

impl Model for Seen {
    ghost use Rattle.std.specs.Prelude.{List, ℕ};

    ghost Value = { List ℕ };

    ghost view = { λ s. s.relations.items };
}

/// The mask with the bit of the relation, if it is one of which it is kept.
pub fn with_bit(mask: u64, relation: usize) -> Option<u64>
    ensures here { IfSome result (λ new. HasBit new relation) }
    ensures still { IfSome result (λ new. (i : ℕ) → HasBit mask i → HasBit new i) }
    ensures from { IfSome result (λ new. (i : ℕ) → HasBit new i → HasBit mask i ⊎ (i ≡ relation)) }
{
    if RELATIONS_KEPT <= relation {
        return None;
    }
    Some(mask | 1 << relation)
}

/// The bits of the mask that the other has not.
pub fn without(mask: u64, other: u64) -> u64
    ensures { (i : ℕ) → HasBit mask i → HasBit result i ⊎ HasBit other i }
{
    mask & !other
}

/// Takes the first relation out of a mask.
pub fn take_first(mask: &mut u64) -> Option<usize>
    ensures none { IfNone result ((i : ℕ) → HasBit mask.old i → ⊥) }
    ensures others { IfSome result (λ first. (i : ℕ) → HasBit mask.old i
        → (i ≡ first) ⊎ HasBit mask.new i) }
    ensures less { IfSome result (λ _. mask.new < mask.old) }
{
    let bits = *mask;
    if bits == 0 {
        return None;
    }
    let first = bits.trailing_zeros();
    *mask = bits & !(1 << first);
    Some(first as usize)
}

/// There is a mask of this number; those that are new have no bit. Only want of memory refuses it.
pub fn make_room(masks: &mut Vec<u64>, number: usize) -> Result<(), NoMemory>
    ensures room { OnOk result (number < length masks.new.items) }
    ensures same { (n : ℕ) → slice_index_or masks.new.items n 0
        ≡ slice_index_or masks.old.items n 0 }
{
    while masks.len() <= number {
        masks.push(0)?;
    }
    Ok(())
}

impl Seen {
    /// No relation was seen to hold yet.
    pub fn new(alloc: Global) -> Seen
        ensures { result ≡ [] }
    {
        Seen {
            relations: Vec::new(alloc),
        }
    }

    /// Whether the relation was seen to hold at the node.
    pub fn has(&self, node: usize, relation: usize) -> bool
        ensures { result ≡ true → IsSeen self.now node relation }
    {
        if RELATIONS_KEPT <= relation {
            return false;
        }
        if self.relations.len() <= node {
            return false;
        }
        (self.relations[node] >> relation) & 1 == 1
    }

    /// The first relation, this one or one behind it, that was not seen to hold at the node.
    pub fn next_unseen(&self, node: usize, relation: usize) -> usize
        ensures { (i : ℕ) → relation ≤ i → i < result → IsSeen self.now node i }
    {
        if RELATIONS_KEPT <= relation {
            return relation;
        }
        if self.relations.len() <= node {
            return relation;
        }
        let seen = self.relations[node] >> relation;
        RELATIONS_KEPT.min(relation + seen.trailing_ones() as usize)
    }

    /// The relations of the mask that were not seen to hold at the node.
    pub fn unseen(&self, node: usize, mask: u64) -> u64
        ensures { (i : ℕ) → HasBit mask i → HasBit result i ⊎ IsSeen self.now node i }
    {
        if self.relations.len() <= node {
            return mask;
        }
        without(mask, self.relations[node])
    }

    /// The relation was seen to hold at the node. It is not kept where memory is wanting, nor of
    /// more relations than the first ones.
    pub fn note(&mut self, node: usize, relation: usize)
        ensures { (n i : ℕ) → IsSeen self.new n i
            → IsSeen self.old n i ⊎ ((n ≡ node) × (i ≡ relation)) }
    {
        if RELATIONS_KEPT <= relation {
            return;
        }
        let Ok(()) = make_room(&mut self.relations, node) else {
            return;
        };
        self.relations[node] |= 1 << relation;
    }

    /// At the node and all behind it none was seen to hold yet.
    pub fn cut(&mut self, node: usize)
        ensures { (n i : ℕ) → IsSeen self.new n i → IsSeen self.old n i × (n < node) }
    {
        self.relations.truncate(node);
    }
}
