//! Congruences on the elements of a finite semigroup whose Cayley graphs are known: which elements
//! are of one class of the least congruence, on one side or on both, that has given pairs
//! (Froidure and Pin 1997; libsemigroups, `Congruence` over a `FroidurePin`).
#![tactic(auto)]

mod classes;
pub mod facts;
mod placing;
mod racer;
mod sides;

pub use classes::{Classes, by_pairs};
pub use racer::PairsRacer;
pub use sides::number_of;
