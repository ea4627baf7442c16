//! Rows of entries, one for each letter: a number or none, in four bytes.
//!
//! [`Cells`] are the edges of a word graph, and whatever else stands beside its nodes and letters,
//! row after row in one vector (libsemigroups, `WordGraph`).
#![tactic(auto)]

mod entries;
mod flat;

pub use entries::Entry;
pub use flat::{Cells, NUMBERS_AT_MOST};
