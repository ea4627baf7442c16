//! Rooted word graphs: nodes with at most one edge for each letter.
//!
//! A [`WordGraph`] is the table of a coset enumeration, or of a right congruence, as a graph (Sims,
//! *Computation with finitely presented groups*, 1994, chapter 5; libsemigroups, `WordGraph`).
#![tactic(auto)]

mod backwards;
mod graphs;
mod rows;
mod tables;
mod two_sided;
mod walks;

pub use graphs::{MOST_LETTERS, WordGraph};
