//! Letters, words and alphabets.
//!
//! A [`Word`] is a list of [`Letter`]s, each the number of a place in an [`Alphabet`]; contracts
//! see it as a list of numbers (libsemigroups, `word_type`). [`shortlex`] is the order of words of
//! Sims, *Computation with finitely presented groups* (1994), 2.1.
#![tactic(auto)]

mod alphabets;
pub mod facts;
mod fault;
mod letters;
mod order;

pub use alphabets::{Alphabet, MARKER, is_letter};
pub use fault::{AlphabetFault, WordFault};
pub use letters::{Letter, Word};
pub use order::shortlex;
