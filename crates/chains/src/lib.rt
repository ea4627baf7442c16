//! Chains of words, each got from the one before by one relation at one place, and a checker of
//! them that stands apart from every engine (Book and Otto, *String-rewriting systems*, 1993,
//! chapter 1).
#![tactic(auto)]

mod chains;
mod derivations;
pub mod facts;
mod fronts;
mod guide;
mod pending;
mod search;
mod steps;
mod walks;

pub use chains::{check, words_of};
pub use derivations::{Derivations, Fact};
pub use pending::{around, turn_back};
pub use steps::ChainStep;
