//! What coset enumerations share: an engine of so many definitions or rows, and a turn of it.
#![tactic(auto)]

mod turns;

pub use turns::answer;
