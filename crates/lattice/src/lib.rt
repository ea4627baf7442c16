//! The lattice of right congruences, by their tables (Sims, *Computation with finitely presented
//! groups*, 1994, chapter 5; libsemigroups, `WordGraph`).
#![tactic(auto)]

mod joins;
mod meets;

pub use joins::join;
pub use meets::meet;
