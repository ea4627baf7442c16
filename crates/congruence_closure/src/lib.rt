//! Congruence closure under maps of one argument: the least equivalence on numbers that has given
//! pairs and is kept by given maps (Downey, Sethi and Tarjan, *Variations on the common
//! subexpression problem*, 1980; Hopcroft and Karp 1971, for two automata).
#![tactic(auto)]

mod closing;
mod parents;

pub use closing::{Maps, least_classes};
