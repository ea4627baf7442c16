//! What a script poses: a congruence on a presentation (Sims, *Computation with finitely presented
//! groups*, 1994), or generators of one kind and shape, each with a letter, and the values of the
//! words over them (Froidure and Pin 1997).
#![tactic(auto)]

mod budgets;
pub mod facts;
mod kinds;
mod lists;
mod posing;

pub use budgets::Budgets;
pub use kinds::Problem;
pub use lists::Gens;
pub use posing::Posed;
