//! Problems, decided by a race of engines.
//!
//! [`solve`] decides the congruence that pairs generate on a finitely presented monoid or
//! semigroup, or on the elements that generators generate, within budgets, and a [`Solved`] answers
//! by relatedness, least words and the list of classes alone (Sims, *Computation with finitely
//! presented groups*, 1994, chapters 2 and 5; Froidure and Pin 1997; libsemigroups, `Congruence`,
//! `ToddCoxeter`, `KnuthBendix`, `FroidurePin`).
#![tactic(auto)]

mod answers;
mod engine;
mod lanes;
mod solving;

pub use answers::Solved;
pub use engine::{Ended, Engine};
pub use solving::{Verdict, solve};
