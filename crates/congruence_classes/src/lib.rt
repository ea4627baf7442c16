//! The classes of a decided problem: by its elements, by the graph of its cosets, or by reduced
//! words.
//!
//! [`ElementClasses`], [`CosetClasses`] and [`ReducedClasses`] answer by relatedness, least words
//! and the list of classes alone, whatever has found the tables, the graph or the rules (Sims,
//! *Computation with finitely presented groups*, 1994, chapters 2 and 5; Froidure and Pin 1997;
//! libsemigroups, `Congruence`).
#![tactic(auto)]

mod cosets;
mod element_classes;
mod indexes;
mod listing;
mod reduced_words;
mod reducers;

pub use cosets::{CosetClasses, ordered_words};
pub use element_classes::{ElementClasses, GeneratedProblem};
pub use indexes::Index;
pub use listing::{ListedClasses, equal_in, index_in, next_in, normal_in, rules_in};
pub use reduced_words::ReducedClasses;
