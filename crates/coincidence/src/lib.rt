//! Coset tables: what a coset enumeration knows of the classes of words.
//!
//! A [`Table`] is a partial rooted word graph whose paths relate words that are known to be in one
//! class. A coincidence, two nodes that are one, is drawn at once with all that it entails (Todd
//! and Coxeter 1936; Sims, *Computation with finitely presented groups*, 1994, chapter 5;
//! libsemigroups, `ToddCoxeter`).
#![tactic(auto)]

mod absorb;
mod closing;
mod copies;
mod cosets;
mod crossings;
mod due;
mod edges;
mod first_letters;
mod groups;
mod indexed;
mod joins;
mod marks;
mod order;
mod pending;
mod periods;
mod places;
mod reads;
mod replaced;
mod rings;
mod seen;
mod starts;
mod tables;
mod uses;

pub use tables::Table;
