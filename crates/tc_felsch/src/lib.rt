//! Coset enumeration by Felsch's strategy.
//!
//! The least word in short-lex order that has no path yet is defined next, and after each
//! definition all that follows from the relations and pairs is drawn (Felsch 1961; Sims,
//! *Computation with finitely presented groups*, 1994, 5.2; libsemigroups, `ToddCoxeter` with the
//! strategy `felsch`).
#![tactic(auto)]

mod enumeration;

pub use enumeration::Felsch;
