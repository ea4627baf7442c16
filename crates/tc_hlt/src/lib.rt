//! Coset enumeration by the strategy of Haselgrove, Leech and Trotter with lookahead.
//!
//! The least word in short-lex order that is defined and related to no word with a row has its row
//! next: its extensions by a letter are defined, each side of each relation is traced behind it,
//! and all is drawn that follows when relations are read at it (Sims, *Computation with finitely
//! presented groups*, 1994, 5.2; libsemigroups, `ToddCoxeter` with the strategy `hlt`). After each
//! row whose number is a multiple of 100 all is drawn that follows when they are read at all words
//! (a lookahead: Holt, Eick and O'Brien, *Handbook of computational group theory*, 2005, ch. 5).
#![tactic(auto)]

mod enumeration;
mod rows;

pub use enumeration::Hlt;
