//! Completion of presentations by rewriting rules, within a bound on the length of words.
//!
//! A [`Completion`] turns the relations of a presentation into rewriting rules whose left sides are
//! greater in short-lex order, and adds the critical pairs of their overlaps, the shortest first,
//! until none is left that fits the bound (Knuth and Bendix 1970; Sims, *Computation with finitely
//! presented groups*, 1994, 2.5 to 2.7; libsemigroups, `KnuthBendix`).
#![tactic(auto)]

mod completions;
mod confluence;
mod equations;
pub mod facts;
mod indexed_rules;
mod lengths;
mod logs;
mod marks;
mod overlaps;
mod rule_changes;
mod shares;

pub use completions::Completion;
