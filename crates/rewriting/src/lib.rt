//! Rewriting of words by finite lists of rules.
//!
//! [`Rules`] are such a list, and an [`IndexAutomaton`] rewrites a word by it in one reading, until
//! no rule applies (Sims, *Computation with finitely presented groups*, 1994, 3.5; libsemigroups,
//! `KnuthBendix`). [`KeptRules`] rewrite too, and change often, and a [`Reduction`] is room for it.
//! [`has_factor`] tells whether a word stands in another.
#![tactic(auto)]

mod factors;
mod index_automaton;
mod kept_rules;
mod links;
mod lookups;
mod newer;
mod parts;
mod reductions;
mod rule_lists;
mod traces;
mod tries;

pub use factors::has_factor;
pub use index_automaton::IndexAutomaton;
pub use kept_rules::KeptRules;
pub use reductions::Reduction;
pub use rule_lists::Rules;
pub use traces::Applied;
