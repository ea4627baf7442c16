//! What tables of a semigroup are for a problem: definitions, and laws of them, without code.
#![tactic(auto)]
