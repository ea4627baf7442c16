//! The words to which no rule of a finite list applies.
//!
//! An [`Automaton`] reads just the words that are reduced: it finds whether they are infinitely
//! many, and lists them in short-lex order (Sims, *Computation with finitely presented groups*,
//! 1994, 3.5; libsemigroups, `KnuthBendix` and its Gilman graph). The rules are those of
//! `rewriting`.
//!
//! A [`Frame`] is a prefix and a suffix, and stands for the words over the first letters that are
//! reduced between the two. An automaton finds whether they are infinitely many and lists them; for
//! more than one question [`Framed`] keeps what can be found once.
#![tactic(auto)]

mod automata;
mod depths;
mod frames;
mod framings;
mod marks;
mod paths;
mod readers;

pub use automata::Automaton;
pub use frames::{Frame, Framed};
