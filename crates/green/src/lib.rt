//! Green's relations and idempotents of a finite semigroup whose Cayley graphs are known (Howie,
//! *Fundamentals of semigroup theory*, 1995, chapter 2; libsemigroups, `FroidurePin`).
#![tactic(auto)]

mod collector;
mod depth_first;
mod edges;
pub mod facts;
mod grouping;
mod idempotent;
mod joining;
mod naming;
mod pairing;
mod relations;
mod states;

pub use collector::Collector;
pub use relations::{ClassNames, classes, idempotents};
pub use theory::Relation;
