//! Standard tables of right congruences of low index.
//!
//! The tables are found by a backtrack search, one after another, in the order of their rows (Sims,
//! *Computation with finitely presented groups*, 1994, 5.6; libsemigroups, `Sims1`). [`Sims`] gives
//! them in this way. [`page`] gives a page of them, by parts of the search that run over any number
//! of workers, and [`page_two_sided`] a page of those that belong to two-sided congruences.
//! [`run_parts`] runs the [`Part`]s of any work.
#![tactic(auto)]

mod batches;
mod branch;
mod cut;
mod deductions;
pub mod facts;
mod groups;
mod halt;
mod indexed;
mod known;
mod pages;
mod parts;
mod paths;
mod places;
mod request;
mod runs;
mod search;
mod sims;
mod sources;
mod table_parts;
mod team;
mod trail;
mod within;

pub use pages::{TablePage, page, page_two_sided};
pub use parts::Part;
pub use runs::run_parts;
pub use sims::{MOST_CLASSES, Sims};
