//! Complete word graphs as texts.
//!
//! A table of a right congruence is written as the targets of its rows, and read again.
#![tactic(auto)]

pub mod facts;
mod fault;
mod tables;
mod texts;

pub use fault::TableFault;
pub use tables::{print_table, read_table};
