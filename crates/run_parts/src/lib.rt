//! What a run has before it has a report: the script that is read or made, and the faults by which
//! it may end, with their statuses and lines.
#![tactic(auto)]

pub mod facts;
mod fault;
mod made;
mod reading;

pub use fault::Fault;
pub use made::choose_script;
