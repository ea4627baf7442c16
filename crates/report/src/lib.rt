//! The answers of a script's queries, as lines, from what is known of its problem.
#![tactic(auto)]

mod answers;
mod bounds;
mod script_answers;
mod solved;
mod state;

pub use bounds::Bounds;
pub use script_answers::write_answers;
