//! What the answer of a query is, and the answers that wait for no decision: what is told at once,
//! and chains, from a completion that logs.
#![tactic(auto)]

mod awaited;
mod completing;
pub mod facts;
mod logged;
mod told;

pub use awaited::{Awaited, awaited_by};
pub use completing::{drop_completion, logged_completion};
pub use logged::write_logged;
pub use told::write_told;
