//! The script language: what the bytes of a script pose and ask, or its first fault with the line
//! and the cause. A script poses a congruence on a monoid or a semigroup that is given by
//! relations, or on a semigroup that is given by generators of one kind.
#![tactic(auto)]

mod draft;
pub mod facts;
mod fault;
mod form;
mod header;
mod outline;
mod pairing;
mod query_line;
mod reader;
mod role;
mod script;

pub use fault::ScriptFault;
pub use line_parts::{Cause, cause_text};
pub use script::{Query, Script, read_script};
