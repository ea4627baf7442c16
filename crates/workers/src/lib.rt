//! Work on many items at the same time.
//!
//! Items are dealt to [`Groups`], item i to group i modulo the number of groups. A [`Crew`] works
//! on all groups at the same time, and then the items come back in the order of their numbers.
#![tactic(auto)]

mod crew;
mod groups;

pub use crew::Crew;
pub use groups::Groups;
