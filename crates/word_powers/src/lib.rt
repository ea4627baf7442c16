//! Words with powers, as texts.
//!
//! [`read_powers`] reads a word in which letters and groups in parentheses may have exponents, as
//! relations are written in books (Coxeter and Moser, *Generators and relations for discrete
//! groups*, 1957).
#![tactic(auto)]

pub mod facts;
mod fault;
mod powers;

pub use fault::PowerFault;
pub use powers::read_powers;
