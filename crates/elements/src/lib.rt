//! Elements of finite semigroups, and what their products keep (Froidure and Pin 1997).
#![tactic(auto)]

mod base_sixteen;
mod bmat;
mod element;
mod entries;
mod field;
mod matrix;
mod max_plus;
mod pperm;
mod transf;

pub use bmat::BMat;
pub use element::Element;
pub use field::{ElementFault, Field};
pub use max_plus::MaxPlusTrunc;
pub use pperm::PPerm;
pub use transf::Transf;
