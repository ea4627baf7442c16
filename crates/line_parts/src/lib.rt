//! The parts of a line: its tokens, and what a token reads to, a number, a letter, a word over an
//! alphabet, a table, or the entries of an element; or why a line is refused for it.
#![tactic(auto)]

mod cause;
pub mod facts;
mod fault;
mod generator;
mod line_words;
mod tables;
mod tokens;
mod version;

pub use cause::{Cause, cause_text};
pub use fault::LineFault;
pub use generator::{Generator, fields_of};
pub use line_words::{
    both_elements, element_of, one_relation, one_token, one_word, two_tokens, two_words,
};
pub use tables::{low_table_of, two_tables};
pub use tokens::{is_kept, is_word, letter_of, number_within, tokens_of};
pub use version::{Version, version_of};
