//! Lines of a report: words and lists of them, classes, Cayley graphs, Green's relations, tables of
//! congruences. They are written from what is handed over; nothing is decided here.
#![tactic(auto)]

mod blocks;
mod class_lines;
mod graphs;
mod greens;
mod known;
mod line;
mod listings;
mod single;
mod tables;
mod texts;

pub use graphs::write_cayley;
pub use greens::{write_green, write_idempotents};
pub use known::KnownElements;
pub use line::Line;
pub use listings::{write_end, write_rules, write_word, write_words};
pub use single::{write_count, write_equal, write_infinite, write_normal_form, write_over};
pub use tables::{find_page, write_page};
