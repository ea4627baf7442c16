// Words, congruences and their classes, the strategies that decide them, and the laws that tie
// these together.
#![tactic(auto)]

pub mod backwards;
pub mod classes;
pub mod completion;
pub mod examples;
pub mod facts;
pub mod green;
pub mod kinds;
pub mod lattice;
pub mod marked;
pub mod order;
pub mod pages;
pub mod predicates;
pub mod steps;
pub mod tables;
pub mod two_sided;
pub mod values;

/// Where the pairs of a congruence may be used: anywhere, at the front of a word, or at its end.
#[derive(Clone, Copy, Debug, PartialEq, Eq)]
pub enum Kind {
    TwoSided,
    Right,
    Left,
}

/// Green's relations (Howie, *Fundamentals of semigroup theory*, 1995, chapter 2). Two elements are
/// related by `R` where each is the other, or the other times an element; by `L` where each is the
/// other, or an element times the other; by `H` where both hold; by `J` where each is the other with
/// an element or nothing on each side.
#[derive(Clone, Copy, Debug, PartialEq, Eq)]
pub enum Relation {
    R,
    L,
    H,
    J,
}
