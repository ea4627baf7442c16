// What may be used up on a problem.

/// What an engine may use up on a problem before it gives up.
#[derive(Clone, Copy, Debug, PartialEq, Eq)]
pub struct Budgets {
    /// How many definitions a coset enumeration by Felsch's strategy may make.
    pub defs: usize,
    /// How many rows a coset enumeration by the strategy of Haselgrove, Leech and Trotter may make.
    pub rows: usize,
    /// How many letters a word of a completion may have at most.
    pub length: usize,
    /// How many elements the generators may have at most.
    pub elements: usize,
}
