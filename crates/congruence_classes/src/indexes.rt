// The number of classes.

/// How many classes there are, up to a bound.
#[derive(Clone, Copy, Debug, PartialEq, Eq)]
pub enum Index {
    /// So many.
    Finite(usize),
    /// Infinitely many.
    Infinite,
    /// Finitely many, and more than the bound.
    Over,
}
