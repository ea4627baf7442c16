// What answers may use.
use problem::Budgets;

/// What the answers of a script may use: the budgets of its decision, the bound up to which an
/// index is written out, and how many workers may be at it, at least one.
#[derive(Clone, Copy)]
pub struct Bounds {
    pub budgets: Budgets,
    pub classes: usize,
    pub workers: usize,
}
