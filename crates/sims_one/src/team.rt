// Who runs the parts of a page.

/// So many workers, with what starts their threads, and the gate that parts pass before they run.
#[derive(Drop)]
pub struct Team<'a, T, G> {
    /// What starts threads.
    pub rt: &'a T,
    /// How many workers there are.
    pub workers: usize,
    /// The gate.
    pub gate: &'a G,
}
