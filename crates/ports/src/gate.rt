/// What each turn of a lane in a race over threads waits for, given the lane's number. Tests watch
/// and delay lanes by it.
pub trait Gate {
    /// It returns when the turn may begin.
    fn pass(&self, number: usize);
}

/// A gate at which no turn waits.
#[derive(Clone, Copy, Debug)]
pub struct Open;

impl Gate for Open {
    fn pass(&self, _number: usize) {}
}
