// How long the words of overlaps may be.

/// The words of so many letters at most, or those of more.
#[derive(Clone, Copy)]
pub enum Lengths {
    UpTo(usize),
    Beyond(usize),
}
