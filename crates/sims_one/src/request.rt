// What a page asks for.
use crate::indexed::Indexed;
use std::alloc::Global;

/// The tables that are asked for: those of at most so many classes at which the relations hold, or
/// the two-sided ones among them alone, after the cursor, or from the first on where it has no
/// target; so many, and one more.
#[derive(Clone, Copy)]
pub struct Request<'a> {
    /// The allocator.
    pub alloc: Global,
    /// The presentation.
    pub presentation: &'a Indexed<'a>,
    /// The most classes.
    pub classes: usize,
    /// Whether two-sided tables alone are wanted.
    pub two_sided: bool,
    /// The targets of the cursor.
    pub cursor: &'a [usize],
    /// How many tables a page has.
    pub count: usize,
}
