// A lane with its seat at the shared word.
use crate::lanes::Lane;
use crate::winner::WordSeat;

#[derive(Drop)]
pub(crate) struct SeatedLane<R> {
    pub(crate) lane: Lane<R>,
    pub(crate) seat: WordSeat,
}
