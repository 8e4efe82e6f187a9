//! Who calls, and on what.

use co_base::Tag;

/// The calls of one coroutine on a floor of Jobs, noted in its book.
#[derive(Drop)]
pub struct JobCaller<'floor, 'book, 'wakes, F, B, W> {
    pub floor: &'floor mut F,
    pub book: &'book mut B,
    pub wakes: &'wakes mut W,
    pub who: Tag,
}

/// Where the room for the Cancels of a pass comes from.
#[derive(Clone, Copy, Debug, PartialEq, Eq)]
pub enum Reserve {
    /// It was made before, for each Cancel that may still be made.
    Before,
    /// It is made before each Cancel, for that one alone.
    AsItGoes,
}
