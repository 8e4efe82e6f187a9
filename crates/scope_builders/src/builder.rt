//! Who calls, and on what.

use co_base::{ChannelId, Tag, Value, WaitId};

/// The calls of one coroutine on a floor of channels and a floor of Jobs, noted in its book.
#[derive(Drop)]
pub struct Builder<'channels, 'jobs, 'book, 'wakes, C, J, B, W> {
    pub channels: &'channels mut C,
    pub jobs: &'jobs mut J,
    pub book: &'book mut B,
    pub wakes: &'wakes mut W,
    pub who: Tag,
    /// The done channel of the row r is `done_channel(base, r)`.
    pub base: ChannelId,
}

/// Why no Job was attached.
#[derive(Clone, Copy, Debug, PartialEq, Eq)]
pub enum LaunchError {
    /// All rows for scopes are claimed.
    NoRow,
    /// The coroutine's row is claimed.
    Used,
    ParentEnded,
    Memory,
}

/// What came of a receive on the done channel of a Job.
#[derive(Clone, Copy, Debug, PartialEq, Eq)]
pub enum Joined {
    /// It was closed with this value.
    Closed(Value),
    /// The caller waits; its wait is to be dispatched once it is resolved.
    Waits(WaitId),
    /// The caller's own Job is Cancelling, and nothing was started or received.
    Cancelled,
    /// The place of the done channel was given out while it was open.
    Spent,
}
