//! What the calls at a gate answer.

use co_base::Tag;

/// What an acquire answers that does not wait.
#[derive(Clone, Copy, Debug, PartialEq, Eq)]
pub enum TryAcquired {
    Held,
    /// No permit was free.
    Empty,
    /// Others changed the word 2^64 - 1 times during the call.
    Busy,
}

/// What an acquire answers.
#[derive(Clone, Copy, Debug, PartialEq, Eq)]
pub enum Acquired {
    Held,
    /// No permit was free: it waits for one.
    Waits,
    /// Others changed the word 2^64 - 1 times during the call.
    Busy,
}

/// What a release answers.
#[derive(Clone, Copy, Debug, PartialEq, Eq)]
pub enum Released {
    /// Nobody waited: the permit is free.
    Free,
    /// The pass of this tag waited, and has the permit; it is the one to wake.
    Granted(Tag),
    /// Others changed the word 2^64 - 1 times during the call; the permit is held still.
    Busy,
}

/// How an acquire stands that was answered Waits.
#[derive(Clone, Copy, Debug, PartialEq, Eq)]
pub enum WaitState {
    Waits,
    /// A permit was granted, and is held.
    Held,
}

/// Whether a pass that waits could give up.
#[derive(Clone, Copy, Debug, PartialEq, Eq)]
pub enum GaveUp {
    Done,
    /// A permit was granted before, and is held.
    Late,
    /// Others changed the word 2^64 - 1 times during the call; it waits still.
    Busy,
}
