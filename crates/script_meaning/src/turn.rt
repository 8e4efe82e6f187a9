//! What a poll came to.

/// What a poll came to.
#[derive(Clone, Copy, Debug, PartialEq, Eq)]
pub enum Turn {
    /// The body has ended.
    Ended,
    /// A wait stands, or the Job may not run yet.
    Waits,
    /// Something was done, or has to be looked at again.
    Ready,
}
