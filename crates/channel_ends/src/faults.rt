//! Why an end is not split.

/// Why an end is not split.
#[derive(Clone, Copy, Debug, PartialEq)]
pub enum SplitFault {
    /// There is no end that could be split.
    NoEnd,
    /// There is an end already where the new one was to be put.
    InUse,
    /// It is not the first end of its channel, or has given out 63 ends.
    NoTag,
    /// Out of memory, or too many own the ring.
    Memory,
}
