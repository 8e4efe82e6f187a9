//! Who calls, and on what.

use co_base::{Tag, Value, WaitId};

/// The calls of one coroutine on a floor of channels, noted in its book.
#[derive(Drop)]
pub struct Caller<'floor, 'book, 'wakes, F, B, W> {
    pub floor: &'floor mut F,
    pub book: &'book mut B,
    pub wakes: &'wakes mut W,
    pub who: Tag,
}

/// What a send came to.
#[derive(Clone, Copy, Debug, PartialEq, Eq)]
pub enum SendAnswer {
    /// The element was handed to a receiver, or the channel keeps it.
    Sent,
    /// The send waits; its wait is to be dispatched once it is resolved.
    Waits(WaitId),
    /// The channel was closed with this value.
    Closed(Value),
    /// The channel has no place left.
    Spent,
}

/// What a send that never waits came to.
#[derive(Clone, Copy, Debug, PartialEq, Eq)]
pub enum TrySendAnswer {
    /// The element was handed to a receiver, or the channel keeps it.
    Sent,
    /// A send would have to wait.
    Full,
    /// The channel was closed with this value.
    Closed(Value),
    /// The channel has no place left.
    Spent,
}

/// What a send or a receive that never waits is tried as. It notes so what it finds closed.
#[derive(Clone, Copy)]
pub enum TriedAs {
    /// A call of its own.
    Call,
    /// A clause of a select.
    Clause,
}

/// What a receive came to.
#[derive(Clone, Copy, Debug, PartialEq, Eq)]
pub enum ReceiveAnswer {
    /// The element.
    Value(Value),
    /// The receive waits; its wait is to be dispatched once it is resolved.
    Waits(WaitId),
    /// The channel was closed with this value, and nothing is left to receive.
    Closed(Value),
    /// The channel has no place left.
    Spent,
}

/// What a receive that never waits came to.
#[derive(Clone, Copy, Debug, PartialEq, Eq)]
pub enum TryReceiveAnswer {
    /// The element.
    Value(Value),
    /// A receive would have to wait.
    Empty,
    /// The channel was closed with this value, and nothing is left to receive.
    Closed(Value),
}
