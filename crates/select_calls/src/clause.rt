//! The clauses of a select, and what it comes to.

use co_base::{ChannelId, Value};

/// A clause of a select.
#[derive(Clone, Copy, Debug, PartialEq, Eq)]
pub enum Clause {
    /// To send an element.
    OnSend { c: ChannelId, value: Value },
    /// To receive one.
    OnReceive { c: ChannelId },
}

impl Default for Clause {
    /// A receive from the first channel, as arrays of clauses are filled with.
    fn default() -> Self {
        Clause::OnReceive { c: 0 }
    }
}

/// What the chosen clause came to.
#[derive(Clone, Copy, Debug, PartialEq, Eq)]
pub enum Outcome {
    Sent,
    /// The element that was received.
    Value(Value),
    /// The channel was closed with this value.
    Closed(Value),
}

/// What a select came to.
#[derive(Clone, Copy, Debug, PartialEq, Eq)]
pub enum SelectAnswer {
    /// The number of the chosen clause, counted from 1, and what it came to.
    Chosen(u8, Outcome),
    /// The select waits; its wait is to be dispatched once it is resolved.
    Waiting,
    /// A clause became ready while the clauses were placed: nothing of this select stands any more, and it has to look again.
    Again,
    /// A channel of its clauses has no place left.
    Spent,
}
