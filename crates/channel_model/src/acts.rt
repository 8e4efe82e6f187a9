//! The acts on channels, and what a coroutine notes of its calls.

ghost use Rattle.std.specs.Prelude.{◌≡◌, ℕ, false, nat_le, nat_lt, MatchOption};
ghost use Rattle.channel_model.specs.Channels.{is_full, suspends, drops, spurns};

use co_base::{ChannelId, Place, Tag, Value, WaitId};

/// How a channel keeps elements that nobody receives yet.
#[derive(Clone, Copy)]
pub enum Kind {
    /// Keeps none: a send waits for its receiver.
    Rendezvous,
    /// Keeps so many; a send beyond them waits.
    Buffered(u32),
    /// Keeps all.
    Unlimited,
    /// Keeps the newest alone.
    Conflated,
    /// Keeps so many; the oldest is dropped for one more.
    DropOldest(u32),
    /// Keeps so many; one more is not kept.
    DropLatest(u32),
    /// Carries no element: a Job's done channel, on which one may wait until it is closed.
    Signal,
}

impl Kind {
    /// Whether an element that is offered when so many offers stand is one too many to be kept.
    pub fn is_full(self, standing: usize) -> bool
        ensures { result ≡ is_full self standing }
    {
        match self {
            Kind::Rendezvous | Kind::Signal => true,
            Kind::Buffered(capacity) => capacity as usize <= standing,
            Kind::Unlimited | Kind::Conflated | Kind::DropOldest(_) | Kind::DropLatest(_) => false,
        }
    }

    /// How many elements it keeps, if it drops the oldest for one more.
    pub fn drops_beyond(self) -> Option<u32>
        ensures { MatchOption result ((n : ℕ) → drops self n ≡ false) (λ capacity. (n : ℕ) → drops self n ≡ nat_lt capacity n) }
    {
        match self {
            Kind::Conflated => Some(1),
            Kind::DropOldest(capacity) => Some(capacity),
            Kind::Rendezvous
            | Kind::Buffered(_)
            | Kind::Unlimited
            | Kind::DropLatest(_)
            | Kind::Signal => None,
        }
    }

    /// How many elements it keeps, if it does not keep the latest beyond them.
    pub fn spurns_beyond(self) -> Option<u32>
        ensures { MatchOption result ((n : ℕ) → spurns self n ≡ false) (λ capacity. (n : ℕ) → spurns self n ≡ nat_le capacity n) }
    {
        match self {
            Kind::DropLatest(capacity) => Some(capacity),
            Kind::Rendezvous
            | Kind::Buffered(_)
            | Kind::Unlimited
            | Kind::Conflated
            | Kind::DropOldest(_)
            | Kind::Signal => None,
        }
    }

    /// Whether a send may wait.
    pub fn suspends(self) -> bool
        ensures { result ≡ suspends self }
    {
        matches!(self, Kind::Rendezvous | Kind::Buffered(_))
    }
}

/// Why a wait was withdrawn.
#[derive(Clone, Copy, PartialEq, Eq)]
pub enum Why {
    /// Its Job was cancelled.
    Cancelled,
    /// A select looks again.
    Revoked,
}

/// How a waiting call ended. The first number is that of the clause: 0 for a plain call, else that of a select's.
#[derive(Clone, Copy, Debug, PartialEq, Eq)]
pub enum Settled {
    Value(u8, Value),
    Sent(u8),
    Closed(u8, Value),
    Cancelled,
    /// It was cancelled after it had been given this element.
    Undelivered(Value),
}

/// What one step does to the channels.
#[derive(Clone, Copy, PartialEq, Eq)]
pub enum Act {
    /// Gives an element to the receiver that stands first.
    Hand {
        c: ChannelId,
        place: Place,
        value: Value,
    },
    /// Leaves an element in the queue.
    Put {
        c: ChannelId,
        place: Place,
        value: Value,
    },
    /// Leaves an element in the queue, with a wait for its receiver.
    Offer {
        c: ChannelId,
        place: Place,
        value: Value,
        main: WaitId,
        clause: u8,
    },
    /// Waits for an element.
    Await {
        c: ChannelId,
        place: Place,
        main: WaitId,
        clause: u8,
    },
    /// Receives the first offer.
    Take {
        c: ChannelId,
        place: Place,
        value: Value,
    },
    /// Lets a held offer be kept, so that its sender waits no more.
    Admit {
        c: ChannelId,
        place: Place,
    },
    /// Drops the first offer of a queue that is too long.
    Drop {
        c: ChannelId,
        place: Place,
        value: Value,
    },
    /// Removes an offer that was one too many when it was placed.
    Spurn {
        c: ChannelId,
        place: Place,
        value: Value,
    },
    /// Closes the channel with a value.
    Close {
        c: ChannelId,
        value: Value,
    },
    /// Cancels a closed channel: nothing of it is received any more.
    Void {
        c: ChannelId,
    },
    /// Removes the first offer of a cancelled channel.
    Drain {
        c: ChannelId,
        place: Place,
        value: Value,
    },
    /// Tells the first receiver that the channel is closed.
    WakeClosed {
        c: ChannelId,
        place: Place,
    },
    /// Takes a wait back that nobody resolved.
    Withdraw {
        w: WaitId,
        why: Why,
    },
    /// Ends a wait that was resolved.
    Settle {
        w: WaitId,
        outcome: Settled,
    },
}

/// An act, and the coroutine that made it.
#[derive(Clone, Copy)]
pub struct Entry {
    pub who: Tag,
    pub act: Act,
}

/// What a coroutine notes of a call on a channel: the act that it made, or an answer without one.
///
/// `c` is the channel, `value` the element of the call, and `v` the value with which the channel was closed.
#[derive(Clone, Copy, PartialEq, Eq)]
pub enum ChannelNote {
    Made(Act),
    SendClosed {
        c: ChannelId,
        value: Value,
        v: Value,
    },
    TrySendClosed {
        c: ChannelId,
        value: Value,
        v: Value,
    },
    ReceiveClosed {
        c: ChannelId,
        v: Value,
    },
    TryReceiveClosed {
        c: ChannelId,
        v: Value,
    },
    AlreadyClosed {
        c: ChannelId,
        v: Value,
    },
    Full {
        c: ChannelId,
        value: Value,
    },
    Empty {
        c: ChannelId,
    },
    /// The channel has no place left.
    Spent {
        c: ChannelId,
    },
    /// The other side of a select's clause came while the select was placing its clauses.
    Partner {
        c: ChannelId,
        place: Place,
    },
    /// The select's wait was resolved while it was placing its clauses.
    MainResolved {
        w: WaitId,
    },
    /// A withdraw came after the wait's resolution.
    Late {
        w: WaitId,
    },
}

/// What became of an element that was put, offered or handed at a place.
#[derive(Clone, Copy)]
pub enum Fate {
    Received,
    /// Drained, given up by the receiver that it was handed to, or taken back by a plain send.
    Undelivered,
    /// Removed by a channel that drops its oldest.
    Dropped,
    /// Removed by a channel that does not keep its latest.
    Spurned,
    /// Offered by a select that did not choose it.
    Withdrawn,
    /// Still in its queue, or handed to a receiver that was not dispatched.
    Held,
}
