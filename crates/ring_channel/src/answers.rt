//! What the calls on a ring answer.

use co_base::Tag;

/// Why no ring was made.
#[derive(Clone, Copy, Debug, PartialEq)]
pub enum RingFault {
    /// A ring has one slot at least.
    NoSlots,
    /// A ring has 1,048,576 slots at most.
    TooManySlots,
    /// Out of memory.
    Memory,
}

/// What a send answers. A value that was not put comes back.
#[derive(Drop)]
pub enum RingSent<T> {
    /// It was put at this place.
    Sent(u64),
    /// The slot of the next place is still in use.
    Full(T),
    /// The ring is closed.
    Closed(T),
    /// All places were claimed: the ring has reached the end of its life.
    Spent(T),
    /// Another put a value first, or closed the ring.
    Passed(T),
}

/// What a receive answers.
#[derive(Drop)]
pub enum RingGot<T> {
    /// The value of this place.
    Value(u64, T),
    /// The first place has no value yet.
    Nothing,
    /// The ring is closed, and each value that was put was received.
    Closed,
    /// Another received the first value.
    Passed,
}

/// Whom a call names to be woken.
#[derive(Clone, Copy, Debug, PartialEq)]
pub enum Called {
    Nobody,
    /// The pass of this tag.
    One(Tag),
    /// All who waited: the bit 2^t is that of the tag t.
    All(u64),
}

/// What a close answers.
#[derive(Clone, Copy, Debug, PartialEq)]
pub struct Closing {
    /// Whether this call closed the ring.
    pub closed: bool,
    /// Those who waited to receive: the bit 2^t is that of the tag t.
    pub receivers: u64,
    /// Those who waited to send.
    pub senders: u64,
}

/// Whom a call names to be woken, of those who wait to receive and of those who wait to send.
#[derive(Clone, Copy, Debug, PartialEq)]
pub struct Wakes {
    pub receivers: Called,
    pub senders: Called,
}

/// What a receive answers that may wait.
#[derive(Drop)]
pub enum ReceiveOutcome<T> {
    /// The value of this place.
    Received { place: u64, value: T, wakes: Wakes },
    /// It waits: it is named once there may be a value, or once the ring was closed.
    Waits,
    /// The ring is closed, and each value that was put was received.
    Closed(Called),
    /// Others came first, 2^64 - 1 times.
    Passed,
}

/// What a send answers that may wait. A value that was not put comes back.
#[derive(Drop)]
pub enum SendOutcome<T> {
    /// It was put at this place.
    Sent { place: u64, wakes: Wakes },
    /// It waits: it is named once there may be room, or once the ring was closed.
    Waits(T),
    /// The ring is closed.
    Closed(T, Called),
    /// The ring has reached the end of its life.
    Spent(T, Called),
    /// Others came first, 2^64 - 1 times.
    Passed(T),
}
