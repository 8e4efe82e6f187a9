//! What a caller finds at a place.

use co_base::{Place, Tag, Value};

/// Whose the wait is that a cell names.
#[derive(Clone, Copy, Debug, PartialEq, Eq)]
pub enum Holder {
    /// The wait began at this cell; its coroutine.
    Own(Tag),
    /// The wait, a select's, began at the cell of this number.
    At(u32),
}

/// One who was placed at a cell to wait: with an element, if it offers.
#[derive(Clone, Copy, Debug, PartialEq, Eq)]
pub struct Waiter {
    pub holder: Holder,
    /// The number of its clause.
    pub clause: u8,
    pub value: Value,
}

/// What is at a place, for a caller that comes from below.
#[derive(Clone, Copy, Debug, PartialEq, Eq)]
pub enum At {
    /// The channel's end: no place is left, and nobody of the other side stands.
    Spent,
    /// The end of the open channel: the caller would have to wait, and was not placed.
    Open,
    /// The caller was placed here, to wait.
    Placed,
    /// The caller's element was put here.
    Put,
    /// One of the other side was placed here.
    Waiting(Waiter),
    /// An element is kept here, without a wait.
    Kept(Value),
    /// The channel was closed here.
    Closed(Value),
    /// Nobody of the other side stands here, nor ever will.
    Gone,
}

/// Whether a channel ends at a place.
#[derive(Clone, Copy, Debug, PartialEq, Eq)]
pub enum End {
    /// The place was given out.
    Used,
    /// It is the place that the open channel gives out next.
    Open,
    /// The channel was closed here.
    Closed(Value),
}

/// Which act removes an element.
#[derive(Clone, Copy, Debug, PartialEq, Eq)]
pub enum Removal {
    /// It is received.
    Take,
    /// It is dropped for a newer one.
    Drop,
    /// It was one too many when it was placed.
    Spurn,
    /// It is lost with its channel, which was cancelled.
    Drain,
}

/// What an exchange on the wait of an offer came to.
#[derive(Clone, Copy, Debug, PartialEq, Eq)]
pub enum Tried {
    /// The element was taken, or removed otherwise; the coroutine that waited with it.
    Taken(Tag),
    /// The offer stands no more.
    Gone,
    /// The offer was admitted, so that its cell decides.
    Admitted,
}

/// What the admission of an offer came to.
#[derive(Clone, Copy, Debug, PartialEq, Eq)]
pub enum Admission {
    /// It is kept now; the coroutine that waited with it.
    Done(Tag),
    /// It was admitted before: its element is kept until its cell is emptied.
    Kept,
    /// The offer stands no more.
    Gone,
}

/// What a look for an offer to admit came to, at one place.
#[derive(Clone, Copy, Debug, PartialEq, Eq)]
pub enum Here {
    /// The offer was admitted; the coroutine that waited with it.
    Done(Tag),
    /// An element is kept here.
    Kept,
    /// No offer stands here.
    Gone,
    /// The place was not given out.
    End,
}

/// What a walk for an offer to admit came to.
#[derive(Clone, Copy, Debug, PartialEq, Eq)]
pub enum Search {
    /// The offer at this place was admitted; the coroutine that waited with it.
    Done(Place, Tag),
    /// None may be.
    Nothing,
    /// No offer stands where the walk began, so that it is to begin above.
    Passed,
}
