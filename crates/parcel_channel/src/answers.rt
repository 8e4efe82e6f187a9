//! What the calls on a channel of owned values answer.
//!
//! A set of tags is a number: the bit `2^t` is that of the tag t below 63, and `2^63` is the bit of all other tags. Who waited under a tag
//! that an answer names, in such a set or as a `Tag`, may be woken: its wait was resolved.

use co_base::{Tag, Value, WaitId};

/// What a send answers. Where the value was not sent it comes back, unless it was lost.
#[derive(Drop)]
pub enum ParcelSent<T> {
    /// It was sent; the coroutine of the receiver that was handed it, if one was; and the set of those whose values the call admitted.
    Sent(Option<Tag>, u64),
    /// It waits for its receiver; and the set of those whose values the call admitted.
    Waits(WaitId, u64),
    Closed(T, Value),
    /// The channel has no place left.
    Spent(T),
    /// No number is left.
    NoParcel(T),
    /// It was not sent, and its slot held no value.
    Lost,
}

/// What a send answers that never waits. Where the value was not sent it comes back, unless it was lost.
#[derive(Drop)]
pub enum ParcelOffered<T> {
    /// It was sent; the coroutine of the receiver that was handed it, if one was.
    Sent(Option<Tag>),
    /// It would have had to wait.
    Full(T),
    Closed(T, Value),
    /// The channel has no place left.
    Spent(T),
    /// No number is left.
    NoParcel(T),
    /// It was not sent, and its slot held no value.
    Lost,
}

/// What a receive answers.
#[derive(Drop)]
pub enum ParcelGot<T> {
    /// A value; the coroutine of the sender that waited with it, if one did; and the set of those whose values were admitted then.
    Value(T, Option<Tag>, u64),
    Waits(WaitId),
    Closed(Value),
    Spent,
    /// The slot of the number that was received held no value.
    Lost(Option<Tag>, u64),
}

/// What a receive answers that never waits.
#[derive(Drop)]
pub enum ParcelTried<T> {
    /// A value; the coroutine of the sender that waited with it, if one did; and the set of those whose values were admitted then.
    Value(T, Option<Tag>, u64),
    /// The channel is open, and there was nothing to receive.
    Empty,
    Closed(Value),
    /// The slot of the number that was received held no value.
    Lost(Option<Tag>, u64),
}

/// How a wait ended.
#[derive(Drop)]
pub enum ParcelSettled<T> {
    Value(T),
    Sent,
    Closed(Value),
    /// It was cancelled; the value of an own offer that was withdrawn.
    Cancelled(Option<T>),
    /// It was cancelled after it had been handed this value.
    Undelivered(T),
    /// The slot of the number that it was handed held no value.
    Lost,
}
