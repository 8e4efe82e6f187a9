//! Where a schedule may be bent, and how a poll is asked for.

use crate::names::Tag;

/// Between two steps of a coroutine on shared state. A gate may wait, so that a test bends the schedule.
pub trait Gate {
    /// `point` numbers the place in the code.
    fn pass(&self, who: Tag, point: u8);
}

/// What polls coroutines.
pub trait Wakes {
    /// Asks that a coroutine be polled. A wake may be lost.
    fn wake(&mut self, tag: Tag);
}

/// The gate that nobody waits at.
#[derive(Clone, Copy, Debug, PartialEq, Eq)]
pub struct OpenGate;

impl Gate for OpenGate {
    fn pass(&self, _who: Tag, _point: u8) {}
}
