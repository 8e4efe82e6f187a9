//! Wakes of which nothing comes.

use co_base::{Tag, Wakes};

/// Nobody is polled.
#[derive(Drop)]
pub struct NoWakes;

impl Wakes for NoWakes {
    fn wake(&mut self, _tag: Tag) {}
}
