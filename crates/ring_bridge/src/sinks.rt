//! A ring as a sink: what it has.
ghost use Rattle.std.specs.Prelude.{◌≡◌, ◌<◌};
ghost use Rattle.ring_channel.specs.declared.act.RingSide.TheVariants.{Send};
ghost use Rattle.ring_channel.specs.Passes.{IsOf, SamePass, seen_by, tag_of};
ghost use Rattle.ring_bridge.specs.Leaves.{LeftBy};

use crate::bells::Bells;
use ring_channel::{Ring, RingPass, RingSide};

/// Why a value was not sent: it comes back.
#[derive(Drop)]
pub enum RingSinkFault<T> {
    /// The ring is closed.
    Closed(T),
    /// All places were claimed: the ring has reached the end of its life.
    Spent(T),
}

/// What became of a value.
#[derive(Drop)]
pub(crate) enum Put<T> {
    /// It was sent, or there was none.
    Done,
    /// It waits for room.
    Waits,
    /// It is to be sent again: others came first all the time.
    Passed,
    Failed(RingSinkFault<T>),
}

/// Sends to a ring, one value after another. To close the sink does not close the ring.
pub struct RingSink<'a, T> {
    pub(crate) ring: &'a Ring<T>,
    pub(crate) bells: &'a Bells,
    pub(crate) pass: RingPass<T>,
    pub(crate) tag: u32,
    /// The value that waits for room.
    pub(crate) held: Option<T>,
    pub ghost of: { IsOf ring.now pass },
    pub ghost tagged: { (tag ≡ tag_of pass) × (tag < 64) },
}

impl<T: Drop> RingSink<'_, T> {
    /// Gives the pass back, which waits no more, and the value that was not sent: another that waits is woken in its place.
    pub fn stop(self) -> (RingPass<T>, Option<T>)
        ensures of { IsOf self.entry.ring.now result.0 }
        ensures same { SamePass self.entry.pass result.0 }
        ensures left { LeftBy self.entry.ring.now.slots (tag_of self.entry.pass) Send (seen_by self.entry.pass) (seen_by result.0) }
        ensures held { result.1 ≡ self.entry.held }
    {
        let RingSink {
            ring,
            bells,
            mut pass,
            tag,
            held,
        } = self;
        let called = ring.leave(&mut pass, RingSide::Send, tag);
        bells.wake(called);
        (pass, held)
    }
}

impl<T: Drop> Drop for RingSink<'_, T> {
    fn drop(self) {
        self.stop();
    }
}
