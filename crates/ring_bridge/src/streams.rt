//! A ring as a stream: what it has.
ghost use Rattle.std.specs.Prelude.{◌≡◌, ◌<◌};
ghost use Rattle.ring_channel.specs.declared.act.RingSide.TheVariants.{Receive};
ghost use Rattle.ring_channel.specs.Passes.{IsOf, SamePass, seen_by, tag_of};
ghost use Rattle.ring_bridge.specs.Leaves.{LeftBy};

use crate::bells::Bells;
use ring_channel::{Ring, RingPass, RingSide};

/// The values of a ring, received one by one. It ends once the ring is closed and each value was received.
pub struct RingStream<'a, T> {
    pub(crate) ring: &'a Ring<T>,
    pub(crate) bells: &'a Bells,
    pub(crate) pass: RingPass<T>,
    pub(crate) tag: u32,
    pub ghost of: { IsOf ring.now pass },
    pub ghost tagged: { (tag ≡ tag_of pass) × (tag < 64) },
}

impl<T> RingStream<'_, T> {
    /// Gives the pass back, which waits no more: another that waits is woken in its place.
    pub fn stop(self) -> RingPass<T>
        ensures of { IsOf self.entry.ring.now result }
        ensures same { SamePass self.entry.pass result }
        ensures left { LeftBy self.entry.ring.now.slots (tag_of self.entry.pass) Receive (seen_by self.entry.pass) (seen_by result) }
    {
        let RingStream {
            ring,
            bells,
            mut pass,
            tag,
        } = self;
        let called = ring.leave(&mut pass, RingSide::Receive, tag);
        bells.wake(called);
        pass
    }
}

impl<T> Drop for RingStream<'_, T> {
    fn drop(self) {
        self.stop();
    }
}
