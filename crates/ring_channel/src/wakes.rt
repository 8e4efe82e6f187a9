//! To wait for a value or for room, and whom to wake.
ghost use Rattle.std.specs.Prelude.{◌≡◌, ◌<◌};
ghost use Rattle.ring_channel.specs.Looks.{AllAnswer, CallAnswer, ClosingAnswer, WaitAnswer};
ghost use Rattle.ring_channel.specs.Passes.{IsOf, SamePass, seen_by, tag_of};

use crate::act::RingSide;
use crate::answers::{Called, Closing};
use crate::ring::{Ring, RingPass};
use crate::turns::{call_on, stand_by};
use crate::waits::call_all;

impl<T> Ring<T> {
    /// Waits to receive or to send: true once the pass was noted as waiting and there was still nothing for it. It is then named by a later
    /// call of another pass, and tries again. False if there may be something by now, or the ring is closed: it tries again at once. A pass
    /// whose tag is 64 or more cannot wait. Nothing is blocked, and nothing is waited for: how a thread sleeps is its own affair.
    pub fn stand_by(&self, pass: &mut RingPass<T>, side: RingSide, tag: u32) -> bool
        requires of { IsOf self.now pass.old }
        requires tag { (tag ≡ tag_of pass.old) × (tag < 64) }
        ensures of { IsOf self.now pass.new }
        ensures same { SamePass pass.old pass.new }
        ensures answer { WaitAnswer self.now.slots (tag_of pass.old) side (seen_by pass.old) (seen_by pass.new) result }
    {
        stand_by(&self.table.shared, &mut pass.seat, self.slots, side, tag)
    }

    /// Waits no more on this side, and names one that waits there, if there may be something for it, or if the ring is closed. To be called
    /// on both sides after each send and each receive that moved a value, and on its own side by a pass that waited, was named, or gives
    /// its wait up. The first waiting tag from `from` on is named, so that with another number each time none is passed over.
    pub fn call_on(&self, pass: &mut RingPass<T>, side: RingSide, tag: u32, from: u32) -> Called
        requires of { IsOf self.now pass.old }
        requires tag { (tag ≡ tag_of pass.old) × (tag < 64) }
        requires from { from < 64 }
        ensures of { IsOf self.now pass.new }
        ensures same { SamePass pass.old pass.new }
        ensures answer { CallAnswer self.now.slots (tag_of pass.old) side (seen_by pass.old) (seen_by pass.new) result }
    {
        call_on(
            &self.table.shared,
            &mut pass.seat,
            self.slots,
            side,
            tag,
            from,
        )
    }

    /// Closes the ring, and names all who wait.
    pub fn close_and_call(&self, pass: &mut RingPass<T>) -> Closing
        requires of { IsOf self.now pass.old }
        ensures of { IsOf self.now pass.new }
        ensures same { SamePass pass.old pass.new }
        ensures answer { ClosingAnswer self.now.slots (tag_of pass.old) (seen_by pass.old) (seen_by pass.new) result }
    {
        let closed = self.close(pass);
        let receivers = self.call_all(pass, RingSide::Receive);
        let senders = self.call_all(pass, RingSide::Send);
        Closing {
            closed,
            receivers,
            senders,
        }
    }

    /// Names all who wait on a side: the bit 2^t of the answer is that of the tag t.
    pub fn call_all(&self, pass: &mut RingPass<T>, side: RingSide) -> u64
        requires of { IsOf self.now pass.old }
        ensures of { IsOf self.now pass.new }
        ensures same { SamePass pass.old pass.new }
        ensures answer { AllAnswer self.now.slots (tag_of pass.old) side (seen_by pass.old) (seen_by pass.new) result }
    {
        call_all(&self.table.shared, &mut pass.seat, side)
    }
}
