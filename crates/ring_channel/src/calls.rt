//! To send, to receive and to close.
ghost use Rattle.std.specs.Prelude.{◌≡◌};
ghost use Rattle.ring_channel.specs.Answers.{SentAnswer, GotAnswer, CloseAnswer};
ghost use Rattle.ring_channel.specs.Passes.{IsOf, SamePass, seen_by, tag_of};

use crate::answers::{RingGot, RingSent};
use crate::ring::{Ring, RingPass};
use crate::steps::shut;
use crate::store::{put_once, take_once};

impl<T> Ring<T> {
    /// Puts the value at the next place and moves it into its slot; or gives it back.
    pub fn try_send(&self, pass: &mut RingPass<T>, value: T) -> RingSent<T>
        requires of { IsOf self.now pass.old }
        ensures of { IsOf self.now pass.new }
        ensures same { SamePass pass.old pass.new }
        ensures answer { SentAnswer self.now.slots self.now.places (tag_of pass.old) value (seen_by pass.old) (seen_by pass.new) result }
    {
        put_once(
            &self.table.shared,
            &mut pass.seat,
            self.slots,
            self.places,
            value,
        )
    }

    /// Receives the value of the first place, if it is there: the one that was put at that place.
    pub fn try_receive(&self, pass: &mut RingPass<T>) -> RingGot<T>
        requires of { IsOf self.now pass.old }
        ensures of { IsOf self.now pass.new }
        ensures same { SamePass pass.old pass.new }
        ensures answer { GotAnswer self.now.slots (tag_of pass.old) (seen_by pass.old) (seen_by pass.new) result }
    {
        take_once(&self.table.shared, &mut pass.seat, self.slots)
    }

    /// Closes the ring: nothing is put any more, and what was put can still be received. False if it was closed before.
    pub fn close(&self, pass: &mut RingPass<T>) -> bool
        requires of { IsOf self.now pass.old }
        ensures of { IsOf self.now pass.new }
        ensures same { SamePass pass.old pass.new }
        ensures answer { CloseAnswer self.now.slots (tag_of pass.old) (seen_by pass.old) (seen_by pass.new) result }
    {
        shut(&self.table.shared, &mut pass.seat) % 2 == 0
    }
}
