//! Whether a value was claimed by a receiver, and whether the ring is closed.
ghost use Rattle.std.specs.Prelude.{◌≡◌, ◌<◌, []};
ghost use Rattle.ring_channel.specs.Tables.{FitsIn};
ghost use Rattle.ring_channel.specs.Seen.{now_in};
ghost use Rattle.ring_channel.specs.Answers.{Adds};
ghost use Rattle.ring_channel.specs.Counters.{ClosedAnswer, TakenAnswer};
ghost use Rattle.ring_channel.specs.Passes.{IsOf, SamePass, seen_by, tag_of};

use crate::ring::{Ring, RingPass};
use crate::steps::{HEAD, TAIL, load_word};

impl<T> Ring<T> {
    /// Loads the word of a counter.
    fn counter(&self, pass: &mut RingPass<T>, word: usize) -> u64
        requires of { IsOf self.now pass.old }
        requires word { word < 32 }
        ensures of { IsOf self.now pass.new }
        ensures same { SamePass pass.old pass.new }
        ensures adds { Adds (tag_of pass.old) [] (seen_by pass.old) (seen_by pass.new) }
        ensures found { FitsIn (now_in self.now.slots (seen_by pass.new)) word result }
    {
        load_word(&self.table.shared, &mut pass.seat, word)
    }

    /// Whether the value of this place was claimed by a receiver. On a ring of one slot a sender that waits until it was has handed its
    /// value over, as at a rendezvous.
    pub fn was_taken(&self, pass: &mut RingPass<T>, place: u64) -> bool
        requires of { IsOf self.now pass.old }
        ensures of { IsOf self.now pass.new }
        ensures same { SamePass pass.old pass.new }
        ensures answer { TakenAnswer self.now.slots (tag_of pass.old) place (seen_by pass.old) (seen_by pass.new) result }
    {
        let head = self.counter(pass, HEAD);
        if place < head {
            return true;
        }
        false
    }

    /// Whether the ring is closed.
    pub fn is_closed(&self, pass: &mut RingPass<T>) -> bool
        requires of { IsOf self.now pass.old }
        ensures of { IsOf self.now pass.new }
        ensures same { SamePass pass.old pass.new }
        ensures answer { ClosedAnswer self.now.slots (tag_of pass.old) (seen_by pass.old) (seen_by pass.new) result }
    {
        let tail = self.counter(pass, TAIL);
        if tail % 2 == 1 {
            return true;
        }
        false
    }
}
