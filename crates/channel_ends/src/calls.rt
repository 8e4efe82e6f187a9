//! What an end does.
ghost use Rattle.std.specs.Prelude.{◌≡◌};
ghost use Rattle.ring_channel.specs.Looks.{ClosingAnswer};
ghost use Rattle.ring_channel.specs.Outcomes.{CallsBoth, ReceiveAnswer, SendAnswer};
ghost use Rattle.channel_ends.specs.Ends.{ring_of, seen_of, SameEnd, NewEnd, SplitSo};

use crate::end::End;
use crate::faults::SplitFault;
use co_base::Tag;
use ring_channel::{Closing, ReceiveOutcome, Ring, RingFault, RingSide, SendOutcome, Wakes};
use std::alloc::Global;
use std::sync::Arc;

impl End {
    /// The first end of a new channel.
    pub(crate) fn new(alloc: Global, slots: u32) -> Result<End, RingFault>
        ensures { NewEnd slots result }
    {
        match Ring::new(alloc, slots) {
            Ok((ring, pass)) => match Arc::new(alloc, ring) {
                Ok(ring) => Ok(End {
                    ring,
                    pass,
                    tag: 0,
                    next: 1,
                }),
                Err(_) => Err(RingFault::Memory),
            },
            Err(fault) => Err(fault),
        }
    }

    /// Another end of the same channel.
    pub(crate) fn split(&mut self) -> Result<End, SplitFault>
        ensures { SplitSo self.old self.new result }
    {
        if self.next >= 64 {
            return Err(SplitFault::NoTag);
        }
        match Arc::try_clone(&self.ring) {
            Ok(ring) => {
                let tag = self.next;
                self.next = tag + 1;
                let pass = self.ring.split(&mut self.pass, tag as Tag);
                Ok(End {
                    ring,
                    pass,
                    tag,
                    next: 64,
                })
            }
            Err(_) => Err(SplitFault::Memory),
        }
    }

    /// Sends, or waits.
    pub(crate) fn send(&mut self, item: u64) -> SendOutcome<u64>
        ensures same { SameEnd self.old self.new }
        ensures answer { SendAnswer (ring_of self.old).slots (ring_of self.old).places self.old.tag item (seen_of self.old)
            (seen_of self.new) result }
    {
        let tag = self.tag;
        self.ring.send(&mut self.pass, tag, item)
    }

    /// Receives, or waits.
    pub(crate) fn receive(&mut self) -> ReceiveOutcome<u64>
        ensures same { SameEnd self.old self.new }
        ensures answer { ReceiveAnswer (ring_of self.old).slots self.old.tag (seen_of self.old) (seen_of self.new) result }
    {
        let tag = self.tag;
        self.ring.receive(&mut self.pass, tag)
    }

    /// Waits no more, on neither side; and who may go on in its place.
    pub(crate) fn leave(&mut self) -> Wakes
        ensures same { SameEnd self.old self.new }
        ensures answer { CallsBoth (ring_of self.old).slots self.old.tag (seen_of self.old) (seen_of self.new) result }
    {
        let tag = self.tag;
        let receivers = self.ring.leave(&mut self.pass, RingSide::Receive, tag);
        let senders = self.ring.leave(&mut self.pass, RingSide::Send, tag);
        Wakes { receivers, senders }
    }

    /// Closes the channel.
    pub(crate) fn close(&mut self) -> Closing
        ensures same { SameEnd self.old self.new }
        ensures answer { ClosingAnswer (ring_of self.old).slots self.old.tag (seen_of self.old) (seen_of self.new) result }
    {
        self.ring.close_and_call(&mut self.pass)
    }
}
