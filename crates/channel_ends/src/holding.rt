//! What C does with an end.
ghost use Rattle.std.specs.Prelude.{◌≡◌, ◌==◌, None, Some};
ghost use Rattle.channel_ends.specs.Marks.{mark_of};
ghost use Rattle.channel_ends.specs.Handles.{end_in, Opened, PutSo, Makes, Splits, Sends, Receives, Leaves, Closes, Frees};

use crate::end::End;
use crate::faults::SplitFault;
use crate::handle::ChannelEnd;
use crate::hidden::{hide, nothing, show};
use ring_channel::{Closing, ReceiveOutcome, RingFault, SendOutcome, Wakes};
use std::alloc::Global;
use std::mem::replace;

impl ChannelEnd {
    /// Takes the end out, and leaves none.
    #[tactic(auto, using(crate::proofs::Handles::unmarked, crate::proofs::Handles::marked))]
    fn open(&mut self, alloc: Global) -> Option<Box<End, Global>>
        ensures old { Opened (end_in self.old) result }
        ensures new { end_in self.new ≡ None }
    {
        if self.used == 0 {
            return None;
        }
        let none = ChannelEnd {
            used: 0,
            hidden: nothing(alloc),
        };
        let ChannelEnd { used: _, hidden } = replace(self, none);
        Some(show(hidden))
    }

    /// Puts an end in, where there was none.
    fn put(&mut self, end: Box<End, Global>)
        requires none { end_in self.old ≡ None }
        ensures { end_in self.new ≡ Some end.value }
    {
        let used = end.tag + 1;
        *self = ChannelEnd {
            used,
            hidden: hide(end),
        };
    }

    /// Whether there is no end.
    pub fn is_none(&self) -> bool
        ensures { result ≡ (mark_of (end_in self.now) == 0) }
    {
        self.used == 0
    }

    /// Makes a channel of so many slots, 1 to 1,048,576, and puts its first end in, where there was none.
    pub fn make(&mut self, alloc: Global, slots: u32) -> Option<Result<(), RingFault>>
        ensures { Makes slots (end_in self.old) (end_in self.new) result }
    {
        if !self.is_none() {
            return None;
        }
        match End::new(alloc, slots) {
            Ok(end) => match Box::new(alloc, end) {
                Ok(end) => {
                    self.put(end);
                    Some(Ok(()))
                }
                Err(_) => Some(Err(RingFault::Memory)),
            },
            Err(fault) => Some(Err(fault)),
        }
    }

    /// Puts another end of the same channel into `other`, where there was none.
    pub fn split(&mut self, alloc: Global, other: &mut ChannelEnd) -> Result<(), SplitFault>
        ensures { Splits (end_in self.old) (end_in self.new) (end_in other.old) (end_in other.new) result }
    {
        if !other.is_none() {
            return Err(SplitFault::InUse);
        }
        match self.open(alloc) {
            Some(mut end) => {
                let made = end.split();
                self.put(end);
                match made {
                    Ok(new) => other.put_new(alloc, new),
                    Err(fault) => Err(fault),
                }
            }
            None => Err(SplitFault::NoEnd),
        }
    }

    /// Puts a new end in, where there was none.
    fn put_new(&mut self, alloc: Global, end: End) -> Result<(), SplitFault>
        requires none { end_in self.old ≡ None }
        ensures { PutSo end (end_in self.new) result }
    {
        match Box::new(alloc, end) {
            Ok(end) => {
                self.put(end);
                Ok(())
            }
            Err(_) => Err(SplitFault::Memory),
        }
    }

    /// Sends, or waits. None: there is no end.
    pub fn send(&mut self, alloc: Global, item: u64) -> Option<SendOutcome<u64>>
        ensures { Sends item (end_in self.old) (end_in self.new) result }
    {
        match self.open(alloc) {
            Some(mut end) => {
                let answer = end.send(item);
                self.put(end);
                Some(answer)
            }
            None => None,
        }
    }

    /// Receives, or waits. None: there is no end.
    pub fn receive(&mut self, alloc: Global) -> Option<ReceiveOutcome<u64>>
        ensures { Receives (end_in self.old) (end_in self.new) result }
    {
        match self.open(alloc) {
            Some(mut end) => {
                let answer = end.receive();
                self.put(end);
                Some(answer)
            }
            None => None,
        }
    }

    /// Waits no more. None: there is no end.
    pub fn leave(&mut self, alloc: Global) -> Option<Wakes>
        ensures { Leaves (end_in self.old) (end_in self.new) result }
    {
        match self.open(alloc) {
            Some(mut end) => {
                let answer = end.leave();
                self.put(end);
                Some(answer)
            }
            None => None,
        }
    }

    /// Closes the channel. None: there is no end.
    pub fn close(&mut self, alloc: Global) -> Option<Closing>
        ensures { Closes (end_in self.old) (end_in self.new) result }
    {
        match self.open(alloc) {
            Some(mut end) => {
                let answer = end.close();
                self.put(end);
                Some(answer)
            }
            None => None,
        }
    }

    /// Waits no more, and ends: there is none afterwards. None: there was none.
    pub fn free(&mut self, alloc: Global) -> Option<Wakes>
        ensures { Frees (end_in self.old) (end_in self.new) result }
    {
        match self.open(alloc) {
            Some(mut end) => {
                let wakes = end.leave();
                drop(end);
                Some(wakes)
            }
            None => None,
        }
    }
}
