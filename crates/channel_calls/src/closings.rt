//! To close and to cancel a channel.

ghost use Rattle.call_meaning.specs.Seen.{MayCallChannel};
ghost use Rattle.channel_model.specs.Answers.{IsSeenClosed, IsSeenVoided};
ghost use Rattle.channel_calls.specs.Calls.{SameCaller, seen, ClosedAnswer, CancelledChannelAnswer};
ghost use Rattle.channel_calls.specs.Parts.{WokenAnswer, ClosedOnceAnswer, VoidedOnceAnswer, DrainedAnswer};

use crate::caller::Caller;
use crate::rooms::{make_room, wake_some};
use channel_model::{Act, AlreadyClosed, ChannelFloor, ChannelNote};
use co_base::{ChannelId, Memory, Value, Wakes};
use note_book::{Item, NoteBook};

impl<F: ChannelFloor, B: NoteBook, W: Wakes> Caller<'_, '_, '_, F, B, W> {
    /// Closes the channel with a value, and tells each receiver that stands there. Answers whether this call closed it.
    ///
    /// Example: `send_last` in `docs/LIBRARY.md`.
    pub fn close(&mut self, c: ChannelId, v: Value) -> Result<bool, Memory>
        requires can { MayCallChannel c (seen F.view B.items self.old) }
        ensures same { SameCaller F.anchor self.old self.new }
        ensures answer { ClosedAnswer c v (seen F.view B.items self.old) (seen F.view B.items self.new) result }
    {
        match self.close_once(c, v) {
            Ok(closed) => match self.wake_all(c) {
                Ok(()) => Ok(closed),
                Err(memory) => Err(memory),
            },
            Err(memory) => Err(memory),
        }
    }

    /// Closes the channel with 0, tells each receiver, and removes each element. Answers whether this call cancelled it.
    pub fn cancel_channel(&mut self, c: ChannelId) -> Result<bool, Memory>
        requires can { MayCallChannel c (seen F.view B.items self.old) }
        ensures same { SameCaller F.anchor self.old self.new }
        ensures answer { CancelledChannelAnswer c (seen F.view B.items self.old) (seen F.view B.items self.new) result }
    {
        match self.close(c, 0) {
            Ok(_closed) => match self.void_once(c) {
                Ok(voided) => match self.drain_all(c) {
                    Ok(()) => Ok(voided),
                    Err(memory) => Err(memory),
                },
                Err(memory) => Err(memory),
            },
            Err(memory) => Err(memory),
        }
    }

    /// Closes the channel, unless it was closed before. Answers whether this call did.
    fn close_once(&mut self, c: ChannelId, v: Value) -> Result<bool, Memory>
        requires can { MayCallChannel c (seen F.view B.items self.old) }
        ensures same { SameCaller F.anchor self.old self.new }
        ensures answer { ClosedOnceAnswer c v (seen F.view B.items self.old) (seen F.view B.items self.new) result }
    {
        if let Err(memory) = make_room(self.floor, self.book, 1) {
            return Err(memory);
        }
        match self.floor.close(self.who, c, v) {
            Ok(()) => {
                let act = Act::Close { c, value: v };
                self.book.note(Item::Channel(ChannelNote::Made(act)));
                Ok(true)
            }
            Err(AlreadyClosed { v }) => {
                let note = ChannelNote::AlreadyClosed { c, v };
                self.book.note(Item::Channel(note));
                Ok(false)
            }
        }
    }

    /// Tells each receiver that stands at a channel which was seen closed, and wakes it.
    fn wake_all(&mut self, c: ChannelId) -> Result<(), Memory>
        requires can { MayCallChannel c (seen F.view B.items self.old) }
        requires closed { IsSeenClosed c (F.view self.old.floor.now) }
        ensures same { SameCaller F.anchor self.old self.new }
        ensures answer { WokenAnswer c (seen F.view B.items self.old) (seen F.view B.items self.new) result }
    {
        loop {
            if let Err(memory) = make_room(self.floor, self.book, 1) {
                return Err(memory);
            }
            let Some((place, receiver)) = self.floor.wake_closed(self.who, c) else {
                return Ok(());
            };
            let act = Act::WakeClosed { c, place };
            self.book.note(Item::Channel(ChannelNote::Made(act)));
            self.wakes.wake(receiver);
        }
    }

    /// Voids a channel that was seen closed, unless it was voided before. Answers whether this call did.
    fn void_once(&mut self, c: ChannelId) -> Result<bool, Memory>
        requires can { MayCallChannel c (seen F.view B.items self.old) }
        requires closed { IsSeenClosed c (F.view self.old.floor.now) }
        ensures same { SameCaller F.anchor self.old self.new }
        ensures answer { VoidedOnceAnswer c (seen F.view B.items self.old) (seen F.view B.items self.new) result }
    {
        if let Err(memory) = make_room(self.floor, self.book, 1) {
            return Err(memory);
        }
        if self.floor.void(self.who, c) {
            let act = Act::Void { c };
            self.book.note(Item::Channel(ChannelNote::Made(act)));
            Ok(true)
        } else {
            Ok(false)
        }
    }

    /// Removes each element of a channel that was seen voided, and wakes whoever waits with it.
    fn drain_all(&mut self, c: ChannelId) -> Result<(), Memory>
        requires can { MayCallChannel c (seen F.view B.items self.old) }
        requires voided { IsSeenVoided c (F.view self.old.floor.now) }
        ensures same { SameCaller F.anchor self.old self.new }
        ensures answer { DrainedAnswer c (seen F.view B.items self.old) (seen F.view B.items self.new) result }
    {
        loop {
            if let Err(memory) = make_room(self.floor, self.book, 1) {
                return Err(memory);
            }
            let Some((place, value, sender)) = self.floor.drain(self.who, c) else {
                return Ok(());
            };
            let act = Act::Drain { c, place, value };
            self.book.note(Item::Channel(ChannelNote::Made(act)));
            wake_some(self.wakes, sender);
        }
    }
}
