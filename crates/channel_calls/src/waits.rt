//! To end a call that waits.

ghost use Rattle.std.specs.Prelude.{◌≡◌, ◌<◌, ◌++◌};
ghost use Rattle.call_meaning.specs.Seen.{MayCallChannel};
ghost use Rattle.channel_model.specs.Answers.{IsReady, SettleAnswer};
ghost use Rattle.channel_calls.specs.Groups.{settle_group};
ghost use Rattle.channel_calls.specs.Calls.{SameCaller, seen, HoldsWait, DispatchedAnswer, CancelledAnswer};
ghost use Rattle.channel_calls.specs.Parts.{EndedCancelledAnswer};

use crate::caller::Caller;
use crate::rooms::make_room;
use channel_model::{Act, ChannelFloor, ChannelNote, Settled, Why, Withdrawn};
use co_base::{Memory, WaitId, Wakes};
use note_book::{Item, NoteBook};

impl<F: ChannelFloor, B: NoteBook, W: Wakes> Caller<'_, '_, '_, F, B, W> {
    /// Settles the caller's wait, which was seen resolved, and notes it. Takes no memory.
    #[inline(always)]
    pub(crate) fn settle(&mut self, w: WaitId, cancelled: bool) -> Settled
        requires can { MayCallChannel w.channel (seen F.view B.items self.old) }
        requires ready { IsReady self.old.who w (F.view self.old.floor.now) }
        requires room { 0 < (F.view self.old.floor.now).spare }
        requires book { 0 < B.spare self.old.book.now }
        ensures same { SameCaller F.anchor self.old self.new }
        ensures quiet { self.new.wakes.now ≡ self.old.wakes.now }
        ensures settled { SettleAnswer self.old.who w cancelled (F.view self.old.floor.now) (F.view self.new.floor.now) result }
        ensures items { B.items self.new.book.now ≡ B.items self.old.book.now ++ settle_group w result }
    {
        let outcome = self.floor.settle(self.who, w, cancelled);
        let act = Act::Settle { w, outcome };
        self.book.note(Item::Channel(ChannelNote::Made(act)));
        outcome
    }

    /// Ends the caller's wait, which was seen resolved. `cancelled` says that its Job was cancelled before.
    #[inline(always)]
    pub fn dispatch(&mut self, w: WaitId, cancelled: bool) -> Result<Settled, Memory>
        requires can { MayCallChannel w.channel (seen F.view B.items self.old) }
        requires ready { IsReady self.old.who w (F.view self.old.floor.now) }
        ensures same { SameCaller F.anchor self.old self.new }
        ensures quiet { self.new.wakes.now ≡ self.old.wakes.now }
        ensures answer { DispatchedAnswer w cancelled (seen F.view B.items self.old) (seen F.view B.items self.new) result }
    {
        if let Err(memory) = make_room(self.floor, self.book, 1) {
            return Err(memory);
        }
        Ok(self.settle(w, cancelled))
    }

    /// Ends the caller's wait as cancelled: takes it back, unless it was resolved before, settles it, and admits whoever waits where its
    /// channel has room now.
    ///
    /// Example: `cancelled_receive` in `docs/LIBRARY.md`.
    pub fn cancel_wait(&mut self, w: WaitId) -> Result<Settled, Memory>
        requires can { MayCallChannel w.channel (seen F.view B.items self.old) }
        requires holds { HoldsWait w (seen F.view B.items self.old) }
        ensures same { SameCaller F.anchor self.old self.new }
        ensures answer { CancelledAnswer w (seen F.view B.items self.old) (seen F.view B.items self.new) result }
    {
        match self.end_cancelled(w) {
            Ok(outcome) => match self.admit_all(w.channel) {
                Ok(()) => Ok(outcome),
                Err(memory) => Err(memory),
            },
            Err(memory) => Err(memory),
        }
    }

    /// Takes the caller's wait back, unless it was resolved before, and settles it as cancelled.
    fn end_cancelled(&mut self, w: WaitId) -> Result<Settled, Memory>
        requires can { MayCallChannel w.channel (seen F.view B.items self.old) }
        requires holds { HoldsWait w (seen F.view B.items self.old) }
        ensures same { SameCaller F.anchor self.old self.new }
        ensures answer { EndedCancelledAnswer w (seen F.view B.items self.old) (seen F.view B.items self.new) result }
    {
        if let Err(memory) = make_room(self.floor, self.book, 2) {
            return Err(memory);
        }
        let why = Why::Cancelled;
        let was_cancelled = true;
        match self.floor.withdraw(self.who, w, why) {
            Withdrawn::Done(tag) => {
                let act = Act::Withdraw { w, why };
                self.book.note(Item::Channel(ChannelNote::Made(act)));
                self.wakes.wake(tag);
                Ok(self.settle(w, was_cancelled))
            }
            Withdrawn::Late => {
                self.book.note(Item::Channel(ChannelNote::Late { w }));
                Ok(self.settle(w, was_cancelled))
            }
        }
    }
}
