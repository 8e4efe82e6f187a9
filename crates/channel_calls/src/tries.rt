//! To send and to receive without waiting.

ghost use Rattle.std.specs.Prelude.{◌≡◌};
ghost use Rattle.call_meaning.specs.Seen.{MayCallChannel};
ghost use Rattle.call_meaning.specs.ChannelCalls.{sends, receives};
ghost use Rattle.channel_calls.specs.Calls.{
  SameCaller,
  seen,
  CarriesElements,
  closed_note,
  SendTriedAs,
  TrySentAnswer,
  ReceiveTriedAs,
  TryReceivedAnswer,
};

use crate::caller::{Caller, TriedAs, TryReceiveAnswer, TrySendAnswer};
use crate::rooms::{make_room, wake_some};
use channel_model::{Act, ChannelFloor, ChannelNote, TriedGot, TriedOffer};
use co_base::{ChannelId, Memory, Value, Wakes};
use note_book::{Item, NoteBook};

impl TriedAs {
    /// What is noted of a send to a channel that was closed with `v`.
    fn of_closed_send(self, c: ChannelId, value: Value, v: Value) -> ChannelNote
        ensures is { result ≡ closed_note self (sends c value) v }
    {
        match self {
            TriedAs::Call => ChannelNote::TrySendClosed { c, value, v },
            TriedAs::Clause => ChannelNote::SendClosed { c, value, v },
        }
    }

    /// What is noted of a receive from a channel that was closed with `v`.
    fn of_closed_receive(self, c: ChannelId, v: Value) -> ChannelNote
        ensures is { result ≡ closed_note self (receives c) v }
    {
        match self {
            TriedAs::Call => ChannelNote::TryReceiveClosed { c, v },
            TriedAs::Clause => ChannelNote::ReceiveClosed { c, v },
        }
    }
}

impl<F: ChannelFloor, B: NoteBook, W: Wakes> Caller<'_, '_, '_, F, B, W> {
    /// Hands an element to the receiver that stands first, or leaves it if the channel keeps it.
    pub fn try_send(&mut self, c: ChannelId, value: Value) -> Result<TrySendAnswer, Memory>
        requires can { MayCallChannel c (seen F.view B.items self.old) }
        requires kind { CarriesElements c (seen F.view B.items self.old) }
        ensures same { SameCaller F.anchor self.old self.new }
        ensures answer { TrySentAnswer c value (seen F.view B.items self.old) (seen F.view B.items self.new) result }
    {
        self.try_send_as(TriedAs::Call, c, value)
    }

    /// Sends so without waiting, as a call or as a clause.
    #[inline(always)]
    pub fn try_send_as(
        &mut self,
        tried_as: TriedAs,
        c: ChannelId,
        value: Value,
    ) -> Result<TrySendAnswer, Memory>
        requires can { MayCallChannel c (seen F.view B.items self.old) }
        requires kind { CarriesElements c (seen F.view B.items self.old) }
        ensures same { SameCaller F.anchor self.old self.new }
        ensures answer { SendTriedAs tried_as c value (seen F.view B.items self.old) (seen F.view B.items self.new) result }
    {
        if let Err(memory) = make_room(self.floor, self.book, 1) {
            return Err(memory);
        }
        match self.floor.try_offer(self.who, c, value) {
            TriedOffer::Handed(place, receiver) => {
                let act = Act::Hand { c, place, value };
                self.book.note(Item::Channel(ChannelNote::Made(act)));
                self.wakes.wake(receiver);
                Ok(TrySendAnswer::Sent)
            }
            TriedOffer::Put(place) => {
                let act = Act::Put { c, place, value };
                self.book.note(Item::Channel(ChannelNote::Made(act)));
                match self.after_put(c, place) {
                    Ok(()) => Ok(TrySendAnswer::Sent),
                    Err(memory) => Err(memory),
                }
            }
            TriedOffer::Full => {
                let note = ChannelNote::Full { c, value };
                self.book.note(Item::Channel(note));
                Ok(TrySendAnswer::Full)
            }
            TriedOffer::Closed(v) => {
                let note = tried_as.of_closed_send(c, value, v);
                self.book.note(Item::Channel(note));
                Ok(TrySendAnswer::Closed(v))
            }
            TriedOffer::Spent => {
                self.book.note(Item::Channel(ChannelNote::Spent { c }));
                Ok(TrySendAnswer::Spent)
            }
        }
    }

    /// Takes the element that came first, and admits whoever waits where the channel has room now.
    ///
    /// Example: `receive_or` in `docs/LIBRARY.md`.
    pub fn try_receive(&mut self, c: ChannelId) -> Result<TryReceiveAnswer, Memory>
        requires can { MayCallChannel c (seen F.view B.items self.old) }
        ensures same { SameCaller F.anchor self.old self.new }
        ensures answer { TryReceivedAnswer c (seen F.view B.items self.old) (seen F.view B.items self.new) result }
    {
        self.try_receive_as(TriedAs::Call, c)
    }

    /// Receives so without waiting, as a call or as a clause.
    #[inline(always)]
    pub fn try_receive_as(
        &mut self,
        tried_as: TriedAs,
        c: ChannelId,
    ) -> Result<TryReceiveAnswer, Memory>
        requires can { MayCallChannel c (seen F.view B.items self.old) }
        ensures same { SameCaller F.anchor self.old self.new }
        ensures answer { ReceiveTriedAs tried_as c (seen F.view B.items self.old) (seen F.view B.items self.new) result }
    {
        if let Err(memory) = make_room(self.floor, self.book, 1) {
            return Err(memory);
        }
        match self.floor.try_receive(self.who, c) {
            TriedGot::Taken(place, value, sender) => {
                let act = Act::Take { c, place, value };
                self.book.note(Item::Channel(ChannelNote::Made(act)));
                wake_some(self.wakes, sender);
                match self.admit_all(c) {
                    Ok(()) => Ok(TryReceiveAnswer::Value(value)),
                    Err(memory) => Err(memory),
                }
            }
            TriedGot::Empty => {
                self.book.note(Item::Channel(ChannelNote::Empty { c }));
                Ok(TryReceiveAnswer::Empty)
            }
            TriedGot::Closed(v) => {
                let note = tried_as.of_closed_receive(c, v);
                self.book.note(Item::Channel(note));
                Ok(TryReceiveAnswer::Closed(v))
            }
        }
    }
}
