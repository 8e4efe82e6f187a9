//! To send.

ghost use Rattle.call_meaning.specs.Seen.{MayCallChannel, state_in};
ghost use Rattle.channel_model.specs.PlainOffers.{OffersPlainly};
ghost use Rattle.channel_calls.specs.Calls.{SameCaller, seen, CarriesElements, SentAnswer};
ghost use Rattle.channel_calls.specs.Parts.{HeldAnswer, OwnOfferAnswer};

use crate::caller::{Caller, SendAnswer};
use crate::rooms::make_room;
use channel_model::{Act, AlreadyClosed, ChannelFloor, ChannelNote, Offered, Settled, WaitState};
use co_base::{ChannelId, Memory, Value, WaitId, Wakes};
use note_book::{Item, NoteBook};

impl<F: ChannelFloor, B: NoteBook, W: Wakes> Caller<'_, '_, '_, F, B, W> {
    /// Hands an element to the receiver that stands first, leaves it if the channel keeps it, or waits for a receiver or for room.
    /// If it offered it admits whoever may be admitted, and then looks at its offer: one that was resolved by then ends here.
    ///
    /// Example: `send_last` in `docs/LIBRARY.md`.
    #[inline(always)]
    pub fn send(&mut self, c: ChannelId, value: Value) -> Result<SendAnswer, Memory>
        requires can { MayCallChannel c (seen F.view B.items self.old) }
        requires kind { CarriesElements c (seen F.view B.items self.old) }
        ensures same { SameCaller F.anchor self.old self.new }
        ensures answer { SentAnswer c value (seen F.view B.items self.old) (seen F.view B.items self.new) result }
    {
        if let Err(memory) = make_room(self.floor, self.book, 1) {
            return Err(memory);
        }
        match self.floor.offer(self.who, c, value) {
            Offered::Handed(place, receiver) => {
                let act = Act::Hand { c, place, value };
                self.book.note(Item::Channel(ChannelNote::Made(act)));
                self.wakes.wake(receiver);
                Ok(SendAnswer::Sent)
            }
            Offered::Put(place) => {
                let act = Act::Put { c, place, value };
                self.book.note(Item::Channel(ChannelNote::Made(act)));
                match self.after_put(c, place) {
                    Ok(()) => Ok(SendAnswer::Sent),
                    Err(memory) => Err(memory),
                }
            }
            Offered::Held(place) => {
                let main = WaitId { channel: c, place };
                let act = Act::Offer {
                    c,
                    place,
                    value,
                    main,
                    clause: 0,
                };
                self.book.note(Item::Channel(ChannelNote::Made(act)));
                self.after_held(main)
            }
            Offered::Closed(v) => {
                let note = ChannelNote::SendClosed { c, value, v };
                self.book.note(Item::Channel(note));
                Ok(SendAnswer::Closed(v))
            }
            Offered::Spent => {
                self.book.note(Item::Channel(ChannelNote::Spent { c }));
                Ok(SendAnswer::Spent)
            }
        }
    }

    /// Admits whoever waits where the channel has room now, and then settles the own plain offer, if it was resolved by now, whoever
    /// resolved it.
    #[inline(always)]
    fn after_held(&mut self, w: WaitId) -> Result<SendAnswer, Memory>
        requires can { MayCallChannel w.channel (seen F.view B.items self.old) }
        requires plain { OffersPlainly self.old.who w (state_in (seen F.view B.items self.old)) }
        ensures same { SameCaller F.anchor self.old self.new }
        ensures answer { HeldAnswer w (seen F.view B.items self.old) (seen F.view B.items self.new) result }
    {
        match self.admit_all(w.channel) {
            Ok(()) => self.settle_offer(w),
            Err(memory) => Err(memory),
        }
    }

    /// Settles the own plain offer, if it was received, kept or removed by now.
    #[inline(always)]
    fn settle_offer(&mut self, w: WaitId) -> Result<SendAnswer, Memory>
        requires can { MayCallChannel w.channel (seen F.view B.items self.old) }
        requires plain { OffersPlainly self.old.who w (state_in (seen F.view B.items self.old)) }
        ensures same { SameCaller F.anchor self.old self.new }
        ensures answer { OwnOfferAnswer w (seen F.view B.items self.old) (seen F.view B.items self.new) result }
    {
        if let Err(memory) = make_room(self.floor, self.book, 2) {
            return Err(memory);
        }
        match self.floor.look(self.who, w) {
            WaitState::Standing => Ok(SendAnswer::Waits(w)),
            WaitState::Settled => unreachable!(),
            WaitState::Resolved => match self.settle(w, false) {
                Settled::Sent(_clause) => Ok(SendAnswer::Sent),
                Settled::Cancelled => match self.floor.close(self.who, w.channel, 0) {
                    Err(AlreadyClosed { v }) => Ok(SendAnswer::Closed(v)),
                    Ok(()) => unreachable!(),
                },
                Settled::Value(_clause, _value) => unreachable!(),
                Settled::Closed(_clause, _value) => unreachable!(),
                Settled::Undelivered(_value) => unreachable!(),
            },
        }
    }
}
