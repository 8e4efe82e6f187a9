//! To receive.

ghost use Rattle.call_meaning.specs.Seen.{MayCallChannel};
ghost use Rattle.channel_calls.specs.Calls.{SameCaller, seen, ReceivedAnswer};

use crate::caller::{Caller, ReceiveAnswer};
use crate::rooms::{make_room, wake_some};
use channel_model::{Act, ChannelFloor, ChannelNote, Got};
use co_base::{ChannelId, Memory, WaitId, Wakes};
use note_book::{Item, NoteBook};

impl<F: ChannelFloor, B: NoteBook, W: Wakes> Caller<'_, '_, '_, F, B, W> {
    /// Takes the element that came first, and admits whoever waits where the channel has room now; or waits for an element.
    ///
    /// Example: `cancelled_receive` in `docs/LIBRARY.md`.
    #[inline(always)]
    pub fn receive(&mut self, c: ChannelId) -> Result<ReceiveAnswer, Memory>
        requires can { MayCallChannel c (seen F.view B.items self.old) }
        ensures same { SameCaller F.anchor self.old self.new }
        ensures answer { ReceivedAnswer c (seen F.view B.items self.old) (seen F.view B.items self.new) result }
    {
        if let Err(memory) = make_room(self.floor, self.book, 1) {
            return Err(memory);
        }
        match self.floor.receive(self.who, c) {
            Got::Taken(place, value, sender) => {
                let act = Act::Take { c, place, value };
                self.book.note(Item::Channel(ChannelNote::Made(act)));
                wake_some(self.wakes, sender);
                match self.admit_all(c) {
                    Ok(()) => Ok(ReceiveAnswer::Value(value)),
                    Err(memory) => Err(memory),
                }
            }
            Got::Waiting(place) => {
                let main = WaitId { channel: c, place };
                let act = Act::Await {
                    c,
                    place,
                    main,
                    clause: 0,
                };
                self.book.note(Item::Channel(ChannelNote::Made(act)));
                Ok(ReceiveAnswer::Waits(main))
            }
            Got::Closed(v) => {
                let note = ChannelNote::ReceiveClosed { c, v };
                self.book.note(Item::Channel(note));
                Ok(ReceiveAnswer::Closed(v))
            }
            Got::Spent => {
                self.book.note(Item::Channel(ChannelNote::Spent { c }));
                Ok(ReceiveAnswer::Spent)
            }
        }
    }
}
