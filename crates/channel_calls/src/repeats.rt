//! What follows an act, repeated until nothing is owed.

ghost use Rattle.call_meaning.specs.Seen.{MayCallChannel};
ghost use Rattle.channel_model.specs.Answers.{HasPut};
ghost use Rattle.channel_calls.specs.Calls.{SameCaller, seen, AdmittedAnswer, AfterPutAnswer};
ghost use Rattle.channel_calls.specs.Parts.{AdmittedBelowAnswer, DroppedAnswer, SpurnedAnswer};

use crate::caller::Caller;
use crate::rooms::make_room;
use channel_model::{Act, ChannelFloor, ChannelNote};
use co_base::{ChannelId, Memory, Place, Wakes};
use note_book::{Item, NoteBook};

impl<F: ChannelFloor, B: NoteBook, W: Wakes> Caller<'_, '_, '_, F, B, W> {
    /// Admits each offer that came before this call and for which the channel has room, and wakes whoever waits with it.
    #[inline(always)]
    pub fn admit_all(&mut self, c: ChannelId) -> Result<(), Memory>
        requires can { MayCallChannel c (seen F.view B.items self.old) }
        ensures same { SameCaller F.anchor self.old self.new }
        ensures answer { AdmittedAnswer c (seen F.view B.items self.old) (seen F.view B.items self.new) result }
    {
        let mark = self.floor.mark(self.who, c);
        self.admit_below(c, mark)
    }

    /// Admits each offer below the mark for which the channel has room.
    #[inline(always)]
    fn admit_below(&mut self, c: ChannelId, mark: Place) -> Result<(), Memory>
        requires can { MayCallChannel c (seen F.view B.items self.old) }
        ensures same { SameCaller F.anchor self.old self.new }
        ensures answer { AdmittedBelowAnswer c mark (seen F.view B.items self.old) (seen F.view B.items self.new) result }
    {
        loop {
            if let Err(memory) = make_room(self.floor, self.book, 1) {
                return Err(memory);
            }
            let Some((place, sender)) = self.floor.admit(self.who, c, mark) else {
                return Ok(());
            };
            let act = Act::Admit { c, place };
            self.book.note(Item::Channel(ChannelNote::Made(act)));
            self.wakes.wake(sender);
        }
    }

    /// Drops the oldest elements, as long as more stand up to the own one, at this place, than the channel keeps; then removes the own
    /// one, if the channel does not keep its latest, and it is one too many.
    #[inline(always)]
    pub fn after_put(&mut self, c: ChannelId, place: Place) -> Result<(), Memory>
        requires can { MayCallChannel c (seen F.view B.items self.old) }
        requires own { HasPut self.old.who c place (F.view self.old.floor.now) }
        ensures same { SameCaller F.anchor self.old self.new }
        ensures answer { AfterPutAnswer c place (seen F.view B.items self.old) (seen F.view B.items self.new) result }
    {
        match self.trim_all(c, place) {
            Ok(()) => self.spurn_own(c, place),
            Err(memory) => Err(memory),
        }
    }

    /// Removes the own element, at this place, if the channel does not keep its latest, and it is one too many.
    #[inline(always)]
    fn spurn_own(&mut self, c: ChannelId, place: Place) -> Result<(), Memory>
        requires can { MayCallChannel c (seen F.view B.items self.old) }
        requires own { HasPut self.old.who c place (F.view self.old.floor.now) }
        ensures same { SameCaller F.anchor self.old self.new }
        ensures answer { SpurnedAnswer c place (seen F.view B.items self.old) (seen F.view B.items self.new) result }
    {
        if let Err(memory) = make_room(self.floor, self.book, 1) {
            return Err(memory);
        }
        match self.floor.spurn(self.who, c, place) {
            Some(value) => {
                let act = Act::Spurn { c, place, value };
                self.book.note(Item::Channel(ChannelNote::Made(act)));
                Ok(())
            }
            None => Ok(()),
        }
    }

    /// Drops the oldest elements, as long as more stand up to the own one, at this place, than the channel keeps.
    #[inline(always)]
    fn trim_all(&mut self, c: ChannelId, place: Place) -> Result<(), Memory>
        requires can { MayCallChannel c (seen F.view B.items self.old) }
        requires own { HasPut self.old.who c place (F.view self.old.floor.now) }
        ensures same { SameCaller F.anchor self.old self.new }
        ensures answer { DroppedAnswer c place (seen F.view B.items self.old) (seen F.view B.items self.new) result }
    {
        loop {
            if let Err(memory) = make_room(self.floor, self.book, 1) {
                return Err(memory);
            }
            let Some((first, value)) = self.floor.trim(self.who, c, place) else {
                return Ok(());
            };
            let act = Act::Drop {
                c,
                place: first,
                value,
            };
            self.book.note(Item::Channel(ChannelNote::Made(act)));
        }
    }
}
