//! A book of notes, between which another coroutine calls.

ghost use Rattle.std.specs.Prelude.{◌≡◌, true};
ghost use Rattle.std.proofs.Props.{props};
ghost use Rattle.note_book.specs.Books.{notes_of, spare_of};
ghost use Rattle.floor_tests.specs.Meetings.{other, MayMeet, two_channels};

use crate::other_calls::{OtherCall, make_call};
use channel_model::ChannelFloor;
use co_base::Memory;
use note_book::{Item, NoteBook, Notes};
use std::alloc::Global;

/// The notes of a user that has a floor of its own on the two channels of the other's floor: right after each note, and so before the next
/// call of the user, the other makes the next of its calls.
#[derive(Drop)]
pub struct Beside<O: ChannelFloor + Drop> {
    notes: Notes,
    others: O,
    calls: [OtherCall; 5],
    /// The number of the other's next call.
    next: usize,
    ghost may: { MayMeet (O.view others) } by { Prim.hlevel props },
}

impl<O: ChannelFloor + Drop> Beside<O> {
    /// A book with nothing in it, and the floor of the other, who makes the first of these calls now.
    pub fn new(alloc: Global, others: O, calls: [OtherCall; 5]) -> Beside<O>
        requires caller { (O.view others).callers other ≡ true }
        requires shape { (O.view others).shape ≡ two_channels }
    {
        let mut others = others;
        make_call(&mut others, calls[0]);
        Beside {
            notes: Notes::new(alloc),
            others,
            calls,
            next: 1,
        }
    }

    /// What was noted.
    pub fn notes(&self) -> &Notes {
        &self.notes
    }
}

impl<O: ChannelFloor + Drop> NoteBook for Beside<O> {
    ghost items = { λ b. notes_of b.notes };

    ghost spare = { λ b. spare_of b.notes };

    fn room(&mut self, n: u32) -> Result<(), Memory> {
        self.notes.room(n)
    }

    fn note(&mut self, item: Item) {
        self.notes.note(item);
        if self.next < 5 {
            make_call(&mut self.others, self.calls[self.next]);
            self.next += 1;
        }
    }
}
