//! A book that keeps numbers alone.

ghost use Rattle.std.specs.Prelude.{◌≡◌, []};

use crate::numbers::{NO_NUMBERS, Numbers};
use co_base::{GhostList, Memory};
use note_book::{Item, NoteBook};
use poll_states::Book;
use std::alloc::Global;
use std::marker::Model;

/// How many notes of each kind a coroutine made. Contracts see the notes, of which nothing is kept when the program runs.
#[derive(Drop)]
pub struct Tally {
    noted: GhostList<Item>,
    numbers: Numbers,
}

impl Model for Tally {
    ghost use Rattle.std.specs.Prelude.{List};
    ghost use Rattle.note_book.specs.declared.book.Item.{Item as AnItem};
    ghost use Rattle.tally_book.specs.Kept.{AreOf};

    ghost Value = { List AnItem };

    ghost view = { λ t. t.noted.items };

    ghost invariant = { λ t. AreOf t.noted.items t.numbers };
}

impl Tally {
    ghost use Rattle.tally_book.specs.Kept.{AreOf};

    /// A book with nothing in it. Takes no memory.
    pub fn new() -> Tally
        ensures { result ≡ [] }
    {
        Tally {
            noted: GhostList::new(),
            numbers: NO_NUMBERS,
        }
    }

    /// The numbers.
    pub fn numbers(&self) -> Numbers
        ensures { AreOf self.now result }
    {
        self.numbers
    }
}

impl NoteBook for Tally {
    ghost use Rattle.tally_book.specs.Kept.{spare_of};

    ghost items = { λ b. b };

    ghost spare = { λ b. spare_of b };

    fn room(&mut self, n: u32) -> Result<(), Memory> {
        if n <= u32::MAX - self.numbers.notes {
            Ok(())
        } else {
            Err(Memory)
        }
    }

    #[inline(always)]
    fn note(&mut self, item: Item) {
        self.numbers.add(&item);
        self.noted = GhostList::with(&self.noted, &item);
    }
}

impl Book for Tally {
    fn empty(_alloc: Global) -> Result<Tally, Memory> {
        Ok(Tally::new())
    }

    fn count(&self) -> u64 {
        u64::from(self.numbers.notes)
    }
}
