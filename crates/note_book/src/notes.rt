//! A book as a vector.

ghost use Rattle.std.specs.Prelude.{◌≡◌, []};
ghost use Rattle.note_book.specs.Books.{notes_of, spare_of};

use crate::book::{Item, NoteBook};
use co_base::Memory;
use std::alloc::Global;

/// What a coroutine noted of its calls.
#[derive(Drop)]
pub struct Notes {
    pub(crate) items: Vec<Item>,
}

impl Notes {
    /// A book with nothing in it.
    pub fn new(alloc: Global) -> Notes
        ensures { notes_of result ≡ [] }
    {
        Notes {
            items: Vec::new(alloc),
        }
    }

    /// What was noted.
    pub fn items(&self) -> &[Item]
        ensures { result.now ≡ notes_of self.now }
    {
        self.items.as_slice()
    }
}

impl NoteBook for Notes {
    ghost items = { λ b. notes_of b };

    ghost spare = { λ b. spare_of b };

    fn room(&mut self, n: u32) -> Result<(), Memory> {
        self.items.reserve(n as usize)?;
        Ok(())
    }

    fn note(&mut self, item: Item) {
        self.items.push_reserved(item);
    }
}
