//! The notes of one coroutine, and what callers ask of a book.

ghost use Rattle.std.specs.Prelude.{◌≡◌, ℕ, ◌<◌, ◌≤◌, ◌+◌, ◌∷◌, [], ◌++◌, List, OnOk, OnErr};
ghost use Rattle.note_book.specs.declared.book.Item.{Item as AnItem};

use channel_model::ChannelNote;
use co_base::Memory;
use job_model::JobNote;

/// What a coroutine notes of one call.
#[derive(Clone, Copy)]
pub enum Item {
    Channel(ChannelNote),
    Job(JobNote),
}

/// The notes of one coroutine, in the order in which they were made.
pub trait NoteBook {
    ghost items: { Self → List AnItem };

    ghost spare: { Self → ℕ };

    /// Makes room for so many notes.
    fn room(&mut self, n: u32) -> Result<(), Memory>
        ensures items { items self.new ≡ items self.old }
        ensures stays { spare self.old ≤ spare self.new }
        ensures ok { OnOk result (n ≤ spare self.new) }
        ensures err { OnErr result (spare self.new ≡ spare self.old) };

    /// Notes one item more. Takes no memory.
    fn note(&mut self, item: Item)
        requires room { 0 < spare self.old }
        ensures items { items self.new ≡ items self.old ++ item ∷ [] }
        ensures spare { spare self.old ≡ spare self.new + 1 };
}
