//! What engines ask of the books of coroutines.

ghost use Rattle.std.specs.Prelude.{◌≡◌, [], length, IfOk};

use co_base::Memory;
use note_book::{NoteBook, Notes};
use std::alloc::Global;

/// The notes of one coroutine, of which engines ask how many there are.
pub trait Book: NoteBook + Drop {
    /// A book with nothing in it.
    fn empty(alloc: Global) -> Result<Self, Memory>
        ensures { IfOk result (λ book. Self.items book ≡ []) };

    /// How many notes it has.
    fn count(&self) -> u64
        ensures { result ≡ length (Self.items self.now) };
}

impl Book for Notes {
    fn empty(alloc: Global) -> Result<Notes, Memory> {
        Ok(Notes::new(alloc))
    }

    fn count(&self) -> u64 {
        self.items().len() as u64
    }
}
