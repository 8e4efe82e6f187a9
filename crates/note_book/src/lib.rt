//! What one coroutine notes of its calls, on channels and on Jobs, in one list: a book in which notes stand in the order in which they
//! were made. Room is made before a call, so that what the call did can be noted without memory.
//!
//! - `book`: the notes, and what callers ask of a book
//! - `notes`: a book as a vector
#![tactic(auto)]

mod book;
mod notes;

pub use book::{Item, NoteBook};
pub use notes::Notes;
