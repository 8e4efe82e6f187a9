//! A line of a history.

use co_base::Tag;
use note_book::Item;

/// What the coroutine with this tag noted.
#[derive(Clone, Copy)]
pub struct Line {
    pub who: Tag,
    pub item: Item,
}
