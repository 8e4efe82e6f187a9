//! Whom a line of a book concerns.

use crate::notes::{Fact, LINKS, NO_LINKS};
use crate::told::BookLines;
use gathered::{NOWHERE, at};

/// The coroutine that a line concerns, if it concerns another than its own: the receiver of what is handed, the sender that is admitted,
/// whom it wakes, attaches, starts or cancels, and the parent that it tells.
pub(crate) fn target_at<'a>(told: &BookLines<'a>, here: usize) -> Option<u32> {
    let note = told.note(here);
    let (_, _, way, of) = at(&LINKS, note.verb, NO_LINKS);
    let number = told.find(way, here);
    let (_, target, _, _) = told.note(number).key(Fact::Nothing, of);
    if number == NOWHERE || target == note.tag {
        None
    } else {
        Some(target)
    }
}
