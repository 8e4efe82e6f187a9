//! Which line stands below which other.

use crate::notes::{CAUSES, Note};
use crate::told::BookLines;
use gathered::{Gathered, NOWHERE};
use std::alloc::Global;

/// That one line stands below another, by their numbers among the lines of the books.
#[derive(Clone, Copy)]
pub(crate) struct Precedence {
    pub(crate) above: usize,
    pub(crate) below: usize,
}

/// Adds that the one line stands above the other, if both are there; an `attach` that cancels is one line.
fn add(causes: &mut Gathered<Precedence>, above: usize, below: usize) {
    if (above != NOWHERE) & (below != NOWHERE) & (above != below) {
        causes.add(Precedence { above, below });
    }
}

/// What a line tells of lines that stand above others, and that it stands below the one before it, if both stand in the same book; the
/// first has none.
fn add_of<'a>(
    causes: &mut Gathered<Precedence>,
    told: &BookLines<'a>,
    here: usize,
    note: &Note<'a>,
) {
    for (verb, above, below) in CAUSES.iter() {
        if *verb as usize == note.verb {
            add(causes, told.find(*above, here), told.find(*below, here));
        }
    }
    let before = here.saturating_sub(1);
    if told.note(before).tag == note.tag {
        add(causes, before, here);
    }
}

/// Which lines of the books stand below which others: an element below what brought it, a settle below what resolved its wait, `saw`
/// below the `cancel`, `finish` below the children's `gone`, a first line below the `attach`, and each line below the one before it in
/// its book.
pub(crate) fn causes_of<'a>(alloc: Global, told: &BookLines<'a>) -> Gathered<Precedence> {
    let mut causes = Gathered::new(alloc);
    for (here, note) in told.notes.as_slice().iter().enumerate() {
        add_of(&mut causes, told, here, note);
    }
    causes
}
