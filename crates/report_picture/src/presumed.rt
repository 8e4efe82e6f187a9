//! Where the lines stand that the lines of a picture presuppose.

use crate::keyed::Numbers;
use crate::notes::{Fact, LINKS, NO_LINKS, Note, Of};
use crate::sheet::{NO_SEAT, Seat};
use crate::sources::{Sources, Standing};
use crate::told::BookLines;
use gathered::{Gathered, NOWHERE, at};
use std::alloc::{AllocError, Global};

/// Where a line stands: in the picture, if it is drawn.
fn standing_at(seats: &[Seat], number: usize) -> Standing {
    let seat = at(seats, number, NO_SEAT);
    if seat.column == NOWHERE {
        Standing::InReport(number)
    } else {
        Standing::InPicture(seat.place)
    }
}

/// The line that resolved the wait of this line, if it placed or withdrew one and one did.
fn resolved_by<'a>(told: &BookLines<'a>, number: usize) -> usize {
    let (_, way, _, _) = at(&LINKS, told.note(number).verb, NO_LINKS);
    told.find(way, number)
}

/// The row of that line; the last there is, if there is none.
fn resolved_row<'a>(told: &BookLines<'a>, seats: &[Seat], number: usize) -> u32 {
    at(seats, resolved_by(told, number), NO_SEAT).row
}

/// Tells of each wait the line that placed or withdrew it and was resolved: of several the one for which that stands topmost.
fn add_resolved<'a>(resolved: &mut Numbers<'a>, told: &BookLines<'a>, seats: &[Seat]) {
    for (number, note) in told.notes.as_slice().iter().enumerate() {
        let key = note.key(Fact::Nothing, Of::Wait);
        let known = resolved.at(key);
        if resolved_row(told, seats, number) < resolved_row(told, seats, known) {
            resolved.put(key, number);
        }
    }
}

/// What a line of a book presupposes, by where the lines of the books stand, and the line that placed the wait that it settles.
fn sources_of<'a>(
    told: &BookLines<'a>,
    note: &Note<'a>,
    seats: &[Seat],
    placing: usize,
) -> Sources {
    Sources {
        attach: standing_at(seats, told.said(Fact::Attaches, Of::Own, note)),
        bring: standing_at(seats, told.said(Fact::Brings, Of::Subject, note)),
        placing,
        resolve: standing_at(seats, resolved_by(told, placing)),
        cancel: standing_at(seats, told.said(Fact::Cancels, Of::Subject, note)),
    }
}

/// Where the lines stand that the lines of a picture presuppose, by where the lines of the books stand.
pub(crate) fn sources_in<'a>(
    alloc: Global,
    told: &BookLines<'a>,
    seats: &[Seat],
) -> Result<Vec<Sources>, AllocError> {
    let mut resolved = Numbers::new(alloc);
    add_resolved(&mut resolved, told, seats);
    let mut sources = Gathered::new(alloc);
    for (number, note) in told.notes.as_slice().iter().enumerate() {
        if at(seats, number, NO_SEAT).column != NOWHERE {
            let placing = resolved.at(note.key(Fact::Nothing, Of::Wait));
            sources.add(sources_of(told, note, seats, placing));
        }
    }
    sources.full = sources.full | resolved.full;
    sources.whole()
}
