//! Where the lines of the books are drawn.

use crate::arranged::Books;
use crate::layout::{HALF, row_y};
use crate::picture::{Column, Title};
use crate::placed::column_at;
use crate::targets::target_at;
use gathered::{Gathered, NOWHERE, at};
use picture_parts::column_of;
use report_reader::{Line, Said};
use std::alloc::Global;

/// A line of the books where it is drawn.
#[derive(Clone, Copy)]
pub(crate) struct Seat<'a> {
    /// Its row; of one that is not drawn that of the next line below.
    pub(crate) row: u32,
    /// The number of its column; that of nowhere, if it is not drawn.
    pub(crate) column: usize,
    /// How many lines before it are drawn.
    pub(crate) place: usize,
    /// The other coroutine that it concerns.
    pub(crate) target: Option<u32>,
    /// What a reader is shown of it.
    pub(crate) title: Title<'a>,
}

/// That of no line.
pub(crate) const NO_SEAT: Seat<'static> = Seat {
    row: u32::MAX,
    column: NOWHERE,
    place: 0,
    target: None,
    title: Title {
        line: b"",
        source: b"",
    },
};

/// The lines of the books where they are drawn, each by its number, the columns, and what of them is in the picture.
#[derive(Clone, Copy)]
pub(crate) struct Sheet<'s, 'a> {
    pub(crate) seats: &'s [Seat<'a>],
    /// The coroutines that have a column.
    pub(crate) tags: &'s [u32],
    pub(crate) columns: &'s [Column],
    /// The row that is drawn first, and the one behind the last that is drawn.
    pub(crate) first: u32,
    pub(crate) until: u32,
    /// Where the heads begin from the top.
    pub(crate) top: u32,
}

/// The column of no coroutine.
pub(crate) const NO_COLUMN: Column = Column {
    tag: 0,
    left: 0,
    text: 0,
};

/// Where the line of the books with this number is drawn, before it has a row, behind so many others.
fn seat_of<'a>(books: &Books<'_, 'a>, number: usize, place: usize) -> Seat<'a> {
    let note = books.told.note(number);
    let line = Line {
        said: Said::Note(note.tag),
        text: note.text,
    };
    Seat {
        row: 0,
        column: column_at(books.wanted, books.tags, line).unwrap_or(NOWHERE),
        place,
        target: target_at(books.told, number),
        title: Title {
            line: note.text,
            source: books.names.source_at(number),
        },
    }
}

/// Where the lines of the books are drawn, before they have rows.
pub(crate) fn seats_of<'a>(alloc: Global, books: &Books<'_, 'a>) -> Gathered<Seat<'a>> {
    let mut seats = Gathered::new(alloc);
    let mut place = 0usize;
    for number in 0..books.told.notes.len() {
        let seat = seat_of(books, number, place);
        seats.add(seat);
        place = place.saturating_add(usize::from(seat.column != NOWHERE));
    }
    seats
}

/// Gives each line its row, in the order of these numbers and else in that of the report, and answers the row behind the last.
pub(crate) fn give_rows<'a>(seats: &mut Vec<Seat<'a>>, order: &[usize]) -> u32 {
    let mut row = 0u32;
    for place in 0..seats.len() {
        let number = at(order, place, place);
        if number < seats.len() {
            seats[number].row = row;
            row = row.saturating_add(u32::from(seats[number].column != NOWHERE));
        }
    }
    row
}

impl<'s, 'a> Sheet<'s, 'a> {
    /// The number of a coroutine's column; that of nowhere, if it has none.
    pub(crate) fn column(&self, tag: u32) -> usize {
        column_of(Said::Note(tag), self.tags).unwrap_or(NOWHERE)
    }

    /// Where the bar of a column begins from the left.
    pub(crate) fn left_of(&self, column: usize) -> u64 {
        at(self.columns, column, NO_COLUMN).left
    }

    /// Where a line is drawn; one that is not there has the row behind the last, no column and no title.
    pub(crate) fn seat(&self, number: usize) -> Seat<'a> {
        let none = Seat {
            row: self.until,
            ..NO_SEAT
        };
        at(self.seats, number, none)
    }

    /// Whether the row of a line is drawn.
    pub(crate) fn is_seen(&self, number: usize) -> bool {
        let row = self.seat(number).row;
        self.first <= row && row < self.until
    }

    /// Where the row behind the last has its middle.
    pub(crate) fn bottom(&self) -> u64 {
        row_y(self.top, self.until.saturating_sub(self.first))
    }

    /// Where the middle of a line's row is from the top; the edge of the rows, if its row is not drawn.
    pub(crate) fn y(&self, number: usize) -> u64 {
        let row = self.seat(number).row;
        if row < self.first {
            row_y(self.top, 0).saturating_sub(HALF)
        } else {
            row_y(self.top, row.min(self.until).saturating_sub(self.first))
        }
    }
}
