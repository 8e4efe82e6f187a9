//! The lines of a picture, arranged.

ghost use Rattle.std.specs.Prelude.{◌≡◌, IfOk, OnOk, filter, false, true};
ghost use Rattle.report_reader.specs.Reading.{told_lines};
ghost use Rattle.report_picture.specs.Order.{AreOrdered, StandBelow, StandFrom};
ghost use Rattle.report_picture.specs.Pictures.{StandInColumns, StandInOrder, is_drawn, lines_in};

use crate::arrows::Channels;
use crate::columns::Wanted;
use crate::order::caused_order;
use crate::picture::Drawn;
use crate::placed::draw_all;
use crate::presumed::sources_in;
use crate::sheet::{Seat, give_rows};
use crate::sources::all_stand_below;
use crate::told::BookLines;
use co_base::Memory;
use gathered::Gathered;
use picture_parts::Names;
use report_reader::Line;
use std::alloc::{AllocError, Global};

/// The lines of the books from the top down, those that are drawn, and whether each of these stands below what it presupposes.
#[derive(Drop)]
pub(crate) struct Arranged<'a> {
    /// Where each line is drawn: its row is how many lines that are drawn stand above it.
    pub(crate) seats: Gathered<Seat<'a>>,
    /// The numbers of the lines of the books from the top down; none, if they are in the order of the report.
    pub(crate) numbers: Vec<usize>,
    /// The row behind the last.
    pub(crate) end: u32,
    pub(crate) drawn: Vec<Drawn<'a>>,
    pub(crate) in_order: bool,
}

/// The lines of a report, what those of the books say, what is asked for, and the coroutines that have a column.
#[derive(Clone, Copy)]
pub(crate) struct Books<'s, 'a> {
    pub(crate) lines: &'s [Line<'a>],
    pub(crate) told: &'s BookLines<'a>,
    /// The channels whose elements have arrows, and the arrows.
    pub(crate) channels: &'s Channels<'a>,
    pub(crate) wanted: Wanted,
    pub(crate) tags: &'s [u32],
    /// What a script says.
    pub(crate) names: Names<'a>,
}

/// Whether each of these lines is found to stand below what it presupposes. Those in the order of the report are not looked at.
fn is_allowed<'a>(
    alloc: Global,
    books: Books<'_, 'a>,
    seats: &[Seat<'a>],
    as_told: bool,
    drawn: &[Drawn<'a>],
) -> Result<bool, AllocError>
    ensures told { IfOk result (λ is. as_told ≡ true → is ≡ false) }
    ensures allowed { IfOk result (λ is. is ≡ true
        → StandBelow books.entry.wanted books.entry.tags.now (told_lines books.entry.lines.now) drawn.now) }
{
    if as_told {
        return Ok(false);
    }
    let sources = sources_in(alloc, books.told, seats)?;
    let found = all_stand_below(
        books.wanted,
        books.tags,
        books.lines,
        drawn,
        sources.as_slice(),
    );
    Ok(found)
}

/// Arranges the lines in the order of the numbers, and tells whether each is found to stand below what it presupposes; or in the order of
/// the report, where there are no numbers.
fn arrange_in<'a>(
    alloc: Global,
    arranged: &mut Arranged<'a>,
    books: Books<'_, 'a>,
    as_told: bool,
) -> Result<(), Memory>
    ensures once { OnOk result (lines_in arranged.new.drawn.items
        ≡ filter (is_drawn books.entry.wanted books.entry.tags.now) (told_lines books.entry.lines.now)) }
    ensures columns { OnOk result (StandInColumns books.entry.tags.now arranged.new.drawn.items) }
    ensures order { OnOk result (StandInOrder arranged.new.drawn.items) }
    ensures told { OnOk result (as_told ≡ true → (arranged.new.in_order ≡ false) × StandFrom 0 arranged.new.drawn.items) }
    ensures allowed { OnOk result (arranged.new.in_order ≡ true
        → StandBelow books.entry.wanted books.entry.tags.now (told_lines books.entry.lines.now) arranged.new.drawn.items) }
{
    arranged.end = give_rows(arranged.seats.as_mut(), arranged.numbers.as_slice());
    let seats = arranged.seats.as_slice();
    draw_all(
        &mut arranged.drawn,
        books.wanted,
        books.tags,
        books.lines,
        seats,
        as_told,
    )?;
    let drawn = arranged.drawn.as_slice();
    arranged.in_order = is_allowed(alloc, books, seats, as_told, drawn)?;
    Ok(())
}

/// Arranges the lines, each below what it presupposes; where no order does, in the order of the report.
pub(crate) fn arrange<'a>(
    alloc: Global,
    arranged: &mut Arranged<'a>,
    books: Books<'_, 'a>,
) -> Result<(), Memory>
    ensures once { OnOk result (lines_in arranged.new.drawn.items
        ≡ filter (is_drawn books.entry.wanted books.entry.tags.now) (told_lines books.entry.lines.now)) }
    ensures columns { OnOk result (StandInColumns books.entry.tags.now arranged.new.drawn.items) }
    ensures order { OnOk result (StandInOrder arranged.new.drawn.items) }
    ensures ordered { OnOk result (AreOrdered arranged.new.in_order books.entry.wanted books.entry.tags.now
        (told_lines books.entry.lines.now) arranged.new.drawn.items) }
{
    arranged.numbers = caused_order(alloc, books.told)?;
    let as_told = arranged.numbers.len() != books.told.notes.len();
    arrange_in(alloc, arranged, books, as_told)?;
    if as_told | arranged.in_order {
        return Ok(());
    }
    arranged.numbers.clear();
    arrange_in(alloc, arranged, books, true)?;
    Ok(())
}
