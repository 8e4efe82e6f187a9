//! The lines that are drawn, each in its row.

ghost use Rattle.std.specs.Prelude.{◌≡◌, IfOk, IfSome, Some, ◌&&◌, not, OnOk, [], ◌∷◌, ◌++◌, ◌<◌, filter, length, true};
ghost use Rattle.std.specs.Option.{is_some, option_copied};
ghost use Rattle.report_reader.specs.Reading.{told, told_lines};
ghost use Rattle.report_picture.specs.Order.{StandFrom};
ghost use Rattle.report_picture.specs.Pictures.{EndsAbove, StandInColumns, StandInOrder, column_of, is_drawn, is_left_out, is_target, is_within, lines_in};

use crate::columns::Wanted;
use crate::picture::Drawn;
use crate::sheet::{NO_SEAT, Seat};
use co_base::Memory;
use gathered::at;
use picture_parts::{column_of, is_among, is_bookkeeping, row_behind};
use report_reader::{Line, Said};
use std::alloc::{AllocError, Global};

/// Whether a line is left out.
fn is_left_out(wanted: Wanted, line: &[u8]) -> bool
    ensures { result ≡ is_left_out wanted line.now }
{
    wanted.only_channels && is_bookkeeping(line)
}

/// Whether a line is drawn: it is not left out, and its coroutine has a column.
pub(crate) fn is_drawn(wanted: Wanted, tags: &[u32], line: Line) -> bool
    ensures { result ≡ is_drawn wanted tags.now (told line.entry) }
{
    column_at(wanted, tags, line).is_some()
}

/// This row, or the next below a line, if that stands in the same column and not above it.
fn row_under(last: Option<&Drawn>, column: usize, row: u32) -> Result<u32, Memory>
    ensures { IfOk result (λ row. IfSome (option_copied last.entry) (λ d. d.column ≡ column → d.row < row)) }
{
    match last {
        Some(before) => row_behind(before.column, before.row, column, row),
        None => Ok(row),
    }
}

/// This row, or the next below the last of these lines, if that stands in the same column and not above it.
fn row_below(drawn: &[Drawn], column: usize, row: u32) -> Result<u32, Memory>
    ensures { IfOk result (λ row. EndsAbove column row drawn.now) }
{
    let row = row_under(drawn.last(), column, row)?;
    Ok(row)
}

/// The target, if it has a column.
fn among(tags: &[u32], target: Option<u32>) -> Option<u32>
    ensures { is_target tags.now result ≡ true }
{
    match target {
        Some(tag) if is_among(tag, tags) => Some(tag),
        _ => None,
    }
}

/// The row of the next of these lines: as told, the one that as many lines stand above; else this one, or the next below the last line.
#[tactic(auto, using(crate::proofs::Placing::told_above))]
fn row_for(drawn: &[Drawn], as_told: bool, column: usize, row: u32) -> Result<u32, Memory>
    requires rows { as_told ≡ true → StandFrom 0 drawn.now }
    ensures above { IfOk result (λ row. EndsAbove column row drawn.now) }
    ensures rows { as_told ≡ true → IfOk result (λ row. row ≡ length drawn.now) }
{
    if !as_told {
        return row_below(drawn, column, row);
    }
    match u32::try_from(drawn.len()) {
        Ok(row) => Ok(row),
        Err(_) => Err(Memory),
    }
}

/// The column of a line, if it is drawn.
pub(crate) fn column_at(wanted: Wanted, tags: &[u32], line: Line) -> Option<usize>
    ensures is { is_some result ≡ is_drawn wanted tags.now (told line.entry) }
    ensures column { IfSome result (λ column. column_of tags.now line.entry.said ≡ Some column) }
{
    if is_left_out(wanted, line.text) {
        return None;
    }
    column_of(line.said, tags)
}

/// Adds a line, which has this seat, if it is drawn.
fn push_drawn<'a>(
    drawn: &mut Vec<Drawn<'a>>,
    wanted: Wanted,
    tags: &[u32],
    seat: Seat<'a>,
    as_told: bool,
    line: Line<'a>,
) -> Result<(), Memory>
    requires order { StandInOrder drawn.old.items }
    requires columns { StandInColumns tags.now drawn.old.items }
    requires rows { as_told ≡ true → StandFrom 0 drawn.old.items }
    ensures once { OnOk result (lines_in drawn.new.items
        ≡ lines_in drawn.old.items ++ filter (is_drawn wanted tags.now) (told line.entry ∷ [])) }
    ensures columns { OnOk result (StandInColumns tags.now drawn.new.items) }
    ensures order { OnOk result (StandInOrder drawn.new.items) }
    ensures rows { OnOk result (as_told ≡ true → StandFrom 0 drawn.new.items) }
{
    let Some(column) = column_at(wanted, tags, line) else {
        return Ok(());
    };
    let row = row_for(drawn.as_slice(), as_told, column, seat.row)?;
    drawn.push(Drawn {
        column,
        row,
        target: among(tags, seat.target),
        line,
        source: seat.title.source,
    })?;
    Ok(())
}

/// Puts the lines of the books of the coroutines that have a column in place of what was there: as told, one below another; else each in
/// the row of its seat, or, where that would not stand below the line before it in its book, in the next row.
pub(crate) fn draw_all<'a>(
    drawn: &mut Vec<Drawn<'a>>,
    wanted: Wanted,
    tags: &[u32],
    lines: &[Line<'a>],
    seats: &[Seat<'a>],
    as_told: bool,
) -> Result<(), Memory>
    ensures once { OnOk result (lines_in drawn.new.items ≡ filter (is_drawn wanted tags.now) (told_lines lines.now)) }
    ensures columns { OnOk result (StandInColumns tags.now drawn.new.items) }
    ensures order { OnOk result (StandInOrder drawn.new.items) }
    ensures rows { OnOk result (as_told ≡ true → StandFrom 0 drawn.new.items) }
{
    drawn.clear();
    let mut rest = lines;
    let mut number = 0usize;
    while let [line, more @ ..] = rest {
        let seat = at(seats, number, NO_SEAT);
        push_drawn(drawn, wanted, tags, seat, as_told, *line)?;
        number = number.saturating_add(1);
        rest = more;
    }
    Ok(())
}

/// Whether a row is between those asked for.
pub(crate) fn is_within(wanted: Wanted, drawn: &Drawn) -> bool
    ensures { result ≡ is_within wanted drawn.now }
{
    u64::from(wanted.from) <= u64::from(drawn.row) + 1
        && (drawn.row < wanted.to || wanted.to == u32::MAX)
}

/// Adds a line, if its row is between those asked for.
fn push_within<'a>(
    part: &mut Vec<Drawn<'a>>,
    wanted: Wanted,
    drawn: &Drawn<'a>,
) -> Result<(), AllocError>
    ensures { OnOk result (part.new.items ≡ part.old.items ++ filter (is_within wanted) (drawn.now ∷ [])) }
{
    if is_within(wanted, drawn) {
        part.push(*drawn)?;
    }
    Ok(())
}

/// Adds the lines in the rows that are asked for.
#[tactic(auto, using(crate::proofs::Placing::part_more))]
pub(crate) fn add_part<'a>(
    part: &mut Vec<Drawn<'a>>,
    wanted: Wanted,
    drawn: &[Drawn<'a>],
) -> Result<(), AllocError>
    ensures { OnOk result (part.new.items ≡ part.old.items ++ filter (is_within wanted) drawn.now) }
{
    let mut rest = drawn;
    while let [line, more @ ..] = rest {
        push_within(part, wanted, line)?;
        rest = more;
    }
    Ok(())
}
