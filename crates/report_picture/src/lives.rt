//! The lives of the coroutines, and their waits.

use crate::jobs::{Stretch, Wait, jobs_of, waits_in};
use crate::layout::{BAR, HALF};
use crate::looks::Look;
use crate::marks::Marks;
use crate::notes::{Fact, NO_NOTE, Note, Of};
use crate::picture::{Route, Title};
use crate::sheet::Sheet;
use crate::told::BookLines;
use gathered::NOWHERE;
use std::alloc::Global;

/// How high the end of a life is.
const END: u64 = 6;

/// A bar in a column; one that is not drawn has no height.
#[derive(Clone, Copy)]
struct Bar<'a> {
    place: (u64, u64),
    width: u64,
    height: u64,
    look: Look,
    title: Title<'a>,
}

/// The bar of a stretch in a column, so far from its left and so wide: from where it begins, if that is higher than its end.
fn bar_of<'a>(
    sheet: &Sheet<'_, 'a>,
    one: &Stretch,
    column: usize,
    sides: (u64, u64),
    until: u64,
    look: Look,
) -> Bar<'a> {
    let from = sheet.y(one.since);
    let (left, width) = sides;
    let until = if column == NOWHERE { 0 } else { until };
    Bar {
        place: (sheet.left_of(column).saturating_add(left), from),
        width,
        height: until.saturating_sub(from),
        look,
        title: sheet.seat(one.since).title,
    }
}

/// The bars of a stretch of a life; of one that ended what its coroutine did then, and a short one.
fn bars_of<'a>(sheet: &Sheet<'_, 'a>, one: &Stretch) -> (Bar<'a>, Bar<'a>) {
    let column = sheet.column(one.row);
    let life = Look::Life(one.state);
    let (sides, until, end, look) = if one.is_over() {
        let last = sheet.y(one.last).saturating_add(HALF);
        let end = sheet.y(one.since).saturating_add(END);
        let end = if sheet.is_seen(one.since) { end } else { 0 };
        ((BAR / 2 - 1, 2), last.min(sheet.bottom()), end, Look::Past)
    } else {
        ((0, BAR), sheet.y(one.until), 0, life)
    };
    let lower = bar_of(sheet, one, column, sides, until, look);
    let upper = bar_of(sheet, one, column, (0, BAR), end, life);
    (lower, upper)
}

/// The bars of a stretch, if it is of the Job of a scope: a thin one in that of its coroutine. One that has ended and does not change has
/// none.
fn thin_bars_of<'a>(sheet: &Sheet<'_, 'a>, one: &Stretch) -> (Bar<'a>, Bar<'a>) {
    let column = sheet.column(one.tag);
    let is_drawn = one.is_scope & !one.is_over();
    let until = if is_drawn { sheet.y(one.until) } else { 0 };
    let lower = bar_of(sheet, one, column, (2, 6), until, Look::Paper);
    let upper = bar_of(sheet, one, column, (3, 4), until, Look::Life(one.state));
    (lower, upper)
}

fn add_bar<'a>(marks: &mut Marks<'a>, bar: Bar<'a>) {
    if bar.height > 0 {
        marks.add_box(bar.place, (bar.width, bar.height), bar.look, bar.title);
    }
}

/// Adds these stretches of lives, or those of the Jobs of scopes among them.
fn add_stretches<'a>(
    marks: &mut Marks<'a>,
    sheet: &Sheet<'_, 'a>,
    stretches: &[Stretch],
    of_scopes: bool,
) {
    for one in stretches {
        let (lower, upper) = if of_scopes {
            thin_bars_of(sheet, one)
        } else {
            bars_of(sheet, one)
        };
        add_bar(marks, lower);
        add_bar(marks, upper);
    }
}

/// The lives, each in stretches of one state of its Job, and on them the Jobs of scopes, those within others behind them.
pub(crate) fn add_lives<'a>(
    alloc: Global,
    marks: &mut Marks<'a>,
    sheet: &Sheet<'_, 'a>,
    told: &BookLines<'a>,
    order: &[usize],
) {
    let mut jobs = jobs_of(alloc, told, order);
    let last = jobs.last_of(alloc, sheet.tags);
    add_stretches(marks, sheet, jobs.stretches.as_slice(), false);
    add_stretches(marks, sheet, last.as_slice(), false);
    jobs.end();
    let stretches = jobs.stretches.as_mut();
    let sorted = stretches.sort_by_key(|one| (one.attach, one.since));
    add_stretches(marks, sheet, jobs.stretches.as_slice(), true);
    marks.miss(last.full | jobs.stretches.full | sorted.is_err());
}

/// Adds a wait, if its coroutine has a column.
fn add_wait<'a>(marks: &mut Marks<'a>, sheet: &Sheet<'_, 'a>, wait: &Wait<'a>) {
    let column = sheet.column(wait.tag);
    let from = sheet.y(wait.from);
    let to = sheet.y(wait.to);
    if column != NOWHERE && from < to {
        let x = sheet.left_of(column).saturating_add(BAR / 2);
        let way = Route::Down { x, from, to };
        marks.add_path(way, Look::Wait, sheet.seat(wait.from).title);
    }
}

/// The waits, each from the line that began it to its settle.
pub(crate) fn add_waits<'a>(
    alloc: Global,
    marks: &mut Marks<'a>,
    sheet: &Sheet<'_, 'a>,
    told: &BookLines<'a>,
) {
    let waits = waits_in(alloc, told);
    for wait in waits.as_slice() {
        add_wait(marks, sheet, wait);
    }
    marks.miss(waits.full);
}

/// Whether the coroutine with this tag waits, and nothing ended its wait.
pub(crate) fn hangs<'a>(told: &BookLines<'a>, tag: u32) -> bool {
    let own = Note { tag, ..NO_NOTE };
    let last = told.note(told.said(Fact::Last, Of::Own, &own));
    last.waits() && told.said(Fact::Settles, Of::Wait, &last) == NOWHERE
}
