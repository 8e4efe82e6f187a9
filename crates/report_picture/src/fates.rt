//! The ends of the elements that were not received.

ghost use Rattle.std.specs.Prelude.{◌≡◌, ◌++◌, ◌∷◌, [], IfOk, OnOk, filter, map};
ghost use Rattle.report_reader.specs.Reading.{told, told_lines};
ghost use Rattle.report_picture.specs.Pictures.{is_element};

use crate::layout::{INDENT, label_of, text_width};
use crate::looks::Look;
use crate::marks::{Marks, shown};
use crate::notes::{Fact, NO_NOTE, Note, Of};
use crate::picture::{Column, Lost, Route, Spot};
use crate::sheet::{NO_COLUMN, Sheet};
use crate::told::{BookLines, first_of};
use gathered::{Gathered, NOWHERE, at};
use picture_parts::word;
use report_reader::{Line, Said};
use std::alloc::{AllocError, Global};

/// Where the element of a line of the report ended, if it is one of an element: behind the text of a line that is in the picture.
#[derive(Clone, Copy)]
pub(crate) struct End {
    /// The column of that line; that of nowhere, if it is not in the picture.
    pub(crate) column: usize,
    /// Where the middle of its row is.
    y: u64,
    /// How many bytes its text has, and with that of the element.
    before: usize,
    pub(crate) bytes: usize,
}

const NO_END: End = End {
    column: NOWHERE,
    y: 0,
    before: 0,
    bytes: 0,
};

/// The line of the books at which the element ended whose line this is.
fn end_of<'a>(told: &BookLines<'a>, line: &'a [u8]) -> usize {
    let note = Note {
        channel: word(1, line),
        place: word(2, line),
        ..NO_NOTE
    };
    let gives_up = told.said(Fact::GivesUp, Of::Subject, &note);
    let waiting = told.note(told.said(Fact::Awaits, Of::Subject, &note));
    let settled = told.said(Fact::Settles, Of::Wait, &waiting);
    let brings = told.said(Fact::Brings, Of::Subject, &note);
    first_of(gives_up, first_of(settled, brings))
}

/// The end of the element of a line.
fn end_in<'a>(told: &BookLines<'a>, sheet: &Sheet<'_, 'a>, line: Line<'a>) -> End {
    if !matches!(line.said, Said::Element) {
        return NO_END;
    }
    let number = end_of(told, line.text);
    let seat = sheet.seat(number);
    let before = label_of(seat.title.line).len();
    End {
        column: if sheet.is_seen(number) {
            seat.column
        } else {
            NOWHERE
        },
        y: sheet.y(number),
        before,
        bytes: before.saturating_add(line.text.len()),
    }
}

/// The ends of the elements of these lines.
pub(crate) fn ends_of<'a>(
    alloc: Global,
    told: &BookLines<'a>,
    sheet: &Sheet<'_, 'a>,
    lines: &[Line<'a>],
) -> Gathered<End> {
    let mut ends = Gathered::new(alloc);
    for line in lines {
        ends.add(end_in(told, sheet, *line));
    }
    ends
}

/// Where the label of an element is that ended here, if that is in the picture.
fn spot_of(columns: &[Column], end: End) -> Option<Spot> {
    let text = at(columns, end.column, NO_COLUMN).text;
    let width = text_width(end.before);
    let spot = Spot {
        x: text.saturating_add(width).saturating_add(INDENT),
        y: end.y.saturating_add(4),
    };
    if end.column == NOWHERE {
        None
    } else {
        Some(spot)
    }
}

/// Adds the end of the element of a line, if it is one of an element, whose label is here.
fn push_lost<'a>(
    lost: &mut Vec<Lost<'a>>,
    at: Option<Spot>,
    line: Line<'a>,
) -> Result<(), AllocError>
    ensures { OnOk result (map (λ e. told e.line) lost.new.items
        ≡ map (λ e. told e.line) lost.old.items ++ filter is_element (told line.entry ∷ [])) }
{
    match line.said {
        Said::Element => {
            lost.push(Lost { at, line })?;
            Ok(())
        }
        Said::Note(_) | Said::Job(_) => Ok(()),
    }
}

/// Adds the ends of the elements of these lines that were not received.
pub(crate) fn add_lost<'a>(
    lost: &mut Vec<Lost<'a>>,
    columns: &[Column],
    ends: &[End],
    lines: &[Line<'a>],
) -> Result<(), AllocError>
    ensures { OnOk result (map (λ e. told e.line) lost.new.items
        ≡ map (λ e. told e.line) lost.old.items ++ filter is_element (told_lines lines.now)) }
{
    let mut rest = lines;
    let mut i = 0usize;
    while let [line, more @ ..] = rest {
        push_lost(lost, spot_of(columns, at(ends, i, NO_END)), *line)?;
        i = i.saturating_add(1);
        rest = more;
    }
    Ok(())
}

/// A cross before the label of each end that is in the picture.
pub(crate) fn add_crosses<'a>(marks: &mut Marks<'a>, lost: &[Lost<'a>]) {
    for one in lost {
        if let Some(spot) = one.at {
            let way = Route::Cross {
                x: spot.x.saturating_sub(8),
                y: spot.y.saturating_sub(4),
            };
            marks.add_path(way, Look::Lost, shown(one.line.text));
        }
    }
}
