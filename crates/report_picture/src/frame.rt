//! What is round the lives: the legend, and the feet of the columns.

use crate::arrows::shade_of;
use crate::layout::{BAR, label_of};
use crate::lives::hangs;
use crate::looks::{Look, State};
use crate::marks::{Marks, shown, untitled};
use crate::picture::Route;
use crate::sheet::Sheet;
use crate::told::BookLines;
use gathered::NOWHERE;
use report_reader::{Line, Said};

/// How wide an entry of the legend is, and how many there are in a row.
const ENTRY: u64 = 190;

const ENTRIES: usize = 4;

/// How wide the legend is.
pub(crate) const LEGEND: u64 = 20 + 4 * ENTRY;

/// How many entries every legend has.
const FIRST: usize = 12;

const LEGEND_ENTRIES: [(Look, &[u8]); FIRST] = [
    (Look::Life(State::New), b"new"),
    (Look::Life(State::Active), b"active"),
    (Look::Life(State::Completing), b"completing"),
    (Look::Life(State::Cancelling), b"cancelling"),
    (Look::Life(State::Completed), b"completed"),
    (Look::Life(State::Cancelled), b"cancelled"),
    (Look::Life(State::Failed), b"failed"),
    (Look::Past, b"after its end"),
    (Look::Wait, b"waits"),
    (Look::Lost, b"not received"),
    (Look::Cancels, b"a cancel"),
    (Look::Joins, b"what brought it about"),
];

/// Where the heads begin below the legend, with so many channels.
pub(crate) fn top_of(channels: usize) -> u32 {
    let rows = (channels.saturating_add(FIRST + ENTRIES - 1)) / ENTRIES;
    let rows = u32::try_from(rows).unwrap_or(u32::MAX);
    rows.saturating_mul(24).saturating_add(32)
}

/// The legend: how each state, a wait and the arrows look.
pub(crate) fn add_legend<'a>(marks: &mut Marks<'a>, channels: &[&'a [u8]]) {
    for (number, (look, name)) in LEGEND_ENTRIES.iter().enumerate() {
        add_entry(marks, number, *look, (*name, b""));
    }
    for (number, name) in channels.iter().enumerate() {
        let place = number.saturating_add(FIRST);
        let look = Look::Brings(shade_of(number));
        add_entry(marks, place, look, (b"channel ", *name));
    }
}

/// An entry, by its number among all: a bar, a thin one, or a way, and a text.
fn add_entry<'a>(marks: &mut Marks<'a>, number: usize, look: Look, texts: (&[u8], &[u8])) {
    let column = (number % ENTRIES) as u64;
    let row = (number / ENTRIES) as u64;
    let x = column.saturating_mul(ENTRY).saturating_add(20);
    let y = row.saturating_mul(24).saturating_add(24);
    let width = match look {
        Look::Life(_) => BAR,
        Look::Past => 2,
        _ => 0,
    };
    if width == 0 {
        marks.add_path(sample_way(x, y, look), look, untitled());
    } else {
        let left = x.saturating_add((BAR - width) / 2);
        let place = (left, y.saturating_sub(12));
        marks.add_box(place, (width, 16), look, untitled());
    }
    let place = (x.saturating_add(BAR + 8), y);
    marks.add_text(place, Look::Label, texts, untitled());
}

/// An arrow to the right, a cross, or a stretch down.
fn sample_way(x: u64, y: u64, look: Look) -> Route {
    let middle = y.saturating_sub(4);
    let center = x.saturating_add(BAR / 2);
    match look {
        Look::Brings(_) | Look::Cancels | Look::Joins => Route::Bent {
            x: x.saturating_sub(14),
            level: middle,
            lane: x,
            to_y: middle,
            to_x: x.saturating_add(BAR + 2),
        },
        Look::Lost => Route::Cross {
            x: center,
            y: middle,
        },
        _ => Route::Down {
            x: center,
            from: y.saturating_sub(12),
            to: y.saturating_add(4),
        },
    }
}

/// Where what is below the Job of this line is, if that has no column here; where it is else.
fn below_job(sheet: &Sheet, said: Said, y: u64) -> u64 {
    match said {
        Said::Job(row) if sheet.column(row) == NOWHERE => y.saturating_add(17),
        _ => y,
    }
}

/// Where the picture ends of a report of these lines: below the Jobs without a column.
pub(crate) fn height_of(sheet: &Sheet, lines: &[Line]) -> u64 {
    let mut y = sheet.bottom().saturating_add(40);
    for line in lines {
        y = below_job(sheet, line.said, y);
    }
    y
}

/// A text below the columns, in two parts.
#[derive(Clone, Copy)]
struct Foot<'a> {
    place: (u64, u64),
    look: Look,
    said: &'a [u8],
    behind: &'a [u8],
}

/// What is told of a Job: at the foot of its column how it ended, or how far it is, and that its coroutine waits, if it does; of a Job
/// without a column the whole line, here.
fn foot_of<'a>(
    sheet: &Sheet<'_, 'a>,
    told: &BookLines<'a>,
    row: u32,
    line: &'a [u8],
    y: u64,
) -> Foot<'a> {
    let column = sheet.column(row);
    if column == NOWHERE {
        return Foot {
            place: (36, y),
            look: Look::Label,
            said: line,
            behind: b"",
        };
    }
    let (look, behind) = if hangs(told, row) {
        (Look::Hangs, b", waits".as_slice())
    } else {
        (Look::Foot, b"".as_slice())
    };
    Foot {
        place: (sheet.left_of(column), sheet.bottom().saturating_add(16)),
        look,
        said: label_of(label_of(line)),
        behind,
    }
}

/// The feet of the columns: how each Job ended, or how far it is. The Jobs without a column are below.
pub(crate) fn add_feet<'a>(
    marks: &mut Marks<'a>,
    sheet: &Sheet<'_, 'a>,
    told: &BookLines<'a>,
    lines: &[Line<'a>],
) {
    let mut y = sheet.bottom().saturating_add(40);
    for line in lines {
        if let Said::Job(row) = line.said {
            let foot = foot_of(sheet, told, row, line.text, y);
            let texts = (foot.said, foot.behind);
            marks.add_text(foot.place, foot.look, texts, shown(line.text));
        }
        y = below_job(sheet, line.said, y);
    }
}
