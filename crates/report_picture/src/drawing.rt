//! The picture of a report.

ghost use Rattle.std.specs.Prelude.{◌≡◌, [], IfOk, OnOk, filter, map};
ghost use Rattle.report_reader.specs.Reading.{told, told_lines};
ghost use Rattle.report_picture.specs.Pictures.{StandBeside, all_have_columns, is_element, is_within, tags_of};
ghost use Rattle.report_picture.specs.Shown.{Shows};

use crate::arranged::{Arranged, Books, arrange};
use crate::arrows::channels_of;
use crate::columns::{Wanted, all_have_columns, tags_of};
use crate::fates::{End, add_crosses, add_lost, ends_of};
use crate::frame::{LEGEND, add_feet, add_legend, height_of, top_of};
use crate::lanes::{Laid, add_lanes, add_ways, laid_in};
use crate::layout::{BAR, Room, add_columns, label_of, row_y, widen};
use crate::lives::{add_lives, add_waits};
use crate::looks::Look;
use crate::marks::{Marks, untitled};
use crate::picture::{Drawn, Lost, Mark, Picture};
use crate::placed::{add_part, is_within};
use crate::sheet::{Sheet, seats_of};
use crate::told::{BookLines, told_in};
use co_base::Memory;
use gathered::Gathered;
use picture_parts::{Names, heading};
use report_reader::Line;
use std::alloc::{AllocError, Global};

/// A picture, and whether each of its lines stands below what it presupposes; else they stand in the order of the report.
#[derive(Drop)]
pub struct Drawing<'a> {
    pub picture: Picture<'a>,
    pub in_order: bool,
    /// Each coroutine that was asked for and has a line has a column.
    pub all: bool,
}

/// The picture of a report: a column for each coroutine asked for that has a line in its book, the first 64 of them. The lines are in an
/// order that both histories allow, if one was found. The names are those of a script that the report is one of.
pub fn draw<'a>(
    alloc: Global,
    wanted: Wanted,
    names: Names<'a>,
    lines: &[Line<'a>],
) -> Result<Drawing<'a>, Memory>
    ensures shown { IfOk result (λ drawing. Shows drawing.in_order wanted (told_lines lines.now) drawing.picture) }
    ensures names { IfOk result (λ drawing. drawing.picture.names.now ≡ names.entry.blocks.now) }
    ensures all { IfOk result (λ drawing.
        drawing.all ≡ all_have_columns wanted (tags_of wanted (told_lines lines.now)) (told_lines lines.now)) }
{
    match tags_of(alloc, wanted, lines) {
        Ok(tags) => draw_columns(alloc, wanted, names, lines, tags.as_slice()),
        Err(_) => Err(Memory),
    }
}

/// The picture of the coroutines with these tags, which have a column.
fn draw_columns<'a>(
    alloc: Global,
    wanted: Wanted,
    names: Names<'a>,
    lines: &[Line<'a>],
    tags: &[u32],
) -> Result<Drawing<'a>, Memory>
    requires tags { tags.now ≡ tags_of wanted (told_lines lines.now) }
    ensures shown { IfOk result (λ drawing. Shows drawing.in_order wanted (told_lines lines.now) drawing.picture) }
    ensures names { IfOk result (λ drawing. drawing.picture.names.now ≡ names.entry.blocks.now) }
    ensures all { IfOk result (λ drawing. drawing.all ≡ all_have_columns wanted tags.now (told_lines lines.now)) }
{
    let told = told_in(alloc, lines);
    let channels = channels_of(alloc, &told);
    let books = Books {
        lines,
        told: &told,
        channels: &channels,
        wanted,
        tags,
        names,
    };
    let mut arranged = Arranged {
        seats: seats_of(alloc, &books),
        numbers: Vec::new(alloc),
        end: 0,
        drawn: Vec::new(alloc),
        in_order: false,
    };
    draw_arranged(alloc, &mut arranged, books)
}

/// The picture of these lines, which it arranges.
fn draw_arranged<'a>(
    alloc: Global,
    arranged: &mut Arranged<'a>,
    books: Books<'_, 'a>,
) -> Result<Drawing<'a>, Memory>
    requires tags { books.tags.now ≡ tags_of books.wanted (told_lines books.lines.now) }
    ensures shown { IfOk result (λ drawing.
        Shows drawing.in_order books.entry.wanted (told_lines books.entry.lines.now) drawing.picture) }
    ensures names { IfOk result (λ drawing. drawing.picture.names.now ≡ books.entry.names.blocks.now) }
    ensures all { IfOk result (λ drawing.
        drawing.all ≡ all_have_columns books.entry.wanted books.entry.tags.now (told_lines books.entry.lines.now)) }
{
    let mut picture = Picture {
        width: 0,
        height: 0,
        top: top_of(books.channels.names.len()),
        first: 0,
        names: books.names.blocks,
        columns: Vec::new(alloc),
        marks: Vec::new(alloc),
        lost: Vec::new(alloc),
        lines: Vec::new(alloc),
    };
    match depict(alloc, &mut picture, arranged, books) {
        Ok(()) => Ok(Drawing {
            picture,
            in_order: arranged.in_order,
            all: all_have_columns(books.wanted, books.tags, books.lines),
        }),
        Err(fault) => Err(fault),
    }
}

/// Arranges the lines, and makes an empty picture one of them.
fn depict<'a>(
    alloc: Global,
    picture: &mut Picture<'a>,
    arranged: &mut Arranged<'a>,
    books: Books<'_, 'a>,
) -> Result<(), Memory>
    requires tags { books.tags.now ≡ tags_of books.wanted (told_lines books.lines.now) }
    requires lines { picture.old.lines.items ≡ [] }
    requires columns { picture.old.columns.items ≡ [] }
    requires lost { picture.old.lost.items ≡ [] }
    ensures names { OnOk result (picture.new.names.now ≡ picture.old.names.now) }
    ensures shown { OnOk result (Shows arranged.new.in_order books.entry.wanted (told_lines books.entry.lines.now) picture.new) }
{
    arrange(alloc, arranged, books)?;
    fill(alloc, picture, &books, arranged)?;
    Ok(())
}

/// What a picture is made of besides its lines: the ends of its elements, its arrows, and what its columns take.
#[derive(Drop)]
struct Plan {
    ends: Gathered<End>,
    laid: Gathered<Laid>,
    rooms: Gathered<Room>,
}

/// Makes an empty picture one of these lines, as they are arranged: in the rows that are asked for, below the legend.
fn fill<'a>(
    alloc: Global,
    picture: &mut Picture<'a>,
    books: &Books<'_, 'a>,
    arranged: &Arranged<'a>,
) -> Result<(), Memory>
    requires lines { picture.old.lines.items ≡ [] }
    requires columns { picture.old.columns.items ≡ [] }
    requires lost { picture.old.lost.items ≡ [] }
    ensures names { OnOk result (picture.new.names.now ≡ picture.old.names.now) }
    ensures part { OnOk result (picture.new.lines.items ≡ filter (is_within books.now.wanted) arranged.now.drawn.items) }
    ensures tags { OnOk result (map (λ c. c.tag) picture.new.columns.items ≡ books.now.tags.now) }
    ensures beside { OnOk result (StandBeside 0 picture.new.columns.items) }
    ensures fates { OnOk result (map (λ e. told e.line) picture.new.lost.items ≡ filter is_element (told_lines books.now.lines.now)) }
{
    let first = books.wanted.from.saturating_sub(1).min(arranged.end);
    let sheet = Sheet {
        seats: arranged.seats.as_slice(),
        tags: books.tags,
        columns: &[],
        first,
        until: arranged.end.min(books.wanted.to).max(first),
        top: picture.top,
    };
    let plan = plan_of(alloc, books, &sheet, arranged.drawn.as_slice());
    picture.first = first;
    add_all(alloc, picture, books, arranged, &sheet, &plan)
}

/// Of each column the room that its head takes.
fn heads_of(alloc: Global, names: &[Vec<u8>], tags: &[u32]) -> Gathered<Room> {
    let mut rooms = Gathered::new(alloc);
    for tag in tags {
        match heading(alloc, names, *tag) {
            Ok(head) => rooms.add(Room {
                lanes: 0,
                bytes: head.len().max(14),
            }),
            Err(_) => rooms.full = true,
        }
    }
    rooms
}

/// Makes room for the texts of the lines in the rows that are asked for, and for the labels of the elements that ended at them.
fn add_texts(rooms: &mut Vec<Room>, wanted: Wanted, drawn: &[Drawn], ends: &[End]) {
    for d in drawn {
        if is_within(wanted, d) {
            widen(rooms, d.column, label_of(d.line.text).len());
        }
    }
    for end in ends {
        widen(rooms, end.column, end.bytes);
    }
}

/// The plan of a picture of these lines.
fn plan_of<'a>(
    alloc: Global,
    books: &Books<'_, 'a>,
    sheet: &Sheet<'_, 'a>,
    drawn: &[Drawn<'a>],
) -> Plan {
    let ends = ends_of(alloc, books.told, sheet, books.lines);
    let mut rooms = heads_of(alloc, books.names.blocks, books.tags);
    add_texts(rooms.as_mut(), books.wanted, drawn, ends.as_slice());
    let laid = laid_in(alloc, sheet, books.channels.arrows.as_slice());
    add_lanes(rooms.as_mut(), laid.as_slice());
    Plan { ends, laid, rooms }
}

/// Adds the lines, the columns, the ends of elements and the marks to an empty picture.
fn add_all<'a>(
    alloc: Global,
    picture: &mut Picture<'a>,
    books: &Books<'_, 'a>,
    arranged: &Arranged<'a>,
    sheet: &Sheet<'_, 'a>,
    plan: &Plan,
) -> Result<(), Memory>
    requires lines { picture.old.lines.items ≡ [] }
    requires columns { picture.old.columns.items ≡ [] }
    requires lost { picture.old.lost.items ≡ [] }
    ensures names { OnOk result (picture.new.names.now ≡ picture.old.names.now) }
    ensures part { OnOk result (picture.new.lines.items ≡ filter (is_within books.now.wanted) arranged.now.drawn.items) }
    ensures tags { OnOk result (map (λ c. c.tag) picture.new.columns.items ≡ books.now.tags.now) }
    ensures beside { OnOk result (StandBeside 0 picture.new.columns.items) }
    ensures fates { OnOk result (map (λ e. told e.line) picture.new.lost.items ≡ filter is_element (told_lines books.now.lines.now)) }
{
    add_part(&mut picture.lines, books.wanted, arranged.drawn.as_slice())?;
    let rooms = plan.rooms.as_slice();
    let right = add_columns(&mut picture.columns, books.tags, rooms)?;
    picture.width = right.max(LEGEND);
    picture.height = height_of(sheet, books.lines);
    let ends = plan.ends.as_slice();
    add_lost(
        &mut picture.lost,
        picture.columns.as_slice(),
        ends,
        books.lines,
    )?;
    picture.marks = marks_of(alloc, books, arranged, sheet, picture, plan)?;
    Ok(())
}

/// What is drawn before the lines of a picture, and below them, if memory held all that it is made of.
fn marks_of<'a>(
    alloc: Global,
    books: &Books<'_, 'a>,
    arranged: &Arranged<'a>,
    sheet: &Sheet<'_, 'a>,
    picture: &Picture<'a>,
    plan: &Plan,
) -> Result<Vec<Mark<'a>>, AllocError> {
    let is_missing = books.told.notes.full | books.channels.arrows.full | arranged.seats.full;
    if is_missing | plan.ends.full | plan.laid.full | plan.rooms.full {
        return Err(AllocError);
    }
    let sheet = Sheet {
        columns: picture.columns.as_slice(),
        ..*sheet
    };
    draw_marks(
        alloc,
        &sheet,
        (picture.width, picture.height),
        books.channels.names.as_slice(),
        books.told,
        arranged.numbers.as_slice(),
        picture.lines.as_slice(),
        plan.laid.as_slice(),
        picture.lost.as_slice(),
        books.lines,
    )
}

/// The marks of a picture of this size: its legend, and on the sheet the lives and the waits of what is told, in this order, the lines
/// that are drawn, the arrows, the ends of elements and the feet of the columns.
fn draw_marks<'a>(
    alloc: Global,
    sheet: &Sheet<'_, 'a>,
    size: (u64, u64),
    channels: &[&'a [u8]],
    told: &BookLines<'a>,
    order: &[usize],
    drawn: &[Drawn<'a>],
    laid: &[Laid],
    lost: &[Lost<'a>],
    lines: &[Line<'a>],
) -> Result<Vec<Mark<'a>>, AllocError> {
    let mut marks = Marks::new(alloc);
    marks.add_box((0, 0), size, Look::Paper, untitled());
    add_legend(&mut marks, channels);
    add_lives(alloc, &mut marks, sheet, told, order);
    add_waits(alloc, &mut marks, sheet, told);
    add_ticks(&mut marks, sheet, drawn);
    add_ways(&mut marks, sheet, laid);
    add_crosses(&mut marks, lost);
    add_feet(&mut marks, sheet, told, lines);
    marks.whole()
}

/// Where each line stands in the life of its coroutine.
fn add_ticks<'a>(marks: &mut Marks<'a>, sheet: &Sheet<'_, 'a>, lines: &[Drawn<'a>]) {
    for d in lines {
        let row = d.row.saturating_sub(sheet.first);
        let y = row_y(sheet.top, row).saturating_sub(1);
        let place = (sheet.left_of(d.column), y);
        marks.add_box(place, (BAR, 2), Look::Tick, untitled());
    }
}
