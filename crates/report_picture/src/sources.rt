//! Whether each line stands below what it presupposes.

ghost use Rattle.std.specs.Prelude.{◌≡◌, option_map, slice_get};
ghost use Rattle.report_reader.specs.Reading.{told, told_lines};
ghost use Rattle.report_picture.specs.Order.{above_row, agree, agree_on_place, all_stand_below, attaches, brings, cancels, is_resolving, line_above, outside, places, resolves, stands_below, text_or};

use crate::columns::Wanted;
use crate::picture::Drawn;
use crate::placed::is_drawn;
use picture_parts::{tells, word};
use report_reader::Line;

/// Where a line stands.
#[derive(Clone, Copy)]
pub enum Standing {
    /// Its number among the lines of the picture.
    InPicture(usize),
    /// Its number among the lines of the report.
    InReport(usize),
}

/// Where the lines stand that a line presupposes, for each kind that it does presuppose.
#[derive(Clone, Copy)]
pub struct Sources {
    /// The `attach` of its coroutine.
    pub attach: Standing,
    /// What brought the element that it gets.
    pub bring: Standing,
    /// What placed the wait that it settles, by its number among the lines of the report.
    pub placing: usize,
    /// What resolved that wait.
    pub resolve: Standing,
    /// The `cancel` that it saw.
    pub cancel: Standing,
}

// ---- what two lines share

fn agree(m: usize, line: &[u8], n: usize, other: &[u8]) -> bool
    ensures { result ≡ agree m line.now n other.now }
{
    word(m, line) == word(n, other)
}

fn agree_on_place(line: &[u8], other: &[u8]) -> bool
    ensures { result ≡ agree_on_place line.now other.now }
{
    agree(2, line, 2, other) && agree(3, line, 3, other)
}

// ---- what a line presupposes

fn attaches(above: &[u8], line: &[u8]) -> bool
    ensures { result ≡ attaches above.now line.now }
{
    word(0, line) == b"0".as_slice() || (tells(b"attach", above) && agree(2, above, 0, line))
}

fn brings(above: &[u8], line: &[u8]) -> bool
    ensures { result ≡ brings above.now line.now }
{
    !(tells(b"take", line)
        || (tells(b"drop", line) || (tells(b"spurn", line) || tells(b"drain", line))))
        || ((tells(b"put", above) || tells(b"offer", above)) && agree_on_place(above, line))
}

fn places(placing: &[u8], line: &[u8]) -> bool
    ensures { result ≡ places placing.now line.now }
{
    (tells(b"offer", placing) && agree(5, placing, 2, line))
        || (tells(b"await", placing) && agree(4, placing, 2, line))
}

fn is_resolving(line: &[u8]) -> bool
    ensures { result ≡ is_resolving line.now }
{
    tells(b"hand", line)
        || (tells(b"take", line)
            || (tells(b"admit", line) || (tells(b"drain", line) || tells(b"wakeclosed", line))))
}

fn resolves(placing: &[u8], above: &[u8], line: &[u8]) -> bool
    ensures { result ≡ resolves placing.now above.now line.now }
{
    !tells(b"settle", line)
        || ((tells(b"withdraw", above) && agree(2, above, 2, line))
            || (is_resolving(above) && (agree_on_place(above, placing) && places(placing, line))))
}

fn cancels(above: &[u8], line: &[u8]) -> bool
    ensures { result ≡ cancels above.now line.now }
{
    !tells(b"saw", line)
        || ((tells(b"cancel", above)
            || (tells(b"attach", above) && word(8, above) == b"cancelled".as_slice()))
            && agree(2, above, 2, line))
}

// ---- where it stands

fn line_at<'a>(lines: &[Line<'a>], number: usize) -> Option<Line<'a>>
    ensures { option_map told result ≡ slice_get (told_lines lines.now) number }
{
    lines.get(number).copied()
}

fn text_at<'a>(lines: &[Line<'a>], number: usize) -> &'a [u8]
    ensures { result.now ≡ text_or (slice_get (told_lines lines.now) number) }
{
    match line_at(lines, number) {
        Some(line) => line.text,
        None => b"",
    }
}

fn above_row<'a>(row: u32, drawn: &[Drawn<'a>], number: usize) -> &'a [u8]
    ensures { result.now ≡ above_row row (slice_get drawn.now number) }
{
    match drawn.get(number) {
        Some(drawn) if drawn.row < row => drawn.line.text,
        _ => b"",
    }
}

fn outside<'a>(wanted: Wanted, tags: &[u32], lines: &[Line<'a>], number: usize) -> &'a [u8]
    ensures { result.now ≡ outside wanted tags.now (slice_get (told_lines lines.now) number) }
{
    match line_at(lines, number) {
        Some(line) if !is_drawn(wanted, tags, line) => line.text,
        _ => b"",
    }
}

/// The line at a place, if it is drawn above this row or not drawn; else an empty one.
fn line_above<'a>(
    wanted: Wanted,
    tags: &[u32],
    lines: &[Line<'a>],
    drawn: &[Drawn<'a>],
    row: u32,
    place: Standing,
) -> &'a [u8]
    ensures { result.now ≡ line_above wanted tags.now (told_lines lines.now) drawn.now row place }
{
    match place {
        Standing::InPicture(number) => above_row(row, drawn, number),
        Standing::InReport(number) => outside(wanted, tags, lines, number),
    }
}

fn stands_below<'a>(
    wanted: Wanted,
    tags: &[u32],
    lines: &[Line<'a>],
    drawn: &[Drawn<'a>],
    line: Drawn<'a>,
    sources: Sources,
) -> bool
    ensures { result ≡ stands_below wanted tags.now (told_lines lines.now) drawn.now line.entry sources }
{
    let text = line.line.text;
    let attach = line_above(wanted, tags, lines, drawn, line.row, sources.attach);
    let bring = line_above(wanted, tags, lines, drawn, line.row, sources.bring);
    let placing = text_at(lines, sources.placing);
    let resolve = line_above(wanted, tags, lines, drawn, line.row, sources.resolve);
    let cancel = line_above(wanted, tags, lines, drawn, line.row, sources.cancel);
    attaches(attach, text)
        && (brings(bring, text) && (resolves(placing, resolve, text) && cancels(cancel, text)))
}

/// Whether each line of the picture stands below what it presupposes, which stands where its sources say.
pub(crate) fn all_stand_below<'a>(
    wanted: Wanted,
    tags: &[u32],
    lines: &[Line<'a>],
    drawn: &[Drawn<'a>],
    sources: &[Sources],
) -> bool
    ensures { result ≡ all_stand_below wanted tags.now (told_lines lines.now) drawn.now drawn.now sources.now }
{
    let mut rest = drawn;
    let mut places = sources;
    while let [line, more @ ..] = rest {
        let [place, others @ ..] = places else {
            return false;
        };
        if !stands_below(wanted, tags, lines, drawn, *line, *place) {
            return false;
        }
        rest = more;
        places = others;
    }
    true
}
