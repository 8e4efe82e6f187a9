//! Where rows, columns and texts stand.

ghost use Rattle.std.specs.Prelude.{◌≡◌, ◌≤◌, ◌<◌, ◌+◌, ◌++◌, ◌∷◌, [], IfOk, OnOk, map};
ghost use Rattle.report_picture.specs.Elements.{label_of, rest_of, row_y};
ghost use Rattle.report_picture.specs.Pictures.{StandBeside, last_text};

use crate::picture::Column;
use co_base::Memory;
use gathered::{at, put};
use report_reader::cut_at;

/// How wide the bar of a life is.
pub(crate) const BAR: u64 = 10;

/// How far left of a bar there is room without arrows.
const MARGIN: u64 = 16;

/// How far apart the lanes of arrows are.
pub(crate) const LANE: u64 = 5;

/// How far right of the left end of a bar the texts of its lines begin.
pub(crate) const INDENT: u64 = 16;

/// How far below the middle of a row arrows go across.
pub(crate) const LEVEL: u64 = 7;

/// Half of the height of a row.
pub(crate) const HALF: u64 = 8;

/// Where the middle of a row is from the top, by where the heads begin.
pub(crate) fn row_y(top: u32, row: u32) -> u64
    ensures { result ≡ row_y top row }
{
    u64::from(top) + 40 + 17 * u64::from(row)
}

/// How far left of a bar there is room, with so many lanes.
fn room_of(lanes: u32) -> u64
    ensures { 0 < result }
{
    u64::from(lanes) * LANE + MARGIN
}

/// How wide a text of so many bytes is, about.
pub(crate) fn text_width(bytes: usize) -> u64 {
    (bytes as u64).saturating_mul(7)
}

fn rest_of(rest: Option<&[u8]>) -> &[u8]
    ensures { result.now ≡ rest_of rest.entry }
{
    match rest {
        Some(rest) => rest,
        None => b"",
    }
}

/// What stands behind the first word of a line.
#[tactic(auto, using(crate::proofs::Labels::labelled))]
pub(crate) fn label_of(text: &[u8]) -> &[u8]
    ensures { result.now ≡ label_of text.now }
{
    let (_word, rest) = cut_at(b' ', text);
    rest_of(rest)
}

/// Further to the right; a picture that is too wide is none that memory holds.
fn further(x: u64, by: u64) -> Result<u64, Memory>
    ensures { IfOk result (λ further. further ≡ x + by) }
{
    match x.checked_add(by) {
        Some(further) => Ok(further),
        None => Err(Memory),
    }
}

/// What a column takes: so many lanes, and texts of so many bytes.
#[derive(Clone, Copy)]
pub(crate) struct Room {
    pub(crate) lanes: u32,
    pub(crate) bytes: usize,
}

pub(crate) const NO_ROOM: Room = Room { lanes: 0, bytes: 0 };

/// Makes room in a column for a text of so many bytes.
pub(crate) fn widen(rooms: &mut Vec<Room>, column: usize, bytes: usize) {
    let room = at(rooms.as_slice(), column, NO_ROOM);
    let bytes = room.bytes.max(bytes);
    put(rooms, column, Room { bytes, ..room });
}

/// Adds the column of a coroutine to the right of the others, and answers where its texts begin.
fn push_column(columns: &mut Vec<Column>, tag: u32, lanes: u32, edge: u64) -> Result<u64, Memory>
    requires beside { StandBeside 0 columns.old.items }
    requires edge { last_text 0 columns.old.items ≤ edge }
    ensures tags { OnOk result (map (λ c. c.tag) columns.new.items ≡ map (λ c. c.tag) columns.old.items ++ tag ∷ []) }
    ensures beside { OnOk result (StandBeside 0 columns.new.items) }
    ensures last { IfOk result (λ text. text ≡ last_text 0 columns.new.items) }
{
    let left = further(edge, room_of(lanes))?;
    let text = further(left, INDENT)?;
    columns.push(Column { tag, left, text })?;
    Ok(text)
}

/// Adds the columns of these coroutines, from left to right, and answers where the texts of the last end.
pub(crate) fn add_columns(
    columns: &mut Vec<Column>,
    tags: &[u32],
    rooms: &[Room],
) -> Result<u64, Memory>
    requires { columns.old.items ≡ [] }
    ensures tags { OnOk result (map (λ c. c.tag) columns.new.items ≡ tags.now) }
    ensures beside { OnOk result (StandBeside 0 columns.new.items) }
{
    let mut edge = 0u64;
    let mut rest = tags;
    let mut i = 0usize;
    while let [tag, more @ ..] = rest {
        let room = at(rooms, i, NO_ROOM);
        let text = push_column(columns, *tag, room.lanes, edge)?;
        edge = further(text, text_width(room.bytes))?;
        i = i.saturating_add(1);
        rest = more;
    }
    Ok(edge)
}
