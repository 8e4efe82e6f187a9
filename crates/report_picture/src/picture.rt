//! A picture: columns, the lines that stand in them, and marks.

use crate::looks::Look;
use report_reader::Line;

/// The column of a coroutine.
#[derive(Clone, Copy)]
pub struct Column {
    /// The coroutine's tag, which is the row of its Job too.
    pub tag: u32,
    /// Where the bar of its life begins from the left.
    pub left: u64,
    /// Where the texts of its lines begin from the left.
    pub text: u64,
}

/// A line of a book where it stands.
#[derive(Clone, Copy)]
pub struct Drawn<'a> {
    /// The number of its column.
    pub column: usize,
    /// The row, counted from the top.
    pub row: u32,
    /// The other coroutine that the line concerns, if that has a column.
    pub target: Option<u32>,
    pub line: Line<'a>,
    /// The line of the script that it comes from; empty where that is not known.
    pub source: &'a [u8],
}

/// What a reader is shown that points at a mark: a line of the report, and the line of the script that it comes from. Both are empty
/// where nothing is shown, and the second where it is not known.
#[derive(Clone, Copy)]
pub struct Title<'a> {
    pub line: &'a [u8],
    pub source: &'a [u8],
}

/// A way through the picture.
#[derive(Clone, Copy)]
pub enum Route {
    /// Straight down.
    Down {
        x: u64,
        from: u64,
        to: u64,
    },
    /// An arrow: from below a line across to a lane, down the lane, and across to the bar of another line.
    Bent {
        x: u64,
        level: u64,
        lane: u64,
        to_y: u64,
        to_x: u64,
    },
    /// A cross.
    Cross {
        x: u64,
        y: u64,
    },
}

/// A place in the picture.
#[derive(Clone, Copy)]
pub struct Spot {
    pub x: u64,
    pub y: u64,
}

/// The end of an element that was not received.
#[derive(Clone, Copy)]
pub struct Lost<'a> {
    /// Where its label is, if its end is in the picture.
    pub at: Option<Spot>,
    /// The line of the report that tells what became of it.
    pub line: Line<'a>,
}

/// A mark.
#[derive(Drop)]
pub enum Mark<'a> {
    Box {
        x: u64,
        y: u64,
        width: u64,
        height: u64,
        look: Look,
        title: Title<'a>,
    },
    Path {
        way: Route,
        look: Look,
        title: Title<'a>,
    },
    Text {
        x: u64,
        y: u64,
        look: Look,
        text: Vec<u8>,
        title: Title<'a>,
    },
}

/// A picture of a report.
#[derive(Drop)]
pub struct Picture<'a> {
    pub width: u64,
    pub height: u64,
    /// Where the heads of the columns begin from the top.
    pub top: u32,
    /// The row that is drawn first.
    pub first: u32,
    /// Of each coroutine, in the order of the tags, the name of its block, if there is a script.
    pub names: &'a [Vec<u8>],
    pub columns: Vec<Column>,
    /// What is drawn before the lines, and below them.
    pub marks: Vec<Mark<'a>>,
    /// The elements that were not received.
    pub lost: Vec<Lost<'a>>,
    pub lines: Vec<Drawn<'a>>,
}
