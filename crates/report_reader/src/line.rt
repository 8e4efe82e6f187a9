//! A line of a report.

/// What a line of a report is.
#[derive(Clone, Copy, Debug, PartialEq, Eq)]
pub enum Said {
    /// It stands in the book of the coroutine with this tag.
    Note(u32),
    /// It says how the Job of this row ended, or how far it is.
    Job(u32),
    /// It says what became of an element that nobody received.
    Element,
}

/// Which lines may follow.
#[derive(Clone, Copy, Debug, PartialEq, Eq)]
pub(crate) enum Section {
    /// Lines of books from this tag on, or the line of the root's Job.
    Books(u32),
    /// Lines of Jobs behind this row, or lines of elements.
    Jobs(u32),
    /// Lines of elements.
    Elements,
}

/// A line, with what it is.
#[derive(Clone, Copy, Debug)]
pub struct Line<'a> {
    pub said: Said,
    pub text: &'a [u8],
}

/// Why a text gives no report.
#[derive(Clone, Copy, Debug, PartialEq, Eq)]
pub enum NoReport {
    /// The number of the first line that is no line of a report.
    AtLine(u32),
    /// No memory was found.
    Memory,
}
