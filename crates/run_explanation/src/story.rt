//! What is known of a run, for hints.

use crate::notes::{NO_ROW, Note, is_in, words_in};
use crate::source::{Source, SourceLine};
use crate::verbs::{ATTACH, SETTLE, WITHDRAW};
use crate::walk::{closing, code_in, is_clause, line_at, walk_of};
use gathered::{Gathered, NOWHERE, at, between};
use report_reader::{Line, Said};
use script_reader::{Instruction, Script};
use std::alloc::{AllocError, Global};

/// What hints are made of.
#[derive(Drop)]
pub(crate) struct Story<'a> {
    pub(crate) script: &'a Script,
    source: Source<'a>,
    notes: Gathered<Note<'a>>,
    rows: Gathered<Row>,
}

/// What is known of a row: of its Job, and of the coroutine that runs as it.
#[derive(Clone, Copy)]
pub(crate) struct Row {
    /// Its Job has ended, or was never attached.
    pub(crate) ended: bool,
    /// Its Job has a line, and has not ended.
    pub(crate) open: bool,
    /// The row above it; or `NO_ROW`.
    parent: u32,
    /// The number of the coroutine's first note, and that behind its last.
    pub(crate) first: usize,
    pub(crate) end: usize,
    /// The number of the last note that begins a wait.
    pub(crate) wait: usize,
    /// That wait has not been settled.
    pub(crate) waits: bool,
    /// The first line that the coroutine may still run.
    pub(crate) left_from: usize,
}

/// What is known of a row of which nothing was told.
const UNTOLD: Row = Row {
    ended: false,
    open: false,
    parent: NO_ROW,
    first: 0,
    end: 0,
    wait: NOWHERE,
    waits: false,
    left_from: 0,
};

/// So a Job has ended.
const ENDED: [&[u8]; 3] = [b"completed", b"cancelled", b"failed"];

impl Row {
    /// The next note of its coroutine, of this number.
    fn take(&mut self, note: &Note<'_>, number: usize) {
        let begins = note.begins();
        if self.end == 0 {
            self.first = number;
        }
        if begins {
            self.wait = number;
        }
        self.waits = begins | (self.waits & !note.is_one_of(SETTLE | WITHDRAW));
        self.end = number.saturating_add(1);
        self.left_from = note.left_from;
    }

    /// Whether its Job is below this row, and has not ended.
    pub(crate) fn is_open_below(self, parent: u32) -> bool {
        self.open & (self.parent == parent)
    }
}

/// Adds this many rows of which nothing was told.
fn add_rows(rows: &mut Gathered<Row>, count: u16) {
    for _row in 0..count {
        rows.add(UNTOLD);
    }
}

/// Tells the rows of a note.
fn tell_note(rows: &mut Vec<Row>, note: &Note<'_>, number: usize) {
    let tag = note.tag as usize;
    if tag < rows.len() {
        rows[tag].take(note, number);
    }
    let row = note.row(2) as usize;
    if note.is_one_of(ATTACH) && row < rows.len() {
        rows[row].parent = note.row(4);
    }
}

/// Tells the rows of all notes.
fn tell_notes(rows: &mut Vec<Row>, notes: &[Note<'_>]) {
    for (number, note) in notes.iter().enumerate() {
        tell_note(rows, note, number);
    }
}

/// Tells a row of the line of its Job.
fn tell_job(rows: &mut Vec<Row>, row: usize, line: &[u8]) {
    let ended = is_in(words_in(line)[2], &ENDED);
    if row < rows.len() {
        rows[row].ended = ended;
        rows[row].open = !ended;
    }
}

/// Tells the rows of the lines of the Jobs.
fn tell_jobs(rows: &mut Vec<Row>, lines: &[Line<'_>]) {
    for line in lines {
        if let Said::Job(row) = line.said {
            tell_job(rows, row as usize, line.text);
        }
    }
}

/// Adds the lines of the books; whether memory ran out as their coroutines were walked.
fn add_notes<'a>(
    alloc: Global,
    notes: &mut Gathered<Note<'a>>,
    script: &Script,
    lines: &[Line<'a>],
) -> bool {
    let mut walk = walk_of(alloc, script);
    for line in lines {
        if let Said::Note(tag) = line.said {
            notes.add(walk.note(tag, line.text));
        }
    }
    walk.is_full()
}

impl<'a> Story<'a> {
    /// That of a script of whose run nothing was told.
    pub(crate) fn new(alloc: Global, script: &'a Script) -> Story<'a> {
        Story {
            script,
            source: Source::new(alloc),
            notes: Gathered::new(alloc),
            rows: Gathered::new(alloc),
        }
    }

    /// Adds the lines of the script's text, and what the lines of a report say.
    pub(crate) fn read(
        &mut self,
        alloc: Global,
        source: &'a [u8],
        lines: &[Line<'a>],
    ) -> Result<(), AllocError> {
        self.source.read(source);
        let full = add_notes(alloc, &mut self.notes, self.script, lines);
        add_rows(&mut self.rows, self.script.jobs());
        tell_notes(self.rows.as_mut(), self.notes.as_slice());
        tell_jobs(self.rows.as_mut(), lines);
        if full | self.source.is_full() | self.notes.full | self.rows.full {
            Err(AllocError)
        } else {
            Ok(())
        }
    }

    /// What is known of a row.
    pub(crate) fn row(&self, row: u32) -> Row {
        at(self.rows.as_slice(), row as usize, UNTOLD)
    }

    /// The lines of the books.
    pub(crate) fn notes(&self) -> &[Note<'a>] {
        self.notes.as_slice()
    }

    /// The lines of the book of a coroutine.
    pub(crate) fn notes_of(&self, tag: u32) -> &[Note<'a>] {
        let row = self.row(tag);
        between(self.notes.as_slice(), row.first, row.end)
    }

    /// The note of this number.
    pub(crate) fn note(&self, number: usize) -> Option<&Note<'a>> {
        self.notes.as_slice().get(number)
    }

    /// The line of the script at which a note was made.
    pub(crate) fn source_of(&self, note: &Note<'a>) -> SourceLine<'a> {
        self.source.line(note.block, note.made_at)
    }

    /// The line of the script at which a coroutine waits by this note: that of a select where it waits by a clause.
    pub(crate) fn wait_line(&self, note: &Note<'a>) -> SourceLine<'a> {
        let code = code_in(self.script, note.block);
        self.source
            .line(note.block, select_around(code, note.made_at))
    }

    /// The first line of the scope at whose end this note was made.
    pub(crate) fn scope_line(&self, note: &Note<'a>) -> SourceLine<'a> {
        let code = code_in(self.script, note.block);
        self.source
            .line(note.block, scope_before(code, note.made_at))
    }
}

/// The scope that is closed by the `end` at this place.
fn scope_before(code: &[Instruction], end: usize) -> usize {
    for (i, line) in code.iter().enumerate() {
        if i < end && matches!(*line, Instruction::Scope { .. }) && closing(code, i) == end {
            return i;
        }
    }
    NOWHERE
}

/// The select of which the line at this place is a clause; else that place.
fn select_around(code: &[Instruction], place: usize) -> usize {
    if !is_clause(line_at(code, place)) {
        return place;
    }
    let mut select = place;
    for (i, line) in between(code, 0, place).iter().enumerate() {
        if matches!(*line, Instruction::Select) {
            select = i;
        }
    }
    select
}
