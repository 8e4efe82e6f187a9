//! What the lines of the books say, and which of them says what of a place, a wait, a channel and a row.

use crate::keyed::Numbers;
use crate::notes::{FIRSTS, Fact, NO_NOTE, NO_SAYING, NOTHING, Note, Of, SAYINGS, Way, note_of};
use gathered::{Gathered, NOWHERE, at};
use report_reader::{Line, Said, words_of};
use std::alloc::Global;

/// The first of two lines that is there.
pub(crate) fn first_of(one: usize, other: usize) -> usize {
    if one == NOWHERE { other } else { one }
}

/// The lines of the books, each by its number; there is none with that of nowhere. Whether memory held all is asked of the notes.
#[derive(Drop)]
pub(crate) struct BookLines<'a> {
    pub(crate) notes: Gathered<Note<'a>>,
    lines: Numbers<'a>,
}

impl<'a> BookLines<'a> {
    pub(crate) fn note(&self, number: usize) -> Note<'a> {
        at(self.notes.as_slice(), number, NO_NOTE)
    }

    /// The line that says this of the same as a line.
    pub(crate) fn said(&self, fact: Fact, of: Of, note: &Note<'a>) -> usize {
        self.lines.at(note.key(fact, of))
    }

    /// The line to which a way leads first from a line.
    fn first(&self, way: Way, number: usize) -> usize {
        let (fact, of, or, or_else) = at(&FIRSTS, way as usize, NOTHING);
        let note = self.note(number);
        let found = self.said(fact, of, &note);
        if found != NOWHERE || matches!(or, Fact::Nothing) {
            return found;
        }
        first_of(self.said(or, of, &note), self.said(or_else, of, &note))
    }

    /// The line to which a way leads from a line, if it does.
    pub(crate) fn find(&self, way: Way, number: usize) -> usize {
        match way {
            Way::Here => number,
            Way::Nowhere => NOWHERE,
            Way::GoneOn => self.first(Way::Settled, self.first(way, number)),
            Way::ParentCancelled => self.first(Way::OtherCancelled, self.first(way, number)),
            Way::ParentFinished => self.first(Way::OtherFinished, self.first(way, number)),
            _ => self.first(way, number),
        }
    }
}

/// Takes the lines apart that stand in books.
fn add_notes<'a>(alloc: Global, notes: &mut Gathered<Note<'a>>, lines: &[Line<'a>]) {
    let mut words = Vec::new(alloc);
    for line in lines {
        if let Said::Note(tag) = line.said {
            notes.full = notes.full | words_of(&mut words, line.text).is_err();
            notes.add(note_of(tag, line.text, words.as_slice()));
        }
    }
}

/// Tells what a line says of its coroutine, and what else it says.
fn see<'a>(lines: &mut Numbers<'a>, number: usize, note: &Note<'a>) {
    let first = note.key(Fact::First, Of::Own);
    let known = lines.at(first);
    lines.put(first, first_of(known, number));
    lines.put(note.key(Fact::Last, Of::Own), number);
    let (fact, of, _, _) = at(&SAYINGS, note.verb, NO_SAYING);
    lines.put(note.key(fact, of), number);
    if note.cancelled {
        lines.put(note.key(Fact::Cancels, Of::Subject), number);
    }
}

/// What the lines of the books say.
pub(crate) fn told_in<'a>(alloc: Global, lines: &[Line<'a>]) -> BookLines<'a> {
    let mut notes = Gathered::new(alloc);
    add_notes(alloc, &mut notes, lines);
    let mut told = Numbers::new(alloc);
    for (number, note) in notes.as_slice().iter().enumerate() {
        see(&mut told, number, note);
    }
    notes.full = notes.full | told.full;
    BookLines { notes, lines: told }
}
