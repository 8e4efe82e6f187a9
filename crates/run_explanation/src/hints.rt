//! What an entry says behind its heading, of which nothing is promised.

use crate::entries::name_of_tag;
use crate::notes::{NO_ROW, Note, is_in, words_in};
use crate::partners::{Awaited, awaited_by, find_circle, find_partners};
use crate::source::{NO_LINE, SourceLine};
use crate::story::Story;
use crate::verbs::{AWAIT, CANCEL, DRAIN, DROP, FAIL, HAND, OFFER, PUT, SPENT, SPURN};
use gathered::{Gathered, NOWHERE};
use report_reader::value_of;
use script_reader::Script;
use std::alloc::{AllocError, Global};

/// What stands behind a heading, and on the lines below it.
#[derive(Drop)]
pub(crate) struct Hint {
    pub(crate) hint: String,
    pub(crate) more: Vec<String>,
}

// ---- parts of texts

/// A hint that grows, and whether memory ran out as it did: what is said is heard of at its end alone.
#[derive(Drop)]
struct Saying {
    alloc: Global,
    hint: String,
    more: Vec<String>,
    full: bool,
}

impl Saying {
    fn new(alloc: Global) -> Saying {
        Saying {
            alloc,
            hint: String::new(alloc),
            more: Vec::new(alloc),
            full: false,
        }
    }

    /// Begins a line below the heading.
    fn line(&mut self) {
        if self.more.push(String::new(self.alloc)).is_err() {
            self.full = true;
        }
    }

    /// The line that is said.
    fn here(&mut self) -> &mut String {
        match self.more.last_mut() {
            Some(line) => line,
            None => &mut self.hint,
        }
    }

    fn say(&mut self, text: &str) {
        if self.here().push_str(text).is_err() {
            self.full = true;
        }
    }

    fn number(&mut self, number: u32) {
        if write!(self.here(), "{number}").is_err() {
            self.full = true;
        }
    }

    /// Says a text that came out of the input.
    fn bytes(&mut self, bytes: &[u8]) {
        if let Ok(text) = str::from_utf8(bytes) {
            self.say(text);
        }
    }

    /// Says a coroutine, as `worker 3`; or a Job that is a scope's, as `job 7`.
    fn row(&mut self, script: &Script, row: u32) {
        let name = if row < u32::from(script.coroutines()) {
            name_of_tag(script, row)
        } else {
            "job"
        };
        self.say(name);
        self.say(" ");
        self.number(row);
    }

    /// Says these rows, with commas between them; or `nobody`.
    fn rows(&mut self, script: &Script, rows: &[u32]) {
        if rows.is_empty() {
            self.say("nobody");
        }
        let mut between = "";
        for row in rows {
            self.say(between);
            self.row(script, *row);
            between = ", ";
        }
    }

    /// Says these rows; memory may have run out as they were gathered.
    fn gathered(&mut self, script: &Script, rows: &Gathered<u32>) {
        self.rows(script, rows.as_slice());
        self.full = self.full | rows.full;
    }

    /// Says a line of the script, as ` at line 5: receive a`, if it is known.
    fn source(&mut self, line: SourceLine<'_>) {
        if line.is_known() {
            self.say(" at line ");
            self.number(line.number);
            self.say(": ");
            self.bytes(line.text);
        }
    }

    /// The hint, if memory held all that was said.
    fn whole(self) -> Result<Hint, AllocError> {
        let Saying {
            hint,
            more,
            full,
            ..
        } = self;
        if full {
            Err(AllocError)
        } else {
            Ok(Hint { hint, more })
        }
    }
}

// ---- a coroutine that waits

/// What it says of a wait whose line is not known.
fn say_wait(out: &mut Saying, story: &Story<'_>, note: &Note<'_>) {
    out.say(match awaited_by(note) {
        Awaited::Element(_) => " to receive from ",
        Awaited::Receiver(_) => " to send on ",
        Awaited::End(_) => " for the end of ",
        Awaited::Unknown => " on ",
    });
    let row = note.done_row();
    if row == NO_ROW {
        out.bytes(note.word(2));
    } else {
        out.row(story.script, row);
    }
}

/// Says what the wait is for, where the line does not say it.
fn say_job<'a>(out: &mut Saying, story: &Story<'a>, note: &Note<'a>) {
    let row = note.done_row();
    if row != NO_ROW {
        out.line();
        out.say("for the end of ");
        out.row(story.script, row);
        let line = story.scope_line(note);
        if line.is_known() {
            out.say(", of the scope of line ");
            out.number(line.number);
        }
    }
}

/// Says who could end the wait of a coroutine.
fn say_partners(out: &mut Saying, story: &Story<'_>, tag: u32) {
    let mut partners = Gathered::new(out.alloc);
    find_partners(out.alloc, &mut partners, story, tag);
    out.line();
    out.say("could be ended by: ");
    out.gathered(story.script, &partners);
}

/// Says a circle of waits, at the first of those that are in it.
fn say_circle(out: &mut Saying, story: &Story<'_>, tag: u32) {
    let mut circle = Gathered::new(out.alloc);
    if find_circle(out.alloc, &mut circle, story, tag) {
        out.line();
        out.say("circle of waits: ");
        out.rows(story.script, circle.as_slice());
        out.say(", ");
        out.row(story.script, tag);
    }
    out.full = out.full | circle.full;
}

/// The line at which a coroutine waits, who could end that, and a circle of waits.
pub(crate) fn wait_hint(alloc: Global, story: &Story<'_>, tag: u32) -> Result<Hint, AllocError> {
    let mut out = Saying::new(alloc);
    if let Some(note) = story.note(story.row(tag).wait) {
        let line = story.wait_line(note);
        if line.is_known() {
            out.source(line);
            say_job(&mut out, story, note);
        } else {
            say_wait(&mut out, story, note);
        }
        say_partners(&mut out, story, tag);
        say_circle(&mut out, story, tag);
    }
    out.whole()
}

// ---- an element

/// The number of the note that has one of these verbs, on this channel and place.
fn note_at(story: &Story<'_>, verbs: u32, channel: &[u8], place: &[u8]) -> usize {
    for (number, note) in story.notes().iter().enumerate() {
        if note.is_one_of(verbs) && note.is_at(channel, place) {
            return number;
        }
    }
    NOWHERE
}

/// Says who made the note of this number, if there is one: behind the heading, or below it.
fn say_maker(out: &mut Saying, story: &Story<'_>, below: bool, verb: &str, number: usize) {
    if let Some(note) = story.note(number) {
        if below {
            out.line();
        }
        out.say(verb);
        out.row(story.script, note.tag);
        out.source(story.source_of(note));
    }
}

/// Says who sent an element, to whom it was handed, and who discarded it.
fn say_element(out: &mut Saying, story: &Story<'_>, channel: &[u8], place: &[u8]) {
    let sent = note_at(story, HAND | PUT | OFFER, channel, place);
    let handed = note_at(story, AWAIT, channel, place);
    let discarded = note_at(story, DROP | SPURN | DRAIN, channel, place);
    say_maker(out, story, false, ": sent by ", sent);
    say_maker(out, story, true, "handed to ", handed);
    say_maker(out, story, true, "discarded by ", discarded);
}

// ---- a Job

/// Says the Jobs below a row that have not ended.
fn say_below(out: &mut Saying, story: &Story<'_>, row: u32) {
    let mut found = Gathered::new(out.alloc);
    for other in 0..u32::from(story.script.jobs()) {
        if story.row(other).is_open_below(row) {
            found.add(other);
        }
    }
    out.gathered(story.script, &found);
}

/// Says why the Job of a coroutine that does not wait has not ended.
fn say_job_open(out: &mut Saying, story: &Story<'_>, row: u32, state: &[u8]) {
    out.say(": ");
    out.row(story.script, row);
    if state == b"new".as_slice() {
        out.say(" was not started");
    } else {
        out.say(" has ended its lines, and waits for the end of ");
        say_below(out, story, row);
    }
}

/// The line at which the body of a coroutine failed.
fn failure_of<'a>(story: &Story<'a>, tag: u32) -> SourceLine<'a> {
    for note in story.notes_of(tag) {
        if note.is_one_of(FAIL | SPENT) {
            return story.source_of(note);
        }
    }
    NO_LINE
}

/// So a Job is cancelled by a failure.
const FAILURES: [&[u8]; 2] = [b"own", b"child"];

/// Whether a Job is cancelled by a failure if this is the cause, and the one before it was or was not.
fn is_by_failure(cause: &[u8], before: bool) -> bool {
    is_in(cause, &FAILURES) | (before & (cause == b"parent".as_slice()))
}

/// Adds the rows that a coroutine cancelled by failures, in its order, but for this one.
fn find_cancelled(rows: &mut Gathered<u32>, story: &Story<'_>, tag: u32) {
    let mut fails = false;
    for note in story.notes_of(tag) {
        if note.is_one_of(CANCEL) {
            let row = note.row(2);
            fails = is_by_failure(note.word(3), fails);
            if fails & (row != tag) & (row != NO_ROW) {
                rows.add(row);
            }
        }
    }
}

/// Says whom the failure of a coroutine cancelled.
fn say_cancelled(out: &mut Saying, story: &Story<'_>, tag: u32) {
    let mut rows = Gathered::new(out.alloc);
    find_cancelled(&mut rows, story, tag);
    out.line();
    out.say("it cancelled: ");
    out.gathered(story.script, &rows);
}

/// Says by what a Job failed, and whom that cancelled.
fn say_failure(out: &mut Saying, story: &Story<'_>, row: u32, cause: u32) {
    out.say(": ");
    out.row(story.script, row);
    if row == cause {
        out.say(" failed");
        out.source(failure_of(story, row));
        say_cancelled(out, story, row);
    } else {
        out.say(" failed by the failure of ");
        out.row(story.script, cause);
    }
}

/// Says what is to be said of the line of a Job or of an element.
fn say_line(out: &mut Saying, story: &Story<'_>, line: &[u8]) {
    let words = words_in(line);
    if words[0] == b"element".as_slice() {
        say_element(out, story, words[1], words[2]);
    } else if let Some(row) = value_of(words[1]) {
        match value_of(words[3]) {
            Some(cause) => say_failure(out, story, row, cause),
            None => say_job_open(out, story, row, words[2]),
        }
    }
}

/// What is to be said of the line of a Job or of an element.
pub(crate) fn line_hint(alloc: Global, story: &Story<'_>, line: &[u8]) -> Result<Hint, AllocError> {
    let mut out = Saying::new(alloc);
    say_line(&mut out, story, line);
    out.whole()
}
