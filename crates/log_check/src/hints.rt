//! What is known of the line where a verdict stops, in words. Nothing is claimed of it.

use channel_model::Standing;
use co_base::{ChannelId, Memory, Row, Tag};
use gathered::Text;
use history_check::Stood;
use job_model::{Cause, JobState};
use job_replay::JobLook;
use note_book::{Item, NoteBook, Notes};
use one_thread_floor::Snapshot;
use report_reader::cut_at;
use run_report::report_of;
use script_reader::Channel;
use std::alloc::Global;

/// What is known of a line.
#[derive(Clone, Copy)]
pub(crate) enum Hint {
    Nothing,
    /// What stood at its channel or Job.
    Stood(Stood),
    /// What this coroutine wrote in place of it, if it did anything.
    Instead(Tag, Option<Item>),
    /// Behind the line before it only several workers write it.
    OfSeveral,
}

/// What is known of a line, if anything is, in one line of words.
pub(crate) fn hint_text(
    alloc: Global,
    channels: &[Channel],
    hint: Hint,
) -> Result<Vec<u8>, Memory> {
    let mut text = Text::new(alloc);
    add_hint(alloc, &mut text, channels, hint)?;
    Ok(text.whole()?)
}

fn add_hint(
    alloc: Global,
    text: &mut Text,
    channels: &[Channel],
    hint: Hint,
) -> Result<(), Memory> {
    match hint {
        Hint::Nothing => {}
        Hint::Stood(stood) => add_stood(text, channels, stood),
        Hint::Instead(tag, item) => return add_instead(alloc, text, channels, tag, item),
        Hint::OfSeveral => {
            text.add(b"only several workers write this line behind the one before it\n");
        }
    }
    Ok(())
}

/// What stood at a channel or a Job, in one line of words.
pub fn stood_text(alloc: Global, channels: &[Channel], stood: Stood) -> Result<Vec<u8>, Memory> {
    let mut text = Text::new(alloc);
    add_stood(&mut text, channels, stood);
    Ok(text.whole()?)
}

fn add_stood(text: &mut Text, channels: &[Channel], stood: Stood) {
    match stood {
        Stood::Channel(c, at) => add_channel(text, channels, c, at),
        Stood::Job(row, look) => add_job(text, row, look),
    }
}

/// Adds what a coroutine wrote, as a report writes it behind the number of the coroutine, or that it did nothing.
fn add_instead(
    alloc: Global,
    text: &mut Text,
    channels: &[Channel],
    tag: Tag,
    item: Option<Item>,
) -> Result<(), Memory> {
    text.add_numbered(b"coroutine ", u64::from(tag));
    match item {
        Some(item) => {
            let report = report_with(alloc, channels, item)?;
            text.add(b" writes there: ");
            text.add(first_words(report.as_bytes()));
            text.add(b"\n");
        }
        None => text.add(b" does nothing there\n"),
    }
    Ok(())
}

/// The report of a run whose first coroutine noted this and nothing else; no text, if there are more channels than a report can have.
fn report_with(alloc: Global, channels: &[Channel], item: Item) -> Result<String, Memory> {
    if channels.len() >= 65536 {
        return Ok(String::new(alloc));
    }
    let books = books_with(alloc, item)?;
    Ok(report_of(alloc, channels, 0, books.as_slice())?)
}

fn books_with(alloc: Global, item: Item) -> Result<Vec<Notes>, Memory> {
    let mut book = Notes::new(alloc);
    book.room(1)?;
    book.note(item);
    let mut books = Vec::new(alloc);
    books.push(book)?;
    Ok(books)
}

/// The first line of a text behind its first word.
fn first_words(text: &[u8]) -> &[u8] {
    let (line, _) = cut_at(b'\n', text);
    let (_, words) = cut_at(b' ', line);
    words.unwrap_or(&[])
}

/// Adds what stood at a channel, in words.
fn add_channel(text: &mut Text, channels: &[Channel], c: ChannelId, at: Snapshot) {
    let Some(channel) = channels.get(c as usize) else {
        return;
    };
    text.add(channel.name.as_bytes());
    text.add_numbered(b": place ", u64::from(at.next));
    text.add_numbered(b" is next, ", at.queued as u64);
    text.add(b" queued");
    add_offer(text, at.first_offer);
    if let Some(receiver) = at.first_receiver {
        text.add_numbered(b", a receiver waits at place ", u64::from(receiver.place));
    }
    if let Some(value) = at.closed {
        text.add_numbered(b", closed with ", u64::from(value));
    }
    text.add(b"\n");
}

fn add_offer(text: &mut Text, offer: Option<Standing>) {
    if let Some(offer) = offer {
        text.add_numbered(b", first ", u64::from(offer.value));
        text.add_numbered(b" at place ", u64::from(offer.place));
    }
}

/// Adds what stood at the row of a Job, in words.
fn add_job(text: &mut Text, row: Row, look: Option<JobLook>) {
    text.add_numbered(b"row ", u64::from(row));
    match look {
        Some(job) => add_look(text, job),
        None => text.add(b": not attached\n"),
    }
}

/// Adds how far a Job is, as it is printed: with its result where it has one.
fn add_look(text: &mut Text, job: JobLook) {
    text.add(word_of(job.state));
    if matches!(job.state, JobState::Completing | JobState::Completed) {
        text.add_numbered(b" with ", u64::from(job.value));
    }
    if let Cause::Failure(failed) = job.cause {
        text.add_numbered(b" by the failure of ", u64::from(failed));
    }
    if job.body_ended {
        text.add(b", its body has ended");
    }
    text.add_numbered(b", ", u64::from(job.living));
    text.add(b" of its children live\n");
}

fn word_of(state: JobState) -> &'static [u8] {
    match state {
        JobState::New => b": new",
        JobState::Active => b": active",
        JobState::Completing => b": completing",
        JobState::Cancelling => b": cancelling",
        JobState::Cancelled => b": cancelled",
        JobState::Completed => b": completed",
    }
}
