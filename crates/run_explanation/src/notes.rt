//! The lines of the books, taken apart for hints.

use crate::verbs::{AWAIT, OFFER, verb_of};
use gathered::NOWHERE;
use report_reader::{cut_at, value_of};
use script_reader::Channel;

/// So many words of a line are looked at.
const WORDS: usize = 8;

/// The line of a book.
#[derive(Clone, Copy)]
pub(crate) struct Note<'a> {
    pub(crate) tag: u32,
    verb: u32,
    /// The channel that it is on, if the script declares it; or `NO_CHANNEL`.
    pub(crate) channel: u16,
    words: [&'a [u8]; WORDS],
    /// The block of its coroutine.
    pub(crate) block: u16,
    /// The line of that block that it was made at, if that is known; or `NOWHERE`.
    pub(crate) made_at: usize,
    /// The first line that its coroutine may still run behind it.
    pub(crate) left_from: usize,
}

/// The number of no channel: a script has fewer.
pub(crate) const NO_CHANNEL: u16 = u16::MAX;

/// The number of no row: a script has fewer.
pub(crate) const NO_ROW: u32 = u32::MAX;

/// The first words of a line; empty where there is none.
pub(crate) fn words_in<'a>(line: &'a [u8]) -> [&'a [u8]; WORDS] {
    let none: &'a [u8] = b"";
    let mut words = [none; WORDS];
    let mut rest = line;
    for i in 0..WORDS {
        let (word, more) = cut_at(b' ', rest);
        words[i] = word;
        match more {
            Some(next) => rest = next,
            None => break,
        }
    }
    words
}

/// The number of the channel with this name.
fn channel_named(channels: &[Channel], name: &[u8]) -> u16 {
    let mut c = 0u16;
    for channel in channels {
        if channel.name.as_bytes() == name {
            return c;
        }
        c = c.saturating_add(1);
    }
    NO_CHANNEL
}

/// The line of the book of a coroutine that runs this block.
pub(crate) fn note_of<'a>(channels: &[Channel], tag: u32, block: u16, line: &'a [u8]) -> Note<'a> {
    let words = words_in(line);
    Note {
        tag,
        verb: verb_of(words[1]),
        channel: channel_named(channels, words[2]),
        words,
        block,
        made_at: NOWHERE,
        left_from: 0,
    }
}

/// The row that a word says; or `NO_ROW`.
fn row_in(word: &[u8]) -> u32 {
    match value_of(word) {
        Some(row) => row,
        None => NO_ROW,
    }
}

impl<'a> Note<'a> {
    /// The word of this number, counted from 0; empty where there is none.
    pub(crate) fn word(&self, i: usize) -> &'a [u8] {
        if i < WORDS { self.words[i] } else { b"" }
    }

    /// The row that the word of this number says; or `NO_ROW`.
    pub(crate) fn row(&self, i: usize) -> u32 {
        row_in(self.word(i))
    }

    /// Whether the verb is one of these.
    pub(crate) fn is_one_of(&self, verbs: u32) -> bool {
        self.verb & verbs != 0
    }

    /// The row, if it is on the done channel of a Job; or `NO_ROW`.
    pub(crate) fn done_row(&self) -> u32 {
        match self.words[2] {
            [first, row @ ..] if *first == b'@' => row_in(row),
            _ => NO_ROW,
        }
    }

    /// Whether it is on the done channel of a Job.
    pub(crate) fn is_done(&self) -> bool {
        self.done_row() != NO_ROW
    }

    /// Whether it is on this channel and place.
    pub(crate) fn is_at(&self, channel: &[u8], place: &[u8]) -> bool {
        (self.words[2] == channel) & (self.words[3] == place)
    }

    /// Whether it begins a wait.
    pub(crate) fn begins(&self) -> bool {
        self.is_one_of(AWAIT | OFFER)
    }

    /// The wait that it begins, if it begins one.
    pub(crate) fn wait(&self) -> &'a [u8] {
        let place = if self.is_one_of(AWAIT) { 4 } else { 5 };
        self.word(place)
    }
}

/// Whether a word is one of these.
pub(crate) fn is_in(word: &[u8], words: &[&[u8]]) -> bool {
    for other in words {
        if word == *other {
            return true;
        }
    }
    false
}
