//! The lines of a script's text, for hints.

use gathered::{Gathered, NOWHERE, at, between};
use report_reader::cut_at;
use std::alloc::Global;

/// A line with words, and its number, which is counted from 1.
#[derive(Clone, Copy)]
pub(crate) struct SourceLine<'a> {
    pub(crate) number: u32,
    pub(crate) text: &'a [u8],
}

/// Where no line is known.
pub(crate) const NO_LINE: SourceLine<'static> = SourceLine {
    number: 0,
    text: b"",
};

impl<'a> SourceLine<'a> {
    pub(crate) fn is_known(self) -> bool {
        self.number > 0
    }
}

fn is_blank(byte: u8) -> bool {
    (byte == b' ') | (byte == b'\t') | (byte == b'\r')
}

/// The words of a line as they are written, without what stands before them and their comment.
fn words_in(line: &[u8]) -> &[u8] {
    let mut first = 0usize;
    let mut end = 0usize;
    let mut begins = true;
    for (i, byte) in line.iter().enumerate() {
        if begins & (*byte == b'#') {
            break;
        }
        begins = is_blank(*byte);
        if !begins {
            if end == 0 {
                first = i;
            }
            end = i + 1;
        }
    }
    between(line, first, end)
}

/// Whether a line begins a coroutine.
fn is_head(text: &[u8]) -> bool {
    let (word, _) = cut_at(b' ', text);
    let (word, _) = cut_at(b'\t', word);
    word == b"coroutine".as_slice()
}

/// The lines with words of a script's text, and of each coroutine, in the order of the text, how many of them stand before its own.
#[derive(Drop)]
pub(crate) struct Source<'a> {
    lines: Gathered<SourceLine<'a>>,
    blocks: Gathered<usize>,
}

impl<'a> Source<'a> {
    pub(crate) fn new(alloc: Global) -> Source<'a> {
        Source {
            lines: Gathered::new(alloc),
            blocks: Gathered::new(alloc),
        }
    }

    /// Whether memory ran out.
    pub(crate) fn is_full(&self) -> bool {
        self.lines.full | self.blocks.full
    }

    /// Adds the lines of a text.
    pub(crate) fn read(&mut self, text: &'a [u8]) {
        let mut number = 0u32;
        let mut rest = text;
        'lines: loop {
            let (line, more) = cut_at(b'\n', rest);
            number = number.saturating_add(1);
            self.add(number, words_in(line));
            let Some(next) = more else {
                return;
            };
            rest = next;
        }
    }

    fn add(&mut self, number: u32, text: &'a [u8]) {
        if is_head(text) {
            self.blocks.add(self.lines.len());
        } else if !text.is_empty() {
            self.lines.add(SourceLine { number, text });
        }
    }

    /// This line of this coroutine; that of number 0, if there is none.
    pub(crate) fn line(&self, block: u16, line: usize) -> SourceLine<'a> {
        let block = block as usize;
        let blocks = self.blocks.as_slice();
        let place = at(blocks, block, NOWHERE).saturating_add(line);
        if place < at(blocks, block + 1, NOWHERE) {
            at(self.lines.as_slice(), place, NO_LINE)
        } else {
            NO_LINE
        }
    }
}
