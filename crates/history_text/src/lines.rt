//! The lines of a history.

ghost use Rattle.std.specs.Prelude.{◌≡◌, ◌≤◌, [], IfOk, length};
ghost use Rattle.report_reader.specs.Words.{lines_of, texts, without_last_feed};
ghost use Rattle.history_text.specs.Inputs.{GivesLines, LeavesAt, LeavesLine};
ghost use Rattle.history_text.specs.Items.{item_by};
ghost use Rattle.history_text.specs.JobItems.{job_item_by};
ghost use Rattle.history_text.specs.Names.{AreNames, listed};
ghost use Rattle.history_text.specs.Lines.{either_item, history_of, line_by, line_of, lines_from};

use crate::items::item_by;
use crate::job_items::job_item_by;
use crate::line::Line;
use crate::names::{Names, names_of};
use crate::words::tag_at;
use note_book::Item;
use report_reader::{cut_at, words_of};
use std::alloc::{AllocError, Global};

/// Why a text gives no lines.
#[derive(Clone, Copy)]
pub enum NoLines {
    /// The number of the first line that is none.
    AtLine(u32),
    /// No memory was found.
    Memory,
}

/// The item that a verb and the words behind it are, of a channel or of a Job.
fn either_item(names: &Names, verb: &[u8], words: &[&[u8]]) -> Option<Item>
    requires { AreNames names.now }
    ensures { result ≡ either_item (item_by (listed names.now) verb.now (texts words.now)) (job_item_by verb.now (texts words.now)) }
{
    match item_by(names, verb, words) {
        Some(note) => Some(Item::Channel(note)),
        None => match job_item_by(verb, words) {
            Some(note) => Some(Item::Job(note)),
            None => None,
        },
    }
}

/// The line that these words are.
fn line_by(names: &Names, words: &[&[u8]]) -> Option<Line>
    requires { AreNames names.now }
    ensures { result ≡ line_by (listed names.now) (texts words.now) }
{
    let [tag, verb, rest @ ..] = words else {
        return None;
    };
    let who = tag_at(*tag)?;
    let item = either_item(names, *verb, rest)?;
    Some(Line { who, item })
}

/// The line of a text without line feeds. The vector is a place for its words.
fn line_of<'a>(
    names: &Names,
    words: &mut Vec<&'a [u8]>,
    text: &'a [u8],
) -> Result<Option<Line>, AllocError>
    requires { AreNames names.now }
    ensures { IfOk result (λ line. line ≡ line_of (listed names.now) text.now) }
{
    words_of(words, text)?;
    Ok(line_by(names, words.as_slice()))
}

/// The text without the line feed at its end.
fn trimmed(text: &[u8]) -> &[u8]
    ensures value { result.now ≡ without_last_feed text.now }
    ensures short { length result.now ≤ length text.now }
{
    if text.is_empty() || text[text.len() - 1] != b'\n' {
        text
    } else {
        &text[..text.len() - 1]
    }
}

/// Reads one line more.
fn read_line<'a>(
    names: &Names,
    words: &mut Vec<&'a [u8]>,
    lines: &mut Vec<Line>,
    text: &'a [u8],
) -> Result<bool, AllocError>
    requires { AreNames names.now }
    ensures { IfOk result (λ good. LeavesLine good lines.old.items lines.new.items (line_of (listed names.now) text.now)) }
{
    let Some(line) = line_of(names, words, text)? else {
        return Ok(false);
    };
    lines.push(line)?;
    Ok(true)
}

/// Reads one line more, which has this number.
fn read_numbered<'a>(
    names: &Names,
    words: &mut Vec<&'a [u8]>,
    lines: &mut Vec<Line>,
    text: &'a [u8],
    number: u32,
) -> Result<(), NoLines>
    requires { AreNames names.now }
    ensures { LeavesAt number result lines.old.items lines.new.items (line_of (listed names.now) text.now) }
{
    match read_line(names, words, lines, text) {
        Ok(true) => Ok(()),
        Ok(false) => Err(NoLines::AtLine(number)),
        Err(_) => Err(NoLines::Memory),
    }
}

/// The lines of a text that has some.
fn some_lines(alloc: Global, names: &Names, text: &[u8]) -> Result<Vec<Line>, NoLines>
    requires names { AreNames names.now }
    requires short { length text.now ≤ 67108864 }
    ensures { GivesLines result (lines_from (listed names.now) 1 [] (lines_of text.now)) }
{
    let mut lines = Vec::new(alloc);
    let mut words = Vec::new(alloc);
    let mut number = 1u32;
    let mut rest = trimmed(text);
    'lines: loop {
        let (line, more) = cut_at(b'\n', rest);
        if let Err(fault) = read_numbered(names, &mut words, &mut lines, line, number) {
            return Err(fault);
        }
        let Some(next) = more else {
            return Ok(lines);
        };
        number += 1;
        rest = next;
    }
}

/// The lines of a history of channels with these names, or the number, from 1, of the first that is none.
pub fn lines_in(alloc: Global, names: &[&[u8]], text: &[u8]) -> Result<Vec<Line>, NoLines>
    requires few { length names.now ≤ 65536 }
    requires short { length text.now ≤ 67108864 }
    ensures { GivesLines result (history_of (texts names.now) text.now) }
{
    if text.is_empty() {
        return Ok(Vec::new(alloc));
    }
    some_lines(alloc, &names_of(names), text)
}
