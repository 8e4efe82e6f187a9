//! The waits that the lines of the books begin and end.

ghost use Rattle.std.specs.Prelude.{◌≡◌, ◌++◌, [], IfOk, OnOk, map, option_map};
ghost use Rattle.report_reader.specs.Words.{words_of};
ghost use Rattle.report_reader.specs.Reading.{told_lines};
ghost use Rattle.run_explanation.specs.Waiting.{begun_by, ended_by, mark_of, marked, marks_of, with_mark, word_at};

use report_reader::{Line, Said, cut_at};
use std::alloc::{AllocError, Global};

/// A line of a book: its coroutine, and the waits that it begins and ends.
#[derive(Clone, Copy)]
pub(crate) struct Mark<'a> {
    pub(crate) tag: u32,
    pub(crate) begun: Option<&'a [u8]>,
    pub(crate) ended: Option<&'a [u8]>,
}

/// The word of a line of this number, counted from 0; empty where there is none.
#[tactic(auto, using(crate::proofs::Lines::word_here, crate::proofs::Lines::no_word, crate::proofs::Lines::word_behind))]
pub(crate) fn word_in(line: &[u8], i: usize) -> &[u8]
    ensures { result.now ≡ word_at (words_of line.now) i }
{
    let mut left = i;
    let mut rest = line;
    'words: loop {
        let (word, more) = cut_at(b' ', rest);
        if left == 0 {
            return word;
        }
        let Some(next) = more else {
            return b"";
        };
        left -= 1;
        rest = next;
    }
}

#[tactic(auto, unfolding(crate::specs::Waiting::begun_by))]
fn begun_by(line: &[u8]) -> Option<&[u8]>
    ensures { option_map (λ w. w.now) result ≡ begun_by (words_of line.now) }
{
    let verb = word_in(line, 1);
    if verb == b"await".as_slice() {
        Some(word_in(line, 4))
    } else if verb == b"offer".as_slice() {
        Some(word_in(line, 5))
    } else {
        None
    }
}

#[tactic(auto, unfolding(crate::specs::Waiting::ended_by))]
fn ended_by(line: &[u8]) -> Option<&[u8]>
    ensures { option_map (λ w. w.now) result ≡ ended_by (words_of line.now) }
{
    let verb = word_in(line, 1);
    if verb == b"settle".as_slice() || verb == b"withdraw".as_slice() {
        Some(word_in(line, 2))
    } else {
        None
    }
}

/// What a line of the book of a coroutine begins and ends.
fn mark_by<'a>(tag: u32, line: &'a [u8]) -> Mark<'a>
    ensures { mark_of result ≡ marked tag (words_of line.now) }
{
    Mark {
        tag,
        begun: begun_by(line),
        ended: ended_by(line),
    }
}

/// The lines of the books.
pub(crate) fn marks_of<'a>(alloc: Global, lines: &[Line<'a>]) -> Result<Vec<Mark<'a>>, AllocError>
    ensures { IfOk result (λ marks. map mark_of marks.items ≡ marks_of (told_lines lines.now)) }
{
    let mut marks = Vec::new(alloc);
    let mut rest = lines;
    while let [line, more @ ..] = rest {
        add_mark(&mut marks, *line)?;
        rest = more;
    }
    Ok(marks)
}

/// Adds the mark of a line, if it is one of a book.
fn add_mark<'a>(marks: &mut Vec<Mark<'a>>, line: Line<'a>) -> Result<(), AllocError>
    ensures { OnOk result (map mark_of marks.new.items ≡ map mark_of marks.old.items ++ with_mark line.entry.said line.entry.text.now []) }
{
    match line.said {
        Said::Note(tag) => {
            marks.push(mark_by(tag, line.text))?;
            Ok(())
        }
        Said::Job(_) | Said::Element => Ok(()),
    }
}
