//! The lines of a report.

ghost use Rattle.std.specs.Prelude.{◌≡◌, ◌≤◌, [], IfOk, length};
ghost use Rattle.report_reader.specs.Forms.{said_of};
ghost use Rattle.report_reader.specs.Reports.{has_jobs, read_line, lines_from, report_of, section_after};
ghost use Rattle.report_reader.specs.Reading.{Gives, Leaves, LeavesAt, view};

use crate::forms::said_by;
use crate::line::{Line, NoReport, Said, Section};
use crate::words::{cut_at, trimmed, words_of};
use std::alloc::{AllocError, Global};

/// The lines so far, and which may follow.
#[derive(Drop)]
pub(crate) struct Reading<'a> {
    pub(crate) section: Section,
    pub(crate) lines: Vec<Line<'a>>,
}

/// Which lines may follow this one, if it may follow.
fn section_after(section: Section, said: Said) -> Option<Section>
    ensures { result ≡ section_after section said }
{
    match (section, said) {
        (Section::Books(last), Said::Note(tag)) if last <= tag => Some(Section::Books(tag)),
        (Section::Books(_), Said::Job(row)) if row == 0 => Some(Section::Jobs(row)),
        (Section::Jobs(last), Said::Job(row)) if last < row => Some(Section::Jobs(row)),
        (Section::Jobs(_) | Section::Elements, Said::Element) => Some(Section::Elements),
        _ => None,
    }
}

/// Whether the lines of the Jobs have begun.
fn has_jobs(section: Section) -> bool
    ensures { result ≡ has_jobs section }
{
    match section {
        Section::Books(_) => false,
        Section::Jobs(_) | Section::Elements => true,
    }
}

/// What a line is, if it is one of a report. The vector is a place for its words.
fn said_of<'a>(words: &mut Vec<&'a [u8]>, line: &'a [u8]) -> Result<Option<Said>, AllocError>
    ensures { IfOk result (λ said. said ≡ said_of line.now) }
{
    words_of(words, line)?;
    Ok(said_by(words.as_slice()))
}

/// Reads one line; false where it is none that may stand there.
fn read_line<'a>(
    reading: &mut Reading<'a>,
    words: &mut Vec<&'a [u8]>,
    line: &'a [u8],
) -> Result<bool, AllocError>
    ensures { IfOk result (λ good. Leaves good (view reading.new) (read_line (view reading.old) line.now)) }
{
    let Some(said) = said_of(words, line)? else {
        return Ok(false);
    };
    let Some(section) = section_after(reading.section, said) else {
        return Ok(false);
    };
    reading.lines.push(Line { said, text: line })?;
    reading.section = section;
    Ok(true)
}

/// Reads one line, which has this number.
fn read_numbered<'a>(
    reading: &mut Reading<'a>,
    words: &mut Vec<&'a [u8]>,
    line: &'a [u8],
    number: u32,
) -> Result<(), NoReport>
    ensures { LeavesAt number result (view reading.new) (read_line (view reading.old) line.now) }
{
    match read_line(reading, words, line) {
        Ok(true) => Ok(()),
        Ok(false) => Err(NoReport::AtLine(number)),
        Err(_) => Err(NoReport::Memory),
    }
}

/// Reads a report: its lines, each with what it is; or the number of the first line of the text that is none.
pub fn read<'a>(alloc: Global, bytes: &'a [u8]) -> Result<Vec<Line<'a>>, NoReport>
    requires { length bytes.now ≤ 67108864 }
    ensures { Gives result (report_of bytes.now) }
{
    let mut reading = Reading {
        section: Section::Books(0),
        lines: Vec::new(alloc),
    };
    let mut words = Vec::new(alloc);
    let mut number = 1u32;
    let mut rest = trimmed(bytes);
    'lines: loop {
        let (line, more) = cut_at(b'\n', rest);
        if let Err(fault) = read_numbered(&mut reading, &mut words, line, number) {
            return Err(fault);
        }
        number += 1;
        let Some(next) = more else {
            return finished(reading, number);
        };
        rest = next;
    }
}

/// The lines, if those of the Jobs have begun; the number is that of the line behind the last.
fn finished<'a>(reading: Reading<'a>, number: u32) -> Result<Vec<Line<'a>>, NoReport>
    ensures { Gives result (lines_from number (view reading.entry) []) }
{
    if has_jobs(reading.section) {
        Ok(reading.lines)
    } else {
        Err(NoReport::AtLine(number))
    }
}
