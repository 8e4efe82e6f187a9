//! Jobs that failed or have not ended, and elements that were not received.

ghost use Rattle.std.specs.Prelude.{◌≡◌, ◌==◌};
ghost use Rattle.std.specs.List.{list_any};
ghost use Rattle.script_reader.specs.Scripts.{program_of};
ghost use Rattle.report_reader.specs.Reading.{told};
ghost use Rattle.run_explanation.specs.Answers.{class_of, is_of, job_class};

use crate::marks::word_in;
use report_reader::{Line, Said};
use script_reader::Script;

/// What a line behind the books says of the run.
#[derive(Clone, Copy)]
pub(crate) enum Class {
    /// The Job of a coroutine that does not wait has not ended.
    Unfinished,
    /// An element was not received.
    Lost,
    /// A Job failed.
    Failed,
    /// Nothing that is to be told.
    Quiet,
}

/// Whether it is one of these.
pub(crate) fn is_among(row: u32, tags: &[u32]) -> bool
    ensures { result ≡ list_any (λ tag. tag == row) tags.now }
{
    let mut rest = tags;
    while let [tag, more @ ..] = rest {
        if *tag == row {
            return true;
        }
        rest = more;
    }
    false
}

/// That of the line of a Job which says this of it.
fn job_class(script: &Script, waits: &[u32], row: u32, state: &[u8]) -> Class
    ensures { result ≡ job_class (program_of script.now) waits.now row state.now }
{
    if state == b"failed".as_slice() {
        Class::Failed
    } else if state == b"completed".as_slice() {
        Class::Quiet
    } else if state == b"cancelled".as_slice() {
        Class::Quiet
    } else if is_among(row, waits) {
        Class::Quiet
    } else if row < u32::from(script.coroutines()) {
        Class::Unfinished
    } else {
        Class::Quiet
    }
}

/// That of a line.
pub(crate) fn class_of(script: &Script, waits: &[u32], line: Line<'_>) -> Class
    ensures { result ≡ class_of (program_of script.now) waits.now (told line.entry) }
{
    match line.said {
        Said::Note(_) => Class::Quiet,
        Said::Job(row) => job_class(script, waits, row, word_in(line.text, 2)),
        Said::Element => Class::Lost,
    }
}

/// Whether it is this class.
pub(crate) fn is_of(class: Class, other: Class) -> bool
    ensures { result ≡ is_of class other }
{
    match (class, other) {
        (Class::Unfinished, Class::Unfinished) => true,
        (Class::Lost, Class::Lost) => true,
        (Class::Failed, Class::Failed) => true,
        _ => false,
    }
}
