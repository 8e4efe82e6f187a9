//! Which coroutines a report leaves waiting.

ghost use Rattle.std.specs.Prelude.{◌≡◌, IfOk, None, map, option_map};
ghost use Rattle.std.specs.List.{list_any};
ghost use Rattle.report_reader.specs.Reading.{told_lines};
ghost use Rattle.run_explanation.specs.Waiting.{does_end, is_last, is_left_at, is_the_wait, mark_of, waiting, waiting_from};

use crate::marks::{Mark, marks_of};
use report_reader::Line;
use std::alloc::{AllocError, Global};

fn is_the_wait(wait: &[u8], other: Option<&[u8]>) -> bool
    ensures { result ≡ is_the_wait wait.now (option_map (λ w. w.now) other.entry) }
{
    match other {
        None => false,
        Some(other) => other == wait,
    }
}

/// Whether a line is of this coroutine, and ends this wait.
fn does_end(tag: u32, wait: &[u8], mark: &Mark<'_>) -> bool
    ensures { result ≡ does_end tag wait.now (mark_of mark.now) }
{
    mark.tag == tag && is_the_wait(wait, mark.ended)
}

/// Whether one of these lines ends this wait of this coroutine.
fn is_ended(tag: u32, wait: &[u8], later: &[Mark]) -> bool
    ensures { result ≡ list_any (does_end tag wait.now) (map mark_of later.now) }
{
    let mut rest = later;
    while let [mark, more @ ..] = rest {
        if does_end(tag, wait, mark) {
            return true;
        }
        rest = more;
    }
    false
}

/// Whether a wait that is begun is not ended by these later lines.
fn is_left_at(tag: u32, begun: Option<&[u8]>, later: &[Mark]) -> bool
    ensures { result ≡ is_left_at tag (option_map (λ w. w.now) begun.entry) (map mark_of later.now) }
{
    match begun {
        None => false,
        Some(wait) => !is_ended(tag, wait, later),
    }
}

fn is_last(tag: u32, last: Option<u32>) -> bool
    ensures { result ≡ is_last tag last }
{
    match last {
        None => false,
        Some(last) => last == tag,
    }
}

/// The coroutines that the lines of these books leave waiting.
fn waiting_in(alloc: Global, marks: &[Mark]) -> Result<Vec<u32>, AllocError>
    ensures { IfOk result (λ tags. tags.items ≡ waiting_from None (map mark_of marks.now)) }
{
    let mut tags = Vec::new(alloc);
    let mut last = None;
    let mut rest = marks;
    while let [mark, more @ ..] = rest {
        let tag = mark.tag;
        if is_left_at(tag, mark.begun, more) && !is_last(tag, last) {
            tags.push(tag)?;
            last = Some(tag);
        }
        rest = more;
    }
    Ok(tags)
}

/// The coroutines that a report leaves waiting, each once, in the order of their numbers.
pub(crate) fn waiting(alloc: Global, lines: &[Line]) -> Result<Vec<u32>, AllocError>
    ensures { IfOk result (λ tags. tags.items ≡ waiting (told_lines lines.now)) }
{
    let marks = marks_of(alloc, lines)?;
    waiting_in(alloc, marks.as_slice())
}
