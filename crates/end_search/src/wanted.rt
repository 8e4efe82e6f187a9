//! Which ends are looked for, and by what two ends are told apart.

ghost use Rattle.std.specs.Prelude.{◌≡◌};
ghost use Rattle.end_search.specs.Blocks.{does_suit, has_end, is_cancelled, is_failed, shows_kind};

use crate::blocks::waits_in;
use crate::refusals::refused_sends;
use co_base::Memory;
use job_model::{Cause, End};
use note_book::Notes;
use poll_states::Done;
use report_reader::cut_at;
use run_report::report;
use script_reader::Script;
use std::alloc::{AllocError, Global};

/// Which ends are looked for.
#[derive(Clone, Copy, Debug, PartialEq, Eq)]
pub enum Wanted {
    /// Main's Job has not ended.
    Unfinished,
    /// Main's Job was cancelled by a failure.
    Failed,
    /// Main's Job was cancelled for another reason.
    Cancelled,
    /// An element was sent and nobody received it: its receiver was cancelled, its send was taken back, or its channel was cancelled.
    Undelivered,
    /// An element is still in its channel.
    Held,
    /// A closed channel refused a send.
    Refused,
    /// Another end than that of one worker.
    Other,
}

/// By what two ends are told apart.
#[derive(Clone, Copy, Debug, PartialEq, Eq)]
pub enum Tell {
    /// By main's Job.
    Status,
    /// By all Jobs.
    Jobs,
    /// By Jobs, elements, refused sends and who waits at which line.
    All,
}

impl Tell {
    /// Whether ends are told apart by a line like this.
    fn is_told(self, line: &[u8]) -> bool {
        match self {
            Tell::Status => line.starts_with(b"job 0 "),
            Tell::Jobs => line.starts_with(b"job "),
            Tell::All => true,
        }
    }
}

/// What is told of an end, without the numbers of places, so that it is the same by whatever order the end was reached.
#[derive(Drop)]
pub(crate) struct Account {
    root: Option<End>,
    /// The lines of Jobs, of elements, of coroutines that wait and of refused sends, sorted.
    lines: Vec<Vec<u8>>,
    /// Those of them by which it is told apart from another.
    apart: Vec<Vec<u8>>,
}

pub(crate) fn told_of(
    alloc: Global,
    script: &Script,
    source: &[u8],
    tell: Tell,
    done: &Done<Notes>,
) -> Result<Account, Memory> {
    let mut lines = Vec::new(alloc);
    push_told(alloc, &mut lines, script, source, done)?;
    lines.sort()?;
    let apart = lines_told(alloc, lines.as_slice(), tell)?;
    Ok(Account {
        root: done.end,
        lines,
        apart,
    })
}

/// Adds the lines of Jobs, of elements, of coroutines that wait and of refused sends.
fn push_told(
    alloc: Global,
    lines: &mut Vec<Vec<u8>>,
    script: &Script,
    source: &[u8],
    done: &Done<Notes>,
) -> Result<(), Memory> {
    let text = report(alloc, script, done)?;
    push_ends(alloc, lines, text.as_slice())?;
    let waits = waits_in(alloc, script, source, text.as_slice())?;
    push_ends(alloc, lines, waits.as_slice())?;
    let refused = refused_sends(alloc, script, done.books.as_slice())?;
    push_ends(alloc, lines, refused.as_bytes())
}

/// Those of some lines by which ends are told apart.
fn lines_told(alloc: Global, lines: &[Vec<u8>], tell: Tell) -> Result<Vec<Vec<u8>>, Memory> {
    let mut told = Vec::new(alloc);
    for line in lines {
        if tell.is_told(line.as_slice()) {
            told.push(Vec::from_slice(alloc, line.as_slice())?)?;
        }
    }
    Ok(told)
}

/// Adds the lines of a text that are not of a book; that of an element without its place.
fn push_ends(alloc: Global, lines: &mut Vec<Vec<u8>>, text: &[u8]) -> Result<(), Memory> {
    let mut rest = text;
    for _ in 0..text.len() {
        let (line, more) = cut_at(b'\n', rest);
        if line.starts_with(b"job ") || line.starts_with(b"element ") || line.starts_with(b" ") {
            lines.push(without_place(alloc, line)?)?;
        }
        let Some(next) = more else {
            break;
        };
        rest = next;
    }
    Ok(())
}

/// The line of an element without its place, another as it is.
fn without_place(alloc: Global, line: &[u8]) -> Result<Vec<u8>, AllocError> {
    if !line.starts_with(b"element ") {
        return Vec::from_slice(alloc, line);
    }
    let (_, rest) = cut_at(b' ', line);
    let (name, behind) = cut_at(b' ', rest.unwrap_or(b""));
    let (_, last) = cut_at(b' ', behind.unwrap_or(b""));
    [b"element ".as_slice(), name, b" ", last.unwrap_or(b"")].concat(alloc)
}

/// Whether an end with this root is one that is looked for, as far as its root says.
pub(crate) fn does_suit(wanted: Option<Wanted>, root: Option<End>) -> bool
    ensures { result ≡ does_suit wanted root }
{
    match wanted {
        Some(Wanted::Unfinished) => root.is_none(),
        Some(Wanted::Failed) => is_failed(root),
        Some(Wanted::Cancelled) => is_cancelled(root),
        _ => true,
    }
}

/// Whether the root was cancelled by a failure.
fn is_failed(root: Option<End>) -> bool
    ensures { result ≡ is_failed root }
{
    matches!(root, Some(End::Cancelled(Cause::Failure(_))))
}

/// Whether it was cancelled for another reason.
fn is_cancelled(root: Option<End>) -> bool
    ensures { result ≡ is_cancelled root }
{
    matches!(root, Some(End::Cancelled(Cause::Request | Cause::None)))
}

/// Whether an end with these lines of refused sends, and of Jobs and elements, is one that is looked for, as far as they say.
pub(crate) fn shows_kind(wanted: Option<Wanted>, refused: &[u8], lines: &[u8]) -> bool
    ensures { result ≡ shows_kind wanted refused.now lines.now }
{
    match wanted {
        Some(Wanted::Undelivered) => has_end(b" undelivered", lines),
        Some(Wanted::Held) => has_end(b" held", lines),
        Some(Wanted::Refused) => !refused.is_empty(),
        _ => true,
    }
}

/// Whether a line of the text ends so.
fn has_end(back: &[u8], text: &[u8]) -> bool
    ensures { result ≡ has_end back.now text.now }
{
    let mut rest = text;
    'lines: loop {
        let (line, more) = cut_at(b'\n', rest);
        if line.ends_with(back) {
            return true;
        }
        let Some(next) = more else {
            return false;
        };
        rest = next;
    }
}

impl Account {
    /// Whether this is an end that is looked for. `usual` is that of one worker.
    pub(crate) fn is(&self, wanted: Wanted, usual: &Account) -> bool {
        match wanted {
            Wanted::Unfinished | Wanted::Failed | Wanted::Cancelled => {
                does_suit(Some(wanted), self.root)
            }
            Wanted::Undelivered => self.has_line(b"element ", b" undelivered"),
            Wanted::Held => self.has_line(b"element ", b" held"),
            Wanted::Refused => self.has_line(b"  refused ", b""),
            Wanted::Other => !self.is_same(usual),
        }
    }

    pub(crate) fn is_same(&self, other: &Account) -> bool {
        self.apart == other.apart
    }

    /// The same once more.
    pub(crate) fn copied(&self, alloc: Global) -> Result<Account, Memory> {
        Ok(Account {
            root: self.root,
            lines: lines_told(alloc, self.lines.as_slice(), Tell::All)?,
            apart: lines_told(alloc, self.apart.as_slice(), Tell::All)?,
        })
    }

    fn has_line(&self, front: &[u8], back: &[u8]) -> bool {
        for line in self.lines.as_slice() {
            if line.starts_with(front) && line.ends_with(back) {
                return true;
            }
        }
        false
    }
}
