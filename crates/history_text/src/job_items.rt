//! Which words are which item of a Job.

ghost use Rattle.std.specs.Prelude.{◌≡◌};
ghost use Rattle.report_reader.specs.Words.{texts};
ghost use Rattle.history_text.specs.JobItems.{attach_by, attach_with, cancel_by, cancelled_by, end_alone, end_body_by, end_by, end_with, fail_by, finish_by, job_item_by, job_kind, kind_at, of_no_word, of_row, plain_job_by, reason_alone, reason_by, reason_of_row, saw_end_by};

use crate::words::{row_at, tag_at};
use co_base::{Row, Tag, Value};
use job_model::{Cause, End, JobAct, JobKind, JobNote, Reason};
use report_reader::value_of;

// ---- a Job that is attached

fn job_kind(supervisor: bool, scoped: bool, lazy: bool) -> JobKind
    ensures { result ≡ job_kind supervisor scoped lazy }
{
    JobKind {
        supervisor,
        scoped,
        lazy,
    }
}

/// What sort of Job it is.
#[tactic(auto, unfolding(crate::specs::JobItems::kind_at))]
fn kind_at(word: &[u8]) -> Option<JobKind>
    ensures { result ≡ kind_at word.now }
{
    if word == b"plain".as_slice() {
        Some(job_kind(false, false, false))
    } else if word == b"lazy".as_slice() {
        Some(job_kind(false, false, true))
    } else if word == b"scope".as_slice() {
        Some(job_kind(false, true, false))
    } else if word == b"supervisor".as_slice() {
        Some(job_kind(true, true, false))
    } else {
        None
    }
}

/// Whether it is cancelled at once.
fn cancelled_by(words: &[&[u8]]) -> Option<bool>
    ensures { result ≡ cancelled_by (texts words.now) }
{
    if words.is_empty() {
        return Some(false);
    }
    let [word] = words else {
        return None;
    };
    if *word == b"cancelled".as_slice() {
        Some(true)
    } else {
        None
    }
}

fn attach_with(
    row: Option<Row>,
    parent: Option<Row>,
    tag: Option<Tag>,
    kind: Option<JobKind>,
    cancelled: Option<bool>,
) -> Option<JobNote>
    ensures { result ≡ attach_with row parent tag kind cancelled }
{
    let (Some(row), Some(parent), Some(tag), Some(kind), Some(cancelled)) = (
        row, parent, tag, kind, cancelled,
    ) else {
        return None;
    };
    Some(JobNote::Made(JobAct::Attach {
        parent,
        row,
        kind,
        tag,
        cancelled,
    }))
}

fn attach_by(words: &[&[u8]]) -> Option<JobNote>
    ensures { result ≡ attach_by (texts words.now) }
{
    let [row, to, parent, of, tag, kind, rest @ ..] = words else {
        return None;
    };
    if *to == b"to".as_slice() {
        if *of == b"tag".as_slice() {
            attach_with(
                row_at(*row),
                row_at(*parent),
                tag_at(*tag),
                kind_at(*kind),
                cancelled_by(rest),
            )
        } else {
            None
        }
    } else {
        None
    }
}

// ---- a Job that is cancelled

#[tactic(auto, unfolding(crate::specs::JobItems::reason_alone))]
fn reason_alone(how: &[u8]) -> Option<Reason>
    ensures { result ≡ reason_alone how.now }
{
    if how == b"request".as_slice() {
        Some(Reason::Request)
    } else if how == b"parent".as_slice() {
        Some(Reason::Parent)
    } else {
        None
    }
}

#[tactic(auto, unfolding(crate::specs::JobItems::reason_of_row))]
fn reason_of_row(how: &[u8], row: Row) -> Option<Reason>
    ensures { result ≡ reason_of_row how.now row }
{
    if how == b"child".as_slice() {
        Some(Reason::Child(row))
    } else if how == b"own".as_slice() {
        Some(Reason::Own(row))
    } else {
        None
    }
}

/// Why a Job is cancelled.
fn reason_by(words: &[&[u8]]) -> Option<Reason>
    ensures { result ≡ reason_by (texts words.now) }
{
    match words {
        [how] => reason_alone(*how),
        [how, row] => reason_of_row(*how, row_at(*row)?),
        _ => None,
    }
}

fn cancel_by(words: &[&[u8]]) -> Option<JobNote>
    ensures { result ≡ cancel_by (texts words.now) }
{
    let [row, why @ ..] = words else {
        return None;
    };
    let (Some(row), Some(reason)) = (row_at(*row), reason_by(why)) else {
        return None;
    };
    Some(JobNote::Made(JobAct::Cancel { row, reason }))
}

// ---- a Job that ends

fn end_body_by(words: &[&[u8]]) -> Option<JobNote>
    ensures { result ≡ end_body_by (texts words.now) }
{
    let [row, value] = words else {
        return None;
    };
    let (Some(row), Some(value)) = (row_at(*row), value_of(*value)) else {
        return None;
    };
    Some(JobNote::Made(JobAct::EndBody { row, value }))
}

#[tactic(auto, unfolding(crate::specs::JobItems::end_alone))]
fn end_alone(how: &[u8]) -> Option<End>
    ensures { result ≡ end_alone how.now }
{
    if how == b"cancelled".as_slice() {
        Some(End::Cancelled(Cause::Request))
    } else {
        None
    }
}

#[tactic(auto, unfolding(crate::specs::JobItems::end_with))]
fn end_with(how: &[u8], value: Option<Value>, row: Option<Row>) -> Option<End>
    ensures { result ≡ end_with how.now value row }
{
    if how == b"completed".as_slice() {
        Some(End::Completed(value?))
    } else if how == b"failed".as_slice() {
        Some(End::Cancelled(Cause::Failure(row?)))
    } else {
        None
    }
}

/// How a Job ended.
fn end_by(words: &[&[u8]]) -> Option<End>
    ensures { result ≡ end_by (texts words.now) }
{
    match words {
        [how] => end_alone(*how),
        [how, n] => end_with(*how, value_of(*n), row_at(*n)),
        _ => None,
    }
}

fn finish_by(words: &[&[u8]]) -> Option<JobNote>
    ensures { result ≡ finish_by (texts words.now) }
{
    let [row, how @ ..] = words else {
        return None;
    };
    let (Some(row), Some(end)) = (row_at(*row), end_by(how)) else {
        return None;
    };
    Some(JobNote::Made(JobAct::Finish { row, end }))
}

fn saw_end_by(words: &[&[u8]]) -> Option<JobNote>
    ensures { result ≡ saw_end_by (texts words.now) }
{
    let [row, how @ ..] = words else {
        return None;
    };
    let (Some(row), Some(end)) = (row_at(*row), end_by(how)) else {
        return None;
    };
    Some(JobNote::SawEnd { row, end })
}

fn fail_by(words: &[&[u8]]) -> Option<JobNote>
    ensures { result ≡ fail_by (texts words.now) }
{
    let [code] = words else {
        return None;
    };
    let code = value_of(*code)?;
    Some(JobNote::Fail { code })
}

// ---- items with a row at most, and all items

#[tactic(auto, unfolding(crate::specs::JobItems::of_no_word))]
fn of_no_word(verb: &[u8]) -> Option<JobNote>
    ensures { result ≡ of_no_word verb.now }
{
    if verb == b"norow".as_slice() {
        Some(JobNote::NoRow)
    } else if verb == b"used".as_slice() {
        Some(JobNote::Used)
    } else if verb == b"parentended".as_slice() {
        Some(JobNote::ParentEnded)
    } else {
        None
    }
}

#[tactic(auto, unfolding(crate::specs::JobItems::of_row))]
fn of_row(verb: &[u8], row: Row) -> Option<JobNote>
    ensures { result ≡ of_row verb.now row }
{
    if verb == b"start".as_slice() {
        Some(JobNote::Made(JobAct::Start { row }))
    } else if verb == b"gone".as_slice() {
        Some(JobNote::Made(JobAct::Gone { row }))
    } else if verb == b"saw".as_slice() {
        Some(JobNote::Saw { row })
    } else {
        None
    }
}

fn plain_job_by(verb: &[u8], words: &[&[u8]]) -> Option<JobNote>
    ensures { result ≡ plain_job_by verb.now (texts words.now) }
{
    if words.is_empty() {
        return of_no_word(verb);
    }
    let [row] = words else {
        return None;
    };
    of_row(verb, row_at(*row)?)
}

/// The item of a Job that a verb and the words behind it are.
#[tactic(auto, unfolding(crate::specs::JobItems::job_item_by))]
pub(crate) fn job_item_by(verb: &[u8], words: &[&[u8]]) -> Option<JobNote>
    ensures { result ≡ job_item_by verb.now (texts words.now) }
{
    if verb == b"attach".as_slice() {
        attach_by(words)
    } else if verb == b"cancel".as_slice() {
        cancel_by(words)
    } else if verb == b"endbody".as_slice() {
        end_body_by(words)
    } else if verb == b"finish".as_slice() {
        finish_by(words)
    } else if verb == b"sawend".as_slice() {
        saw_end_by(words)
    } else if verb == b"fail".as_slice() {
        fail_by(words)
    } else {
        plain_job_by(verb, words)
    }
}
