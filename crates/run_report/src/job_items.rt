//! The acts and notes on Jobs, as they are printed.

ghost use Rattle.std.specs.Fmt.{decimal};
ghost use Rattle.std.specs.Prelude.{◌≡◌, ◌++◌};
ghost use lib.Chars.{codes};
ghost use Rattle.run_report.specs.Gatherings.{Adds};
ghost use Rattle.run_report.specs.JobTexts.{attached_text, end_text, job_act_text, job_kind_text, job_note_text, reason_text};

use crate::gathered::Gathered;
use crate::shown::{add_counted, add_pair};
use co_base::{Row, Tag};
use job_model::{Cause, End, JobAct, JobKind, JobNote, Reason};

/// The word for what sort of Job it is.
fn job_kind_word(kind: JobKind) -> &'static str
    ensures { result.now ≡ job_kind_text kind }
{
    if kind.scoped {
        if kind.supervisor {
            "supervisor"
        } else {
            "scope"
        }
    } else if kind.lazy {
        "lazy"
    } else {
        "plain"
    }
}

/// Adds what sort of Job was attached, and whether it was cancelled at once.
fn add_attached(text: &mut Gathered, kind: JobKind, cancelled: bool)
    ensures { Adds text.old text.new (attached_text kind cancelled) }
{
    let word = job_kind_word(kind);
    if cancelled {
        text.add_two(word, " cancelled")
    } else {
        text.add(word)
    }
}

/// Adds why a Cancel was made.
fn add_reason(text: &mut Gathered, reason: Reason)
    ensures { Adds text.old text.new (reason_text reason) }
{
    match reason {
        Reason::Request => text.add("request"),
        Reason::Parent => text.add("parent"),
        Reason::Child(child) => add_counted(text, "child ", child as u64),
        Reason::Own(failed) => add_counted(text, "own ", failed as u64),
    }
}

/// Adds how a Job ended.
pub(crate) fn add_end(text: &mut Gathered, end: End)
    ensures { Adds text.old text.new (end_text end) }
{
    match end {
        End::Completed(value) => add_counted(text, "completed ", value as u64),
        End::Cancelled(Cause::None) => text.add("cancelled"),
        End::Cancelled(Cause::Request) => text.add("cancelled"),
        End::Cancelled(Cause::Failure(failed)) => add_counted(text, "failed ", failed as u64),
    }
}

/// Adds a word, a row and how its Job ended.
fn add_ended(text: &mut Gathered, word: &str, row: Row, end: End)
    ensures { Adds text.old text.new (word.now ++ decimal row ++ codes " " ++ end_text end) }
{
    text.add(word);
    text.add_number(row as u64);
    text.add(" ");
    add_end(text, end);
}

/// Adds a Job that is cancelled, and why.
fn add_cancel(text: &mut Gathered, row: Row, reason: Reason)
    ensures { Adds text.old text.new (codes "cancel " ++ decimal row ++ codes " " ++ reason_text reason) }
{
    text.add("cancel ");
    text.add_number(row as u64);
    text.add(" ");
    add_reason(text, reason);
}

/// Adds a Job that is attached.
fn add_attach(text: &mut Gathered, row: Row, parent: Row, tag: Tag, kind: JobKind, cancelled: bool)
    ensures { Adds text.old text.new
        (codes "attach " ++ decimal row ++ codes " to " ++ decimal parent ++ codes " tag " ++ decimal tag
        ++ codes " " ++ attached_text kind cancelled) }
{
    text.add("attach ");
    text.add_number(row as u64);
    text.add(" to ");
    text.add_number(parent as u64);
    text.add(" tag ");
    text.add_number(tag as u64);
    text.add(" ");
    add_attached(text, kind, cancelled);
}

/// Adds an act on a Job.
fn add_job_act(text: &mut Gathered, act: JobAct)
    ensures { Adds text.old text.new (job_act_text act) }
{
    match act {
        JobAct::Attach {
            parent,
            row,
            kind,
            tag,
            cancelled,
        } => add_attach(text, row, parent, tag, kind, cancelled),
        JobAct::Start { row } => add_counted(text, "start ", row as u64),
        JobAct::EndBody { row, value } => add_pair(text, "endbody ", row as u64, value as u64),
        JobAct::Cancel { row, reason } => add_cancel(text, row, reason),
        JobAct::Finish { row, end } => add_ended(text, "finish ", row, end),
        JobAct::Gone { row } => add_counted(text, "gone ", row as u64),
    }
}

/// Adds a note on a Job.
pub(crate) fn add_job_note(text: &mut Gathered, note: JobNote)
    ensures { Adds text.old text.new (job_note_text note) }
{
    match note {
        JobNote::Made(act) => add_job_act(text, act),
        JobNote::Saw { row } => add_counted(text, "saw ", row as u64),
        JobNote::SawEnd { row, end } => add_ended(text, "sawend ", row, end),
        JobNote::Fail { code } => add_counted(text, "fail ", code as u64),
        JobNote::NoRow => text.add("norow"),
        JobNote::Used => text.add("used"),
        JobNote::ParentEnded => text.add("parentended"),
    }
}
