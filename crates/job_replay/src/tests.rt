//! Which acts may come now, by the rows.

ghost use Rattle.std.specs.Prelude.{◌≡◌, Bool, List};
ghost use Rattle.job_model.specs.declared.acts.JobAct.TheVariants.{Attach};
ghost use Rattle.job_model.specs.declared.acts.Reason.TheVariants.{Own};
ghost use Rattle.job_model.specs.Trees.{is_failure_of};
ghost use Rattle.job_model.specs.Steps.{is_end, is_number, is_row_for, same_cause};
ghost use Rattle.job_replay.specs.Sizes.{shape_of};
ghost use Rattle.job_replay.specs.Rows.{end_of_row, item_in, parent_in, parent_item, tag_in};
ghost use Rattle.job_replay.specs.Tests.{any_failed, does_hold, ended_by_failure, is_failed_child, is_finished_by, is_supervisor, may_be_cancelled, may_end_body, may_finish, may_have_child, may_in, may_start, may_tell, was_cancelled};

use crate::job_row::{JobRow, JobSize};
use crate::rows::{bit_at, row_at};
use co_base::{Row, Tag};
use job_model::{Cause, End, JobAct, JobKind, JobState, Reason};

// ---- parts

/// The row of a coroutine is its tag; a scope of who has one of the rows after the last coroutine's.
fn is_row_for(size: JobSize, who: Tag, kind: JobKind, tag: Tag, row: Row) -> bool
    ensures { result ≡ is_row_for (shape_of size) who kind tag row }
{
    if kind.scoped {
        tag == who && size.coroutines <= row && row < size.rows
    } else {
        row == tag
    }
}

fn is_number(number: u16, value: Option<u16>) -> bool
    ensures { result ≡ is_number number value }
{
    match value {
        Some(x) => x == number,
        None => false,
    }
}

fn same_cause(left: Cause, right: Cause) -> bool
    ensures { result ≡ same_cause left right }
{
    match (left, right) {
        (Cause::None, Cause::None) | (Cause::Request, Cause::Request) => true,
        (Cause::Failure(f), Cause::Failure(g)) => f == g,
        _ => false,
    }
}

/// The end of a Job that is Completing or Cancelling.
fn end_of(job: JobRow) -> Option<End>
    ensures { result ≡ end_of_row job.state job }
{
    match job.state {
        JobState::Completing => Some(End::Completed(job.value)),
        JobState::Cancelling => Some(End::Cancelled(job.cause)),
        JobState::New | JobState::Active | JobState::Cancelled | JobState::Completed => None,
    }
}

fn is_end(end: End, value: Option<End>) -> bool
    ensures { result ≡ is_end end value }
{
    match (value, end) {
        (Some(End::Completed(v)), End::Completed(w)) => v == w,
        (Some(End::Cancelled(c)), End::Cancelled(d)) => same_cause(c, d),
        _ => false,
    }
}

// ---- a row

fn may_have_child(job: Option<JobRow>, cancelled: bool) -> bool
    ensures { result ≡ may_have_child cancelled job }
{
    match job {
        Some(job) => match job.state {
            JobState::New | JobState::Active | JobState::Completing => !cancelled,
            JobState::Cancelling => cancelled,
            JobState::Cancelled | JobState::Completed => false,
        },
        None => false,
    }
}

fn may_start(job: Option<JobRow>) -> bool
    ensures { result ≡ may_start job }
{
    match job {
        Some(job) => job.state.is_new(),
        None => false,
    }
}

fn may_end_body(job: Option<JobRow>, who: Tag) -> bool
    ensures { result ≡ may_end_body who job }
{
    match job {
        Some(job) => job.tag == who && !job.state.is_new() && !job.body_ended,
        None => false,
    }
}

fn may_be_cancelled(job: Option<JobRow>) -> bool
    ensures { result ≡ may_be_cancelled job }
{
    match job {
        Some(job) => job.state.is_cancellable(),
        None => false,
    }
}

fn may_finish(job: Option<JobRow>, end: End) -> bool
    ensures { result ≡ may_finish end job }
{
    match job {
        Some(job) => job.body_ended && job.living == 0 && is_end(end, end_of(job)),
        None => false,
    }
}

fn is_finished_by(job: Option<JobRow>, who: Tag) -> bool
    ensures { result ≡ is_finished_by who job }
{
    match job {
        Some(job) => is_number(who, job.finisher),
        None => false,
    }
}

fn may_tell(job: Option<JobRow>, who: Tag, row: Row, gone: bool) -> bool
    ensures { result ≡ may_tell who row gone job }
{
    is_finished_by(job, who) && !gone && row != 0
}

// ---- reasons

fn was_cancelled(job: Option<JobRow>) -> bool
    ensures { result ≡ was_cancelled job }
{
    match job {
        Some(job) => job.state.is_cancelled(),
        None => false,
    }
}

fn parent_in(job: Option<JobRow>) -> Option<Row>
    ensures { result ≡ parent_in job }
{
    match job {
        Some(job) => job.parent,
        None => None,
    }
}

fn parent_item(rows: &Vec<Option<JobRow>>, parent: Option<Row>) -> Option<JobRow>
    ensures { result ≡ parent_item rows.now.items parent }
{
    match parent {
        Some(parent) => row_at(rows, parent),
        None => None,
    }
}

fn is_failed_child(job: Option<JobRow>, row: Row) -> bool
    ensures { result ≡ is_failed_child row job }
{
    match job {
        Some(job) => {
            is_number(row, job.parent) && matches!(job.cause, Cause::Failure(_)) && !job.kind.scoped
        }
        None => false,
    }
}

fn is_supervisor(job: Option<JobRow>) -> bool
    ensures { result ≡ is_supervisor job }
{
    match job {
        Some(job) => job.kind.supervisor,
        None => false,
    }
}

fn is_failure_of(row: Row, cause: Cause) -> bool
    ensures { result ≡ is_failure_of row cause }
{
    match cause {
        Cause::Failure(f) => row == f,
        Cause::None | Cause::Request => false,
    }
}

fn ended_by_failure(job: Option<JobRow>, row: Row) -> bool
    ensures { result ≡ ended_by_failure row job }
{
    match job {
        Some(job) => job.state.is_completed() && is_failure_of(row, job.cause),
        None => false,
    }
}

/// Whether a Job has ended by the failure of this row. It goes through all rows.
fn any_failed(rows: &Vec<Option<JobRow>>, count: u16, row: Row) -> bool
    ensures { result ≡ any_failed count rows.now.items row }
{
    let mut left = count;
    while left > 0 {
        left -= 1;
        if ended_by_failure(row_at(rows, left), row) {
            return true;
        }
    }
    false
}

fn tag_in(job: Option<JobRow>) -> Option<Tag>
    ensures { result ≡ tag_in job }
{
    match job {
        Some(job) => Some(job.tag),
        None => None,
    }
}

/// Whether the failure of this row may end the body of another: its own, that of who, or one that ended a Job.
fn may_fail(rows: &Vec<Option<JobRow>>, count: u16, who: Tag, row: Row, failed: Row) -> bool
    ensures { result ≡ does_hold count rows.now.items who row (Own failed) }
{
    is_number(who, tag_in(row_at(rows, row)))
        && (failed == row || failed == who || any_failed(rows, count, failed))
}

fn does_hold(rows: &Vec<Option<JobRow>>, count: u16, who: Tag, row: Row, reason: Reason) -> bool
    ensures { result ≡ does_hold count rows.now.items who row reason }
{
    match reason {
        Reason::Request => true,
        Reason::Parent => was_cancelled(parent_item(rows, parent_in(row_at(rows, row)))),
        Reason::Child(child) => {
            is_failed_child(row_at(rows, child), row) && !is_supervisor(row_at(rows, row))
        }
        Reason::Own(failed) => may_fail(rows, count, who, row, failed),
    }
}

// ---- acts

#[allow(clippy::too_many_arguments)]
fn may_attach(
    size: JobSize,
    rows: &Vec<Option<JobRow>>,
    who: Tag,
    parent: Row,
    row: Row,
    kind: JobKind,
    tag: Tag,
    cancelled: bool,
) -> bool
    ensures { (gone : List Bool) → result ≡ may_in (shape_of size) rows.now.items gone who (Attach parent row kind tag cancelled) }
{
    row_at(rows, row).is_none()
        && may_have_child(row_at(rows, parent), cancelled)
        && tag < size.coroutines
        && is_row_for(size, who, kind, tag, row)
}

/// Whether who may make this act now.
pub(crate) fn may_make(
    size: JobSize,
    rows: &Vec<Option<JobRow>>,
    gone: &Vec<bool>,
    who: Tag,
    act: &JobAct,
) -> bool
    ensures { result ≡ may_in (shape_of size) rows.now.items gone.now.items who act.now }
{
    match *act {
        JobAct::Attach {
            parent,
            row,
            kind,
            tag,
            cancelled,
        } => may_attach(size, rows, who, parent, row, kind, tag, cancelled),
        JobAct::Start { row } => may_start(row_at(rows, row)),
        JobAct::EndBody { row, .. } => may_end_body(row_at(rows, row), who),
        JobAct::Cancel { row, reason } => {
            may_be_cancelled(row_at(rows, row)) && does_hold(rows, size.rows, who, row, reason)
        }
        JobAct::Finish { row, end } => may_finish(row_at(rows, row), end),
        JobAct::Gone { row } => may_tell(row_at(rows, row), who, row, bit_at(gone, row)),
    }
}
