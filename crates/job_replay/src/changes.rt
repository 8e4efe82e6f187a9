//! What an act leaves of the rows.

ghost use Rattle.std.specs.Prelude.{◌≡◌};
ghost use Rattle.job_model.specs.Effects.{state_of_end};
ghost use Rattle.job_replay.specs.Rows.{item_in, one_more, parent_in};
ghost use Rattle.job_replay.specs.Changes.{Attaches, Changed, Changes, Lessens, bodiless_row, cancelled_row, cause_for, ended_row, new_row, started_row, with_less, with_more};

use crate::job_row::JobRow;
use crate::rows::{put_at, row_at, set_at};
use co_base::{Row, Tag, Value};
use job_model::{Cause, End, JobAct, JobKind, JobState, Reason};

// ---- a row

/// A child as it is attached.
fn new_row(parent: Row, kind: JobKind, tag: Tag, cancelled: bool) -> JobRow
    ensures { result ≡ new_row parent kind tag cancelled }
{
    let state = if cancelled {
        JobState::Cancelling
    } else if kind.lazy {
        JobState::New
    } else {
        JobState::Active
    };
    JobRow {
        parent: Some(parent),
        kind,
        tag,
        state,
        body_ended: false,
        cause: if cancelled {
            Cause::Request
        } else {
            Cause::None
        },
        value: 0,
        living: 0,
        finisher: None,
    }
}

/// The Job after its body ended.
fn without_body(job: JobRow, value: Value) -> JobRow
    ensures { result ≡ bodiless_row value job }
{
    match job.state {
        JobState::Active => JobRow {
            body_ended: true,
            state: JobState::Completing,
            value,
            ..job
        },
        JobState::New
        | JobState::Completing
        | JobState::Cancelling
        | JobState::Cancelled
        | JobState::Completed => JobRow {
            body_ended: true,
            ..job
        },
    }
}

/// The state of a Job that ended so.
fn state_of_end(end: End) -> JobState
    ensures { result ≡ state_of_end end }
{
    match end {
        End::Completed(_) => JobState::Completed,
        End::Cancelled(_) => JobState::Cancelled,
    }
}

fn one_more(count: u32) -> u32
    ensures { result ≡ one_more count }
{
    if count < 4294967295 { count + 1 } else { count }
}

/// The cause of a Job that is cancelled for this reason.
fn cause_for(rows: &Vec<Option<JobRow>>, reason: Reason) -> Cause
    ensures { result ≡ cause_for rows.now.items reason }
{
    match reason {
        Reason::Request | Reason::Parent => Cause::Request,
        Reason::Child(child) => match row_at(rows, child) {
            Some(job) => job.cause,
            None => Cause::None,
        },
        Reason::Own(row) => Cause::Failure(row),
    }
}

// ---- the rows

fn start(rows: &mut Vec<Option<JobRow>>, row: Row)
    ensures { Changes row started_row rows.old.items rows.new.items }
{
    let Some(job) = row_at(rows, row) else {
        return;
    };
    let state = JobState::Active;
    put_at(rows, row, JobRow { state, ..job });
}

fn end_body(rows: &mut Vec<Option<JobRow>>, row: Row, value: Value)
    ensures { Changes row (bodiless_row value) rows.old.items rows.new.items }
{
    let Some(job) = row_at(rows, row) else {
        return;
    };
    put_at(rows, row, without_body(job, value));
}

fn cancel(rows: &mut Vec<Option<JobRow>>, row: Row, cause: Cause)
    ensures { Changes row (cancelled_row cause) rows.old.items rows.new.items }
{
    let Some(job) = row_at(rows, row) else {
        return;
    };
    let state = JobState::Cancelling;
    put_at(
        rows,
        row,
        JobRow {
            state,
            cause,
            value: 0,
            ..job
        },
    );
}

fn finish(rows: &mut Vec<Option<JobRow>>, who: Tag, row: Row, end: End)
    ensures { Changes row (ended_row who end) rows.old.items rows.new.items }
{
    let Some(job) = row_at(rows, row) else {
        return;
    };
    let state = state_of_end(end);
    let finisher = Some(who);
    put_at(
        rows,
        row,
        JobRow {
            state,
            finisher,
            ..job
        },
    );
}

fn add_child(rows: &mut Vec<Option<JobRow>>, row: Row)
    ensures { Changes row with_more rows.old.items rows.new.items }
{
    let Some(job) = row_at(rows, row) else {
        return;
    };
    let living = one_more(job.living);
    put_at(rows, row, JobRow { living, ..job });
}

fn lose_child(rows: &mut Vec<Option<JobRow>>, row: Row)
    ensures { Changes row with_less rows.old.items rows.new.items }
{
    let Some(job) = row_at(rows, row) else {
        return;
    };
    let living = job.living.saturating_sub(1);
    put_at(rows, row, JobRow { living, ..job });
}

fn attach(rows: &mut Vec<Option<JobRow>>, parent: Row, row: Row, child: JobRow)
    ensures { Attaches parent row child rows.old.items rows.new.items }
{
    add_child(rows, parent);
    put_at(rows, row, child);
}

fn tell(rows: &mut Vec<Option<JobRow>>, parent: Option<Row>)
    ensures { Lessens parent rows.old.items rows.new.items }
{
    if let Some(parent) = parent {
        lose_child(rows, parent);
    }
}

fn parent_at(rows: &Vec<Option<JobRow>>, row: Row) -> Option<Row>
    ensures { result ≡ parent_in (item_in rows.now.items row) }
{
    match row_at(rows, row) {
        Some(job) => job.parent,
        None => None,
    }
}

/// Makes this act of who.
pub(crate) fn make(rows: &mut Vec<Option<JobRow>>, gone: &mut Vec<bool>, who: Tag, act: &JobAct)
    ensures { Changed who act.now rows.old.items rows.new.items gone.old.items gone.new.items }
{
    match *act {
        JobAct::Attach {
            parent,
            row,
            kind,
            tag,
            cancelled,
        } => attach(rows, parent, row, new_row(parent, kind, tag, cancelled)),
        JobAct::Start { row } => start(rows, row),
        JobAct::EndBody { row, value } => end_body(rows, row, value),
        JobAct::Cancel { row, reason } => {
            let cause = cause_for(rows, reason);
            cancel(rows, row, cause);
        }
        JobAct::Finish { row, end } => finish(rows, who, row, end),
        JobAct::Gone { row } => {
            let parent = parent_at(rows, row);
            tell(rows, parent);
            set_at(gone, row);
        }
    }
}
