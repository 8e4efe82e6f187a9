//! Calls on a floor of Jobs that look first whether they may be made.
ghost use Rattle.std.specs.Prelude.{◌≡◌, true, is_some, IfOk};
ghost use Rattle.job_model.specs.Histories.{replay};
ghost use Rattle.job_model.specs.Floors.{SameSetting};
ghost use Rattle.floor_tests.specs.Shares.{IsReady, row_of};

use crate::no_wakes::NoWakes;
use co_base::{Memory, Row, Tag, Value};
use job_model::{
    AttachError, Attached, CancelledNow, Ended, Finished, JobFloor, JobKind, JobView, Link, Reason,
};
use job_tree::JobCaller;
use note_book::{NoteBook, Notes};
use std::alloc::Global;

/// A call that one tag makes.
#[derive(Clone, Copy)]
pub enum Call {
    Attach {
        parent: Row,
        kind: JobKind,
        tag: Tag,
    },
    Start {
        row: Row,
    },
    EndBody {
        row: Row,
        value: Value,
    },
    CancelOne {
        row: Row,
    },
    CancelPass {
        row: Row,
    },
    Finish {
        row: Row,
    },
    /// The Finish, and if that was made, the word to the parent.
    FinishAndTell {
        row: Row,
    },
    Look {
        row: Row,
    },
    Link {
        row: Row,
    },
}

/// What a call answers.
#[derive(Clone, Copy, PartialEq)]
pub enum Answer {
    /// The call may not be made.
    NotMade,
    Attached(Result<Attached, AttachError>),
    Started(bool),
    Ended(Ended),
    Cancelled(CancelledNow),
    Passed(u32),
    Finished(Finished),
    FinishedAndTold(Finished, Ended),
    Seen(Option<JobView>),
    Linked(Link),
}

/// Whether the row is attached.
pub fn is_attached<J: JobFloor>(jobs: &mut J, who: Tag, row: Row) -> bool
    requires caller { (J.view jobs.old).callers who ≡ true }
    ensures anchor { J.anchor jobs.new ≡ J.anchor jobs.old }
    ensures same { SameSetting (J.view jobs.old) (J.view jobs.new) }
    ensures attached { result ≡ true → is_some (replay (J.view jobs.new).seen row) ≡ true }
{
    if row >= jobs.rows() {
        return false;
    }
    match jobs.look(who, row) {
        Some(_) => true,
        None => false,
    }
}

/// The row that a call asks to be attached: for a look, which asks for none, the root.
fn row_of(call: Call) -> Row
    ensures { result ≡ row_of call }
{
    match call {
        Call::Attach { parent, .. } => parent,
        Call::Look { .. } => 0,
        Call::Start { row }
        | Call::EndBody { row, .. }
        | Call::CancelOne { row }
        | Call::CancelPass { row }
        | Call::Finish { row }
        | Call::FinishAndTell { row }
        | Call::Link { row } => row,
    }
}

/// Whether the row is attached; if it is, there is room for two entries.
fn is_ready<J: JobFloor>(jobs: &mut J, who: Tag, row: Row) -> Result<bool, Memory>
    requires caller { (J.view jobs.old).callers who ≡ true }
    ensures anchor { J.anchor jobs.new ≡ J.anchor jobs.old }
    ensures same { SameSetting (J.view jobs.old) (J.view jobs.new) }
    ensures ready { IfOk result (λ r. r ≡ true → IsReady who row (J.view jobs.new)) }
{
    if !is_attached(jobs, who, row) {
        return Ok(false);
    }
    match jobs.room(2) {
        Ok(()) => Ok(true),
        Err(memory) => Err(memory),
    }
}

/// Attaches a child, one of so many coroutines; where a call may not be made, it is not, and so in the others.
fn attach<J: JobFloor>(
    jobs: &mut J,
    coroutines: u16,
    who: Tag,
    parent: Row,
    kind: JobKind,
    tag: Tag,
) -> Answer
    requires ready { IsReady who parent (J.view jobs.old) }
    requires size { (J.view jobs.old).shape.coroutines ≡ coroutines }
    ensures anchor { J.anchor jobs.new ≡ J.anchor jobs.old }
    ensures same { SameSetting (J.view jobs.old) (J.view jobs.new) }
{
    if tag >= coroutines || (kind.scoped && tag != who) {
        return Answer::NotMade;
    }
    Answer::Attached(jobs.attach(who, parent, kind, tag))
}

/// Ends the body of the caller's own Job.
fn end_body<J: JobFloor>(jobs: &mut J, who: Tag, row: Row, value: Value) -> Answer
    requires ready { IsReady who row (J.view jobs.old) }
    ensures anchor { J.anchor jobs.new ≡ J.anchor jobs.old }
    ensures same { SameSetting (J.view jobs.old) (J.view jobs.new) }
{
    if row == 0 {
        return Answer::NotMade;
    }
    if jobs.link(who, row).tag != who {
        return Answer::NotMade;
    }
    let Some(job) = jobs.look(who, row) else {
        return Answer::NotMade;
    };
    if job.state.is_new() || job.body_ended {
        return Answer::NotMade;
    }
    Answer::Ended(jobs.end_body(who, row, value))
}

/// Cancels a Job alone, because its parent is Cancelling or Cancelled.
fn cancel_one<J: JobFloor>(jobs: &mut J, who: Tag, row: Row) -> Answer
    requires ready { IsReady who row (J.view jobs.old) }
    ensures anchor { J.anchor jobs.new ≡ J.anchor jobs.old }
    ensures same { SameSetting (J.view jobs.old) (J.view jobs.new) }
{
    if row == 0 {
        return Answer::NotMade;
    }
    let parent = jobs.link(who, row).parent;
    if parent >= jobs.rows() {
        return Answer::NotMade;
    }
    let Some(above) = jobs.look(who, parent) else {
        return Answer::NotMade;
    };
    if !above.state.is_cancelled() {
        return Answer::NotMade;
    }
    Answer::Cancelled(jobs.cancel_one(who, row, Reason::Parent))
}

fn cancel_pass<J: JobFloor>(
    jobs: &mut J,
    alloc: Global,
    who: Tag,
    row: Row,
) -> Result<Answer, Memory>
    requires ready { IsReady who row (J.view jobs.old) }
    ensures anchor { J.anchor jobs.new ≡ J.anchor jobs.old }
    ensures same { SameSetting (J.view jobs.old) (J.view jobs.new) }
{
    let mut book = Notes::new(alloc);
    match pass_over(jobs, &mut book, who, row) {
        Ok(count) => Ok(Answer::Passed(count)),
        Err(memory) => Err(memory),
    }
}

fn pass_over<J: JobFloor, B: NoteBook>(
    jobs: &mut J,
    book: &mut B,
    who: Tag,
    row: Row,
) -> Result<u32, Memory>
    requires ready { IsReady who row (J.view jobs.old) }
    ensures anchor { J.anchor jobs.new ≡ J.anchor jobs.old }
    ensures same { SameSetting (J.view jobs.old) (J.view jobs.new) }
{
    let rows = u32::from(jobs.rows());
    book.room(rows)?;
    jobs.room(rows)?;
    let mut wakes = NoWakes;
    let mut caller = JobCaller {
        floor: &mut *jobs,
        book: &mut *book,
        wakes: &mut wakes,
        who,
    };
    Ok(caller.cancel_pass(row, Reason::Request))
}

/// Ends a Job, if it may end, and tells its parent.
fn finish_and_tell<J: JobFloor>(jobs: &mut J, who: Tag, row: Row) -> Answer
    requires ready { IsReady who row (J.view jobs.old) }
    ensures anchor { J.anchor jobs.new ≡ J.anchor jobs.old }
    ensures same { SameSetting (J.view jobs.old) (J.view jobs.new) }
{
    if row == 0 {
        return Answer::NotMade;
    }
    match jobs.finish(who, row) {
        Finished::Now(end) => Answer::FinishedAndTold(Finished::Now(end), jobs.gone(who, row)),
        other => Answer::Finished(other),
    }
}

fn look<J: JobFloor>(jobs: &mut J, who: Tag, row: Row) -> Answer
    requires caller { (J.view jobs.old).callers who ≡ true }
    ensures anchor { J.anchor jobs.new ≡ J.anchor jobs.old }
    ensures same { SameSetting (J.view jobs.old) (J.view jobs.new) }
{
    if row >= jobs.rows() {
        return Answer::NotMade;
    }
    Answer::Seen(jobs.look(who, row))
}

fn link<J: JobFloor>(jobs: &mut J, who: Tag, row: Row) -> Answer
    requires ready { IsReady who row (J.view jobs.old) }
    ensures anchor { J.anchor jobs.new ≡ J.anchor jobs.old }
    ensures same { SameSetting (J.view jobs.old) (J.view jobs.new) }
{
    if row == 0 {
        return Answer::NotMade;
    }
    Answer::Linked(jobs.link(who, row))
}

/// Makes the call, whose row is attached, if it may be made.
fn make_ready<J: JobFloor>(
    jobs: &mut J,
    alloc: Global,
    coroutines: u16,
    who: Tag,
    call: Call,
) -> Result<Answer, Memory>
    requires ready { IsReady who (row_of call) (J.view jobs.old) }
    requires size { (J.view jobs.old).shape.coroutines ≡ coroutines }
    ensures anchor { J.anchor jobs.new ≡ J.anchor jobs.old }
    ensures same { SameSetting (J.view jobs.old) (J.view jobs.new) }
{
    match call {
        Call::Attach { parent, kind, tag } => Ok(attach(jobs, coroutines, who, parent, kind, tag)),
        Call::Start { row } => Ok(Answer::Started(jobs.start(who, row))),
        Call::EndBody { row, value } => Ok(end_body(jobs, who, row, value)),
        Call::CancelOne { row } => Ok(cancel_one(jobs, who, row)),
        Call::CancelPass { row } => cancel_pass(jobs, alloc, who, row),
        Call::Finish { row } => Ok(Answer::Finished(jobs.finish(who, row))),
        Call::FinishAndTell { row } => Ok(finish_and_tell(jobs, who, row)),
        Call::Look { row } => Ok(look(jobs, who, row)),
        Call::Link { row } => Ok(link(jobs, who, row)),
    }
}

/// Makes the call, if it may be made.
pub fn make<J: JobFloor>(
    jobs: &mut J,
    alloc: Global,
    coroutines: u16,
    who: Tag,
    call: Call,
) -> Result<Answer, Memory>
    requires caller { (J.view jobs.old).callers who ≡ true }
    requires size { (J.view jobs.old).shape.coroutines ≡ coroutines }
    ensures anchor { J.anchor jobs.new ≡ J.anchor jobs.old }
    ensures same { SameSetting (J.view jobs.old) (J.view jobs.new) }
{
    match is_ready(jobs, who, row_of(call)) {
        Ok(true) => make_ready(jobs, alloc, coroutines, who, call),
        Ok(false) => Ok(Answer::NotMade),
        Err(memory) => Err(memory),
    }
}
