//! The calls that attach, start and cancel Jobs, and those that end a body.

ghost use Rattle.std.specs.Prelude.{◌≡◌, ◌<◌};
ghost use Rattle.job_model.specs.Needs.{OwnsBody, MayEndBody};
ghost use Rattle.job_model.specs.Floors.{MayCall};
ghost use Rattle.call_meaning.specs.Seen.{seen_jobs, tree_in};
ghost use Rattle.call_meaning.specs.JobCalls.{reason_for};
ghost use Rattle.job_tree.specs.Callers.{HoldsFor};
ghost use Rattle.scope_builders.specs.Calls.{
  SameBuilder,
  seen,
  seen_on_jobs,
  IsAttached,
  MayBuild,
  LaunchAnswer,
  EnterAnswer,
  StartedAnswer,
  CancelledAllAnswer,
  EndedAnswer,
  BrokenAnswer,
};

use crate::builder::{Builder, LaunchError};
use crate::parts::{attach, cancel_first, cancel_tree, finish_up};
use call_meaning::JobsBeside;
use channel_model::ChannelFloor;
use co_base::{Memory, Row, Tag, Value, Wakes};
use job_model::{Attached, Ended, JobAct, JobFloor, JobKind, JobNote, Reason};
use job_tree::{make_room, wake_job};
use note_book::{Item, NoteBook};

/// Attaches the Job of a coroutine to a parent, on the floor of Jobs alone. The coroutine is to be polled, unless its Job is New.
pub fn attach_coroutine<J: JobFloor, B: NoteBook>(
    jobs: &mut J,
    book: &mut B,
    who: Tag,
    parent: Row,
    tag: Tag,
    lazy: bool,
) -> Result<Attached, LaunchError>
    requires can { MayCall who parent (J.view jobs.old) }
    requires tag { tag < (J.view jobs.old).shape.coroutines }
    ensures jobs_anchor { J.anchor jobs.new ≡ J.anchor jobs.old }
    ensures answer { LaunchAnswer parent tag lazy (seen_jobs J.view B.items who jobs.old book.old)
        (seen_jobs J.view B.items who jobs.new book.new) result }
{
    let kind = JobKind {
        supervisor: false,
        scoped: false,
        lazy,
    };
    attach(jobs, book, who, parent, kind, tag)
}

impl<C: ChannelFloor, J: JobsBeside<C>, B: NoteBook, W: Wakes> Builder<'_, '_, '_, '_, C, J, B, W> {
    /// Attaches the Job of a coroutine to a parent, and wakes the coroutine unless its Job is New.
    ///
    /// Example: `launch_and_cancel` in `docs/LIBRARY.md`.
    pub fn launch(&mut self, parent: Row, tag: Tag, lazy: bool) -> Result<Attached, LaunchError>
        requires may { MayBuild self.old.base (seen C.view J.view B.items self.old) }
        requires parent { IsAttached parent (seen_on_jobs J.view B.items self.old) }
        requires tag { tag < (J.view self.old.jobs.now).shape.coroutines }
        ensures same { SameBuilder C.anchor J.anchor self.old self.new }
        ensures channels { self.new.channels.now ≡ self.old.channels.now }
        ensures answer { LaunchAnswer parent tag lazy (seen_on_jobs J.view B.items self.old) (seen_on_jobs J.view B.items self.new) result }
    {
        let answer = attach_coroutine(self.jobs, self.book, self.who, parent, tag, lazy);
        if let Ok(child) = answer {
            if child.cancelled || !lazy {
                self.wakes.wake(tag);
            }
        }
        answer
    }

    /// Attaches the Job of a scope to a parent. Its body is the caller's.
    ///
    /// Example: `scope_result` in `docs/LIBRARY.md`.
    pub fn enter(&mut self, parent: Row, supervisor: bool) -> Result<Attached, LaunchError>
        requires may { MayBuild self.old.base (seen C.view J.view B.items self.old) }
        requires parent { IsAttached parent (seen_on_jobs J.view B.items self.old) }
        requires tag { self.old.who < (J.view self.old.jobs.now).shape.coroutines }
        ensures same { SameBuilder C.anchor J.anchor self.old self.new }
        ensures channels { self.new.channels.now ≡ self.old.channels.now }
        ensures answer { EnterAnswer parent supervisor (seen_on_jobs J.view B.items self.old)
            (seen_on_jobs J.view B.items self.new) result }
    {
        let kind = JobKind {
            supervisor,
            scoped: true,
            lazy: false,
        };
        attach(self.jobs, self.book, self.who, parent, kind, self.who)
    }

    /// Starts a Job that is New, and wakes its coroutine. The answer says whether it was New.
    pub fn start(&mut self, row: Row) -> Result<bool, Memory>
        requires may { MayBuild self.old.base (seen C.view J.view B.items self.old) }
        requires row { IsAttached row (seen_on_jobs J.view B.items self.old) }
        ensures same { SameBuilder C.anchor J.anchor self.old self.new }
        ensures channels { self.new.channels.now ≡ self.old.channels.now }
        ensures answer { StartedAnswer row (seen_on_jobs J.view B.items self.old) (seen_on_jobs J.view B.items self.new) result }
    {
        if let Err(memory) = make_room(self.jobs, self.book, 1) {
            return Err(memory);
        }
        if !self.jobs.start(self.who, row) {
            return Ok(false);
        }
        self.book
            .note(Item::Job(JobNote::Made(JobAct::Start { row })));
        wake_job(self.jobs, self.wakes, self.who, row);
        Ok(true)
    }

    /// Cancels a Job with all below it, and answers how many it cancelled. Memory: the Cancels made so far stand and are noted.
    ///
    /// Example: `launch_and_cancel` in `docs/LIBRARY.md`.
    pub fn cancel(&mut self, row: Row) -> Result<u32, Memory>
        requires may { MayBuild self.old.base (seen C.view J.view B.items self.old) }
        requires row { IsAttached row (seen_on_jobs J.view B.items self.old) }
        ensures same { SameBuilder C.anchor J.anchor self.old self.new }
        ensures channels { self.new.channels.now ≡ self.old.channels.now }
        ensures answer { CancelledAllAnswer row (seen_on_jobs J.view B.items self.old) (seen_on_jobs J.view B.items self.new) result }
    {
        match cancel_tree(
            self.jobs,
            self.book,
            self.wakes,
            self.who,
            row,
            Reason::Request,
        ) {
            Ok(passed) => Ok(passed.count),
            Err(memory) => Err(memory),
        }
    }

    /// Ends the body of the caller's own Job with a value, then the Job and its parents, as far as their ends are owed. Memory: the
    /// entries made so far stand and are noted.
    ///
    /// Example: `scope_result` in `docs/LIBRARY.md`.
    pub fn end_job(&mut self, row: Row, value: Value) -> Result<Ended, Memory>
        requires may { MayBuild self.old.base (seen C.view J.view B.items self.old) }
        requires own { MayEndBody self.old.who (tree_in (seen_on_jobs J.view B.items self.old) row) }
        ensures same { SameBuilder C.anchor J.anchor self.old self.new }
        ensures answer { EndedAnswer self.old.base row value (seen C.view J.view B.items self.old)
            (seen C.view J.view B.items self.new) result }
    {
        if let Err(memory) = make_room(self.jobs, self.book, 1) {
            return Err(memory);
        }
        let ended = self.jobs.end_body(self.who, row, value);
        let act = JobAct::EndBody { row, value };
        self.book.note(Item::Job(JobNote::Made(act)));
        self.jobs.tell(self.channels);
        match ended {
            Ended::Waits => Ok(Ended::Waits),
            Ended::Owes => match finish_up(
                self.channels,
                self.jobs,
                self.book,
                self.wakes,
                self.who,
                self.base,
                row,
            ) {
                Ok(()) => Ok(Ended::Owes),
                Err(memory) => Err(memory),
            },
        }
    }

    /// Breaks the body of the caller's own Job off: cancels the Job with all below it, by the failure of a row or as cancelled, takes
    /// the failure of a coroutine up to its parents, and ends the body. Where the Job is seen Cancelling, whoever cancelled it does
    /// that, and this call ends the body alone. Memory: the entries made so far stand and are noted.
    pub fn break_job(&mut self, row: Row, failure: Option<Row>) -> Result<Ended, Memory>
        requires may { MayBuild self.old.base (seen C.view J.view B.items self.old) }
        requires own { OwnsBody self.old.who (tree_in (seen_on_jobs J.view B.items self.old) row) }
        requires reason { HoldsFor row (reason_for failure) (seen_on_jobs J.view B.items self.old) }
        ensures same { SameBuilder C.anchor J.anchor self.old self.new }
        ensures answer { BrokenAnswer self.old.base row failure (seen C.view J.view B.items self.old)
            (seen C.view J.view B.items self.new) result }
    {
        let first = cancel_first(self.jobs, self.book, self.wakes, self.who, row, failure);
        self.jobs.tell(self.channels);
        if let Err(memory) = first {
            return Err(memory);
        }
        self.end_job(row, 0)
    }
}
