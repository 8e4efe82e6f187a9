//! The calls that wait for the end of a Job, and that see it.

ghost use Rattle.std.specs.Prelude.{◌≡◌, true, []};
ghost use Rattle.job_model.specs.Needs.{MayEndBody};
ghost use Rattle.job_model.specs.Histories.{replay};
ghost use Rattle.job_model.specs.Done.{done_channel};
ghost use Rattle.job_model.specs.Floors.{Looked};
ghost use Rattle.call_meaning.specs.Seen.{tree_in};
ghost use Rattle.call_meaning.specs.JobCalls.{Starts};
ghost use Rattle.scope_builders.specs.Dones.{ClosedIsSeen};
ghost use Rattle.scope_builders.specs.Parts.{OwnAnswer, goes_on, end_in};
ghost use Rattle.scope_builders.specs.Calls.{
  SameBuilder,
  seen,
  seen_on_jobs,
  IsAttached,
  MayBuild,
  ReceivesDone,
  AwaitsEnd,
  IsNothing,
  DoneAnswer,
  JoinAnswer,
  SeenEndAnswer,
};

use crate::builder::{Builder, Joined};
use crate::done_channels::receive_signal;
use call_meaning::JobsBeside;
use channel_model::ChannelFloor;
use co_base::{Memory, Row, Tag, Wakes};
use job_model::{End, JobFloor, JobNote, JobState, JobView, done_channel};
use note_book::{Item, NoteBook};

/// Whether a Job that is seen so goes on.
fn goes_on(job: Option<JobView>) -> bool
    ensures { result ≡ goes_on job }
{
    match job {
        None => false,
        Some(seen) => match seen.state {
            JobState::Cancelling => false,
            JobState::New | JobState::Active | JobState::Completing => true,
            JobState::Cancelled | JobState::Completed => true,
        },
    }
}

/// Whether the caller's own Job, whose body runs, goes on; else it is Cancelling.
fn may_run<J: JobFloor>(jobs: &mut J, who: Tag, own: Row) -> bool
    requires caller { (J.view jobs.old).callers who ≡ true }
    requires own { MayEndBody who (replay (J.view jobs.old).seen own) }
    ensures jobs_anchor { J.anchor jobs.new ≡ J.anchor jobs.old }
    ensures seen { OwnAnswer who own (J.view jobs.old) (J.view jobs.new) result }
{
    goes_on(jobs.look(who, own))
}

/// How a Job that is seen so has ended, if it has.
fn end_in(job: Option<JobView>) -> Option<End>
    ensures { result ≡ end_in job }
{
    match job {
        None => None,
        Some(seen) => match seen.state {
            JobState::New | JobState::Active | JobState::Completing | JobState::Cancelling => None,
            JobState::Cancelled => Some(End::Cancelled(seen.cause)),
            JobState::Completed => Some(End::Completed(seen.value)),
        },
    }
}

impl<C: ChannelFloor, J: JobsBeside<C>, B: NoteBook, W: Wakes> Builder<'_, '_, '_, '_, C, J, B, W> {
    /// Waits for the end of a Job, unless the caller's own Job is seen Cancelling. A Job that is New is started.
    ///
    /// It asks more of the own Job than the look at it needs: its body is the caller's, may run and has not ended.
    pub fn join(&mut self, own: Row, row: Row) -> Result<Joined, Memory>
        requires may { MayBuild self.old.base (seen C.view J.view B.items self.old) }
        requires own { MayEndBody self.old.who (tree_in (seen_on_jobs J.view B.items self.old) own) }
        requires row { IsAttached row (seen_on_jobs J.view B.items self.old) }
        ensures same { SameBuilder C.anchor J.anchor self.old self.new }
        ensures answer { JoinAnswer self.old.base own row (seen C.view J.view B.items self.old)
            (seen C.view J.view B.items self.new) result }
        ensures closed { ClosedIsSeen (done_channel self.old.base row) (C.view self.new.channels.now) result }
    {
        if let Err(memory) = self.book.room(1) {
            return Err(memory);
        }
        if !may_run(self.jobs, self.who, own) {
            self.book.note(Item::Job(JobNote::Saw { row: own }));
            self.jobs.tell(self.channels);
            return Ok(Joined::Cancelled);
        }
        self.jobs.tell(self.channels);
        self.await_end(row)
    }

    /// Waits for the end of a Job, without a look at the caller's own. A Job that is New is started. The answer is never Cancelled.
    pub fn await_end(&mut self, row: Row) -> Result<Joined, Memory>
        requires may { MayBuild self.old.base (seen C.view J.view B.items self.old) }
        requires row { IsAttached row (seen_on_jobs J.view B.items self.old) }
        ensures same { SameBuilder C.anchor J.anchor self.old self.new }
        ensures answer { DoneAnswer self.old.base (AwaitsEnd self.old.base row) (Starts row)
            (seen C.view J.view B.items self.old) (seen C.view J.view B.items self.new) result }
        ensures closed { ClosedIsSeen (done_channel self.old.base row) (C.view self.new.channels.now) result }
    {
        if let Err(memory) = self.start(row) {
            return Err(memory);
        }
        self.jobs.tell(self.channels);
        self.receive_done(row)
    }

    /// Receives on the done channel of a Job, as at the end of a scope. The answer is never Cancelled.
    ///
    /// Example: `result_of` in `docs/LIBRARY.md`.
    pub fn receive_done(&mut self, row: Row) -> Result<Joined, Memory>
        requires may { MayBuild self.old.base (seen C.view J.view B.items self.old) }
        requires row { IsAttached row (seen_on_jobs J.view B.items self.old) }
        ensures same { SameBuilder C.anchor J.anchor self.old self.new }
        ensures jobs { Looked self.old.who [] (J.view self.old.jobs.now) (J.view self.new.jobs.now) }
        ensures answer { DoneAnswer self.old.base (ReceivesDone self.old.base row) IsNothing
            (seen C.view J.view B.items self.old) (seen C.view J.view B.items self.new) result }
        ensures closed { ClosedIsSeen (done_channel self.old.base row) (C.view self.new.channels.now) result }
    {
        let answer = receive_signal(
            self.channels,
            self.book,
            self.who,
            done_channel(self.base, row),
        );
        self.jobs.hear(self.channels);
        answer
    }

    /// How a Job ended, if it has ended.
    ///
    /// Example: `result_of` in `docs/LIBRARY.md`.
    pub fn seen_end(&mut self, row: Row) -> Result<Option<End>, Memory>
        requires may { MayBuild self.old.base (seen C.view J.view B.items self.old) }
        requires row { IsAttached row (seen_on_jobs J.view B.items self.old) }
        ensures same { SameBuilder C.anchor J.anchor self.old self.new }
        ensures wakes { self.new.wakes.now ≡ self.old.wakes.now }
        ensures channels { self.new.channels.now ≡ self.old.channels.now }
        ensures answer { SeenEndAnswer row (seen_on_jobs J.view B.items self.old) (seen_on_jobs J.view B.items self.new) result }
    {
        if let Err(memory) = self.book.room(1) {
            return Err(memory);
        }
        match end_in(self.jobs.look(self.who, row)) {
            Some(end) => {
                self.book.note(Item::Job(JobNote::SawEnd { row, end }));
                Ok(Some(end))
            }
            None => Ok(None),
        }
    }
}
