//! A Job as a future.
ghost use Rattle.std.specs.Prelude.{◌≡◌, ◌≤◌, ◌<◌, ◌+◌, ◌^◌, length, true, is_some, None, IfOk, OnErr, IsSomeAnd};
ghost use Rattle.futures.specs.Task.{Covers, Keeps};
ghost use Rattle.futures.specs.Poll.{IfReady, OnPending};
ghost use Rattle.co_base.specs.Streams.{Rose};
ghost use Rattle.channel_model.specs.declared.acts.Kind.TheVariants.{Signal};
ghost use Rattle.channel_model.specs.Channels.{kind_at};
ghost use Rattle.job_model.specs.Histories.{replay};
ghost use Rattle.job_model.specs.Done.{done_channel};
ghost use Rattle.job_words.specs.Forests.{IsOwn as IsOwnOfJobs};
ghost use Rattle.cell_words.specs.Hubs.{shape_of, IsOwn};
ghost use Rattle.future_bridge.specs.Jobs.{FutureStands, FutureGives, GivesNoMore, IsLeftAwaiting, IsNewWait, JobEnds, jobs_seen};

use crate::drives::Drive;
use crate::receiving::Spent;
use crate::starts::start_first;
use crate::steps::{Step, step_on};
use cell_words::{Hub, Pass};
use co_base::{ChannelId, Failed, Place, Row, Tag, Value};
use futures::Future;
use futures::task::{Context, Poll};
use job_model::done_channel;
use job_words::{Forest, JobPass};

/// Who waits for a Job, and where.
#[derive(Drop)]
pub struct JobWait<'hub, 'forest> {
    pub(crate) hub: &'hub Hub,
    pub(crate) pass: Pass,
    pub(crate) forest: &'forest Forest,
    pub(crate) jobs: JobPass,
    pub(crate) who: Tag,
    pub(crate) row: Row,
    pub(crate) done: ChannelId,
    /// The place of its receiver on the done channel, once it was placed.
    pub(crate) wait: Option<Place>,
}

/// Waits for the end of a Job, which its first poll starts if it is New, and gives both passes back. It ends with the
/// value that the Job's done channel was closed with, or with `Spent` if the done channel has no place left.
#[derive(Drop)]
pub struct JobFuture<'hub, 'forest> {
    pub(crate) state: Option<JobWait<'hub, 'forest>>,
}

impl<'hub, 'forest> JobFuture<'hub, 'forest> {
    /// A future that did nothing yet. The done channel of the row is `done_channel(base, row)`.
    pub fn new(
        hub: &'hub Hub,
        pass: Pass,
        forest: &'forest Forest,
        jobs: JobPass,
        base: ChannelId,
        who: Tag,
        row: Row,
    ) -> JobFuture<'hub, 'forest>
        requires own { IsOwn hub.now pass who }
        requires jobs { IsOwnOfJobs forest.now jobs who }
        requires attached { is_some (replay (jobs_seen jobs).seen row) ≡ true }
        requires base { base + row < 2 ^ 16 }
        requires channel { done_channel base row < length (shape_of hub.now) }
        requires kind { kind_at (shape_of hub.now) (done_channel base row) ≡ Signal }
        ensures stands { FutureStands result }
        ensures new { IsSomeAnd result.state (IsNewWait hub.now pass forest.now jobs who row (done_channel base row)) }
    {
        let done = done_channel(base, row);
        JobFuture {
            state: Some(JobWait {
                hub,
                pass,
                forest,
                jobs,
                who,
                row,
                done,
                wait: None,
            }),
        }
    }

    /// What a poll does, for one who waits in another way: starts the Job at the first time, and looks whether it ended.
    pub fn step(&mut self) -> Poll<(Pass, JobPass, Result<Value, Spent>)>
        requires { FutureStands self.old }
        ensures value { IfReady result (FutureGives self.old) }
        ensures again { OnPending result (FutureStands self.new) }
        ensures same { OnPending result (GivesNoMore self.old self.new) }
        ensures waits { OnPending result (IsLeftAwaiting self.old self.new) }
    {
        let Some(taken) = self.state.take() else {
            unreachable!()
        };
        let JobWait {
            hub,
            mut pass,
            forest,
            mut jobs,
            who,
            row,
            done,
            wait,
        } = taken;
        start_first(forest, &mut jobs, who, row, wait);
        match step_on(hub, &mut pass, who, done, wait) {
            Step::Item(_value) => unreachable!(),
            Step::Ended(v) => Poll::Ready((pass, jobs, Ok(v))),
            Step::Spent => Poll::Ready((pass, jobs, Err(Spent))),
            Step::Waits(place) => {
                self.state = Some(JobWait {
                    hub,
                    pass,
                    forest,
                    jobs,
                    who,
                    row,
                    done,
                    wait: Some(place),
                });
                Poll::Pending
            }
        }
    }
}

impl<'hub, 'forest> Future for JobFuture<'hub, 'forest> {
    type Output = (Pass, JobPass, Result<Value, Spent>);

    ghost can_poll = { FutureStands };

    ghost gives = { FutureGives };

    fn poll(&mut self, cx: &mut Context<'_>) -> Poll<Self::Output>
        requires { FutureStands self.old }
        ensures value { IfReady result (FutureGives self.old) }
        ensures again { OnPending result (FutureStands self.new) }
        ensures same { OnPending result (GivesNoMore self.old self.new) }
        ensures registered { OnPending result (Covers cx.new (λ s. ⊥)) }
        ensures kept { Keeps cx.old cx.new }
        ensures waits { OnPending result (IsLeftAwaiting self.old self.new) }
        ensures yields { OnPending result (cx.new.is_woken ≡ true) }
    {
        match self.step() {
            Poll::Ready(given) => Poll::Ready(given),
            Poll::Pending => cx.yield_now(),
        }
    }
}

/// Waits for the end of a Job, which it starts if it is New, and gives both passes back. If the drive fails both
/// are dropped, and their entries stand.
///
/// Example: `result_awaited` in `docs/LIBRARY.md`.
pub fn await_job<D: Drive>(
    drive: &mut D,
    hub: &Hub,
    pass: Pass,
    forest: &Forest,
    jobs: JobPass,
    base: ChannelId,
    who: Tag,
    row: Row,
) -> Result<(Pass, JobPass, Result<Value, Spent>), Failed>
    requires own { IsOwn hub.now pass who }
    requires jobs { IsOwnOfJobs forest.now jobs who }
    requires attached { is_some (replay (jobs_seen jobs).seen row) ≡ true }
    requires base { base + row < 2 ^ 16 }
    requires channel { done_channel base row < length (shape_of hub.now) }
    requires kind { kind_at (shape_of hub.now) (done_channel base row) ≡ Signal }
    ensures ended { IfOk result (λ r. JobEnds hub.now pass forest.now jobs who row (done_channel base row) None r.0 r.1 r.2) }
    ensures failed { OnErr result (Rose (D.faults drive.old) (D.faults drive.new)) }
    ensures rises { D.faults drive.old ≤ D.faults drive.new }
{
    drive.drive(JobFuture::new(hub, pass, forest, jobs, base, who, row))
}
