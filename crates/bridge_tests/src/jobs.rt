//! What futures of Jobs give, and a thread that sleeps until a Job has ended. The passes meet before each call.
ghost use Rattle.std.specs.Prelude.{◌≡◌, ◌∷◌, [], IfOk, IfSome, true, is_some};
ghost use Rattle.channel_model.specs.declared.acts.Kind.TheVariants.{Signal};
ghost use Rattle.job_model.specs.Histories.{replay};
ghost use Rattle.cell_words.specs.Hubs.{shape_of, IsOwn};
ghost use Rattle.job_words.specs.Forests.{IsOwn as IsOwnOfJobs};
ghost use Rattle.future_bridge.specs.Jobs.{FutureStands, jobs_seen};
ghost use Rattle.bridge_tests.specs.Families.{IsFamily};

use crate::asleep::sleeps;
use crate::job_calls::sees_job;
use crate::pass_calls::{end_at, meet_passes};
use cell_calls::{close, receive};
use cell_words::{Hub, Pass};
use channel_model::{Got, Kind};
use co_base::{Memory, Value};
use floor_tests::forest_shares::{Answer, Call, make_by, meet_both, new_forest, split_off};
use future_bridge::{Drive, HostDrive, JobFuture, Spent, await_job};
use futures::Future;
use futures::task::{Context, Poll};
use job_model::{Attached, End, Ended, Finished, JobKind};
use job_words::{Forest, JobPass};
use ring_bridge::Bells;
use std::alloc::{AllocGlobal, Global};
use std::random::RandomSource;
use std::sync::Wait;
use std::thread::Threads;
use std::time::Clock;

/// What is checked: the functions of these names.
#[derive(Clone, Copy)]
enum Check {
    AJobThatEndsWhileItsFutureWaitsGivesItsResult,
    AJobThatEndedGivesItsResult,
    AJobWhoseDoneChannelIsSpentGivesNoResult,
}

/// Two done channels of one place and two coroutines, of which the root has attached none: the passes of the root, and of the other.
pub(crate) fn new_family(
    alloc: Global,
) -> Result<(Hub, Forest, Pass, JobPass, Pass, JobPass), Memory>
    ensures family { IfOk result (λ r. IsFamily r.0 r.1 r.2 r.3 r.4 r.5) }
{
    let (hub, mut root) = Hub::new(alloc, &[(Kind::Signal, 1), (Kind::Signal, 1)])?;
    let child = hub.split(&mut root, 1);
    let (forest, mut root_jobs) = new_forest(alloc, 2, 0)?;
    let child_jobs = split_off(&forest, &mut root_jobs, 1);
    Ok((hub, forest, root, root_jobs, child, child_jobs))
}

/// The kind of the other coroutine's Job.
const PLAIN: JobKind = JobKind {
    supervisor: false,
    scoped: false,
    lazy: false,
};

/// The root attaches the other coroutine, whose body then ends with 9: whether the tag was free, and no child lives.
pub(crate) fn is_attached_and_ended(
    alloc: Global,
    forest: &Forest,
    root: &mut JobPass,
    child: &mut JobPass,
) -> bool
    requires size { forest.now.size.coroutines ≡ 2 }
    requires root { IsOwnOfJobs forest.now root.old 0 }
    requires child { IsOwnOfJobs forest.now child.old 1 }
    ensures root { IsOwnOfJobs forest.now root.new 0 }
    ensures child { IsOwnOfJobs forest.now child.new 1 }
{
    let attach = Call::Attach {
        parent: 0,
        kind: PLAIN,
        tag: 1,
    };
    let attached = make_by(forest, 2, root, alloc, 0, attach);
    meet_both(forest, root, 0, child, 1);
    let ended = make_by(
        forest,
        2,
        child,
        alloc,
        1,
        Call::EndBody { row: 1, value: 9 },
    );
    let free = matches!(
        attached,
        Ok(Answer::Attached(Ok(Attached {
            row: 1,
            cancelled: false,
        })))
    );
    free & matches!(ended, Ok(Answer::Ended(Ended::Owes)))
}

/// Ends the Job of the other coroutine. Answers whether it had not ended.
pub(crate) fn is_finished(alloc: Global, forest: &Forest, child: &mut JobPass) -> bool
    requires size { forest.now.size.coroutines ≡ 2 }
    requires child { IsOwnOfJobs forest.now child.old 1 }
    ensures child { IsOwnOfJobs forest.now child.new 1 }
{
    let finished = make_by(forest, 2, child, alloc, 1, Call::Finish { row: 1 });
    matches!(
        finished,
        Ok(Answer::Finished(Finished::Now(End::Completed(9))))
    )
}

/// Whether the root has seen the other coroutine attached, once the two have met.
pub(crate) fn sees_child(forest: &Forest, root: &mut JobPass, child: &mut JobPass) -> bool
    requires root { IsOwnOfJobs forest.now root.old 0 }
    requires child { IsOwnOfJobs forest.now child.old 1 }
    ensures root { IsOwnOfJobs forest.now root.new 0 }
    ensures child { IsOwnOfJobs forest.now child.new 1 }
    ensures attached { result ≡ true → is_some (replay (jobs_seen root.new).seen 1) ≡ true }
{
    meet_both(forest, root, 0, child, 1);
    sees_job(forest, root, 0, 1)
}

/// What the Job of the other coroutine gives the root. None: the root has not seen it attached, or the drive failed.
fn awaited<R: Wait + RandomSource + AllocGlobal>(
    rt: &R,
    hub: &Hub,
    root: Pass,
    forest: &Forest,
    mut root_jobs: JobPass,
    child_jobs: &mut JobPass,
) -> Option<Result<Value, Spent>>
    requires shape { shape_of hub.now ≡ (Signal, 1) ∷ (Signal, 1) ∷ [] }
    requires root { IsOwn hub.now root 0 }
    requires root_jobs { IsOwnOfJobs forest.now root_jobs 0 }
    requires child_jobs { IsOwnOfJobs forest.now child_jobs.old 1 }
{
    if !sees_child(forest, &mut root_jobs, child_jobs) {
        return None;
    }
    let mut host = HostDrive::new(rt);
    match await_job(&mut host, hub, root, forest, root_jobs, 0, 0, 1) {
        Ok((_pass, _jobs, result)) => Some(result),
        Err(_failed) => None,
    }
}

/// Polls a future of a Job once, and gives it back if it was pending, and else what it gave.
#[derive(Drop)]
struct PolledOnce<'hub, 'forest> {
    future: Option<JobFuture<'hub, 'forest>>,
}

impl<'hub, 'forest> Future for PolledOnce<'hub, 'forest> {
    ghost use Rattle.std.specs.Prelude.{IfSome, IsSomeAnd};
    ghost use Rattle.future_bridge.specs.Jobs.{FutureStands};

    type Output = (
        Option<JobFuture<'hub, 'forest>>,
        Option<Result<Value, Spent>>,
    );

    ghost can_poll = { λ f. IsSomeAnd f.future FutureStands };

    ghost gives = { λ f r. IfSome r.0 FutureStands };

    fn poll(&mut self, cx: &mut Context<'_>) -> Poll<Self::Output> {
        let Some(mut future) = self.future.take() else {
            unreachable!()
        };
        match future.poll(cx) {
            Poll::Ready((_pass, _jobs, result)) => Poll::Ready((None, Some(result))),
            Poll::Pending => Poll::Ready((Some(future), None)),
        }
    }
}

/// What a poll of the future gives. None: it was pending, and stays; or there is none.
fn polled<'hub, 'forest, R: Wait + RandomSource + AllocGlobal>(
    rt: &R,
    held: &mut Option<JobFuture<'hub, 'forest>>,
) -> Option<Result<Value, Spent>>
    requires stands { IfSome held.old FutureStands }
    ensures stands { IfSome held.new FutureStands }
{
    let Some(future) = held.take() else {
        return None;
    };
    let mut host = HostDrive::new(rt);
    let once = PolledOnce {
        future: Some(future),
    };
    match host.drive(once) {
        Ok((future, result)) => {
            *held = future;
            result
        }
        Err(_) => None,
    }
}

/// A Job that ends while its future waits gives its result.
fn ends_while_awaited<R: Wait + RandomSource + AllocGlobal>(
    rt: &R,
    hub: &Hub,
    forest: &Forest,
    root: Pass,
    mut root_jobs: JobPass,
    child: &mut Pass,
    child_jobs: &mut JobPass,
) -> bool
    requires family { IsFamily hub.now forest.now root root_jobs child.old child_jobs.old }
{
    if !sees_child(forest, &mut root_jobs, child_jobs) {
        return false;
    }
    let mut held = Some(JobFuture::new(hub, root, forest, root_jobs, 0, 0, 1));
    let waits = polled(rt, &mut held).is_none();
    let still = polled(rt, &mut held).is_none();
    let finished = is_finished(rt.alloc(), forest, child_jobs);
    let open = end_at(hub, child, 1, 1, 9);
    let result = polled(rt, &mut held);
    waits & still & finished & open & matches!(result, Some(Ok(9)))
}

/// A Job that ended gives its result.
fn ended_before<R: Wait + RandomSource + AllocGlobal>(
    rt: &R,
    hub: &Hub,
    forest: &Forest,
    mut root: Pass,
    mut root_jobs: JobPass,
    child: &mut Pass,
    child_jobs: &mut JobPass,
) -> bool
    requires family { IsFamily hub.now forest.now root root_jobs child.old child_jobs.old }
{
    meet_both(forest, &mut root_jobs, 0, child_jobs, 1);
    let finished = is_finished(rt.alloc(), forest, child_jobs);
    meet_passes(hub, &mut root, 0, child, 1);
    let closed = close(hub, child, 1, 1, 9).is_ok();
    let result = awaited(rt, hub, root, forest, root_jobs, child_jobs);
    finished & closed & matches!(result, Some(Ok(9)))
}

/// A Job whose done channel is spent gives no result.
fn spent_before<R: Wait + RandomSource + AllocGlobal>(
    rt: &R,
    hub: &Hub,
    forest: &Forest,
    mut root: Pass,
    root_jobs: JobPass,
    child: &mut Pass,
    child_jobs: &mut JobPass,
) -> bool
    requires family { IsFamily hub.now forest.now root root_jobs child.old child_jobs.old }
{
    meet_passes(hub, &mut root, 0, child, 1);
    let waits = receive(hub, child, 1, 1);
    let result = awaited(rt, hub, root, forest, root_jobs, child_jobs);
    matches!(waits, Got::Waiting(0)) & matches!(result, Some(Err(Spent)))
}

/// Whether this check went as its name says, once the root has attached the other coroutine, whose body has ended.
fn went<R: Wait + RandomSource + AllocGlobal>(
    rt: &R,
    hub: &Hub,
    forest: &Forest,
    root: Pass,
    mut root_jobs: JobPass,
    child: &mut Pass,
    child_jobs: &mut JobPass,
    check: Check,
) -> bool
    requires family { IsFamily hub.now forest.now root root_jobs child.old child_jobs.old }
{
    let ready = is_attached_and_ended(rt.alloc(), forest, &mut root_jobs, child_jobs);
    let went = match check {
        Check::AJobThatEndsWhileItsFutureWaitsGivesItsResult => {
            ends_while_awaited(rt, hub, forest, root, root_jobs, child, child_jobs)
        }
        Check::AJobThatEndedGivesItsResult => {
            ended_before(rt, hub, forest, root, root_jobs, child, child_jobs)
        }
        Check::AJobWhoseDoneChannelIsSpentGivesNoResult => {
            spent_before(rt, hub, forest, root, root_jobs, child, child_jobs)
        }
    };
    ready & went
}

/// The same of a family of its own.
fn goes<R: Wait + RandomSource + AllocGlobal>(rt: &R, check: Check) -> bool {
    match new_family(rt.alloc()) {
        Ok((hub, forest, root, root_jobs, mut child, mut child_jobs)) => went(
            rt,
            &hub,
            &forest,
            root,
            root_jobs,
            &mut child,
            &mut child_jobs,
            check,
        ),
        Err(_) => false,
    }
}

/// Whether each check went as its name says, and a thread sleeps until the Job that it awaits has ended.
pub(crate) fn found<R: Threads + Wait + RandomSource + Sync + Clock + AllocGlobal>(
    rt: &R,
    bells: &Bells,
) -> [bool; 4] {
    [
        goes(rt, Check::AJobThatEndsWhileItsFutureWaitsGivesItsResult),
        goes(rt, Check::AJobThatEndedGivesItsResult),
        goes(rt, Check::AJobWhoseDoneChannelIsSpentGivesNoResult),
        sleeps(rt, bells),
    ]
}
