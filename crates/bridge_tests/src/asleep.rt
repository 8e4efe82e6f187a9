//! A thread that sleeps until the Job that it awaits has ended.
ghost use Rattle.std.specs.Prelude.{◌≡◌, ◌∷◌, [], true, is_some};
ghost use Rattle.channel_model.specs.declared.acts.Kind.TheVariants.{Signal};
ghost use Rattle.job_model.specs.Histories.{replay};
ghost use Rattle.cell_words.specs.Hubs.{shape_of, IsOwn};
ghost use Rattle.job_words.specs.Forests.{IsOwn as IsOwnOfJobs};
ghost use Rattle.future_bridge.specs.Jobs.{jobs_seen};
ghost use Rattle.bridge_tests.specs.Families.{IsFamily};

use crate::jobs::{is_attached_and_ended, is_finished, new_family, sees_child};
use cell_calls::Desk;
use cell_words::{Hub, Pass};
use channel_calls::Caller;
use co_base::{Memory, Value};
use future_bridge::Spent;
use job_words::{Forest, JobPass};
use note_book::Notes;
use ring_bridge::Bells;
use std::alloc::{AllocGlobal, Global};
use std::sync::Wait;
use std::thread::{Threads, join, sleep};
use std::time::{Clock, Duration};
use waiting::{BellWakes, await_job};

/// So long that the other thread sleeps.
const PAUSE: u64 = 50;

/// Closes the done channel of the other coroutine's Job with 9, and rings the bells of those who wait there.
fn close_done(hub: &Hub, pass: &mut Pass, alloc: Global, bells: &Bells) -> Result<bool, Memory>
    requires shape { shape_of hub.now ≡ (Signal, 1) ∷ (Signal, 1) ∷ [] }
    requires own { IsOwn hub.now pass.old 1 }
{
    let mut desk = Desk { hub, pass };
    let mut book = Notes::new(alloc);
    let mut wakes = BellWakes::new(bells);
    let mut caller = Caller {
        floor: &mut desk,
        book: &mut book,
        wakes: &mut wakes,
        who: 1,
    };
    caller.close(1, 9)
}

/// Ends the other coroutine's Job after a pause. Answers whether it had not ended.
fn end_later<R: Clock + Wait>(
    rt: &R,
    hub: &Hub,
    pass: &mut Pass,
    forest: &Forest,
    jobs: &mut JobPass,
    alloc: Global,
    bells: &Bells,
) -> bool
    requires shape { shape_of hub.now ≡ (Signal, 1) ∷ (Signal, 1) ∷ [] }
    requires own { IsOwn hub.now pass.old 1 }
    requires size { forest.now.size.coroutines ≡ 2 }
    requires jobs { IsOwnOfJobs forest.now jobs.old 1 }
{
    sleep(rt, Duration::from_millis(PAUSE));
    let finished = is_finished(alloc, forest, jobs);
    let open = close_done(hub, pass, alloc, bells);
    finished & matches!(open, Ok(true))
}

/// What the Job that the root has seen attached gives it.
fn awaits<R: Wait>(
    rt: &R,
    hub: &Hub,
    bells: &Bells,
    pass: Pass,
    forest: &Forest,
    jobs: JobPass,
) -> Result<Value, Spent>
    requires shape { shape_of hub.now ≡ (Signal, 1) ∷ (Signal, 1) ∷ [] }
    requires own { IsOwn hub.now pass 0 }
    requires jobs { IsOwnOfJobs forest.now jobs 0 }
    requires attached { is_some (replay (jobs_seen jobs).seen 1) ≡ true }
{
    let (_pass, _jobs, result) = await_job(rt, hub, bells, pass, forest, jobs, 0, 0, 1);
    result
}

/// Whether the root has 9 of the Job, which it attaches, and which ends meanwhile.
fn awaited_meanwhile<R: Threads + Wait + Sync + Clock>(
    rt: &R,
    hub: &Hub,
    bells: &Bells,
    forest: &Forest,
    alloc: Global,
    root: Pass,
    mut root_jobs: JobPass,
    mut child: Pass,
    mut child_jobs: JobPass,
) -> bool
    requires family { IsFamily hub.now forest.now root root_jobs child child_jobs }
{
    let ready = is_attached_and_ended(alloc, forest, &mut root_jobs, &mut child_jobs);
    if !sees_child(forest, &mut root_jobs, &mut child_jobs) {
        return false;
    }
    let (result, ended) = join(
        rt,
        || -> Result<Value, Spent>
            requires shape { shape_of hub.now ≡ (Signal, 1) ∷ (Signal, 1) ∷ [] }
            requires own { IsOwn hub.now root 0 }
            requires jobs { IsOwnOfJobs forest.now root_jobs 0 }
            requires attached { is_some (replay (jobs_seen root_jobs).seen 1) ≡ true }
        { awaits(rt, hub, bells, root, forest, root_jobs) },
        || -> bool
            requires shape { shape_of hub.now ≡ (Signal, 1) ∷ (Signal, 1) ∷ [] }
            requires own { IsOwn hub.now child 1 }
            requires size { forest.now.size.coroutines ≡ 2 }
            requires jobs { IsOwnOfJobs forest.now child_jobs 1 }
        { end_later(rt, hub, &mut child, forest, &mut child_jobs, alloc, bells) },
    );
    ready & ended & matches!(result, Ok(9))
}

/// A thread sleeps until the Job that it awaits has ended.
pub(crate) fn sleeps<R: Threads + Wait + Sync + Clock + AllocGlobal>(
    rt: &R,
    bells: &Bells,
) -> bool {
    let alloc = rt.alloc();
    match new_family(alloc) {
        Ok((hub, forest, root, root_jobs, child, child_jobs)) => awaited_meanwhile(
            rt, &hub, bells, &forest, alloc, root, root_jobs, child, child_jobs,
        ),
        Err(_) => false,
    }
}
