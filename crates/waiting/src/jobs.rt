//! To wait for the end of a Job, and to wake who waits.
ghost use Rattle.std.specs.Prelude.{◌≡◌, ◌<◌, ◌+◌, ◌^◌, length, true, is_some, None, MatchOption};
ghost use Rattle.channel_model.specs.declared.acts.Kind.TheVariants.{Signal};
ghost use Rattle.channel_model.specs.Channels.{kind_at};
ghost use Rattle.job_model.specs.Histories.{replay};
ghost use Rattle.job_model.specs.Done.{done_channel};
ghost use Rattle.job_words.specs.Forests.{IsOwn as IsOwnOfJobs};
ghost use Rattle.cell_words.specs.Hubs.{shape_of, IsOwn};
ghost use Rattle.future_bridge.specs.Jobs.{FutureStands, FutureGives, JobEnds, jobs_seen};
ghost use Rattle.waiting.specs.Jobs.{GoesOn};

use crate::resting::{LOOKS, bell_of};
use cell_words::{Hub, Pass};
use co_base::{ChannelId, Row, Tag, Value, Wakes};
use future_bridge::{JobFuture, Spent};
use futures::task::Poll;
use job_words::{Forest, JobPass};
use ring_bridge::Bells;
use std::hint::spin_loop;
use std::sync::Wait;

/// Rings the bells of those whom calls over any floor name. Who ends a Job by such calls, or closes its done channel, wakes so who sleeps
/// in `await_job`.
#[derive(Drop)]
pub struct BellWakes<'a> {
    bells: &'a Bells,
}

impl<'a> BellWakes<'a> {
    /// The bells are those of all who sleep on the floor's channels.
    pub fn new(bells: &'a Bells) -> BellWakes<'a>
        ensures { result.bells.now ≡ bells.now }
    {
        BellWakes { bells }
    }
}

impl Wakes for BellWakes<'_> {
    fn wake(&mut self, tag: Tag) {
        self.bells.ring(bell_of(tag));
    }
}

/// What a future of a Job gives.
type Given = (Pass, JobPass, Result<Value, Spent>);

/// Steps some times, until the Job has ended. None: it has not.
fn step_often(future: &mut JobFuture<'_, '_>) -> Option<Given>
    requires stands { FutureStands future.old }
    ensures given { MatchOption result (GoesOn future.old future.new) (FutureGives future.old) }
{
    for _ in 0..LOOKS {
        match future.step() {
            Poll::Ready(given) => return Some(given),
            Poll::Pending => spin_loop(),
        }
    }
    None
}

/// Steps until the Job has ended, and sleeps in between.
fn step_asleep<R: Wait>(rt: &R, bells: &Bells, bell: u32, future: &mut JobFuture<'_, '_>) -> Given
    requires stands { FutureStands future.old }
    ensures gives { FutureGives future.old result }
{
    for _ in rt.forever() {
        let rung = bells.rung(bell);
        match future.step() {
            Poll::Ready(given) => return given,
            Poll::Pending => bells.sleep(rt, bell, rung),
        }
    }
    unreachable!()
}

/// Steps until the Job has ended.
fn end_of<R: Wait>(rt: &R, bells: &Bells, bell: u32, future: JobFuture<'_, '_>) -> Given
    requires stands { FutureStands future }
    ensures gives { FutureGives future.entry result }
{
    let mut future = future;
    match step_often(&mut future) {
        Some(given) => given,
        None => step_asleep(rt, bells, bell, &mut future),
    }
}

/// Waits for the end of a Job, which it starts if it is New, and gives both passes back; sleeps while it has to wait. It ends with the
/// value that the Job's done channel was closed with, or with `Spent` if that channel has no place left. Whoever ends the Job has to ring
/// the bells of those whom its calls name, as `BellWakes` does.
pub fn await_job<R: Wait>(
    rt: &R,
    hub: &Hub,
    bells: &Bells,
    pass: Pass,
    forest: &Forest,
    jobs: JobPass,
    base: ChannelId,
    who: Tag,
    row: Row,
) -> (Pass, JobPass, Result<Value, Spent>)
    requires own { IsOwn hub.now pass who }
    requires jobs { IsOwnOfJobs forest.now jobs who }
    requires attached { is_some (replay (jobs_seen jobs).seen row) ≡ true }
    requires base { base + row < 2 ^ 16 }
    requires channel { done_channel base row < length (shape_of hub.now) }
    requires kind { kind_at (shape_of hub.now) (done_channel base row) ≡ Signal }
    ensures ended { JobEnds hub.now pass forest.now jobs who row (done_channel base row) None result.0 result.1 result.2 }
{
    let future = JobFuture::new(hub, pass, forest, jobs, base, who, row);
    end_of(rt, bells, bell_of(who), future)
}
