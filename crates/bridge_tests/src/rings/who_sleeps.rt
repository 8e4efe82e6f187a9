//! A stream and a sink that are polled as tasks, which sleep while they have to wait.
ghost use Rattle.bridge_tests.specs.RingPasses.{AreThree, IsOther};

use crate::rings::ring_calls::Three;
use crate::tasks;
use futures::Stream;
use futures::task::Poll;
use futures::test::MockTask;
use ring_bridge::{Bells, RingSink, RingStream, receive, send};
use ring_channel::{Ring, RingPass};
use std::alloc::AllocGlobal;
use std::random::RandomSource;
use std::sync::Wait;

/// Whether these are a hundred numbers from 0 on.
fn are_numbers(items: &[u32]) -> bool {
    let mut due = 0u32;
    for item in items {
        if *item != due {
            return false;
        }
        due = due.wrapping_add(1);
    }
    due == 100
}

/// A sink and a stream take turns: a hundred numbers go through two slots.
pub(crate) fn take_turns<R: Wait + RandomSource + AllocGlobal>(
    rt: &R,
    ring: &Ring<u32>,
    bells: &Bells,
    three: Three<u32>,
) -> bool
    requires three { AreThree ring.now three.main three.one three.two }
{
    let Three { main: _, one, two } = three;
    let sink = RingSink::new(ring, bells, one, 1);
    let stream = RingStream::new(ring, bells, two, 2);
    match tasks::take_turns(rt, sink, stream) {
        Some((sent, items)) => sent & are_numbers(items.as_slice()),
        None => false,
    }
}

/// Whether a poll of the task is pending, or gives this number where one is due, and whether the task is woken then.
fn polls_to(
    task: &MockTask,
    stream: &mut RingStream<'_, u32>,
    due: Option<u32>,
    woken: bool,
) -> bool {
    let found = match task.enter(|cx| stream.poll_next(cx)) {
        Poll::Pending => due.is_none(),
        Poll::Ready(number) => due.is_some() & (number == due),
    };
    found & (task.is_woken() == woken)
}

/// A stream sleeps until it is named, and receives 7.
fn is_named<R: Wait>(
    rt: &R,
    task: &MockTask,
    ring: &Ring<u32>,
    bells: &Bells,
    stream: &mut RingStream<'_, u32>,
    two: &mut RingPass<u32>,
) -> bool
    requires two { IsOther 2 ring.now two.old }
    ensures two { IsOther 2 ring.now two.new }
{
    let sleeps = polls_to(task, stream, None, false);
    let sent = send(rt, ring, bells, two, 2, 7).is_ok();
    let woken = task.is_woken();
    let came = polls_to(task, stream, Some(7), false);
    sleeps & sent & woken & came & polls_to(task, stream, None, false)
}

/// The same; and one that is dropped waits no more.
fn sleeps_with<R: Wait>(
    rt: &R,
    task: &MockTask,
    ring: &Ring<u32>,
    bells: &Bells,
    three: Three<u32>,
) -> bool
    requires three { AreThree ring.now three.main three.one three.two }
{
    let Three {
        mut main,
        one,
        mut two,
    } = three;
    let mut stream = RingStream::new(ring, bells, one, 1);
    let named = is_named(rt, task, ring, bells, &mut stream, &mut two);
    drop(stream);
    let sent = send(rt, ring, bells, &mut two, 2, 8).is_ok();
    named & sent & (receive(rt, ring, bells, &mut main, 0) == Some((1, 8)))
}

/// The same with a task of its own.
pub(crate) fn sleeps_until_named<R: Wait + RandomSource + AllocGlobal>(
    rt: &R,
    ring: &Ring<u32>,
    bells: &Bells,
    three: Three<u32>,
) -> bool
    requires three { AreThree ring.now three.main three.one three.two }
{
    match MockTask::new(rt) {
        Ok(task) => sleeps_with(rt, &task, ring, bells, three),
        Err(_) => false,
    }
}
