//! A sink and a stream of owned values that are polled as tasks, which sleep while they have to wait.
ghost use Rattle.std.specs.Prelude.{◌<◌};
ghost use Rattle.parcel_channel.specs.Hubs.{IsOf};

use crate::parcels::parcel_calls::{Three, new_channel};
use crate::tasks;
use channel_model::Kind;
use futures::Stream;
use futures::task::Poll;
use futures::test::MockTask;
use parcel_channel::{ParcelHub, ParcelPass, ParcelSent};
use ring_bridge::Bells;
use std::alloc::AllocGlobal;
use std::random::RandomSource;
use std::sync::Wait;
use waiting::{ParcelSink, ParcelStream, ReceiveFault, send};

/// Whether these are a hundred numbers from 0 on.
fn are_numbers(items: &[Result<u32, ReceiveFault>]) -> bool {
    let mut due = 0u32;
    for item in items {
        if !matches!(item, Ok(number) if *number == due) {
            return false;
        }
        due = due.wrapping_add(1);
    }
    due == 100
}

/// A sink and a stream take turns: a hundred numbers go over a channel that keeps one.
fn take_turns<R: Wait + RandomSource + AllocGlobal>(
    rt: &R,
    hub: &ParcelHub<u32>,
    bells: &Bells,
    one: ParcelPass<u32>,
    two: ParcelPass<u32>,
) -> bool
    requires one { IsOf hub.now one }
    requires two { IsOf hub.now two }
    requires low { (one.tag < 63) × (two.tag < 63) }
{
    let sink = ParcelSink::new(hub, bells, one);
    let stream = ParcelStream::new(hub, bells, two);
    match tasks::take_turns(rt, sink, stream) {
        Some((sent, items)) => sent & are_numbers(items.as_slice()),
        None => false,
    }
}

/// Whether a poll of the task is pending, or gives this number where one is due, and whether the task is woken then.
fn polls_to(
    task: &MockTask,
    stream: &mut ParcelStream<'_, u32>,
    due: Option<u32>,
    woken: bool,
) -> bool {
    let found = match task.enter(|cx| stream.poll_next(cx)) {
        Poll::Pending => due.is_none(),
        Poll::Ready(Some(Ok(number))) => due == Some(number),
        Poll::Ready(_) => false,
    };
    found & (task.is_woken() == woken)
}

/// A stream sleeps until it is woken, and receives 7.
fn is_woken<R: Wait>(
    rt: &R,
    task: &MockTask,
    hub: &ParcelHub<u32>,
    bells: &Bells,
    stream: &mut ParcelStream<'_, u32>,
    two: &mut ParcelPass<u32>,
) -> bool
    requires two { IsOf hub.now two.old }
    ensures two { IsOf hub.now two.new }
{
    let sleeps = polls_to(task, stream, None, false);
    let sent = send(rt, hub, bells, two, 7).is_ok();
    let woken = task.is_woken();
    let came = polls_to(task, stream, Some(7), false);
    sleeps & sent & woken & came & polls_to(task, stream, None, false)
}

/// The same; and one that is dropped takes its wait back.
fn sleeps_with<R: Wait>(
    rt: &R,
    task: &MockTask,
    hub: &ParcelHub<u32>,
    bells: &Bells,
    one: ParcelPass<u32>,
    mut two: ParcelPass<u32>,
) -> bool
    requires one { IsOf hub.now one }
    requires two { IsOf hub.now two }
    requires low { (one.tag < 63) × (two.tag < 63) }
{
    let mut stream = ParcelStream::new(hub, bells, one);
    let woken = is_woken(rt, task, hub, bells, &mut stream, &mut two);
    drop(stream);
    let kept = matches!(hub.send(&mut two, 8), ParcelSent::Sent(None, 0));
    woken & kept
}

/// The same with a task of its own.
fn is_dropped<R: Wait + RandomSource + AllocGlobal>(
    rt: &R,
    hub: &ParcelHub<u32>,
    bells: &Bells,
    one: ParcelPass<u32>,
    two: ParcelPass<u32>,
) -> bool
    requires one { IsOf hub.now one }
    requires two { IsOf hub.now two }
    requires low { (one.tag < 63) × (two.tag < 63) }
{
    match MockTask::new(rt) {
        Ok(task) => sleeps_with(rt, &task, hub, bells, one, two),
        Err(_) => false,
    }
}

/// Whether one of the two goes as it says, on a channel that keeps one.
pub(crate) fn went<R: Wait + RandomSource + AllocGlobal>(
    rt: &R,
    bells: &Bells,
    turns: bool,
) -> bool {
    match new_channel::<u32>(rt.alloc(), Kind::Buffered(1), 100, 100) {
        Ok((hub, three)) => {
            let Three {
                main: _main,
                one,
                two,
            } = three;
            if turns {
                take_turns(rt, &hub, bells, one, two)
            } else {
                is_dropped(rt, &hub, bells, one, two)
            }
        }
        Err(_) => false,
    }
}
