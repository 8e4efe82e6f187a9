//! What streams give.
ghost use Rattle.std.specs.Prelude.{◌≡◌, ◌<◌, false, length, IfSome, None};
ghost use Rattle.channel_model.specs.Channels.{kind_at, is_signal};
ghost use Rattle.cell_words.specs.Hubs.{shape_of, IsOwn};
ghost use Rattle.future_bridge.specs.Streams.{Stands};
ghost use Rattle.bridge_tests.specs.HubPasses.{AreTwo};

use crate::pass_calls::{send, send_both, wait};
use cell_words::{Hub, Pass};
use channel_model::{Got, Offered};
use co_base::{Failed, Tag, Value};
use future_bridge::{Drive, DriveError, HostDrive, ReceiveStream, Spent, Stopped, collect_all};
use futures::future::{Either, ready, select};
use futures::task::{Context, Poll};
use futures::{Future, Stream, StreamExt};
use std::alloc::{AllocGlobal, Global};
use std::random::RandomSource;
use std::sync::Wait;

/// A drive that fails at each call.
#[derive(Drop)]
pub(crate) struct Refuses {
    pub(crate) calls: u64,
}

impl Drive for Refuses {
    ghost faults = { λ d. d.calls };

    fn drive<T: Future>(&mut self, _future: T) -> Result<T::Output, Failed> {
        self.calls = self.calls.saturating_add(1);
        Err(Failed)
    }
}

/// Polls a stream once, and gives it back, with whether the poll was pending, and the item that it gave.
#[derive(Drop)]
struct PolledOnce<'a> {
    stream: Option<ReceiveStream<'a>>,
}

impl<'a> Future for PolledOnce<'a> {
    ghost use Rattle.std.specs.Prelude.{IsSomeAnd};
    ghost use Rattle.future_bridge.specs.Streams.{Stands};

    type Output = (ReceiveStream<'a>, bool, Option<Result<Value, Spent>>);

    ghost can_poll = { λ f. IsSomeAnd f.stream Stands };

    ghost gives = { λ f r. Stands r.0 };

    fn poll(&mut self, cx: &mut Context<'_>) -> Poll<Self::Output> {
        let Some(mut stream) = self.stream.take() else {
            unreachable!()
        };
        match stream.poll_next(cx) {
            Poll::Ready(item) => Poll::Ready((stream, false, item)),
            Poll::Pending => Poll::Ready((stream, true, None)),
        }
    }
}

/// A step of a check: what is done with a stream, and what must come of it.
#[derive(Clone, Copy)]
pub(crate) enum Step {
    /// A poll has to wait.
    Waits,
    /// A poll gives this element.
    Gives(Value),
    /// The other pass sends this element.
    Sends(Value, Offered),
    Stops(Stopped),
    IsDropped,
}

/// Whether a poll of the stream is pending, and the element that it gives.
fn polled<'a, R: Wait + RandomSource + AllocGlobal>(
    rt: &R,
    held: &mut Option<ReceiveStream<'a>>,
) -> (bool, Option<Value>)
    requires stands { IfSome held.old Stands }
    ensures stands { IfSome held.new Stands }
{
    let Some(stream) = held.take() else {
        return (false, None);
    };
    let mut host = HostDrive::new(rt);
    let once = PolledOnce {
        stream: Some(stream),
    };
    let Ok((stream, pending, item)) = host.drive(once) else {
        return (false, None);
    };
    *held = Some(stream);
    match item {
        Some(Ok(value)) => (pending, Some(value)),
        _ => (pending, None),
    }
}

/// Stops the stream. None: there is none.
fn stopped(held: &mut Option<ReceiveStream<'_>>) -> Option<Stopped>
    ensures none { held.new ≡ None }
{
    match held.take() {
        Some(stream) => Some(stream.stop().1),
        None => None,
    }
}

/// Whether the step goes so.
fn goes<'a, R: Wait + RandomSource + AllocGlobal>(
    rt: &R,
    hub: &Hub,
    held: &mut Option<ReceiveStream<'a>>,
    two: &mut Pass,
    step: Step,
) -> bool
    requires stands { IfSome held.old Stands }
    requires own { IsOwn hub.now two.old 2 }
    requires channel { 0 < length (shape_of hub.now) }
    requires kind { is_signal (kind_at (shape_of hub.now) 0) ≡ false }
    ensures stands { IfSome held.new Stands }
    ensures own { IsOwn hub.now two.new 2 }
{
    match step {
        Step::Waits => polled(rt, held) == (true, None),
        Step::Gives(value) => polled(rt, held) == (false, Some(value)),
        Step::Sends(value, wanted) => send(hub, two, 2, value) == wanted,
        Step::Stops(wanted) => stopped(held) == Some(wanted),
        Step::IsDropped => {
            *held = None;
            true
        }
    }
}

/// Whether all steps go so: a stream of the first pass, and sends by the second.
pub(crate) fn all_go<R: Wait + RandomSource + AllocGlobal>(
    rt: &R,
    hub: &Hub,
    one: Pass,
    mut two: Pass,
    steps: &[Step],
) -> bool
    requires two { AreTwo hub.now one two }
{
    let mut held = Some(ReceiveStream::new(hub, one, 1, 0));
    let mut right = true;
    for &step in steps {
        let went = goes(rt, hub, &mut held, &mut two, step);
        right = right & went;
    }
    right
}

pub(crate) const A_STREAM_THAT_IS_STOPPED_GIVES_ITS_ELEMENT_UP: [Step; 3] = [
    Step::Waits,
    Step::Sends(5, Offered::Handed(0, 1)),
    Step::Stops(Stopped::Undelivered(5)),
];

pub(crate) const A_STREAM_THAT_DOES_NOT_WAIT_HAS_NONE_TO_GIVE_UP: [Step; 1] = [Step::Stops(
    Stopped::Idle,
)];

pub(crate) const A_STREAM_THAT_IS_DROPPED_TAKES_ITS_WAIT_BACK: [Step; 3] = [
    Step::Waits,
    Step::IsDropped,
    Step::Sends(5, Offered::Held(1)),
];

pub(crate) const A_STREAM_THAT_WAITS_STAYS_AT_ITS_PLACE: [Step; 4] = [
    Step::Waits,
    Step::Waits,
    Step::Sends(5, Offered::Handed(0, 1)),
    Step::Gives(5),
];

/// Whether the items are these elements, and behind them a fault where there was no place for one.
pub(crate) fn are(items: &[Result<Value, Spent>], values: &[Value], is_spent: bool) -> bool {
    let mut right = items.len() == values.len().saturating_add(usize::from(is_spent));
    let mut at = 0usize;
    for item in items {
        let due = match values.get(at) {
            Some(value) => Ok(*value),
            None => Err(Spent),
        };
        right = right & (*item == due);
        at = at.wrapping_add(1);
    }
    right
}

/// Whether all that comes is that, and the drive never failed.
pub(crate) fn collects<R: Wait + RandomSource + AllocGlobal>(
    rt: &R,
    hub: &Hub,
    pass: Pass,
    who: Tag,
    values: &[Value],
    is_spent: bool,
) -> bool
    requires own { IsOwn hub.now pass who }
    requires channel { 0 < length (shape_of hub.now) }
{
    let mut host = HostDrive::new(rt);
    match collect_all(rt.alloc(), &mut host, hub, pass, who, 0) {
        Ok((_pass, items)) => are(items.as_slice(), values, is_spent) & (host.faults() == 0),
        Err(_fault) => false,
    }
}

/// All elements of a closed channel come in order.
pub(crate) fn all_come<R: Wait + RandomSource + AllocGlobal>(
    rt: &R,
    hub: &Hub,
    mut one: Pass,
    two: Pass,
) -> bool
    requires two { AreTwo hub.now one two }
{
    let sent = send_both(hub, &mut one, 1, 7, 8);
    sent & collects(rt, hub, two, 2, &[7, 8], false)
}

/// The fault is the last item.
pub(crate) fn fault_is_last<R: Wait + RandomSource + AllocGlobal>(
    rt: &R,
    hub: &Hub,
    mut one: Pass,
    two: Pass,
) -> bool
    requires two { AreTwo hub.now one two }
{
    let waits = wait(hub, &mut one, 1);
    matches!(waits, Got::Waiting(0)) & collects(rt, hub, two, 2, &[], true)
}

/// A collect that is dropped takes its wait back.
pub(crate) fn drops_collect<R: Wait + RandomSource + AllocGlobal>(
    rt: &R,
    hub: &Hub,
    one: Pass,
    mut two: Pass,
) -> bool
    requires two { AreTwo hub.now one two }
{
    let mut host = HostDrive::new(rt);
    let collects = ReceiveStream::new(hub, one, 1, 0)
        .take(2)
        .collect(rt.alloc());
    // The other is ready first.
    let Ok(Either::Right((7, collects))) = host.drive(select(collects, ready(7u32))) else {
        return false;
    };
    drop(collects);
    matches!(send(hub, &mut two, 2, 5), Offered::Held(1))
}

/// Whether a drive that fails collects nothing.
fn is_refused(hub: &Hub, pass: Pass, alloc: Global) -> bool
    requires own { IsOwn hub.now pass 2 }
    requires channel { 0 < length (shape_of hub.now) }
{
    let mut refuses = Refuses { calls: 0 };
    match collect_all(alloc, &mut refuses, hub, pass, 2, 0) {
        Err(DriveError::Failed) => true,
        _ => false,
    }
}

/// Whether these two elements are there, which the pass of tag 1 receives.
fn are_there<R: Wait + RandomSource + AllocGlobal>(
    rt: &R,
    hub: &Hub,
    one: Pass,
    first: Value,
    second: Value,
) -> bool
    requires own { IsOwn hub.now one 1 }
    requires channel { 0 < length (shape_of hub.now) }
{
    let mut held = Some(ReceiveStream::new(hub, one, 1, 0));
    let one = polled(rt, &mut held) == (false, Some(first));
    one & (polled(rt, &mut held) == (false, Some(second)))
}

/// A drive that fails makes no entry: both elements are there still.
pub(crate) fn fails<R: Wait + RandomSource + AllocGlobal>(
    rt: &R,
    hub: &Hub,
    mut one: Pass,
    two: Pass,
) -> bool
    requires two { AreTwo hub.now one two }
{
    let first = send(hub, &mut one, 1, 7) == Offered::Put(0);
    let second = send(hub, &mut one, 1, 8) == Offered::Put(1);
    let refused = is_refused(hub, two, rt.alloc());
    first & second & refused & are_there(rt, hub, one, 7, 8)
}
