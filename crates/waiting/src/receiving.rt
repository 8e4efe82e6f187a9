//! What a stream does.
ghost use Rattle.std.specs.Prelude.{◌≡◌, ◌<◌, [], None, Some, false, IfSome, OnSome};
ghost use Rattle.futures.specs.Runs.{After, Within};
ghost use Rattle.futures.specs.Task.{Covers, Keeps};
ghost use Rattle.futures.specs.Poll.{IfReady, OnPending};
ghost use Rattle.parcel_channel.specs.Hubs.{IsOf, SamePass, floor_by};
ghost use Rattle.waiting.specs.Stands.{AwaitsOn, AwaitsAt};
ghost use Rattle.waiting.specs.Waits.{IsReceived};
ghost use Rattle.waiting.specs.Streams.{PollsAny, YieldsAny, PolledAs, ReceiveStep, HeldAfter, SameStream, PolledSo};

use crate::calls::ReceiveFault;
use crate::resting::{bell_of, look_at, wake};
use crate::streams::ParcelStream;
use channel_model::WaitState;
use co_base::{Value, WaitId};
use futures::Stream;
use futures::task::{Context, Poll};
use parcel_channel::{ParcelGot, ParcelHub, ParcelPass, ParcelSettled};
use ring_bridge::Bells;

/// What a receive came to in one poll.
pub(crate) enum Polled<T> {
    Value(T),
    Closed(Value),
    Fault(ReceiveFault),
    Waits(WaitId),
}

/// Receives, where the pass does not wait.
fn begin<T>(hub: &ParcelHub<T>, bells: &Bells, pass: &mut ParcelPass<T>) -> Polled<T>
    requires of { IsOf hub.now pass.old }
    ensures of { IsOf hub.now pass.new }
    ensures same { SamePass pass.old pass.new }
    ensures held { HeldAfter hub.now pass.new result }
    ensures step { ReceiveStep None hub.now pass.old pass.new result }
{
    match hub.receive(pass) {
        ParcelGot::Value(value, from, admitted) => {
            wake(bells, from, admitted);
            Polled::Value(value)
        }
        ParcelGot::Waits(wait) => Polled::Waits(wait),
        ParcelGot::Closed(v) => Polled::Closed(v),
        ParcelGot::Spent => Polled::Fault(ReceiveFault::Spent),
        ParcelGot::Lost(from, admitted) => {
            wake(bells, from, admitted);
            Polled::Fault(ReceiveFault::Lost)
        }
    }
}

/// What a poll comes to whose wait ended so.
fn polled_as<T>(settled: ParcelSettled<T>) -> Polled<T>
    requires received { IsReceived settled }
    ensures ends { PolledAs settled result }
{
    match settled {
        ParcelSettled::Value(value) => Polled::Value(value),
        ParcelSettled::Closed(v) => Polled::Closed(v),
        ParcelSettled::Lost => Polled::Fault(ReceiveFault::Lost),
        ParcelSettled::Sent => unreachable!(),
        ParcelSettled::Cancelled(_) => unreachable!(),
        ParcelSettled::Undelivered(_) => unreachable!(),
    }
}

/// Looks at the own wait, and ends it, if it was resolved.
fn go_on<T>(hub: &ParcelHub<T>, pass: &mut ParcelPass<T>, at: WaitId) -> Polled<T>
    requires of { IsOf hub.now pass.old }
    requires awaits { AwaitsOn pass.old.tag at (floor_by hub.now pass.old) }
    ensures of { IsOf hub.now pass.new }
    ensures same { SamePass pass.old pass.new }
    ensures held { HeldAfter hub.now pass.new result }
    ensures step { ReceiveStep (Some at) hub.now pass.old pass.new result }
{
    if let WaitState::Resolved = look_at(hub, pass, at) {
        let settled = hub.settle(pass, at, false);
        return polled_as(settled);
    }
    Polled::Waits(at)
}

/// Receives, or goes on to wait.
fn step<T>(
    hub: &ParcelHub<T>,
    bells: &Bells,
    pass: &mut ParcelPass<T>,
    wait: Option<WaitId>,
) -> Polled<T>
    requires of { IsOf hub.now pass.old }
    requires held { AwaitsAt hub.now pass.old wait }
    ensures of { IsOf hub.now pass.new }
    ensures same { SamePass pass.old pass.new }
    ensures held { HeldAfter hub.now pass.new result }
    ensures step { ReceiveStep wait hub.now pass.old pass.new result }
{
    match wait {
        None => begin(hub, bells, pass),
        Some(at) => go_on(hub, pass, at),
    }
}

impl<'a, T> ParcelStream<'a, T> {
    /// A stream that received nothing yet. The bells are those of the channel. Its tag has a bell of its own.
    pub fn new(hub: &'a ParcelHub<T>, bells: &'a Bells, pass: ParcelPass<T>) -> ParcelStream<'a, T>
        requires of { IsOf hub.now pass }
        requires low { pass.tag < 63 }
        ensures new { (result.hub.now ≡ hub.now) × (result.pass ≡ pass) × (result.wait ≡ None) × (result.ended ≡ false) }
    {
        ParcelStream {
            hub,
            bells,
            pass,
            wait: None,
            ended: false,
        }
    }
}

impl<T: Drop> Stream for ParcelStream<'_, T> {
    type Item = Result<T, ReceiveFault>;

    ghost can_poll = { PollsAny };

    ghost yields = { YieldsAny };

    fn poll_next(&mut self, cx: &mut Context<'_>) -> Poll<Option<Result<T, ReceiveFault>>>
        requires { PollsAny self.old }
        ensures value { IfReady result (YieldsAny self.old []) }
        ensures rest { IfReady result (λ o. IfSome o (λ x. After (YieldsAny self.old) x (YieldsAny self.new))) }
        ensures goes { IfReady result (λ o. OnSome o (PollsAny self.new)) }
        ensures again { OnPending result (PollsAny self.new) }
        ensures same { OnPending result (Within (YieldsAny self.old) (YieldsAny self.new)) }
        ensures registered { OnPending result (Covers cx.new (λ s. ⊥)) }
        ensures kept { Keeps cx.old cx.new }
        ensures still { SameStream self.old self.new }
        ensures polled { PolledSo self.old self.new result }
    {
        if self.ended {
            return Poll::Ready(None);
        }
        let bells = self.bells;
        let bell = bell_of(self.pass.tag());
        let rung = bells.rung(bell);
        match step(self.hub, bells, &mut self.pass, self.wait) {
            Polled::Value(value) => {
                self.wait = None;
                Poll::Ready(Some(Ok(value)))
            }
            Polled::Closed(_v) => {
                self.wait = None;
                self.ended = true;
                Poll::Ready(None)
            }
            Polled::Fault(fault) => {
                self.wait = None;
                self.ended = true;
                Poll::Ready(Some(Err(fault)))
            }
            Polled::Waits(wait) => {
                self.wait = Some(wait);
                bells.wait(cx, bell, rung)
            }
        }
    }
}
