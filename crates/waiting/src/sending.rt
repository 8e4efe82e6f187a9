//! What a sink does.
ghost use Rattle.std.specs.Prelude.{◌≡◌, ◌<◌, ◌++◌, ◌∷◌, [], List, None, Some, OnOk};
ghost use Rattle.futures.specs.Task.{Covers, Keeps};
ghost use Rattle.futures.specs.Poll.{IfReady, OnPending};
ghost use Rattle.futures.specs.Sent.{UnlessFailed};
ghost use Rattle.parcel_channel.specs.Hubs.{IsOf, SamePass, floor_by};
ghost use Rattle.parcel_channel.specs.Numbers.{HoldsWait};
ghost use Rattle.waiting.specs.Stands.{HoldsAt};
ghost use Rattle.waiting.specs.Sinks.{SinkPolls, TakesAny, TookAny, SameSink, FlushedAs, FlushStep, FlushedSo, PushedSo, StartedSo};

use crate::calls::SendFault;
use crate::resting::{bell_of, look_at, wake, wake_set};
use crate::sinks::{Flushed, ParcelSink};
use channel_model::WaitState;
use co_base::WaitId;
use futures::Sink;
use futures::task::{Context, Poll};
use parcel_channel::{ParcelHub, ParcelPass, ParcelSent, ParcelSettled};
use ring_bridge::Bells;

/// What a flush comes to whose wait ended so.
fn flushed_as<T>(settled: ParcelSettled<T>) -> Flushed<T>
    ensures ends { FlushedAs settled result }
{
    match settled {
        ParcelSettled::Sent => Flushed::Done,
        ParcelSettled::Value(value) => {
            Flushed::Failed(SendFault::Ended(ParcelSettled::Value(value)))
        }
        ParcelSettled::Closed(v) => Flushed::Failed(SendFault::Ended(ParcelSettled::Closed(v))),
        ParcelSettled::Cancelled(value) => {
            Flushed::Failed(SendFault::Ended(ParcelSettled::Cancelled(value)))
        }
        ParcelSettled::Undelivered(value) => {
            Flushed::Failed(SendFault::Ended(ParcelSettled::Undelivered(value)))
        }
        ParcelSettled::Lost => Flushed::Failed(SendFault::Ended(ParcelSettled::Lost)),
    }
}

/// Looks at the own wait, and ends it, if it was resolved.
fn flush_at<T>(hub: &ParcelHub<T>, pass: &mut ParcelPass<T>, at: WaitId) -> Flushed<T>
    requires of { IsOf hub.now pass.old }
    requires wait { at.channel ≡ 0 }
    requires holds { HoldsWait pass.old.tag at (floor_by hub.now pass.old) }
    ensures of { IsOf hub.now pass.new }
    ensures same { SamePass pass.old pass.new }
    ensures step { FlushStep (Some at) hub.now pass.old pass.new result }
{
    if let WaitState::Resolved = look_at(hub, pass, at) {
        let settled = hub.settle(pass, at, false);
        return flushed_as(settled);
    }
    Flushed::Waits
}

impl<'a, T: Drop> ParcelSink<'a, T> {
    /// A sink that sent nothing yet. The bells are those of the channel. Its tag has a bell of its own.
    pub fn new(hub: &'a ParcelHub<T>, bells: &'a Bells, pass: ParcelPass<T>) -> ParcelSink<'a, T>
        requires of { IsOf hub.now pass }
        requires low { pass.tag < 63 }
        ensures new { (result.hub.now ≡ hub.now) × (result.pass ≡ pass) × (result.wait ≡ None) }
    {
        ParcelSink {
            hub,
            bells,
            pass,
            wait: None,
        }
    }

    /// Looks at the value that waits, if one does.
    fn flush(&mut self) -> Flushed<T>
        ensures still { SameSink self.old self.new }
        ensures flushed { FlushedSo self.old self.new result }
    {
        match self.wait {
            None => Flushed::Done,
            Some(at) => match flush_at(self.hub, &mut self.pass, at) {
                Flushed::Done => {
                    self.wait = None;
                    Flushed::Done
                }
                Flushed::Waits => Flushed::Waits,
                Flushed::Failed(fault) => {
                    self.wait = None;
                    Flushed::Failed(fault)
                }
            },
        }
    }

    /// The same, in a poll, which is pending while the value waits.
    fn push(&mut self, cx: &mut Context<'_>) -> Poll<Result<(), SendFault<T>>>
        ensures none { IfReady result (λ r. OnOk r (self.new.wait ≡ None)) }
        ensures registered { OnPending result (Covers cx.new (λ s. ⊥)) }
        ensures kept { Keeps cx.old cx.new }
        ensures still { SameSink self.old self.new }
        ensures pushed { PushedSo self.old self.new result }
    {
        let bell = bell_of(self.pass.tag());
        let rung = self.bells.rung(bell);
        match self.flush() {
            Flushed::Done => Poll::Ready(Ok(())),
            Flushed::Waits => self.bells.wait(cx, bell, rung),
            Flushed::Failed(fault) => Poll::Ready(Err(fault)),
        }
    }
}

impl<T: Drop> Sink<T> for ParcelSink<'_, T> {
    type Error = SendFault<T>;

    ghost can_poll = { SinkPolls };

    ghost can_send = { λ s. s.wait ≡ None };

    ghost takes = { TakesAny };

    ghost took = { TookAny };

    ghost is_flushed = { λ s. s.wait ≡ None };

    ghost is_closed = { λ s. s.wait ≡ None };

    fn poll_ready(&mut self, cx: &mut Context<'_>) -> Poll<Result<(), SendFault<T>>>
        requires { SinkPolls self.old }
        ensures ready { IfReady result (λ r. OnOk r (SinkPolls self.new × (self.new.wait ≡ None))) }
        ensures again { OnPending result (SinkPolls self.new) }
        ensures same { (x : T) → TakesAny self.old x → TakesAny self.new x }
        ensures history { UnlessFailed result ((xs : List T) → TookAny self.old xs → TookAny self.new xs) }
        ensures registered { OnPending result (Covers cx.new (λ s. ⊥)) }
        ensures kept { Keeps cx.old cx.new }
        ensures still { SameSink self.old self.new }
        ensures pushed { PushedSo self.old self.new result }
    {
        self.push(cx)
    }

    fn start_send(&mut self, item: T) -> Result<(), SendFault<T>>
        requires ready { SinkPolls self.old × (self.old.wait ≡ None) }
        requires taken { TakesAny self.old item }
        ensures goes { OnOk result (SinkPolls self.new) }
        ensures same { (x : T) → TakesAny self.old x → TakesAny self.new x }
        ensures history { OnOk result ((xs : List T) → TookAny self.old xs → TookAny self.new (xs ++ item ∷ [])) }
        ensures still { SameSink self.old self.new }
        ensures started { StartedSo item self.old self.new result }
    {
        let bells = self.bells;
        match self.hub.send(&mut self.pass, item) {
            ParcelSent::Sent(to, admitted) => {
                wake(bells, to, admitted);
                Ok(())
            }
            ParcelSent::Waits(wait, admitted) => {
                wake_set(bells, admitted);
                self.wait = Some(wait);
                Ok(())
            }
            ParcelSent::Closed(back, v) => Err(SendFault::Closed(back, v)),
            ParcelSent::Spent(back) => Err(SendFault::Spent(back)),
            ParcelSent::NoParcel(back) => Err(SendFault::NoParcel(back)),
            ParcelSent::Lost => Err(SendFault::Lost),
        }
    }

    fn poll_flush(&mut self, cx: &mut Context<'_>) -> Poll<Result<(), SendFault<T>>>
        requires { SinkPolls self.old }
        ensures goes { IfReady result (λ r. OnOk r (SinkPolls self.new)) }
        ensures flushed { IfReady result (λ r. OnOk r (self.new.wait ≡ None)) }
        ensures again { OnPending result (SinkPolls self.new) }
        ensures same { (x : T) → TakesAny self.old x → TakesAny self.new x }
        ensures history { UnlessFailed result ((xs : List T) → TookAny self.old xs → TookAny self.new xs) }
        ensures registered { OnPending result (Covers cx.new (λ s. ⊥)) }
        ensures kept { Keeps cx.old cx.new }
        ensures still { SameSink self.old self.new }
        ensures pushed { PushedSo self.old self.new result }
    {
        self.push(cx)
    }

    fn poll_close(&mut self, cx: &mut Context<'_>) -> Poll<Result<(), SendFault<T>>>
        requires { SinkPolls self.old }
        ensures closed { IfReady result (λ r. OnOk r (self.new.wait ≡ None)) }
        ensures again { OnPending result (SinkPolls self.new) }
        ensures history { UnlessFailed result ((xs : List T) → TookAny self.old xs → TookAny self.new xs) }
        ensures registered { OnPending result (Covers cx.new (λ s. ⊥)) }
        ensures kept { Keeps cx.old cx.new }
        ensures still { SameSink self.old self.new }
        ensures pushed { PushedSo self.old self.new result }
    {
        self.push(cx)
    }
}
