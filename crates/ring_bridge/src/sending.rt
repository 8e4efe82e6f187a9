//! What a sink does.
ghost use Rattle.std.specs.Prelude.{◌≡◌, ◌<◌, ◌++◌, ◌∷◌, [], List, None, OnOk};
ghost use Rattle.futures.specs.Task.{Covers, Keeps};
ghost use Rattle.futures.specs.Poll.{IfReady, OnPending};
ghost use Rattle.futures.specs.Sent.{UnlessFailed};
ghost use Rattle.ring_channel.specs.Passes.{IsOf, SamePass, seen_by, tag_of};
ghost use Rattle.ring_bridge.specs.Sinks.{SinkPolls, TakesAny, TookAny, SameSink, PutSo, FlushedSo, PushedSo, StartedSo};

use crate::bells::Bells;
use crate::sinks::{Put, RingSink, RingSinkFault};
use futures::Sink;
use futures::task::{Context, Poll};
use ring_channel::{Ring, RingPass, SendOutcome};

impl<'a, T: Drop> RingSink<'a, T> {
    /// A sink that sent nothing yet. The bells are those of the ring.
    pub fn new(ring: &'a Ring<T>, bells: &'a Bells, pass: RingPass<T>, tag: u32) -> RingSink<'a, T>
        requires of { IsOf ring.now pass }
        requires tag { (tag ≡ tag_of pass) × (tag < 64) }
        ensures new { (result.ring.now ≡ ring.now) × (result.pass ≡ pass) × (result.held ≡ None) }
    {
        RingSink {
            ring,
            bells,
            pass,
            tag,
            held: None,
        }
    }

    /// Sends the value, or holds it.
    fn put(&mut self, value: T) -> Put<T>
        requires none { self.old.held ≡ None }
        ensures still { SameSink self.old self.new }
        ensures put { PutSo value self.old self.new result }
    {
        let ring = self.ring;
        let bells = self.bells;
        let tag = self.tag;
        match ring.send(&mut self.pass, tag, value) {
            SendOutcome::Sent { place: _, wakes } => {
                bells.wake_both(wakes);
                Put::Done
            }
            SendOutcome::Waits(back) => {
                self.held = Some(back);
                Put::Waits
            }
            SendOutcome::Passed(back) => {
                self.held = Some(back);
                Put::Passed
            }
            SendOutcome::Closed(back, called) => {
                bells.wake(called);
                Put::Failed(RingSinkFault::Closed(back))
            }
            SendOutcome::Spent(back, called) => {
                bells.wake(called);
                Put::Failed(RingSinkFault::Spent(back))
            }
        }
    }

    /// Sends the value that waits, if there is one.
    fn flush(&mut self) -> Put<T>
        ensures still { SameSink self.old self.new }
        ensures flushed { FlushedSo self.old.held self.old self.new result }
    {
        match self.held.take() {
            None => Put::Done,
            Some(value) => self.put(value),
        }
    }

    /// The same, in a poll, which is pending while the value waits.
    fn push(&mut self, cx: &mut Context<'_>) -> Poll<Result<(), RingSinkFault<T>>>
        ensures none { IfReady result (λ r. OnOk r (self.new.held ≡ None)) }
        ensures registered { OnPending result (Covers cx.new (λ s. ⊥)) }
        ensures kept { Keeps cx.old cx.new }
        ensures still { SameSink self.old self.new }
        ensures pushed { PushedSo self.old.held self.old self.new result }
    {
        let rung = self.bells.rung(self.tag);
        match self.flush() {
            Put::Done => Poll::Ready(Ok(())),
            Put::Waits => self.bells.wait(cx, self.tag, rung),
            Put::Passed => cx.yield_now(),
            Put::Failed(fault) => Poll::Ready(Err(fault)),
        }
    }
}

impl<T: Drop> Sink<T> for RingSink<'_, T> {
    type Error = RingSinkFault<T>;

    ghost can_poll = { SinkPolls };

    ghost can_send = { λ s. s.held ≡ None };

    ghost takes = { TakesAny };

    ghost took = { TookAny };

    ghost is_flushed = { λ s. s.held ≡ None };

    ghost is_closed = { λ s. s.held ≡ None };

    fn poll_ready(&mut self, cx: &mut Context<'_>) -> Poll<Result<(), RingSinkFault<T>>>
        requires { SinkPolls self.old }
        ensures ready { IfReady result (λ r. OnOk r (SinkPolls self.new × (self.new.held ≡ None))) }
        ensures again { OnPending result (SinkPolls self.new) }
        ensures same { (x : T) → TakesAny self.old x → TakesAny self.new x }
        ensures history { UnlessFailed result ((xs : List T) → TookAny self.old xs → TookAny self.new xs) }
        ensures registered { OnPending result (Covers cx.new (λ s. ⊥)) }
        ensures kept { Keeps cx.old cx.new }
        ensures still { SameSink self.old self.new }
        ensures pushed { PushedSo self.old.held self.old self.new result }
    {
        self.push(cx)
    }

    fn start_send(&mut self, item: T) -> Result<(), RingSinkFault<T>>
        requires ready { SinkPolls self.old × (self.old.held ≡ None) }
        requires taken { TakesAny self.old item }
        ensures goes { OnOk result (SinkPolls self.new) }
        ensures same { (x : T) → TakesAny self.old x → TakesAny self.new x }
        ensures history { OnOk result ((xs : List T) → TookAny self.old xs → TookAny self.new (xs ++ item ∷ [])) }
        ensures still { SameSink self.old self.new }
        ensures started { StartedSo item self.old self.new result }
    {
        match self.put(item) {
            Put::Done => Ok(()),
            Put::Waits => Ok(()),
            Put::Passed => Ok(()),
            Put::Failed(fault) => Err(fault),
        }
    }

    fn poll_flush(&mut self, cx: &mut Context<'_>) -> Poll<Result<(), RingSinkFault<T>>>
        requires { SinkPolls self.old }
        ensures goes { IfReady result (λ r. OnOk r (SinkPolls self.new)) }
        ensures flushed { IfReady result (λ r. OnOk r (self.new.held ≡ None)) }
        ensures again { OnPending result (SinkPolls self.new) }
        ensures same { (x : T) → TakesAny self.old x → TakesAny self.new x }
        ensures history { UnlessFailed result ((xs : List T) → TookAny self.old xs → TookAny self.new xs) }
        ensures registered { OnPending result (Covers cx.new (λ s. ⊥)) }
        ensures kept { Keeps cx.old cx.new }
        ensures still { SameSink self.old self.new }
        ensures pushed { PushedSo self.old.held self.old self.new result }
    {
        self.push(cx)
    }

    fn poll_close(&mut self, cx: &mut Context<'_>) -> Poll<Result<(), RingSinkFault<T>>>
        requires { SinkPolls self.old }
        ensures closed { IfReady result (λ r. OnOk r (self.new.held ≡ None)) }
        ensures again { OnPending result (SinkPolls self.new) }
        ensures history { UnlessFailed result ((xs : List T) → TookAny self.old xs → TookAny self.new xs) }
        ensures registered { OnPending result (Covers cx.new (λ s. ⊥)) }
        ensures kept { Keeps cx.old cx.new }
        ensures still { SameSink self.old self.new }
        ensures pushed { PushedSo self.old.held self.old self.new result }
    {
        self.push(cx)
    }
}
