//! What a stream does.
ghost use Rattle.std.specs.Prelude.{◌≡◌, ◌<◌, [], IfSome, OnSome, ⊤};
ghost use Rattle.futures.specs.Runs.{After, Within};
ghost use Rattle.futures.specs.Task.{Covers, Keeps};
ghost use Rattle.futures.specs.Poll.{IfReady, OnPending};
ghost use Rattle.ring_channel.specs.Passes.{IsOf, SamePass, seen_by, tag_of};
ghost use Rattle.ring_bridge.specs.Streams.{PollsAny, YieldsAny, PolledSo, SameStream};

use crate::bells::Bells;
use crate::streams::RingStream;
use futures::Stream;
use futures::task::{Context, Poll};
use ring_channel::{ReceiveOutcome, Ring, RingPass};

impl<'a, T> RingStream<'a, T> {
    /// A stream that received nothing yet. The bells are those of the ring.
    pub fn new(
        ring: &'a Ring<T>,
        bells: &'a Bells,
        pass: RingPass<T>,
        tag: u32,
    ) -> RingStream<'a, T>
        requires of { IsOf ring.now pass }
        requires tag { (tag ≡ tag_of pass) × (tag < 64) }
        ensures new { (result.ring.now ≡ ring.now) × (result.pass ≡ pass) }
    {
        RingStream {
            ring,
            bells,
            pass,
            tag,
        }
    }
}

impl<T> Stream for RingStream<'_, T> {
    type Item = T;

    ghost can_poll = { PollsAny };

    ghost yields = { YieldsAny };

    fn poll_next(&mut self, cx: &mut Context<'_>) -> Poll<Option<T>>
        requires { PollsAny self.old }
        ensures value { IfReady result (YieldsAny self.old []) }
        ensures rest { IfReady result (λ o. IfSome o (λ x. After (YieldsAny self.old) x (YieldsAny self.new))) }
        ensures goes { IfReady result (λ o. OnSome o (PollsAny self.new)) }
        ensures again { OnPending result (PollsAny self.new) }
        ensures same { OnPending result (Within (YieldsAny self.old) (YieldsAny self.new)) }
        ensures registered { OnPending result (Covers cx.new (λ s. ⊥)) }
        ensures kept { Keeps cx.old cx.new }
        ensures still { SameStream self.old self.new }
        ensures polled { PolledSo self.old self.new result }
    {
        let ring = self.ring;
        let bells = self.bells;
        let tag = self.tag;
        let rung = bells.rung(tag);
        match ring.receive(&mut self.pass, tag) {
            ReceiveOutcome::Received {
                place: _,
                value,
                wakes,
            } => {
                bells.wake_both(wakes);
                Poll::Ready(Some(value))
            }
            ReceiveOutcome::Closed(called) => {
                bells.wake(called);
                Poll::Ready(None)
            }
            ReceiveOutcome::Waits => bells.wait(cx, tag, rung),
            ReceiveOutcome::Passed => cx.yield_now(),
        }
    }
}
