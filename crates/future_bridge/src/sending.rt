//! A channel as a sink of elements.
ghost use Rattle.std.specs.Prelude.{◌≡◌, ◌<◌, ◌++◌, ◌∷◌, [], ℕ, List, false, true, length, None, OnOk};
ghost use Rattle.futures.specs.Task.{Covers, Keeps};
ghost use Rattle.futures.specs.Poll.{IfReady, OnPending};
ghost use Rattle.futures.specs.Sent.{UnlessFailed};
ghost use Rattle.channel_model.specs.Channels.{kind_at, is_signal};
ghost use Rattle.cell_words.specs.Hubs.{shape_of, IsOwn};
ghost use Rattle.future_bridge.specs.Sinks.{SinkStands, IsNewSink, SameSink, FlushedSo, PolledSinkSo, StartedSo, SinkTakes, SinkTook};

use crate::send_steps::{SendStep, look_offer, offer_next};
use cell_words::{Hub, Pass};
use co_base::{ChannelId, Place, Tag, Value};
use futures::Sink;
use futures::task::{Context, Poll};

/// Why an element was not sent.
#[derive(Clone, Copy, Debug, PartialEq, Eq)]
pub enum SinkFault {
    /// The channel was closed with the value v.
    Closed { value: Value, v: Value },
    /// The channel has no place left.
    Spent { value: Value },
    /// Its offer was removed with its channel.
    Cancelled { value: Value },
}

/// What a flush came to.
pub(crate) enum Flush {
    /// No offer waits any more.
    Done,
    /// The offer waits.
    Waits,
    /// It was removed with its channel; it was this element.
    Cancelled(Value),
}

/// Sends to a channel, one element after another. To close the sink does not close the channel.
#[derive(Drop)]
pub struct SendSink<'a> {
    pub(crate) hub: &'a Hub,
    pub(crate) pass: Pass,
    pub(crate) who: Tag,
    pub(crate) c: ChannelId,
    /// The place of its offer, while that did not end, and the element.
    pub(crate) wait: Option<(Place, Value)>,
}

impl<'a> SendSink<'a> {
    /// A sink that sent nothing yet. It calls as the coroutine `who`, which has this pass.
    ///
    /// Example: `at_a_rendezvous` in `docs/LIBRARY.md`.
    pub fn new(hub: &'a Hub, pass: Pass, who: Tag, c: ChannelId) -> SendSink<'a>
        requires own { IsOwn hub.now pass who }
        requires channel { c < length (shape_of hub.now) }
        requires kind { is_signal (kind_at (shape_of hub.now) c) ≡ false }
        ensures new { IsNewSink hub.now pass who c result }
        ensures stands { SinkStands result }
    {
        SendSink {
            hub,
            pass,
            who,
            c,
            wait: None,
        }
    }

    /// Gives the pass back.
    pub fn into_pass(self) -> Pass
        requires none { self.wait ≡ None }
        ensures { result ≡ self.entry.pass }
    {
        let SendSink {
            hub: _,
            pass,
            who: _,
            c: _,
            wait: _,
        } = self;
        pass
    }

    /// Looks at the offer, if one waits, and ends it if it was resolved.
    fn flush(&mut self) -> Flush
        requires stands { SinkStands self.old }
        ensures stands { SinkStands self.new }
        ensures still { SameSink self.old self.new }
        ensures flushed { FlushedSo self.old self.new result }
    {
        match self.wait {
            None => Flush::Done,
            Some((place, value)) => {
                match look_offer(self.hub, &mut self.pass, self.who, self.c, place) {
                    SendStep::Sent => {
                        self.wait = None;
                        Flush::Done
                    }
                    SendStep::Waits(_place) => Flush::Waits,
                    SendStep::Cancelled => {
                        self.wait = None;
                        Flush::Cancelled(value)
                    }
                    SendStep::Closed(_v) => unreachable!(),
                    SendStep::Spent => unreachable!(),
                }
            }
        }
    }
}

impl Sink<Value> for SendSink<'_> {
    type Error = SinkFault;

    ghost can_poll = { SinkStands };

    ghost can_send = { λ s. s.wait ≡ None };

    ghost takes = { SinkTakes };

    ghost took = { SinkTook };

    ghost is_flushed = { λ s. s.wait ≡ None };

    ghost is_closed = { λ s. s.wait ≡ None };

    fn poll_ready(&mut self, cx: &mut Context<'_>) -> Poll<Result<(), SinkFault>>
        requires { SinkStands self.old }
        ensures ready { IfReady result (λ r. OnOk r (SinkStands self.new × (self.new.wait ≡ None))) }
        ensures again { OnPending result (SinkStands self.new) }
        ensures same { (x : ℕ) → SinkTakes self.old x → SinkTakes self.new x }
        ensures history { UnlessFailed result ((xs : List ℕ) → SinkTook self.old xs → SinkTook self.new xs) }
        ensures registered { OnPending result (Covers cx.new (λ s. ⊥)) }
        ensures kept { Keeps cx.old cx.new }
        ensures stands { SinkStands self.new }
        ensures still { SameSink self.old self.new }
        ensures polled { PolledSinkSo self.old self.new result }
        ensures yields { OnPending result (cx.new.is_woken ≡ true) }
    {
        match self.flush() {
            Flush::Done => Poll::Ready(Ok(())),
            Flush::Waits => cx.yield_now(),
            Flush::Cancelled(value) => Poll::Ready(Err(SinkFault::Cancelled { value })),
        }
    }

    fn start_send(&mut self, item: Value) -> Result<(), SinkFault>
        requires ready { SinkStands self.old × (self.old.wait ≡ None) }
        requires taken { SinkTakes self.old item }
        ensures goes { OnOk result (SinkStands self.new) }
        ensures same { (x : ℕ) → SinkTakes self.old x → SinkTakes self.new x }
        ensures history { OnOk result ((xs : List ℕ) → SinkTook self.old xs → SinkTook self.new (xs ++ item ∷ [])) }
        ensures stands { SinkStands self.new }
        ensures still { SameSink self.old self.new }
        ensures started { StartedSo self.old self.new item result }
    {
        match offer_next(self.hub, &mut self.pass, self.who, self.c, item) {
            SendStep::Sent => Ok(()),
            SendStep::Waits(place) => {
                self.wait = Some((place, item));
                Ok(())
            }
            SendStep::Closed(v) => Err(SinkFault::Closed { value: item, v }),
            SendStep::Spent => Err(SinkFault::Spent { value: item }),
            SendStep::Cancelled => Err(SinkFault::Cancelled { value: item }),
        }
    }

    fn poll_flush(&mut self, cx: &mut Context<'_>) -> Poll<Result<(), SinkFault>>
        requires { SinkStands self.old }
        ensures goes { IfReady result (λ r. OnOk r (SinkStands self.new)) }
        ensures flushed { IfReady result (λ r. OnOk r (self.new.wait ≡ None)) }
        ensures again { OnPending result (SinkStands self.new) }
        ensures same { (x : ℕ) → SinkTakes self.old x → SinkTakes self.new x }
        ensures history { UnlessFailed result ((xs : List ℕ) → SinkTook self.old xs → SinkTook self.new xs) }
        ensures registered { OnPending result (Covers cx.new (λ s. ⊥)) }
        ensures kept { Keeps cx.old cx.new }
        ensures stands { SinkStands self.new }
        ensures still { SameSink self.old self.new }
        ensures polled { PolledSinkSo self.old self.new result }
        ensures yields { OnPending result (cx.new.is_woken ≡ true) }
    {
        match self.flush() {
            Flush::Done => Poll::Ready(Ok(())),
            Flush::Waits => cx.yield_now(),
            Flush::Cancelled(value) => Poll::Ready(Err(SinkFault::Cancelled { value })),
        }
    }

    fn poll_close(&mut self, cx: &mut Context<'_>) -> Poll<Result<(), SinkFault>>
        requires { SinkStands self.old }
        ensures closed { IfReady result (λ r. OnOk r (self.new.wait ≡ None)) }
        ensures again { OnPending result (SinkStands self.new) }
        ensures history { UnlessFailed result ((xs : List ℕ) → SinkTook self.old xs → SinkTook self.new xs) }
        ensures registered { OnPending result (Covers cx.new (λ s. ⊥)) }
        ensures kept { Keeps cx.old cx.new }
        ensures stands { SinkStands self.new }
        ensures still { SameSink self.old self.new }
        ensures polled { PolledSinkSo self.old self.new result }
        ensures yields { OnPending result (cx.new.is_woken ≡ true) }
    {
        match self.flush() {
            Flush::Done => Poll::Ready(Ok(())),
            Flush::Waits => cx.yield_now(),
            Flush::Cancelled(value) => Poll::Ready(Err(SinkFault::Cancelled { value })),
        }
    }
}
