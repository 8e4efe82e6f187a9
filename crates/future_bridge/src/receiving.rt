//! A channel as a stream of its elements.
ghost use Rattle.std.specs.Prelude.{◌≡◌, ◌<◌, length, [], None, true, IfSome, OnSome};
ghost use Rattle.futures.specs.Runs.{After, Within};
ghost use Rattle.futures.specs.Task.{Covers, Keeps};
ghost use Rattle.futures.specs.Poll.{IfReady, OnPending};
ghost use Rattle.cell_words.specs.Hubs.{shape_of, IsOwn};
ghost use Rattle.future_bridge.specs.Streams.{Stands, IsNew, StreamYields, SameStream, PolledSo};

use crate::steps::{Step, step_on};
use crate::streams::ReceiveStream;
use cell_words::{Hub, Pass};
use co_base::{ChannelId, Tag, Value};
use futures::Stream;
use futures::task::{Context, Poll};

/// The channel has no place left.
#[derive(Clone, Copy, Debug, PartialEq, Eq)]
pub struct Spent;

/// What a stream had when it was stopped.
#[derive(Clone, Copy, Debug, PartialEq, Eq)]
pub enum Stopped {
    /// No wait.
    Idle,
    /// A wait that was given no element.
    Cancelled,
    /// A wait that was given this element, which is given up.
    Undelivered(Value),
}

impl<'a> ReceiveStream<'a> {
    /// A stream that received nothing yet. It calls as the coroutine `who`, which has this pass.
    ///
    /// Example: `first_doubled` in `docs/LIBRARY.md`.
    pub fn new(hub: &'a Hub, pass: Pass, who: Tag, c: ChannelId) -> ReceiveStream<'a>
        requires own { IsOwn hub.now pass who }
        requires channel { c < length (shape_of hub.now) }
        ensures new { IsNew hub.now pass who c result }
        ensures stands { Stands result }
    {
        ReceiveStream {
            hub,
            pass,
            who,
            c,
            wait: None,
            ended: false,
        }
    }
}

impl Stream for ReceiveStream<'_> {
    type Item = Result<Value, Spent>;

    ghost can_poll = { Stands };

    ghost yields = { StreamYields };

    fn poll_next(&mut self, cx: &mut Context<'_>) -> Poll<Option<Result<Value, Spent>>>
        requires { Stands self.old }
        ensures value { IfReady result (StreamYields self.old []) }
        ensures rest { IfReady result (λ o. IfSome o (λ x. After (StreamYields self.old) x (StreamYields self.new))) }
        ensures goes { IfReady result (λ o. OnSome o (Stands self.new)) }
        ensures again { OnPending result (Stands self.new) }
        ensures same { OnPending result (Within (StreamYields self.old) (StreamYields self.new)) }
        ensures registered { OnPending result (Covers cx.new (λ s. ⊥)) }
        ensures kept { Keeps cx.old cx.new }
        ensures stands { Stands self.new }
        ensures still { SameStream self.old self.new }
        ensures polled { PolledSo self.old self.new result }
        ensures yields { OnPending result (cx.new.is_woken ≡ true) }
    {
        if self.ended {
            return Poll::Ready(None);
        }
        match step_on(self.hub, &mut self.pass, self.who, self.c, self.wait) {
            Step::Item(value) => {
                self.wait = None;
                Poll::Ready(Some(Ok(value)))
            }
            Step::Ended(_v) => {
                self.wait = None;
                self.ended = true;
                Poll::Ready(None)
            }
            Step::Spent => {
                self.wait = None;
                self.ended = true;
                Poll::Ready(Some(Err(Spent)))
            }
            Step::Waits(place) => {
                self.wait = Some(place);
                cx.yield_now()
            }
        }
    }
}
