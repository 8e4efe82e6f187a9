//! A list of elements is sent.
ghost use Rattle.std.specs.Prelude.{◌≡◌, ◌≤◌, ◌<◌, length, drop, false, Some, Err, IsSomeAnd};
ghost use Rattle.future_bridge.specs.declared.lists.ListFault.TheVariants as list_faults;
ghost use Rattle.co_base.specs.Streams.{Rose};
ghost use Rattle.channel_model.specs.Channels.{kind_at, is_signal};
ghost use Rattle.cell_words.specs.Hubs.{shape_of, IsOwn};
ghost use Rattle.future_bridge.specs.Sinks.{SinkStands};
ghost use Rattle.future_bridge.specs.Lists.{SendsList, ListSent};

use crate::drives::Drive;
use crate::sending::{SendSink, SinkFault};
use cell_words::{Hub, Pass};
use co_base::{ChannelId, Tag, Value};
use futures::task::{Context, Poll};
use futures::{Future, Sink};

/// Why a list was not sent to its end.
#[derive(Drop)]
pub enum ListFault {
    /// An element was not sent. The pass comes back.
    Sink { pass: Pass, fault: SinkFault },
    /// The drive failed.
    Failed,
}

/// Sends the elements of a list by a sink, each after the one before was received or kept, and gives the pass back.
#[derive(Drop)]
pub struct SendList<'hub, 'list> {
    pub(crate) sink: Option<SendSink<'hub>>,
    pub(crate) values: &'list [Value],
    pub(crate) next: usize,
}

impl<'hub, 'list> SendList<'hub, 'list> {
    /// A future that sent nothing yet.
    ///
    /// Example: `at_a_rendezvous` in `docs/LIBRARY.md`.
    pub fn new(sink: SendSink<'hub>, values: &'list [Value]) -> SendList<'hub, 'list>
        ensures sink { result.sink ≡ Some sink.entry }
        ensures values { result.values.now ≡ values.now }
        ensures next { result.next ≡ 0 }
    {
        SendList {
            sink: Some(sink),
            values,
            next: 0,
        }
    }
}

impl<'hub, 'list> Future for SendList<'hub, 'list> {
    type Output = (Pass, Result<(), SinkFault>);

    ghost can_poll = { λ f. IsSomeAnd f.sink SinkStands × (f.next ≤ length f.values.now) };

    ghost gives = { λ f r. IsSomeAnd f.sink (λ s. SendsList s.hub.now s.pass s.who s.c s.wait (drop f.next f.values.now) r.0 r.1) };

    fn poll(&mut self, cx: &mut Context<'_>) -> Poll<Self::Output> {
        let Some(mut sink) = self.sink.take() else {
            unreachable!()
        };
        match sink.poll_ready(cx) {
            Poll::Pending => {
                self.sink = Some(sink);
                Poll::Pending
            }
            Poll::Ready(Err(fault)) => Poll::Ready((sink.pass, Err(fault))),
            Poll::Ready(Ok(())) => {
                if self.next == self.values.len() {
                    return Poll::Ready((sink.pass, Ok(())));
                }
                match sink.start_send(self.values[self.next]) {
                    Ok(()) => {
                        self.next += 1;
                        self.sink = Some(sink);
                        cx.yield_now()
                    }
                    Err(fault) => Poll::Ready((sink.pass, Err(fault))),
                }
            }
        }
    }
}

/// Sends the elements of a list in order, each after the one before was received or kept, and gives the pass back.
/// If the drive fails the pass is dropped, and its entries stand.
///
/// Example: `send_and_close` in `docs/LIBRARY.md`.
pub fn send_list<D: Drive>(
    drive: &mut D,
    hub: &Hub,
    pass: Pass,
    who: Tag,
    c: ChannelId,
    values: &[Value],
) -> Result<Pass, ListFault>
    requires own { IsOwn hub.now pass who }
    requires channel { c < length (shape_of hub.now) }
    requires kind { is_signal (kind_at (shape_of hub.now) c) ≡ false }
    ensures sent { ListSent hub.now pass who c values.now result }
    ensures failed { result ≡ Err list_faults.Failed → Rose (D.faults drive.old) (D.faults drive.new) }
    ensures rises { D.faults drive.old ≤ D.faults drive.new }
{
    let sink = SendSink::new(hub, pass, who, c);
    let Ok(driven) = drive.drive(SendList::new(sink, values)) else {
        return Err(ListFault::Failed);
    };
    let (pass, sent) = driven;
    match sent {
        Ok(()) => Ok(pass),
        Err(fault) => Err(ListFault::Sink { pass, fault }),
    }
}
