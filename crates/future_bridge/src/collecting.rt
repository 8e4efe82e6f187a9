//! All elements of a channel.
ghost use Rattle.std.specs.Prelude.{◌≡◌, ◌≤◌, ◌<◌, length, [], Some, Err, IfOk, IsSomeAnd, false};
ghost use Rattle.co_base.specs.Streams.{Rose};
ghost use Rattle.cell_words.specs.Hubs.{shape_of, IsOwn};
ghost use Rattle.future_bridge.specs.declared.drives.DriveError.TheVariants as drive_errors;
ghost use Rattle.future_bridge.specs.Streams.{Stands, CollectsSo};

use crate::drives::{Drive, DriveError};
use crate::receiving::Spent;
use crate::streams::ReceiveStream;
use cell_words::{Hub, Pass};
use co_base::{ChannelId, Memory, Tag, Value};
use futures::task::{Context, Poll};
use futures::{Future, Stream};
use std::alloc::Global;
use std::mem;

/// Polls a stream to its end, keeps its items in order, and gives its pass back.
#[derive(Drop)]
pub struct CollectAll<'a> {
    pub(crate) stream: Option<ReceiveStream<'a>>,
    pub(crate) items: Vec<Result<Value, Spent>>,
}

impl<'a> CollectAll<'a> {
    /// A future that kept nothing yet.
    pub fn new(alloc: Global, stream: ReceiveStream<'a>) -> CollectAll<'a>
        ensures stream { result.stream ≡ Some stream.entry }
        ensures empty { result.items.items ≡ [] }
    {
        CollectAll {
            stream: Some(stream),
            items: Vec::new(alloc),
        }
    }
}

impl<'a> Future for CollectAll<'a> {
    type Output = Result<(Pass, Vec<Result<Value, Spent>>), Memory>;

    ghost can_poll = { λ f. IsSomeAnd f.stream Stands };

    ghost gives = { λ f r. IsSomeAnd f.stream
        (λ s. IfOk r (λ x. CollectsSo s.hub.now s.pass s.who s.c s.ended f.items.items x.0 x.1.items)) };

    fn poll(&mut self, cx: &mut Context<'_>) -> Poll<Self::Output> {
        let Some(mut stream) = self.stream.take() else {
            unreachable!()
        };
        if self.items.try_reserve(1).is_err() {
            return Poll::Ready(Err(Memory));
        }
        match stream.poll_next(cx) {
            Poll::Ready(Some(item)) => {
                self.items.push_reserved(item);
                self.stream = Some(stream);
                cx.yield_now()
            }
            Poll::Ready(None) => match mem::try_take(&mut self.items) {
                Ok(items) => Poll::Ready(Ok((stream.into_pass(), items))),
                Err(_) => Poll::Ready(Err(Memory)),
            },
            Poll::Pending => {
                self.stream = Some(stream);
                Poll::Pending
            }
        }
    }
}

/// Receives all elements of a channel, until it is closed and empty, or has no place left, and gives the pass back.
/// At both errors the pass is dropped, and its entries stand.
///
/// Example: `all_elements` in `docs/LIBRARY.md`.
pub fn collect_all<D: Drive>(
    alloc: Global,
    drive: &mut D,
    hub: &Hub,
    pass: Pass,
    who: Tag,
    c: ChannelId,
) -> Result<(Pass, Vec<Result<Value, Spent>>), DriveError>
    requires own { IsOwn hub.now pass who }
    requires channel { c < length (shape_of hub.now) }
    ensures collected { IfOk result (λ r. CollectsSo hub.now pass who c false [] r.0 r.1.items) }
    ensures failed { result ≡ Err drive_errors.Failed → Rose (D.faults drive.old) (D.faults drive.new) }
    ensures rises { D.faults drive.old ≤ D.faults drive.new }
{
    let stream = ReceiveStream::new(hub, pass, who, c);
    match drive.drive(CollectAll::new(alloc, stream)) {
        Ok(Ok(collected)) => Ok(collected),
        Ok(Err(_)) => Err(DriveError::Memory),
        Err(_) => Err(DriveError::Failed),
    }
}
