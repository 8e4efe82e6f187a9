//! A sender and a receiver under one drive.
ghost use Rattle.bridge_tests.specs.HubPasses.{AreTwo};

use crate::streams::are;
use cell_words::{Hub, Pass};
use co_base::Value;
use future_bridge::{Drive, HostDrive, ReceiveStream, SendList, SendSink, Spent};
use futures::StreamExt;
use futures::future::join;
use std::alloc::AllocGlobal;
use std::random::RandomSource;
use std::sync::Wait;

/// Whether memory was there for them, and they are 1, 2 and 3.
fn are_three<E: Drop>(items: Result<Vec<Result<Value, Spent>>, E>) -> bool {
    match items {
        Ok(items) => are(items.as_slice(), &[1, 2, 3], false),
        Err(_) => false,
    }
}

/// A sender and a receiver meet at three elements.
pub(crate) fn meet<R: Wait + RandomSource + AllocGlobal>(
    rt: &R,
    hub: &Hub,
    one: Pass,
    two: Pass,
) -> bool
    requires two { AreTwo hub.now one two }
{
    let values = [1, 2, 3];
    let sender = SendList::new(SendSink::new(hub, one, 1, 0), &values);
    let receiver = ReceiveStream::new(hub, two, 2, 0)
        .take(3)
        .collect(rt.alloc());
    let mut host = HostDrive::new(rt);
    match host.drive(join(sender, receiver)) {
        Ok((sent, received)) => sent.1.is_ok() & are_three(received),
        Err(_) => false,
    }
}
