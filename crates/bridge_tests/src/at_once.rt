//! A sender and a receiver by a thread each.
ghost use Rattle.std.specs.Prelude.{◌≡◌, ◌<◌, false, length};
ghost use Rattle.channel_model.specs.Channels.{kind_at, is_signal};
ghost use Rattle.cell_words.specs.Hubs.{shape_of, IsOwn};
ghost use Rattle.bridge_tests.specs.HubPasses.{AreTwo};

use crate::pass_calls::end;
use crate::streams::collects;
use cell_words::{Hub, Pass};
use co_base::Value;
use future_bridge::{HostDrive, ListFault, SinkFault, send_list};
use std::alloc::{AllocGlobal, Global};
use std::random::RandomSource;
use std::sync::Wait;
use std::thread::{Threads, join};

/// How many elements are sent.
const ELEMENTS: u32 = 10_000;

/// Sends a list on channel 0, and closes it. Answers whether it did, and else the fault of the sink, if there was one.
pub(crate) fn send_all<R: Wait + RandomSource + AllocGlobal>(
    rt: &R,
    hub: &Hub,
    pass: Pass,
    values: &[Value],
) -> (bool, Option<SinkFault>)
    requires own { IsOwn hub.now pass 1 }
    requires channel { 0 < length (shape_of hub.now) }
    requires kind { is_signal (kind_at (shape_of hub.now) 0) ≡ false }
{
    let mut host = HostDrive::new(rt);
    match send_list(&mut host, hub, pass, 1, 0, values) {
        Ok(mut pass) => (end(hub, &mut pass, 1, 0), None),
        Err(ListFault::Sink { pass: _pass, fault }) => (false, Some(fault)),
        Err(ListFault::Failed) => (false, None),
    }
}

/// The numbers below this one.
fn numbers(alloc: Global, below: u32) -> Option<Vec<Value>> {
    let mut values = Vec::new(alloc);
    for value in 0..below {
        if values.push(value).is_err() {
            return None;
        }
    }
    Some(values)
}

/// Both at once.
fn by_two<R: Threads + Wait + RandomSource + AllocGlobal + Sync>(
    rt: &R,
    hub: &Hub,
    a: Pass,
    b: Pass,
    values: &[Value],
) -> (bool, bool)
    requires a { IsOwn hub.now a 1 }
    requires b { IsOwn hub.now b 2 }
    requires channel { 0 < length (shape_of hub.now) }
    requires kind { is_signal (kind_at (shape_of hub.now) 0) ≡ false }
{
    join(
        rt,
        || -> bool
            requires own { IsOwn hub.now a 1 }
            requires channel { 0 < length (shape_of hub.now) }
            requires kind { is_signal (kind_at (shape_of hub.now) 0) ≡ false }
        { send_all(rt, hub, a, values).0 },
        || -> bool
            requires own { IsOwn hub.now b 2 }
            requires channel { 0 < length (shape_of hub.now) }
        { collects(rt, hub, b, 2, values, false) },
    )
}

/// What one thread sends the other receives in order.
pub(crate) fn come<R: Threads + Wait + RandomSource + AllocGlobal + Sync>(
    rt: &R,
    hub: &Hub,
    one: Pass,
    two: Pass,
) -> bool
    requires two { AreTwo hub.now one two }
{
    let Some(values) = numbers(rt.alloc(), ELEMENTS) else {
        return false;
    };
    let (sent, received) = by_two(rt, hub, one, two, values.as_slice());
    sent & received
}
