//! What comes of a list that is sent.
ghost use Rattle.bridge_tests.specs.HubPasses.{AreTwo};

use crate::at_once::send_all;
use crate::pass_calls::{end, wait};
use crate::streams::{Refuses, collects};
use cell_words::{Hub, Pass};
use channel_model::Got;
use future_bridge::{ListFault, SinkFault, send_list};
use std::alloc::AllocGlobal;
use std::random::RandomSource;
use std::sync::Wait;

/// A list is sent in order.
pub(crate) fn is_sent<R: Wait + RandomSource + AllocGlobal>(
    rt: &R,
    hub: &Hub,
    one: Pass,
    two: Pass,
) -> bool
    requires two { AreTwo hub.now one two }
{
    let (sent, _fault) = send_all(rt, hub, one, &[1, 2, 3]);
    sent & collects(rt, hub, two, 2, &[1, 2, 3], false)
}

/// A list is not sent to a closed channel.
pub(crate) fn is_not_sent<R: Wait + RandomSource + AllocGlobal>(
    rt: &R,
    hub: &Hub,
    one: Pass,
    mut two: Pass,
) -> bool
    requires two { AreTwo hub.now one two }
{
    let closed = end(hub, &mut two, 2, 4);
    let (_sent, fault) = send_all(rt, hub, one, &[1]);
    closed & matches!(fault, Some(SinkFault::Closed { value: 1, v: 4 }))
}

/// A list ends where no place is left.
pub(crate) fn ends<R: Wait + RandomSource + AllocGlobal>(
    rt: &R,
    hub: &Hub,
    one: Pass,
    _two: Pass,
) -> bool
    requires two { AreTwo hub.now one _two }
{
    let (_sent, fault) = send_all(rt, hub, one, &[1, 2]);
    matches!(fault, Some(SinkFault::Spent { value: 2 }))
}

/// A list whose drive fails is not sent.
pub(crate) fn fails(hub: &Hub, one: Pass, mut two: Pass) -> bool
    requires two { AreTwo hub.now one two }
{
    let mut refuses = Refuses { calls: 0 };
    let failed = matches!(
        send_list(&mut refuses, hub, one, 1, 0, &[1]),
        Err(ListFault::Failed)
    );
    failed & matches!(wait(hub, &mut two, 2), Got::Waiting(0))
}
