//! Streams, sinks and lists on one channel: each check has the channel and the passes of the tags 1 and 2, which were not used.
ghost use Rattle.std.specs.Prelude.{◌≡◌, ◌≤◌, false, IfOk};
ghost use Rattle.channel_model.specs.Channels.{is_signal};
ghost use Rattle.bridge_tests.specs.HubPasses.{AreTwo};

use crate::streams::{
    A_STREAM_THAT_DOES_NOT_WAIT_HAS_NONE_TO_GIVE_UP, A_STREAM_THAT_IS_DROPPED_TAKES_ITS_WAIT_BACK,
    A_STREAM_THAT_IS_STOPPED_GIVES_ITS_ELEMENT_UP, A_STREAM_THAT_WAITS_STAYS_AT_ITS_PLACE, Step,
};
use crate::{at_once, lists, streams, together};
use cell_words::{Hub, Pass};
use channel_model::Kind;
use co_base::Memory;
use std::alloc::{AllocGlobal, Global};
use std::random::RandomSource;
use std::sync::Wait;
use std::thread::Threads;

/// What is checked: the functions of these names, or all steps of a table.
#[derive(Clone, Copy)]
enum Check {
    AllElementsOfAClosedChannelComeInOrder,
    TheFaultIsTheLastItem,
    AllSteps(&'static [Step]),
    ACollectThatIsDroppedTakesItsWaitBack,
    ADriveThatFailsMakesNoEntry,
    AListIsSentInOrder,
    AListIsNotSentToAClosedChannel,
    AListEndsWhereNoPlaceIsLeft,
    AListWhoseDriveFailsIsNotSent,
    ASenderAndAReceiverMeetUnderOneDrive,
    WhatOneThreadSendsTheOtherReceivesInOrder,
}

/// A channel of this kind with so many places, and two passes of it.
fn new_channel(alloc: Global, kind: Kind, places: u32) -> Result<(Hub, Pass, Pass), Memory>
    requires elements { is_signal kind ≡ false }
    requires places { (1 ≤ places) × (places ≤ 1048576) }
    ensures two { IfOk result (λ r. AreTwo r.0 r.1 r.2) }
{
    let (hub, mut main) = Hub::new(alloc, &[(kind, places)])?;
    let one = hub.split(&mut main, 1);
    let two = hub.split(&mut main, 2);
    Ok((hub, one, two))
}

/// Whether this check went as its name says.
fn went_on<R: Threads + Wait + RandomSource + AllocGlobal + Sync>(
    rt: &R,
    hub: &Hub,
    one: Pass,
    two: Pass,
    check: Check,
) -> bool
    requires two { AreTwo hub.now one two }
{
    match check {
        Check::AllElementsOfAClosedChannelComeInOrder => streams::all_come(rt, hub, one, two),
        Check::TheFaultIsTheLastItem => streams::fault_is_last(rt, hub, one, two),
        Check::AllSteps(steps) => streams::all_go(rt, hub, one, two, steps),
        Check::ACollectThatIsDroppedTakesItsWaitBack => streams::drops_collect(rt, hub, one, two),
        Check::ADriveThatFailsMakesNoEntry => streams::fails(rt, hub, one, two),
        Check::AListIsSentInOrder => lists::is_sent(rt, hub, one, two),
        Check::AListIsNotSentToAClosedChannel => lists::is_not_sent(rt, hub, one, two),
        Check::AListEndsWhereNoPlaceIsLeft => lists::ends(rt, hub, one, two),
        Check::AListWhoseDriveFailsIsNotSent => lists::fails(hub, one, two),
        Check::ASenderAndAReceiverMeetUnderOneDrive => together::meet(rt, hub, one, two),
        Check::WhatOneThreadSendsTheOtherReceivesInOrder => at_once::come(rt, hub, one, two),
    }
}

/// The same on a channel of this kind with so many places.
fn went<R: Threads + Wait + RandomSource + AllocGlobal + Sync>(
    rt: &R,
    check: Check,
    kind: Kind,
    places: u32,
) -> bool
    requires elements { is_signal kind ≡ false }
    requires places { (1 ≤ places) × (places ≤ 1048576) }
{
    match new_channel(rt.alloc(), kind, places) {
        Ok((hub, one, two)) => went_on(rt, &hub, one, two, check),
        Err(_) => false,
    }
}

/// Whether each check went as its name says, on channels of these kinds and so many places.
pub(crate) fn found<R: Threads + Wait + RandomSource + AllocGlobal + Sync>(rt: &R) -> [bool; 14] {
    let (met, all, two) = (Kind::Rendezvous, Kind::Unlimited, Kind::Buffered(2));
    let stopped = Check::AllSteps(&A_STREAM_THAT_IS_STOPPED_GIVES_ITS_ELEMENT_UP);
    let idle = Check::AllSteps(&A_STREAM_THAT_DOES_NOT_WAIT_HAS_NONE_TO_GIVE_UP);
    let dropped = Check::AllSteps(&A_STREAM_THAT_IS_DROPPED_TAKES_ITS_WAIT_BACK);
    let stays = Check::AllSteps(&A_STREAM_THAT_WAITS_STAYS_AT_ITS_PLACE);
    let at_once = Check::WhatOneThreadSendsTheOtherReceivesInOrder;
    [
        went(rt, Check::AllElementsOfAClosedChannelComeInOrder, two, 4),
        went(rt, Check::TheFaultIsTheLastItem, met, 1),
        went(rt, stopped, met, 4),
        went(rt, idle, met, 4),
        went(rt, dropped, met, 4),
        went(rt, Check::ACollectThatIsDroppedTakesItsWaitBack, met, 4),
        went(rt, stays, met, 2),
        went(rt, Check::ADriveThatFailsMakesNoEntry, two, 4),
        went(rt, Check::AListIsSentInOrder, all, 4),
        went(rt, Check::AListIsNotSentToAClosedChannel, all, 4),
        went(rt, Check::AListEndsWhereNoPlaceIsLeft, all, 1),
        went(rt, Check::AListWhoseDriveFailsIsNotSent, all, 4),
        went(rt, Check::ASenderAndAReceiverMeetUnderOneDrive, met, 8),
        went(rt, at_once, Kind::Buffered(64), 10_001),
    ]
}
