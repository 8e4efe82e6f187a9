//! Checks of rings by threads, by a stream and a sink, and by a select. Those whose threads sleep have the same bells, and each has a ring
//! of its own.
ghost use Rattle.std.specs.Prelude.{◌≤◌, ◌^◌};
ghost use Rattle.bridge_tests.specs.RingPasses.{AreThree};

use crate::rings::ring_calls::{Three, new_ring};
use crate::rings::ring_lines::{
    BOXES_ARRIVE_ONCE_AND_IN_ORDER, THREADS_THAT_SLEEP_MOVE_EACH_NUMBER_ONCE,
    TWO_SENDERS_HAND_OVER_ALL_THEY_HAVE, Wanted, goes, nobody_is_forgotten,
};
use crate::rings::selects::{Check as Select, went as selects};
use crate::rings::{handings, who_sleeps};
use ring_bridge::Bells;
use ring_channel::Ring;
use std::alloc::AllocGlobal;
use std::random::RandomSource;
use std::sync::Wait;
use std::thread::Threads;

/// What is checked: the functions of these names.
#[derive(Clone, Copy)]
enum Check {
    AValueThatNobodyClaimedIsLeft,
    ASinkAndAStreamTakeTurns,
    AStreamSleepsUntilItIsNamed,
}

/// Whether this check went as its name says on the ring.
fn went_on<R: Threads + Wait + RandomSource + Sync + AllocGlobal>(
    rt: &R,
    ring: &Ring<u32>,
    bells: &Bells,
    three: Three<u32>,
    check: Check,
) -> bool
    requires three { AreThree ring.now three.main three.one three.two }
{
    match check {
        Check::AValueThatNobodyClaimedIsLeft => handings::is_left(rt, ring, bells, three),
        Check::ASinkAndAStreamTakeTurns => who_sleeps::take_turns(rt, ring, bells, three),
        Check::AStreamSleepsUntilItIsNamed => who_sleeps::sleeps_until_named(
            rt, ring, bells, three,
        ),
    }
}

/// The same on a ring of so many slots and places.
fn went<R: Threads + Wait + RandomSource + Sync + AllocGlobal>(
    rt: &R,
    bells: &Bells,
    slots: u32,
    places: u64,
    check: Check,
) -> bool
    requires places { places ≤ 2 ^ 62 }
{
    match new_ring::<u32>(rt.alloc(), slots, places) {
        Ok((ring, three)) => went_on(rt, &ring, bells, three, check),
        Err(_) => false,
    }
}

/// Whether each check by threads, by a stream and a sink, and by a select went as its name says.
pub(crate) fn found<R: Threads + Wait + RandomSource + Sync + AllocGlobal>(
    rt: &R,
    bells: &Bells,
) -> [bool; 12] {
    let alloc = rt.alloc();
    let hand = &TWO_SENDERS_HAND_OVER_ALL_THEY_HAVE;
    let sleep = &THREADS_THAT_SLEEP_MOVE_EACH_NUMBER_ONCE;
    let boxes = &BOXES_ARRIVE_ONCE_AND_IN_ORDER;
    let (all, slept, tried) = (
        Wanted::All(1_000),
        Wanted::InOrder(3_000),
        Wanted::InOrder(2_000),
    );
    [
        goes(rt, alloc, bells, 1, 1_000, all, hand),
        went(rt, bells, 1, 100, Check::AValueThatNobodyClaimedIsLeft),
        goes(rt, alloc, bells, 2, 3_000, slept, sleep),
        goes(rt, alloc, bells, 2, 2_000, tried, boxes),
        went(rt, bells, 2, 100, Check::ASinkAndAStreamTakeTurns),
        went(rt, bells, 2, 100, Check::AStreamSleepsUntilItIsNamed),
        selects(rt, bells, 2, Select::TheFirstClauseThatMayGoOnIsChosen),
        selects(rt, bells, 1, Select::ASendThatHasNoRoomIsNotChosen),
        selects(rt, bells, 1, Select::AThreadThatSelectsReceivesAllOfBoth),
        nobody_is_forgotten(rt, alloc, bells, 1),
        nobody_is_forgotten(rt, alloc, bells, 2),
        nobody_is_forgotten(rt, alloc, bells, 3),
    ]
}
