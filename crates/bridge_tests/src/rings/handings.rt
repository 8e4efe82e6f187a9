//! A rendezvous over a ring of one slot.
ghost use Rattle.bridge_tests.specs.RingPasses.{AreThree, IsMain, IsOther, Keeps};

use crate::rings::ring_calls::Three;
use crate::rings::ring_rows::{A_VALUE_THAT_IS_CLAIMED_IS_TAKEN, are_right};
use ring_bridge::{Bells, HandedOver, hand_over};
use ring_channel::{Ring, RingGot, RingPass, RingSide};
use std::sync::Wait;
use std::thread::{Threads, join, yield_now};

/// How often a thread looks for a value before it gives up.
const LOOKS: u32 = 10_000_000;

/// Hands 7 over. Answers whether it was left at the place 1.
fn hand_seven<R: Wait>(rt: &R, ring: &Ring<u32>, bells: &Bells, pass: &mut RingPass<u32>) -> bool
    requires of { IsOther 1 ring.now pass.old }
{
    matches!(hand_over(rt, ring, bells, pass, 1, 7), HandedOver::Left(1))
}

/// Looks again and again until the first value is there.
fn until_there(ring: &Ring<u32>, pass: &mut RingPass<u32>)
    requires of { IsOther 2 ring.now pass.old }
    ensures kept { Keeps ring.now pass.old pass.new }
{
    for _ in 0..LOOKS {
        if !ring.stand_by(pass, RingSide::Receive, 2) {
            return;
        }
        ring.leave(pass, RingSide::Receive, 2);
        yield_now();
    }
}

/// Closes the ring once the first value is there. Answers whether it was open.
fn close_late(ring: &Ring<u32>, bells: &Bells, pass: &mut RingPass<u32>) -> bool
    requires of { IsOther 2 ring.now pass.old }
{
    until_there(ring, pass);
    let closing = ring.close_and_call(pass);
    bells.wake_all(closing);
    closing.closed
}

/// Both at once.
fn by_two<R: Threads + Wait + Sync>(
    rt: &R,
    ring: &Ring<u32>,
    bells: &Bells,
    mut one: RingPass<u32>,
    mut two: RingPass<u32>,
) -> (bool, bool)
    requires one { IsOther 1 ring.now one }
    requires two { IsOther 2 ring.now two }
{
    join(
        rt,
        || hand_seven(rt, ring, bells, &mut one),
        || close_late(ring, bells, &mut two),
    )
}

/// Whether the ring is over behind 7, which is left at the place 1.
fn is_over_behind_seven(ring: &Ring<u32>, main: &mut RingPass<u32>) -> bool
    requires main { IsMain ring.now main.old }
{
    let closed = ring.is_closed(main);
    let seven = matches!(ring.try_receive(main), RingGot::Value(1, 7));
    closed & seven & matches!(ring.try_receive(main), RingGot::Closed)
}

/// The first value is claimed and told so. Nobody claims the second: it is left once the ring is closed.
pub(crate) fn is_left<R: Threads + Wait + Sync>(
    rt: &R,
    ring: &Ring<u32>,
    bells: &Bells,
    mut three: Three<u32>,
) -> bool
    requires three { AreThree ring.now three.main three.one three.two }
{
    let taken = are_right(ring, &mut three, &A_VALUE_THAT_IS_CLAIMED_IS_TAKEN);
    let Three { mut main, one, two } = three;
    let (left, closed) = by_two(rt, ring, bells, one, two);
    taken & left & closed & is_over_behind_seven(ring, &mut main)
}
