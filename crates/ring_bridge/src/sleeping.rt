//! To send and to receive on a thread that sleeps while it has to wait.
ghost use Rattle.std.specs.Prelude.{◌≡◌, ◌<◌};
ghost use Rattle.ring_channel.specs.Passes.{IsOf, SamePass, seen_by, tag_of};
ghost use Rattle.ring_bridge.specs.Waits.{ReceiveTurn, SendTurn, SleptToReceive, SleptToSend};

use crate::bells::Bells;
use crate::sinks::RingSinkFault;
use ring_channel::{ReceiveOutcome, Ring, RingPass, SendOutcome};
use std::sync::Wait;

/// Receives, or sleeps once. None: there is no answer yet.
fn receive_or_sleep<T, R: Wait>(
    rt: &R,
    ring: &Ring<T>,
    bells: &Bells,
    pass: &mut RingPass<T>,
    tag: u32,
) -> Option<Option<(u64, T)>>
    requires of { IsOf ring.now pass.old }
    requires tag { (tag ≡ tag_of pass.old) × (tag < 64) }
    ensures of { IsOf ring.now pass.new }
    ensures same { SamePass pass.old pass.new }
    ensures turn { ReceiveTurn ring.now.slots (tag_of pass.old) (seen_by pass.old) (seen_by pass.new) result }
{
    let rung = bells.rung(tag);
    match ring.receive(pass, tag) {
        ReceiveOutcome::Received {
            place,
            value,
            wakes,
        } => {
            bells.wake_both(wakes);
            Some(Some((place, value)))
        }
        ReceiveOutcome::Closed(called) => {
            bells.wake(called);
            Some(None)
        }
        ReceiveOutcome::Waits => {
            bells.sleep(rt, tag, rung);
            None
        }
        ReceiveOutcome::Passed => None,
    }
}

/// Sends, or sleeps once. The value comes back where there is no answer yet.
fn send_or_sleep<T, R: Wait>(
    rt: &R,
    ring: &Ring<T>,
    bells: &Bells,
    pass: &mut RingPass<T>,
    tag: u32,
    value: T,
) -> Result<Result<u64, RingSinkFault<T>>, T>
    requires of { IsOf ring.now pass.old }
    requires tag { (tag ≡ tag_of pass.old) × (tag < 64) }
    ensures of { IsOf ring.now pass.new }
    ensures same { SamePass pass.old pass.new }
    ensures turn { SendTurn ring.now.slots ring.now.places (tag_of pass.old) value (seen_by pass.old) (seen_by pass.new) result }
{
    let rung = bells.rung(tag);
    match ring.send(pass, tag, value) {
        SendOutcome::Sent { place, wakes } => {
            bells.wake_both(wakes);
            Ok(Ok(place))
        }
        SendOutcome::Closed(back, called) => {
            bells.wake(called);
            Ok(Err(RingSinkFault::Closed(back)))
        }
        SendOutcome::Spent(back, called) => {
            bells.wake(called);
            Ok(Err(RingSinkFault::Spent(back)))
        }
        SendOutcome::Waits(back) => {
            bells.sleep(rt, tag, rung);
            Err(back)
        }
        SendOutcome::Passed(back) => Err(back),
    }
}

/// Receives the first value, with its place; sleeps while there is none. None: the ring is closed, and each value was received.
#[tactic(auto, using(crate::proofs::WaitsGo::none_received, crate::proofs::WaitsGo::slept_to_receive))]
pub fn receive<T, R: Wait>(
    rt: &R,
    ring: &Ring<T>,
    bells: &Bells,
    pass: &mut RingPass<T>,
    tag: u32,
) -> Option<(u64, T)>
    requires of { IsOf ring.now pass.old }
    requires tag { (tag ≡ tag_of pass.old) × (tag < 64) }
    ensures of { IsOf ring.now pass.new }
    ensures same { SamePass pass.old pass.new }
    ensures slept { SleptToReceive ring.now.slots (tag_of pass.old) (seen_by pass.old) (seen_by pass.new) result }
{
    for _ in rt.forever() {
        match receive_or_sleep(rt, ring, bells, pass, tag) {
            Some(answer) => return answer,
            None => {}
        }
    }
    unreachable!()
}

/// Sends the value; sleeps while there is no room. It comes back if the ring is closed or spent.
#[tactic(auto, using(crate::proofs::WaitsGo::none_sent, crate::proofs::WaitsGo::slept_to_send))]
pub fn send<T, R: Wait>(
    rt: &R,
    ring: &Ring<T>,
    bells: &Bells,
    pass: &mut RingPass<T>,
    tag: u32,
    value: T,
) -> Result<u64, RingSinkFault<T>>
    requires of { IsOf ring.now pass.old }
    requires tag { (tag ≡ tag_of pass.old) × (tag < 64) }
    ensures of { IsOf ring.now pass.new }
    ensures same { SamePass pass.old pass.new }
    ensures slept { SleptToSend ring.now.slots ring.now.places (tag_of pass.old) value (seen_by pass.old) (seen_by pass.new) result }
{
    let mut value = value;
    for _ in rt.forever() {
        match send_or_sleep(rt, ring, bells, pass, tag, value) {
            Ok(answer) => return answer,
            Err(back) => value = back,
        }
    }
    unreachable!()
}
