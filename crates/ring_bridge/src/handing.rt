//! A rendezvous over a ring: a sender that sleeps until its value was claimed by a receiver.
ghost use Rattle.std.specs.Prelude.{◌≡◌, ◌<◌};
ghost use Rattle.ring_channel.specs.Passes.{IsOf, SamePass, seen_by, tag_of};
ghost use Rattle.ring_channel.specs.declared.act.RingSide.TheVariants.{Send};
ghost use Rattle.ring_bridge.specs.Leaves.{LeftBy};
ghost use Rattle.ring_bridge.specs.Handings.{AwaitAnswer, AwaitTurn, HandAnswer};

use crate::bells::Bells;
use crate::sinks::RingSinkFault;
use crate::sleeping::send;
use ring_channel::{Ring, RingPass, RingSide};
use std::sync::Wait;

/// What became of a value that was to be handed over.
#[derive(Drop)]
pub enum HandedOver<T> {
    /// It was put at this place, and a receiver claimed it.
    Taken(u64),
    /// It was put at this place, and the ring was closed before a receiver claimed it: it can still be received.
    Left(u64),
    /// It comes back.
    Refused(RingSinkFault<T>),
}

/// Waits no more to send. Who is named in its place is woken.
fn leave<T>(ring: &Ring<T>, bells: &Bells, pass: &mut RingPass<T>, tag: u32)
    requires of { IsOf ring.now pass.old }
    requires tag { (tag ≡ tag_of pass.old) × (tag < 64) }
    ensures of { IsOf ring.now pass.new }
    ensures same { SamePass pass.old pass.new }
    ensures left { LeftBy ring.now.slots (tag_of pass.old) Send (seen_by pass.old) (seen_by pass.new) }
{
    let called = ring.leave(pass, RingSide::Send, tag);
    bells.wake(called);
}

/// Looks whether the value was claimed, and whether the ring is closed; else sleeps once. None: neither yet.
fn await_once<T, R: Wait>(
    rt: &R,
    ring: &Ring<T>,
    bells: &Bells,
    pass: &mut RingPass<T>,
    tag: u32,
    place: u64,
) -> Option<bool>
    requires of { IsOf ring.now pass.old }
    requires tag { (tag ≡ tag_of pass.old) × (tag < 64) }
    ensures of { IsOf ring.now pass.new }
    ensures same { SamePass pass.old pass.new }
    ensures turn { AwaitTurn ring.now.slots (tag_of pass.old) place (seen_by pass.old) (seen_by pass.new) result }
{
    let rung = bells.rung(tag);
    if ring.was_taken(pass, place) {
        leave(ring, bells, pass, tag);
        return Some(true);
    }
    if ring.is_closed(pass) {
        leave(ring, bells, pass, tag);
        return Some(false);
    }
    if !ring.stand_by(pass, RingSide::Send, tag) {
        return None;
    }
    if !ring.was_taken(pass, place) {
        bells.sleep(rt, tag, rung);
    }
    None
}

/// Sleeps until the value was claimed, or the ring is closed.
#[tactic(auto, using(crate::proofs::HandsOver::none_awaited, crate::proofs::HandsOver::await_ended))]
fn await_claim<T, R: Wait>(
    rt: &R,
    ring: &Ring<T>,
    bells: &Bells,
    pass: &mut RingPass<T>,
    tag: u32,
    place: u64,
) -> bool
    requires of { IsOf ring.now pass.old }
    requires tag { (tag ≡ tag_of pass.old) × (tag < 64) }
    ensures of { IsOf ring.now pass.new }
    ensures same { SamePass pass.old pass.new }
    ensures answer { AwaitAnswer ring.now.slots (tag_of pass.old) place (seen_by pass.old) (seen_by pass.new) result }
{
    for _ in rt.forever() {
        match await_once(rt, ring, bells, pass, tag, place) {
            Some(taken) => return taken,
            None => {}
        }
    }
    unreachable!()
}

/// Sends the value, and sleeps until a receiver claimed it: on a ring of one slot of which all senders call this, a rendezvous. Each names
/// all the others once it has put its value, so that who waits for its own to be claimed is not passed over by one that waits for room.
pub fn hand_over<T, R: Wait>(
    rt: &R,
    ring: &Ring<T>,
    bells: &Bells,
    pass: &mut RingPass<T>,
    tag: u32,
    value: T,
) -> HandedOver<T>
    requires of { IsOf ring.now pass.old }
    requires tag { (tag ≡ tag_of pass.old) × (tag < 64) }
    ensures of { IsOf ring.now pass.new }
    ensures same { SamePass pass.old pass.new }
    ensures answer { HandAnswer ring.now.slots ring.now.places (tag_of pass.old) value (seen_by pass.old) (seen_by pass.new) result }
{
    match send(rt, ring, bells, pass, tag, value) {
        Ok(place) => {
            let mask = ring.call_all(pass, RingSide::Send);
            bells.wake_mask(mask);
            if await_claim(rt, ring, bells, pass, tag, place) {
                return HandedOver::Taken(place);
            }
            HandedOver::Left(place)
        }
        Err(fault) => HandedOver::Refused(fault),
    }
}
