//! Numbers through a ring on which those who have to wait sleep: by two threads, by a select, and by a sink and a stream in tasks.
ghost use Rattle.std.specs.Prelude.{◌≡◌, ◌<◌, IfErr, IfOk};
ghost use Rattle.ring_channel.specs.Passes.{IsOf, SamePass, tag_of};
ghost use Rattle.library_examples.specs.Rings.{MayWait};

use futures::executor::block_on;
use futures::{SinkExt, StreamExt};
use ring_bridge::{
    Bells, Chosen, HandedOver, InOrder, ReceiveClause, RingSink, RingSinkFault, RingStream,
    SendClause, hand_over, receive, select, send,
};
use ring_channel::{Ring, RingFault, RingPass};
use std::alloc::{AllocGlobal, Global};
use std::random::RandomSource;
use std::sync::Wait;
use std::thread::{Threads, join};

/// A ring of so many slots, and its passes of the tags 0 and 1.
fn new_pair(
    alloc: Global,
    slots: u32,
) -> Result<(Ring<u32>, RingPass<u32>, RingPass<u32>), RingFault>
    ensures first { IfOk result (λ r. MayWait r.0 0 r.1) }
    ensures second { IfOk result (λ r. MayWait r.0 1 r.2) }
{
    let (ring, mut first) = Ring::new(alloc, slots)?;
    let second = ring.split(&mut first, 1);
    Ok((ring, first, second))
}

/// Sends a number, and sleeps while there is no room. It comes back if the ring is closed or spent.
pub(crate) fn send_or_back<R: Wait>(
    rt: &R,
    ring: &Ring<u32>,
    bells: &Bells,
    pass: &mut RingPass<u32>,
    tag: u32,
    number: u32,
) -> Result<u64, u32>
    requires of { IsOf ring.now pass.old }
    requires tag { (tag ≡ tag_of pass.old) × (tag < 64) }
    ensures of { IsOf ring.now pass.new }
    ensures same { SamePass pass.old pass.new }
    ensures back { IfErr result (λ back. back ≡ number) }
{
    match send(rt, ring, bells, pass, tag, number) {
        Ok(place) => Ok(place),
        Err(RingSinkFault::Closed(back)) => Err(back),
        Err(RingSinkFault::Spent(back)) => Err(back),
    }
}

/// Hands 7 over, sends 8, and closes the ring: whether 7 was claimed at once, and where 8 was put.
fn hand_and_send<R: Wait>(
    rt: &R,
    ring: &Ring<u32>,
    bells: &Bells,
    pass: &mut RingPass<u32>,
) -> (bool, Option<u64>)
    requires pass { MayWait ring.now 1 pass.old }
{
    let handed = hand_over(rt, ring, bells, pass, 1, 7);
    let sent = send_or_back(rt, ring, bells, pass, 1, 8);
    bells.wake_all(ring.close_and_call(pass));
    (matches!(handed, HandedOver::Taken(_)), sent.ok())
}

/// Receives three times.
fn receive_three<R: Wait>(
    rt: &R,
    ring: &Ring<u32>,
    bells: &Bells,
    pass: &mut RingPass<u32>,
) -> [Option<(u64, u32)>; 3]
    requires pass { MayWait ring.now 0 pass.old }
{
    let first = receive(rt, ring, bells, pass, 0);
    let second = receive(rt, ring, bells, pass, 0);
    let third = receive(rt, ring, bells, pass, 0);
    [first, second, third]
}

/// A ring of one slot between two threads.
pub(crate) fn by_two_threads<R: Threads + Wait + Sync + AllocGlobal>(
    rt: &R,
    bells: &Bells,
) -> Result<((bool, Option<u64>), [Option<(u64, u32)>; 3]), RingFault> {
    let (ring, mut main, mut sender) = new_pair(rt.alloc(), 1)?;
    let ring = &ring;
    Ok(join(
        rt,
        || -> (bool, Option<u64>)
            requires sender { MayWait ring.now 1 sender }
        { hand_and_send(rt, ring, bells, &mut sender) },
        || -> [Option<(u64, u32)>; 3]
            requires main { MayWait ring.now 0 main }
        { receive_three(rt, ring, bells, &mut main) },
    ))
}

/// What a select comes to: it received the value of a place, or sent to a place.
fn chosen<R: Wait>(
    rt: &R,
    bells: &Bells,
    clause: &mut InOrder<ReceiveClause<'_, u32>, SendClause<'_, u32>>,
) -> Chosen<Option<(u64, u32)>, Option<u64>>
    requires first { 1 ≡ tag_of clause.old.first.pass }
    requires second { 1 ≡ tag_of clause.old.second.pass }
    ensures first { 1 ≡ tag_of clause.new.first.pass }
    ensures second { 1 ≡ tag_of clause.new.second.pass }
{
    match select(rt, bells, clause, 1) {
        Chosen::First(got) => Chosen::First(got),
        Chosen::Second(sent) => Chosen::Second(sent.ok()),
    }
}

/// Two selects over a ring that is bare and one that has room, and one after the first was closed.
pub(crate) fn of_two_rings<R: Wait + AllocGlobal>(
    rt: &R,
    bells: &Bells,
) -> Result<[Chosen<Option<(u64, u32)>, Option<u64>>; 3], RingFault> {
    let (ring, mut sender, receiver) = new_pair(rt.alloc(), 1)?;
    let (other, _, another) = new_pair(rt.alloc(), 1)?;
    let mut clause = InOrder {
        first: ReceiveClause::new(&ring, receiver),
        second: SendClause::new(&other, another, 9),
    };
    let sent = chosen(rt, bells, &mut clause);
    ring.try_send(&mut sender, 5);
    let received = chosen(rt, bells, &mut clause);
    ring.close(&mut sender);
    let over = chosen(rt, bells, &mut clause);
    Ok([sent, received, over])
}

/// A sink sends a number, and waits while there is no room. Answers whether it was sent.
fn by_sink<R: Wait + RandomSource + AllocGlobal>(
    rt: &R,
    ring: &Ring<u32>,
    bells: &Bells,
    pass: RingPass<u32>,
) -> bool
    requires pass { MayWait ring.now 1 pass }
{
    let sent = block_on(rt, RingSink::new(ring, bells, pass, 1).send(5));
    matches!(sent, Ok(Ok(_)))
}

/// The next number of a stream, for which it waits. None: the ring is over.
fn by_stream<R: Wait + RandomSource + AllocGlobal>(
    rt: &R,
    ring: &Ring<u32>,
    bells: &Bells,
    pass: RingPass<u32>,
) -> Option<u32>
    requires pass { MayWait ring.now 0 pass }
{
    let mut stream = RingStream::new(ring, bells, pass, 0);
    match block_on(rt, stream.next()) {
        Ok(number) => number,
        Err(_) => None,
    }
}

/// A number goes from a sink to a stream.
pub(crate) fn by_sink_and_stream<R: Wait + RandomSource + AllocGlobal>(
    rt: &R,
    bells: &Bells,
) -> Result<(bool, Option<u32>), RingFault> {
    let (ring, receiver, sender) = new_pair(rt.alloc(), 2)?;
    let sent = by_sink(rt, &ring, bells, sender);
    let received = by_stream(rt, &ring, bells, receiver);
    Ok((sent, received))
}
