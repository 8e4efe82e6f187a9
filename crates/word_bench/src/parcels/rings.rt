//! The same through a ring.
ghost use Rattle.std.specs.Prelude.{IfOk};
ghost use Rattle.word_bench.specs.Rings.{IsPass};

use crate::parcels::boxes::Parcel;
use crate::shares::{Worker, done_by_four};
use crate::told::{Done, now};
use ring_channel::{ReceiveOutcome, Ring, RingFault, RingPass, SendOutcome};
use std::alloc::{AllocGlobal, Global};
use std::sync::Wait;
use std::thread::Threads;
use std::time::Clock;

/// How often a call is tried.
const TRIES: u32 = 100_000_000;

/// Sends a box. Answers whether it was sent.
fn send_one(ring: &Ring<Parcel>, pass: &mut RingPass<Parcel>, tag: u32, parcel: Parcel) -> bool
    requires pass { IsPass ring.now tag pass.old }
    ensures pass { IsPass ring.now tag pass.new }
{
    let mut parcel = parcel;
    for _ in 0..TRIES {
        match ring.send(pass, tag, parcel) {
            SendOutcome::Sent { place: _, wakes: _ } => return true,
            SendOutcome::Closed(_, _) => return false,
            SendOutcome::Spent(_, _) => return false,
            SendOutcome::Waits(back) => parcel = back,
            SendOutcome::Passed(back) => parcel = back,
        }
    }
    false
}

/// Receives a box. Answers whether one came.
fn receive_one(ring: &Ring<Parcel>, pass: &mut RingPass<Parcel>, tag: u32) -> bool
    requires pass { IsPass ring.now tag pass.old }
    ensures pass { IsPass ring.now tag pass.new }
{
    for _ in 0..TRIES {
        match ring.receive(pass, tag) {
            ReceiveOutcome::Received {
                place: _,
                value: _,
                wakes: _,
            } => return true,
            ReceiveOutcome::Closed(_) => return false,
            ReceiveOutcome::Waits => {}
            ReceiveOutcome::Passed => {}
        }
    }
    false
}

/// One that sends and receives, by turns, with the pass of this tag.
#[derive(Drop)]
struct Exchanger {
    pass: RingPass<Parcel>,
    tag: u32,
    alloc: Global,
}

impl Worker for Exchanger {
    type Floor = Ring<Parcel>;

    ghost can_work = { λ ring one. IsPass ring one.tag one.pass };

    fn turn(&mut self, ring: &Ring<Parcel>, number: u64) -> Option<u64> {
        let Ok(parcel) = Box::new(self.alloc, [number; 16]) else {
            return Some(0);
        };
        let sent = send_one(ring, &mut self.pass, self.tag, parcel);
        let received = receive_one(ring, &mut self.pass, self.tag);
        Some(u64::from(sent && received))
    }
}

/// A ring of so many slots, and four that use it.
fn new_four(
    alloc: Global,
    slots: u32,
) -> Result<
    (
        Ring<Parcel>,
        ((Exchanger, Exchanger), (Exchanger, Exchanger)),
    ),
    RingFault,
>
    ensures a { IfOk result (λ r. IsPass r.0 r.1.0.0.tag r.1.0.0.pass) }
    ensures b { IfOk result (λ r. IsPass r.0 r.1.0.1.tag r.1.0.1.pass) }
    ensures c { IfOk result (λ r. IsPass r.0 r.1.1.0.tag r.1.1.0.pass) }
    ensures d { IfOk result (λ r. IsPass r.0 r.1.1.1.tag r.1.1.1.pass) }
{
    let (ring, mut main) = Ring::<Parcel>::new(alloc, slots)?;
    let b = ring.split(&mut main, 1);
    let c = ring.split(&mut main, 2);
    let d = ring.split(&mut main, 3);
    let (a, b, c, d) = (
        Exchanger {
            pass: main,
            tag: 0,
            alloc,
        },
        Exchanger {
            pass: b,
            tag: 1,
            alloc,
        },
        Exchanger {
            pass: c,
            tag: 2,
            alloc,
        },
        Exchanger {
            pass: d,
            tag: 3,
            alloc,
        },
    );
    Ok((ring, ((a, b), (c, d))))
}

/// So many transfers by each of four, through a ring of so many slots, on so many threads, which are one, two or four: how many boxes came.
pub(crate) fn moved_by<R: Threads + Wait + Sync + Clock + AllocGlobal>(
    rt: &R,
    slots: u32,
    times: u64,
    threads: u32,
) -> Done {
    let begun = now(rt);
    let Ok((ring, four)) = new_four(rt.alloc(), slots) else {
        return None;
    };
    let came = done_by_four(rt, threads, &ring, four, (times, times));
    Some((came, begun))
}
