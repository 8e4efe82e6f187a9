//! Four coroutines that send boxes over a channel of owned values, on one, two or four threads at once.
ghost use Rattle.std.specs.Prelude.{◌≤◌, IfOk};
ghost use Rattle.parcel_channel.specs.Numbers.{KeepsAll};
ghost use Rattle.parcel_channel.specs.Hubs.{IsOf};

use crate::shares::{Worker, count, done_by_four};
use crate::told::{Done, now};
use channel_model::Kind;
use co_base::Memory;
use parcel_channel::{ParcelGot, ParcelHub, ParcelPass, ParcelSent};
use std::alloc::{AllocGlobal, Global};
use std::sync::Wait;
use std::thread::Threads;
use std::time::Clock;

/// What is sent.
pub(crate) type Parcel = Box<[u64; 16]>;

/// One that sends and receives, by turns.
#[derive(Drop)]
struct Coroutine {
    pass: ParcelPass<Parcel>,
    alloc: Global,
}

/// Sends a box. Answers whether its receiver waited.
fn send_one(hub: &ParcelHub<Parcel>, pass: &mut ParcelPass<Parcel>, alloc: Global, i: u64) -> bool
    requires of { IsOf hub.now pass.old }
    ensures of { IsOf hub.now pass.new }
{
    match Box::new(alloc, [i; 16]) {
        Ok(parcel) => matches!(hub.send(pass, parcel), ParcelSent::Sent(Some(_), _)),
        Err(_) => false,
    }
}

impl Worker for Coroutine {
    type Floor = ParcelHub<Parcel>;

    ghost can_work = { λ hub one. IsOf hub one.pass };

    fn turn(&mut self, hub: &ParcelHub<Parcel>, number: u64) -> Option<u64> {
        let sent = send_one(hub, &mut self.pass, self.alloc, number);
        let came = matches!(hub.receive(&mut self.pass), ParcelGot::Value(_, _, _));
        count(sent, came)
    }
}

/// A channel with so many places, and four coroutines.
fn new_four(
    alloc: Global,
    kind: Kind,
    places: u32,
) -> Result<
    (
        ParcelHub<Parcel>,
        ((Coroutine, Coroutine), (Coroutine, Coroutine)),
    ),
    Memory,
>
    requires kind { KeepsAll kind }
    requires places { (1 ≤ places) × (places ≤ 1048576) }
    ensures a { IfOk result (λ r. IsOf r.0 r.1.0.0.pass) }
    ensures b { IfOk result (λ r. IsOf r.0 r.1.0.1.pass) }
    ensures c { IfOk result (λ r. IsOf r.0 r.1.1.0.pass) }
    ensures d { IfOk result (λ r. IsOf r.0 r.1.1.1.pass) }
{
    let (hub, mut main) = ParcelHub::new(alloc, kind, places, places)?;
    let b = hub.split(&mut main, 1);
    let c = hub.split(&mut main, 2);
    let d = hub.split(&mut main, 3);
    let left = (
        Coroutine { pass: main, alloc },
        Coroutine { pass: b, alloc },
    );
    let right = (Coroutine { pass: c, alloc }, Coroutine { pass: d, alloc });
    Ok((hub, (left, right)))
}

/// So many turns of each on a channel of this kind with so many places, by so many threads, which are one, two or four: how many calls
/// found their partner. Each of them made a transfer.
pub(crate) fn sent_by<R: Threads + Wait + Sync + Clock + AllocGlobal>(
    rt: &R,
    kind: Kind,
    places: u32,
    times: u64,
    threads: u32,
) -> Done
    requires kind { KeepsAll kind }
    requires places { (1 ≤ places) × (places ≤ 1048576) }
{
    let Ok((hub, four)) = new_four(rt.alloc(), kind, places) else {
        return None;
    };
    let begun = now(rt);
    let met = done_by_four(rt, threads, &hub, four, (times, times));
    Some((met, begun))
}
