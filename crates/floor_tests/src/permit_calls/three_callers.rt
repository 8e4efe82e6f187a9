//! Calls of three coroutines on the one permit of a semaphore: on a floor of lists, or over words with a pass for each.

ghost use Rattle.std.specs.Prelude.{◌≡◌, ℕ, true, IfOk};
ghost use Rattle.permits.specs.Parts.{MayFill};
ghost use Rattle.floor_tests.specs.KnownPermits.{used};
ghost use Rattle.floor_tests.specs.AllThree.{AllKnow, AllHold, AreFresh};

use crate::permit_calls::known_calls::{
    Call, Known, call_on, call_on_pass, fill_on, fill_on_pass, used,
};
use cell_words::{Hub, Pass};
use channel_model::{ChannelFloor, Kind};
use co_base::{Memory, Tag};
use one_thread_floor::ListFloor;
use permits::Permits;
use std::alloc::Global;

/// A semaphore of one permit.
const MUTEX: Permits = Permits { c: 0, n: 1 };

/// A channel that keeps all, of eight places.
const KINDS: [(Kind, u32); 1] = [(Kind::Unlimited, 8)];

/// What three coroutines know, with the tags 0, 1 and 2.
#[derive(Clone, Copy)]
struct Three {
    a: Known,
    b: Known,
    c: Known,
}

/// None holds a permit.
fn none_held() -> Three
    ensures a { result.a ≡ used 0 }
    ensures b { result.b ≡ used 0 }
    ensures c { result.c ≡ used 0 }
{
    Three {
        a: used(0),
        b: used(0),
        c: used(0),
    }
}

// ---- on one floor

/// Tag 0 fills the semaphore, on which none has called yet.
fn fill_first<F: ChannelFloor>(floor: &mut F, alloc: Global) -> Result<Three, Memory>
    requires alone { (F.view floor.old).alone ≡ true }
    requires fresh { (t : ℕ) → MayFill 0 1 t (F.view floor.old) }
    ensures knows { IfOk result (λ k. AllKnow k (F.view floor.new)) }
{
    match fill_on(floor, alloc, &MUTEX, 0) {
        Ok(()) => Ok(none_held()),
        Err(memory) => Err(memory),
    }
}

/// Whether the call of the one with this tag answers so, and what all know then; tag 2 for each above 1.
fn call_of_three<F: ChannelFloor>(
    floor: &mut F,
    alloc: Global,
    known: &mut Three,
    who: Tag,
    call: Call,
) -> bool
    requires knows { AllKnow known.old (F.view floor.old) }
    ensures knows { AllKnow known.new (F.view floor.new) }
{
    match who {
        0 => call_on(floor, alloc, &MUTEX, 0, &mut known.a, call),
        1 => call_on(floor, alloc, &MUTEX, 1, &mut known.b, call),
        _ => call_on(floor, alloc, &MUTEX, 2, &mut known.c, call),
    }
}

/// How many of the calls answer so, from the first on, after tag 0 filled the semaphore.
fn right_on<F: ChannelFloor>(
    floor: &mut F,
    alloc: Global,
    calls: &[(Tag, Call)],
) -> Result<usize, Memory>
    requires alone { (F.view floor.old).alone ≡ true }
    requires fresh { (t : ℕ) → MayFill 0 1 t (F.view floor.old) }
{
    let mut known = fill_first(floor, alloc)?;
    for i in 0..calls.len() {
        let (who, call) = calls[i];
        if !call_of_three(floor, alloc, &mut known, who, call) {
            return Ok(i);
        }
    }
    Ok(calls.len())
}

/// The same on a floor of lists.
pub fn right_on_list(alloc: Global, calls: &[(Tag, Call)]) -> Result<usize, Memory> {
    let mut floor = ListFloor::new(alloc, &KINDS)?;
    right_on(&mut floor, alloc, calls)
}

// ---- over words

/// Whether the call of the one with this tag answers so, and what all know then; tag 2 for each above 1.
fn call_by_three(
    hub: &Hub,
    a: &mut Pass,
    b: &mut Pass,
    c: &mut Pass,
    alloc: Global,
    known: &mut Three,
    who: Tag,
    call: Call,
) -> bool
    requires hold { AllHold hub.now a.old b.old c.old known.old }
    ensures hold { AllHold hub.now a.new b.new c.new known.new }
{
    match who {
        0 => call_on_pass(hub, a, alloc, &MUTEX, 0, &mut known.a, call),
        1 => call_on_pass(hub, b, alloc, &MUTEX, 1, &mut known.b, call),
        _ => call_on_pass(hub, c, alloc, &MUTEX, 2, &mut known.c, call),
    }
}

/// How many of the calls answer so, from the first on, after tag 0 filled the semaphore.
fn right_by(
    hub: &Hub,
    a: &mut Pass,
    b: &mut Pass,
    c: &mut Pass,
    alloc: Global,
    calls: &[(Tag, Call)],
) -> Result<usize, Memory>
    requires fresh { AreFresh hub.now a.old b.old c.old }
{
    fill_on_pass(hub, a, alloc, &MUTEX, 0)?;
    let mut known = none_held();
    for i in 0..calls.len() {
        let (who, call) = calls[i];
        if !call_by_three(hub, a, b, c, alloc, &mut known, who, call) {
            return Ok(i);
        }
    }
    Ok(calls.len())
}

/// The same on a hub, by a pass for each.
pub fn right_on_passes(alloc: Global, calls: &[(Tag, Call)]) -> Result<usize, Memory> {
    let (hub, mut a) = Hub::new(alloc, &KINDS)?;
    let mut b = hub.split(&mut a, 1);
    let mut c = hub.split(&mut a, 2);
    right_by(&hub, &mut a, &mut b, &mut c, alloc, calls)
}
