//! Passes of a gate, one call after the other; and one that sleeps until another thread grants it the permit.

ghost use Rattle.gates.specs.Passes.{IsOf};

use crate::compare::compare;
use co_base::Memory;
use gates::{Acquired, Gate, GatePass, GaveUp, Released, TryAcquired, WaitState};
use std::alloc::Global;
use std::sync::Wait;
use std::test::Fail;
use std::thread::{Threads, join, sleep};
use std::time::{Clock, Duration};

/// Whether an acquire is answered so.
fn acquires(gate: &Gate, pass: &mut GatePass, wanted: Acquired) -> bool
    requires of { IsOf gate.now pass.old }
    ensures of { IsOf gate.now pass.new }
{
    if pass.waits() || pass.number() >= 48 {
        return false;
    }
    gate.acquire(pass) == wanted
}

/// Whether a release is answered so.
fn releases(gate: &Gate, pass: &mut GatePass, from: u32, wanted: Released) -> bool
    requires of { IsOf gate.now pass.old }
    ensures of { IsOf gate.now pass.new }
{
    if pass.held() == 0 || from >= 48 {
        return false;
    }
    gate.release(pass, from) == wanted
}

/// Whether a look is answered so.
fn sees(gate: &Gate, pass: &mut GatePass, wanted: WaitState) -> bool
    requires of { IsOf gate.now pass.old }
    ensures of { IsOf gate.now pass.new }
{
    if !pass.waits() {
        return false;
    }
    gate.look(pass) == wanted
}

/// Whether giving up is answered so.
fn gives_up(gate: &Gate, pass: &mut GatePass, wanted: GaveUp) -> bool
    requires of { IsOf gate.now pass.old }
    ensures of { IsOf gate.now pass.new }
{
    if !pass.waits() {
        return false;
    }
    gate.give_up(pass) == wanted
}

/// Which calls of four passes on two permits answer so. In the end the first and the last hold one.
fn right_of_four(
    gate: &Gate,
    a: &mut GatePass,
    b: &mut GatePass,
    c: &mut GatePass,
    d: &mut GatePass,
) -> [bool; 16]
    requires a { IsOf gate.now a.old }
    requires b { IsOf gate.now b.old }
    requires c { IsOf gate.now c.old }
    requires d { IsOf gate.now d.old }
    ensures a { IsOf gate.now a.new }
    ensures b { IsOf gate.now b.new }
{
    [
        acquires(gate, a, Acquired::Held),
        gate.try_acquire(b) == TryAcquired::Held,
        gate.try_acquire(c) == TryAcquired::Empty,
        acquires(gate, c, Acquired::Waits),
        acquires(gate, d, Acquired::Waits),
        sees(gate, c, WaitState::Waits),
        releases(gate, a, 3, Released::Granted(3)),
        gives_up(gate, d, GaveUp::Late),
        releases(gate, d, 3, Released::Granted(2)),
        sees(gate, c, WaitState::Held),
        acquires(gate, a, Acquired::Waits),
        gives_up(gate, a, GaveUp::Done),
        releases(gate, b, 0, Released::Free),
        releases(gate, c, 0, Released::Free),
        gate.try_acquire(d) == TryAcquired::Held,
        acquires(gate, a, Acquired::Held),
    ]
}

/// Keeps the permit a while, and gives it back: whether it did.
fn give_later<R: Clock>(rt: &R, gate: &Gate, pass: &mut GatePass) -> bool
    requires of { IsOf gate.now pass.old }
{
    if pass.held() == 0 {
        return false;
    }
    sleep(rt, Duration::from_millis(100));
    gate.release_and_wake(pass, 0) != Released::Busy
}

/// Takes a permit, asleep until it is granted: how many it holds then.
fn take_asleep<R: Wait>(rt: &R, gate: &Gate, pass: &mut GatePass) -> u32
    requires of { IsOf gate.now pass.old }
{
    if pass.waits() || pass.number() >= 48 {
        return 0;
    }
    gate.blocking_acquire(rt, pass);
    pass.held()
}

/// Which calls answer so, and, if all do: whether one that keeps a permit a while gives it back to a second, which sleeps until then,
/// and how many the second holds.
fn found<R: Threads + Wait + Sync + Clock>(
    rt: &R,
    alloc: Global,
) -> Result<([bool; 16], bool, u32), Memory> {
    let (gate, mut a) = Gate::new(alloc, 2)?;
    let mut b = gate.split(&mut a);
    let mut c = gate.split(&mut a);
    let mut d = gate.split(&mut a);
    let right = right_of_four(&gate, &mut a, &mut b, &mut c, &mut d);
    if right != [true; 16] {
        return Ok((right, false, 0));
    }
    let (given_back, held) = join(
        rt,
        || give_later(rt, &gate, &mut a),
        || take_asleep(rt, &gate, &mut b),
    );
    Ok((right, given_back, held))
}

#[test]
fn two_permits_go_round_and_one_that_sleeps_wakes_with_one(rt: HostRuntime) -> Result<(), Fail> {
    compare(&rt, &found(&rt, rt.alloc())?, &([true; 16], true, 1));
    Ok(())
}
