//! Four passes of a gate, at work on one, two or four threads at once.
ghost use Rattle.std.specs.Prelude.{◌≡◌, ◌<◌, ◌≤◌, true};
ghost use Rattle.gates.specs.Passes.{IsOf};

use crate::shares::{Worker, done_by_four};
use crate::told::{Done, now};
use gates::{Gate, GatePass, TryAcquired};
use std::alloc::AllocGlobal;
use std::sync::Wait;
use std::thread::{Threads, yield_now};
use std::time::Clock;

/// Takes a permit, and tries again while there is none.
pub(crate) fn take(gate: &Gate, pass: &mut GatePass) -> bool
    requires of { IsOf gate.now pass.old }
    ensures of { IsOf gate.now pass.new }
    ensures held { result ≡ true → 0 < pass.new.held }
{
    for _ in 0..u64::MAX {
        match gate.try_acquire(pass) {
            TryAcquired::Held => return true,
            _ => yield_now(),
        }
    }
    false
}

impl Worker for GatePass {
    type Floor = Gate;

    ghost can_work = { λ gate pass. IsOf gate pass };

    /// Takes a permit and gives it back: whether it held one.
    fn turn(&mut self, gate: &Gate, number: u64) -> Option<u64> {
        if take(gate, self) {
            gate.release(self, (number % 48) as u32);
            return Some(1);
        }
        Some(0)
    }
}

/// So many turns of four passes of a gate of so many permits, by one, two or four threads: how often they held one.
pub(crate) fn held_by_four<R: Threads + Wait + Sync + Clock + AllocGlobal>(
    rt: &R,
    permits: u32,
    times: u64,
    threads: u32,
) -> Done
    requires some { 1 ≤ permits }
    requires few { permits ≤ 65535 }
{
    let Ok((gate, mut a)) = Gate::new(rt.alloc(), permits) else {
        return None;
    };
    let b = gate.split(&mut a);
    let c = gate.split(&mut a);
    let d = gate.split(&mut a);
    let begun = now(rt);
    let held = done_by_four(rt, threads, &gate, ((a, b), (c, d)), (times, times));
    Some((held, begun))
}
