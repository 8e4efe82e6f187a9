//! A soak of a gate of two permits, which four threads acquire and release. Standard output has how often a permit was held, standard error
//! how long that took.
//!
//!     word_bench gate_soak [TIMES]     by default 1000000, at most 4294967295
//!
//! Each thread does a quarter, and tries again where it finds no permit. One that holds a permit adds one to a count of those who hold one,
//! and takes it away before it releases: the most that one finds there is to be two at most. In the end both permits are to be free. No
//! memory is taken meanwhile.
ghost use Rattle.gates.specs.Passes.{IsOf};

use crate::semaphores::gates_at_once::take;
use crate::shares::{Worked, Worker, by_four};
use crate::told::{Line, Words, no_memory, now, small};
use co_base::Memory;
use gates::{Gate, GatePass, TryAcquired};
use std::alloc::Global;
use std::io;
use std::sync::Wait;
use std::sync::atomic::{AtomicU32, Ordering};
use std::thread::Threads;
use std::time::Clock;

/// How many permits.
const PERMITS: u32 = 2;

/// A gate, and how many hold a permit of it.
#[derive(Drop)]
struct Guarded {
    gate: Gate,
    holders: AtomicU32,
}

/// One that holds a permit in each turn, and how many held one at most meanwhile, as far as it saw.
#[derive(Drop)]
struct Holder {
    pass: GatePass,
    most: u32,
}

impl Worker for Holder {
    type Floor = Guarded;

    ghost can_work = { λ guarded one. IsOf guarded.gate one.pass };

    fn turn(&mut self, guarded: &Guarded, number: u64) -> Option<u64> {
        if take(&guarded.gate, &mut self.pass) {
            let others = guarded.holders.fetch_add(1, Ordering::SeqCst);
            self.most = self.most.max(others.saturating_add(1));
            guarded.holders.fetch_sub(1, Ordering::SeqCst);
            guarded.gate.release(&mut self.pass, (number % 48) as u32);
            return Some(1);
        }
        Some(0)
    }
}

/// Whether both permits are free.
fn are_free(gate: &Gate, pass: &mut GatePass) -> bool
    requires of { IsOf gate.now pass.old }
{
    let first = gate.try_acquire(pass);
    let second = gate.try_acquire(pass);
    let third = gate.try_acquire(pass);
    matches!(
        (first, second, third),
        (TryAcquired::Held, TryAcquired::Held, TryAcquired::Empty)
    )
}

/// How often both held a permit, and how many held one at most.
fn sum_of(two: (Worked<Holder>, Worked<Holder>)) -> (u64, u32) {
    let (a, b) = two;
    (a.1.saturating_add(b.1), a.0.most.max(b.0.most))
}

/// So often by each of four threads. Answers how often a permit was held, by how many at most, and whether both are free in the end.
fn soak<R: Threads + Wait + Sync>(
    rt: &R,
    alloc: Global,
    times: u64,
) -> Result<(u64, u32, bool), Memory> {
    let (gate, mut last) = Gate::new(alloc, PERMITS)?;
    let a = gate.split(&mut last);
    let b = gate.split(&mut last);
    let c = gate.split(&mut last);
    let d = gate.split(&mut last);
    let holders = AtomicU32::new(0);
    let guarded = Guarded { gate, holders };
    let left = (Holder { pass: a, most: 0 }, Holder { pass: b, most: 0 });
    let right = (Holder { pass: c, most: 0 }, Holder { pass: d, most: 0 });
    let (left, right) = by_four(rt, 4, &guarded, (left, right), (times, times));
    let ((held, most), (more, other)) = (sum_of(left), sum_of(right));
    let free = are_free(&guarded.gate, &mut last);
    Ok((held.saturating_add(more), most.max(other), free))
}

/// Says how often a permit was held, and whether all went right.
fn say_right<R: Clock + Print + AllocGlobal>(rt: &R, held: u64, right: bool) -> io::Result<()> {
    let mut line = Line::since(rt, None);
    line.add("gate soak: ");
    line.add(held);
    line.add(" times held, by two at most and both free in the end: ");
    line.add(right);
    line.say(rt)
}

pub(crate) fn bench<R: Threads + Wait + Sync + Clock + Print + Eprint + AllocGlobal>(
    rt: &R,
    words: &Words,
) -> io::Result<()> {
    let times = small(words.second).unwrap_or(1_000_000);
    let begun = now(rt);
    let Ok((held, most, free)) = soak(rt, rt.alloc(), u64::from(times / 4)) else {
        return Err(no_memory());
    };
    let right = free && most <= PERMITS;
    let mut line = Line::since(rt, begun);
    line.add("gate soak: ");
    line.add(held);
    line.add(" times held, by ");
    line.add(most);
    line.add(" at most, both free in the end: ");
    line.add(free);
    line.add(": ");
    line.add(right);
    line.add(",");
    say_right(rt, held, right)?;
    line.say_time(rt)
}
