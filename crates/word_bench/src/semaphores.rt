//! How long it takes to acquire and to release a permit over words, and to take and to free the kit's own lock. Standard output has how
//! often that was done, standard error how long it took.
//!
//!     word_bench permits [TIMES]     how often by each of four coroutines, by default 1000, at most 131000
//!
//! Four coroutines use a semaphore of one permit, and one of two, by 1, 2 and 4 threads at once. One that finds no permit looks at its
//! wait some times and then gives it up, which counts too (`floor_tests::permit_calls`).
//!
//! The same is done at a gate of one permit and of two, where one that finds no permit tries again until it has one (`gates`).
//!
//! - `gates_at_once`: the four at a gate
//! - `locks`: the same by the kit's lock
ghost use Rattle.std.specs.Prelude.{◌≡◌, ◌≤◌};
ghost use Rattle.floor_tests.specs.KnownPermits.{IsNumber};

pub(crate) mod gates_at_once;
mod locks;

use crate::told::{Line, Words, no_memory, now, small, tell};
use floor_tests::permit_calls::{Tally, tally_of_four};
use gates_at_once::held_by_four;
use locks::locked_by_four;
use permits::Permits;
use std::io;
use std::sync::Wait;
use std::thread::Threads;
use std::time::Clock;

/// Says how many acquires there were, and how many of them held a permit.
fn tell_tally<R: Print + Eprint>(
    rt: &R,
    line: &mut Line,
    permits: u32,
    threads: u32,
    tally: Tally,
) -> io::Result<()> {
    line.add(permits);
    line.add(" permits, ");
    line.add(threads);
    line.add(" at once: ");
    line.add(tally.held.saturating_add(tally.given_up));
    line.add(" acquires");
    line.say(rt)?;
    line.add(", ");
    line.add(tally.held);
    line.add(" of them held,");
    line.say_time(rt)
}

/// A semaphore of so many permits, by so many threads.
fn bench_permits<R: Threads + Wait + Sync + Clock + Print + Eprint + AllocGlobal>(
    rt: &R,
    permits: &Permits,
    times: u32,
    threads: u32,
) -> io::Result<()>
    requires first { permits.now.c ≡ 0 }
    requires number { IsNumber permits.now.n }
{
    let begun = now(rt);
    let Ok((tally, _free)) = tally_of_four(rt, permits, times, threads, false) else {
        return Err(no_memory());
    };
    let mut line = Line::since(rt, begun);
    tell_tally(rt, &mut line, permits.n, threads, tally)
}

/// What is measured.
#[derive(Clone, Copy)]
enum What {
    OnePermit,
    TwoPermits,
    Gates,
    Lock,
}

/// By so many threads.
fn bench_one<R: Threads + Wait + Sync + Clock + Print + Eprint + AllocGlobal>(
    rt: &R,
    what: What,
    times: u32,
    threads: u32,
) -> io::Result<()> {
    let turns = u64::from(times);
    match what {
        What::OnePermit => bench_permits(rt, &Permits { c: 0, n: 1 }, times, threads),
        What::TwoPermits => bench_permits(rt, &Permits { c: 0, n: 2 }, times, threads),
        What::Gates => {
            let done = held_by_four(rt, 1, turns, threads);
            tell(rt, "gate of 1", threads, done, " acquires")?;
            let done = held_by_four(rt, 2, turns, threads);
            tell(rt, "gate of 2", threads, done, " acquires")
        }
        What::Lock => {
            let done = locked_by_four(rt, turns, threads);
            tell(rt, "lock", threads, done, " times")
        }
    }
}

/// All cases.
pub(crate) fn bench<R: Threads + Wait + Sync + Clock + Print + Eprint + AllocGlobal>(
    rt: &R,
    words: &Words,
) -> io::Result<()> {
    let times = small(words.second).unwrap_or(1000).clamp(1, 131000);
    for what in [What::OnePermit, What::TwoPermits, What::Gates, What::Lock] {
        for threads in [1u32, 2, 4] {
            bench_one(rt, what, times, threads)?;
        }
    }
    Ok(())
}
