//! Tickets through lanes: each worker puts its part of them into its own lane, and takes from its own and from the others.
ghost use Rattle.std.specs.Prelude.{◌≤◌};

use crate::shares::{Worker, done_by_four};
use co_base::Memory;
use std::alloc::Global;
use std::sync::Wait;
use std::thread::Threads;
use steal_lanes::{Lane, lanes};

/// A worker takes after so many puts.
const BATCH: u32 = 64;

/// One that puts so many tickets and takes as many in batches, and in its last turn what is left of `all` in all lanes; if it has a lane.
#[derive(Drop)]
struct OnLane {
    lane: Option<Lane>,
    part: u64,
    all: u32,
}

impl Worker for OnLane {
    type Floor = ();

    ghost can_work = { λ floor one. Unit {0} };

    /// How many tickets it took.
    fn turn(&mut self, _floor: &(), number: u64) -> Option<u64> {
        let lane = self.lane.as_mut()?;
        let _ = lane.put((number % 60000) as u16);
        let is_last = number.wrapping_add(1) == self.part;
        let most = most_after(number, is_last, self.all);
        Some(take(lane, most))
    }
}

fn on_lane(lane: Option<Lane>, part: u64, all: u32) -> OnLane {
    OnLane { lane, part, all }
}

/// How many tickets are taken at most after the put of this number.
fn most_after(put: u64, is_last: bool, all: u32) -> u32 {
    if is_last {
        return all;
    }
    if put % 64 == 63 { BATCH } else { 0 }
}

/// Takes at most so many tickets, until none is found.
fn take(lane: &mut Lane, most: u32) -> u64 {
    let mut taken = 0u64;
    for _ in 0..most {
        if lane.next().is_none() {
            return taken;
        }
        taken = taken.saturating_add(1);
    }
    taken
}

/// All tickets through so many lanes, which are one, two or four, by a thread each. Answers how many were taken.
pub(crate) fn taken_by<R: Threads + Wait + Sync>(
    rt: &R,
    alloc: Global,
    workers: u8,
    tickets: u32,
) -> Result<u64, Memory>
    requires workers { (1 ≤ workers) × (workers ≤ 4) }
{
    let part = u64::from(tickets / u32::from(workers));
    let mut free = lanes(alloc, workers, BATCH)?;
    let a = on_lane(free.pop(), part, tickets);
    let b = on_lane(free.pop(), part, tickets);
    let c = on_lane(free.pop(), part, tickets);
    let d = on_lane(free.pop(), part, tickets);
    // By two threads the first does the shares of the left, of which the second is none where there are two lanes.
    let four = ((a, c), (b, d));
    Ok(done_by_four(rt, u32::from(workers), &(), four, (part, part)))
}
