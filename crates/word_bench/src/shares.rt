//! Work that two or four share, on one, two or four threads.

use std::sync::Wait;
use std::thread::{Threads, join};

/// One of those who share work. It makes turns, one after the other.
pub(crate) trait Worker: Send + Drop {
    /// What all of them work on.
    type Floor: Sync;

    // What a turn asks, and leaves so.
    ghost can_work: { Self.Floor → Self → Type 0 };

    /// Makes the turn of this number: how much was done in it. None: it makes no turn any more.
    fn turn(&mut self, floor: &Self::Floor, number: u64) -> Option<u64>
        requires { can_work floor.now self.old }
        ensures { can_work floor.now self.new };
}

/// A worker after its turns, and how much was done in them.
pub(crate) type Worked<W> = (W, u64);

/// So many turns of one, or fewer if it makes no more.
pub(crate) fn turns<W: Worker>(floor: &W::Floor, worker: W, times: u64) -> Worked<W>
    requires { W.can_work floor.now worker }
    ensures { W.can_work floor.now result.0 }
{
    let mut worker = worker;
    let mut done = 0u64;
    for number in 0..times {
        let Some(more) = worker.turn(floor, number) else {
            return (worker, done);
        };
        done = done.saturating_add(more);
    }
    (worker, done)
}

/// So many turns of the first, and so many of the other, one after the other, or at once by a thread each.
pub(crate) fn by_two<R: Threads + Wait + Sync, W: Worker>(
    rt: &R,
    floor: &W::Floor,
    two: (W, W),
    times: (u64, u64),
    at_once: bool,
) -> (Worked<W>, Worked<W>)
    requires a { W.can_work floor.now two.0 }
    requires b { W.can_work floor.now two.1 }
    ensures a { W.can_work floor.now result.0.0 }
    ensures b { W.can_work floor.now result.1.0 }
{
    let ((a, b), (first, other)) = (two, times);
    if !at_once {
        let a = turns(floor, a, first);
        return (a, turns(floor, b, other));
    }
    join(
        rt,
        || -> Worked<W>
            requires a { W.can_work floor.now a }
            ensures a { W.can_work floor.entry.now result.0 }
        { turns(floor, a, first) },
        || -> Worked<W>
            requires b { W.can_work floor.now b }
            ensures b { W.can_work floor.entry.now result.0 }
        { turns(floor, b, other) },
    )
}

/// What two have done.
pub(crate) fn sum<W: Drop>(two: (Worked<W>, Worked<W>)) -> u64 {
    two.0.1.saturating_add(two.1.1)
}

/// The turns of four, by so many threads, which are none, one, two or four: by two each thread does those of two, and by none this one does
/// all. Of each two the first makes so many, and the other so many.
pub(crate) fn by_four<R: Threads + Wait + Sync, W: Worker>(
    rt: &R,
    threads: u32,
    floor: &W::Floor,
    four: ((W, W), (W, W)),
    times: (u64, u64),
) -> ((Worked<W>, Worked<W>), (Worked<W>, Worked<W>))
    requires a { W.can_work floor.now four.0.0 }
    requires b { W.can_work floor.now four.0.1 }
    requires c { W.can_work floor.now four.1.0 }
    requires d { W.can_work floor.now four.1.1 }
{
    let (left, right) = four;
    if threads < 2 {
        let left = by_two(rt, floor, left, times, false);
        return (left, by_two(rt, floor, right, times, false));
    }
    let at_once = threads != 2;
    join(
        rt,
        || -> (Worked<W>, Worked<W>)
            requires a { W.can_work floor.now left.0 }
            requires b { W.can_work floor.now left.1 }
        { by_two(rt, floor, left, times, at_once) },
        || -> (Worked<W>, Worked<W>)
            requires c { W.can_work floor.now right.0 }
            requires d { W.can_work floor.now right.1 }
        { by_two(rt, floor, right, times, at_once) },
    )
}

/// How much four have done in so many turns each, by so many threads.
pub(crate) fn done_by_four<R: Threads + Wait + Sync, W: Worker>(
    rt: &R,
    threads: u32,
    floor: &W::Floor,
    four: ((W, W), (W, W)),
    times: (u64, u64),
) -> u64
    requires a { W.can_work floor.now four.0.0 }
    requires b { W.can_work floor.now four.0.1 }
    requires c { W.can_work floor.now four.1.0 }
    requires d { W.can_work floor.now four.1.1 }
{
    let (left, right) = by_four(rt, threads, floor, four, times);
    sum(left).saturating_add(sum(right))
}

/// The number of a turn as a value of 32 bits: the lowest of it.
pub(crate) fn value_of(number: u64) -> u32 {
    (number % 4_294_967_296) as u32
}

/// How many of the two calls of a turn came to what they are made for.
pub(crate) fn count(first: bool, second: bool) -> Option<u64> {
    Some(u64::from(first).saturating_add(u64::from(second)))
}
