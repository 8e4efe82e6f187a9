//! Four passes of counted cells, at work on one, two or four threads at once.
ghost use Rattle.std.specs.Prelude.{◌≤◌, ◌<◌, ◌+◌};
ghost use Rattle.counted_cells.specs.Passes.{IsOf};

use crate::shares::{Worker, count, done_by_four, value_of};
use crate::told::{Done, now};
use counted_cells::{Counted, CountedGot, CountedPass, CountedSend};
use std::alloc::AllocGlobal;
use std::sync::Wait;
use std::thread::Threads;
use std::time::Clock;

impl Worker for CountedPass {
    type Floor = Counted;

    ghost can_work = { λ counted pass. IsOf counted pass };

    /// A send and a receive: how many of both found their partner. Each that did made a transfer.
    fn turn(&mut self, counted: &Counted, number: u64) -> Option<u64> {
        let sent = matches!(counted.send(self, value_of(number)), CountedSend::Paired(_));
        let came = matches!(counted.receive(self), CountedGot::Value(_, _));
        count(sent, came)
    }
}

/// So many turns of four passes of so many cells, by so many threads, which are none, one, two or four: how many calls found their partner.
pub(crate) fn drawn_by<R: Threads + Wait + Sync + Clock + AllocGlobal>(
    rt: &R,
    cells: u32,
    times: (u64, u64),
    threads: u32,
) -> Done
    requires some { 1 ≤ cells }
    requires few { cells ≤ 1048576 }
{
    let Ok((counted, mut a)) = Counted::new(rt.alloc(), cells) else {
        return None;
    };
    let b = counted.split(&mut a);
    let c = counted.split(&mut a);
    let d = counted.split(&mut a);
    let begun = now(rt);
    let met = done_by_four(rt, threads, &counted, ((a, b), (c, d)), times);
    Some((met, begun))
}
