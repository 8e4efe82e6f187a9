//! How long transfers of boxes of 128 bytes take through a channel of owned values, through the kit's `crossbeam_channel`, and through a
//! ring. Standard output has how many there were, standard error how long they took.
//!
//!     word_bench parcels [TRANSFERS]     by default 1000, at most 1048576
//!
//! By 1, 2 and 4 threads; through a rendezvous channel and one that keeps 64 boxes, and through a `crossbeam_channel` and a ring that keep
//! 64 and 1,024. Four coroutines send and receive by turns, equally often, and nobody waits for anybody; a `crossbeam_channel` that keeps
//! none has no such calls. Each box is made for its send and freed by who received it; one that is handed to a receive that went on lies
//! in its slot to the end.
//!
//! - `boxes`: four coroutines over a channel of owned values
//! - `messages`: the same by the kit's channel
//! - `rings`: the same through a ring
ghost use Rattle.std.specs.Prelude.{◌≤◌};

mod boxes;
mod messages;
mod rings;

use crate::told::{Done, Words, small, tell};
use boxes::sent_by;
use channel_model::Kind;
use messages::exchanged_by;
use rings::moved_by;
use std::io;
use std::sync::Wait;
use std::thread::Threads;
use std::time::Clock;

/// What the boxes go through.
#[derive(Clone, Copy)]
enum Through {
    Rendezvous,
    Buffered,
    /// A `crossbeam_channel` that keeps so many.
    Crossbeam(usize),
    /// A ring of so many slots.
    Ring(u32),
}

const CASES: &[(&str, Through)] = &[
    ("rendezvous", Through::Rendezvous),
    ("buffered", Through::Buffered),
    ("crossbeam 64", Through::Crossbeam(64)),
    ("ring 64", Through::Ring(64)),
    ("crossbeam 1024", Through::Crossbeam(1024)),
    ("ring 1024", Through::Ring(1024)),
];

/// So many transfers through one, by so many threads: how many came.
fn moved<R: Threads + Wait + Sync + Clock + AllocGlobal>(
    rt: &R,
    through: Through,
    transfers: u32,
    threads: u32,
) -> Done
    requires transfers { (4 ≤ transfers) × (transfers ≤ 1048576) }
{
    let times = u64::from(transfers / 4);
    match through {
        Through::Rendezvous => sent_by(rt, Kind::Rendezvous, transfers, times, threads),
        Through::Buffered => sent_by(rt, Kind::Buffered(64), transfers, times, threads),
        Through::Crossbeam(kept) => exchanged_by(rt, kept, times, threads),
        Through::Ring(slots) => moved_by(rt, slots, times, threads),
    }
}

/// All cases by so many threads.
fn bench_by<R: Threads + Wait + Sync + Clock + Print + Eprint + AllocGlobal>(
    rt: &R,
    transfers: u32,
    threads: u32,
) -> io::Result<()>
    requires transfers { (4 ≤ transfers) × (transfers ≤ 1048576) }
{
    for (name, through) in CASES {
        let done = moved(rt, *through, transfers, threads);
        tell(rt, name, threads, done, " transfers")?;
    }
    Ok(())
}

/// All cases.
pub(crate) fn bench<R: Threads + Wait + Sync + Clock + Print + Eprint + AllocGlobal>(
    rt: &R,
    words: &Words,
) -> io::Result<()> {
    let transfers = small(words.second).unwrap_or(1000).clamp(4, 1048576);
    for threads in [1u32, 2, 4] {
        bench_by(rt, transfers, threads)?;
    }
    Ok(())
}
