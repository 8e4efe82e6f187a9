//! How long transfers through channels over words, and through counted cells, take. Standard output has how many there were, standard
//! error how long they took.
//!
//!     word_bench channels [TRANSFERS [THREADS [CASE]]]
//!
//! by default 1000, at most 1048576; by 1, 2 and 4 threads, or by so many, which may be none; all cases, or those of one group, or the one
//! whose line begins with this name:
//!
//! - `rendezvous`, `buffered`, `unlimited`: four coroutines make as many offers as receives each, by turns, all on one channel. A buffered
//!   one keeps 64 elements.
//! - `counted`: the same through as many counted cells.
//! - `apart`: two coroutines send, and two receive, by 2 or 4 threads of which each only sends or only receives. Each call waits for its
//!   partner or for room: between its looks it spins, each time twice as long, and then gives the processor to others. A wait that was
//!   looked at ten million times is given up, and with it the turns that are left.
//! - `select`: four coroutines each select the first element of two channels, or wait on both, and then offer on one of them. There are
//!   262144 selects at most.
//! - `full`: one coroutine makes offers and receives, by turns, where so many elements are kept already.
//! - `withdrawn`: one makes a sixteenth as many offers that do not wait, where there is no receiver, or so many that were withdrawn.
//!
//! A transfer is an offer and a receive that meet, or an element that is kept and received. Nobody waits for anybody, except in `apart`.
//! There are as many offers as receives. So each offer is received, whatever the schedule. The last two cases are made by one thread.
//!
//! `crossbeam` is the same work on channels of crossbeam_channel, whose calls wait for one another: by turns on those that keep elements,
//! by two or four threads where senders and receivers are apart, by four where each sends and then selects. There a receive that gave up
//! leaves nothing behind.
//!
//! - `measured`: the cases.
//! - `on_passes`: calls of one pass of a hub.
//! - `waits`: selects, and waits that are taken back.
//! - `apart`: sends and receives that wait.
//! - `at_once`: four coroutines, at work on one, two or four threads at once.
//! - `by_one`: one coroutine.
//! - `counted_at_once`: four passes of counted cells.
//! - `beside`: crossbeam_channel.
ghost use Rattle.std.specs.Prelude.{◌≤◌};

mod apart;
mod at_once;
mod beside;
mod by_one;
mod counted_at_once;
mod measured;
mod on_passes;
mod waits;

use crate::told::{Done, Words, small, tell};
use counted_at_once::drawn_by;
use measured::{BY_FOUR, BY_ONE, By, ByFour, ByOne};
use std::io;
use std::sync::Wait;
use std::thread::Threads;
use std::time::Clock;

/// Whether all cases are wanted, or this group, or this name.
fn is_wanted(words: &Words, group: &str, name: &str) -> bool {
    match &words.fourth {
        Some(word) => word.as_str() == group || word.as_str() == name,
        None => true,
    }
}

/// How many places a channel has on which four coroutines make so many transfers.
fn places_for(transfers: u32) -> u32
    requires some { 4 ≤ transfers }
    requires few { transfers ≤ 1048576 }
    ensures { (1 ≤ result) × (result ≤ 1048576) }
{
    (2 * transfers).min(1048576)
}

/// A case of four coroutines.
fn met_by_four<R: Threads + Wait + Sync + Clock + AllocGlobal>(
    rt: &R,
    case: &ByFour,
    transfers: u32,
    threads: u32,
) -> Done
    requires transfers { (4 ≤ transfers) × (transfers ≤ 1048576) }
{
    let transfers = case.transfers(transfers);
    let times = case.times(transfers, threads);
    match case.by {
        By::Words => {
            let places = places_for(transfers);
            at_once::met_by_four(rt, case.kept, places, case.work, times, threads)
        }
        By::Cells => drawn_by(rt, transfers, times, threads),
        By::Crossbeam => beside::met_by_four(rt, case.kept, case.work, times, threads),
    }
}

/// A case of one coroutine. A channel that keeps nothing has 4,096 places.
fn done_by_one<R: Wait + Clock + AllocGlobal>(rt: &R, case: &ByOne, transfers: u32) -> Done {
    let times = case.times(transfers);
    match (case.by, case.kept) {
        (By::Crossbeam, _) => beside::done_by_one(rt, case.kept, times),
        (_, 0) => by_one::done_by_one(rt, 0, 4096, times),
        _ => by_one::done_by_one(rt, case.kept, 1048576, times),
    }
}

/// The cases of four coroutines, by so many threads.
fn bench_by_four<R: Threads + Wait + Sync + Clock + Print + Eprint + AllocGlobal>(
    rt: &R,
    words: &Words,
    transfers: u32,
    threads: u32,
) -> io::Result<()>
    requires transfers { (4 ≤ transfers) × (transfers ≤ 1048576) }
{
    for case in BY_FOUR {
        if case.least <= threads && is_wanted(words, case.group, case.name) {
            let done = met_by_four(rt, case, transfers, threads);
            tell(rt, case.name, threads, done, "")?;
        }
    }
    Ok(())
}

/// The cases of one coroutine.
fn bench_by_one<R: Wait + Clock + Print + Eprint + AllocGlobal>(
    rt: &R,
    words: &Words,
    transfers: u32,
) -> io::Result<()> {
    for case in BY_ONE {
        if is_wanted(words, case.group, case.name) {
            tell(rt, case.name, 1, done_by_one(rt, case, transfers), "")?;
        }
    }
    Ok(())
}

/// All cases that the words ask for, by so many threads as they say, or by 1, 2 and 4.
pub(crate) fn bench<R: Threads + Wait + Sync + Clock + Print + Eprint + AllocGlobal>(
    rt: &R,
    words: &Words,
) -> io::Result<()> {
    let transfers = small(words.second).unwrap_or(1000).clamp(4, 1048576);
    let Some(threads) = small(words.third) else {
        for threads in [1u32, 2, 4] {
            bench_by_four(rt, words, transfers, threads)?;
        }
        return bench_by_one(rt, words, transfers);
    };
    bench_by_four(rt, words, transfers, threads)?;
    match threads {
        0 => bench_by_one(rt, words, 0),
        1 => bench_by_one(rt, words, transfers),
        _ => Ok(()),
    }
}
