//! How long what threads share over words takes. Standard output has how much was done, standard error how long it took.
//!
//!     word_bench [channels|parcels|permits|forest|streams|soak|gate_soak|sleeps [WORDS]]
//!
//! What is not named is not measured; with no words all is, in this order, but the soaks and `sleeps`. Each has words of its own, which its
//! module tells:
//!
//! - `channels`: transfers through channels over words, through counted cells, and through crossbeam_channel.
//! - `parcels`: boxes through channels of owned values, through rings, and through crossbeam_channel.
//! - `semaphores`: permits, gates, and the kit's lock.
//! - `forests`: calls on a forest of Jobs, and tickets through lanes.
//! - `streams`: elements from a sink to a stream.
//! - `soak`: numbers through a ring by four threads, each received once.
//! - `gate_soak`: permits of a gate that four threads acquire and release.
//! - `sleeps`: what it costs to wait.
//! - `shares`: four shares of work, on one, two or four threads.
//! - `told`: what the benches read and write.
#![tactic(auto)]

mod channels;
mod forests;
mod gate_soak;
mod parcels;
mod semaphores;
mod shares;
mod sleeps;
mod soak;
mod streams;
mod told;

use std::io;
use std::random::RandomSource;
use std::sync::Wait;
use std::thread::Threads;
use std::time::Clock;
use told::{Words, read_words};

/// What is measured.
#[derive(Clone, Copy)]
enum Bench {
    Channels,
    Parcels,
    Permits,
    Forest,
    Streams,
    Soak,
    GateSoak,
    Sleeps,
}

/// The word for each. With no words the first five are measured.
const BENCHES: &[(&str, Bench)] = &[
    ("channels", Bench::Channels),
    ("parcels", Bench::Parcels),
    ("permits", Bench::Permits),
    ("forest", Bench::Forest),
    ("streams", Bench::Streams),
    ("soak", Bench::Soak),
    ("gate_soak", Bench::GateSoak),
    ("sleeps", Bench::Sleeps),
];

fn run<R: Threads + Wait + Sync + Clock + Print + Eprint + RandomSource + AllocGlobal>(
    rt: &R,
    bench: Bench,
    words: &Words,
) -> io::Result<()> {
    match bench {
        Bench::Channels => channels::bench(rt, words),
        Bench::Parcels => parcels::bench(rt, words),
        Bench::Permits => semaphores::bench(rt, words),
        Bench::Forest => forests::bench(rt, words),
        Bench::Streams => streams::bench(rt, words),
        Bench::Soak => soak::bench(rt, words),
        Bench::GateSoak => gate_soak::bench(rt, words),
        Bench::Sleeps => sleeps::bench(rt, words),
    }
}

/// The bench that the word names.
fn bench_of(word: &str) -> io::Result<Bench> {
    for (name, bench) in BENCHES {
        if word == *name {
            return Ok(*bench);
        }
    }
    Err(io::Error::from(io::ErrorKind::InvalidInput))
}

/// The bench that the words name, or the first five.
fn run_said<R: Threads + Wait + Sync + Clock + Print + Eprint + RandomSource + AllocGlobal>(
    rt: &R,
    words: &Words,
) -> io::Result<()> {
    if let Some(word) = &words.bench {
        return run(rt, bench_of(word.as_str())?, words);
    }
    for (_, bench) in &BENCHES[..5] {
        run(rt, *bench, words)?;
    }
    Ok(())
}

fn main(rt: HostRuntime) -> io::Result<()> {
    let words = read_words(&rt)?;
    run_said(&rt, &words)
}
