//! How long elements take from a sink to a stream, both polled by one thread: over a channel over words, and over the kit's `mpsc`.
//! Standard output has how many came, standard error how long they took.
//!
//!     word_bench streams [ELEMENTS]     by default 1000, at most 1048576
//!
//! Both channels keep 64. A list is sent, and collected.
use crate::told::{Line, Words, no_memory, now, small};
use cell_words::Hub;
use channel_model::Kind;
use future_bridge::{Drive, HostDrive, ReceiveStream, SendList, SendSink};
use futures::channel::mpsc;
use futures::executor::block_on;
use futures::future::join;
use futures::stream::iter;
use futures::{SinkExt, StreamExt};
use std::alloc::AllocGlobal;
use std::io;
use std::random::RandomSource;
use std::sync::Wait;
use std::time::{Clock, Instant};

/// How many elements a channel keeps.
const KEPT: u32 = 64;

/// The numbers below this one.
fn numbers(rt: &impl AllocGlobal, below: u32) -> Option<Vec<u32>> {
    let mut values = Vec::new(rt.alloc());
    for number in 0..below {
        if values.push(number).is_err() {
            return None;
        }
    }
    Some(values)
}

/// Over a channel over words. Answers how many came.
fn bridged<R: Wait + RandomSource + AllocGlobal>(rt: &R, values: &[u32]) -> Option<usize> {
    let Ok((hub, mut main)) = Hub::new(rt.alloc(), &[(Kind::Buffered(KEPT), 1_048_576)]) else {
        return None;
    };
    let sender = hub.split(&mut main, 1);
    let receiver = hub.split(&mut main, 2);
    let sends = SendList::new(SendSink::new(&hub, sender, 1, 0), values);
    let receives = ReceiveStream::new(&hub, receiver, 2, 0)
        .take(values.len())
        .collect(rt.alloc());
    let mut host = HostDrive::new(rt);
    match host.drive(join(sends, receives)) {
        Ok((_sent, items)) => match items {
            Ok(items) => Some(items.len()),
            Err(_) => None,
        },
        Err(_) => None,
    }
}

/// Over the kit's channel. Answers how many came.
fn by_the_kit<R: Wait + RandomSource + AllocGlobal>(rt: &R, below: u32) -> Option<usize> {
    let Ok((mut sender, receiver)) = mpsc::channel::<u32>(rt.alloc(), KEPT as usize) else {
        return None;
    };
    let sends = sender.send_all(iter(0..below).map(|n| -> Result<u32, mpsc::SendError> { Ok(n) }));
    let receives = receiver.take(below as usize).collect(rt.alloc());
    match block_on(rt, join(sends, receives)) {
        Ok((_sent, items)) => match items {
            Ok(items) => Some(items.len()),
            Err(_) => None,
        },
        Err(_) => None,
    }
}

/// Writes how many came, and in which time.
fn tell<R: Clock + Print + Eprint + AllocGlobal>(
    rt: &R,
    name: &str,
    begun: Option<Instant>,
    came: Option<usize>,
) -> io::Result<()> {
    let Some(came) = came else {
        return Err(no_memory());
    };
    let mut line = Line::since(rt, begun);
    line.add(name);
    line.add(": ");
    line.add(came);
    line.add(" elements");
    line.tell(rt, "")
}

/// So many elements over a channel over words.
fn bench_bridged<R: Wait + Clock + Print + Eprint + RandomSource + AllocGlobal>(
    rt: &R,
    elements: u32,
) -> io::Result<()> {
    let Some(values) = numbers(rt, elements) else {
        return Err(no_memory());
    };
    let begun = now(rt);
    let came = bridged(rt, values.as_slice());
    tell(rt, "bridge", begun, came)
}

pub(crate) fn bench<R: Wait + Clock + Print + Eprint + RandomSource + AllocGlobal>(
    rt: &R,
    words: &Words,
) -> io::Result<()> {
    let elements = small(words.second).unwrap_or(1_000).clamp(1, 1_048_576);
    bench_bridged(rt, elements)?;
    let begun = now(rt);
    let came = by_the_kit(rt, elements);
    tell(rt, "mpsc", begun, came)
}
