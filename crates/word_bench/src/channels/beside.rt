//! The same work on channels of crossbeam_channel. Its calls wait for one another, where those over words answer.

use crate::channels::at_once::Work;
use crate::channels::by_one::Times;
use crate::shares::{Worker, done_by_four, value_of};
use crate::told::{Done, now};
use crossbeam_channel::{Receiver, Sender, bounded, select, unbounded};
use std::alloc::{AllocError, AllocGlobal, Global};
use std::sync::Wait;
use std::thread::Threads;
use std::time::{Clock, Duration};

/// Both ends of two channels.
#[derive(Drop)]
struct Ends {
    to: (Sender<u32>, Sender<u32>),
    from: (Receiver<u32>, Receiver<u32>),
}

/// A channel that keeps so many elements, or all.
fn new_channel(
    alloc: Global,
    kept: Option<u32>,
) -> Result<(Sender<u32>, Receiver<u32>), AllocError> {
    match kept {
        Some(kept) => bounded(alloc, kept as usize),
        None => unbounded(alloc),
    }
}

/// Two such channels.
fn new_ends(alloc: Global, kept: Option<u32>) -> Result<Ends, AllocError> {
    let (to_first, from_first) = new_channel(alloc, kept)?;
    let (to_second, from_second) = new_channel(alloc, kept)?;
    Ok(Ends {
        to: (to_first, to_second),
        from: (from_first, from_second),
    })
}

/// One that does this in each turn, as far as those over words do it.
#[derive(Drop)]
struct Beside<'a, R> {
    rt: &'a R,
    work: Work,
}

/// A send on one of both channels.
fn send_on_one<R: Wait>(rt: &R, ends: &Ends, i: u32) -> bool {
    if i % 2 == 0 {
        ends.to.0.send(rt, i).is_ok()
    } else {
        ends.to.1.send(rt, i).is_ok()
    }
}

/// A select that receives from both: whether an element came.
fn select_one<R: Wait + Clock>(rt: &R, ends: &Ends) -> bool {
    let (first, second) = (&ends.from.0, &ends.from.1);
    select! { *rt;
        recv(*first) -> message => message.is_ok(),
        recv(*second) -> message => message.is_ok(),
    }
}

/// A send on one of both channels, before a select that receives from both. What a thread sends is there when it selects, unless another
/// thread has received it; so none waits for ever.
fn send_and_select<R: Wait + Clock>(rt: &R, ends: &Ends, i: u32) -> Option<u64> {
    if !send_on_one(rt, ends, i) {
        return None;
    }
    Some(u64::from(select_one(rt, ends)))
}

/// A send before a receive, so that none waits for ever here either.
fn exchange<R: Wait>(rt: &R, ends: &Ends, i: u32) -> bool {
    ends.to.0.send(rt, i).is_ok() && ends.from.0.recv(rt).is_ok()
}

/// What is counted of a call that was made.
fn counted(made: bool, what: u64) -> Option<u64> {
    if made { Some(what) } else { None }
}

impl<R: Wait + Clock + Sync> Worker for Beside<'_, R> {
    type Floor = Ends;

    ghost can_work = { λ ends one. Unit {0} };

    /// How many receives found an element.
    fn turn(&mut self, ends: &Ends, number: u64) -> Option<u64> {
        let (rt, i) = (self.rt, value_of(number));
        match self.work {
            Work::Both => counted(exchange(rt, ends, i), 1),
            Work::Sends => counted(ends.to.0.send(rt, i).is_ok(), 0),
            Work::Receives => counted(ends.from.0.recv(rt).is_ok(), 1),
            Work::Selects => send_and_select(rt, ends, i),
        }
    }
}

/// What four count in so many turns, of whom two do the first work and two the other, by so many threads, which are none, one, two or four.
pub(crate) fn met_by_four<R: Threads + Wait + Sync + Clock + AllocGlobal>(
    rt: &R,
    kept: Option<u32>,
    work: (Work, Work),
    times: (u64, u64),
    threads: u32,
) -> Done {
    let begun = now(rt);
    let Ok(ends) = new_ends(rt.alloc(), kept) else {
        return None;
    };
    let left = (Beside { rt, work: work.0 }, Beside { rt, work: work.0 });
    let right = (Beside { rt, work: work.1 }, Beside { rt, work: work.1 });
    let met = done_by_four(rt, threads, &ends, (left, right), times);
    Some((met, begun))
}

/// So many sends, for which there is room.
fn fill<R: Wait>(rt: &R, to: &Sender<u32>, times: u32) {
    for i in 0..times {
        let _ = to.try_send(rt, i);
    }
}

/// So many transfers by one thread, each a send and a receive: how many found an element.
fn transfer<R: Wait>(rt: &R, to: &Sender<u32>, from: &Receiver<u32>, times: u32) -> u32 {
    let mut met = 0u32;
    for i in 0..times {
        let _ = to.try_send(rt, i);
        if from.try_recv(rt).is_ok() {
            met = met.saturating_add(1);
        }
    }
    met
}

/// So many receives whose time is up at once.
fn give_up<R: Wait + Clock>(rt: &R, from: &Receiver<u32>, times: u32) {
    for _ in 0..times {
        let _ = from.recv_timeout(rt, Duration::ZERO);
    }
}

/// So many sends that do not wait: how many found nobody.
fn try_sends<R: Wait>(rt: &R, to: &Sender<u32>, times: u32) -> u32 {
    let mut full = 0u32;
    for i in 0..times {
        if to.try_send(rt, i).is_err() {
            full = full.saturating_add(1);
        }
    }
    full
}

/// What one thread does, on a channel that keeps so many elements: how many transfers found an element, and sends nobody.
pub(crate) fn done_by_one<R: Wait + Clock + AllocGlobal>(
    rt: &R,
    capacity: u32,
    times: Times,
) -> Done {
    let Ok((to, from)) = bounded(rt.alloc(), capacity as usize) else {
        return None;
    };
    fill(rt, &to, times.queued);
    give_up(rt, &from, times.withdrawn);
    let begun = now(rt);
    let met = transfer(rt, &to, &from, times.transfers);
    let full = try_sends(rt, &to, times.tries);
    Some((u64::from(met.saturating_add(full)), begun))
}
