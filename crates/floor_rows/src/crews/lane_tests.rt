//! What a few lanes give.
ghost use Rattle.std.specs.Prelude.{◌≤◌};

use crate::compare::compare;
use co_base::{Memory, Tag};
use std::alloc::Global;
use std::sync::Wait;
use std::test::Fail;
use std::thread::{Threads, join};
use steal_lanes::{Lane, lanes};

/// Three tickets that the last of so many workers finds, where the first had put one into its lane, and then the last one into its own.
fn three_found(alloc: Global, workers: u8) -> Result<[Option<Tag>; 3], Memory>
    requires { (1 ≤ workers) × (workers ≤ 2) }
{
    let mut all = lanes(alloc, workers, 4)?;
    let last = all.len() - 1;
    let _ = all[0].put(7);
    let _ = all[last].put(8);
    Ok([all[last].next(), all[last].next(), all[last].next()])
}

/// A lane gives its tickets in the order of their puts, and a worker takes from its own lane before it steals.
#[test]
fn a_worker_finds_its_own_tickets_in_their_order_and_then_those_of_another(
    rt: HostRuntime,
) -> Result<(), Fail> {
    let of_one = three_found(rt.alloc(), 1)?;
    let of_two = three_found(rt.alloc(), 2)?;
    let wanted = ([Some(7), Some(8), None], [Some(8), Some(7), None]);
    compare(&rt, &(of_one, of_two), &wanted);
    Ok(())
}

/// A lane, and how often its worker took each ticket; and at the last place, how often another.
#[derive(Drop)]
struct Worker {
    lane: Lane,
    counts: Vec<u32>,
}

fn new_worker(alloc: Global, lane: Option<Lane>, tickets: Tag) -> Result<Worker, Memory> {
    let counts = Vec::from_elem(alloc, 0u32, usize::from(tickets) + 1)?;
    match lane {
        Some(lane) => Ok(Worker { lane, counts }),
        None => Err(Memory),
    }
}

fn count(counts: &mut [u32], ticket: Tag) {
    let last = counts.len().saturating_sub(1);
    if let Some(count) = counts.get_mut(usize::from(ticket).min(last)) {
        *count = count.wrapping_add(1);
    }
}

impl Worker {
    /// Takes so many times, whether a ticket is found or not.
    fn take(&mut self, times: u16) {
        for _ in 0..times {
            if let Some(ticket) = self.lane.next() {
                count(self.counts.as_mut_slice(), ticket);
            }
        }
    }
}

/// Puts the tickets below `tickets` into the own lane, and then takes so many times.
fn work(worker: Worker, tickets: Tag, times: u16) -> Worker {
    let mut worker = worker;
    for ticket in 0..tickets {
        let _ = worker.lane.put(ticket);
    }
    worker.take(times);
    worker
}

/// Whether each ticket was taken once, by the one or the other, and no other ticket.
fn are_each_once(of_a: &[u32], of_b: &[u32]) -> bool {
    let mut left = of_a.len();
    for (a, b) in of_a.iter().zip(of_b.iter()) {
        left = left.saturating_sub(1);
        if a.wrapping_add(*b) != u32::from(left > 0) {
            return false;
        }
    }
    left == 0
}

/// Whether two workers, one of which puts the tickets, take each once; of which the other takes all that it finds once both have ended.
fn are_taken_by_two<R: Threads + Wait + Sync>(
    rt: &R,
    alloc: Global,
    tickets: Tag,
) -> Result<bool, Memory> {
    let mut all = lanes(alloc, 2, u32::from(tickets))?;
    let b = new_worker(alloc, all.pop(), tickets)?;
    let a = new_worker(alloc, all.pop(), tickets)?;
    let (a, mut b) = join(rt, || work(a, tickets, tickets / 2), || work(b, 0, tickets));
    b.take(tickets);
    Ok(are_each_once(a.counts.as_slice(), b.counts.as_slice()))
}

#[test]
fn of_two_workers_each_ticket_is_taken_once_and_none_is_left_where_none_is_found(
    rt: HostRuntime,
) -> Result<(), Fail> {
    for _ in 0..20 {
        compare(&rt, &are_taken_by_two(&rt, rt.alloc(), 4000)?, &true);
    }
    Ok(())
}
