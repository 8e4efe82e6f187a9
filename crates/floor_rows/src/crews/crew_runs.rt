//! Tasks that wake another.
ghost use Rattle.std.specs.Prelude.{◌≡◌, ◌≤◌, IfOk, length, vec_len};
ghost use Rattle.task_berths.specs.Answers.{HaveTags};

use crate::compare::compare;
use co_base::{Memory, Tag, Wakes};
use std::alloc::Global;
use std::sync::Wait;
use std::sync::atomic::{AtomicU64, Ordering};
use std::test::Fail;
use std::thread::Threads;
use task_berths::Tagged;
use task_crew::{Polls, Tickets, no_tickets, run_crew};

/// A task that is to be polled so many times more, and the count that it has seen.
#[derive(Clone, Copy, Drop)]
struct Counter {
    tag: Tag,
    left: u32,
    seen: u64,
}

impl Tagged for Counter {
    ghost tag_of = { λ task. task.tag };

    fn tag(&self) -> Tag {
        self.tag
    }
}

/// Two tasks that count, and one that sees.
fn three(alloc: Global, left: u32) -> Result<Vec<Counter>, Memory>
    ensures count { IfOk result (λ v. length v.items ≡ 3) }
    ensures tags { IfOk result (λ v. HaveTags (λ (t : Counter). t.tag) v.items) }
{
    let mut tasks = Vec::with_capacity(alloc, 3)?;
    tasks.push_reserved(Counter {
        tag: 0,
        left,
        seen: 0,
    });
    tasks.push_reserved(Counter {
        tag: 1,
        left,
        seen: 0,
    });
    tasks.push_reserved(Counter {
        tag: 2,
        left: 0,
        seen: 0,
    });
    Ok(tasks)
}

/// No tickets but those of the first worker: for task 0, and if so told for task 1.
fn first_tickets(alloc: Global, workers: u8, both: bool) -> Result<Vec<Tickets>, Memory>
    requires { (1 ≤ workers) × (workers ≤ 16) }
    ensures { IfOk result (λ v. vec_len v ≡ workers) }
{
    let mut lanes = no_tickets(alloc, workers, 3)?;
    lanes[0].put(0);
    if both {
        lanes[0].put(1);
    }
    Ok(lanes)
}

/// What tasks 0 and 2 have seen when so many workers have ended, of which the first began with a ticket for task 0, and if so told for
/// task 1.
fn seen_after<R: Threads + Wait + Sync, P: Polls<Counter>>(
    rt: &R,
    alloc: Global,
    polls: &P,
    workers: u8,
    left: u32,
    both: bool,
) -> Result<[u64; 2], Memory>
    requires polls { P.may_poll polls.now }
    requires workers { (1 ≤ workers) × (workers ≤ 16) }
{
    let tasks = three(alloc, left)?;
    let lanes = first_tickets(alloc, workers, both)?;
    let (tasks, _lanes) = run_crew(rt, alloc, polls, tasks, lanes)?;
    Ok([tasks[0].seen, tasks[2].seen])
}

/// A task that has polls left counts one up, and wakes task 2. Each poll sees the count. The last one to go finds no memory, if so told.
#[derive(Drop)]
struct Counting {
    count: AtomicU64,
    stops: bool,
}

impl Polls<Counter> for Counting {
    ghost may_poll = { λ s. Unit {0} };

    fn poll(&self, task: Counter, tickets: &mut Tickets) -> Result<(Counter, bool), Memory> {
        let Counter { tag, left, seen: _ } = task;
        if left == 0 {
            let seen = self.count.load(Ordering::SeqCst);
            return Ok((Counter { tag, left, seen }, false));
        }
        if left == 1 && self.stops {
            return Err(Memory);
        }
        let seen = self.count.fetch_add(1, Ordering::SeqCst);
        tickets.put(2);
        let left = left - 1;
        Ok((Counter { tag, left, seen }, left > 0))
    }
}

/// What is seen of two tasks that count 3,000 times each.
fn counted_by<R: Threads + Wait + Sync>(
    rt: &R,
    alloc: Global,
    workers: u8,
    stops: bool,
) -> Result<[u64; 2], Memory>
    requires { (1 ≤ workers) × (workers ≤ 16) }
{
    let counting = Counting {
        count: AtomicU64::new(0),
        stops,
    };
    seen_after(rt, alloc, &counting, workers, 3_000, true)
}

/// Two tasks wake task 2 and then one another, so long as they have polls left. Each poll of task 2 sees the count.
#[derive(Drop)]
struct Passing {
    count: AtomicU64,
}

impl Polls<Counter> for Passing {
    ghost may_poll = { λ s. Unit {0} };

    fn poll(&self, task: Counter, tickets: &mut Tickets) -> Result<(Counter, bool), Memory> {
        let Counter { tag, left, seen: _ } = task;
        if left == 0 {
            let seen = self.count.load(Ordering::SeqCst);
            return Ok((Counter { tag, left, seen }, false));
        }
        let seen = self.count.fetch_add(1, Ordering::SeqCst);
        tickets.wake(if tag == 0 { 1 } else { 0 });
        tickets.wake(2);
        let left = left - 1;
        Ok((Counter { tag, left, seen }, false))
    }
}

/// What is seen of two tasks that pass a turn to one another 40,000 times.
fn passed_by<R: Threads + Wait + Sync>(
    rt: &R,
    alloc: Global,
    workers: u8,
) -> Result<[u64; 2], Memory>
    requires { (1 ≤ workers) × (workers ≤ 16) }
{
    let passing = Passing {
        count: AtomicU64::new(0),
    };
    seen_after(rt, alloc, &passing, workers, 20_000, false)
}

/// Whoever is woken while it is polled is polled again; a poll without memory ends all workers; and no wake is lost whose ticket another
/// displaces.
#[test]
fn crews_of_one_to_four_workers_run_until_no_ticket_is_left(rt: HostRuntime) -> Result<(), Fail> {
    let alloc = rt.alloc();
    for workers in 1..5u8 {
        let counted = counted_by(&rt, alloc, workers, false)?;
        let is_stopped = counted_by(&rt, alloc, workers, true).is_err();
        let passed = passed_by(&rt, alloc, workers)?;
        let found = (counted[1], is_stopped, passed[1]);
        compare(&rt, &found, &(6_000, true, 40_000));
    }
    Ok(())
}

/// How often a poll looks whether another task was polled, before it gives up.
const LOOKS: u32 = 1_000_000_000;

/// What the word becomes, once it is not 0. 0: it did not within so many looks.
fn set_within_looks(word: &AtomicU64) -> u64 {
    for _ in 0..LOOKS {
        let seen = word.load(Ordering::SeqCst);
        if seen != 0 {
            return seen;
        }
    }
    0
}

/// The poll of task 0 lasts until task 1 was polled, which it wakes, if so told, before it waits.
#[derive(Drop)]
struct Waiting {
    polled: AtomicU64,
    wakes: bool,
}

impl Polls<Counter> for Waiting {
    ghost may_poll = { λ s. Unit {0} };

    fn poll(&self, task: Counter, tickets: &mut Tickets) -> Result<(Counter, bool), Memory> {
        let Counter { tag, left, seen: _ } = task;
        if tag == 1 {
            self.polled.store(1, Ordering::SeqCst);
            return Ok((Counter { tag, left, seen: 1 }, false));
        }
        if self.wakes {
            tickets.wake(1);
        }
        let seen = set_within_looks(&self.polled);
        Ok((Counter { tag, left, seen }, false))
    }
}

/// Whether task 1 is polled while the poll of task 0 lasts. The first worker begins with a ticket for task 0, and with one for task 1, if
/// that is not woken.
fn is_polled_meanwhile<R: Threads + Wait + Sync>(
    rt: &R,
    alloc: Global,
    workers: u8,
    wakes: bool,
) -> Result<bool, Memory>
    requires { (1 ≤ workers) × (workers ≤ 16) }
{
    let waiting = Waiting {
        polled: AtomicU64::new(0),
        wakes,
    };
    let seen = seen_after(rt, alloc, &waiting, workers, 0, !wakes)?;
    Ok(seen[0] != 0)
}

/// Of a worker whose poll lasts, another steals a ticket from its lane, and takes its latest ticket.
#[test]
fn tickets_of_a_worker_whose_poll_lasts_are_taken_by_another(rt: HostRuntime) -> Result<(), Fail> {
    let alloc = rt.alloc();
    for workers in 2..5u8 {
        let stolen = is_polled_meanwhile(&rt, alloc, workers, false)?;
        let latest = is_polled_meanwhile(&rt, alloc, workers, true)?;
        compare(&rt, &[stolen, latest], &[true; 2]);
    }
    Ok(())
}
