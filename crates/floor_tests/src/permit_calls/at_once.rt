//! Four coroutines that acquire and release the permits of a semaphore, by one, two or four threads at once.

ghost use Rattle.std.specs.Prelude.{◌≡◌, ◌<◌, ℕ, []};
ghost use Rattle.std.specs.List.{All};
ghost use Rattle.channel_model.specs.Histories.{acts_of};
ghost use Rattle.cell_words.specs.Hubs.{IsOf, IsOwn, seen_by};
ghost use Rattle.cell_calls.specs.HubFloors.{hub_floor};
ghost use Rattle.permits.specs.Parts.{UsesPermits, MayFill};
ghost use Rattle.floor_tests.specs.KnownPermits.{IsForAll, IsNumber, IsWorker};

use crate::permit_calls::holds::{NONE, Tally, hold_on};
use crate::permit_calls::known_calls::{Call, call_on_pass, fill_on_pass, used};
use cell_calls::Desk;
use cell_words::{Hub, Pass};
use channel_model::Kind;
use co_base::{Memory, Tag};
use permits::{Permits, TryAcquired};
use std::alloc::Global;
use std::sync::Wait;
use std::sync::atomic::AtomicU64;
use std::thread::{self, Threads};

/// A channel that keeps all.
const KINDS: [(Kind, u32); 1] = [(Kind::Unlimited, 1048576)];

/// A coroutine with a pass of its own, and what its acquires came to.
#[derive(Drop)]
struct Worker {
    pass: Pass,
    who: Tag,
    tally: Tally,
    /// Memory ran out.
    full: bool,
}

/// One that has not called yet.
fn new_worker(hub: &Hub, pass: Pass, who: Tag) -> Worker
    requires all { IsForAll hub.now }
    requires own { IsOwn hub.now pass who }
    requires none { acts_of who (seen_by pass).seen ≡ [] }
    ensures worker { (n : ℕ) → IsNumber n → IsWorker n hub.now result }
{
    Worker {
        pass,
        who,
        tally: NONE,
        full: false,
    }
}

/// So many acquires of a coroutine.
fn work(
    hub: &Hub,
    alloc: Global,
    p: &Permits,
    times: u32,
    holding: Option<&AtomicU64>,
    worker: &mut Worker,
)
    requires first { p.now.c ≡ 0 }
    requires worker { IsWorker p.now.n hub.now worker.old }
{
    let who = worker.who;
    let mut desk = Desk {
        hub,
        pass: &mut worker.pass,
    };
    match hold_on(&mut desk, alloc, p, who, times, holding) {
        Ok(tally) => worker.tally = tally,
        Err(_) => worker.full = true,
    }
}

/// The same of all, by so many threads.
fn at_once<R: Threads + Wait + Sync>(
    rt: &R,
    hub: &Hub,
    alloc: Global,
    p: &Permits,
    times: u32,
    holding: Option<&AtomicU64>,
    workers: &mut [Worker],
    threads: usize,
)
    requires first { p.now.c ≡ 0 }
    requires some { 0 < threads }
    requires workers { All (IsWorker p.now.n hub.now) workers.old }
{
    thread::for_each_mut(
        rt,
        workers,
        threads,
        &|_, worker| work(hub, alloc, p, times, holding, worker),
    );
}

/// What all came to.
fn sum(workers: &[Worker]) -> Result<Tally, Memory> {
    let mut tally = NONE;
    let mut full = false;
    for worker in workers {
        tally = tally.and(worker.tally);
        full = full | worker.full;
    }
    if full { Err(Memory) } else { Ok(tally) }
}

/// Whether all permits are free, and no more.
fn are_free(hub: &Hub, pass: &mut Pass, alloc: Global, p: &Permits) -> bool
    requires of { IsOf hub.now pass.old }
    requires uses { UsesPermits p.now.c p.now.n 0 0 (hub_floor hub.now pass.old) }
{
    let mut known = used(0);
    let held = Call::TryAcquire(TryAcquired::Held);
    for _ in 0..p.n {
        if !call_on_pass(hub, pass, alloc, p, 0, &mut known, held) {
            return false;
        }
    }
    let empty = Call::TryAcquire(TryAcquired::Empty);
    call_on_pass(hub, pass, alloc, p, 0, &mut known, empty)
}

/// What the four come to, after tag 0 filled the semaphore, and whether all permits are free then.
fn tally_on<R: Threads + Wait + Sync>(
    rt: &R,
    hub: &Hub,
    main: &mut Pass,
    workers: &mut [Worker],
    alloc: Global,
    p: &Permits,
    times: u32,
    threads: usize,
    counted: bool,
) -> Result<(Tally, bool), Memory>
    requires first { p.now.c ≡ 0 }
    requires some { 0 < threads }
    requires of { IsOf hub.now main.old }
    requires may { MayFill p.now.c p.now.n 0 (hub_floor hub.now main.old) }
    requires workers { All (IsWorker p.now.n hub.now) workers.old }
{
    fill_on_pass(hub, main, alloc, p, 0)?;
    let number = AtomicU64::new(0);
    let holding = if counted { Some(&number) } else { None };
    at_once(rt, hub, alloc, p, times, holding, workers, threads);
    let tally = sum(workers)?;
    Ok((tally, are_free(hub, main, alloc, p)))
}

/// So many acquires by each of four coroutines, by 1, 2 or 4 threads: what they came to, and whether all permits are free in the end.
/// If it is to be counted who holds one, a permit that is held while more are held than there are makes the tally wrong.
pub fn tally_of_four<R: Threads + Wait + Sync + AllocGlobal>(
    rt: &R,
    p: &Permits,
    times: u32,
    threads: u32,
    counted: bool,
) -> Result<(Tally, bool), Memory>
    requires first { p.now.c ≡ 0 }
    requires number { IsNumber p.now.n }
{
    let alloc = rt.alloc();
    let (hub, mut main) = Hub::new(alloc, &KINDS)?;
    let a = hub.split(&mut main, 1);
    let b = hub.split(&mut main, 2);
    let c = hub.split(&mut main, 3);
    let d = hub.split(&mut main, 4);
    let mut workers = [
        new_worker(&hub, a, 1),
        new_worker(&hub, b, 2),
        new_worker(&hub, c, 3),
        new_worker(&hub, d, 4),
    ];
    let threads = threads.max(1) as usize;
    tally_on(
        rt,
        &hub,
        &mut main,
        &mut workers,
        alloc,
        p,
        times,
        threads,
        counted,
    )
}
