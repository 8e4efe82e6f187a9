//! What a few tasks in berths come to.
ghost use Rattle.std.specs.Prelude.{◌≡◌, ◌<◌, [], IfOk, length};
ghost use Rattle.task_berths.specs.Answers.{HaveTags};
ghost use Rattle.task_berths.specs.Seats.{count_of, view_of, IsSeatOf};

use crate::compare::compare;
use co_base::{Memory, Tag};
use std::alloc::Global;
use std::sync::Wait;
use std::test::Fail;
use std::thread::{Threads, join};
use task_berths::{BerthSeat, Berths, Tagged, Taken};

/// A task that counts how often it was visited.
#[derive(Clone, Copy, Drop)]
struct Job {
    tag: Tag,
    visits: u64,
}

impl Tagged for Job {
    ghost tag_of = { λ j. j.tag };

    fn tag(&self) -> Tag {
        self.tag
    }
}

/// Two tasks.
fn two_jobs(alloc: Global) -> Result<Vec<Job>, Memory>
    ensures count { IfOk result (λ v. length v.items ≡ 2) }
    ensures tags { IfOk result (λ v. HaveTags (λ (j : Job). j.tag) v.items) }
{
    let mut jobs = Vec::with_capacity(alloc, 2)?;
    jobs.push_reserved(Job { tag: 0, visits: 0 });
    jobs.push_reserved(Job { tag: 1, visits: 0 });
    Ok(jobs)
}

/// Whether the first seat, from which the second takes task 0 twice in vain, hears so as it leaves the task, and hears of the other task
/// that it has; and then the second as it leaves task 0.
fn asked(berths: &Berths<Job>, a: &mut BerthSeat<Job>, b: &mut BerthSeat<Job>) -> Option<[bool; 3]>
    requires a { IsSeatOf berths.now a.old × ((view_of a.old).held ≡ []) }
    requires b { IsSeatOf berths.now b.old × ((view_of b.old).held ≡ []) }
    requires two { count_of berths.now ≡ 2 }
{
    let Taken::Task(job) = berths.take(a, 0) else {
        return None;
    };
    let Taken::Task(other) = berths.take(a, 1) else {
        return None;
    };
    let Taken::Busy = berths.take(b, 0) else {
        return None;
    };
    let Taken::Busy = berths.take(b, 0) else {
        return None;
    };
    let first = berths.leave(a, 0, job);
    let of_other = berths.leave(a, 1, other);
    let Taken::Task(job) = berths.take(b, 0) else {
        return None;
    };
    Some([first, of_other, berths.leave(b, 0, job)])
}

#[test]
fn a_seat_that_is_asked_hears_it_when_it_leaves(rt: HostRuntime) -> Result<(), Fail> {
    let (berths, mut a) = Berths::new(two_jobs(rt.alloc())?)?;
    let mut b = berths.split(&mut a);
    let found = asked(&berths, &mut a, &mut b);
    compare(&rt, &found, &Some([true, false, false]));
    Ok(())
}

/// What became of some visits.
#[derive(Clone, Copy, Drop)]
struct Visits {
    made: u64,
    busy: u64,
    asked: u64,
}

/// Takes a task, counts the visit, and leaves the task.
fn visit(berths: &Berths<Job>, seat: &mut BerthSeat<Job>, tag: Tag, visits: &mut Visits)
    requires seat { IsSeatOf berths.now seat.old }
    requires tag { tag < count_of berths.now }
    requires none { (view_of seat.old).held ≡ [] }
    ensures seat { IsSeatOf berths.now seat.new }
    ensures none { (view_of seat.new).held ≡ [] }
{
    match berths.take(seat, tag) {
        Taken::Task(job) => {
            let visited = Job {
                tag: job.tag,
                visits: job.visits.wrapping_add(1),
            };
            let asked = berths.leave(seat, tag, visited);
            visits.made = visits.made.wrapping_add(1);
            visits.asked = visits.asked.wrapping_add(u64::from(asked));
        }
        Taken::Busy => visits.busy = visits.busy.wrapping_add(1),
    }
}

/// Visits both tasks so many times.
fn visit_both(berths: &Berths<Job>, seat: BerthSeat<Job>, times: u32) -> (BerthSeat<Job>, Visits)
    requires seat { IsSeatOf berths.now seat }
    requires two { count_of berths.now ≡ 2 }
    requires none { (view_of seat).held ≡ [] }
    ensures seat { IsSeatOf berths.now result.0 }
    ensures none { (view_of result.0).held ≡ [] }
{
    let mut seat = seat;
    let mut visits = Visits {
        made: 0,
        busy: 0,
        asked: 0,
    };
    for _ in 0..times {
        visit(berths, &mut seat, 0, &mut visits);
        visit(berths, &mut seat, 1, &mut visits);
    }
    (seat, visits)
}

/// Two threads visit both tasks.
fn visit_by_two<R: Threads + Wait + Sync>(
    rt: &R,
    berths: &Berths<Job>,
    a: BerthSeat<Job>,
    b: BerthSeat<Job>,
    times: u32,
) -> ((BerthSeat<Job>, Visits), (BerthSeat<Job>, Visits))
    requires two { count_of berths.now ≡ 2 }
    requires a { IsSeatOf berths.now a × ((view_of a).held ≡ []) }
    requires b { IsSeatOf berths.now b × ((view_of b).held ≡ []) }
    ensures a { IsSeatOf berths.now result.0.0 × ((view_of result.0.0).held ≡ []) }
    ensures b { IsSeatOf berths.now result.1.0 × ((view_of result.1.0).held ≡ []) }
{
    join(
        rt,
        || visit_both(berths, a, times),
        || visit_both(berths, b, times),
    )
}

/// The visits that the tasks counted.
fn counted(jobs: &[Job]) -> u64 {
    let mut sum = 0u64;
    for job in jobs {
        sum = sum.wrapping_add(job.visits);
    }
    sum
}

/// How many visits the tasks counted, and what became of those of each thread.
fn visited<R: Threads + Wait + Sync>(
    rt: &R,
    alloc: Global,
    times: u32,
) -> Result<(u64, Visits, Visits), Memory> {
    let (berths, mut main) = Berths::new(two_jobs(alloc)?)?;
    let a = berths.split(&mut main);
    let b = berths.split(&mut main);
    let ((a, by_a), (b, by_b)) = visit_by_two(rt, &berths, a, b, times);
    berths.end(&mut main, a);
    berths.end(&mut main, b);
    let jobs = berths.close(main);
    Ok((counted(jobs.as_slice()), by_a, by_b))
}

#[test]
fn no_visit_of_two_threads_is_lost_and_no_leave_was_asked_without_a_busy_take(
    rt: HostRuntime,
) -> Result<(), Fail> {
    let (counted, a, b) = visited(&rt, rt.alloc(), 20_000)?;
    let visits = [a.made.wrapping_add(a.busy), b.made.wrapping_add(b.busy)];
    let unasked = [a.asked > b.busy, b.asked > a.busy];
    let wanted = (
        a.made.wrapping_add(b.made),
        [40_000, 40_000],
        [false, false],
    );
    compare(&rt, &(counted, visits, unasked), &wanted);
    Ok(())
}
