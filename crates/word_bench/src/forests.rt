//! How long calls on a forest and tickets through lanes take. Standard output has how much was done, standard error how long it took.
//!
//!     word_bench forest [JOBS [TICKETS]]     by default 100 and 1000; at most 15999 Jobs
//!
//! Four coroutines also enter scopes in one forest, until it has as many Jobs.
//!
//! - `tickets`: tickets through lanes.
ghost use Rattle.std.specs.Prelude.{◌≡◌, ◌+◌, ◌≤◌};
ghost use Rattle.job_words.specs.Forests.{IsOwn};
ghost use Rattle.floor_tests.specs.Shares.{IsShare, GivesFrom};

mod tickets;

use crate::told::{Line, Words, no_memory, now, small};
use floor_tests::forest_shares::{Four, Work, new_forest, share_of, work_by};
use job_words::{Forest, JobPass};
use std::io;
use std::sync::Wait;
use std::thread::Threads;
use std::time::{Clock, Instant};
use tickets::taken_by;

/// What is done with the Jobs of one forest, in turn, and how its line names each.
type Works = &'static [(Work, &'static str)];

const ENDED: Works = &[
    (Work::Attach, "Attach"),
    (Work::EndBody, "EndBody"),
    (Work::Finish, "Finish"),
];

const CANCELLED: Works = &[(Work::Attach, "Attach"), (Work::CancelRoot, "CancelRoot")];

const ENTERED: Works = &[(Work::EnterScopes, "EnterScopes")];

/// So many Jobs, from 4 on.
fn jobs_of(words: &Words) -> u16
    ensures { (4 ≤ result) × (result ≤ 15999) }
{
    let jobs = small(words.second).unwrap_or(100);
    u16::try_from(jobs).unwrap_or(15999).clamp(4, 15999)
}

/// Says how many of a forest's calls came to what they are made for.
fn tell_work<R: Clock + Print + Eprint + AllocGlobal>(
    rt: &R,
    jobs: u16,
    threads: u8,
    name: &str,
    begun: Option<Instant>,
    done: u32,
) -> io::Result<()> {
    let mut line = Line::since(rt, begun);
    line.add(jobs);
    line.add(" Jobs, ");
    line.add(threads);
    line.add(" at once: ");
    line.add(name);
    line.add(" ");
    line.add(done);
    line.tell(rt, "")
}

/// Four shares of so many Jobs, which are attached, ended and told gone by so many threads, and of another forest cancelled; and in a third
/// one so many Jobs, of which all but four are scopes.
fn bench_jobs<R: Threads + Wait + Sync + Clock + Print + Eprint + AllocGlobal>(
    rt: &R,
    jobs: u16,
    threads: u8,
) -> io::Result<()>
    requires some { 4 ≤ jobs }
    requires few { jobs ≤ 15999 }
{
    bench_works(rt, jobs, 0, threads, ENDED)?;
    bench_works(rt, jobs, 0, threads, CANCELLED)?;
    bench_works(rt, 4, jobs - 4, threads, ENTERED)
}

/// The tags from 1 on in four shares of a forest of so many Jobs.
fn four_shares(forest: &Forest, main: &mut JobPass, jobs: u16) -> Four
    requires some { 4 ≤ jobs }
    requires few { jobs ≤ 15999 }
    requires own { IsOwn forest.now main.old 0 }
    requires gives { GivesFrom forest.now main.old 1 }
    ensures a { IsShare forest.now result.a }
    ensures b { IsShare forest.now result.b }
    ensures c { IsShare forest.now result.c }
    ensures d { IsShare forest.now result.d }
{
    let quarter = jobs / 4;
    let a = share_of(forest, main, 1, 1 + quarter);
    let b = share_of(forest, main, 1 + quarter, 1 + 2 * quarter);
    let c = share_of(forest, main, 1 + 2 * quarter, 1 + 3 * quarter);
    let d = share_of(forest, main, 1 + 3 * quarter, jobs + 1);
    Four { a, b, c, d }
}

/// Does this with the four shares, one after the other, and tells each.
fn work_in_turn<R: Threads + Wait + Sync + Clock + Print + Eprint + AllocGlobal>(
    rt: &R,
    forest: &Forest,
    jobs: u16,
    four: Four,
    threads: u8,
    works: Works,
) -> io::Result<()>
    requires few { jobs ≤ 15999 }
    requires size { forest.now.size.coroutines ≡ jobs + 1 }
    requires a { IsShare forest.now four.a }
    requires b { IsShare forest.now four.b }
    requires c { IsShare forest.now four.c }
    requires d { IsShare forest.now four.d }
{
    let mut four = four;
    for (work, name) in works {
        let begun = now(rt);
        four = work_by(rt, forest, jobs + 1, rt.alloc(), four, *work, threads);
        tell_work(rt, jobs, threads, name, begun, four.count())?;
    }
    Ok(())
}

fn bench_works<R: Threads + Wait + Sync + Clock + Print + Eprint + AllocGlobal>(
    rt: &R,
    jobs: u16,
    scopes: u16,
    threads: u8,
    works: Works,
) -> io::Result<()>
    requires some { 4 ≤ jobs }
    requires few { jobs + scopes ≤ 15999 }
{
    let Ok((forest, mut main)) = new_forest(rt.alloc(), jobs + 1, scopes) else {
        return Err(no_memory());
    };
    let four = four_shares(&forest, &mut main, jobs);
    work_in_turn(rt, &forest, jobs, four, threads, works)
}

/// So many tickets through so many lanes.
fn bench_tickets<R: Threads + Wait + Sync + Clock + Print + Eprint + AllocGlobal>(
    rt: &R,
    tickets: u32,
    lanes: u8,
) -> io::Result<()>
    requires lanes { (1 ≤ lanes) × (lanes ≤ 4) }
{
    let begun = now(rt);
    let Ok(taken) = taken_by(rt, rt.alloc(), lanes, tickets) else {
        return Err(no_memory());
    };
    let mut line = Line::since(rt, begun);
    line.add(tickets);
    line.add(" tickets, ");
    line.add(lanes);
    line.add(" lanes: ");
    line.add(taken);
    line.add(" taken");
    line.tell(rt, "")
}

/// All cases.
pub(crate) fn bench<R: Threads + Wait + Sync + Clock + Print + Eprint + AllocGlobal>(
    rt: &R,
    words: &Words,
) -> io::Result<()> {
    let jobs = jobs_of(words);
    let tickets = small(words.third).unwrap_or(1000);
    for threads in [1, 2, 4] {
        bench_jobs(rt, jobs, threads)?;
    }
    bench_tickets(rt, tickets, 1)?;
    bench_tickets(rt, tickets, 2)?;
    bench_tickets(rt, tickets, 4)
}
