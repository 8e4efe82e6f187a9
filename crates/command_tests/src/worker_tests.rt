//! Runs by one worker, by several round one lock and by several over words, told by what holds under every schedule.

ghost use Rattle.std.specs.Prelude.{◌≤◌};

use channel_model::{Act, ChannelNote, Settled};
use co_base::{Memory, OpenGate, Value};
use engine_many::run_many;
use engine_one::{run_locked, run_one};
use job_model::End;
use note_book::{Item, Notes};
use poll_states::Done;
use script_printer::generate;
use script_reader::{Script, read};
use std::alloc::Global;
use std::sync::Wait;
use std::test::Fail;
use std::thread::Threads;

/// A select receives what two coroutines of a scope send.
const SELECT_IN_A_SCOPE: &str = "\
channel a rendezvous
channel b rendezvous
coroutine p
repeat 100
send a 1
end
end
coroutine q
repeat 100
send b 2
end
end
coroutine main
scope
launch p
launch q
repeat 200
select
onreceive a
onreceive b
end
end
end
result sum
end
";

/// The script of a text.
fn script_of(alloc: Global, text: &str) -> Result<Script, Memory> {
    match read(alloc, text.as_bytes()) {
        Ok(script) => Ok(script),
        Err(_) => Err(Memory),
    }
}

/// One where an item tells that an element was received, and nothing else.
fn received_by(item: &Item) -> u32 {
    match item {
        Item::Channel(ChannelNote::Made(Act::Take { .. })) => 1,
        Item::Channel(ChannelNote::Made(Act::Settle { outcome, .. })) => match outcome {
            Settled::Value(..) => 1,
            _ => 0,
        },
        _ => 0,
    }
}

/// How many elements were received, by the books.
fn received(books: &[Notes]) -> u32 {
    let mut count = 0u32;
    for book in books {
        for item in book.items() {
            count = count.wrapping_add(received_by(item));
        }
    }
    count
}

/// The result of a Job that was completed.
fn result_of(end: Option<End>) -> Option<Value> {
    match end {
        Some(End::Completed(value)) => Some(value),
        Some(End::Cancelled(_)) | None => None,
    }
}

/// The result of the root, how many books there are, and how many elements were received.
type Outcome = (Option<Value>, usize, u32);

fn told_of(done: &Done<Notes>) -> Outcome {
    let books = done.books.as_slice();
    (result_of(done.end), books.len(), received(books))
}

/// What a run by one worker comes to, if it is something else.
fn other_by_one(alloc: Global, script: &Script, told: Outcome) -> Result<Option<Outcome>, Memory> {
    let run = run_one(alloc, script, &OpenGate)?;
    Ok(other_than(told, &run.done))
}

fn other_than(told: Outcome, done: &Done<Notes>) -> Option<Outcome> {
    let found = told_of(done);
    if found == told { None } else { Some(found) }
}

/// The same by so many workers round one lock.
fn other_by_lock<R: Threads + Wait + Sync>(
    rt: &R,
    alloc: Global,
    script: &Script,
    workers: u8,
    told: Outcome,
) -> Result<Option<Outcome>, Memory>
    requires { (2 ≤ workers) × (workers ≤ 16) }
{
    let run = run_locked(rt, alloc, script, workers, &OpenGate)?;
    Ok(other_than(told, &run.done))
}

/// The same by so many workers over words.
fn other_over_words<R: Threads + Wait + Sync>(
    rt: &R,
    alloc: Global,
    script: &Script,
    workers: u8,
    told: Outcome,
) -> Result<Option<Outcome>, Memory>
    requires { (2 ≤ workers) × (workers ≤ 16) }
{
    let run = run_many(rt, alloc, script, workers, &OpenGate)?;
    Ok(other_than(told, &run.done))
}

/// What the first run comes to that comes to something else: by one worker, and by two, four and sixteen round one lock and over words.
fn other_by_any<R: Threads + Wait + Sync>(
    rt: &R,
    alloc: Global,
    script: &Script,
    told: Outcome,
) -> Result<Option<Outcome>, Memory> {
    let other = other_by_one(alloc, script, told)?;
    if other.is_some() {
        return Ok(other);
    }
    for workers in 2..17u8 {
        if workers == 2 || workers == 4 || workers == 16 {
            let by_lock = other_by_lock(rt, alloc, script, workers, told)?;
            let over_words = other_over_words(rt, alloc, script, workers, told)?;
            if by_lock.is_some() || over_words.is_some() {
                return Ok(by_lock.or(over_words));
            }
        }
    }
    Ok(None)
}

/// How many coroutines and scopes a script has, and what the first of its runs comes to that comes to something else.
fn found_of<R: Threads + Wait + Sync>(
    rt: &R,
    alloc: Global,
    script: Script,
    told: Outcome,
) -> Result<([u16; 2], Option<Outcome>), Memory> {
    let counts = [script.coroutines(), script.scopes()];
    Ok((counts, other_by_any(rt, alloc, &script, told)?))
}

#[test]
fn a_select_in_a_scope_comes_to_the_same_by_any_number_of_workers(
    rt: HostRuntime,
) -> Result<(), Fail> {
    let script = script_of(rt.alloc(), SELECT_IN_A_SCOPE)?;
    let found = found_of(&rt, rt.alloc(), script, (Some(300), 3, 200))?;
    assert_eq!(rt; found, ([3, 1], None));
    Ok(())
}

#[test]
fn a_pipeline_comes_to_the_same_by_any_number_of_workers(rt: HostRuntime) -> Result<(), Fail> {
    let script = generate(rt.alloc(), 1000)?;
    let found = found_of(&rt, rt.alloc(), script, (Some(10_000), 10, 8_000))?;
    assert_eq!(rt; found, ([10, 1], None));
    Ok(())
}
