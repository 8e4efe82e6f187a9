//! How long an engine takes for a run, without the reading of its script and without a report. Standard output has how many elements were
//! received, standard error how many notes the books have, and how long the run took.
//!
//!     engine_bench ENGINE WORKERS [SIZE]
//!
//! The engine is `one`, `locked` or `many`. With a size the script is the one whose run adds up so many numbers; else it is read.
#![tactic(auto)]

ghost use Rattle.std.specs.Prelude.{◌≤◌, IfOk};

use channel_model::{Act, ChannelNote, Settled};
use co_base::{Memory, OpenGate, Source, StdSource, read_script};
use engine_many::{WordRun, run_many};
use engine_one::{ListRun, run_locked, run_one};
use note_book::{Item, Notes};
use script_printer::generate;
use script_reader::{Script, read};
use std::alloc::Global;
use std::rt::Env;
use std::sync::Wait;
use std::thread::Threads;
use std::time::{Clock, Instant};
use std::{env, io};

/// What runs a script.
#[derive(Clone, Copy, Debug)]
enum Engine {
    One,
    Locked,
    Many,
}

/// What is asked.
#[derive(Clone, Copy)]
struct Asked {
    engine: Engine,
    workers: u8,
    size: Option<u32>,
}

/// One where an item tells that an element was received, and nothing else.
fn received_by(item: &Item) -> u32 {
    match item {
        Item::Channel(ChannelNote::Made(Act::Take { .. })) => 1,
        Item::Channel(ChannelNote::Made(Act::Settle { outcome, .. })) => match outcome {
            Settled::Value(..) => 1,
            _ => 0,
        },
        _ => 0,
    }
}

/// How many elements were received, by the books.
fn received(books: &[Notes]) -> u32 {
    let mut count = 0u32;
    for book in books {
        for item in book.items() {
            count = count.wrapping_add(received_by(item));
        }
    }
    count
}

/// How many notes the books have.
fn noted(books: &[Notes]) -> usize {
    let mut count = 0usize;
    for book in books {
        count = count.wrapping_add(book.items().len());
    }
    count
}

/// The engine that a word names.
fn engine_of(word: Option<String>) -> Engine {
    match word {
        None => Engine::Many,
        Some(word) => match word.as_str() {
            "one" => Engine::One,
            "locked" => Engine::Locked,
            _ => Engine::Many,
        },
    }
}

/// The number that the word says, if it says one.
fn number_of(word: Option<String>) -> Option<u32> {
    match word {
        Some(word) => word.as_str().parse::<u32>().ok(),
        None => None,
    }
}

/// What the words ask: by two workers at least, and 16 at most.
fn asked_of(rt: &(impl Env + AllocGlobal)) -> io::Result<Asked>
    ensures { IfOk result (λ asked. (2 ≤ asked.workers) × (asked.workers ≤ 16)) }
{
    let mut words = env::args(rt)?.skip(1);
    let engine = engine_of(words.next());
    let workers = number_of(words.next()).unwrap_or(2);
    let size = number_of(words.next());
    let workers = u8::try_from(workers).unwrap_or(16);
    Ok(Asked {
        engine,
        workers: workers.clamp(2, 16),
        size,
    })
}

/// The script whose run adds up so many numbers, from 1 to 100,000.
fn generated(alloc: Global, size: u32) -> Option<Script> {
    if size < 1 {
        return None;
    }
    if 100_000 < size {
        return None;
    }
    generate(alloc, size).ok()
}

/// The script that the source gives.
fn read_from<S: Source>(alloc: Global, source: &mut S) -> Option<Script> {
    let Ok(bytes) = read_script(alloc, source) else {
        return None;
    };
    read(alloc, bytes.as_slice()).ok()
}

/// The books of a run of the script.
fn books_of<R: Threads + Wait + Sync>(
    rt: &R,
    alloc: Global,
    script: &Script,
    asked: Asked,
) -> Result<Vec<Notes>, Memory>
    requires { (2 ≤ asked.workers) × (asked.workers ≤ 16) }
{
    match asked.engine {
        Engine::One => {
            let ListRun { done, .. } = run_one(alloc, script, &OpenGate)?;
            Ok(done.books)
        }
        Engine::Locked => {
            let ListRun { done, .. } = run_locked(rt, alloc, script, asked.workers, &OpenGate)?;
            Ok(done.books)
        }
        Engine::Many => {
            let WordRun { done, .. } = run_many(rt, alloc, script, asked.workers, &OpenGate)?;
            Ok(done.books)
        }
    }
}

fn main(rt: HostRuntime) -> io::Result<()> {
    let asked = asked_of(&rt)?;
    let script = match asked.size {
        Some(size) => generated(rt.alloc(), size),
        None => read_from(rt.alloc(), &mut StdSource::new(rt.stdin())),
    };
    let Some(script) = script else {
        return Err(io::Error::from(io::ErrorKind::InvalidInput));
    };
    let begun = Instant::now(&rt)?;
    let Ok(books) = books_of(&rt, rt.alloc(), &script, asked) else {
        return Err(io::Error::from(io::ErrorKind::OutOfMemory));
    };
    let spent = begun.elapsed(&rt)?;
    let count = received(books.as_slice());
    let notes = noted(books.as_slice());
    println!(rt; "{count} received")?;
    eprintln!(rt;
        "{:?}, {} workers: {count} received, {notes} notes in {spent:?}",
        asked.engine, asked.workers
    )?;
    Ok(())
}
