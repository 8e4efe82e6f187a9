//! What the benches read and write.

use std::alloc::AllocGlobal;
use std::fmt::Display;
use std::rt::Env;
use std::time::{Clock, Duration, Instant};
use std::{env, io};

/// How much was done, and since when; there is no time if the clock failed. None: there was no memory.
pub(crate) type Done = Option<(u64, Option<Instant>)>;

pub(crate) fn no_memory() -> io::Error {
    io::Error::from(io::ErrorKind::OutOfMemory)
}

/// The time, if the clock tells it.
pub(crate) fn now<R: Clock>(rt: &R) -> Option<Instant> {
    Instant::now(rt).ok()
}

/// What the program's words say.
#[derive(Drop)]
pub(crate) struct Words {
    /// The first, which names a bench.
    pub bench: Option<String>,
    /// The number that the second says, if it says one.
    pub second: Option<u64>,
    /// The number that the third says, if it says one.
    pub third: Option<u64>,
    /// The fourth.
    pub fourth: Option<String>,
}

/// The number that the word says.
fn number(word: Option<String>) -> Option<u64> {
    match word {
        Some(word) => word.as_str().parse::<u64>().ok(),
        None => None,
    }
}

pub(crate) fn read_words(rt: &(impl Env + AllocGlobal)) -> io::Result<Words> {
    let mut words = env::args(rt)?.skip(1);
    let bench = words.next();
    let second = number(words.next());
    let third = number(words.next());
    let fourth = words.next();
    Ok(Words {
        bench,
        second,
        third,
        fourth,
    })
}

/// The number, if it is one of 32 bits.
pub(crate) fn small(number: Option<u64>) -> Option<u32> {
    match number {
        Some(number) => u32::try_from(number).ok(),
        None => None,
    }
}

/// A line that tells what was done, and how long that took. It remembers whether memory ran out.
#[derive(Drop)]
pub(crate) struct Line {
    text: String,
    is_whole: bool,
    /// How long it took, if the clock told it.
    spent: Option<Duration>,
}

impl Line {
    /// A line about what began then, and has just ended.
    pub(crate) fn since<R: Clock + AllocGlobal>(rt: &R, begun: Option<Instant>) -> Line {
        let spent = match begun {
            Some(begun) => begun.elapsed(rt).ok(),
            None => None,
        };
        Line {
            text: String::new(rt.alloc()),
            is_whole: true,
            spent,
        }
    }

    /// Puts this behind what the line says.
    pub(crate) fn add<T: Display + Drop>(&mut self, value: T) {
        self.is_whole = write!(self.text, "{value}").is_ok() && self.is_whole;
    }

    /// Writes the line to standard output.
    pub(crate) fn say<R: Print>(&self, rt: &R) -> io::Result<()> {
        if !self.is_whole {
            return Err(no_memory());
        }
        println!(rt; "{}", self.text.as_str())
    }

    /// Writes the line to standard error, with the time.
    pub(crate) fn say_time<R: Eprint>(&self, rt: &R) -> io::Result<()> {
        if !self.is_whole {
            return Err(no_memory());
        }
        match self.spent {
            Some(spent) => eprintln!(rt; "{} in {spent:?}", self.text.as_str()),
            None => Err(io::Error::from(io::ErrorKind::Other)),
        }
    }

    /// Writes it to standard output, and with this behind it and the time to standard error.
    pub(crate) fn tell<R: Print + Eprint>(&mut self, rt: &R, more: &str) -> io::Result<()> {
        self.say(rt)?;
        self.add(more);
        self.say_time(rt)
    }
}

/// Says how much was done by so many threads, and how long it took.
pub(crate) fn tell<R: Clock + Print + Eprint + AllocGlobal>(
    rt: &R,
    name: &str,
    threads: u32,
    done: Done,
    what: &str,
) -> io::Result<()> {
    let Some((done, begun)) = done else {
        return Err(no_memory());
    };
    let mut line = Line::since(rt, begun);
    line.add(name);
    line.add(", ");
    line.add(threads);
    line.add(" at once: ");
    line.add(done);
    line.add(what);
    line.tell(rt, "")
}
