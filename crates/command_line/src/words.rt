//! Which words are accepted, and as which command.

ghost use Rattle.std.specs.Prelude.{◌≡◌, ◌≤◌, map, option_map, option_and_then, string_bytes, Some, IfOk, IfSome};
ghost use lib.Chars.{codes};
ghost use Rattle.clap.specs.Words.{app_of, first_of, found_of, rows_of};
ghost use Rattle.program_input.specs.Words.{matches_by};
ghost use Rattle.script_grammar.specs.Places.{value_at};
ghost use Rattle.command_line.specs.Commands.{IsInLimits, alone, check_line, command_of, is_alone, run_by, run_line, size_of, sum_by, sum_line, within, workers_asked, workers_of};

use clap::ArgMatches;
use co_base::Memory;
use program_input::{matches_of, option};
use script_reader::value_of;
use std::alloc::Global;

/// What the program is asked to do.
#[derive(Clone, Copy, Debug, PartialEq, Eq)]
pub enum Command {
    /// Runs a script by so many workers.
    Run(u8),
    /// Writes a script in its canonical form.
    Check,
    /// Adds up numbers: the script of this size, by so many workers.
    Sum(u32, u8),
}

impl Command {
    /// How many workers it asks for.
    pub fn workers(self) -> u8
        requires { IsInLimits self }
        ensures asked { result ≡ workers_asked self }
        ensures limits { (1 ≤ result) × (result ≤ 16) }
    {
        match self {
            Command::Run(workers) | Command::Sum(_, workers) => workers,
            Command::Check => 1,
        }
    }

    /// Whether it asks for no second worker.
    fn is_alone(self) -> bool
        ensures { result ≡ is_alone self }
    {
        match self {
            Command::Run(workers) | Command::Sum(_, workers) => workers == 1,
            Command::Check => true,
        }
    }
}

/// The command that the words are, without the program's name, where it asks for no second worker.
pub fn alone_of(alloc: Global, words: &[String]) -> Result<Option<Command>, Memory>
    ensures exact { IfOk result (λ command. command ≡ alone (command_of (map string_bytes words.now))) }
    ensures limits { IfOk result (λ command. IfSome command IsInLimits) }
{
    match command_of(alloc, words)? {
        Some(command) => Ok(alone(command)),
        None => Ok(None),
    }
}

fn alone(command: Command) -> Option<Command>
    requires { IsInLimits command }
    ensures exact { result ≡ alone (Some command) }
    ensures limits { IfSome result IsInLimits }
{
    if command.is_alone() {
        Some(command)
    } else {
        None
    }
}

/// The command that the words are, without the program's name, if they are one.
pub fn command_of(alloc: Global, words: &[String]) -> Result<Option<Command>, Memory>
    ensures exact { IfOk result (λ command. command ≡ command_of (map string_bytes words.now)) }
    ensures limits { IfOk result (λ command. IfSome command IsInLimits) }
{
    let [name, ..] = words else {
        return Ok(None);
    };
    if name.as_str() == "run" {
        run_in(alloc, words)
    } else if name.as_str() == "check" {
        check_in(alloc, words)
    } else if name.as_str() == "sum" {
        sum_in(alloc, words)
    } else {
        Ok(None)
    }
}

/// `run [--workers N]`.
fn run_in(alloc: Global, words: &[String]) -> Result<Option<Command>, Memory>
    ensures exact { IfOk result (λ command. command ≡ option_and_then run_by (matches_by run_line (map string_bytes words.now))) }
    ensures limits { IfOk result (λ command. IfSome command IsInLimits) }
{
    let Some(matches) = matches_of(run_line(alloc)?, words)? else {
        return Ok(None);
    };
    let Some(workers) = workers_in(&matches) else {
        return Ok(None);
    };
    Ok(Some(Command::Run(workers)))
}

/// `check`.
fn check_in(alloc: Global, words: &[String]) -> Result<Option<Command>, Memory>
    ensures exact { IfOk result (λ command. command
        ≡ option_map (λ rows. Command.Check) (matches_by check_line (map string_bytes words.now))) }
    ensures limits { IfOk result (λ command. IfSome command IsInLimits) }
{
    let Some(_) = matches_of(check_line(alloc), words)? else {
        return Ok(None);
    };
    Ok(Some(Command::Check))
}

/// `sum --size N [--workers N]`.
fn sum_in(alloc: Global, words: &[String]) -> Result<Option<Command>, Memory>
    ensures exact { IfOk result (λ command. command ≡ option_and_then sum_by (matches_by sum_line (map string_bytes words.now))) }
    ensures limits { IfOk result (λ command. IfSome command IsInLimits) }
{
    let Some(matches) = matches_of(sum_line(alloc)?, words)? else {
        return Ok(None);
    };
    let Some(size) = size_in(&matches) else {
        return Ok(None);
    };
    let Some(workers) = workers_in(&matches) else {
        return Ok(None);
    };
    Ok(Some(Command::Sum(size, workers)))
}

// ---- the command lines

fn run_line<'a>(alloc: Global) -> Result<clap::Command<'a>, Memory>
    ensures { IfOk result (λ line. app_of line ≡ run_line) }
{
    let line = clap::Command::new(alloc, "run").arg(option(alloc, "workers"))?;
    Ok(line)
}

fn check_line<'a>(alloc: Global) -> clap::Command<'a>
    ensures { app_of result ≡ check_line }
{
    clap::Command::new(alloc, "check")
}

fn sum_line<'a>(alloc: Global) -> Result<clap::Command<'a>, Memory>
    ensures { IfOk result (λ line. app_of line ≡ sum_line) }
{
    let size = option(alloc, "size").required(true);
    let line = clap::Command::new(alloc, "sum")
        .arg(size)?
        .arg(option(alloc, "workers"))?;
    Ok(line)
}

// ---- the values

/// The number of workers.
fn workers_in(matches: &ArgMatches<'_>) -> Option<u8>
    ensures value { result ≡ workers_of (first_of (codes "workers") (rows_of (found_of matches.now))) }
    ensures limits { IfSome result (λ n. (1 ≤ n) × (n ≤ 16)) }
{
    workers_of(matches.get_str("workers"))
}

fn workers_of(word: Option<&str>) -> Option<u8>
    ensures value { result ≡ workers_of (option_map (λ w. w.now) word.entry) }
    ensures limits { IfSome result (λ n. (1 ≤ n) × (n ≤ 16)) }
{
    match word {
        Some(word) => match number_in(1, 16, word) {
            Some(n) => Some(n as u8),
            None => None,
        },
        None => Some(4),
    }
}

/// The size of a sum.
fn size_in(matches: &ArgMatches<'_>) -> Option<u32>
    ensures value { result ≡ size_of (first_of (codes "size") (rows_of (found_of matches.now))) }
    ensures limits { IfSome result (λ n. (1 ≤ n) × (n ≤ 100000)) }
{
    size_of(matches.get_str("size"))
}

fn size_of(word: Option<&str>) -> Option<u32>
    ensures value { result ≡ size_of (option_map (λ w. w.now) word.entry) }
    ensures limits { IfSome result (λ n. (1 ≤ n) × (n ≤ 100000)) }
{
    match word {
        Some(word) => number_in(1, 100_000, word),
        None => None,
    }
}

/// The decimal number that a word is, where it lies in these limits.
fn number_in(low: u32, high: u32, word: &str) -> Option<u32>
    ensures value { result ≡ within low high (value_at word.now) }
    ensures limits { IfSome result (λ n. (low ≤ n) × (n ≤ high)) }
{
    match value_of(word.as_bytes()) {
        Some(n) if low <= n && n <= high => Some(n),
        _ => None,
    }
}
