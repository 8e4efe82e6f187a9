//! Which words are accepted, and what they ask for.

ghost use Rattle.std.specs.Prelude.{◌≡◌, IfOk, map, option_map, option_and_then, string_bytes, true};
ghost use Rattle.clap.specs.Words.{app_of, found_of, is_simple_and_free, rows_of};
ghost use Rattle.program_input.specs.Words.{matches_by};
ghost use Rattle.report_reader.specs.Words.{value_at};
ghost use Rattle.run_explore.specs.Words.{asked_by, asked_of, asked_within, explore_line, find_of, limit_with, number_at, request_of, states_of, tag_at, tags_of, tell_of, wanted_of, workers_at, workers_of};

use clap::ArgMatches;
use co_base::{Memory, Tag};
use end_search::{Limit, Tell, Wanted};
use program_input::{matches_of, option};
use report_reader::{cut_at, value_of};
use std::alloc::Global;

/// What a call asks for.
#[derive(Drop)]
pub enum Asked {
    /// The ends of the script.
    Ends(Limit),
    /// The report of the end with this number.
    Report(u32, Limit),
    /// The report of the run in this order.
    Order(Vec<Tag>),
}

/// What the words ask for, of which the first is the program's name.
pub fn asked_of(alloc: Global, words: &[String]) -> Result<Option<Asked>, Memory>
    ensures { IfOk result (λ asked. option_map request_of asked ≡ asked_of (map string_bytes words.now)) }
{
    let line = explore_line(alloc)?;
    asked_in(alloc, line, words)
}

/// What the words ask for by this command line.
fn asked_in<'a>(
    alloc: Global,
    line: clap::Command<'a>,
    words: &'a [String],
) -> Result<Option<Asked>, Memory>
    requires { is_simple_and_free (app_of line) ≡ true }
    ensures { IfOk result (λ asked. option_map request_of asked
        ≡ option_and_then asked_by (matches_by (app_of line.entry) (map string_bytes words.now))) }
{
    let Some(matches) = matches_of(line, words)? else {
        return Ok(None);
    };
    asked_by(alloc, &matches)
}

/// What the values of the options ask for.
fn asked_by(alloc: Global, matches: &ArgMatches<'_>) -> Result<Option<Asked>, Memory>
    ensures { IfOk result (λ asked. option_map request_of asked ≡ asked_by (rows_of (found_of matches.now))) }
{
    let find = matches.get_str("find");
    let tell = matches.get_str("tell");
    let states = matches.get_str("states");
    let workers = matches.get_str("workers");
    let order = matches.get_str("order");
    let report = matches.get_str("report");
    match limit_by(find, tell, states, workers) {
        Some(limit) => asked_within(alloc, limit, order, report),
        None => Ok(None),
    }
}

fn asked_within(
    alloc: Global,
    limit: Limit,
    order: Option<&str>,
    number: Option<&str>,
) -> Result<Option<Asked>, Memory>
    ensures { IfOk result (λ asked. option_map request_of asked
        ≡ asked_within limit (option_map (λ w. w.now) order.entry) (option_map (λ w. w.now) number.entry)) }
{
    match (order, number) {
        (None, None) => Ok(Some(Asked::Ends(limit))),
        (None, Some(word)) => match number_at(word.as_bytes()) {
            Some(number) => Ok(Some(Asked::Report(number, limit))),
            None => Ok(None),
        },
        (Some(word), None) => match order_of(alloc, word.as_bytes())? {
            Some(order) => Ok(Some(Asked::Order(order))),
            None => Ok(None),
        },
        (Some(_), Some(_)) => Ok(None),
    }
}

// ---- the command line

/// `run_explore [--find WHAT] [--tell WHAT] [--states N] [--report N] [--order T,T..] [--workers N]`.
fn explore_line<'a>(alloc: Global) -> Result<clap::Command<'a>, Memory>
    ensures { IfOk result (λ line. app_of line ≡ explore_line) }
{
    let line = clap::Command::new(alloc, "run_explore")
        .arg(option(alloc, "find"))?
        .arg(option(alloc, "tell"))?
        .arg(option(alloc, "states"))?
        .arg(option(alloc, "report"))?
        .arg(option(alloc, "order"))?
        .arg(option(alloc, "workers"))?;
    Ok(line)
}

// ---- the values

fn limit_by(
    find: Option<&str>,
    tell: Option<&str>,
    states: Option<&str>,
    workers: Option<&str>,
) -> Option<Limit>
    ensures { result ≡ limit_with (find_of (option_map (λ w. w.now) find.entry)) (tell_of (option_map (λ w. w.now) tell.entry))
        (states_of (option_map (λ w. w.now) states.entry)) (workers_of (option_map (λ w. w.now) workers.entry)) }
{
    let Some(wanted) = find_of(find) else {
        return None;
    };
    let Some(tell) = tell_of(tell) else {
        return None;
    };
    let Some(states) = states_of(states) else {
        return None;
    };
    let Some(workers) = workers_of(workers) else {
        return None;
    };
    Some(Limit {
        wanted,
        tell,
        states,
        workers,
    })
}

/// Which ends are looked for.
fn find_of(word: Option<&str>) -> Option<Option<Wanted>>
    ensures { result ≡ find_of (option_map (λ w. w.now) word.entry) }
{
    match word {
        Some(word) => match wanted_of(word) {
            Some(wanted) => Some(Some(wanted)),
            None => None,
        },
        None => Some(None),
    }
}

fn wanted_of(word: &str) -> Option<Wanted>
    ensures { result ≡ wanted_of word.now }
{
    if word == "unfinished" {
        Some(Wanted::Unfinished)
    } else if word == "failed" {
        Some(Wanted::Failed)
    } else if word == "cancelled" {
        Some(Wanted::Cancelled)
    } else if word == "undelivered" {
        Some(Wanted::Undelivered)
    } else if word == "held" {
        Some(Wanted::Held)
    } else if word == "refused" {
        Some(Wanted::Refused)
    } else if word == "other" {
        Some(Wanted::Other)
    } else {
        None
    }
}

fn tell_of(word: Option<&str>) -> Option<Tell>
    ensures { result ≡ tell_of (option_map (λ w. w.now) word.entry) }
{
    let Some(word) = word else {
        return Some(Tell::All);
    };
    if word == "status" {
        Some(Tell::Status)
    } else if word == "jobs" {
        Some(Tell::Jobs)
    } else if word == "all" {
        Some(Tell::All)
    } else {
        None
    }
}

fn states_of(word: Option<&str>) -> Option<u32>
    ensures { result ≡ states_of (option_map (λ w. w.now) word.entry) }
{
    match word {
        Some(word) => number_at(word.as_bytes()),
        None => Some(1000000),
    }
}

fn workers_of(word: Option<&str>) -> Option<u8>
    ensures { result ≡ workers_of (option_map (λ w. w.now) word.entry) }
{
    match word {
        Some(word) => workers_at(word.as_bytes()),
        None => Some(1),
    }
}

/// A number from 1 to 16.
fn workers_at(word: &[u8]) -> Option<u8>
    ensures { result ≡ workers_at word.now }
{
    match number_at(word) {
        Some(number) if number < 17 => Some(number as u8),
        _ => None,
    }
}

/// A number that is not 0.
fn number_at(word: &[u8]) -> Option<u32>
    ensures { result ≡ number_at word.now }
{
    match value_of(word) {
        Some(number) if number > 0 => Some(number),
        _ => None,
    }
}

/// The tags that a word names, with commas between them.
fn order_of(alloc: Global, word: &[u8]) -> Result<Option<Vec<Tag>>, Memory>
    ensures { IfOk result (λ order. option_map (λ tags. tags.items) order ≡ tags_of word.now) }
{
    let mut order = Vec::new(alloc);
    let mut rest = word;
    'tags: loop {
        let (one, more) = cut_at(b',', rest);
        let Some(tag) = tag_at(one) else {
            return Ok(None);
        };
        order.push(tag)?;
        let Some(next) = more else {
            return Ok(Some(order));
        };
        rest = next;
    }
}

fn tag_at(word: &[u8]) -> Option<Tag>
    ensures { result ≡ tag_at word.now }
{
    match value_of(word) {
        Some(number) if number < 65536 => Some(number as Tag),
        _ => None,
    }
}
