//! Which words are accepted, and what they ask for.

ghost use Rattle.std.specs.Prelude.{◌≡◌, IfOk, map, option_map, string_bytes};
ghost use Rattle.clap.specs.Words.{app_of, found_of, rows_of};
ghost use Rattle.judge_run.specs.Words.{asked_by, asked_of, asked_with, judge_line, log_of};

use clap::ArgMatches;
use co_base::Memory;
use program_input::{matches_of, option, switch};
use report_reader::value_of;
use std::alloc::Global;

/// What a call asks for.
#[derive(Clone, Copy)]
pub enum Asked {
    /// What is said of an input.
    Verdict,
    /// The log of a run of a script, in an order of polls that this number stands for.
    Log(u32),
}

/// What the words ask for, of which the first is the program's name.
pub fn asked_of(alloc: Global, words: &[String]) -> Result<Option<Asked>, Memory>
    ensures { IfOk result (λ asked. asked ≡ asked_of (map string_bytes words.now)) }
{
    let Some(matches) = matches_of(judge_line(alloc)?, words)? else {
        return Ok(None);
    };
    Ok(asked_by(&matches))
}

/// What the values of the options ask for.
fn asked_by(matches: &ArgMatches<'_>) -> Option<Asked>
    ensures { result ≡ asked_by (rows_of (found_of matches.now)) }
{
    let log = matches.get_str("log");
    let seed = matches.get_str("seed");
    asked_with(log_of(log), seed)
}

fn log_of(word: Option<&str>) -> bool
    ensures { result ≡ log_of (option_map (λ w. w.now) word.entry) }
{
    match word {
        Some(word) => word == "true",
        None => false,
    }
}

fn asked_with(log: bool, seed: Option<&str>) -> Option<Asked>
    ensures { result ≡ asked_with log (option_map (λ w. w.now) seed.entry) }
{
    match (log, seed) {
        (false, None) => Some(Asked::Verdict),
        (false, Some(_)) => None,
        (true, None) => Some(Asked::Log(0)),
        (true, Some(word)) => match value_of(word.as_bytes()) {
            Some(seed) => Some(Asked::Log(seed)),
            None => None,
        },
    }
}

// ---- the command line

/// `judge_run [--log] [--seed N]`.
fn judge_line<'a>(alloc: Global) -> Result<clap::Command<'a>, Memory>
    ensures { IfOk result (λ line. app_of line ≡ judge_line) }
{
    let line = clap::Command::new(alloc, "judge_run")
        .arg(switch(alloc, "log"))?
        .arg(option(alloc, "seed"))?;
    Ok(line)
}
