//! Which words are accepted, and what they ask for.

ghost use Rattle.std.specs.Prelude.{◌≡◌, IfOk, map, option_map, string_bytes};
ghost use Rattle.clap.specs.Words.{app_of, found_of, rows_of};
ghost use Rattle.run_picture.specs.Words.{asked_by, asked_of, asked_with, format_for, format_of, only_of, picture_line, range_between, range_of, range_or, script_of};

use clap::ArgMatches;
use co_base::Memory;
use program_input::{matches_of, option, switch};
use report_picture::Wanted;
use report_reader::{cut_at, value_of};
use std::alloc::Global;

/// How a picture is written.
#[derive(Clone, Copy)]
pub enum Format {
    Svg,
    Mermaid,
    Trace,
}

/// From the first number to the last.
#[derive(Clone, Copy)]
pub struct Range {
    pub first: u32,
    pub last: u32,
}

/// What a call asks for.
#[derive(Clone, Copy)]
pub struct Asked {
    pub format: Format,
    pub wanted: Wanted,
    /// A script stands in front of the report, with a line `report` between them.
    pub script: bool,
}

/// What the words ask for, of which the first is the program's name.
pub fn asked_of(alloc: Global, words: &[String]) -> Result<Option<Asked>, Memory>
    ensures { IfOk result (λ asked. asked ≡ asked_of (map string_bytes words.now)) }
{
    let Some(matches) = matches_of(picture_line(alloc)?, words)? else {
        return Ok(None);
    };
    Ok(asked_by(&matches))
}

/// What the values of the options ask for.
fn asked_by(matches: &ArgMatches<'_>) -> Option<Asked>
    ensures { result ≡ asked_by (rows_of (found_of matches.now)) }
{
    let script = matches.get_str("script");
    let format = matches.get_str("format");
    let coroutines = matches.get_str("coroutines");
    let only = matches.get_str("only");
    let lines = matches.get_str("lines");
    asked_with(
        script_of(script),
        format_for(format, lines),
        range_or(0, coroutines),
        only_of(only),
        range_or(1, lines),
    )
}

fn asked_with(
    script: bool,
    format: Option<Format>,
    coroutines: Option<Range>,
    only: Option<bool>,
    lines: Option<Range>,
) -> Option<Asked>
    ensures { result ≡ asked_with script format coroutines only lines }
{
    match (format, coroutines, only, lines) {
        (Some(format), Some(coroutines), Some(only_channels), Some(lines)) => Some(Asked {
            format,
            wanted: Wanted {
                first: coroutines.first,
                last: coroutines.last,
                only_channels,
                from: lines.first,
                to: lines.last,
            },
            script,
        }),
        _ => None,
    }
}

// ---- the command line

/// `run_picture [--format svg|mermaid|trace] [--coroutines A-B] [--only channels] [--lines A-B] [--script]`.
fn picture_line<'a>(alloc: Global) -> Result<clap::Command<'a>, Memory>
    ensures { IfOk result (λ line. app_of line ≡ picture_line) }
{
    let line = clap::Command::new(alloc, "run_picture")
        .arg(option(alloc, "format"))?
        .arg(option(alloc, "coroutines"))?
        .arg(option(alloc, "only"))?
        .arg(option(alloc, "lines"))?
        .arg(switch(alloc, "script"))?;
    Ok(line)
}

// ---- the values

fn format_for(word: Option<&str>, lines: Option<&str>) -> Option<Format>
    ensures { result ≡ format_for (format_of (option_map (λ w. w.now) word.entry)) (option_map (λ w. w.now) lines.entry) }
{
    match (format_of(word), lines) {
        (Some(Format::Trace), Some(_)) => None,
        (format, _) => format,
    }
}

fn format_of(word: Option<&str>) -> Option<Format>
    ensures { result ≡ format_of (option_map (λ w. w.now) word.entry) }
{
    let Some(word) = word else {
        return Some(Format::Svg);
    };
    if word == "svg" {
        Some(Format::Svg)
    } else if word == "mermaid" {
        Some(Format::Mermaid)
    } else if word == "trace" {
        Some(Format::Trace)
    } else {
        None
    }
}

fn only_of(word: Option<&str>) -> Option<bool>
    ensures { result ≡ only_of (option_map (λ w. w.now) word.entry) }
{
    match word {
        Some(word) => { if word == "channels" { Some(true) } else { None } }
        None => Some(false),
    }
}

fn script_of(word: Option<&str>) -> bool
    ensures { result ≡ script_of (option_map (λ w. w.now) word.entry) }
{
    match word {
        Some(word) => word == "true",
        None => false,
    }
}

fn range_or(first: u32, word: Option<&str>) -> Option<Range>
    ensures { result ≡ range_or first (option_map (λ w. w.now) word.entry) }
{
    match word {
        Some(word) => range_of(word.as_bytes()),
        None => Some(Range {
            first,
            last: u32::MAX,
        }),
    }
}

/// The range that a word is: two numbers with a hyphen between them, of which the second is not less.
fn range_of(word: &[u8]) -> Option<Range>
    ensures { result ≡ range_of word.now }
{
    let (low, behind) = cut_at(b'-', word);
    let Some(rest) = behind else {
        return None;
    };
    let (high, more) = cut_at(b'-', rest);
    if more.is_some() {
        return None;
    }
    range_between(value_of(low), value_of(high))
}

fn range_between(first: Option<u32>, last: Option<u32>) -> Option<Range>
    ensures { result ≡ range_between first last }
{
    match (first, last) {
        (Some(first), Some(last)) if first <= last => Some(Range { first, last }),
        _ => None,
    }
}
