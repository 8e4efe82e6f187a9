//! Which lines can be those of a report of a script.

ghost use Rattle.std.specs.Prelude.{◌≡◌, ◌≤◌, IfOk, length, map};
ghost use Rattle.std.specs.List.{list_any};
ghost use Rattle.std.specs.Str.{bytes_eq};
ghost use Rattle.script_grammar.specs.Programs.{channel_names};
ghost use Rattle.script_reader.specs.Programs.{declared_of};
ghost use Rattle.script_reader.specs.Scripts.{program_of};
ghost use Rattle.report_reader.specs.Words.{parts, texts};
ghost use Rattle.report_reader.specs.Reading.{Gives};
ghost use Rattle.run_explanation.specs.Fitting.{begins_with_channel, channel_fits, fits, has_point, is_channel_of, is_figure, is_known, is_on_channel, is_row, is_tag, line_fits, lines_for, misfit_in, note_fits, row_fits, wait_fits, waits_fit};

use report_reader::{Line, NoReport, cut_at, read, value_of, words_of};
use script_reader::{Channel, Script};
use std::alloc::{AllocError, Global};

fn is_row(script: &Script, word: &[u8]) -> bool
    ensures { result ≡ is_row (program_of script.now) word.now }
{
    match value_of(word) {
        Some(row) => row < u32::from(script.jobs()),
        None => false,
    }
}

fn is_tag(script: &Script, word: &[u8]) -> bool
    ensures { result ≡ is_tag (program_of script.now) word.now }
{
    match value_of(word) {
        Some(tag) => tag < u32::from(script.coroutines()),
        None => false,
    }
}

/// Whether a channel has this name.
fn is_declared(channels: &[Channel], word: &[u8]) -> bool
    ensures { result ≡ list_any (λ name. bytes_eq name word.now) (channel_names (map declared_of channels.now)) }
{
    let mut rest = channels;
    while let [channel, more @ ..] = rest {
        if channel.name.as_bytes() == word {
            return true;
        }
        rest = more;
    }
    false
}

/// Whether a word is a channel: one that the script declares, or the done channel of a Job.
fn is_channel_of(script: &Script, word: &[u8]) -> bool
    ensures { result ≡ is_channel_of (program_of script.now) word.now }
{
    match word {
        [first, row @ ..] if *first == b'@' => is_row(script, row),
        [_, ..] => is_declared(script.channels(), word),
        [] => false,
    }
}

/// Whether a word is a channel, or a wait on one.
fn is_on_channel(script: &Script, word: &[u8]) -> bool
    ensures { result ≡ is_on_channel (program_of script.now) word.now }
{
    let (channel, more) = cut_at(b'.', word);
    begins_with(script, channel, more)
}

fn begins_with(script: &Script, channel: &[u8], more: Option<&[u8]>) -> bool
    ensures { result ≡ begins_with_channel (program_of script.now) (parts 46 channel.now more.entry) }
{
    match more {
        None => is_channel_of(script, channel),
        Some(_) => is_channel_of(script, channel),
    }
}

fn is_figure(byte: u8) -> bool
    ensures { result ≡ is_figure byte }
{
    b'0' <= byte && byte <= b'9'
}

/// Whether a word is a row, a channel or a wait.
fn is_known(script: &Script, word: &[u8]) -> bool
    ensures { result ≡ is_known (program_of script.now) word.now }
{
    match word {
        [first, ..] if is_figure(*first) => is_row(script, word),
        [_, ..] => is_on_channel(script, word),
        [] => false,
    }
}

/// Whether a word is a wait.
fn has_point(word: &[u8]) -> bool
    ensures { result ≡ has_point word.now }
{
    let mut rest = word;
    while let [byte, more @ ..] = rest {
        if *byte == b'.' {
            return true;
        }
        rest = more;
    }
    false
}

/// Whether a word is one on a channel if it is a wait.
fn wait_fits(script: &Script, word: &[u8]) -> bool
    ensures { result ≡ wait_fits (program_of script.now) word.now }
{
    !has_point(word) || is_on_channel(script, word)
}

/// Whether each word that is a wait is one on a channel.
fn waits_fit(script: &Script, words: &[&[u8]]) -> bool
    ensures { result ≡ waits_fit (program_of script.now) (texts words.now) }
{
    let mut rest = words;
    while let [word, more @ ..] = rest {
        if !wait_fits(script, *word) {
            return false;
        }
        rest = more;
    }
    true
}

/// Whether what stands behind the verb is known.
fn note_fits(script: &Script, words: &[&[u8]]) -> bool
    ensures { result ≡ note_fits (program_of script.now) (texts words.now) }
{
    match words {
        [] => false,
        [_] => true,
        [verb, word, rest @ ..] => {
            (*verb == b"fail".as_slice() || is_known(script, *word)) && waits_fit(script, rest)
        }
    }
}

fn row_fits(script: &Script, words: &[&[u8]]) -> bool
    ensures { result ≡ row_fits (program_of script.now) (texts words.now) }
{
    match words {
        [] => false,
        [row, ..] => is_row(script, *row),
    }
}

fn channel_fits(script: &Script, words: &[&[u8]]) -> bool
    ensures { result ≡ channel_fits (program_of script.now) (texts words.now) }
{
    match words {
        [] => false,
        [channel, ..] => is_channel_of(script, *channel),
    }
}

/// Whether a line with this first word names only what the script has.
#[tactic(auto, unfolding(crate::specs::Fitting::line_fits))]
fn line_fits(script: &Script, first: &[u8], words: &[&[u8]]) -> bool
    ensures { result ≡ line_fits (program_of script.now) first.now (texts words.now) }
{
    if first == b"job".as_slice() {
        row_fits(script, words)
    } else if first == b"element".as_slice() {
        channel_fits(script, words)
    } else if first.is_empty() {
        true
    } else {
        is_tag(script, first) && note_fits(script, words)
    }
}

/// Whether a line names only what the script has. The vector is a place for its words.
fn fits<'a>(script: &Script, words: &mut Vec<&'a [u8]>, line: &'a [u8]) -> Result<bool, AllocError>
    ensures { IfOk result (λ good. good ≡ fits (program_of script.now) line.now) }
{
    words_of(words, line)?;
    match words.as_slice() {
        [] => Ok(true),
        [first, rest @ ..] => Ok(line_fits(script, *first, rest)),
    }
}

/// The number of the first line of a text that names something that the script has not.
fn misfit_in(alloc: Global, script: &Script, text: &[u8]) -> Result<Option<u32>, AllocError>
    requires { length text.now ≤ 67108864 }
    ensures { IfOk result (λ n. n ≡ misfit_in (program_of script.now) text.now) }
{
    let mut words = Vec::new(alloc);
    let mut number = 1u32;
    let mut rest = text;
    'lines: loop {
        let (line, more) = cut_at(b'\n', rest);
        if !fits(script, &mut words, line)? {
            return Ok(Some(number));
        }
        number += 1;
        let Some(next) = more else {
            return Ok(None);
        };
        rest = next;
    }
}

/// The lines of a report of this script; or the number of the first line that cannot be one, since it is none of a report, or does not fit.
pub(crate) fn lines_for<'a>(
    alloc: Global,
    script: &Script,
    text: &'a [u8],
) -> Result<Vec<Line<'a>>, NoReport>
    requires { length text.now ≤ 67108864 }
    ensures { Gives result (lines_for (program_of script.now) text.now) }
{
    match misfit_in(alloc, script, text) {
        Err(_) => Err(NoReport::Memory),
        Ok(None) => read(alloc, text),
        Ok(Some(number)) => match read(alloc, text) {
            Ok(_) => Err(NoReport::AtLine(number)),
            Err(NoReport::AtLine(other)) => Err(NoReport::AtLine(number.min(other))),
            Err(NoReport::Memory) => Err(NoReport::Memory),
        },
    }
}
