//! The channels, the numbers and the lines that a text has.

ghost use Rattle.std.specs.Prelude.{◌≡◌, ◌≤◌, ◌++◌, IfErr, IfOk, IfSome, Some, length, map, string_bytes};
ghost use Rattle.report_reader.specs.Words.{texts, words_of};
ghost use Rattle.script_grammar.specs.Grammar.{Spells};
ghost use Rattle.script_grammar.specs.Programs.{channel_names};
ghost use Rattle.script_reader.specs.Scripts.{program_of};
ghost use Rattle.history_text.specs.Inputs.{GivesLines, IsCut, no_coroutine};
ghost use Rattle.history_text.specs.Lines.{history_of};
ghost use Rattle.history_text.specs.Numbers.{shape_by, shape_of};
ghost use Rattle.history_text.specs.Readings.{IsFaulty, IsRead, IsReadAs, IsRefused, IsRefusedAs};

use crate::job_numbers::JobNumbers;
use crate::line::Line;
use crate::lines::{NoLines, lines_in};
use crate::numbers::shape_by;
use report_reader::{cut_at, words_of};
use script_grammar::{FaultKind, ScriptFault};
use script_reader::{Channel, Script, read};
use std::alloc::{AllocError, Global};

/// The channels that a text declares, how many coroutines and scopes it speaks of, and the lines of its history.
#[derive(Drop)]
pub struct Input {
    pub script: Script,
    pub numbers: JobNumbers,
    pub lines: Vec<Line>,
}

/// Why a text gives no history.
#[derive(Clone, Copy)]
pub enum NoInput {
    /// It has no line `history`.
    NoHistory,
    /// What stands before that line is no list of channels.
    Fault(ScriptFault),
    /// The number, from 1, of the first line behind that line which is no item of a coroutine.
    NoItem(u32),
    /// No memory was found.
    Memory,
}

/// The numbers that a line has, if it is the one before a history. The vector is a place for its words.
#[tactic(auto, using(crate::proofs::Parts::marked))]
fn mark_at<'a>(words: &mut Vec<&'a [u8]>, line: &'a [u8]) -> Result<Option<JobNumbers>, AllocError>
    ensures { IfOk result (λ found. IfSome found (λ numbers. shape_by (words_of line.now) ≡ Some (shape_of numbers))) }
{
    if !line.starts_with(b"history") {
        return Ok(None);
    }
    words_of(words, line)?;
    Ok(shape_by(words.as_slice()))
}

/// What stands before the line of a history, the numbers that this line has, and what stands behind it.
fn cut_at_history(
    alloc: Global,
    bytes: &[u8],
) -> Result<Option<(&[u8], JobNumbers, &[u8])>, AllocError>
    ensures { IfOk result (λ found. IfSome found (λ cut. IsCut (shape_of cut.1) cut.0.now cut.2.now bytes.now)) }
{
    let mut words = Vec::new(alloc);
    let mut at = 0usize;
    while at <= bytes.len() {
        let (header, rest) = bytes.split_at(at);
        let (line, more) = cut_at(b'\n', rest);
        let Some(text) = more else {
            return Ok(None);
        };
        if let Some(numbers) = mark_at(&mut words, line)? {
            return Ok(Some((header, numbers, text)));
        }
        at = bytes.len() - text.len();
    }
    Ok(None)
}

/// The text of a script of these channels alone.
fn script_text(alloc: Global, header: &[u8]) -> Result<Vec<u8>, AllocError>
    ensures { IfOk result (λ text. text.items ≡ header.now ++ no_coroutine) }
{
    let mut text = Vec::from_slice(alloc, header)?;
    text.extend_from_slice(b"coroutine main\nend\n")?;
    Ok(text)
}

/// The names of these channels.
fn names_of(alloc: Global, channels: &[Channel]) -> Result<Vec<&[u8]>, AllocError>
    ensures { IfOk result (λ names. texts names.items ≡ map (λ c. string_bytes c.name) channels.now) }
{
    let mut names = Vec::new(alloc);
    for channel in channels {
        names.push(channel.name.as_bytes())?;
    }
    Ok(names)
}

/// The script of these channels.
fn script_of(alloc: Global, header: &[u8]) -> Result<Script, NoInput>
    ensures ok { IfOk result (λ script. Spells (header.now ++ no_coroutine) (program_of script)) }
    ensures err { IfErr result (λ why. IsFaulty why header.now) }
{
    let Ok(text) = script_text(alloc, header) else {
        return Err(NoInput::Memory);
    };
    match read(alloc, text.as_slice()) {
        Ok(script) => Ok(script),
        Err(fault) => match fault.kind {
            FaultKind::Memory => Err(NoInput::Memory),
            _ => Err(NoInput::Fault(fault)),
        },
    }
}

/// The lines of a history of the channels of a script.
fn lines_of(alloc: Global, script: &Script, text: &[u8]) -> Result<Vec<Line>, NoLines>
    requires { length text.now ≤ 67108864 }
    ensures { GivesLines result (history_of (channel_names (program_of script.now).channels) text.now) }
{
    let Ok(names) = names_of(alloc, script.channels()) else {
        return Err(NoLines::Memory);
    };
    lines_in(alloc, names.as_slice(), text)
}

/// The channels that these lines declare, and the lines of this history of them and of so many Jobs.
fn input_of(
    alloc: Global,
    header: &[u8],
    numbers: JobNumbers,
    text: &[u8],
) -> Result<Input, NoInput>
    requires { length text.now ≤ 67108864 }
    ensures numbers { IfOk result (λ input. shape_of input.numbers ≡ shape_of numbers) }
    ensures ok { IfOk result (λ input. IsReadAs input header.now text.now) }
    ensures err { IfErr result (λ why. IsRefusedAs why header.now text.now) }
{
    let script = script_of(alloc, header)?;
    match lines_of(alloc, &script, text) {
        Ok(lines) => Ok(Input {
            script,
            numbers,
            lines,
        }),
        Err(NoLines::AtLine(number)) => Err(NoInput::NoItem(number)),
        Err(NoLines::Memory) => Err(NoInput::Memory),
    }
}

/// Reads the channels that a text declares, and its history of them and of Jobs.
///
/// The lines before the line `history` are those of a script that has channels alone; the first fault of such a script is told, or the
/// number of the first line of the history that is none. The line `history` may go on with the numbers of coroutines and scopes,
/// `history coroutines 3 scopes 1`: together at most 16,000; without them there is the root alone.
#[tactic(auto, using(crate::proofs::Parts::read_of, crate::proofs::Parts::refused_as))]
pub fn read_input(alloc: Global, bytes: &[u8]) -> Result<Input, NoInput>
    requires { length bytes.now ≤ 67108864 }
    ensures ok { IfOk result (λ input. IsRead input bytes.now) }
    ensures err { IfErr result (λ why. IsRefused why bytes.now) }
{
    match cut_at_history(alloc, bytes) {
        Ok(Some((header, numbers, text))) => input_of(alloc, header, numbers, text),
        Ok(None) => Err(NoInput::NoHistory),
        Err(_) => Err(NoInput::Memory),
    }
}
