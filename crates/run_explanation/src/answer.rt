//! What a report of a script comes to, in words.

ghost use Rattle.std.specs.Prelude.{◌≡◌, ◌≤◌, IfOk, length, map};
ghost use Rattle.std.specs.List.{flat_map};
ghost use Rattle.script_reader.specs.Scripts.{program_of};
ghost use Rattle.report_reader.specs.Reading.{told_lines};
ghost use Rattle.run_explanation.specs.Answers.{Blames, Explains, Gives, GivesFor, TellsWaits, WaitsOf, calm_text, headed, left_open, wait_line, waits_text};
ghost use Rattle.run_explanation.specs.Fitting.{lines_for};
ghost use Rattle.run_explanation.specs.Waiting.{waiting};

use crate::classes::Class;
use crate::entries::{Entry, push_class, push_entries, push_wait_lines, push_waits};
use crate::fits::lines_for;
use crate::parts::parts_of;
use crate::story::Story;
use crate::waiting::waiting;
use report_reader::{Line, NoReport};
use script_grammar::{FaultKind, ScriptFault};
use script_reader::{Script, read};
use std::alloc::{AllocError, Global};

/// Why an input gets no explanation.
#[derive(Clone, Copy)]
pub enum Unexplained {
    /// The text before the line `report` is no script: its first line at fault.
    NoScript(ScriptFault),
    /// What stands behind it is no report of this script: the number of its first line that cannot be one.
    NoReport(u32),
    /// No memory was found.
    Memory,
}

/// The entries of what did not come to its end.
fn left_open<'a>(
    alloc: Global,
    script: &Script,
    story: &Story<'a>,
    waits: &[u32],
    lines: &[Line<'a>],
) -> Result<Vec<Entry>, AllocError>
    requires { waits.now ≡ waiting (told_lines lines.now) }
    ensures { IfOk result (λ entries. headed entries.items ≡ left_open (program_of script.now) (told_lines lines.now)) }
{
    let mut entries = Vec::new(alloc);
    push_waits(alloc, &mut entries, script, story, waits)?;
    push_class(
        alloc,
        &mut entries,
        script,
        story,
        waits,
        Class::Unfinished,
        lines,
    )?;
    push_class(
        alloc,
        &mut entries,
        script,
        story,
        waits,
        Class::Lost,
        lines,
    )?;
    Ok(entries)
}

/// The line of a run of which nothing is left open; nothing else.
fn calm_text(alloc: Global, entries: &[Entry]) -> Result<Vec<u8>, AllocError>
    ensures { IfOk result (λ text. text.items ≡ calm_text (headed entries.now)) }
{
    match entries {
        [] => Vec::from_slice(
            alloc,
            b"all coroutines ended, and every element was received\n",
        ),
        [_, ..] => Ok(Vec::new(alloc)),
    }
}

/// The explanation of a report with these lines.
fn explained<'a>(
    alloc: Global,
    script: &Script,
    story: &Story<'a>,
    waits: &[u32],
    lines: &[Line<'a>],
) -> Result<Vec<u8>, AllocError>
    requires { waits.now ≡ waiting (told_lines lines.now) }
    ensures { IfOk result (λ text. Explains (program_of script.now) (told_lines lines.now) text.items) }
{
    let mut entries = left_open(alloc, script, story, waits, lines)?;
    let mut text = calm_text(alloc, entries.as_slice())?;
    push_class(
        alloc,
        &mut entries,
        script,
        story,
        waits,
        Class::Failed,
        lines,
    )?;
    push_entries(&mut text, entries.as_slice())?;
    Ok(text)
}

/// The explanation of a report of a script that was read.
fn explain_report(
    alloc: Global,
    script: &Script,
    source: &[u8],
    report: &[u8],
) -> Result<Vec<u8>, Unexplained>
    requires { length report.now ≤ 67108864 }
    ensures { GivesFor (program_of script.now) report.now result }
{
    match lines_for(alloc, script, report) {
        Ok(lines) => match told(alloc, script, source, lines.as_slice()) {
            Ok(text) => Ok(text),
            Err(_) => Err(Unexplained::Memory),
        },
        Err(NoReport::AtLine(line)) => Err(Unexplained::NoReport(line)),
        Err(NoReport::Memory) => Err(Unexplained::Memory),
    }
}

/// The explanation of a report with these lines of a script with this text.
fn told<'a>(
    alloc: Global,
    script: &'a Script,
    source: &'a [u8],
    lines: &[Line<'a>],
) -> Result<Vec<u8>, AllocError>
    ensures { IfOk result (λ text. Explains (program_of script.now) (told_lines lines.now) text.items) }
{
    let mut story = Story::new(alloc, script);
    told_by(alloc, script, &mut story, source, lines)
}

/// The same, with a story to be read.
fn told_by<'a>(
    alloc: Global,
    script: &Script,
    story: &mut Story<'a>,
    source: &'a [u8],
    lines: &[Line<'a>],
) -> Result<Vec<u8>, AllocError>
    ensures { IfOk result (λ text. Explains (program_of script.now) (told_lines lines.now) text.items) }
{
    story.read(alloc, source, lines)?;
    let waits = waiting(alloc, lines)?;
    explained(alloc, script, story, waits.as_slice(), lines)
}

/// What a fault of the script is told as.
pub(crate) fn blamed(fault: ScriptFault) -> Unexplained
    ensures { Blames fault result }
{
    match fault.kind {
        FaultKind::Memory => Unexplained::Memory,
        _ => Unexplained::NoScript(fault),
    }
}

/// Says in words what a report of a script comes to: the input is the script, a line `report`, and the report.
pub fn explain(alloc: Global, input: &[u8]) -> Result<Vec<u8>, Unexplained>
    requires { length input.now ≤ 67108864 }
    ensures { Gives input.now result }
{
    let parts = parts_of(input);
    match read(alloc, parts.script) {
        Ok(script) => explain_report(alloc, &script, parts.script, parts.report),
        Err(fault) => Err(blamed(fault)),
    }
}

/// Says of a report of a script, of which this is the text, which coroutines it leaves waiting: `  worker 3 waits at line 5: receive a`.
/// Nothing, if the report is none of this script.
pub fn explain_waits(
    alloc: Global,
    script: &Script,
    source: &[u8],
    report: &[u8],
) -> Result<Vec<u8>, AllocError>
    requires { length report.now ≤ 67108864 }
    ensures { IfOk result (λ text. WaitsOf (program_of script.now) (lines_for (program_of script.now) report.now) text.items) }
{
    match lines_for(alloc, script, report) {
        Ok(lines) => told_waits(alloc, script, source, lines.as_slice()),
        Err(NoReport::AtLine(_)) => Ok(Vec::new(alloc)),
        Err(NoReport::Memory) => Err(AllocError),
    }
}

/// The same of a report with these lines.
fn told_waits<'a>(
    alloc: Global,
    script: &'a Script,
    source: &'a [u8],
    lines: &[Line<'a>],
) -> Result<Vec<u8>, AllocError>
    ensures { IfOk result (λ text. TellsWaits (program_of script.now) (told_lines lines.now) text.items) }
{
    let mut story = Story::new(alloc, script);
    told_waits_by(alloc, script, &mut story, source, lines)
}

/// The same, with a story to be read.
fn told_waits_by<'a>(
    alloc: Global,
    script: &Script,
    story: &mut Story<'a>,
    source: &'a [u8],
    lines: &[Line<'a>],
) -> Result<Vec<u8>, AllocError>
    ensures { IfOk result (λ text. TellsWaits (program_of script.now) (told_lines lines.now) text.items) }
{
    story.read(alloc, source, lines)?;
    let entries = waits_in(alloc, script, story, lines)?;
    wait_lines(alloc, entries.as_slice())
}

/// The text of entries, each on one line.
fn wait_lines(alloc: Global, entries: &[Entry]) -> Result<Vec<u8>, AllocError>
    ensures { IfOk result (λ text. text.items ≡ flat_map wait_line entries.now) }
{
    let mut text = Vec::new(alloc);
    push_wait_lines(&mut text, entries)?;
    Ok(text)
}

/// The entries of the coroutines that wait.
fn waits_in<'a>(
    alloc: Global,
    script: &Script,
    story: &Story<'a>,
    lines: &[Line<'a>],
) -> Result<Vec<Entry>, AllocError>
    ensures { IfOk result (λ entries. headed entries.items ≡ map (waits_text (program_of script.now)) (waiting (told_lines lines.now))) }
{
    let waits = waiting(alloc, lines)?;
    let mut entries = Vec::new(alloc);
    push_waits(alloc, &mut entries, script, story, waits.as_slice())?;
    Ok(entries)
}
