//! What a script says of its coroutines, and of the lines of a report of it.

ghost use Rattle.std.specs.Prelude.{◌≡◌, ◌≤◌, ◌++◌, ◌∷◌, [], IfOk, OnOk, length, map};
ghost use Rattle.script_reader.specs.Scripts.{program_of};
ghost use Rattle.run_explanation.specs.Answers.{name_of_tag};
ghost use Rattle.run_explanation.specs.Naming.{Names, NamesFor, names_of};

use crate::answer::{Unexplained, blamed};
use crate::entries::name_of_tag;
use crate::fits::lines_for;
use crate::parts::parts_of;
use crate::source::SourceLine;
use crate::story::Story;
use gathered::{Gathered, Text};
use report_reader::{Line, NoReport};
use script_reader::{Script, read};
use std::alloc::{AllocError, Global};

/// The lines of a report, beside what its script says.
#[derive(Drop)]
pub struct Named<'a> {
    /// The lines of the report.
    pub lines: Vec<Line<'a>>,
    /// Of each coroutine, in the order of the tags, the name of its block.
    pub names: Vec<Vec<u8>>,
    /// Of each line of the books, in the order of the report, the line of the script that it was made at, as `line 5: receive a`; empty
    /// where that is not known. It is the line that an explanation names, of which nothing is promised.
    pub sources: Vec<Vec<u8>>,
}

/// Adds the name of a coroutine.
fn push_name(
    alloc: Global,
    names: &mut Vec<Vec<u8>>,
    script: &Script,
    tag: u32,
) -> Result<(), AllocError>
    ensures { OnOk result (map (λ n. n.items) names.new.items
        ≡ map (λ n. n.items) names.old.items ++ name_of_tag (program_of script.now) tag ∷ []) }
{
    let name = Vec::from_slice(alloc, name_of_tag(script, tag).as_bytes())?;
    names.push(name)?;
    Ok(())
}

/// The names of all coroutines.
fn names_of(alloc: Global, script: &Script) -> Result<Vec<Vec<u8>>, AllocError>
    ensures { IfOk result (λ names. map (λ n. n.items) names.items ≡ names_of (program_of script.now)) }
{
    let mut names = Vec::new(alloc);
    let count = u32::from(script.coroutines());
    let mut tag = 0u32;
    while tag < count {
        push_name(alloc, &mut names, script, tag)?;
        tag += 1;
    }
    Ok(names)
}

/// A line of the script with its number; nothing where none is known.
fn text_of(alloc: Global, line: SourceLine<'_>) -> Result<Vec<u8>, AllocError> {
    let mut text = Text::new(alloc);
    if line.is_known() {
        text.add_numbered(b"line ", u64::from(line.number));
        text.add(b": ");
        text.add(line.text);
    }
    text.whole()
}

/// Adds the line of the script that a line of the books was made at.
fn add_source(alloc: Global, sources: &mut Gathered<Vec<u8>>, line: SourceLine<'_>) {
    match text_of(alloc, line) {
        Ok(text) => sources.add(text),
        Err(_) => sources.full = true,
    }
}

/// The lines of the script that the lines of the books were made at.
fn sources_in(alloc: Global, story: &Story<'_>) -> Result<Vec<Vec<u8>>, AllocError> {
    let mut sources = Gathered::new(alloc);
    for note in story.notes() {
        add_source(alloc, &mut sources, story.source_of(note));
    }
    sources.whole()
}

/// The same of these lines of a report of a script with this text.
fn sources_of<'a>(
    alloc: Global,
    script: &'a Script,
    source: &'a [u8],
    lines: &[Line<'a>],
) -> Result<Vec<Vec<u8>>, AllocError> {
    let mut story = Story::new(alloc, script);
    match story.read(alloc, source, lines) {
        Ok(()) => sources_in(alloc, &story),
        Err(fault) => Err(fault),
    }
}

/// These lines of a report, beside what a script with this text says.
fn with_names<'a>(
    alloc: Global,
    script: &Script,
    source: &[u8],
    lines: Vec<Line<'a>>,
) -> Result<Named<'a>, AllocError>
    ensures lines { IfOk result (λ named. named.lines ≡ lines.entry) }
    ensures names { IfOk result (λ named. map (λ n. n.items) named.names.items ≡ names_of (program_of script.now)) }
{
    let sources = sources_of(alloc, script, source, lines.as_slice())?;
    let names = names_of(alloc, script)?;
    Ok(Named {
        lines,
        names,
        sources,
    })
}

/// The lines of a report of a script that was read, beside what that says.
fn named_report<'a>(
    alloc: Global,
    script: &Script,
    source: &[u8],
    report: &'a [u8],
) -> Result<Named<'a>, Unexplained>
    requires { length report.now ≤ 67108864 }
    ensures { NamesFor (program_of script.now) report.now result }
{
    match lines_for(alloc, script, report) {
        Ok(lines) => match with_names(alloc, script, source, lines) {
            Ok(named) => Ok(named),
            Err(_) => Err(Unexplained::Memory),
        },
        Err(NoReport::AtLine(line)) => Err(Unexplained::NoReport(line)),
        Err(NoReport::Memory) => Err(Unexplained::Memory),
    }
}

/// Reads a report of a script, for names: the input is the script, a line `report`, and the report, as for an explanation.
pub fn name_lines(alloc: Global, input: &[u8]) -> Result<Named<'_>, Unexplained>
    requires { length input.now ≤ 67108864 }
    ensures { Names input.now result }
{
    let parts = parts_of(input);
    match read(alloc, parts.script) {
        Ok(script) => named_report(alloc, &script, parts.script, parts.report),
        Err(fault) => Err(blamed(fault)),
    }
}
