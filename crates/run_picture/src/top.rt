//! The whole call, over any source and sink.

ghost use Rattle.std.specs.Prelude.{◌≡◌, ◌≤◌, nat_lt, IfOk, Some, length, map, string_bytes, false, true};
ghost use Rattle.report_reader.specs.Reading.{told_lines};
ghost use Rattle.run_picture.specs.Words.{asked_of};
ghost use Rattle.run_picture.specs.Outcomes.{IsMade, IsMadeOf, IsMadeFor, Depicts, IsWritten, Means, ShowsLines, Traces, called, stream};
ghost use Rattle.run_explanation.specs.Naming.{names_in};
ghost use Rattle.run_picture.specs.declared.words.Format.TheVariants.{Mermaid, Svg};

use crate::outcome::{Outcome, Shown};
use crate::reading::read_report;
use crate::words::{Asked, Format, asked_of};
use co_base::{Memory, ReadError, Sink, Source, write_all};
use picture_parts::Names;
use report_picture::{Drawing, Wanted, draw, mermaid, svg, trace_of, trace_text};
use report_reader::{Line, NoReport, read};
use run_explanation::{Named, Unexplained, name_lines};
use std::alloc::Global;

/// A picture as a text, and how far it shows the report.
#[derive(Drop)]
pub struct Answer {
    pub shown: Shown,
    pub text: Vec<u8>,
}

/// Draws what the words ask for, of which the first is the program's name: reads a report from the source, and writes a picture of it.
///
/// The order is words, report, picture; the text is made whole before its first byte is written.
pub fn picture_main<S: Source, K: Sink>(
    alloc: Global,
    words: &[String],
    source: &mut S,
    sink: &mut K,
) -> Outcome
    ensures { Means result (asked_of (map string_bytes words.now)) (stream (S.left source.old) (S.faults source.old))
        (stream (S.left source.new) (S.faults source.new)) (stream (K.held sink.old) (K.faults sink.old))
        (stream (K.held sink.new) (K.faults sink.new)) }
{
    match make_answer(alloc, words, source) {
        Ok(answer) => written(sink, &answer),
        Err(outcome) => outcome,
    }
}

/// Writes the picture.
fn written<K: Sink>(sink: &mut K, answer: &Answer) -> Outcome
    ensures { IsWritten result answer.now (stream (K.held sink.old) (K.faults sink.old))
        (stream (K.held sink.new) (K.faults sink.new)) }
{
    match write_all(sink, answer.text.as_slice()) {
        Ok(()) => Outcome::Drawn(answer.shown),
        Err(_) => Outcome::WriteFault,
    }
}

/// Makes the picture that the words ask for.
fn make_answer<S: Source>(
    alloc: Global,
    words: &[String],
    source: &mut S,
) -> Result<Answer, Outcome>
    ensures { IsMade result (asked_of (map string_bytes words.now)) (stream (S.left source.old) (S.faults source.old))
        (stream (S.left source.new) (S.faults source.new)) }
{
    match asked_of(alloc, words) {
        Ok(Some(asked)) => read_answer(alloc, asked, source),
        Ok(None) => Err(Outcome::Refused),
        Err(_) => Err(Outcome::NoMemory),
    }
}

/// Makes the picture that is asked for of what the source gives.
fn read_answer<S: Source>(alloc: Global, asked: Asked, source: &mut S) -> Result<Answer, Outcome>
    ensures { IsMade result (Some asked) (stream (S.left source.old) (S.faults source.old))
        (stream (S.left source.new) (S.faults source.new)) }
{
    match read_report(alloc, source) {
        Ok(bytes) => answer_of(alloc, asked, bytes.as_slice()),
        Err(ReadError::TooLong) => Err(Outcome::TooLong),
        Err(ReadError::ReadFault) => Err(Outcome::ReadFault),
        Err(ReadError::Memory) => Err(Outcome::NoMemory),
    }
}

/// Makes the picture of a text, if it is a report, or a script and a report of it.
fn answer_of(alloc: Global, asked: Asked, bytes: &[u8]) -> Result<Answer, Outcome>
    requires { length bytes.now ≤ 67108864 }
    ensures { IsMadeOf asked bytes.now result }
{
    if asked.script {
        named_answer(alloc, asked, bytes)
    } else {
        plain_answer(alloc, asked, bytes)
    }
}

/// Makes the picture of a text, if it is a report.
fn plain_answer(alloc: Global, asked: Asked, bytes: &[u8]) -> Result<Answer, Outcome>
    requires { length bytes.now ≤ 67108864 }
    ensures { IsMadeFor false asked bytes.now result }
{
    match read(alloc, bytes) {
        Ok(lines) => match picture_of(alloc, asked, Names::none(), lines.as_slice()) {
            Ok(answer) => Ok(answer),
            Err(_) => Err(Outcome::NoMemory),
        },
        Err(NoReport::AtLine(line)) => Err(Outcome::NoReport(line)),
        Err(NoReport::Memory) => Err(Outcome::NoMemory),
    }
}

/// Makes the picture of a text, if it is a script and a report of it.
fn named_answer(alloc: Global, asked: Asked, bytes: &[u8]) -> Result<Answer, Outcome>
    requires { length bytes.now ≤ 67108864 }
    ensures { IsMadeFor true asked bytes.now result }
{
    match name_lines(alloc, bytes) {
        Ok(named) => match named_picture(alloc, asked, &named) {
            Ok(answer) => Ok(answer),
            Err(_) => Err(Outcome::NoMemory),
        },
        Err(Unexplained::NoScript(fault)) => Err(Outcome::NoScript(fault)),
        Err(Unexplained::NoReport(line)) => Err(Outcome::NotOfScript(line)),
        Err(Unexplained::Memory) => Err(Outcome::NoMemory),
    }
}

/// Makes the picture of a report with the names of its script.
fn named_picture(alloc: Global, asked: Asked, named: &Named) -> Result<Answer, Memory>
    ensures { IfOk result (λ answer.
        ShowsLines asked answer.shown (names_in named.now) (told_lines named.now.lines.items) answer.text.items) }
{
    let names = Names {
        blocks: named.names.as_slice(),
        sources: named.sources.as_slice(),
    };
    let answer = picture_of(alloc, asked, names, named.lines.as_slice())?;
    Ok(answer)
}

/// Makes the picture of a report with these lines.
fn picture_of<'a>(
    alloc: Global,
    asked: Asked,
    names: Names<'a>,
    lines: &[Line<'a>],
) -> Result<Answer, Memory>
    ensures { IfOk result (λ answer.
        ShowsLines asked answer.shown (called names.entry) (told_lines lines.now) answer.text.items) }
{
    match asked.format {
        Format::Svg => drawn(alloc, asked.wanted, names, lines),
        Format::Mermaid => diagram(alloc, asked.wanted, names, lines),
        Format::Trace => traced(alloc, asked.wanted, names, lines),
    }
}

/// How far a picture shows the report.
fn shown_by(drawing: &Drawing) -> Shown
    ensures order { result.in_order ≡ drawing.now.in_order }
    ensures all { result.all ≡ drawing.now.all }
    ensures large { result.large ≡ nat_lt 2000 (length drawing.now.picture.lines.items) }
{
    Shown {
        in_order: drawing.in_order,
        all: drawing.all,
        large: 2000 < drawing.picture.lines.len(),
    }
}

/// A picture as an SVG document.
fn drawn<'a>(
    alloc: Global,
    wanted: Wanted,
    names: Names<'a>,
    lines: &[Line<'a>],
) -> Result<Answer, Memory>
    ensures { IfOk result (λ answer. Depicts Svg wanted answer.shown (called names.entry) (told_lines lines.now) answer.text.items) }
{
    let drawing = draw(alloc, wanted, names, lines)?;
    let text = svg(alloc, &drawing.picture)?;
    let shown = shown_by(&drawing);
    Ok(Answer { shown, text })
}

/// A picture as a sequence diagram.
fn diagram<'a>(
    alloc: Global,
    wanted: Wanted,
    names: Names<'a>,
    lines: &[Line<'a>],
) -> Result<Answer, Memory>
    ensures { IfOk result (λ answer. Depicts Mermaid wanted answer.shown (called names.entry) (told_lines lines.now) answer.text.items) }
{
    let drawing = draw(alloc, wanted, names, lines)?;
    let text = mermaid(alloc, &drawing.picture)?;
    let shown = shown_by(&drawing);
    Ok(Answer { shown, text })
}

/// A trace.
fn traced<'a>(
    alloc: Global,
    wanted: Wanted,
    names: Names<'a>,
    lines: &[Line<'a>],
) -> Result<Answer, Memory>
    ensures { IfOk result (λ answer. Traces wanted answer.shown (called names.entry) (told_lines lines.now) answer.text.items) }
{
    let tracing = trace_of(alloc, wanted, names, lines)?;
    let text = trace_text(alloc, &tracing.trace)?;
    let shown = Shown {
        in_order: tracing.in_order,
        all: true,
        large: false,
    };
    Ok(Answer { shown, text })
}
