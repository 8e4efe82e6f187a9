//! The whole call, over any source and sink.

ghost use Rattle.std.specs.Prelude.{◌≡◌, ◌≢◌, IfErr, IfOk, Some, map, string_bytes};
ghost use Rattle.script_grammar.specs.Grammar.{Spells};
ghost use Rattle.script_grammar.specs.declared.fault.FaultKind.TheVariants.{Memory as NoMemory};
ghost use Rattle.script_reader.specs.Scripts.{program_of};
ghost use Rattle.run_explore.specs.Words.{asked_of, ends, in_order, report_of, request_of};
ghost use Rattle.run_explore.specs.Outcomes.{IsMade, IsMadeOf, IsWritten, Means, stream};
ghost use Rattle.run_explore.specs.declared.outcome.Ending.TheVariants.{NoScript, Ran};
ghost use Rattle.run_explore.specs.declared.outcome.Outcome.TheVariants as outcomes;

use crate::outcome::{Ending, Outcome};
use crate::words::{Asked, asked_of};
use co_base::{Memory, OpenGate, ReadError, Sink, Source, Tag, read_script, write_all};
use end_search::{Limit, Report, explore, report_in_order, report_of_end};
use run_report::fault_line;
use script_grammar::{FaultKind, ScriptFault};
use script_reader::{Script, read};
use std::alloc::Global;
use std::thread::Threads;

/// What is to be written, and how the call then ends.
#[derive(Drop)]
pub struct Answer {
    pub ending: Ending,
    pub text: Vec<u8>,
}

/// Tells the ends of the script that the source gives, or what else the words ask for, of which the first is the program's name.
///
/// The order is words, script, search; the text is made whole before its first byte is written. A long search says to `errors` how far it
/// is.
pub fn explore_main<R: Threads + Sync, S: Source, K: Sink, E: Sink>(
    rt: &R,
    alloc: Global,
    words: &[String],
    source: &mut S,
    sink: &mut K,
    errors: &mut E,
) -> Outcome
    ensures { Means result (asked_of (map string_bytes words.now)) (stream (S.left source.old) (S.faults source.old))
        (stream (S.left source.new) (S.faults source.new)) (stream (K.held sink.old) (K.faults sink.old))
        (stream (K.held sink.new) (K.faults sink.new)) }
{
    match make_answer(rt, alloc, words, source, errors) {
        Ok(answer) => written(sink, &answer),
        Err(outcome) => outcome,
    }
}

/// Writes the answer.
fn written<K: Sink>(sink: &mut K, answer: &Answer) -> Outcome
    ensures { IsWritten result answer.now (stream (K.held sink.old) (K.faults sink.old))
        (stream (K.held sink.new) (K.faults sink.new)) }
{
    match write_all(sink, answer.text.as_slice()) {
        Ok(()) => Outcome::Written(answer.ending),
        Err(_) => Outcome::WriteFault,
    }
}

/// Makes what the words ask for.
fn make_answer<R: Threads + Sync, S: Source, E: Sink>(
    rt: &R,
    alloc: Global,
    words: &[String],
    source: &mut S,
    errors: &mut E,
) -> Result<Answer, Outcome>
    ensures { IsMade result (asked_of (map string_bytes words.now)) (stream (S.left source.old) (S.faults source.old))
        (stream (S.left source.new) (S.faults source.new)) }
{
    match asked_of(alloc, words) {
        Ok(Some(asked)) => read_answer(rt, alloc, asked, source, errors),
        Ok(None) => Err(Outcome::Refused),
        Err(_) => Err(Outcome::NoMemory),
    }
}

/// Makes what is asked for of what the source gives.
fn read_answer<R: Threads + Sync, S: Source, E: Sink>(
    rt: &R,
    alloc: Global,
    asked: Asked,
    source: &mut S,
    errors: &mut E,
) -> Result<Answer, Outcome>
    ensures { IsMade result (Some (request_of asked)) (stream (S.left source.old) (S.faults source.old))
        (stream (S.left source.new) (S.faults source.new)) }
{
    match read_script(alloc, source) {
        Ok(bytes) => answer_of(rt, alloc, asked, bytes.as_slice(), errors),
        Err(ReadError::TooLong) => too_long(alloc),
        Err(ReadError::ReadFault) => Err(Outcome::ReadFault),
        Err(ReadError::Memory) => Err(Outcome::NoMemory),
    }
}

/// Makes what is asked for of a text.
fn answer_of<R: Threads + Sync, E: Sink>(
    rt: &R,
    alloc: Global,
    asked: Asked,
    bytes: &[u8],
    errors: &mut E,
) -> Result<Answer, Outcome>
    ensures { IsMadeOf (request_of asked) bytes.now result }
{
    match read(alloc, bytes) {
        Ok(script) => script_answer(rt, alloc, asked, &script, bytes, errors),
        Err(fault) => match fault.kind {
            FaultKind::Memory => Err(Outcome::NoMemory),
            _ => fault_answer(alloc, &fault),
        },
    }
}

/// Makes what is asked for of a script, and of its text.
fn script_answer<R: Threads + Sync, E: Sink>(
    rt: &R,
    alloc: Global,
    asked: Asked,
    script: &Script,
    bytes: &[u8],
    errors: &mut E,
) -> Result<Answer, Outcome>
    requires { Spells bytes.now (program_of script.now) }
    ensures { IsMadeOf (request_of asked) bytes.now result }
{
    match asked {
        Asked::Ends(limit) => ends_answer(rt, alloc, limit, script, bytes, errors),
        Asked::Report(number, limit) => end_answer(rt, alloc, number, limit, script, bytes, errors),
        Asked::Order(order) => order_answer(alloc, order.as_slice(), script, bytes),
    }
}

/// Tells the ends.
fn ends_answer<R: Threads + Sync, E: Sink>(
    rt: &R,
    alloc: Global,
    limit: Limit,
    script: &Script,
    bytes: &[u8],
    errors: &mut E,
) -> Result<Answer, Outcome>
    requires { Spells bytes.now (program_of script.now) }
    ensures { IsMadeOf (ends limit) bytes.now result }
{
    match explore(rt, alloc, script, bytes, limit, &OpenGate, errors) {
        Ok(explored) => Ok(Answer {
            ending: Ending::Searched(explored.verdict),
            text: explored.text,
        }),
        Err(_) => Err(Outcome::NoMemory),
    }
}

/// Reports the end with this number.
fn end_answer<R: Threads + Sync, E: Sink>(
    rt: &R,
    alloc: Global,
    number: u32,
    limit: Limit,
    script: &Script,
    bytes: &[u8],
    errors: &mut E,
) -> Result<Answer, Outcome>
    requires { Spells bytes.now (program_of script.now) }
    ensures { IsMadeOf (report_of number limit) bytes.now result }
{
    match report_of_end(rt, alloc, script, bytes, limit, number, &OpenGate, errors) {
        Ok(Some(report)) => Ok(answer_by(report)),
        Ok(None) => Err(Outcome::NoEnd),
        Err(_) => Err(Outcome::NoMemory),
    }
}

/// Reports the run in this order.
fn order_answer(
    alloc: Global,
    order: &[Tag],
    script: &Script,
    bytes: &[u8],
) -> Result<Answer, Outcome>
    requires { Spells bytes.now (program_of script.now) }
    ensures { IsMadeOf (in_order order.now) bytes.now result }
{
    match report_in_order(alloc, script, order, &OpenGate) {
        Ok(report) => Ok(answer_by(report)),
        Err(_) => Err(Outcome::NoMemory),
    }
}

/// The report as the answer.
fn answer_by(report: Report) -> Answer
    ensures ending { result.ending ≡ Ran report.root }
    ensures text { result.text ≡ report.text }
{
    Answer {
        ending: Ending::Ran(report.root),
        text: report.text,
    }
}

/// What is answered to a text that is no script.
fn fault_answer(alloc: Global, fault: &ScriptFault) -> Result<Answer, Outcome>
    requires { fault.now.kind ≢ NoMemory }
    ensures ending { IfOk result (λ answer. answer.ending ≡ NoScript) }
    ensures memory { IfErr result (λ outcome. outcome ≡ outcomes.NoMemory) }
{
    match fault_line(alloc, fault) {
        Ok(text) => Ok(Answer {
            ending: Ending::NoScript,
            text,
        }),
        Err(_) => Err(Outcome::NoMemory),
    }
}

/// What is answered to more bytes than a script may have.
fn too_long(alloc: Global) -> Result<Answer, Outcome>
    ensures ending { IfOk result (λ answer. answer.ending ≡ NoScript) }
    ensures memory { IfErr result (λ outcome. outcome ≡ outcomes.NoMemory) }
{
    let fault = ScriptFault {
        line: 1,
        kind: FaultKind::TooMany,
    };
    fault_answer(alloc, &fault)
}
