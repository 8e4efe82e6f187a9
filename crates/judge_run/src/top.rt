//! The whole call, over any source and sink.

ghost use Rattle.std.specs.Prelude.{◌≡◌, ◌≤◌, IfOk, Some, length, map, string_bytes};
ghost use Rattle.judge_run.specs.Words.{asked_of};
ghost use Rattle.judge_run.specs.Outcomes.{IsJudged, IsJudgedAs, IsMade, IsMadeOf, IsToldAs, IsWritten, Means, said_of, stream};

use crate::outcome::{Outcome, Said};
use crate::reading::read_all;
use crate::texts::text_of;
use crate::words::{Asked, asked_of};
use co_base::{Memory, OpenGate, ReadError, Sink, Source, write_all};
use history_check::{Stood, Verdict, check_input};
use history_text::{Input, NoInput, read_input};
use log_check::{Logged, judge_script, make_log, stood_text};
use script_reader::Channel;
use std::alloc::Global;

/// What is said, and the text that says it.
#[derive(Drop)]
pub struct Answer {
    pub said: Said,
    pub text: Vec<u8>,
}

/// Does what the words ask for, of which the first is the program's name: reads an input, and writes what is said
/// of it, or reads a script, and writes the log of a run of it.
///
/// The order is words, input, answer; the text is made whole before its first byte is written.
pub fn judge_main<S: Source, K: Sink>(
    alloc: Global,
    words: &[String],
    source: &mut S,
    sink: &mut K,
) -> Outcome
    ensures { Means result (asked_of (map string_bytes words.now)) (stream (S.left source.old) (S.faults source.old))
        (stream (S.left source.new) (S.faults source.new)) (stream (K.held sink.old) (K.faults sink.old))
        (stream (K.held sink.new) (K.faults sink.new)) }
{
    match make_answer(alloc, words, source) {
        Ok(answer) => written(sink, &answer),
        Err(outcome) => outcome,
    }
}

/// Writes the answer.
fn written<K: Sink>(sink: &mut K, answer: &Answer) -> Outcome
    ensures { IsWritten result answer.now (stream (K.held sink.old) (K.faults sink.old))
        (stream (K.held sink.new) (K.faults sink.new)) }
{
    match write_all(sink, answer.text.as_slice()) {
        Ok(()) => Outcome::Told(answer.said),
        Err(_) => Outcome::WriteFault,
    }
}

/// Makes the answer that the words ask for.
fn make_answer<S: Source>(
    alloc: Global,
    words: &[String],
    source: &mut S,
) -> Result<Answer, Outcome>
    ensures { IsMade result (asked_of (map string_bytes words.now)) (stream (S.left source.old) (S.faults source.old))
        (stream (S.left source.new) (S.faults source.new)) }
{
    match asked_of(alloc, words) {
        Ok(wanted) => make_if(alloc, wanted, source),
        Err(_) => Err(Outcome::NoMemory),
    }
}

/// Makes the answer, if one is asked for.
fn make_if<S: Source>(
    alloc: Global,
    wanted: Option<Asked>,
    source: &mut S,
) -> Result<Answer, Outcome>
    ensures { IsMade result wanted (stream (S.left source.old) (S.faults source.old))
        (stream (S.left source.new) (S.faults source.new)) }
{
    match wanted {
        Some(request) => read_answer(alloc, request, source),
        None => Err(Outcome::Refused),
    }
}

/// Makes the answer to what the source gives.
fn read_answer<S: Source>(alloc: Global, request: Asked, source: &mut S) -> Result<Answer, Outcome>
    ensures { IsMade result (Some request) (stream (S.left source.old) (S.faults source.old))
        (stream (S.left source.new) (S.faults source.new)) }
{
    match read_all(alloc, source) {
        Ok(bytes) => answer_to(alloc, request, bytes.as_slice()),
        Err(ReadError::TooLong) => Err(Outcome::TooLong),
        Err(ReadError::ReadFault) => Err(Outcome::ReadFault),
        Err(ReadError::Memory) => Err(Outcome::NoMemory),
    }
}

/// Makes the answer to these bytes.
fn answer_to(alloc: Global, request: Asked, bytes: &[u8]) -> Result<Answer, Outcome>
    requires { length bytes.now ≤ 67108864 }
    ensures { IsMadeOf request bytes.now result }
{
    match request {
        Asked::Verdict => answer_of(alloc, bytes),
        Asked::Log(seed) => log_answer(alloc, bytes, seed),
    }
}

/// Makes the log of a run of the script that these bytes spell.
fn log_answer(alloc: Global, bytes: &[u8], seed: u32) -> Result<Answer, Outcome>
    ensures { IsMadeOf (Asked.Log seed) bytes.now result }
{
    match make_log(alloc, bytes, seed, &OpenGate) {
        Ok(Logged::Log(text, root)) => Ok(Answer {
            said: Said::Logged(root),
            text,
        }),
        Ok(Logged::NotShown) => told(alloc, Said::NotLogged, &[]),
        Ok(Logged::Fault(fault)) => told(alloc, Said::NoScript(fault), &[]),
        Err(_) => Err(Outcome::NoMemory),
    }
}

/// Makes the answer to these bytes: of a script with a log or a report, or of a history.
fn answer_of(alloc: Global, bytes: &[u8]) -> Result<Answer, Outcome>
    requires { length bytes.now ≤ 67108864 }
    ensures { IsMadeOf Asked.Verdict bytes.now result }
{
    match judge_script(alloc, bytes, &OpenGate) {
        Ok(Some(judged)) => told(
            alloc,
            Said::OfScript(judged.verdict),
            judged.hint.as_slice(),
        ),
        Ok(None) => history_answer(alloc, bytes),
        Err(_) => Err(Outcome::NoMemory),
    }
}

/// Makes the answer to a history.
fn history_answer(alloc: Global, bytes: &[u8]) -> Result<Answer, Outcome>
    requires { length bytes.now ≤ 67108864 }
    ensures { IsMadeOf Asked.Verdict bytes.now result }
{
    match read_input(alloc, bytes) {
        Ok(input) => judged(alloc, &input),
        Err(NoInput::NoHistory) => Err(Outcome::NoHistory),
        Err(NoInput::Fault(fault)) => told(alloc, Said::Fault(fault), &[]),
        Err(NoInput::NoItem(line)) => told(alloc, Said::NoItem(line), &[]),
        Err(NoInput::Memory) => Err(Outcome::NoMemory),
    }
}

/// An answer with a hint.
fn told(alloc: Global, said: Said, hint: &[u8]) -> Result<Answer, Outcome>
    ensures { IsToldAs said result }
{
    match text_of(alloc, said, hint) {
        Ok(text) => Ok(Answer { said, text }),
        Err(_) => Err(Outcome::NoMemory),
    }
}

/// What a verdict says.
fn said_of(verdict: Verdict) -> Said
    ensures { result ≡ said_of verdict }
{
    match verdict {
        Verdict::Legal => Said::Legal,
        Verdict::MayNotCome(line) => Said::MayNotCome(line),
        Verdict::NotSo(line) => Said::NotSo(line),
    }
}

/// Checks the history, and makes the answer.
fn judged(alloc: Global, input: &Input) -> Result<Answer, Outcome>
    ensures { IsJudged input.now result }
{
    match judged_answer(alloc, input) {
        Ok(answer) => Ok(answer),
        Err(_) => Err(Outcome::NoMemory),
    }
}

/// The same, or want of memory.
fn judged_answer(alloc: Global, input: &Input) -> Result<Answer, Memory>
    ensures { IfOk result (IsJudgedAs input.now) }
{
    let judgement = check_input(alloc, input)?;
    let said = said_of(judgement.verdict);
    let hint = hint_of(alloc, input.script.channels(), judgement.stood)?;
    let text = text_of(alloc, said, hint.as_slice())?;
    Ok(Answer { said, text })
}

/// What stood at the channel or the Job of the line where a history stops, in words.
fn hint_of(alloc: Global, channels: &[Channel], stood: Option<Stood>) -> Result<Vec<u8>, Memory> {
    match stood {
        Some(stood) => stood_text(alloc, channels, stood),
        None => Ok(Vec::new(alloc)),
    }
}
