//! Calls of the command line over sources and sinks in memory, and the lines of a report that a row tells of.

ghost use Rattle.std.specs.Prelude.{◌≤◌};

use co_base::{Gate, Memory, MemorySink, MemorySource, OpenGate};
use command_line::{coroutine_main, coroutine_main_alone};
use std::alloc::Global;
use std::sync::Wait;
use std::test::Fail;
use std::thread::Threads;

/// One sender and one receiver.
pub(crate) const RENDEZVOUS: &str = "\
channel a rendezvous
coroutine p
send a 5
end
coroutine c
receive a
end
coroutine main
end
spawn p
spawn c
";

/// The words of a run by one worker.
pub(crate) const ONE_WORKER: &str = "run --workers 1";

/// What such a run of it is answered with.
pub(crate) const RENDEZVOUS_ANSWER: &str = "\
0 report
0 attach 1 to 0 tag 1 plain
0 attach 2 to 0 tag 2 plain
0 endbody 0 0
1 offer a 0 5 a.0 0
1 settle a.0 sent 0
1 endbody 1 0
1 finish 1 completed 0
1 close @1 0
1 gone 1
1 finish 0 completed 0
1 close @0 0
2 take a 0 5
2 endbody 2 0
2 finish 2 completed 0
2 close @2 0
2 gone 2
job 0 completed 0
job 1 completed 0
job 2 completed 0
";

/// How a source gives and a sink takes: so many bytes in each call, and the calls that fail.
#[derive(Clone, Copy)]
pub(crate) struct Pace<'a> {
    pub(crate) step: u32,
    pub(crate) fails: &'a [u32],
}

pub(crate) const AT_ONCE: Pace<'static> = Pace {
    step: 2_000_000,
    fails: &[],
};

/// The words of a line.
fn words_of(alloc: Global, line: &str) -> Result<Vec<String>, Memory> {
    let mut words = Vec::new(alloc);
    for word in line.split(' ') {
        if !word.is_empty() {
            words.push(String::from_str(alloc, word)?)?;
        }
    }
    Ok(words)
}

/// The status, and what the sink holds, of a call with the words of a line at this gate.
pub(crate) fn answer<R: Threads + Wait + Sync, G: Gate + Sync>(
    rt: &R,
    alloc: Global,
    words: &str,
    script: &[u8],
    given: Pace<'_>,
    taken: Pace<'_>,
    gate: &G,
) -> Result<(u8, Vec<u8>), Memory>
    requires given { 1 ≤ given.step }
    requires taken { 1 ≤ taken.step }
{
    let list = words_of(alloc, words)?;
    let mut source = MemorySource::new(alloc, script, given.step, given.fails)?;
    let mut sink = MemorySink::new(alloc, taken.step, taken.fails)?;
    let status = coroutine_main(rt, alloc, list.as_slice(), &mut source, &mut sink, gate);
    let text = Vec::from_slice(alloc, sink.bytes())?;
    Ok((status, text))
}

/// The same of the call that has no threads, where nothing fails and nobody is held.
fn answer_alone(alloc: Global, words: &str, script: &[u8]) -> Result<(u8, Vec<u8>), Memory> {
    let list = words_of(alloc, words)?;
    let mut source = MemorySource::new(alloc, script, AT_ONCE.step, AT_ONCE.fails)?;
    let mut sink = MemorySink::new(alloc, AT_ONCE.step, AT_ONCE.fails)?;
    let status = coroutine_main_alone(alloc, list.as_slice(), &mut source, &mut sink, &OpenGate);
    let text = Vec::from_slice(alloc, sink.bytes())?;
    Ok((status, text))
}

/// Appends a line to a text.
pub(crate) fn push_line(text: &mut String, line: &str) -> Result<(), Memory> {
    text.push_str(line)?;
    text.push('\n')?;
    Ok(())
}

/// A text before and behind the first of these characters; all of it before, if there is none.
pub(crate) fn cut(text: &str, at: char) -> (&str, &str) {
    match text.split_once(at) {
        Some(cut) => cut,
        None => (text, ""),
    }
}

/// Whether a text has this character.
fn has(text: &str, what: char) -> bool {
    text.split_once(what).is_some()
}

/// The first so many bytes.
pub(crate) fn first(bytes: &[u8], count: usize) -> Option<&[u8]> {
    bytes.get(..count)
}

/// The second words of the lines that tell of Jobs.
const OF_JOBS: [&str; 8] = [
    "attach ", "start ", "endbody ", "cancel ", "finish ", "gone ", "sawend ", "fail ",
];

/// Whether a text begins with one of these.
fn begins_with_one(text: &str, fronts: &[&str]) -> bool {
    for front in fronts {
        if text.starts_with(*front) {
            return true;
        }
    }
    false
}

/// Whether a line of a report tells of Jobs alone.
fn tells_of_jobs(line: &str) -> bool {
    if line.starts_with("job ") || has(line, '@') {
        return true;
    }
    let (_tag, rest) = cut(line, ' ');
    begins_with_one(rest, &OF_JOBS)
}

/// Whether a row tells of a line, where it tells of these lines.
fn is_told(told: &str, line: &str) -> bool {
    match told {
        "channels" => !tells_of_jobs(line),
        "channels-and-jobs" => !tells_of_jobs(line) || line.starts_with("job "),
        "jobs" => line.starts_with("job "),
        "but-book-2" => !line.starts_with("2 "),
        "none" => false,
        _ => true,
    }
}

/// The lines of a text that a row tells of: of `report` the text itself.
fn told_of(alloc: Global, told: &str, text: &str) -> Result<String, Memory> {
    if told == "report" {
        return Ok(String::from_str(alloc, text)?);
    }
    let mut lines = String::new(alloc);
    for line in text.lines() {
        if is_told(told, line) {
            push_line(&mut lines, line)?;
        }
    }
    Ok(lines)
}

/// The word of an answer that says of which lines it tells.
pub(crate) fn told_by(answer: &str) -> &str {
    let (words, _lines) = cut(answer, '\n');
    let (_status, told) = cut(words, ' ');
    told
}

/// What a call is answered with, as a row says it: its status, which lines it tells of, and these lines.
pub(crate) fn in_a_row(
    alloc: Global,
    status: u8,
    told: &str,
    written: &[u8],
) -> Result<String, Fail> {
    let text = told_of(alloc, told, str::from_utf8(written)?)?;
    Ok(format!(in alloc; "{status} {told}\n{text}")?)
}

/// What a call is answered with, where nothing fails and nobody is held.
pub(crate) fn found<R: Threads + Wait + Sync>(
    rt: &R,
    alloc: Global,
    words: &str,
    script: &[u8],
    told: &str,
) -> Result<String, Fail> {
    let (status, written) = answer(rt, alloc, words, script, AT_ONCE, AT_ONCE, &OpenGate)?;
    in_a_row(alloc, status, told, written.as_slice())
}

/// What the call that has no threads is answered with.
pub(crate) fn found_alone(alloc: Global, words: &str, script: &[u8]) -> Result<String, Fail> {
    let (status, written) = answer_alone(alloc, words, script)?;
    in_a_row(alloc, status, "report", written.as_slice())
}
