//! The worked rows, over sources and sinks in memory.

ghost use Rattle.std.specs.Prelude.{◌≤◌};

use crate::await_rows::AWAIT_ROWS;
use crate::buffer_rows::BUFFER_ROWS;
use crate::calls::{
    ONE_WORKER, Pace, RENDEZVOUS, RENDEZVOUS_ANSWER, answer, cut, found, found_alone, in_a_row,
    told_by,
};
use crate::cancel_rows::CANCEL_ROWS;
use crate::channel_rows::CHANNEL_ROWS;
use crate::fault_rows::FAULT_ROWS;
use crate::job_rows::JOB_ROWS;
use crate::scope_rows::SCOPE_ROWS;
use crate::select_rows::SELECT_ROWS;
use crate::word_rows::WORD_ROWS;
use co_base::{Memory, OpenGate};
use command_line::message_of;
use std::alloc::Global;
use std::sync::Wait;
use std::test::Fail;
use std::thread::Threads;

/// A row of a table, in its parts.
#[derive(Clone, Copy)]
struct Row<'a> {
    /// What it shows.
    name: &'a str,
    words: &'a str,
    script: &'a str,
    answer: &'a str,
}

/// The words of a call, and its script.
fn words_and_script(call: &str) -> (&str, &str) {
    if call.starts_with("$ ") {
        let (_mark, rest) = cut(call, ' ');
        cut(rest, '\n')
    } else {
        (ONE_WORKER, call)
    }
}

/// The parts of a row.
///
/// A row has a comment that says what it shows, which is its name; a line `$ WORDS`, if its words are not `run --workers 1`; the lines of a
/// script; a line `= STATUS TOLD`; and the lines that are told of the text. TOLD says which lines these are.
fn row_of<'a>(text: &'a str) -> Option<Row<'a>> {
    let (name, rest) = cut(text, '\n');
    let (call, answer) = rest.split_once("= ")?;
    let (words, script) = words_and_script(call);
    Some(Row {
        name,
        words,
        script,
        answer,
    })
}

/// The name and the script of a row that does not hold, with what was found in place of its answer.
fn wrong<R: Threads + Wait + Sync>(
    rt: &R,
    alloc: Global,
    row: Row<'_>,
) -> Result<Option<String>, Fail> {
    let Row {
        name,
        words,
        script,
        answer,
    } = row;
    let found = found(rt, alloc, words, script.as_bytes(), told_by(answer))?;
    if found.as_str() == answer {
        return Ok(None);
    }
    Ok(Some(format!(in alloc; "{name}\n{script}= {found}")?))
}

/// The first row of a table that does not hold.
fn first_wrong<R: Threads + Wait + Sync>(
    rt: &R,
    alloc: Global,
    rows: &str,
) -> Result<Option<String>, Fail> {
    for text in rows.split("# ") {
        if let Some(row) = row_of(text) {
            let wrong = wrong(rt, alloc, row)?;
            if wrong.is_some() {
                return Ok(wrong);
            }
        } else if !text.is_empty() {
            return Err(Fail::new("a row has no answer"));
        }
    }
    Ok(None)
}

/// All tables.
const TABLES: [&str; 9] = [
    CHANNEL_ROWS,
    BUFFER_ROWS,
    JOB_ROWS,
    CANCEL_ROWS,
    SELECT_ROWS,
    SCOPE_ROWS,
    AWAIT_ROWS,
    FAULT_ROWS,
    WORD_ROWS,
];

/// The first row of these tables that does not hold.
fn first_wrong_of<R: Threads + Wait + Sync>(
    rt: &R,
    alloc: Global,
    tables: &[&str],
) -> Result<Option<String>, Fail> {
    for rows in tables {
        let wrong = first_wrong(rt, alloc, *rows)?;
        if wrong.is_some() {
            return Ok(wrong);
        }
    }
    Ok(None)
}

#[test]
fn each_script_has_its_status_and_its_text(rt: HostRuntime) -> Result<(), Fail> {
    let wrong = first_wrong_of(&rt, rt.alloc(), &TABLES)?;
    assert_eq!(rt; wrong, None);
    Ok(())
}

/// What a run is answered with whose source gives so many bytes in each call, and whose sink takes as many.
fn at_pace<R: Threads + Wait + Sync>(rt: &R, alloc: Global, step: u32) -> Result<String, Fail>
    requires { 1 ≤ step }
{
    let script = RENDEZVOUS.as_bytes();
    let pace = Pace { step, fails: &[] };
    let (status, written) = answer(rt, alloc, ONE_WORKER, script, pace, pace, &OpenGate)?;
    in_a_row(alloc, status, "report", written.as_slice())
}

#[test]
fn a_source_and_a_sink_may_be_slow(rt: HostRuntime) -> Result<(), Fail> {
    for step in [1, 7, 1_000] {
        let found = at_pace(&rt, rt.alloc(), step)?;
        assert_eq!(rt; found.as_str(), RENDEZVOUS_ANSWER);
    }
    Ok(())
}

/// What standard error says of a process that ends with this number.
fn standard_error(alloc: Global, number: u8) -> Result<String, Memory> {
    match message_of(number) {
        Some(message) => Ok(format!(in alloc; "{message}")?),
        None => Ok(String::new(alloc)),
    }
}

const MESSAGES: [(u8, &str); 8] = [
    (0, ""),
    (1, ""),
    (
        2,
        "usage: coroutine_cli run [--workers N] | check | sum --size N [--workers N]",
    ),
    (3, ""),
    (4, ""),
    (5, "read fault"),
    (6, "write fault"),
    (7, "out of memory"),
];

/// What standard error says of the first of these numbers of which it says something else.
fn first_other_message(alloc: Global, rows: &[(u8, &str)]) -> Result<Option<String>, Fail> {
    for (number, text) in rows {
        let said = standard_error(alloc, *number)?;
        if said.as_str() != *text {
            return Ok(Some(said));
        }
    }
    Ok(None)
}

#[test]
fn standard_error_says_why_there_is_no_text(rt: HostRuntime) -> Result<(), Fail> {
    let other = first_other_message(rt.alloc(), &MESSAGES)?;
    assert_eq!(rt; other, None);
    Ok(())
}

/// Words that are no command.
const REFUSED: &str = "\

go
--help
run --workers 0
run --workers 04
run --workers 17
run --workers 4294967297
run --workers -1
run --workers
run --workers 1 --workers 1
run --workers 1 1
run --help
run -h
run --size 5
check --workers 1
check check
sum
sum --workers 1
sum --size 0
sum --size 100001
sum --size 5 --size 5
sum --size 5 --workers 17
";

/// The first of these lines whose words are not refused, with what they are answered with.
fn first_taken<R: Threads + Wait + Sync>(
    rt: &R,
    alloc: Global,
    lines: &str,
) -> Result<Option<String>, Fail> {
    for line in lines.lines() {
        let found = found(rt, alloc, line, RENDEZVOUS.as_bytes(), "report")?;
        if found.as_str() != "2 report\n" {
            return Ok(Some(format!(in alloc; "{line}\n{found}")?));
        }
    }
    Ok(None)
}

#[test]
fn other_words_are_refused(rt: HostRuntime) -> Result<(), Fail> {
    let taken = first_taken(&rt, rt.alloc(), REFUSED)?;
    assert_eq!(rt; taken, None);
    Ok(())
}

/// A script whose root has a report of its own under each schedule, but for one line and the number of its Jobs.
const ADDERS: &str = "\
channel a buffered
coroutine p
repeat 2500
send a 2
end
end
coroutine q
repeat 5000
send a 1
end
end
coroutine c
each a
end
result sum
end
coroutine main
async c as c1
async c as c2
async c as c3
async c as c4
scope
launch p
launch p
launch q
end
close a
await c1
await c2
await c3
await c4
result sum
end
";

/// How many lines of a text begin so.
fn beginning(text: &str, front: &str) -> usize {
    text.lines()
        .filter(|line: &&str| line.starts_with(front))
        .count()
}

/// How many lines of the answer say that the root ended with 15,000 and that the status is 0, tell of a Job, and tell of an element that
/// was not received.
fn added_by<R: Threads + Wait + Sync>(
    rt: &R,
    alloc: Global,
    words: &str,
) -> Result<[usize; 4], Fail> {
    let found = found(rt, alloc, words, ADDERS.as_bytes(), "report")?;
    let text = found.as_str();
    Ok([
        beginning(text, "0 report"),
        beginning(text, "job 0 completed 15000"),
        beginning(text, "job "),
        beginning(text, "element "),
    ])
}

const BY_WORKERS: &str = "\
run --workers 1
run --workers 2
run --workers 4
run --workers 16
";

#[test]
fn any_number_of_workers_adds_up_the_same(rt: HostRuntime) -> Result<(), Fail> {
    for words in BY_WORKERS.lines() {
        let counts = added_by(&rt, rt.alloc(), words)?;
        assert_eq!(rt; counts, [1, 1, 9, 0]);
    }
    Ok(())
}

#[test]
fn the_call_without_threads_serves_one_worker(rt: HostRuntime) -> Result<(), Fail> {
    let found = found_alone(rt.alloc(), ONE_WORKER, RENDEZVOUS.as_bytes())?;
    assert_eq!(rt; found.as_str(), RENDEZVOUS_ANSWER);
    Ok(())
}

#[test]
fn the_call_without_threads_refuses_several_workers(rt: HostRuntime) -> Result<(), Fail> {
    let found = found_alone(rt.alloc(), "run", RENDEZVOUS.as_bytes())?;
    assert_eq!(rt; found.as_str(), "2 report\n");
    Ok(())
}

/// What a script is answered with that is one byte too long.
fn found_of_too_long<R: Threads + Wait + Sync>(rt: &R, alloc: Global) -> Result<String, Fail> {
    let input = vec![in alloc; b'\n'; 1_048_577]?;
    found(rt, alloc, ONE_WORKER, input.as_slice(), "report")
}

#[test]
fn an_input_may_be_too_long(rt: HostRuntime) -> Result<(), Fail> {
    let found = found_of_too_long(&rt, rt.alloc())?;
    assert_eq!(rt; found.as_str(), "3 report\nline 1: TooMany\n");
    Ok(())
}

/// What a script is answered with that comments make as long as it may be.
fn found_of_longest<R: Threads + Wait + Sync>(rt: &R, alloc: Global) -> Result<String, Fail> {
    let mut input = Vec::from_slice(alloc, RENDEZVOUS.as_bytes())?;
    for place in 107..1_048_576u32 {
        input.push(if place % 64 == 63 { b'\n' } else { b'#' })?;
    }
    if input.len() != 1_048_576 {
        return Err(Fail::new("the script is not as long as it may be"));
    }
    found(rt, alloc, ONE_WORKER, input.as_slice(), "report")
}

#[test]
fn an_input_may_be_as_long_as_a_script_may(rt: HostRuntime) -> Result<(), Fail> {
    let found = found_of_longest(&rt, rt.alloc())?;
    assert_eq!(rt; found.as_str(), RENDEZVOUS_ANSWER);
    Ok(())
}
