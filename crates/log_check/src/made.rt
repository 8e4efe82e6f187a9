//! The log of a run, made and judged.

ghost use Rattle.std.specs.Prelude.{◌≡◌, ◌≤◌, IfOk, length};
ghost use Rattle.script_reader.specs.Scripts.{program_of};
ghost use Rattle.log_check.specs.Verdicts.{IsLogged, IsLoggedBy};

use crate::log::judge_in_order;
use crate::polled::{Order, order_by};
use crate::verdict::{LogVerdict, Logged};
use co_base::{Gate, Memory, Tag};
use engine_one::run_in_order;
use gathered::{Gathered, at, between, put};
use note_book::Notes;
use run_report::report;
use script_grammar::FaultKind;
use script_reader::{Script, read};
use std::alloc::{AllocError, Global};

/// The most bytes that a log may have.
const LONGEST: usize = 67_108_864;

/// Where the lines of a text end.
fn line_ends(alloc: Global, text: &[u8]) -> Result<Vec<usize>, AllocError> {
    let mut ends = Gathered::new(alloc);
    let mut place = 0usize;
    for byte in text {
        place = place.saturating_add(1);
        if *byte == b'\n' {
            ends.add(place);
        }
    }
    ends.whole()
}

/// For each coroutine the number of its first line in a report, which has the lines of the books one behind another.
fn first_lines(alloc: Global, books: &[Notes]) -> Result<Vec<usize>, AllocError> {
    let mut firsts = Gathered::new(alloc);
    let mut first = 0usize;
    for book in books {
        firsts.add(first);
        first = first.saturating_add(book.items().len());
    }
    firsts.whole()
}

/// Adds the line of a text that has this number.
fn add_line(out: &mut Gathered<u8>, text: &[u8], ends: &[usize], line: usize) {
    let start = match line.checked_sub(1) {
        Some(before) => at(ends, before, 0),
        None => 0,
    };
    out.add_all(between(text, start, at(ends, line, start)));
}

/// The lines of the coroutines, each the next of its own, in the order of these tags.
fn in_order(
    alloc: Global,
    text: &[u8],
    ends: &[usize],
    next: &mut Vec<usize>,
    whose: &[Tag],
) -> Result<Vec<u8>, AllocError> {
    let mut out = Gathered::new(alloc);
    for tag in whose {
        let line = at(next.as_slice(), *tag as usize, usize::MAX);
        put(next, *tag as usize, line.saturating_add(1));
        add_line(&mut out, text, ends, line);
    }
    out.whole()
}

/// The lines of a report in the order of these tags: those of the coroutines, whose books these are.
fn log_in_order(
    alloc: Global,
    report: &[u8],
    books: &[Notes],
    whose: &[Tag],
) -> Result<Vec<u8>, AllocError> {
    let ends = line_ends(alloc, report)?;
    let mut next = first_lines(alloc, books)?;
    in_order(alloc, report, ends.as_slice(), &mut next, whose)
}

/// The text of the log of a run in this order.
fn text_of<G: Gate>(
    alloc: Global,
    script: &Script,
    order: &Order,
    gate: &G,
) -> Result<Vec<u8>, Memory> {
    let run = run_in_order::<Notes, G>(alloc, script, gate, order.polls.as_slice())?;
    let told = report(alloc, script, &run.done)?;
    let books = run.done.books.as_slice();
    let text = log_in_order(alloc, told.as_slice(), books, order.whose.as_slice())?;
    Ok(text)
}

/// The text of a log of a run in this order, judged.
fn judged<G: Gate>(
    alloc: Global,
    script: &Script,
    text: Vec<u8>,
    order: &[Tag],
    gate: &G,
) -> Result<Logged, Memory>
    ensures { IfOk result (λ logged. IsLoggedBy logged (program_of script.now)) }
{
    if text.len() > LONGEST {
        return Ok(Logged::NotShown);
    }
    let v = judge_in_order(alloc, script, text.as_slice(), order, gate)?;
    match v {
        LogVerdict::Stands(root) => Ok(Logged::Log(text, root)),
        _ => Ok(Logged::NotShown),
    }
}

/// Makes the log of a run, and judges it.
fn log_of<G: Gate>(alloc: Global, script: &Script, seed: u32, gate: &G) -> Result<Logged, Memory>
    ensures { IfOk result (λ logged. IsLoggedBy logged (program_of script.now)) }
{
    let order = order_by(alloc, script, seed, gate)?;
    let text = text_of(alloc, script, &order, gate)?;
    judged(alloc, script, text, order.polls.as_slice(), gate)
}

/// Makes a run of the script that these bytes spell, and its log: by turns of its coroutines, or by a seed that is not 0 in an order that
/// looks random. The log is judged as one that is read; which order a seed stands for is not claimed.
pub fn make_log<G: Gate>(alloc: Global, bytes: &[u8], seed: u32, gate: &G) -> Result<Logged, Memory>
    ensures { IfOk result (λ logged. IsLogged logged bytes.now) }
{
    match read(alloc, bytes) {
        Ok(script) => log_of(alloc, &script, seed, gate),
        Err(fault) => match fault.kind {
            FaultKind::Memory => Err(Memory),
            _ => Ok(Logged::Fault(fault)),
        },
    }
}
