//! What is printed of a search, and the report of one run.

ghost use Rattle.std.specs.Prelude.{◌≡◌, ◌<◌, ◌++◌, None, IfOk, IfSome, OnOk, string_bytes, true};
ghost use Rattle.script_reader.specs.Scripts.{program_of};
ghost use Rattle.end_search.specs.Blocks.{Blocks, Explores, Fits, TellsInOrder, TellsOf, count_text, does_suit};

use crate::blocks::{Shown, block_of};
use crate::known::is_plain;
use crate::local::is_calm;
use crate::losses::can_lose;
use crate::parts::Task;
use crate::wanted::{Tell, Wanted, does_suit};
use crate::ways::{Search, Verdict, Way, Ways, find_ways};
use co_base::{Gate, Memory, Sink, Tag};
use engine_one::run_in_order;
use job_model::End;
use note_book::Notes;
use run_report::report;
use script_grammar::Instruction;
use script_reader::Script;
use std::alloc::{AllocError, Global};
use std::thread::Threads;

/// More turns of a repeat are too many for all states to be looked at.
const MANY_TURNS: u32 = 1000;

/// What is looked for, and how far.
#[derive(Clone, Copy)]
pub struct Limit {
    pub wanted: Option<Wanted>,
    pub tell: Tell,
    /// How many states are looked at, at most.
    pub states: u32,
    /// How many workers look at states side by side, 1 to 16: what is found does not depend on it.
    pub workers: u8,
}

/// What a search came to, and what is printed of it.
#[derive(Drop)]
pub struct Explored {
    pub verdict: Verdict,
    pub text: Vec<u8>,
}

/// The report of a run, and how the root's Job ended, if it did.
#[derive(Drop)]
pub struct Report {
    pub root: Option<End>,
    pub text: Vec<u8>,
}

/// Looks for the ends of a script, of which this is the text, and prints each once, those of fewer polls first.
///
/// A long search says to `errors`, each 100,000 states, how far it is.
pub fn explore<R: Threads + Sync, G: Gate + Sync, E: Sink>(
    rt: &R,
    alloc: Global,
    script: &Script,
    source: &[u8],
    limit: Limit,
    gate: &G,
    errors: &mut E,
) -> Result<Explored, Memory>
    ensures { IfOk result (λ explored. Explores (program_of script.now) limit.wanted explored.verdict explored.text.items) }
{
    let ends = match limit.wanted {
        Some(_) => 1,
        None => usize::MAX,
    };
    let found = ways_found(rt, alloc, script, source, limit, ends, gate, errors)?;
    let shown = Shown {
        script,
        source,
        wanted: limit.wanted,
    };
    shown_of(alloc, shown, gate, &found)
}

/// The search itself.
fn ways_found<R: Threads + Sync, G: Gate + Sync, E: Sink>(
    rt: &R,
    alloc: Global,
    script: &Script,
    source: &[u8],
    limit: Limit,
    ends: usize,
    gate: &G,
    errors: &mut E,
) -> Result<Ways, Memory> {
    let calm = is_calm(script);
    let told = limit.tell == Tell::All || limit.wanted.is_some();
    let task = Task {
        script,
        calm,
        losses: told && (!calm || can_lose(script)),
        plain: is_plain(script),
    };
    let search = Search {
        task,
        source,
        wanted: limit.wanted,
        tell: limit.tell,
        states: limit.states,
        ends,
        workers: limit.workers,
    };
    find_ways(rt, alloc, search, gate, errors)
}

/// What is printed of a search that came to this.
fn shown_of<G: Gate>(
    alloc: Global,
    shown: Shown,
    gate: &G,
    found: &Ways,
) -> Result<Explored, Memory>
    ensures { IfOk result (λ explored. Explores (program_of shown.entry.script.now) shown.entry.wanted
        explored.verdict explored.text.items) }
{
    let mut text = Vec::new(alloc);
    let count = push_blocks(alloc, &mut text, shown, gate, found.ends.as_slice())?;
    let count = push_usual(alloc, &mut text, shown, gate, count)?;
    let verdict = verdict_of(shown.wanted, found.verdict, count);
    let rest = rest_of(alloc, shown.script, found, verdict)?;
    push_last(alloc, &mut text, count, rest.as_str())?;
    Ok(Explored { verdict, text })
}

/// What is told of a search that came to this, of which so many ends are shown.
fn verdict_of(wanted: Option<Wanted>, verdict: Verdict, count: u64) -> Verdict
    requires { wanted ≡ None → 0 < count }
    ensures { Fits wanted result count }
{
    if wanted.is_some() && count > 0 {
        return Verdict::Found;
    }
    match verdict {
        Verdict::Exhausted => Verdict::Exhausted,
        Verdict::Found | Verdict::Cut => Verdict::Cut,
    }
}

/// Adds a block for each end. The answer is how many they are.
fn push_blocks<G: Gate>(
    alloc: Global,
    out: &mut Vec<u8>,
    shown: Shown,
    gate: &G,
    ends: &[Way],
) -> Result<u64, Memory>
    requires { Blocks (program_of shown.script.now) shown.wanted 0 out.old.items }
    ensures { IfOk result (λ count. Blocks (program_of shown.entry.script.now) shown.entry.wanted count out.new.items) }
{
    let mut count = 0u64;
    for way in ends {
        count = push_block(alloc, out, shown, gate, count, way.order.as_slice())?;
    }
    Ok(count)
}

/// Adds the end of one worker where all ends are looked for, and none is there.
fn push_usual<G: Gate>(
    alloc: Global,
    out: &mut Vec<u8>,
    shown: Shown,
    gate: &G,
    count: u64,
) -> Result<u64, Memory>
    requires { Blocks (program_of shown.script.now) shown.wanted count out.old.items }
    ensures blocks { IfOk result (λ more. Blocks (program_of shown.entry.script.now) shown.entry.wanted more out.new.items) }
    ensures some { IfOk result (λ more. shown.entry.wanted ≡ None → 0 < more) }
{
    if count == 0 && shown.wanted.is_none() {
        return push_block(alloc, out, shown, gate, count, &[]);
    }
    Ok(count)
}

/// Adds the block of the end of a run in this order behind so many, if it is one that is looked for. The answer is how many they are then.
fn push_block<G: Gate>(
    alloc: Global,
    out: &mut Vec<u8>,
    shown: Shown,
    gate: &G,
    count: u64,
    order: &[Tag],
) -> Result<u64, Memory>
    requires { Blocks (program_of shown.script.now) shown.wanted count out.old.items }
    ensures blocks { IfOk result (λ more. Blocks (program_of shown.entry.script.now) shown.entry.wanted more out.new.items) }
    ensures some { IfOk result (λ more. shown.entry.wanted ≡ None → 0 < more) }
{
    let Some(number) = count.checked_add(1) else {
        return Ok(count);
    };
    match block_of(alloc, shown, gate, number, order)? {
        Some(block) => {
            out.extend_from_slice(block.as_slice())?;
            Ok(number)
        }
        None => Ok(count),
    }
}

/// Adds the last line.
fn push_last(alloc: Global, out: &mut Vec<u8>, count: u64, rest: &str) -> Result<(), Memory>
    ensures { OnOk result (out.new.items ≡ out.old.items ++ (count_text count ++ rest.now)) }
{
    let last = last_of(alloc, count, rest)?;
    out.extend_from_slice(last.as_bytes())?;
    Ok(())
}

/// The last line.
fn last_of(alloc: Global, count: u64, rest: &str) -> Result<String, Memory>
    ensures { IfOk result (λ line. string_bytes line ≡ count_text count ++ rest.now) }
{
    let mut out = String::new(alloc);
    push_count(&mut out, count)?;
    out.push_str(rest)?;
    Ok(out)
}

/// Adds how many ends there are.
fn push_count(out: &mut String, count: u64) -> Result<(), AllocError>
    ensures { OnOk result (string_bytes out.new ≡ string_bytes out.old ++ count_text count) }
{
    if count == 1 {
        out.push_str("1 end, ")
    } else {
        write!(out, "{count} ends, ")
    }
}

/// What the last line says of the search.
fn rest_of(
    alloc: Global,
    script: &Script,
    found: &Ways,
    verdict: Verdict,
) -> Result<String, Memory> {
    let word = match verdict {
        Verdict::Exhausted => "exhausted",
        Verdict::Found => "found",
        Verdict::Cut => "not exhausted",
    };
    let states = found.states;
    let turns = found.turns;
    let mut rest = String::new(alloc);
    write!(rest, "{word}: {states} states, {turns} turns; ")?;
    push_notes(&mut rest, script, found.sampled, verdict)?;
    rest.push_str("one worker, any order\n")?;
    Ok(rest)
}

/// Adds why the search was cut, if that is known, and how many of the ends are not of states that were looked at.
fn push_notes(
    out: &mut String,
    script: &Script,
    sampled: usize,
    verdict: Verdict,
) -> Result<(), AllocError> {
    if matches!(verdict, Verdict::Cut) {
        push_reason(out, script)?;
    }
    if sampled > 0 {
        write!(out, "{sampled} by random orders, not shortest; ")
    } else {
        Ok(())
    }
}

/// Adds which coroutine repeats lines so often that its states are too many, if one does.
fn push_reason(out: &mut String, script: &Script) -> Result<(), AllocError> {
    let mut most = MANY_TURNS;
    let mut name = "";
    for block in script.blocks() {
        let turns = most_turns(block.code.as_slice());
        if turns > most {
            most = turns;
            name = block.name.as_str();
        }
    }
    if most > MANY_TURNS {
        write!(out, "{name} repeats lines {most} times; ")
    } else {
        Ok(())
    }
}

/// The most turns of a repeat of a block.
fn most_turns(code: &[Instruction]) -> u32 {
    let mut most = 0u32;
    for line in code {
        if let Instruction::Repeat { turns } = *line {
            most = most.max(turns);
        }
    }
    most
}

/// The report of the end with this number, counted from 1, of those that are looked for, if there is one. Says how far it is, as
/// `explore`.
pub fn report_of_end<R: Threads + Sync, G: Gate + Sync, E: Sink>(
    rt: &R,
    alloc: Global,
    script: &Script,
    source: &[u8],
    limit: Limit,
    number: u32,
    gate: &G,
    errors: &mut E,
) -> Result<Option<Report>, Memory>
    ensures tells { IfOk result (λ report. IfSome report (TellsOf (program_of script.now))) }
    ensures suits { IfOk result (λ report. IfSome report (λ told. does_suit limit.wanted told.root ≡ true)) }
{
    let Some(place) = (number as usize).checked_sub(1) else {
        return Ok(None);
    };
    let ends = number as usize;
    let found = ways_found(rt, alloc, script, source, limit, ends, gate, errors)?;
    match found.ends.get(place) {
        Some(way) => {
            let report = report_in_order(alloc, script, way.order.as_slice(), gate)?;
            if !does_suit(limit.wanted, report.root) {
                return Ok(None);
            }
            Ok(Some(report))
        }
        None => Ok(None),
    }
}

/// The report of the run in which these coroutines are polled first, in this order.
pub fn report_in_order<G: Gate>(
    alloc: Global,
    script: &Script,
    order: &[Tag],
    gate: &G,
) -> Result<Report, Memory>
    ensures tells { IfOk result (TellsOf (program_of script.now)) }
    ensures made { IfOk result (TellsInOrder (program_of script.now) order.now) }
{
    let left = run_in_order::<Notes, G>(alloc, script, gate, order)?;
    let text = report(alloc, script, &left.done)?;
    Ok(Report {
        root: left.done.end,
        text,
    })
}
