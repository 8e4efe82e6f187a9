//! The order in which a run writes given lines. The search is not trusted: what it finds is run again.

ghost use Rattle.std.specs.Prelude.{◌≤◌, length};
ghost use Rattle.script_reader.specs.Scripts.{program_of};
ghost use Rattle.engine_one.specs.Trials.{TrialStands};

use crate::hints::Hint;
use crate::names::lines_of;
use crate::plan::Plan;
use crate::walk::{Path, Wanted, step};
use channel_model::{Act, ChannelNote};
use co_base::{Gate, Memory, Tag};
use engine_one::Trial;
use history_text::{Line, NoLines};
use note_book::{Item, Notes};
use report_reader::cut_at;
use script_reader::Script;
use std::alloc::Global;

/// How many polls are made at most, besides some for each line.
const POLLS: u64 = 200000;

/// How many polls more there may be for each line.
const POLLS_OF_LINE: u64 = 16;

/// In how many orders coroutines are tried.
const ATTEMPTS: u32 = 8;

/// What a search came to.
#[derive(Drop)]
pub(crate) enum Way {
    /// These coroutines are to be polled, in this order.
    Found(Vec<Tag>),
    /// The number, from 1, of a line that could not be written, and what is known of it.
    Stuck(usize, Hint),
}

/// Steps, until the lines are written, or no step is left, or there were too many.
fn go<G: Gate>(
    alloc: Global,
    wanted: Wanted,
    gate: &G,
    trial: &mut Trial<Notes>,
    path: &mut Path,
) -> Result<bool, Memory>
    requires { TrialStands (program_of wanted.script.now) trial.old }
{
    let lines = wanted.lines.len() as u64;
    let most = lines.saturating_mul(POLLS_OF_LINE).saturating_add(POLLS);
    'steps: for _ in 0..most.saturating_mul(64) {
        if path.done >= wanted.lines.len() {
            return Ok(true);
        }
        if path.polls > most || !step(alloc, wanted, gate, trial, path)? {
            return Ok(false);
        }
    }
    Ok(false)
}

/// Looks for the order by one attempt.
fn way_of<G: Gate>(alloc: Global, wanted: Wanted, gate: &G) -> Result<Way, Memory> {
    let mut trial = Trial::new(alloc, wanted.script)?;
    way_by(alloc, wanted, gate, &mut trial)
}

/// The same by this run, which is at its beginning.
fn way_by<G: Gate>(
    alloc: Global,
    wanted: Wanted,
    gate: &G,
    trial: &mut Trial<Notes>,
) -> Result<Way, Memory>
    requires { TrialStands (program_of wanted.script.now) trial.old }
{
    let mut path = Path::begin(alloc, wanted, trial)?;
    let found = go(alloc, wanted, gate, trial, &mut path)?;
    way_behind(alloc, trial, &path, found)
}

/// What a search came to, which has found all lines or not.
fn way_behind(
    alloc: Global,
    trial: &Trial<Notes>,
    path: &Path,
    found: bool,
) -> Result<Way, Memory> {
    if found {
        Ok(Way::Found(Vec::from_slice(alloc, trial.made())?))
    } else {
        Ok(Way::Stuck(path.reached.stuck, path.reached.hint))
    }
}

/// An order of polls in which a run writes these lines, in their order.
pub(crate) fn way_of_log<G: Gate>(
    alloc: Global,
    script: &Script,
    lines: &[Line],
    gate: &G,
) -> Result<Way, Memory> {
    let plan = Plan::new(alloc, script, lines)?;
    let wanted = Wanted {
        script,
        lines,
        plan: &plan,
        ordered: true,
        attempt: 0,
    };
    way_of(alloc, wanted, gate)
}

/// The part of a report that has the lines of the coroutines.
fn books_part(text: &[u8]) -> &[u8]
    ensures { length result.now ≤ length text.now }
{
    let mut rest = text;
    while let [first, ..] = rest {
        if *first == b'j' || *first == b'e' {
            break;
        }
        let (_, more) = cut_at(b'\n', rest);
        match more {
            Some(next) => rest = next,
            None => return text,
        }
    }
    &text[..text.len() - rest.len()]
}

/// Whether no whole poll writes a line behind the one before it: a sender that waits lets nobody in, and what a select or a coroutine that
/// gives up meets between two steps is met by several workers alone.
fn is_of_cut_poll(before: Option<Line>, line: Line) -> bool {
    match line.item {
        Item::Channel(
            ChannelNote::Partner { .. }
            | ChannelNote::MainResolved { .. }
            | ChannelNote::Late { .. },
        ) => true,
        Item::Channel(ChannelNote::Made(Act::Admit { .. })) => match before {
            Some(last) => last.who == line.who && is_offer(last.item),
            None => false,
        },
        _ => false,
    }
}

fn is_offer(item: Item) -> bool {
    matches!(item, Item::Channel(ChannelNote::Made(Act::Offer { .. })))
}

/// The number, from 1, of the first line that no whole poll writes, as far as is seen without a run.
fn first_of_cut_poll(lines: &[Line]) -> Option<usize> {
    let mut before = None;
    let mut number = 1usize;
    for line in lines {
        if is_of_cut_poll(before, *line) {
            return Some(number);
        }
        number = number.saturating_add(1);
        before = Some(*line);
    }
    None
}

/// An order of polls in which a run writes the lines of a report, each coroutine its own.
pub(crate) fn way_of_report<G: Gate>(
    alloc: Global,
    script: &Script,
    text: &[u8],
    gate: &G,
) -> Result<Way, Memory>
    requires { length text.now ≤ 67108864 }
{
    match lines_of(alloc, script, books_part(text)) {
        Ok(lines) => way_of_lines(alloc, script, lines.as_slice(), gate),
        Err(NoLines::AtLine(number)) => Ok(Way::Stuck(number as usize, Hint::Nothing)),
        Err(NoLines::Memory) => Err(Memory),
    }
}

/// An order of polls in which a run writes these lines, each coroutine its own.
fn way_of_lines<G: Gate>(
    alloc: Global,
    script: &Script,
    lines: &[Line],
    gate: &G,
) -> Result<Way, Memory> {
    if let Some(number) = first_of_cut_poll(lines) {
        return Ok(Way::Stuck(number, Hint::OfSeveral));
    }
    let plan = Plan::new(alloc, script, lines)?;
    let wanted = Wanted {
        script,
        lines,
        plan: &plan,
        ordered: false,
        attempt: 0,
    };
    first_way(alloc, wanted, gate)
}

/// Looks for the order by all attempts, until one finds it.
fn first_way<G: Gate>(alloc: Global, wanted: Wanted, gate: &G) -> Result<Way, Memory> {
    let mut line = 1usize;
    let mut known = Hint::Nothing;
    for attempt in 0..ATTEMPTS {
        match way_of(alloc, Wanted { attempt, ..wanted }, gate)? {
            Way::Found(order) => return Ok(Way::Found(order)),
            Way::Stuck(number, hint) => {
                line = number;
                known = hint;
            }
        }
    }
    Ok(Way::Stuck(line, known))
}
