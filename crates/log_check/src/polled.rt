//! A run made by polls of one worker, and whose notes it made. Nothing is claimed of the order.

ghost use Rattle.std.specs.Prelude.{OnOk};
ghost use Rattle.script_reader.specs.Scripts.{program_of};
ghost use Rattle.engine_one.specs.Trials.{TrialStands};

use co_base::{Gate, Memory, Tag};
use engine_one::Trial;
use gathered::Gathered;
use note_book::Notes;
use script_reader::Script;
use std::alloc::Global;

/// A run on its way, and whose notes were made, in their order.
#[derive(Drop)]
struct Polled {
    trial: Trial<Notes>,
    whose: Gathered<Tag>,
    state: u64,
}

/// Who was polled, and whose notes were made, both in their order.
#[derive(Drop)]
pub(crate) struct Order {
    pub(crate) polls: Vec<Tag>,
    pub(crate) whose: Vec<Tag>,
}

/// How many lines of a coroutine are written.
pub(crate) fn written_by(trial: &Trial<Notes>, tag: Tag) -> usize {
    match trial.book(tag as usize) {
        Some(book) => book.items().len(),
        None => 0,
    }
}

/// The coroutine that is polled first: the one behind the last, or by a seed any.
fn next_of(state: &mut u64, script: &Script, last: Tag) -> Tag {
    if *state == 0 {
        return last.saturating_add(1);
    }
    *state = state
        .wrapping_mul(6364136223846793005)
        .wrapping_add(1442695040888963407);
    let count = u64::from(script.coroutines());
    let tag = (*state >> 33).checked_rem(count).unwrap_or(0);
    Tag::try_from(tag).unwrap_or(0)
}

/// Adds a tag so many times.
fn add_times(whose: &mut Gathered<Tag>, tag: Tag, times: usize) {
    for _ in 0..times {
        whose.add(tag);
    }
}

/// Polls this coroutine, and says whether it did anything.
fn poll_one<G: Gate>(
    polled: &mut Polled,
    script: &Script,
    gate: &G,
    tag: Tag,
) -> Result<bool, Memory>
    requires { TrialStands (program_of script.now) polled.old.trial }
    ensures { OnOk result (TrialStands (program_of script.now) polled.new.trial) }
{
    let before = written_by(&polled.trial, tag);
    let Some(_did) = polled.trial.poll(script, gate, tag)? else {
        return Ok(false);
    };
    let after = written_by(&polled.trial, tag);
    add_times(&mut polled.whose, tag, after.saturating_sub(before));
    Ok(true)
}

/// Polls coroutines, from this one on, up to the first that does something. The answer says which did.
fn turn<G: Gate>(
    polled: &mut Polled,
    script: &Script,
    gate: &G,
    from: Tag,
) -> Result<Option<Tag>, Memory>
    requires { TrialStands (program_of script.now) polled.old.trial }
    ensures { OnOk result (TrialStands (program_of script.now) polled.new.trial) }
{
    let count = script.coroutines();
    'tags: for step in 0..count {
        let place = u32::from(from).wrapping_add(u32::from(step));
        let tag = place.checked_rem(u32::from(count)).unwrap_or(0);
        let tag = Tag::try_from(tag).unwrap_or(0);
        if poll_one(polled, script, gate, tag)? {
            return Ok(Some(tag));
        }
    }
    Ok(None)
}

/// Polls coroutines, until none does anything.
fn run_out<G: Gate>(polled: &mut Polled, script: &Script, gate: &G) -> Result<(), Memory>
    requires { TrialStands (program_of script.now) polled.old.trial }
{
    let mut last = script.coroutines();
    'turns: for _ in 0..u64::MAX {
        let from = next_of(&mut polled.state, script, last);
        let Some(tag) = turn(polled, script, gate, from)? else {
            break;
        };
        last = tag;
    }
    Ok(())
}

/// A run by turns, or by a seed that is not 0 in an order that looks random.
pub(crate) fn order_by<G: Gate>(
    alloc: Global,
    script: &Script,
    seed: u32,
    gate: &G,
) -> Result<Order, Memory> {
    let mut polled = Polled {
        trial: Trial::new(alloc, script)?,
        whose: Gathered::new(alloc),
        state: u64::from(seed),
    };
    let written = written_by(&polled.trial, 0);
    add_times(&mut polled.whose, 0, written);
    run_out(&mut polled, script, gate)?;
    order_of(alloc, &polled)
}

/// The order of the polls and notes of a run.
fn order_of(alloc: Global, polled: &Polled) -> Result<Order, Memory> {
    if !polled.whose.is_whole() {
        return Err(Memory);
    }
    let polls = Vec::from_slice(alloc, polled.trial.made())?;
    let whose = Vec::from_slice(alloc, polled.whose.as_slice())?;
    Ok(Order { polls, whose })
}
