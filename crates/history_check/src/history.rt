//! A history, line by line.

ghost use Rattle.std.specs.Prelude.{◌≡◌, ◌≤◌, length, IfOk};
ghost use Rattle.std.specs.List.{All};
ghost use Rattle.one_thread_floor.specs.ListFloors.{MayBeMade, floor_of};
ghost use Rattle.history_text.specs.Numbers.{shape_of};
ghost use Rattle.history_check.specs.Overs.{AreOvers};
ghost use Rattle.history_check.specs.Steps.{IfGood, IsChannelStep, IsMade, IsStep};
ghost use Rattle.history_check.specs.Verdicts.{IsVerdict};

use crate::jobs::{row_of, write_job};
use crate::notes::{act_of, channel_of, note_holds};
use crate::overs::{is_over, keep, no_overs, told_over};
use crate::verdict::{Judgement, Step, Stood, Verdict};
use channel_model::{Act, ChannelFloor, ChannelNote, Kind};
use co_base::{Memory, Tag};
use history_text::{JobNumbers, Line};
use job_replay::JobReplay;
use note_book::Item;
use one_thread_floor::ListFloor;
use std::alloc::Global;

/// Makes an act, if it may come; what it says of its moment holds or does not, as is told.
fn make(
    floor: &mut ListFloor,
    overs: &mut Vec<Vec<bool>>,
    kinds: &[(Kind, u32)],
    who: Tag,
    act: &Act,
    so: bool,
) -> Result<Step, Memory>
    requires shape { (floor_of floor.old).shape ≡ kinds.now }
    requires overs { AreOvers (floor_of floor.old) overs.old.items }
    ensures made { IfOk result (λ step. IsMade step so who act.now (floor_of floor.old) (floor_of floor.new)) }
    ensures overs { IfOk result (λ step. IfGood step (AreOvers (floor_of floor.new) overs.new.items)) }
{
    let over = is_over(floor, kinds, act);
    let told = told_over(overs, act);
    floor.room(1)?;
    if !floor.step(who, act, told) {
        return Ok(Step::MayNotCome);
    }
    keep(overs, act, over)?;
    if so { Ok(Step::Good) } else { Ok(Step::NotSo) }
}

/// Writes what a coroutine noted of a channel, if it may stand there.
#[tactic(auto, using(crate::proofs::Walks::step_made, crate::proofs::Walks::step_noted, crate::proofs::Walks::step_refuted))]
fn write_channel(
    floor: &mut ListFloor,
    overs: &mut Vec<Vec<bool>>,
    kinds: &[(Kind, u32)],
    who: Tag,
    note: &ChannelNote,
) -> Result<Step, Memory>
    requires shape { (floor_of floor.old).shape ≡ kinds.now }
    requires overs { AreOvers (floor_of floor.old) overs.old.items }
    ensures step { IfOk result (λ step. IsChannelStep step who note.now (floor_of floor.old) (floor_of floor.new)) }
    ensures overs { IfOk result (λ step. IfGood step (AreOvers (floor_of floor.new) overs.new.items)) }
{
    let so = note_holds(floor, kinds, note);
    match act_of(note) {
        Some(act) => make(floor, overs, kinds, who, &act, so),
        None => { if so { Ok(Step::Good) } else { Ok(Step::NotSo) } }
    }
}

/// Writes the next line of a history, if it may stand there.
fn write(
    floor: &mut ListFloor,
    overs: &mut Vec<Vec<bool>>,
    tree: &mut JobReplay,
    kinds: &[(Kind, u32)],
    line: &Line,
) -> Result<Step, Memory>
    requires shape { (floor_of floor.old).shape ≡ kinds.now }
    requires overs { AreOvers (floor_of floor.old) overs.old.items }
    ensures step { IfOk result (λ step. IsStep step line.now (floor_of floor.old) (floor_of floor.new) tree.old tree.new) }
    ensures overs { IfOk result (λ step. IfGood step (AreOvers (floor_of floor.new) overs.new.items)) }
{
    match line.item {
        Item::Channel(note) => write_channel(floor, overs, kinds, line.who, &note),
        Item::Job(note) => Ok(write_job(tree, line.who, &note)),
    }
}

/// What a line at fault leaves to be said, where the lines before it were written.
fn stopped(floor: &ListFloor, tree: &JobReplay, line: &Line, verdict: Verdict) -> Judgement
    ensures { result.verdict ≡ verdict }
{
    let stood = match line.item {
        Item::Channel(note) => {
            let c = channel_of(&note);
            Stood::Channel(c, floor.snapshot(c))
        }
        Item::Job(note) => {
            let row = row_of(tree, &note);
            Stood::Job(row, tree.look(row))
        }
    };
    Judgement {
        verdict,
        stood: Some(stood),
    }
}

/// Checks a history of channels of these kinds, with so many places, and of so many Jobs: one order of what was done with both.
///
/// For each element that was one too many a byte is kept, and one for each place before it at its channel. The time grows with the number
/// of lines, and where a wait leaves a queue from its midst with the logarithm of the queue's length and with the number of its
/// neighbours on the shorter side; a Cancel by the failure of a third row goes through all rows of Jobs.
pub fn check_history(
    alloc: Global,
    kinds: &[(Kind, u32)],
    numbers: JobNumbers,
    lines: &[Line],
) -> Result<Judgement, Memory>
    requires channels { length kinds.now ≤ 65536 }
    requires kinds { All MayBeMade kinds.now }
    ensures { IfOk result (λ judgement. IsVerdict kinds.now (shape_of numbers) lines.now judgement.verdict) }
{
    let mut floor = ListFloor::new(alloc, kinds)?;
    let mut overs = no_overs(alloc, kinds.len())?;
    let mut tree = JobReplay::new(alloc, numbers.coroutines, numbers.scopes)?;
    let mut rest = lines;
    let mut number = 1usize;
    while let [line, more @ ..] = rest {
        match write(&mut floor, &mut overs, &mut tree, kinds, line)? {
            Step::Good => {}
            Step::MayNotCome => return Ok(stopped(
                &floor,
                &tree,
                line,
                Verdict::MayNotCome(number),
            )),
            Step::NotSo => return Ok(stopped(&floor, &tree, line, Verdict::NotSo(number))),
        }
        number += 1;
        rest = more;
    }
    Ok(Judgement {
        verdict: Verdict::Legal,
        stood: None,
    })
}
