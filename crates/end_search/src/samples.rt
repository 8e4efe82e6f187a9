//! Runs in orders that look random, for scripts with more states than may be looked at.

ghost use Rattle.std.specs.Prelude.{OnOk};
ghost use Rattle.script_reader.specs.Scripts.{program_of};
ghost use Rattle.engine_one.specs.Trials.{TrialStands};

use crate::whole::if_whole;
use co_base::{Gate, Memory, Tag};
use engine_one::Trial;
use gathered::Gathered;
use note_book::Notes;
use script_grammar::Instruction;
use script_reader::Script;
use std::alloc::Global;

/// How many such runs are made, at most.
const RUNS: u32 = 40;

/// So often the lines that are repeated most are made in all runs together, if each run makes them less often than a quarter of it.
const MANY_TURNS: u64 = 8000000;

/// How many polls of an order there are for each coroutine.
const POLLS: u64 = 32;

/// Numbers that look random, and are the same in each call of the program.
#[derive(Drop)]
pub(crate) struct Numbers {
    state: u64,
}

impl Numbers {
    pub(crate) fn new() -> Numbers {
        Numbers {
            state: 88172645463325252,
        }
    }

    /// The next number below this one.
    fn next(&mut self, below: u64) -> u64 {
        self.state = self
            .state
            .wrapping_mul(6364136223846793005)
            .wrapping_add(1442695040888963407);
        (self.state >> 33).checked_rem(below).unwrap_or(0)
    }
}

/// How many runs in random orders are made: fewer, where lines are repeated so often that a run is long.
pub(crate) fn runs_of(alloc: Global, script: &Script) -> Result<u32, Memory> {
    let mut turns = 0u64;
    for block in script.blocks() {
        turns = turns.saturating_add(turns_of(alloc, block.code.as_slice())?);
    }
    let runs = MANY_TURNS.checked_div(turns).unwrap_or(0).max(4);
    Ok(u32::try_from(runs).ok().unwrap_or(RUNS).min(RUNS))
}

/// How often the line of a block is made that is repeated most.
fn turns_of(alloc: Global, code: &[Instruction]) -> Result<u64, Memory> {
    let mut most = 1u64;
    let mut now = 1u64;
    let mut around = Gathered::new(alloc);
    for line in code {
        match *line {
            Instruction::Repeat { turns } => {
                around.add(now);
                now = now.saturating_mul(u64::from(turns));
            }
            Instruction::Each { .. } | Instruction::Scope { .. } | Instruction::Select => {
                around.add(now);
            }
            Instruction::End => now = around.as_mut().pop().unwrap_or(1),
            _ => {}
        }
        most = most.max(now);
    }
    if_whole(around.is_whole())?;
    Ok(most)
}

/// The polls that do something among many of coroutines that are taken at random, each once or, in long spells, many times.
pub(crate) fn random_order<G: Gate>(
    alloc: Global,
    script: &Script,
    gate: &G,
    trial: &mut Trial<Notes>,
    numbers: &mut Numbers,
    spells: bool,
) -> Result<Vec<Tag>, Memory>
    requires { TrialStands (program_of script.now) trial.old }
    ensures { OnOk result (TrialStands (program_of script.now) trial.new) }
{
    let tried = tags_tried(alloc, script.coroutines(), numbers, spells)?;
    trial.restart(alloc, script)?;
    for tag in tried.as_slice() {
        let _polled = trial.poll(script, gate, *tag)?;
    }
    let order = Vec::from_slice(alloc, trial.made())?;
    Ok(order)
}

/// Tags at random.
fn tags_tried(
    alloc: Global,
    coroutines: Tag,
    numbers: &mut Numbers,
    spells: bool,
) -> Result<Vec<Tag>, Memory> {
    let mut tags = Vec::new(alloc);
    let mut left = 0u64;
    let mut tag = 0;
    let most = POLLS.saturating_mul(u64::from(coroutines));
    for _ in 0..most {
        if left == 0 {
            tag = Tag::try_from(numbers.next(u64::from(coroutines)))
                .ok()
                .unwrap_or(0);
            left = if spells { numbers.next(POLLS) } else { 0 };
        } else {
            left = left.saturating_sub(1);
        }
        tags.push(tag)?;
    }
    Ok(tags)
}
