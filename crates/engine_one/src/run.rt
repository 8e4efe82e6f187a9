//! A whole run.

ghost use Rattle.std.specs.Prelude.{◌≡◌, [], IfOk, OnOk};
ghost use Rattle.script_reader.specs.Scripts.{program_of};
ghost use Rattle.engine_one.specs.Runs.{CameToRest, IsLeftOf, TellsIdle, WasMadeInOrder};
ghost use Rattle.engine_one.specs.Moments.{list_moment, state_of, RunStands, RunIsOver};
ghost use Rattle.engine_one.specs.Orders.{AreTurns, InOrder, IsTurn};
ghost use Rattle.engine_one.specs.Progress.{LeftWhere, RoundIsCalm, TurnsFall};

use crate::start::start;
use crate::state::Run;
use co_base::{Gate, Memory, Tag};
use engine_base::done_of;
use one_thread_floor::{ListFloor, TreeFloor};
use poll_states::{Book, Done};
use script_reader::Script;
use std::alloc::Global;

/// What a run leaves, and its channels and Jobs with all their entries.
#[derive(Drop)]
pub struct ListRun<B> {
    pub done: Done<B>,
    pub channels: ListFloor,
    pub jobs: TreeFloor,
}

/// Runs the script until no coroutine can go on.
///
/// A turn polls the coroutine that stands first in a queue of tags, which begins with main and the spawned instances in their order. Who
/// is woken is appended, and then the coroutine itself where it made a move and has not ended.
///
/// The books are those of a run with these two histories, which came to rest; nobody can go on. Both histories have one order: that of
/// the polls.
pub fn run_one<B: Book, G: Gate>(
    alloc: Global,
    script: &Script,
    gate: &G,
) -> Result<ListRun<B>, Memory>
    ensures run { IfOk result (λ run. CameToRest B.items (program_of script.now) run) }
    ensures idle { IfOk result (λ run. TellsIdle run) }
{
    let mut run = start(alloc, script)?;
    run.run_out(script, gate)?;
    run_left(alloc, script, run)
}

/// Runs the script with polls of these coroutines first, in this order, and then, as `run_one`, until no coroutine can go on.
///
/// A tag may stand in the order any number of times, whether or not its coroutine can go on; one past the last coroutine is passed over.
///
/// The books are those of a run with these two histories, which came to rest; nobody can go on. Both histories have one order: that of
/// the polls, of which the first are those of the order, each of them whole.
pub fn run_in_order<B: Book, G: Gate>(
    alloc: Global,
    script: &Script,
    gate: &G,
    order: &[Tag],
) -> Result<ListRun<B>, Memory>
    ensures run { IfOk result (λ run. CameToRest B.items (program_of script.now) run) }
    ensures idle { IfOk result (λ run. TellsIdle run) }
    ensures made { IfOk result (λ run. WasMadeInOrder B.items (program_of script.now) order.now run) }
{
    let mut run = start(alloc, script)?;
    run.poll_in_order(script, gate, order)?;
    run.run_out(script, gate)?;
    run_left(alloc, script, run)
}

/// What a run leaves that is over.
pub(crate) fn run_left<B: Book>(
    alloc: Global,
    script: &Script,
    run: Run<ListFloor, TreeFloor, B>,
) -> Result<ListRun<B>, Memory>
    requires stand { RunStands (program_of script.now) (list_moment run) }
    requires left { RunIsOver (list_moment run) }
    ensures run { IfOk result (λ run. CameToRest B.items (program_of script.now) run) }
    ensures idle { IfOk result (λ run. TellsIdle run) }
    ensures same { IfOk result (λ left. IsLeftOf B.items (list_moment run) left) }
{
    let Run {
        frames,
        channels,
        mut jobs,
        ready: _,
    } = run;
    let done = done_of(alloc, frames, &mut jobs)?;
    Ok(ListRun {
        done,
        channels,
        jobs,
    })
}

impl<B: Book> Run<ListFloor, TreeFloor, B> {
    /// Polls these coroutines, in this order.
    pub(crate) fn poll_in_order<G: Gate>(
        &mut self,
        script: &Script,
        gate: &G,
        order: &[Tag],
    ) -> Result<(), Memory>
        requires { RunStands (program_of script.now) (list_moment self.old) }
        ensures stand { OnOk result (RunStands (program_of script.now) (list_moment self.new)) }
        ensures made { OnOk result (InOrder (program_of script.now) order.now
            (state_of (list_moment self.old)) (state_of (list_moment self.new))) }
    {
        for tag in order {
            self.poll_one(script, gate, *tag)?;
        }
        Ok(())
    }

    /// Polls the coroutine with this tag, if there is one.
    fn poll_one<G: Gate>(&mut self, script: &Script, gate: &G, tag: Tag) -> Result<(), Memory>
        requires { RunStands (program_of script.now) (list_moment self.old) }
        ensures stand { OnOk result (RunStands (program_of script.now) (list_moment self.new)) }
        ensures turn { OnOk result (IsTurn (program_of script.now) tag
            (state_of (list_moment self.old)) (state_of (list_moment self.new))) }
    {
        if (tag as usize) < self.frames.len() {
            let _moved = self.turn(script, gate, tag)?;
        }
        Ok(())
    }

    /// Turns, until the run is over.
    pub(crate) fn run_out<G: Gate>(&mut self, script: &Script, gate: &G) -> Result<(), Memory>
        requires { RunStands (program_of script.now) (list_moment self.old) }
        ensures stand { OnOk result (RunStands (program_of script.now) (list_moment self.new)) }
        ensures left { OnOk result (RunIsOver (list_moment self.new)) }
        ensures turns { OnOk result (AreTurns (program_of script.now)
            (state_of (list_moment self.old)) (state_of (list_moment self.new))) }
    {
        'turns: loop {
            if self.one_turn(script, gate)? {
                return Ok(());
            }
        }
    }

    /// One turn: polls the coroutine whose tag stands first; where no tag stands, every coroutine once. The answer says whether the run is
    /// over.
    pub(crate) fn one_turn<G: Gate>(&mut self, script: &Script, gate: &G) -> Result<bool, Memory>
        requires { RunStands (program_of script.now) (list_moment self.old) }
        ensures stand { OnOk result (RunStands (program_of script.now) (list_moment self.new)) }
        ensures left { IfOk result (λ over. LeftWhere over (list_moment self.new)) }
        ensures fewer { IfOk result (TurnsFall (program_of script.now) (list_moment self.old) (list_moment self.new)) }
        ensures turns { OnOk result (AreTurns (program_of script.now)
            (state_of (list_moment self.old)) (state_of (list_moment self.new))) }
    {
        match self.ready.take_first() {
            Some(tag) => {
                if (tag as usize) < self.frames.len() {
                    let _moved = self.turn(script, gate, tag)?;
                }
                Ok(false)
            }
            None => self.is_round_calm(script, gate),
        }
    }

    /// Polls every coroutine once. The answer says whether nothing happened and no tag is to be polled.
    fn is_round_calm<G: Gate>(&mut self, script: &Script, gate: &G) -> Result<bool, Memory>
        requires stand { RunStands (program_of script.now) (list_moment self.old) }
        requires none { self.old.ready.tags.items ≡ [] }
        ensures stand { OnOk result (RunStands (program_of script.now) (list_moment self.new)) }
        ensures calm { IfOk result (RoundIsCalm (program_of script.now) (list_moment self.old) (list_moment self.new)) }
        ensures turns { OnOk result (AreTurns (program_of script.now)
            (state_of (list_moment self.old)) (state_of (list_moment self.new))) }
    {
        let moved = self.round(script, gate)?;
        Ok(!moved && self.ready.is_empty())
    }
}
