//! What a worker does with a coroutine.

ghost use Rattle.std.specs.Prelude.{◌≡◌, IfOk};
ghost use Rattle.script_reader.specs.Scripts.{program_of};

use crate::task::Task;
use co_base::{Gate, Memory};
use engine_base::ScriptName;
use poll_states::{Book, Turn};
use script_reader::Script;
use shared_floors::SharedChannels;
use std::marker::PhantomData;
use task_crew::{Polls, Tickets};
use word_seats::SharedBeside;

/// How many polls of one coroutine come one after another while it is ready, before it goes back to its berth. So the way to it is paid
/// once for several lines, and one that never waits keeps no worker for good.
const POLLS_IN_A_ROW: u32 = 64;

/// Polls the coroutine while it is ready, so many times at most. The answer says whether it is ready still. Without memory it is dropped.
fn poll_while_ready<
    N: ScriptName,
    C: SharedChannels + Drop,
    J: SharedBeside<C> + Drop,
    B: Book,
    G: Gate,
>(
    script: &Script,
    task: Task<N, C, J, B>,
    tickets: &mut Tickets,
    gate: &G,
) -> Result<(Task<N, C, J, B>, bool), Memory>
    requires { program_of script.now ≡ N.program }
    ensures { IfOk result (λ r. r.0.0.tag ≡ task.0.tag) }
{
    let mut task = task;
    for _ in 0..POLLS_IN_A_ROW {
        let (polled, turn) = task.poll(script, tickets, gate)?;
        task = polled;
        if turn != Turn::Ready {
            return Ok((task, false));
        }
    }
    Ok((task, true))
}

/// The lines of the coroutines of a script are run by polls.
#[derive(Drop)]
pub(crate) struct RunsLines<'a, N, G> {
    pub(crate) script: &'a Script,
    pub(crate) gate: &'a G,
    pub(crate) name: PhantomData<N>,
}

impl<
    N: ScriptName + Sync,
    C: SharedChannels + Drop,
    J: SharedBeside<C> + Drop,
    B: Book,
    G: Gate + Sync,
> Polls<Task<N, C, J, B>> for RunsLines<'_, N, G> {
    ghost use Rattle.std.specs.Prelude.{◌≡◌};
    ghost use Rattle.script_reader.specs.Scripts.{program_of};

    ghost may_poll = { λ s. program_of s.script.now ≡ N.program };

    fn poll(
        &self,
        task: Task<N, C, J, B>,
        tickets: &mut Tickets,
    ) -> Result<(Task<N, C, J, B>, bool), Memory> {
        poll_while_ready(self.script, task, tickets, self.gate)
    }
}
