//! Every coroutine is polled once.

ghost use Rattle.std.specs.Prelude.{◌≡◌, false, IfOk};
ghost use Rattle.script_reader.specs.Scripts.{program_of};
ghost use Rattle.engine_many.specs.Parts.{sight_of, tags_of};
ghost use Rattle.run_laws.specs.LastRounds.{AllMet, AllRested};

use crate::task::Task;
use co_base::{Gate, Memory};
use engine_base::ScriptName;
use poll_states::Book;
use script_reader::Script;
use shared_floors::SharedChannels;
use std::alloc::Global;
use task_crew::Tickets;
use word_seats::SharedBeside;

/// Polls each of them once, in order. The answer says whether one of them did anything. Who is ready, and who was woken, gets a ticket.
pub(crate) fn poll_all<
    N: ScriptName,
    C: SharedChannels + Drop,
    J: SharedBeside<C> + Drop,
    B: Book,
    G: Gate,
>(
    alloc: Global,
    script: &Script,
    tasks: Vec<Task<N, C, J, B>>,
    tickets: &mut Tickets,
    gate: &G,
) -> Result<(Vec<Task<N, C, J, B>>, bool), Memory>
    requires { program_of script.now ≡ N.program }
    ensures tags { IfOk result (λ r. tags_of r.0.items ≡ tags_of tasks.items) }
    ensures rested { IfOk result (λ r. r.1 ≡ false → AllMet (sight_of C.view J.view) tasks.items
        → AllRested (sight_of C.view J.view) N.program r.0.items) }
{
    let mut polled = Vec::with_capacity(alloc, tasks.len())?;
    let mut moved = false;
    for task in tasks {
        let (task, did) = task.poll_noting(script, tickets, gate)?;
        moved |= did;
        polled.push_reserved(task);
    }
    Ok((polled, moved))
}
