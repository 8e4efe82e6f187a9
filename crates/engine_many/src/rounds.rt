//! What the calling thread does when the workers have ended.

ghost use Rattle.std.specs.Prelude.{◌≡◌, ◌<◌, false, IfOk, length};
ghost use Rattle.script_grammar.specs.Tags.{coroutine_count};
ghost use Rattle.script_reader.specs.Scripts.{program_of};
ghost use Rattle.script_grammar.specs.WellFormed.{IsProgram};
ghost use Rattle.engine_many.specs.Parts.{sight_of, tags_of};
ghost use Rattle.run_laws.specs.Sights.{CountUp};
ghost use Rattle.run_laws.specs.LastRounds.{AllRested};
ghost use Rattle.run_laws.specs.Ends.{IsSpare};
ghost use Rattle.engine_many.specs.Endings.{IsLeftAtRest};

use crate::ending::{Left, end_floors};
use crate::meetings::meet_all;
use crate::polling::poll_all;
use crate::task::Task;
use channel_model::ChannelFloor;
use co_base::{Gate, Memory};
use engine_base::ScriptName;
use job_model::{End, JobFloor};
use poll_states::Book;
use script_reader::Script;
use shared_floors::SharedChannels;
use std::alloc::Global;
use task_crew::Tickets;
use word_seats::SharedBeside;

/// All hear of all, and then every coroutine is polled once. The answer says whether one of them did anything.
pub(crate) fn last_round<
    N: ScriptName,
    C: SharedChannels + Drop,
    J: SharedBeside<C> + Drop,
    B: Book,
    G: Gate,
>(
    alloc: Global,
    script: &Script,
    tasks: Vec<Task<N, C, J, B>>,
    tickets: &mut Tickets,
    gate: &G,
) -> Result<(Vec<Task<N, C, J, B>>, bool), Memory>
    requires script { program_of script.now ≡ N.program }
    requires some { 0 < length tasks.items }
    ensures tags { IfOk result (λ r. tags_of r.0.items ≡ tags_of tasks.items) }
    ensures rested { IfOk result (λ r. r.1 ≡ false → AllRested (sight_of C.view J.view) N.program r.0.items) }
{
    let mut tasks = tasks;
    meet_all(&mut tasks);
    poll_all(alloc, script, tasks, tickets, gate)
}

/// All have rested: they hear of all once more, and their floors are ended into those of the root. What is left, and how the root has
/// ended, if it has.
pub(crate) fn end_run<N: ScriptName, C: SharedChannels + Drop, J: SharedBeside<C> + Drop, B: Book>(
    alloc: Global,
    tasks: Vec<Task<N, C, J, B>>,
    aside: (C, J),
) -> Result<(Left<C, J, B>, Option<End>), Memory>
    requires script { IsProgram N.program }
    requires count { length tasks.items ≡ coroutine_count N.program }
    requires tags { CountUp 0 (tags_of tasks.items) }
    requires rested { AllRested (sight_of C.view J.view) N.program tasks.items }
    requires aside { IsSpare N.program (C.view aside.0) (J.view aside.1) }
    ensures { IfOk result (λ r. IsLeftAtRest B.items C.view J.view (λ c. C.may_act (C.anchor c)) (λ c. J.may_act_beside (C.anchor c))
        N.program r.0 r.1) }
{
    let room = Vec::with_capacity(alloc, tasks.len())?;
    let mut others = tasks;
    meet_all(&mut others);
    let mut root = others.remove(0);
    let end = root.look_at_root();
    Ok((end_floors(room, root, others, aside), end))
}
