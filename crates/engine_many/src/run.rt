//! A whole run by several workers without a lock.

ghost use Rattle.std.specs.Prelude.{◌≡◌, ◌<◌, ◌≤◌, IfOk, length, vec_len};
ghost use Rattle.script_grammar.specs.Tags.{coroutine_count};
ghost use Rattle.script_reader.specs.Scripts.{program_of};
ghost use Rattle.engine_many.specs.Parts.{sight_of, tags_of};
ghost use Rattle.engine_many.specs.Endings.{IsLeftAtRest};
ghost use Rattle.run_laws.specs.Sights.{CountUp};
ghost use Rattle.run_laws.specs.LastRounds.{AllRested};
ghost use Rattle.run_laws.specs.Ends.{IsSpare};

use crate::dealing::deal;
use crate::ending::Left;
use crate::rounds::{end_run, last_round};
use crate::task::Task;
use crate::worker::RunsLines;
use channel_model::ChannelFloor;
use co_base::{Gate, Memory};
use engine_base::ScriptName;
use job_model::{End, JobFloor};
use poll_states::Book;
use script_reader::Script;
use shared_floors::SharedChannels;
use std::alloc::Global;
use std::marker::PhantomData;
use std::sync::Wait;
use std::thread::Threads;
use task_crew::{Tickets, no_tickets, run_crew};
use word_seats::SharedBeside;

/// The workers poll the coroutines of all tickets, until none is left. Gives back the tasks in order of their tags, and the lanes.
fn run_tickets<
    N: ScriptName + Send + Sync,
    C: SharedChannels + Drop + Send,
    J: SharedBeside<C> + Drop + Send,
    B: Book + Send,
    R: Threads + Wait + Sync,
    G: Gate + Sync,
>(
    rt: &R,
    alloc: Global,
    script: &Script,
    gate: &G,
    tasks: Vec<Task<N, C, J, B>>,
    tickets: Vec<Tickets>,
) -> Result<(Vec<Task<N, C, J, B>>, Vec<Tickets>), Memory>
    requires script { program_of script.now ≡ N.program }
    requires count { length tasks.items ≡ coroutine_count N.program }
    requires tags { CountUp 0 (tags_of tasks.items) }
    requires few { vec_len tickets ≤ 16 }
    ensures count { IfOk result (λ r. length r.0.items ≡ coroutine_count N.program) }
    ensures tags { IfOk result (λ r. CountUp 0 (tags_of r.0.items)) }
    ensures lanes { IfOk result (λ r. vec_len r.1 ≡ vec_len tickets) }
{
    let polls = RunsLines::<N, G> {
        script,
        gate,
        name: PhantomData,
    };
    let (left, tickets) = run_crew(rt, alloc, &polls, tasks, tickets)?;
    Ok((left, tickets))
}

/// The workers poll, and a last round is held, until it comes to nothing.
fn run_rounds<
    N: ScriptName + Send + Sync,
    C: SharedChannels + Drop + Send,
    J: SharedBeside<C> + Drop + Send,
    B: Book + Send,
    R: Threads + Wait + Sync,
    G: Gate + Sync,
>(
    rt: &R,
    alloc: Global,
    script: &Script,
    gate: &G,
    tasks: Vec<Task<N, C, J, B>>,
    lanes: Vec<Tickets>,
) -> Result<Vec<Task<N, C, J, B>>, Memory>
    requires script { program_of script.now ≡ N.program }
    requires count { length tasks.items ≡ coroutine_count N.program }
    requires tags { CountUp 0 (tags_of tasks.items) }
    requires some { 0 < vec_len lanes }
    requires few { vec_len lanes ≤ 16 }
    ensures count { IfOk result (λ v. length v.items ≡ coroutine_count N.program) }
    ensures tags { IfOk result (λ v. CountUp 0 (tags_of v.items)) }
    ensures rested { IfOk result (λ v. AllRested (sight_of C.view J.view) N.program v.items) }
{
    let mut tasks = tasks;
    let mut lanes = lanes;
    'rounds: for _ in rt.forever() {
        let (left, mut back) = run_tickets(rt, alloc, script, gate, tasks, lanes)?;
        let (polled, moved) = last_round(alloc, script, left, &mut back[0], gate)?;
        if !moved {
            return Ok(polled);
        }
        tasks = polled;
        lanes = back;
    }
    unreachable!()
}

/// Runs the tasks of a script until no coroutine can go on: what is left, and how the root has ended, if it has. It starts so many workers,
/// but no more than there are coroutines, and two at least. If all floors of Jobs are joint, both histories have one order.
pub fn run_tasks<
    N: ScriptName + Send + Sync,
    C: SharedChannels + Drop + Send,
    J: SharedBeside<C> + Drop + Send,
    B: Book + Send,
    R: Threads + Wait + Sync,
    G: Gate + Sync,
>(
    rt: &R,
    alloc: Global,
    script: &Script,
    workers: u8,
    gate: &G,
    tasks: Vec<Task<N, C, J, B>>,
    aside: (C, J),
) -> Result<(Left<C, J, B>, Option<End>), Memory>
    requires script { program_of script.now ≡ N.program }
    requires workers { (2 ≤ workers) × (workers ≤ 16) }
    requires count { length tasks.items ≡ coroutine_count N.program }
    requires tags { CountUp 0 (tags_of tasks.items) }
    requires aside { IsSpare N.program (C.view aside.0) (J.view aside.1) }
    ensures { IfOk result (λ r. IsLeftAtRest B.items C.view J.view (λ c. C.may_act (C.anchor c)) (λ c. J.may_act_beside (C.anchor c))
        N.program r.0 r.1) }
{
    let count = script.coroutines();
    // More workers than coroutines would find nothing to do.
    let workers = workers.min(u8::try_from(count.max(2)).unwrap_or(workers));
    let mut lanes = no_tickets(alloc, workers, u32::from(count))?;
    deal(&mut lanes, script);
    let tasks = run_rounds(rt, alloc, script, gate, tasks, lanes)?;
    end_run(alloc, tasks, aside)
}
