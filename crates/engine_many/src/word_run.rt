//! A run of a script over words.

ghost use Rattle.std.specs.Prelude.{◌≡◌, ◌≤◌, ◌∷◌, [], IfOk, is_none, map};
ghost use Rattle.word_rules.specs.Deeds.{shape_of as rows_of};
ghost use Rattle.cell_words.specs.Hubs.{IsOf, IsOwn, GivesTags, shape_of, seen_by, beside};
ghost use Rattle.job_words.specs.Forests.{IsOf as IsOfForest, seen_by as jobs_seen_by};
ghost use Rattle.job_words.specs.Passes.{floor_seen};
ghost use Rattle.script_grammar.specs.Tags.{coroutine_count};
ghost use Rattle.script_meaning.specs.Shapes.{floor_shape, job_shape};
ghost use Rattle.script_reader.specs.Scripts.{program_of};
ghost use Rattle.word_seats.specs.Names.{IsNamedHub, IsNamedForest};
ghost use Rattle.run_laws.specs.Ends.{IsRunInOneOrder};
ghost use Rattle.engine_many.specs.WordRuns.{HasAllTags, HasAllJobTags, CameToRest, TellsIdle};

use crate::ending::Left;
use crate::run::run_tasks;
use crate::seating::seat_tasks;
use cell_words::{Hub, Pass};
use co_base::{Gate, Memory};
use engine_base::{ScriptName, kinds_of};
use job_words::{Forest, JobPass};
use poll_states::{Book, Done};
use script_reader::Script;
use std::alloc::Global;
use std::marker::{Brand, PhantomData};
use std::sync::Wait;
use std::thread::Threads;
use word_seats::{ForestSeat, HubSeat, TableName, hub_and_forest};

/// What a run leaves; and its channels and Jobs, with passes that may call for every coroutine and have seen all entries.
#[derive(Drop)]
pub struct WordRun<B> {
    pub done: Done<B>,
    pub hub: Hub,
    pub pass: Pass,
    pub forest: Forest,
    pub jobs: JobPass,
}

/// Runs the script until no coroutine can go on. It starts so many workers, but no more than there are coroutines, and two at least. No
/// worker waits for a lock: the channels and Jobs are words that they change by single steps.
///
/// The first tickets are those of main and of the spawned instances, in their order, dealt to the workers in turn. Which worker polls a
/// coroutine, and in which order coroutines are polled, is left open.
///
/// A worker that is held at the gate in one coroutine keeps at most one other from being polled: the one that it polled last, where it woke
/// the held one.
///
/// The books are those of a run with the histories of its hub and of its forest, which came to rest; nobody can go on. Both histories have
/// one order, along which each coroutine told its story. The passes may call for every coroutine, and nobody else has a tag, so that they
/// have seen the whole of both histories, and no entry is made but by them. The hub and the forest stand on one table, and the hub's pass
/// gives out the tags of both.
pub fn run_many<B: Book + Send, R: Threads + Wait + Sync, G: Gate + Sync>(
    rt: &R,
    alloc: Global,
    script: &Script,
    workers: u8,
    gate: &G,
) -> Result<WordRun<B>, Memory>
    requires { (2 ≤ workers) × (workers ≤ 16) }
    ensures run { IfOk result (λ run. CameToRest B.items (program_of script.now) run) }
    ensures idle { IfOk result (λ run. TellsIdle run) }
{
    let (hub, pass, forest) = table_of(alloc, script)?;
    let (done, pass, jobs) = run_seated::<Brand, B, R, G>(
        rt, alloc, script, workers, gate, &hub, pass, &forest,
    )?;
    Ok(WordRun {
        done,
        hub,
        pass,
        forest,
        jobs,
    })
}

/// A hub with the channels that the script declares, and a done channel for each Job, and the pass of tag 0; and on the same table a forest
/// with a row for each coroutine and for each scope.
fn table_of(alloc: Global, script: &Script) -> Result<(Hub, Pass, Forest), Memory>
    ensures shape { IfOk result (λ r. shape_of r.0 ≡ floor_shape (program_of script.now)) }
    ensures own { IfOk result (λ r. IsOwn r.0 r.1 0) }
    ensures gives { IfOk result (λ r. GivesTags (0 ∷ []) r.1) }
    ensures seen { IfOk result (λ r. (seen_by r.1).seen ≡ []) }
    ensures beside { IfOk result (λ r. (beside r.1).given ≡ []) }
    ensures rows { IfOk result (λ r. rows_of r.2.size ≡ job_shape (program_of script.now)) }
    ensures table { IfOk result (λ r. r.2.table.value ≡ r.0.table.value) }
{
    let kinds = kinds_of(alloc, script)?;
    hub_and_forest(alloc, &kinds, script.coroutines(), script.scopes())
}

/// Runs the script on seats at this hub and this forest, of one table, with which nothing was done.
fn run_seated<
    N: ScriptName + TableName + Send + Sync,
    B: Book + Send,
    R: Threads + Wait + Sync,
    G: Gate + Sync,
>(
    rt: &R,
    alloc: Global,
    script: &Script,
    workers: u8,
    gate: &G,
    hub: &Hub,
    pass: Pass,
    forest: &Forest,
) -> Result<(Done<B>, Pass, JobPass), Memory>
    requires workers { (2 ≤ workers) × (workers ≤ 16) }
    requires script { program_of script.now ≡ N.program }
    requires hub { IsNamedHub N.table N.table_key hub.now × IsOwn hub.now pass 0 × GivesTags (0 ∷ []) pass }
    requires forest { IsNamedForest N.table N.table_key forest.now × ((beside pass).given ≡ []) }
    requires channels { (shape_of hub.now ≡ floor_shape N.program) × ((seen_by pass).seen ≡ []) }
    requires rows { rows_of forest.now.size ≡ job_shape N.program }
    ensures pass { IfOk result (λ r. IsOf hub.now r.1) }
    ensures jobs { IfOk result (λ r. IsOfForest forest.now r.2) }
    ensures tags { IfOk result (λ r. HasAllTags (coroutine_count N.program) hub.now r.1) }
    ensures job_tags { IfOk result (λ r. HasAllJobTags (coroutine_count N.program) forest.now r.1 r.2) }
    ensures job_shape { IfOk result (λ r. (floor_seen (jobs_seen_by r.2)).shape ≡ job_shape N.program) }
    ensures rest { IfOk result (λ r. IsRunInOneOrder N.program (map B.items r.0.books.items)
        (seen_by r.1).seen (floor_seen (jobs_seen_by r.2)).seen r.0.end) }
    ensures idle { IfOk result (λ r. r.0.idle ≡ is_none r.0.end) }
{
    let root: HubSeat<'_, N> = HubSeat {
        hub,
        pass,
        name: PhantomData,
    };
    let (tasks, aside) = seat_tasks(alloc, script, root, forest)?;
    let (left, end) = run_tasks(rt, alloc, script, workers, gate, tasks, aside)?;
    let Left {
        books,
        channels,
        jobs,
    } = left;
    let HubSeat {
        hub: _,
        pass,
        name: _,
    } = channels;
    let ForestSeat {
        forest: _,
        pass: job_pass,
        name: _,
    } = jobs;
    let done = Done {
        books,
        idle: end.is_none(),
        end,
    };
    Ok((done, pass, job_pass))
}
