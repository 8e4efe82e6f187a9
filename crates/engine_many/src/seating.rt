//! A task for each coroutine of a script, on seats at a hub and at a forest of one table.

ghost use Rattle.std.specs.Prelude.{◌≡◌, IfOk, length};
ghost use Rattle.cell_calls.specs.HubFloors.{hub_floor};
ghost use Rattle.job_words.specs.Forests.{seen_by};
ghost use Rattle.job_words.specs.Passes.{floor_seen};
ghost use Rattle.script_grammar.specs.Tags.{coroutine_count};
ghost use Rattle.script_meaning.specs.Shapes.{job_shape};
ghost use Rattle.script_reader.specs.Scripts.{program_of};
ghost use Rattle.word_rules.specs.Deeds.{shape_of};
ghost use Rattle.word_seats.specs.Names.{IsNamedForest};
ghost use Rattle.word_seats.specs.Seats.{hub_anchor, hub_may_act, may_act_beside, NobodyFrom};
ghost use Rattle.run_laws.specs.Sights.{CountUp};
ghost use Rattle.run_laws.specs.Ends.{IsSpare};
ghost use Rattle.engine_many.specs.Parts.{tags_of};
ghost use Rattle.engine_many.specs.WordRuns.{IsFreshHub};

use crate::task::Task;
use co_base::Memory;
use engine_base::ScriptName;
use job_words::Forest;
use poll_states::Book;
use script_reader::Script;
use std::alloc::Global;
use word_seats::{ForestSeat, HubSeat, TableName};

/// A task for each coroutine, in order of their tags, and seats of one tag more, under which nobody acts. The root attaches what the script
/// spawns.
pub(crate) fn seat_tasks<'a, N: ScriptName + TableName, B: Book>(
    alloc: Global,
    script: &Script,
    root: HubSeat<'a, N>,
    forest: &'a Forest,
) -> Result<
    (
        Vec<Task<N, HubSeat<'a, N>, ForestSeat<'a, N>, B>>,
        (HubSeat<'a, N>, ForestSeat<'a, N>),
    ),
    Memory,
>
    requires script { program_of script.now ≡ N.program }
    requires channels { IsFreshHub N.program (hub_floor root.hub.now root.pass) }
    requires forest { IsNamedForest N.table N.table_key forest.now }
    requires rows { shape_of forest.now.size ≡ job_shape N.program }
    requires nobody { NobodyFrom 1 (hub_may_act (hub_anchor root.hub.now root.pass)) }
    requires nobody_on_jobs { NobodyFrom 0 (may_act_beside (hub_anchor root.hub.now root.pass)) }
    ensures count { IfOk result (λ r. length r.0.items ≡ coroutine_count N.program) }
    ensures tags { IfOk result (λ r. CountUp 0 (tags_of r.0.items)) }
    ensures aside { IfOk result (λ r. IsSpare N.program (hub_floor r.1.0.hub.now r.1.0.pass) (floor_seen (seen_by r.1.1.pass))) }
{
    let mut root = root;
    let root_jobs = root.split_beside(forest, 0);
    let count = script.coroutines();
    let mut tasks = Vec::with_capacity(alloc, count as usize)?;
    for tag in 1..count {
        let channels = root.split(tag);
        let jobs = root.split_beside(forest, tag);
        let task = Task::child(alloc, script, tag, channels, jobs)?;
        tasks.push(task)?;
    }
    let aside = root.split(count);
    let aside_jobs = root.split_beside(forest, count);
    let first = Task::root(alloc, script, root, root_jobs)?;
    tasks.insert(0, first)?;
    Ok((tasks, (aside, aside_jobs)))
}
