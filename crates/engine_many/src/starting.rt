//! Tasks before their first poll.

ghost use Rattle.std.specs.Prelude.{◌≡◌, ◌≢◌, ◌<◌, IfOk};
ghost use Rattle.script_grammar.specs.Tags.{coroutine_count};
ghost use Rattle.script_reader.specs.Scripts.{program_of};
ghost use Rattle.poll_states.specs.Steps.{IsOnItsChannels, IsOnItsJobs};
ghost use Rattle.run_laws.specs.Sights.{KnowsTags};
ghost use Rattle.run_laws.specs.Starts.{IsUntouched};

use crate::task::Task;
use call_meaning::JobsBeside;
use co_base::{Memory, Tag};
use engine_base::ScriptName;
use poll_states::{Book, Frame, begin};
use script_reader::Script;
use shared_floors::SharedChannels;
use std::alloc::Global;
use task_crew::Apart;
use word_seats::SharedBeside;

/// The frame in a box, apart from all others.
fn in_box<B: Book>(alloc: Global, frame: Frame<B>) -> Result<Box<Apart<Frame<B>>>, Memory>
    ensures { IfOk result (λ boxed. boxed.value.value ≡ frame) }
{
    let boxed = Box::new(alloc, Apart::new(frame))?;
    Ok(boxed)
}

impl<N: ScriptName, C: SharedChannels + Drop, J: SharedBeside<C> + Drop, B: Book> Task<N, C, J, B> {
    /// The root, which attaches what the script spawns. Its floor of channels hears of that.
    pub fn root(
        alloc: Global,
        script: &Script,
        channels: C,
        jobs: J,
    ) -> Result<Task<N, C, J, B>, Memory>
        requires script { program_of script.now ≡ N.program }
        requires channels { IsOnItsChannels (program_of script.now) (C.view channels) }
        requires jobs { IsOnItsJobs (program_of script.now) (J.view jobs) }
        requires tags { KnowsTags N.program 0 (C.may_act (C.anchor channels)) (J.may_act_beside (C.anchor channels)) }
        ensures tag { IfOk result (λ t. t.0.tag ≡ 0) }
    {
        let mut frame = Frame::new(alloc, script, 0)?;
        let mut jobs = jobs;
        let mut channels = channels;
        begin(script, &mut frame, &mut jobs)?;
        jobs.tell(&mut channels);
        let boxed = in_box(alloc, frame)?;
        Ok(Task::new(boxed, channels, jobs))
    }

    /// Another coroutine, which did nothing yet.
    pub fn child(
        alloc: Global,
        script: &Script,
        tag: Tag,
        channels: C,
        jobs: J,
    ) -> Result<Task<N, C, J, B>, Memory>
        requires script { program_of script.now ≡ N.program }
        requires tag { tag < coroutine_count (program_of script.now) }
        requires child { tag ≢ 0 }
        requires untouched { IsUntouched (program_of script.now) tag (C.view channels) (J.view jobs) }
        ensures tag { IfOk result (λ t. t.0.tag ≡ tag) }
    {
        let frame = Frame::new(alloc, script, tag)?;
        let boxed = in_box(alloc, frame)?;
        Ok(Task::new(boxed, channels, jobs))
    }
}
