//! A coroutine with the two floors of its own.

ghost use Rattle.std.specs.Prelude.{◌≡◌, IfOk, length};
ghost use Rattle.job_model.specs.Floors.{AtStep};
ghost use Rattle.call_meaning.specs.Facts.{end_at};
ghost use Rattle.script_reader.specs.Scripts.{program_of};
ghost use Rattle.poll_states.specs.Frames.{items_of, Stands};
ghost use Rattle.engine_many.specs.Parts.{sight_of, TaskPolled};
ghost use Rattle.run_laws.specs.Sights.{Keeps, KnowsTags, SawMore, IsSeenSame, IsWithin};
ghost use Rattle.run_laws.specs.LastRounds.{Did};

use call_meaning::JobsBeside;
use channel_model::ChannelFloor;
use co_base::{Gate, Memory, Tag};
use engine_base::{ScriptName, end_of};
use job_model::End;
use poll_states::{Book, Floors, Frame, Turn, poll};
use script_reader::Script;
use shared_floors::SharedChannels;
use std::marker::{Model, PhantomData};
use task_berths::Tagged;
use task_crew::{Apart, Tickets};
use word_seats::SharedBeside;

/// A coroutine of the run with the two floors that it alone calls. Contracts see it as these three. The frame lies in a box, since a task
/// is moved into its berth and out of it around each few polls, and apart from other frames, since each poll writes to it.
#[derive(Drop)]
pub struct Task<N: ScriptName, C: SharedChannels + Drop, J: SharedBeside<C> + Drop, B: Book> {
    frame: Box<Apart<Frame<B>>>,
    channels: C,
    jobs: J,
    name: PhantomData<N>,
}

impl<N: ScriptName, C: SharedChannels + Drop, J: SharedBeside<C> + Drop, B: Book> Model
    for Task<N, C, J, B> {
    ghost use Rattle.poll_states.specs.Frames.{Frame};
    ghost use Rattle.engine_many.specs.Parts.{sight_of};
    ghost use Rattle.run_laws.specs.Sights.{Keeps, KnowsTags};

    ghost Value = { Frame × C × J };

    ghost view = { λ t. (t.frame.value.value, t.channels, t.jobs) };

    ghost invariant = { λ t. Keeps N.program (sight_of C.view J.view (t.frame.value.value, t.channels, t.jobs))
        × KnowsTags N.program t.frame.value.value.tag (C.may_act (C.anchor t.channels)) (J.may_act_beside (C.anchor t.channels)) };
}

impl<N: ScriptName, C: SharedChannels + Drop, J: SharedBeside<C> + Drop, B: Book> Tagged
    for Task<N, C, J, B> {
    ghost tag_of = { λ t. t.0.tag };

    fn tag(&self) -> Tag {
        self.frame.value.tag()
    }
}

/// A poll on floors of one's own.
fn poll_on<B: Book, C: ChannelFloor, J: JobsBeside<C>, G: Gate>(
    script: &Script,
    frame: &mut Frame<B>,
    channels: &mut C,
    jobs: &mut J,
    tickets: &mut Tickets,
    gate: &G,
) -> Result<Turn, Memory>
    requires { Stands (program_of script.now) (C.view channels.old) (J.view jobs.old) frame.old }
    ensures polled { IfOk result (λ turn. TaskPolled C.view J.view (program_of script.now)
        (frame.old, channels.old, jobs.old) (frame.new, channels.new, jobs.new) turn) }
    ensures channels_anchor { C.anchor channels.new ≡ C.anchor channels.old }
    ensures jobs_anchor { J.anchor jobs.new ≡ J.anchor jobs.old }
{
    let mut floors = Floors {
        channels,
        jobs,
        wakes: tickets,
    };
    poll(script, frame, &mut floors, gate)
}

impl<N: ScriptName, C: SharedChannels + Drop, J: SharedBeside<C> + Drop, B: Book> Task<N, C, J, B> {
    /// A coroutine that stands on these floors.
    pub(crate) fn new(frame: Box<Apart<Frame<B>>>, channels: C, jobs: J) -> Task<N, C, J, B>
        requires keeps { Keeps N.program (sight_of C.view J.view (frame.value.value, channels, jobs)) }
        requires tags { KnowsTags N.program frame.value.value.tag (C.may_act (C.anchor channels)) (J.may_act_beside (C.anchor channels)) }
        ensures { result ≡ (frame.value.value, channels, jobs) }
    {
        Task {
            frame,
            channels,
            jobs,
            name: PhantomData,
        }
    }

    /// Polls the coroutine. Without memory it is dropped.
    pub(crate) fn poll<G: Gate>(
        self,
        script: &Script,
        tickets: &mut Tickets,
        gate: &G,
    ) -> Result<(Task<N, C, J, B>, Turn), Memory>
        requires { program_of script.now ≡ N.program }
        ensures polled { IfOk result (λ r. TaskPolled C.view J.view N.program self r.0 r.1) }
        ensures keeps { IfOk result (λ r. Keeps N.program (sight_of C.view J.view r.0)) }
    {
        let Task {
            mut frame,
            mut channels,
            mut jobs,
            name,
        } = self;
        let turn = poll_on(
            script,
            &mut frame.value,
            &mut channels,
            &mut jobs,
            tickets,
            gate,
        )?;
        let task = Task {
            frame,
            channels,
            jobs,
            name,
        };
        Ok((task, turn))
    }

    /// How many notes its book has.
    fn notes(&self) -> u64
        ensures { result ≡ length (items_of self.now.0) }
    {
        self.frame.value.notes()
    }

    /// Polls the coroutine. The answer says whether it did anything, and it gets a ticket where it is ready.
    pub(crate) fn poll_noting<G: Gate>(
        self,
        script: &Script,
        tickets: &mut Tickets,
        gate: &G,
    ) -> Result<(Task<N, C, J, B>, bool), Memory>
        requires { program_of script.now ≡ N.program }
        ensures did { IfOk result (λ r. Did N.program (sight_of C.view J.view self) (sight_of C.view J.view r.0) r.1) }
        ensures keeps { IfOk result (λ r. Keeps N.program (sight_of C.view J.view r.0)) }
        ensures tag { IfOk result (λ r. r.0.0.tag ≡ self.0.tag) }
    {
        let tag = self.tag();
        let before = self.notes();
        let (task, turn) = self.poll(script, tickets, gate)?;
        if turn == Turn::Ready {
            tickets.put(tag);
            return Ok((task, true));
        }
        let noted = task.notes() > before;
        Ok((task, noted))
    }

    /// Hears of all that the other has seen.
    pub(crate) fn hear(&mut self, other: &mut Task<N, C, J, B>)
        ensures more { SawMore (sight_of C.view J.view self.old) (sight_of C.view J.view self.new) }
        ensures heard { IsWithin (sight_of C.view J.view other.old) (sight_of C.view J.view self.new) }
        ensures other { IsSeenSame (sight_of C.view J.view other.old) (sight_of C.view J.view other.new) }
    {
        self.channels.meet(&mut other.channels);
        self.jobs.meet(&mut other.jobs);
    }

    /// How the Job of the root has ended, if it has. The coroutine is the root.
    pub(crate) fn look_at_root(&mut self) -> Option<End>
        requires { self.old.0.tag ≡ 0 }
        ensures more { SawMore (sight_of C.view J.view self.old) (sight_of C.view J.view self.new) }
        ensures seen { AtStep (J.view self.old.2) (J.view self.new.2) (λ tree. end_at (tree 0) ≡ result) }
    {
        end_of(self.jobs.look(0, 0))
    }

    /// The frame and the floors.
    pub(crate) fn into_parts(self) -> (Frame<B>, C, J)
        ensures same { result ≡ self }
        ensures keeps { Keeps N.program (sight_of C.view J.view self) }
        ensures tags { KnowsTags N.program self.0.tag (C.may_act (C.anchor self.1)) (J.may_act_beside (C.anchor self.1)) }
    {
        let Task {
            frame,
            channels,
            jobs,
            name: _,
        } = self;
        (Box::into_inner(frame).into_inner(), channels, jobs)
    }
}
