//! The lines of a coroutine on Jobs, and the end of its body.

ghost use Rattle.std.specs.Prelude.{◌≡◌, None, OnOk};
ghost use Rattle.script_grammar.specs.declared.instructions.Instruction.TheVariants.{Yield, Launch};
ghost use Rattle.script_reader.specs.Scripts.{program_of};
ghost use Rattle.script_meaning.specs.declared.stage.Stage.TheVariants.{Unwinding, Ended};
ghost use Rattle.script_meaning.specs.Configs.{scope_in};
ghost use Rattle.script_meaning.specs.Lines.{is_lazy};
ghost use Rattle.poll_states.specs.Frames.{config_of, SameFloors, noted, seen, IsStanding, IsAtLine};
ghost use Rattle.poll_states.specs.Steps.{HasBody, OwnStateSeen, IsAtEnd, StepAnswer};

use crate::coroutine::Coroutine;
use crate::floors::{Floors, builder};
use call_meaning::JobsBeside;
use channel_model::ChannelFloor;
use co_base::{Gate, Memory, Row, Tag, Wakes};
use job_model::{JobFloor, JobState};
use note_book::NoteBook;
use scope_builders::LaunchError;
use script_meaning::Stage;
use script_reader::{Launching, Script};

/// What a coroutine sees of a Job of its own, before the body has ended.
#[derive(Clone, Copy)]
pub(crate) enum OwnState {
    /// It is not attached, or New.
    NotStarted,
    Cancelling,
    MayRun,
}

/// Looks at the caller's own Job, or that of a scope of its own, whose body has not ended.
pub(crate) fn own_state<J: JobFloor>(who: Tag, row: Row, jobs: &mut J) -> OwnState
    requires { HasBody who row (J.view jobs.old) }
    ensures anchor { J.anchor jobs.new ≡ J.anchor jobs.old }
    ensures seen { OwnStateSeen who row (J.view jobs.old) (J.view jobs.new) result }
{
    match jobs.look(who, row) {
        None => OwnState::NotStarted,
        Some(view) => match view.state {
            JobState::New => OwnState::NotStarted,
            JobState::Active => OwnState::MayRun,
            JobState::Cancelling => OwnState::Cancelling,
            JobState::Completing | JobState::Cancelled | JobState::Completed => unreachable!(),
        },
    }
}

/// Looks whether the innermost Job is Cancelling.
pub(crate) fn look_up<B: NoteBook, C: ChannelFloor, J: JobsBeside<C>, W: Wakes, G: Gate>(
    script: &Script,
    frame: &mut Coroutine<B>,
    floors: &mut Floors<'_, '_, '_, C, J, W>,
    gate: &G,
) -> Result<(), Memory>
    requires stands { IsStanding script.now (seen C.view J.view B.items floors.old frame.old) }
    requires at { IsAtLine script.now frame.old Yield }
    ensures came { StepAnswer script.now (seen C.view J.view B.items floors.old frame.old)
        (seen C.view J.view B.items floors.new frame.new) result }
    ensures same { SameFloors C.anchor J.anchor floors.old floors.new }
{
    if let Err(memory) = frame.book.room(1) {
        return Err(memory);
    }
    let row = frame.innermost();
    gate.pass(frame.tag, 2);
    let state = own_state(frame.tag, row, &mut *floors.jobs);
    gate.pass(frame.tag, 3);
    match state {
        OwnState::NotStarted => unreachable!(),
        OwnState::Cancelling => {
            frame.see_cancelling(row);
            floors.tell();
            Ok(())
        }
        OwnState::MayRun => {
            frame.next_line();
            floors.tell();
            Ok(())
        }
    }
}

/// Whether the Job that is launched so is started by another line.
fn is_lazy(how: Launching) -> bool
    ensures { result ≡ is_lazy how }
{
    match how {
        Launching::Plain | Launching::Async => false,
        Launching::Lazy => true,
    }
}

/// Attaches the Job of the next tag under the innermost Job, which runs an instance of the block, and gives it its name. A refusal breaks
/// the body off.
pub(crate) fn launch<B: NoteBook, C: ChannelFloor, J: JobsBeside<C>, W: Wakes, G: Gate>(
    script: &Script,
    frame: &mut Coroutine<B>,
    floors: &mut Floors<'_, '_, '_, C, J, W>,
    gate: &G,
    block: u16,
    how: Launching,
    job: Option<u16>,
) -> Result<(), Memory>
    requires stands { IsStanding script.now (seen C.view J.view B.items floors.old frame.old) }
    requires at { IsAtLine script.now frame.old (Launch block how job) }
    ensures came { StepAnswer script.now (seen C.view J.view B.items floors.old frame.old)
        (seen C.view J.view B.items floors.new frame.new) result }
    ensures same { SameFloors C.anchor J.anchor floors.old floors.new }
{
    if frame.rows.reserve(1).is_err() {
        return Err(Memory);
    }
    let size = script.size_of(block);
    let free = frame.free as Tag;
    let parent = frame.innermost();
    let mut builder = builder!(script, frame, floors);
    gate.pass(frame.tag, 2);
    let answer = builder.launch(parent, free, is_lazy(how));
    gate.pass(frame.tag, 3);
    match answer {
        Ok(_) => {
            frame.skip_launched(job, size);
            floors.tell();
            Ok(())
        }
        Err(error) => match error {
            LaunchError::NoRow => unreachable!(),
            LaunchError::Used | LaunchError::ParentEnded => {
                frame.fail();
                floors.tell();
                Ok(())
            }
            LaunchError::Memory => Err(Memory),
        },
    }
}

/// Ends the body if no line is left.
pub(crate) fn end_body<B: NoteBook, C: ChannelFloor, J: JobsBeside<C>, W: Wakes>(
    script: &Script,
    frame: &mut Coroutine<B>,
    floors: &mut Floors<'_, '_, '_, C, J, W>,
) -> Result<(), Memory>
    requires stands { IsStanding script.now (seen C.view J.view B.items floors.old frame.old) }
    requires left { IsAtEnd (program_of script.now) (noted B.items frame.old) }
    ensures came { StepAnswer script.now (seen C.view J.view B.items floors.old frame.old)
        (seen C.view J.view B.items floors.new frame.new) result }
    ensures same { SameFloors C.anchor J.anchor floors.old floors.new }
{
    let mut builder = builder!(script, frame, floors);
    match builder.end_job(frame.tag, frame.result) {
        Ok(_) => {
            frame.stage = Stage::Ended;
            Ok(())
        }
        Err(memory) => Err(memory),
    }
}

/// Breaks the body off if no scope is open, by the failure of a row or as cancelled.
pub(crate) fn break_off<B: NoteBook, C: ChannelFloor, J: JobsBeside<C>, W: Wakes>(
    script: &Script,
    frame: &mut Coroutine<B>,
    floors: &mut Floors<'_, '_, '_, C, J, W>,
    failure: Option<Row>,
) -> Result<(), Memory>
    requires stands { IsStanding script.now (seen C.view J.view B.items floors.old frame.old) }
    requires no_scope { scope_in (config_of frame.old).entered ≡ None }
    requires unwinds { frame.old.stage ≡ Unwinding failure }
    ensures came { StepAnswer script.now (seen C.view J.view B.items floors.old frame.old)
        (seen C.view J.view B.items floors.new frame.new) result }
    ensures ended { OnOk result (frame.new.stage ≡ Ended) }
    ensures same { SameFloors C.anchor J.anchor floors.old floors.new }
{
    let mut builder = builder!(script, frame, floors);
    match builder.break_job(frame.tag, failure) {
        Ok(_) => {
            frame.stage = Stage::Ended;
            Ok(())
        }
        Err(memory) => Err(memory),
    }
}
