//! How a coroutine sees the end that is still to be seen, and goes on.

ghost use Rattle.std.specs.Prelude.{◌≡◌, ◌<◌, true};
ghost use Rattle.script_reader.specs.Scripts.{program_of};
ghost use Rattle.script_meaning.specs.declared.stage.Stage.TheVariants.{SeesJob};
ghost use Rattle.script_meaning.specs.Polls.{HasToSee, is_seeing};
ghost use Rattle.poll_states.specs.Frames.{config_of, SameFloors, noted, seen, IsStanding};
ghost use Rattle.poll_states.specs.SeenEnds.{after_job, AwaitsNamed, SeenAnswer};

use crate::answers::unwinds_for;
use crate::code::code_of;
use crate::coroutine::Coroutine;
use crate::floors::{Floors, builder};
use crate::scopes::see_scope;
use call_meaning::JobsBeside;
use channel_model::ChannelFloor;
use co_base::{Memory, Row, Wakes};
use job_model::End;
use note_book::NoteBook;
use script_meaning::Stage;
use script_reader::{Instruction, Script};

impl<B: NoteBook> Coroutine<B> {
    /// Goes on after the Job that it awaited ended so.
    pub(crate) fn go_on_job_ended(&mut self, end: End)
        requires { self.old.line < usize.MAX }
        ensures tag { self.new.tag ≡ self.old.tag }
        ensures config { config_of self.new ≡ after_job end (config_of self.old) }
        ensures items { B.items self.new.book ≡ B.items self.old.book }
    {
        match end {
            End::Completed(value) => {
                self.take_in(value);
                self.next_line();
            }
            End::Cancelled(cause) => self.stage = unwinds_for(cause),
        }
    }
}

/// The row of the Job for which its line waits.
fn awaited<B: NoteBook>(script: &Script, frame: &Coroutine<B>) -> Row
    requires { AwaitsNamed (program_of script.now) (noted B.items frame.now) }
    ensures { HasToSee (program_of script.now) frame.now.tag (config_of frame.now) result }
{
    match code_of(script, frame.tag)[frame.line] {
        Instruction::Await { job } => frame.rows[job as usize],
        _ => unreachable!(),
    }
}

/// Sees how the Job ended that it awaited, if that has ended.
fn see_job<B: NoteBook, C: ChannelFloor, J: JobsBeside<C>, W: Wakes>(
    script: &Script,
    frame: &mut Coroutine<B>,
    floors: &mut Floors<'_, '_, '_, C, J, W>,
) -> Result<(), Memory>
    requires stands { IsStanding script.now (seen C.view J.view B.items floors.old frame.old) }
    requires sees { frame.old.stage ≡ SeesJob }
    ensures came { SeenAnswer script.now (seen C.view J.view B.items floors.old frame.old)
        (seen C.view J.view B.items floors.new frame.new) result }
    ensures wakes { floors.new.wakes.now ≡ floors.old.wakes.now }
    ensures same { SameFloors C.anchor J.anchor floors.old floors.new }
{
    let row = awaited(script, frame);
    let mut builder = builder!(script, frame, floors);
    match builder.seen_end(row) {
        Ok(Some(end)) => {
            frame.go_on_job_ended(end);
            floors.tell();
            Ok(())
        }
        Ok(None) => Ok(()),
        Err(memory) => Err(memory),
    }
}

/// Sees the end that is still to be seen, if that Job has ended, and goes on as it says.
pub(crate) fn see_end<B: NoteBook, C: ChannelFloor, J: JobsBeside<C>, W: Wakes>(
    script: &Script,
    frame: &mut Coroutine<B>,
    floors: &mut Floors<'_, '_, '_, C, J, W>,
) -> Result<(), Memory>
    requires stands { IsStanding script.now (seen C.view J.view B.items floors.old frame.old) }
    requires seeing { is_seeing frame.old.stage ≡ true }
    ensures came { SeenAnswer script.now (seen C.view J.view B.items floors.old frame.old)
        (seen C.view J.view B.items floors.new frame.new) result }
    ensures wakes { floors.new.wakes.now ≡ floors.old.wakes.now }
    ensures same { SameFloors C.anchor J.anchor floors.old floors.new }
{
    match frame.stage {
        Stage::SeesJob => see_job(script, frame, floors),
        Stage::SeesScope => see_scope(script, frame, floors),
        _ => unreachable!(),
    }
}
