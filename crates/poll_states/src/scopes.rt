//! The lines of scopes: how one is entered, how its body ends or breaks off, and how its end is waited for and seen.

ghost use Rattle.std.specs.Prelude.{◌≡◌, ◌<◌, Some};
ghost use Rattle.channel_model.specs.Floors.{MayCall};
ghost use Rattle.channel_model.specs.Answers.{IsReady};
ghost use Rattle.job_model.specs.Needs.{Holds, OwnsBody, MayEndBody};
ghost use Rattle.job_model.specs.Histories.{replay};
ghost use Rattle.call_meaning.specs.JobCalls.{reason_for, EndsBody};
ghost use Rattle.scope_builders.specs.Calls.{SameBuilder, seen as seen_by_builder, MayBuild, BeginsToBreakOff, DoneAnswer};
ghost use Rattle.script_grammar.specs.declared.instructions.Instruction.TheVariants.{Scope, End as EndLine};
ghost use Rattle.script_reader.specs.Scripts.{program_of};
ghost use Rattle.script_meaning.specs.declared.stage.Stage.TheVariants.{Unwinding, SeesScope};
ghost use Rattle.poll_states.specs.Frames.{
  config_of,
  SameFloors,
  SameLoans,
  noted,
  seen,
  seen_on_channels,
  IsStanding,
  IsAtLine,
  IsInRun,
  Opens,
};
ghost use Rattle.poll_states.specs.Steps.{StepAnswer};
ghost use Rattle.poll_states.specs.SeenEnds.{
  IsInScope,
  IsScopeTop,
  AfterDone,
  LeavesEnded,
  EndsAndReceives,
  BreaksAndReceives,
  ScopeWaitAnswer,
  SeenAnswer,
};

use crate::answers::unwinds_for;
use crate::code::closing;
use crate::coroutine::Coroutine;
use crate::entered::{Entered, OpenScope};
use crate::floors::{Floors, builder, caller};
use crate::loops::end_turn;
use call_meaning::JobsBeside;
use channel_model::ChannelFloor;
use co_base::{Gate, Memory, Row, WaitId, Wakes};
use job_model::End;
use note_book::NoteBook;
use scope_builders::{Builder, Joined, LaunchError};
use script_meaning::Stage;
use script_reader::Script;

impl<B: NoteBook> Coroutine<B> {
    /// Goes on after the receive on the done channel of its innermost scope came to this. Without a place it leaves the scope first.
    pub(crate) fn go_on_leaving(&mut self, answer: Joined)
        ensures tag { self.new.tag ≡ self.old.tag }
        ensures config { AfterDone self.old.tag answer (config_of self.old) (config_of self.new) }
        ensures items { B.items self.new.book ≡ B.items self.old.book }
    {
        match answer {
            Joined::Closed(_) => self.stage = Stage::SeesScope,
            Joined::Waits(w) => self.stage = Stage::Leaving(w),
            Joined::Cancelled => self.stage = Stage::Unwinding(None),
            Joined::Spent => {
                self.leave_scope();
                self.fail();
            }
        }
    }

    /// Leaves its innermost scope, which begins at this line and ended so, and goes on after it or unwinds.
    fn leave_ended(&mut self, script: &Script, head: usize, end: End)
        requires tag { IsInRun script.now self.old.tag }
        requires opens { Opens script.now self.old.tag head }
        ensures tag { self.new.tag ≡ self.old.tag }
        ensures config { LeavesEnded (program_of script.now) self.old.tag head end (config_of self.old) (config_of self.new) }
        ensures items { B.items self.new.book ≡ B.items self.old.book }
    {
        self.leave_scope();
        match end {
            End::Completed(_) => {
                let end = closing(script, self.tag, head);
                self.at_line(end + 1);
            }
            End::Cancelled(cause) => self.stage = unwinds_for(cause),
        }
    }
}

/// Enters a scope: attaches its Job under the innermost Job. A refusal breaks the body off.
pub(crate) fn enter_scope<B: NoteBook, C: ChannelFloor, J: JobsBeside<C>, W: Wakes, G: Gate>(
    script: &Script,
    frame: &mut Coroutine<B>,
    floors: &mut Floors<'_, '_, '_, C, J, W>,
    gate: &G,
    supervisor: bool,
) -> Result<(), Memory>
    requires stands { IsStanding script.now (seen C.view J.view B.items floors.old frame.old) }
    requires at { IsAtLine script.now frame.old (Scope supervisor) }
    ensures came { StepAnswer script.now (seen C.view J.view B.items floors.old frame.old)
        (seen C.view J.view B.items floors.new frame.new) result }
    ensures same { SameFloors C.anchor J.anchor floors.old floors.new }
{
    if let Err(memory) = frame.room_to_enter() {
        return Err(memory);
    }
    let parent = frame.innermost();
    let mut builder = builder!(script, frame, floors);
    gate.pass(frame.tag, 2);
    let answer = builder.enter(parent, supervisor);
    gate.pass(frame.tag, 3);
    match answer {
        Ok(scope) => {
            let head = frame.line;
            frame.enter(Entered::InScope {
                head,
                row: scope.row,
            });
            floors.tell();
            Ok(())
        }
        Err(error) => match error {
            LaunchError::Used => unreachable!(),
            LaunchError::NoRow | LaunchError::ParentEnded => {
                frame.fail();
                floors.tell();
                Ok(())
            }
            LaunchError::Memory => Err(Memory),
        },
    }
}

/// Ends the body of a scope, and receives on its done channel.
fn end_and_receive<B: NoteBook, C: ChannelFloor, J: JobsBeside<C>, W: Wakes>(
    builder: &mut Builder<'_, '_, '_, '_, C, J, B, W>,
    row: Row,
) -> Result<Joined, Memory>
    requires may { MayBuild builder.old.base (seen_by_builder C.view J.view B.items builder.old) }
    requires own { MayEndBody builder.old.who (replay (J.view builder.old.jobs.now).seen row) }
    ensures same { SameBuilder C.anchor J.anchor builder.old builder.new }
    ensures answer { DoneAnswer builder.old.base
        (EndsAndReceives builder.old.base row) (EndsBody builder.old.base row 0)
        (seen_by_builder C.view J.view B.items builder.old) (seen_by_builder C.view J.view B.items builder.new) result }
{
    match builder.end_job(row, 0) {
        Ok(_) => builder.receive_done(row),
        Err(memory) => Err(memory),
    }
}

/// Breaks the body of a scope off, and receives on its done channel.
fn break_and_receive<B: NoteBook, C: ChannelFloor, J: JobsBeside<C>, W: Wakes>(
    builder: &mut Builder<'_, '_, '_, '_, C, J, B, W>,
    row: Row,
    failure: Option<Row>,
) -> Result<Joined, Memory>
    requires may { MayBuild builder.old.base (seen_by_builder C.view J.view B.items builder.old) }
    requires own { OwnsBody builder.old.who (replay (J.view builder.old.jobs.now).seen row) }
    requires reason { Holds (J.view builder.old.jobs.now).shape (replay (J.view builder.old.jobs.now).seen) builder.old.who row
        (reason_for failure) }
    ensures same { SameBuilder C.anchor J.anchor builder.old builder.new }
    ensures answer { DoneAnswer builder.old.base
        (BreaksAndReceives builder.old.base builder.old.who row failure)
        (BeginsToBreakOff builder.old.base builder.old.who row failure (replay (J.view builder.new.jobs.now).seen))
        (seen_by_builder C.view J.view B.items builder.old) (seen_by_builder C.view J.view B.items builder.new) result }
{
    match builder.break_job(row, failure) {
        Ok(_) => builder.receive_done(row),
        Err(memory) => Err(memory),
    }
}

/// Ends the body of the scope that it entered last, and waits for the end of the scope.
pub(crate) fn end_scope<B: NoteBook, C: ChannelFloor, J: JobsBeside<C>, W: Wakes, G: Gate>(
    script: &Script,
    frame: &mut Coroutine<B>,
    floors: &mut Floors<'_, '_, '_, C, J, W>,
    gate: &G,
    scope: OpenScope,
) -> Result<(), Memory>
    requires stands { IsStanding script.now (seen C.view J.view B.items floors.old frame.old) }
    requires at { IsAtLine script.now frame.old EndLine }
    requires last { IsScopeTop (config_of frame.old) scope }
    ensures came { StepAnswer script.now (seen C.view J.view B.items floors.old frame.old)
        (seen C.view J.view B.items floors.new frame.new) result }
    ensures same { SameFloors C.anchor J.anchor floors.old floors.new }
{
    let mut builder = builder!(script, frame, floors);
    gate.pass(frame.tag, 2);
    let answer = end_and_receive(&mut builder, scope.row);
    gate.pass(frame.tag, 3);
    match answer {
        Ok(answer) => {
            frame.go_on_leaving(answer);
            Ok(())
        }
        Err(memory) => Err(memory),
    }
}

/// Ends what it entered last: the body of a scope, or a turn of a loop.
pub(crate) fn end_line<B: NoteBook, C: ChannelFloor, J: JobsBeside<C>, W: Wakes, G: Gate>(
    script: &Script,
    frame: &mut Coroutine<B>,
    floors: &mut Floors<'_, '_, '_, C, J, W>,
    gate: &G,
) -> Result<(), Memory>
    requires stands { IsStanding script.now (seen C.view J.view B.items floors.old frame.old) }
    requires at { IsAtLine script.now frame.old EndLine }
    ensures came { StepAnswer script.now (seen C.view J.view B.items floors.old frame.old)
        (seen C.view J.view B.items floors.new frame.new) result }
    ensures same { SameFloors C.anchor J.anchor floors.old floors.new }
{
    match frame.top() {
        Some(Entered::InScope { head, row }) => {
            end_scope(script, frame, floors, gate, OpenScope { head, row })
        }
        Some(Entered::InRepeat { .. }) | Some(Entered::InEach { .. }) | None => {
            end_turn(script, frame, floors)
        }
    }
}

/// Breaks the body of its innermost scope off, by the failure of a row or as cancelled, and waits for the end of the scope.
pub(crate) fn break_scope<B: NoteBook, C: ChannelFloor, J: JobsBeside<C>, W: Wakes>(
    script: &Script,
    frame: &mut Coroutine<B>,
    floors: &mut Floors<'_, '_, '_, C, J, W>,
    scope: OpenScope,
    failure: Option<Row>,
) -> Result<(), Memory>
    requires stands { IsStanding script.now (seen C.view J.view B.items floors.old frame.old) }
    requires unwinds { frame.old.stage ≡ Unwinding failure }
    requires inside { IsInScope (config_of frame.old) scope }
    ensures came { StepAnswer script.now (seen C.view J.view B.items floors.old frame.old)
        (seen C.view J.view B.items floors.new frame.new) result }
    ensures same { SameFloors C.anchor J.anchor floors.old floors.new }
{
    let mut builder = builder!(script, frame, floors);
    match break_and_receive(&mut builder, scope.row, failure) {
        Ok(answer) => {
            frame.go_on_leaving(answer);
            Ok(())
        }
        Err(memory) => Err(memory),
    }
}

/// Ends a wait at the end of a scope, which was resolved. No look at a Job comes before, since no cancellation gives that wait up.
pub(crate) fn end_scope_wait<B: NoteBook, C: ChannelFloor, J, W: Wakes, G: Gate>(
    frame: &mut Coroutine<B>,
    floors: &mut Floors<'_, '_, '_, C, J, W>,
    gate: &G,
    w: WaitId,
) -> Result<(), Memory>
    requires can { MayCall frame.old.tag w.channel (C.view floors.old.channels.now) }
    requires ready { IsReady frame.old.tag w (C.view floors.old.channels.now) }
    ensures tag { frame.new.tag ≡ frame.old.tag }
    ensures answer { ScopeWaitAnswer w (seen_on_channels C.view B.items floors.old frame.old)
        (seen_on_channels C.view B.items floors.new frame.new) (noted B.items frame.old) (noted B.items frame.new) result }
    ensures jobs { floors.new.jobs.now ≡ floors.old.jobs.now }
    ensures same { SameLoans C.anchor floors.old floors.new }
{
    let mut caller = caller!(frame, floors, frame.tag);
    gate.pass(frame.tag, 5);
    match caller.dispatch(w, false) {
        Ok(_) => {
            frame.stage = Stage::SeesScope;
            Ok(())
        }
        Err(memory) => Err(memory),
    }
}

/// Sees how its innermost scope ended, if that has ended, and leaves it.
pub(crate) fn see_scope<B: NoteBook, C: ChannelFloor, J: JobsBeside<C>, W: Wakes>(
    script: &Script,
    frame: &mut Coroutine<B>,
    floors: &mut Floors<'_, '_, '_, C, J, W>,
) -> Result<(), Memory>
    requires stands { IsStanding script.now (seen C.view J.view B.items floors.old frame.old) }
    requires sees { frame.old.stage ≡ SeesScope }
    ensures came { SeenAnswer script.now (seen C.view J.view B.items floors.old frame.old)
        (seen C.view J.view B.items floors.new frame.new) result }
    ensures wakes { floors.new.wakes.now ≡ floors.old.wakes.now }
    ensures same { SameFloors C.anchor J.anchor floors.old floors.new }
{
    let Some(scope) = frame.scope() else {
        unreachable!()
    };
    let mut builder = builder!(script, frame, floors);
    match builder.seen_end(scope.row) {
        Ok(Some(end)) => {
            frame.leave_ended(script, scope.head, end);
            floors.tell();
            Ok(())
        }
        Ok(None) => Ok(()),
        Err(memory) => Err(memory),
    }
}
