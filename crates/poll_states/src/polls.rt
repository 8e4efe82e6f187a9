//! One line of one coroutine.

ghost use Rattle.std.specs.Prelude.{◌≡◌, true};
ghost use Rattle.script_meaning.specs.declared.stage.Stage.TheVariants.{Fresh, Waiting, Unwinding, Leaving};
ghost use Rattle.script_meaning.specs.Polls.{is_seeing};
ghost use Rattle.poll_states.specs.Frames.{SameFloors, noted, seen_by_frame, seen, IsStanding, QuietAnswer};
ghost use Rattle.poll_states.specs.Steps.{AnsweredAfter, PollAnswer, StepAnswer, MovesAnswer};
ghost use Rattle.poll_states.specs.SeenEnds.{WentOnAnswer};

use crate::book::Book;
use crate::coroutine::Coroutine;
use crate::floors::Floors;
use crate::frame::Frame;
use crate::jobs::{OwnState, break_off, own_state};
use crate::lines::run;
use crate::scopes::{break_scope, end_scope_wait};
use crate::seen_ends::see_end;
use crate::waits::{end_wait, give_up, look_at_both, was_resolved};
use call_meaning::JobsBeside;
use channel_model::ChannelFloor;
use co_base::{Gate, Memory, Row, WaitId, Wakes};
use note_book::NoteBook;
use script_meaning::{Stage, Turn};
use script_reader::Script;

/// Runs at most one line of a coroutine: ends its wait if that was resolved or the coroutine's Job is Cancelling, runs its line, or
/// ends its body.
///
/// On want of memory the entries made so far stand and are noted, and the frame may only be turned into its book or dropped. The gate is
/// passed at the points 1 (the poll begins), 2 and 3 (before the line's first call and after its last), 4 and 5 (a wait was seen
/// resolved, and before it is settled), 6 and 7 (before and after the pass of a `cancel` line) and 8 (the poll ends).
pub fn poll<B: Book, C: ChannelFloor, J: JobsBeside<C>, W: Wakes, G: Gate>(
    script: &Script,
    frame: &mut Frame<B>,
    floors: &mut Floors<'_, '_, '_, C, J, W>,
    gate: &G,
) -> Result<Turn, Memory>
    requires { IsStanding script.now (seen_by_frame C.view J.view floors.old frame.old) }
    ensures polled { PollAnswer script.now (seen_by_frame C.view J.view floors.old frame.old)
        (seen_by_frame C.view J.view floors.new frame.new) result }
    ensures moves { MovesAnswer script.now (seen_by_frame C.view J.view floors.old frame.old)
        (seen_by_frame C.view J.view floors.new frame.new) result }
    ensures quiet { QuietAnswer frame.old frame.new floors.old floors.new result }
    ensures same { SameFloors C.anchor J.anchor floors.old floors.new }
{
    gated_turn(script, &mut frame.coroutine, floors, gate)
}

/// A poll from its first gate to its last.
fn gated_turn<B: NoteBook, C: ChannelFloor, J: JobsBeside<C>, W: Wakes, G: Gate>(
    script: &Script,
    frame: &mut Coroutine<B>,
    floors: &mut Floors<'_, '_, '_, C, J, W>,
    gate: &G,
) -> Result<Turn, Memory>
    requires { IsStanding script.now (seen C.view J.view B.items floors.old frame.old) }
    ensures polled { PollAnswer script.now (seen C.view J.view B.items floors.old frame.old)
        (seen C.view J.view B.items floors.new frame.new) result }
    ensures moves { MovesAnswer script.now (seen C.view J.view B.items floors.old frame.old)
        (seen C.view J.view B.items floors.new frame.new) result }
    ensures quiet { QuietAnswer (noted B.items frame.old) (noted B.items frame.new) floors.old floors.new result }
    ensures same { SameFloors C.anchor J.anchor floors.old floors.new }
{
    gate.pass(frame.tag, 1);
    match turn_of(script, frame, floors, gate) {
        Ok(turn) => {
            gate.pass(frame.tag, 8);
            Ok(turn)
        }
        Err(memory) => Err(memory),
    }
}

/// A poll between its first gate and its last.
fn turn_of<B: NoteBook, C: ChannelFloor, J: JobsBeside<C>, W: Wakes, G: Gate>(
    script: &Script,
    frame: &mut Coroutine<B>,
    floors: &mut Floors<'_, '_, '_, C, J, W>,
    gate: &G,
) -> Result<Turn, Memory>
    requires { IsStanding script.now (seen C.view J.view B.items floors.old frame.old) }
    ensures polled { PollAnswer script.now (seen C.view J.view B.items floors.old frame.old)
        (seen C.view J.view B.items floors.new frame.new) result }
    ensures moves { MovesAnswer script.now (seen C.view J.view B.items floors.old frame.old)
        (seen C.view J.view B.items floors.new frame.new) result }
    ensures quiet { QuietAnswer (noted B.items frame.old) (noted B.items frame.new) floors.old floors.new result }
    ensures same { SameFloors C.anchor J.anchor floors.old floors.new }
{
    match frame.stage {
        Stage::Fresh => first_turn(script, frame, floors, gate),
        Stage::Running => match run(script, frame, floors, gate) {
            Ok(()) => go_on(script, frame, floors),
            Err(memory) => Err(memory),
        },
        Stage::Waiting(w) => wait_turn(script, frame, floors, gate, w),
        Stage::Unwinding(failure) => last_turn(script, frame, floors, failure),
        Stage::Leaving(w) => leave_turn(script, frame, floors, gate, w),
        Stage::SeesJob | Stage::SeesScope => see_turn(script, frame, floors),
        Stage::Ended => Ok(Turn::Ended),
    }
}

/// Begins, if the own Job may run, with the first line.
fn first_turn<B: NoteBook, C: ChannelFloor, J: JobsBeside<C>, W: Wakes, G: Gate>(
    script: &Script,
    frame: &mut Coroutine<B>,
    floors: &mut Floors<'_, '_, '_, C, J, W>,
    gate: &G,
) -> Result<Turn, Memory>
    requires stands { IsStanding script.now (seen C.view J.view B.items floors.old frame.old) }
    requires fresh { frame.old.stage ≡ Fresh }
    ensures polled { PollAnswer script.now (seen C.view J.view B.items floors.old frame.old)
        (seen C.view J.view B.items floors.new frame.new) result }
    ensures quiet { QuietAnswer (noted B.items frame.old) (noted B.items frame.new) floors.old floors.new result }
    ensures same { SameFloors C.anchor J.anchor floors.old floors.new }
{
    if let Err(memory) = frame.book.room(1) {
        return Err(memory);
    }
    match own_state(frame.tag, frame.tag, &mut *floors.jobs) {
        OwnState::NotStarted => Ok(Turn::Waits),
        OwnState::Cancelling => {
            frame.see_cancelling(frame.tag);
            floors.tell();
            Ok(Turn::Ready)
        }
        OwnState::MayRun => {
            frame.stage = Stage::Running;
            floors.tell();
            match run(script, frame, floors, gate) {
                Ok(()) => go_on(script, frame, floors),
                Err(memory) => Err(memory),
            }
        }
    }
}

/// What a poll answers after a line. A coroutine that now waits, and whose innermost Job is Cancelling, is to be polled again.
fn answer<B: NoteBook, C: ChannelFloor, J: JobsBeside<C>, W: Wakes>(
    script: &Script,
    frame: &Coroutine<B>,
    floors: &mut Floors<'_, '_, '_, C, J, W>,
) -> Turn
    requires { IsStanding script.now (seen C.view J.view B.items floors.old frame.now) }
    ensures answered { AnsweredAfter (noted B.items frame.now) (J.view floors.old.jobs.now) (J.view floors.new.jobs.now) result }
    ensures channels { floors.new.channels.now ≡ floors.old.channels.now }
    ensures wakes { floors.new.wakes.now ≡ floors.old.wakes.now }
    ensures same { SameFloors C.anchor J.anchor floors.old floors.new }
{
    match frame.stage {
        Stage::Fresh | Stage::Running | Stage::Unwinding(_) => Turn::Ready,
        Stage::SeesJob | Stage::SeesScope => Turn::Ready,
        Stage::Waiting(_) => match own_state(frame.tag, frame.innermost(), &mut *floors.jobs) {
            OwnState::NotStarted => unreachable!(),
            OwnState::Cancelling => Turn::Ready,
            OwnState::MayRun => Turn::Waits,
        },
        Stage::Leaving(_) => Turn::Waits,
        Stage::Ended => Turn::Ended,
    }
}

/// What is done after a line, or after the end of a wait, and answered: an end that is still to be seen is looked for.
fn go_on<B: NoteBook, C: ChannelFloor, J: JobsBeside<C>, W: Wakes>(
    script: &Script,
    frame: &mut Coroutine<B>,
    floors: &mut Floors<'_, '_, '_, C, J, W>,
) -> Result<Turn, Memory>
    requires { IsStanding script.now (seen C.view J.view B.items floors.old frame.old) }
    ensures went { WentOnAnswer script.now (seen C.view J.view B.items floors.old frame.old)
        (seen C.view J.view B.items floors.new frame.new) result }
    ensures same { SameFloors C.anchor J.anchor floors.old floors.new }
{
    match frame.stage {
        Stage::SeesJob | Stage::SeesScope => match see_end(script, frame, floors) {
            Ok(()) => Ok(Turn::Ready),
            Err(memory) => Err(memory),
        },
        _ => Ok(answer(script, frame, floors)),
    }
}

/// Ends the wait, if it was resolved or the innermost Job is Cancelling.
fn wait_turn<B: NoteBook, C: ChannelFloor, J: JobsBeside<C>, W: Wakes, G: Gate>(
    script: &Script,
    frame: &mut Coroutine<B>,
    floors: &mut Floors<'_, '_, '_, C, J, W>,
    gate: &G,
    w: WaitId,
) -> Result<Turn, Memory>
    requires stands { IsStanding script.now (seen C.view J.view B.items floors.old frame.old) }
    requires waits { frame.old.stage ≡ Waiting w }
    ensures polled { PollAnswer script.now (seen C.view J.view B.items floors.old frame.old)
        (seen C.view J.view B.items floors.new frame.new) result }
    ensures quiet { QuietAnswer (noted B.items frame.old) (noted B.items frame.new) floors.old floors.new result }
    ensures same { SameFloors C.anchor J.anchor floors.old floors.new }
{
    if let Err(memory) = frame.book.room(1) {
        return Err(memory);
    }
    let row = frame.innermost();
    let (resolved, state) = look_at_both(frame.tag, w, row, floors, gate);
    match state {
        OwnState::NotStarted => unreachable!(),
        OwnState::Cancelling => match give_up(frame, floors, gate, w, row, resolved) {
            Ok(()) => {
                floors.hear();
                Ok(Turn::Ready)
            }
            Err(memory) => Err(memory),
        },
        OwnState::MayRun => {
            if resolved {
                match end_wait(script, frame, floors, gate, w) {
                    Ok(()) => {
                        floors.hear();
                        go_on(script, frame, floors)
                    }
                    Err(memory) => Err(memory),
                }
            } else {
                Ok(Turn::Waits)
            }
        }
    }
}

/// Breaks the body off.
fn last_turn<B: NoteBook, C: ChannelFloor, J: JobsBeside<C>, W: Wakes>(
    script: &Script,
    frame: &mut Coroutine<B>,
    floors: &mut Floors<'_, '_, '_, C, J, W>,
    failure: Option<Row>,
) -> Result<Turn, Memory>
    requires stands { IsStanding script.now (seen C.view J.view B.items floors.old frame.old) }
    requires unwinds { frame.old.stage ≡ Unwinding failure }
    ensures polled { PollAnswer script.now (seen C.view J.view B.items floors.old frame.old)
        (seen C.view J.view B.items floors.new frame.new) result }
    ensures quiet { QuietAnswer (noted B.items frame.old) (noted B.items frame.new) floors.old floors.new result }
    ensures same { SameFloors C.anchor J.anchor floors.old floors.new }
{
    match unwind(script, frame, floors, failure) {
        Ok(()) => go_on(script, frame, floors),
        Err(memory) => Err(memory),
    }
}

/// Breaks the body of the innermost Job off.
fn unwind<B: NoteBook, C: ChannelFloor, J: JobsBeside<C>, W: Wakes>(
    script: &Script,
    frame: &mut Coroutine<B>,
    floors: &mut Floors<'_, '_, '_, C, J, W>,
    failure: Option<Row>,
) -> Result<(), Memory>
    requires stands { IsStanding script.now (seen C.view J.view B.items floors.old frame.old) }
    requires unwinds { frame.old.stage ≡ Unwinding failure }
    ensures came { StepAnswer script.now (seen C.view J.view B.items floors.old frame.old)
        (seen C.view J.view B.items floors.new frame.new) result }
    ensures same { SameFloors C.anchor J.anchor floors.old floors.new }
{
    match frame.scope() {
        None => break_off(script, frame, floors, failure),
        Some(scope) => break_scope(script, frame, floors, scope, failure),
    }
}

/// Ends a wait at the end of a scope, if it was resolved.
fn leave_turn<B: NoteBook, C: ChannelFloor, J: JobsBeside<C>, W: Wakes, G: Gate>(
    script: &Script,
    frame: &mut Coroutine<B>,
    floors: &mut Floors<'_, '_, '_, C, J, W>,
    gate: &G,
    w: WaitId,
) -> Result<Turn, Memory>
    requires stands { IsStanding script.now (seen C.view J.view B.items floors.old frame.old) }
    requires leaves { frame.old.stage ≡ Leaving w }
    ensures polled { PollAnswer script.now (seen C.view J.view B.items floors.old frame.old)
        (seen C.view J.view B.items floors.new frame.new) result }
    ensures quiet { QuietAnswer (noted B.items frame.old) (noted B.items frame.new) floors.old floors.new result }
    ensures same { SameFloors C.anchor J.anchor floors.old floors.new }
{
    if was_resolved(frame.tag, w, &mut *floors.channels, gate) {
        match end_scope_wait(frame, floors, gate, w) {
            Ok(()) => {
                floors.hear();
                go_on(script, frame, floors)
            }
            Err(memory) => Err(memory),
        }
    } else {
        Ok(Turn::Waits)
    }
}

/// Sees the end that is still to be seen.
fn see_turn<B: NoteBook, C: ChannelFloor, J: JobsBeside<C>, W: Wakes>(
    script: &Script,
    frame: &mut Coroutine<B>,
    floors: &mut Floors<'_, '_, '_, C, J, W>,
) -> Result<Turn, Memory>
    requires stands { IsStanding script.now (seen C.view J.view B.items floors.old frame.old) }
    requires seeing { is_seeing frame.old.stage ≡ true }
    ensures polled { PollAnswer script.now (seen C.view J.view B.items floors.old frame.old)
        (seen C.view J.view B.items floors.new frame.new) result }
    ensures quiet { QuietAnswer (noted B.items frame.old) (noted B.items frame.new) floors.old floors.new result }
    ensures same { SameFloors C.anchor J.anchor floors.old floors.new }
{
    match see_end(script, frame, floors) {
        Ok(()) => Ok(Turn::Ready),
        Err(memory) => Err(memory),
    }
}
