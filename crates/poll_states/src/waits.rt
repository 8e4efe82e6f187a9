//! The end of a wait.

ghost use Rattle.std.specs.Prelude.{◌≡◌, ◌<◌, length, None, IsTrue};
ghost use Rattle.channel_model.specs.Floors.{MayCall};
ghost use Rattle.channel_model.specs.Histories.{replay};
ghost use Rattle.channel_model.specs.Answers.{IsReady, IsUnsettledOf};
ghost use Rattle.channel_calls.specs.Calls.{HoldsWait};
ghost use Rattle.script_reader.specs.Scripts.{program_of};
ghost use Rattle.script_grammar.specs.Tags.{code_of};
ghost use Rattle.script_meaning.specs.declared.stage.Stage.TheVariants.{Unwinding};
ghost use Rattle.script_meaning.specs.Configs.{at_stage};
ghost use Rattle.poll_states.specs.Frames.{config_of, SameFloors, SameLoans, noted, seen_on_channels, IsInRun};
ghost use Rattle.poll_states.specs.Steps.{HasBody, SeenWait, SeenBoth, EndedWaitAnswer, GaveUpAnswer};

use crate::code::code_of;
use crate::coroutine::Coroutine;
use crate::floors::{Floors, caller};
use crate::jobs::{OwnState, own_state};
use call_meaning::JobsBeside;
use channel_model::{ChannelFloor, WaitState};
use co_base::{Gate, Memory, Row, Tag, WaitId, Wakes};
use note_book::NoteBook;
use script_reader::Script;

/// Looks whether the wait was resolved.
pub(crate) fn was_resolved<C: ChannelFloor, G: Gate>(
    who: Tag,
    w: WaitId,
    channels: &mut C,
    gate: &G,
) -> bool
    requires can { MayCall who w.channel (C.view channels.old) }
    requires holds { IsUnsettledOf who ((replay (C.view channels.old).seen).waits w) }
    ensures seen { SeenWait who w (C.view channels.old) (C.view channels.new) result }
    ensures anchor { C.anchor channels.new ≡ C.anchor channels.old }
{
    match channels.look(who, w) {
        WaitState::Standing => false,
        WaitState::Resolved => {
            gate.pass(who, 4);
            true
        }
        WaitState::Settled => unreachable!(),
    }
}

/// Looks whether the wait was resolved, and then at the caller's own Job of this row. Each floor hears what was seen on the other.
pub(crate) fn look_at_both<C: ChannelFloor, J: JobsBeside<C>, W, G: Gate>(
    who: Tag,
    w: WaitId,
    row: Row,
    floors: &mut Floors<'_, '_, '_, C, J, W>,
    gate: &G,
) -> (bool, OwnState)
    requires can { MayCall who w.channel (C.view floors.old.channels.now) }
    requires holds { IsUnsettledOf who ((replay (C.view floors.old.channels.now).seen).waits w) }
    requires body { HasBody who row (J.view floors.old.jobs.now) }
    ensures seen { SeenBoth who w row (C.view floors.old.channels.now) (C.view floors.new.channels.now)
        (J.view floors.old.jobs.now) (J.view floors.new.jobs.now) result.0 result.1 }
    ensures wakes { floors.new.wakes.now ≡ floors.old.wakes.now }
    ensures same { SameFloors C.anchor J.anchor floors.old floors.new }
{
    let resolved = was_resolved(who, w, &mut *floors.channels, gate);
    floors.hear();
    let state = own_state(who, row, &mut *floors.jobs);
    floors.tell();
    (resolved, state)
}

/// Ends a wait that was resolved, and goes on as that says for the line that began it.
pub(crate) fn end_wait<B: NoteBook, C: ChannelFloor, J, W: Wakes, G: Gate>(
    script: &Script,
    frame: &mut Coroutine<B>,
    floors: &mut Floors<'_, '_, '_, C, J, W>,
    gate: &G,
    w: WaitId,
) -> Result<(), Memory>
    requires can { MayCall frame.old.tag w.channel (C.view floors.old.channels.now) }
    requires ready { IsReady frame.old.tag w (C.view floors.old.channels.now) }
    requires in_run { IsInRun script.now frame.old.tag }
    requires line { frame.old.line < length (code_of (program_of script.now) frame.old.tag) }
    ensures tag { frame.new.tag ≡ frame.old.tag }
    ensures answer { EndedWaitAnswer (program_of script.now) w (seen_on_channels C.view B.items floors.old frame.old)
        (seen_on_channels C.view B.items floors.new frame.new) (noted B.items frame.old) (noted B.items frame.new) result }
    ensures jobs { floors.new.jobs.now ≡ floors.old.jobs.now }
    ensures same { SameLoans C.anchor floors.old floors.new }
{
    let line = code_of(script, frame.tag)[frame.line];
    if let Err(memory) = frame.room_for(line) {
        return Err(memory);
    }
    let mut caller = caller!(frame, floors, frame.tag);
    gate.pass(frame.tag, 5);
    match caller.dispatch(w, false) {
        Ok(outcome) => {
            frame.go_on_after(script, line, outcome);
            Ok(())
        }
        Err(memory) => Err(memory),
    }
}

/// Notes that the Job of this row was seen Cancelling, and ends the wait for that: as cancelled, or with the element given up that it was
/// handed.
pub(crate) fn give_up<B: NoteBook, C: ChannelFloor, J, W: Wakes, G: Gate>(
    frame: &mut Coroutine<B>,
    floors: &mut Floors<'_, '_, '_, C, J, W>,
    gate: &G,
    w: WaitId,
    row: Row,
    resolved: bool,
) -> Result<(), Memory>
    requires can { MayCall frame.old.tag w.channel (C.view floors.old.channels.now) }
    requires holds { HoldsWait w (seen_on_channels C.view B.items floors.old frame.old) }
    requires ready { IsTrue resolved → IsReady frame.old.tag w (C.view floors.old.channels.now) }
    requires book { 0 < B.spare frame.old.book }
    ensures tag { frame.new.tag ≡ frame.old.tag }
    ensures config { config_of frame.new ≡ at_stage (Unwinding None) (config_of frame.old) }
    ensures answer { GaveUpAnswer w row (seen_on_channels C.view B.items floors.old frame.old)
        (seen_on_channels C.view B.items floors.new frame.new) result }
    ensures jobs { floors.new.jobs.now ≡ floors.old.jobs.now }
    ensures same { SameLoans C.anchor floors.old floors.new }
{
    let who = frame.tag;
    frame.see_cancelling(row);
    let mut caller = caller!(frame, floors, who);
    if resolved {
        gate.pass(who, 5);
        match caller.dispatch(w, true) {
            Ok(_) => Ok(()),
            Err(memory) => Err(memory),
        }
    } else {
        match caller.cancel_wait(w) {
            Ok(_) => Ok(()),
            Err(memory) => Err(memory),
        }
    }
}
