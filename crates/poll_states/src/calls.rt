//! The lines of a coroutine that call a channel.

ghost use Rattle.std.specs.Prelude.{◌≡◌, true, false};
ghost use Rattle.channel_model.specs.Channels.{kind_at, is_signal};
ghost use Rattle.channel_model.specs.Floors.{MayCall};
ghost use Rattle.channel_calls.specs.Calls.{SameCaller, seen as seen_by_caller};
ghost use Rattle.poll_states.specs.Frames.{config_of, SameFloors, seen, IsStanding, IsAtLine};
ghost use Rattle.poll_states.specs.Steps.{StepAnswer};
ghost use Rattle.poll_states.specs.Calls.{does_call, element_of, channel_in, MadeAnswer};

use crate::answers::Answer;
use crate::coroutine::Coroutine;
use crate::floors::{Floors, caller};
use call_meaning::JobsBeside;
use channel_calls::Caller;
use channel_model::ChannelFloor;
use co_base::{Gate, Memory, Value, Wakes};
use note_book::NoteBook;
use script_reader::{Instruction, Script};

impl<B: NoteBook> Coroutine<B> {
    /// The element that a line sends, or 0.
    fn element_of(&self, line: Instruction) -> Value
        ensures { result ≡ element_of (config_of self.now) line }
    {
        match line {
            Instruction::Send { value, .. } | Instruction::TrySend { value, .. } => {
                self.value_of(value)
            }
            _ => 0,
        }
    }
}

/// Makes the call of a line, with the element that it sends.
#[inline(always)]
fn make<B: NoteBook, F: ChannelFloor, W: Wakes>(
    caller: &mut Caller<'_, '_, '_, F, B, W>,
    line: Instruction,
    value: Value,
) -> Result<Answer, Memory>
    requires calls { does_call line ≡ true }
    requires can { MayCall caller.old.who (channel_in line) (F.view caller.old.floor.now) }
    requires kind { is_signal (kind_at (F.view caller.old.floor.now).shape (channel_in line)) ≡ false }
    ensures same { SameCaller F.anchor caller.old caller.new }
    ensures answer { MadeAnswer value line (seen_by_caller F.view B.items caller.old) (seen_by_caller F.view B.items caller.new) result }
{
    match line {
        Instruction::Send { c, .. } => match caller.send(c, value) {
            Ok(answer) => Ok(Answer::of_send(answer)),
            Err(none_left) => Err(none_left),
        },
        Instruction::TrySend { c, .. } => match caller.try_send(c, value) {
            Ok(answer) => Ok(Answer::of_try_send(answer)),
            Err(memory) => Err(memory),
        },
        Instruction::Receive { c } => match caller.receive(c) {
            Ok(answer) => Ok(Answer::of_receive(answer)),
            Err(memory) => Err(memory),
        },
        Instruction::Each { c } => match caller.receive(c) {
            Ok(answer) => Ok(Answer::of_receive(answer)),
            Err(memory) => Err(memory),
        },
        Instruction::TryReceive { c } => match caller.try_receive(c) {
            Ok(answer) => Ok(Answer::of_try_receive(answer)),
            Err(memory) => Err(memory),
        },
        Instruction::Close { c } => match caller.close(c, 0) {
            Ok(_) => Ok(Answer::Done),
            Err(memory) => Err(memory),
        },
        Instruction::CancelChannel { c } => match caller.cancel_channel(c) {
            Ok(_) => Ok(Answer::Done),
            Err(memory) => Err(memory),
        },
        _ => unreachable!(),
    }
}

/// Makes the call of a line on a channel, and goes on by what it came to.
#[inline(always)]
pub(crate) fn call<B: NoteBook, C: ChannelFloor, J: JobsBeside<C>, W: Wakes, G: Gate>(
    script: &Script,
    frame: &mut Coroutine<B>,
    floors: &mut Floors<'_, '_, '_, C, J, W>,
    gate: &G,
    line: Instruction,
) -> Result<(), Memory>
    requires stands { IsStanding script.now (seen C.view J.view B.items floors.old frame.old) }
    requires at { IsAtLine script.now frame.old line }
    requires calls { does_call line ≡ true }
    ensures came { StepAnswer script.now (seen C.view J.view B.items floors.old frame.old)
        (seen C.view J.view B.items floors.new frame.new) result }
    ensures same { SameFloors C.anchor J.anchor floors.old floors.new }
{
    if let Err(memory) = frame.room_for(line) {
        return Err(memory);
    }
    let value = frame.element_of(line);
    let mut caller = caller!(frame, floors, frame.tag);
    gate.pass(frame.tag, 2);
    let answer = make(&mut caller, line, value);
    gate.pass(frame.tag, 3);
    match answer {
        Ok(answer) => {
            frame.go_on(script, line, answer);
            floors.hear();
            Ok(())
        }
        Err(memory) => Err(memory),
    }
}
