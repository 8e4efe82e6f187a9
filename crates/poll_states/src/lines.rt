//! The lines of a coroutine.

ghost use Rattle.std.specs.Prelude.{◌≡◌};
ghost use Rattle.script_grammar.specs.declared.instructions.Instruction.TheVariants.{Fail, Select, SetResult};
ghost use Rattle.script_meaning.specs.declared.stage.Stage.TheVariants.{Running};
ghost use Rattle.poll_states.specs.Frames.{SameFloors, seen, IsStanding, IsAtLine};
ghost use Rattle.poll_states.specs.Steps.{StepAnswer, MovesAnswer};

use crate::calls::call;
use crate::code::code_of;
use crate::coroutine::Coroutine;
use crate::floors::Floors;
use crate::jobs::{end_body, launch, look_up};
use crate::loops::repeat;
use crate::named::call_named;
use crate::scopes::{end_line, enter_scope};
use crate::selects::select;
use call_meaning::JobsBeside;
use channel_model::ChannelFloor;
use co_base::{Gate, Memory, Value, Wakes};
use job_model::JobNote;
use note_book::{Item, NoteBook};
use script_reader::{Instruction, Operand, Script};

/// Runs the line of a coroutine, or ends its body if none is left.
#[inline(always)]
pub(crate) fn run<B: NoteBook, C: ChannelFloor, J: JobsBeside<C>, W: Wakes, G: Gate>(
    script: &Script,
    frame: &mut Coroutine<B>,
    floors: &mut Floors<'_, '_, '_, C, J, W>,
    gate: &G,
) -> Result<(), Memory>
    requires stands { IsStanding script.now (seen C.view J.view B.items floors.old frame.old) }
    requires running { frame.old.stage ≡ Running }
    ensures came { StepAnswer script.now (seen C.view J.view B.items floors.old frame.old)
        (seen C.view J.view B.items floors.new frame.new) result }
    ensures moves { MovesAnswer script.now (seen C.view J.view B.items floors.old frame.old)
        (seen C.view J.view B.items floors.new frame.new) result }
    ensures same { SameFloors C.anchor J.anchor floors.old floors.new }
{
    let code = code_of(script, frame.tag);
    if frame.line >= code.len() {
        return end_body(script, frame, floors);
    }
    run_line(script, frame, floors, gate, code[frame.line])
}

/// Runs this line.
#[inline(always)]
fn run_line<B: NoteBook, C: ChannelFloor, J: JobsBeside<C>, W: Wakes, G: Gate>(
    script: &Script,
    frame: &mut Coroutine<B>,
    floors: &mut Floors<'_, '_, '_, C, J, W>,
    gate: &G,
    line: Instruction,
) -> Result<(), Memory>
    requires stands { IsStanding script.now (seen C.view J.view B.items floors.old frame.old) }
    requires at { IsAtLine script.now frame.old line }
    ensures came { StepAnswer script.now (seen C.view J.view B.items floors.old frame.old)
        (seen C.view J.view B.items floors.new frame.new) result }
    ensures moves { line ≡ Select → MovesAnswer script.now (seen C.view J.view B.items floors.old frame.old)
        (seen C.view J.view B.items floors.new frame.new) result }
    ensures same { SameFloors C.anchor J.anchor floors.old floors.new }
{
    match line {
        Instruction::Send { .. }
        | Instruction::TrySend { .. }
        | Instruction::Receive { .. }
        | Instruction::TryReceive { .. }
        | Instruction::Each { .. }
        | Instruction::Close { .. }
        | Instruction::CancelChannel { .. } => call(script, frame, floors, gate, line),
        Instruction::Start { job }
        | Instruction::Cancel { job }
        | Instruction::Join { job }
        | Instruction::Await { job } => call_named(script, frame, floors, gate, line, job),
        Instruction::Yield => look_up(script, frame, floors, gate),
        Instruction::Launch { block, how, job } => {
            launch(script, frame, floors, gate, block, how, job)
        }
        Instruction::Fail { code } => fail(script, frame, floors, code),
        Instruction::SetResult { value } => set_result(script, frame, floors, value),
        Instruction::Repeat { turns } => repeat(script, frame, floors, turns),
        Instruction::Select => select(script, frame, floors, gate),
        Instruction::Scope { supervisor } => enter_scope(script, frame, floors, gate, supervisor),
        Instruction::End => end_line(script, frame, floors, gate),
        // the coroutine runs past the clauses of a select
        Instruction::OnSend { .. } => unreachable!(),
        Instruction::OnReceive { .. } => unreachable!(),
    }
}

/// Breaks the body off by its own failure.
fn fail<B: NoteBook, C: ChannelFloor, J: JobsBeside<C>, W: Wakes>(
    script: &Script,
    frame: &mut Coroutine<B>,
    floors: &mut Floors<'_, '_, '_, C, J, W>,
    code: Value,
) -> Result<(), Memory>
    requires stands { IsStanding script.now (seen C.view J.view B.items floors.old frame.old) }
    requires at { IsAtLine script.now frame.old (Fail code) }
    ensures came { StepAnswer script.now (seen C.view J.view B.items floors.old frame.old)
        (seen C.view J.view B.items floors.new frame.new) result }
    ensures same { SameFloors C.anchor J.anchor floors.old floors.new }
{
    if let Err(memory) = frame.book.room(1) {
        return Err(memory);
    }
    frame.book.note(Item::Job(JobNote::Fail { code }));
    frame.fail();
    Ok(())
}

/// Sets what the Job will have as its result.
fn set_result<B: NoteBook, C: ChannelFloor, J: JobsBeside<C>, W: Wakes>(
    script: &Script,
    frame: &mut Coroutine<B>,
    floors: &mut Floors<'_, '_, '_, C, J, W>,
    value: Operand,
) -> Result<(), Memory>
    requires stands { IsStanding script.now (seen C.view J.view B.items floors.old frame.old) }
    requires at { IsAtLine script.now frame.old (SetResult value) }
    ensures came { StepAnswer script.now (seen C.view J.view B.items floors.old frame.old)
        (seen C.view J.view B.items floors.new frame.new) result }
    ensures same { SameFloors C.anchor J.anchor floors.old floors.new }
{
    frame.result = frame.value_of(value);
    frame.next_line();
    Ok(())
}
