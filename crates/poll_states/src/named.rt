//! The lines that name a Job: it is started, cancelled, joined or awaited.

ghost use Rattle.std.specs.Prelude.{◌≡◌, true, Some, is_some};
ghost use Rattle.job_model.specs.Needs.{MayEndBody};
ghost use Rattle.job_model.specs.Histories.{replay};
ghost use Rattle.scope_builders.specs.Calls.{SameBuilder, seen as seen_by_builder, MayBuild};
ghost use Rattle.script_grammar.specs.Blocks.{job_used};
ghost use Rattle.poll_states.specs.Frames.{SameFloors, seen, IsStanding, IsAtLine};
ghost use Rattle.poll_states.specs.Steps.{StepAnswer};
ghost use Rattle.call_meaning.specs.Orders.{IsToldOfJobs};
ghost use Rattle.poll_states.specs.Named.{NamedAnswer};

use crate::answers::Answer;
use crate::coroutine::Coroutine;
use crate::floors::{Floors, builder};
use call_meaning::JobsBeside;
use channel_model::ChannelFloor;
use co_base::{Gate, Memory, Row, Wakes};
use note_book::NoteBook;
use scope_builders::Builder;
use script_reader::{Instruction, Script};

/// The channels hear what was seen on the Jobs.
fn tell<B: NoteBook, C: ChannelFloor, J: JobsBeside<C>, W: Wakes>(
    builder: &mut Builder<'_, '_, '_, '_, C, J, B, W>,
)
    ensures same { SameBuilder C.anchor J.anchor builder.old builder.new }
    ensures told { (C.view builder.old.channels.now).callers builder.old.who ≡ true
        → IsToldOfJobs builder.old.who (C.view builder.old.channels.now) (C.view builder.new.channels.now) (J.view builder.old.jobs.now) }
    ensures jobs { J.view builder.new.jobs.now ≡ J.view builder.old.jobs.now }
    ensures book { builder.new.book.now ≡ builder.old.book.now }
    ensures wakes { builder.new.wakes.now ≡ builder.old.wakes.now }
{
    let jobs = &mut *builder.jobs;
    jobs.tell(&mut *builder.channels);
}

/// Makes the call of a line on the Job of this row, whose caller's innermost Job has the row `own`. None says that this was seen
/// Cancelling.
fn make<B: NoteBook, C: ChannelFloor, J: JobsBeside<C>, W: Wakes, G: Gate>(
    builder: &mut Builder<'_, '_, '_, '_, C, J, B, W>,
    gate: &G,
    line: Instruction,
    own: Row,
    row: Row,
) -> Result<Option<Answer>, Memory>
    requires may { MayBuild builder.old.base (seen_by_builder C.view J.view B.items builder.old) }
    requires names { is_some (job_used line) ≡ true }
    requires own { MayEndBody builder.old.who (replay (J.view builder.old.jobs.now).seen own) }
    requires row { is_some (replay (J.view builder.old.jobs.now).seen row) ≡ true }
    ensures same { SameBuilder C.anchor J.anchor builder.old builder.new }
    ensures answer { NamedAnswer line builder.old.base own row
        (seen_by_builder C.view J.view B.items builder.old) (seen_by_builder C.view J.view B.items builder.new) result }
{
    match line {
        Instruction::Start { .. } => match builder.start(row) {
            Ok(_) => {
                tell(builder);
                Ok(Some(Answer::Done))
            }
            Err(memory) => Err(memory),
        },
        Instruction::Cancel { .. } => {
            gate.pass(builder.who, 6);
            let answer = builder.cancel(row);
            gate.pass(builder.who, 7);
            match answer {
                Ok(_) => {
                    tell(builder);
                    Ok(Some(Answer::Done))
                }
                Err(memory) => Err(memory),
            }
        }
        Instruction::Join { .. } => match builder.join(own, row) {
            Ok(answer) => Ok(Answer::of_joined(answer)),
            Err(memory) => Err(memory),
        },
        Instruction::Await { .. } => match builder.await_end(row) {
            Ok(answer) => Ok(Answer::of_joined(answer)),
            Err(memory) => Err(memory),
        },
        _ => unreachable!(),
    }
}

/// Makes the call of a line on the Job that has this name, and goes on by what it came to.
pub(crate) fn call_named<B: NoteBook, C: ChannelFloor, J: JobsBeside<C>, W: Wakes, G: Gate>(
    script: &Script,
    frame: &mut Coroutine<B>,
    floors: &mut Floors<'_, '_, '_, C, J, W>,
    gate: &G,
    line: Instruction,
    job: u16,
) -> Result<(), Memory>
    requires stands { IsStanding script.now (seen C.view J.view B.items floors.old frame.old) }
    requires at { IsAtLine script.now frame.old line }
    requires names { job_used line ≡ Some job }
    ensures came { StepAnswer script.now (seen C.view J.view B.items floors.old frame.old)
        (seen C.view J.view B.items floors.new frame.new) result }
    ensures same { SameFloors C.anchor J.anchor floors.old floors.new }
{
    let row = frame.rows[job as usize];
    let own = frame.innermost();
    let mut builder = builder!(script, frame, floors);
    gate.pass(frame.tag, 2);
    let answer = make(&mut builder, gate, line, own, row);
    gate.pass(frame.tag, 3);
    match answer {
        Ok(answer) => {
            frame.go_on_named(script, line, answer);
            Ok(())
        }
        Err(memory) => Err(memory),
    }
}
