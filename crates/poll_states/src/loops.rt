//! The lines of repeats, and the ends of what a coroutine entered.

ghost use Rattle.script_grammar.specs.declared.instructions.Instruction.TheVariants.{Repeat, End};
ghost use Rattle.poll_states.specs.Frames.{config_of, SameFloors, seen, IsStanding, IsAtLine};
ghost use Rattle.poll_states.specs.Steps.{StepAnswer};
ghost use Rattle.poll_states.specs.SeenEnds.{EndsNoScope};

use crate::coroutine::Coroutine;
use crate::entered::Entered;
use crate::floors::Floors;
use call_meaning::JobsBeside;
use channel_model::ChannelFloor;
use co_base::{Memory, Wakes};
use note_book::NoteBook;
use script_reader::Script;

/// Enters a repeat of so many turns.
pub(crate) fn repeat<B: NoteBook, C: ChannelFloor, J: JobsBeside<C>, W: Wakes>(
    script: &Script,
    frame: &mut Coroutine<B>,
    floors: &mut Floors<'_, '_, '_, C, J, W>,
    turns: u32,
) -> Result<(), Memory>
    requires stands { IsStanding script.now (seen C.view J.view B.items floors.old frame.old) }
    requires at { IsAtLine script.now frame.old (Repeat turns) }
    ensures came { StepAnswer script.now (seen C.view J.view B.items floors.old frame.old)
        (seen C.view J.view B.items floors.new frame.new) result }
    ensures same { SameFloors C.anchor J.anchor floors.old floors.new }
{
    if let Err(memory) = frame.room_to_enter() {
        return Err(memory);
    }
    frame.enter(Entered::InRepeat {
        head: frame.line,
        left: turns - 1,
    });
    Ok(())
}

/// Ends a turn of what it entered last: goes on with the next one, or after it.
pub(crate) fn end_turn<B: NoteBook, C: ChannelFloor, J: JobsBeside<C>, W: Wakes>(
    script: &Script,
    frame: &mut Coroutine<B>,
    floors: &mut Floors<'_, '_, '_, C, J, W>,
) -> Result<(), Memory>
    requires stands { IsStanding script.now (seen C.view J.view B.items floors.old frame.old) }
    requires at { IsAtLine script.now frame.old End }
    requires turn { EndsNoScope (config_of frame.old) }
    ensures came { StepAnswer script.now (seen C.view J.view B.items floors.old frame.old)
        (seen C.view J.view B.items floors.new frame.new) result }
    ensures same { SameFloors C.anchor J.anchor floors.old floors.new }
{
    match frame.top() {
        Some(Entered::InRepeat { head, left }) => {
            if left == 0 {
                frame.leave();
                frame.next_line();
            } else {
                frame.change_top(Entered::InRepeat {
                    head,
                    left: left - 1,
                });
                frame.at_line(head + 1);
            }
            Ok(())
        }
        Some(Entered::InEach { head }) => {
            frame.leave();
            frame.at_line(head);
            Ok(())
        }
        Some(Entered::InScope { .. }) => unreachable!(),
        None => unreachable!(),
    }
}
