//! A select.

ghost use Rattle.std.specs.Prelude.{◌≡◌, ◌<◌, ◌≤◌, length, option_map};
ghost use Rattle.script_grammar.specs.declared.instructions.Instruction.TheVariants.{Select};
ghost use Rattle.script_grammar.specs.Tags.{code_of};
ghost use Rattle.script_reader.specs.Scripts.{program_of};
ghost use Rattle.script_meaning.specs.Lines.{clauses_in};
ghost use Rattle.select_calls.specs.Clauses.{call_of, calls_of};
ghost use Rattle.poll_states.specs.Frames.{config_of, SameFloors, seen, IsStanding, IsAtLine, IsInRun, Opens};
ghost use Rattle.poll_states.specs.Steps.{StepAnswer, MovesAnswer};
ghost use Rattle.poll_states.specs.Selecting.{clause_in, AfterChosen, AfterSelect};

use crate::code::code_of;
use crate::coroutine::Coroutine;
use crate::floors::{Floors, caller};
use arrayvec::ArrayVec;
use call_meaning::JobsBeside;
use channel_model::ChannelFloor;
use co_base::{Gate, Memory, WaitId, Wakes};
use note_book::NoteBook;
use script_reader::{Instruction, Script};
use select_calls::{Clause, Outcome, SelectAnswer, select_poll};

impl<B: NoteBook> Coroutine<B> {
    /// The clause that a line is, with the element that it sends from here.
    fn clause_of(&self, line: Instruction) -> Option<Clause>
        ensures { option_map call_of result ≡ clause_in (config_of self.now) line }
    {
        match line {
            Instruction::OnSend { c, value } => Some(Clause::OnSend {
                c,
                value: self.value_of(value),
            }),
            Instruction::OnReceive { c } => Some(Clause::OnReceive { c }),
            _ => None,
        }
    }

    /// The clauses with which these lines begin.
    fn clauses_of(&self, code: &[Instruction]) -> ArrayVec<Clause, 7>
        requires { length (clauses_in (config_of self.now) code.now) ≤ 7 }
        ensures { calls_of result.items ≡ clauses_in (config_of self.now) code.now }
    {
        let mut clauses = ArrayVec::new();
        let mut rest = code;
        while let [line, more @ ..] = rest {
            let Some(clause) = self.clause_of(*line) else {
                return clauses;
            };
            clauses.push(clause);
            rest = more;
        }
        clauses
    }

    /// Goes on, at a select, where that came to this.
    fn go_on_selected(&mut self, script: &Script, answer: SelectAnswer, held: Option<WaitId>)
        requires tag { IsInRun script.now self.old.tag }
        requires opens { Opens script.now self.old.tag self.old.line }
        ensures tag { self.new.tag ≡ self.old.tag }
        ensures config { AfterSelect (program_of script.now) self.old.tag answer held (config_of self.old) (config_of self.new) }
        ensures items { B.items self.new.book ≡ B.items self.old.book }
    {
        match answer {
            SelectAnswer::Chosen(_, outcome) => self.go_on_chosen(script, outcome),
            SelectAnswer::Waiting => {
                if let Some(w) = held {
                    self.wait_for(w);
                }
            }
            SelectAnswer::Again => {}
            SelectAnswer::Spent => self.fail(),
        }
    }

    /// Goes on after the chosen clause of its select came to this.
    fn go_on_chosen(&mut self, script: &Script, outcome: Outcome)
        requires tag { IsInRun script.now self.old.tag }
        requires opens { Opens script.now self.old.tag self.old.line }
        ensures tag { self.new.tag ≡ self.old.tag }
        ensures config { AfterChosen (program_of script.now) self.old.tag outcome (config_of self.old) (config_of self.new) }
        ensures items { B.items self.new.book ≡ B.items self.old.book }
    {
        if let Outcome::Value(value) = outcome {
            self.take_in(value);
        }
        self.go_past(script);
    }
}

/// Chooses a clause, or waits on all of them.
pub(crate) fn select<B: NoteBook, C: ChannelFloor, J: JobsBeside<C>, W: Wakes, G: Gate>(
    script: &Script,
    frame: &mut Coroutine<B>,
    floors: &mut Floors<'_, '_, '_, C, J, W>,
    gate: &G,
) -> Result<(), Memory>
    requires stands { IsStanding script.now (seen C.view J.view B.items floors.old frame.old) }
    requires at { IsAtLine script.now frame.old Select }
    ensures came { StepAnswer script.now (seen C.view J.view B.items floors.old frame.old)
        (seen C.view J.view B.items floors.new frame.new) result }
    ensures moves { MovesAnswer script.now (seen C.view J.view B.items floors.old frame.old)
        (seen C.view J.view B.items floors.new frame.new) result }
    ensures same { SameFloors C.anchor J.anchor floors.old floors.new }
{
    let code = code_of(script, frame.tag);
    let clauses = frame.clauses_of(&code[frame.line + 1..]);
    let mut held = None;
    let mut caller = caller!(frame, floors, frame.tag);
    gate.pass(frame.tag, 2);
    let answer = select_poll(&mut caller, clauses.as_slice(), &mut held);
    gate.pass(frame.tag, 3);
    match answer {
        Ok(answer) => {
            frame.go_on_selected(script, answer, held);
            floors.hear();
            Ok(())
        }
        Err(memory) => Err(memory),
    }
}
