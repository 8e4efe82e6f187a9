//! Where a coroutine goes on by an answer.

ghost use Rattle.std.specs.Prelude.{◌≡◌, ◌<◌, true, false, vec_len, vec_capacity};
ghost use Rattle.script_reader.specs.Scripts.{program_of};
ghost use Rattle.script_meaning.specs.WaitEnds.{after_wait, after_sent, after_value, after_closed};
ghost use Rattle.poll_states.specs.Frames.{config_of, HasLine, IsInRun, Opens};
ghost use Rattle.poll_states.specs.Steps.{GoesPast};
ghost use Rattle.poll_states.specs.Calls.{answer_of_send, answer_of_try_send, answer_of_receive, answer_of_try_receive, enters, after_call};
ghost use Rattle.poll_states.specs.Named.{answer_of_joined, after_named};
ghost use Rattle.poll_states.specs.SeenEnds.{unwinds_for};

use crate::code::closing;
use crate::coroutine::Coroutine;
use crate::entered::Entered;
use channel_calls::{ReceiveAnswer, SendAnswer, TryReceiveAnswer, TrySendAnswer};
use channel_model::Settled;
use co_base::{Value, WaitId};
use job_model::Cause;
use note_book::NoteBook;
use scope_builders::Joined;
use script_meaning::Stage;
use script_reader::{Instruction, Script};

/// What the call of a line came to: an answer as `call_meaning` has it. That of a select alone may be to look again.
#[derive(Clone, Copy)]
pub(crate) enum Answer {
    /// It is done, and brought no element.
    Done,
    /// The element that was received.
    Got(Value),
    /// The channel was closed with this value, and nothing is left to receive.
    Closed(Value),
    /// The coroutine waits.
    Waits(WaitId),
    /// The channel has no place left.
    NoPlace,
}

impl Answer {
    /// What a send came to.
    pub(crate) fn of_send(answer: SendAnswer) -> Answer
        ensures { result ≡ answer_of_send answer }
    {
        match answer {
            SendAnswer::Sent | SendAnswer::Closed(_) => Answer::Done,
            SendAnswer::Waits(w) => Answer::Waits(w),
            SendAnswer::Spent => Answer::NoPlace,
        }
    }

    /// What a send came to that does not wait.
    pub(crate) fn of_try_send(answer: TrySendAnswer) -> Answer
        ensures { result ≡ answer_of_try_send answer }
    {
        match answer {
            TrySendAnswer::Sent | TrySendAnswer::Full | TrySendAnswer::Closed(_) => Answer::Done,
            TrySendAnswer::Spent => Answer::NoPlace,
        }
    }

    /// What a receive came to.
    pub(crate) fn of_receive(answer: ReceiveAnswer) -> Answer
        ensures { result ≡ answer_of_receive answer }
    {
        match answer {
            ReceiveAnswer::Value(value) => Answer::Got(value),
            ReceiveAnswer::Closed(v) => Answer::Closed(v),
            ReceiveAnswer::Waits(w) => Answer::Waits(w),
            ReceiveAnswer::Spent => Answer::NoPlace,
        }
    }

    /// What a receive came to that does not wait.
    pub(crate) fn of_try_receive(answer: TryReceiveAnswer) -> Answer
        ensures { result ≡ answer_of_try_receive answer }
    {
        match answer {
            TryReceiveAnswer::Value(value) => Answer::Got(value),
            TryReceiveAnswer::Empty | TryReceiveAnswer::Closed(_) => Answer::Done,
        }
    }

    /// What a join or an await came to, unless the innermost Job was seen Cancelling.
    pub(crate) fn of_joined(answer: Joined) -> Option<Answer>
        ensures { result ≡ answer_of_joined answer }
    {
        match answer {
            Joined::Closed(v) => Some(Answer::Closed(v)),
            Joined::Waits(w) => Some(Answer::Waits(w)),
            Joined::Cancelled => None,
            Joined::Spent => Some(Answer::NoPlace),
        }
    }
}

/// How a coroutine unwinds that saw a Job which was cancelled for this cause.
pub(crate) fn unwinds_for(cause: Cause) -> Stage
    ensures { result ≡ unwinds_for cause }
{
    match cause {
        Cause::None | Cause::Request => Stage::Unwinding(None),
        Cause::Failure(row) => Stage::Unwinding(Some(row)),
    }
}

impl<B: NoteBook> Coroutine<B> {
    /// Goes on after the call of this line came to this. Takes no memory.
    #[inline(always)]
    pub(crate) fn go_on(&mut self, script: &Script, line: Instruction, answer: Answer)
        requires tag { IsInRun script.now self.old.tag }
        requires at { HasLine script.now self.old line }
        requires line { self.old.line < usize.MAX }
        requires room { enters line ≡ true → vec_len self.old.entered < vec_capacity self.old.entered }
        ensures tag { self.new.tag ≡ self.old.tag }
        ensures config { config_of self.new ≡ after_call (program_of script.now) self.old.tag (config_of self.old) line answer }
        ensures items { B.items self.new.book ≡ B.items self.old.book }
    {
        match answer {
            Answer::Done => self.go_on_done(script, line),
            Answer::Got(value) => self.go_on_with(script, line, value),
            Answer::Closed(_) => self.go_on_closed(script, line),
            Answer::Waits(w) => self.wait_for(w),
            Answer::NoPlace => self.fail(),
        }
    }

    /// Goes on after the call of this line on a Job came to this, or, if it made none, unwinds. Takes no memory.
    pub(crate) fn go_on_named(&mut self, script: &Script, line: Instruction, answer: Option<Answer>)
        requires tag { IsInRun script.now self.old.tag }
        requires at { HasLine script.now self.old line }
        requires line { self.old.line < usize.MAX }
        requires inside { enters line ≡ false }
        ensures tag { self.new.tag ≡ self.old.tag }
        ensures config { config_of self.new ≡ after_named (program_of script.now) self.old.tag (config_of self.old) line answer }
        ensures items { B.items self.new.book ≡ B.items self.old.book }
    {
        match answer {
            Some(answer) => self.go_on(script, line, answer),
            None => self.stage = Stage::Unwinding(None),
        }
    }

    /// Goes on past the line that closes what its line opens.
    pub(crate) fn go_past(&mut self, script: &Script)
        requires tag { IsInRun script.now self.old.tag }
        requires opens { Opens script.now self.old.tag self.old.line }
        ensures tag { self.new.tag ≡ self.old.tag }
        ensures config { GoesPast (program_of script.now) self.old.tag (config_of self.old) (config_of self.new) }
        ensures items { B.items self.new.book ≡ B.items self.old.book }
    {
        let end = closing(script, self.tag, self.line);
        self.at_line(end + 1);
    }

    /// Goes on after the wait of this line ended so. Takes no memory.
    #[inline(always)]
    pub(crate) fn go_on_after(&mut self, script: &Script, line: Instruction, outcome: Settled)
        requires tag { IsInRun script.now self.old.tag }
        requires at { HasLine script.now self.old line }
        requires line { self.old.line < usize.MAX }
        requires room { enters line ≡ true → vec_len self.old.entered < vec_capacity self.old.entered }
        ensures tag { self.new.tag ≡ self.old.tag }
        ensures config { config_of self.new ≡ after_wait (program_of script.now) self.old.tag (config_of self.old) line outcome }
        ensures items { B.items self.new.book ≡ B.items self.old.book }
    {
        match outcome {
            Settled::Value(_, value) => self.go_on_with(script, line, value),
            Settled::Sent(_) => self.go_on_done(script, line),
            Settled::Closed(..) => self.go_on_closed(script, line),
            Settled::Cancelled | Settled::Undelivered(_) => self.stage = Stage::Unwinding(None),
        }
    }

    /// Goes on after this line is done, and brought no element.
    #[inline(always)]
    fn go_on_done(&mut self, script: &Script, line: Instruction)
        requires tag { IsInRun script.now self.old.tag }
        requires at { HasLine script.now self.old line }
        requires line { self.old.line < usize.MAX }
        ensures tag { self.new.tag ≡ self.old.tag }
        ensures config { config_of self.new ≡ after_sent (program_of script.now) self.old.tag (config_of self.old) line }
        ensures items { B.items self.new.book ≡ B.items self.old.book }
    {
        match line {
            Instruction::Select => self.go_past(script),
            _ => self.next_line(),
        }
    }

    /// Goes on after this line brought an element. Takes no memory.
    #[inline(always)]
    fn go_on_with(&mut self, script: &Script, line: Instruction, value: Value)
        requires tag { IsInRun script.now self.old.tag }
        requires at { HasLine script.now self.old line }
        requires line { self.old.line < usize.MAX }
        requires room { enters line ≡ true → vec_len self.old.entered < vec_capacity self.old.entered }
        ensures tag { self.new.tag ≡ self.old.tag }
        ensures config { config_of self.new ≡ after_value (program_of script.now) self.old.tag (config_of self.old) value line }
        ensures items { B.items self.new.book ≡ B.items self.old.book }
    {
        self.take_in(value);
        match line {
            Instruction::Each { .. } => self.enter(Entered::InEach { head: self.line }),
            Instruction::Select => self.go_past(script),
            _ => self.next_line(),
        }
    }

    /// Goes on after this line met a closed channel.
    #[inline(always)]
    fn go_on_closed(&mut self, script: &Script, line: Instruction)
        requires tag { IsInRun script.now self.old.tag }
        requires at { HasLine script.now self.old line }
        requires line { self.old.line < usize.MAX }
        ensures tag { self.new.tag ≡ self.old.tag }
        ensures config { config_of self.new ≡ after_closed (program_of script.now) self.old.tag (config_of self.old) line }
        ensures items { B.items self.new.book ≡ B.items self.old.book }
    {
        match line {
            Instruction::Each { .. } | Instruction::Select => self.go_past(script),
            Instruction::Await { .. } => self.stage = Stage::SeesJob,
            _ => self.next_line(),
        }
    }
}
