//! How a frame enters and leaves repeats, eaches and scopes.

ghost use Rattle.std.specs.Prelude.{◌≡◌, ◌<◌, true, OnOk, vec_len, vec_capacity};
ghost use Rattle.script_meaning.specs.Configs.{into, innermost};
ghost use Rattle.poll_states.specs.Frames.{config_of, entered_of, IsTop, LeavesTop, ChangesTop, LeavesScope, IsScopeOf};
ghost use Rattle.poll_states.specs.Calls.{enters};

use crate::coroutine::Coroutine;
use crate::entered::{Entered, OpenScope, scope_of};
use co_base::{Memory, Row};
use note_book::NoteBook;
use script_reader::Instruction;

impl<B: NoteBook> Coroutine<B> {
    /// The innermost scope that it has entered and not left.
    pub(crate) fn scope(&self) -> Option<OpenScope>
        ensures { IsScopeOf (config_of self.now).entered result }
    {
        scope_of(&self.entered)
    }

    /// The row of its innermost Job: that of the innermost scope, else its own.
    pub(crate) fn innermost(&self) -> Row
        ensures { result ≡ innermost self.now.tag (config_of self.now) }
    {
        match self.scope() {
            None => self.tag,
            Some(scope) => scope.row,
        }
    }

    /// What it entered last and did not leave.
    pub(crate) fn top(&self) -> Option<Entered>
        ensures { IsTop (config_of self.now).entered result }
    {
        self.entered.last().copied()
    }

    /// Makes room to enter something.
    pub(crate) fn room_to_enter(&mut self) -> Result<(), Memory>
        ensures tag { self.new.tag ≡ self.old.tag }
        ensures config { config_of self.new ≡ config_of self.old }
        ensures items { B.items self.new.book ≡ B.items self.old.book }
        ensures room { OnOk result (vec_len self.new.entered < vec_capacity self.new.entered) }
    {
        if self.entered.reserve(1).is_err() {
            return Err(Memory);
        }
        Ok(())
    }

    /// Makes room to enter, if this line enters its block with an element.
    pub(crate) fn room_for(&mut self, line: Instruction) -> Result<(), Memory>
        ensures tag { self.new.tag ≡ self.old.tag }
        ensures config { config_of self.new ≡ config_of self.old }
        ensures items { B.items self.new.book ≡ B.items self.old.book }
        ensures room { OnOk result (enters line ≡ true → vec_len self.new.entered < vec_capacity self.new.entered) }
    {
        match line {
            Instruction::Each { .. } => self.room_to_enter(),
            _ => Ok(()),
        }
    }

    /// Enters this at its line, and goes on with the first line inside. Takes no memory.
    pub(crate) fn enter(&mut self, one: Entered)
        requires line { self.old.line < usize.MAX }
        requires room { vec_len self.old.entered < vec_capacity self.old.entered }
        ensures tag { self.new.tag ≡ self.old.tag }
        ensures config { config_of self.new ≡ into (entered_of one) (config_of self.old) }
        ensures items { B.items self.new.book ≡ B.items self.old.book }
    {
        self.entered.push_reserved(one);
        self.next_line();
    }

    /// Leaves what it entered last, and stays at its line.
    pub(crate) fn leave(&mut self)
        ensures tag { self.new.tag ≡ self.old.tag }
        ensures config { LeavesTop (config_of self.old) (config_of self.new) }
        ensures items { B.items self.new.book ≡ B.items self.old.book }
    {
        self.entered.pop();
    }

    /// Enters this in place of what it entered last, and stays at its line. Takes no memory.
    pub(crate) fn change_top(&mut self, one: Entered)
        ensures tag { self.new.tag ≡ self.old.tag }
        ensures config { ChangesTop (entered_of one) (config_of self.old) (config_of self.new) }
        ensures items { B.items self.new.book ≡ B.items self.old.book }
    {
        if self.entered.pop().is_some() {
            self.entered.push_reserved(one);
        }
    }

    /// Leaves its innermost scope, with all that it entered inside, and stays at its line.
    pub(crate) fn leave_scope(&mut self)
        ensures tag { self.new.tag ≡ self.old.tag }
        ensures config { LeavesScope (config_of self.old) (config_of self.new) }
        ensures items { B.items self.new.book ≡ B.items self.old.book }
    {
        while let Some(one) = self.entered.pop() {
            if let Entered::InScope { .. } = one {
                return;
            }
        }
    }
}
