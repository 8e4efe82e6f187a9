//! Where a coroutine is, as numbers: frames with equal numbers go on alike on floors that answer alike.

use crate::book::Book;
use crate::coroutine::Coroutine;
use crate::entered::Entered;
use crate::frame::Frame;
use co_base::{Memory, WaitId};
use script_meaning::Stage;

impl<B: Book> Frame<B> {
    /// Adds the numbers of where the coroutine is. What it received is told only if a line of its block `reads` it. A wait is told
    /// without its name, which says how many waits began before it.
    pub fn push_key(&self, reads: bool, out: &mut Vec<u64>) -> Result<(), Memory> {
        out.push(stage_number(self.coroutine.stage))?;
        if self.coroutine.stage == Stage::Ended {
            return Ok(());
        }
        self.coroutine.push_place(out)?;
        if reads {
            out.push(u64::from(self.coroutine.it))?;
            out.push(u64::from(self.coroutine.sum))?;
        }
        Ok(())
    }

    /// The wait in which it is, if it is in one.
    pub fn wait(&self) -> Option<WaitId> {
        match self.coroutine.stage {
            Stage::Waiting(w) | Stage::Leaving(w) => Some(w),
            _ => None,
        }
    }

    /// Whether it was not polled yet, or no poll did anything.
    pub fn is_fresh(&self) -> bool {
        self.coroutine.stage == Stage::Fresh
    }

    /// Whether it waits at the end of a scope.
    pub fn is_leaving(&self) -> bool {
        matches!(self.coroutine.stage, Stage::Leaving(_))
    }

    /// Whether its body has ended.
    pub fn has_ended(&self) -> bool {
        self.coroutine.stage == Stage::Ended
    }

    /// Its book.
    pub fn book(&self) -> &B {
        &self.coroutine.book
    }
}

impl<B> Coroutine<B> {
    /// Adds the numbers of its line, of what it entered, of its result and of the Jobs that it named.
    fn push_place(&self, out: &mut Vec<u64>) -> Result<(), Memory> {
        out.push(self.line as u64)?;
        out.push(u64::from(self.result))?;
        out.push(u64::from(self.free))?;
        out.push(self.rows.len() as u64)?;
        for row in self.rows.as_slice() {
            out.push(u64::from(*row))?;
        }
        for one in self.entered.as_slice() {
            push_entered(out, *one)?;
        }
        out.push(0)?;
        Ok(())
    }
}

/// Adds the numbers of what was entered.
fn push_entered(out: &mut Vec<u64>, entered: Entered) -> Result<(), Memory> {
    let (what, head, number) = match entered {
        Entered::InRepeat { head, left } => (1u64, head, u64::from(left)),
        Entered::InEach { head } => (2, head, 0),
        Entered::InScope { head, row } => (3, head, u64::from(row)),
    };
    out.push(what)?;
    out.push(head as u64)?;
    out.push(number)?;
    Ok(())
}

/// 0 to 7, or a row and 8.
fn stage_number(stage: Stage) -> u64 {
    match stage {
        Stage::Fresh => 0,
        Stage::Running => 1,
        Stage::Waiting(_) => 2,
        Stage::SeesJob => 3,
        Stage::Leaving(_) => 4,
        Stage::SeesScope => 5,
        Stage::Ended => 6,
        Stage::Unwinding(None) => 7,
        Stage::Unwinding(Some(row)) => u64::from(row).saturating_add(8),
    }
}
