//! To pass a failure on to the parents.

ghost use Rattle.std.specs.Prelude.{◌≡◌};
ghost use Rattle.call_meaning.specs.Seen.{MayCallJob, tree_in};
ghost use Rattle.job_tree.specs.Callers.{SameCaller, seen, HasRoomForAll};
ghost use Rattle.job_tree.specs.Passes.{IsFailure};
ghost use Rattle.job_tree.specs.Failures.{ParentAnswer, IsFailedUp, ClimbAnswer};
ghost use Rattle.job_tree.specs.declared.caller.Reserve.TheVariants.{Before};

use crate::caller::{JobCaller, Reserve};
use co_base::{Memory, Row, Wakes};
use job_model::{JobFloor, Reason};
use note_book::NoteBook;

impl<F: JobFloor, B: NoteBook, W: Wakes> JobCaller<'_, '_, '_, F, B, W> {
    /// The parent that a failure of this Job cancels.
    fn failing_parent(&mut self, row: Row) -> Option<Row>
        requires can { MayCallJob row (seen F.view B.items self.old) }
        ensures same { SameCaller F.anchor self.old self.new }
        ensures book { self.new.book.now ≡ self.old.book.now }
        ensures answer { ParentAnswer row (seen F.view B.items self.old) (seen F.view B.items self.new) result }
    {
        if row == 0 {
            return None;
        }
        let Some(job) = self.floor.look(self.who, row) else {
            return None;
        };
        if job.kind.scoped {
            return None;
        }
        let parent = self.floor.link(self.who, row).parent;
        let Some(above) = self.floor.look(self.who, parent) else {
            return None;
        };
        if above.kind.supervisor {
            return None;
        }
        Some(parent)
    }

    /// Cancels the parent of a Job that failed, with all below it, and so on upwards: up to the root, a scope, the child
    /// of a supervisor, or a parent that was Cancelling or had ended before. Takes no memory.
    pub fn fail_up(&mut self, row: Row)
        requires can { MayCallJob row (seen F.view B.items self.old) }
        requires failed { IsFailure (tree_in (seen F.view B.items self.old) row) }
        requires room { HasRoomForAll F.view B.spare self.old }
        ensures same { SameCaller F.anchor self.old self.new }
        ensures up { IsFailedUp row (seen F.view B.items self.old) (seen F.view B.items self.new) }
        ensures room { HasRoomForAll F.view B.spare self.new }
    {
        match self.climb(row, Reserve::Before) {
            Ok(()) => {}
            Err(_) => unreachable!(),
        }
    }

    /// As `fail_up`. Memory, which comes only if room is made as it goes: the Cancels made so far stand and are noted.
    /// Each pass leaves out what the one before it walked, so that a chain costs in step with its length.
    pub fn climb(&mut self, row: Row, reserve: Reserve) -> Result<(), Memory>
        requires can { MayCallJob row (seen F.view B.items self.old) }
        requires failed { IsFailure (tree_in (seen F.view B.items self.old) row) }
        requires room { reserve ≡ Before → HasRoomForAll F.view B.spare self.old }
        ensures same { SameCaller F.anchor self.old self.new }
        ensures answer { ClimbAnswer row reserve (seen F.view B.items self.old) (seen F.view B.items self.new) result }
        ensures room { reserve ≡ Before → HasRoomForAll F.view B.spare self.new }
    {
        let mut at = row;
        let mut covered = None;
        while let Some(parent) = self.failing_parent(at) {
            match self.pass_except(parent, Reason::Child(at), covered, reserve) {
                Ok(passed) => {
                    if !passed.newly {
                        return Ok(());
                    }
                    at = parent;
                    covered = Some(parent);
                }
                Err(memory) => return Err(memory),
            }
        }
        Ok(())
    }
}
