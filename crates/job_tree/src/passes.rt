//! To cancel a Job and all below it.

ghost use Rattle.std.specs.Prelude.{◌≡◌};
ghost use Rattle.job_model.specs.Families.{IsCancellingOrEnded};
ghost use Rattle.call_meaning.specs.Seen.{MayCallJob, tree_in};
ghost use Rattle.job_tree.specs.Callers.{SameCaller, seen, HasRoomForAll, HoldsFor};
ghost use Rattle.job_tree.specs.Passes.{BelowAnswer, PassAnswer, IsSomePass, IsCovered, covers};
ghost use Rattle.job_tree.specs.declared.caller.Reserve.TheVariants.{Before};

use crate::caller::{JobCaller, Reserve};
use crate::steps::WalkStep;
use co_base::{Memory, Row, Wakes};
use job_model::{JobFloor, Reason};
use note_book::NoteBook;

/// What a pass over a Job and all below it cancelled.
#[derive(Clone, Copy, Debug, PartialEq, Eq)]
pub struct Passed {
    pub count: u32,
    /// The Job itself was cancelled by the pass, and not before.
    pub newly: bool,
}

/// Whether this is the covered row.
fn is_covered(covered: Option<Row>, row: Row) -> bool
    ensures { result ≡ covers covered row }
{
    match covered {
        Some(passed) => passed == row,
        None => false,
    }
}

impl<F: JobFloor, B: NoteBook, W: Wakes> JobCaller<'_, '_, '_, F, B, W> {
    /// Cancels all below a Job that is Cancelling or ended, and answers how many it cancelled. All below the covered row
    /// was passed before, so it does not walk there.
    fn cancel_below(
        &mut self,
        row: Row,
        covered: Option<Row>,
        reserve: Reserve,
    ) -> Result<u32, Memory>
        requires can { MayCallJob row (seen F.view B.items self.old) }
        requires cancelled { IsCancellingOrEnded (tree_in (seen F.view B.items self.old) row) }
        requires covered { IsCovered (tree_in (seen F.view B.items self.old)) covered }
        requires room { reserve ≡ Before → HasRoomForAll F.view B.spare self.old }
        ensures same { SameCaller F.anchor self.old self.new }
        ensures answer { BelowAnswer row reserve (seen F.view B.items self.old) (seen F.view B.items self.new) result }
        ensures room { reserve ≡ Before → HasRoomForAll F.view B.spare self.new }
    {
        let most = u32::from(self.floor.rows());
        let mut count = 0;
        let mut at = row;
        let mut done = false;
        while !(done && at == row) {
            match self.walk_step(at, done) {
                WalkStep::To(next) => match self.cancel_job(next, Reason::Parent, reserve) {
                    Ok(is_newly) => {
                        count += u32::from(is_newly);
                        at = next;
                        done = is_covered(covered, next);
                    }
                    Err(memory) => return Err(memory),
                },
                WalkStep::Over => done = true,
                WalkStep::Up(parent) => at = parent,
            }
        }
        prove!(count <= most);
        Ok(count)
    }

    /// Cancels a Job and all below it, the newest child first, and answers how many it cancelled. Asks that the
    /// coroutine of each of these be polled. Takes no memory.
    ///
    /// Example: `cancel_family` in `docs/LIBRARY.md`.
    pub fn cancel_pass(&mut self, row: Row, reason: Reason) -> u32
        requires can { MayCallJob row (seen F.view B.items self.old) }
        requires reason { HoldsFor row reason (seen F.view B.items self.old) }
        requires room { HasRoomForAll F.view B.spare self.old }
        ensures same { SameCaller F.anchor self.old self.new }
        ensures pass { IsSomePass row reason (seen F.view B.items self.old) (seen F.view B.items self.new) result }
        ensures room { HasRoomForAll F.view B.spare self.new }
    {
        match self.pass(row, reason, Reserve::Before) {
            Ok(passed) => passed.count,
            Err(_) => unreachable!(),
        }
    }

    /// As `cancel_pass`, and answers besides whether the Job itself was cancelled now. Memory, which comes only if room is made as
    /// the pass goes: the Cancels made so far stand and are noted.
    pub fn pass(&mut self, row: Row, reason: Reason, reserve: Reserve) -> Result<Passed, Memory>
        requires can { MayCallJob row (seen F.view B.items self.old) }
        requires reason { HoldsFor row reason (seen F.view B.items self.old) }
        requires room { reserve ≡ Before → HasRoomForAll F.view B.spare self.old }
        ensures same { SameCaller F.anchor self.old self.new }
        ensures answer { PassAnswer row reason reserve (seen F.view B.items self.old) (seen F.view B.items self.new) result }
        ensures room { reserve ≡ Before → HasRoomForAll F.view B.spare self.new }
    {
        self.pass_except(row, reason, None, reserve)
    }

    /// As `pass`, but does not walk below the covered row, since all there was passed before.
    pub(crate) fn pass_except(
        &mut self,
        row: Row,
        reason: Reason,
        covered: Option<Row>,
        reserve: Reserve,
    ) -> Result<Passed, Memory>
        requires can { MayCallJob row (seen F.view B.items self.old) }
        requires reason { HoldsFor row reason (seen F.view B.items self.old) }
        requires covered { IsCovered (tree_in (seen F.view B.items self.old)) covered }
        requires room { reserve ≡ Before → HasRoomForAll F.view B.spare self.old }
        ensures same { SameCaller F.anchor self.old self.new }
        ensures answer { PassAnswer row reason reserve (seen F.view B.items self.old) (seen F.view B.items self.new) result }
        ensures room { reserve ≡ Before → HasRoomForAll F.view B.spare self.new }
    {
        match self.cancel_job(row, reason, reserve) {
            Ok(newly) => match self.cancel_below(row, covered, reserve) {
                Ok(below) => {
                    let count = below + u32::from(newly);
                    Ok(Passed { count, newly })
                }
                Err(memory) => Err(memory),
            },
            Err(memory) => Err(memory),
        }
    }
}
