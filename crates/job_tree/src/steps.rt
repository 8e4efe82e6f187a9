//! One step of a call, noted.

ghost use Rattle.std.specs.Prelude.{◌≡◌, ◌≢◌, ◌<◌, ◌≤◌, ℕ, true, [], OnOk, OnErr};
ghost use Rattle.job_model.specs.Floors.{MayCall, HasRoom, Looked};
ghost use Rattle.call_meaning.specs.Seen.{MayCallJob};
ghost use Rattle.job_tree.specs.Callers.{SameCaller, seen, HasRoomForAll, HoldsFor};
ghost use Rattle.job_tree.specs.Notes.{OnlyLooked};
ghost use Rattle.job_tree.specs.Passes.{CancelAnswer, WalkStepAnswer};
ghost use Rattle.job_tree.specs.declared.caller.Reserve.TheVariants.{Before, AsItGoes};

use crate::caller::{JobCaller, Reserve};
use co_base::{Memory, Row, Tag, Wakes};
use job_model::{CancelledNow, JobAct, JobFloor, JobNote, Reason};
use note_book::{Item, NoteBook};

/// Where a walk over the Jobs below another goes from a row.
#[derive(Clone, Copy, Debug, PartialEq, Eq)]
pub(crate) enum WalkStep {
    /// To a row that it did not come to yet.
    To(Row),
    /// Nowhere below this row.
    Over,
    /// Back to the parent: it came to all children.
    Up(Row),
}

/// Makes room for so many entries on Jobs, each noted.
pub fn make_room<F: JobFloor, B: NoteBook>(
    floor: &mut F,
    book: &mut B,
    n: u32,
) -> Result<(), Memory>
    ensures anchor { F.anchor floor.new ≡ F.anchor floor.old }
    ensures items { B.items book.new ≡ B.items book.old }
    ensures floor { OnOk result (HasRoom n (F.view floor.old) (F.view floor.new)) }
    ensures book { OnOk result (n ≤ B.spare book.new) }
    ensures same { OnErr result (F.view floor.new ≡ F.view floor.old) }
{
    if let Err(memory) = book.room(n) {
        return Err(memory);
    }
    if let Err(memory) = floor.room(n) {
        return Err(memory);
    }
    Ok(())
}

/// Makes room for one entry and its note, unless that was made before.
fn room_for_cancel<F: JobFloor, B: NoteBook>(
    floor: &mut F,
    book: &mut B,
    reserve: Reserve,
) -> Result<(), Memory>
    requires floor { reserve ≡ Before → 0 < (F.view floor.old).spare }
    requires book { reserve ≡ Before → 0 < B.spare book.old }
    ensures anchor { F.anchor floor.new ≡ F.anchor floor.old }
    ensures looked { (who : ℕ) → Looked who [] (F.view floor.old) (F.view floor.new) }
    ensures items { B.items book.new ≡ B.items book.old }
    ensures floor_room { OnOk result (0 < (F.view floor.new).spare) }
    ensures book_room { OnOk result (0 < B.spare book.new) }
    ensures memory { OnErr result (reserve ≡ AsItGoes) }
    ensures same_spare { reserve ≡ Before → B.spare book.new ≡ B.spare book.old }
{
    match reserve {
        Reserve::Before => Ok(()),
        Reserve::AsItGoes => match make_room(floor, book, 1) {
            Ok(()) => Ok(()),
            Err(memory) => Err(memory),
        },
    }
}

/// Asks that the coroutine of the Job be polled.
pub fn wake_job<F: JobFloor, W: Wakes>(floor: &mut F, wakes: &mut W, who: Tag, row: Row)
    requires can { MayCall who row (F.view floor.old) }
    ensures anchor { F.anchor floor.new ≡ F.anchor floor.old }
    ensures looked { Looked who [] (F.view floor.old) (F.view floor.new) }
{
    let tag = if row == 0 {
        0
    } else {
        floor.link(who, row).tag
    };
    wakes.wake(tag);
}

impl<F: JobFloor, B: NoteBook, W: Wakes> JobCaller<'_, '_, '_, F, B, W> {
    /// Cancels the Job alone, where it is not Cancelling or ended, and answers whether it did.
    pub(crate) fn cancel_job(
        &mut self,
        row: Row,
        reason: Reason,
        reserve: Reserve,
    ) -> Result<bool, Memory>
        requires can { MayCallJob row (seen F.view B.items self.old) }
        requires reason { HoldsFor row reason (seen F.view B.items self.old) }
        requires room { reserve ≡ Before → HasRoomForAll F.view B.spare self.old }
        ensures same { SameCaller F.anchor self.old self.new }
        ensures answer { CancelAnswer row reason reserve (seen F.view B.items self.old) (seen F.view B.items self.new) result }
        ensures room { reserve ≡ Before → HasRoomForAll F.view B.spare self.new }
    {
        let Some(job) = self.floor.look(self.who, row) else {
            return Ok(false);
        };
        if !job.state.is_cancellable() {
            return Ok(false);
        }
        if let Err(memory) = room_for_cancel(self.floor, self.book, reserve) {
            return Err(memory);
        }
        match self.floor.cancel_one(self.who, row, reason) {
            CancelledNow::Now => {
                let act = JobAct::Cancel { row, reason };
                self.book.note(Item::Job(JobNote::Made(act)));
                wake_job(self.floor, self.wakes, self.who, row);
                Ok(true)
            }
            CancelledNow::Already => Ok(false),
        }
    }

    /// Where a walk that came to this row goes next. `done`: it came to all below the row.
    pub(crate) fn walk_step(&mut self, at: Row, done: bool) -> WalkStep
        requires can { MayCallJob at (seen F.view B.items self.old) }
        requires child { done ≡ true → at ≢ 0 }
        ensures same { SameCaller F.anchor self.old self.new }
        ensures book { self.new.book.now ≡ self.old.book.now }
        ensures looked { OnlyLooked (seen F.view B.items self.old) (seen F.view B.items self.new) }
        ensures answer { WalkStepAnswer at done (seen F.view B.items self.old) (seen F.view B.items self.new) result }
    {
        if done {
            let link = self.floor.link(self.who, at);
            return match link.next {
                Some(next) => WalkStep::To(next),
                None => WalkStep::Up(link.parent),
            };
        }
        let Some(job) = self.floor.look(self.who, at) else {
            return WalkStep::Over;
        };
        match job.first_child {
            Some(child) if !job.state.is_completed() => WalkStep::To(child),
            _ => WalkStep::Over,
        }
    }
}
