//! Calls on Jobs alone: a `JobCaller` makes those of one coroutine, over any floor of Jobs.

ghost use Rattle.std.specs.Prelude.{◌≡◌, ◌+◌, length, IfOk, OnOk};
ghost use Rattle.job_model.specs.Histories.{replay};
ghost use Rattle.job_model.specs.Floors.{MayCall};
ghost use Rattle.job_model.specs.Cancels.{IsAllCancelled};

use co_base::{Memory, Row, Wakes};
use job_model::{JobFloor, Reason};
use job_tree::JobCaller;
use note_book::NoteBook;

/// Cancels a Job with all below it, and answers how many it cancelled. In the end each of them is Cancelling or ended, and the book
/// has a note more for each that was cancelled.
pub(crate) fn cancel_family<J: JobFloor, B: NoteBook, W: Wakes>(
    caller: &mut JobCaller<'_, '_, '_, J, B, W>,
    row: Row,
) -> Result<u32, Memory>
    requires can { MayCall caller.old.who row (J.view caller.old.floor.now) }
    ensures family { OnOk result (IsAllCancelled (replay (J.view caller.new.floor.now).seen) row) }
    ensures noted { IfOk result (λ count. length (B.items caller.new.book.now) ≡ length (B.items caller.old.book.now) + count) }
{
    let rows = u32::from(caller.floor.rows());
    if let Err(memory) = caller.book.room(rows) {
        return Err(memory);
    }
    if let Err(memory) = caller.floor.room(rows) {
        return Err(memory);
    }
    Ok(caller.cancel_pass(row, Reason::Request))
}
