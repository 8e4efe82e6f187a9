//! Tasks go into slots, and come out of them.
ghost use Rattle.std.specs.Prelude.{◌≡◌, ℕ, ◌+◌, ◌<◌, ◌≤◌, [], IfOk, OnOk, Some, length, vec_capacity, slice_index};
ghost use Rattle.std.specs.Mem.Slots.{slots_items, slots_len, IsFull};
ghost use Rattle.task_berths.specs.Answers.{HaveTags, AllAtHome};

use crate::tagged::Tagged;
use atomic_table::Closed;
use co_base::Tag;
use std::alloc::{AllocError, Global};

/// A word of 0 for each number below n.
pub(crate) fn zeros(alloc: Global, n: usize) -> Result<Vec<u64>, AllocError>
    ensures count { IfOk result (λ v. length v.items ≡ n) }
    ensures words { IfOk result (λ v. (i : ℕ) → slice_index v.items i ≡ 0) }
{
    Vec::from_elem(alloc, 0u64, n)
}

/// The tasks in their slots. The vector keeps its room.
pub(crate) fn move_in<T: Tagged + Drop>(
    alloc: Global,
    tasks: &mut Vec<T>,
) -> Result<Vec<Option<T>>, AllocError>
    requires tags { HaveTags T.tag_of tasks.old.items }
    ensures room { vec_capacity tasks.new ≡ vec_capacity tasks.old }
    ensures empty { OnOk result (tasks.new.items ≡ []) }
    ensures home { IfOk result (λ v. (length v.items ≡ length tasks.old.items) × AllAtHome T.tag_of v.items) }
{
    let mut slots = Vec::with_capacity(alloc, tasks.len())?;
    tasks.reverse();
    while let Some(task) = tasks.pop() {
        slots.push_reserved(Some(task));
    }
    Ok(slots)
}

/// The tasks of a table that is closed, in order.
pub(crate) fn move_out<T: Tagged>(
    mut closed: Closed<Option<T>, Global>,
    count: Tag,
    mut room: Vec<T>,
) -> Vec<T>
    requires full { IsFull closed.slots × (slots_len closed.slots ≡ count) }
    requires home { AllAtHome T.tag_of (slots_items closed.slots) }
    requires room { (room.items ≡ []) × (count ≤ vec_capacity room) }
    ensures count { length result.items ≡ count }
    ensures tags { HaveTags T.tag_of result.items }
{
    let mut i = 0;
    while i < count {
        let slot = closed.take(i as usize);
        let Some(task) = slot else { unreachable!() };
        room.push_reserved(task);
        i += 1;
    }
    closed.free();
    room
}
