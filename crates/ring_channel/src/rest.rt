//! What is left of a ring.
ghost use Rattle.std.specs.Prelude.{◌≡◌, ℕ, ◌<◌, ◌≤◌, ◌^◌, ◌+◌, ◌++◌, true, option_to_list, vec_len, vec_capacity};
ghost use Rattle.std.specs.Mem.Slots.{slots_items, slots_len, IsFull};
ghost use Rattle.worded.specs.Views.{has_tag, is_bare};
ghost use Rattle.ring_channel.specs.Seen.{now_in};
ghost use Rattle.ring_channel.specs.Passes.{IsOf, IsFirst, seen_by, left_in, values_until};

use crate::ring::{Ring, RingPass};
use crate::steps::HEAD;
use atomic_table::Closed;
use std::alloc::Global;

/// Puts the value behind the others, if there is one.
fn push_value<T>(room: &mut Vec<T>, slot: Option<T>)
    requires room { vec_len room.old < vec_capacity room.old }
    ensures items { room.new.items ≡ room.old.items ++ option_to_list slot }
    ensures count { vec_len room.new ≤ vec_len room.old + 1 }
    ensures capacity { vec_capacity room.new ≡ vec_capacity room.old }
{
    if let Some(value) = slot {
        room.push_reserved(value);
    }
}

/// The values in the slots of a lap, from that of the place `first` on.
fn move_rest<T>(
    mut closed: Closed<Option<T>, Global>,
    slots: u32,
    first: u64,
    mut room: Vec<T>,
) -> Vec<T>
    requires full { IsFull closed.slots × (slots_len closed.slots ≡ slots) }
    requires first { first ≤ 2 ^ 62 }
    requires room { (is_bare room.items ≡ true) × (slots ≤ vec_capacity room) }
    ensures rest { result.items ≡ values_until slots (slots_items closed.slots) first slots }
{
    let mut i = 0;
    while i < slots {
        let slot = (first + i as u64) % slots as u64;
        let value = closed.take(slot as usize);
        push_value(&mut room, value);
        i += 1;
    }
    closed.free();
    room
}

impl<T> Ring<T> {
    /// The values that were put and not received, in the order of their places. All other passes have ended.
    pub fn into_rest(self, main: RingPass<T>) -> Vec<T>
        requires of { IsOf self main }
        requires first { IsFirst main }
        requires ended { (t : ℕ) → has_tag t (seen_by main).given ≡ true → has_tag t (seen_by main).tags ≡ true }
        ensures rest { result.items ≡ left_in (now_in self.slots (seen_by main)) }
    {
        let Ring {
            table,
            slots,
            places: _,
            room,
        } = self;
        let RingPass { seat } = main;
        let closed = table.close_with(seat);
        let first = closed.word(HEAD);
        move_rest(closed, slots, first, room)
    }
}
