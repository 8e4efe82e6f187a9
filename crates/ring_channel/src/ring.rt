//! A ring, and what a thread steps with on it.
ghost use Rattle.std.specs.Prelude.{◌≡◌, ◌^◌, ◌≤◌, true, vec_capacity};
ghost use Rattle.std.proofs.Props.{props};
ghost use Rattle.worded.specs.Views.{is_bare};
ghost use Rattle.ring_channel.specs.Seen.{IsTable, IsSeated, IsIdle};

use crate::act::RingEntry;
use crate::rule::{RingRule, RingSeat};
use atomic_table::Table;
use std::alloc::Global;
use worded::View;

/// The words and slots of a ring, with their memory.
pub type RingTable<T> = Table<Option<T>, View<RingEntry<T>, u32>, u32, RingRule<T>, Global>;

/// A channel of owned values, on which many threads call at once, each with a pass of its own. With the ring its values are dropped.
#[derive(Drop)]
pub struct Ring<T> {
    pub(crate) table: RingTable<T>,
    pub(crate) slots: u32,
    /// How many values may be put in all.
    pub(crate) places: u64,
    /// Room for the values that are left.
    pub(crate) room: Vec<T>,
    pub ghost roomy: { (is_bare room.items ≡ true) × (slots ≤ vec_capacity room) },
    pub ghost sized: { IsTable table.shared.table_id table.shared.key } by { Prim.hlevel props },
    pub ghost many: { table.shared.key ≡ slots },
    pub ghost few: { places ≤ 2 ^ 62 },
}

/// What a thread steps with: it alone calls under its tag.
#[derive(Drop)]
pub struct RingPass<T> {
    pub(crate) seat: RingSeat<T>,
    pub ghost seated: { IsSeated seat.me.0.key seat.me } by { Prim.hlevel props },
    pub ghost bare: { is_bare seat.me.1 ≡ true },
    pub ghost idle: { IsIdle seat.me.0.key seat.me.0 } by { Prim.hlevel props },
}
