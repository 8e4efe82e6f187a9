//! A gate and its passes, and what the history of a gate means.
ghost use Rattle.std.specs.Prelude.{◌≡◌, ◌<◌, ◌≤◌, ◌+◌, true, false};
ghost use Rattle.worded.specs.Views.{has_tag};
ghost use Rattle.std.proofs.Props.{props};
ghost use Rattle.gates.specs.Gates.{Legal, claims, one_if, state_of};
ghost use Rattle.gates.specs.Once.{Legal-prop};
ghost use Rattle.gates.specs.Seen.{first_tag, Ungiven};

use crate::act::GateEntry;
use co_base::Tag;
use std::alloc::Global;
use worded::{HistoryRule, HistorySeat, HistoryTable};

/// The history of a gate of so many permits is a list of entries, of which the word is a function.
pub struct Permits;

impl HistoryRule<GateEntry, u32> for Permits {
    ghost use Rattle.gates.specs.Gates.{Legal, maker};
    ghost use Rattle.gates.specs.Words.{Fits};

    ghost legal = { Legal };

    ghost fits = { Fits };

    ghost who = { maker };

    ghost size = { λ n. 49 };

    ghost blank = { 0 };
}

/// The words of a gate: its own, and one for each pass that may wait, on which it sleeps.
pub type GateTable = HistoryTable<GateEntry, u32, Permits, Global>;

/// A semaphore of 1 to 65,535 permits, which many threads use at once, each with a pass of its own.
#[derive(Drop)]
pub struct Gate {
    pub(crate) table: GateTable,
    pub(crate) permits: u32,
    pub ghost sized: { (table.shared.table_id.words ≡ 49) × (table.shared.key ≡ permits) },
    pub ghost few: { (0 < permits) × (permits ≤ 65535) },
}

/// What a thread steps with at a gate. It alone makes the entries of its number, and has seen all of them.
#[derive(Drop)]
pub struct GatePass {
    pub(crate) seat: HistorySeat<GateEntry, u32>,
    pub(crate) number: Tag,
    /// How many passes were split off.
    pub(crate) splits: u16,
    /// How many permits it holds.
    pub(crate) held: u32,
    /// It was answered Waits, and was not told since that it holds a permit.
    pub(crate) waits: bool,
    pub ghost numbered: { (first_tag seat.me.0.tags ≡ number) × (has_tag number seat.me.0.tags ≡ true) },
    pub ghost ungiven: { Ungiven splits seat.me.0 } by { Prim.hlevel props },
    pub ghost legal: { Legal seat.me.0.key seat.me.0.seen } by { Legal-prop seat.me.0.key seat.me.0.seen },
    pub ghost claimed: { claims number (state_of seat.me.0.key seat.me.0.seen) ≡ held + one_if waits },
    pub ghost calm: { waits ≡ false → (state_of seat.me.0.key seat.me.0.seen).waits number ≡ false } by { Prim.hlevel props },
}

impl GatePass {
    /// The number of the pass: the tag of its entries. The first is 0, and passes that were split off have 1, 2 and so on.
    pub fn number(&self) -> Tag
        ensures { result ≡ self.now.number }
    {
        self.number
    }

    /// How many permits the pass holds, as far as it was told.
    pub fn held(&self) -> u32
        ensures { result ≡ self.now.held }
    {
        self.held
    }

    /// Whether the pass waits, or was granted a permit and was not told so yet.
    pub fn waits(&self) -> bool
        ensures { result ≡ self.now.waits }
    {
        self.waits
    }
}
