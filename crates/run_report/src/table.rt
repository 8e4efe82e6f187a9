//! A value for each place of each channel.

ghost use Rattle.std.specs.Prelude.{◌≡◌, ◌<◌, ◌≤◌, ℕ, [], slice_index_or, vec_len, OnOk, if◌then◌else◌};
ghost use Rattle.channel_model.specs.Fates.{is_at};
ghost use Rattle.run_report.specs.Tables.{lists_of};

use co_base::{ChannelId, Place};
use std::alloc::{AllocError, Global};

/// A value for each place of each channel: the plain one where none was set.
///
/// A channel's row reaches up to its last place that was set. Places are given out in order, so the memory that the
/// books of a run need is linear in their items.
#[derive(Drop)]
pub(crate) struct Table<T> {
    rows: Vec<Vec<T>>,
    plain: T,
}

impl<T: Copy> Table<T> {
    ghost use Rattle.run_report.specs.Tables.{value_at};

    /// The table that has this value at each place.
    pub(crate) fn new(alloc: Global, plain: T) -> Table<T>
        ensures plain { result.plain ≡ plain }
        ensures value { (c p : ℕ) → value_at result c p ≡ plain }
    {
        Table {
            rows: Vec::new(alloc),
            plain,
        }
    }

    /// The value at a place.
    pub(crate) fn get(&self, c: ChannelId, place: Place) -> T
        ensures { result ≡ value_at self.now c place }
    {
        match self.rows.get(c as usize) {
            Some(row) => row.get(place as usize).copied().unwrap_or(self.plain),
            None => self.plain,
        }
    }

    /// So many places of a channel come up to the last that was set; the plain value stands at all after them.
    pub(crate) fn reach(&self, c: ChannelId) -> usize
        ensures { (p : ℕ) → result ≤ p → value_at self.now c p ≡ (self.now).plain }
    {
        match self.rows.get(c as usize) {
            Some(row) => row.len(),
            None => 0,
        }
    }

    /// Sets the value at a place.
    pub(crate) fn set(
        &mut self,
        alloc: Global,
        c: ChannelId,
        place: Place,
        value: T,
    ) -> Result<(), AllocError>
        ensures plain { self.new.plain ≡ self.old.plain }
        ensures value { OnOk result ((d q : ℕ)
            → value_at self.new d q ≡ (if is_at d q c place then value else value_at self.old d q)) }
    {
        grow_rows(alloc, &mut self.rows, c as usize)?;
        set_in_row(
            &mut self.rows[c as usize],
            place as usize,
            self.plain,
            value,
        )
    }
}

/// Adds empty rows until there is one of this number.
fn grow_rows<T: Copy>(alloc: Global, rows: &mut Vec<Vec<T>>, c: usize) -> Result<(), AllocError>
    ensures reaches { OnOk result (c < vec_len rows.new) }
    ensures stays { (d : ℕ) → slice_index_or (lists_of rows.new.items) d [] ≡ slice_index_or (lists_of rows.old.items) d [] }
{
    while rows.len() <= c {
        rows.push(Vec::new(alloc))?;
    }
    Ok(())
}

/// Sets the value at a place of a row, with the plain value at each place that comes between.
fn set_in_row<T: Copy>(row: &mut Vec<T>, place: usize, plain: T, value: T) -> Result<(), AllocError>
    ensures there { OnOk result (slice_index_or row.new.items place plain ≡ value) }
    ensures others { OnOk result ((q : ℕ) → (q ≡ place → ⊥)
        → slice_index_or row.new.items q plain ≡ slice_index_or row.old.items q plain) }
{
    while row.len() <= place {
        row.push(plain)?;
    }
    row[place] = value;
    Ok(())
}
