//! Reads and writes of rows and of bits.

ghost use Rattle.std.specs.Prelude.{◌≡◌, Some};
ghost use Rattle.job_replay.specs.Rows.{bit_in, item_in};
ghost use Rattle.job_replay.specs.Changes.{Puts, Sets};

use crate::job_row::JobRow;
use co_base::Row;

/// The Job of a row, if it is attached.
pub(crate) fn row_at(rows: &Vec<Option<JobRow>>, row: Row) -> Option<JobRow>
    ensures { result ≡ item_in rows.now.items row }
{
    let row = row as usize;
    if row < rows.len() { rows[row] } else { None }
}

/// Writes the Job of a row.
pub(crate) fn put_at(rows: &mut Vec<Option<JobRow>>, row: Row, job: JobRow)
    ensures { Puts row (Some job) rows.old.items rows.new.items }
{
    let row = row as usize;
    if row < rows.len() {
        rows[row] = Some(job);
    }
}

pub(crate) fn bit_at(bits: &Vec<bool>, row: Row) -> bool
    ensures { result ≡ bit_in bits.now.items row }
{
    let row = row as usize;
    row < bits.len() && bits[row]
}

pub(crate) fn set_at(bits: &mut Vec<bool>, row: Row)
    ensures { Sets row bits.old.items bits.new.items }
{
    let row = row as usize;
    if row < bits.len() {
        bits[row] = true;
    }
}
