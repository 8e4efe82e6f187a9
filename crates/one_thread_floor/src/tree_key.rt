//! What calls can tell of a tree of Jobs, as numbers: trees with equal numbers answer equal calls alike.

use crate::list_key::{add_all, if_held};
use crate::tree_floor::TreeFloor;
use crate::tree_row::TreeRow;
use co_base::{Memory, Row};
use job_model::{Cause, JobKind, JobState};

impl TreeFloor {
    /// Adds the numbers of all rows. The order of children is left out.
    pub fn push_key(&self, out: &mut Vec<u64>) -> Result<(), Memory> {
        let mut held = true;
        for row in self.rows.as_slice() {
            held = held & add_row(out, *row);
        }
        for claim in self.claims.as_slice() {
            held = held & add_all(out, &[u64::from(claim.is_some())]);
        }
        if_held(held)
    }

    /// Whether a Job is Cancelling.
    pub fn has_cancelling(&self) -> bool {
        for row in self.rows.as_slice() {
            if let Some(row) = row {
                if row.state == JobState::Cancelling {
                    return true;
                }
            }
        }
        false
    }
}

/// Adds the numbers of a row: those of its Job, or 0 if none is attached. Says whether memory held them.
fn add_row(out: &mut Vec<u64>, row: Option<TreeRow>) -> bool {
    match row {
        Some(job) => add_job(out, job),
        None => add_all(out, &[0]),
    }
}

/// Adds the numbers of a Job.
fn add_job(out: &mut Vec<u64>, job: TreeRow) -> bool {
    add_all(
        out,
        &[
            state_number(job.state),
            kind_number(job.kind),
            cause_number(job.cause),
            u64::from(job.body_ended),
            u64::from(job.value),
            u64::from(job.living),
            u64::from(job.tag),
            parent_number(job.parent),
        ],
    )
}

/// 0, or a row and 1.
fn parent_number(parent: Option<Row>) -> u64 {
    match parent {
        Some(row) => u64::from(row).saturating_add(1),
        None => 0,
    }
}

/// 1 to 6.
fn state_number(state: JobState) -> u64 {
    match state {
        JobState::New => 1,
        JobState::Active => 2,
        JobState::Completing => 3,
        JobState::Cancelling => 4,
        JobState::Cancelled => 5,
        JobState::Completed => 6,
    }
}

fn kind_number(kind: JobKind) -> u64 {
    match (kind.supervisor, kind.scoped, kind.lazy) {
        (false, false, false) => 0,
        (true, false, false) => 1,
        (false, true, false) => 2,
        (true, true, false) => 3,
        (false, false, true) => 4,
        (true, false, true) => 5,
        (false, true, true) => 6,
        (true, true, true) => 7,
    }
}

/// 0, 1, or a row and 2.
fn cause_number(cause: Cause) -> u64 {
    match cause {
        Cause::None => 0,
        Cause::Request => 1,
        Cause::Failure(row) => u64::from(row).saturating_add(2),
    }
}
