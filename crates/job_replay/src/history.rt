//! Whether a history of Jobs is one that the rules allow.

ghost use Rattle.std.specs.Prelude.{◌≡◌, ◌<◌, ◌≤◌, ◌+◌, IfOk};
ghost use Rattle.job_replay.specs.Verdicts.{IsVerdict};

use crate::replay::JobReplay;
use co_base::Memory;
use job_model::JobEntry;
use std::alloc::Global;

/// What is said of a history. Its entries are numbered from 1.
#[derive(Clone, Copy, Debug, PartialEq, Eq)]
pub enum JobVerdict {
    /// Each act may come where it comes.
    Legal,
    /// This act may not come, and all before it are legal.
    MayNotCome(usize),
}

/// Checks what the coroutines of any implementation did with Jobs, in one order.
///
/// The tree has so many coroutines, of which the first is the root's, and so many rows for scopes after theirs. The time grows with the
/// number of acts, and each Cancel by the failure of a third row goes through all rows; a legal history has at most six acts a row.
pub fn check_jobs(
    alloc: Global,
    coroutines: u16,
    scopes: u16,
    entries: &[JobEntry],
) -> Result<JobVerdict, Memory>
    requires some { 0 < coroutines }
    requires few { coroutines + scopes ≤ 16000 }
    ensures { IfOk result (λ verdict. IsVerdict (record { coroutines = coroutines; rows = coroutines + scopes }) entries.now verdict) }
{
    let mut tree = JobReplay::new(alloc, coroutines, scopes)?;
    let mut rest = entries;
    let mut number = 1usize;
    while let [entry, more @ ..] = rest {
        if !tree.step(entry.who, &entry.act) {
            return Ok(JobVerdict::MayNotCome(number));
        }
        number += 1;
        rest = more;
    }
    Ok(JobVerdict::Legal)
}
