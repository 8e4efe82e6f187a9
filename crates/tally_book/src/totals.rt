//! The numbers of all tallies, added.

ghost use Rattle.std.specs.Prelude.{◌≡◌, ◌<◌, ◌≤◌, ◌+◌, length};
ghost use Rattle.tally_laws.specs.Counts.{added};
ghost use Rattle.tally_laws.specs.JobTallies.{both_added, jobs_tallied};
ghost use Rattle.tally_laws.specs.Tallies.{tallied};
ghost use Rattle.tally_book.specs.Kept.{job_tally_in, tally_in};
ghost use Rattle.tally_book.specs.Totals.{AreActsOf, AreJobsOf, counts_in, job_counts_in};

use crate::numbers::{ActNumbers, JobNumbers};
use crate::tally::Tally;

/// How many acts on channels of each kind all tallies have. A number of one tally may be as large as a u64 allows.
#[derive(Clone, Copy)]
pub(crate) struct ActTotals {
    pub(crate) hands: u128,
    pub(crate) puts: u128,
    pub(crate) offers: u128,
    pub(crate) takes: u128,
    pub(crate) drops: u128,
    pub(crate) spurns: u128,
    pub(crate) drains: u128,
    pub(crate) wakes: u128,
    pub(crate) withdraws: u128,
    pub(crate) settles: u128,
    pub(crate) values: u128,
    pub(crate) given_up: u128,
    pub(crate) ended: u128,
    pub(crate) taken_back: u128,
}

/// How many Jobs were attached, and how many have ended as completed and as cancelled.
#[derive(Clone, Copy)]
pub(crate) struct JobTotals {
    pub(crate) attached: u64,
    pub(crate) completed: u64,
    pub(crate) cancelled: u64,
}

const NO_ACTS: ActTotals = ActTotals {
    hands: 0,
    puts: 0,
    offers: 0,
    takes: 0,
    drops: 0,
    spurns: 0,
    drains: 0,
    wakes: 0,
    withdraws: 0,
    settles: 0,
    values: 0,
    given_up: 0,
    ended: 0,
    taken_back: 0,
};

const NO_JOBS: JobTotals = JobTotals {
    attached: 0,
    completed: 0,
    cancelled: 0,
};

/// The acts on channels of all tallies.
pub(crate) fn act_totals(tallies: &[Tally]) -> ActTotals
    requires few { length tallies.now ≤ 65536 }
    ensures sum { counts_in result ≡ tallied tallies.now }
    ensures most { AreActsOf (length tallies.now) result }
{
    let mut totals = NO_ACTS;
    for (at, tally) in tallies.iter().enumerate() {
        totals = totals.with(&tally.numbers().acts, at);
    }
    totals
}

/// The acts on Jobs of all tallies.
pub(crate) fn job_totals(tallies: &[Tally]) -> JobTotals
    requires few { length tallies.now ≤ 65536 }
    ensures sum { job_counts_in result ≡ jobs_tallied tallies.now }
    ensures most { AreJobsOf (length tallies.now) result }
{
    let mut totals = NO_JOBS;
    for (at, tally) in tallies.iter().enumerate() {
        totals = totals.with(&tally.numbers().jobs, at);
    }
    totals
}

impl ActTotals {
    /// With one tally more after so many.
    fn with(self, n: &ActNumbers, before: usize) -> ActTotals
        requires fit { AreActsOf before self }
        requires few { before < 65536 }
        ensures sum { counts_in result ≡ added (counts_in self) (tally_in n.now).counts }
        ensures most { AreActsOf (before + 1) result }
    {
        ActTotals {
            hands: self.hands + n.hands as u128,
            puts: self.puts + n.puts as u128,
            offers: self.offers + n.offers as u128,
            takes: self.takes + n.takes as u128,
            drops: self.drops + n.drops as u128,
            spurns: self.spurns + n.spurns as u128,
            drains: self.drains + n.drains as u128,
            wakes: self.wakes + n.wakes as u128,
            withdraws: self.withdraws + n.withdraws as u128,
            settles: self.settles + n.settles as u128,
            values: self.values + n.values as u128,
            given_up: self.given_up + n.given_up as u128,
            ended: self.ended + n.ended as u128,
            taken_back: self.taken_back + n.taken_back as u128,
        }
    }
}

impl JobTotals {
    /// With one tally more after so many.
    fn with(self, n: &JobNumbers, before: usize) -> JobTotals
        requires fit { AreJobsOf before self }
        requires few { before < 65536 }
        ensures sum { job_counts_in result ≡ both_added (job_counts_in self) (job_tally_in n.now) }
        ensures most { AreJobsOf (before + 1) result }
    {
        JobTotals {
            attached: self.attached + n.attached as u64,
            completed: self.completed + n.completed as u64,
            cancelled: self.cancelled + n.cancelled as u64,
        }
    }
}
