//! How far the Jobs of a run are, as its lines say. Nothing is claimed of it.

use crate::plan::Plan;
use crate::queues::moved;
use crate::sleepers::same_of;
use co_base::Row;
use gathered::{Gathered, at, put};
use history_text::Line;
use job_model::{JobAct, JobNote};
use note_book::Item;
use script_reader::Script;
use std::alloc::Global;

/// No Job: there are fewer rows.
pub(crate) const NO_ROW: Row = Row::MAX;

/// One Job.
#[derive(Clone, Copy)]
pub(crate) struct JobSeen {
    /// The row of its parent; `NO_ROW`, if there is none.
    pub(crate) parent: Row,
    /// How many of its children were not told to be gone, and how many may still be cancelled.
    pub(crate) living: u32,
    pub(crate) calm: u32,
    attached: bool,
    pub(crate) body_ended: bool,
    pub(crate) cancelling: bool,
    pub(crate) ended: bool,
    /// How many lines are left that need that it is not Cancelling.
    needs_calm: u32,
}

/// What happens to a Job.
#[derive(Clone, Copy)]
pub(crate) enum JobStep {
    Attached,
    /// The same of one that is Cancelling at once.
    AttachedCancelling,
    BodyEnded,
    Cancelled,
    Finished,
    /// The same of one that was Cancelling.
    FinishedCancelling,
    Gone,
    /// A line was written that needed that it was not Cancelling.
    WasCalm,
}

/// A change of the Job of a row, which can be taken back.
#[derive(Clone, Copy)]
pub(crate) struct JobChange {
    pub(crate) row: Row,
    pub(crate) parent: Row,
    pub(crate) step: JobStep,
}

/// No change: there is no such row.
const NO_JOB_CHANGE: JobChange = JobChange {
    row: NO_ROW,
    parent: NO_ROW,
    step: JobStep::Gone,
};

impl JobChange {
    /// Whether it is told to those who wait for something to happen to the Job.
    pub(crate) fn is_of_row(self) -> bool {
        !matches!(self.step, JobStep::Gone)
    }

    /// Whether it is told to those who wait for something to happen to its parent.
    pub(crate) fn is_of_parent(self) -> bool {
        matches!(
            self.step,
            JobStep::Attached | JobStep::AttachedCancelling | JobStep::Gone
        )
    }
}

impl JobSeen {
    /// Takes what happens to the Job itself.
    fn take(&mut self, change: JobChange, back: bool) {
        match change.step {
            JobStep::Attached => {
                self.attached = !back;
                self.parent = change.parent;
            }
            JobStep::AttachedCancelling => {
                self.attached = !back;
                self.parent = change.parent;
                self.cancelling = !back;
            }
            JobStep::BodyEnded => self.body_ended = !back,
            JobStep::Cancelled => self.cancelling = !back,
            JobStep::Finished | JobStep::FinishedCancelling => self.ended = !back,
            JobStep::WasCalm => self.needs_calm = moved(self.needs_calm, back),
            JobStep::Gone => {}
        }
    }

    /// Counts what happens to a child.
    fn count(&mut self, step: JobStep, back: bool) {
        match step {
            JobStep::Attached => {
                self.living = moved(self.living, !back);
                self.calm = moved(self.calm, !back);
            }
            JobStep::AttachedCancelling => self.living = moved(self.living, !back),
            JobStep::Cancelled | JobStep::Finished => self.calm = moved(self.calm, back),
            JobStep::Gone => self.living = moved(self.living, back),
            JobStep::BodyEnded | JobStep::FinishedCancelling | JobStep::WasCalm => {}
        }
    }
}

/// All Jobs.
#[derive(Drop)]
pub(crate) struct Rows {
    rows: Gathered<JobSeen>,
    /// How many coroutines there are, behind whose rows come those of scopes.
    coroutines: u16,
}

const NO_JOB: JobSeen = JobSeen {
    parent: NO_ROW,
    living: 0,
    calm: 0,
    attached: false,
    body_ended: false,
    cancelling: false,
    ended: false,
    needs_calm: 0,
};

const ROOT: JobSeen = JobSeen {
    attached: true,
    ..NO_JOB
};

impl Rows {
    /// Before the first line.
    pub(crate) fn new(alloc: Global, plan: &Plan, script: &Script, lines: &[Line]) -> Rows {
        let mut rows = Rows {
            rows: same_of(alloc, NO_JOB, script.jobs() as usize),
            coroutines: script.coroutines(),
        };
        put(rows.rows.as_mut(), 0, ROOT);
        rows.count_calm(plan, lines);
        rows
    }

    /// Whether memory held them.
    pub(crate) fn is_whole(&self) -> bool {
        self.rows.is_whole()
    }

    /// Counts for each Job the lines that need that it is not Cancelling.
    fn count_calm(&mut self, plan: &Plan, lines: &[Line]) {
        let mut place = 0usize;
        for line in lines {
            let change = self.change_of(plan.needs_calm(line.item, place), JobStep::WasCalm);
            self.change(change, true);
            place = place.saturating_add(1);
        }
    }

    /// One of them.
    pub(crate) fn of(&self, row: Row) -> JobSeen {
        at(self.rows.as_slice(), row as usize, NO_JOB)
    }

    /// Whether a row may be attached: those of scopes are given out in their order.
    pub(crate) fn may_attach(&self, row: Row) -> bool {
        let first = self.coroutines;
        row < first
            || (!self.of(row).attached && (row == first || self.of(row.saturating_sub(1)).attached))
    }

    /// Whether a row may be cancelled, and no line is left that needs that it is not.
    pub(crate) fn may_cancel(&self, row: Row) -> bool {
        let job = self.of(row);
        job.attached && !job.ended && !job.cancelling && job.needs_calm == 0
    }

    /// The change that this makes of a row that is attached.
    pub(crate) fn change_of(&self, row: Row, step: JobStep) -> JobChange {
        JobChange {
            row,
            parent: self.of(row).parent,
            step,
        }
    }

    /// The change that a line makes; `NO_JOB_CHANGE`, if it makes none.
    pub(crate) fn change_by(&self, item: Item) -> JobChange {
        let Item::Job(JobNote::Made(act)) = item else {
            return NO_JOB_CHANGE;
        };
        let (row, step) = match act {
            JobAct::Attach {
                parent,
                row,
                cancelled,
                ..
            } => {
                return JobChange {
                    row,
                    parent,
                    step: if cancelled {
                        JobStep::AttachedCancelling
                    } else {
                        JobStep::Attached
                    },
                };
            }
            JobAct::EndBody { row, .. } => (row, JobStep::BodyEnded),
            JobAct::Cancel { row, .. } => (row, JobStep::Cancelled),
            JobAct::Finish { row, .. } => (row, self.finished(row)),
            JobAct::Gone { row } => (row, JobStep::Gone),
            JobAct::Start { .. } => return NO_JOB_CHANGE,
        };
        self.change_of(row, step)
    }

    fn finished(&self, row: Row) -> JobStep {
        if self.of(row).cancelling {
            JobStep::FinishedCancelling
        } else {
            JobStep::Finished
        }
    }

    /// Makes a change, or takes it back.
    pub(crate) fn change(&mut self, change: JobChange, back: bool) {
        let mut job = self.of(change.row);
        job.take(change, back);
        put(self.rows.as_mut(), change.row as usize, job);
        let mut parent = self.of(change.parent);
        parent.count(change.step, back);
        put(self.rows.as_mut(), change.parent as usize, parent);
    }
}
