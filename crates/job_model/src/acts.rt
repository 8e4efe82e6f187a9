//! The acts on Jobs, and what a coroutine notes of its calls.

ghost use Rattle.std.specs.Prelude.{◌≡◌};
ghost use Rattle.job_model.specs.Trees.{is_new, is_active, is_ended, is_cancelled, is_cancellable};

use co_base::{Row, Tag, Value};

/// How far a Job is.
///
/// | state | active | completed | cancelled |
/// |---|---|---|---|
/// | New | no | no | no |
/// | Active | yes | no | no |
/// | Completing | yes | no | no |
/// | Cancelling | no | no | yes |
/// | Cancelled | no | yes | yes |
/// | Completed | no | yes | no |
#[derive(Clone, Copy, PartialEq)]
pub enum JobState {
    New,
    Active,
    /// The body has ended, and the children are waited for.
    Completing,
    Cancelling,
    Cancelled,
    Completed,
}

impl JobState {
    pub fn is_new(self) -> bool
        ensures { result ≡ is_new self }
    {
        matches!(self, JobState::New)
    }

    /// Active or Completing.
    pub fn is_active(self) -> bool
        ensures { result ≡ is_active self }
    {
        matches!(self, JobState::Active | JobState::Completing)
    }

    /// It has ended: Completed or Cancelled.
    pub fn is_completed(self) -> bool
        ensures { result ≡ is_ended self }
    {
        matches!(self, JobState::Completed | JobState::Cancelled)
    }

    /// Cancelling or Cancelled.
    pub fn is_cancelled(self) -> bool
        ensures { result ≡ is_cancelled self }
    {
        matches!(self, JobState::Cancelling | JobState::Cancelled)
    }

    /// It may still be cancelled: New, Active or Completing.
    pub fn is_cancellable(self) -> bool
        ensures { result ≡ is_cancellable self }
    {
        matches!(
            self,
            JobState::New | JobState::Active | JobState::Completing
        )
    }
}

/// What sort of Job it is.
#[derive(Clone, Copy, PartialEq)]
pub struct JobKind {
    /// A child's failure leaves it alone.
    pub supervisor: bool,
    /// It is a part of a coroutine's body, and not a coroutine's own Job.
    pub scoped: bool,
    /// It is New until it is started.
    pub lazy: bool,
}

/// Why a Job was cancelled, in the end.
#[derive(Clone, Copy, PartialEq)]
pub enum Cause {
    /// It was not.
    None,
    /// It was asked for, or its parent was cancelled.
    Request,
    /// The body of this row failed.
    Failure(Row),
}

/// Why a Cancel is made.
#[derive(Clone, Copy)]
pub enum Reason {
    Request,
    /// The parent is cancelled.
    Parent,
    /// This child failed.
    Child(Row),
    /// The caller's own body ends by the failure of this row.
    Own(Row),
}

/// How a Job ended: with its result, or as cancelled.
#[derive(Clone, Copy, PartialEq)]
pub enum End {
    Completed(Value),
    Cancelled(Cause),
}

/// What one step does to the tree of Jobs.
#[derive(Clone, Copy)]
pub enum JobAct {
    /// Makes a row the newest child of another. `cancelled` says that the child is Cancelling at once.
    Attach {
        parent: Row,
        row: Row,
        kind: JobKind,
        tag: Tag,
        cancelled: bool,
    },
    /// Lets a New Job run.
    Start {
        row: Row,
    },
    /// The body has ended, with this result.
    EndBody {
        row: Row,
        value: Value,
    },
    /// Begins the cancellation of a Job.
    Cancel {
        row: Row,
        reason: Reason,
    },
    /// Ends a Job whose body has ended and none of whose children lives.
    Finish {
        row: Row,
        end: End,
    },
    /// Tells the parent of an ended Job that it is gone.
    Gone {
        row: Row,
    },
}

/// An act, and the coroutine that made it.
#[derive(Clone, Copy)]
pub struct JobEntry {
    pub who: Tag,
    pub act: JobAct,
}

/// What a coroutine notes of a call on a Job: the act that it made, or an answer without one.
#[derive(Clone, Copy)]
pub enum JobNote {
    Made(JobAct),
    /// It saw that this Job is Cancelling.
    Saw { row: Row },
    /// It saw that this Job ended so.
    SawEnd { row: Row, end: End },
    /// Its body fails with this code.
    Fail { code: Value },
    /// All rows for scopes are claimed.
    NoRow,
    /// The coroutine's row is claimed.
    Used,
    /// The parent has ended.
    ParentEnded,
}
