//! A Job as a row of a vector, and how many rows there are.

use co_base::{Row, Tag, Value};
use job_model::{Cause, JobKind, JobState};

/// The numbers of coroutines and of rows of a tree of Jobs.
#[derive(Clone, Copy)]
pub struct JobSize {
    pub coroutines: u16,
    pub rows: u16,
}

/// A Job. Which of its children were told gone stands with them.
#[derive(Clone, Copy)]
pub(crate) struct JobRow {
    /// None for the root.
    pub parent: Option<Row>,
    pub kind: JobKind,
    pub tag: Tag,
    pub state: JobState,
    pub body_ended: bool,
    pub cause: Cause,
    /// The result in Completing and Completed, else 0.
    pub value: Value,
    /// How many children were not told gone.
    pub living: u32,
    /// Who made its Finish.
    pub finisher: Option<Tag>,
}
