//! What is said of a history.

use co_base::{ChannelId, Row};
use job_replay::JobLook;
use one_thread_floor::Snapshot;

/// What is said of a history. Its lines are numbered from 1.
#[derive(Clone, Copy, Debug, PartialEq, Eq)]
pub enum Verdict {
    /// Each act may come where it comes, and each note holds.
    Legal,
    /// The act of this line may not come, and all lines before it are allowed.
    MayNotCome(usize),
    /// What this line says does not hold, and all lines before it are allowed.
    NotSo(usize),
}

/// What stood where a history stops.
#[derive(Clone, Copy)]
pub enum Stood {
    /// At a channel.
    Channel(ChannelId, Snapshot),
    /// At the row of a Job, if there is one.
    Job(Row, Option<JobLook>),
}

/// What is said of a history, and for a reader, without any promise, what stood at the channel or the Job of the line
/// where it stops.
#[derive(Clone, Copy)]
pub struct Judgement {
    pub verdict: Verdict,
    pub stood: Option<Stood>,
}

/// What is said of the next line of a history.
#[derive(Clone, Copy)]
pub(crate) enum Step {
    Good,
    MayNotCome,
    NotSo,
}
