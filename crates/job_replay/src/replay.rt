//! The tree.

ghost use Rattle.std.specs.Prelude.{◌≤◌};
ghost use Rattle.std.proofs.Props.{props};
ghost use Rattle.job_model.specs.Trees.{IsShape};
ghost use Rattle.job_replay.specs.Sizes.{shape_of};

use crate::job_row::{JobRow, JobSize};

/// A tree of Jobs that follows acts.
#[derive(Drop)]
pub struct JobReplay {
    pub(crate) size: JobSize,
    pub(crate) rows: Vec<Option<JobRow>>,
    /// Of each row, whether its parent was told that it is gone.
    pub(crate) gone: Vec<bool>,
    ghost few: { size.rows ≤ 16000 },
    ghost shaped: { IsShape (shape_of size) } by { Prim.hlevel props },
}
