//! The calls of the tree.

ghost use Rattle.std.specs.Prelude.{◌≡◌, ℕ, ◌<◌, ◌≤◌, ◌+◌, IfOk, false, length, option_map};
ghost use Rattle.job_model.specs.Trees.{Tree, start};
ghost use Rattle.job_replay.specs.Replays.{IsStep, IsTree, look_of, look_of_row};
ghost use Rattle.job_replay.specs.Rows.{AreRowsOf, bit_in, item_in, root_row};
ghost use Rattle.job_replay.specs.Sizes.{shape_of};

use crate::changes::make;
use crate::job_row::{JobRow, JobSize};
use crate::replay::JobReplay;
use crate::rows::row_at;
use crate::tests::may_make;
use co_base::{Memory, Row, Tag, Value};
use job_model::{Cause, JobAct, JobKind, JobState};
use std::alloc::Global;

/// What is seen of a Job.
#[derive(Clone, Copy)]
pub struct JobLook {
    pub state: JobState,
    pub cause: Cause,
    /// The result in Completing and Completed, else 0.
    pub value: Value,
    pub body_ended: bool,
    /// How many children were not told gone.
    pub living: u32,
}

fn look_of(job: JobRow) -> JobLook
    ensures { result ≡ look_of_row job }
{
    JobLook {
        state: job.state,
        cause: job.cause,
        value: job.value,
        body_ended: job.body_ended,
        living: job.living,
    }
}

fn look_at(rows: &Vec<Option<JobRow>>, row: Row) -> Option<JobLook>
    ensures { result ≡ option_map look_of_row (item_in rows.now.items row) }
{
    row_at(rows, row).map(look_of)
}

/// The root as a row.
fn root_row() -> JobRow
    ensures { result ≡ root_row }
{
    JobRow {
        parent: None,
        kind: JobKind {
            supervisor: false,
            scoped: false,
            lazy: false,
        },
        tag: 0,
        state: JobState::Active,
        body_ended: false,
        cause: Cause::None,
        value: 0,
        living: 0,
        finisher: None,
    }
}

/// The rows of a tree that has the root alone.
fn rows_with_root(alloc: Global, count: u16) -> Result<Vec<Option<JobRow>>, Memory>
    requires { 0 < count }
    ensures count { IfOk result (λ rows. length rows.items ≡ count) }
    ensures rows { IfOk result (λ rows. AreRowsOf start rows.items) }
{
    let mut rows = Vec::new(alloc);
    rows.resize(count as usize, None)?;
    rows[0] = Some(root_row());
    Ok(rows)
}

/// So many bits, of which none is set.
fn no_bits(alloc: Global, count: u16) -> Result<Vec<bool>, Memory>
    ensures count { IfOk result (λ bits. length bits.items ≡ count) }
    ensures none { IfOk result (λ bits. (r : ℕ) → bit_in bits.items r ≡ false) }
{
    let mut bits = Vec::new(alloc);
    bits.resize(count as usize, false)?;
    Ok(bits)
}

impl JobReplay {
    /// A tree with the root alone, for so many coroutines and so many scopes.
    pub fn new(alloc: Global, coroutines: u16, scopes: u16) -> Result<JobReplay, Memory>
        requires some { 0 < coroutines }
        requires few { coroutines + scopes ≤ 16000 }
        ensures size { IfOk result (λ x. shape_of x.size ≡ record { coroutines = coroutines; rows = coroutines + scopes }) }
        ensures tree { IfOk result (λ x. IsTree start x) }
    {
        let size = JobSize {
            coroutines,
            rows: coroutines + scopes,
        };
        let rows = rows_with_root(alloc, size.rows)?;
        let gone = no_bits(alloc, size.rows)?;
        Ok(JobReplay { size, rows, gone })
    }

    /// The numbers of coroutines and of rows.
    pub fn size(&self) -> JobSize
        ensures { result ≡ self.now.size }
    {
        self.size
    }

    /// Makes this act of `who` if it may come on the tree, and says whether it may.
    ///
    /// An act takes the same time however many rows there are, but for a Cancel by the failure of a third row, which goes through all.
    pub fn step(&mut self, who: Tag, act: &JobAct) -> bool
        ensures size { self.new.size ≡ self.old.size }
        ensures step { (tree : Tree) → IsTree tree self.old → IsStep result tree who act.now self.old self.new }
    {
        if !may_make(self.size, &self.rows, &self.gone, who, act) {
            return false;
        }
        make(&mut self.rows, &mut self.gone, who, act);
        true
    }

    /// What is seen of a row, if it is attached.
    pub fn look(&self, row: Row) -> Option<JobLook>
        ensures { (tree : Tree) → IsTree tree self.now → result ≡ option_map look_of (tree row) }
    {
        look_at(&self.rows, row)
    }
}
