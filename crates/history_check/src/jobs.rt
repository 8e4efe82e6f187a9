//! What becomes of a note of a Job.

ghost use Rattle.std.specs.Prelude.{◌≡◌};
ghost use Rattle.std.specs.Bool.{Decides};
ghost use Rattle.job_model.specs.Steps.{is_end, same_cause};
ghost use Rattle.job_model.specs.Trees.{Tree};
ghost use Rattle.job_replay.specs.Replays.{IsTree};
ghost use Rattle.note_book.specs.Items.{job_act};
ghost use Rattle.call_meaning.specs.Facts.{JobNoteHolds};
ghost use Rattle.history_check.specs.Steps.{IsJobStep, end_shown, listed_job, shows_cancelling};

use crate::verdict::Step;
use co_base::{Row, Tag};
use job_model::{Cause, End, JobAct, JobNote, JobState, Reason};
use job_replay::{JobLook, JobReplay};

// ---- how a Job is seen

fn shows_cancelling(look: Option<JobLook>) -> bool
    ensures { result ≡ shows_cancelling look }
{
    match look {
        Some(look) => matches!(look.state, JobState::Cancelling),
        None => false,
    }
}

fn end_shown(look: Option<JobLook>) -> Option<End>
    ensures { result ≡ end_shown look }
{
    let look = look?;
    match look.state {
        JobState::Cancelled => Some(End::Cancelled(look.cause)),
        JobState::Completed => Some(End::Completed(look.value)),
        JobState::New | JobState::Active | JobState::Completing | JobState::Cancelling => None,
    }
}

fn same_cause(left: Cause, right: Cause) -> bool
    ensures { result ≡ same_cause left right }
{
    match (left, right) {
        (Cause::None, Cause::None) | (Cause::Request, Cause::Request) => true,
        (Cause::Failure(f), Cause::Failure(g)) => f == g,
        _ => false,
    }
}

fn is_end(end: End, shown: Option<End>) -> bool
    ensures { result ≡ is_end end shown }
{
    match (shown, end) {
        (Some(End::Completed(v)), End::Completed(w)) => v == w,
        (Some(End::Cancelled(c)), End::Cancelled(d)) => same_cause(c, d),
        _ => false,
    }
}

// ---- notes

/// Whether what a note of a Job says holds.
fn job_note_holds(tree: &JobReplay, note: &JobNote) -> bool
    ensures { (jobs : Tree) → IsTree jobs tree.now → Decides result (JobNoteHolds note.now jobs) }
{
    match *note {
        JobNote::Saw { row } => shows_cancelling(tree.look(row)),
        JobNote::SawEnd { row, end } => is_end(end, end_shown(tree.look(row))),
        JobNote::Made(_)
        | JobNote::Fail { .. }
        | JobNote::NoRow
        | JobNote::Used
        | JobNote::ParentEnded => true,
    }
}

/// The act of a note, if it is of one.
fn job_act_of(note: &JobNote) -> Option<JobAct>
    ensures { listed_job result ≡ job_act note.now }
{
    match *note {
        JobNote::Made(act) => Some(act),
        _ => None,
    }
}

/// Writes what a coroutine noted of a Job, if it may stand there.
#[tactic(auto, using(crate::proofs::JobSteps::act_made, crate::proofs::JobSteps::act_refused, crate::proofs::JobSteps::note_good, crate::proofs::JobSteps::note_bad))]
pub(crate) fn write_job(tree: &mut JobReplay, who: Tag, note: &JobNote) -> Step
    ensures size { tree.new.size ≡ tree.old.size }
    ensures step { IsJobStep result who note.now tree.old tree.new }
{
    match job_act_of(note) {
        Some(act) => {
            if tree.step(who, &act) {
                Step::Good
            } else {
                Step::MayNotCome
            }
        }
        None => {
            if job_note_holds(tree, note) {
                Step::Good
            } else {
                Step::NotSo
            }
        }
    }
}

// ---- for a reader

/// The row of an act, and the one that is to be shown in its place if there is something wrong with it.
fn rows_of(act: &JobAct) -> (Row, Row) {
    match *act {
        JobAct::Attach { parent, row, .. } => (row, parent),
        JobAct::Cancel {
            row,
            reason: Reason::Child(child),
        } => (row, child),
        JobAct::Start { row }
        | JobAct::EndBody { row, .. }
        | JobAct::Cancel { row, .. }
        | JobAct::Finish { row, .. }
        | JobAct::Gone { row } => (row, row),
    }
}

/// The row of the Job that tells most of why an act may not come: of a Job that is attached its parent, if its row is free; of one that
/// its child cancels the child, if it may be cancelled.
fn row_of_act(tree: &JobReplay, act: &JobAct) -> Row {
    let (row, other) = rows_of(act);
    let tells = match (*act, tree.look(row)) {
        (JobAct::Attach { .. }, look) => look.is_some(),
        (_, Some(look)) => !look.state.is_cancellable(),
        (_, None) => true,
    };
    if tells { row } else { other }
}

/// The row of the Job that a note speaks of.
pub(crate) fn row_of(tree: &JobReplay, note: &JobNote) -> Row {
    match *note {
        JobNote::Made(act) => row_of_act(tree, &act),
        JobNote::Saw { row } | JobNote::SawEnd { row, .. } => row,
        JobNote::Fail { .. } | JobNote::NoRow | JobNote::Used | JobNote::ParentEnded => 0,
    }
}
