//! The parts of the calls.

ghost use Rattle.std.specs.Prelude.{◌≡◌, ◌<◌, true, is_some, Some, OnOk, OnErr};
ghost use Rattle.job_model.specs.declared.acts.Reason.TheVariants.{Own};
ghost use Rattle.job_model.specs.Needs.{OwnsBody};
ghost use Rattle.job_model.specs.Histories.{replay};
ghost use Rattle.job_model.specs.Floors.{MayCall};
ghost use Rattle.call_meaning.specs.Seen.{seen_jobs, seen_both};
ghost use Rattle.call_meaning.specs.JobCalls.{reason_for};
ghost use Rattle.job_tree.specs.declared.caller.Reserve.TheVariants.{AsItGoes};
ghost use Rattle.job_tree.specs.Callers.{SameCaller, HoldsFor};
ghost use Rattle.job_tree.specs.Passes.{PassAnswer, IsFailure};
ghost use Rattle.job_tree.specs.Failures.{ClimbAnswer};
ghost use Rattle.scope_builders.specs.Calls.{MayBuild};
ghost use Rattle.scope_builders.specs.Parts.{AttachedAnswer, SeenAnswer, BreakAnswer, HasBegunToBreak, IsCancelledFirst, FinishedUp, seen_closing};

use crate::builder::LaunchError;
use crate::done_channels::DoneChannels;
use call_meaning::JobsBeside;
use channel_model::ChannelFloor;
use co_base::{ChannelId, Memory, Row, Tag, Wakes};
use job_model::{AttachError, Attached, JobAct, JobFloor, JobKind, JobNote, JobState, Reason};
use job_tree::{JobCaller, Passed, Reserve, make_room};
use note_book::{Item, NoteBook};

/// Attaches a Job to a parent, and notes that, or why there is none.
pub(crate) fn attach<J: JobFloor, B: NoteBook>(
    jobs: &mut J,
    book: &mut B,
    who: Tag,
    parent: Row,
    kind: JobKind,
    tag: Tag,
) -> Result<Attached, LaunchError>
    requires can { MayCall who parent (J.view jobs.old) }
    requires tag { tag < (J.view jobs.old).shape.coroutines }
    requires scope { kind.scoped ≡ true → tag ≡ who }
    ensures jobs_anchor { J.anchor jobs.new ≡ J.anchor jobs.old }
    ensures answer { AttachedAnswer parent kind tag (seen_jobs J.view B.items who jobs.old book.old)
        (seen_jobs J.view B.items who jobs.new book.new) result }
{
    if let Err(_memory) = make_room(jobs, book, 1) {
        return Err(LaunchError::Memory);
    }
    match jobs.attach(who, parent, kind, tag) {
        Ok(child) => {
            let act = JobAct::Attach {
                parent,
                row: child.row,
                kind,
                tag,
                cancelled: child.cancelled,
            };
            book.note(Item::Job(JobNote::Made(act)));
            Ok(child)
        }
        Err(error) => match error {
            AttachError::NoRow => {
                book.note(Item::Job(JobNote::NoRow));
                Err(LaunchError::NoRow)
            }
            AttachError::Used => {
                book.note(Item::Job(JobNote::Used));
                Err(LaunchError::Used)
            }
            AttachError::ParentEnded => {
                book.note(Item::Job(JobNote::ParentEnded));
                Err(LaunchError::ParentEnded)
            }
        },
    }
}

/// Cancels a Job with all below it, and makes room for each Cancel before it.
pub(crate) fn cancel_tree<J: JobFloor, B: NoteBook, W: Wakes>(
    jobs: &mut J,
    book: &mut B,
    wakes: &mut W,
    who: Tag,
    row: Row,
    reason: Reason,
) -> Result<Passed, Memory>
    requires can { MayCall who row (J.view jobs.old) }
    requires reason { HoldsFor row reason (seen_jobs J.view B.items who jobs.old book.old) }
    ensures jobs_anchor { J.anchor jobs.new ≡ J.anchor jobs.old }
    ensures answer { PassAnswer row reason AsItGoes (seen_jobs J.view B.items who jobs.old book.old)
        (seen_jobs J.view B.items who jobs.new book.new) result }
{
    let mut caller = JobCaller {
        floor: &mut *jobs,
        book: &mut *book,
        wakes: &mut *wakes,
        who,
    };
    caller.pass(row, reason, Reserve::AsItGoes)
}

/// Takes the failure of a Job up to its parents, and makes room for each Cancel before it.
fn fail_up<J: JobFloor, B: NoteBook, W: Wakes>(
    jobs: &mut J,
    book: &mut B,
    wakes: &mut W,
    who: Tag,
    row: Row,
) -> Result<(), Memory>
    requires can { MayCall who row (J.view jobs.old) }
    requires failed { IsFailure (replay (J.view jobs.old).seen row) }
    ensures jobs_anchor { J.anchor jobs.new ≡ J.anchor jobs.old }
    ensures answer { ClimbAnswer row AsItGoes (seen_jobs J.view B.items who jobs.old book.old)
        (seen_jobs J.view B.items who jobs.new book.new) result }
{
    let mut caller = JobCaller {
        floor: &mut *jobs,
        book: &mut *book,
        wakes: &mut *wakes,
        who,
    };
    caller.climb(row, Reserve::AsItGoes)
}

/// Whether the Job is seen Cancelling.
fn is_cancelling<J: JobFloor>(jobs: &mut J, who: Tag, row: Row) -> bool
    requires can { MayCall who row (J.view jobs.old) }
    ensures jobs_anchor { J.anchor jobs.new ≡ J.anchor jobs.old }
    ensures seen { SeenAnswer who row (J.view jobs.old) (J.view jobs.new) result }
{
    match jobs.look(who, row) {
        Some(job) => matches!(job.state, JobState::Cancelling),
        None => false,
    }
}

/// Cancels the caller's own Job with all below it, by the failure of a row, and takes the failure of a coroutine up to its parents.
fn fail_off<J: JobFloor, B: NoteBook, W: Wakes>(
    jobs: &mut J,
    book: &mut B,
    wakes: &mut W,
    who: Tag,
    row: Row,
    failed: Row,
) -> Result<(), Memory>
    requires can { MayCall who row (J.view jobs.old) }
    requires own { OwnsBody who (replay (J.view jobs.old).seen row) }
    requires reason { HoldsFor row (Own failed) (seen_jobs J.view B.items who jobs.old book.old) }
    ensures jobs_anchor { J.anchor jobs.new ≡ J.anchor jobs.old }
    ensures broken { BreakAnswer row (Some failed) (seen_jobs J.view B.items who jobs.old book.old)
        (seen_jobs J.view B.items who jobs.new book.new) result }
{
    match cancel_tree(jobs, book, wakes, who, row, Reason::Own(failed)) {
        Ok(passed) => {
            if passed.newly && row == who {
                match fail_up(jobs, book, wakes, who, row) {
                    Ok(()) => Ok(()),
                    Err(memory) => Err(memory),
                }
            } else {
                Ok(())
            }
        }
        Err(memory) => Err(memory),
    }
}

/// Cancels the caller's own Job with all below it, by the failure of a row or as cancelled, and takes the failure of a coroutine up to
/// its parents.
fn break_off<J: JobFloor, B: NoteBook, W: Wakes>(
    jobs: &mut J,
    book: &mut B,
    wakes: &mut W,
    who: Tag,
    row: Row,
    failure: Option<Row>,
) -> Result<(), Memory>
    requires can { MayCall who row (J.view jobs.old) }
    requires own { OwnsBody who (replay (J.view jobs.old).seen row) }
    requires reason { HoldsFor row (reason_for failure) (seen_jobs J.view B.items who jobs.old book.old) }
    ensures jobs_anchor { J.anchor jobs.new ≡ J.anchor jobs.old }
    ensures broken { BreakAnswer row failure (seen_jobs J.view B.items who jobs.old book.old)
        (seen_jobs J.view B.items who jobs.new book.new) result }
{
    match failure {
        None => match cancel_tree(jobs, book, wakes, who, row, Reason::Request) {
            Ok(_passed) => Ok(()),
            Err(memory) => Err(memory),
        },
        Some(failed) => fail_off(jobs, book, wakes, who, row, failed),
    }
}

/// Cancels the caller's own Job so, unless it is seen Cancelling: then whoever cancelled it cancels what is below.
pub(crate) fn cancel_first<J: JobFloor, B: NoteBook, W: Wakes>(
    jobs: &mut J,
    book: &mut B,
    wakes: &mut W,
    who: Tag,
    row: Row,
    failure: Option<Row>,
) -> Result<(), Memory>
    requires can { MayCall who row (J.view jobs.old) }
    requires own { OwnsBody who (replay (J.view jobs.old).seen row) }
    requires reason { HoldsFor row (reason_for failure) (seen_jobs J.view B.items who jobs.old book.old) }
    ensures jobs_anchor { J.anchor jobs.new ≡ J.anchor jobs.old }
    ensures cancelled { OnOk result
        (IsCancelledFirst row failure (seen_jobs J.view B.items who jobs.old book.old)
        (seen_jobs J.view B.items who jobs.new book.new)) }
    ensures begun { OnErr result
        (HasBegunToBreak row failure (seen_jobs J.view B.items who jobs.old book.old)
        (seen_jobs J.view B.items who jobs.new book.new)) }
{
    if is_cancelling(jobs, who, row) {
        return Ok(());
    }
    match break_off(jobs, book, wakes, who, row, failure) {
        Ok(()) => Ok(()),
        Err(memory) => Err(memory),
    }
}

/// Ends a Job, if it may end, and then its parents, as far as the end of a child was all that they waited for, each with its
/// done channel.
pub(crate) fn finish_up<C: ChannelFloor, J: JobsBeside<C>, B: NoteBook, W: Wakes>(
    channels: &mut C,
    jobs: &mut J,
    book: &mut B,
    wakes: &mut W,
    who: Tag,
    base: ChannelId,
    row: Row,
) -> Result<(), Memory>
    requires may { MayBuild base (seen_both C.view J.view B.items who channels.old jobs.old book.old) }
    requires row { is_some (replay (J.view jobs.old).seen row) ≡ true }
    ensures channels_anchor { C.anchor channels.new ≡ C.anchor channels.old }
    ensures jobs_anchor { J.anchor jobs.new ≡ J.anchor jobs.old }
    ensures finished { FinishedUp base row (seen_both C.view J.view B.items who channels.old jobs.old book.old)
        (seen_both C.view J.view B.items who channels.new jobs.new book.new) result }
{
    let rows = jobs.rows();
    let mut done = DoneChannels {
        channels: &mut *channels,
        who,
        base,
        rows,
    };
    let mut caller = JobCaller {
        floor: &mut *jobs,
        book: &mut *book,
        wakes: &mut *wakes,
        who,
    };
    finish_with(&mut caller, &mut done, row)
}

/// Ends a Job and its parents, with these done channels.
fn finish_with<C: ChannelFloor, J: JobsBeside<C>, B: NoteBook, W: Wakes>(
    caller: &mut JobCaller<'_, '_, '_, J, B, W>,
    done: &mut DoneChannels<'_, C>,
    row: Row,
) -> Result<(), Memory>
    requires can { MayCall caller.old.who row (J.view caller.old.floor.now) }
    requires who { done.old.who ≡ caller.old.who }
    requires rows { done.old.rows ≡ (J.view caller.old.floor.now).shape.rows }
    ensures same { SameCaller J.anchor caller.old caller.new }
    ensures same_channels { done.new.channels.ghost_name ≡ done.old.channels.ghost_name }
    ensures channels_anchor { C.anchor done.new.channels.now ≡ C.anchor done.old.channels.now }
    ensures finished { FinishedUp done.old.base row (seen_closing C.view J.view B.items caller.old done.old.channels.now)
        (seen_closing C.view J.view B.items caller.new done.new.channels.now) result }
{
    caller.finish_up(row, done)
}
