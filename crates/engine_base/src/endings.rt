//! What a run leaves.

ghost use Rattle.std.specs.Prelude.{◌≡◌, ◌<◌, [], true, map, is_none, IfOk};
ghost use Rattle.job_model.specs.Floors.{AtStep, Looked};
ghost use Rattle.call_meaning.specs.Facts.{end_at};
ghost use Rattle.run_laws.specs.Looks.{end_looked, end_seen};
ghost use Rattle.engine_base.specs.Books.{books_of};

use co_base::Memory;
use job_model::{End, JobFloor, JobState, JobView};
use poll_states::{Book, Done, Frame};
use std::alloc::Global;

/// The books in order of tags, and how the root has ended, if it has.
///
/// The root is looked at on this floor, where others may go on meanwhile: it had ended so at a moment of this call.
pub fn done_of<B: Book, J: JobFloor>(
    alloc: Global,
    frames: Vec<Frame<B>>,
    jobs: &mut J,
) -> Result<Done<B>, Memory>
    requires caller { (J.view jobs.old).callers 0 ≡ true }
    requires row { 0 < (J.view jobs.old).shape.rows }
    ensures anchor { J.anchor jobs.new ≡ J.anchor jobs.old }
    ensures looked { Looked 0 [] (J.view jobs.old) (J.view jobs.new) }
    ensures books { IfOk result (λ done. map B.items done.books.items ≡ books_of frames.items) }
    ensures end { IfOk result (λ done. AtStep (J.view jobs.old) (J.view jobs.new) (λ tree. end_at (tree 0) ≡ done.end)) }
    ensures idle { IfOk result (λ done. done.idle ≡ is_none done.end) }
{
    let end = end_of_root(jobs);
    Ok(Done {
        books: books_of(alloc, frames)?,
        idle: end.is_none(),
        end,
    })
}

/// The books of the frames.
pub fn books_of<B: Book>(alloc: Global, frames: Vec<Frame<B>>) -> Result<Vec<B>, Memory>
    ensures { IfOk result (λ books. map B.items books.items ≡ books_of frames.items) }
{
    let mut books = Vec::with_capacity(alloc, frames.len())?;
    for frame in frames {
        books.push(frame.into_book())?;
    }
    Ok(books)
}

/// How the root has ended, if it has: it had at a moment of this call, which makes no entry.
pub fn end_of_root<J: JobFloor>(jobs: &mut J) -> Option<End>
    requires caller { (J.view jobs.old).callers 0 ≡ true }
    requires row { 0 < (J.view jobs.old).shape.rows }
    ensures anchor { J.anchor jobs.new ≡ J.anchor jobs.old }
    ensures looked { Looked 0 [] (J.view jobs.old) (J.view jobs.new) }
    ensures end { AtStep (J.view jobs.old) (J.view jobs.new) (λ tree. end_at (tree 0) ≡ result) }
{
    end_of(jobs.look(0, 0))
}

/// How a Job that was looked at has ended, if it is there and has ended.
pub fn end_of(job: Option<JobView>) -> Option<End>
    ensures { result ≡ end_looked job }
{
    match job {
        Some(job) => end_seen(job),
        None => None,
    }
}

/// How a Job that looks so has ended, if it has.
fn end_seen(job: JobView) -> Option<End>
    ensures { result ≡ end_seen job }
{
    match job.state {
        JobState::Completed => Some(End::Completed(job.value)),
        JobState::Cancelled => Some(End::Cancelled(job.cause)),
        JobState::New | JobState::Active | JobState::Completing | JobState::Cancelling => None,
    }
}
