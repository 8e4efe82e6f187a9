//! To cancel a Job of a forest and all below it.
ghost use Rattle.std.specs.Prelude.{◌≡◌, ◌≤◌, is_some, true};
ghost use Rattle.job_model.specs.Histories.{replay};
ghost use Rattle.job_model.specs.Floors.{MayCall};
ghost use Rattle.call_meaning.specs.Seen.{seen_jobs};
ghost use Rattle.job_tree.specs.Callers.{HoldsFor};
ghost use Rattle.job_tree.specs.Rooms.{uncancelled, MayCancelAll};
ghost use Rattle.job_tree.specs.Passes.{IsSomePass};
ghost use Rattle.job_words.specs.Forests.{IsOwn, SameGiving};
ghost use Rattle.job_words.specs.Rangers.{ranger_floor, ranger_anchor};
ghost use Rattle.forest_calls.specs.Passes.{pass_floor};

use co_base::{Row, Tag, Wakes};
use job_model::{JobFloor, Reason};
use job_tree::JobCaller;
use job_words::{Forest, JobPass, Ranger};
use note_book::NoteBook;

/// Cancels a Job and all below it, over any floor.
fn cancel_over<J: JobFloor, B: NoteBook, W: Wakes>(
    jobs: &mut J,
    book: &mut B,
    wakes: &mut W,
    who: Tag,
    row: Row,
    reason: Reason,
) -> u32
    requires can { MayCall who row (J.view jobs.old) }
    requires reason { HoldsFor row reason (seen_jobs J.view B.items who jobs.old book.old) }
    requires room { MayCancelAll (J.view jobs.old) (B.spare book.old) }
    ensures anchor { J.anchor jobs.new ≡ J.anchor jobs.old }
    ensures pass { IsSomePass row reason (seen_jobs J.view B.items who jobs.old book.old)
        (seen_jobs J.view B.items who jobs.new book.new) result }
    ensures room { MayCancelAll (J.view jobs.new) (B.spare book.new) }
{
    let mut caller = JobCaller {
        floor: &mut *jobs,
        book: &mut *book,
        wakes: &mut *wakes,
        who,
    };
    caller.cancel_pass(row, reason)
}

/// Cancels a Job and all below it, on the floor of one pass.
fn cancel_on<B: NoteBook, W: Wakes>(
    ranger: &mut Ranger<'_>,
    book: &mut B,
    wakes: &mut W,
    who: Tag,
    row: Row,
    reason: Reason,
) -> u32
    requires can { MayCall who row (ranger_floor ranger.old) }
    requires reason { HoldsFor row reason (seen_jobs ranger_floor B.items who ranger.old book.old) }
    requires room { uncancelled (ranger_floor ranger.old) ≤ B.spare book.old }
    ensures anchor { ranger_anchor ranger.new ≡ ranger_anchor ranger.old }
    ensures own { IsOwn ranger.old.forest.now ranger.new.pass.now who }
    ensures giving { SameGiving ranger.old.pass.now ranger.new.pass.now }
    ensures pass { IsSomePass row reason (seen_jobs ranger_floor B.items who ranger.old book.old)
        (seen_jobs ranger_floor B.items who ranger.new book.new) result }
    ensures room { uncancelled (ranger_floor ranger.new) ≤ B.spare book.new }
{
    cancel_over(ranger, book, wakes, who, row, reason)
}

/// Cancels a Job and all below it, the newest child first, and answers how many it cancelled. Others may make entries all the while.
/// A Job that they attach below is Cancelling at the end too. Takes no memory.
pub fn cancel_pass<B: NoteBook, W: Wakes>(
    forest: &Forest,
    pass: &mut JobPass,
    book: &mut B,
    wakes: &mut W,
    who: Tag,
    row: Row,
    reason: Reason,
) -> u32
    requires own { IsOwn forest.now pass.old who }
    requires attached { is_some (replay (pass_floor pass.old).seen row) ≡ true }
    requires reason { HoldsFor row reason (seen_jobs pass_floor B.items who pass.old book.old) }
    requires room { uncancelled (pass_floor pass.old) ≤ B.spare book.old }
    ensures own { IsOwn forest.now pass.new who }
    ensures giving { SameGiving pass.old pass.new }
    ensures pass { IsSomePass row reason (seen_jobs pass_floor B.items who pass.old book.old)
        (seen_jobs pass_floor B.items who pass.new book.new) result }
    ensures room { uncancelled (pass_floor pass.new) ≤ B.spare book.new }
{
    let mut ranger = Ranger { forest, pass };
    cancel_on(&mut ranger, book, wakes, who, row, reason)
}
