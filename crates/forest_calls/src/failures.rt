//! To pass a failure on to the parents in a forest.
ghost use Rattle.std.specs.Prelude.{◌≡◌, ◌≤◌, is_some, true};
ghost use Rattle.job_model.specs.Histories.{replay};
ghost use Rattle.job_model.specs.Floors.{MayCall};
ghost use Rattle.call_meaning.specs.Seen.{seen_jobs};
ghost use Rattle.job_tree.specs.Rooms.{uncancelled, MayCancelAll};
ghost use Rattle.job_tree.specs.Passes.{IsFailure};
ghost use Rattle.job_tree.specs.Failures.{IsFailedUp};
ghost use Rattle.job_words.specs.Forests.{IsOwn, SameGiving};
ghost use Rattle.job_words.specs.Rangers.{ranger_floor, ranger_anchor};
ghost use Rattle.forest_calls.specs.Passes.{pass_floor};

use co_base::{Row, Tag, Wakes};
use job_model::JobFloor;
use job_tree::JobCaller;
use job_words::{Forest, JobPass, Ranger};
use note_book::NoteBook;

/// Passes a failure on, over any floor.
fn fail_over<J: JobFloor, B: NoteBook, W: Wakes>(
    jobs: &mut J,
    book: &mut B,
    wakes: &mut W,
    who: Tag,
    row: Row,
)
    requires can { MayCall who row (J.view jobs.old) }
    requires failed { IsFailure (replay (J.view jobs.old).seen row) }
    requires room { MayCancelAll (J.view jobs.old) (B.spare book.old) }
    ensures anchor { J.anchor jobs.new ≡ J.anchor jobs.old }
    ensures up { IsFailedUp row (seen_jobs J.view B.items who jobs.old book.old)
        (seen_jobs J.view B.items who jobs.new book.new) }
    ensures room { MayCancelAll (J.view jobs.new) (B.spare book.new) }
{
    let mut caller = JobCaller {
        floor: &mut *jobs,
        book: &mut *book,
        wakes: &mut *wakes,
        who,
    };
    caller.fail_up(row)
}

/// Passes a failure on, on the floor of one pass.
fn fail_on<B: NoteBook, W: Wakes>(
    ranger: &mut Ranger<'_>,
    book: &mut B,
    wakes: &mut W,
    who: Tag,
    row: Row,
)
    requires can { MayCall who row (ranger_floor ranger.old) }
    requires failed { IsFailure (replay (ranger_floor ranger.old).seen row) }
    requires room { uncancelled (ranger_floor ranger.old) ≤ B.spare book.old }
    ensures anchor { ranger_anchor ranger.new ≡ ranger_anchor ranger.old }
    ensures own { IsOwn ranger.old.forest.now ranger.new.pass.now who }
    ensures giving { SameGiving ranger.old.pass.now ranger.new.pass.now }
    ensures up { IsFailedUp row (seen_jobs ranger_floor B.items who ranger.old book.old)
        (seen_jobs ranger_floor B.items who ranger.new book.new) }
    ensures room { uncancelled (ranger_floor ranger.new) ≤ B.spare book.new }
{
    fail_over(ranger, book, wakes, who, row)
}

/// Cancels the parent of a Job that failed, with all below it, and so on upwards: up to the root, a scope, the child of a supervisor, or a
/// parent that was Cancelling or had ended before. Takes no memory.
pub fn fail_up<B: NoteBook, W: Wakes>(
    forest: &Forest,
    pass: &mut JobPass,
    book: &mut B,
    wakes: &mut W,
    who: Tag,
    row: Row,
)
    requires own { IsOwn forest.now pass.old who }
    requires attached { is_some (replay (pass_floor pass.old).seen row) ≡ true }
    requires failed { IsFailure (replay (pass_floor pass.old).seen row) }
    requires room { uncancelled (pass_floor pass.old) ≤ B.spare book.old }
    ensures own { IsOwn forest.now pass.new who }
    ensures giving { SameGiving pass.old pass.new }
    ensures up { IsFailedUp row (seen_jobs pass_floor B.items who pass.old book.old)
        (seen_jobs pass_floor B.items who pass.new book.new) }
    ensures room { uncancelled (pass_floor pass.new) ≤ B.spare book.new }
{
    let mut ranger = Ranger { forest, pass };
    fail_on(&mut ranger, book, wakes, who, row)
}
