//! To end Jobs of a forest, from one upwards.
ghost use Rattle.std.specs.Prelude.{◌≡◌};
ghost use Rattle.job_model.specs.Floors.{MayCall};
ghost use Rattle.call_meaning.specs.Seen.{seen_jobs};
ghost use Rattle.job_tree.specs.Endings.{seen_with, IsFinishedUp};
ghost use Rattle.job_words.specs.Forests.{IsOwn, SameGiving};
ghost use Rattle.job_words.specs.Rangers.{ranger_floor, ranger_anchor};

use co_base::{Memory, Row, Tag, Wakes};
use job_model::JobFloor;
use job_tree::{Ends, JobCaller};
use job_words::Ranger;
use note_book::NoteBook;

/// Ends Jobs upwards, over any floor.
fn finish_over<J: JobFloor, B: NoteBook, W: Wakes, E: Ends<J, B, W>>(
    jobs: &mut J,
    book: &mut B,
    wakes: &mut W,
    who: Tag,
    row: Row,
    ends: &mut E,
) -> Result<(), Memory>
    requires can { MayCall who row (J.view jobs.old) }
    ensures anchor { J.anchor jobs.new ≡ J.anchor jobs.old }
    ensures finished { IsFinishedUp E.prepares E.does E.leaves row (seen_with (seen_jobs J.view B.items who jobs.old book.old) ends.old)
        (seen_with (seen_jobs J.view B.items who jobs.new book.new) ends.new) result }
{
    let mut caller = JobCaller {
        floor: &mut *jobs,
        book: &mut *book,
        wakes: &mut *wakes,
        who,
    };
    caller.finish_up(row, ends)
}

/// Ends a Job, where it may end, and then its parents, as far as the end of a child was all that they waited for.
/// Memory: what was done so far stands and is noted.
///
/// It is on a `Ranger`, since what a caller does where a Job ends may hear of the floor.
pub fn finish_up<'a, B: NoteBook, W: Wakes, E: Ends<Ranger<'a>, B, W>>(
    ranger: &mut Ranger<'a>,
    book: &mut B,
    wakes: &mut W,
    who: Tag,
    row: Row,
    ends: &mut E,
) -> Result<(), Memory>
    requires can { MayCall who row (ranger_floor ranger.old) }
    ensures anchor { ranger_anchor ranger.new ≡ ranger_anchor ranger.old }
    ensures own { IsOwn ranger.old.forest.now ranger.new.pass.now who }
    ensures giving { SameGiving ranger.old.pass.now ranger.new.pass.now }
    ensures finished { IsFinishedUp E.prepares E.does E.leaves row
        (seen_with (seen_jobs ranger_floor B.items who ranger.old book.old) ends.old)
        (seen_with (seen_jobs ranger_floor B.items who ranger.new book.new) ends.new) result }
{
    finish_over(ranger, book, wakes, who, row, ends)
}
