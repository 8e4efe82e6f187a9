//! To end Jobs, from one upwards.

ghost use Rattle.std.specs.Prelude.{◌≡◌, ℕ, ◌+◌, ◌≤◌, Bool, true, List, [], OnOk};
ghost use Rattle.job_model.specs.declared.acts.End.{End as AnEnd};
ghost use Rattle.job_model.specs.Floors.{Floor, Looked};
ghost use Rattle.note_book.specs.declared.book.Item.{Item as AnItem};
ghost use Rattle.call_meaning.specs.Seen.{MayCallJob};
ghost use Rattle.job_tree.specs.Callers.{SameCaller, seen};
ghost use Rattle.job_tree.specs.Endings.{book_seen, HasEnded, seen_with, EndAnswer, IsFinishedUp};

use crate::caller::JobCaller;
use co_base::{Memory, Row, Wakes};
use job_model::{End, Ended, Finished, JobAct, JobFloor, JobNote};
use note_book::{Item, NoteBook};

/// What a caller does where one of its Jobs ends.
pub trait Ends<F: JobFloor, B: NoteBook, W: Wakes> {
    /// How many notes one end takes at most.
    ghost most: { Self → ℕ };

    ghost is_ready: { Self → Bool };

    /// What `ready` may change.
    ghost prepares: { Self → Self → Type 0 };

    /// What the end of a Job does: before, with what is seen of the Jobs; the Job, its end, and what is noted; and after.
    ghost does: { Self → Floor → ℕ → AnEnd → List AnItem → Self → Floor → Type 0 };

    /// What `left` may change, where so much is seen of the Jobs.
    ghost leaves: { Self → Self → Floor → Type 0 };

    /// Gets ready for one end, with room in the book for so many notes besides.
    fn ready(&mut self, book: &mut B, more: u32) -> Result<(), Memory>
        ensures most { most self.new ≡ most self.old }
        ensures prepares { prepares self.old self.new }
        ensures items { B.items book.new ≡ B.items book.old }
        ensures stays { B.spare book.old ≤ B.spare book.new }
        ensures ready { OnOk result (is_ready self.new ≡ true) }
        ensures room { OnOk result (most self.new + more ≤ B.spare book.new) };

    /// The Job has ended so, and its parent has not heard of it. Takes no memory, and neither makes nor notes an act on a Job.
    fn ended(&mut self, jobs: &mut F, book: &mut B, wakes: &mut W, row: Row, end: End)
        requires ready { is_ready self.old ≡ true }
        requires room { most self.old ≤ B.spare book.old }
        ensures most { most self.new ≡ most self.old }
        ensures anchor { F.anchor jobs.new ≡ F.anchor jobs.old }
        ensures looked { (who : ℕ) → (F.view jobs.old).callers who ≡ true → Looked who [] (F.view jobs.old) (F.view jobs.new) }
        ensures ended { HasEnded (most self.old) (λ items. does self.old (F.view jobs.old) row end items self.new (F.view jobs.new))
            (book_seen B.items B.spare book.old) (book_seen B.items B.spare book.new) };

    /// The calls that end this Job are over.
    fn left(&mut self, jobs: &mut F)
        ensures most { most self.new ≡ most self.old }
        ensures anchor { F.anchor jobs.new ≡ F.anchor jobs.old }
        ensures jobs { F.view jobs.new ≡ F.view jobs.old }
        ensures left { leaves self.old self.new (F.view jobs.new) };
}

/// Where the end of a Job leads.
#[derive(Clone, Copy, Debug, PartialEq, Eq)]
pub(crate) enum Rise {
    /// The parent may end too.
    To(Row),
    Stops,
}

impl<F: JobFloor, B: NoteBook, W: Wakes> JobCaller<'_, '_, '_, F, B, W> {
    /// Ends one Job, if it may end, and tells its parent.
    fn finish_one<E: Ends<F, B, W>>(&mut self, row: Row, ends: &mut E) -> Result<Rise, Memory>
        requires can { MayCallJob row (seen F.view B.items self.old) }
        ensures same { SameCaller F.anchor self.old self.new }
        ensures answer { EndAnswer E.prepares E.does E.leaves row (seen_with (seen F.view B.items self.old) ends.old)
            (seen_with (seen F.view B.items self.new) ends.new) result }
    {
        if let Err(memory) = ends.ready(self.book, 2) {
            return Err(memory);
        }
        if let Err(memory) = self.floor.room(2) {
            return Err(memory);
        }
        let Finished::Now(end) = self.floor.finish(self.who, row) else {
            ends.left(self.floor);
            return Ok(Rise::Stops);
        };
        self.book
            .note(Item::Job(JobNote::Made(JobAct::Finish { row, end })));
        ends.ended(self.floor, self.book, self.wakes, row, end);
        if row == 0 {
            ends.left(self.floor);
            return Ok(Rise::Stops);
        }
        let told = self.floor.gone(self.who, row);
        self.book
            .note(Item::Job(JobNote::Made(JobAct::Gone { row })));
        match told {
            Ended::Waits => {
                ends.left(self.floor);
                Ok(Rise::Stops)
            }
            Ended::Owes => {
                let parent = self.floor.link(self.who, row).parent;
                ends.left(self.floor);
                Ok(Rise::To(parent))
            }
        }
    }

    /// Ends a Job, if it may end, and then its parents, as far as the end of a child was all that they waited for.
    /// Memory: what was done so far stands and is noted.
    pub fn finish_up<E: Ends<F, B, W>>(&mut self, row: Row, ends: &mut E) -> Result<(), Memory>
        requires can { MayCallJob row (seen F.view B.items self.old) }
        ensures same { SameCaller F.anchor self.old self.new }
        ensures finished { IsFinishedUp E.prepares E.does E.leaves row (seen_with (seen F.view B.items self.old) ends.old)
            (seen_with (seen F.view B.items self.new) ends.new) result }
    {
        let mut at = row;
        loop {
            match self.finish_one(at, ends) {
                Ok(Rise::To(parent)) => at = parent,
                Ok(Rise::Stops) => return Ok(()),
                Err(memory) => return Err(memory),
            }
        }
    }
}
