//! What the acts say of each row.

ghost use Rattle.std.specs.Prelude.{◌≡◌, ◌<◌, ℕ, length, map, IfOk};
ghost use Rattle.note_book.specs.Books.{notes_of};
ghost use Rattle.note_book.specs.Items.{job_acts_in};
ghost use Rattle.run_report.specs.Jobs.{job_acts_noted};
ghost use Rattle.run_report.specs.JobFacts.{act_noted, both_said, facts_at, job_facts_of, row_of, said, said_of};

use co_base::Row;
use job_model::{End, JobAct, JobNote};
use note_book::{Item, Notes};
use std::alloc::{AllocError, Global};

/// What the acts say of one row.
#[derive(Clone, Copy)]
pub(crate) struct JobFacts {
    pub(crate) attached: bool,
    /// It was attached as lazy.
    pub(crate) lazy: bool,
    pub(crate) started: bool,
    /// It was cancelled, or attached as cancelled.
    pub(crate) cancelled: bool,
    pub(crate) body_ended: bool,
    /// How its first Finish ended it.
    pub(crate) end: Option<End>,
}

/// What no act says anything of.
pub(crate) const NOTHING_SAID: JobFacts = JobFacts {
    attached: false,
    lazy: false,
    started: false,
    cancelled: false,
    body_ended: false,
    end: None,
};

/// What the acts of all books say of each of the rows, of which there are so many.
pub(crate) fn job_facts_in(
    alloc: Global,
    rows: u16,
    books: &[Notes],
) -> Result<Vec<JobFacts>, AllocError>
    ensures rows { IfOk result (λ table. length table.items ≡ rows) }
    ensures facts { IfOk result (λ table. (r : ℕ) → r < rows
        → facts_at table.items r ≡ job_facts_of r (job_acts_noted (map notes_of books.now))) }
{
    let mut table = vec![in alloc; NOTHING_SAID; rows as usize]?;
    add_books(table.as_mut_slice(), books);
    Ok(table)
}

/// Adds what the acts of these books say to what those before them said.
fn add_books(table: &mut [JobFacts], books: &[Notes])
    ensures { (r : ℕ) → r < length table.old
        → facts_at table.new r ≡ both_said (facts_at table.old r) (job_facts_of r (job_acts_noted (map notes_of books.now))) }
{
    for book in books {
        add_book(table, book.items());
    }
}

/// Adds what the acts of one book say to what those before them said.
fn add_book(table: &mut [JobFacts], notes: &[Item])
    ensures { (r : ℕ) → r < length table.old
        → facts_at table.new r ≡ both_said (facts_at table.old r) (job_facts_of r (job_acts_in notes.now)) }
{
    for item in notes {
        if let Some(act) = act_noted(*item) {
            add_act(table, act);
        }
    }
}

/// The act on a Job that an item notes, if it notes one.
fn act_noted(item: Item) -> Option<JobAct>
    ensures { result ≡ act_noted item }
{
    match item {
        Item::Job(JobNote::Made(act)) => Some(act),
        Item::Job(_) | Item::Channel(_) => None,
    }
}

/// Adds what one act says.
fn add_act(table: &mut [JobFacts], act: JobAct)
    ensures { (r : ℕ) → r < length table.old → facts_at table.new r ≡ both_said (facts_at table.old r) (said_of r act) }
{
    let row = row_of(act) as usize;
    if row < table.len() {
        table[row] = table[row].and(said(act));
    }
}

impl JobFacts {
    /// What the one says and then the other.
    fn and(self, other: JobFacts) -> JobFacts
        ensures { result ≡ both_said self other }
    {
        JobFacts {
            attached: self.attached || other.attached,
            lazy: self.lazy || other.lazy,
            started: self.started || other.started,
            cancelled: self.cancelled || other.cancelled,
            body_ended: self.body_ended || other.body_ended,
            end: self.end.or(other.end),
        }
    }
}

/// The row of which an act speaks.
fn row_of(act: JobAct) -> Row
    ensures { result ≡ row_of act }
{
    match act {
        JobAct::Attach { row, .. }
        | JobAct::Start { row }
        | JobAct::EndBody { row, .. }
        | JobAct::Cancel { row, .. }
        | JobAct::Finish { row, .. }
        | JobAct::Gone { row } => row,
    }
}

/// What an act says of its row.
fn said(act: JobAct) -> JobFacts
    ensures { result ≡ said act }
{
    match act {
        JobAct::Attach {
            kind,
            cancelled,
            ..
        } => JobFacts {
            attached: true,
            lazy: kind.lazy,
            cancelled,
            ..NOTHING_SAID
        },
        JobAct::Start { .. } => JobFacts {
            started: true,
            ..NOTHING_SAID
        },
        JobAct::EndBody { .. } => JobFacts {
            body_ended: true,
            ..NOTHING_SAID
        },
        JobAct::Cancel { .. } => JobFacts {
            cancelled: true,
            ..NOTHING_SAID
        },
        JobAct::Finish { end, .. } => JobFacts {
            end: Some(end),
            ..NOTHING_SAID
        },
        JobAct::Gone { .. } => NOTHING_SAID,
    }
}
