//! The line of the summary, from what a tally was told.

ghost use Rattle.std.specs.Prelude.{◌≡◌, ◌≤◌, length};

use channel_model::{Act, ChannelNote, Settled, Why};
use co_base::{Memory, WaitId};
use job_model::{End, JobAct, JobNote};
use note_book::{Item, NoteBook};
use std::alloc::Global;
use std::test::Fail;
use tally_book::{Tally, line_of};

/// Makes room in any book for these items, and notes them.
fn note_all<B: NoteBook>(book: &mut B, items: &[Item]) -> Result<(), Memory> {
    for item in items {
        book.room(1)?;
        book.note(*item);
    }
    Ok(())
}

/// What may go to another thread.
fn sent<B: Send>(book: B) -> B
    ensures { result ≡ book }
{
    book
}

const WAIT: WaitId = WaitId {
    channel: 0,
    place: 1,
};

macro_rules! act {
    ($act:expr) => {
        Item::Channel(ChannelNote::Made($act))
    };
}

/// An offer is taken back, and the root ends.
const NOTED: [Item; 4] = [
    act!(Act::Offer {
        c: 0,
        place: 1,
        value: 7,
        main: WAIT,
        clause: 0,
    }),
    act!(Act::Withdraw {
        w: WAIT,
        why: Why::Cancelled,
    }),
    act!(Act::Settle {
        w: WAIT,
        outcome: Settled::Cancelled,
    }),
    Item::Job(JobNote::Made(JobAct::Finish {
        row: 0,
        end: End::Completed(7),
    })),
];

/// What a tally counts: notes, waits that ended, offers that stand, Jobs that were completed; and offers that were taken back.
fn counted(book: &Tally) -> ([u32; 4], u64) {
    let numbers = book.numbers();
    let acts = numbers.acts;
    (
        [
            numbers.notes,
            acts.ended,
            acts.open_offers,
            numbers.jobs.completed,
        ],
        acts.taken_back,
    )
}

/// The line of a script of this version, whose root ended so.
fn is_line(
    alloc: Global,
    version: u8,
    tallies: &[Tally],
    end: Option<End>,
    line: &str,
) -> Result<bool, Fail>
    requires few { length tallies.now ≤ 65536 }
{
    let found = line_of(alloc, version, tallies, end)?;
    Ok(found.as_str() == line)
}

const FIRST: &str = "\
jobs 1 completed 1 cancelled 0 received 0 undelivered 1 dropped 0 withdrawn 0 held 0 result 7
";

const SECOND: &str = "\
jobs 1 completed 1 cancelled 0 received 0 undelivered 1 dropped 0 spurned 0 withdrawn 0 held 0 result none
";

#[test]
fn the_line_tells_what_was_noted(rt: HostRuntime) -> Result<(), Fail> {
    let mut book = Tally::new();
    note_all(&mut book, &NOTED)?;
    let counted = counted(&book);
    let tallies = [sent(book)];
    let first = is_line(rt.alloc(), 1, &tallies, Some(End::Completed(7)), FIRST)?;
    let second = is_line(rt.alloc(), 2, &tallies, None, SECOND)?;
    assert_eq!(rt; (counted, first, second), (([4, 1, 0, 1], 1), true, true));
    Ok(())
}
