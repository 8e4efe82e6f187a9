//! Texts of reports, line by line.

ghost use Rattle.std.specs.Prelude.{◌<◌, length};

use channel_model::{Act, ChannelNote, Kind, Settled, Why};
use co_base::{Memory, WaitId};
use job_model::{Cause, End, JobAct, JobKind, JobNote, Reason};
use note_book::{Item, NoteBook, Notes};
use run_report::report_of;
use script_reader::Channel;
use std::alloc::Global;
use std::test::Fail;

const PLAIN: JobKind = JobKind {
    supervisor: false,
    scoped: false,
    lazy: false,
};

const LAZY: JobKind = JobKind {
    supervisor: false,
    scoped: false,
    lazy: true,
};

const SCOPE: JobKind = JobKind {
    supervisor: false,
    scoped: true,
    lazy: false,
};

const SUPERVISOR: JobKind = JobKind {
    supervisor: true,
    scoped: true,
    lazy: false,
};

macro_rules! at {
    ($c:expr, $place:expr) => {
        WaitId {
            channel: $c,
            place: $place,
        }
    };
}

macro_rules! act {
    ($act:expr) => {
        Item::Channel(ChannelNote::Made($act))
    };
}

macro_rules! job {
    ($act:expr) => {
        Item::Job(JobNote::Made($act))
    };
}

macro_rules! put {
    ($place:expr, $value:expr) => {
        act!(Act::Put {
            c: 0,
            place: $place,
            value: $value,
        })
    };
}

macro_rules! hand {
    ($c:expr, $place:expr, $value:expr) => {
        act!(Act::Hand {
            c: $c,
            place: $place,
            value: $value,
        })
    };
}

macro_rules! offer {
    ($place:expr, $value:expr, $clause:expr) => {
        act!(Act::Offer {
            c: 0,
            place: $place,
            value: $value,
            main: at!(0, $place),
            clause: $clause,
        })
    };
}

macro_rules! wait {
    ($c:expr, $place:expr, $main:expr, $clause:expr) => {
        act!(Act::Await {
            c: $c,
            place: $place,
            main: $main,
            clause: $clause,
        })
    };
}

macro_rules! settle {
    ($place:expr, $outcome:expr) => {
        act!(Act::Settle {
            w: at!(0, $place),
            outcome: $outcome,
        })
    };
}

macro_rules! withdraw {
    ($place:expr, $why:expr) => {
        act!(Act::Withdraw {
            w: at!(0, $place),
            why: $why,
        })
    };
}

macro_rules! close {
    ($c:expr, $value:expr) => {
        act!(Act::Close {
            c: $c,
            value: $value,
        })
    };
}

/// The row is attached to the root.
macro_rules! attach {
    ($row:expr, $kind:expr, $cancelled:expr) => {
        job!(JobAct::Attach {
            parent: 0,
            row: $row,
            kind: $kind,
            tag: $row,
            cancelled: $cancelled,
        })
    };
}

macro_rules! cancel {
    ($row:expr, $reason:expr) => {
        job!(JobAct::Cancel {
            row: $row,
            reason: $reason,
        })
    };
}

macro_rules! end_body {
    ($row:expr, $value:expr) => {
        job!(JobAct::EndBody {
            row: $row,
            value: $value,
        })
    };
}

macro_rules! finish {
    ($row:expr, $end:expr) => {
        job!(JobAct::Finish {
            row: $row,
            end: $end,
        })
    };
}

/// Three books, and what the report says of them where the script has the channels `a` and `b_2` and so many rows.
#[derive(Clone, Copy)]
struct Row {
    rows: u16,
    books: [&'static [Item]; 3],
    text: &'static str,
}

// ---- An element is sent and received.

const SENT_FIRST: [Item; 2] = [offer!(0, 5, 0), settle!(0, Settled::Sent(0))];

const SENT_SECOND: [Item; 1] = [act!(Act::Take {
    c: 0,
    place: 0,
    value: 5,
})];

const SENT: Row = Row {
    rows: 2,
    books: [&SENT_FIRST, &SENT_SECOND, &[]],
    text: "\
0 offer a 0 5 a.0 0
0 settle a.0 sent 0
1 take a 0 5
job 0 active
",
};

// ---- Waits, closes, and what was noted of calls that made no act.

const CLOSED_FIRST: [Item; 8] = [
    wait!(1, 1, at!(1, 1), 0),
    wait!(2, 0, at!(2, 0), 0),
    close!(1, 6),
    act!(Act::WakeClosed { c: 1, place: 1 }),
    act!(Act::Settle {
        w: at!(1, 1),
        outcome: Settled::Closed(0, 6),
    }),
    act!(Act::Void { c: 1 }),
    Item::Channel(ChannelNote::AlreadyClosed { c: 1, v: 6 }),
    close!(12, 0),
];

const CLOSED_SECOND: [Item; 10] = [
    Item::Channel(ChannelNote::SendClosed {
        c: 1,
        value: 7,
        v: 6,
    }),
    Item::Channel(ChannelNote::TrySendClosed {
        c: 1,
        value: 8,
        v: 6,
    }),
    Item::Channel(ChannelNote::ReceiveClosed { c: 1, v: 6 }),
    Item::Channel(ChannelNote::TryReceiveClosed { c: 1, v: 6 }),
    Item::Channel(ChannelNote::Full { c: 0, value: 9 }),
    Item::Channel(ChannelNote::Empty { c: 0 }),
    Item::Channel(ChannelNote::Spent { c: 1 }),
    Item::Channel(ChannelNote::Partner { c: 0, place: 4 }),
    Item::Channel(ChannelNote::MainResolved { w: at!(0, 0) }),
    Item::Channel(ChannelNote::Late { w: at!(2, 0) }),
];

const CLOSED: Row = Row {
    rows: 2,
    books: [&CLOSED_FIRST, &CLOSED_SECOND, &[]],
    text: "\
0 await b_2 1 b_2.1 0
0 await @0 0 @0.0 0
0 close b_2 6
0 wakeclosed b_2 1
0 settle b_2.1 closed 0 6
0 void b_2
0 alreadyclosed b_2 6
0 close @10 0
1 sendclosed b_2 7 6
1 trysendclosed b_2 8 6
1 receiveclosed b_2 6
1 tryreceiveclosed b_2 6
1 full a 9
1 empty a
1 spent b_2
1 partner a 4
1 resolved a.0
1 late @0.0
job 0 active
",
};

// ---- An element is held.

const HELD_FIRST: [Item; 1] = [offer!(0, 4_294_967_295, 0)];

const HELD: Row = Row {
    rows: 2,
    books: [&HELD_FIRST, &[], &[]],
    text: "\
0 offer a 0 4294967295 a.0 0
job 0 active
element a 0 4294967295 held
",
};

// ---- What became of each element.

const FATES_FIRST: [Item; 16] = [
    wait!(0, 0, at!(0, 0), 0),
    settle!(0, Settled::Value(0, 7)),
    wait!(0, 1, at!(0, 1), 0),
    settle!(1, Settled::Undelivered(8)),
    offer!(2, 9, 0),
    withdraw!(2, Why::Cancelled),
    settle!(2, Settled::Cancelled),
    offer!(5, 12, 1),
    wait!(1, 0, at!(0, 5), 2),
    settle!(5, Settled::Value(2, 13)),
    offer!(6, 14, 3),
    act!(Act::Admit { c: 0, place: 6 }),
    settle!(6, Settled::Sent(3)),
    offer!(7, 15, 1),
    withdraw!(7, Why::Revoked),
    wait!(0, 8, at!(0, 8), 0),
];

const FATES_SECOND: [Item; 10] = [
    hand!(0, 0, 7),
    hand!(0, 1, 8),
    put!(3, 10),
    act!(Act::Drop {
        c: 0,
        place: 3,
        value: 10,
    }),
    put!(4, 11),
    act!(Act::Drain {
        c: 0,
        place: 4,
        value: 11,
    }),
    hand!(1, 0, 13),
    hand!(0, 8, 16),
    put!(9, 17),
    act!(Act::Spurn {
        c: 0,
        place: 9,
        value: 17,
    }),
];

const FATES: Row = Row {
    rows: 2,
    books: [&FATES_FIRST, &FATES_SECOND, &[]],
    text: "\
0 await a 0 a.0 0
0 settle a.0 value 0 7
0 await a 1 a.1 0
0 settle a.1 undelivered 8
0 offer a 2 9 a.2 0
0 withdraw a.2 cancelled
0 settle a.2 cancelled
0 offer a 5 12 a.5 1
0 await b_2 0 a.5 2
0 settle a.5 value 2 13
0 offer a 6 14 a.6 3
0 admit a 6
0 settle a.6 sent 3
0 offer a 7 15 a.7 1
0 withdraw a.7 revoked
0 await a 8 a.8 0
1 hand a 0 7
1 hand a 1 8
1 put a 3 10
1 drop a 3 10
1 put a 4 11
1 drain a 4 11
1 hand b_2 0 13
1 hand a 8 16
1 put a 9 17
1 spurn a 9 17
job 0 active
element a 1 8 undelivered
element a 2 9 undelivered
element a 3 10 dropped
element a 4 11 undelivered
element a 5 12 withdrawn
element a 6 14 held
element a 7 15 withdrawn
element a 8 16 held
element a 9 17 spurned
",
};

// ---- Job acts, and how far each Job is.

const JOBS_FIRST: [Item; 16] = [
    attach!(1, PLAIN, false),
    attach!(2, SCOPE, false),
    attach!(3, SUPERVISOR, false),
    attach!(4, LAZY, true),
    attach!(5, LAZY, false),
    attach!(6, LAZY, false),
    job!(JobAct::Start { row: 6 }),
    attach!(7, PLAIN, false),
    attach!(8, SCOPE, true),
    attach!(9, PLAIN, false),
    attach!(11, PLAIN, false),
    cancel!(1, Reason::Request),
    cancel!(2, Reason::Parent),
    end_body!(7, 4_294_967_295),
    cancel!(9, Reason::Child(7)),
    end_body!(9, 3),
];

const JOBS_SECOND: [Item; 7] = [
    cancel!(11, Reason::Own(11)),
    finish!(11, End::Cancelled(Cause::Failure(11))),
    Item::Job(JobNote::SawEnd {
        row: 11,
        end: End::Cancelled(Cause::Failure(11)),
    }),
    Item::Job(JobNote::SawEnd {
        row: 2,
        end: End::Cancelled(Cause::Request),
    }),
    finish!(2, End::Cancelled(Cause::None)),
    finish!(1, End::Completed(6)),
    job!(JobAct::Gone { row: 1 }),
];

const JOBS_THIRD: [Item; 6] = [
    Item::Job(JobNote::Saw { row: 2 }),
    Item::Job(JobNote::Fail { code: 7 }),
    Item::Job(JobNote::NoRow),
    Item::Job(JobNote::Used),
    Item::Job(JobNote::ParentEnded),
    attach!(12, PLAIN, false),
];

const JOBS: Row = Row {
    rows: 12,
    books: [&JOBS_FIRST, &JOBS_SECOND, &JOBS_THIRD],
    text: "\
0 attach 1 to 0 tag 1 plain
0 attach 2 to 0 tag 2 scope
0 attach 3 to 0 tag 3 supervisor
0 attach 4 to 0 tag 4 lazy cancelled
0 attach 5 to 0 tag 5 lazy
0 attach 6 to 0 tag 6 lazy
0 start 6
0 attach 7 to 0 tag 7 plain
0 attach 8 to 0 tag 8 scope cancelled
0 attach 9 to 0 tag 9 plain
0 attach 11 to 0 tag 11 plain
0 cancel 1 request
0 cancel 2 parent
0 endbody 7 4294967295
0 cancel 9 child 7
0 endbody 9 3
1 cancel 11 own 11
1 finish 11 failed 11
1 sawend 11 failed 11
1 sawend 2 cancelled
1 finish 2 cancelled
1 finish 1 completed 6
1 gone 1
2 saw 2
2 fail 7
2 norow
2 used
2 parentended
2 attach 12 to 0 tag 12 plain
job 0 active
job 1 completed 6
job 2 cancelled
job 3 active
job 4 cancelling
job 5 new
job 6 active
job 7 completing
job 8 cancelling
job 9 cancelling
job 11 failed 11
",
};

const ROWS: [Row; 5] = [SENT, CLOSED, HELD, FATES, JOBS];

fn channel(alloc: Global, name: &str) -> Result<Channel, Fail> {
    Ok(Channel {
        name: String::from_str(alloc, name)?,
        kind: Kind::Rendezvous,
        places: 16_384,
    })
}

/// A book of these notes.
fn book_of(alloc: Global, notes: &[Item]) -> Result<Notes, Memory> {
    let mut book = Notes::new(alloc);
    for note in notes {
        book.room(1)?;
        book.note(*note);
    }
    Ok(book)
}

/// What the report says of the books of a row.
fn text_of(alloc: Global, row: Row) -> Result<String, Fail> {
    let channels = [channel(alloc, "a")?, channel(alloc, "b_2")?];
    let mut books = Vec::new(alloc);
    for notes in row.books {
        books.push(book_of(alloc, notes)?)?;
    }
    Ok(report_of(alloc, &channels, row.rows, books.as_slice())?)
}

/// What the report says of the first row of which it says something else.
fn first_other(alloc: Global, rows: &[Row]) -> Result<Option<String>, Fail> {
    for row in rows {
        let text = text_of(alloc, *row)?;
        if text.as_str() != row.text {
            return Ok(Some(text));
        }
    }
    Ok(None)
}

#[test]
fn a_report_says_what_was_noted_what_became_of_each_element_and_how_far_jobs_are(
    rt: HostRuntime,
) -> Result<(), Fail> {
    let other = first_other(rt.alloc(), &ROWS)?;
    assert_eq!(rt; other, None);
    Ok(())
}
