//! Histories of Jobs, and what is said of each, worked out by hand: of the root and one coroutine.

use crate::compare::compare;
use co_base::Memory;
use job_model::{Cause, End, JobAct, JobEntry, JobKind, Reason};
use job_replay::{JobVerdict, check_jobs};
use std::alloc::Global;
use std::test::Fail;

macro_rules! entry {
    ($who:expr, $act:expr) => {
        JobEntry {
            who: $who,
            act: $act,
        }
    };
}

macro_rules! attach {
    () => {
        entry!(
            0,
            JobAct::Attach {
                parent: 0,
                row: 1,
                kind: JobKind {
                    supervisor: false,
                    scoped: false,
                    lazy: false,
                },
                tag: 1,
                cancelled: false,
            }
        )
    };
}

macro_rules! end_body {
    ($who:expr, $row:expr, $value:expr) => {
        entry!(
            $who,
            JobAct::EndBody {
                row: $row,
                value: $value,
            }
        )
    };
}

macro_rules! finish {
    ($row:expr, $end:expr) => {
        entry!(
            $row,
            JobAct::Finish {
                row: $row,
                end: $end,
            }
        )
    };
}

macro_rules! gone {
    () => {
        entry!(1, JobAct::Gone { row: 1 })
    };
}

macro_rules! cancel {
    ($row:expr, $reason:expr) => {
        entry!(
            1,
            JobAct::Cancel {
                row: $row,
                reason: $reason,
            }
        )
    };
}

/// The child ends, and then the root.
const ENDS: [JobEntry; 6] = [
    attach!(),
    end_body!(1, 1, 7),
    finish!(1, End::Completed(7)),
    gone!(),
    end_body!(0, 0, 0),
    finish!(0, End::Completed(0)),
];

/// The root ends before its child.
const TOO_EARLY: [JobEntry; 3] = [attach!(), end_body!(0, 0, 0), finish!(0, End::Completed(0))];

/// The parent is told twice.
const TWICE: [JobEntry; 5] = [
    attach!(),
    end_body!(1, 1, 7),
    finish!(1, End::Completed(7)),
    gone!(),
    gone!(),
];

/// The Job ends with another result than its body.
const OTHER_RESULT: [JobEntry; 3] = [attach!(), end_body!(1, 1, 7), finish!(1, End::Completed(8))];

/// Another coroutine ends the body.
const OTHER_BODY: [JobEntry; 2] = [attach!(), end_body!(0, 1, 7)];

/// The child fails, and the root with it.
const FAILS: [JobEntry; 8] = [
    attach!(),
    cancel!(1, Reason::Own(1)),
    end_body!(1, 1, 0),
    finish!(1, End::Cancelled(Cause::Failure(1))),
    cancel!(0, Reason::Child(1)),
    gone!(),
    end_body!(0, 0, 0),
    finish!(0, End::Cancelled(Cause::Failure(1))),
];

/// The root completes although its child's failure cancelled it.
const COMPLETES: [JobEntry; 8] = [
    attach!(),
    cancel!(1, Reason::Own(1)),
    end_body!(1, 1, 0),
    finish!(1, End::Cancelled(Cause::Failure(1))),
    cancel!(0, Reason::Child(1)),
    gone!(),
    end_body!(0, 0, 0),
    finish!(0, End::Completed(0)),
];

/// Histories, and the number of the entry of each that may not come, or 0.
const HISTORIES: [(&[JobEntry], usize); 7] = [
    (&ENDS, 0),
    (&TOO_EARLY, 3),
    (&TWICE, 5),
    (&OTHER_RESULT, 3),
    (&OTHER_BODY, 2),
    (&FAILS, 0),
    (&COMPLETES, 8),
];

/// The number of the entry that may not come, or 0.
fn stopped(alloc: Global, entries: &[JobEntry]) -> Result<usize, Memory> {
    match check_jobs(alloc, 2, 0, entries)? {
        JobVerdict::Legal => Ok(0),
        JobVerdict::MayNotCome(number) => Ok(number),
    }
}

/// The number of the first history that stops elsewhere, and where it stops.
fn first_other(
    alloc: Global,
    histories: &[(&[JobEntry], usize)],
) -> Result<Option<(usize, usize)>, Memory> {
    for (number, (entries, wanted)) in histories.iter().enumerate() {
        let found = stopped(alloc, *entries)?;
        if found != *wanted {
            return Ok(Some((number, found)));
        }
    }
    Ok(None)
}

#[test]
fn each_history_stops_where_its_fault_is(rt: HostRuntime) -> Result<(), Fail> {
    let other = first_other(rt.alloc(), &HISTORIES)?;
    compare(&rt, &other, &None);
    Ok(())
}
