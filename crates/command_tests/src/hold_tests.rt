//! Runs by several workers under schedules that a gate brings about.
//!
//! Where a gate had to let a coroutine go, no worker came to what it waited for: the workers did not run beside one another, or did not
//! steal.

use crate::calls::{AT_ONCE, answer, in_a_row, told_by};
use crate::hold_gate::{HoldGate, HoldRule};
use co_base::Memory;
use std::alloc::Global;
use std::sync::Wait;
use std::test::Fail;
use std::thread::Threads;

/// Two spawned coroutines.
const TWO_SPAWNED: &str = "\
coroutine p
yield
end
coroutine q
yield
end
coroutine main
end
spawn p
spawn q
";

/// A receiver is cancelled, to which a sender of its own sends.
const CANCELLED_RECEIVER: &str = "\
channel a rendezvous
coroutine r
receive a
end
coroutine s
send a 5
end
coroutine main
launch r as j
launch s
cancel j
end
";

/// One of two receivers is cancelled before the sender begins.
const CANCELLED_FIRST: &str = "\
channel a rendezvous
coroutine r
receive a
end
coroutine s
send a 5
end
coroutine main
launch r as j
launch r
cancel j
launch s
end
";

/// A coroutine that main launches.
const LAUNCHED: &str = "\
coroutine q
yield
end
coroutine main
launch q
yield
end
";

/// Sixteen coroutines.
const SIXTEEN: &str = "\
coroutine p
yield
end
coroutine main
yield
end
spawn p 15
";

/// A select, and a sender for each of its clauses.
const SELECT_OF_TWO: &str = "\
channel a rendezvous
channel b rendezvous
coroutine m
select
onreceive a
onreceive b
end
end
coroutine p
send a 1
end
coroutine q
send b 2
end
coroutine main
end
spawn m
spawn p
spawn q
";

/// So many looks are made before a coroutine is let go.
const TURNS: u64 = 1_000_000_000;

/// Holds a tag at a point until another has passed a point so many times.
macro_rules! until_passed {
    ($tag:expr, $point:expr, $other:expr, $other_point:expr, $times:expr) => {
        HoldRule {
            tag: $tag,
            point: $point,
            other: $other,
            other_point: $other_point,
            passed: true,
            times: $times,
        }
    };
}

/// Holds a tag at a point until another has come to a point.
macro_rules! until_come {
    ($tag:expr, $point:expr, $other:expr, $other_point:expr) => {
        HoldRule {
            tag: $tag,
            point: $point,
            other: $other,
            other_point: $other_point,
            passed: false,
            times: 1,
        }
    };
}

/// A receiver and a sender beside it, whose first tickets lie in one lane.
const ONE_LANE: &str = "\
channel a rendezvous
coroutine p
receive a
end
coroutine x
yield
end
coroutine q
yield
end
coroutine main
send a 1
end
spawn p
spawn x
spawn q
";

/// What a call is answered with at a gate with these rules, as a row says it; and that the gate let somebody go, if it did.
fn held<R: Threads + Wait + Sync>(
    rt: &R,
    alloc: Global,
    words: &str,
    script: &str,
    rules: &[HoldRule],
    told: &str,
) -> Result<String, Fail> {
    let gate = HoldGate::new(alloc, rules, TURNS)?;
    let script = script.as_bytes();
    let (status, written) = answer(rt, alloc, words, script, AT_ONCE, AT_ONCE, &gate)?;
    let found = in_a_row(alloc, status, told, written.as_slice())?;
    if gate.gave_up() {
        return Ok(format!(in alloc; "{found}and the gate let somebody go\n")?);
    }
    Ok(found)
}

/// What is found in place of an answer, if a call is not answered so at a gate with these rules.
fn other<R: Threads + Wait + Sync>(
    rt: &R,
    alloc: Global,
    words: &str,
    script: &str,
    rules: &[HoldRule],
    answer: &str,
) -> Result<Option<String>, Fail> {
    let found = held(rt, alloc, words, script, rules, told_by(answer))?;
    if found.as_str() == answer {
        return Ok(None);
    }
    Ok(Some(found))
}

const TWO: &str = "run --workers 2";

const THREE: &str = "run --workers 3";

const SIDE_BY_SIDE: [HoldRule; 1] = [until_passed!(1, 2, 2, 3, 1)];

const RESUMED_THEN_CANCELLED: [HoldRule; 4] = [
    until_passed!(2, 2, 1, 3, 1),
    until_passed!(0, 6, 1, 3, 1),
    until_come!(0, 6, 1, 4),
    until_passed!(1, 4, 0, 7, 1),
];

const CANCELLED_BEFORE_THE_SENDER: [HoldRule; 4] = [
    until_passed!(0, 6, 1, 8, 1),
    until_passed!(2, 2, 1, 3, 1),
    until_passed!(3, 2, 1, 8, 2),
    until_passed!(3, 2, 2, 3, 1),
];

const STOLEN: [HoldRule; 1] = [until_passed!(0, 8, 1, 3, 1)];

const CANCELLED_AFTER_ITS_LOOK: [HoldRule; 3] = [
    until_passed!(2, 2, 1, 3, 1),
    until_come!(0, 6, 1, 5),
    until_passed!(1, 5, 0, 7, 1),
];

const SECOND_SENDER_FIRST: [HoldRule; 3] = [
    until_passed!(2, 2, 1, 3, 1),
    until_passed!(3, 2, 1, 3, 1),
    until_passed!(2, 2, 3, 3, 1),
];

const OTHER_GOES_ON: [HoldRule; 2] = [until_come!(0, 2, 3, 2), until_passed!(3, 2, 1, 8, 2)];

/// A call at a gate, and what it is answered with.
#[derive(Clone, Copy)]
struct HoldRow {
    words: &'static str,
    script: &'static str,
    rules: &'static [HoldRule],
    answer: &'static str,
}

macro_rules! row {
    ($words:expr, $script:expr, $rules:expr, $answer:expr) => {
        HoldRow {
            words: $words,
            script: $script,
            rules: $rules,
            answer: $answer,
        }
    };
}

const ROWS: [HoldRow; 7] = [
    // Two workers run side by side.
    row!(
        TWO,
        TWO_SPAWNED,
        &SIDE_BY_SIDE,
        "0 jobs
job 0 completed 0
job 1 completed 0
job 2 completed 0
"
    ),
    // A receiver that was resumed and then cancelled gives its element up.
    row!(
        TWO,
        CANCELLED_RECEIVER,
        &RESUMED_THEN_CANCELLED,
        "0 channels
1 await a 0 a.0 0
1 saw 1
1 settle a.0 undelivered 5
2 hand a 0 5
element a 0 5 undelivered
"
    ),
    // A receiver that was cancelled lets the next one receive.
    row!(
        THREE,
        CANCELLED_FIRST,
        &CANCELLED_BEFORE_THE_SENDER,
        "0 channels
1 await a 0 a.0 0
1 saw 1
1 withdraw a.0 cancelled
1 settle a.0 cancelled
2 await a 1 a.1 0
2 settle a.1 value 0 5
3 hand a 1 5
"
    ),
    // A worker steals what another launched.
    row!(
        TWO,
        LAUNCHED,
        &STOLEN,
        "0 jobs
job 0 completed 0
job 1 completed 0
"
    ),
    // A receiver that is cancelled behind its look receives.
    row!(
        THREE,
        CANCELLED_RECEIVER,
        &CANCELLED_AFTER_ITS_LOOK,
        "0 channels
1 await a 0 a.0 0
1 settle a.0 value 0 5
2 hand a 0 5
"
    ),
    // A select takes the clause whose sender came first.
    row!(
        THREE,
        SELECT_OF_TWO,
        &SECOND_SENDER_FIRST,
        "4 channels-and-jobs
1 empty a
1 empty b
1 await a 0 a.0 1
1 await b 0 a.0 2
1 settle a.0 value 2 2
2 offer a 1 1 a.1 0
3 hand b 0 2
job 0 completing
job 1 completed 0
job 2 active
job 3 completed 0
element a 1 1 held
"
    ),
    // A coroutine goes on whose last worker is held by another.
    row!(
        TWO,
        ONE_LANE,
        &OTHER_GOES_ON,
        "0 jobs
job 0 completed 0
job 1 completed 0
job 2 completed 0
job 3 completed 0
"
    ),
];

/// The number of the first row with another answer, and what is found in its place.
fn first_other<R: Threads + Wait + Sync>(
    rt: &R,
    alloc: Global,
    rows: &[HoldRow],
) -> Result<Option<(usize, String)>, Fail> {
    for (number, row) in rows.iter().enumerate() {
        let HoldRow {
            words,
            script,
            rules,
            answer,
        } = *row;
        if let Some(found) = other(rt, alloc, words, script, rules, answer)? {
            return Ok(Some((number, found)));
        }
    }
    Ok(None)
}

#[test]
fn held_coroutines_come_to_what_their_rows_say(rt: HostRuntime) -> Result<(), Fail> {
    let other = first_other(&rt, rt.alloc(), &ROWS)?;
    assert_eq!(rt; other, None);
    Ok(())
}

/// Each of sixteen coroutines is held until all others come to the same point.
fn all_at_once(alloc: Global) -> Result<Vec<HoldRule>, Memory> {
    let mut rules = Vec::new(alloc);
    for tag in 0..16 {
        for other in 0..16 {
            if other != tag {
                rules.push(until_come!(tag, 2, other, 2))?;
            }
        }
    }
    Ok(rules)
}

/// What is found in place of no report of sixteen workers that poll sixteen coroutines at once.
fn other_at_once<R: Threads + Wait + Sync>(rt: &R, alloc: Global) -> Result<Option<String>, Fail> {
    let rules = all_at_once(alloc)?;
    other(
        rt,
        alloc,
        "run --workers 16",
        SIXTEEN,
        rules.as_slice(),
        "0 none\n",
    )
}

#[test]
fn sixteen_workers_poll_sixteen_coroutines_at_once(rt: HostRuntime) -> Result<(), Fail> {
    let other = other_at_once(&rt, rt.alloc())?;
    assert_eq!(rt; other, None);
    Ok(())
}
