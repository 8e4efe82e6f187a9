//! Scripts that are cut off.

use crate::calls::{ONE_WORKER, RENDEZVOUS, first, found};
use std::alloc::Global;
use std::sync::Wait;
use std::test::Fail;
use std::thread::Threads;

/// The root alone, which ends.
const ROOT_ALONE: &str = "\
0 report
0 endbody 0 0
0 finish 0 completed 0
0 close @0 0
job 0 completed 0
";

/// The sender without its receiver.
const SENDER_ALONE: &str = "\
4 report
0 attach 1 to 0 tag 1 plain
0 endbody 0 0
1 offer a 0 5 a.0 0
job 0 completing
job 1 active
element a 0 5 held
";

/// After how many bytes a script is cut off, and its answer.
const CUT_OFF: [(usize, &str); 14] = [
    (0, "3 report\nline 1: NoMain\n"),
    (15, "3 report\nline 1: UnknownWord\n"),
    (20, "3 report\nline 1: NoMain\n"),
    (21, "3 report\nline 1: NoMain\n"),
    (33, "3 report\nline 2: NoEnd\n"),
    (40, "3 report\nline 3: BadNumber\n"),
    (41, "3 report\nline 3: NoEnd\n"),
    (86, "3 report\nline 8: NoEnd\n"),
    (90, ROOT_ALONE),
    (91, ROOT_ALONE),
    (95, "3 report\nline 10: UnknownWord\n"),
    (96, "3 report\nline 10: BadName\n"),
    (97, "3 report\nline 10: BadName\n"),
    (98, SENDER_ALONE),
];

/// What a script is answered with that is cut off after so many bytes.
fn found_after<R: Threads + Wait + Sync>(
    rt: &R,
    alloc: Global,
    script: &[u8],
    bytes: usize,
) -> Result<String, Fail> {
    match first(script, bytes) {
        Some(script) => found(rt, alloc, ONE_WORKER, script, "report"),
        None => Err(Fail::new("the script is shorter")),
    }
}

/// The first row that does not hold, with what was found.
fn first_wrong<R: Threads + Wait + Sync>(
    rt: &R,
    alloc: Global,
    rows: &[(usize, &str)],
) -> Result<Option<String>, Fail> {
    for (bytes, answer) in rows {
        let found = found_after(rt, alloc, RENDEZVOUS.as_bytes(), *bytes)?;
        if found.as_str() != *answer {
            return Ok(Some(format!(in alloc; "after {bytes} bytes: {found}")?));
        }
    }
    Ok(None)
}

#[test]
fn a_script_that_is_cut_off_has_its_answer(rt: HostRuntime) -> Result<(), Fail> {
    let wrong = first_wrong(&rt, rt.alloc(), &CUT_OFF)?;
    assert_eq!(rt; wrong, None);
    Ok(())
}
