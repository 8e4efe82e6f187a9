//! What calls on a forest answer, and what several threads make of one.
ghost use Rattle.std.specs.Prelude.{◌≡◌, ◌≤◌, ◌+◌, true, is_some, IfOk, ⊤};
ghost use Rattle.job_model.specs.Histories.{replay};
ghost use Rattle.job_model.specs.Floors.{MayCall};
ghost use Rattle.job_words.specs.Passes.{floor_seen};
ghost use Rattle.job_words.specs.Forests.{seen_by, IsOwn};
ghost use Rattle.job_words.specs.Rangers.{ranger_floor, ranger_anchor};
ghost use Rattle.one_thread_floor.specs.TreeFloors.{floor_of};

use crate::compare::compare;
use co_base::{Memory, Row, Tag, Value, Wakes};
use floor_tests::NoWakes;
use floor_tests::forest_shares::{
    Answer, Call, Four, Work, cancel_root, is_attached, make, make_by, meet_both, new_forest, run,
    share_of, split_off, work_by,
};
use forest_calls::finish_up;
use job_model::{
    AttachError, Attached, CancelledNow, Cause, End, Ended, Finished, JobFloor, JobKind,
};
use job_tree::Ends;
use job_words::{Forest, JobPass, Ranger};
use note_book::{NoteBook, Notes};
use one_thread_floor::TreeFloor;
use std::alloc::Global;
use std::sync::Wait;
use std::test::Fail;
use std::thread::{Threads, join};

const PLAIN: JobKind = JobKind {
    supervisor: false,
    scoped: false,
    lazy: false,
};

const SCOPE: JobKind = JobKind {
    supervisor: false,
    scoped: true,
    lazy: false,
};

const LAZY: JobKind = JobKind {
    supervisor: false,
    scoped: false,
    lazy: true,
};

macro_rules! attach {
    ($parent:expr, $kind:expr, $tag:expr) => {
        Call::Attach {
            parent: $parent,
            kind: $kind,
            tag: $tag,
        }
    };
}

macro_rules! attached {
    ($row:expr, $cancelled:expr) => {
        Answer::Attached(Ok(Attached {
            row: $row,
            cancelled: $cancelled,
        }))
    };
}

const BY_REQUEST: Finished = Finished::Now(End::Cancelled(Cause::Request));

const WITH_NINE: Finished = Finished::Now(End::Completed(9));

/// Calls on four coroutines: who makes each, and what it answers.
const CANCELLED: [(Tag, Call, Answer); 12] = [
    (0, attach!(0, PLAIN, 1), attached!(1, false)),
    (1, attach!(1, LAZY, 2), attached!(2, false)),
    (0, Call::CancelPass { row: 1 }, Answer::Passed(2)),
    (1, attach!(1, PLAIN, 3), attached!(3, true)),
    (0, Call::Start { row: 2 }, Answer::Started(false)),
    (
        0,
        Call::CancelOne { row: 3 },
        Answer::Cancelled(CancelledNow::Already),
    ),
    (0, Call::CancelPass { row: 1 }, Answer::Passed(0)),
    (
        2,
        Call::EndBody { row: 2, value: 0 },
        Answer::Ended(Ended::Owes),
    ),
    (
        1,
        Call::Finish { row: 1 },
        Answer::Finished(Finished::NotYet),
    ),
    (
        2,
        Call::FinishAndTell { row: 2 },
        Answer::FinishedAndTold(BY_REQUEST, Ended::Waits),
    ),
    (
        2,
        Call::Finish { row: 2 },
        Answer::Finished(Finished::Already),
    ),
    (
        1,
        Call::Finish { row: 1 },
        Answer::Finished(Finished::NotYet),
    ),
];

/// The same of three coroutines and a scope.
const ENDED: [(Tag, Call, Answer); 7] = [
    (0, attach!(0, PLAIN, 1), attached!(1, false)),
    (
        0,
        attach!(0, PLAIN, 1),
        Answer::Attached(Err(AttachError::Used)),
    ),
    (0, attach!(0, SCOPE, 0), attached!(3, false)),
    (
        0,
        attach!(0, SCOPE, 0),
        Answer::Attached(Err(AttachError::NoRow)),
    ),
    (
        1,
        Call::EndBody { row: 1, value: 9 },
        Answer::Ended(Ended::Owes),
    ),
    (1, Call::Finish { row: 1 }, Answer::Finished(WITH_NINE)),
    (
        0,
        attach!(1, PLAIN, 2),
        Answer::Attached(Err(AttachError::ParentEnded)),
    ),
];

fn new_tree(alloc: Global) -> Result<TreeFloor, Memory>
    ensures { IfOk result (λ f. (floor_of f).shape.coroutines ≡ 4) }
{
    TreeFloor::new(alloc, 4, 0)
}

/// How many of the calls answer so on a floor of one thread with four coroutines, from the first on.
fn right_on_tree(alloc: Global, calls: &[(Tag, Call, Answer)]) -> Result<usize, Memory> {
    let mut floor = new_tree(alloc)?;
    for i in 0..calls.len() {
        let (who, call, answer) = calls[i];
        let found = make(&mut floor, alloc, 4, who, call)?;
        if found != answer {
            return Ok(i);
        }
    }
    Ok(calls.len())
}

/// The call of one of three tags, after all passes met.
fn call_of_three(
    forest: &Forest,
    coroutines: u16,
    alloc: Global,
    p: &mut JobPass,
    q: &mut JobPass,
    r: &mut JobPass,
    who: Tag,
    call: Call,
) -> Result<Answer, Memory>
    requires p { IsOwn forest.now p.old 0 }
    requires q { IsOwn forest.now q.old 1 }
    requires r { IsOwn forest.now r.old 2 }
    requires size { forest.now.size.coroutines ≡ coroutines }
    ensures p { IsOwn forest.now p.new 0 }
    ensures q { IsOwn forest.now q.new 1 }
    ensures r { IsOwn forest.now r.new 2 }
{
    meet_both(forest, p, 0, q, 1);
    meet_both(forest, p, 0, r, 2);
    meet_both(forest, p, 0, q, 1);
    match who {
        0 => make_by(forest, coroutines, p, alloc, 0, call),
        1 => make_by(forest, coroutines, q, alloc, 1, call),
        _ => make_by(forest, coroutines, r, alloc, 2, call),
    }
}

/// How many of the calls answer so, from the first on.
fn right_of_three(
    forest: &Forest,
    coroutines: u16,
    alloc: Global,
    p: &mut JobPass,
    q: &mut JobPass,
    r: &mut JobPass,
    calls: &[(Tag, Call, Answer)],
) -> Result<usize, Memory>
    requires p { IsOwn forest.now p.old 0 }
    requires q { IsOwn forest.now q.old 1 }
    requires r { IsOwn forest.now r.old 2 }
    requires size { forest.now.size.coroutines ≡ coroutines }
    ensures r { IsOwn forest.now r.new 2 }
{
    for i in 0..calls.len() {
        let (who, call, answer) = calls[i];
        let found = call_of_three(forest, coroutines, alloc, p, q, r, who, call)?;
        if found != answer {
            return Ok(i);
        }
    }
    Ok(calls.len())
}

/// How many Jobs ended, and the last of them.
#[derive(Clone, Copy)]
struct LastEnd {
    count: u32,
    last: Option<(Row, End)>,
}

impl<F: JobFloor, B: NoteBook, W: Wakes> Ends<F, B, W> for LastEnd {
    ghost most = { λ e. 0 };

    ghost is_ready = { λ e. true };

    ghost prepares = { λ old new. ⊤ };

    ghost does = { λ old before row end items new after. ⊤ };

    ghost leaves = { λ old new jobs. ⊤ };

    fn ready(&mut self, book: &mut B, more: u32) -> Result<(), Memory> {
        book.room(more)
    }

    fn ended(&mut self, _jobs: &mut F, _book: &mut B, _wakes: &mut W, row: Row, end: End) {
        self.count = self.count.saturating_add(1);
        self.last = Some((row, end));
    }

    fn left(&mut self, _jobs: &mut F) {}
}

/// Whether the row is attached, on the floor of one pass.
fn is_attached_on(ranger: &mut Ranger<'_>, who: Tag, row: Row) -> bool
    requires caller { (ranger_floor ranger.old).callers who ≡ true }
    ensures anchor { ranger_anchor ranger.new ≡ ranger_anchor ranger.old }
    ensures own { IsOwn ranger.old.forest.now ranger.new.pass.now who }
    ensures attached { result ≡ true → is_some (replay (ranger_floor ranger.new).seen row) ≡ true }
{
    is_attached(ranger, who, row)
}

/// Whether the row is attached.
fn is_attached_by(forest: &Forest, pass: &mut JobPass, who: Tag, row: Row) -> bool
    requires own { IsOwn forest.now pass.old who }
    ensures own { IsOwn forest.now pass.new who }
    ensures attached { result ≡ true → is_some (replay (floor_seen (seen_by pass.new)).seen row) ≡ true }
{
    let mut ranger = Ranger { forest, pass };
    is_attached_on(&mut ranger, who, row)
}

/// Ends the Job and its parents, on the floor of one pass.
fn finish_on(ranger: &mut Ranger<'_>, alloc: Global, who: Tag, row: Row) -> Result<LastEnd, Memory>
    requires can { MayCall who row (ranger_floor ranger.old) }
    ensures anchor { ranger_anchor ranger.new ≡ ranger_anchor ranger.old }
    ensures own { IsOwn ranger.old.forest.now ranger.new.pass.now who }
{
    let mut ends = LastEnd {
        count: 0,
        last: None,
    };
    let mut book = Notes::new(alloc);
    match finish_up(ranger, &mut book, &mut NoWakes, who, row, &mut ends) {
        Ok(()) => Ok(ends),
        Err(memory) => Err(memory),
    }
}

/// Ends the Job and its parents, as far as they may end.
fn finish_from(
    forest: &Forest,
    pass: &mut JobPass,
    alloc: Global,
    who: Tag,
    row: Row,
) -> Result<LastEnd, Memory>
    requires own { IsOwn forest.now pass.old who }
    ensures own { IsOwn forest.now pass.new who }
{
    if !is_attached_by(forest, pass, who, row) {
        return Ok(LastEnd {
            count: 0,
            last: None,
        });
    }
    let mut ranger = Ranger { forest, pass };
    finish_on(&mut ranger, alloc, who, row)
}

/// A chain of two coroutines whose bodies have ended.
const TWO_ENDED: [(Tag, Call, Answer); 4] = [
    (0, attach!(0, PLAIN, 1), attached!(1, false)),
    (1, attach!(1, PLAIN, 2), attached!(2, false)),
    (
        1,
        Call::EndBody { row: 1, value: 8 },
        Answer::Ended(Ended::Waits),
    ),
    (
        2,
        Call::EndBody { row: 2, value: 9 },
        Answer::Ended(Ended::Owes),
    ),
];

/// The row and the result of the last Job that ended, if it was completed.
fn last_result(ends: LastEnd) -> Option<(Row, Value)> {
    match ends.last {
        Some((row, End::Completed(value))) => Some((row, value)),
        _ => None,
    }
}

/// How many of a table's calls answer so in a forest, from the first on; how many Jobs end when tag 2 then ends its own, and how many when
/// it does so once more; and the row and the result of the last of these, if it was completed.
type Found = (usize, [u32; 2], Option<(Row, Value)>);

/// The same by three passes.
fn found_of_three(
    forest: &Forest,
    coroutines: u16,
    alloc: Global,
    p: &mut JobPass,
    q: &mut JobPass,
    r: &mut JobPass,
    calls: &[(Tag, Call, Answer)],
) -> Result<Found, Memory>
    requires p { IsOwn forest.now p.old 0 }
    requires q { IsOwn forest.now q.old 1 }
    requires r { IsOwn forest.now r.old 2 }
    requires size { forest.now.size.coroutines ≡ coroutines }
{
    let right = right_of_three(forest, coroutines, alloc, p, q, r, calls)?;
    let ends = finish_from(forest, r, alloc, 2, 2)?;
    let again = finish_from(forest, r, alloc, 2, 2)?;
    Ok((right, [ends.count, again.count], last_result(ends)))
}

/// The same in a forest of its own.
fn found_in_forest(
    alloc: Global,
    coroutines: u16,
    scopes: u16,
    calls: &[(Tag, Call, Answer)],
) -> Result<Found, Memory>
    requires some { 3 ≤ coroutines }
    requires few { coroutines + scopes ≤ 16000 }
{
    let (forest, mut p) = new_forest(alloc, coroutines, scopes)?;
    let mut q = split_off(&forest, &mut p, 1);
    let mut r = split_off(&forest, &mut p, 2);
    found_of_three(&forest, coroutines, alloc, &mut p, &mut q, &mut r, calls)
}

/// Calls on cancelled Jobs on a floor of one thread and in a forest; rows that a forest gives out, and ends; and a child whose end ends its
/// parent.
#[test]
fn calls_on_jobs_are_answered_as_their_tables_say(rt: HostRuntime) -> Result<(), Fail> {
    let alloc = rt.alloc();
    let on_tree = right_on_tree(alloc, &CANCELLED)?;
    let found = [
        found_in_forest(alloc, 4, 0, &CANCELLED)?,
        found_in_forest(alloc, 3, 1, &ENDED)?,
        found_in_forest(alloc, 3, 0, &TWO_ENDED)?,
    ];
    let wanted: [Found; 3] = [
        (12, [0, 0], None),
        (7, [0, 0], None),
        (4, [2, 0], Some((1, 8))),
    ];
    compare(&rt, &(on_tree, found), &(12, wanted));
    Ok(())
}

/// How many living children the root has, how many are met from the newest on, and the sum of their rows.
fn children_of_root(
    forest: &Forest,
    coroutines: u16,
    pass: &mut JobPass,
    alloc: Global,
) -> (u16, u32, u32)
    requires own { IsOwn forest.now pass.old 0 }
    requires size { forest.now.size.coroutines ≡ coroutines }
    ensures own { IsOwn forest.now pass.new 0 }
{
    let look = Call::Look { row: 0 };
    let Ok(Answer::Seen(Some(root))) = make_by(forest, coroutines, pass, alloc, 0, look) else {
        return (0, 0, 0);
    };
    let mut next = root.first_child;
    let mut count = 0u32;
    let mut sum = 0u32;
    for _ in 0..coroutines {
        let Some(row) = next else {
            return (root.living, count, sum);
        };
        count = count.saturating_add(1);
        sum = sum.saturating_add(u32::from(row));
        next = match make_by(forest, coroutines, pass, alloc, 0, Call::Link { row }) {
            Ok(Answer::Linked(link)) => link.next,
            _ => None,
        };
    }
    (root.living, count, sum)
}

/// How many tags each of four threads attached, and the children of the root.
fn attached_by_four<R: Threads + Wait + Sync>(
    rt: &R,
    alloc: Global,
) -> Result<([u32; 4], (u16, u32, u32)), Memory> {
    let (forest, mut main) = new_forest(alloc, 801, 0)?;
    let a = share_of(&forest, &mut main, 1, 201);
    let b = share_of(&forest, &mut main, 201, 401);
    let c = share_of(&forest, &mut main, 401, 601);
    let d = share_of(&forest, &mut main, 601, 801);
    let four = Four { a, b, c, d };
    let four = work_by(rt, &forest, 801, alloc, four, Work::Attach, 4);
    let counts = [four.a.count, four.b.count, four.c.count, four.d.count];
    Ok((counts, children_of_root(&forest, 801, &mut main, alloc)))
}

#[test]
fn four_threads_attach_their_tags_to_the_root(rt: HostRuntime) -> Result<(), Fail> {
    let found = attached_by_four(&rt, rt.alloc())?;
    compare(&rt, &found, &([200, 200, 200, 200], (800, 800, 320400)));
    Ok(())
}

/// How many rows are attached, and how many of their Jobs are neither Cancelling nor ended.
fn attached_and_not_cancelled(
    forest: &Forest,
    coroutines: u16,
    pass: &mut JobPass,
    alloc: Global,
) -> [u32; 2]
    requires own { IsOwn forest.now pass.old 0 }
    requires size { forest.now.size.coroutines ≡ coroutines }
{
    let mut attached = 0u32;
    let mut not_cancelled = 0u32;
    for row in 0..coroutines {
        let seen = make_by(forest, coroutines, pass, alloc, 0, Call::Look { row });
        if let Ok(Answer::Seen(Some(job))) = seen {
            attached = attached.saturating_add(1);
            if job.state.is_cancellable() {
                not_cancelled = not_cancelled.saturating_add(1);
            }
        }
    }
    [attached, not_cancelled]
}

/// Cancels the root and all below it.
fn cancel_with(forest: &Forest, mut pass: JobPass, alloc: Global) -> (JobPass, Option<u32>)
    requires own { IsOwn forest.now pass 0 }
    ensures own { IsOwn forest.now result.0 0 }
{
    let count = cancel_root(forest, &mut pass, alloc, 0);
    (pass, count.ok())
}

/// What one thread attaches below while another cancels the root: how many were attached before, how many at the same time, and how many
/// were cancelled, but 601 if there are more; and how many rows are attached, and how many of their Jobs are neither Cancelling nor ended.
fn attached_and_cancelled<R: Threads + Wait + Sync>(
    rt: &R,
    alloc: Global,
) -> Result<([u32; 3], [u32; 2]), Memory> {
    let (forest, mut main) = new_forest(alloc, 1201, 0)?;
    let mut before = share_of(&forest, &mut main, 1, 601);
    let mut below = share_of(&forest, &mut main, 601, 1201);
    run(&forest, 1201, alloc, &mut before, Work::AttachBelow);
    let ((mut main, count), _) = join(
        rt,
        || cancel_with(&forest, main, alloc),
        || run(&forest, 1201, alloc, &mut below, Work::AttachBelow),
    );
    let cancelled = count.unwrap_or(0).min(601);
    let left = attached_and_not_cancelled(&forest, 1201, &mut main, alloc);
    Ok(([before.count, below.count, cancelled], left))
}

#[test]
fn what_is_attached_below_a_cancelled_job_is_cancelled(rt: HostRuntime) -> Result<(), Fail> {
    for _ in 0..20 {
        let found = attached_and_cancelled(&rt, rt.alloc())?;
        compare(&rt, &found, &([600, 600, 601], [1201, 0]));
    }
    Ok(())
}
