//! The tags of a forest, shared out among four passes.
ghost use Rattle.std.specs.Prelude.{◌≡◌, ◌+◌, ◌<◌};
ghost use Rattle.job_model.specs.Floors.{SameSetting};
ghost use Rattle.job_words.specs.Passes.{floor_seen};
ghost use Rattle.job_words.specs.Forests.{seen_by, IsOwn};
ghost use Rattle.floor_tests.specs.Shares.{OwnsAll, IsShare, GivesFrom};

use crate::forest_shares::calls::{Answer, Call};
use crate::forest_shares::on_passes::{cancel_root, make_by, split_off};
use co_base::{Memory, Row, Tag};
use job_model::JobKind;
use job_words::{Forest, JobPass};
use std::alloc::Global;

/// The tags from `from` to before `to`, and the pass under which they call.
#[derive(Drop)]
pub struct Share {
    pub pass: JobPass,
    pub from: Tag,
    pub to: Tag,
    /// How many calls came to what they are made for.
    pub count: u32,
}

/// What is done with each tag of a share.
#[derive(Clone, Copy, Debug)]
pub enum Work {
    /// Its Job is attached to the root.
    Attach,
    /// Its Job is attached to that of half its tag.
    AttachBelow,
    /// The body of its Job is ended.
    EndBody,
    /// Its Job is finished, and the root is told.
    Finish,
    /// The root is cancelled, once for all tags of the share.
    CancelRoot,
    /// Its coroutine enters scopes in the root, until no row for one is free. Only the first tag of the share does.
    EnterScopes,
}

const SCOPE: JobKind = JobKind {
    supervisor: false,
    scoped: true,
    lazy: false,
};

const PLAIN: JobKind = JobKind {
    supervisor: false,
    scoped: false,
    lazy: false,
};

/// A pass of these tags, which were not given out.
pub fn share_of(forest: &Forest, main: &mut JobPass, from: Tag, to: Tag) -> Share
    requires some { from < to }
    requires own { IsOwn forest.now main.old 0 }
    requires gives { GivesFrom forest.now main.old from }
    ensures own { IsOwn forest.now main.new 0 }
    ensures gives { GivesFrom forest.now main.new to }
    ensures share { IsShare forest.now result }
{
    let mut pass = split_off(forest, main, from);
    for tag in from + 1..to {
        let one = split_off(forest, main, tag);
        forest.end(&mut pass, one);
    }
    Share {
        pass,
        from,
        to,
        count: 0,
    }
}

/// The call that works on one tag.
fn call_of(work: Work, tag: Tag) -> Call {
    match work {
        Work::CancelRoot => Call::Look { row: tag },
        Work::AttachBelow => attach(tag / 2, PLAIN, tag),
        Work::Attach => attach(0, PLAIN, tag),
        Work::EnterScopes => attach(0, SCOPE, tag),
        Work::EndBody => Call::EndBody { row: tag, value: 1 },
        Work::Finish => Call::FinishAndTell { row: tag },
    }
}

fn attach(parent: Row, kind: JobKind, tag: Tag) -> Call {
    Call::Attach { parent, kind, tag }
}

/// Whether a call came to what it is made for.
fn is_done(answer: Result<Answer, Memory>) -> bool {
    match answer {
        Ok(Answer::Attached(attached)) => attached.is_ok(),
        Ok(Answer::Ended(_)) | Ok(Answer::FinishedAndTold(_, _)) => true,
        _ => false,
    }
}

/// The call of one tag, and whether it came to what it is made for.
fn work_on(
    forest: &Forest,
    coroutines: u16,
    pass: &mut JobPass,
    alloc: Global,
    tag: Tag,
    work: Work,
) -> bool
    requires own { IsOwn forest.now pass.old tag }
    requires size { forest.now.size.coroutines ≡ coroutines }
    ensures own { IsOwn forest.now pass.new tag }
    ensures same { SameSetting (floor_seen (seen_by pass.old)) (floor_seen (seen_by pass.new)) }
{
    is_done(make_by(forest, coroutines, pass, alloc, tag, call_of(work, tag)))
}

/// The work on each tag of a share: how many calls came to what they are made for.
fn work_through(
    forest: &Forest,
    coroutines: u16,
    pass: &mut JobPass,
    alloc: Global,
    from: Tag,
    to: Tag,
    work: Work,
) -> u32
    requires size { forest.now.size.coroutines ≡ coroutines }
    requires owns { OwnsAll forest.now pass.old from to }
    ensures owns { OwnsAll forest.now pass.new from to }
{
    let mut count = 0u32;
    for tag in from..to {
        if work_on(forest, coroutines, pass, alloc, tag, work) {
            count = count.saturating_add(1);
        }
    }
    count
}

/// The work of a share.
pub fn run(forest: &Forest, coroutines: u16, alloc: Global, share: &mut Share, work: Work)
    requires size { forest.now.size.coroutines ≡ coroutines }
    requires share { IsShare forest.now share.old }
    ensures share { IsShare forest.now share.new }
{
    let (from, to) = (share.from, share.to);
    share.count = match work {
        Work::CancelRoot => cancel_in(forest, &mut share.pass, alloc, from, to),
        Work::EnterScopes => enter_in(forest, coroutines, &mut share.pass, alloc, from, to),
        Work::Attach | Work::AttachBelow | Work::EndBody | Work::Finish => {
            work_through(forest, coroutines, &mut share.pass, alloc, from, to, work)
        }
    };
}

/// Cancels the root and all below it, by the first tag of a share: how many Jobs were cancelled.
fn cancel_in(forest: &Forest, pass: &mut JobPass, alloc: Global, from: Tag, to: Tag) -> u32
    requires some { from < to }
    requires owns { OwnsAll forest.now pass.old from to }
    ensures owns { OwnsAll forest.now pass.new from to }
{
    cancel_root(forest, pass, alloc, from).unwrap_or(0)
}

/// Enters scopes in the root by the first tag of a share, until no row for one is free: how many were entered.
fn enter_in(
    forest: &Forest,
    coroutines: u16,
    pass: &mut JobPass,
    alloc: Global,
    from: Tag,
    to: Tag,
) -> u32
    requires some { from < to }
    requires size { forest.now.size.coroutines ≡ coroutines }
    requires owns { OwnsAll forest.now pass.old from to }
    ensures owns { OwnsAll forest.now pass.new from to }
{
    for count in 0..16000 {
        if !work_on(forest, coroutines, pass, alloc, from, Work::EnterScopes) {
            return count;
        }
    }
    16000
}
