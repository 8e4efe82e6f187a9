//! Calls of one pass of a forest.
ghost use Rattle.std.specs.Prelude.{◌≡◌, ◌+◌, ◌<◌, ◌≤◌, true, IfOk};
ghost use Rattle.job_model.specs.Floors.{SameSetting};
ghost use Rattle.job_words.specs.Passes.{floor_seen};
ghost use Rattle.job_words.specs.Forests.{seen_by, IsOwn, SameGiving};
ghost use Rattle.floor_tests.specs.Shares.{GivesFrom};
ghost use Rattle.job_words.specs.Rangers.{ranger_floor, ranger_anchor};

use crate::forest_shares::calls::{Answer, Call, make};
use crate::no_wakes::NoWakes;
use co_base::{Memory, Tag};
use forest_calls::cancel_pass;
use job_model::Reason;
use job_words::{Forest, JobPass, Ranger};
use note_book::{NoteBook, Notes};
use std::alloc::Global;

/// A forest of so many coroutines and scopes, and the pass of tag 0.
pub fn new_forest(alloc: Global, coroutines: u16, scopes: u16) -> Result<(Forest, JobPass), Memory>
    requires some { 0 < coroutines }
    requires few { coroutines + scopes ≤ 16000 }
    ensures size { IfOk result (λ r. r.0.size.coroutines ≡ coroutines) }
    ensures own { IfOk result (λ r. IsOwn r.0 r.1 0) }
    ensures gives { IfOk result (λ r. GivesFrom r.0 r.1 1) }
{
    Forest::new(alloc, coroutines, scopes)
}

/// Makes the call on the floor of one pass, if it may be made.
fn make_on(
    ranger: &mut Ranger<'_>,
    coroutines: u16,
    alloc: Global,
    who: Tag,
    call: Call,
) -> Result<Answer, Memory>
    requires caller { (ranger_floor ranger.old).callers who ≡ true }
    requires size { ranger.old.forest.now.size.coroutines ≡ coroutines }
    ensures anchor { ranger_anchor ranger.new ≡ ranger_anchor ranger.old }
    ensures own { IsOwn ranger.old.forest.now ranger.new.pass.now who }
    ensures giving { SameGiving ranger.old.pass.now ranger.new.pass.now }
    ensures same { SameSetting (ranger_floor ranger.old) (ranger_floor ranger.new) }
{
    make(ranger, alloc, coroutines, who, call)
}

/// Makes the call, if it may be made.
pub fn make_by(
    forest: &Forest,
    coroutines: u16,
    pass: &mut JobPass,
    alloc: Global,
    who: Tag,
    call: Call,
) -> Result<Answer, Memory>
    requires own { IsOwn forest.now pass.old who }
    requires size { forest.now.size.coroutines ≡ coroutines }
    ensures own { IsOwn forest.now pass.new who }
    ensures giving { SameGiving pass.old pass.new }
    ensures same { SameSetting (floor_seen (seen_by pass.old)) (floor_seen (seen_by pass.new)) }
{
    let mut ranger = Ranger { forest, pass };
    make_on(&mut ranger, coroutines, alloc, who, call)
}

/// Cancels the root and all below it, and answers how many Jobs it cancelled.
pub fn cancel_root(
    forest: &Forest,
    pass: &mut JobPass,
    alloc: Global,
    who: Tag,
) -> Result<u32, Memory>
    requires own { IsOwn forest.now pass.old who }
    ensures own { IsOwn forest.now pass.new who }
    ensures same { SameSetting (floor_seen (seen_by pass.old)) (floor_seen (seen_by pass.new)) }
{
    let mut book = Notes::new(alloc);
    book.room(16000)?;
    Ok(cancel_pass(
        forest,
        pass,
        &mut book,
        &mut NoWakes,
        who,
        0,
        Reason::Request,
    ))
}

/// A pass of the next tag that the pass of tag 0 gives out.
pub fn split_off(forest: &Forest, main: &mut JobPass, tag: Tag) -> JobPass
    requires own { IsOwn forest.now main.old 0 }
    requires gives { GivesFrom forest.now main.old tag }
    ensures own { IsOwn forest.now main.new 0 }
    ensures gives { GivesFrom forest.now main.new (tag + 1) }
    ensures split { IsOwn forest.now result tag }
{
    forest.split(main, tag)
}

/// Two passes meet, so that each has seen what the other had seen.
pub fn meet_both(forest: &Forest, a: &mut JobPass, first: Tag, b: &mut JobPass, second: Tag)
    requires a { IsOwn forest.now a.old first }
    requires b { IsOwn forest.now b.old second }
    ensures a { IsOwn forest.now a.new first }
    ensures b { IsOwn forest.now b.new second }
{
    forest.meet(a, b);
    forest.meet(b, a);
}
