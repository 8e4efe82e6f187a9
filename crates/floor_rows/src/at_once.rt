//! A select by one thread and a send by another, at once on one hub.

ghost use Rattle.std.specs.Prelude.{◌≡◌};
ghost use Rattle.cell_words.specs.Hubs.{shape_of, IsOwn};
ghost use Rattle.floor_tests.specs.Meetings.{two_channels};

use crate::compare::compare;
use crate::select_tests::{Found, USER, new_hub, select_on};
use cell_calls::{Desk, offer};
use cell_words::{Hub, Pass};
use channel_model::Offered;
use co_base::Memory;
use floor_tests::OTHER;
use note_book::Notes;
use select_calls::SelectAnswer;
use std::alloc::Global;
use std::sync::Wait;
use std::test::Fail;
use std::thread::{Threads, join};

/// A select of two receives, by its pass.
fn select_in(hub: &Hub, pass: &mut Pass, alloc: Global) -> Result<Found, Memory>
    requires shape { shape_of hub.now ≡ two_channels }
    requires own { IsOwn hub.now pass.old 1 }
{
    let mut book = Notes::new(alloc);
    let mut desk = Desk { hub, pass };
    select_on(&mut desk, &mut book)
}

/// An offer on the second channel, by its pass.
fn send_in(hub: &Hub, pass: &mut Pass) -> Offered
    requires shape { shape_of hub.now ≡ two_channels }
    requires own { IsOwn hub.now pass.old 2 }
{
    offer(hub, pass, OTHER, 1, 6)
}

/// An offer is handed to a select that waits; where it waits itself, the select received it or found it too late to wait.
fn is_right(found: Found, offered: Offered) -> bool {
    match offered {
        Offered::Handed(0, USER) => found.answer == SelectAnswer::Waiting,
        Offered::Held(0) => found.answer != SelectAnswer::Waiting,
        _ => false,
    }
}

/// Whether the two come to what they may, by a thread each.
fn meet_or_miss<R: Threads + Wait + Sync + AllocGlobal>(rt: &R) -> Result<bool, Memory> {
    let alloc = rt.alloc();
    let (hub, mut main) = new_hub(alloc)?;
    let mut a = hub.split(&mut main, USER);
    let mut b = hub.split(&mut main, OTHER);
    let (found, offered) = join(
        rt,
        || select_in(&hub, &mut a, alloc),
        || send_in(&hub, &mut b),
    );
    Ok(is_right(found?, offered))
}

#[test]
fn a_select_and_a_send_of_two_threads_meet_or_miss_each_other(rt: HostRuntime) -> Result<(), Fail> {
    for _ in 0..100 {
        compare(&rt, &meet_or_miss(&rt)?, &true);
    }
    Ok(())
}
