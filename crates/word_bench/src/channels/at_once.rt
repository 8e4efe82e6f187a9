//! Four coroutines on two channels of a hub, at work on one, two or four threads at once.
ghost use Rattle.std.specs.Prelude.{◌≡◌, ◌≤◌, false, [], ◌∷◌};
ghost use Rattle.channel_model.specs.Channels.{is_signal};
ghost use Rattle.cell_words.specs.Hubs.{IsOf, IsOwn, GivesTags};
ghost use Rattle.word_bench.specs.Channels.{CarryElements};

use crate::channels::apart::{receive_next, send};
use crate::channels::on_passes::{new_hub, offer, receive};
use crate::channels::waits::select;
use crate::shares::{Worker, count, done_by_four, value_of};
use crate::told::{Done, now};
use cell_words::{Hub, Pass};
use channel_model::{Got, Kind, Offered};
use co_base::{Tag, Value};
use std::alloc::AllocGlobal;
use std::sync::Wait;
use std::thread::Threads;
use std::time::Clock;

/// What is done in each turn.
#[derive(Clone, Copy)]
pub(crate) enum Work {
    /// An offer and a receive.
    Both,
    /// A send that waits for its receiver or for room.
    Sends,
    /// A receive that waits for its element.
    Receives,
    /// A select that receives from both channels, and an offer on one of them.
    Selects,
}

/// A coroutine, and what it does.
#[derive(Drop)]
struct Coroutine {
    pass: Pass,
    who: Tag,
    work: Work,
}

fn offers(hub: &Hub, pass: &mut Pass, who: Tag, value: Value) -> bool
    requires channels { CarryElements hub.now }
    requires own { IsOwn hub.now pass.old who }
    ensures own { IsOwn hub.now pass.new who }
{
    matches!(offer(hub, pass, who, 0, value), Offered::Handed(_, _))
}

/// Offers on one of both channels.
fn offers_on_one(hub: &Hub, pass: &mut Pass, who: Tag, value: Value) -> bool
    requires channels { CarryElements hub.now }
    requires own { IsOwn hub.now pass.old who }
    ensures own { IsOwn hub.now pass.new who }
{
    if value % 2 == 0 {
        return offers(hub, pass, who, value);
    }
    matches!(offer(hub, pass, who, 1, value), Offered::Handed(_, _))
}

fn offers_and_receives(hub: &Hub, pass: &mut Pass, who: Tag, value: Value) -> Option<u64>
    requires channels { CarryElements hub.now }
    requires own { IsOwn hub.now pass.old who }
    ensures own { IsOwn hub.now pass.new who }
{
    let handed = offers(hub, pass, who, value);
    let taken = matches!(receive(hub, pass, who), Got::Taken(_, _, _));
    count(handed, taken)
}

fn selects_and_offers(hub: &Hub, pass: &mut Pass, who: Tag, value: Value) -> Option<u64>
    requires channels { CarryElements hub.now }
    requires own { IsOwn hub.now pass.old who }
    ensures own { IsOwn hub.now pass.new who }
{
    let taken = select(hub, pass, who);
    let handed = offers_on_one(hub, pass, who, value);
    count(taken, handed)
}

impl Worker for Coroutine {
    type Floor = Hub;

    ghost can_work = { λ hub one. CarryElements hub × IsOwn hub one.pass one.who };

    /// How many transfers the turn counts. One whose wait was given up makes no more: its partner will not come.
    fn turn(&mut self, hub: &Hub, number: u64) -> Option<u64> {
        let (who, value) = (self.who, value_of(number));
        match self.work {
            Work::Both => offers_and_receives(hub, &mut self.pass, who, value),
            Work::Sends => send(hub, &mut self.pass, who, value),
            Work::Receives => receive_next(hub, &mut self.pass, who),
            Work::Selects => selects_and_offers(hub, &mut self.pass, who, value),
        }
    }
}

fn new_coroutine(pass: Pass, who: Tag, work: Work) -> Coroutine
    ensures { (result.pass ≡ pass) × (result.who ≡ who) }
{
    Coroutine { pass, who, work }
}

/// Four coroutines, of whom two do the first work and two the other.
fn four_of(
    hub: &Hub,
    main: &mut Pass,
    work: (Work, Work),
) -> ((Coroutine, Coroutine), (Coroutine, Coroutine))
    requires of { IsOf hub.now main.old }
    requires gives { GivesTags (0 ∷ []) main.old }
    ensures a { IsOwn hub.now result.0.0.pass result.0.0.who }
    ensures b { IsOwn hub.now result.0.1.pass result.0.1.who }
    ensures c { IsOwn hub.now result.1.0.pass result.1.0.who }
    ensures d { IsOwn hub.now result.1.1.pass result.1.1.who }
{
    let a = hub.split(main, 1);
    let b = hub.split(main, 2);
    let c = hub.split(main, 3);
    let d = hub.split(main, 4);
    let left = (new_coroutine(a, 1, work.0), new_coroutine(b, 2, work.0));
    (
        left,
        (new_coroutine(c, 3, work.1), new_coroutine(d, 4, work.1)),
    )
}

/// The kind of a channel that keeps so many elements, or all.
pub(crate) fn kind_that_keeps(kept: Option<u32>) -> Kind
    ensures { is_signal result ≡ false }
{
    match kept {
        Some(0) => Kind::Rendezvous,
        Some(kept) => Kind::Buffered(kept),
        None => Kind::Unlimited,
    }
}

/// How many transfers four coroutines count in so many turns, on two channels that keep so many elements and have so many places each, by
/// so many threads, which are none, one, two or four.
pub(crate) fn met_by_four<R: Threads + Wait + Sync + Clock + AllocGlobal>(
    rt: &R,
    kept: Option<u32>,
    places: u32,
    work: (Work, Work),
    times: (u64, u64),
    threads: u32,
) -> Done
    requires places { (1 ≤ places) × (places ≤ 1048576) }
{
    let kind = kind_that_keeps(kept);
    let Ok((hub, mut main)) = new_hub(rt.alloc(), kind, places, places) else {
        return None;
    };
    let four = four_of(&hub, &mut main, work);
    let begun = now(rt);
    let met = done_by_four(rt, threads, &hub, four, times);
    Some((met, begun))
}
