//! Work of one pass: on a buffered channel that is nearly full, and behind receivers that were withdrawn.
ghost use Rattle.std.specs.Prelude.{◌≤◌};
ghost use Rattle.cell_words.specs.Hubs.{IsOwn};
ghost use Rattle.word_bench.specs.Channels.{CarryElements};

use crate::channels::at_once::kind_that_keeps;
use crate::channels::on_passes::{admit, mark, new_hub, offer, receive, try_offer};
use crate::channels::waits::withdraw;
use crate::told::{Done, now};
use cell_words::{Hub, Pass};
use channel_model::{Got, TriedOffer};
use std::alloc::AllocGlobal;
use std::time::Clock;

/// How often each of these is done.
#[derive(Clone, Copy)]
pub(crate) struct Times {
    /// Offers, before the clock runs.
    pub queued: u32,
    /// Receives that are taken back, before the clock runs.
    pub withdrawn: u32,
    pub transfers: u32,
    /// Offers that do not wait.
    pub tries: u32,
}

/// So many offers.
fn fill(hub: &Hub, pass: &mut Pass, times: u32)
    requires channels { CarryElements hub.now }
    requires own { IsOwn hub.now pass.old 0 }
    ensures own { IsOwn hub.now pass.new 0 }
{
    for i in 0..times {
        offer(hub, pass, 0, 0, i);
    }
}

/// So many transfers, each an offer, a receive and the look behind it for an offer that may be kept now. How many found an element.
fn transfer(hub: &Hub, pass: &mut Pass, times: u32) -> u32
    requires channels { CarryElements hub.now }
    requires own { IsOwn hub.now pass.old 0 }
    ensures own { IsOwn hub.now pass.new 0 }
{
    let mut met = 0u32;
    for i in 0..times {
        offer(hub, pass, 0, 0, i);
        if let Got::Taken(_, _, _) = receive(hub, pass, 0) {
            met = met.saturating_add(1);
        }
        let end = mark(hub, pass, 0);
        admit(hub, pass, 0, end);
    }
    met
}

/// So many receives that are taken back.
fn give_up(hub: &Hub, pass: &mut Pass, times: u32)
    requires channels { CarryElements hub.now }
    requires own { IsOwn hub.now pass.old 0 }
    ensures own { IsOwn hub.now pass.new 0 }
{
    for _ in 0..times {
        if let Got::Waiting(place) = receive(hub, pass, 0) {
            withdraw(hub, pass, 0, place);
        }
    }
}

/// So many offers that do not wait. How many found nobody.
fn try_offers(hub: &Hub, pass: &mut Pass, times: u32) -> u32
    requires channels { CarryElements hub.now }
    requires own { IsOwn hub.now pass.old 0 }
    ensures own { IsOwn hub.now pass.new 0 }
{
    let mut full = 0u32;
    for i in 0..times {
        if let TriedOffer::Full = try_offer(hub, pass, 0, i) {
            full = full.saturating_add(1);
        }
    }
    full
}

/// All of that on one channel that keeps so many elements and has so many places: how many transfers found an element, and offers nobody.
pub(crate) fn done_by_one<R: Clock + AllocGlobal>(
    rt: &R,
    kept: u32,
    places: u32,
    times: Times,
) -> Done
    requires places { (1 ≤ places) × (places ≤ 1048576) }
{
    let kind = kind_that_keeps(Some(kept));
    let Ok((hub, mut main)) = new_hub(rt.alloc(), kind, places, 1) else {
        return None;
    };
    fill(&hub, &mut main, times.queued);
    give_up(&hub, &mut main, times.withdrawn);
    let begun = now(rt);
    let met = transfer(&hub, &mut main, times.transfers);
    let full = try_offers(&hub, &mut main, times.tries);
    Some((u64::from(met.saturating_add(full)), begun))
}
