//! Sends and receives that wait, for those that have threads of their own.
ghost use Rattle.std.specs.Prelude.{◌≡◌, true};
ghost use Rattle.channel_model.specs.declared.floor.WaitState.TheVariants as wait;
ghost use Rattle.cell_words.specs.Hubs.{IsOwn};
ghost use Rattle.word_bench.specs.Channels.{CarryElements};
ghost use Rattle.word_bench.specs.Waits.{HoldsWait, HoldsOffer, IsReadyAt};

use crate::channels::on_passes::{admit, mark, offer, receive};
use cell_words::{Hub, Pass};
use channel_model::{Got, Offered, Settled, WaitState};
use co_base::{Place, Tag, Value, WaitId};
use std::hint::spin_loop;
use std::thread::yield_now;

/// How often a wait is looked at before it is given up: for seconds, while the thread has a processor.
const LOOKS: u32 = 10_000_000;

/// Between two looks a thread spins, each time twice as long, and from the eighth look on it gives the processor to others.
fn pause(look: u32) {
    if look > 6 {
        yield_now();
        return;
    }
    for _ in 0..1u32 << look {
        spin_loop();
    }
}

/// Whether a wait of this state was resolved, and not settled.
fn is_end(state: WaitState) -> bool
    ensures { result ≡ true → state ≡ wait.Resolved }
{
    match state {
        WaitState::Resolved => true,
        WaitState::Standing | WaitState::Settled => false,
    }
}

/// Whether the own wait was resolved.
fn is_resolved(hub: &Hub, pass: &mut Pass, who: Tag, place: Place) -> bool
    requires channels { CarryElements hub.now }
    requires own { IsOwn hub.now pass.old who }
    requires holds { HoldsWait who 0 place pass.old }
    ensures own { IsOwn hub.now pass.new who }
    ensures holds { HoldsWait who 0 place pass.new }
    ensures ready { result ≡ true → IsReadyAt who 0 place pass.new }
{
    let w = WaitId { channel: 0, place };
    let state = cell_calls::look(hub, pass, who, w);
    is_end(state)
}

/// How the own wait ended.
fn settle_wait(hub: &Hub, pass: &mut Pass, who: Tag, place: Place) -> Settled
    requires channels { CarryElements hub.now }
    requires own { IsOwn hub.now pass.old who }
    requires ready { IsReadyAt who 0 place pass.old }
    ensures own { IsOwn hub.now pass.new who }
{
    let w = WaitId { channel: 0, place };
    cell_calls::settle(hub, pass, who, w, false)
}

/// Waits until the own wait is resolved. How it ended, unless it was given up.
fn await_end(hub: &Hub, pass: &mut Pass, who: Tag, place: Place) -> Option<Settled>
    requires channels { CarryElements hub.now }
    requires own { IsOwn hub.now pass.old who }
    requires holds { HoldsWait who 0 place pass.old }
    ensures own { IsOwn hub.now pass.new who }
{
    'looks: for look in 0..LOOKS {
        if is_resolved(hub, pass, who, place) {
            return Some(settle_wait(hub, pass, who, place));
        }
        pause(look);
    }
    None
}

/// Lets the first offer be kept for which the channel has room now.
fn admit_first(hub: &Hub, pass: &mut Pass, who: Tag, place: Place)
    requires channels { CarryElements hub.now }
    requires own { IsOwn hub.now pass.old who }
    requires plain { HoldsOffer who 0 place pass.old }
    ensures own { IsOwn hub.now pass.new who }
    ensures holds { HoldsWait who 0 place pass.new }
{
    let end = mark(hub, pass, who);
    admit(hub, pass, who, end);
}

/// Sends. Who sends counts no transfer; None: the element was not received, nor kept.
pub(crate) fn send(hub: &Hub, pass: &mut Pass, who: Tag, value: Value) -> Option<u64>
    requires channels { CarryElements hub.now }
    requires own { IsOwn hub.now pass.old who }
    ensures own { IsOwn hub.now pass.new who }
{
    match offer(hub, pass, who, 0, value) {
        Offered::Handed(_, _) | Offered::Put(_) => Some(0),
        Offered::Held(place) => {
            admit_first(hub, pass, who, place);
            sent(await_end(hub, pass, who, place))
        }
        Offered::Closed(_) | Offered::Spent => None,
    }
}

fn sent(ended: Option<Settled>) -> Option<u64> {
    match ended {
        Some(Settled::Sent(_)) => Some(0),
        _ => None,
    }
}

/// Receives. Who receives counts the transfer; None: no element came.
pub(crate) fn receive_next(hub: &Hub, pass: &mut Pass, who: Tag) -> Option<u64>
    requires channels { CarryElements hub.now }
    requires own { IsOwn hub.now pass.old who }
    ensures own { IsOwn hub.now pass.new who }
{
    match receive(hub, pass, who) {
        Got::Taken(_, _, _) => {
            let end = mark(hub, pass, who);
            admit(hub, pass, who, end);
            Some(1)
        }
        Got::Waiting(place) => came(await_end(hub, pass, who, place)),
        Got::Closed(_) | Got::Spent => None,
    }
}

fn came(ended: Option<Settled>) -> Option<u64> {
    match ended {
        Some(Settled::Value(_, _)) => Some(1),
        _ => None,
    }
}
