//! The first offer is received, by a walk along the cells from the receive counter on.
ghost use Rattle.channel_model.specs.Floors.{MayCall};
ghost use Rattle.channel_model.specs.Answers.{GotAnswer, TriedGotAnswer};
ghost use Rattle.channel_model.specs.Laws.{NoneBelow};
ghost use Rattle.word_rules.specs.Words.{IsCell};
ghost use Rattle.cell_words.specs.Hubs.{shape_of, seen_by, IsOf, IsOwn, SameGiving};
ghost use Rattle.cell_words.specs.Seen.{at_channel};
ghost use Rattle.cell_calls.specs.HubFloors.{hub_floor};
ghost use Rattle.cell_calls.specs.Walks.{ReceiveHere, ReceiveWalked};

use crate::removing::remove_offer;
use crate::way::Way;
use cell_words::{
    At, Hub, Pass, Removal, await_at, places_of, raise_receives, receives_from, remove_kept,
    try_await_at,
};
use channel_model::{Got, TriedGot};
use co_base::{ChannelId, Place, Tag, Value};

/// What a walk of one who receives came to.
pub(crate) enum ReceiveWalk {
    Taken(Place, Value, Option<Tag>),
    Waiting(Place),
    /// The open channel was empty, and the caller does not wait.
    Empty,
    Closed(Value),
    Spent,
}

/// What is at a place; the receiver is placed where the channel ends, if it may wait.
#[inline(always)]
fn await_here(hub: &Hub, pass: &mut Pass, who: Tag, c: ChannelId, place: Place, waits: bool) -> At
    requires own { IsOwn hub.now pass.old who }
    requires at { IsCell (shape_of hub.now) c place }
    requires low { NoneBelow 0 place (at_channel (seen_by pass.old).seen c) }
    ensures own { IsOwn hub.now pass.new who }
    ensures at { ReceiveHere waits (shape_of hub.now) who c place (seen_by pass.old) (seen_by pass.new) result }
{
    if waits {
        await_at(hub, pass, who, c, place)
    } else {
        try_await_at(hub, pass, who, c, place)
    }
}

/// Receives the first offer, or places a receiver if the caller may wait; and which places the walk passed.
#[inline(always)]
fn walk_cells(hub: &Hub, pass: &mut Pass, who: Tag, c: ChannelId, waits: bool) -> (ReceiveWalk, Way)
    requires of { IsOf hub.now pass.old }
    requires can { MayCall who c (hub_floor hub.now pass.old) }
    ensures own { IsOwn hub.now pass.new who }
    ensures giving { SameGiving pass.old pass.new }
    ensures low { NoneBelow 0 result.1.to (at_channel (seen_by pass.new).seen c) }
    ensures walked { ReceiveWalked waits who c (hub_floor hub.now pass.old) (hub_floor hub.now pass.new) result.0 }
{
    let places = places_of(hub, c);
    let from = receives_from(hub, pass, who, c);
    for place in from..places + 1 {
        let here = Way { from, to: place };
        let past = Way {
            from,
            to: place + 1,
        };
        match await_here(hub, pass, who, c, place, waits) {
            At::Placed => return (ReceiveWalk::Waiting(place), past),
            At::Waiting(waiter) => match remove_offer(
                hub,
                pass,
                who,
                c,
                place,
                waiter,
                Removal::Take,
            ) {
                Some(owner) => {
                    let taken = ReceiveWalk::Taken(place, waiter.value, owner);
                    return (taken, past);
                }
                None => {}
            },
            At::Kept(value) => {
                if remove_kept(hub, pass, who, c, place, value, Removal::Take) {
                    let taken = ReceiveWalk::Taken(place, value, None);
                    return (taken, past);
                }
            }
            At::Open => return (ReceiveWalk::Empty, here),
            At::Closed(v) => return (ReceiveWalk::Closed(v), here),
            At::Spent => return (ReceiveWalk::Spent, here),
            At::Put => unreachable!(),
            At::Gone => {}
        }
    }
    unreachable!()
}

/// Receives by a walk, and raises the receive counter past the places where no offer stands any more.
#[inline(always)]
fn walk(hub: &Hub, pass: &mut Pass, who: Tag, c: ChannelId, waits: bool) -> ReceiveWalk
    requires of { IsOf hub.now pass.old }
    requires can { MayCall who c (hub_floor hub.now pass.old) }
    ensures of { IsOf hub.now pass.new }
    ensures giving { SameGiving pass.old pass.new }
    ensures walked { ReceiveWalked waits who c (hub_floor hub.now pass.old) (hub_floor hub.now pass.new) result }
{
    let (walked, way) = walk_cells(hub, pass, who, c, waits);
    raise_receives(hub, pass, who, c, way.from, way.to);
    walked
}

/// Receives the first offer, or places a receiver.
pub fn receive(hub: &Hub, pass: &mut Pass, who: Tag, c: ChannelId) -> Got
    requires of { IsOf hub.now pass.old }
    requires can { MayCall who c (hub_floor hub.now pass.old) }
    ensures of { IsOf hub.now pass.new }
    ensures giving { SameGiving pass.old pass.new }
    ensures answer { GotAnswer who c (hub_floor hub.now pass.old) (hub_floor hub.now pass.new) result }
{
    match walk(hub, pass, who, c, true) {
        ReceiveWalk::Taken(place, value, owner) => Got::Taken(place, value, owner),
        ReceiveWalk::Waiting(place) => Got::Waiting(place),
        ReceiveWalk::Empty => unreachable!(),
        ReceiveWalk::Closed(v) => Got::Closed(v),
        ReceiveWalk::Spent => Got::Spent,
    }
}

/// Receives the first offer, where one stands.
pub fn try_receive(hub: &Hub, pass: &mut Pass, who: Tag, c: ChannelId) -> TriedGot
    requires of { IsOf hub.now pass.old }
    requires can { MayCall who c (hub_floor hub.now pass.old) }
    ensures of { IsOf hub.now pass.new }
    ensures giving { SameGiving pass.old pass.new }
    ensures answer { TriedGotAnswer who c (hub_floor hub.now pass.old) (hub_floor hub.now pass.new) result }
{
    match walk(hub, pass, who, c, false) {
        ReceiveWalk::Taken(place, value, owner) => TriedGot::Taken(place, value, owner),
        ReceiveWalk::Empty => TriedGot::Empty,
        ReceiveWalk::Waiting(_) | ReceiveWalk::Spent => unreachable!(),
        ReceiveWalk::Closed(v) => TriedGot::Closed(v),
    }
}
