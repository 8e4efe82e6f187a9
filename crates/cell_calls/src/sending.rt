//! An element is offered, by a walk along the cells from the send counter on.
ghost use Rattle.std.specs.Prelude.{◌≡◌, false};
ghost use Rattle.channel_model.specs.Channels.{kind_at, is_signal};
ghost use Rattle.channel_model.specs.Floors.{MayCall};
ghost use Rattle.channel_model.specs.Answers.{OfferAnswer, TriedOfferAnswer};
ghost use Rattle.channel_model.specs.Laws.{NoneBelow};
ghost use Rattle.word_rules.specs.Words.{IsCell};
ghost use Rattle.cell_words.specs.Hubs.{shape_of, seen_by, IsOf, IsOwn, SameGiving};
ghost use Rattle.cell_words.specs.Seen.{at_channel};
ghost use Rattle.cell_words.specs.Answers.{Receives};
ghost use Rattle.cell_calls.specs.HubFloors.{hub_floor};
ghost use Rattle.cell_calls.specs.Walks.{GivenAt, OfferWalked};

use crate::ending::find_closed;
use crate::way::Way;
use cell_words::{
    At, Hub, Pass, Waiter, hand, offer_at, places_of, raise_sends, receiver_stands, sends_from,
};
use channel_model::{Offered, TriedOffer};
use co_base::{ChannelId, Place, Tag, Value};

/// What came of a receiver that was found.
pub(crate) enum Given {
    /// It was handed the element; its coroutine.
    Receiver(Tag),
    /// The channel was closed, so that nobody may be handed an element by this call.
    Closed(Value),
    /// Its wait was resolved by another.
    Gone,
}

/// What a walk of one who offers came to.
pub(crate) enum OfferWalk {
    Handed(Place, Tag),
    Put(Place),
    Held(Place),
    /// The channel was full, and the caller does not wait.
    Full,
    Closed(Value),
    Spent,
}

/// Gives the element to the receiver at a place. It has to know that the channel was open, since a receiver may stand after a close.
#[inline(always)]
fn give(
    hub: &Hub,
    pass: &mut Pass,
    who: Tag,
    c: ChannelId,
    place: Place,
    value: Value,
    waiter: Waiter,
) -> Given
    requires own { IsOwn hub.now pass.old who }
    requires at { IsCell (shape_of hub.now) c place }
    requires kind { is_signal (kind_at (shape_of hub.now) c) ≡ false }
    requires low { NoneBelow place 0 (at_channel (seen_by pass.old).seen c) }
    requires first { Receives (shape_of hub.now) c place waiter (seen_by pass.old).seen }
    ensures own { IsOwn hub.now pass.new who }
    ensures given { GivenAt who c place value (seen_by pass.old) (seen_by pass.new) result }
{
    if !receiver_stands(hub, pass, who, c, place, waiter) {
        return Given::Gone;
    }
    match find_closed(hub, pass, who, c) {
        Some(v) => Given::Closed(v),
        None => match hand(hub, pass, who, c, place, value, waiter) {
            Some(owner) => Given::Receiver(owner),
            None => Given::Gone,
        },
    }
}

/// Gives the element to the receiver that stands first, or puts it, or places an offer if the caller may wait; and which places the walk
/// passed.
#[inline(always)]
fn walk_cells(
    hub: &Hub,
    pass: &mut Pass,
    who: Tag,
    c: ChannelId,
    value: Value,
    waits: bool,
) -> (OfferWalk, Way)
    requires of { IsOf hub.now pass.old }
    requires can { MayCall who c (hub_floor hub.now pass.old) }
    requires kind { is_signal (kind_at (shape_of hub.now) c) ≡ false }
    ensures own { IsOwn hub.now pass.new who }
    ensures giving { SameGiving pass.old pass.new }
    ensures low { NoneBelow result.1.to 0 (at_channel (seen_by pass.new).seen c) }
    ensures walked { OfferWalked waits who c value (hub_floor hub.now pass.old) (hub_floor hub.now pass.new) result.0 }
{
    let places = places_of(hub, c);
    let from = sends_from(hub, pass, who, c);
    for place in from..places + 1 {
        let here = Way { from, to: place };
        let past = Way {
            from,
            to: place + 1,
        };
        match offer_at(hub, pass, who, c, place, value, waits) {
            At::Placed => return (OfferWalk::Held(place), past),
            At::Put => return (OfferWalk::Put(place), past),
            At::Waiting(waiter) => match give(hub, pass, who, c, place, value, waiter) {
                Given::Receiver(owner) => return (OfferWalk::Handed(place, owner), past),
                Given::Closed(v) => return (OfferWalk::Closed(v), here),
                Given::Gone => {}
            },
            At::Open => return (OfferWalk::Full, here),
            At::Closed(v) => return (OfferWalk::Closed(v), here),
            At::Spent => return (OfferWalk::Spent, here),
            At::Kept(_) => unreachable!(),
            At::Gone => {}
        }
    }
    unreachable!()
}

/// Offers by a walk, and raises the send counter past the places where nobody receives any more.
#[inline(always)]
fn walk(hub: &Hub, pass: &mut Pass, who: Tag, c: ChannelId, value: Value, waits: bool) -> OfferWalk
    requires of { IsOf hub.now pass.old }
    requires can { MayCall who c (hub_floor hub.now pass.old) }
    requires kind { is_signal (kind_at (shape_of hub.now) c) ≡ false }
    ensures of { IsOf hub.now pass.new }
    ensures giving { SameGiving pass.old pass.new }
    ensures walked { OfferWalked waits who c value (hub_floor hub.now pass.old) (hub_floor hub.now pass.new) result }
{
    let (walked, way) = walk_cells(hub, pass, who, c, value, waits);
    raise_sends(hub, pass, who, c, way.from, way.to);
    walked
}

/// Gives the element to the receiver that stands first, or places it.
pub fn offer(hub: &Hub, pass: &mut Pass, who: Tag, c: ChannelId, value: Value) -> Offered
    requires of { IsOf hub.now pass.old }
    requires can { MayCall who c (hub_floor hub.now pass.old) }
    requires kind { is_signal (kind_at (shape_of hub.now) c) ≡ false }
    ensures of { IsOf hub.now pass.new }
    ensures giving { SameGiving pass.old pass.new }
    ensures answer { OfferAnswer who c value (hub_floor hub.now pass.old) (hub_floor hub.now pass.new) result }
{
    match walk(hub, pass, who, c, value, true) {
        OfferWalk::Handed(place, owner) => Offered::Handed(place, owner),
        OfferWalk::Put(place) => Offered::Put(place),
        OfferWalk::Held(place) => Offered::Held(place),
        OfferWalk::Full => unreachable!(),
        OfferWalk::Closed(v) => Offered::Closed(v),
        OfferWalk::Spent => Offered::Spent,
    }
}

/// Gives the element to the receiver that stands first, or places it if it need not wait.
pub fn try_offer(hub: &Hub, pass: &mut Pass, who: Tag, c: ChannelId, value: Value) -> TriedOffer
    requires of { IsOf hub.now pass.old }
    requires can { MayCall who c (hub_floor hub.now pass.old) }
    requires kind { is_signal (kind_at (shape_of hub.now) c) ≡ false }
    ensures of { IsOf hub.now pass.new }
    ensures giving { SameGiving pass.old pass.new }
    ensures answer { TriedOfferAnswer who c value (hub_floor hub.now pass.old) (hub_floor hub.now pass.new) result }
{
    match walk(hub, pass, who, c, value, false) {
        OfferWalk::Handed(place, owner) => TriedOffer::Handed(place, owner),
        OfferWalk::Put(place) => TriedOffer::Put(place),
        OfferWalk::Held(_) => unreachable!(),
        OfferWalk::Full => TriedOffer::Full,
        OfferWalk::Closed(v) => TriedOffer::Closed(v),
        OfferWalk::Spent => TriedOffer::Spent,
    }
}
