//! A select's clause is placed, by a walk along the cells, unless the other side stands. The select's own wait is looked at first.
ghost use Rattle.std.specs.Prelude.{◌≡◌, true};
ghost use Rattle.channel_model.specs.Channels.{kind_at, suspends};
ghost use Rattle.channel_model.specs.Floors.{MayCall};
ghost use Rattle.channel_model.specs.Laws.{NoneBelow};
ghost use Rattle.channel_model.specs.Registers.{MayRegister, RegisterOfferAnswer, RegisterReceiveAnswer};
ghost use Rattle.cell_words.specs.Hubs.{shape_of, seen_by, IsOf, IsOwn, SameGiving};
ghost use Rattle.cell_words.specs.Seen.{Sees, at_channel};
ghost use Rattle.cell_calls.specs.HubFloors.{hub_floor};
ghost use Rattle.cell_calls.specs.Registrations.{IsOwnMain, MainAnswer, StandingFirst};

use crate::way::Way;
use cell_words::{
    At, Hub, Pass, await_clause_at, look_at, offer_clause_at, offer_stands, places_of,
    raise_receives, raise_sends, receiver_stands, receives_from, sends_from,
};
use channel_model::{Registered, WaitState};
use co_base::{ChannelId, Tag, Value, WaitId};

/// Whether the select's wait was resolved, if it has one.
fn is_resolved(hub: &Hub, pass: &mut Pass, who: Tag, main: Option<WaitId>) -> bool
    requires own { IsOwn hub.now pass.old who }
    requires main { IsOwnMain (shape_of hub.now) who main (seen_by pass.old).seen }
    ensures own { IsOwn hub.now pass.new who }
    ensures sees { Sees (seen_by pass.old) (seen_by pass.new) }
    ensures resolved { MainAnswer main (hub_floor hub.now pass.new) result }
{
    match main {
        None => false,
        Some(w) => match look_at(hub, pass, who, w) {
            WaitState::Standing => false,
            WaitState::Resolved => true,
            WaitState::Settled => true,
        },
    }
}

/// Places a clause that offers, unless a receiver stands; and which places the walk passed.
fn walk_to_offer(
    hub: &Hub,
    pass: &mut Pass,
    who: Tag,
    main: Option<WaitId>,
    clause: u8,
    c: ChannelId,
    value: Value,
) -> (Registered, Way)
    requires of { IsOf hub.now pass.old }
    requires can { MayCall who c (hub_floor hub.now pass.old) }
    requires kind { suspends (kind_at (shape_of hub.now) c) ≡ true }
    requires joins { MayRegister who clause c main (hub_floor hub.now pass.old) }
    ensures own { IsOwn hub.now pass.new who }
    ensures giving { SameGiving pass.old pass.new }
    ensures low { NoneBelow result.1.to 0 (at_channel (seen_by pass.new).seen c) }
    ensures answer { RegisterOfferAnswer who main clause c value (hub_floor hub.now pass.old) (hub_floor hub.now pass.new) result.0 }
    ensures first { StandingFirst who main (hub_floor hub.now pass.old) (hub_floor hub.now pass.new) result.0 }
{
    if is_resolved(hub, pass, who, main) {
        return (Registered::Resolved, Way { from: 0, to: 0 });
    }
    let places = places_of(hub, c);
    let from = sends_from(hub, pass, who, c);
    for place in from..places + 1 {
        let here = Way { from, to: place };
        let past = Way {
            from,
            to: place + 1,
        };
        match offer_clause_at(hub, pass, who, main, clause, c, place, value) {
            At::Placed => return (Registered::Stands(place), past),
            At::Waiting(waiter) => {
                if receiver_stands(hub, pass, who, c, place, waiter) {
                    return (Registered::Partner(place), here);
                }
            }
            At::Closed(v) => return (Registered::Closed(v), here),
            At::Spent => return (Registered::Spent, here),
            At::Open | At::Put | At::Kept(_) => unreachable!(),
            At::Gone => {}
        }
    }
    unreachable!()
}

/// Places a clause that offers, unless a receiver stands.
pub fn register_offer(
    hub: &Hub,
    pass: &mut Pass,
    who: Tag,
    main: Option<WaitId>,
    clause: u8,
    c: ChannelId,
    value: Value,
) -> Registered
    requires of { IsOf hub.now pass.old }
    requires can { MayCall who c (hub_floor hub.now pass.old) }
    requires kind { suspends (kind_at (shape_of hub.now) c) ≡ true }
    requires joins { MayRegister who clause c main (hub_floor hub.now pass.old) }
    ensures of { IsOf hub.now pass.new }
    ensures giving { SameGiving pass.old pass.new }
    ensures answer { RegisterOfferAnswer who main clause c value (hub_floor hub.now pass.old) (hub_floor hub.now pass.new) result }
    ensures first { StandingFirst who main (hub_floor hub.now pass.old) (hub_floor hub.now pass.new) result }
{
    let (registered, way) = walk_to_offer(hub, pass, who, main, clause, c, value);
    raise_sends(hub, pass, who, c, way.from, way.to);
    registered
}

/// Places a clause that receives, unless an offer stands; and which places the walk passed.
fn walk_to_receive(
    hub: &Hub,
    pass: &mut Pass,
    who: Tag,
    main: Option<WaitId>,
    clause: u8,
    c: ChannelId,
) -> (Registered, Way)
    requires of { IsOf hub.now pass.old }
    requires can { MayCall who c (hub_floor hub.now pass.old) }
    requires joins { MayRegister who clause c main (hub_floor hub.now pass.old) }
    ensures own { IsOwn hub.now pass.new who }
    ensures giving { SameGiving pass.old pass.new }
    ensures low { NoneBelow 0 result.1.to (at_channel (seen_by pass.new).seen c) }
    ensures answer { RegisterReceiveAnswer who main clause c (hub_floor hub.now pass.old) (hub_floor hub.now pass.new) result.0 }
    ensures first { StandingFirst who main (hub_floor hub.now pass.old) (hub_floor hub.now pass.new) result.0 }
{
    if is_resolved(hub, pass, who, main) {
        return (Registered::Resolved, Way { from: 0, to: 0 });
    }
    let places = places_of(hub, c);
    let from = receives_from(hub, pass, who, c);
    for place in from..places + 1 {
        let here = Way { from, to: place };
        let past = Way {
            from,
            to: place + 1,
        };
        match await_clause_at(hub, pass, who, main, clause, c, place) {
            At::Placed => return (Registered::Stands(place), past),
            At::Waiting(_) => {
                if offer_stands(hub, pass, who, c, place) {
                    return (Registered::Partner(place), here);
                }
            }
            At::Kept(_) => return (Registered::Partner(place), here),
            At::Closed(v) => return (Registered::Closed(v), here),
            At::Spent => return (Registered::Spent, here),
            At::Open | At::Put => unreachable!(),
            At::Gone => {}
        }
    }
    unreachable!()
}

/// Places a clause that receives, unless an offer stands.
pub fn register_receive(
    hub: &Hub,
    pass: &mut Pass,
    who: Tag,
    main: Option<WaitId>,
    clause: u8,
    c: ChannelId,
) -> Registered
    requires of { IsOf hub.now pass.old }
    requires can { MayCall who c (hub_floor hub.now pass.old) }
    requires joins { MayRegister who clause c main (hub_floor hub.now pass.old) }
    ensures of { IsOf hub.now pass.new }
    ensures giving { SameGiving pass.old pass.new }
    ensures answer { RegisterReceiveAnswer who main clause c (hub_floor hub.now pass.old) (hub_floor hub.now pass.new) result }
    ensures first { StandingFirst who main (hub_floor hub.now pass.old) (hub_floor hub.now pass.new) result }
{
    let (registered, way) = walk_to_receive(hub, pass, who, main, clause, c);
    raise_receives(hub, pass, who, c, way.from, way.to);
    registered
}
