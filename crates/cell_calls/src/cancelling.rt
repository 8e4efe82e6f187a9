//! A closed channel is cancelled, and emptied.
ghost use Rattle.channel_model.specs.Floors.{MayCall};
ghost use Rattle.channel_model.specs.Answers.{VoidAnswer, DrainAnswer, IsSeenClosed, IsSeenVoided};
ghost use Rattle.cell_words.specs.Hubs.{IsOf, SameGiving};
ghost use Rattle.cell_calls.specs.HubFloors.{hub_floor};

use crate::ending::find_end;
use crate::removing::remove_offer;
use cell_words::{
    At, Hub, Pass, Removal, places_of, raise_receives, receives_from, remove_kept, try_await_at,
    void_at,
};
use co_base::{ChannelId, Place, Tag, Value};

/// Cancels a channel that was closed, unless it was cancelled before.
pub fn void(hub: &Hub, pass: &mut Pass, who: Tag, c: ChannelId) -> bool
    requires of { IsOf hub.now pass.old }
    requires can { MayCall who c (hub_floor hub.now pass.old) }
    requires closed { IsSeenClosed c (hub_floor hub.now pass.old) }
    ensures of { IsOf hub.now pass.new }
    ensures giving { SameGiving pass.old pass.new }
    ensures answer { VoidAnswer who c (hub_floor hub.now pass.old) (hub_floor hub.now pass.new) result }
{
    let (place, closed) = find_end(hub, pass, who, c);
    match closed {
        Some(v) => void_at(hub, pass, who, c, place, v),
        None => unreachable!(),
    }
}

/// Removes the first offer of a channel that was cancelled.
pub fn drain(
    hub: &Hub,
    pass: &mut Pass,
    who: Tag,
    c: ChannelId,
) -> Option<(Place, Value, Option<Tag>)>
    requires of { IsOf hub.now pass.old }
    requires can { MayCall who c (hub_floor hub.now pass.old) }
    requires voided { IsSeenVoided c (hub_floor hub.now pass.old) }
    ensures of { IsOf hub.now pass.new }
    ensures giving { SameGiving pass.old pass.new }
    ensures answer { DrainAnswer who c (hub_floor hub.now pass.old) (hub_floor hub.now pass.new) result }
{
    let places = places_of(hub, c);
    let from = receives_from(hub, pass, who, c);
    for place in from..places + 1 {
        match try_await_at(hub, pass, who, c, place) {
            At::Waiting(waiter) => match remove_offer(
                hub,
                pass,
                who,
                c,
                place,
                waiter,
                Removal::Drain,
            ) {
                Some(owner) => {
                    raise_receives(hub, pass, who, c, from, place + 1);
                    return Some((place, waiter.value, owner));
                }
                None => {}
            },
            At::Kept(value) => {
                if remove_kept(hub, pass, who, c, place, value, Removal::Drain) {
                    raise_receives(hub, pass, who, c, from, place + 1);
                    return Some((place, value, None));
                }
            }
            At::Closed(_) => {
                raise_receives(hub, pass, who, c, from, place);
                return None;
            }
            // What was cancelled was closed, so this does not happen; and nothing stands there either.
            At::Open => return None,
            At::Spent | At::Placed | At::Put => unreachable!(),
            At::Gone => {}
        }
    }
    unreachable!()
}
