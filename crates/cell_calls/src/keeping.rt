//! A held offer is kept from now on. Where more stand than the channel keeps, the oldest element is dropped, or the own one is not kept.
ghost use Rattle.std.specs.Prelude.{◌≡◌, ◌<◌, MatchBool, ℕ, false, length};
ghost use Rattle.channel_model.specs.Channels.{kind_at, suspends, drops, spurns};
ghost use Rattle.channel_model.specs.Floors.{MayCall};
ghost use Rattle.channel_model.specs.Answers.{AdmitAnswer, TrimAnswer, SpurnAnswer, HasPut};
ghost use Rattle.cell_words.specs.Hubs.{shape_of, IsOf, SameGiving};
ghost use Rattle.cell_calls.specs.HubFloors.{hub_floor};

use cell_words::{
    At, Hub, Pass, Removal, admit_below, is_over, kind_of, raise_receives, receives_from,
    remove_kept, sender_at, spurn_kept, try_await_at, was_too_many,
};
use co_base::{ChannelId, Place, Tag, Value};

/// Lets the first held offer below the mark be kept that may be.
pub fn admit(
    hub: &Hub,
    pass: &mut Pass,
    who: Tag,
    c: ChannelId,
    mark: Place,
) -> Option<(Place, Tag)>
    requires of { IsOf hub.now pass.old }
    requires can { MayCall who c (hub_floor hub.now pass.old) }
    ensures of { IsOf hub.now pass.new }
    ensures giving { SameGiving pass.old pass.new }
    ensures answer { AdmitAnswer who c mark (hub_floor hub.now pass.old) (hub_floor hub.now pass.new) result }
{
    admit_below(hub, pass, who, c, mark)
}

/// Whether the channel drops its oldest element, so that no send waits there.
fn drops_oldest(hub: &Hub, c: ChannelId) -> bool
    requires { c < length (shape_of hub.now) }
    ensures { MatchBool result
        (suspends (kind_at (shape_of hub.now) c) ≡ false)
        ((n : ℕ) → drops (kind_at (shape_of hub.now) c) n ≡ false) }
{
    match kind_of(hub, c).drops_beyond() {
        Some(_) => true,
        None => false,
    }
}

/// Drops the first element, if more stand up to the own one than the channel keeps.
pub fn trim(
    hub: &Hub,
    pass: &mut Pass,
    who: Tag,
    c: ChannelId,
    mine: Place,
) -> Option<(Place, Value)>
    requires of { IsOf hub.now pass.old }
    requires can { MayCall who c (hub_floor hub.now pass.old) }
    requires own { HasPut who c mine (hub_floor hub.now pass.old) }
    ensures of { IsOf hub.now pass.new }
    ensures giving { SameGiving pass.old pass.new }
    ensures answer { TrimAnswer who c mine (hub_floor hub.now pass.old) (hub_floor hub.now pass.new) result }
{
    if !drops_oldest(hub, c) {
        return None;
    }
    let from = receives_from(hub, pass, who, c);
    for first in from..mine + 1 {
        match try_await_at(hub, pass, who, c, first) {
            At::Kept(value) => {
                if !is_over(hub, pass, who, c, first, mine) {
                    return None;
                }
                if remove_kept(hub, pass, who, c, first, value, Removal::Drop) {
                    raise_receives(hub, pass, who, c, from, first + 1);
                    return Some((first, value));
                }
            }
            At::Closed(_) => return None,
            // Its own element has a place, so this does not happen; and nothing stands there either.
            At::Open => return None,
            // No send waits in a channel that drops its oldest element.
            At::Waiting(_) => unreachable!(),
            At::Spent | At::Placed | At::Put => unreachable!(),
            At::Gone => {}
        }
    }
    None
}

/// Whether the channel does not keep its latest element, so that no send waits there.
fn spurns_latest(hub: &Hub, c: ChannelId) -> bool
    requires { c < length (shape_of hub.now) }
    ensures { MatchBool result
        (suspends (kind_at (shape_of hub.now) c) ≡ false)
        ((n : ℕ) → spurns (kind_at (shape_of hub.now) c) n ≡ false) }
{
    match kind_of(hub, c).spurns_beyond() {
        Some(_) => true,
        None => false,
    }
}

/// Removes the own element, if at least as many stand before it as the channel keeps, which does not keep its latest. The element
/// was placed before they are counted: whoever stands before it then stood there when it was placed.
pub fn spurn(hub: &Hub, pass: &mut Pass, who: Tag, c: ChannelId, mine: Place) -> Option<Value>
    requires of { IsOf hub.now pass.old }
    requires can { MayCall who c (hub_floor hub.now pass.old) }
    requires own { HasPut who c mine (hub_floor hub.now pass.old) }
    ensures of { IsOf hub.now pass.new }
    ensures giving { SameGiving pass.old pass.new }
    ensures answer { SpurnAnswer who c mine (hub_floor hub.now pass.old) (hub_floor hub.now pass.new) result }
{
    if !spurns_latest(hub, c) {
        return None;
    }
    if !was_too_many(hub, pass, who, c, mine) {
        return None;
    }
    match sender_at(hub, pass, who, c, mine) {
        At::Kept(value) => {
            if spurn_kept(hub, pass, who, c, mine, value) {
                Some(value)
            } else {
                None
            }
        }
        At::Gone => None,
        // No send waits in a channel that does not keep its latest element.
        At::Waiting(_) => unreachable!(),
        // The own element has a place.
        At::Open => unreachable!(),
        At::Closed(_) => unreachable!(),
        At::Spent | At::Placed | At::Put => unreachable!(),
    }
}
