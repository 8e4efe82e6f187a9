//! Where a channel ends, that it is closed there, and that its receivers are told.
ghost use Rattle.std.specs.Prelude.{◌≡◌, ◌<◌, ◌≤◌, length};
ghost use Rattle.channel_model.specs.Floors.{MayCall};
ghost use Rattle.channel_model.specs.Answers.{CloseAnswer, MarkAnswer, WakeAnswer, IsSeenClosed};
ghost use Rattle.cell_words.specs.Hubs.{shape_of, seen_by, IsOf, IsOwn, SameGiving};
ghost use Rattle.cell_words.specs.Seen.{Sees, at_channel};
ghost use Rattle.cell_calls.specs.HubFloors.{hub_floor};

use cell_words::{
    At, End, Hub, Pass, close_at, end_at, places_of, raise_sends, receiver_at, receives_from,
    sends_from, wake,
};
use channel_model::AlreadyClosed;
use co_base::{ChannelId, Place, Tag, Value};

/// A place that the channel does not end before: the higher of the two counters.
#[inline(always)]
fn end_from(hub: &Hub, pass: &mut Pass, who: Tag, c: ChannelId) -> Place
    requires own { IsOwn hub.now pass.old who }
    requires channel { c < length (shape_of hub.now) }
    ensures own { IsOwn hub.now pass.new who }
    ensures sees { Sees (seen_by pass.old) (seen_by pass.new) }
    ensures given { result ≤ (at_channel (seen_by pass.new).seen c).next }
{
    let sends = sends_from(hub, pass, who, c);
    let receives = receives_from(hub, pass, who, c);
    if sends < receives { receives } else { sends }
}

/// Where a channel ends, by a walk from a place that it does not end before, and the value with which it was closed.
#[inline(always)]
fn find_end_from(
    hub: &Hub,
    pass: &mut Pass,
    who: Tag,
    c: ChannelId,
    from: Place,
) -> (Place, Option<Value>)
    requires own { IsOwn hub.now pass.old who }
    requires channel { c < length (shape_of hub.now) }
    requires given { from ≤ (at_channel (seen_by pass.old).seen c).next }
    ensures own { IsOwn hub.now pass.new who }
    ensures sees { Sees (seen_by pass.old) (seen_by pass.new) }
    ensures end { ((at_channel (seen_by pass.new).seen c).next ≡ result.0) × ((at_channel (seen_by pass.new).seen c).closed ≡ result.1) }
{
    let places = places_of(hub, c);
    for place in from..places + 1 {
        match end_at(hub, pass, who, c, place) {
            End::Used => {}
            End::Open => return (place, None),
            End::Closed(v) => return (place, Some(v)),
        }
    }
    unreachable!()
}

/// Where a channel ends, and the value with which it was closed.
pub(crate) fn find_end(hub: &Hub, pass: &mut Pass, who: Tag, c: ChannelId) -> (Place, Option<Value>)
    requires own { IsOwn hub.now pass.old who }
    requires channel { c < length (shape_of hub.now) }
    ensures own { IsOwn hub.now pass.new who }
    ensures sees { Sees (seen_by pass.old) (seen_by pass.new) }
    ensures end { ((at_channel (seen_by pass.new).seen c).next ≡ result.0) × ((at_channel (seen_by pass.new).seen c).closed ≡ result.1) }
{
    let from = end_from(hub, pass, who, c);
    find_end_from(hub, pass, who, c, from)
}

/// The value with which the channel was closed, if it was.
pub(crate) fn find_closed(hub: &Hub, pass: &mut Pass, who: Tag, c: ChannelId) -> Option<Value>
    requires own { IsOwn hub.now pass.old who }
    requires channel { c < length (shape_of hub.now) }
    ensures own { IsOwn hub.now pass.new who }
    ensures sees { Sees (seen_by pass.old) (seen_by pass.new) }
    ensures closed { (at_channel (seen_by pass.new).seen c).closed ≡ result }
{
    find_end(hub, pass, who, c).1
}

/// The place that the channel gives out next.
pub fn mark(hub: &Hub, pass: &mut Pass, who: Tag, c: ChannelId) -> Place
    requires of { IsOf hub.now pass.old }
    requires can { MayCall who c (hub_floor hub.now pass.old) }
    ensures of { IsOf hub.now pass.new }
    ensures giving { SameGiving pass.old pass.new }
    ensures answer { MarkAnswer who c (hub_floor hub.now pass.old) (hub_floor hub.now pass.new) result }
{
    find_end(hub, pass, who, c).0
}

/// Closes the channel where it ends, unless it was closed before.
pub fn close(
    hub: &Hub,
    pass: &mut Pass,
    who: Tag,
    c: ChannelId,
    v: Value,
) -> Result<(), AlreadyClosed>
    requires of { IsOf hub.now pass.old }
    requires can { MayCall who c (hub_floor hub.now pass.old) }
    ensures of { IsOf hub.now pass.new }
    ensures giving { SameGiving pass.old pass.new }
    ensures answer { CloseAnswer who c v (hub_floor hub.now pass.old) (hub_floor hub.now pass.new) result }
{
    let places = places_of(hub, c);
    let from = end_from(hub, pass, who, c);
    for place in from..places + 1 {
        match close_at(hub, pass, who, c, place, v) {
            End::Used => {}
            End::Open => return Ok(()),
            End::Closed(first) => return Err(AlreadyClosed { v: first }),
        }
    }
    unreachable!()
}

/// Tells the first receiver of a channel that was closed.
pub fn wake_closed(hub: &Hub, pass: &mut Pass, who: Tag, c: ChannelId) -> Option<(Place, Tag)>
    requires of { IsOf hub.now pass.old }
    requires can { MayCall who c (hub_floor hub.now pass.old) }
    requires closed { IsSeenClosed c (hub_floor hub.now pass.old) }
    ensures of { IsOf hub.now pass.new }
    ensures giving { SameGiving pass.old pass.new }
    ensures answer { WakeAnswer who c (hub_floor hub.now pass.old) (hub_floor hub.now pass.new) result }
{
    let value = match find_closed(hub, pass, who, c) {
        Some(value) => value,
        None => unreachable!(),
    };
    let places = places_of(hub, c);
    let from = sends_from(hub, pass, who, c);
    for place in from..places + 1 {
        match receiver_at(hub, pass, who, c, place) {
            At::Waiting(waiter) => match wake(hub, pass, who, c, place, value, waiter) {
                Some(owner) => {
                    raise_sends(hub, pass, who, c, from, place + 1);
                    return Some((place, owner));
                }
                None => {}
            },
            At::Closed(_) => {
                raise_sends(hub, pass, who, c, from, place);
                return None;
            }
            At::Open => unreachable!(),
            At::Spent | At::Placed | At::Put | At::Kept(_) => unreachable!(),
            At::Gone => {}
        }
    }
    unreachable!()
}
