//! Offers, receives and closes of one pass, mostly on channel 0.
ghost use Rattle.std.specs.Prelude.{◌≡◌, ◌<◌, false, length};
ghost use Rattle.channel_model.specs.Channels.{kind_at, is_signal};
ghost use Rattle.cell_words.specs.Hubs.{shape_of, IsOwn};

use cell_calls::{close, offer, receive, wake_closed};
use cell_words::{Hub, Pass};
use channel_model::{Got, Offered};
use co_base::{ChannelId, Tag, Value};

/// Offers an element.
pub(crate) fn send(hub: &Hub, pass: &mut Pass, who: Tag, value: Value) -> Offered
    requires own { IsOwn hub.now pass.old who }
    requires channel { 0 < length (shape_of hub.now) }
    requires kind { is_signal (kind_at (shape_of hub.now) 0) ≡ false }
    ensures own { IsOwn hub.now pass.new who }
{
    offer(hub, pass, who, 0, value)
}

/// Offers two elements, and closes the channel.
pub(crate) fn send_both(hub: &Hub, pass: &mut Pass, who: Tag, first: Value, second: Value) -> bool
    requires own { IsOwn hub.now pass.old who }
    requires channel { 0 < length (shape_of hub.now) }
    requires kind { is_signal (kind_at (shape_of hub.now) 0) ≡ false }
{
    let one = send(hub, pass, who, first);
    let two = send(hub, pass, who, second);
    (one == Offered::Put(0)) & (two == Offered::Put(1)) & end(hub, pass, who, 0)
}

/// Receives, or waits.
pub(crate) fn wait(hub: &Hub, pass: &mut Pass, who: Tag) -> Got
    requires own { IsOwn hub.now pass.old who }
    requires channel { 0 < length (shape_of hub.now) }
{
    receive(hub, pass, who, 0)
}

/// Closes the channel with this value, and tells a receiver that waits there. Answers whether the channel was open.
pub(crate) fn end(hub: &Hub, pass: &mut Pass, who: Tag, v: Value) -> bool
    requires own { IsOwn hub.now pass.old who }
    requires channel { 0 < length (shape_of hub.now) }
{
    end_at(hub, pass, who, 0, v)
}

/// The same of any channel.
pub(crate) fn end_at(hub: &Hub, pass: &mut Pass, who: Tag, c: ChannelId, v: Value) -> bool
    requires own { IsOwn hub.now pass.old who }
    requires channel { c < length (shape_of hub.now) }
{
    let open = close(hub, pass, who, c, v).is_ok();
    let _told = wake_closed(hub, pass, who, c);
    open
}

/// Two passes meet, so that each has seen what the other had seen.
pub(crate) fn meet_passes(hub: &Hub, a: &mut Pass, first: Tag, b: &mut Pass, second: Tag)
    requires a { IsOwn hub.now a.old first }
    requires b { IsOwn hub.now b.old second }
    ensures a { IsOwn hub.now a.new first }
    ensures b { IsOwn hub.now b.new second }
{
    hub.meet(a, b);
    hub.meet(b, a);
}
