//! To close, so that each receiver that sleeps hears it.
ghost use Rattle.std.specs.Prelude.{◌≡◌};
ghost use Rattle.channel_model.specs.Answers.{IsSeenClosed};
ghost use Rattle.parcel_channel.specs.Hubs.{IsOf, SamePass, seen_by, floor_by};
ghost use Rattle.waiting.specs.Closes.{TellsAll, ClosesForAll};

use crate::resting::bell_of;
use channel_model::AlreadyClosed;
use co_base::Value;
use parcel_channel::{ParcelHub, ParcelPass};
use ring_bridge::Bells;

/// Tells each receiver that stands of the close, and wakes it.
fn tell_close<T>(hub: &ParcelHub<T>, bells: &Bells, pass: &mut ParcelPass<T>)
    requires of { IsOf hub.now pass.old }
    requires closed { IsSeenClosed 0 (floor_by hub.now pass.old) }
    ensures of { IsOf hub.now pass.new }
    ensures same { SamePass pass.old pass.new × (seen_by pass.new ≡ seen_by pass.old) }
    ensures told { TellsAll pass.old.tag (floor_by hub.now pass.old) (floor_by hub.now pass.new) }
{
    loop {
        match hub.wake_closed(pass) {
            None => return,
            Some(tag) => bells.ring(bell_of(tag)),
        }
    }
}

/// Closes the channel with a value, and wakes each receiver that waits. What stands there still stands.
pub fn close<T>(
    hub: &ParcelHub<T>,
    bells: &Bells,
    pass: &mut ParcelPass<T>,
    v: Value,
) -> Result<(), AlreadyClosed>
    requires of { IsOf hub.now pass.old }
    ensures of { IsOf hub.now pass.new }
    ensures same { SamePass pass.old pass.new × (seen_by pass.new ≡ seen_by pass.old) }
    ensures closed { ClosesForAll pass.old.tag v (floor_by hub.now pass.old) (floor_by hub.now pass.new) result }
{
    let closed = hub.close(pass, v);
    tell_close(hub, bells, pass);
    closed
}
