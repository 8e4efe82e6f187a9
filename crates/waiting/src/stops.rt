//! A wait is given up.
ghost use Rattle.std.specs.Prelude.{◌≡◌};
ghost use Rattle.parcel_channel.specs.Hubs.{IsOf, SamePass, seen_by, floor_by};
ghost use Rattle.parcel_channel.specs.Numbers.{HoldsWait};
ghost use Rattle.waiting.specs.Stands.{HoldsAt};
ghost use Rattle.waiting.specs.Stops.{TakesBack, GivesUp, StopsAt, value_in};

use channel_model::Withdrawn;
use co_base::WaitId;
use parcel_channel::{ParcelHub, ParcelPass, ParcelSettled};

/// Takes the own wait back, unless it was resolved before.
fn take_back<T>(hub: &ParcelHub<T>, pass: &mut ParcelPass<T>, wait: WaitId) -> Withdrawn
    requires of { IsOf hub.now pass.old }
    requires wait { wait.channel ≡ 0 }
    requires holds { HoldsWait pass.old.tag wait (floor_by hub.now pass.old) }
    ensures of { IsOf hub.now pass.new }
    ensures back { TakesBack hub.now wait pass.old pass.new result }
{
    hub.withdraw(pass, wait)
}

/// Ends the own wait as cancelled, however it was resolved.
fn give_up<T>(hub: &ParcelHub<T>, pass: &mut ParcelPass<T>, wait: WaitId) -> ParcelSettled<T>
    requires of { IsOf hub.now pass.old }
    requires wait { wait.channel ≡ 0 }
    requires holds { HoldsWait pass.old.tag wait (floor_by hub.now pass.old) }
    ensures of { IsOf hub.now pass.new }
    ensures same { SamePass pass.old pass.new }
    ensures given_up { GivesUp hub.now.parcels pass.old.tag wait (seen_by pass.old) (seen_by pass.new)
        (floor_by hub.now pass.old) (floor_by hub.now pass.new) result }
{
    take_back(hub, pass, wait);
    hub.settle(pass, wait, true)
}

/// The value that comes back from a wait that ended so.
fn value_of<T>(settled: ParcelSettled<T>) -> Option<T>
    ensures { result ≡ value_in settled }
{
    match settled {
        ParcelSettled::Value(value) => Some(value),
        ParcelSettled::Undelivered(value) => Some(value),
        ParcelSettled::Cancelled(value) => value,
        ParcelSettled::Sent => None,
        ParcelSettled::Closed(_v) => None,
        ParcelSettled::Lost => None,
    }
}

/// Gives up the wait, if there is one. Answers the value that comes back.
pub(crate) fn stop_at<T>(
    hub: &ParcelHub<T>,
    pass: &mut ParcelPass<T>,
    wait: Option<WaitId>,
) -> Option<T>
    requires of { IsOf hub.now pass.old }
    requires held { HoldsAt hub.now pass.old wait }
    ensures of { IsOf hub.now pass.new }
    ensures same { SamePass pass.old pass.new }
    ensures stops { StopsAt wait hub.now pass.old pass.new result }
{
    match wait {
        None => None,
        Some(at) => {
            let settled = give_up(hub, pass, at);
            value_of(settled)
        }
    }
}
