//! To send, to receive and to close.
ghost use Rattle.std.specs.Prelude.{◌≡◌};
ghost use Rattle.parcel_channel.specs.Hubs.{IsOf, SamePass, seen_by, floor_by};
ghost use Rattle.waiting.specs.Waits.{SendEndsAs, IsReceived, ReceiveEndsAs, SentAsleep, GotAsleep};

use crate::resting::{end_asleep, wake, wake_set};
use co_base::Value;
use parcel_channel::{ParcelGot, ParcelHub, ParcelPass, ParcelSent, ParcelSettled};
use ring_bridge::Bells;
use std::sync::Wait;

/// Why a value was not sent.
#[derive(Drop)]
pub enum SendFault<T> {
    /// The channel is closed with this value; what was to be sent comes back.
    Closed(T, Value),
    /// The channel has no place left.
    Spent(T),
    /// No parcel number is left.
    NoParcel(T),
    /// It was not sent, and its slot held no value.
    Lost,
    /// It waited, and its wait ended so: as `Cancelled` where its channel was cancelled meanwhile.
    Ended(ParcelSettled<T>),
}

/// Why no value was received.
#[derive(Clone, Copy, Debug, PartialEq, Eq)]
pub enum ReceiveFault {
    /// The channel is closed with this value, and nothing is left in it. A channel is closed before it is cancelled, so one that was
    /// cancelled answers this too, and the value is the cause.
    Closed(Value),
    /// The channel has no place left.
    Spent,
    /// The slot of the number that was received held no value.
    Lost,
}

/// How a send ends whose wait ended so.
fn send_end<T>(settled: ParcelSettled<T>) -> Result<(), SendFault<T>>
    ensures ends { SendEndsAs settled result }
{
    match settled {
        ParcelSettled::Sent => Ok(()),
        ParcelSettled::Value(value) => Err(SendFault::Ended(ParcelSettled::Value(value))),
        ParcelSettled::Closed(v) => Err(SendFault::Ended(ParcelSettled::Closed(v))),
        ParcelSettled::Cancelled(value) => Err(SendFault::Ended(ParcelSettled::Cancelled(value))),
        ParcelSettled::Undelivered(value) => Err(SendFault::Ended(ParcelSettled::Undelivered(
            value,
        ))),
        ParcelSettled::Lost => Err(SendFault::Ended(ParcelSettled::Lost)),
    }
}

/// How a receive ends whose wait ended so.
fn receive_end<T>(settled: ParcelSettled<T>) -> Result<T, ReceiveFault>
    requires received { IsReceived settled }
    ensures ends { ReceiveEndsAs settled result }
{
    match settled {
        ParcelSettled::Value(value) => Ok(value),
        ParcelSettled::Closed(v) => Err(ReceiveFault::Closed(v)),
        ParcelSettled::Lost => Err(ReceiveFault::Lost),
        ParcelSettled::Sent => unreachable!(),
        ParcelSettled::Cancelled(_) => unreachable!(),
        ParcelSettled::Undelivered(_) => unreachable!(),
    }
}

/// Sends the value; sleeps while it waits for its receiver.
pub fn send<T, R: Wait>(
    rt: &R,
    hub: &ParcelHub<T>,
    bells: &Bells,
    pass: &mut ParcelPass<T>,
    value: T,
) -> Result<(), SendFault<T>>
    requires of { IsOf hub.now pass.old }
    ensures of { IsOf hub.now pass.new }
    ensures same { SamePass pass.old pass.new }
    ensures sent { SentAsleep hub.now.parcels pass.old.tag value (seen_by pass.old) (seen_by pass.new)
        (floor_by hub.now pass.old) (floor_by hub.now pass.new) result }
{
    match hub.send(pass, value) {
        ParcelSent::Sent(to, admitted) => {
            wake(bells, to, admitted);
            Ok(())
        }
        ParcelSent::Waits(wait, admitted) => {
            wake_set(bells, admitted);
            let settled = end_asleep(rt, hub, bells, pass, wait);
            send_end(settled)
        }
        ParcelSent::Closed(back, v) => Err(SendFault::Closed(back, v)),
        ParcelSent::Spent(back) => Err(SendFault::Spent(back)),
        ParcelSent::NoParcel(back) => Err(SendFault::NoParcel(back)),
        ParcelSent::Lost => Err(SendFault::Lost),
    }
}

/// Receives the next value; sleeps while there is none.
pub fn receive<T, R: Wait>(
    rt: &R,
    hub: &ParcelHub<T>,
    bells: &Bells,
    pass: &mut ParcelPass<T>,
) -> Result<T, ReceiveFault>
    requires of { IsOf hub.now pass.old }
    ensures of { IsOf hub.now pass.new }
    ensures same { SamePass pass.old pass.new }
    ensures got { GotAsleep hub.now.parcels pass.old.tag (seen_by pass.old) (seen_by pass.new)
        (floor_by hub.now pass.old) (floor_by hub.now pass.new) result }
{
    match hub.receive(pass) {
        ParcelGot::Value(value, from, admitted) => {
            wake(bells, from, admitted);
            Ok(value)
        }
        ParcelGot::Waits(wait) => {
            let settled = end_asleep(rt, hub, bells, pass, wait);
            receive_end(settled)
        }
        ParcelGot::Closed(v) => Err(ReceiveFault::Closed(v)),
        ParcelGot::Spent => Err(ReceiveFault::Spent),
        ParcelGot::Lost(from, admitted) => {
            wake(bells, from, admitted);
            Err(ReceiveFault::Lost)
        }
    }
}
