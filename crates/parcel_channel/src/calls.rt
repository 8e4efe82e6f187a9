//! To send, to receive and to settle a wait.
ghost use Rattle.std.specs.Prelude.{◌≡◌, ◌<◌, Some, None, IfSome, MatchOption};
ghost use Rattle.channel_model.specs.declared.acts.Why.TheVariants as why;
ghost use Rattle.channel_model.specs.Answers.{IsReady, IsSeenClosed, IsSeenVoided};
ghost use Rattle.channel_model.specs.Answers.{LookAnswer, WithdrawAnswer, CloseAnswer, VoidAnswer};
ghost use Rattle.channel_model.specs.declared.floor.WaitState.TheVariants as state;
ghost use Rattle.parcel_channel.specs.Seen.{SameTags};
ghost use Rattle.parcel_channel.specs.Numbers.{HoldsWait};
ghost use Rattle.parcel_channel.specs.Answers.{IsMove, IsOnly, PutAnswer, TakeAnswer};
ghost use Rattle.parcel_channel.specs.Hubs.{IsOf, SamePass, seen_by, floor_by, IsLost, NumberSent, NumberTried};
ghost use Rattle.parcel_channel.specs.Hubs.{SendAnswer, TrySendAnswer, ReceiveAnswer, TryAnswer, SettleParcel, WakeParcel, DrainParcel};

use crate::answers::{ParcelGot, ParcelOffered, ParcelSent, ParcelSettled, ParcelTried};
use crate::hub::{ParcelHub, ParcelPass};
use crate::numbers::{close, drain, look, try_offer, void, wake_closed, withdraw};
use crate::store::{put, take};
use crate::waits::{
    Ended, Placed, Received, TriedReceived, end_wait, receive_next, send, try_receive_next,
};
use channel_model::{AlreadyClosed, TriedOffer, WaitState, Withdrawn};
use co_base::{Tag, Value, WaitId};

/// Draws a number and moves the value in with it; or gives it back, where no number is left.
fn put_value<T>(hub: &ParcelHub<T>, pass: &mut ParcelPass<T>, value: T) -> Result<u32, T>
    requires of { IsOf hub.now pass.old }
    ensures of { IsOf hub.now pass.new }
    ensures same { (pass.new.tag ≡ pass.old.tag) × (pass.new.pass ≡ pass.old.pass) }
    ensures tags { SameTags (seen_by pass.old) (seen_by pass.new) }
    ensures answer { PutAnswer hub.now.parcels pass.old.tag value (seen_by pass.old) (seen_by pass.new) result }
{
    put(&hub.table.shared, &mut pass.seat, hub.parcels, value)
}

/// The value of this number, if it lies in its slot.
fn take_value<T>(hub: &ParcelHub<T>, pass: &mut ParcelPass<T>, number: Value) -> Option<T>
    requires of { IsOf hub.now pass.old }
    requires number { number < hub.now.parcels }
    ensures of { IsOf hub.now pass.new }
    ensures same { (pass.new.tag ≡ pass.old.tag) × (pass.new.pass ≡ pass.old.pass) }
    ensures tags { SameTags (seen_by pass.old) (seen_by pass.new) }
    ensures answer { TakeAnswer pass.old.tag number (seen_by pass.old) (seen_by pass.new) result }
    ensures only { IfSome result (λ value. IsOnly number value (seen_by pass.old).seen) }
{
    take(&hub.table.shared, &mut pass.seat, number)
}

/// The value of this number, if there is such a number and the value lies in its slot.
fn take_out<T>(hub: &ParcelHub<T>, pass: &mut ParcelPass<T>, number: Value) -> Option<T>
    requires of { IsOf hub.now pass.old }
    ensures of { IsOf hub.now pass.new }
    ensures same { (pass.new.tag ≡ pass.old.tag) × (pass.new.pass ≡ pass.old.pass) }
    ensures tags { SameTags (seen_by pass.old) (seen_by pass.new) }
    ensures answer { MatchOption result (IsLost hub.now.parcels pass.old.tag number (seen_by pass.old) (seen_by pass.new))
        (λ x. TakeAnswer pass.old.tag number (seen_by pass.old) (seen_by pass.new) (Some x)) }
{
    if number >= hub.parcels {
        return None;
    }
    take_value(hub, pass, number)
}

/// Offers a number whose value was moved in, as its sender has seen.
fn send_number<T>(hub: &ParcelHub<T>, pass: &mut ParcelPass<T>, number: Value) -> ParcelSent<T>
    requires of { IsOf hub.now pass.old }
    requires number { number < hub.now.parcels }
    requires moved { (x : T) × IsMove number x (seen_by pass.old).seen }
    ensures of { IsOf hub.now pass.new }
    ensures same { SamePass pass.old pass.new }
    ensures answer { NumberSent pass.old.tag number (seen_by pass.old) (seen_by pass.new)
        (floor_by hub.now pass.old) (floor_by hub.now pass.new) result }
{
    match send(&hub.hub, &mut pass.pass, pass.tag, number) {
        Placed::Handed(to) => ParcelSent::Sent(Some(to), 0),
        Placed::Kept(admitted) => ParcelSent::Sent(None, admitted),
        Placed::Waits(place, admitted) => ParcelSent::Waits(WaitId { channel: 0, place }, admitted),
        Placed::Closed(closed) => match take_value(hub, pass, number) {
            Some(value) => ParcelSent::Closed(value, closed),
            None => ParcelSent::Lost,
        },
        Placed::Spent => match take_value(hub, pass, number) {
            Some(value) => ParcelSent::Spent(value),
            None => ParcelSent::Lost,
        },
    }
}

/// Offers a number whose value was moved in, as its sender has seen, unless it would have to wait.
fn try_number<T>(hub: &ParcelHub<T>, pass: &mut ParcelPass<T>, number: Value) -> ParcelOffered<T>
    requires of { IsOf hub.now pass.old }
    requires number { number < hub.now.parcels }
    requires moved { (x : T) × IsMove number x (seen_by pass.old).seen }
    ensures of { IsOf hub.now pass.new }
    ensures same { SamePass pass.old pass.new }
    ensures answer { NumberTried pass.old.tag number (seen_by pass.old) (seen_by pass.new)
        (floor_by hub.now pass.old) (floor_by hub.now pass.new) result }
{
    match try_offer(&hub.hub, &mut pass.pass, pass.tag, number) {
        TriedOffer::Handed(_place, to) => ParcelOffered::Sent(Some(to)),
        TriedOffer::Put(_place) => ParcelOffered::Sent(None),
        TriedOffer::Full => match take_value(hub, pass, number) {
            Some(value) => ParcelOffered::Full(value),
            None => ParcelOffered::Lost,
        },
        TriedOffer::Closed(closed) => match take_value(hub, pass, number) {
            Some(value) => ParcelOffered::Closed(value, closed),
            None => ParcelOffered::Lost,
        },
        TriedOffer::Spent => match take_value(hub, pass, number) {
            Some(value) => ParcelOffered::Spent(value),
            None => ParcelOffered::Lost,
        },
    }
}

impl<T> ParcelHub<T> {
    /// Moves the value in, and sends its number; or waits. Where the channel is closed or has no place left, the value comes back.
    ///
    /// Example: `send_text` in `docs/LIBRARY.md`.
    pub fn send(&self, pass: &mut ParcelPass<T>, value: T) -> ParcelSent<T>
        requires of { IsOf self.now pass.old }
        ensures of { IsOf self.now pass.new }
        ensures same { SamePass pass.old pass.new }
        ensures answer { SendAnswer self.now.parcels pass.old.tag value (seen_by pass.old) (seen_by pass.new)
            (floor_by self.now pass.old) (floor_by self.now pass.new) result }
    {
        match put_value(self, pass, value) {
            Err(value) => ParcelSent::NoParcel(value),
            Ok(number) => send_number(self, pass, number),
        }
    }

    /// Moves the value in, and sends its number, unless it would have to wait; then, and where the channel is closed or has no place left,
    /// the value comes back. Each try draws a number, also one whose value comes back.
    pub fn try_send(&self, pass: &mut ParcelPass<T>, value: T) -> ParcelOffered<T>
        requires of { IsOf self.now pass.old }
        ensures of { IsOf self.now pass.new }
        ensures same { SamePass pass.old pass.new }
        ensures answer { TrySendAnswer self.now.parcels pass.old.tag value (seen_by pass.old) (seen_by pass.new)
            (floor_by self.now pass.old) (floor_by self.now pass.new) result }
    {
        let drawn = put_value(self, pass, value);
        match drawn {
            Err(back) => ParcelOffered::NoParcel(back),
            Ok(number) => try_number(self, pass, number),
        }
    }

    /// Settles the own wait, which was seen resolved. A value that it was handed is moved out.
    pub fn settle(
        &self,
        pass: &mut ParcelPass<T>,
        wait: WaitId,
        cancelled: bool,
    ) -> ParcelSettled<T>
        requires of { IsOf self.now pass.old }
        requires wait { wait.channel ≡ 0 }
        requires ready { IsReady pass.old.tag wait (floor_by self.now pass.old) }
        ensures of { IsOf self.now pass.new }
        ensures same { SamePass pass.old pass.new }
        ensures answer { SettleParcel self.now.parcels pass.old.tag wait cancelled (seen_by pass.old) (seen_by pass.new)
            (floor_by self.now pass.old) (floor_by self.now pass.new) result }
    {
        match end_wait(&self.hub, &mut pass.pass, pass.tag, wait, cancelled) {
            Ended::Value(number) => match take_out(self, pass, number) {
                Some(value) => ParcelSettled::Value(value),
                None => ParcelSettled::Lost,
            },
            Ended::Sent => ParcelSettled::Sent,
            Ended::Closed(value) => ParcelSettled::Closed(value),
            Ended::Withdrew(number) => match take_out(self, pass, number) {
                Some(value) => ParcelSettled::Cancelled(Some(value)),
                None => ParcelSettled::Lost,
            },
            Ended::Cancelled => ParcelSettled::Cancelled(None),
            Ended::Undelivered(number) => match take_out(self, pass, number) {
                Some(value) => ParcelSettled::Undelivered(value),
                None => ParcelSettled::Lost,
            },
        }
    }

    /// Receives a number, and moves its value out; or waits.
    ///
    /// Example: `three_texts` in `docs/LIBRARY.md`.
    pub fn receive(&self, pass: &mut ParcelPass<T>) -> ParcelGot<T>
        requires of { IsOf self.now pass.old }
        ensures of { IsOf self.now pass.new }
        ensures same { SamePass pass.old pass.new }
        ensures answer { ReceiveAnswer self.now.parcels pass.old.tag (seen_by pass.old) (seen_by pass.new)
            (floor_by self.now pass.old) (floor_by self.now pass.new) result }
    {
        match receive_next(&self.hub, &mut pass.pass, pass.tag) {
            Received::Taken(number, from, admitted) => match take_out(self, pass, number) {
                Some(value) => ParcelGot::Value(value, from, admitted),
                None => ParcelGot::Lost(from, admitted),
            },
            Received::Waiting(place) => ParcelGot::Waits(WaitId { channel: 0, place }),
            Received::Closed(value) => ParcelGot::Closed(value),
            Received::Spent => ParcelGot::Spent,
        }
    }

    /// Receives a number, if one is there, and moves its value out; never waits.
    pub fn try_receive(&self, pass: &mut ParcelPass<T>) -> ParcelTried<T>
        requires of { IsOf self.now pass.old }
        ensures of { IsOf self.now pass.new }
        ensures same { SamePass pass.old pass.new }
        ensures answer { TryAnswer self.now.parcels pass.old.tag (seen_by pass.old) (seen_by pass.new)
            (floor_by self.now pass.old) (floor_by self.now pass.new) result }
    {
        match try_receive_next(&self.hub, &mut pass.pass, pass.tag) {
            TriedReceived::Taken(number, from, admitted) => match take_out(self, pass, number) {
                Some(value) => ParcelTried::Value(value, from, admitted),
                None => ParcelTried::Lost(from, admitted),
            },
            TriedReceived::Empty => ParcelTried::Empty,
            TriedReceived::Closed(value) => ParcelTried::Closed(value),
        }
    }

    /// How far the own wait is, which did not end.
    pub fn look(&self, pass: &mut ParcelPass<T>, wait: WaitId) -> WaitState
        requires of { IsOf self.now pass.old }
        requires wait { wait.channel ≡ 0 }
        requires holds { HoldsWait pass.old.tag wait (floor_by self.now pass.old) }
        ensures of { IsOf self.now pass.new }
        ensures same { SamePass pass.old pass.new × (seen_by pass.new ≡ seen_by pass.old) }
        ensures answer { LookAnswer pass.old.tag wait (floor_by self.now pass.old) (floor_by self.now pass.new) result }
        ensures holds { HoldsWait pass.new.tag wait (floor_by self.now pass.new) }
        ensures ready { result ≡ state.Resolved → IsReady pass.new.tag wait (floor_by self.now pass.new) }
    {
        look(&self.hub, &mut pass.pass, pass.tag, wait)
    }

    /// Takes the own wait back, which did not end, unless it was resolved before. In both cases it may be settled then.
    pub fn withdraw(&self, pass: &mut ParcelPass<T>, wait: WaitId) -> Withdrawn
        requires of { IsOf self.now pass.old }
        requires wait { wait.channel ≡ 0 }
        requires holds { HoldsWait pass.old.tag wait (floor_by self.now pass.old) }
        ensures of { IsOf self.now pass.new }
        ensures same { SamePass pass.old pass.new × (seen_by pass.new ≡ seen_by pass.old) }
        ensures answer { WithdrawAnswer pass.old.tag wait why.Cancelled (floor_by self.now pass.old) (floor_by self.now pass.new) result }
        ensures ready { IsReady pass.new.tag wait (floor_by self.now pass.new) }
    {
        withdraw(&self.hub, &mut pass.pass, pass.tag, wait)
    }

    /// Closes the channel with a value. What stands there still stands.
    ///
    /// Example: `three_texts` in `docs/LIBRARY.md`.
    pub fn close(&self, pass: &mut ParcelPass<T>, v: Value) -> Result<(), AlreadyClosed>
        requires of { IsOf self.now pass.old }
        ensures of { IsOf self.now pass.new }
        ensures same { SamePass pass.old pass.new × (seen_by pass.new ≡ seen_by pass.old) }
        ensures answer { CloseAnswer pass.old.tag 0 v (floor_by self.now pass.old) (floor_by self.now pass.new) result }
    {
        close(&self.hub, &mut pass.pass, pass.tag, v)
    }

    /// Tells the first receiver of a channel that was seen closed: its coroutine. None: nobody stands there.
    pub fn wake_closed(&self, pass: &mut ParcelPass<T>) -> Option<Tag>
        requires of { IsOf self.now pass.old }
        requires closed { IsSeenClosed 0 (floor_by self.now pass.old) }
        ensures of { IsOf self.now pass.new }
        ensures same { SamePass pass.old pass.new × (seen_by pass.new ≡ seen_by pass.old) }
        ensures answer { WakeParcel pass.old.tag (floor_by self.now pass.old) (floor_by self.now pass.new) result }
    {
        match wake_closed(&self.hub, &mut pass.pass, pass.tag) {
            Some((_, to)) => Some(to),
            None => None,
        }
    }

    /// Cancels a channel that was seen closed, unless it was cancelled before.
    pub fn void(&self, pass: &mut ParcelPass<T>) -> bool
        requires of { IsOf self.now pass.old }
        requires closed { IsSeenClosed 0 (floor_by self.now pass.old) }
        ensures of { IsOf self.now pass.new }
        ensures same { SamePass pass.old pass.new × (seen_by pass.new ≡ seen_by pass.old) }
        ensures answer { VoidAnswer pass.old.tag 0 (floor_by self.now pass.old) (floor_by self.now pass.new) result }
    {
        void(&self.hub, &mut pass.pass, pass.tag)
    }

    /// Removes the first number of a channel that was seen cancelled, and moves its value out; and the coroutine that waited with it,
    /// if one did.
    pub fn drain(&self, pass: &mut ParcelPass<T>) -> Option<(Option<T>, Option<Tag>)>
        requires of { IsOf self.now pass.old }
        requires voided { IsSeenVoided 0 (floor_by self.now pass.old) }
        ensures of { IsOf self.now pass.new }
        ensures same { SamePass pass.old pass.new }
        ensures answer { DrainParcel self.now.parcels pass.old.tag (seen_by pass.old) (seen_by pass.new)
            (floor_by self.now pass.old) (floor_by self.now pass.new) result }
    {
        match drain(&self.hub, &mut pass.pass, pass.tag) {
            None => None,
            Some((_, number, from)) => {
                let value = take_out(self, pass, number);
                Some((value, from))
            }
        }
    }
}
