//! To send and to receive, or else to wait.
ghost use Rattle.std.specs.Prelude.{◌≡◌, ◌<◌};
ghost use Rattle.ring_channel.specs.Looks.{CallAnswer};
ghost use Rattle.ring_channel.specs.Outcomes.{CallsBoth, ReceiveTry, ReceiveAnswer, SendTry, SendAnswer};
ghost use Rattle.ring_channel.specs.Passes.{IsOf, SamePass, seen_by, tag_of};

use crate::act::RingSide;
use crate::answers::{Called, ReceiveOutcome, RingGot, RingSent, SendOutcome, Wakes};
use crate::ring::{Ring, RingPass};

impl<T> Ring<T> {
    /// Looks for those who wait on both sides, after a value was moved. Which of them is named turns with the place.
    fn call_both(&self, pass: &mut RingPass<T>, tag: u32, place: u64) -> Wakes
        requires of { IsOf self.now pass.old }
        requires tag { (tag ≡ tag_of pass.old) × (tag < 64) }
        ensures of { IsOf self.now pass.new }
        ensures same { SamePass pass.old pass.new }
        ensures called { CallsBoth self.now.slots (tag_of pass.old) (seen_by pass.old) (seen_by pass.new) result }
    {
        let from = (place % 64) as u32;
        let receivers = self.call_on(pass, RingSide::Receive, tag, from);
        let senders = self.call_on(pass, RingSide::Send, tag, from);
        Wakes { receivers, senders }
    }

    /// Receives, or waits. None: another came first.
    fn receive_once(&self, pass: &mut RingPass<T>, tag: u32) -> Option<ReceiveOutcome<T>>
        requires of { IsOf self.now pass.old }
        requires tag { (tag ≡ tag_of pass.old) × (tag < 64) }
        ensures of { IsOf self.now pass.new }
        ensures same { SamePass pass.old pass.new }
        ensures tried { ReceiveTry self.now.slots (tag_of pass.old) (seen_by pass.old) (seen_by pass.new) result }
    {
        match self.try_receive(pass) {
            RingGot::Value(place, value) => {
                let wakes = self.call_both(pass, tag, place);
                Some(ReceiveOutcome::Received {
                    place,
                    value,
                    wakes,
                })
            }
            RingGot::Nothing => {
                if self.stand_by(pass, RingSide::Receive, tag) {
                    return Some(ReceiveOutcome::Waits);
                }
                None
            }
            RingGot::Closed => {
                let called = self.call_on(pass, RingSide::Receive, tag, 0);
                Some(ReceiveOutcome::Closed(called))
            }
            RingGot::Passed => None,
        }
    }

    /// Sends, or waits. The value comes back where another came first.
    fn send_once(&self, pass: &mut RingPass<T>, tag: u32, value: T) -> Result<SendOutcome<T>, T>
        requires of { IsOf self.now pass.old }
        requires tag { (tag ≡ tag_of pass.old) × (tag < 64) }
        ensures of { IsOf self.now pass.new }
        ensures same { SamePass pass.old pass.new }
        ensures tried { SendTry self.now.slots self.now.places (tag_of pass.old) value (seen_by pass.old) (seen_by pass.new) result }
    {
        match self.try_send(pass, value) {
            RingSent::Sent(place) => {
                let wakes = self.call_both(pass, tag, place);
                Ok(SendOutcome::Sent { place, wakes })
            }
            RingSent::Full(back) => {
                if self.stand_by(pass, RingSide::Send, tag) {
                    return Ok(SendOutcome::Waits(back));
                }
                Err(back)
            }
            RingSent::Closed(back) => {
                let called = self.call_on(pass, RingSide::Send, tag, 0);
                Ok(SendOutcome::Closed(back, called))
            }
            RingSent::Spent(back) => {
                let called = self.call_on(pass, RingSide::Send, tag, 0);
                Ok(SendOutcome::Spent(back, called))
            }
            RingSent::Passed(back) => Err(back),
        }
    }

    /// Receives the first value; or, where there is none, waits: then the pass is named by a later call of another, and receives again. It
    /// looks for those who may go on by what it did: whom it names is to be woken. A pass that was named, and has no use for it, calls
    /// `leave`. A pass whose tag is 64 or more cannot wait. Nothing is blocked.
    pub fn receive(&self, pass: &mut RingPass<T>, tag: u32) -> ReceiveOutcome<T>
        requires of { IsOf self.now pass.old }
        requires tag { (tag ≡ tag_of pass.old) × (tag < 64) }
        ensures of { IsOf self.now pass.new }
        ensures same { SamePass pass.old pass.new }
        ensures answer { ReceiveAnswer self.now.slots (tag_of pass.old) (seen_by pass.old) (seen_by pass.new) result }
    {
        let mut tries = 0u64;
        while tries < u64::MAX {
            match self.receive_once(pass, tag) {
                Some(outcome) => return outcome,
                None => tries += 1,
            }
        }
        ReceiveOutcome::Passed
    }

    /// Sends a value; or, where there is no room, waits: the value comes back, the pass is named by a later call of another, and sends
    /// again. Whom it names is to be woken. A pass that was named, and has no use for it, calls `leave`.
    pub fn send(&self, pass: &mut RingPass<T>, tag: u32, value: T) -> SendOutcome<T>
        requires of { IsOf self.now pass.old }
        requires tag { (tag ≡ tag_of pass.old) × (tag < 64) }
        ensures of { IsOf self.now pass.new }
        ensures same { SamePass pass.old pass.new }
        ensures answer { SendAnswer self.now.slots self.now.places (tag_of pass.old) value (seen_by pass.old) (seen_by pass.new) result }
    {
        let mut value = value;
        let mut tries = 0u64;
        while tries < u64::MAX {
            match self.send_once(pass, tag, value) {
                Ok(outcome) => return outcome,
                Err(back) => {
                    value = back;
                    tries += 1;
                }
            }
        }
        SendOutcome::Passed(value)
    }

    /// Gives a wait up: it waits no more on this side, and who is named in its place is to be woken.
    pub fn leave(&self, pass: &mut RingPass<T>, side: RingSide, tag: u32) -> Called
        requires of { IsOf self.now pass.old }
        requires tag { (tag ≡ tag_of pass.old) × (tag < 64) }
        ensures of { IsOf self.now pass.new }
        ensures same { SamePass pass.old pass.new }
        ensures answer { CallAnswer self.now.slots (tag_of pass.old) side (seen_by pass.old) (seen_by pass.new) result }
    {
        self.call_on(pass, side, tag, 0)
    }
}
