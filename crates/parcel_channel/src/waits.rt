//! Numbers are sent and received, and waits settled: what follows a call on the channel of numbers.
ghost use Rattle.std.specs.Prelude.{◌≡◌, true};
ghost use Rattle.channel_model.specs.Histories.{replay};
ghost use Rattle.channel_model.specs.Floors.{Floor, Looked};
ghost use Rattle.channel_model.specs.PlainOffers.{OffersPlainly};
ghost use Rattle.channel_model.specs.Answers.{IsReady};
ghost use Rattle.word_rules.specs.Words.{IsCell};
ghost use Rattle.cell_words.specs.Hubs.{shape_of, seen_by, IsOwn, SameGiving};
ghost use Rattle.cell_calls.specs.HubFloors.{hub_floor};
ghost use Rattle.parcel_channel.specs.Numbers.{CarriesNumbers, AdmitsAll, OwnOffer, Sends, Gets, TriesToGet, OwnsItsWait, EndAnswer};
ghost use Rattle.parcel_channel.specs.Numbers.{is_sent, is_cancel, number_of_state, placed_at, withdrawn_at};

use crate::numbers::{admit, offer, receive, settle, try_receive};
use cell_words::{CellState, CellWord, Hub, Pass, ResolvedBy, WaitWord, load_cell, wait_word_at};
use channel_model::{Got, Offered, Settled, TriedGot};
use co_base::{Place, Tag, Value, WaitId};

/// Whether an offer was admitted or received.
fn was_sent(word: WaitWord) -> bool
    ensures { result ≡ is_sent word.by }
{
    match word.by {
        ResolvedBy::Take => true,
        ResolvedBy::Admit => true,
        _ => false,
    }
}

/// Settles the own offer, if it was admitted or received by now. Who has settled it need not look at it again.
fn settle_offer(hub: &Hub, pass: &mut Pass, who: Tag, w: WaitId) -> bool
    requires channel { CarriesNumbers hub.now }
    requires own { IsOwn hub.now pass.old who }
    requires wait { w.channel ≡ 0 }
    requires plain { OffersPlainly who w (replay (seen_by pass.old).seen) }
    ensures own { IsOwn hub.now pass.new who }
    ensures giving { SameGiving pass.old pass.new }
    ensures answer { OwnOffer who w (hub_floor hub.now pass.old) (hub_floor hub.now pass.new) result }
{
    let word = wait_word_at(hub, pass, who, w);
    if !was_sent(word) {
        return false;
    }
    settle(hub, pass, who, w, false);
    true
}

/// What became of a number that was offered.
pub(crate) enum Placed {
    /// A receiver was handed it; its coroutine.
    Handed(Tag),
    /// The channel keeps it, or it was received; and the set of those who were admitted.
    Kept(u64),
    /// It waits at this place; and the set of those who were admitted.
    Waits(Place, u64),
    Closed(Value),
    Spent,
}

/// Admits each offer for which the channel has room, and then looks at the own one at this place.
fn after_held(hub: &Hub, pass: &mut Pass, who: Tag, w: WaitId) -> (bool, u64)
    requires channel { CarriesNumbers hub.now }
    requires own { IsOwn hub.now pass.old who }
    requires wait { w.channel ≡ 0 }
    requires plain { OffersPlainly who w (replay (seen_by pass.old).seen) }
    ensures own { IsOwn hub.now pass.new who }
    ensures giving { SameGiving pass.old pass.new }
    ensures answer { (mid : Floor) × AdmitsAll who result.1 (hub_floor hub.now pass.old) mid
        × OwnOffer who w mid (hub_floor hub.now pass.new) result.0 }
{
    let admitted = admit(hub, pass, who);
    let ended = settle_offer(hub, pass, who, w);
    (ended, admitted)
}

/// What became of an offer that had to wait at this place.
fn held_at(ended: bool, place: Place, admitted: u64) -> Placed
    ensures { result ≡ placed_at ended place admitted }
{
    if ended {
        return Placed::Kept(admitted);
    }
    Placed::Waits(place, admitted)
}

/// Offers the number; where the offer has to wait, admits each offer for which the channel has room, and looks whether the own one was.
pub(crate) fn send(hub: &Hub, pass: &mut Pass, who: Tag, value: Value) -> Placed
    requires channel { CarriesNumbers hub.now }
    requires own { IsOwn hub.now pass.old who }
    ensures own { IsOwn hub.now pass.new who }
    ensures giving { SameGiving pass.old pass.new }
    ensures answer { Sends who value (hub_floor hub.now pass.old) (hub_floor hub.now pass.new) result }
{
    match offer(hub, pass, who, value) {
        Offered::Handed(_, to) => Placed::Handed(to),
        Offered::Put(_) => Placed::Kept(0),
        Offered::Held(place) => {
            let held = after_held(hub, pass, who, WaitId { channel: 0, place });
            held_at(held.0, place, held.1)
        }
        Offered::Closed(v) => Placed::Closed(v),
        Offered::Spent => Placed::Spent,
    }
}

/// What a receive came to.
pub(crate) enum Received {
    /// A number; the coroutine that waited with it, if one did; and the set of those who were admitted then.
    Taken(Value, Option<Tag>, u64),
    /// It waits at this place.
    Waiting(Place),
    Closed(Value),
    Spent,
}

/// Receives a number, and then admits each offer for which the channel has room; or waits.
pub(crate) fn receive_next(hub: &Hub, pass: &mut Pass, who: Tag) -> Received
    requires channel { CarriesNumbers hub.now }
    requires own { IsOwn hub.now pass.old who }
    ensures own { IsOwn hub.now pass.new who }
    ensures giving { SameGiving pass.old pass.new }
    ensures answer { Gets who (hub_floor hub.now pass.old) (hub_floor hub.now pass.new) result }
    ensures own_wait { OwnsItsWait who (hub_floor hub.now pass.new) result }
{
    match receive(hub, pass, who) {
        Got::Taken(_place, number, from) => {
            let admitted = admit(hub, pass, who);
            Received::Taken(number, from, admitted)
        }
        Got::Waiting(place) => Received::Waiting(place),
        Got::Closed(v) => Received::Closed(v),
        Got::Spent => Received::Spent,
    }
}

/// What a receive came to that never waits.
pub(crate) enum TriedReceived {
    /// A number; the coroutine that waited with it, if one did; and the set of those who were admitted then.
    Taken(Value, Option<Tag>, u64),
    Empty,
    Closed(Value),
}

/// Receives a number, if one is there, and then admits each offer for which the channel has room.
pub(crate) fn try_receive_next(hub: &Hub, pass: &mut Pass, who: Tag) -> TriedReceived
    requires channel { CarriesNumbers hub.now }
    requires own { IsOwn hub.now pass.old who }
    ensures own { IsOwn hub.now pass.new who }
    ensures giving { SameGiving pass.old pass.new }
    ensures answer { TriesToGet who (hub_floor hub.now pass.old) (hub_floor hub.now pass.new) result }
{
    match try_receive(hub, pass, who) {
        TriedGot::Taken(_place, number, from) => {
            let admitted = admit(hub, pass, who);
            TriedReceived::Taken(number, from, admitted)
        }
        TriedGot::Empty => TriedReceived::Empty,
        TriedGot::Closed(v) => TriedReceived::Closed(v),
    }
}

/// The number that a cell offers.
fn number_offered(word: CellWord) -> Option<Value>
    ensures { result ≡ number_of_state word.state word.value }
{
    match word.state {
        CellState::Offer => Some(word.value),
        _ => None,
    }
}

/// Whether its coroutine withdrew the wait.
fn was_withdrawn(word: WaitWord) -> bool
    ensures { result ≡ is_cancel word.by }
{
    match word.by {
        ResolvedBy::Cancel => true,
        _ => false,
    }
}

/// The number of an own offer that was withdrawn.
fn withdrawn_number(hub: &Hub, pass: &mut Pass, who: Tag, w: WaitId) -> Option<Value>
    requires own { IsOwn hub.now pass.old who }
    requires wait { w.channel ≡ 0 }
    requires at { IsCell (shape_of hub.now) 0 w.place }
    ensures own { IsOwn hub.now pass.new who }
    ensures giving { SameGiving pass.old pass.new }
    ensures looked { Looked who (hub_floor hub.now pass.old) (hub_floor hub.now pass.new) }
    ensures number { result ≡ withdrawn_at w (seen_by pass.new).seen }
{
    let word = wait_word_at(hub, pass, who, w);
    if !was_withdrawn(word) {
        return None;
    }
    let cell = load_cell(hub, pass, who, 0, w.place);
    number_offered(cell)
}

/// How a wait ended.
pub(crate) enum Ended {
    /// It was handed this number.
    Value(Value),
    Sent,
    Closed(Value),
    /// It was an offer of this number, and was withdrawn.
    Withdrew(Value),
    Cancelled,
    /// It was cancelled after it had been handed this number.
    Undelivered(Value),
}

/// Settles the own wait, which was seen resolved.
pub(crate) fn end_wait(hub: &Hub, pass: &mut Pass, who: Tag, w: WaitId, cancelled: bool) -> Ended
    requires channel { CarriesNumbers hub.now }
    requires own { IsOwn hub.now pass.old who }
    requires wait { w.channel ≡ 0 }
    requires ready { IsReady who w (hub_floor hub.now pass.old) }
    ensures own { IsOwn hub.now pass.new who }
    ensures giving { SameGiving pass.old pass.new }
    ensures answer { EndAnswer who w cancelled (hub_floor hub.now pass.old) (hub_floor hub.now pass.new) result }
{
    match settle(hub, pass, who, w, cancelled) {
        Settled::Value(_, number) => Ended::Value(number),
        Settled::Sent(_) => Ended::Sent,
        Settled::Closed(_, v) => Ended::Closed(v),
        Settled::Undelivered(number) => Ended::Undelivered(number),
        Settled::Cancelled => match withdrawn_number(hub, pass, who, w) {
            Some(number) => Ended::Withdrew(number),
            None => Ended::Cancelled,
        },
    }
}
