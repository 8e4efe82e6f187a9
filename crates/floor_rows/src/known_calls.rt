//! Calls on the first channel of a floor, each made where what it asks is known, so that a list of calls can be a table.

ghost use Rattle.std.specs.Prelude.{◌≡◌, ◌<◌, true};
ghost use Rattle.channel_model.specs.Answers.{HasPut};
ghost use Rattle.floor_rows.specs.Known.{Knows, KnownThen, with_wait, after_offer, after_receive, after_close, after_void, nothing};

use crate::known::Known;
use channel_model::{
    AlreadyClosed, ChannelFloor, Got, Offered, Settled, TriedGot, TriedOffer, WaitState, Why,
    Withdrawn,
};
use co_base::{Place, Tag, Value, WaitId};

/// What is done after an element was put, and what it answers.
#[derive(Clone, Copy)]
pub(crate) enum Then {
    /// A trim up to its place.
    Trims(Option<(Place, Value)>),
    /// A spurn of its place.
    Spurns(Option<Value>),
    /// The same, after an element was received.
    SpurnsLater(Option<Value>),
}

/// A call, and what it answers. A look, a withdraw and a settle are of the wait that began last.
#[derive(Clone, Copy)]
pub(crate) enum Call {
    Offer(Value, Offered),
    TryOffer(Value, TriedOffer),
    /// An offer that is put at this place, or one that never waits; and what is done then.
    Put(Value, Place, Then),
    TryPut(Value, Place, Then),
    Receive(Got),
    TryReceive(TriedGot),
    Mark(Place),
    Admit(Place, Option<(Place, Tag)>),
    Close(Value, Result<(), AlreadyClosed>),
    Wake(Option<(Place, Tag)>),
    Void(bool),
    Drain(Option<(Place, Value, Option<Tag>)>),
    Look(WaitState),
    Withdraw(Withdrawn),
    Settle(bool, Settled),
}

/// Nothing was seen.
pub(crate) fn nothing() -> Known
    ensures { result ≡ nothing }
{
    Known {
        owns: false,
        tag: 0,
        place: 0,
        closed: false,
        voided: false,
    }
}

/// What is known once a wait began at this place, if one did.
fn with_wait(known: Known, who: Tag, place: Place) -> Known
    ensures { result ≡ with_wait known who place }
{
    Known {
        owns: true,
        tag: who,
        place,
        closed: known.closed,
        voided: known.voided,
    }
}

fn after_offer(known: Known, who: Tag, answer: Offered) -> Known
    ensures { result ≡ after_offer known who answer }
{
    match answer {
        Offered::Held(place) => with_wait(known, who, place),
        _ => known,
    }
}

fn after_receive(known: Known, who: Tag, answer: Got) -> Known
    ensures { result ≡ after_receive known who answer }
{
    match answer {
        Got::Waiting(place) => with_wait(known, who, place),
        _ => known,
    }
}

/// Whether an offer answers so, and what is known then; so do the others.
fn offer<F: ChannelFloor>(
    floor: &mut F,
    known: &mut Known,
    who: Tag,
    value: Value,
    wanted: Offered,
) -> bool
    requires caller { (F.view floor.old).callers who ≡ true }
    requires room { 2 < (F.view floor.old).spare }
    requires knows { Knows known.old (F.view floor.old) }
    ensures anchor { F.anchor floor.new ≡ F.anchor floor.old }
    ensures then { KnownThen known.new (F.view floor.old) (F.view floor.new) }
{
    let answer = floor.offer(who, 0, value);
    *known = after_offer(*known, who, answer);
    answer == wanted
}

fn try_offer<F: ChannelFloor>(
    floor: &mut F,
    known: Known,
    who: Tag,
    value: Value,
    wanted: TriedOffer,
) -> bool
    requires caller { (F.view floor.old).callers who ≡ true }
    requires room { 2 < (F.view floor.old).spare }
    requires knows { Knows known (F.view floor.old) }
    ensures anchor { F.anchor floor.new ≡ F.anchor floor.old }
    ensures then { KnownThen known (F.view floor.old) (F.view floor.new) }
{
    floor.try_offer(who, 0, value) == wanted
}

fn receive<F: ChannelFloor>(floor: &mut F, known: &mut Known, who: Tag, wanted: Got) -> bool
    requires caller { (F.view floor.old).callers who ≡ true }
    requires room { 2 < (F.view floor.old).spare }
    requires knows { Knows known.old (F.view floor.old) }
    ensures anchor { F.anchor floor.new ≡ F.anchor floor.old }
    ensures then { KnownThen known.new (F.view floor.old) (F.view floor.new) }
{
    let answer = floor.receive(who, 0);
    *known = after_receive(*known, who, answer);
    answer == wanted
}

fn try_receive<F: ChannelFloor>(floor: &mut F, known: Known, who: Tag, wanted: TriedGot) -> bool
    requires caller { (F.view floor.old).callers who ≡ true }
    requires room { 2 < (F.view floor.old).spare }
    requires knows { Knows known (F.view floor.old) }
    ensures anchor { F.anchor floor.new ≡ F.anchor floor.old }
    ensures then { KnownThen known (F.view floor.old) (F.view floor.new) }
{
    floor.try_receive(who, 0) == wanted
}

fn mark<F: ChannelFloor>(floor: &mut F, known: Known, who: Tag, wanted: Place) -> bool
    requires caller { (F.view floor.old).callers who ≡ true }
    requires room { 2 < (F.view floor.old).spare }
    requires knows { Knows known (F.view floor.old) }
    ensures anchor { F.anchor floor.new ≡ F.anchor floor.old }
    ensures then { KnownThen known (F.view floor.old) (F.view floor.new) }
{
    floor.mark(who, 0) == wanted
}

fn admit<F: ChannelFloor>(
    floor: &mut F,
    known: Known,
    who: Tag,
    mark: Place,
    wanted: Option<(Place, Tag)>,
) -> bool
    requires caller { (F.view floor.old).callers who ≡ true }
    requires room { 2 < (F.view floor.old).spare }
    requires knows { Knows known (F.view floor.old) }
    ensures anchor { F.anchor floor.new ≡ F.anchor floor.old }
    ensures then { KnownThen known (F.view floor.old) (F.view floor.new) }
{
    floor.admit(who, 0, mark) == wanted
}

fn close<F: ChannelFloor>(
    floor: &mut F,
    known: &mut Known,
    who: Tag,
    v: Value,
    wanted: Result<(), AlreadyClosed>,
) -> bool
    requires caller { (F.view floor.old).callers who ≡ true }
    requires room { 2 < (F.view floor.old).spare }
    requires knows { Knows known.old (F.view floor.old) }
    ensures anchor { F.anchor floor.new ≡ F.anchor floor.old }
    ensures then { KnownThen known.new (F.view floor.old) (F.view floor.new) }
{
    let answer = floor.close(who, 0, v);
    known.closed = true;
    answer == wanted
}

fn wake<F: ChannelFloor>(
    floor: &mut F,
    known: Known,
    who: Tag,
    wanted: Option<(Place, Tag)>,
) -> bool
    requires caller { (F.view floor.old).callers who ≡ true }
    requires room { 2 < (F.view floor.old).spare }
    requires knows { Knows known (F.view floor.old) }
    ensures anchor { F.anchor floor.new ≡ F.anchor floor.old }
    ensures then { KnownThen known (F.view floor.old) (F.view floor.new) }
{
    if !known.closed {
        return false;
    }
    floor.wake_closed(who, 0) == wanted
}

fn void<F: ChannelFloor>(floor: &mut F, known: &mut Known, who: Tag, wanted: bool) -> bool
    requires caller { (F.view floor.old).callers who ≡ true }
    requires room { 2 < (F.view floor.old).spare }
    requires knows { Knows known.old (F.view floor.old) }
    ensures anchor { F.anchor floor.new ≡ F.anchor floor.old }
    ensures then { KnownThen known.new (F.view floor.old) (F.view floor.new) }
{
    if !known.closed {
        return false;
    }
    let answer = floor.void(who, 0);
    known.voided = true;
    answer == wanted
}

fn drain<F: ChannelFloor>(
    floor: &mut F,
    known: Known,
    who: Tag,
    wanted: Option<(Place, Value, Option<Tag>)>,
) -> bool
    requires caller { (F.view floor.old).callers who ≡ true }
    requires room { 2 < (F.view floor.old).spare }
    requires knows { Knows known (F.view floor.old) }
    ensures anchor { F.anchor floor.new ≡ F.anchor floor.old }
    ensures then { KnownThen known (F.view floor.old) (F.view floor.new) }
{
    if !known.voided {
        return false;
    }
    floor.drain(who, 0) == wanted
}

fn look<F: ChannelFloor>(floor: &mut F, known: Known, wanted: WaitState) -> bool
    requires room { 2 < (F.view floor.old).spare }
    requires knows { Knows known (F.view floor.old) }
    ensures anchor { F.anchor floor.new ≡ F.anchor floor.old }
    ensures then { KnownThen known (F.view floor.old) (F.view floor.new) }
{
    if !known.owns {
        return false;
    }
    let w = WaitId {
        channel: 0,
        place: known.place,
    };
    floor.look(known.tag, w) == wanted
}

fn withdraw<F: ChannelFloor>(floor: &mut F, known: Known, wanted: Withdrawn) -> bool
    requires room { 2 < (F.view floor.old).spare }
    requires knows { Knows known (F.view floor.old) }
    ensures anchor { F.anchor floor.new ≡ F.anchor floor.old }
    ensures then { KnownThen known (F.view floor.old) (F.view floor.new) }
{
    if !known.owns {
        return false;
    }
    let w = WaitId {
        channel: 0,
        place: known.place,
    };
    floor.withdraw(known.tag, w, Why::Cancelled) == wanted
}

/// Ends the wait, if it is resolved.
fn settle_own<F: ChannelFloor>(
    floor: &mut F,
    known: Known,
    cancelled: bool,
    wanted: Settled,
) -> bool
    requires room { 2 < (F.view floor.old).spare }
    requires knows { Knows known (F.view floor.old) }
    requires owns { known.owns ≡ true }
    ensures anchor { F.anchor floor.new ≡ F.anchor floor.old }
    ensures then { KnownThen known (F.view floor.old) (F.view floor.new) }
{
    let w = WaitId {
        channel: 0,
        place: known.place,
    };
    match floor.look(known.tag, w) {
        WaitState::Resolved => floor.settle(known.tag, w, cancelled) == wanted,
        WaitState::Standing | WaitState::Settled => false,
    }
}

/// Ends the wait, if it is resolved, where one began.
fn settle<F: ChannelFloor>(floor: &mut F, known: Known, cancelled: bool, wanted: Settled) -> bool
    requires room { 2 < (F.view floor.old).spare }
    requires knows { Knows known (F.view floor.old) }
    ensures anchor { F.anchor floor.new ≡ F.anchor floor.old }
    ensures then { KnownThen known (F.view floor.old) (F.view floor.new) }
{
    if !known.owns {
        return false;
    }
    settle_own(floor, known, cancelled, wanted)
}

/// Receives an element, if one stands, and spurns the own one.
fn spurn_later<F: ChannelFloor>(
    floor: &mut F,
    known: Known,
    who: Tag,
    place: Place,
    wanted: Option<Value>,
) -> bool
    requires caller { (F.view floor.old).callers who ≡ true }
    requires room { 1 < (F.view floor.old).spare }
    requires knows { Knows known (F.view floor.old) }
    requires own { HasPut who 0 place (F.view floor.old) }
    ensures anchor { F.anchor floor.new ≡ F.anchor floor.old }
    ensures then { KnownThen known (F.view floor.old) (F.view floor.new) }
{
    floor.try_receive(who, 0);
    floor.spurn(who, 0, place) == wanted
}

/// What is done with the own element at this place.
fn after_put<F: ChannelFloor>(
    floor: &mut F,
    known: Known,
    who: Tag,
    place: Place,
    then: Then,
) -> bool
    requires caller { (F.view floor.old).callers who ≡ true }
    requires room { 1 < (F.view floor.old).spare }
    requires knows { Knows known (F.view floor.old) }
    requires own { HasPut who 0 place (F.view floor.old) }
    ensures anchor { F.anchor floor.new ≡ F.anchor floor.old }
    ensures then { KnownThen known (F.view floor.old) (F.view floor.new) }
{
    match then {
        Then::Trims(wanted) => floor.trim(who, 0, place) == wanted,
        Then::Spurns(wanted) => floor.spurn(who, 0, place) == wanted,
        Then::SpurnsLater(wanted) => spurn_later(floor, known, who, place, wanted),
    }
}

fn put<F: ChannelFloor>(
    floor: &mut F,
    known: Known,
    who: Tag,
    value: Value,
    place: Place,
    then: Then,
) -> bool
    requires caller { (F.view floor.old).callers who ≡ true }
    requires room { 2 < (F.view floor.old).spare }
    requires knows { Knows known (F.view floor.old) }
    ensures anchor { F.anchor floor.new ≡ F.anchor floor.old }
    ensures then { KnownThen known (F.view floor.old) (F.view floor.new) }
{
    match floor.offer(who, 0, value) {
        Offered::Put(found) => after_put(floor, known, who, found, then) & (found == place),
        _ => false,
    }
}

fn try_put<F: ChannelFloor>(
    floor: &mut F,
    known: Known,
    who: Tag,
    value: Value,
    place: Place,
    then: Then,
) -> bool
    requires caller { (F.view floor.old).callers who ≡ true }
    requires room { 2 < (F.view floor.old).spare }
    requires knows { Knows known (F.view floor.old) }
    ensures anchor { F.anchor floor.new ≡ F.anchor floor.old }
    ensures then { KnownThen known (F.view floor.old) (F.view floor.new) }
{
    match floor.try_offer(who, 0, value) {
        TriedOffer::Put(found) => after_put(floor, known, who, found, then) & (found == place),
        _ => false,
    }
}

/// Whether the call is made, and answers so, where there is room for it.
fn is_answer<F: ChannelFloor>(floor: &mut F, known: &mut Known, who: Tag, call: Call) -> bool
    requires caller { (F.view floor.old).callers who ≡ true }
    requires room { 2 < (F.view floor.old).spare }
    requires knows { Knows known.old (F.view floor.old) }
    ensures anchor { F.anchor floor.new ≡ F.anchor floor.old }
    ensures then { KnownThen known.new (F.view floor.old) (F.view floor.new) }
{
    match call {
        Call::Offer(value, wanted) => offer(floor, known, who, value, wanted),
        Call::TryOffer(value, wanted) => try_offer(floor, *known, who, value, wanted),
        Call::Put(value, place, then) => put(floor, *known, who, value, place, then),
        Call::TryPut(value, place, then) => try_put(floor, *known, who, value, place, then),
        Call::Receive(wanted) => receive(floor, known, who, wanted),
        Call::TryReceive(wanted) => try_receive(floor, *known, who, wanted),
        Call::Mark(wanted) => mark(floor, *known, who, wanted),
        Call::Admit(below, wanted) => admit(floor, *known, who, below, wanted),
        Call::Close(v, wanted) => close(floor, known, who, v, wanted),
        Call::Wake(wanted) => wake(floor, *known, who, wanted),
        Call::Void(wanted) => void(floor, known, who, wanted),
        Call::Drain(wanted) => drain(floor, *known, who, wanted),
        Call::Look(wanted) => look(floor, *known, wanted),
        Call::Withdraw(wanted) => withdraw(floor, *known, wanted),
        Call::Settle(cancelled, wanted) => settle(floor, *known, cancelled, wanted),
    }
}

/// Whether the call is made, and answers so; and what is known then. Where there is no memory, none is made.
pub(crate) fn answers<F: ChannelFloor>(
    floor: &mut F,
    known: &mut Known,
    who: Tag,
    call: Call,
) -> bool
    requires caller { (F.view floor.old).callers who ≡ true }
    requires knows { Knows known.old (F.view floor.old) }
    ensures anchor { F.anchor floor.new ≡ F.anchor floor.old }
    ensures then { KnownThen known.new (F.view floor.old) (F.view floor.new) }
{
    match floor.room(3) {
        Ok(()) => is_answer(floor, known, who, call),
        Err(_) => false,
    }
}
