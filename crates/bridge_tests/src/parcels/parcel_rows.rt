//! Calls on channels of owned values, one after the other: each table has a channel of its own, and its rows are calls by two passes of it.
ghost use Rattle.std.specs.Prelude.{◌≡◌, ◌≤◌};
ghost use Rattle.parcel_channel.specs.Hubs.{IsOf};
ghost use Rattle.parcel_channel.specs.Numbers.{KeepsAll};
ghost use Rattle.bridge_tests.specs.ParcelPasses.{Keeps, HasWait};

use crate::parcels::parcel_calls::{
    Three, cancel, close_and_wake, drain_one, look_at, new_channel, rest_of, take_back,
};
use channel_model::{Kind, WaitState, Withdrawn};
use co_base::{Tag, Value, WaitId};
use parcel_channel::{
    ParcelGot, ParcelHub, ParcelOffered, ParcelPass, ParcelSent, ParcelSettled, ParcelTried,
};
use std::alloc::Global;

/// A call.
#[derive(Clone, Copy)]
enum Call {
    Send(Value),
    Receive,
    TrySend(Value),
    TryReceive,
    /// With the value 4.
    Close,
    /// The same, and tells the first receiver.
    CloseAndTell,
    /// Closes the channel, cancels it, and drains the one value that stands there.
    CancelAndDrain,
    /// How far the wait of the call before by this pass is.
    Look,
    /// Takes that wait back, and asks what became of it.
    GiveUp,
    /// What became of that wait, which was resolved.
    Settle,
    /// This pass sees what the other saw.
    Meet,
}

/// By whom: the passes of the tags 1 and 2.
#[derive(Clone, Copy)]
enum By {
    One,
    Two,
}

/// What was answered.
#[derive(Clone, Copy, PartialEq)]
enum Word {
    /// To the receiver of this tag, or nobody; and whom the call admitted.
    Sent,
    /// At this place; and whom the call admitted.
    Waits,
    /// What was sent comes back, with what the channel was closed with; or that alone.
    Closed,
    /// What was sent comes back.
    Spent,
    NoNumber,
    Full,
    /// This value; and whom the call admitted.
    Value,
    Nothing,
    /// The call closed the channel; and whom it told, or nobody.
    Closes,
    Drained,
    Standing,
    Resolved,
    /// The value comes back, or was handed over; and whose wait was taken back, or nobody's since it was late.
    Back,
    Undelivered,
    Done,
    Other,
}

/// A word, and two numbers that it speaks of.
type Answer = (Word, u32, u64);

/// No tag of a pass; in rows 99.
const NOBODY: Tag = 99;

const OTHER: Answer = (Word::Other, 0, 0);

/// A pass, and the wait that its last call made.
#[derive(Drop)]
struct Seat {
    pass: ParcelPass<Value>,
    wait: Option<WaitId>,
}

/// Sends.
fn send(hub: &ParcelHub<Value>, seat: &mut Seat, value: Value) -> Answer
    requires of { IsOf hub.now seat.old.pass }
    ensures kept { Keeps hub.now seat.old.pass seat.new.pass }
    ensures wait { HasWait hub.now seat.new.pass seat.new.wait }
{
    seat.wait = None;
    match hub.send(&mut seat.pass, value) {
        ParcelSent::Sent(to, admitted) => (Word::Sent, u32::from(to.unwrap_or(NOBODY)), admitted),
        ParcelSent::Waits(wait, admitted) => {
            seat.wait = Some(wait);
            (Word::Waits, wait.place, admitted)
        }
        ParcelSent::Closed(back, with) => (Word::Closed, back, u64::from(with)),
        ParcelSent::Spent(back) => (Word::Spent, back, 0),
        ParcelSent::NoParcel(back) => (Word::NoNumber, back, 0),
        ParcelSent::Lost => OTHER,
    }
}

/// Receives. A value of which a sender waited is another answer.
fn receive(hub: &ParcelHub<Value>, seat: &mut Seat) -> Answer
    requires of { IsOf hub.now seat.old.pass }
    ensures kept { Keeps hub.now seat.old.pass seat.new.pass }
    ensures wait { HasWait hub.now seat.new.pass seat.new.wait }
{
    seat.wait = None;
    match hub.receive(&mut seat.pass) {
        ParcelGot::Value(value, None, admitted) => (Word::Value, value, admitted),
        ParcelGot::Waits(wait) => {
            seat.wait = Some(wait);
            (Word::Waits, wait.place, 0)
        }
        _ => OTHER,
    }
}

/// Sends without a wait.
fn try_send(hub: &ParcelHub<Value>, pass: &mut ParcelPass<Value>, value: Value) -> Answer
    requires of { IsOf hub.now pass.old }
    ensures kept { Keeps hub.now pass.old pass.new }
{
    match hub.try_send(pass, value) {
        ParcelOffered::Sent(to) => (Word::Sent, u32::from(to.unwrap_or(NOBODY)), 0),
        ParcelOffered::Full(back) => (Word::Full, back, 0),
        ParcelOffered::Closed(back, with) => (Word::Closed, back, u64::from(with)),
        ParcelOffered::NoParcel(back) => (Word::NoNumber, back, 0),
        _ => OTHER,
    }
}

/// Receives without a wait. A value of which a sender waited is another answer.
fn try_receive(hub: &ParcelHub<Value>, pass: &mut ParcelPass<Value>) -> Answer
    requires of { IsOf hub.now pass.old }
    ensures kept { Keeps hub.now pass.old pass.new }
{
    match hub.try_receive(pass) {
        ParcelTried::Value(value, None, admitted) => (Word::Value, value, admitted),
        ParcelTried::Empty => (Word::Nothing, 0, 0),
        ParcelTried::Closed(with) => (Word::Closed, with, 0),
        _ => OTHER,
    }
}

/// Closes the channel.
fn close(hub: &ParcelHub<Value>, pass: &mut ParcelPass<Value>) -> Answer
    requires of { IsOf hub.now pass.old }
    ensures kept { Keeps hub.now pass.old pass.new }
{
    if hub.close(pass, 4).is_ok() {
        CLOSES
    } else {
        OTHER
    }
}

/// Closes the channel, and tells its first receiver.
fn close_and_tell(hub: &ParcelHub<Value>, pass: &mut ParcelPass<Value>) -> Answer
    requires of { IsOf hub.now pass.old }
    ensures kept { Keeps hub.now pass.old pass.new }
{
    let (closed, told) = close_and_wake(hub, pass, 4);
    if closed {
        (Word::Closes, u32::from(told.unwrap_or(NOBODY)), 0)
    } else {
        OTHER
    }
}

/// Closes the channel, cancels it, and drains the one value that stands there, for which nobody waits.
fn cancel_and_drain(hub: &ParcelHub<Value>, pass: &mut ParcelPass<Value>) -> Answer
    requires of { IsOf hub.now pass.old }
    ensures kept { Keeps hub.now pass.old pass.new }
{
    let (closed, voided) = cancel(hub, pass);
    let drained = drain_one(hub, pass);
    let no_more = drain_one(hub, pass).is_none();
    match drained {
        Some((Some(value), None)) if closed && voided && no_more => (Word::Drained, value, 0),
        _ => OTHER,
    }
}

/// How far the wait is.
fn look(hub: &ParcelHub<Value>, seat: &mut Seat) -> Answer
    requires of { IsOf hub.now seat.old.pass }
    requires wait { HasWait hub.now seat.old.pass seat.old.wait }
    ensures kept { Keeps hub.now seat.old.pass seat.new.pass }
    ensures wait { HasWait hub.now seat.new.pass seat.new.wait }
{
    let Some(wait) = seat.wait else {
        return OTHER;
    };
    match look_at(hub, &mut seat.pass, wait) {
        WaitState::Standing => (Word::Standing, wait.place, 0),
        _ => OTHER,
    }
}

/// What became of a wait.
fn settled(found: ParcelSettled<Value>, whose: Tag) -> Answer {
    match found {
        ParcelSettled::Closed(with) => (Word::Closed, with, u64::from(whose)),
        ParcelSettled::Cancelled(Some(back)) => (Word::Back, back, u64::from(whose)),
        ParcelSettled::Undelivered(value) => (Word::Undelivered, value, u64::from(whose)),
        _ => OTHER,
    }
}

/// Takes the wait back, and asks what became of it.
fn give_up(hub: &ParcelHub<Value>, seat: &mut Seat) -> Answer
    requires of { IsOf hub.now seat.old.pass }
    requires wait { HasWait hub.now seat.old.pass seat.old.wait }
    ensures kept { Keeps hub.now seat.old.pass seat.new.pass }
    ensures wait { HasWait hub.now seat.new.pass seat.new.wait }
{
    let Some(wait) = seat.wait.take() else {
        return OTHER;
    };
    let whose = match take_back(hub, &mut seat.pass, wait) {
        Withdrawn::Done(tag) => tag,
        Withdrawn::Late => NOBODY,
    };
    settled(hub.settle(&mut seat.pass, wait, true), whose)
}

/// What became of the wait, which was resolved.
fn settle(hub: &ParcelHub<Value>, seat: &mut Seat) -> Answer
    requires of { IsOf hub.now seat.old.pass }
    requires wait { HasWait hub.now seat.old.pass seat.old.wait }
    ensures kept { Keeps hub.now seat.old.pass seat.new.pass }
    ensures wait { HasWait hub.now seat.new.pass seat.new.wait }
{
    let Some(wait) = seat.wait.take() else {
        return OTHER;
    };
    let WaitState::Resolved = look_at(hub, &mut seat.pass, wait) else {
        return OTHER;
    };
    settled(hub.settle(&mut seat.pass, wait, false), NOBODY)
}

/// Makes a call that makes no wait.
fn make_plain(hub: &ParcelHub<Value>, pass: &mut ParcelPass<Value>, call: Call) -> Answer
    requires of { IsOf hub.now pass.old }
    ensures kept { Keeps hub.now pass.old pass.new }
{
    match call {
        Call::TrySend(value) => try_send(hub, pass, value),
        Call::TryReceive => try_receive(hub, pass),
        Call::Close => close(hub, pass),
        Call::CloseAndTell => close_and_tell(hub, pass),
        Call::CancelAndDrain => cancel_and_drain(hub, pass),
        _ => OTHER,
    }
}

/// Makes the call by this pass.
fn make(hub: &ParcelHub<Value>, seat: &mut Seat, call: Call) -> Answer
    requires of { IsOf hub.now seat.old.pass }
    requires wait { HasWait hub.now seat.old.pass seat.old.wait }
    ensures kept { Keeps hub.now seat.old.pass seat.new.pass }
    ensures wait { HasWait hub.now seat.new.pass seat.new.wait }
{
    match call {
        Call::Send(value) => send(hub, seat, value),
        Call::Receive => receive(hub, seat),
        Call::Look => look(hub, seat),
        Call::GiveUp => give_up(hub, seat),
        Call::Settle => settle(hub, seat),
        _ => {
            seat.wait = None;
            make_plain(hub, &mut seat.pass, call)
        }
    }
}

/// Makes the call by one of the passes.
fn make_by(hub: &ParcelHub<Value>, one: &mut Seat, two: &mut Seat, by: By, call: Call) -> Answer
    requires one { IsOf hub.now one.old.pass × HasWait hub.now one.old.pass one.old.wait }
    requires two { IsOf hub.now two.old.pass × HasWait hub.now two.old.pass two.old.wait }
    ensures one { Keeps hub.now one.old.pass one.new.pass × HasWait hub.now one.new.pass one.new.wait }
    ensures two { Keeps hub.now two.old.pass two.new.pass × HasWait hub.now two.new.pass two.new.wait }
{
    match (by, call) {
        (By::Two, Call::Meet) => {
            one.wait = None;
            two.wait = None;
            hub.meet(&mut two.pass, &mut one.pass);
            (Word::Done, 0, 0)
        }
        (By::One, _) => make(hub, one, call),
        (By::Two, _) => make(hub, two, call),
    }
}

/// Makes the calls. Whether each answered as its row says.
fn are_right(
    hub: &ParcelHub<Value>,
    one: &mut Seat,
    two: &mut Seat,
    rows: &[(By, Call, Answer)],
) -> bool
    requires one { IsOf hub.now one.old.pass × HasWait hub.now one.old.pass one.old.wait }
    requires two { IsOf hub.now two.old.pass × HasWait hub.now two.old.pass two.old.wait }
    ensures one { Keeps hub.now one.old.pass one.new.pass }
    ensures two { Keeps hub.now two.old.pass two.new.pass }
{
    let mut right = true;
    for &(by, call, answer) in rows {
        let found = make_by(hub, one, two, by, call);
        right = right & (found == answer);
    }
    right
}

/// The one value that lies in these slots, and in which. Of several the last, with 100 for each before it.
fn left_in(slots: &[Option<Value>]) -> Option<(usize, Value)> {
    let mut left = None;
    let mut at = 0usize;
    for slot in slots {
        if let Some(value) = slot {
            left = match left {
                None => Some((at, *value)),
                Some((_, before)) => Some((at, value.saturating_add(before).saturating_add(100))),
            };
        }
        at = at.saturating_add(1);
    }
    left
}

/// Makes these calls on a channel of this kind, with so many places and numbers. Whether each answered as its row says, and this is what
/// lies in the slots in the end.
fn went(
    alloc: Global,
    kind: Kind,
    places: u32,
    parcels: u32,
    rows: &[(By, Call, Answer)],
    left: Option<(usize, Value)>,
) -> bool
    requires kind { KeepsAll kind }
    requires places { (1 ≤ places) × (places ≤ 1048576) }
    requires parcels { (1 ≤ parcels) × (parcels ≤ 1048576) }
{
    let Ok((hub, three)) = new_channel::<Value>(alloc, kind, places, parcels) else {
        return false;
    };
    let Three { main, one, two } = three;
    let mut one = Seat {
        pass: one,
        wait: None,
    };
    let mut two = Seat {
        pass: two,
        wait: None,
    };
    let right = are_right(&hub, &mut one, &mut two, rows);
    let (Seat { pass: one, .. }, Seat { pass: two, .. }) = (one, two);
    let rest = rest_of(hub, main, one, two);
    right & (rest.len() == parcels as usize) & (left_in(rest.as_slice()) == left)
}

const SENT: Answer = (Word::Sent, 99, 0);

const CLOSES: Answer = (Word::Closes, 99, 0);

/// A value that was handed to a cancelled receiver is given up.
const A_LATE_VALUE_IS_GIVEN_UP: [(By, Call, Answer); 3] = [
    (By::One, Call::Receive, (Word::Waits, 0, 0)),
    (By::Two, Call::Send(70), (Word::Sent, 1, 0)),
    (By::One, Call::GiveUp, (Word::Undelivered, 70, 99)),
];

/// An offer that is withdrawn comes back.
const A_WITHDRAWN_OFFER_COMES_BACK: [(By, Call, Answer); 3] = [
    (By::One, Call::Send(70), (Word::Waits, 0, 0)),
    (By::One, Call::GiveUp, (Word::Back, 70, 1)),
    (By::One, Call::Send(71), (Word::NoNumber, 71, 0)),
];

/// A closed channel gives the value back.
const A_CLOSED_CHANNEL_GIVES_BACK: [(By, Call, Answer); 2] = [
    (By::Two, Call::Close, CLOSES),
    (By::One, Call::Send(70), (Word::Closed, 70, 4)),
];

/// A channel without a place gives the value back.
const WITHOUT_A_PLACE_IT_GIVES_BACK: [(By, Call, Answer); 2] = [
    (By::One, Call::Send(70), SENT),
    (By::One, Call::Send(71), (Word::Spent, 71, 0)),
];

/// A receiver is told of the close.
const A_RECEIVER_IS_TOLD_OF_THE_CLOSE: [(By, Call, Answer); 4] = [
    (By::One, Call::Receive, (Word::Waits, 0, 0)),
    (By::One, Call::Look, (Word::Standing, 0, 0)),
    (By::Two, Call::CloseAndTell, (Word::Closes, 1, 0)),
    (By::One, Call::Settle, (Word::Closed, 4, 99)),
];

/// An admitted value is drained.
const AN_ADMITTED_VALUE_IS_DRAINED: [(By, Call, Answer); 4] = [
    (By::One, Call::Send(70), SENT),
    (By::One, Call::Send(71), (Word::Waits, 1, 0)),
    (By::Two, Call::Receive, (Word::Value, 70, 2)),
    (By::One, Call::CancelAndDrain, (Word::Drained, 71, 0)),
];

/// Who meets another has seen what it saw.
const WHO_MEETS_ANOTHER_HAS_SEEN_IT: [(By, Call, Answer); 3] = [
    (By::One, Call::Send(70), SENT),
    (By::Two, Call::Meet, (Word::Done, 0, 0)),
    (By::Two, Call::Receive, (Word::Value, 70, 0)),
];

/// A receive that never waits takes what is there.
const A_TRY_TAKES_WHAT_IS_THERE: [(By, Call, Answer); 5] = [
    (By::Two, Call::TryReceive, (Word::Nothing, 0, 0)),
    (By::One, Call::Send(70), SENT),
    (By::Two, Call::TryReceive, (Word::Value, 70, 0)),
    (By::One, Call::Close, CLOSES),
    (By::Two, Call::TryReceive, (Word::Closed, 4, 0)),
];

/// Who receives names whom it admits.
const WHO_RECEIVES_NAMES_WHOM_IT_ADMITS: [(By, Call, Answer); 4] = [
    (By::One, Call::Send(70), SENT),
    (By::Two, Call::Send(71), (Word::Waits, 1, 0)),
    (By::One, Call::Receive, (Word::Value, 70, 4)),
    (By::One, Call::Receive, (Word::Value, 71, 0)),
];

/// A send that never waits gives back what it did not send.
const A_TRY_GIVES_BACK_WHAT_IS_NOT_SENT: [(By, Call, Answer); 8] = [
    (By::One, Call::TrySend(70), SENT),
    (By::One, Call::TrySend(71), (Word::Full, 71, 0)),
    (By::Two, Call::Receive, (Word::Value, 70, 0)),
    (By::Two, Call::Receive, (Word::Waits, 1, 0)),
    (By::One, Call::TrySend(72), (Word::Sent, 2, 0)),
    (By::Two, Call::Close, CLOSES),
    (By::One, Call::TrySend(73), (Word::Closed, 73, 4)),
    (By::One, Call::TrySend(74), (Word::NoNumber, 74, 0)),
];

/// Two sends by the one, which is let go; and a receive.
fn lets_go(hub: &ParcelHub<Value>, mut one: Seat, two: &mut Seat) -> bool
    requires one { IsOf hub.now one.pass }
    requires two { IsOf hub.now two.old.pass }
{
    let first = send(hub, &mut one, 70) == SENT;
    let second = send(hub, &mut one, 71) == SENT;
    drop(one);
    first & second & (receive(hub, two) == (Word::Value, 70, 0))
}

/// A channel can be let go although a pass was.
fn is_let_go(alloc: Global) -> bool {
    match new_channel::<Value>(alloc, Kind::Unlimited, 4, 4) {
        Ok((hub, three)) => {
            let Three {
                main: _main,
                one,
                two,
            } = three;
            let one = Seat {
                pass: one,
                wait: None,
            };
            let mut two = Seat {
                pass: two,
                wait: None,
            };
            lets_go(&hub, one, &mut two)
        }
        Err(_) => false,
    }
}

/// Whether each of them goes as its name says.
pub(crate) fn found(alloc: Global) -> [bool; 11] {
    let (met, one, all) = (Kind::Rendezvous, Kind::Buffered(1), Kind::Unlimited);
    let (spent, handed) = (Some((0, 70)), Some((2, 72)));
    [
        went(alloc, met, 4, 4, &A_LATE_VALUE_IS_GIVEN_UP, None),
        went(alloc, met, 4, 1, &A_WITHDRAWN_OFFER_COMES_BACK, None),
        went(alloc, met, 4, 1, &A_CLOSED_CHANNEL_GIVES_BACK, None),
        went(alloc, all, 1, 2, &WITHOUT_A_PLACE_IT_GIVES_BACK, spent),
        went(alloc, met, 4, 1, &A_RECEIVER_IS_TOLD_OF_THE_CLOSE, None),
        went(alloc, one, 4, 4, &AN_ADMITTED_VALUE_IS_DRAINED, None),
        went(alloc, all, 4, 4, &WHO_MEETS_ANOTHER_HAS_SEEN_IT, None),
        went(alloc, all, 4, 4, &A_TRY_TAKES_WHAT_IS_THERE, None),
        went(alloc, one, 4, 4, &WHO_RECEIVES_NAMES_WHOM_IT_ADMITS, None),
        went(alloc, one, 4, 4, &A_TRY_GIVES_BACK_WHAT_IS_NOT_SENT, handed),
        is_let_go(alloc),
    ]
}
