//! Calls of several coroutines on one channel, worked out by hand: on lists, and over words with a pass for each coroutine.

ghost use Rattle.std.specs.Prelude.{◌≡◌, ◌≤◌, ℕ, true, false};
ghost use Rattle.channel_model.specs.Channels.{is_signal};
ghost use Rattle.one_thread_floor.specs.ListFloors.{MayBeMade};
ghost use Rattle.cell_words.specs.Hubs.{IsOwn};
ghost use Rattle.cell_calls.specs.Desks.{desk_floor, desk_anchor};
ghost use Rattle.cell_calls.specs.HubFloors.{hub_floor};
ghost use Rattle.floor_rows.specs.Known.{Knows, nothing};
ghost use Rattle.floor_rows.specs.Callers.{IsCaller};

use crate::compare::compare;
use crate::known::{Known, Three};
use crate::known_calls::{Call, Then, answers, nothing};
use cell_calls::Desk;
use cell_words::{Hub, Pass};
use channel_model::{
    AlreadyClosed, ChannelFloor, Got, Kind, Offered, Settled, TriedGot, TriedOffer, WaitState,
    Withdrawn,
};
use co_base::{Memory, Tag};
use one_thread_floor::ListFloor;
use std::alloc::Global;
use std::test::Fail;

// ---- on one floor

/// How many of the calls answer so, from the first on, on a floor on which everybody may call.
fn right_on<F: ChannelFloor>(floor: &mut F, calls: &[(Tag, Call)]) -> usize
    requires all { (t : ℕ) → (F.view floor.old).callers t ≡ true }
    requires knows { Knows nothing (F.view floor.old) }
{
    let mut known = nothing();
    for i in 0..calls.len() {
        let (who, call) = calls[i];
        if !answers(floor, &mut known, who, call) {
            return i;
        }
    }
    calls.len()
}

/// The same on a floor of lists.
fn right_on_list(
    alloc: Global,
    kind: Kind,
    places: u32,
    calls: &[(Tag, Call)],
) -> Result<usize, Memory>
    requires elements { is_signal kind ≡ false }
    requires may { MayBeMade (kind, places) }
{
    let mut floor = ListFloor::new(alloc, &[(kind, places)])?;
    Ok(right_on(&mut floor, calls))
}

// ---- over words

/// Whether the call answers so; and what is known then.
fn answers_on_desk(desk: &mut Desk<'_>, known: &mut Known, who: Tag, call: Call) -> bool
    requires caller { (desk_floor desk.old).callers who ≡ true }
    requires knows { Knows known.old (desk_floor desk.old) }
    ensures anchor { desk_anchor desk.new ≡ desk_anchor desk.old }
    ensures own { IsOwn desk.old.hub.now desk.new.pass.now who }
    ensures knows { Knows known.new (hub_floor desk.old.hub.now desk.new.pass.now) }
{
    answers(desk, known, who, call)
}

/// The same by a pass.
fn answers_by(hub: &Hub, pass: &mut Pass, known: &mut Known, who: Tag, call: Call) -> bool
    requires is { IsCaller hub.now who pass.old known.old }
    ensures is { IsCaller hub.now who pass.new known.new }
{
    let mut desk = Desk { hub, pass };
    answers_on_desk(&mut desk, known, who, call)
}

/// The same by the coroutine with this tag, which is 1, 2 or 3.
fn answers_of_three(
    hub: &Hub,
    a: &mut Pass,
    b: &mut Pass,
    c: &mut Pass,
    known: &mut Three,
    who: Tag,
    call: Call,
) -> bool
    requires a { IsCaller hub.now 1 a.old known.old.a }
    requires b { IsCaller hub.now 2 b.old known.old.b }
    requires c { IsCaller hub.now 3 c.old known.old.c }
    ensures a { IsCaller hub.now 1 a.new known.new.a }
    ensures b { IsCaller hub.now 2 b.new known.new.b }
    ensures c { IsCaller hub.now 3 c.new known.new.c }
{
    match who {
        1 => answers_by(hub, a, &mut known.a, 1, call),
        2 => answers_by(hub, b, &mut known.b, 2, call),
        _ => answers_by(hub, c, &mut known.c, 3, call),
    }
}

/// How many of the calls answer so, from the first on.
fn right_of_three(
    hub: &Hub,
    a: &mut Pass,
    b: &mut Pass,
    c: &mut Pass,
    calls: &[(Tag, Call)],
) -> usize
    requires a { IsCaller hub.now 1 a.old nothing }
    requires b { IsCaller hub.now 2 b.old nothing }
    requires c { IsCaller hub.now 3 c.old nothing }
{
    let mut known = Three {
        a: nothing(),
        b: nothing(),
        c: nothing(),
    };
    for i in 0..calls.len() {
        let (who, call) = calls[i];
        if !answers_of_three(hub, a, b, c, &mut known, who, call) {
            return i;
        }
    }
    calls.len()
}

/// The same on a hub, by a pass for each.
fn right_on_hub(
    alloc: Global,
    kind: Kind,
    places: u32,
    calls: &[(Tag, Call)],
) -> Result<usize, Memory>
    requires elements { is_signal kind ≡ false }
    requires some { 1 ≤ places }
    requires few { places ≤ 1048576 }
{
    let (hub, mut main) = Hub::new(alloc, &[(kind, places)])?;
    let mut a = hub.split(&mut main, 1);
    let mut b = hub.split(&mut main, 2);
    let mut c = hub.split(&mut main, 3);
    Ok(right_of_three(&hub, &mut a, &mut b, &mut c, calls))
}

// ---- the rows

/// An offer that waits is kept once there is room; a closed channel is cancelled and emptied.
const KEPT: &[(Tag, Call)] = &[
    (1, Call::Offer(7, Offered::Put(0))),
    (2, Call::Offer(8, Offered::Held(1))),
    (3, Call::Receive(Got::Taken(0, 7, None))),
    (3, Call::Admit(2, Some((1, 2)))),
    (3, Call::Admit(2, None)),
    (2, Call::Look(WaitState::Resolved)),
    (2, Call::Settle(false, Settled::Sent(0))),
    (1, Call::Close(4, Ok(()))),
    (1, Call::Close(5, Err(AlreadyClosed { v: 4 }))),
    (1, Call::Offer(9, Offered::Closed(4))),
    (1, Call::Void(true)),
    (1, Call::Void(false)),
    (1, Call::Drain(Some((1, 8, None)))),
    (1, Call::Drain(None)),
];

/// A channel without a free place is closed, and its receiver told.
const SPENT: &[(Tag, Call)] = &[
    (1, Call::Receive(Got::Waiting(0))),
    (2, Call::Receive(Got::Spent)),
    (2, Call::TryReceive(TriedGot::Empty)),
    (3, Call::Close(0, Ok(()))),
    (3, Call::Wake(Some((0, 1)))),
    (3, Call::Wake(None)),
    (1, Call::Look(WaitState::Resolved)),
    (1, Call::Settle(false, Settled::Closed(0, 0))),
];

/// A withdraw comes too late, and the element is given up.
const LATE: &[(Tag, Call)] = &[
    (1, Call::Receive(Got::Waiting(0))),
    (2, Call::Offer(5, Offered::Handed(0, 1))),
    (1, Call::Withdraw(Withdrawn::Late)),
    (1, Call::Settle(true, Settled::Undelivered(5))),
];

/// Who withdrew is passed by, until no place is left.
const WITHDRAWN: &[(Tag, Call)] = &[
    (1, Call::Receive(Got::Waiting(0))),
    (1, Call::Withdraw(Withdrawn::Done(1))),
    (2, Call::Offer(5, Offered::Held(1))),
    (2, Call::Withdraw(Withdrawn::Done(2))),
    (1, Call::Receive(Got::Waiting(2))),
    (2, Call::Offer(6, Offered::Handed(2, 1))),
    (2, Call::Offer(7, Offered::Held(3))),
    (3, Call::Offer(8, Offered::Spent)),
];

/// What is kept is received before what waits, and then nobody stands.
const RECEIVED: &[(Tag, Call)] = &[
    (1, Call::Offer(7, Offered::Put(0))),
    (1, Call::Offer(8, Offered::Held(1))),
    (2, Call::Receive(Got::Taken(0, 7, None))),
    (2, Call::Receive(Got::Taken(1, 8, Some(1)))),
    (1, Call::Look(WaitState::Resolved)),
    (1, Call::Settle(false, Settled::Sent(0))),
    (2, Call::Receive(Got::Waiting(2))),
];

/// Another element is received, and then nothing is removed of the first one.
const KEPT_LATER: Then = Then::SpurnsLater(None);

/// Two elements are kept, and one that comes then is not; but it is kept where another was received before it was looked for.
const LATEST: &[(Tag, Call)] = &[
    (1, Call::Put(1, 0, Then::Spurns(None))),
    (2, Call::Put(2, 1, Then::Spurns(None))),
    (1, Call::Put(3, 2, Then::Spurns(Some(3)))),
    (2, Call::Put(4, 3, KEPT_LATER)),
    (3, Call::Receive(Got::Taken(1, 2, None))),
    (3, Call::Receive(Got::Taken(3, 4, None))),
    (3, Call::TryReceive(TriedGot::Empty)),
    (1, Call::Put(5, 4, Then::Spurns(None))),
    (2, Call::Put(6, 5, Then::Spurns(None))),
    (1, Call::Put(7, 6, KEPT_LATER)),
];

/// Two sides meet in order, until no place is left.
const RENDEZVOUS: &[(Tag, Call)] = &[
    (1, Call::Receive(Got::Waiting(0))),
    (2, Call::Receive(Got::Waiting(1))),
    (3, Call::Offer(70, Offered::Handed(0, 1))),
    (3, Call::TryOffer(71, TriedOffer::Handed(1, 2))),
    (3, Call::Offer(72, Offered::Held(2))),
    (1, Call::TryOffer(73, TriedOffer::Full)),
    (1, Call::Offer(73, Offered::Held(3))),
    (1, Call::Mark(4)),
    (1, Call::Admit(4, None)),
    (2, Call::Offer(74, Offered::Spent)),
    (2, Call::TryOffer(74, TriedOffer::Spent)),
    (1, Call::Receive(Got::Taken(2, 72, Some(3)))),
    (1, Call::TryReceive(TriedGot::Taken(3, 73, Some(1)))),
    (1, Call::TryReceive(TriedGot::Empty)),
    (1, Call::Receive(Got::Spent)),
];

/// A call that never waits is refused, before the close and after it.
const TRIED: &[(Tag, Call)] = &[
    (1, Call::TryOffer(1, TriedOffer::Full)),
    (1, Call::TryReceive(TriedGot::Empty)),
    (1, Call::Close(0, Ok(()))),
    (1, Call::TryReceive(TriedGot::Closed(0))),
    (1, Call::TryOffer(2, TriedOffer::Closed(0))),
];

/// Two elements are put where two were taken before anybody was admitted; the count of those that are kept goes over them.
const LEADS: &[(Tag, Call)] = &[
    (1, Call::Put(1, 0, Then::Trims(None))),
    (1, Call::Put(2, 1, Then::Trims(None))),
    (2, Call::Offer(3, Offered::Held(2))),
    (3, Call::Receive(Got::Taken(0, 1, None))),
    (3, Call::Receive(Got::Taken(1, 2, None))),
    (1, Call::Put(4, 3, Then::Trims(None))),
    (3, Call::Offer(5, Offered::Held(4))),
    (3, Call::Mark(5)),
    (3, Call::Admit(5, Some((2, 2)))),
    (3, Call::Mark(5)),
    (3, Call::Admit(5, None)),
    (3, Call::Receive(Got::Taken(2, 3, None))),
    (3, Call::Mark(5)),
    (3, Call::Admit(5, Some((4, 3)))),
    (3, Call::Mark(5)),
    (3, Call::Admit(5, None)),
];

/// The newest element alone is kept.
const CONFLATED: &[(Tag, Call)] = &[
    (1, Call::Put(1, 0, Then::Trims(None))),
    (1, Call::Put(2, 1, Then::Trims(Some((0, 1))))),
    (1, Call::TryPut(3, 2, Then::Trims(Some((1, 2))))),
    (1, Call::Mark(3)),
    (1, Call::Admit(3, None)),
    (1, Call::Receive(Got::Taken(2, 3, None))),
    (1, Call::TryReceive(TriedGot::Empty)),
];

/// The oldest element is dropped, and only while too many stand.
const DROP_OLDEST: &[(Tag, Call)] = &[
    (1, Call::Put(1, 0, Then::Trims(None))),
    (1, Call::Put(2, 1, Then::Trims(None))),
    (1, Call::Put(3, 2, Then::Trims(Some((0, 1))))),
    (1, Call::Receive(Got::Taken(1, 2, None))),
    (1, Call::Put(4, 3, Then::Trims(None))),
    (1, Call::TryPut(5, 4, Then::Trims(Some((2, 3))))),
    (1, Call::Receive(Got::Taken(3, 4, None))),
    (1, Call::Receive(Got::Taken(4, 5, None))),
    (1, Call::TryReceive(TriedGot::Empty)),
];

/// What came first is kept, and an element is removed again that came when enough stood.
const DROP_LATEST: &[(Tag, Call)] = &[
    (1, Call::Put(1, 0, Then::Spurns(None))),
    (2, Call::Put(2, 1, Then::Spurns(None))),
    (1, Call::Put(3, 2, Then::Spurns(Some(3)))),
    (2, Call::Put(4, 3, Then::Spurns(Some(4)))),
    (1, Call::Mark(4)),
    (1, Call::Admit(4, None)),
    (1, Call::Receive(Got::Taken(0, 1, None))),
    (1, Call::Put(5, 4, Then::Spurns(None))),
    (1, Call::Put(6, 5, Then::Spurns(Some(6)))),
    (1, Call::Receive(Got::Taken(1, 2, None))),
    (1, Call::TryReceive(TriedGot::Taken(4, 5, None))),
    (1, Call::TryReceive(TriedGot::Empty)),
];

/// What was sent before a close is still received.
const CLOSED: &[(Tag, Call)] = &[
    (1, Call::Put(7, 0, Then::Trims(None))),
    (1, Call::Put(8, 1, Then::Trims(None))),
    (1, Call::Close(0, Ok(()))),
    (1, Call::Close(3, Err(AlreadyClosed { v: 0 }))),
    (1, Call::Receive(Got::Taken(0, 7, None))),
    (1, Call::TryReceive(TriedGot::Taken(1, 8, None))),
    (1, Call::Receive(Got::Closed(0))),
    (1, Call::TryReceive(TriedGot::Closed(0))),
    (1, Call::Offer(9, Offered::Closed(0))),
];

/// Calls on a channel of this kind, with so many places.
#[derive(Clone, Copy)]
struct Table {
    kind: Kind,
    places: u32,
    calls: &'static [(Tag, Call)],
}

macro_rules! table {
    ($kind:expr, $places:expr, $calls:expr) => {
        Table {
            kind: $kind,
            places: $places,
            calls: $calls,
        }
    };
}

const TABLES: [Table; 13] = [
    table!(Kind::Buffered(1), 3, KEPT),
    table!(Kind::Rendezvous, 1, SPENT),
    table!(Kind::Rendezvous, 4, LATE),
    table!(Kind::Rendezvous, 4, WITHDRAWN),
    table!(Kind::Buffered(1), 4, RECEIVED),
    table!(Kind::DropLatest(2), 7, LATEST),
    table!(Kind::Rendezvous, 4, RENDEZVOUS),
    table!(Kind::Rendezvous, 4, TRIED),
    table!(Kind::Buffered(2), 8, LEADS),
    table!(Kind::Unlimited, 4, CLOSED),
    table!(Kind::Conflated, 4, CONFLATED),
    table!(Kind::DropOldest(2), 8, DROP_OLDEST),
    table!(Kind::DropLatest(2), 8, DROP_LATEST),
];

/// Whether a channel may be of this kind, with so many places, and carries elements.
fn may_be_made(kind: Kind, places: u32) -> bool
    ensures elements { result ≡ true → is_signal kind ≡ false }
    ensures may { result ≡ true → MayBeMade (kind, places) }
{
    if places == 0 || places > 1048576 {
        return false;
    }
    match kind {
        Kind::Rendezvous | Kind::Unlimited | Kind::Conflated => true,
        Kind::Buffered(most) | Kind::DropOldest(most) | Kind::DropLatest(most) => most > 0,
        Kind::Signal => false,
    }
}

/// The number of the first table of which not all calls answer so, and how many do from the first on: on a list, and over words.
fn first_other(alloc: Global, tables: &[Table]) -> Result<Option<(usize, [usize; 2])>, Fail> {
    for (number, table) in tables.iter().enumerate() {
        let Table {
            kind,
            places,
            calls,
        } = *table;
        if !may_be_made(kind, places) {
            return Err(Fail::new("a table has no channel"));
        }
        let on_list = right_on_list(alloc, kind, places, calls)?;
        let on_hub = right_on_hub(alloc, kind, places, calls)?;
        if on_list != calls.len() || on_hub != calls.len() {
            return Ok(Some((number, [on_list, on_hub])));
        }
    }
    Ok(None)
}

#[test]
fn calls_on_a_channel_are_answered_as_their_tables_say(rt: HostRuntime) -> Result<(), Fail> {
    let other = first_other(rt.alloc(), &TABLES)?;
    compare(&rt, &other, &None);
    Ok(())
}
