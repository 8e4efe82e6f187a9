//! What calls by passes on one channel over words answer, worked out by hand, and what four threads come to.

ghost use Rattle.std.specs.Prelude.{◌≡◌, ℕ, ◌<◌, false, true, length, slice_index_or};
ghost use Rattle.std.specs.List.{All};
ghost use Rattle.channel_model.specs.Channels.{kind_at, is_signal};
ghost use Rattle.channel_model.specs.Histories.{replay};
ghost use Rattle.channel_model.specs.Answers.{IsOwnWait};
ghost use Rattle.word_rules.specs.Cells.{spot};
ghost use Rattle.word_rules.specs.Words.{IsCell};
ghost use Rattle.cell_words.specs.Hubs.{shape_of, seen_by, IsOf, IsOwn};

use crate::compare::compare;
use cell_words::{Hub, Pass, load_cell, look_at, places_of};
use channel_model::{Got, Kind, Offered, Settled, WaitState, Why, Withdrawn};
use co_base::{Place, Tag, Value, WaitId};
use std::sync::Wait;
use std::test::Fail;
use std::thread::{self, Threads};

/// What some calls came to.
#[derive(Clone, Copy, Drop)]
struct Tally {
    /// How many found somebody of the other side; of looks, how many waits were resolved; of ends, how many receivers were handed an
    /// element.
    met: u32,
    /// How many began to wait; of looks, how many waits stand; of ends, how many offers were received.
    waits: u32,
    /// The sum of the elements that were received.
    received: u32,
}

const NONE: Tally = Tally {
    met: 0,
    waits: 0,
    received: 0,
};

const WAITS: Tally = Tally {
    met: 0,
    waits: 1,
    received: 0,
};

/// One that met somebody, and received this.
fn met(received: u32) -> Tally {
    Tally {
        met: 1,
        waits: 0,
        received,
    }
}

impl Tally {
    /// Both, added.
    fn and(self, other: Tally) -> Tally {
        Tally {
            met: self.met.wrapping_add(other.met),
            waits: self.waits.wrapping_add(other.waits),
            received: self.received.wrapping_add(other.received),
        }
    }
}

fn offer(hub: &Hub, pass: &mut Pass, who: Tag, value: Value) -> Offered
    requires own { IsOwn hub.now pass.old who }
    requires channel { 0 < length (shape_of hub.now) }
    requires kind { is_signal (kind_at (shape_of hub.now) 0) ≡ false }
    ensures own { IsOwn hub.now pass.new who }
{
    cell_calls::offer(hub, pass, who, 0, value)
}

fn receive(hub: &Hub, pass: &mut Pass, who: Tag) -> Got
    requires own { IsOwn hub.now pass.old who }
    requires channel { 0 < length (shape_of hub.now) }
    ensures own { IsOwn hub.now pass.new who }
{
    cell_calls::receive(hub, pass, who, 0)
}

/// Whether this coroutine's wait began here, and its element was not removed.
fn is_own(hub: &Hub, pass: &mut Pass, who: Tag, place: Place) -> bool
    requires own { IsOwn hub.now pass.old who }
    requires at { IsCell (shape_of hub.now) 0 place }
    ensures own { IsOwn hub.now pass.new who }
    ensures mine { result ≡ true → IsOwnWait who ((replay (seen_by pass.new).seen).waits (spot 0 place)) }
{
    let word = load_cell(hub, pass, who, 0, place);
    if word.own_wait {
        return word.holder == who as u32;
    }
    false
}

/// Withdraws the own wait that began here.
pub(crate) fn withdraw(hub: &Hub, pass: &mut Pass, who: Tag, place: Place) -> Option<Withdrawn>
    requires own { IsOwn hub.now pass.old who }
    requires channel { 0 < length (shape_of hub.now) }
    ensures own { IsOwn hub.now pass.new who }
{
    if place > places_of(hub, 0) {
        return None;
    }
    if is_own(hub, pass, who, place) {
        let w = WaitId { channel: 0, place };
        return Some(cell_calls::withdraw(hub, pass, who, w, Why::Cancelled));
    }
    None
}

/// Settles the own wait that began here, if it was resolved.
pub(crate) fn settle(
    hub: &Hub,
    pass: &mut Pass,
    who: Tag,
    place: Place,
    cancelled: bool,
) -> Option<Settled>
    requires own { IsOwn hub.now pass.old who }
    requires channel { 0 < length (shape_of hub.now) }
    ensures own { IsOwn hub.now pass.new who }
{
    if place > places_of(hub, 0) {
        return None;
    }
    if is_own(hub, pass, who, place) {
        let w = WaitId { channel: 0, place };
        return match look_at(hub, pass, who, w) {
            WaitState::Resolved => Some(cell_calls::settle(hub, pass, who, w, cancelled)),
            WaitState::Standing | WaitState::Settled => None,
        };
    }
    None
}

/// How far the own wait is that began here.
fn look(hub: &Hub, pass: &mut Pass, who: Tag, place: Place) -> Option<WaitState>
    requires own { IsOwn hub.now pass.old who }
    requires channel { 0 < length (shape_of hub.now) }
    ensures own { IsOwn hub.now pass.new who }
{
    if place > places_of(hub, 0) {
        return None;
    }
    if is_own(hub, pass, who, place) {
        let w = WaitId { channel: 0, place };
        return Some(cell_calls::look(hub, pass, who, w));
    }
    None
}

fn of_offer(offered: Offered) -> Tally {
    match offered {
        Offered::Handed(_, _) => met(0),
        Offered::Held(_) => WAITS,
        Offered::Put(_) | Offered::Closed(_) | Offered::Spent => NONE,
    }
}

fn of_got(got: Got) -> Tally {
    match got {
        Got::Taken(_, value, _) => met(value),
        Got::Waiting(_) => WAITS,
        Got::Closed(_) | Got::Spent => NONE,
    }
}

/// An offer of the i-th element from this one on, or a receive.
fn call(hub: &Hub, pass: &mut Pass, who: Tag, offers: Option<Value>, i: u32) -> Tally
    requires own { IsOwn hub.now pass.old who }
    requires channel { 0 < length (shape_of hub.now) }
    requires kind { is_signal (kind_at (shape_of hub.now) 0) ≡ false }
    ensures own { IsOwn hub.now pass.new who }
{
    match offers {
        Some(first) => of_offer(offer(hub, pass, who, first.wrapping_add(i))),
        None => of_got(receive(hub, pass, who)),
    }
}

/// 1,000 calls.
fn calls(hub: &Hub, pass: &mut Pass, who: Tag, offers: Option<Value>) -> Tally
    requires own { IsOwn hub.now pass.old who }
    requires channel { 0 < length (shape_of hub.now) }
    requires kind { is_signal (kind_at (shape_of hub.now) 0) ≡ false }
    ensures own { IsOwn hub.now pass.new who }
{
    let mut tally = NONE;
    'calls: for i in 0u32..1000 {
        tally = tally.and(call(hub, pass, who, offers, i));
    }
    tally
}

fn of_state(state: Option<WaitState>) -> Tally {
    match state {
        Some(WaitState::Standing) => WAITS,
        Some(WaitState::Resolved) => met(0),
        Some(WaitState::Settled) | None => NONE,
    }
}

/// How far the own waits are.
fn look_at_all(hub: &Hub, pass: &mut Pass, who: Tag) -> Tally
    requires own { IsOwn hub.now pass.old who }
    requires channel { 0 < length (shape_of hub.now) }
    ensures own { IsOwn hub.now pass.new who }
{
    let mut tally = NONE;
    'waits: for place in 0..places_of(hub, 0) {
        tally = tally.and(of_state(look(hub, pass, who, place)));
    }
    tally
}

fn of_end(end: Option<Settled>) -> Tally {
    match end {
        Some(Settled::Sent(_)) => WAITS,
        Some(Settled::Value(_, value)) => met(value),
        _ => NONE,
    }
}

/// Settles the own waits that were resolved.
fn settle_all(hub: &Hub, pass: &mut Pass, who: Tag) -> Tally
    requires own { IsOwn hub.now pass.old who }
    requires channel { 0 < length (shape_of hub.now) }
    ensures own { IsOwn hub.now pass.new who }
{
    let mut tally = NONE;
    'waits: for place in 0..places_of(hub, 0) {
        tally = tally.and(of_end(settle(hub, pass, who, place, false)));
    }
    tally
}

/// One coroutine with its pass, and the first of the elements that it offers, where it does not receive.
#[derive(Drop)]
struct Caller {
    pass: Pass,
    who: Tag,
    offers: Option<Value>,
    tally: Tally,
}

fn caller_of(hub: &Hub, pass: Pass, who: Tag, offers: Option<Value>) -> Caller
    requires own { IsOwn hub.now pass who }
    ensures own { IsOwn hub.now result.pass result.who }
{
    Caller {
        pass,
        who,
        offers,
        tally: NONE,
    }
}

/// What one thread does: 1,000 offers, or 1,000 receives.
fn work(hub: &Hub, caller: &mut Caller)
    requires own { IsOwn hub.now caller.old.pass caller.old.who }
    requires channel { 0 < length (shape_of hub.now) }
    requires kind { is_signal (kind_at (shape_of hub.now) 0) ≡ false }
    ensures own { IsOwn hub.now caller.new.pass caller.new.who }
{
    caller.tally = calls(hub, &mut caller.pass, caller.who, caller.offers);
}

/// The work of all, by a thread each.
fn at_once<R: Threads + Wait + Sync>(rt: &R, hub: &Hub, callers: &mut [Caller])
    requires own { All (λ c. IsOwn hub.now c.pass c.who) callers.old }
    requires channel { 0 < length (shape_of hub.now) }
    requires kind { is_signal (kind_at (shape_of hub.now) 0) ≡ false }
    ensures own { (i : ℕ) (d : Caller) → i < length callers.old
        → IsOwn hub.now (slice_index_or callers.new i d).pass (slice_index_or callers.new i d).who }
{
    thread::for_each_mut(rt, callers, 4, &|_, caller| work(hub, caller));
}

/// Ends a pass, whose coroutine may then call by the pass that took it in.
fn end_one(hub: &Hub, main: &mut Pass, pass: Pass, who: Tag)
    requires main { IsOf hub.now main.old }
    requires own { IsOwn hub.now pass who }
    ensures own { IsOwn hub.now main.new who }
{
    hub.end(main, pass);
}

/// What the calls of a coroutine came to, how far its waits are when all threads have ended, and how they ended, settled by the pass that
/// took the coroutine's in.
fn end(hub: &Hub, main: &mut Pass, caller: Caller) -> [Tally; 3]
    requires main { IsOf hub.now main.old }
    requires own { IsOwn hub.now caller.pass caller.who }
    requires channel { 0 < length (shape_of hub.now) }
    ensures main { IsOf hub.now main.new }
{
    let Caller {
        mut pass,
        who,
        offers: _,
        tally,
    } = caller;
    let waits = look_at_all(hub, &mut pass, who);
    end_one(hub, main, pass, who);
    [tally, waits, settle_all(hub, main, who)]
}

/// The same of two that both offer, or both receive.
fn both(a: [Tally; 3], b: [Tally; 3]) -> [Tally; 3] {
    [a[0].and(b[0]), a[1].and(b[1]), a[2].and(b[2])]
}

/// Of those who offered and those who received: how many calls there were, how many of their waits were resolved, how many stood, how many
/// were settled; and the sum of all elements that were received.
fn told_of(senders: [Tally; 3], receivers: [Tally; 3]) -> ([[u32; 2]; 4], u32) {
    let (sent, got) = (senders[0], receivers[0]);
    (
        [
            [
                sent.met.wrapping_add(sent.waits),
                got.met.wrapping_add(got.waits),
            ],
            [senders[1].met, receivers[1].met],
            [senders[1].waits, receivers[1].waits],
            [senders[2].waits, receivers[2].met],
        ],
        got.received.wrapping_add(receivers[2].received),
    )
}

/// The same where nothing is lost: as many offered as received, so that nobody is left on either side, and each of the elements 0 to 1,999
/// was received once.
fn told_of_all(senders: [Tally; 3], receivers: [Tally; 3]) -> ([[u32; 2]; 4], u32) {
    let met = [receivers[0].met, senders[0].met];
    ([[2000; 2], met, [0; 2], met], 1999000)
}

#[test]
fn four_threads_lose_no_call_and_no_element(rt: HostRuntime) -> Result<(), Fail> {
    let kinds = [(Kind::Rendezvous, 4000u32)];
    let (hub, mut main) = Hub::new(rt.alloc(), &kinds)?;
    let first = hub.split(&mut main, 1);
    let second = hub.split(&mut main, 2);
    let third = hub.split(&mut main, 3);
    let fourth = hub.split(&mut main, 4);
    let a = caller_of(&hub, first, 1, Some(0));
    let b = caller_of(&hub, second, 2, Some(1000));
    let c = caller_of(&hub, third, 3, None);
    let d = caller_of(&hub, fourth, 4, None);
    let mut callers = [a, b, c, d];
    at_once(&rt, &hub, &mut callers);
    let [a, b, c, d] = callers;
    let senders = both(end(&hub, &mut main, a), end(&hub, &mut main, b));
    let receivers = both(end(&hub, &mut main, c), end(&hub, &mut main, d));
    let found = told_of(senders, receivers);
    compare(&rt, &found, &told_of_all(senders, receivers));
    Ok(())
}
