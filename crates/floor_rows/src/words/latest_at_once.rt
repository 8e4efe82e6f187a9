//! A channel over words that does not keep its latest, while one thread sends and another receives.

ghost use Rattle.std.specs.Prelude.{◌≡◌, ℕ, [], ◌∷◌, IfOk};
ghost use Rattle.channel_model.specs.Answers.{HasPut};
ghost use Rattle.channel_model.specs.declared.floor.Offered.TheVariants as offered;
ghost use Rattle.cell_words.specs.Hubs.{shape_of, IsOf, IsOwn, GivesTags};
ghost use Rattle.cell_calls.specs.HubFloors.{hub_floor};
ghost use Rattle.floor_rows.specs.LatestChannels.{one_latest};

use crate::compare::compare;
use cell_calls::{offer, spurn, try_receive};
use cell_words::{Hub, Pass};
use channel_model::{Kind, Offered, TriedGot};
use co_base::{Memory, Place, Tag, Value};
use std::alloc::Global;
use std::sync::Wait;
use std::test::Fail;
use std::thread::{Threads, join};

/// A channel that keeps two elements, and has 40 places.
const KINDS: [(Kind, u32); 1] = [(Kind::DropLatest(2), 40)];

/// All values that are sent: 0 to 39, a bit each.
const ALL: u64 = 1099511627775;

fn new_hub(alloc: Global) -> Result<(Hub, Pass), Memory>
    ensures shape { IfOk result (λ r. shape_of r.0 ≡ one_latest) }
    ensures of { IfOk result (λ r. IsOf r.0 r.1) }
    ensures own { IfOk result (λ r. IsOwn r.0 r.1 0) }
    ensures gives { IfOk result (λ r. GivesTags (0 ∷ []) r.1) }
{
    Hub::new(alloc, &KINDS)
}

/// The bit of a value, if there is one.
fn bit(value: Option<Value>) -> u64 {
    match value {
        Some(value) => 1u64 << (value % 64),
        None => 0,
    }
}

/// Offers an element; where it was put, the place is the caller's own.
fn offer_one(hub: &Hub, pass: &mut Pass, who: Tag, value: Value) -> Offered
    requires shape { shape_of hub.now ≡ one_latest }
    requires own { IsOwn hub.now pass.old who }
    ensures own { IsOwn hub.now pass.new who }
    ensures put { (p : ℕ) → result ≡ offered.Put p → HasPut who 0 p (hub_floor hub.now pass.new) }
{
    offer(hub, pass, who, 0, value)
}

/// Removes the own element, if it is one too many.
fn spurn_one(hub: &Hub, pass: &mut Pass, who: Tag, place: Place) -> Option<Value>
    requires shape { shape_of hub.now ≡ one_latest }
    requires own { IsOwn hub.now pass.old who }
    requires put { HasPut who 0 place (hub_floor hub.now pass.old) }
    ensures own { IsOwn hub.now pass.new who }
{
    spurn(hub, pass, who, 0, place)
}

/// Offers an element, and removes it if it was put and is one too many: the bit of one that was removed.
fn send(hub: &Hub, pass: &mut Pass, who: Tag, value: Value) -> u64
    requires shape { shape_of hub.now ≡ one_latest }
    requires own { IsOwn hub.now pass.old who }
    ensures own { IsOwn hub.now pass.new who }
{
    match offer_one(hub, pass, who, value) {
        Offered::Put(place) => bit(spurn_one(hub, pass, who, place)),
        Offered::Handed(_, _) | Offered::Held(_) | Offered::Closed(_) | Offered::Spent => 0,
    }
}

/// The element of a receive.
fn element(got: TriedGot) -> Option<Value> {
    match got {
        TriedGot::Taken(_, value, _) => Some(value),
        TriedGot::Empty | TriedGot::Closed(_) => None,
    }
}

/// Receives an element, if one stands: its bit.
fn take(hub: &Hub, pass: &mut Pass, who: Tag) -> u64
    requires shape { shape_of hub.now ≡ one_latest }
    requires own { IsOwn hub.now pass.old who }
    ensures own { IsOwn hub.now pass.new who }
{
    bit(element(try_receive(hub, pass, who, 0)))
}

/// Sends all values: those that were removed.
fn send_all(hub: &Hub, pass: &mut Pass) -> u64
    requires shape { shape_of hub.now ≡ one_latest }
    requires own { IsOwn hub.now pass.old 1 }
{
    let mut spurned = 0;
    for value in 0..40 {
        spurned |= send(hub, pass, 1, value);
    }
    spurned
}

/// Receives so many times: those that came.
fn take_some(hub: &Hub, pass: &mut Pass, who: Tag, times: u32) -> u64
    requires shape { shape_of hub.now ≡ one_latest }
    requires own { IsOwn hub.now pass.old who }
{
    let mut received = 0;
    for _ in 0..times {
        received |= take(hub, pass, who);
    }
    received
}

/// What was spurned, received and held, where one thread sends and another receives.
fn both<R: Threads + Wait + Sync + AllocGlobal>(rt: &R) -> Result<[u64; 3], Memory> {
    let (hub, mut main) = new_hub(rt.alloc())?;
    let mut a = hub.split(&mut main, 1);
    let mut b = hub.split(&mut main, 2);
    let (spurned, received) = join(
        rt,
        || send_all(&hub, &mut a),
        || take_some(&hub, &mut b, 2, 100),
    );
    Ok([spurned, received, take_some(&hub, &mut main, 0, 4)])
}

#[test]
fn each_element_of_two_threads_is_received_or_spurned_or_held(rt: HostRuntime) -> Result<(), Fail> {
    for _ in 0..100 {
        let [spurned, received, held] = both(&rt)?;
        let twice = (spurned & received) | ((spurned | received) & held);
        compare(&rt, &(twice, spurned | received | held), &(0, ALL));
    }
    Ok(())
}
