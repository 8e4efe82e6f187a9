//! A caller is placed where the channel ends, by an exchange of the free cell there; or it sees what is at the place.
ghost use Rattle.std.specs.Prelude.{◌≡◌, ◌≢◌, ◌+◌, ◌<◌, false, true, length, Some};
ghost use Rattle.channel_model.specs.declared.acts.Kind.TheVariants as kinds;
ghost use Rattle.channel_model.specs.Channels.{kind_at, places_at, is_signal, suspends, is_full};
ghost use Rattle.channel_model.specs.Laws.{NoneBelow};
ghost use Rattle.cell_words.specs.declared.found.At.TheVariants as at;
ghost use Rattle.word_rules.specs.Cells.{gather};
ghost use Rattle.word_rules.specs.Words.{IsCell, WereKept, fate};
ghost use Rattle.cell_words.specs.Hubs.{shape_of, seen_by, IsOwn};
ghost use Rattle.cell_words.specs.Puts.{was_put};
ghost use Rattle.cell_words.specs.Seen.{Sees, at_channel};
ghost use Rattle.cell_words.specs.Answers.{stands, OfferAt, OfferHere, ReceiveAt, TriedReceiveAt};

use crate::cells::{exchange_cell, kind_of, load_cell, places_of};
use crate::counters::{KeptRun, kept_run, lift_run, raise_run, receives_from};
use crate::counting::{count_latest, has_room};
use crate::found::At;
use crate::hub::Hub;
use crate::looks::{found_by_receiver, found_by_sender, free_cell, is_used, own_cell, plain_cell};
use crate::marks::mark;
use crate::pass::Pass;
use channel_model::{Act, Entry, Kind};
use co_base::{ChannelId, Place, Tag, Value, WaitId};
use word_rules::{CellState, CellWord};

// Places an offer that waits.
#[inline(always)]
fn hold_at(hub: &Hub, pass: &mut Pass, who: Tag, c: ChannelId, place: Place, value: Value) -> At
    requires own { IsOwn hub.now pass.old who }
    requires at { (c < length (shape_of hub.now)) × (place < places_at (shape_of hub.now) c) }
    requires kind { suspends (kind_at (shape_of hub.now) c) ≡ true }
    requires low { NoneBelow place 0 (at_channel (seen_by pass.old).seen c) }
    ensures own { IsOwn hub.now pass.new who }
    ensures at { OfferAt (shape_of hub.now) who c place value (seen_by pass.old) (seen_by pass.new) result }
{
    let main = WaitId { channel: c, place };
    let entry = Entry {
        who,
        act: Act::Offer {
            c,
            place,
            value,
            main,
            clause: 0,
        },
    };
    let new = own_cell(CellState::Offer, who, value);
    match exchange_cell(hub, pass, who, c, place, free_cell(), new, &entry) {
        None => At::Placed,
        Some(found) => found_by_sender(found),
    }
}

// Puts an element that needs no receiver.
#[inline(always)]
fn put_at(hub: &Hub, pass: &mut Pass, who: Tag, c: ChannelId, place: Place, value: Value) -> At
    requires own { IsOwn hub.now pass.old who }
    requires at { (c < length (shape_of hub.now)) × (place < places_at (shape_of hub.now) c) }
    requires low { NoneBelow place 0 (at_channel (seen_by pass.old).seen c) }
    requires room { is_full (kind_at (shape_of hub.now) c) (length (gather (stands (seen_by pass.old).seen c) place)) ≡ false }
    ensures own { IsOwn hub.now pass.new who }
    ensures at { OfferAt (shape_of hub.now) who c place value (seen_by pass.old) (seen_by pass.new) result }
    ensures not_held { result ≢ at.Placed }
{
    let entry = Entry {
        who,
        act: Act::Put { c, place, value },
    };
    let new = plain_cell(CellState::Buffered, value);
    match exchange_cell(hub, pass, who, c, place, free_cell(), new, &entry) {
        None => At::Put,
        Some(found) => found_by_sender(found),
    }
}

// Says that the place was kept, if an element was put there.
fn say_kept(
    hub: &Hub,
    pass: &mut Pass,
    who: Tag,
    c: ChannelId,
    run: KeptRun,
    low: Place,
    place: Place,
    put: At,
)
    requires own { IsOwn hub.now pass.old who }
    requires at { IsCell (shape_of hub.now) c place }
    requires run { put ≡ at.Put → WereKept (seen_by pass.old).seen c run.from run.to }
    requires kept { put ≡ at.Put → WereKept (seen_by pass.old).seen c place (place + 1) }
    ensures own { IsOwn hub.now pass.new who }
    ensures same { seen_by pass.new ≡ seen_by pass.old }
{
    match put {
        At::Put => {
            raise_run(hub, pass, who, c, run, low, place);
        }
        At::Spent | At::Open | At::Placed => {}
        At::Waiting(_) | At::Kept(_) | At::Closed(_) | At::Gone => {}
    }
}

// Whether an element was put in a cell with this word.
fn was_put(word: CellWord) -> bool
    ensures { result ≡ was_put word.state }
{
    match word.state {
        CellState::Buffered | CellState::Emptied => true,
        CellState::Free
        | CellState::Receiver
        | CellState::Offer
        | CellState::Closed
        | CellState::Voided => false,
    }
}

// Up to which place, from the run's end on and no further than this one, elements were put.
fn put_until(
    hub: &Hub,
    pass: &mut Pass,
    who: Tag,
    c: ChannelId,
    run: KeptRun,
    place: Place,
) -> Place
    requires own { IsOwn hub.now pass.old who }
    requires at { IsCell (shape_of hub.now) c place }
    requires run { WereKept (seen_by pass.old).seen c run.from run.to }
    ensures own { IsOwn hub.now pass.new who }
    ensures sees { Sees (seen_by pass.old) (seen_by pass.new) }
    ensures kept { WereKept (seen_by pass.new).seen c run.from result }
{
    for next in run.to..place {
        let word = load_cell(hub, pass, who, c, next);
        if !was_put(word) {
            return next;
        }
    }
    place
}

// Says that the run goes on up to a place, if it does.
fn say_run(hub: &Hub, pass: &mut Pass, who: Tag, c: ChannelId, run: KeptRun, to: Place) -> KeptRun
    requires own { IsOwn hub.now pass.old who }
    requires channel { c < length (shape_of hub.now) }
    requires run { WereKept (seen_by pass.old).seen c run.from run.to }
    requires kept { WereKept (seen_by pass.old).seen c run.from to }
    ensures own { IsOwn hub.now pass.new who }
    ensures same { seen_by pass.new ≡ seen_by pass.old }
    ensures kept { WereKept (seen_by pass.old).seen c result.from result.to }
{
    if to <= run.to {
        return run;
    }
    lift_run(hub, pass, who, c, run.from, to)
}

// The run up to this place. Who put an element behind it may not have said so yet, so the run goes on where elements were put.
fn run_up_to(hub: &Hub, pass: &mut Pass, who: Tag, c: ChannelId, place: Place) -> KeptRun
    requires own { IsOwn hub.now pass.old who }
    requires at { IsCell (shape_of hub.now) c place }
    ensures own { IsOwn hub.now pass.new who }
    ensures sees { Sees (seen_by pass.old) (seen_by pass.new) }
    ensures kept { WereKept (seen_by pass.new).seen c result.from result.to }
{
    let run = kept_run(hub, pass, who, c);
    if run.to >= place {
        return run;
    }
    let to = put_until(hub, pass, who, c, run, place);
    say_run(hub, pass, who, c, run, to)
}

// Marks the place, if the element was put there, and had room.
fn mark_put(hub: &Hub, pass: &mut Pass, who: Tag, c: ChannelId, place: Place, full: bool, put: At)
    requires own { IsOwn hub.now pass.old who }
    requires at { IsCell (shape_of hub.now) c place }
    requires kept { full ≡ false → put ≡ at.Put → fate (shape_of hub.now) (seen_by pass.old).seen c place ≡ Some true }
    ensures own { IsOwn hub.now pass.new who }
    ensures same { seen_by pass.new ≡ seen_by pass.old }
{
    if full {
        return;
    }
    match put {
        At::Put => mark(hub, pass, who, c, place, true),
        At::Spent | At::Open | At::Placed => {}
        At::Waiting(_) | At::Kept(_) | At::Closed(_) | At::Gone => {}
    }
}

// The same as `put_at`, in a channel that does not keep its latest, and marks the place if the element had room: then nobody spurns it.
fn latest_at(
    hub: &Hub,
    pass: &mut Pass,
    who: Tag,
    c: ChannelId,
    place: Place,
    value: Value,
    most: u32,
) -> At
    requires own { IsOwn hub.now pass.old who }
    requires at { (c < length (shape_of hub.now)) × (place < places_at (shape_of hub.now) c) }
    requires kind { kind_at (shape_of hub.now) c ≡ kinds.DropLatest most }
    requires low { NoneBelow place 0 (at_channel (seen_by pass.old).seen c) }
    ensures own { IsOwn hub.now pass.new who }
    ensures at { OfferAt (shape_of hub.now) who c place value (seen_by pass.old) (seen_by pass.new) result }
    ensures not_held { result ≢ at.Placed }
{
    let full = count_latest(hub, pass, who, c, place, most);
    let put = put_at(hub, pass, who, c, place, value);
    mark_put(hub, pass, who, c, place, full, put);
    put
}

// The same as `put_at`, and says that the place was kept, if the channel keeps only so many.
#[inline(always)]
fn keep_at(hub: &Hub, pass: &mut Pass, who: Tag, c: ChannelId, place: Place, value: Value) -> At
    requires own { IsOwn hub.now pass.old who }
    requires at { (c < length (shape_of hub.now)) × (place < places_at (shape_of hub.now) c) }
    requires low { NoneBelow place 0 (at_channel (seen_by pass.old).seen c) }
    requires room { is_full (kind_at (shape_of hub.now) c) (length (gather (stands (seen_by pass.old).seen c) place)) ≡ false }
    ensures own { IsOwn hub.now pass.new who }
    ensures at { OfferAt (shape_of hub.now) who c place value (seen_by pass.old) (seen_by pass.new) result }
    ensures not_held { result ≢ at.Placed }
{
    let counts = match kind_of(hub, c) {
        Kind::Buffered(_) | Kind::Conflated | Kind::DropOldest(_) => true,
        Kind::DropLatest(most) => return latest_at(hub, pass, who, c, place, value, most),
        Kind::Rendezvous | Kind::Unlimited | Kind::Signal => false,
    };
    if !counts {
        return put_at(hub, pass, who, c, place, value);
    }
    let run = run_up_to(hub, pass, who, c, place);
    let low = receives_from(hub, pass, who, c);
    let put = put_at(hub, pass, who, c, place, value);
    say_kept(hub, pass, who, c, run, low, place, put);
    put
}

/// Puts an element where the channel ends. Where the channel was full, an offer is placed there, if the caller may wait.
#[inline(always)]
pub fn offer_at(
    hub: &Hub,
    pass: &mut Pass,
    who: Tag,
    c: ChannelId,
    place: Place,
    value: Value,
    waits: bool,
) -> At
    requires own { IsOwn hub.now pass.old who }
    requires at { IsCell (shape_of hub.now) c place }
    requires kind { is_signal (kind_at (shape_of hub.now) c) ≡ false }
    requires low { NoneBelow place 0 (at_channel (seen_by pass.old).seen c) }
    ensures own { IsOwn hub.now pass.new who }
    ensures at { OfferHere waits (shape_of hub.now) who c place value (seen_by pass.old) (seen_by pass.new) result }
{
    let word = load_cell(hub, pass, who, c, place);
    if is_used(word) {
        return found_by_sender(word);
    }
    if place == places_of(hub, c) {
        return At::Spent;
    }
    if has_room(hub, pass, who, c, place) {
        return keep_at(hub, pass, who, c, place, value);
    }
    if waits {
        hold_at(hub, pass, who, c, place, value)
    } else {
        At::Open
    }
}

/// What is at a place, for one who receives and does not wait.
pub fn try_await_at(hub: &Hub, pass: &mut Pass, who: Tag, c: ChannelId, place: Place) -> At
    requires own { IsOwn hub.now pass.old who }
    requires at { IsCell (shape_of hub.now) c place }
    requires low { NoneBelow 0 place (at_channel (seen_by pass.old).seen c) }
    ensures own { IsOwn hub.now pass.new who }
    ensures at { TriedReceiveAt (shape_of hub.now) who c place (seen_by pass.old) (seen_by pass.new) result }
{
    let word = load_cell(hub, pass, who, c, place);
    if is_used(word) {
        return found_by_receiver(word);
    }
    At::Open
}

/// Places a receiver where the channel ends.
#[inline(always)]
pub fn await_at(hub: &Hub, pass: &mut Pass, who: Tag, c: ChannelId, place: Place) -> At
    requires own { IsOwn hub.now pass.old who }
    requires at { IsCell (shape_of hub.now) c place }
    requires low { NoneBelow 0 place (at_channel (seen_by pass.old).seen c) }
    ensures own { IsOwn hub.now pass.new who }
    ensures at { ReceiveAt (shape_of hub.now) who c place (seen_by pass.old) (seen_by pass.new) result }
{
    let word = load_cell(hub, pass, who, c, place);
    if is_used(word) {
        return found_by_receiver(word);
    }
    if place == places_of(hub, c) {
        return At::Spent;
    }
    let main = WaitId { channel: c, place };
    let entry = Entry {
        who,
        act: Act::Await {
            c,
            place,
            main,
            clause: 0,
        },
    };
    let new = own_cell(CellState::Receiver, who, 0);
    match exchange_cell(hub, pass, who, c, place, free_cell(), new, &entry) {
        None => At::Placed,
        Some(found) => found_by_receiver(found),
    }
}
