//! What the clauses of selects by passes come to on two channels over words, worked out by hand.

ghost use Rattle.std.specs.Prelude.{◌≡◌, ◌<◌, MatchOption};
ghost use Rattle.channel_model.specs.Histories.{replay};
ghost use Rattle.channel_model.specs.Needs.{JoinsWait};
ghost use Rattle.word_rules.specs.Cells.{spot};
ghost use Rattle.cell_words.specs.Hubs.{shape_of, seen_by, IsOwn};
ghost use Rattle.floor_rows.specs.SelectChannels.{two_kinds};

use crate::compare::compare;
use crate::on_passes::{settle, withdraw};
use cell_words::{Hub, Pass};
use channel_model::{Kind, Offered, Registered, Settled, Withdrawn};
use co_base::{ChannelId, Memory, Place, Value, WaitId};
use std::alloc::Global;
use std::test::Fail;

/// A rendezvous channel, and one that keeps an element.
const KINDS: [(Kind, u32); 2] = [(Kind::Rendezvous, 4), (Kind::Buffered(1), 4)];

/// Whether tag 2 is answered so to an offer.
fn offers(hub: &Hub, pass: &mut Pass, c: ChannelId, value: Value, wanted: Offered) -> bool
    requires shape { shape_of hub.now ≡ two_kinds }
    requires own { IsOwn hub.now pass.old 2 }
    requires channel { c < 2 }
    ensures own { IsOwn hub.now pass.new 2 }
{
    cell_calls::offer(hub, pass, 2, c, value) == wanted
}

/// Tag 1 begins a select whose clause 1 receives at channel 0: the place of the clause.
fn begin(hub: &Hub, pass: &mut Pass) -> Option<Place>
    requires shape { shape_of hub.now ≡ two_kinds }
    requires own { IsOwn hub.now pass.old 1 }
    ensures own { IsOwn hub.now pass.new 1 }
    ensures joins { MatchOption result (Unit {0}) (λ p. JoinsWait 1 2 1 ((replay (seen_by pass.new).seen).waits (spot 0 p))) }
{
    let answer = cell_calls::register_receive(hub, pass, 1, None, 1, 0);
    if let Registered::Stands(place) = answer {
        return Some(place);
    }
    None
}

/// Whether clause 2 of the select that began at this place is placed so: it receives at channel 1.
fn places_second(hub: &Hub, pass: &mut Pass, place: Option<Place>, wanted: Registered) -> bool
    requires shape { shape_of hub.now ≡ two_kinds }
    requires own { IsOwn hub.now pass.old 1 }
    requires joins { MatchOption place (Unit {0}) (λ p. JoinsWait 1 2 1 ((replay (seen_by pass.old).seen).waits (spot 0 p))) }
    ensures own { IsOwn hub.now pass.new 1 }
{
    match place {
        Some(place) => {
            let w = WaitId { channel: 0, place };
            cell_calls::register_receive(hub, pass, 1, Some(w), 2, 1) == wanted
        }
        None => false,
    }
}

/// Whether tag 1 begins a select so, whose clause 1 receives.
fn begins(hub: &Hub, pass: &mut Pass, c: ChannelId, wanted: Registered) -> bool
    requires shape { shape_of hub.now ≡ two_kinds }
    requires own { IsOwn hub.now pass.old 1 }
    requires channel { c < 2 }
    ensures own { IsOwn hub.now pass.new 1 }
{
    cell_calls::register_receive(hub, pass, 1, None, 1, c) == wanted
}

/// Whether tag 2 begins a select so, whose clause 1 sends.
fn begins_to_send(
    hub: &Hub,
    pass: &mut Pass,
    c: ChannelId,
    value: Value,
    wanted: Registered,
) -> bool
    requires shape { shape_of hub.now ≡ two_kinds }
    requires own { IsOwn hub.now pass.old 2 }
    requires channel { c < 2 }
    ensures own { IsOwn hub.now pass.new 2 }
{
    cell_calls::register_offer(hub, pass, 2, None, 1, c, value) == wanted
}

/// A select at two channels is taken at one: at the other it stands no more.
fn is_taken_at_one(hub: &Hub, a: &mut Pass, b: &mut Pass) -> bool
    requires shape { shape_of hub.now ≡ two_kinds }
    requires a { IsOwn hub.now a.old 1 }
    requires b { IsOwn hub.now b.old 2 }
{
    let first = begin(hub, a);
    places_second(hub, a, first, Registered::Stands(0))
        & offers(hub, b, 1, 7, Offered::Handed(0, 1))
        & offers(hub, b, 0, 8, Offered::Held(1))
        & (first == Some(0))
        & (settle(hub, a, 1, 0, false) == Some(Settled::Value(2, 7)))
}

/// A select that was withdrawn stands nowhere.
fn stands_nowhere(hub: &Hub, a: &mut Pass, b: &mut Pass) -> bool
    requires shape { shape_of hub.now ≡ two_kinds }
    requires a { IsOwn hub.now a.old 1 }
    requires b { IsOwn hub.now b.old 2 }
{
    let first = begin(hub, a);
    places_second(hub, a, first, Registered::Stands(0))
        & (withdraw(hub, a, 1, 0) == Some(Withdrawn::Done(1)))
        & offers(hub, b, 0, 5, Offered::Held(1))
        & offers(hub, b, 1, 6, Offered::Put(1))
}

/// A clause is not placed where its select was resolved. A sender that selects waits even where the channel would keep the element, and is
/// the partner of who receives.
fn is_not_placed(hub: &Hub, a: &mut Pass, b: &mut Pass) -> bool
    requires shape { shape_of hub.now ≡ two_kinds }
    requires a { IsOwn hub.now a.old 1 }
    requires b { IsOwn hub.now b.old 2 }
{
    let first = begin(hub, a);
    offers(hub, b, 0, 5, Offered::Handed(0, 1))
        & (first == Some(0))
        & places_second(hub, a, first, Registered::Resolved)
        & begins_to_send(hub, b, 1, 6, Registered::Stands(0))
        & begins(hub, a, 1, Registered::Partner(0))
        & begins(hub, a, 0, Registered::Stands(1))
        & begins_to_send(hub, b, 0, 7, Registered::Partner(1))
}

/// What is checked, each on a hub of its own.
#[derive(Clone, Copy)]
enum Check {
    TakenAtOne,
    Withdrawn,
    Resolved,
}

fn is_right(alloc: Global, check: Check) -> Result<bool, Memory> {
    let (hub, mut main) = Hub::new(alloc, &KINDS)?;
    let mut a = hub.split(&mut main, 1);
    let mut b = hub.split(&mut main, 2);
    let right = match check {
        Check::TakenAtOne => is_taken_at_one(&hub, &mut a, &mut b),
        Check::Withdrawn => stands_nowhere(&hub, &mut a, &mut b),
        Check::Resolved => is_not_placed(&hub, &mut a, &mut b),
    };
    Ok(right)
}

#[test]
fn clauses_of_selects_stand_and_end_at_all_their_channels_at_once(
    rt: HostRuntime,
) -> Result<(), Fail> {
    let alloc = rt.alloc();
    let found = [
        is_right(alloc, Check::TakenAtOne)?,
        is_right(alloc, Check::Withdrawn)?,
        is_right(alloc, Check::Resolved)?,
    ];
    compare(&rt, &found, &[true; 3]);
    Ok(())
}
