//! Selects that receive from both channels of a hub, and waits that are taken back.
ghost use Rattle.std.specs.Prelude.{◌≡◌, true, MatchOption};
ghost use Rattle.channel_model.specs.Histories.{replay};
ghost use Rattle.channel_model.specs.Answers.{IsOwnWait};
ghost use Rattle.channel_model.specs.Needs.{JoinsWait};
ghost use Rattle.word_rules.specs.Cells.{spot};
ghost use Rattle.word_rules.specs.Words.{IsCell};
ghost use Rattle.cell_words.specs.Hubs.{shape_of, seen_by, IsOwn};
ghost use Rattle.word_bench.specs.Channels.{CarryElements};

use crate::channels::on_passes::try_receive;
use cell_words::{Hub, Pass, load_cell, places_of};
use channel_model::{Registered, TriedGot, Why, Withdrawn};
use co_base::{Place, Tag, WaitId};

/// Whether this coroutine's wait began at this place of the first channel.
fn is_own(hub: &Hub, pass: &mut Pass, who: Tag, place: Place) -> bool
    requires own { IsOwn hub.now pass.old who }
    requires at { IsCell (shape_of hub.now) 0 place }
    ensures own { IsOwn hub.now pass.new who }
    ensures mine { result ≡ true → IsOwnWait who ((replay (seen_by pass.new).seen).waits (spot 0 place)) }
{
    let word = load_cell(hub, pass, who, 0, place);
    if word.own_wait {
        return word.holder == who as u32;
    }
    false
}

/// Takes back the own wait that began at this place of the first channel.
pub(crate) fn withdraw(hub: &Hub, pass: &mut Pass, who: Tag, place: Place) -> Option<Withdrawn>
    requires own { IsOwn hub.now pass.old who }
    requires channels { CarryElements hub.now }
    ensures own { IsOwn hub.now pass.new who }
{
    if place > places_of(hub, 0) {
        return None;
    }
    if is_own(hub, pass, who, place) {
        let w = WaitId { channel: 0, place };
        return Some(cell_calls::withdraw(hub, pass, who, w, Why::Revoked));
    }
    None
}

/// The place of the first clause of a select, which receives from the first channel.
fn begin(hub: &Hub, pass: &mut Pass, who: Tag) -> Option<Place>
    requires own { IsOwn hub.now pass.old who }
    requires channels { CarryElements hub.now }
    ensures own { IsOwn hub.now pass.new who }
    ensures joins { MatchOption result (Unit {0}) (λ p. JoinsWait who 2 1 ((replay (seen_by pass.new).seen).waits (spot 0 p))) }
{
    let answer = cell_calls::register_receive(hub, pass, who, None, 1, 0);
    if let Registered::Stands(place) = answer {
        return Some(place);
    }
    None
}

/// Places the second clause of the select that began at this place: it receives from the second channel.
fn place_second(hub: &Hub, pass: &mut Pass, who: Tag, place: Place) -> Registered
    requires own { IsOwn hub.now pass.old who }
    requires channels { CarryElements hub.now }
    requires joins { JoinsWait who 2 1 ((replay (seen_by pass.old).seen).waits (spot 0 place)) }
    ensures own { IsOwn hub.now pass.new who }
{
    let w = WaitId { channel: 0, place };
    cell_calls::register_receive(hub, pass, who, Some(w), 2, 1)
}

/// Waits on both channels, unless an element is there. One that came meanwhile may have been handed to it.
fn waits_on_both(hub: &Hub, pass: &mut Pass, who: Tag) -> bool
    requires own { IsOwn hub.now pass.old who }
    requires channels { CarryElements hub.now }
    ensures own { IsOwn hub.now pass.new who }
{
    let Some(place) = begin(hub, pass, who) else {
        return false;
    };
    match place_second(hub, pass, who, place) {
        Registered::Stands(_) | Registered::Resolved => true,
        Registered::Partner(_) | Registered::Closed(_) | Registered::Spent => {
            matches!(withdraw(hub, pass, who, place), Some(Withdrawn::Late))
        }
    }
}

/// Receives from one of both channels: whether an element was there.
fn receives_one(hub: &Hub, pass: &mut Pass, who: Tag) -> bool
    requires own { IsOwn hub.now pass.old who }
    requires channels { CarryElements hub.now }
    ensures own { IsOwn hub.now pass.new who }
{
    if let TriedGot::Taken(_, _, _) = try_receive(hub, pass, who, 0) {
        return true;
    }
    matches!(try_receive(hub, pass, who, 1), TriedGot::Taken(_, _, _))
}

/// A select that receives from both channels, and answers whether an element was there; else it waits.
pub(crate) fn select(hub: &Hub, pass: &mut Pass, who: Tag) -> bool
    requires own { IsOwn hub.now pass.old who }
    requires channels { CarryElements hub.now }
    ensures own { IsOwn hub.now pass.new who }
{
    'tries: for _ in 0..1000 {
        if receives_one(hub, pass, who) {
            return true;
        }
        if waits_on_both(hub, pass, who) {
            return false;
        }
    }
    false
}
