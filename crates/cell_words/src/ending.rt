//! The end of a channel: where it is, that the channel is closed and cancelled there, and that who still waits to receive is told so.
ghost use Rattle.std.specs.Prelude.{◌≡◌, ◌≤◌, Some};
ghost use Rattle.channel_model.specs.Laws.{NoneBelow};
ghost use Rattle.word_rules.specs.Words.{IsCell};
ghost use Rattle.cell_words.specs.Hubs.{shape_of, seen_by, IsOwn};
ghost use Rattle.cell_words.specs.Seen.{Sees, at_channel};
ghost use Rattle.cell_words.specs.Answers.{Receives, EndAt, CloseAt, ReceiverAt, WakeAt, VoidAt};
ghost use Rattle.cell_words.specs.declared.found.End.TheVariants as end;

use crate::cells::{exchange_cell, exchange_wait, load_cell};
use crate::found::{At, End, Waiter};
use crate::hub::Hub;
use crate::looks::{end_found, found_by_sender, free_cell, is_used, plain_cell, standing_wait};
use crate::pass::Pass;
use crate::resolving::{owner_of, wait_cell};
use channel_model::{Act, Entry};
use co_base::{ChannelId, Place, Tag, Value};
use word_rules::{CellState, ResolvedBy, WaitWord};

/// Whether the channel ends here.
pub fn end_at(hub: &Hub, pass: &mut Pass, who: Tag, c: ChannelId, place: Place) -> End
    requires own { IsOwn hub.now pass.old who }
    requires at { IsCell (shape_of hub.now) c place }
    requires given { place ≤ (at_channel (seen_by pass.old).seen c).next }
    ensures own { IsOwn hub.now pass.new who }
    ensures sees { Sees (seen_by pass.old) (seen_by pass.new) }
    ensures end { EndAt c place result (seen_by pass.new).seen }
{
    let word = load_cell(hub, pass, who, c, place);
    end_found(word)
}

/// Closes the channel where it ends. `Open` says that it was open and is closed now.
pub fn close_at(
    hub: &Hub,
    pass: &mut Pass,
    who: Tag,
    c: ChannelId,
    place: Place,
    value: Value,
) -> End
    requires own { IsOwn hub.now pass.old who }
    requires at { IsCell (shape_of hub.now) c place }
    requires given { place ≤ (at_channel (seen_by pass.old).seen c).next }
    ensures own { IsOwn hub.now pass.new who }
    ensures end { CloseAt who c place value (seen_by pass.old) (seen_by pass.new) result }
{
    let entry = Entry {
        who,
        act: Act::Close { c, value },
    };
    let new = plain_cell(CellState::Closed, value);
    match exchange_cell(hub, pass, who, c, place, free_cell(), new, &entry) {
        None => End::Open,
        Some(found) => end_found(found),
    }
}

/// What is at a place, for one who looks for receivers and offers nothing.
pub fn receiver_at(hub: &Hub, pass: &mut Pass, who: Tag, c: ChannelId, place: Place) -> At
    requires own { IsOwn hub.now pass.old who }
    requires at { IsCell (shape_of hub.now) c place }
    requires low { NoneBelow place 0 (at_channel (seen_by pass.old).seen c) }
    ensures own { IsOwn hub.now pass.new who }
    ensures at { ReceiverAt (shape_of hub.now) c place (seen_by pass.old) (seen_by pass.new) result }
{
    let word = load_cell(hub, pass, who, c, place);
    if is_used(word) {
        return found_by_sender(word);
    }
    At::Open
}

/// Tells the receiver at a place of the close, unless its wait was resolved: its coroutine.
pub fn wake(
    hub: &Hub,
    pass: &mut Pass,
    who: Tag,
    c: ChannelId,
    place: Place,
    value: Value,
    waiter: Waiter,
) -> Option<Tag>
    requires own { IsOwn hub.now pass.old who }
    requires at { IsCell (shape_of hub.now) c place }
    requires closed { (at_channel (seen_by pass.old).seen c).closed ≡ Some value }
    requires low { NoneBelow place 0 (at_channel (seen_by pass.old).seen c) }
    requires first { Receives (shape_of hub.now) c place waiter (seen_by pass.old).seen }
    ensures own { IsOwn hub.now pass.new who }
    ensures woken { WakeAt who c place (seen_by pass.old) (seen_by pass.new) result }
{
    let owner = match owner_of(hub, pass, who, c, place, waiter) {
        Some(owner) => owner,
        None => return None,
    };
    let cell = wait_cell(hub, c, place, waiter.holder);
    let entry = Entry {
        who,
        act: Act::WakeClosed { c, place },
    };
    let new = WaitWord {
        by: ResolvedBy::Close,
        clause: waiter.clause,
        settled: false,
        cancelled: false,
        value,
    };
    match exchange_wait(hub, pass, who, cell, standing_wait(), new, &entry) {
        None => Some(owner),
        Some(_) => None,
    }
}

/// Cancels a channel if it was closed with this value: false if it was cancelled before.
pub fn void_at(
    hub: &Hub,
    pass: &mut Pass,
    who: Tag,
    c: ChannelId,
    place: Place,
    value: Value,
) -> bool
    requires own { IsOwn hub.now pass.old who }
    requires at { IsCell (shape_of hub.now) c place }
    requires closed { EndAt c place (end.Closed value) (seen_by pass.old).seen }
    ensures own { IsOwn hub.now pass.new who }
    ensures voided { VoidAt who c (seen_by pass.old) (seen_by pass.new) result }
{
    let entry = Entry {
        who,
        act: Act::Void { c },
    };
    let old = plain_cell(CellState::Closed, value);
    let new = plain_cell(CellState::Voided, value);
    match exchange_cell(hub, pass, who, c, place, old, new, &entry) {
        None => true,
        Some(_) => false,
    }
}
