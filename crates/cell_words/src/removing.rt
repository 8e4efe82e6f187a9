//! An element is removed: the first offer's is taken, dropped for a newer one, or drained from a cancelled channel; one that was too many
//! is removed wherever it stands.
ghost use Rattle.std.specs.Prelude.{◌≡◌, ◌<◌};
ghost use Rattle.channel_model.specs.Laws.{NoneBelow};
ghost use Rattle.word_rules.specs.Words.{IsCell, how_word};
ghost use Rattle.cell_words.specs.Hubs.{shape_of, seen_by, IsOwn};
ghost use Rattle.cell_words.specs.Seen.{at_channel};
ghost use Rattle.cell_words.specs.Answers.{Offers, RemoveAnswer, IsKept, WasPut, IsAdmitted, MayRemove, MayRemoveHeld, EmptyAnswer, WasTooMany, SpurnAt};
ghost use Rattle.word_rules.specs.Codes.{IsNarrowCell, IsNarrowWait};
ghost use Rattle.cell_words.specs.Looks.{offer_word};
ghost use Rattle.cell_words.specs.Removals.{removal_act, how_removed};

use crate::cells::{exchange_cell, exchange_wait, load_wait};
use crate::found::{Holder, Removal, Tried, Waiter};
use crate::hub::Hub;
use crate::looks::{plain_cell, standing_wait, tried_found};
use crate::marks::mark;
use crate::pass::Pass;
use crate::registering::is_nobody;
use crate::resolving::{owner_of, wait_cell};
use channel_model::{Act, Entry};
use co_base::{ChannelId, Place, Tag, Value};
use word_rules::{CellState, CellWord, ResolvedBy, WaitWord};

fn removal_entry(who: Tag, removal: Removal, c: ChannelId, place: Place, value: Value) -> Entry
    ensures { result ≡ record { who = who; act = removal_act removal c place value } }
{
    Entry {
        who,
        act: match removal {
            Removal::Take => Act::Take { c, place, value },
            Removal::Drop => Act::Drop { c, place, value },
            Removal::Spurn => Act::Spurn { c, place, value },
            Removal::Drain => Act::Drain { c, place, value },
        },
    }
}

// The word of the wait whose offer was removed.
fn removed_wait(removal: Removal, clause: u8) -> WaitWord
    requires { clause < 8 }
    ensures word { result ≡ how_word (how_removed removal clause) }
    ensures narrow { IsNarrowWait result }
{
    match removal {
        Removal::Take => WaitWord {
            by: ResolvedBy::Take,
            clause,
            settled: false,
            cancelled: false,
            value: 0,
        },
        Removal::Drop | Removal::Spurn | Removal::Drain => WaitWord {
            by: ResolvedBy::Void,
            clause: 0,
            settled: false,
            cancelled: false,
            value: 0,
        },
    }
}

/// Removes the offer at a place, unless its wait was resolved.
#[inline(always)]
pub fn remove(
    hub: &Hub,
    pass: &mut Pass,
    who: Tag,
    c: ChannelId,
    place: Place,
    waiter: Waiter,
    removal: Removal,
) -> Tried
    requires own { IsOwn hub.now pass.old who }
    requires at { IsCell (shape_of hub.now) c place }
    requires may { MayRemoveHeld removal c (seen_by pass.old).seen }
    requires low { NoneBelow 0 place (at_channel (seen_by pass.old).seen c) }
    requires first { Offers (shape_of hub.now) c place waiter (seen_by pass.old).seen }
    ensures own { IsOwn hub.now pass.new who }
    ensures tried { RemoveAnswer removal (shape_of hub.now) who c place waiter (seen_by pass.old) (seen_by pass.new) result }
{
    let cell = wait_cell(hub, c, place, waiter.holder);
    let owner = match owner_of(hub, pass, who, c, place, waiter) {
        Some(owner) => owner,
        // The wait was resolved: its word says whether at this clause.
        None => {
            let word = load_wait(hub, pass, who, cell);
            return tried_found(word, waiter.clause);
        }
    };
    // An exchange that is bound to fail would only take the line from whoever resolved the wait.
    let seen = load_wait(hub, pass, who, cell);
    if !is_nobody(seen) {
        return tried_found(seen, waiter.clause);
    }
    let entry = removal_entry(who, removal, c, place, waiter.value);
    let new = removed_wait(removal, waiter.clause);
    match exchange_wait(hub, pass, who, cell, standing_wait(), new, &entry) {
        None => Tried::Taken(owner),
        Some(found) => tried_found(found, waiter.clause),
    }
}

/// The word of the cell of an offer that was admitted.
pub(crate) fn offer_cell(waiter: Waiter) -> CellWord
    ensures { result ≡ offer_word waiter }
{
    let (own_wait, holder) = match waiter.holder {
        Holder::Own(tag) => (true, tag as u32),
        Holder::At(cell) => (false, cell),
    };
    CellWord {
        state: CellState::Offer,
        clause: waiter.clause,
        own_wait,
        holder,
        value: waiter.value,
    }
}

// Empties the cell of a kept element, unless that was done.
#[inline(always)]
fn empty(
    hub: &Hub,
    pass: &mut Pass,
    who: Tag,
    c: ChannelId,
    place: Place,
    value: Value,
    old: CellWord,
    removal: Removal,
) -> bool
    requires own { IsOwn hub.now pass.old who }
    requires at { IsCell (shape_of hub.now) c place }
    requires may { MayRemove removal (shape_of hub.now) c place (seen_by pass.old).seen }
    requires low { NoneBelow 0 place (at_channel (seen_by pass.old).seen c) }
    requires narrow { IsNarrowCell old }
    requires kept { IsKept (shape_of hub.now) c place value (seen_by pass.old).seen old }
    ensures own { IsOwn hub.now pass.new who }
    ensures emptied { EmptyAnswer removal who c place value (seen_by pass.old) (seen_by pass.new) result }
{
    let entry = removal_entry(who, removal, c, place, value);
    let new = plain_cell(CellState::Emptied, value);
    match exchange_cell(hub, pass, who, c, place, old, new, &entry) {
        None => true,
        Some(_) => false,
    }
}

/// Removes the element that was put at a place, unless it was removed before.
#[inline(always)]
pub fn remove_kept(
    hub: &Hub,
    pass: &mut Pass,
    who: Tag,
    c: ChannelId,
    place: Place,
    value: Value,
    removal: Removal,
) -> bool
    requires own { IsOwn hub.now pass.old who }
    requires at { IsCell (shape_of hub.now) c place }
    requires may { MayRemove removal (shape_of hub.now) c place (seen_by pass.old).seen }
    requires low { NoneBelow 0 place (at_channel (seen_by pass.old).seen c) }
    requires kept { WasPut c place value (seen_by pass.old).seen }
    ensures own { IsOwn hub.now pass.new who }
    ensures removed { EmptyAnswer removal who c place value (seen_by pass.old) (seen_by pass.new) result }
{
    let old = plain_cell(CellState::Buffered, value);
    empty(hub, pass, who, c, place, value, old, removal)
}

/// Removes the element of an offer that was admitted, unless it was removed before.
pub fn remove_admitted(
    hub: &Hub,
    pass: &mut Pass,
    who: Tag,
    c: ChannelId,
    place: Place,
    waiter: Waiter,
    removal: Removal,
) -> bool
    requires own { IsOwn hub.now pass.old who }
    requires at { IsCell (shape_of hub.now) c place }
    requires may { MayRemove removal (shape_of hub.now) c place (seen_by pass.old).seen }
    requires low { NoneBelow 0 place (at_channel (seen_by pass.old).seen c) }
    requires admitted { IsAdmitted (shape_of hub.now) c place waiter (seen_by pass.old).seen }
    ensures own { IsOwn hub.now pass.new who }
    ensures removed { EmptyAnswer removal who c place waiter.value (seen_by pass.old) (seen_by pass.new) result }
{
    let old = offer_cell(waiter);
    empty(hub, pass, who, c, place, waiter.value, old, removal)
}

/// Removes the element that was put at a place, if it was one too many, wherever it stands: false where it was removed before.
pub fn spurn_kept(
    hub: &Hub,
    pass: &mut Pass,
    who: Tag,
    c: ChannelId,
    place: Place,
    value: Value,
) -> bool
    requires own { IsOwn hub.now pass.old who }
    requires at { IsCell (shape_of hub.now) c place }
    requires may { WasTooMany (shape_of hub.now) c place (seen_by pass.old).seen }
    requires kept { WasPut c place value (seen_by pass.old).seen }
    ensures own { IsOwn hub.now pass.new who }
    ensures spurned { SpurnAt who c place value (seen_by pass.old) (seen_by pass.new) result }
{
    let entry = removal_entry(who, Removal::Spurn, c, place, value);
    let before = plain_cell(CellState::Buffered, value);
    let after = plain_cell(CellState::Emptied, value);
    match exchange_cell(hub, pass, who, c, place, before, after, &entry) {
        None => {
            mark(hub, pass, who, c, place, false);
            true
        }
        Some(_) => false,
    }
}
