//! A wait is resolved by another: whose it is, and the first receiver is handed an element.
ghost use Rattle.std.specs.Prelude.{◌≡◌, ℕ, false};
ghost use Rattle.co_base.specs.declared.names.WaitId.{WaitId as AWaitId};
ghost use Rattle.channel_model.specs.Channels.{kind_at, is_signal};
ghost use Rattle.channel_model.specs.Laws.{NoneBelow};
ghost use Rattle.word_rules.specs.Words.{number, IsCell};
ghost use Rattle.cell_words.specs.Hubs.{shape_of, seen_by, IsOwn};
ghost use Rattle.cell_words.specs.Seen.{Sees, at_channel};
ghost use Rattle.cell_words.specs.Answers.{IsHolder, IsHeld, Receives, OwnerAnswer, HandAnswer};

use crate::cells::{exchange_wait, load_numbered_cell, number_of};
use crate::found::{Holder, Waiter};
use crate::hub::Hub;
use crate::looks::{holder_of, standing_wait};
use crate::pass::Pass;
use channel_model::{Act, Entry};
use co_base::{ChannelId, Place, Tag, Value};
use word_rules::{ResolvedBy, WaitWord};

/// The number of the cell where a wait began.
pub(crate) fn wait_cell(hub: &Hub, c: ChannelId, place: Place, holder: Holder) -> usize
    requires at { IsCell (shape_of hub.now) c place }
    ensures { (t : ℕ) (w : AWaitId) → IsHolder (shape_of hub.now) c place holder t w
        → number (shape_of hub.now) w.channel w.place ≡ result }
{
    match holder {
        Holder::Own(_) => number_of(hub, c, place),
        Holder::At(cell) => cell as usize,
    }
}

/// The coroutine of a wait, or `None` where the wait was resolved.
#[inline(always)]
pub(crate) fn owner_of(
    hub: &Hub,
    pass: &mut Pass,
    who: Tag,
    c: ChannelId,
    place: Place,
    waiter: Waiter,
) -> Option<Tag>
    requires own { IsOwn hub.now pass.old who }
    requires at { IsCell (shape_of hub.now) c place }
    requires held { IsHeld (shape_of hub.now) c place waiter (seen_by pass.old).seen }
    ensures own { IsOwn hub.now pass.new who }
    ensures sees { Sees (seen_by pass.old) (seen_by pass.new) }
    ensures owner { (h : IsHeld (shape_of hub.now) c place waiter (seen_by pass.old).seen)
        → OwnerAnswer h.who h.wait (seen_by pass.new).seen result }
{
    match waiter.holder {
        Holder::Own(tag) => Some(tag),
        Holder::At(cell) => {
            let word = load_numbered_cell(hub, pass, who, cell as usize);
            match holder_of(word) {
                Holder::Own(tag) => Some(tag),
                Holder::At(_) => None,
            }
        }
    }
}

/// Gives the element to the receiver at a place, unless its wait was resolved: its coroutine.
#[inline(always)]
pub fn hand(
    hub: &Hub,
    pass: &mut Pass,
    who: Tag,
    c: ChannelId,
    place: Place,
    value: Value,
    waiter: Waiter,
) -> Option<Tag>
    requires own { IsOwn hub.now pass.old who }
    requires at { IsCell (shape_of hub.now) c place }
    requires kind { is_signal (kind_at (shape_of hub.now) c) ≡ false }
    requires low { NoneBelow place 0 (at_channel (seen_by pass.old).seen c) }
    requires first { Receives (shape_of hub.now) c place waiter (seen_by pass.old).seen }
    ensures own { IsOwn hub.now pass.new who }
    ensures handed { HandAnswer who c place value (seen_by pass.old) (seen_by pass.new) result }
{
    let owner = match owner_of(hub, pass, who, c, place, waiter) {
        Some(owner) => owner,
        None => return None,
    };
    let cell = wait_cell(hub, c, place, waiter.holder);
    let entry = Entry {
        who,
        act: Act::Hand { c, place, value },
    };
    let new = WaitWord {
        by: ResolvedBy::Hand,
        clause: waiter.clause,
        settled: false,
        cancelled: false,
        value,
    };
    match exchange_wait(hub, pass, who, cell, standing_wait(), new, &entry) {
        None => Some(owner),
        Some(_) => None,
    }
}
