//! Where each wait was resolved.

ghost use Rattle.std.specs.Prelude.{◌≡◌, ℕ, map, ◌&&◌, ◌||◌, not, OnOk, IfOk};
ghost use Rattle.note_book.specs.Books.{notes_of};
ghost use Rattle.note_book.specs.Items.{channel_acts_in};
ghost use Rattle.co_base.specs.declared.names.WaitId.{WaitId};
ghost use Rattle.channel_model.specs.Channels.{same_wait};
ghost use Rattle.channel_model.specs.Fates.{is_at, resolves_at};
ghost use Rattle.run_report.specs.Elements.{channel_acts_noted};
ghost use Rattle.run_report.specs.Resolutions.{also, is_elsewhere, is_resolved_at, is_resolved_elsewhere, resolved_by};
ghost use Rattle.run_report.specs.Tables.{value_at};

use crate::facts::Facts;
use crate::table::Table;
use channel_model::{Act, ChannelNote};
use co_base::{ChannelId, Place, WaitId};
use note_book::{Item, Notes};
use std::alloc::{AllocError, Global};

/// The places at which a wait was resolved, so far as it matters whether one of them is another than a given one.
#[derive(Clone, Copy)]
pub(crate) enum Resolved {
    Nowhere,
    At(ChannelId, Place),
    Several,
}

impl Resolved {
    /// Whether one of the places is another than this.
    pub(crate) fn is_elsewhere(self, c: ChannelId, place: Place) -> bool
        ensures { result ≡ is_elsewhere c place self }
    {
        match self {
            Resolved::Nowhere => false,
            Resolved::At(d, q) => d != c || q != place,
            Resolved::Several => true,
        }
    }

    /// With one more place.
    fn also(self, c: ChannelId, place: Place) -> Resolved
        ensures { result ≡ also c place self }
    {
        match self {
            Resolved::Nowhere => Resolved::At(c, place),
            Resolved::At(d, q) => {
                if c == d && place == q {
                    self
                } else {
                    Resolved::Several
                }
            }
            Resolved::Several => Resolved::Several,
        }
    }
}

/// Where each wait was resolved, by its name. What the acts say of each place tells which wait stands there.
pub(crate) fn resolutions_in(
    alloc: Global,
    facts: &Table<Facts>,
    books: &[Notes],
) -> Result<Table<Resolved>, AllocError>
    ensures { IfOk result (λ table. (c p : ℕ) (w : WaitId)
        → is_elsewhere c p (value_at table w.channel w.place)
        ≡ is_resolved_elsewhere (λ d q. (value_at facts.now d q).wait) c p w (channel_acts_noted (map notes_of books.now))) }
{
    let mut table = Table::new(alloc, Resolved::Nowhere);
    for book in books {
        add_book(alloc, &mut table, facts, book.items())?;
    }
    Ok(table)
}

/// Adds the places at which the acts of one book resolve a wait.
fn add_book(
    alloc: Global,
    table: &mut Table<Resolved>,
    facts: &Table<Facts>,
    notes: &[Item],
) -> Result<(), AllocError>
    ensures { OnOk result ((c p : ℕ) (w : WaitId)
        → is_elsewhere c p (value_at table.new w.channel w.place)
        ≡ (is_elsewhere c p (value_at table.old w.channel w.place)
        || is_resolved_elsewhere (λ d q. (value_at facts.now d q).wait) c p w (channel_acts_in notes.now))) }
{
    for item in notes {
        add_resolution(alloc, table, facts, *item)?;
    }
    Ok(())
}

/// Adds the place at which an item resolves a wait, if it does.
fn add_resolution(
    alloc: Global,
    table: &mut Table<Resolved>,
    facts: &Table<Facts>,
    item: Item,
) -> Result<(), AllocError>
    ensures { OnOk result ((c p : ℕ) (w : WaitId)
        → is_elsewhere c p (value_at table.new w.channel w.place)
        ≡ (is_elsewhere c p (value_at table.old w.channel w.place)
        || is_resolved_at (λ d q. (value_at facts.now d q).wait) c p w (resolved_by item))) }
{
    match resolved_by(item) {
        Some((c, place)) => match facts.get(c, place).wait {
            Some(w) => add_place(alloc, table, w, c, place),
            None => Ok(()),
        },
        None => Ok(()),
    }
}

/// Adds a place at which this wait was resolved.
fn add_place(
    alloc: Global,
    table: &mut Table<Resolved>,
    w: WaitId,
    c: ChannelId,
    place: Place,
) -> Result<(), AllocError>
    ensures { OnOk result ((d q : ℕ) (v : WaitId)
        → is_elsewhere d q (value_at table.new v.channel v.place)
        ≡ (is_elsewhere d q (value_at table.old v.channel v.place) || (not (is_at d q c place) && same_wait v w))) }
{
    let before = table.get(w.channel, w.place);
    table.set(alloc, w.channel, w.place, before.also(c, place))
}

/// The place whose wait the item resolves, if it does.
fn resolved_by(item: Item) -> Option<(ChannelId, Place)>
    ensures { result ≡ resolved_by item }
{
    match item {
        Item::Channel(ChannelNote::Made(act)) => place_of(act),
        Item::Channel(_) | Item::Job(_) => None,
    }
}

/// The place whose wait the act resolves, if it has one.
fn place_of(act: Act) -> Option<(ChannelId, Place)>
    ensures { result ≡ resolves_at act }
{
    match act {
        Act::Hand { c, place, .. }
        | Act::Take { c, place, .. }
        | Act::Admit { c, place }
        | Act::Drain { c, place, .. }
        | Act::WakeClosed { c, place } => Some((c, place)),
        Act::Put { .. }
        | Act::Offer { .. }
        | Act::Await { .. }
        | Act::Drop { .. }
        | Act::Spurn { .. }
        | Act::Close { .. }
        | Act::Void { .. }
        | Act::Withdraw { .. }
        | Act::Settle { .. } => None,
    }
}
