//! What the acts say of each place, and of the wait that is named by it.

ghost use Rattle.std.specs.Prelude.{◌≡◌, ℕ, map, OnOk, IfOk};
ghost use Rattle.note_book.specs.Books.{notes_of};
ghost use Rattle.note_book.specs.Items.{channel_acts_in};
ghost use Rattle.run_report.specs.Elements.{channel_acts_noted};
ghost use Rattle.run_report.specs.Facts.{at_place, facts_of, joined, nothing, told, told_at, told_by};
ghost use Rattle.run_report.specs.Tables.{value_at};

use crate::table::Table;
use channel_model::{Act, ChannelNote, Settled};
use co_base::{ChannelId, Place, Value, WaitId};
use note_book::{Item, Notes};
use std::alloc::{AllocError, Global};

/// What the acts say of one place, and of the wait that is named by it.
#[derive(Clone, Copy)]
pub(crate) struct Facts {
    /// The element that was brought to the place.
    pub(crate) element: Option<Value>,
    /// The wait that was placed there.
    pub(crate) wait: Option<WaitId>,
    /// The clause of the offer that was placed there.
    pub(crate) clause: Option<u8>,
    /// The element was given to a receiver at once.
    pub(crate) handed: bool,
    pub(crate) taken: bool,
    pub(crate) admitted: bool,
    pub(crate) dropped: bool,
    pub(crate) spurned: bool,
    pub(crate) drained: bool,
    /// The wait of this name ended with a value.
    pub(crate) received: bool,
    /// The wait of this name gave its element up, undelivered.
    pub(crate) gave_up: bool,
    /// The wait of this name was withdrawn.
    pub(crate) withdrawn: bool,
}

/// What no act says anything of.
pub(crate) const NOTHING: Facts = Facts {
    element: None,
    wait: None,
    clause: None,
    handed: false,
    taken: false,
    admitted: false,
    dropped: false,
    spurned: false,
    drained: false,
    received: false,
    gave_up: false,
    withdrawn: false,
};

const TAKEN: Facts = Facts {
    taken: true,
    ..NOTHING
};

const ADMITTED: Facts = Facts {
    admitted: true,
    ..NOTHING
};

const DROPPED: Facts = Facts {
    dropped: true,
    ..NOTHING
};

const SPURNED: Facts = Facts {
    spurned: true,
    ..NOTHING
};

const DRAINED: Facts = Facts {
    drained: true,
    ..NOTHING
};

const WITHDRAWN: Facts = Facts {
    withdrawn: true,
    ..NOTHING
};

/// What the acts of all these books say of each place.
pub(crate) fn facts_in(alloc: Global, books: &[Notes]) -> Result<Table<Facts>, AllocError>
    ensures plain { IfOk result (λ table. table.plain ≡ nothing) }
    ensures facts { IfOk result (λ table. (c p : ℕ)
        → value_at table c p ≡ facts_of c p (channel_acts_noted (map notes_of books.now))) }
{
    let mut table = Table::new(alloc, NOTHING);
    for book in books {
        add_book(alloc, &mut table, book.items())?;
    }
    Ok(table)
}

/// Adds what the acts of one book say to what those before them said.
fn add_book(alloc: Global, table: &mut Table<Facts>, notes: &[Item]) -> Result<(), AllocError>
    ensures plain { table.new.plain ≡ table.old.plain }
    ensures joined { OnOk result ((c p : ℕ)
        → value_at table.new c p ≡ joined (value_at table.old c p) (facts_of c p (channel_acts_in notes.now))) }
{
    for item in notes {
        add_item(alloc, table, *item)?;
    }
    Ok(())
}

/// Adds what one item tells to what those before it told.
fn add_item(alloc: Global, table: &mut Table<Facts>, item: Item) -> Result<(), AllocError>
    ensures plain { table.new.plain ≡ table.old.plain }
    ensures joined { OnOk result ((c p : ℕ)
        → value_at table.new c p ≡ joined (value_at table.old c p) (told_at c p (told_by item))) }
{
    match told_by(item) {
        Some((at, facts)) => {
            let before = table.get(at.channel, at.place);
            table.set(alloc, at.channel, at.place, before.and(facts))
        }
        None => Ok(()),
    }
}

impl Facts {
    /// What the one says and then the other.
    fn and(self, other: Facts) -> Facts
        ensures { result ≡ joined self other }
    {
        Facts {
            element: self.element.or(other.element),
            wait: self.wait.or(other.wait),
            clause: self.clause.or(other.clause),
            handed: self.handed | other.handed,
            taken: self.taken | other.taken,
            admitted: self.admitted | other.admitted,
            dropped: self.dropped | other.dropped,
            spurned: self.spurned | other.spurned,
            drained: self.drained | other.drained,
            received: self.received | other.received,
            gave_up: self.gave_up | other.gave_up,
            withdrawn: self.withdrawn | other.withdrawn,
        }
    }
}

/// The place or the wait of which the item tells something, and what it tells.
fn told_by(item: Item) -> Option<(WaitId, Facts)>
    ensures { result ≡ told_by item }
{
    match item {
        Item::Channel(ChannelNote::Made(act)) => told_of(act),
        Item::Channel(_) | Item::Job(_) => None,
    }
}

/// What an act says of the place that it names.
fn at_place(channel: ChannelId, place: Place, facts: Facts) -> Option<(WaitId, Facts)>
    ensures { result ≡ at_place channel place facts }
{
    Some((WaitId { channel, place }, facts))
}

/// The place or the wait of which the act says something, and what it says.
fn told_of(act: Act) -> Option<(WaitId, Facts)>
    ensures { result ≡ told act }
{
    match act {
        Act::Hand { c, place, value } => at_place(
            c,
            place,
            Facts {
                element: Some(value),
                handed: true,
                ..NOTHING
            },
        ),
        Act::Put { c, place, value } => at_place(
            c,
            place,
            Facts {
                element: Some(value),
                ..NOTHING
            },
        ),
        Act::Offer {
            c,
            place,
            value,
            main,
            clause,
        } => at_place(
            c,
            place,
            Facts {
                element: Some(value),
                wait: Some(main),
                clause: Some(clause),
                ..NOTHING
            },
        ),
        Act::Await { c, place, main, .. } => at_place(
            c,
            place,
            Facts {
                wait: Some(main),
                ..NOTHING
            },
        ),
        Act::Take { c, place, .. } => at_place(c, place, TAKEN),
        Act::Admit { c, place } => at_place(c, place, ADMITTED),
        Act::Drop { c, place, .. } => at_place(c, place, DROPPED),
        Act::Spurn { c, place, .. } => at_place(c, place, SPURNED),
        Act::Drain { c, place, .. } => at_place(c, place, DRAINED),
        Act::Withdraw { w, .. } => Some((w, WITHDRAWN)),
        Act::Settle { w, outcome } => Some((
            w,
            Facts {
                received: matches!(outcome, Settled::Value(..)),
                gave_up: matches!(outcome, Settled::Undelivered(_)),
                ..NOTHING
            },
        )),
        Act::Close { .. } | Act::Void { .. } | Act::WakeClosed { .. } => None,
    }
}
