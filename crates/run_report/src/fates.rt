//! What became of each element, from one look at all acts and a second one at those that resolve a wait.

ghost use Rattle.std.specs.Prelude.{◌≡◌, ◌≤◌, ℕ, None, map, IfOk};
ghost use Rattle.note_book.specs.Books.{notes_of};
ghost use Rattle.run_report.specs.Elements.{channel_acts_noted, element_of};
ghost use Rattle.run_report.specs.Known.{IsPlain, element_in, fate_by, has_given_up, has_left, has_received, has_withdrawn};

use crate::facts::{Facts, NOTHING, facts_in};
use crate::resolutions::{Resolved, resolutions_in};
use crate::table::Table;
use channel_model::Fate;
use co_base::{ChannelId, Place, Value};
use note_book::Notes;
use std::alloc::{AllocError, Global};

/// What is known of each place, and where each wait was resolved.
#[derive(Drop)]
pub(crate) struct Known {
    facts: Table<Facts>,
    resolved: Table<Resolved>,
}

impl Known {
    /// What the acts of all these books make known. Each book is read where it is.
    pub(crate) fn from_books(alloc: Global, books: &[Notes]) -> Result<Known, AllocError>
        ensures plain { IfOk result (λ known. IsPlain known) }
        ensures elements { IfOk result (λ known. element_in known ≡ element_of (channel_acts_noted (map notes_of books.now))) }
    {
        let facts = facts_in(alloc, books)?;
        let resolved = resolutions_in(alloc, &facts, books)?;
        Ok(Known { facts, resolved })
    }

    /// At this place of a channel, and at all after it, there is no element.
    pub(crate) fn reach(&self, c: ChannelId) -> usize
        requires plain { IsPlain self.now }
        ensures { (p : ℕ) → result ≤ p → element_in self.now c p ≡ None }
    {
        self.facts.reach(c)
    }

    /// The element of a place, and what became of it.
    pub(crate) fn element(&self, c: ChannelId, place: Place) -> Option<(Value, Fate)>
        ensures { result ≡ element_in self.now c place }
    {
        let here = self.facts.get(c, place);
        let value = here.element?;
        let fate = match here.wait {
            Some(w) => {
                let wait = self.facts.get(w.channel, w.place);
                let resolved = self.resolved.get(w.channel, w.place);
                fate_by(here, wait, resolved.is_elsewhere(c, place))
            }
            None => fate_by(here, NOTHING, false),
        };
        Some((value, fate))
    }
}

/// The fate, from what is said of the place and of its wait, and whether the wait was resolved elsewhere.
fn fate_by(here: Facts, wait: Facts, elsewhere: bool) -> Fate
    ensures { result ≡ fate_by here wait elsewhere }
{
    if has_received(here, wait) {
        Fate::Received
    } else if has_given_up(here, wait) {
        Fate::Undelivered
    } else if here.dropped {
        Fate::Dropped
    } else if here.spurned {
        Fate::Spurned
    } else if has_left(here, wait, elsewhere) {
        Fate::Withdrawn
    } else {
        Fate::Held
    }
}

/// Whether the element was taken, or handed to a receiver that ended with a value.
fn has_received(here: Facts, wait: Facts) -> bool
    ensures { result ≡ has_received here wait }
{
    here.taken || (here.handed && wait.received)
}

/// Whether the element came back undelivered.
fn has_given_up(here: Facts, wait: Facts) -> bool
    ensures { result ≡ has_given_up here wait }
{
    here.drained
        || (here.handed && wait.gave_up)
        || (here.clause == Some(0) && has_withdrawn(here, wait))
}

/// Whether a select took its offer back, or chose another clause.
fn has_left(here: Facts, wait: Facts, elsewhere: bool) -> bool
    ensures { result ≡ has_left here wait elsewhere }
{
    match here.clause {
        Some(clause) => {
            clause > 0 && (has_withdrawn(here, wait) || (!here.admitted && elsewhere))
        }
        None => false,
    }
}

/// Whether the offer's wait was withdrawn before the offer was admitted.
fn has_withdrawn(here: Facts, wait: Facts) -> bool
    ensures { result ≡ has_withdrawn here wait }
{
    !here.admitted && wait.withdrawn
}
