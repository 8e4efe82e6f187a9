//! What polls did, by the sections of a state that they could look at.
//!
//! A poll looks at its coroutine, at the Jobs, and at the channels that it notes. Where these are as they were when a poll was made, and
//! those that it changed too, it need not be made again: the state that it leads to has the same sections in place of these.

use crate::states::hash_of;
use co_base::Tag;
use gathered::{Gathered, at, between, put};
use std::alloc::Global;

/// How many places the tables have. They are powers of two.
const SEATS: usize = 65536;

/// So many contents or effects are kept, at most.
const MOST: usize = 32768;

/// So many effects of one coroutine at one place are compared with a state, at most: those that were kept last.
const COMPARED: usize = 64;

/// A section that a poll looked at: its place, and the number of its content before the poll and behind it.
#[derive(Clone, Copy)]
pub(crate) struct Change {
    pub(crate) place: usize,
    pub(crate) before: u32,
    pub(crate) behind: u32,
}

/// What a poll did: whether anything, whether no other need be tried, and where its changes stand.
#[derive(Clone, Copy)]
pub(crate) struct Effect {
    tag: Tag,
    pub(crate) moved: bool,
    pub(crate) local: bool,
    start: usize,
    end: usize,
    /// The number behind that of an earlier one with the same hash; 0, if there is none.
    next: u32,
}

/// What is known, if nothing is: of no coroutine.
const NO_EFFECT: Effect = Effect {
    tag: Tag::MAX,
    moved: false,
    local: false,
    start: 0,
    end: 0,
    next: 0,
};

/// The number of a content for which there is no room.
pub(crate) const NO_ROOM: u32 = u32::MAX;

/// The contents of sections, each with a number of its own, and what polls did.
#[derive(Drop)]
pub(crate) struct Effects {
    numbers: Gathered<u64>,
    /// For each content, where it ends.
    ends: Gathered<usize>,
    /// At the place that a hash of a content names, or the next free one, the number behind its own.
    seats: Gathered<u32>,
    effects: Gathered<Effect>,
    changes: Gathered<Change>,
    /// At the place that a hash of a coroutine, its section and the Jobs names, the number behind that of the last effect.
    heads: Gathered<u32>,
}

impl Effects {
    pub(crate) fn new(alloc: Global) -> Effects {
        Effects {
            numbers: Gathered::new(alloc),
            ends: Gathered::new(alloc),
            seats: Gathered::new(alloc),
            effects: Gathered::new(alloc),
            changes: Gathered::new(alloc),
            heads: Gathered::new(alloc),
        }
    }

    /// Makes the tables, if they are not there; forgets all, if there is too much.
    pub(crate) fn make_room(&mut self) {
        let few = self.ends.len() < MOST && self.effects.len() < MOST;
        if few && self.seats.len() > 0 {
            return;
        }
        self.numbers.clear();
        self.ends.clear();
        self.effects.clear();
        self.changes.clear();
        make_seats(&mut self.seats);
        make_seats(&mut self.heads);
    }

    /// Whether memory held all that was kept.
    pub(crate) fn is_whole(&self) -> bool {
        let contents = self.numbers.is_whole() && self.ends.is_whole() && self.seats.is_whole();
        let effects = self.effects.is_whole() && self.heads.is_whole();
        contents && effects && self.changes.is_whole()
    }

    /// A content.
    pub(crate) fn content(&self, number: u32) -> &[u64] {
        let place = number as usize;
        let ends = self.ends.as_slice();
        let start = at(ends, place.wrapping_sub(1), 0);
        between(self.numbers.as_slice(), start, at(ends, place, 0))
    }

    /// The number of a content, which is kept; `NO_ROOM`, if there is none.
    pub(crate) fn number_of(&mut self, content: &[u64]) -> u32 {
        let mask = self.seats.len().saturating_sub(1);
        let mut place = hash_of(content) as usize & mask;
        for _ in 0..self.seats.len() {
            let seat = at(self.seats.as_slice(), place, 0);
            if seat == 0 {
                return self.add_content(place, content);
            }
            let number = seat.saturating_sub(1);
            if self.content(number) == content {
                return number;
            }
            place = place.wrapping_add(1) & mask;
        }
        NO_ROOM
    }

    fn add_content(&mut self, place: usize, content: &[u64]) -> u32 {
        let number = u32::try_from(self.ends.len()).unwrap_or(NO_ROOM);
        self.numbers.add_all(content);
        self.ends.add(self.numbers.len());
        put(self.seats.as_mut(), place, number.saturating_add(1));
        number
    }

    /// What a poll of this coroutine does where the contents of the sections are these, if it is known. Those of its own section and of the
    /// Jobs are told beside.
    pub(crate) fn find(&self, sections: &[u32], tag: Tag, seen: (u32, u32)) -> Option<Effect> {
        let mut next = at(self.heads.as_slice(), head_of(tag, seen), 0);
        for _ in 0..COMPARED {
            if next == 0 {
                break;
            }
            let place = (next as usize).saturating_sub(1);
            let effect = at(self.effects.as_slice(), place, NO_EFFECT);
            if effect.tag == tag && are_before(self.changes_of(effect), sections) {
                return Some(effect);
            }
            next = effect.next;
        }
        None
    }

    /// The sections that a poll looked at.
    pub(crate) fn changes_of(&self, effect: Effect) -> &[Change] {
        between(self.changes.as_slice(), effect.start, effect.end)
    }

    /// Keeps what a poll did: these are the sections that it looked at.
    pub(crate) fn add(
        &mut self,
        tag: Tag,
        seen: (u32, u32),
        did: (bool, bool),
        changes: &[Change],
    ) {
        let start = self.changes.len();
        self.changes.add_all(changes);
        let (moved, local) = did;
        let place = head_of(tag, seen);
        self.effects.add(Effect {
            tag,
            moved,
            local,
            start,
            end: self.changes.len(),
            next: at(self.heads.as_slice(), place, 0),
        });
        let number = u32::try_from(self.effects.len()).unwrap_or(0);
        put(self.heads.as_mut(), place, number);
    }
}

/// Makes a table with nothing in it.
fn make_seats(seats: &mut Gathered<u32>) {
    seats.clear();
    if seats.as_mut().resize(SEATS, 0).is_err() {
        seats.full = true;
    }
}

/// Whether the contents of these sections are those before.
fn are_before(changes: &[Change], sections: &[u32]) -> bool {
    for change in changes {
        if at(sections, change.place, NO_ROOM) != change.before {
            return false;
        }
    }
    true
}

/// A place for a coroutine, the content of its section and that of the Jobs.
fn head_of(tag: Tag, seen: (u32, u32)) -> usize {
    let (own, jobs) = seen;
    let mixed = u64::from(own)
        .wrapping_mul(2654435769)
        .wrapping_add(u64::from(jobs))
        .wrapping_mul(64)
        .wrapping_add(u64::from(tag))
        .wrapping_mul(11400714819323198485);
    (mixed >> 48) as usize
}
