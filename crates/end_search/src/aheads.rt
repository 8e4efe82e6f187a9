//! What was found of states before their turn: where a run is at a state that is new, its first poll is made at once.

use co_base::Tag;
use gathered::{Gathered, at, between};
use std::alloc::Global;
use std::mem::swap;

/// Of so many states it is kept, at most.
const MOST: usize = 131072;

/// A poll that does something: whose it is, whether no other need be tried, and the hash of the key of the state that it leads to.
#[derive(Clone, Copy)]
pub(crate) struct Poll {
    pub(crate) tag: Tag,
    pub(crate) local: bool,
    pub(crate) hash: u64,
}

/// A poll that does something in a state, if there is one; how many words the key has of the state that it leads to; and from which tag on
/// no poll does anything.
#[derive(Clone, Copy)]
pub(crate) struct Found {
    pub(crate) poll: Option<Poll>,
    pub(crate) words: usize,
    pub(crate) stuck_from: Tag,
}

/// What was found of a state, and of those behind it, of which each is reached by the poll that was found of the one before; and the keys
/// of the states that these polls lead to, one behind another.
#[derive(Clone, Copy)]
pub(crate) struct Ahead<'a> {
    found: &'a [Found],
    keys: &'a [u64],
}

impl<'a> Ahead<'a> {
    /// What was found of the state itself.
    pub(crate) fn first(self) -> Option<Found> {
        self.found.first().copied()
    }

    /// The key of the state that its poll leads to.
    pub(crate) fn first_key(self) -> &'a [u64] {
        between(self.keys, 0, self.first_words())
    }

    /// What was found of the states behind it.
    pub(crate) fn rest(self) -> &'a [Found] {
        between(self.found, 1, self.found.len())
    }

    /// The keys of the states that those polls lead to.
    pub(crate) fn rest_keys(self) -> &'a [u64] {
        between(self.keys, self.first_words(), self.keys.len())
    }

    fn first_words(self) -> usize {
        match self.found.first() {
            Some(found) => found.words,
            None => 0,
        }
    }
}

/// Those of some states, in the order of the states, one behind another.
#[derive(Drop)]
struct Row {
    entries: Gathered<Entry>,
    found: Gathered<Found>,
    keys: Gathered<u64>,
}

/// Of which state, and where what was found of it ends, and where the keys do.
#[derive(Clone, Copy)]
struct Entry {
    state: u32,
    found_end: usize,
    keys_end: usize,
}

/// What stands before the first entry: no state has this number.
const NO_ENTRY: Entry = Entry {
    state: u32::MAX,
    found_end: 0,
    keys_end: 0,
};

impl Row {
    fn new(alloc: Global) -> Row {
        Row {
            entries: Gathered::new(alloc),
            found: Gathered::new(alloc),
            keys: Gathered::new(alloc),
        }
    }

    fn add(&mut self, state: u32, found: &[Found], keys: &[u64]) {
        self.found.add_all(found);
        self.keys.add_all(keys);
        self.entries.add(Entry {
            state,
            found_end: self.found.len(),
            keys_end: self.keys.len(),
        });
    }

    fn clear(&mut self) {
        self.entries.clear();
        self.found.clear();
        self.keys.clear();
    }

    fn is_whole(&self) -> bool {
        self.entries.is_whole() && self.found.is_whole() && self.keys.is_whole()
    }

    fn entry(&self, place: usize) -> Entry {
        at(self.entries.as_slice(), place, NO_ENTRY)
    }

    /// Whether all are of states below this one.
    fn is_below(&self, state: u32) -> bool {
        match self.entries.as_slice().last() {
            Some(last) => last.state < state,
            None => true,
        }
    }

    /// That of a state, if it is there.
    fn of(&self, state: u32) -> Option<Ahead<'_>> {
        let place = self.place_of(state);
        let entry = self.entry(place);
        let before = self.entry(place.wrapping_sub(1));
        if entry.state != state {
            return None;
        }
        Some(Ahead {
            found: between(self.found.as_slice(), before.found_end, entry.found_end),
            keys: between(self.keys.as_slice(), before.keys_end, entry.keys_end),
        })
    }

    /// The place of the first that is not of a state below this one.
    fn place_of(&self, state: u32) -> usize {
        let mut from = 0usize;
        let mut to = self.entries.len();
        for _ in 0..64 {
            if from >= to {
                break;
            }
            let middle = from.saturating_add(to.saturating_sub(from) / 2);
            if self.entry(middle).state < state {
                from = middle.saturating_add(1);
            } else {
                to = middle;
            }
        }
        from
    }
}

/// Those of some states: in the later row those that were found last. The earlier one is emptied when all its states were looked at.
#[derive(Drop)]
pub(crate) struct Aheads {
    earlier: Row,
    later: Row,
}

impl Aheads {
    pub(crate) fn new(alloc: Global) -> Aheads {
        Aheads {
            earlier: Row::new(alloc),
            later: Row::new(alloc),
        }
    }

    /// Keeps what was found of the last state and of those behind it, if anything was, unless there is enough.
    pub(crate) fn keep(&mut self, state: u32, found: &[Found], keys: &[u64]) {
        let earlier = self.earlier.entries.len();
        let count = earlier.saturating_add(self.later.entries.len());
        if count < MOST && !found.is_empty() {
            self.later.add(state, found, keys);
        }
    }

    /// Whether memory held all that was kept.
    pub(crate) fn is_whole(&self) -> bool {
        self.earlier.is_whole() && self.later.is_whole()
    }

    /// Those of states below this one are not needed any more.
    pub(crate) fn leave_behind(&mut self, state: u32) {
        if self.earlier.is_below(state) {
            swap(&mut self.earlier, &mut self.later);
            self.later.clear();
        }
    }

    /// That of a state, if it is kept.
    pub(crate) fn of(&self, state: u32) -> Option<Ahead<'_>> {
        if self.earlier.is_below(state) {
            self.later.of(state)
        } else {
            self.earlier.of(state)
        }
    }
}
