//! The states that were seen, and how each was reached.

use crate::aheads::Aheads;
use crate::whole::if_whole;
use co_base::{Memory, Tag};
use gathered::{Gathered, at, between, put};
use std::alloc::Global;
use std::mem::replace;

/// How many places a table of states has at first. It is a power of two, as each later number of them.
const PLACES: usize = 1024;

/// The states, numbered in the order in which they were first reached. The first is that before any poll, which has no key.
///
/// The keys stand one behind another. A state of so many is found by a table of numbers, at the place that the hash of its key names, or
/// the next free one; a quarter of the places is free at least.
#[derive(Drop)]
pub(crate) struct States {
    /// How each was reached: from which state, by a poll of which coroutine; and where its key ends.
    steps: Gathered<Step>,
    keys: Gathered<u64>,
    places: Gathered<Seat>,
    most: usize,
    /// What was found of those that were not looked at yet.
    pub(crate) aheads: Aheads,
    /// Whether a state was left out, as one too many.
    pub(crate) full: bool,
    /// How many polls led from a state to one that may be another.
    pub(crate) turns: u64,
}

#[derive(Clone, Copy)]
struct Step {
    key_end: usize,
    from: u32,
    tag: Tag,
}

/// What stands at a place of the table: half of the hash of a key, and the number of the state that has it; 0, if the place is free.
#[derive(Clone, Copy)]
struct Seat {
    hash: u32,
    number: u32,
}

const FREE: Seat = Seat { hash: 0, number: 0 };

/// The step to the first state, which there is before any poll.
const FIRST: Step = Step {
    key_end: 0,
    from: 0,
    tag: 0,
};

/// In place of a free place for a key: a state that has it was seen.
const SEEN: usize = usize::MAX;

impl States {
    pub(crate) fn new(alloc: Global, most: u32) -> States {
        let mut states = States {
            steps: Gathered::new(alloc),
            keys: Gathered::new(alloc),
            places: Gathered::new(alloc),
            most: most as usize,
            aheads: Aheads::new(alloc),
            full: false,
            turns: 0,
        };
        states.steps.add(FIRST);
        if states.places.as_mut().resize(PLACES, FREE).is_err() {
            states.places.full = true;
        }
        states
    }

    pub(crate) fn count(&self) -> usize {
        self.steps.len()
    }

    /// Adds the state with this key, and the hash of it, if it is new, which a poll of a coroutine led to. The answer is its number then.
    pub(crate) fn add(&mut self, from: u32, tag: Tag, hash: u64, key: &[u64]) -> Option<u32> {
        self.count_turn();
        let place = self.place_of(hash, key);
        if place == SEEN {
            return None;
        }
        let Some(number) = self.next_number() else {
            self.full = true;
            return None;
        };
        self.keys.add_all(key);
        let key_end = self.keys.len();
        self.steps.add(Step { key_end, from, tag });
        let hash = half_of(hash);
        put(self.places.as_mut(), place, Seat { hash, number });
        if self.steps.len() > self.places.len() / 4 * 3 {
            self.grow();
        }
        Some(number)
    }

    /// Tells whether memory held all that was kept.
    pub(crate) fn whole(&self) -> Result<(), Memory> {
        let states = self.steps.is_whole() && self.keys.is_whole() && self.places.is_whole();
        if_whole(states && self.aheads.is_whole())
    }

    /// A poll led to a state that was seen.
    pub(crate) fn count_turn(&mut self) {
        self.turns = self.turns.saturating_add(1);
    }

    /// Whether a state with this key, and the hash of it, was seen.
    pub(crate) fn has(&self, hash: u64, key: &[u64]) -> bool {
        self.place_of(hash, key) == SEEN
    }

    /// The number of the next state, if there may be one more.
    fn next_number(&self) -> Option<u32> {
        if self.steps.len() >= self.most {
            return None;
        }
        u32::try_from(self.steps.len()).ok()
    }

    /// Where a state with this key may stand; `SEEN`, if there is one.
    fn place_of(&self, hash: u64, key: &[u64]) -> usize {
        let half = half_of(hash);
        let mask = self.places.len().saturating_sub(1);
        let mut place = half as usize & mask;
        for _ in 0..self.places.len() {
            let seat = self.seat_at(place);
            if seat.number == 0 {
                return place;
            }
            if seat.hash == half && self.key_of(seat.number as usize) == key {
                return SEEN;
            }
            place = place.wrapping_add(1) & mask;
        }
        0
    }

    fn seat_at(&self, place: usize) -> Seat {
        at(self.places.as_slice(), place, FREE)
    }

    /// Puts it at the first free place for its hash.
    fn put_again(&mut self, seat: Seat) {
        let mask = self.places.len().saturating_sub(1);
        let mut place = seat.hash as usize & mask;
        for _ in 0..self.places.len() {
            if self.seat_at(place).number == 0 {
                break;
            }
            place = place.wrapping_add(1) & mask;
        }
        put(self.places.as_mut(), place, seat);
    }

    fn step(&self, state: usize) -> Step {
        at(self.steps.as_slice(), state, FIRST)
    }

    /// The key of a state.
    pub(crate) fn key_of(&self, state: usize) -> &[u64] {
        let start = self.step(state.saturating_sub(1)).key_end;
        between(self.keys.as_slice(), start, self.step(state).key_end)
    }

    /// Doubles the places.
    #[cold]
    #[inline(never)]
    fn grow(&mut self) {
        let count = self.places.len().saturating_mul(2);
        let mut more = Gathered::new(*self.places.as_mut().allocator());
        if more.as_mut().resize(count, FREE).is_err() {
            self.places.full = true;
            return;
        }
        let old = replace(&mut self.places, more);
        for seat in old.as_slice() {
            if seat.number > 0 {
                self.put_again(*seat);
            }
        }
    }

    /// The polls by which a state was first reached, in their order.
    pub(crate) fn order_of(&self, alloc: Global, state: u32) -> Result<Vec<Tag>, Memory> {
        let mut order = Gathered::new(alloc);
        self.read_order(state, &mut order);
        Ok(order.whole()?)
    }

    /// The same, in place of what the list has.
    pub(crate) fn read_order(&self, state: u32, order: &mut Gathered<Tag>) {
        order.clear();
        let mut here = state;
        for _ in 0..self.steps.len() {
            if here == 0 {
                break;
            }
            let step = self.step(here as usize);
            order.add(step.tag);
            here = step.from;
        }
        order.as_mut().reverse();
    }
}

/// A number that differs for most keys that differ.
pub(crate) fn hash_of(key: &[u64]) -> u64 {
    let mut hash = 14695981039346656037u64;
    for word in key {
        let mixed = (hash ^ *word).wrapping_mul(11400714819323198485);
        hash = mixed ^ (mixed >> 32);
    }
    hash
}

/// The half of a hash by which its place is found.
fn half_of(hash: u64) -> u32 {
    u32::try_from(hash & 4294967295).ok().unwrap_or(0)
}
