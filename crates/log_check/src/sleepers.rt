//! Coroutines of which nothing is to be expected before something happens at a place, a channel or a Job. Nothing is claimed of it.

use crate::plan::{NOWHERE, Plan};
use co_base::{ChannelId, Row, Tag};
use gathered::{Gathered, at, put};
use script_reader::Script;
use std::alloc::Global;
use std::collections::VecDeque;

/// The number of what a coroutine waits for, if that is not known.
pub(crate) const UNKNOWN: usize = usize::MAX;

/// How many places and channels there are: of the things that coroutines wait for places have the first numbers, then channels, then Jobs.
#[derive(Clone, Copy)]
pub(crate) struct Things {
    pub(crate) places: usize,
    pub(crate) channels: usize,
}

pub(crate) const NO_THINGS: Things = Things {
    places: 0,
    channels: 0,
};

impl Things {
    /// The number of a place.
    pub(crate) fn of_place(self, place_at: u32) -> usize {
        if place_at == NOWHERE {
            UNKNOWN
        } else {
            place_at as usize
        }
    }

    pub(crate) fn of_channel(self, c: ChannelId) -> usize {
        self.places.saturating_add(c as usize)
    }

    pub(crate) fn of_job(self, row: Row) -> usize {
        self.places
            .saturating_add(self.channels)
            .saturating_add(row as usize)
    }
}

/// No coroutine.
const NONE: Tag = Tag::MAX;

/// Who sleeps for what, and who is awake and was not looked at since.
#[derive(Drop)]
pub(crate) struct Sleepers {
    /// The first that sleeps for each thing, by its number; and of each the next.
    heads: Gathered<Tag>,
    nexts: Gathered<Tag>,
    asleep: Gathered<bool>,
    awake: VecDeque<Tag>,
    /// Whether memory ran out as one was woken.
    full: bool,
}

impl Sleepers {
    /// All are awake.
    pub(crate) fn new(alloc: Global, plan: &Plan, script: &Script) -> Sleepers {
        let count = script.coroutines() as usize;
        let mut sleepers = Sleepers {
            heads: same_of(alloc, NONE, plan.things.of_job(script.jobs())),
            nexts: same_of(alloc, NONE, count),
            asleep: same_of(alloc, false, count),
            awake: VecDeque::new(alloc),
            full: false,
        };
        for tag in 0..script.coroutines() {
            sleepers.look_at_last(tag);
        }
        sleepers
    }

    /// How many are to be looked at.
    pub(crate) fn awake_count(&self) -> usize {
        self.awake.len()
    }

    /// The next that is to be looked at.
    pub(crate) fn next(&mut self) -> Option<Tag> {
        self.awake.pop_front()
    }

    /// A coroutine is to be looked at before all others, or after them.
    pub(crate) fn look_at(&mut self, tag: Tag, first: bool) {
        if !first {
            self.look_at_last(tag);
        } else if self.awake.push_front(tag).is_err() {
            self.full = true;
        }
    }

    fn look_at_last(&mut self, tag: Tag) {
        if self.awake.push_back(tag).is_err() {
            self.full = true;
        }
    }

    /// Whether memory held all, and those that were to be looked at.
    pub(crate) fn is_whole(&self) -> bool {
        let lists = self.heads.is_whole() && self.nexts.is_whole() && self.asleep.is_whole();
        lists && !self.full
    }

    /// A coroutine sleeps until something happens to this thing.
    pub(crate) fn sleep(&mut self, tag: Tag, thing: usize) {
        let own = tag as usize;
        if thing < self.heads.len() && !at(self.asleep.as_slice(), own, true) {
            put(
                self.nexts.as_mut(),
                own,
                at(self.heads.as_slice(), thing, NONE),
            );
            put(self.heads.as_mut(), thing, tag);
            put(self.asleep.as_mut(), own, true);
        }
    }

    /// Something happens to a thing: who sleeps for it is to be looked at.
    pub(crate) fn wake(&mut self, thing: usize) {
        let mut tag = at(self.heads.as_slice(), thing, NONE);
        put(self.heads.as_mut(), thing, NONE);
        for _ in 0..self.nexts.len() {
            if tag == NONE {
                break;
            }
            put(self.asleep.as_mut(), tag as usize, false);
            self.look_at_last(tag);
            tag = at(self.nexts.as_slice(), tag as usize, NONE);
        }
    }

    /// Nobody sleeps any more, and nobody is to be looked at before the others.
    pub(crate) fn forget(&mut self) {
        self.heads.as_mut().fill(NONE);
        self.asleep.as_mut().fill(false);
        self.awake.clear();
    }
}

/// A list with this value so many times.
pub(crate) fn same_of<T: Copy + Drop>(alloc: Global, value: T, count: usize) -> Gathered<T> {
    let mut list = Gathered::new(alloc);
    for _ in 0..count {
        list.add(value);
    }
    list
}
