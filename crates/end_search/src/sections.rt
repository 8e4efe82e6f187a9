//! The sections of a state: its numbers tell first of each channel that the script declares, then of the Jobs and their channels, then of
//! each coroutine, and last of the losses.

use crate::reads::reads_of;
use engine_base::rows_of;
use gathered::{Gathered, at};
use script_reader::Script;
use std::alloc::Global;

/// A channel with fewer places tells how many were given out.
const MANY_PLACES: u32 = 16384;

/// Of which sections the numbers of a state are.
#[derive(Drop)]
pub(crate) struct Layout {
    /// For each channel that the script declares whether it tells how many places were given out.
    counted: Gathered<bool>,
    jobs: u16,
    /// For each coroutine whether it tells what it received.
    reads: Gathered<bool>,
}

impl Layout {
    pub(crate) fn new(alloc: Global, script: &Script) -> Layout {
        Layout {
            counted: counted_of(alloc, script),
            jobs: rows_of(script),
            reads: reads_of(alloc, script),
        }
    }

    /// Whether memory held it.
    pub(crate) fn is_whole(&self) -> bool {
        self.counted.is_whole() && self.reads.is_whole()
    }

    /// How many channels the script declares: so many sections come before that of the Jobs.
    pub(crate) fn channels(&self) -> usize {
        self.counted.len()
    }

    /// The place of the section of a coroutine.
    pub(crate) fn place_of(&self, tag: usize) -> usize {
        self.counted.len().saturating_add(1).saturating_add(tag)
    }

    /// Tells for each section but the last where it ends.
    pub(crate) fn read_ends(&self, numbers: &[u64], ends: &mut Gathered<usize>) {
        ends.clear();
        let mut end = 0usize;
        for counted in self.counted.as_slice() {
            end = channel_end(numbers, end, *counted);
            ends.add(end);
        }
        end = jobs_end(numbers, end, self.jobs);
        ends.add(end);
        for reads in self.reads.as_slice() {
            end = coroutine_end(numbers, end, *reads);
            ends.add(end);
        }
    }
}

/// For each channel that the script declares whether it tells how many places were given out.
fn counted_of(alloc: Global, script: &Script) -> Gathered<bool> {
    let mut counted = Gathered::new(alloc);
    for channel in script.channels() {
        counted.add(channel.places < MANY_PLACES);
    }
    counted
}

fn number_at(numbers: &[u64], place: usize) -> u64 {
    at(numbers, place, 0)
}

/// Behind so many numbers.
fn behind(at: usize, count: usize) -> usize {
    at.saturating_add(count)
}

/// Where the numbers of a channel end that begin there.
fn channel_end(numbers: &[u64], at: usize, counted: bool) -> usize {
    let open = number_at(numbers, at) == 0;
    let voided = behind(at, if open { 1 } else { 2 });
    let offers = behind(voided, if counted { 2 } else { 1 });
    let mut at = behind(offers, 1);
    for _ in 0..number_at(numbers, offers) {
        let nobody = number_at(numbers, behind(at, 1)) == 0;
        at = behind(at, if nobody { 2 } else { 3 });
    }
    let receivers = number_at(numbers, at).saturating_mul(2).saturating_add(1);
    behind(at, receivers as usize)
}

/// Where the numbers of the Jobs and their channels end.
fn jobs_end(numbers: &[u64], at: usize, jobs: u16) -> usize {
    let mut at = at;
    for _ in 0..jobs {
        at = channel_end(numbers, at, true);
    }
    for _ in 0..jobs {
        let absent = number_at(numbers, at) == 0;
        at = behind(at, if absent { 1 } else { 8 });
    }
    behind(at, jobs as usize)
}

/// Where the numbers of a coroutine end.
fn coroutine_end(numbers: &[u64], at: usize, reads: bool) -> usize {
    let stage = number_at(numbers, at);
    if stage == 6 {
        return behind(at, 1);
    }
    let names = number_at(numbers, behind(at, 4));
    let mut at = behind(at, 5).saturating_add(names as usize);
    for _ in 0..numbers.len() {
        if number_at(numbers, at) == 0 {
            break;
        }
        at = behind(at, 3);
    }
    let at = behind(at, if reads { 3 } else { 1 });
    if stage == 2 || stage == 4 {
        return behind(at, wait_length(number_at(numbers, at)));
    }
    at
}

/// How many numbers tell of a wait, of which this is the first.
fn wait_length(first: u64) -> usize {
    match first {
        2 | 5 => 3,
        3 | 4 => 2,
        _ => 1,
    }
}
