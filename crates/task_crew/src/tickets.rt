//! The tickets of a worker.

ghost use Rattle.std.specs.Prelude.{◌≡◌, ◌<◌, ◌≤◌, IfOk, vec_len};

use crate::latest::{Latest, OtherLatest, all_but, take_from_any, words_of};
use co_base::{Memory, Tag, Wakes};
use std::alloc::Global;
use std::sync::atomic::{AtomicBool, AtomicU64, Ordering};
use std::sync::{Arc, Wait};
use std::time::Duration;
use steal_lanes::{Lane, lanes};

/// How many latest tickets a worker takes one after another, before one of its lane has its turn.
const LATEST_IN_A_ROW: u32 = 64;

/// How many tickets a worker has to run before it has none, so that it looks at once for those of others. If it ran fewer, what it took
/// from another did not last, and it waits before it looks.
const TICKETS_THAT_PAY: u32 = 1_024;

/// How long a worker waits before a look, in microseconds: at first, and at most. Each time is twice the one before.
const FIRST_PAUSE: u64 = 50;

const LONGEST_PAUSE: u64 = 1_600;

/// How often a worker looks again where nobody is at work, but not all have begun.
const LOOKS_BEFORE_ALL_BEGIN: u32 = 8;

/// What a worker that begins adds to the count of those at work: the count of those that have begun stands above it.
const BEGUN: u64 = 4294967296;

/// A worker's own tickets, with the ways to those of the others; and what all workers share: how many of them are at work and have begun,
/// and whether a poll found no memory.
///
/// A worker is at work while its lane, its latest ticket, or its hand, may have a ticket. Since nobody else puts there, no worker that
/// began has a ticket where nobody is at work.
#[derive(Drop)]
pub struct Tickets {
    lane: Lane,
    latest: Latest,
    other_latest: Vec<OtherLatest>,
    /// How many latest tickets it took one after another.
    in_a_row: u32,
    /// How many tickets it ran since it had none.
    ran: u32,
    /// How long it waits before the next look, in microseconds.
    pause: u64,
    workers: u8,
    /// How often it may look again where nobody is at work, but not all have begun.
    looks_left: u32,
    at_work: Arc<AtomicU64, Global>,
    stopped: Arc<AtomicBool, Global>,
}

/// The tickets of so many workers: none yet.
pub fn no_tickets(alloc: Global, workers: u8, room: u32) -> Result<Vec<Tickets>, Memory>
    requires some { 0 < workers }
    requires few { workers ≤ 16 }
    ensures count { IfOk result (λ v. vec_len v ≡ workers) }
{
    let at_work = Arc::new(alloc, AtomicU64::new(0))?;
    let stopped = Arc::new(alloc, AtomicBool::new(false))?;
    let words = words_of(alloc, workers)?;
    let mut all = Vec::new(alloc);
    for lane in lanes(alloc, workers, room)? {
        let own = all.len();
        all.push(Tickets {
            lane,
            latest: Latest::new(&words[own])?,
            other_latest: all_but(alloc, words.as_slice(), own)?,
            in_a_row: 0,
            ran: TICKETS_THAT_PAY,
            pause: FIRST_PAUSE,
            workers,
            looks_left: LOOKS_BEFORE_ALL_BEGIN,
            at_work: Arc::try_clone(&at_work)?,
            stopped: Arc::try_clone(&stopped)?,
        })?;
    }
    Ok(all)
}

impl Tickets {
    /// Puts a ticket behind all others of the own lane. For want of memory it is lost.
    pub fn put(&mut self, tag: Tag) {
        let _ = self.lane.put(tag);
    }

    /// The worker begins: it is at work from now on.
    pub(crate) fn begin(&self) {
        self.at_work.fetch_add(BEGUN + 1, Ordering::SeqCst);
    }

    /// The worker is not at work any more. The answer is the count of the others. If none is at work, those that wait are woken.
    fn rest(&self) -> u64 {
        let others = self.at_work.fetch_sub(1, Ordering::SeqCst).wrapping_sub(1);
        if others % BEGUN == 0 {
            self.at_work.wake_all();
        }
        others
    }

    /// Whether nobody has a ticket, by the count of those at work: none is, and all have begun, or those that have not are waited for no
    /// more.
    fn is_over(&mut self, at_work: u64) -> bool {
        if at_work % BEGUN != 0 {
            return false;
        }
        if at_work / BEGUN >= u64::from(self.workers) || self.looks_left == 0 {
            return true;
        }
        self.looks_left -= 1;
        false
    }

    /// Waits until it is time to look again. It does not wait where somebody began or came to rest meanwhile.
    fn wait<R: Wait>(&mut self, rt: &R, others: u64) {
        let seen = (others % BEGUN) as u32;
        self.at_work
            .park_timeout(rt, seen, Duration::from_micros(self.pause));
        self.pause = self.pause.saturating_mul(2).min(LONGEST_PAUSE);
    }

    /// An own ticket: the latest one, or, if many of these came one after another, the first of the lane. The answer says too whether it is
    /// the latest, that of a task which the worker woke.
    fn take(&mut self) -> Option<(Tag, bool)> {
        if self.in_a_row < LATEST_IN_A_ROW {
            if let Some(tag) = self.latest.take() {
                self.in_a_row += 1;
                return Some((tag, true));
            }
        }
        self.in_a_row = 0;
        if let Some(tag) = self.lane.take() {
            return Some((tag, false));
        }
        let tag = self.latest.take()?;
        Some((tag, true))
    }

    /// A ticket of any lane, or else the latest of another worker that did not come to it since the last look.
    fn look(&mut self) -> Option<Tag> {
        if let Some(tag) = self.lane.next() {
            return Some(tag);
        }
        take_from_any(&mut self.other_latest)
    }

    /// Whether the worker ran so many tickets that it may look at once for more.
    fn has_paid(&mut self) -> bool {
        let paid = self.ran >= TICKETS_THAT_PAY;
        self.ran = 0;
        if paid {
            self.pause = FIRST_PAUSE;
        }
        paid
    }

    /// A ticket of another. The worker is at work, and has none of its own. None: nobody has a ticket, or a poll found no memory; then the
    /// worker is not at work any more.
    fn seek<R: Wait>(&mut self, rt: &R) -> Option<Tag> {
        let mut looks = self.has_paid();
        for _ in rt.forever() {
            if self.is_stopped() {
                self.rest();
                return None;
            }
            if looks {
                if let Some(tag) = self.look() {
                    return Some(tag);
                }
            }
            looks = true;
            let others = self.rest();
            if self.is_over(others) {
                return None;
            }
            self.wait(rt, others);
            let others = self.at_work.load(Ordering::SeqCst);
            if self.is_over(others) {
                return None;
            }
            self.at_work.fetch_add(1, Ordering::SeqCst);
        }
        unreachable!()
    }

    /// An own ticket, and whether it is the latest one, unless a poll found no memory.
    pub(crate) fn own(&mut self) -> Option<(Tag, bool)> {
        if self.is_stopped() {
            return None;
        }
        let ticket = self.take()?;
        self.ran = self.ran.saturating_add(1);
        Some(ticket)
    }

    /// The next ticket, one of the own first, and whether it is the own latest one. The worker is at work. None: nobody has a ticket, or a
    /// poll found no memory; then the worker is not at work any more.
    pub(crate) fn next<R: Wait>(&mut self, rt: &R) -> Option<(Tag, bool)> {
        if self.is_stopped() {
            self.rest();
            return None;
        }
        if let Some(ticket) = self.take() {
            self.ran = self.ran.saturating_add(1);
            return Some(ticket);
        }
        let tag = self.seek(rt)?;
        Some((tag, false))
    }

    /// A poll found no memory: all workers are to end.
    pub(crate) fn stop(&self) {
        self.stopped.store(true, Ordering::SeqCst);
        self.at_work.wake_all();
    }

    /// Whether a poll found no memory.
    pub(crate) fn is_stopped(&self) -> bool {
        self.stopped.load(Ordering::SeqCst)
    }
}

/// Who is woken gets the latest ticket of the worker that polls. The one before goes into its lane.
impl Wakes for Tickets {
    fn wake(&mut self, tag: Tag) {
        if let Some(before) = self.latest.put(tag) {
            self.put(before);
        }
    }
}
