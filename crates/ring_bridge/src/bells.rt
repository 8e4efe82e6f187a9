//! Who waits sleeps on its bell, and is woken by it.
ghost use Rattle.std.specs.Prelude.{◌≡◌};
ghost use Rattle.futures.specs.Task.{IsArmed, Keeps};

use co_base::Memory;
use futures::spin::lock;
use futures::task::{Context, Poll, Source, Waker};
use ring_channel::{Called, Closing, Wakes};
use std::alloc::Global;
use std::sync::atomic::{AtomicU64, Ordering};
use std::sync::{Mutex, Wait};

/// How many passes of a ring may wait.
const BELLS: u32 = 64;

/// How often it was rung, on which a thread sleeps, and the waker of a task that waits; on lines of a cache of its own.
#[derive(Drop)]
struct Bell {
    rung: AtomicU64,
    waker: Mutex<Option<Waker>>,
    _rest: [u64; 16],
}

impl Bell {
    fn ring(&self) {
        self.rung.fetch_add(1, Ordering::SeqCst);
        self.rung.wake_all();
        let waker = match lock(&self.waker) {
            Some(mut slot) => slot.take(),
            None => None,
        };
        drop(waker);
    }
}

/// The bells of a ring: one for each tag below 64.
#[derive(Drop)]
pub struct Bells {
    bells: Vec<Bell>,
    source: Source,
}

impl Bells {
    /// The bells of one ring, which all its passes share.
    pub fn new(alloc: Global) -> Result<Bells, Memory> {
        let mut bells = Vec::with_capacity(alloc, BELLS as usize)?;
        for _ in 0..BELLS {
            bells.push(Bell {
                rung: AtomicU64::new(0),
                waker: Mutex::new(None),
                _rest: [0; 16],
            })?;
        }
        Ok(Bells {
            bells,
            source: Source::new(),
        })
    }

    /// How often the bell of this tag was rung.
    pub fn rung(&self, tag: u32) -> u64 {
        match self.bells.get(tag as usize) {
            Some(bell) => bell.rung.load(Ordering::SeqCst),
            None => 0,
        }
    }

    /// Sleeps until the bell is rung, if it was rung only so often. It may return earlier.
    pub fn sleep<R: Wait>(&self, rt: &R, tag: u32, rung: u64) {
        if let Some(bell) = self.bells.get(tag as usize) {
            bell.rung.park(rt, (rung % 4294967296) as u32);
        }
    }

    /// Leaves the waker of the task at the bell, if that was rung only so often. Else the task is polled again at once.
    pub fn wait<T>(&self, cx: &mut Context<'_>, tag: u32, rung: u64) -> Poll<T>
        ensures pending { result ≡ Poll.Pending }
        ensures armed { IsArmed cx.new }
        ensures kept { Keeps cx.old cx.new }
    {
        let Some(bell) = self.bells.get(tag as usize) else {
            return cx.yield_now();
        };
        let Some(mut slot) = lock(&bell.waker) else {
            return cx.yield_now();
        };
        let left: Poll<()> = cx.register(&self.source, &mut slot);
        drop(slot);
        if bell.rung.load(Ordering::SeqCst) == rung && left.is_pending() {
            return Poll::Pending;
        }
        cx.yield_now()
    }

    /// Rings the bell of this tag.
    pub fn ring(&self, tag: u32) {
        if let Some(bell) = self.bells.get(tag as usize) {
            bell.ring();
        }
    }

    /// Wakes all whose bits are set: the bit 2^t is that of the tag t.
    pub fn wake_mask(&self, mask: u64) {
        for tag in 0..BELLS {
            if (mask >> tag) & 1 == 1 {
                self.ring(tag);
            }
        }
    }

    /// Wakes whom a call named.
    pub fn wake(&self, called: Called) {
        match called {
            Called::Nobody => {}
            Called::One(tag) => self.ring(tag as u32),
            Called::All(mask) => self.wake_mask(mask),
        }
    }

    /// Wakes whom a send or a receive named.
    pub fn wake_both(&self, wakes: Wakes) {
        self.wake(wakes.receivers);
        self.wake(wakes.senders);
    }

    /// Wakes whom a close named.
    pub fn wake_all(&self, closing: Closing) {
        self.wake_mask(closing.receivers);
        self.wake_mask(closing.senders);
    }
}
