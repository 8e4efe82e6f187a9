//! The kit's lock, taken and freed by one, two or four threads at once.

use crate::shares::{Worker, done_by_four};
use crate::told::{Done, now};
use std::sync::{Mutex, Wait};
use std::thread::Threads;
use std::time::Clock;

/// One that takes the lock in each turn, and adds to the number behind it.
#[derive(Drop)]
struct Holder<'a, R> {
    rt: &'a R,
}

impl<R: Wait + Sync> Worker for Holder<'_, R> {
    type Floor = Mutex<u64>;

    ghost can_work = { λ lock one. Unit {0} };

    fn turn(&mut self, lock: &Mutex<u64>, _number: u64) -> Option<u64> {
        let mut behind = lock.lock(self.rt);
        *behind = behind.wrapping_add(1);
        Some(1)
    }
}

/// So many turns by each of four, by one, two or four threads: the number in the end.
pub(crate) fn locked_by_four<R: Threads + Wait + Sync + Clock>(
    rt: &R,
    times: u64,
    threads: u32,
) -> Done {
    let begun = now(rt);
    let lock = Mutex::new(0u64);
    let four = (
        (Holder { rt }, Holder { rt }),
        (Holder { rt }, Holder { rt }),
    );
    done_by_four(rt, threads, &lock, four, (times, times));
    let number = lock.lock(rt);
    Some((*number, begun))
}
