//! The same by the kit's `crossbeam_channel`.

use crate::parcels::boxes::Parcel;
use crate::shares::{Worker, done_by_four};
use crate::told::{Done, now};
use crossbeam_channel::{Receiver, Sender, bounded};
use std::alloc::{AllocGlobal, Global};
use std::sync::Wait;
use std::thread::Threads;
use std::time::Clock;

/// One that sends and receives, by turns.
#[derive(Drop)]
struct Exchanger<'a, R> {
    rt: &'a R,
    alloc: Global,
}

impl<R: Wait + Sync> Worker for Exchanger<'_, R> {
    type Floor = (Sender<Parcel, Global>, Receiver<Parcel, Global>);

    ghost can_work = { λ ends one. Unit {0} };

    fn turn(
        &mut self,
        ends: &(Sender<Parcel, Global>, Receiver<Parcel, Global>),
        number: u64,
    ) -> Option<u64> {
        let Ok(parcel) = Box::new(self.alloc, [number; 16]) else {
            return Some(0);
        };
        let came = ends.0.send(self.rt, parcel).is_ok() && ends.1.recv(self.rt).is_ok();
        Some(u64::from(came))
    }
}

/// So many transfers by each of four, through a channel that keeps so many boxes, on so many threads, which are one, two or four: how many
/// boxes came.
pub(crate) fn exchanged_by<R: Threads + Wait + Sync + Clock + AllocGlobal>(
    rt: &R,
    slots: usize,
    times: u64,
    threads: u32,
) -> Done {
    let begun = now(rt);
    let alloc = rt.alloc();
    let Ok(ends) = bounded::<Parcel, Global>(alloc, slots) else {
        return None;
    };
    let left = (Exchanger { rt, alloc }, Exchanger { rt, alloc });
    let right = (Exchanger { rt, alloc }, Exchanger { rt, alloc });
    let came = done_by_four(rt, threads, &ends, (left, right), (times, times));
    Some((came, begun))
}
