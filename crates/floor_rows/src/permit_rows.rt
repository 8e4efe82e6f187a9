//! Calls of three coroutines on one permit, after one of them filled the semaphore, worked out by hand; and who holds a permit at once.

use crate::compare::compare;
use co_base::{Memory, Tag, WaitId};
use floor_tests::permit_calls::{Call, right_on_list, right_on_passes, tally_of_four};
use permits::{Acquired, GivenBack, Permits, Released, TryAcquired};
use std::alloc::Global;
use std::test::Fail;

/// The wait of the first that found no permit: the fill has the place before it.
const WAIT: WaitId = WaitId {
    channel: 0,
    place: 1,
};

/// A permit comes to one who gives up, and goes back.
const GOES_BACK: &[(Tag, Call)] = &[
    (1, Call::Acquire(Acquired::Held)),
    (2, Call::Acquire(Acquired::Waits(WAIT))),
    (1, Call::Release(Released::Done)),
    (2, Call::CancelAcquire(GivenBack::Back)),
    (1, Call::Acquire(Acquired::Held)),
    (2, Call::TryAcquire(TryAcquired::Empty)),
];

/// A permit comes to one who waits, and is taken up.
const TAKEN_UP: &[(Tag, Call)] = &[
    (1, Call::TryAcquire(TryAcquired::Held)),
    (2, Call::Acquire(Acquired::Waits(WAIT))),
    (1, Call::Release(Released::Done)),
    (1, Call::TryAcquire(TryAcquired::Empty)),
    (2, Call::TakeUp(Acquired::Held)),
    (2, Call::Release(Released::Done)),
];

/// Who holds none releases none, and the one that is free stays free.
const NOT_HELD: &[(Tag, Call)] = &[
    (1, Call::Release(Released::NotHeld)),
    (2, Call::Acquire(Acquired::Held)),
    (1, Call::TryAcquire(TryAcquired::Empty)),
];

const TABLES: [&[(Tag, Call)]; 3] = [GOES_BACK, TAKEN_UP, NOT_HELD];

/// The number of the first table of which not all calls answer so, and how many do from the first on: on a list, and over words.
fn first_other(
    alloc: Global,
    tables: &[&[(Tag, Call)]],
) -> Result<Option<(usize, [usize; 2])>, Memory> {
    for (number, calls) in tables.iter().enumerate() {
        let on_list = right_on_list(alloc, *calls)?;
        let on_passes = right_on_passes(alloc, *calls)?;
        if on_list != calls.len() || on_passes != calls.len() {
            return Ok(Some((number, [on_list, on_passes])));
        }
    }
    Ok(None)
}

#[test]
fn calls_on_a_permit_are_answered_as_their_tables_say(rt: HostRuntime) -> Result<(), Fail> {
    let other = first_other(rt.alloc(), &TABLES)?;
    compare(&rt, &other, &None);
    Ok(())
}

#[test]
fn at_most_two_of_four_threads_hold_a_permit_at_once(rt: HostRuntime) -> Result<(), Fail> {
    let (tally, free) = tally_of_four(&rt, &Permits { c: 0, n: 2 }, 10000, 4, true)?;
    let acquired = tally.held.saturating_add(tally.given_up);
    compare(&rt, &(tally.wrong, acquired, free), &(0, 40000, true));
    Ok(())
}
