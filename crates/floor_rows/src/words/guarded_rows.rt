//! One value: two threads that count it up, and two seats, one call after the other.
ghost use Rattle.guarded.specs.Guards.{IsOf, HasNothing};

use crate::compare::compare;
use co_base::Memory;
use guarded::{GuardSeat, Guarded};
use std::alloc::Global;
use std::sync::Wait;
use std::test::Fail;
use std::thread::{Threads, join};

/// What the second has in the end: the first takes the value, while the second finds it out, and brings it home one larger.
fn one_after_the_other(
    guarded: &Guarded<u32>,
    first: &mut GuardSeat<u32>,
    second: &mut GuardSeat<u32>,
) -> Option<u32>
    requires first { IsOf guarded.now first.old × HasNothing first.old }
    requires second { IsOf guarded.now second.old × HasNothing second.old }
{
    let value = guarded.try_lock(first)?;
    if guarded.try_lock(second).is_some() {
        return None;
    }
    guarded.unlock(first, value.wrapping_add(1));
    guarded.try_lock(second)
}

/// How often the value is asked for.
const TRIES: u32 = 20_000;

/// Takes the value where it is at home, and brings it back one larger. Answers how often it did.
fn count_up(guarded: &Guarded<u32>, seat: &mut GuardSeat<u32>) -> u32
    requires seat { IsOf guarded.now seat.old × HasNothing seat.old }
{
    let mut times = 0u32;
    for _ in 0..TRIES {
        if let Some(value) = guarded.try_lock(seat) {
            guarded.unlock(seat, value.wrapping_add(1));
            times = times.wrapping_add(1);
        }
    }
    times
}

/// How often two threads counted up from 7, and what the last of two other seats then has.
fn found<R: Threads + Wait + Sync>(rt: &R, alloc: Global) -> Result<(u32, Option<u32>), Memory> {
    let (guarded, mut first) = Guarded::new(alloc, 7u32)?;
    let mut one = guarded.split(&mut first);
    let mut two = guarded.split(&mut first);
    let mut second = guarded.split(&mut first);
    let (by_one, by_other) = join(
        rt,
        || count_up(&guarded, &mut one),
        || count_up(&guarded, &mut two),
    );
    let last = one_after_the_other(&guarded, &mut first, &mut second);
    Ok((by_one.wrapping_add(by_other), last))
}

#[test]
fn two_threads_lose_no_change_and_one_of_two_has_the_value(rt: HostRuntime) -> Result<(), Fail> {
    let (counted, last) = found(&rt, rt.alloc())?;
    compare(&rt, &last, &Some(counted.wrapping_add(8)));
    Ok(())
}
