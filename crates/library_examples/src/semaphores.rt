//! Permits: a number behind a mutex, a semaphore of two, and a wait for a permit that is given up.

ghost use Rattle.std.specs.Prelude.{◌≡◌, ◌+◌, ◌≤◌, false, IfOk};
ghost use Rattle.channel_calls.specs.Calls.{SameCaller};
ghost use Rattle.permits.specs.Parts.{UsesPermits};
ghost use Rattle.library_examples.specs.Examples.{HoldsAfterGivingUp};

use channel_calls::Caller;
use channel_model::ChannelFloor;
use co_base::{Memory, Wakes};
use note_book::NoteBook;
use permits::{
    Acquired, GivenBack, Permits, Released, TryAcquired, acquire, cancel_acquire, release,
    try_acquire,
};

/// Adds to the number behind a mutex, if the mutex is free, and frees it again. Answers whether it did; if not, the number is as before.
pub(crate) fn add_behind<F: ChannelFloor, B: NoteBook, W: Wakes>(
    caller: &mut Caller<'_, '_, '_, F, B, W>,
    mutex: &Permits,
    held: &mut u32,
    number: &mut u32,
    more: u32,
) -> Result<bool, Memory>
    requires uses { UsesPermits mutex.now.c mutex.now.n caller.old.who held.old (F.view caller.old.floor.now) }
    ensures same { SameCaller F.anchor caller.old caller.new }
    ensures uses { UsesPermits mutex.now.c mutex.now.n caller.new.who held.new (F.view caller.new.floor.now) }
    ensures kept { IfOk result (λ added. added ≡ false → number.new ≡ number.old) }
{
    match try_acquire(caller, mutex, held) {
        Ok(TryAcquired::Held) => {
            *number = number.wrapping_add(more);
            match release(caller, mutex, held) {
                Ok(_released) => Ok(true),
                Err(memory) => Err(memory),
            }
        }
        Ok(TryAcquired::Empty) => Ok(false),
        Ok(TryAcquired::Closed(_value)) => Ok(false),
        Err(memory) => Err(memory),
    }
}

/// Acquires permits of a semaphore as long as one is free, and `most` at most. Answers how many; it then holds that many more.
pub(crate) fn acquire_free<F: ChannelFloor, B: NoteBook, W: Wakes>(
    caller: &mut Caller<'_, '_, '_, F, B, W>,
    semaphore: &Permits,
    held: &mut u32,
    most: u32,
) -> Result<u32, Memory>
    requires uses { UsesPermits semaphore.now.c semaphore.now.n caller.old.who held.old (F.view caller.old.floor.now) }
    ensures same { SameCaller F.anchor caller.old caller.new }
    ensures uses { UsesPermits semaphore.now.c semaphore.now.n caller.new.who held.new (F.view caller.new.floor.now) }
    ensures more { IfOk result (λ count. held.new ≡ held.old + count) }
    ensures few { IfOk result (λ count. count ≤ most) }
{
    for count in 0..most {
        match try_acquire(caller, semaphore, held) {
            Ok(TryAcquired::Held) => {}
            Ok(TryAcquired::Empty) => return Ok(count),
            Ok(TryAcquired::Closed(_value)) => return Ok(count),
            Err(memory) => return Err(memory),
        }
    }
    Ok(most)
}

/// One coroutine waits for the permit that another holds and releases, and then gives its wait up. Whatever came meanwhile, it holds as
/// many permits as before, unless one came and the channel takes none back. None: it did not wait, or none was released.
pub(crate) fn cancelled_acquire<F: ChannelFloor, G: ChannelFloor, B: NoteBook, W: Wakes>(
    holder: &mut Caller<'_, '_, '_, F, B, W>,
    waiter: &mut Caller<'_, '_, '_, G, B, W>,
    mutex: &Permits,
    of_holder: &mut u32,
    of_waiter: &mut u32,
) -> Result<Option<GivenBack>, Memory>
    requires holder { UsesPermits mutex.now.c mutex.now.n holder.old.who of_holder.old (F.view holder.old.floor.now) }
    requires waiter { UsesPermits mutex.now.c mutex.now.n waiter.old.who of_waiter.old (G.view waiter.old.floor.now) }
    ensures holder { UsesPermits mutex.now.c mutex.now.n holder.new.who of_holder.new (F.view holder.new.floor.now) }
    ensures waiter { UsesPermits mutex.now.c mutex.now.n waiter.new.who of_waiter.new (G.view waiter.new.floor.now) }
    ensures held { HoldsAfterGivingUp result of_waiter.old of_waiter.new }
{
    match acquire(waiter, mutex, of_waiter) {
        Ok(Acquired::Waits(w)) => match release(holder, mutex, of_holder) {
            Ok(Released::Done) => match cancel_acquire(waiter, mutex, of_waiter, w) {
                Ok(outcome) => Ok(Some(outcome)),
                Err(memory) => Err(memory),
            },
            Ok(_answer) => Ok(None),
            Err(memory) => Err(memory),
        },
        Ok(_answer) => Ok(None),
        Err(memory) => Err(memory),
    }
}
