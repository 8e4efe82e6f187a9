//! Three coroutines with a pass each, on a semaphore over words.

ghost use Rattle.std.specs.Prelude.{◌≡◌, ◌≤◌, IfOk};
ghost use Rattle.cell_words.specs.Hubs.{IsOf};
ghost use Rattle.cell_calls.specs.HubFloors.{hub_floor};
ghost use Rattle.permits.specs.Parts.{UsesPermits, MayFill};
ghost use Rattle.library_examples.specs.Passes.{MayUse};

use crate::NOBODY;
use crate::semaphores::{acquire_free, add_behind, cancelled_acquire};
use cell_calls::Desk;
use cell_words::{Hub, Pass};
use channel_calls::Caller;
use channel_model::{ChannelFloor, Kind};
use co_base::{Memory, Wakes};
use note_book::{NoteBook, Notes};
use permits::{Acquired, GivenBack, Permits, acquire, fill, release};
use std::alloc::Global;

/// A mutex, and a semaphore of two permits.
const MUTEX: Permits = Permits { c: 0, n: 1 };

const TWO: Permits = Permits { c: 0, n: 2 };

/// The passes of three coroutines, with the tags 1 to 3.
#[derive(Drop)]
struct Three {
    a: Pass,
    b: Pass,
    c: Pass,
}

/// Their books.
#[derive(Drop)]
pub(crate) struct Books {
    pub(crate) a: Notes,
    pub(crate) b: Notes,
    pub(crate) c: Notes,
}

/// Fills the semaphore, by the pass of tag 0.
fn fill_by(hub: &Hub, mut pass: Pass, book: &mut Notes, permits: &Permits) -> Result<(), Memory>
    requires of { IsOf hub.now pass }
    requires may { MayFill permits.now.c permits.now.n 0 (hub_floor hub.now pass) }
{
    let mut wakes = NOBODY;
    let mut caller = Caller {
        floor: &mut Desk {
            hub,
            pass: &mut pass,
        },
        book: &mut *book,
        wakes: &mut wakes,
        who: 0,
    };
    match fill(&mut caller, permits) {
        Ok(_filled) => Ok(()),
        Err(memory) => Err(memory),
    }
}

/// An unlimited channel over words with all permits in it, and the passes of three coroutines. None has called there yet.
fn new_passes(alloc: Global, book: &mut Notes, permits: &Permits) -> Result<(Hub, Three), Memory>
    requires first { permits.now.c ≡ 0 }
    requires some { 1 ≤ permits.now.n }
    requires few { permits.now.n ≤ 65535 }
    ensures uses { IfOk result (λ r. MayUse permits.now.n r.0 r.1) }
{
    let (hub, mut main) = Hub::new(alloc, &[(Kind::Unlimited, 16)])?;
    let a = hub.split(&mut main, 1);
    let b = hub.split(&mut main, 2);
    let c = hub.split(&mut main, 3);
    fill_by(&hub, main, book, permits)?;
    Ok((hub, Three { a, b, c }))
}

/// The first of three callers holds the mutex while the second finds it taken; then the three add to the number behind it.
/// What the second found, and the number.
fn three_add<F: ChannelFloor, B: NoteBook, W: Wakes>(
    first: &mut Caller<'_, '_, '_, F, B, W>,
    second: &mut Caller<'_, '_, '_, F, B, W>,
    third: &mut Caller<'_, '_, '_, F, B, W>,
) -> Result<(bool, u32), Memory>
    requires first { UsesPermits 0 1 first.old.who 0 (F.view first.old.floor.now) }
    requires second { UsesPermits 0 1 second.old.who 0 (F.view second.old.floor.now) }
    requires third { UsesPermits 0 1 third.old.who 0 (F.view third.old.floor.now) }
{
    let mut of_first = 0u32;
    let mut of_second = 0u32;
    let mut of_third = 0u32;
    let mut number = 0u32;
    match acquire(first, &MUTEX, &mut of_first) {
        Ok(Acquired::Held) => {}
        Ok(_answer) => return Ok((false, number)),
        Err(memory) => return Err(memory),
    }
    let free = match add_behind(second, &MUTEX, &mut of_second, &mut number, 10) {
        Ok(free) => free,
        Err(memory) => return Err(memory),
    };
    number = number.wrapping_add(1);
    if let Err(memory) = release(first, &MUTEX, &mut of_first) {
        return Err(memory);
    }
    if let Err(memory) = add_behind(second, &MUTEX, &mut of_second, &mut number, 10) {
        return Err(memory);
    }
    if let Err(memory) = add_behind(third, &MUTEX, &mut of_third, &mut number, 100) {
        return Err(memory);
    }
    Ok((free, number))
}

/// Three coroutines add to a number behind a mutex.
pub(crate) fn number_behind_a_mutex(
    alloc: Global,
    books: &mut Books,
) -> Result<(bool, u32), Memory> {
    let mut wakes = (NOBODY, NOBODY, NOBODY);
    let (hub, three) = new_passes(alloc, &mut books.a, &MUTEX)?;
    let (mut a, mut b, mut c) = (three.a, three.b, three.c);
    three_add(
        &mut Caller {
            floor: &mut Desk {
                hub: &hub,
                pass: &mut a,
            },
            book: &mut books.a,
            wakes: &mut wakes.0,
            who: 1,
        },
        &mut Caller {
            floor: &mut Desk {
                hub: &hub,
                pass: &mut b,
            },
            book: &mut books.b,
            wakes: &mut wakes.1,
            who: 2,
        },
        &mut Caller {
            floor: &mut Desk {
                hub: &hub,
                pass: &mut c,
            },
            book: &mut books.c,
            wakes: &mut wakes.2,
            who: 3,
        },
    )
}

/// A coroutine acquires what a semaphore of two has.
pub(crate) fn free_permits(alloc: Global, books: &mut Books) -> Result<u32, Memory> {
    let mut wakes = NOBODY;
    let mut held = 0u32;
    let (hub, three) = new_passes(alloc, &mut books.a, &TWO)?;
    let mut a = three.a;
    acquire_free(
        &mut Caller {
            floor: &mut Desk {
                hub: &hub,
                pass: &mut a,
            },
            book: &mut books.a,
            wakes: &mut wakes,
            who: 1,
        },
        &TWO,
        &mut held,
        5,
    )
}

/// The first of two callers holds the mutex, and the second gives up waiting for it.
fn hold_and_give_up<F: ChannelFloor, B: NoteBook, W: Wakes>(
    holder: &mut Caller<'_, '_, '_, F, B, W>,
    waiter: &mut Caller<'_, '_, '_, F, B, W>,
) -> Result<Option<GivenBack>, Memory>
    requires holder { UsesPermits 0 1 holder.old.who 0 (F.view holder.old.floor.now) }
    requires waiter { UsesPermits 0 1 waiter.old.who 0 (F.view waiter.old.floor.now) }
{
    let mut of_holder = 0u32;
    let mut of_waiter = 0u32;
    match acquire(holder, &MUTEX, &mut of_holder) {
        Ok(_answer) => cancelled_acquire(holder, waiter, &MUTEX, &mut of_holder, &mut of_waiter),
        Err(memory) => Err(memory),
    }
}

/// A coroutine gives up waiting for a permit that came meanwhile.
pub(crate) fn given_up(alloc: Global, books: &mut Books) -> Result<Option<GivenBack>, Memory> {
    let mut wakes = (NOBODY, NOBODY);
    let (hub, three) = new_passes(alloc, &mut books.a, &MUTEX)?;
    let (mut a, mut b) = (three.a, three.b);
    hold_and_give_up(
        &mut Caller {
            floor: &mut Desk {
                hub: &hub,
                pass: &mut a,
            },
            book: &mut books.a,
            wakes: &mut wakes.0,
            who: 1,
        },
        &mut Caller {
            floor: &mut Desk {
                hub: &hub,
                pass: &mut b,
            },
            book: &mut books.b,
            wakes: &mut wakes.1,
            who: 2,
        },
    )
}
