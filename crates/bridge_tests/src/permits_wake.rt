//! A permit over words that is handed to one who waits for it wakes that one.
ghost use Rattle.std.specs.Prelude.{◌≡◌, IfOk};
ghost use Rattle.cell_words.specs.Hubs.{IsOf};
ghost use Rattle.cell_calls.specs.HubFloors.{hub_floor};
ghost use Rattle.permits.specs.Parts.{UsesPermits, MayFill};

use cell_calls::Desk;
use cell_words::{Hub, Pass};
use channel_calls::Caller;
use channel_model::{ChannelFloor, Kind};
use co_base::{Memory, Tag, Wakes};
use note_book::{NoteBook, Notes};
use permits::{Acquired, Permits, Released, acquire, fill, release};
use std::alloc::Global;

/// A mutex.
const MUTEX: Permits = Permits { c: 0, n: 1 };

/// Who was woken first, and whether another was.
#[derive(Drop)]
struct Woken {
    first: Option<Tag>,
    more: bool,
}

const NOBODY: Woken = Woken {
    first: None,
    more: false,
};

impl Wakes for Woken {
    fn wake(&mut self, tag: Tag) {
        match self.first {
            None => self.first = Some(tag),
            Some(_) => self.more = true,
        }
    }
}

/// A channel over words, the pass of tag 0, and those of the tags 1 and 2, which have not called yet.
fn new_mutex(alloc: Global) -> Result<(Hub, Pass, Pass, Pass), Memory>
    ensures main { IfOk result (λ r. IsOf r.0 r.1) }
    ensures fill { IfOk result (λ r. MayFill 0 1 0 (hub_floor r.0 r.1)) }
    ensures one { IfOk result (λ r. IsOf r.0 r.2 × UsesPermits 0 1 1 0 (hub_floor r.0 r.2)) }
    ensures two { IfOk result (λ r. IsOf r.0 r.3 × UsesPermits 0 1 2 0 (hub_floor r.0 r.3)) }
{
    let (hub, mut main) = Hub::new(alloc, &[(Kind::Unlimited, 16)])?;
    let one = hub.split(&mut main, 1);
    let two = hub.split(&mut main, 2);
    Ok((hub, main, one, two))
}

/// The mutex is filled, one holds it and another waits for it, and then the first releases it. Answers whether it went so.
fn hold_and_release<F: ChannelFloor, B: NoteBook, W: Wakes>(
    main: &mut Caller<'_, '_, '_, F, B, W>,
    holder: &mut Caller<'_, '_, '_, F, B, W>,
    waiter: &mut Caller<'_, '_, '_, F, B, W>,
) -> Result<bool, Memory>
    requires main { MayFill 0 1 main.old.who (F.view main.old.floor.now) }
    requires holder { UsesPermits 0 1 holder.old.who 0 (F.view holder.old.floor.now) }
    requires waiter { UsesPermits 0 1 waiter.old.who 0 (F.view waiter.old.floor.now) }
{
    let mut of_holder = 0u32;
    let mut of_waiter = 0u32;
    let _filled = fill(main, &MUTEX)?;
    let Acquired::Held = acquire(holder, &MUTEX, &mut of_holder)? else {
        return Ok(false);
    };
    let Acquired::Waits(_wait) = acquire(waiter, &MUTEX, &mut of_waiter)? else {
        return Ok(false);
    };
    let released = release(holder, &MUTEX, &mut of_holder)?;
    Ok(released == Released::Done)
}

/// Whether it went so on this mutex, and the one who waits was woken, and nobody else.
fn is_woken(hub: Hub, mut main: Pass, mut one: Pass, mut two: Pass, alloc: Global) -> bool
    requires main { IsOf hub main × MayFill 0 1 0 (hub_floor hub main) }
    requires one { IsOf hub one × UsesPermits 0 1 1 0 (hub_floor hub one) }
    requires two { IsOf hub two × UsesPermits 0 1 2 0 (hub_floor hub two) }
{
    let mut books = (Notes::new(alloc), Notes::new(alloc), Notes::new(alloc));
    let mut woken = (NOBODY, NOBODY, NOBODY);
    let went = hold_and_release(
        &mut Caller {
            floor: &mut Desk {
                hub: &hub,
                pass: &mut main,
            },
            book: &mut books.0,
            wakes: &mut woken.0,
            who: 0,
        },
        &mut Caller {
            floor: &mut Desk {
                hub: &hub,
                pass: &mut one,
            },
            book: &mut books.1,
            wakes: &mut woken.1,
            who: 1,
        },
        &mut Caller {
            floor: &mut Desk {
                hub: &hub,
                pass: &mut two,
            },
            book: &mut books.2,
            wakes: &mut woken.2,
            who: 2,
        },
    );
    matches!(went, Ok(true)) & (woken.1.first == Some(2)) & !woken.1.more
}

/// The same of a mutex of its own.
pub(crate) fn a_permit_that_is_handed_over_wakes_who_waits_for_it(alloc: Global) -> bool {
    match new_mutex(alloc) {
        Ok((hub, main, one, two)) => is_woken(hub, main, one, two, alloc),
        Err(_) => false,
    }
}
