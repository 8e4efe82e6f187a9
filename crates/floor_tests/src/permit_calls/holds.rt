//! To acquire and to release a permit, while a shared number counts who holds one.

ghost use Rattle.std.specs.Prelude.{◌≡◌};
ghost use Rattle.channel_calls.specs.Calls.{SameCaller};
ghost use Rattle.permits.specs.Parts.{UsesPermits};
ghost use Rattle.floor_tests.specs.KnownPermits.{HoldsWait};

use crate::no_wakes::NoWakes;
use crate::permit_calls::known_calls::take_up_if_resolved;
use channel_calls::Caller;
use channel_model::ChannelFloor;
use co_base::{Memory, Tag, WaitId, Wakes};
use note_book::{NoteBook, Notes};
use permits::{Acquired, GivenBack, Permits, Released, acquire, cancel_acquire, release};
use std::alloc::Global;
use std::sync::atomic::{AtomicU64, Ordering};

/// What the acquires of one coroutine came to.
#[derive(Clone, Copy)]
pub struct Tally {
    /// A permit was held, and given back.
    pub held: u32,
    /// The wait for one was given up.
    pub given_up: u32,
    /// A permit was held while more were than there are, or a call answered what it never answers on an open channel.
    pub wrong: u32,
}

/// What one acquire came to.
#[derive(Clone, Copy)]
enum Once {
    Held,
    GivenUp,
    Wrong,
}

pub(crate) const NONE: Tally = Tally {
    held: 0,
    given_up: 0,
    wrong: 0,
};

impl Tally {
    /// One acquire more.
    fn with(self, once: Once) -> Tally {
        let mut tally = self;
        match once {
            Once::Held => tally.held = tally.held.saturating_add(1),
            Once::GivenUp => tally.given_up = tally.given_up.saturating_add(1),
            Once::Wrong => tally.wrong = tally.wrong.saturating_add(1),
        }
        tally
    }

    /// Those of both.
    pub(crate) fn and(self, other: Tally) -> Tally {
        Tally {
            held: self.held.saturating_add(other.held),
            given_up: self.given_up.saturating_add(other.given_up),
            wrong: self.wrong.saturating_add(other.wrong),
        }
    }
}

/// How often a wait is looked at before it is given up.
const LOOKS: u32 = 200;

/// How often the number is looked at while a permit is held.
const CHECKS: u32 = 4;

/// Whether at most so many hold a permit while the caller holds one, if that is counted.
fn at_most(n: u32, holding: Option<&AtomicU64>) -> bool {
    let Some(holding) = holding else {
        return true;
    };
    let most = u64::from(n);
    let before = holding.fetch_add(1, Ordering::SeqCst);
    let mut right = before < most;
    for _ in 0..CHECKS {
        right = right && holding.load(Ordering::SeqCst) <= most;
    }
    holding.fetch_sub(1, Ordering::SeqCst);
    right
}

/// Gives back the permit that the caller holds, after it was counted.
fn count_and_release<F: ChannelFloor, B: NoteBook, W: Wakes>(
    x: &mut Caller<'_, '_, '_, F, B, W>,
    p: &Permits,
    held: &mut u32,
    holding: Option<&AtomicU64>,
) -> Result<Once, Memory>
    requires uses { UsesPermits p.now.c p.now.n x.old.who held.old (F.view x.old.floor.now) }
    ensures same { SameCaller F.anchor x.old x.new }
    ensures uses { UsesPermits p.now.c p.now.n x.old.who held.new (F.view x.new.floor.now) }
{
    let right = at_most(p.n, holding);
    match release(x, p, held) {
        Ok(Released::Done) => Ok(if right { Once::Held } else { Once::Wrong }),
        Ok(_) => Ok(Once::Wrong),
        Err(memory) => Err(memory),
    }
}

/// Gives up the wait.
fn give_up<F: ChannelFloor, B: NoteBook, W: Wakes>(
    x: &mut Caller<'_, '_, '_, F, B, W>,
    p: &Permits,
    held: &mut u32,
    w: WaitId,
) -> Result<Once, Memory>
    requires uses { UsesPermits p.now.c p.now.n x.old.who held.old (F.view x.old.floor.now) }
    requires here { w.channel ≡ p.now.c }
    requires holds { HoldsWait x.old.who w (F.view x.old.floor.now) }
    ensures same { SameCaller F.anchor x.old x.new }
    ensures uses { UsesPermits p.now.c p.now.n x.old.who held.new (F.view x.new.floor.now) }
{
    match cancel_acquire(x, p, held, w) {
        Ok(GivenBack::Cancelled) | Ok(GivenBack::Back) => Ok(Once::GivenUp),
        Ok(_) => Ok(Once::Wrong),
        Err(memory) => Err(memory),
    }
}

/// Looks at the wait some times, and takes the permit up that came; or gives the wait up.
fn wait_a_while<F: ChannelFloor, B: NoteBook, W: Wakes>(
    x: &mut Caller<'_, '_, '_, F, B, W>,
    p: &Permits,
    held: &mut u32,
    w: WaitId,
    holding: Option<&AtomicU64>,
) -> Result<Once, Memory>
    requires uses { UsesPermits p.now.c p.now.n x.old.who held.old (F.view x.old.floor.now) }
    requires here { w.channel ≡ p.now.c }
    requires holds { HoldsWait x.old.who w (F.view x.old.floor.now) }
    ensures same { SameCaller F.anchor x.old x.new }
    ensures uses { UsesPermits p.now.c p.now.n x.old.who held.new (F.view x.new.floor.now) }
{
    for _ in 0..LOOKS {
        match take_up_if_resolved(x, p, held, w) {
            Ok(Some(Acquired::Held)) => return count_and_release(x, p, held, holding),
            Ok(Some(_)) => return Ok(Once::Wrong),
            Ok(None) => {}
            Err(memory) => return Err(memory),
        }
    }
    give_up(x, p, held, w)
}

/// Acquires a permit, waits for it a while if need be, and gives it back.
fn hold_once<F: ChannelFloor, B: NoteBook, W: Wakes>(
    x: &mut Caller<'_, '_, '_, F, B, W>,
    p: &Permits,
    held: &mut u32,
    holding: Option<&AtomicU64>,
) -> Result<Once, Memory>
    requires uses { UsesPermits p.now.c p.now.n x.old.who held.old (F.view x.old.floor.now) }
    ensures same { SameCaller F.anchor x.old x.new }
    ensures uses { UsesPermits p.now.c p.now.n x.old.who held.new (F.view x.new.floor.now) }
{
    match acquire(x, p, held) {
        Ok(Acquired::Held) => count_and_release(x, p, held, holding),
        Ok(Acquired::Waits(w)) => wait_a_while(x, p, held, w, holding),
        Ok(_) => Ok(Once::Wrong),
        Err(memory) => Err(memory),
    }
}

/// So many acquires.
fn hold_often<F: ChannelFloor, B: NoteBook, W: Wakes>(
    x: &mut Caller<'_, '_, '_, F, B, W>,
    p: &Permits,
    times: u32,
    holding: Option<&AtomicU64>,
) -> Result<Tally, Memory>
    requires uses { UsesPermits p.now.c p.now.n x.old.who 0 (F.view x.old.floor.now) }
    ensures same { SameCaller F.anchor x.old x.new }
{
    let mut held = 0u32;
    let mut tally = NONE;
    for _ in 0..times {
        match hold_once(x, p, &mut held, holding) {
            Ok(once) => tally = tally.with(once),
            Err(memory) => return Err(memory),
        }
    }
    Ok(tally)
}

/// So many acquires on a floor, with a book of its own.
pub(crate) fn hold_on<F: ChannelFloor>(
    floor: &mut F,
    alloc: Global,
    p: &Permits,
    who: Tag,
    times: u32,
    holding: Option<&AtomicU64>,
) -> Result<Tally, Memory>
    requires uses { UsesPermits p.now.c p.now.n who 0 (F.view floor.old) }
{
    let mut book = Notes::new(alloc);
    let mut wakes = NoWakes;
    let mut caller = Caller {
        floor: &mut *floor,
        book: &mut book,
        wakes: &mut wakes,
        who,
    };
    hold_often(&mut caller, p, times, holding)
}
