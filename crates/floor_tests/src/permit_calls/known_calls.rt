//! Calls of a coroutine on the permits of a semaphore, if what they ask is known.

ghost use Rattle.std.specs.Prelude.{◌≡◌, OnOk};
ghost use Rattle.channel_calls.specs.Calls.{SameCaller};
ghost use Rattle.cell_words.specs.Hubs.{IsOf};
ghost use Rattle.cell_calls.specs.Desks.{desk_floor, desk_anchor};
ghost use Rattle.cell_calls.specs.HubFloors.{hub_floor};
ghost use Rattle.permits.specs.Parts.{UsesPermits, MayFill};
ghost use Rattle.floor_tests.specs.KnownPermits.{HoldsWait, Knows, WaitsStill, Adds, used, wait_of};

use crate::no_wakes::NoWakes;
use cell_calls::Desk;
use cell_words::{Hub, Pass};
use channel_calls::Caller;
use channel_model::{ChannelFloor, WaitState};
use co_base::{Memory, Tag, WaitId, Wakes};
use note_book::{NoteBook, Notes};
use permits::{
    Acquired, Filled, GivenBack, Permits, Released, TryAcquired, acquire, cancel_acquire, fill,
    release, take_up, try_acquire,
};
use std::alloc::Global;

/// What a coroutine knows of its use of the permits.
#[derive(Clone, Copy)]
pub(crate) struct Known {
    /// How many permits it holds.
    pub held: u32,
    /// Its wait, which did not end, if its last call began one.
    pub wait: Option<WaitId>,
}

/// A call, and what it answers. The end of a wait is that of the wait which the last call began.
#[derive(Clone, Copy)]
pub enum Call {
    Acquire(Acquired),
    TryAcquire(TryAcquired),
    TakeUp(Acquired),
    Release(Released),
    CancelAcquire(GivenBack),
}

/// So many permits are held, and no wait is known.
pub(crate) fn used(held: u32) -> Known
    ensures { result ≡ used held }
{
    Known { held, wait: None }
}

/// The wait that an acquire began, if it did.
fn wait_of(answer: Acquired) -> Option<WaitId>
    ensures { result ≡ wait_of answer }
{
    match answer {
        Acquired::Waits(w) => Some(w),
        Acquired::Held | Acquired::Cancelled | Acquired::Closed(_) | Acquired::Spent => None,
    }
}

/// Fills the semaphore.
fn fill_whole<F: ChannelFloor, B: NoteBook, W: Wakes>(
    x: &mut Caller<'_, '_, '_, F, B, W>,
    p: &Permits,
) -> Result<(), Memory>
    requires may { MayFill p.now.c p.now.n x.old.who (F.view x.old.floor.now) }
    ensures same { SameCaller F.anchor x.old x.new }
    ensures adds { Adds x.old.who (F.view x.old.floor.now) (F.view x.new.floor.now) }
    ensures uses { OnOk result (UsesPermits p.now.c p.now.n x.old.who 0 (F.view x.new.floor.now)) }
{
    match fill(x, p) {
        Ok(Filled::Done) => Ok(()),
        Ok(Filled::Closed(_)) | Ok(Filled::Spent) | Err(_) => Err(Memory),
    }
}

/// Whether the call answers so, and what is known then; so do the others. Where there is no memory, none does.
fn acquire_so<F: ChannelFloor, B: NoteBook, W: Wakes>(
    x: &mut Caller<'_, '_, '_, F, B, W>,
    p: &Permits,
    known: &mut Known,
    wanted: Acquired,
) -> bool
    requires knows { Knows p.now.c p.now.n x.old.who known.old (F.view x.old.floor.now) }
    ensures same { SameCaller F.anchor x.old x.new }
    ensures adds { Adds x.old.who (F.view x.old.floor.now) (F.view x.new.floor.now) }
    ensures knows { Knows p.now.c p.now.n x.old.who known.new (F.view x.new.floor.now) }
{
    known.wait = None;
    match acquire(x, p, &mut known.held) {
        Ok(answer) => {
            known.wait = wait_of(answer);
            answer == wanted
        }
        Err(_) => false,
    }
}

fn try_acquire_so<F: ChannelFloor, B: NoteBook, W: Wakes>(
    x: &mut Caller<'_, '_, '_, F, B, W>,
    p: &Permits,
    known: &mut Known,
    wanted: TryAcquired,
) -> bool
    requires knows { Knows p.now.c p.now.n x.old.who known.old (F.view x.old.floor.now) }
    ensures same { SameCaller F.anchor x.old x.new }
    ensures adds { Adds x.old.who (F.view x.old.floor.now) (F.view x.new.floor.now) }
    ensures knows { Knows p.now.c p.now.n x.old.who known.new (F.view x.new.floor.now) }
{
    known.wait = None;
    match try_acquire(x, p, &mut known.held) {
        Ok(answer) => answer == wanted,
        Err(_) => false,
    }
}

fn release_so<F: ChannelFloor, B: NoteBook, W: Wakes>(
    x: &mut Caller<'_, '_, '_, F, B, W>,
    p: &Permits,
    known: &mut Known,
    wanted: Released,
) -> bool
    requires knows { Knows p.now.c p.now.n x.old.who known.old (F.view x.old.floor.now) }
    ensures same { SameCaller F.anchor x.old x.new }
    ensures adds { Adds x.old.who (F.view x.old.floor.now) (F.view x.new.floor.now) }
    ensures knows { Knows p.now.c p.now.n x.old.who known.new (F.view x.new.floor.now) }
{
    known.wait = None;
    match release(x, p, &mut known.held) {
        Ok(answer) => answer == wanted,
        Err(_) => false,
    }
}

fn cancel_so<F: ChannelFloor, B: NoteBook, W: Wakes>(
    x: &mut Caller<'_, '_, '_, F, B, W>,
    p: &Permits,
    known: &mut Known,
    wanted: GivenBack,
) -> bool
    requires knows { Knows p.now.c p.now.n x.old.who known.old (F.view x.old.floor.now) }
    ensures same { SameCaller F.anchor x.old x.new }
    ensures adds { Adds x.old.who (F.view x.old.floor.now) (F.view x.new.floor.now) }
    ensures knows { Knows p.now.c p.now.n x.old.who known.new (F.view x.new.floor.now) }
{
    let Some(w) = known.wait else {
        return false;
    };
    known.wait = None;
    match cancel_acquire(x, p, &mut known.held, w) {
        Ok(answer) => answer == wanted,
        Err(_) => false,
    }
}

fn take_up_so<F: ChannelFloor, B: NoteBook, W: Wakes>(
    x: &mut Caller<'_, '_, '_, F, B, W>,
    p: &Permits,
    known: &mut Known,
    wanted: Acquired,
) -> bool
    requires knows { Knows p.now.c p.now.n x.old.who known.old (F.view x.old.floor.now) }
    ensures same { SameCaller F.anchor x.old x.new }
    ensures adds { Adds x.old.who (F.view x.old.floor.now) (F.view x.new.floor.now) }
    ensures knows { Knows p.now.c p.now.n x.old.who known.new (F.view x.new.floor.now) }
{
    let Some(w) = known.wait else {
        return false;
    };
    known.wait = None;
    match take_up_if_resolved(x, p, &mut known.held, w) {
        Ok(Some(answer)) => answer == wanted,
        Ok(None) | Err(_) => false,
    }
}

/// Ends the caller's wait, if it was resolved: what that came to.
pub(crate) fn take_up_if_resolved<F: ChannelFloor, B: NoteBook, W: Wakes>(
    x: &mut Caller<'_, '_, '_, F, B, W>,
    p: &Permits,
    held: &mut u32,
    w: WaitId,
) -> Result<Option<Acquired>, Memory>
    requires uses { UsesPermits p.now.c p.now.n x.old.who held.old (F.view x.old.floor.now) }
    requires here { w.channel ≡ p.now.c }
    requires holds { HoldsWait x.old.who w (F.view x.old.floor.now) }
    ensures same { SameCaller F.anchor x.old x.new }
    ensures adds { Adds x.old.who (F.view x.old.floor.now) (F.view x.new.floor.now) }
    ensures uses { UsesPermits p.now.c p.now.n x.old.who held.new (F.view x.new.floor.now) }
    ensures waits { WaitsStill x.old.who w result (F.view x.new.floor.now) }
{
    match x.floor.look(x.who, w) {
        WaitState::Resolved => match take_up(x, p, held, w) {
            Ok(answer) => Ok(Some(answer)),
            Err(memory) => Err(memory),
        },
        WaitState::Standing => Ok(None),
        WaitState::Settled => Ok(None),
    }
}

/// The same for every call.
fn call_so<F: ChannelFloor, B: NoteBook, W: Wakes>(
    x: &mut Caller<'_, '_, '_, F, B, W>,
    p: &Permits,
    known: &mut Known,
    call: Call,
) -> bool
    requires knows { Knows p.now.c p.now.n x.old.who known.old (F.view x.old.floor.now) }
    ensures same { SameCaller F.anchor x.old x.new }
    ensures adds { Adds x.old.who (F.view x.old.floor.now) (F.view x.new.floor.now) }
    ensures knows { Knows p.now.c p.now.n x.old.who known.new (F.view x.new.floor.now) }
{
    match call {
        Call::Acquire(wanted) => acquire_so(x, p, known, wanted),
        Call::TryAcquire(wanted) => try_acquire_so(x, p, known, wanted),
        Call::TakeUp(wanted) => take_up_so(x, p, known, wanted),
        Call::Release(wanted) => release_so(x, p, known, wanted),
        Call::CancelAcquire(wanted) => cancel_so(x, p, known, wanted),
    }
}

/// The same on a floor, with a book for this call alone.
pub(crate) fn call_on<F: ChannelFloor>(
    floor: &mut F,
    alloc: Global,
    p: &Permits,
    who: Tag,
    known: &mut Known,
    call: Call,
) -> bool
    requires knows { Knows p.now.c p.now.n who known.old (F.view floor.old) }
    ensures anchor { F.anchor floor.new ≡ F.anchor floor.old }
    ensures adds { Adds who (F.view floor.old) (F.view floor.new) }
    ensures knows { Knows p.now.c p.now.n who known.new (F.view floor.new) }
{
    let mut book = Notes::new(alloc);
    let mut wakes = NoWakes;
    let mut caller = Caller {
        floor: &mut *floor,
        book: &mut book,
        wakes: &mut wakes,
        who,
    };
    call_so(&mut caller, p, known, call)
}

/// Fills the semaphore on a floor.
pub(crate) fn fill_on<F: ChannelFloor>(
    floor: &mut F,
    alloc: Global,
    p: &Permits,
    who: Tag,
) -> Result<(), Memory>
    requires may { MayFill p.now.c p.now.n who (F.view floor.old) }
    ensures anchor { F.anchor floor.new ≡ F.anchor floor.old }
    ensures adds { Adds who (F.view floor.old) (F.view floor.new) }
    ensures uses { OnOk result (UsesPermits p.now.c p.now.n who 0 (F.view floor.new)) }
{
    let mut book = Notes::new(alloc);
    let mut wakes = NoWakes;
    let mut caller = Caller {
        floor: &mut *floor,
        book: &mut book,
        wakes: &mut wakes,
        who,
    };
    fill_whole(&mut caller, p)
}

// ---- over words

/// Whether the call answers so, and what is known then.
fn call_on_desk(
    desk: &mut Desk<'_>,
    alloc: Global,
    p: &Permits,
    who: Tag,
    known: &mut Known,
    call: Call,
) -> bool
    requires knows { Knows p.now.c p.now.n who known.old (desk_floor desk.old) }
    ensures anchor { desk_anchor desk.new ≡ desk_anchor desk.old }
    ensures of { IsOf desk.old.hub.now desk.new.pass.now }
    ensures knows { Knows p.now.c p.now.n who known.new (hub_floor desk.old.hub.now desk.new.pass.now) }
{
    call_on(desk, alloc, p, who, known, call)
}

/// The same by a pass.
pub(crate) fn call_on_pass(
    hub: &Hub,
    pass: &mut Pass,
    alloc: Global,
    p: &Permits,
    who: Tag,
    known: &mut Known,
    call: Call,
) -> bool
    requires of { IsOf hub.now pass.old }
    requires knows { Knows p.now.c p.now.n who known.old (hub_floor hub.now pass.old) }
    ensures of { IsOf hub.now pass.new }
    ensures knows { Knows p.now.c p.now.n who known.new (hub_floor hub.now pass.new) }
{
    let mut desk = Desk { hub, pass };
    call_on_desk(&mut desk, alloc, p, who, known, call)
}

fn fill_on_desk(desk: &mut Desk<'_>, alloc: Global, p: &Permits, who: Tag) -> Result<(), Memory>
    requires may { MayFill p.now.c p.now.n who (desk_floor desk.old) }
    ensures anchor { desk_anchor desk.new ≡ desk_anchor desk.old }
    ensures of { IsOf desk.old.hub.now desk.new.pass.now }
    ensures uses { OnOk result (UsesPermits p.now.c p.now.n who 0 (hub_floor desk.old.hub.now desk.new.pass.now)) }
{
    fill_on(desk, alloc, p, who)
}

/// Fills the semaphore by a pass.
pub(crate) fn fill_on_pass(
    hub: &Hub,
    pass: &mut Pass,
    alloc: Global,
    p: &Permits,
    who: Tag,
) -> Result<(), Memory>
    requires of { IsOf hub.now pass.old }
    requires may { MayFill p.now.c p.now.n who (hub_floor hub.now pass.old) }
    ensures of { IsOf hub.now pass.new }
    ensures uses { OnOk result (UsesPermits p.now.c p.now.n who 0 (hub_floor hub.now pass.new)) }
{
    let mut desk = Desk { hub, pass };
    fill_on_desk(&mut desk, alloc, p, who)
}
