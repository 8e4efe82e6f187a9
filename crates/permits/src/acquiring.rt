//! To acquire a permit.

ghost use Rattle.std.specs.Prelude.{◌≡◌, ◌+◌};
ghost use Rattle.channel_model.specs.Answers.{IsReady};
ghost use Rattle.channel_calls.specs.Calls.{SameCaller, seen};
ghost use Rattle.permits.specs.Parts.{UsesPermits};
ghost use Rattle.permits.specs.Answers.{AcquiredAnswer, TryAcquiredAnswer, TakenUpAnswer, got_by_acquire, got_by_try};

use crate::permits::{Acquired, Permits, TryAcquired};
use crate::steps::{receive_once, try_receive_once};
use channel_calls::{Caller, ReceiveAnswer, TryReceiveAnswer};
use channel_model::{ChannelFloor, Settled};
use co_base::{Memory, WaitId, Wakes};
use note_book::NoteBook;

/// Acquires a permit, or waits for one after those who wait already. The wait is to be taken up once it is resolved, or to be given up
/// by `cancel_acquire`.
///
/// Example: `three_add` in `docs/LIBRARY.md`.
pub fn acquire<F: ChannelFloor, B: NoteBook, W: Wakes>(
    x: &mut Caller<'_, '_, '_, F, B, W>,
    p: &Permits,
    held: &mut u32,
) -> Result<Acquired, Memory>
    requires uses { UsesPermits p.now.c p.now.n x.old.who held.old (F.view x.old.floor.now) }
    ensures same { SameCaller F.anchor x.old x.new }
    ensures uses { UsesPermits p.now.c p.now.n x.old.who held.new (F.view x.new.floor.now) }
    ensures number { held.new ≡ held.old + got_by_acquire result }
    ensures answer { AcquiredAnswer p.now.c (seen F.view B.items x.old) (seen F.view B.items x.new) result }
{
    match receive_once(x, p.c) {
        Ok(ReceiveAnswer::Value(_value)) => {
            *held += 1;
            Ok(Acquired::Held)
        }
        Ok(ReceiveAnswer::Waits(w)) => Ok(Acquired::Waits(w)),
        Ok(ReceiveAnswer::Closed(v)) => Ok(Acquired::Closed(v)),
        Ok(ReceiveAnswer::Spent) => Ok(Acquired::Spent),
        Err(memory) => Err(memory),
    }
}

/// Acquires a permit, if one is free.
///
/// Example: `acquire_free` in `docs/LIBRARY.md`.
pub fn try_acquire<F: ChannelFloor, B: NoteBook, W: Wakes>(
    x: &mut Caller<'_, '_, '_, F, B, W>,
    p: &Permits,
    held: &mut u32,
) -> Result<TryAcquired, Memory>
    requires uses { UsesPermits p.now.c p.now.n x.old.who held.old (F.view x.old.floor.now) }
    ensures same { SameCaller F.anchor x.old x.new }
    ensures uses { UsesPermits p.now.c p.now.n x.old.who held.new (F.view x.new.floor.now) }
    ensures number { held.new ≡ held.old + got_by_try result }
    ensures answer { TryAcquiredAnswer p.now.c (seen F.view B.items x.old) (seen F.view B.items x.new) result }
{
    match try_receive_once(x, p.c) {
        Ok(TryReceiveAnswer::Value(_value)) => {
            *held += 1;
            Ok(TryAcquired::Held)
        }
        Ok(TryReceiveAnswer::Empty) => Ok(TryAcquired::Empty),
        Ok(TryReceiveAnswer::Closed(v)) => Ok(TryAcquired::Closed(v)),
        Err(memory) => Err(memory),
    }
}

/// Ends the caller's wait for a permit, which was seen resolved: with the permit that was handed to it, or as closed or cancelled. It is
/// not asked whether the caller's Job was cancelled meanwhile: then `cancel_acquire` ends the wait.
pub fn take_up<F: ChannelFloor, B: NoteBook, W: Wakes>(
    x: &mut Caller<'_, '_, '_, F, B, W>,
    p: &Permits,
    held: &mut u32,
    w: WaitId,
) -> Result<Acquired, Memory>
    requires uses { UsesPermits p.now.c p.now.n x.old.who held.old (F.view x.old.floor.now) }
    requires here { w.channel ≡ p.now.c }
    requires ready { IsReady x.old.who w (F.view x.old.floor.now) }
    ensures same { SameCaller F.anchor x.old x.new }
    ensures uses { UsesPermits p.now.c p.now.n x.old.who held.new (F.view x.new.floor.now) }
    ensures number { held.new ≡ held.old + got_by_acquire result }
    ensures answer { TakenUpAnswer w (seen F.view B.items x.old) (seen F.view B.items x.new) result }
{
    match x.dispatch(w, false) {
        Ok(Settled::Value(_clause, _value)) => {
            *held += 1;
            Ok(Acquired::Held)
        }
        Ok(Settled::Closed(_clause, v)) => Ok(Acquired::Closed(v)),
        Ok(Settled::Cancelled) => Ok(Acquired::Cancelled),
        Ok(Settled::Sent(_clause)) => unreachable!(),
        Ok(Settled::Undelivered(_value)) => unreachable!(),
        Err(memory) => Err(memory),
    }
}
