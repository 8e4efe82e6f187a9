//! To release a permit.

ghost use Rattle.std.specs.Prelude.{◌≡◌, ◌+◌, ◌≤◌, ◌↔◌, Ok};
ghost use Rattle.permits.specs.declared.permits.Released.TheVariants as released;
ghost use Rattle.channel_calls.specs.Calls.{SameCaller, seen};
ghost use Rattle.permits.specs.Parts.{UsesPermits};
ghost use Rattle.permits.specs.Answers.{ReleasedAnswer, GivenOnce, given_by_release, given_once};

use crate::permits::{Permits, Released};
use crate::steps::{Given, give_once};
use channel_calls::Caller;
use channel_model::ChannelFloor;
use co_base::{Memory, Value, Wakes};
use note_book::NoteBook;

/// Gives back a permit that the caller holds: to whoever waits first, and to the free ones if nobody waits. The element that stands for it
/// is 0.
///
/// Example: `add_behind` in `docs/LIBRARY.md`.
pub fn release<F: ChannelFloor, B: NoteBook, W: Wakes>(
    x: &mut Caller<'_, '_, '_, F, B, W>,
    p: &Permits,
    held: &mut u32,
) -> Result<Released, Memory>
    requires uses { UsesPermits p.now.c p.now.n x.old.who held.old (F.view x.old.floor.now) }
    ensures same { SameCaller F.anchor x.old x.new }
    ensures uses { UsesPermits p.now.c p.now.n x.old.who held.new (F.view x.new.floor.now) }
    ensures none { (result ≡ Ok released.NotHeld) ↔ (held.old ≡ 0) }
    ensures number { held.old ≡ held.new + given_by_release result }
    ensures answer { ReleasedAnswer p.now.c (seen F.view B.items x.old) (seen F.view B.items x.new) result }
{
    if *held == 0 {
        return Ok(Released::NotHeld);
    }
    match give_back(x, p, held, 0) {
        Ok(Given::Done) => Ok(Released::Done),
        Ok(Given::Closed(v)) => Ok(Released::Closed(v)),
        Ok(Given::Spent) => Ok(Released::Spent),
        Err(memory) => Err(memory),
    }
}

/// Gives one of the permits that the caller holds, with this element.
pub(crate) fn give_back<F: ChannelFloor, B: NoteBook, W: Wakes>(
    x: &mut Caller<'_, '_, '_, F, B, W>,
    p: &Permits,
    held: &mut u32,
    value: Value,
) -> Result<Given, Memory>
    requires uses { UsesPermits p.now.c p.now.n x.old.who held.old (F.view x.old.floor.now) }
    requires some { 1 ≤ held.old }
    ensures same { SameCaller F.anchor x.old x.new }
    ensures uses { UsesPermits p.now.c p.now.n x.old.who held.new (F.view x.new.floor.now) }
    ensures number { held.old ≡ held.new + given_once result }
    ensures answer { GivenOnce p.now.c value (seen F.view B.items x.old) (seen F.view B.items x.new) result }
{
    match give_once(x, p.c, value) {
        Ok(Given::Done) => {
            *held -= 1;
            Ok(Given::Done)
        }
        Ok(Given::Closed(v)) => Ok(Given::Closed(v)),
        Ok(Given::Spent) => Ok(Given::Spent),
        Err(memory) => Err(memory),
    }
}
