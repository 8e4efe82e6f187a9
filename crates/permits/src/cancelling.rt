//! To give up waiting for a permit.

ghost use Rattle.std.specs.Prelude.{◌≡◌};
ghost use Rattle.channel_calls.specs.Calls.{SameCaller, seen, HoldsWait};
ghost use Rattle.permits.specs.Parts.{UsesPermits};
ghost use Rattle.permits.specs.Answers.{GivenBackAnswer, NumberAfterCancel};

use crate::permits::{GivenBack, Permits};
use crate::releasing::give_back;
use crate::steps::{Given, end_once};
use channel_calls::Caller;
use channel_model::{ChannelFloor, Settled};
use co_base::{Memory, WaitId, Wakes};
use note_book::NoteBook;

/// Ends the caller's wait for a permit, whether it was resolved or not. A permit that came meanwhile is given back at once.
/// Memory: nothing was done, or the wait ended and the caller holds the permit that came.
///
/// Example: `cancelled_acquire` in `docs/LIBRARY.md`.
pub fn cancel_acquire<F: ChannelFloor, B: NoteBook, W: Wakes>(
    x: &mut Caller<'_, '_, '_, F, B, W>,
    p: &Permits,
    held: &mut u32,
    w: WaitId,
) -> Result<GivenBack, Memory>
    requires uses { UsesPermits p.now.c p.now.n x.old.who held.old (F.view x.old.floor.now) }
    requires here { w.channel ≡ p.now.c }
    requires holds { HoldsWait w (seen F.view B.items x.old) }
    ensures same { SameCaller F.anchor x.old x.new }
    ensures uses { UsesPermits p.now.c p.now.n x.old.who held.new (F.view x.new.floor.now) }
    ensures number { NumberAfterCancel result held.old held.new }
    ensures answer { GivenBackAnswer p.now.c w (seen F.view B.items x.old) (seen F.view B.items x.new) result }
{
    match end_once(x, w) {
        Ok(Settled::Undelivered(value)) => {
            *held += 1;
            match give_back(x, p, held, value) {
                Ok(Given::Done) => Ok(GivenBack::Back),
                Ok(Given::Closed(v)) => Ok(GivenBack::Closed(v)),
                Ok(Given::Spent) => Ok(GivenBack::Spent),
                Err(memory) => Err(memory),
            }
        }
        Ok(Settled::Cancelled) => Ok(GivenBack::Cancelled),
        Ok(Settled::Value(_clause, _value)) => unreachable!(),
        Ok(Settled::Sent(_clause)) => unreachable!(),
        Ok(Settled::Closed(_clause, _value)) => unreachable!(),
        Err(memory) => Err(memory),
    }
}
