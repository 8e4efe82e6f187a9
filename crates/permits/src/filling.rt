//! To fill a semaphore with its permits.

ghost use Rattle.std.specs.Prelude.{◌≡◌, Ok};
ghost use Rattle.permits.specs.declared.permits.Filled.TheVariants as filled;
ghost use Rattle.channel_calls.specs.Calls.{SameCaller, seen};
ghost use Rattle.permits.specs.Parts.{HoldsPermits, UsesPermits, MayFill};
ghost use Rattle.permits.specs.Answers.{FilledAnswer};

use crate::permits::{Filled, Permits};
use crate::steps::{Given, give_once};
use channel_calls::Caller;
use channel_model::ChannelFloor;
use co_base::{Memory, Wakes};
use note_book::NoteBook;

/// Gives all permits, the elements 0 to n - 1, for a caller that has not called on the channel yet. Whoever waits already is handed one.
/// Memory: the first of them were given, and the caller is not to fill again.
///
/// Example: `fill_by` in `docs/LIBRARY.md`.
pub fn fill<F: ChannelFloor, B: NoteBook, W: Wakes>(
    x: &mut Caller<'_, '_, '_, F, B, W>,
    p: &Permits,
) -> Result<Filled, Memory>
    requires may { MayFill p.now.c p.now.n x.old.who (F.view x.old.floor.now) }
    ensures same { SameCaller F.anchor x.old x.new }
    ensures holds { HoldsPermits p.now.c p.now.n x.old.who 0 (F.view x.new.floor.now) }
    ensures done { result ≡ Ok filled.Done → UsesPermits p.now.c p.now.n x.old.who 0 (F.view x.new.floor.now) }
    ensures answer { FilledAnswer p.now.c p.now.n (seen F.view B.items x.old) (seen F.view B.items x.new) result }
{
    for value in 0..p.n {
        match give_once(x, p.c, value) {
            Ok(Given::Done) => {}
            Ok(Given::Closed(v)) => return Ok(Filled::Closed(v)),
            Ok(Given::Spent) => return Ok(Filled::Spent),
            Err(memory) => return Err(memory),
        }
    }
    Ok(Filled::Done)
}
