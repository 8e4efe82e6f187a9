//! To send in counted cells, waiting for nobody.
ghost use Rattle.counted_cells.specs.Passes.{seen_by, IsOf, SamePass};
ghost use Rattle.library_examples.specs.CellsLeft.{MetOrLeft};

use co_base::Value;
use counted_cells::{Counted, CountedPass, CountedSend, GaveUp};

/// Sends a value, but not to one who comes later. Answers whether a receiver met it.
pub(crate) fn send_or_leave(counted: &Counted, pass: &mut CountedPass, value: Value) -> bool
    requires of { IsOf counted.now pass.old }
    ensures of { IsOf counted.now pass.new }
    ensures same { SamePass pass.old pass.new }
    ensures met { MetOrLeft counted.now.cells (seen_by pass.new) result }
{
    match counted.send(pass, value) {
        CountedSend::Paired(_) => true,
        CountedSend::Waits(place) => match counted.give_up(pass, place) {
            GaveUp::Done => false,
            GaveUp::Late => true,
        },
        CountedSend::Broken(_) => false,
        CountedSend::Spent => false,
    }
}
