//! To send and to receive, to look and to give up.
ghost use Rattle.std.specs.Prelude.{◌≢◌, ℕ, ◌<◌};
ghost use Rattle.counted_cells.specs.Seen.{now_in};
ghost use Rattle.counted_cells.specs.Passes.{seen_by, IsOf, SamePass};
ghost use Rattle.counted_cells.specs.Answers.{HasCome, MayGiveUp, SendAnswer, ReceiveAnswer, GiveUpAnswer, LookAnswer, Stays};

use crate::act::{Side, Waiter};
use crate::answers::{CountedGot, CountedSend, CountedState, GaveUp};
use crate::cell_state::CellState;
use crate::counted::Counted;
use crate::pass::CountedPass;
use crate::steps::{Stood, draw_cell, leave, load_cell, stand};
use co_base::{Place, Value};

impl Counted {
    /// Draws a cell and sends there: waits for the receiver of the cell, or meets it.
    ///
    /// Example: `send_or_leave` in `docs/LIBRARY.md`.
    pub fn send(&self, pass: &mut CountedPass, value: Value) -> CountedSend
        requires of { IsOf self.now pass.old }
        ensures of { IsOf self.now pass.new }
        ensures same { SamePass pass.old pass.new }
        ensures answer { SendAnswer self.now.cells pass.old.number value (seen_by pass.old) (seen_by pass.new) result }
        ensures stays { Stays pass.old.number (seen_by pass.old) (seen_by pass.new) }
    {
        match draw_cell(self, pass, Side::Send) {
            None => CountedSend::Spent,
            Some(place) => match stand(self, pass, place, Waiter::Sender(value)) {
                Stood::Waits => CountedSend::Waits(place),
                Stood::Paired(_) => CountedSend::Paired(place),
                Stood::Broken => CountedSend::Broken(place),
            },
        }
    }

    /// Draws a cell and receives there: waits for the sender of the cell, or meets it.
    ///
    /// Example: `two_sends` in `docs/LIBRARY.md`.
    pub fn receive(&self, pass: &mut CountedPass) -> CountedGot
        requires of { IsOf self.now pass.old }
        ensures of { IsOf self.now pass.new }
        ensures same { SamePass pass.old pass.new }
        ensures answer { ReceiveAnswer self.now.cells pass.old.number (seen_by pass.old) (seen_by pass.new) result }
        ensures stays { Stays pass.old.number (seen_by pass.old) (seen_by pass.new) }
    {
        match draw_cell(self, pass, Side::Receive) {
            None => CountedGot::Spent,
            Some(place) => match stand(self, pass, place, Waiter::Receiver) {
                Stood::Waits => CountedGot::Waits(place),
                Stood::Paired(value) => CountedGot::Value(place, value),
                Stood::Broken => CountedGot::Broken(place),
            },
        }
    }

    /// Gives up in a cell where the pass was answered Waits, unless its partner came first.
    ///
    /// Example: `send_or_leave` in `docs/LIBRARY.md`.
    pub fn give_up(&self, pass: &mut CountedPass, place: Place) -> GaveUp
        requires of { IsOf self.now pass.old }
        requires place { place < self.now.cells }
        requires waits { MayGiveUp pass.old.number place (now_in (seen_by pass.old)) }
        ensures of { IsOf self.now pass.new }
        ensures same { SamePass pass.old pass.new }
        ensures answer { GiveUpAnswer pass.old.number place (seen_by pass.old) (seen_by pass.new) result }
        ensures come { (i : ℕ) → HasCome pass.old.number i (now_in (seen_by pass.old))
            → HasCome pass.old.number i (now_in (seen_by pass.new)) }
        ensures others { (i : ℕ) → i ≢ place → MayGiveUp pass.old.number i (now_in (seen_by pass.old))
            → MayGiveUp pass.old.number i (now_in (seen_by pass.new)) }
    {
        match load_cell(self, pass, place) {
            CellState::Waits(waiter) => leave(self, pass, place, waiter),
            CellState::Paired(_) => GaveUp::Late,
            CellState::Free => unreachable!(),
            CellState::Broken(_) => unreachable!(),
        }
    }

    /// How a call stands that was answered Waits.
    ///
    /// Example: `two_sends` in `docs/LIBRARY.md`.
    pub fn look(&self, pass: &mut CountedPass, place: Place) -> CountedState
        requires of { IsOf self.now pass.old }
        requires place { place < self.now.cells }
        requires came { HasCome pass.old.number place (now_in (seen_by pass.old)) }
        ensures of { IsOf self.now pass.new }
        ensures same { SamePass pass.old pass.new }
        ensures answer { LookAnswer pass.old.number place (seen_by pass.old) (seen_by pass.new) result }
        ensures stays { Stays pass.old.number (seen_by pass.old) (seen_by pass.new) }
    {
        match load_cell(self, pass, place) {
            CellState::Waits(_) => CountedState::Waits,
            CellState::Paired(value) => CountedState::Paired(value),
            CellState::Broken(_) => CountedState::Broken,
            CellState::Free => unreachable!(),
        }
    }
}
