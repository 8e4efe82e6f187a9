//! To acquire and to release, to look and to give up.
ghost use Rattle.std.specs.Prelude.{◌≡◌, ◌<◌, true, false};
ghost use Rattle.gates.specs.Passes.{seen_by, IsOf, SamePass};
ghost use Rattle.gates.specs.Answers.{TryAnswer, TryHolds, AcquireAnswer, AcquireHolds, ReleaseAnswer, ReleaseHolds};
ghost use Rattle.gates.specs.Answers.{LookAnswer, LookHolds, GiveUpAnswer, GiveUpHolds};

use crate::act::GateAct;
use crate::answers::{Acquired, GaveUp, Released, TryAcquired, WaitState};
use crate::choice::{Want, is_waiting};
use crate::gate::{Gate, GatePass};
use crate::steps::{Turned, look_at, settle, turn};

impl Gate {
    /// Takes a permit, if one is free.
    pub fn try_acquire(&self, pass: &mut GatePass) -> TryAcquired
        requires of { IsOf self.now pass.old }
        ensures of { IsOf self.now pass.new }
        ensures same { SamePass pass.old pass.new }
        ensures answer { TryAnswer pass.old.number (seen_by pass.old) (seen_by pass.new) result }
        ensures holds { TryHolds pass.old pass.new result }
    {
        match turn(self, pass, Want::Take, 0) {
            Turned::Did(GateAct::Take) => TryAcquired::Held,
            Turned::Did(_) => unreachable!(),
            Turned::Not => TryAcquired::Empty,
            Turned::Lost => TryAcquired::Busy,
        }
    }

    /// Takes a permit, if one is free, and else waits for one. The passes 0 to 47 may wait. Nothing is blocked: the pass that grants the
    /// permit is answered this one's number, and wakes it; then `look` answers Held.
    pub fn acquire(&self, pass: &mut GatePass) -> Acquired
        requires of { IsOf self.now pass.old }
        requires not { pass.old.waits ≡ false }
        requires low { pass.old.number < 48 }
        ensures of { IsOf self.now pass.new }
        ensures same { SamePass pass.old pass.new }
        ensures answer { AcquireAnswer pass.old.number (seen_by pass.old) (seen_by pass.new) result }
        ensures holds { AcquireHolds pass.old pass.new result }
    {
        match turn(self, pass, Want::TakeOrWait, 0) {
            Turned::Did(GateAct::Take) => Acquired::Held,
            Turned::Did(GateAct::Wait) => Acquired::Waits,
            Turned::Did(_) => unreachable!(),
            Turned::Not => unreachable!(),
            Turned::Lost => Acquired::Busy,
        }
    }

    /// Gives a permit back: to one who waits, the first from the number `from` on, so that with another number each time none is passed
    /// over; and if nobody waits, it is free.
    pub fn release(&self, pass: &mut GatePass, from: u32) -> Released
        requires of { IsOf self.now pass.old }
        requires held { 0 < pass.old.held }
        requires from { from < 48 }
        ensures of { IsOf self.now pass.new }
        ensures same { SamePass pass.old pass.new }
        ensures answer { ReleaseAnswer pass.old.number (seen_by pass.old) (seen_by pass.new) result }
        ensures holds { ReleaseHolds pass.old pass.new result }
    {
        match turn(self, pass, Want::Give, from) {
            Turned::Did(GateAct::Give) => Released::Free,
            Turned::Did(GateAct::Grant { tag }) => Released::Granted(tag),
            Turned::Did(_) => unreachable!(),
            Turned::Not => unreachable!(),
            Turned::Lost => Released::Busy,
        }
    }

    /// How an acquire stands that was answered Waits.
    pub fn look(&self, pass: &mut GatePass) -> WaitState
        requires of { IsOf self.now pass.old }
        requires waits { pass.old.waits ≡ true }
        ensures of { IsOf self.now pass.new }
        ensures same { SamePass pass.old pass.new }
        ensures answer { LookAnswer pass.old.number (seen_by pass.old) (seen_by pass.new) result }
        ensures holds { LookHolds pass.old pass.new result }
    {
        let word = look_at(self, pass);
        if is_waiting(word, pass.number as u32) {
            return WaitState::Waits;
        }
        settle(pass);
        WaitState::Held
    }

    /// Waits no more, unless a permit was granted before.
    pub fn give_up(&self, pass: &mut GatePass) -> GaveUp
        requires of { IsOf self.now pass.old }
        requires waits { pass.old.waits ≡ true }
        ensures of { IsOf self.now pass.new }
        ensures same { SamePass pass.old pass.new }
        ensures answer { GiveUpAnswer pass.old.number (seen_by pass.old) (seen_by pass.new) result }
        ensures holds { GiveUpHolds pass.old pass.new result }
    {
        match turn(self, pass, Want::GiveUp, 0) {
            Turned::Did(GateAct::GiveUp) => GaveUp::Done,
            Turned::Did(_) => unreachable!(),
            Turned::Not => {
                settle(pass);
                GaveUp::Late
            }
            Turned::Lost => GaveUp::Busy,
        }
    }
}
