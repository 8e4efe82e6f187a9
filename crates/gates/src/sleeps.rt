//! To sleep until a permit is granted, and to wake who sleeps.
//!
//! Who waits sleeps on a word of its own, which tells nothing but that it was rung. It loads that word before it looks; who granted it the
//! permit raises the word after that, and wakes it. So a grant is either seen by the look, or changes the word before the sleep.
ghost use Rattle.std.specs.Prelude.{◌≡◌, ◌+◌, ◌<◌, true, false, []};
ghost use Rattle.gates.specs.Seen.{Adds};
ghost use Rattle.gates.specs.Passes.{seen_by, IsAt, IsOf, SamePass};
ghost use Rattle.gates.specs.Answers.{Acquires, ReleaseAnswer, ReleaseHolds};

use crate::act::GateEntry;
use crate::answers::{Acquired, Released, WaitState};
use crate::gate::{Gate, GatePass, Permits};
use co_base::Tag;
use std::sync::Wait;
use worded::lift;

/// The word on which the pass of this number sleeps.
fn bell_of(number: Tag) -> usize
    requires low { number < 48 }
    ensures bell { result ≡ 1 + number }
{
    1 + number as usize
}

/// Sleeps until a permit was granted.
fn sleep<R: Wait>(gate: &Gate, rt: &R, pass: &mut GatePass)
    requires of { IsOf gate.now pass.old }
    requires waits { pass.old.waits ≡ true }
    requires low { pass.old.number < 48 }
    ensures of { IsOf gate.now pass.new }
    ensures same { SamePass pass.old pass.new }
    ensures adds { Adds pass.old.number [] (seen_by pass.old) (seen_by pass.new) }
    ensures holds { IsAt (pass.old.held + 1) false pass.new }
{
    let bell = bell_of(pass.number);
    for _ in rt.forever() {
        let rung = gate.table.shared.peek(bell);
        match gate.look(pass) {
            WaitState::Held => return,
            WaitState::Waits => gate.table.shared.park(rt, bell, (rung % 4294967296) as u32),
        }
    }
}

/// Wakes the pass of this number, if it sleeps.
fn ring(gate: &Gate, pass: &mut GatePass, number: Tag)
    requires of { IsOf gate.now pass.old }
    ensures of { IsOf gate.now pass.new }
    ensures same { SamePass pass.old pass.new × IsAt pass.old.held pass.old.waits pass.new }
    ensures seen { seen_by pass.new ≡ seen_by pass.old }
{
    if number < 48 {
        let bell = bell_of(number);
        let rung = gate.table.shared.peek(bell);
        lift::<GateEntry, u32, Permits>(
            &gate.table.shared,
            &mut pass.seat,
            bell,
            rung.saturating_add(1),
        );
        gate.table.shared.wake_one(bell);
    }
}

impl Gate {
    /// Takes a permit; sleeps until one is granted, if none is free. The passes 0 to 47 may. It is woken by `release_and_wake`, not by
    /// `release`.
    pub fn blocking_acquire<R: Wait>(&self, rt: &R, pass: &mut GatePass)
        requires of { IsOf self.now pass.old }
        requires not { pass.old.waits ≡ false }
        requires low { pass.old.number < 48 }
        ensures of { IsOf self.now pass.new }
        ensures same { SamePass pass.old pass.new }
        ensures answer { Acquires pass.old.number (seen_by pass.old) (seen_by pass.new) }
        ensures holds { IsAt (pass.old.held + 1) false pass.new }
    {
        for _ in rt.forever() {
            match self.acquire(pass) {
                Acquired::Held => return,
                Acquired::Waits => {
                    sleep(self, rt, pass);
                    return;
                }
                Acquired::Busy => {}
            }
        }
    }

    /// As `release`, and wakes the pass that was granted the permit.
    pub fn release_and_wake(&self, pass: &mut GatePass, from: u32) -> Released
        requires of { IsOf self.now pass.old }
        requires held { 0 < pass.old.held }
        requires from { from < 48 }
        ensures of { IsOf self.now pass.new }
        ensures same { SamePass pass.old pass.new }
        ensures answer { ReleaseAnswer pass.old.number (seen_by pass.old) (seen_by pass.new) result }
        ensures holds { ReleaseHolds pass.old pass.new result }
    {
        let released = self.release(pass, from);
        if let Released::Granted(number) = released {
            ring(self, pass, number);
        }
        released
    }
}
