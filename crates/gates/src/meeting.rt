//! How a gate is made, and passes are split and ended.
ghost use Rattle.std.specs.Prelude.{◌≡◌, ◌+◌, ◌<◌, ◌≤◌, IfOk, [], false, slice_index};
ghost use Rattle.worded.specs.Histories.{entries_of};
ghost use Rattle.gates.specs.Gates.{maker};
ghost use Rattle.gates.specs.Passes.{seen_by, IsAt, IsOf, IsFirst, SamePass, EndAnswer};

use crate::act::GateEntry;
use crate::gate::{Gate, GatePass, Permits};
use co_base::Memory;
use std::alloc::Global;
use worded::{end, new_history, split};

/// The words of a gate whose permits are all free.
fn first_words(permits: u32) -> [u64; 49]
    ensures first { slice_index result 0 ≡ permits }
{
    let mut words = [0u64; 49];
    words[0] = permits as u64;
    words
}

impl Gate {
    /// A gate of so many permits, all free, and the first pass, whose number is 0. A gate of one permit is a mutex.
    pub fn new(alloc: Global, permits: u32) -> Result<(Gate, GatePass), Memory>
        requires permits { (0 < permits) × (permits ≤ 65535) }
        ensures of { IfOk result (λ r. IsOf r.0 r.1) }
        ensures permits { IfOk result (λ r. r.0.permits ≡ permits) }
        ensures first { IfOk result (λ r. IsFirst r.1 × (r.1.number ≡ 0) × (r.1.splits ≡ 0) × IsAt 0 false r.1) }
        ensures seen { IfOk result (λ r. (seen_by r.1).seen ≡ []) }
    {
        let words = first_words(permits);
        let (table, seat) = new_history::<GateEntry, u32, Permits, Global>(
            alloc, &words, &permits,
        )?;
        Ok((
            Gate { table, permits },
            GatePass {
                seat,
                number: 0,
                splits: 0,
                held: 0,
                waits: false,
            },
        ))
    }

    /// A further pass, which has seen what the first one has seen, and has made no entry.
    pub fn split(&self, pass: &mut GatePass) -> GatePass
        requires of { IsOf self.now pass.old }
        requires first { IsFirst pass.old }
        requires few { pass.old.splits < 65535 }
        ensures of { IsOf self.now pass.new × IsOf self.now result }
        ensures first { IsFirst pass.new × (pass.new.number ≡ pass.old.number) × (pass.new.splits ≡ pass.old.splits + 1) }
        ensures number { (result.number ≡ pass.old.splits + 1) × (result.splits ≡ 0) }
        ensures holds { IsAt pass.old.held pass.old.waits pass.new × IsAt 0 false result }
        ensures same { (seen_by pass.new).seen ≡ (seen_by pass.old).seen }
        ensures sees { (seen_by result).seen ≡ (seen_by pass.old).seen }
        ensures none { entries_of maker result.number (seen_by result).seen ≡ [] }
    {
        let number = pass.splits + 1;
        let seat = split::<GateEntry, u32, Permits>(
            &self.table.shared,
            &mut pass.seat,
            number as u64,
        );
        pass.splits = number;
        GatePass {
            seat,
            number,
            splits: 0,
            held: 0,
            waits: false,
        }
    }

    /// `main` takes in what another pass has seen, and its numbers. The other holds nothing, and does not wait.
    pub fn end(&self, main: &mut GatePass, pass: GatePass)
        requires main { IsOf self.now main.old }
        requires pass { IsOf self.now pass × IsAt 0 false pass }
        ensures main { IsOf self.now main.new }
        ensures same { SamePass main.old main.new × IsAt main.old.held main.old.waits main.new }
        ensures ended { EndAnswer (seen_by main.old) (seen_by pass) (seen_by main.new) }
    {
        let GatePass { seat, .. } = pass;
        end::<GateEntry, u32, Permits>(&self.table.shared, &mut main.seat, seat)
    }
}
