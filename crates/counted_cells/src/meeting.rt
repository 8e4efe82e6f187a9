//! How counted cells are made, and passes are split and ended.
ghost use Rattle.std.specs.Prelude.{◌≡◌, ◌+◌, ◌<◌, ◌≤◌, IfOk, []};
ghost use Rattle.worded.specs.Histories.{entries_of};
ghost use Rattle.counted_cells.specs.Cells.{maker};
ghost use Rattle.counted_cells.specs.Passes.{seen_by, IsOf, IsFirst, EndAnswer};
ghost use Rattle.counted_cells.specs.Answers.{Stays};

use crate::act::CellEntry;
use crate::counted::{CellCounts, Counted};
use crate::pass::CountedPass;
use co_base::Memory;
use std::alloc::Global;
use worded::{end, new_history, split};

impl Counted {
    /// So many free cells, and the first pass, whose number is 0.
    ///
    /// Example: `two_sends` in `docs/LIBRARY.md`.
    pub fn new(alloc: Global, cells: u32) -> Result<(Counted, CountedPass), Memory>
        requires cells { (0 < cells) × (cells ≤ 1048576) }
        ensures of { IfOk result (λ r. IsOf r.0 r.1) }
        ensures cells { IfOk result (λ r. r.0.cells ≡ cells) }
        ensures first { IfOk result (λ r. IsFirst r.1 × (r.1.number ≡ 0) × (r.1.splits ≡ 0)) }
        ensures seen { IfOk result (λ r. (seen_by r.1).seen ≡ []) }
    {
        let words = Vec::from_elem(alloc, 0u64, 2 + cells as usize)?;
        let (table, seat) = new_history::<CellEntry, u32, CellCounts, Global>(
            alloc,
            words.as_slice(),
            &cells,
        )?;
        Ok((
            Counted { table, cells },
            CountedPass {
                seat,
                number: 0,
                splits: 0,
            },
        ))
    }

    /// A further pass, which has seen what the first one has seen, and has made no entry.
    ///
    /// Example: `two_sends` in `docs/LIBRARY.md`.
    pub fn split(&self, pass: &mut CountedPass) -> CountedPass
        requires of { IsOf self.now pass.old }
        requires first { IsFirst pass.old }
        requires few { pass.old.splits < 65535 }
        ensures of { IsOf self.now pass.new × IsOf self.now result }
        ensures first { IsFirst pass.new × (pass.new.number ≡ pass.old.number) × (pass.new.splits ≡ pass.old.splits + 1) }
        ensures number { (result.number ≡ pass.old.splits + 1) × (result.splits ≡ 0) }
        ensures same { (seen_by pass.new).seen ≡ (seen_by pass.old).seen }
        ensures sees { (seen_by result).seen ≡ (seen_by pass.old).seen }
        ensures none { entries_of maker result.number (seen_by result).seen ≡ [] }
    {
        let number = pass.splits + 1;
        let seat = split::<CellEntry, u32, CellCounts>(
            &self.table.shared,
            &mut pass.seat,
            number as u64,
        );
        pass.splits = number;
        CountedPass {
            seat,
            number,
            splits: 0,
        }
    }

    /// `main` takes in what another pass has seen, and its numbers.
    pub fn end(&self, main: &mut CountedPass, pass: CountedPass)
        requires main { IsOf self.now main.old }
        requires pass { IsOf self.now pass }
        ensures main { IsOf self.now main.new }
        ensures same { (main.new.number ≡ main.old.number) × (main.new.splits ≡ main.old.splits) }
        ensures ended { EndAnswer (seen_by main.old) (seen_by pass) (seen_by main.new) }
        ensures stays { Stays main.old.number (seen_by main.old) (seen_by main.new) }
    {
        let CountedPass { seat, .. } = pass;
        end::<CellEntry, u32, CellCounts>(&self.table.shared, &mut main.seat, seat)
    }
}
