//! How a hub is made, and its passes are split, met and ended.
ghost use Rattle.std.specs.Prelude.{◌≡◌, ℕ, ◌+◌, ◌*◌, ◌==◌, ◌<◌, ◌≤◌, IfOk, length, slice_index, if◌then◌else◌, true, false, [], ◌∷◌};
ghost use Rattle.channel_model.specs.Channels.{IsShape, places_at};
ghost use Rattle.worded.specs.Views.{IsIdleSeatOf, SameSeat, first_view, has_tag, new_view, with_next};
ghost use Rattle.worded.specs.Histories.{entries_of};
ghost use Rattle.joined_words.specs.Parts.{tag_in};
ghost use Rattle.joined_words.specs.Joints.{quiet_words};
ghost use Rattle.channel_model.specs.Histories.{acts_of};
ghost use Rattle.word_rules.specs.Words.{cells_in, word_count};
ghost use Rattle.word_rules.specs.Deeds.{doer};
ghost use Rattle.cell_words.specs.Sizes.{AreFirsts};
ghost use Rattle.cell_words.specs.Hubs.{shape_of, seen_by, beside, IsOf, IsOwn, GivesTags};
ghost use Rattle.cell_words.specs.Seen.{Sees, rows_beside};
ghost use mathlib.Core.List.{IsPrefix};
ghost use Rattle.cell_words.specs.Meetings.{MeetAnswer, EndAnswer};

use crate::hub::Hub;
use crate::pass::Pass;
use channel_model::{Entry, Kind};
use co_base::{Memory, Tag};
use joined_words::{
    FirstPart, QUIET_WORDS, SecondPart, end_in, hear, meet_in, new_joint, split_in,
};
use std::alloc::{AllocError, Global};
use std::collections::LinkedList;
use std::sync::Arc;
use word_rules::{
    CellHistory, Deed, ForestSize, JobHistory, Layout, RunEntry, RunHistory, RunKey, RunSeat,
};

fn places_in(kinds: &[(Kind, u32)], i: usize) -> u32
    requires { i < length kinds.now }
    ensures { result ≡ places_at kinds.now i }
{
    kinds[i].1
}

/// The number of the first cell of each channel.
fn first_cells(alloc: Global, kinds: &[(Kind, u32)]) -> Result<Vec<u32>, AllocError>
    requires few { cells_in kinds.now < 8388608 }
    ensures { IfOk result (λ v. AreFirsts kinds.now (length kinds.now) v.items) }
{
    let mut firsts = Vec::with_capacity(alloc, kinds.len())?;
    let mut next = 0;
    for i in 0..kinds.len() {
        firsts.push(next)?;
        next += places_in(kinds, i) + 1;
    }
    Ok(firsts)
}

/// How many cells all channels have.
fn count_cells(kinds: &[(Kind, u32)]) -> u32
    requires few { cells_in kinds.now < 8388608 }
    ensures { result ≡ cells_in kinds.now }
{
    let mut cells = 0;
    for i in 0..kinds.len() {
        cells += places_in(kinds, i) + 1;
    }
    cells
}

fn layout_of(alloc: Global, kinds: &[(Kind, u32)]) -> Result<Layout, AllocError>
    ensures { IfOk result (λ layout. layout.kinds ≡ kinds.now) }
{
    let mut list = LinkedList::new(alloc);
    for i in 0..kinds.len() {
        list.push_back(kinds[i])?;
    }
    Ok(Layout { kinds: list })
}

/// Lets go of the words that a table was made from, with their block made small before: once the C library has freed a large block, it
/// keeps blocks up to that size in heaps of its own, where books that grow are copied and leave behind what they had.
fn let_go(words: Vec<u64>) {
    let mut words = words;
    words.truncate(1);
    words.shrink_to_fit();
}

/// The words of a table with so many cells and channels, and with so many rows: those of a forest that has the root alone, if any.
fn first_words(alloc: Global, cells: u32, channels: usize, rows: u16) -> Result<Vec<u64>, Memory>
    requires few { (cells < 8388608) × (channels ≤ 65536) }
    ensures count { IfOk result (λ v. length v.items ≡ (quiet_words + (3 * cells + 16 * channels + 1)) + 2 * rows) }
    ensures words { IfOk result (λ v. (i : ℕ)
        → slice_index v.items i ≡ (if i == quiet_words + (3 * cells + 16 * channels + 1) then (if rows == 0 then 0 else 2) else 0)) }
{
    let first = QUIET_WORDS + (3 * cells as usize + 16 * channels + 1);
    let mut words = Vec::from_elem(alloc, 0u64, first + 2 * rows as usize)?;
    if rows > 0 {
        words[first] = 2;
    }
    Ok(words)
}

impl Hub {
    /// A hub of channels of these kinds, with so many places, and the pass of tag 0, which gives out the other tags.
    ///
    /// Example: `new_passes` in `docs/LIBRARY.md`.
    pub fn new(alloc: Global, kinds: &[(Kind, u32)]) -> Result<(Hub, Pass), Memory>
        requires channels { length kinds.now ≤ 65536 }
        requires shape { IsShape kinds.now }
        requires few { cells_in kinds.now < 8388608 }
        ensures shape { IfOk result (λ r. shape_of r.0 ≡ kinds.now) }
        ensures own { IfOk result (λ r. IsOwn r.0 r.1 0) }
        ensures gives { IfOk result (λ r. GivesTags (0 ∷ []) r.1) }
        ensures seen { IfOk result (λ r. (seen_by r.1).seen ≡ []) }
    {
        let no_rows = ForestSize {
            coroutines: 0,
            rows: 0,
        };
        Hub::with_rows(alloc, kinds, no_rows)
    }

    /// The same with rows for a forest of this size, which stands on the second part of the table. The pass gives out the tags of both.
    pub fn with_rows(
        alloc: Global,
        kinds: &[(Kind, u32)],
        size: ForestSize,
    ) -> Result<(Hub, Pass), Memory>
        requires channels { length kinds.now ≤ 65536 }
        requires shape { IsShape kinds.now }
        requires few { cells_in kinds.now < 8388608 }
        ensures shape { IfOk result (λ r. shape_of r.0 ≡ kinds.now) }
        ensures size { IfOk result (λ r. r.0.table.value.shared.key.1 ≡ size) }
        ensures own { IfOk result (λ r. IsOwn r.0 r.1 0) }
        ensures gives { IfOk result (λ r. GivesTags (0 ∷ []) r.1) }
        ensures seen { IfOk result (λ r. (seen_by r.1).seen ≡ []) }
        ensures beside { IfOk result (λ r. beside r.1 ≡ record (first_view size) { given = []; tags = [] }) }
    {
        let layout = layout_of(alloc, kinds)?;
        let firsts = first_cells(alloc, kinds)?;
        let cells = count_cells(kinds);
        let words = first_words(alloc, cells, kinds.len(), size.rows)?;
        let (table, seat) = new_joint::<
            Entry,
            Layout,
            CellHistory,
            Deed,
            ForestSize,
            JobHistory,
            Global,
        >(alloc, words.as_slice(), &(layout, size))?;
        let_go(words);
        let kinds = Vec::from_slice(alloc, kinds)?;
        let shared = Arc::new(alloc, table)?;
        Ok((
            Hub {
                table: shared,
                kinds,
                firsts,
                cells,
            },
            Pass { seat },
        ))
    }

    /// Which word of the table is the first behind those of the channels.
    pub fn first_beside(&self) -> usize
        ensures { result ≡ quiet_words + word_count (shape_of self.now) }
    {
        QUIET_WORDS + 3 * self.cells as usize + 16 * self.kinds.len() + 1
    }

    /// A pass of a tag that was not given out before. It has seen what the first pass has seen, and has no entry.
    ///
    /// Example: `new_passes` in `docs/LIBRARY.md`.
    pub fn split(&self, pass: &mut Pass, tag: Tag) -> Pass
        requires of { IsOf self.now pass.old }
        requires new { ((seen_by pass.old).chief ≡ true) × (has_tag tag (seen_by pass.old).given ≡ false) }
        ensures of { IsOf self.now pass.new }
        ensures same { (seen_by pass.new).seen ≡ (seen_by pass.old).seen }
        ensures tags { (seen_by pass.new).tags ≡ (seen_by pass.old).tags }
        ensures gives { GivesTags (tag ∷ (seen_by pass.old).given) pass.new }
        ensures own { IsOwn self.now result tag }
        ensures callers { (seen_by result).tags ≡ tag ∷ [] }
        ensures sees { (seen_by result).seen ≡ (seen_by pass.old).seen }
        ensures order { ((seen_by pass.new).order ≡ (seen_by pass.old).order) × ((seen_by result).order ≡ (seen_by pass.old).order) }
        ensures all { (seen_by pass.new).given_all ≡ tag_in 0 tag ∷ (seen_by pass.old).given_all }
        ensures none { acts_of tag (seen_by result).seen ≡ [] }
    {
        let seat = split_in::<RunEntry, RunKey, RunHistory, Entry, Layout, CellHistory, FirstPart>(
            &self.table.shared,
            &mut pass.seat,
            tag as u64,
        );
        Pass { seat }
    }

    /// A seat of the second part, with a tag that was not given out there before, for a pass of the forest. It has seen what the first pass
    /// has seen, and nothing was done under its tag.
    pub fn split_beside(&self, pass: &mut Pass, tag: Tag) -> RunSeat
        requires of { IsOf self.now pass.old }
        requires new { ((seen_by pass.old).chief ≡ true) × (has_tag tag (beside pass.old).given ≡ false) }
        ensures of { IsOf self.now pass.new }
        ensures same { (seen_by pass.new).seen ≡ (seen_by pass.old).seen }
        ensures tags { (seen_by pass.new).tags ≡ (seen_by pass.old).tags }
        ensures gives { GivesTags (seen_by pass.old).given pass.new }
        ensures all { (seen_by pass.new).given_all ≡ tag_in 1 tag ∷ (seen_by pass.old).given_all }
        ensures order { (seen_by pass.new).order ≡ (seen_by pass.old).order }
        ensures seat { IsIdleSeatOf self.now.table.value.shared.table_id self.now.table.value.shared.key result }
        ensures view { rows_beside result.me.0 ≡ new_view (with_next (beside pass.old) tag) }
        ensures none { entries_of doer tag (beside pass.old).seen ≡ [] }
    {
        split_in::<RunEntry, RunKey, RunHistory, Deed, ForestSize, JobHistory, SecondPart>(
            &self.table.shared,
            &mut pass.seat,
            tag as u64,
        )
    }

    /// Afterwards `a` has seen all that `b` had seen.
    pub fn meet(&self, a: &mut Pass, b: &mut Pass)
        requires a { IsOf self.now a.old }
        requires b { IsOf self.now b.old }
        ensures a { IsOf self.now a.new }
        ensures b { IsOf self.now b.new }
        ensures met { MeetAnswer (seen_by a.old) (seen_by b.old) (seen_by a.new) }
        ensures same { seen_by b.new ≡ seen_by b.old }
    {
        meet_in::<RunEntry, RunKey, RunHistory, Entry, Layout, CellHistory, FirstPart>(
            &self.table.shared,
            &mut a.seat,
            &mut b.seat,
        )
    }

    /// The pass hears a seat of the table, of whichever part: afterwards it has seen all that the seat had seen.
    pub fn hear(&self, pass: &mut Pass, other: &mut RunSeat)
        requires of { IsOf self.now pass.old }
        requires other { other.old.table_id ≡ self.now.table.value.shared.table_id }
        ensures of { IsOf self.now pass.new }
        ensures other { SameSeat other.old other.new × (other.new.me.0 ≡ other.old.me.0) }
        ensures sees { Sees (seen_by pass.old) (seen_by pass.new) }
        ensures heard { IsPrefix other.old.me.0.seen pass.new.seat.me.0.seen }
    {
        hear::<
            RunEntry,
            RunKey,
            RunHistory,
            Entry,
            Layout,
            CellHistory,
            FirstPart,
            Deed,
            ForestSize,
            JobHistory,
            SecondPart,
        >(&self.table.shared, &mut pass.seat, other)
    }

    /// `main` takes in what another pass has seen, and its callers.
    pub fn end(&self, main: &mut Pass, pass: Pass)
        requires main { IsOf self.now main.old }
        requires pass { IsOf self.now pass }
        ensures main { IsOf self.now main.new }
        ensures ended { EndAnswer (seen_by main.old) (seen_by pass) (seen_by main.new) }
    {
        let Pass { seat } = pass;
        end_in::<RunEntry, RunKey, RunHistory, Entry, Layout, CellHistory, FirstPart>(
            &self.table.shared,
            &mut main.seat,
            seat,
        )
    }
}
