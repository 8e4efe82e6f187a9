//! How a forest is made, and its passes are split, met and ended.
ghost use Rattle.std.specs.Prelude.{◌≡◌, ℕ, ◌+◌, ◌*◌, ◌==◌, ◌<◌, ◌≤◌, IfOk, length, slice_index, if◌then◌else◌, true, false, [], ◌∷◌};
ghost use mathlib.Core.List.{IsPrefix};
ghost use Rattle.job_model.specs.Floors.{IsFreshFloor, Looked};
ghost use Rattle.worded.specs.Views.{IsIdleSeatOf, SameSeat, first_view, has_tag};
ghost use Rattle.joined_words.specs.Seen.{view_of};
ghost use Rattle.worded.specs.Histories.{entries_of};
ghost use Rattle.word_rules.specs.Deeds.{IsSize, doer};
ghost use Rattle.job_words.specs.Passes.{floor_seen};
ghost use Rattle.job_words.specs.JobParts.{IsPlaced, jobs_in};
ghost use Rattle.job_words.specs.Meetings.{NothingOf, MeetAnswer, EndAnswer};
ghost use Rattle.job_words.specs.Forests.{seen_by, IsOf, IsOwn, GivesTags, SameGiving};

use crate::forest::Forest;
use crate::pass::JobPass;
use channel_model::Entry;
use co_base::{Memory, Tag};
use joined_words::{
    FirstPart, QUIET_WORDS, SecondPart, end_in, hear, load_in, meet_in, new_joint, split_in,
};
use std::alloc::Global;
use std::collections::LinkedList;
use std::sync::Arc;
use word_rules::{
    CellHistory, Deed, ForestSize, JobHistory, Layout, RunEntry, RunHistory, RunKey, RunSeat,
    RunTable, SharedTable,
};

/// The first word of a forest whose table has no channels: such a hub has one word, which says nothing.
const FIRST_ALONE: usize = QUIET_WORDS + 1;

/// The words of a table without channels, and of a forest that has the root alone.
fn first_words(alloc: Global, rows: u16) -> Result<Vec<u64>, Memory>
    requires { 0 < rows }
    ensures count { IfOk result (λ v. length v.items ≡ 9 + 2 * rows) }
    ensures words { IfOk result (λ v. (i : ℕ) → slice_index v.items i ≡ (if i == 9 then 2 else 0)) }
{
    let mut words = Vec::from_elem(alloc, 0u64, FIRST_ALONE + 2 * rows as usize)?;
    words[FIRST_ALONE] = 2;
    Ok(words)
}

/// The table of a forest that has the root alone, and its first seat, which has tag 0 of both parts: no seat of the channels is left.
fn table_alone(alloc: Global, size: ForestSize) -> Result<(RunTable, RunSeat), Memory>
    requires { IsSize size }
    ensures placed { IfOk result (λ t. IsPlaced t.0.shared.table_id.words t.0.shared.key size 9) }
    ensures seat { IfOk result (λ t. IsIdleSeatOf t.0.shared.table_id t.0.shared.key t.1) }
    ensures first { IfOk result (λ t. view_of (jobs_in t.1.me.0) ≡ first_view size) }
{
    let words = first_words(alloc, size.rows)?;
    let kinds = LinkedList::new(alloc);
    let key = (Layout { kinds }, size);
    let (table, mut seat) = new_joint::<
        Entry,
        Layout,
        CellHistory,
        Deed,
        ForestSize,
        JobHistory,
        Global,
    >(alloc, words.as_slice(), &key)?;
    let root = split_in::<RunEntry, RunKey, RunHistory, Deed, ForestSize, JobHistory, SecondPart>(
        &table.shared,
        &mut seat,
        0,
    );
    end_in::<RunEntry, RunKey, RunHistory, Deed, ForestSize, JobHistory, SecondPart>(
        &table.shared,
        &mut seat,
        root,
    );
    Ok((table, seat))
}

impl Forest {
    /// A forest that has the root alone, and the pass of tag 0, which gives out the other tags.
    ///
    /// Example: `result_awaited` in `docs/LIBRARY.md`.
    pub fn new(alloc: Global, coroutines: u16, scopes: u16) -> Result<(Forest, JobPass), Memory>
        requires some { 0 < coroutines }
        requires few { coroutines + scopes ≤ 16000 }
        ensures own { IfOk result (λ r. IsOwn r.0 r.1 0) }
        ensures gives { IfOk result (λ r. GivesTags (0 ∷ []) r.1) }
        ensures fresh { IfOk result
            (λ r. IsFreshFloor (record { coroutines = coroutines; rows = coroutines + scopes }) (floor_seen (seen_by r.1))) }
    {
        let size = ForestSize {
            coroutines,
            rows: coroutines + scopes,
        };
        let (table, seat) = table_alone(alloc, size)?;
        let shared = Arc::new(alloc, table)?;
        Ok((
            Forest {
                table: shared,
                size,
                first: FIRST_ALONE,
            },
            JobPass { seat },
        ))
    }

    /// A forest on the second part of a table, with rows of this size. Its first word there is `first`.
    pub fn on(table: SharedTable, size: ForestSize, first: usize) -> Forest
        requires size { IsSize size }
        requires table { IsPlaced table.value.shared.table_id.words table.value.shared.key size first }
        ensures { (result.table ≡ table) × (result.size ≡ size) }
    {
        Forest { table, size, first }
    }

    /// A pass with the tags that a seat of the table has of the second part.
    pub fn pass(&self, seat: RunSeat) -> JobPass
        requires seat { IsIdleSeatOf self.now.table.value.shared.table_id self.now.table.value.shared.key seat }
        ensures of { IsOf self.now result }
        ensures tags { (seen_by result).tags ≡ (jobs_in seat.me.0).tags }
        ensures none { (t : ℕ) → has_tag t (jobs_in seat.me.0).tags ≡ true → entries_of doer t (jobs_in seat.me.0).seen ≡ []
            → NothingOf t (floor_seen (seen_by result)) }
    {
        let mut seat = seat;
        load_in::<RunEntry, RunKey, RunHistory, Deed, ForestSize, JobHistory, SecondPart>(
            &self.table.shared,
            &mut seat,
            self.first,
            0,
        );
        JobPass { seat }
    }

    /// How many rows it has.
    pub fn rows(&self) -> u16
        ensures { result ≡ self.now.size.rows }
    {
        self.size.rows
    }

    /// A pass of a tag that was not given out before. It has seen what the first pass has seen, and has done nothing.
    pub fn split(&self, pass: &mut JobPass, tag: Tag) -> JobPass
        requires of { IsOf self.now pass.old }
        requires new { ((seen_by pass.old).chief ≡ true) × (has_tag tag (seen_by pass.old).given ≡ false) }
        ensures of { IsOf self.now pass.new }
        ensures same { floor_seen (seen_by pass.new) ≡ floor_seen (seen_by pass.old) }
        ensures gives { GivesTags (tag ∷ (seen_by pass.old).given) pass.new }
        ensures own { IsOwn self.now result tag }
        ensures sees { floor_seen (seen_by result) ≡ record (floor_seen (seen_by pass.old)) { callers = λ t. has_tag t (tag ∷ []) } }
        ensures none { NothingOf tag (floor_seen (seen_by result)) }
    {
        let seat = split_in::<
            RunEntry,
            RunKey,
            RunHistory,
            Deed,
            ForestSize,
            JobHistory,
            SecondPart,
        >(&self.table.shared, &mut pass.seat, tag as u64);
        JobPass { seat }
    }

    /// Afterwards `a` has seen all that `b` had seen, and has done what it had done.
    pub fn meet(&self, a: &mut JobPass, b: &mut JobPass)
        requires a { IsOf self.now a.old }
        requires b { IsOf self.now b.old }
        ensures a { IsOf self.now a.new }
        ensures b { IsOf self.now b.new }
        ensures met { MeetAnswer (floor_seen (seen_by a.old)) (floor_seen (seen_by b.old)) (floor_seen (seen_by a.new)) }
        ensures giving { SameGiving a.old a.new }
        ensures same { seen_by b.new ≡ seen_by b.old }
    {
        meet_in::<RunEntry, RunKey, RunHistory, Deed, ForestSize, JobHistory, SecondPart>(
            &self.table.shared,
            &mut a.seat,
            &mut b.seat,
        )
    }

    /// The pass hears a seat of the table, of whichever part: afterwards it has seen all that the seat had seen.
    pub fn hear(&self, pass: &mut JobPass, other: &mut RunSeat)
        requires of { IsOf self.now pass.old }
        requires other { other.old.table_id ≡ self.now.table.value.shared.table_id }
        ensures of { IsOf self.now pass.new }
        ensures other { SameSeat other.old other.new × (other.new.me.0 ≡ other.old.me.0) }
        ensures looked { (who : ℕ) → has_tag who (seen_by pass.old).tags ≡ true
            → Looked who [] (floor_seen (seen_by pass.old)) (floor_seen (seen_by pass.new)) }
        ensures giving { SameGiving pass.old pass.new }
        ensures heard { IsPrefix other.old.me.0.seen pass.new.seat.me.0.seen }
    {
        hear::<
            RunEntry,
            RunKey,
            RunHistory,
            Deed,
            ForestSize,
            JobHistory,
            SecondPart,
            Entry,
            Layout,
            CellHistory,
            FirstPart,
        >(&self.table.shared, &mut pass.seat, other)
    }

    /// `main` takes in what another pass has seen and done, and its tags.
    pub fn end(&self, main: &mut JobPass, pass: JobPass)
        requires main { IsOf self.now main.old }
        requires pass { IsOf self.now pass }
        ensures main { IsOf self.now main.new }
        ensures ended { EndAnswer (floor_seen (seen_by main.old)) (floor_seen (seen_by pass)) (floor_seen (seen_by main.new)) }
        ensures giving { SameGiving main.old main.new }
    {
        let JobPass { seat } = pass;
        end_in::<RunEntry, RunKey, RunHistory, Deed, ForestSize, JobHistory, SecondPart>(
            &self.table.shared,
            &mut main.seat,
            seat,
        )
    }
}
