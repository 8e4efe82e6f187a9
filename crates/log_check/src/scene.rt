//! Where a run stands, as its lines say, and whether a line may come next. Nothing is claimed of it: it says which coroutine is worth a
//! poll.

use crate::plan::{NOWHERE, Plan};
use crate::polled::written_by;
use crate::queues::{Change, NO_CHANGE, Queues};
use crate::rows::{JobChange, JobStep, NO_ROW, Rows};
use crate::sleepers::{Sleepers, Things, UNKNOWN};
use channel_model::{Act, ChannelNote, Settled};
use co_base::{ChannelId, Row, Tag, WaitId};
use engine_one::Trial;
use gathered::{Gathered, at};
use history_text::Line;
use job_model::{End, JobAct, JobNote};
use note_book::{Item, Notes};
use script_reader::Script;
use std::alloc::Global;

/// How many lines of a poll are looked at, if they are those of a select.
const CLAUSES: usize = 16;

/// How soon a coroutine is to be polled whose line this is.
#[derive(Clone, Copy, PartialEq)]
pub(crate) enum Rank {
    /// Its line may come, and no other line is against it.
    Now,
    /// Its line may come, but another is left that could not come then.
    Held,
    /// It cancels a Job.
    Cancels,
    /// It may not come, as far as is seen here.
    Never,
}

/// Channels and Jobs.
#[derive(Drop)]
pub(crate) struct State {
    queues: Queues,
    rows: Rows,
}

/// Channels and Jobs, and what is to be taken back.
#[derive(Drop)]
pub(crate) struct Scene {
    pub(crate) state: State,
    sleepers: Sleepers,
    changes: Gathered<Change>,
    job_changes: Gathered<JobChange>,
    /// Behind each poll how many changes there were.
    marks: Gathered<(usize, usize)>,
}

/// What is looked at: the lines, what they say of the whole run, and the run.
#[derive(Clone, Copy)]
pub(crate) struct View<'a> {
    pub(crate) plan: &'a Plan,
    pub(crate) lines: &'a [Line],
    pub(crate) trial: &'a Trial<Notes>,
}

impl View<'_> {
    /// The line of a coroutine that has this number among its own.
    fn item(self, tag: Tag, number: usize) -> Option<Item> {
        let line = self.plan.line_of(tag, number) as usize;
        if line < self.lines.len() {
            Some(self.lines[line].item)
        } else {
            None
        }
    }

    fn is_resolved(self, w: WaitId) -> bool {
        self.trial.clause_of(w).is_some()
    }
}

fn rank_if(good: bool) -> Rank {
    if good { Rank::Now } else { Rank::Never }
}

/// Whether a line is one of several that one poll of a select writes.
fn is_of_select(note: ChannelNote) -> bool {
    matches!(
        note,
        ChannelNote::Empty { .. }
            | ChannelNote::Full { .. }
            | ChannelNote::Made(Act::Offer { .. } | Act::Await { .. })
    )
}

/// What a coroutine does behind the close of a channel.
#[derive(Clone, Copy)]
struct AtClose {
    /// How many receivers are told.
    told: u32,
    /// How many elements are discarded.
    drained: u32,
    /// Whether the channel is cancelled.
    voided: bool,
}

impl AtClose {
    /// The same with a line more, if it is one of what is done behind the close of this channel.
    fn and(self, channel: ChannelId, item: Option<Item>) -> Option<AtClose> {
        let Some(Item::Channel(ChannelNote::Made(act))) = item else {
            return None;
        };
        let (c, told, drained, voided) = match act {
            Act::WakeClosed { c, .. } => (c, 1, 0, false),
            Act::Drain { c, .. } => (c, 0, 1, false),
            Act::Void { c } => (c, 0, 0, true),
            _ => return None,
        };
        if c != channel {
            return None;
        }
        Some(AtClose {
            told: self.told.saturating_add(told),
            drained: self.drained.saturating_add(drained),
            voided: self.voided || voided,
        })
    }
}

/// What is done behind a close of this channel.
fn met_at_close(view: View, tag: Tag, number: usize, channel: ChannelId) -> AtClose {
    let mut met = AtClose {
        told: 0,
        drained: 0,
        voided: false,
    };
    for next in number.saturating_add(1)..view.plan.own_count(tag) {
        let Some(more) = met.and(channel, view.item(tag, next)) else {
            break;
        };
        met = more;
    }
    met
}

/// The number of what a coroutine waits for whose next line is this answer of a call.
fn until_note(things: Things, note: ChannelNote) -> usize {
    match note {
        ChannelNote::SendClosed { c, .. }
        | ChannelNote::TrySendClosed { c, .. }
        | ChannelNote::ReceiveClosed { c, .. }
        | ChannelNote::TryReceiveClosed { c, .. }
        | ChannelNote::AlreadyClosed { c, .. }
        | ChannelNote::Full { c, .. }
        | ChannelNote::Empty { c } => things.of_channel(c),
        _ => UNKNOWN,
    }
}

impl State {
    // ---- which line may come

    /// How soon a coroutine is to be polled that has written so many of its lines.
    pub(crate) fn rank(&self, view: View, tag: Tag, number: usize) -> Rank {
        match view.item(tag, number) {
            Some(Item::Channel(note)) => self.rank_of_note(view, tag, number, note),
            Some(Item::Job(note)) => self.rank_of_job(view, tag, number, note),
            None => Rank::Never,
        }
    }

    fn rank_of_note(&self, view: View, tag: Tag, number: usize, note: ChannelNote) -> Rank {
        if !self.note_may_come(view, tag, number, note) {
            Rank::Never
        } else if self.is_held(note) || !self.select_may_come(view, tag, number, note) {
            Rank::Held
        } else {
            Rank::Now
        }
    }

    /// Whether the lines behind this one may come with it, if they are those of one select.
    fn select_may_come(&self, view: View, tag: Tag, first: usize, note: ChannelNote) -> bool {
        let mut note = note;
        let mut number = first;
        for _ in 1..CLAUSES {
            number = number.saturating_add(1);
            let Some(Item::Channel(next)) = view.item(tag, number) else {
                return true;
            };
            let settles = matches!(next, ChannelNote::Made(Act::Settle { .. }));
            if settles || !is_of_select(note) {
                return true;
            }
            if !self.note_may_come(view, tag, number, next) {
                return false;
            }
            note = next;
        }
        true
    }

    /// Whether a line may come that is of a channel.
    fn note_may_come(&self, view: View, tag: Tag, number: usize, note: ChannelNote) -> bool {
        match note {
            ChannelNote::Made(act) => self.act_may_come(view, tag, number, act),
            ChannelNote::SendClosed { c, .. }
            | ChannelNote::TrySendClosed { c, .. }
            | ChannelNote::AlreadyClosed { c, .. } => self.queues.of(c).closed,
            ChannelNote::ReceiveClosed { c, .. } | ChannelNote::TryReceiveClosed { c, .. } => {
                self.queues.is_empty(view.plan, c, true)
            }
            ChannelNote::Empty { c } => self.queues.is_empty(view.plan, c, false),
            ChannelNote::Full { c, .. } => self.queues.has_no_room(view.plan, c),
            ChannelNote::Spent { .. } => true,
            ChannelNote::Partner { .. }
            | ChannelNote::MainResolved { .. }
            | ChannelNote::Late { .. } => false,
        }
    }

    fn act_may_come(&self, view: View, tag: Tag, number: usize, act: Act) -> bool {
        let plan = view.plan;
        match act {
            Act::Put { c, place, .. } | Act::Offer { c, place, .. } | Act::Await { c, place, .. } =>
                { self.queues.may_begin(plan, c, place) }
            Act::Hand { c, place, .. } => self.queues.may_be_met(plan, c, place, true),
            Act::Take { c, place, .. } => self.queues.may_be_met(plan, c, place, false),
            Act::Close { c, .. } => self.may_close(view, tag, number, c),
            Act::Settle { w, outcome } => self.may_settle(view, tag, number, w, outcome),
            Act::Withdraw { w, .. } => self.may_withdraw(view, w),
            _ => true,
        }
    }

    fn may_withdraw(&self, view: View, w: WaitId) -> bool {
        !view.is_resolved(w) && self.queues.wait_may_leave(view.plan, w)
    }

    /// Whether a channel may be closed: as many receivers are told, or elements discarded, as stand there.
    fn may_close(&self, view: View, tag: Tag, number: usize, c: ChannelId) -> bool {
        let queue = self.queues.of(c);
        if !queue.may_close() {
            return false;
        }
        let front = self.queues.front(view.plan, c);
        let met = met_at_close(view, tag, number, c);
        let standing = queue.standing;
        (!front.is_receiver() || met.told == standing)
            && (!front.is_element() || !met.voided || met.drained == standing)
    }

    fn may_settle(&self, view: View, tag: Tag, number: usize, w: WaitId, outcome: Settled) -> bool {
        let line = view.plan.line_of(tag, number);
        let row = if line == NOWHERE {
            tag
        } else {
            view.plan.inner_of(line as usize)
        };
        let cancelling = self.rows.of(row).cancelling;
        let leaves = w.channel == view.plan.done_channel(row);
        match outcome {
            Settled::Cancelled => true,
            Settled::Undelivered(_) => cancelling && view.is_resolved(w),
            Settled::Value(_, _) | Settled::Sent(_) | Settled::Closed(_, _) => {
                view.is_resolved(w) && (leaves || !cancelling)
            }
        }
    }

    /// Whether another line is left that may come now, but not after this one.
    fn is_held(&self, note: ChannelNote) -> bool {
        match note {
            ChannelNote::Made(Act::Put { c, .. } | Act::Offer { c, .. }) => {
                let queue = self.queues.of(c);
                queue.empties > 0 && queue.standing == 0
            }
            ChannelNote::Made(Act::Await { c, .. } | Act::Take { c, .. }) => {
                let queue = self.queues.of(c);
                queue.fulls > 0 && queue.is_full()
            }
            _ => false,
        }
    }

    fn rank_of_job(&self, view: View, tag: Tag, number: usize, note: JobNote) -> Rank {
        match note {
            JobNote::Saw { row } => {
                rank_if(self.rows.of(row).cancelling && self.may_give_up(view, tag, number))
            }
            JobNote::SawEnd { row, .. } => rank_if(self.rows.of(row).ended),
            JobNote::Made(act) => self.rank_of_act(view, tag, number, act),
            _ => Rank::Now,
        }
    }

    fn rank_of_act(&self, view: View, tag: Tag, number: usize, act: JobAct) -> Rank {
        match act {
            JobAct::Attach {
                parent,
                row,
                cancelled,
                ..
            } => rank_if(self.rows.of(parent).cancelling == cancelled && self.rows.may_attach(row)),
            JobAct::EndBody { row, .. } => {
                rank_if(self.end_waits_for(view, tag, number, row) == UNKNOWN)
            }
            JobAct::Cancel { .. } if self.may_cancel(view, tag, number) => Rank::Cancels,
            JobAct::Cancel { .. } => Rank::Never,
            _ => Rank::Now,
        }
    }

    /// Whether the wait that a coroutine gives up stands, or was resolved, as its next line says.
    fn may_give_up(&self, view: View, tag: Tag, number: usize) -> bool {
        let Some(Item::Channel(ChannelNote::Made(act))) = view.item(tag, number.saturating_add(1))
        else {
            return true;
        };
        match act {
            Act::Withdraw { w, .. } => self.may_withdraw(view, w),
            Act::Settle {
                w,
                outcome: Settled::Undelivered(_),
            } => view.is_resolved(w),
            _ => true,
        }
    }

    /// Whether the Jobs may be cancelled that a coroutine cancels from this line on, and no others are below them.
    fn may_cancel(&self, view: View, tag: Tag, number: usize) -> bool {
        let mut count = 0u32;
        let mut below = 0u32;
        for next in number..view.plan.own_count(tag) {
            let Some(Item::Job(JobNote::Made(JobAct::Cancel { row, .. }))) = view.item(tag, next)
            else {
                break;
            };
            if !self.rows.may_cancel(row) {
                return false;
            }
            count = count.saturating_add(1);
            below = below.saturating_add(self.rows.of(row).calm);
        }
        below.saturating_add(1) == count
    }

    /// The number of what a body waits for that is to end with the ends of Jobs that follow; `UNKNOWN`, if it waits for nothing. A Job ends
    /// with the last of its children and its body.
    fn end_waits_for(&self, view: View, tag: Tag, number: usize, first: Row) -> usize {
        let mut row = first;
        let mut is_last = self.rows.of(row).living == 0;
        let mut next = number.saturating_add(1);
        for _ in number..view.plan.own_count(tag) {
            if !self.may_go_on(row, is_last, view.item(tag, next)) {
                return view.plan.things.of_job(row);
            }
            let parent = self.rows.of(row).parent;
            if !is_last || parent == NO_ROW {
                break;
            }
            let Some(behind) = self.after_finish(view, tag, next, row) else {
                return view.plan.things.of_channel(view.plan.done_channel(row));
            };
            next = behind;
            row = parent;
            let job = self.rows.of(row);
            is_last = job.living < 2 && job.body_ended;
        }
        UNKNOWN
    }

    /// Whether an item ends a Job as it is to end where nothing of it lives any more; if something does, whether it ends no Job.
    fn may_go_on(&self, row: Row, is_last: bool, item: Option<Item>) -> bool {
        match item {
            Some(Item::Job(JobNote::Made(JobAct::Finish { row: of, end }))) => {
                let cancelled = matches!(end, End::Cancelled(_));
                is_last && of == row && cancelled == self.rows.of(row).cancelling
            }
            _ => !is_last,
        }
    }

    /// The number of the line behind the end of a Job, if all who wait for it are told.
    fn after_finish(&self, view: View, tag: Tag, number: usize, row: Row) -> Option<usize> {
        let close = number.saturating_add(1);
        let c = view.plan.done_channel(row);
        let told = met_at_close(view, tag, close, c).told;
        let queue = self.queues.of(c);
        if queue.may_close() && told == queue.standing {
            Some(close.saturating_add(2).saturating_add(told as usize))
        } else {
            None
        }
    }

    // ---- who is worth a look

    /// The number of what a coroutine waits for whose line may not come.
    fn until(&self, view: View, tag: Tag, number: usize) -> usize {
        match view.item(tag, number) {
            Some(Item::Channel(ChannelNote::Made(act))) => self.until_act(view, act),
            Some(Item::Channel(note)) => until_note(view.plan.things, note),
            Some(Item::Job(note)) => self.until_job(view, tag, number, note),
            None => UNKNOWN,
        }
    }

    fn until_job(&self, view: View, tag: Tag, number: usize, note: JobNote) -> usize {
        let row = match note {
            JobNote::Saw { row } | JobNote::SawEnd { row, .. } => row,
            JobNote::Made(JobAct::Attach { parent, row, .. }) => {
                if self.rows.may_attach(row) {
                    parent
                } else {
                    row.saturating_sub(1)
                }
            }
            JobNote::Made(JobAct::EndBody { row, .. }) => {
                return self.end_waits_for(view, tag, number, row);
            }
            _ => return UNKNOWN,
        };
        view.plan.things.of_job(row)
    }

    fn until_act(&self, view: View, act: Act) -> usize {
        let plan = view.plan;
        match act {
            Act::Put { c, place, .. } | Act::Offer { c, place, .. } | Act::Await { c, place, .. } =>
                { self.queues.until_begun(plan, c, place) }
            Act::Hand { c, place, .. } | Act::Take { c, place, .. } => {
                self.queues.until_first(plan, c, place)
            }
            Act::Settle { w, .. } if !view.is_resolved(w) => {
                plan.things.of_place(plan.place_at(w.channel, w.place))
            }
            Act::Close { c, .. } => plan.things.of_channel(c),
            _ => UNKNOWN,
        }
    }

    /// How soon a coroutine is to be polled, and the number of what has to happen before, if its line may not come.
    fn look(&self, view: View, tag: Tag) -> (Rank, usize) {
        let number = written_by(view.trial, tag);
        let rank = self.rank(view, tag, number);
        if rank == Rank::Never {
            (rank, self.until(view, tag, number))
        } else {
            (rank, UNKNOWN)
        }
    }
}

impl Scene {
    /// Before the first line.
    pub(crate) fn new(alloc: Global, plan: &Plan, script: &Script, lines: &[Line]) -> Scene {
        Scene {
            state: State {
                queues: Queues::new(alloc, plan),
                rows: Rows::new(alloc, plan, script, lines),
            },
            sleepers: Sleepers::new(alloc, plan, script),
            changes: Gathered::new(alloc),
            job_changes: Gathered::new(alloc),
            marks: Gathered::new(alloc),
        }
    }

    /// The next coroutine that is awake and is to be polled now. Those whose line may not come sleep until something happens.
    pub(crate) fn next_awake(&mut self, view: View) -> Option<Tag> {
        for _ in 0..self.sleepers.awake_count() {
            let tag = self.sleepers.next()?;
            let (rank, until) = self.state.look(view, tag);
            if rank == Rank::Now {
                return Some(tag);
            }
            self.sleepers.sleep(tag, until);
        }
        None
    }

    /// A coroutine that was polled is to be looked at before all others, or after them.
    pub(crate) fn look_at(&mut self, tag: Tag, first: bool) {
        self.sleepers.look_at(tag, first);
    }

    // ---- what was written

    /// The lines of a coroutine were written that have these numbers among its own, up to the second.
    pub(crate) fn keep_lines(
        &mut self,
        plan: &Plan,
        lines: &[Line],
        tag: Tag,
        from: usize,
        to: usize,
    ) {
        for number in from..to {
            let line = plan.line_of(tag, number) as usize;
            if line < lines.len() {
                self.keep(plan, lines[line].item, line);
            }
        }
    }

    /// A line was written.
    fn keep(&mut self, plan: &Plan, item: Item, line: usize) {
        let from = self.changes.len();
        if let Item::Channel(note) = item {
            self.state.queues.add_changes(plan, note, &mut self.changes);
        }
        let act = self.state.rows.change_by(item);
        let calm = self
            .state
            .rows
            .change_of(plan.needs_calm(item, line), JobStep::WasCalm);
        let things = plan.things;
        self.make_changes(things, from);
        self.keep_job(things, act);
        self.keep_job(things, calm);
    }

    /// Makes the changes of channels from this number on.
    fn make_changes(&mut self, things: Things, from: usize) {
        for number in from..self.changes.len() {
            let change = at(self.changes.as_slice(), number, NO_CHANGE);
            self.state.queues.change(change, false);
            self.sleepers.wake(things.of_place(change.at));
            self.sleepers.wake(things.of_channel(change.c));
        }
    }

    /// Makes the change of a Job, if it is one.
    fn keep_job(&mut self, things: Things, change: JobChange) {
        if change.row == NO_ROW {
            return;
        }
        self.job_changes.add(change);
        self.state.rows.change(change, false);
        if change.is_of_row() {
            self.sleepers.wake(things.of_job(change.row));
        }
        if change.is_of_parent() {
            self.sleepers.wake(things.of_job(change.parent));
        }
    }

    /// A poll was written.
    pub(crate) fn mark(&mut self) {
        self.marks.add((self.changes.len(), self.job_changes.len()));
    }

    /// Whether memory held all that was kept.
    pub(crate) fn is_whole(&self) -> bool {
        let state = self.state.queues.is_whole() && self.state.rows.is_whole();
        let changes = self.changes.is_whole() && self.job_changes.is_whole();
        state && changes && self.sleepers.is_whole() && self.marks.is_whole()
    }

    /// Takes the last poll back.
    pub(crate) fn take_back(&mut self) {
        let _last = self.marks.pop();
        self.sleepers.forget();
        let last = self.marks.len().saturating_sub(1);
        let (changes, job_changes) = at(self.marks.as_slice(), last, (0, 0));
        for _ in changes..self.changes.len() {
            if let Some(change) = self.changes.pop() {
                self.state.queues.change(change, true);
            }
        }
        for _ in job_changes..self.job_changes.len() {
            if let Some(change) = self.job_changes.pop() {
                self.state.rows.change(change, true);
            }
        }
    }
}
