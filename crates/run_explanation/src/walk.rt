//! At which line of its block each note of a coroutine was made, as far as that can be told, for hints.
//!
//! The lines of a block are passed one after another, and each note is that of the next line that can make it. Notes which are no line's
//! own, as what a close woke, are passed over.

use crate::notes::{Note, is_in, note_of};
use crate::verbs::{
    ALREADY_CLOSED, ATTACH, AWAIT, CLOSE, DRAIN, DROP, EMPTY, END_BODY, FAIL, FULL, HAND, OFFER,
    PUT, RECEIVE_CLOSED, SAW, SAW_END, SEND_CLOSED, SETTLE, SPENT, SPURN, TAKE, TRY_RECEIVE_CLOSED,
    TRY_SEND_CLOSED, WITHDRAW,
};
use gathered::{Gathered, NOWHERE, at, between};
use script_reader::{Instruction, Script, is_end, opens_lines};
use std::alloc::Global;

/// How many lines may be passed in all, to find those of the notes.
const BUDGET: u32 = 50_000_000;

/// A line that is open: a repeat with turns left, an each, or a scope.
#[derive(Clone, Copy)]
struct Open {
    head: usize,
    turns: u32,
    scope: bool,
}

/// None; that of an `end` that closes nothing.
const NO_OPEN: Open = Open {
    head: NOWHERE,
    turns: 0,
    scope: false,
};

/// How far a coroutine got.
#[derive(Drop)]
pub(crate) struct Walk<'s> {
    script: &'s Script,
    tag: u32,
    block: u16,
    code: &'s [Instruction],
    /// How many of its notes were made before its first line.
    before: usize,
    /// The line that is next, or at which it waits.
    next: usize,
    waits: bool,
    /// Its body ended or broke off.
    over: bool,
    /// Its notes are not those of its lines.
    lost: bool,
    revoked: bool,
    /// The line of the note before.
    last: usize,
    open: Gathered<Open>,
    /// How many lines may still be passed, by this coroutine and those after it.
    budget: u32,
}

/// What comes of a line and a note.
#[derive(Clone, Copy)]
struct Step {
    /// The line that the note was made at; `SILENT`, if the line makes none; or `NOWHERE`.
    made_at: usize,
    /// The line that is next, or at which it waits.
    next: usize,
    waits: bool,
    /// The body broke off.
    over: bool,
    /// The line that it enters; or `NO_OPEN`.
    enters: Open,
}

/// Where a line makes no note: go on. It is behind all lines.
const SILENT: usize = usize::MAX - 1;

const SENDS: u32 = HAND | PUT | OFFER | SEND_CLOSED | SPENT;

const RECEIVES: u32 = TAKE | AWAIT | RECEIVE_CLOSED | SPENT;

const OWN: u32 = SENDS
    | RECEIVES
    | TRY_SEND_CLOSED
    | TRY_RECEIVE_CLOSED
    | FULL
    | EMPTY
    | CLOSE
    | ALREADY_CLOSED
    | ATTACH
    | FAIL;

/// A note of these ends its body.
const ENDS: u32 = SPENT | FAIL;

/// How a coroutine without a scope of its own is launched.
const LAUNCHED: [&[u8]; 2] = [b"plain", b"lazy"];

const SCOPES: [&[u8]; 2] = [b"scope", b"supervisor"];

/// So a wait ends that breaks the body off.
const BROKEN: [&[u8]; 2] = [b"cancelled", b"undelivered"];

// ---- the lines of a block

/// The number of the block that a coroutine runs.
fn block_of(script: &Script, tag: u32) -> u16 {
    if tag < u32::from(script.coroutines()) {
        script.coroutine_of(tag as u16)
    } else {
        u16::MAX
    }
}

/// The lines of a block.
pub(crate) fn code_in(script: &Script, block: u16) -> &[Instruction] {
    match script.blocks().get(block as usize) {
        Some(coroutine) => coroutine.code.as_slice(),
        None => &[],
    }
}

/// The lines of a coroutine.
pub(crate) fn code_of(script: &Script, tag: u32) -> &[Instruction] {
    code_in(script, block_of(script, tag))
}

/// How many coroutines the script spawns: main attaches them before its first line.
fn spawned(script: &Script) -> usize {
    let mut count = 0usize;
    for spawn in script.spawns() {
        count = count.saturating_add(spawn.count as usize);
    }
    count
}

/// The line at this place; an `end` behind the last.
pub(crate) fn line_at(code: &[Instruction], place: usize) -> Instruction {
    at(code, place, Instruction::End)
}

/// The place of the `end` that closes what the line at this place opens; behind the last line where there is none.
pub(crate) fn closing(code: &[Instruction], head: usize) -> usize {
    let mut depth = 0u32;
    let mut place = head;
    for line in between(code, head.saturating_add(1), code.len()) {
        place = place.saturating_add(1);
        if is_end(*line) {
            if depth == 0 {
                return place;
            }
            depth -= 1;
        } else if opens_lines(*line) {
            depth = depth.saturating_add(1);
        }
    }
    code.len()
}

/// The verbs of the notes that a line makes on its channel; none for a line without one.
fn verbs_of(line: Instruction) -> u32 {
    match line {
        Instruction::Send { .. } => SENDS,
        Instruction::TrySend { .. } => HAND | PUT | FULL | TRY_SEND_CLOSED | SPENT,
        Instruction::Receive { .. } | Instruction::Each { .. } => RECEIVES,
        Instruction::TryReceive { .. } => TAKE | EMPTY | TRY_RECEIVE_CLOSED | SPENT,
        Instruction::Close { .. } | Instruction::CancelChannel { .. } => CLOSE | ALREADY_CLOSED,
        _ => 0,
    }
}

/// The channel of a line that is on one.
fn channel_of(line: Instruction) -> u16 {
    match line {
        Instruction::Send { c, .. }
        | Instruction::TrySend { c, .. }
        | Instruction::Receive { c }
        | Instruction::Each { c }
        | Instruction::TryReceive { c }
        | Instruction::Close { c }
        | Instruction::CancelChannel { c }
        | Instruction::OnSend { c, .. }
        | Instruction::OnReceive { c } => c,
        _ => u16::MAX,
    }
}

/// Whether a line is a clause of a select.
pub(crate) fn is_clause(line: Instruction) -> bool {
    matches!(
        line,
        Instruction::OnSend { .. } | Instruction::OnReceive { .. }
    )
}

/// The clause of the select at this place that is on this channel.
fn clause_on(code: &[Instruction], select: usize, channel: u16) -> usize {
    let mut place = select;
    for line in between(code, select.saturating_add(1), closing(code, select)) {
        place = place.saturating_add(1);
        if is_clause(*line) && channel_of(*line) == channel {
            return place;
        }
    }
    NOWHERE
}

// ---- a line and a note

/// A line that is passed: this one is next.
fn passed(next: usize) -> Step {
    Step {
        made_at: SILENT,
        next,
        waits: false,
        over: false,
        enters: NO_OPEN,
    }
}

/// A line that is entered.
fn entered(made_at: usize, head: usize, turns: u32, scope: bool) -> Step {
    Step {
        made_at,
        next: head.saturating_add(1),
        waits: false,
        over: false,
        enters: Open { head, turns, scope },
    }
}

/// A line that made a note, if it is known where: by some verbs it stays, else another line is next; by some the body ends.
fn made(note: &Note<'_>, made_at: usize, here: usize, stays: u32, next: usize, ends: u32) -> Step {
    Step {
        made_at,
        next: if note.is_one_of(stays) { here } else { next },
        waits: note.begins(),
        over: note.is_one_of(ends),
        enters: NO_OPEN,
    }
}

/// A line that stands for itself, and made a note if it is so.
fn made_if(good: bool, note: &Note<'_>, here: usize) -> Step {
    let made_at = if good { here } else { NOWHERE };
    let next = here.saturating_add(1);
    made(note, made_at, here, AWAIT | OFFER | ENDS, next, ENDS)
}

/// Whether a line makes a note on its channel.
fn is_on_channel(line: Instruction, note: &Note<'_>) -> bool {
    note.is_one_of(verbs_of(line)) & (channel_of(line) == note.channel)
}

/// Whether a line that stands for itself makes a note.
fn makes(line: Instruction, note: &Note<'_>) -> bool {
    match line {
        Instruction::Launch { .. } => is_in(note.word(7), &LAUNCHED),
        Instruction::Join { .. } | Instruction::Await { .. } => note.is_done(),
        Instruction::Fail { .. } => note.is_one_of(FAIL),
        _ => is_on_channel(line, note),
    }
}

fn step_of_scope(note: &Note<'_>, here: usize) -> Step {
    let good = is_in(note.word(7), &SCOPES);
    entered(if good { here } else { NOWHERE }, here, 0, true)
}

fn step_of_each(code: &[Instruction], note: &Note<'_>, here: usize) -> Step {
    let good = is_on_channel(line_at(code, here), note);
    let made_at = if good { here } else { NOWHERE };
    if note.is_one_of(TAKE) {
        entered(made_at, here, 1, false)
    } else {
        made(note, made_at, here, AWAIT, behind(code, here), 0)
    }
}

/// The first line behind the block that begins at this one.
fn behind(code: &[Instruction], head: usize) -> usize {
    closing(code, head).saturating_add(1)
}

/// An `end` closes this line: a scope's may be waited for, a repeat has one more turn, and an each is looked at again.
fn step_of_end(code: &[Instruction], open: Open, note: &Note<'_>, here: usize) -> Step {
    if open.scope {
        return made_if(note.is_done(), note, here);
    }
    if open.turns == 0 {
        return passed(here.saturating_add(1));
    }
    match line_at(code, open.head) {
        Instruction::Repeat { .. } => entered(SILENT, open.head, open.turns - 1, false),
        _ => passed(open.head),
    }
}

/// What comes of the line at this place, which closes another if it is an `end`, and a note.
fn step_of(code: &[Instruction], open: Open, note: &Note<'_>, here: usize) -> Step {
    let line = line_at(code, here);
    match line {
        Instruction::Repeat { turns } => entered(SILENT, here, turns.saturating_sub(1), false),
        Instruction::Each { .. } => step_of_each(code, note, here),
        Instruction::Scope { .. } => step_of_scope(note, here),
        Instruction::Select => {
            let clause = clause_on(code, here, note.channel);
            let stays = AWAIT | OFFER | FULL | EMPTY;
            made(note, clause, here, stays, behind(code, here), 0)
        }
        Instruction::End => step_of_end(code, open, note, here),
        Instruction::Yield
        | Instruction::Start { .. }
        | Instruction::Cancel { .. }
        | Instruction::SetResult { .. }
        | Instruction::OnSend { .. }
        | Instruction::OnReceive { .. } => passed(here.saturating_add(1)),
        _ => made_if(makes(line, note), note, here),
    }
}

/// What comes of the end of a wait at the line at this place, if it ended so.
fn step_of_settle(code: &[Instruction], how: &[u8], revoked: bool, here: usize) -> Step {
    let line = line_at(code, here);
    let is_select = matches!(line, Instruction::Select);
    let is_each = matches!(line, Instruction::Each { .. });
    let breaks = is_in(how, &BROKEN);
    if is_each & !breaks & (how != b"closed".as_slice()) {
        return entered(here, here, 1, false);
    }
    let leaves = is_select | is_each;
    let next = if leaves {
        behind(code, here)
    } else {
        here.saturating_add(1)
    };
    Step {
        made_at: here,
        next: if breaks { here } else { next },
        waits: false,
        over: breaks & (!is_select | !revoked),
        enters: NO_OPEN,
    }
}

/// Whether a body ended by a note, or saw an end that breaks it off. That of a scope ends by a note on the scope's row.
fn breaks_off(note: &Note<'_>) -> bool {
    note.is_one_of(SAW)
        | (note.is_one_of(END_BODY) & (note.row(2) == note.tag))
        | (note.is_one_of(SAW_END) & (note.word(3) != b"completed".as_slice()))
}

// ---- the walk

/// A walk over the blocks of a script that has not begun.
pub(crate) fn walk_of<'s>(alloc: Global, script: &'s Script) -> Walk<'s> {
    Walk {
        script,
        tag: u32::MAX,
        block: u16::MAX,
        code: &[],
        before: 0,
        next: 0,
        waits: false,
        over: false,
        lost: false,
        revoked: false,
        last: NOWHERE,
        open: Gathered::new(alloc),
        budget: BUDGET,
    }
}

impl<'s> Walk<'s> {
    /// The next note of the books, which a coroutine made: they are in the order of its coroutines.
    pub(crate) fn note<'a>(&mut self, tag: u32, line: &'a [u8]) -> Note<'a> {
        if tag != self.tag {
            self.begin(tag);
        }
        let mut note = note_of(self.script.channels(), tag, self.block, line);
        note.made_at = self.take(&note);
        note.left_from = self.left_from();
        note
    }

    /// Goes to the first line of a coroutine.
    fn begin(&mut self, tag: u32) {
        self.tag = tag;
        self.block = block_of(self.script, tag);
        self.code = code_in(self.script, self.block);
        self.before = if tag == 0 { spawned(self.script) } else { 0 };
        self.next = 0;
        self.waits = false;
        self.over = false;
        self.lost = false;
        self.revoked = false;
        self.last = NOWHERE;
        self.open.clear();
    }

    /// Whether memory ran out.
    pub(crate) fn is_full(&self) -> bool {
        self.open.full
    }

    /// The first line that may still be run.
    fn left_from(&self) -> usize {
        if self.over {
            return self.code.len();
        }
        if self.lost {
            return 0;
        }
        for open in self.open.as_slice() {
            if open.turns > 0 {
                return open.head;
            }
        }
        if self.waits {
            self.next.saturating_add(1)
        } else {
            self.next
        }
    }

    /// The line that a note was made at, if that can be told.
    fn take(&mut self, note: &Note<'_>) -> usize {
        if self.before > 0 {
            self.before -= 1;
            return NOWHERE;
        }
        if note.is_one_of(OWN) & !(note.is_one_of(CLOSE) & note.is_done()) {
            self.last = self.made_at(note);
            return self.last;
        }
        self.pass(note);
        if note.is_one_of(DROP | SPURN | DRAIN) {
            self.last
        } else {
            NOWHERE
        }
    }

    /// Passes a note that is no line's own.
    fn pass(&mut self, note: &Note<'_>) {
        if note.is_one_of(SETTLE) & self.waits {
            let step = step_of_settle(self.code, note.word(3), self.revoked, self.next);
            self.waits = false;
            self.revoked = false;
            self.go(step);
        }
        if note.is_one_of(WITHDRAW) {
            self.revoked = note.word(3) == b"revoked".as_slice();
        }
        self.over = self.over | breaks_off(note);
    }

    /// The line that a note of a line was made at. A body that broke off waits for the ends of its scopes.
    fn made_at(&mut self, note: &Note<'_>) -> usize {
        if self.over {
            if note.is_one_of(AWAIT | RECEIVE_CLOSED) & note.is_done() {
                return self.unwind();
            }
        } else if !self.lost {
            return self.find(note);
        }
        NOWHERE
    }

    /// The `end` of the innermost scope.
    fn unwind(&mut self) -> usize {
        for _open in 0..self.open.len() {
            if let Some(open) = self.open.pop()
                && open.scope
            {
                return closing(self.code, open.head);
            }
        }
        NOWHERE
    }

    fn find(&mut self, note: &Note<'_>) -> usize {
        for _step in 0..self.budget {
            self.budget = self.budget.saturating_sub(1);
            if self.next >= self.code.len() {
                break;
            }
            let open = self.close();
            let step = step_of(self.code, open, note, self.next);
            if step.made_at == NOWHERE {
                break;
            }
            self.go(step);
            if step.made_at != SILENT {
                return step.made_at;
            }
        }
        self.lost = true;
        NOWHERE
    }

    /// What the line that is next closes, if it is an `end`.
    fn close(&mut self) -> Open {
        if !is_end(line_at(self.code, self.next)) {
            return NO_OPEN;
        }
        match self.open.pop() {
            Some(open) => open,
            None => NO_OPEN,
        }
    }

    fn go(&mut self, step: Step) {
        self.next = step.next;
        self.waits = self.waits | step.waits;
        self.over = self.over | step.over;
        if step.enters.head != NOWHERE {
            self.open.add(step.enters);
        }
    }
}
