//! The polls of a state, as far as it is known what they do; those of which it is not known are made once.

ghost use Rattle.std.specs.Prelude.{OnOk};
ghost use Rattle.script_reader.specs.Scripts.{program_of};
ghost use Rattle.engine_one.specs.Trials.{TrialStands};

use crate::aheads::Poll;
use crate::effects::{Change, Effect, Effects, NO_ROOM};
use crate::keys::Keys;
use crate::parts::{Around, Desk, Part, Task, add_poll, poll_made};
use crate::sections::Layout;
use crate::states::hash_of;
use channel_model::{Act, ChannelNote};
use co_base::{ChannelId, Gate, Memory, Tag};
use engine_one::Trial;
use gathered::{Gathered, at, between, put};
use note_book::{Item, Notes};
use script_grammar::Instruction;
use script_reader::Script;
use std::alloc::Global;

/// Of scripts with more coroutines or channels it is not kept what polls do.
const MOST: usize = 256;

/// After so many polls it is asked whether enough of them were known.
const ASKED: u32 = 1024;

/// If too few were, so many states are looked at as if nothing were known.
const LEFT: u32 = 32768;

/// Whether a poll of the script looks at nothing but its coroutine, the Jobs and the channels that it notes. A select stands at several
/// channels at once: who meets it at one takes it away from the others, too.
pub(crate) fn is_plain(script: &Script) -> bool {
    for block in script.blocks() {
        for line in block.code.as_slice() {
            if matches!(*line, Instruction::Select) {
                return false;
            }
        }
    }
    (script.coroutines() as usize) < MOST && script.channels().len() < MOST
}

/// What is known of polls, and the state that is looked at.
#[derive(Drop)]
pub(crate) struct Known {
    layout: Layout,
    effects: Effects,
    /// The contents of the sections of the state that is looked at.
    sections: Gathered<u32>,
    /// The same behind a poll.
    behind: Gathered<u32>,
    ends: Gathered<usize>,
    changes: Gathered<Change>,
    /// How many polls were known of late, and how many were made.
    known: u32,
    made: u32,
    /// So many states are looked at as if nothing were known.
    left: u32,
}

impl Known {
    pub(crate) fn new(alloc: Global, script: &Script) -> Known {
        Known {
            layout: Layout::new(alloc, script),
            effects: Effects::new(alloc),
            sections: Gathered::new(alloc),
            behind: Gathered::new(alloc),
            ends: Gathered::new(alloc),
            changes: Gathered::new(alloc),
            known: 0,
            made: 0,
            left: 0,
        }
    }

    /// Whether to look at the next state by what is known: of the polls of late at least half were known. Where channels have ever new
    /// contents few are, and to look for them takes longer than to make them.
    pub(crate) fn serves(&mut self) -> bool {
        if self.left > 0 {
            self.left -= 1;
            return false;
        }
        if self.known.saturating_add(self.made) >= ASKED {
            if self.made > self.known {
                self.left = LEFT;
            }
            self.known = 0;
            self.made = 0;
        }
        self.left == 0
    }

    /// What stands for the section of a coroutine in the state that is looked at, and for that of the Jobs.
    fn seen_by(&self, tag: Tag) -> (u32, u32) {
        let sections = self.sections.as_slice();
        let own = at(sections, self.layout.place_of(tag as usize), 0);
        (own, at(sections, self.layout.channels(), 0))
    }

    /// Whether memory held all that was kept.
    pub(crate) fn is_whole(&self) -> bool {
        let states = self.sections.is_whole() && self.behind.is_whole();
        let kept = self.changes.is_whole() && self.effects.is_whole();
        states && kept && self.ends.is_whole() && self.layout.is_whole()
    }

    /// What a poll of this coroutine does in the state that is looked at, if it is known.
    fn effect_of(&self, tag: Tag) -> Option<Effect> {
        self.effects
            .find(self.sections.as_slice(), tag, self.seen_by(tag))
    }
}

/// Adds the polls that do something in a state; or one of them alone, if that suffices. The answer is no, and nothing is added, if its
/// sections cannot be kept.
pub(crate) fn add_by_effects<G: Gate>(
    alloc: Global,
    around: &Around,
    gate: &G,
    desk: &mut Desk,
    part: &mut Part,
) -> Result<bool, Memory>
    requires { TrialStands (program_of around.now.task.script.now) desk.old.trial }
    ensures { OnOk result (TrialStands (program_of around.now.task.script.now) desk.new.trial) }
{
    desk.keys.read(around.states.key_of(around.state as usize));
    if !read_state(&mut desk.known, &desk.keys) {
        return Ok(false);
    }
    let mut there = false;
    for tag in 0..around.task.script.coroutines() {
        let Some(poll) = poll_by(alloc, around, gate, desk, tag, &mut there)? else {
            continue;
        };
        let _new = add_poll(around, desk.keys.last(), part, poll);
        if poll.local {
            return Ok(true);
        }
    }
    Ok(true)
}

/// The poll of this coroutine in the state that is looked at, if it does something; the key of the state that it leads to is made then.
/// `there` tells whether the run is at the state.
fn poll_by<G: Gate>(
    alloc: Global,
    around: &Around,
    gate: &G,
    desk: &mut Desk,
    tag: Tag,
    there: &mut bool,
) -> Result<Option<Poll>, Memory>
    requires { TrialStands (program_of around.now.task.script.now) desk.old.trial }
    ensures { OnOk result (TrialStands (program_of around.now.task.script.now) desk.new.trial) }
{
    if let Some(effect) = desk.known.effect_of(tag) {
        return Ok(poll_known(&mut desk.known, &mut desk.keys, tag, effect));
    }
    desk.known.made = desk.known.made.saturating_add(1);
    if !*there {
        around.states.read_order(around.state, &mut desk.order);
        desk.trial
            .go_to(alloc, around.task.script, gate, desk.order.as_slice())?;
    }
    let made = make_poll(around.task, gate, desk, tag)?;
    *there = made.is_none();
    Ok(made)
}

/// Numbers the sections of the state whose key was read last. The answer is no, if there is no room.
fn read_state(known: &mut Known, keys: &Keys) -> bool {
    known.effects.make_room();
    read_sections(
        &known.layout,
        &mut known.effects,
        keys.numbers(),
        &mut known.ends,
        &mut known.sections,
    )
}

/// Numbers the sections of a key, of which these are the numbers. The answer is no, if there is no room.
fn read_sections(
    layout: &Layout,
    effects: &mut Effects,
    numbers: &[u64],
    ends: &mut Gathered<usize>,
    sections: &mut Gathered<u32>,
) -> bool {
    sections.clear();
    layout.read_ends(numbers, ends);
    ends.add(numbers.len());
    let mut from = 0usize;
    for end in ends.as_slice() {
        let number = effects.number_of(between(numbers, from, *end));
        if number == NO_ROOM {
            return false;
        }
        sections.add(number);
        from = *end;
    }
    true
}

/// The poll that does this, if anything; the key of the state that it leads to is made then.
fn poll_known(known: &mut Known, keys: &mut Keys, tag: Tag, effect: Effect) -> Option<Poll> {
    known.known = known.known.saturating_add(1);
    if !effect.moved {
        return None;
    }
    known.behind.clear();
    known.behind.add_all(known.sections.as_slice());
    put_changes(known.behind.as_mut(), known.effects.changes_of(effect));
    keys.begin();
    for number in known.behind.as_slice() {
        keys.add(known.effects.content(*number));
    }
    keys.pack();
    Some(Poll {
        tag,
        local: effect.local,
        hash: hash_of(keys.last()),
    })
}

fn put_changes(sections: &mut Vec<u32>, changes: &[Change]) {
    for change in changes {
        put(sections, change.place, change.behind);
    }
}

/// Polls this coroutine where the run is, and keeps what it did. The answer is the poll, if it did anything; the key of the state that it
/// leads to is made then.
fn make_poll<G: Gate>(
    task: Task,
    gate: &G,
    desk: &mut Desk,
    tag: Tag,
) -> Result<Option<Poll>, Memory>
    requires { TrialStands (program_of task.script.now) desk.old.trial }
    ensures { OnOk result (TrialStands (program_of task.entry.script.now) desk.new.trial) }
{
    let before = noted(&desk.trial, tag).len();
    let Some(polled) = desk.trial.poll(task.script, gate, tag)? else {
        keep_nothing(&mut desk.known, tag);
        return Ok(None);
    };
    let poll = poll_made(task, &mut desk.keys, &desk.trial, polled)?;
    let items = noted(&desk.trial, tag);
    let told = between(items, before, items.len());
    keep_effect(&mut desk.known, desk.keys.numbers(), told, poll);
    Ok(Some(poll))
}

/// Keeps that a poll of this coroutine did nothing.
fn keep_nothing(known: &mut Known, tag: Tag) {
    known.behind.clear();
    known.behind.add_all(known.sections.as_slice());
    keep_did(known, tag, &[], (false, false));
}

/// Keeps what a poll did that noted this and led to a state with these numbers, if there is room.
fn keep_effect(known: &mut Known, numbers: &[u64], noted: &[Item], poll: Poll) {
    let kept = read_sections(
        &known.layout,
        &mut known.effects,
        numbers,
        &mut known.ends,
        &mut known.behind,
    );
    if kept {
        keep_did(known, poll.tag, noted, (true, poll.local));
    }
}

/// The same where the sections behind the poll are known.
fn keep_did(known: &mut Known, tag: Tag, noted: &[Item], did: (bool, bool)) {
    find_changes(known, tag, noted);
    let seen = known.seen_by(tag);
    known.effects.add(tag, seen, did, known.changes.as_slice());
}

/// Finds the sections that a poll which noted this looked at or changed.
fn find_changes(known: &mut Known, tag: Tag, noted: &[Item]) {
    known.changes.clear();
    let jobs = known.layout.channels();
    let own = known.layout.place_of(tag as usize);
    for place in 0..known.sections.len() {
        let before = at(known.sections.as_slice(), place, 0);
        let behind = at(known.behind.as_slice(), place, 0);
        let looked = place == jobs || place == own || before != behind;
        if looked || (place < jobs && has_noted(noted, place)) {
            known.changes.add(Change {
                place,
                before,
                behind,
            });
        }
    }
}

/// What a coroutine noted.
fn noted(trial: &Trial<Notes>, tag: Tag) -> &[Item] {
    match trial.book(tag as usize) {
        Some(book) => book.items(),
        None => &[],
    }
}

/// Whether something of this channel is among these.
fn has_noted(items: &[Item], channel: usize) -> bool {
    for item in items {
        if let Item::Channel(note) = *item {
            if channel_of(note) as usize == channel {
                return true;
            }
        }
    }
    false
}

fn channel_of(note: ChannelNote) -> ChannelId {
    match note {
        ChannelNote::Made(act) => channel_of_act(act),
        ChannelNote::SendClosed { c, .. }
        | ChannelNote::TrySendClosed { c, .. }
        | ChannelNote::ReceiveClosed { c, .. }
        | ChannelNote::TryReceiveClosed { c, .. }
        | ChannelNote::AlreadyClosed { c, .. }
        | ChannelNote::Full { c, .. }
        | ChannelNote::Empty { c }
        | ChannelNote::Spent { c }
        | ChannelNote::Partner { c, .. } => c,
        ChannelNote::MainResolved { w } | ChannelNote::Late { w } => w.channel,
    }
}

fn channel_of_act(act: Act) -> ChannelId {
    match act {
        Act::Hand { c, .. }
        | Act::Put { c, .. }
        | Act::Offer { c, .. }
        | Act::Await { c, .. }
        | Act::Take { c, .. }
        | Act::Admit { c, .. }
        | Act::Drop { c, .. }
        | Act::Spurn { c, .. }
        | Act::Close { c, .. }
        | Act::Void { c }
        | Act::Drain { c, .. }
        | Act::WakeClosed { c, .. } => c,
        Act::Withdraw { w, .. } | Act::Settle { w, .. } => w.channel,
    }
}
