//! What one worker finds of some of the states: the polls that do something in each. A worker has a run and keys of its own.

ghost use Rattle.std.specs.Prelude.{IfOk, OnOk};
ghost use Rattle.script_reader.specs.Scripts.{program_of};
ghost use Rattle.engine_one.specs.Trials.{TrialStands};

use crate::aheads::{Ahead, Found, Poll};
use crate::keys::Keys;
use crate::known::{Known, add_by_effects};
use crate::local::is_local;
use crate::states::{States, hash_of};
use crate::whole::if_whole;
use channel_model::{Act, ChannelNote, Settled};
use co_base::{Gate, Memory, Tag};
use engine_one::{Polled, Trial};
use gathered::{Gathered, at, between, put};
use note_book::{Item, Notes};
use script_reader::Script;
use std::alloc::Global;
use std::sync::atomic::{AtomicU32, Ordering};
use std::thread;
use std::thread::Threads;

/// So many states a worker takes at once; if there are no more, one worker looks at them.
const FEW: u32 = 64;

/// So many states in a row are looked at before their turn, at most.
const ROW: u32 = 8;

/// So many hashes of new states a worker has in mind. It is a power of two.
const HASHES: usize = 4096;

/// So many habits of coroutines a worker has in mind. It is a power of two.
const HABITS: usize = 256;

/// What a worker has to know.
#[derive(Clone, Copy)]
pub(crate) struct Task<'a> {
    pub(crate) script: &'a Script,
    /// Whether no Job of the script can be cancelled.
    pub(crate) calm: bool,
    /// Whether losses are told apart.
    pub(crate) losses: bool,
    /// Whether polls look at nothing but their coroutine, the Jobs and the channels that they note: no select stands at several of them.
    pub(crate) plain: bool,
}

/// States, from the one with the first number up to that with the second.
#[derive(Clone, Copy)]
pub(crate) struct Span {
    pub(crate) from: u32,
    pub(crate) to: u32,
}

impl Span {
    fn count(self) -> u32 {
        self.to.saturating_sub(self.from)
    }

    /// How many pieces it has.
    fn pieces(self) -> u32 {
        self.count().div_ceil(FEW)
    }

    /// The piece with this place.
    fn piece(self, place: u32) -> Span {
        let from = self.from.saturating_add(place.saturating_mul(FEW));
        Span {
            from: from.min(self.to),
            to: from.saturating_add(FEW).min(self.to),
        }
    }
}

/// A poll that does something in a state; whether the state that it leads to was seen; if not, where its key stands, and where that stands
/// which was found of it and of those behind it, whose keys follow its own.
#[derive(Clone, Copy)]
pub(crate) struct Reached {
    pub(crate) poll: Poll,
    pub(crate) seen: bool,
    key: Place,
    found: Place,
    found_keys: Place,
}

/// Where a key stands among keys, or what was found among that of others.
#[derive(Clone, Copy)]
pub(crate) struct Place {
    start: usize,
    end: usize,
}

/// The polls that do something in the first of these states, each of which has the number that follows.
#[derive(Drop)]
pub(crate) struct Part {
    pub(crate) span: Span,
    /// For each state, where its polls end.
    ends: Gathered<usize>,
    polls: Gathered<Reached>,
    /// The keys, one behind another.
    keys: Gathered<u64>,
    /// What was found of states that are reached.
    found: Gathered<Found>,
}

impl Part {
    fn new(alloc: Global, span: Span) -> Part {
        Part {
            span,
            ends: Gathered::new(alloc),
            polls: Gathered::new(alloc),
            keys: Gathered::new(alloc),
            found: Gathered::new(alloc),
        }
    }

    /// Whether memory held all that was added.
    fn is_whole(&self) -> bool {
        let polls = self.ends.is_whole() && self.polls.is_whole();
        polls && self.keys.is_whole() && self.found.is_whole()
    }

    /// Of how many states it tells.
    pub(crate) fn count(&self) -> usize {
        self.ends.len()
    }

    /// The polls that do something in the state with this place. If there are none, it is an end.
    pub(crate) fn polls_of(&self, place: usize) -> &[Reached] {
        let ends = self.ends.as_slice();
        let start = at(ends, place.wrapping_sub(1), 0);
        between(self.polls.as_slice(), start, at(ends, place, 0))
    }

    /// The key of the state that a poll leads to.
    pub(crate) fn key_of(&self, reached: Reached) -> &[u64] {
        between(self.keys.as_slice(), reached.key.start, reached.key.end)
    }

    /// What was found of that state, and of those behind it.
    pub(crate) fn found_of(&self, reached: Reached) -> &[Found] {
        between(
            self.found.as_slice(),
            reached.found.start,
            reached.found.end,
        )
    }

    /// The keys of the states that those polls lead to.
    pub(crate) fn found_keys_of(&self, reached: Reached) -> &[u64] {
        let place = reached.found_keys;
        between(self.keys.as_slice(), place.start, place.end)
    }

    /// Adds a poll of the state that is looked at. Of a state that was seen the key is not needed.
    pub(crate) fn add(&mut self, poll: Poll, seen: bool, key: &[u64]) {
        let start = self.keys.len();
        if !seen {
            self.keys.add_all(key);
        }
        let end = self.keys.len();
        let found = self.found.len();
        self.polls.add(Reached {
            poll,
            seen,
            key: Place { start, end },
            found: Place {
                start: found,
                end: found,
            },
            found_keys: Place { start: end, end },
        });
    }

    /// Adds what was found behind the last poll.
    fn add_found(&mut self, found: &[Found], keys: &[u64]) {
        self.found.add_all(found);
        self.keys.add_all(keys);
        let (found, keys) = (self.found.len(), self.keys.len());
        if let Some(last) = self.polls.as_mut().last_mut() {
            last.found.end = found;
            last.found_keys.end = keys;
        }
    }

    /// Adds the poll that was found of a state, and what was found behind it.
    fn add_ahead(&mut self, states: &States, poll: Poll, ahead: Ahead) {
        let key = ahead.first_key();
        let seen = states.has(poll.hash, key);
        self.add(poll, seen, key);
        if !seen {
            self.add_found(ahead.rest(), ahead.rest_keys());
        }
    }

    /// All polls of the state that is looked at were added.
    fn end_state(&mut self) {
        self.ends.add(self.polls.len());
    }

    /// Leaves the polls of the state that is looked at out.
    pub(crate) fn take_back(&mut self) {
        let ends = self.ends.as_slice();
        let before = at(ends, ends.len().wrapping_sub(1), 0);
        if let Some(first) = self.polls.as_slice().get(before).copied() {
            self.keys.truncate(first.key.start);
            self.found.truncate(first.found.start);
        }
        self.polls.truncate(before);
    }
}

/// What a worker works with.
#[derive(Drop)]
pub(crate) struct Desk {
    pub(crate) trial: Trial<Notes>,
    pub(crate) keys: Keys,
    pub(crate) known: Known,
    /// The polls by which the state that is looked at was reached.
    pub(crate) order: Gathered<Tag>,
    in_mind: InMind,
}

/// What a worker has in mind.
#[derive(Drop)]
struct InMind {
    /// At the place that a hash names, one of a state that was new.
    hashes: Gathered<u64>,
    /// At the place that a coroutine and its last note name, whether the poll behind such a note did not suffice, when it was made last.
    habits: Gathered<bool>,
}

impl InMind {
    fn new(alloc: Global) -> InMind {
        InMind {
            hashes: same_of(alloc, 0u64, HASHES),
            habits: same_of(alloc, false, HABITS),
        }
    }

    /// Whether the state with this hash was none of those new ones that are in mind. It is one of them then.
    fn is_first(&mut self, hash: u64) -> bool {
        let place = hash as usize & self.hashes.len().saturating_sub(1);
        let is_first = at(self.hashes.as_slice(), place, 0) != hash;
        put(self.hashes.as_mut(), place, hash);
        is_first
    }
}

/// A list with this value so many times.
fn same_of<T: Copy + Drop>(alloc: Global, value: T, count: usize) -> Gathered<T> {
    let mut list = Gathered::new(alloc);
    for _ in 0..count {
        list.add(value);
    }
    list
}

impl Desk {
    pub(crate) fn new(alloc: Global, task: Task) -> Result<Desk, Memory>
        ensures { IfOk result (λ desk. TrialStands (program_of task.entry.script.now) desk.trial) }
    {
        Ok(Desk {
            trial: Trial::new(alloc, task.script)?,
            keys: Keys::new(alloc, task.script, task.losses),
            known: Known::new(alloc, task.script),
            in_mind: InMind::new(alloc),
            order: Gathered::new(alloc),
        })
    }

    /// Whether memory held all lists that are kept from one state to the next.
    fn is_whole(&self) -> bool {
        let in_mind = self.in_mind.hashes.is_whole() && self.in_mind.habits.is_whole();
        in_mind && self.order.is_whole() && self.keys.is_whole() && self.known.is_whole()
    }
}

/// The parts of these states, in their order, found by so many workers side by side; one alone works with this desk.
pub(crate) fn parts_of<R: Threads + Sync, G: Gate + Sync>(
    rt: &R,
    alloc: Global,
    task: Task,
    gate: &G,
    states: &States,
    span: Span,
    workers: u8,
    desk: &mut Desk,
) -> Result<Vec<Part>, Memory>
    requires { TrialStands (program_of task.script.now) desk.old.trial }
    ensures { OnOk result (TrialStands (program_of task.entry.script.now) desk.new.trial) }
{
    let workers = u32::from(workers).min(span.pieces()).max(1);
    if workers == 1 {
        let next = AtomicU32::new(0);
        return pieces_of(alloc, task, gate, states, span, &next, desk);
    }
    parts_apart(rt, alloc, task, gate, states, span, workers)
}

/// The same by several workers.
fn parts_apart<R: Threads + Sync, G: Gate + Sync>(
    rt: &R,
    alloc: Global,
    task: Task,
    gate: &G,
    states: &States,
    span: Span,
    workers: u32,
) -> Result<Vec<Part>, Memory> {
    let next = AtomicU32::new(0);
    let found = thread::map_indices(
        rt,
        alloc,
        workers as usize,
        &|_worker| pieces_apart(alloc, task, gate, states, span, &next),
    )?;
    let mut parts = Vec::new(alloc);
    for some in found {
        let mut more = some?;
        parts.append(&mut more)?;
    }
    put_in_order(span.from, &mut parts);
    Ok(parts)
}

/// Puts these parts in the order of their states, of which this is the first.
fn put_in_order(from: u32, parts: &mut Vec<Part>) {
    for place in 0..parts.len() {
        for _ in place..parts.len() {
            let there = place_of(from, parts.as_slice(), place);
            if there <= place || there >= parts.len() {
                break;
            }
            parts.swap(place, there);
        }
    }
}

/// Where a part belongs that stands at this place.
fn place_of(from: u32, parts: &[Part], place: usize) -> usize {
    match parts.get(place) {
        Some(part) => (part.span.from.saturating_sub(from) / FEW) as usize,
        None => 0,
    }
}

/// The parts that a worker finds at a desk of its own.
fn pieces_apart<G: Gate>(
    alloc: Global,
    task: Task,
    gate: &G,
    states: &States,
    span: Span,
    next: &AtomicU32,
) -> Result<Vec<Part>, Memory> {
    let mut desk = Desk::new(alloc, task)?;
    pieces_of(alloc, task, gate, states, span, next, &mut desk)
}

/// The parts that a worker finds: it takes the next piece that none took, until there is none.
fn pieces_of<G: Gate>(
    alloc: Global,
    task: Task,
    gate: &G,
    states: &States,
    span: Span,
    next: &AtomicU32,
    desk: &mut Desk,
) -> Result<Vec<Part>, Memory>
    requires { TrialStands (program_of task.script.now) desk.old.trial }
    ensures { OnOk result (TrialStands (program_of task.entry.script.now) desk.new.trial) }
{
    let mut parts = Vec::new(alloc);
    for _ in 0..span.pieces() {
        let place = next.fetch_add(1, Ordering::SeqCst);
        if place >= span.pieces() {
            break;
        }
        parts.push(part_of(alloc, task, gate, states, span.piece(place), desk)?)?;
    }
    Ok(parts)
}

/// The part of these states.
fn part_of<G: Gate>(
    alloc: Global,
    task: Task,
    gate: &G,
    states: &States,
    span: Span,
    desk: &mut Desk,
) -> Result<Part, Memory>
    requires { TrialStands (program_of task.script.now) desk.old.trial }
    ensures { OnOk result (TrialStands (program_of task.entry.script.now) desk.new.trial) }
{
    let mut part = Part::new(alloc, span);
    add_states(alloc, task, gate, states, desk, &mut part)?;
    Ok(part)
}

/// Adds what is found of the states of this part.
fn add_states<G: Gate>(
    alloc: Global,
    task: Task,
    gate: &G,
    states: &States,
    desk: &mut Desk,
    part: &mut Part,
) -> Result<(), Memory>
    requires { TrialStands (program_of task.script.now) desk.old.trial }
    ensures { OnOk result (TrialStands (program_of task.entry.script.now) desk.new.trial) }
{
    for state in part.span.from..part.span.to {
        let around = Around {
            task,
            states,
            state,
            ahead: states.aheads.of(state),
        };
        add_state(alloc, &around, gate, desk, part)?;
        part.end_state();
    }
    if_whole(part.is_whole() && desk.is_whole())
}

/// What is known before a state is looked at.
#[derive(Clone, Copy)]
pub(crate) struct Around<'a> {
    pub(crate) task: Task<'a>,
    pub(crate) states: &'a States,
    pub(crate) state: u32,
    /// What was found of the state, if it was.
    ahead: Option<Ahead<'a>>,
}

impl Around<'_> {
    /// What was found of the state itself, if it was.
    fn found(&self) -> Option<Found> {
        match self.ahead {
            Some(ahead) => ahead.first(),
            None => None,
        }
    }
}

/// Adds the polls that do something in a state; or one of them alone, if that suffices.
fn add_state<G: Gate>(
    alloc: Global,
    around: &Around,
    gate: &G,
    desk: &mut Desk,
    part: &mut Part,
) -> Result<(), Memory>
    requires { TrialStands (program_of around.now.task.script.now) desk.old.trial }
    ensures { OnOk result (TrialStands (program_of around.now.task.script.now) desk.new.trial) }
{
    let serves = desk.known.serves();
    if serves && around.task.plain && around.state > 0 {
        if add_by_effects(alloc, around, gate, desk, part)? {
            return Ok(());
        }
    }
    around.states.read_order(around.state, &mut desk.order);
    add_polls(alloc, around, gate, desk, part)
}

/// Adds the polls that do something behind the order that was read; or one of them alone, if that suffices.
fn add_polls<G: Gate>(
    alloc: Global,
    around: &Around,
    gate: &G,
    desk: &mut Desk,
    part: &mut Part,
) -> Result<(), Memory>
    requires { TrialStands (program_of around.now.task.script.now) desk.old.trial }
    ensures { OnOk result (TrialStands (program_of around.now.task.script.now) desk.new.trial) }
{
    let Some(found) = around.found() else {
        desk.trial
            .go_to(alloc, around.task.script, gate, desk.order.as_slice())?;
        let end = desk.trial.stuck_from();
        return add_polls_among(alloc, around, gate, desk, part, None, end);
    };
    let Some(poll) = found.poll else {
        return Ok(());
    };
    if poll.local {
        add_known(around, part, poll);
        return Ok(());
    }
    let end = found.stuck_from.max(poll.tag.saturating_add(1));
    add_polls_among(alloc, around, gate, desk, part, Some(poll), end)
}

/// Adds the poll that was found of the state, and what was found behind it.
fn add_known(around: &Around, part: &mut Part, poll: Poll) {
    if let Some(ahead) = around.ahead {
        part.add_ahead(around.states, poll, ahead);
    }
}

/// The same of those up to a tag, of which one may be known.
fn add_polls_among<G: Gate>(
    alloc: Global,
    around: &Around,
    gate: &G,
    desk: &mut Desk,
    part: &mut Part,
    known: Option<Poll>,
    end: Tag,
) -> Result<(), Memory>
    requires { TrialStands (program_of around.now.task.script.now) desk.old.trial }
    ensures { OnOk result (TrialStands (program_of around.now.task.script.now) desk.new.trial) }
{
    let mut from = 0;
    let mut known = known;
    'polls: for _ in 0..around.task.script.coroutines().saturating_add(2) {
        let until = match known {
            Some(poll) => poll.tag,
            None => end,
        };
        if let Some(poll) = add_next(alloc, around, gate, desk, part, from, until)? {
            if poll.local {
                return Ok(());
            }
            from = poll.tag.saturating_add(1);
            continue;
        }
        let Some(poll) = known else {
            return Ok(());
        };
        add_known(around, part, poll);
        from = poll.tag.saturating_add(1);
        known = None;
    }
    Ok(())
}

/// Adds the first poll of these tags that does something in the state, if there is one; if that suffices, it alone.
fn add_next<G: Gate>(
    alloc: Global,
    around: &Around,
    gate: &G,
    desk: &mut Desk,
    part: &mut Part,
    from: Tag,
    until: Tag,
) -> Result<Option<Poll>, Memory>
    requires { TrialStands (program_of around.now.task.script.now) desk.old.trial }
    ensures { OnOk result (TrialStands (program_of around.now.task.script.now) desk.new.trial) }
{
    if from >= until {
        return Ok(None);
    }
    let script = around.task.script;
    desk.trial
        .go_to(alloc, script, gate, desk.order.as_slice())?;
    let Some(polled) = first_among(script, gate, &mut desk.trial, from, until)? else {
        return Ok(None);
    };
    let poll = poll_made(around.task, &mut desk.keys, &desk.trial, polled)?;
    if add_poll(around, desk.keys.last(), part, poll) && desk.in_mind.is_first(poll.hash) {
        look_ahead(around, gate, desk, part, poll)?;
    }
    Ok(Some(poll))
}

/// Adds this poll, which leads to a state with this key; if it suffices, it alone. The answer says whether that state was not seen.
pub(crate) fn add_poll(around: &Around, key: &[u64], part: &mut Part, poll: Poll) -> bool {
    if poll.local {
        part.take_back();
    }
    let seen = around.states.has(poll.hash, key);
    part.add(poll, seen, key);
    !seen
}

/// The first poll of these tags that does something, if there is one.
fn first_among<G: Gate>(
    script: &Script,
    gate: &G,
    trial: &mut Trial<Notes>,
    from: Tag,
    until: Tag,
) -> Result<Option<Polled>, Memory>
    requires { TrialStands (program_of script.now) trial.old }
    ensures { OnOk result (TrialStands (program_of script.now) trial.new) }
{
    for tag in from..until {
        if let Some(polled) = trial.poll(script, gate, tag)? {
            return Ok(Some(polled));
        }
    }
    Ok(None)
}

/// The poll that was made last; the key of the state that it led to is made.
pub(crate) fn poll_made(
    task: Task,
    keys: &mut Keys,
    trial: &Trial<Notes>,
    polled: Polled,
) -> Result<Poll, Memory> {
    keys.make(trial)?;
    Ok(Poll {
        tag: polled.tag,
        local: is_local(task.script, task.calm, polled),
        hash: hash_of(keys.last()),
    })
}

/// Looks at the state that this poll led to; and on, as long as one poll suffices and leads to a state that is new.
fn look_ahead<G: Gate>(
    around: &Around,
    gate: &G,
    desk: &mut Desk,
    part: &mut Part,
    poll: Poll,
) -> Result<(), Memory>
    requires { TrialStands (program_of around.now.task.script.now) desk.old.trial }
    ensures { OnOk result (TrialStands (program_of around.now.task.script.now) desk.new.trial) }
{
    let task = around.task;
    let mut before = poll;
    'states: for _ in 0..ROW {
        let stuck_from = desk.trial.stuck_from();
        let Some(polled) = poll_behind(task, gate, &mut desk.trial, &mut desk.in_mind, before)?
        else {
            part.add_found(&[no_poll(stuck_from)], &[]);
            return Ok(());
        };
        let poll = poll_made(task, &mut desk.keys, &desk.trial, polled)?;
        if !add_behind(around, desk.keys.last(), part, poll, stuck_from) {
            return Ok(());
        }
        before = poll;
    }
    Ok(())
}

/// Adds what was found of a state: this poll, which leads to one with this key. The answer says whether that is to be looked at, too.
fn add_behind(around: &Around, key: &[u64], part: &mut Part, poll: Poll, stuck_from: Tag) -> bool {
    let found = Found {
        poll: Some(poll),
        words: key.len(),
        stuck_from,
    };
    part.add_found(&[found], key);
    poll.local && !around.states.has(poll.hash, key)
}

fn no_poll(stuck_from: Tag) -> Found {
    Found {
        poll: None,
        words: 0,
        stuck_from,
    }
}

/// A poll that does something in the state that this poll led to, if there is one.
///
/// The same coroutine goes first where it may be the one that suffices. No other of a lower tag suffices then, too: the state before had
/// none, and only a poll with a note of a Job can make one of another coroutine.
fn poll_behind<G: Gate>(
    task: Task,
    gate: &G,
    trial: &mut Trial<Notes>,
    in_mind: &mut InMind,
    before: Poll,
) -> Result<Option<Polled>, Memory>
    requires { TrialStands (program_of task.script.now) trial.old }
    ensures { OnOk result (TrialStands (program_of task.entry.script.now) trial.new) }
{
    let habit = habit_of(trial.book(before.tag as usize), before);
    if !at(in_mind.habits.as_slice(), habit, true) {
        if let Some(polled) = trial.poll(task.script, gate, before.tag)? {
            let suffices = is_local(task.script, task.calm, polled);
            put(in_mind.habits.as_mut(), habit, !suffices);
            return Ok(Some(polled));
        }
    }
    trial.first_that_moves(task.script, gate, 0)
}

/// The place of the habit of the coroutine that made this poll, and has this book, if it may be the one whose next poll suffices; else no
/// place.
fn habit_of(book: Option<&Notes>, before: Poll) -> usize {
    match last_note(book) {
        Some(note) if !before.local => {
            let place = (before.tag as usize).wrapping_mul(8).wrapping_add(note);
            place & HABITS.saturating_sub(1)
        }
        _ => HABITS,
    }
}

/// What the last note of a book is: 0 to 5. Nothing, if it is one of a Job.
fn last_note(book: Option<&Notes>) -> Option<usize> {
    match book?.items().last() {
        Some(Item::Job(_)) => None,
        Some(Item::Channel(ChannelNote::Made(act))) => match *act {
            Act::Hand { .. } | Act::Put { .. } => Some(1),
            Act::Take { .. } | Act::Admit { .. } => Some(2),
            Act::Settle {
                outcome: Settled::Value(_, _),
                ..
            } => Some(3),
            Act::Settle {
                outcome: Settled::Sent(_),
                ..
            } => Some(4),
            _ => Some(5),
        },
        _ => Some(0),
    }
}
