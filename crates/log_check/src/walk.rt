//! The search for an order of polls: depth first, without going through the same states again and again. It is not trusted.

ghost use Rattle.std.specs.Prelude.{OnOk};
ghost use Rattle.script_reader.specs.Scripts.{program_of};
ghost use Rattle.engine_one.specs.Trials.{TrialStands};

use crate::hints::Hint;
use crate::plan::{NOWHERE, Plan};
use crate::polled::written_by;
use crate::same::same_item;
use crate::scene::{Rank, Scene, View};
use co_base::{Gate, Memory, Tag};
use engine_one::{Polled, Trial};
use gathered::{Gathered, at};
use history_text::Line;
use note_book::{Item, Notes};
use script_reader::Script;
use std::alloc::Global;
use std::collections::HashSet;

/// Behind so many polls after one that was taken back, states are noted no more: a state takes as long as there are channels and Jobs.
const NOTED: u32 = 1024;

/// The lines that a run is to write.
#[derive(Clone, Copy)]
pub(crate) struct Wanted<'a> {
    pub(crate) script: &'a Script,
    pub(crate) lines: &'a [Line],
    pub(crate) plan: &'a Plan,
    /// Whether they are to be written in their order; else in that of each coroutine.
    pub(crate) ordered: bool,
    /// In which order coroutines are tried.
    pub(crate) attempt: u32,
}

impl Wanted<'_> {
    /// Whether who was woken is tried first.
    fn follows_wakes(self) -> bool {
        !self.ordered && self.attempt < 2
    }

    /// How many choices there are of the next coroutine: each, and that of the next line, or each once for each rank.
    fn most_choices(self) -> u32 {
        let count = u32::from(self.script.coroutines());
        if self.ordered {
            count.saturating_add(1)
        } else {
            count.saturating_mul(4)
        }
    }
}

impl<'a> Wanted<'a> {
    fn view(self, trial: &'a Trial<Notes>) -> View<'a> {
        View {
            plan: self.plan,
            lines: self.lines,
            trial,
        }
    }
}

/// What a run on its way has written, and what is left to be tried at each of its polls.
#[derive(Drop)]
pub(crate) struct Path {
    scene: Scene,
    /// Behind each poll the number of the next choice.
    choices: Gathered<u32>,
    /// Before each poll how many lines were written.
    marks: Gathered<usize>,
    pub(crate) done: usize,
    /// How many polls were made.
    pub(crate) polls: u64,
    /// For how many polls more each state is noted, so that it is visited once: some behind each poll that was taken back.
    noted: u32,
    seen: HashSet<u64>,
    numbers: Vec<u64>,
    /// No coroutine before this one has a line left.
    first: Tag,
    pub(crate) reached: Reached,
}

/// The most lines that were written, and the number of a line that could not be written then, with what is known of it.
#[derive(Clone, Copy)]
pub(crate) struct Reached {
    most: usize,
    pub(crate) stuck: usize,
    pub(crate) hint: Hint,
}

impl Reached {
    /// So many lines were written, and then this one could not be. What was known first of a line stays.
    fn reach(&mut self, written: usize, stuck: usize, hint: Hint) {
        let again = written == self.most
            && stuck == self.stuck
            && !matches!(self.hint, Hint::Nothing);
        if written >= self.most && !again {
            self.most = written;
            self.stuck = stuck;
            self.hint = hint;
        }
    }

    /// A coroutine did this in place of its next line, or nothing; it is kept if that is the line that could not be written.
    fn differs(&mut self, line: u32, tag: Tag, written: Option<Item>) {
        let is_stuck = (line as usize).saturating_add(1) == self.stuck;
        if is_stuck && matches!(self.hint, Hint::Nothing) {
            self.hint = Hint::Instead(tag, written);
        }
    }
}

fn item_of(trial: &Trial<Notes>, tag: Tag, number: usize) -> Option<Item> {
    trial.book(tag as usize)?.items().get(number).copied()
}

/// Whether the line of a coroutine with this number among its own is what was wanted, if it is written as this one.
fn is_wanted(wanted: Wanted, trial: &Trial<Notes>, tag: Tag, number: usize, line: usize) -> bool {
    let own = wanted.plan.line_of(tag, number) as usize;
    if own >= wanted.lines.len() || (wanted.ordered && own != line) {
        return false;
    }
    match item_of(trial, tag, number) {
        Some(item) => same_item(wanted.lines[own].item, item),
        None => false,
    }
}

/// The number of the first line of a coroutine, from this one on, that is not what was wanted, where so many lines were written before;
/// how many it has written, if there is none.
fn first_miss(wanted: Wanted, trial: &Trial<Notes>, tag: Tag, before: usize, done: usize) -> usize {
    let written = written_by(trial, tag);
    let mut line = done;
    for number in before..written {
        if !is_wanted(wanted, trial, tag, number, line) {
            return number;
        }
        line = line.saturating_add(1);
    }
    written
}

/// The first coroutine, from this one on, that has a line left; how many there are, if none has.
fn first_left(wanted: Wanted, trial: &Trial<Notes>, from: Tag) -> Tag {
    let count = wanted.script.coroutines();
    for tag in from..count {
        if wanted.plan.line_of(tag, written_by(trial, tag)) != NOWHERE {
            return tag;
        }
    }
    count
}

/// The number, from 1, of the next line of a coroutine; that behind all lines, if it has none left.
fn line_left(wanted: Wanted, trial: &Trial<Notes>, tag: Tag) -> usize {
    let line = wanted.plan.line_of(tag, written_by(trial, tag)) as usize;
    line.min(wanted.lines.len()).saturating_add(1)
}

impl Path {
    /// Before the first poll. What the root noted before it is written already; if that is not what was wanted, no poll is left.
    pub(crate) fn begin(
        alloc: Global,
        wanted: Wanted,
        trial: &Trial<Notes>,
    ) -> Result<Path, Memory> {
        let mut path = Path::new(alloc, wanted);
        if path.fits(wanted, trial, 0, 0) {
            path.keep(wanted, trial, 0, 0);
        }
        let _mark = path.marks.pop();
        let _choice = path.choices.pop();
        if path.is_whole() {
            Ok(path)
        } else {
            Err(Memory)
        }
    }

    fn new(alloc: Global, wanted: Wanted) -> Path {
        let mut path = Path {
            scene: Scene::new(alloc, wanted.plan, wanted.script, wanted.lines),
            choices: Gathered::new(alloc),
            marks: Gathered::new(alloc),
            done: 0,
            polls: 0,
            noted: 0,
            seen: HashSet::new(alloc),
            numbers: Vec::new(alloc),
            first: 0,
            reached: Reached {
                most: 0,
                stuck: 1,
                hint: Hint::Nothing,
            },
        };
        path.choices.add(0);
        path
    }

    /// Whether memory held all that was kept.
    fn is_whole(&self) -> bool {
        self.scene.is_whole() && self.marks.is_whole() && self.choices.is_whole()
    }

    /// The coroutine that is to be polled next, if one is left that was not tried here.
    fn next_tag(&mut self, wanted: Wanted, trial: &Trial<Notes>) -> Option<Tag> {
        if wanted.follows_wakes() {
            let awake = self.scene.next_awake(wanted.view(trial));
            if awake.is_some() {
                return awake;
            }
        }
        let first = self.choices.pop()?;
        let (next, found) = self.choice_from(wanted, trial, first);
        self.choices.add(next);
        found
    }

    /// The number behind the first choice, from this one on, whose coroutine is to be tried, and the coroutine.
    fn choice_from(&self, wanted: Wanted, trial: &Trial<Notes>, first: u32) -> (u32, Option<Tag>) {
        let most = wanted.most_choices();
        for choice in first..most {
            let found = self.tag_of(wanted, trial, choice);
            if found.is_some() {
                return (choice.saturating_add(1), found);
            }
        }
        (first.max(most), None)
    }

    /// The coroutine of a choice, if it is to be tried.
    fn tag_of(&self, wanted: Wanted, trial: &Trial<Notes>, choice: u32) -> Option<Tag> {
        if wanted.ordered {
            self.tag_of_log(wanted, choice)
        } else {
            self.tag_of_report(wanted, trial, choice)
        }
    }

    /// The coroutine of a choice: that of the next line, and then any other.
    fn tag_of_log(&self, wanted: Wanted, choice: u32) -> Option<Tag> {
        let next = wanted.lines.get(self.done)?.who;
        if choice == 0 {
            return Some(next);
        }
        let tag = Tag::try_from(choice.saturating_sub(1)).ok()?;
        if tag == next { None } else { Some(tag) }
    }

    /// The coroutine of a choice, if it has the rank that is tried: all of one rank come before the first of the next.
    fn tag_of_report(&self, wanted: Wanted, trial: &Trial<Notes>, choice: u32) -> Option<Tag> {
        let count = u32::from(wanted.script.coroutines());
        let tried = match choice.checked_div(count)? {
            0 => Rank::Now,
            1 => Rank::Held,
            2 => Rank::Cancels,
            _ => Rank::Never,
        };
        let tag = self.turned(wanted, trial, choice.checked_rem(count)?)?;
        let number = written_by(trial, tag);
        let rank = self.scene.state.rank(wanted.view(trial), tag, number);
        if rank == tried { Some(tag) } else { None }
    }

    /// The coroutine of a choice, by the order in which this attempt tries them.
    fn turned(&self, wanted: Wanted, trial: &Trial<Notes>, choice: u32) -> Option<Tag> {
        let count = u32::from(wanted.script.coroutines());
        let made = trial.made();
        let last = u32::from(at(made, made.len().saturating_sub(1), 0));
        let turn = match wanted.attempt {
            0 => last,
            1 => last.saturating_add(1),
            2 => 0,
            other => mixed(self.marks.len(), other),
        };
        let tag = turn.wrapping_add(choice).checked_rem(count)?;
        Tag::try_from(tag).ok()
    }

    /// Whether what a poll wrote is what was wanted.
    fn fits(&mut self, wanted: Wanted, trial: &Trial<Notes>, tag: Tag, before: usize) -> bool {
        let number = first_miss(wanted, trial, tag, before, self.done);
        let fits = number >= written_by(trial, tag);
        if !fits {
            let line = self.done.saturating_add(number.saturating_sub(before));
            self.miss(wanted, trial, tag, number, line);
        }
        fits
    }

    /// The line with this number among those of a coroutine is not what was wanted; it would be this one of all.
    fn miss(&mut self, wanted: Wanted, trial: &Trial<Notes>, tag: Tag, number: usize, line: usize) {
        let written = item_of(trial, tag, number);
        if wanted.ordered {
            self.reached
                .reach(line, line.saturating_add(1), Hint::Instead(tag, written));
        } else {
            self.reached
                .differs(wanted.plan.line_of(tag, number), tag, written);
        }
    }

    /// Keeps what a poll wrote.
    fn keep(&mut self, wanted: Wanted, trial: &Trial<Notes>, tag: Tag, before: usize) {
        let after = written_by(trial, tag);
        if !wanted.ordered {
            self.scene
                .keep_lines(wanted.plan, wanted.lines, tag, before, after);
        }
        self.mark(wanted, tag, after.saturating_sub(before));
        if self.done > self.reached.most {
            let stuck = self.next_line(wanted, trial);
            self.reached.reach(self.done, stuck, Hint::Nothing);
        }
    }

    /// A poll of this coroutine wrote so many lines.
    fn mark(&mut self, wanted: Wanted, tag: Tag, written: usize) {
        self.scene.mark();
        if wanted.follows_wakes() {
            self.scene.look_at(tag, wanted.attempt == 0);
        }
        self.marks.add(self.done);
        self.choices.add(0);
        self.done = self.done.saturating_add(written);
    }

    /// The number of the first line that is not written.
    fn next_line(&mut self, wanted: Wanted, trial: &Trial<Notes>) -> usize {
        if wanted.ordered {
            return self.done.saturating_add(1);
        }
        self.first = first_left(wanted, trial, self.first);
        line_left(wanted, trial, self.first)
    }

    /// Forgets what the last poll wrote. The answer says whether there was one.
    fn forget(&mut self) -> bool {
        let Some(mark) = self.marks.pop() else {
            return false;
        };
        let _choice = self.choices.pop();
        self.scene.take_back();
        self.done = mark;
        self.first = 0;
        self.noted = NOTED;
        true
    }

    /// Keeps what this coroutine did, if anything, behind so many of its lines. The answer is no, if the poll is to be taken back: it did
    /// not write what was wanted, or the run was here before.
    fn goes_on(
        &mut self,
        wanted: Wanted,
        trial: &Trial<Notes>,
        tag: Tag,
        before: usize,
        polled: Option<Polled>,
    ) -> Result<bool, Memory> {
        let Some(polled) = polled else {
            self.reached
                .differs(wanted.plan.line_of(tag, before), tag, None);
            return Ok(true);
        };
        if !self.fits(wanted, trial, tag, before) {
            self.noted = NOTED;
            return Ok(false);
        }
        self.keep(wanted, trial, tag, before);
        if !self.is_whole() {
            return Err(Memory);
        }
        if self.is_new(wanted, trial, polled.noted)? {
            return Ok(true);
        }
        let _there = self.forget();
        Ok(false)
    }

    /// Whether the run was never here before, as far as states are noted.
    fn is_new(
        &mut self,
        wanted: Wanted,
        trial: &Trial<Notes>,
        wrote: bool,
    ) -> Result<bool, Memory> {
        if self.noted == 0 || (wanted.ordered && wrote) {
            return Ok(true);
        }
        self.noted = self.noted.saturating_sub(1);
        self.numbers.clear();
        trial.push_key(&[], &mut self.numbers)?;
        let mut key = hash_of(self.numbers.as_slice());
        for tag in 0..wanted.script.coroutines() {
            key = hash_with(key, written_by(trial, tag) as u64);
        }
        Ok(self.seen.insert(key)?)
    }
}

/// A number that looks random.
fn mixed(depth: usize, attempt: u32) -> u32 {
    let state = (depth as u64)
        .wrapping_add(1)
        .wrapping_mul(6364136223846793005)
        .wrapping_add(u64::from(attempt).wrapping_mul(1442695040888963407));
    let state = (state ^ (state >> 29)).wrapping_mul(6364136223846793005);
    u32::try_from(state >> 40).ok().unwrap_or(0)
}

/// A number that differs for most keys that differ.
fn hash_of(numbers: &[u64]) -> u64 {
    let mut hash = 14695981039346656037u64;
    for number in numbers {
        hash = hash_with(hash, *number);
    }
    hash
}

/// That of a key with a number more.
fn hash_with(hash: u64, number: u64) -> u64 {
    let mixed = (hash ^ number).wrapping_mul(1099511628211);
    mixed ^ (mixed >> 32)
}

/// Brings the run back to where it was before its last poll, and counts the polls that this takes.
fn go_back<G: Gate>(
    alloc: Global,
    script: &Script,
    gate: &G,
    trial: &mut Trial<Notes>,
    polls: &mut u64,
) -> Result<(), Memory>
    requires { TrialStands (program_of script.now) trial.old }
    ensures { OnOk result (TrialStands (program_of script.now) trial.new) }
{
    let mut order = Vec::from_slice(alloc, trial.made())?;
    let _last = order.pop();
    *polls = polls.saturating_add(order.len() as u64);
    trial.go_to(alloc, script, gate, order.as_slice())
}

/// Tries one poll more, or takes the last one back. The answer says whether anything is left to be tried.
pub(crate) fn step<G: Gate>(
    alloc: Global,
    wanted: Wanted,
    gate: &G,
    trial: &mut Trial<Notes>,
    path: &mut Path,
) -> Result<bool, Memory>
    requires { TrialStands (program_of wanted.script.now) trial.old }
    ensures { OnOk result (TrialStands (program_of wanted.entry.script.now) trial.new) }
{
    let Some(tag) = path.next_tag(wanted, trial) else {
        if !path.forget() {
            return Ok(false);
        }
        go_back(alloc, wanted.script, gate, trial, &mut path.polls)?;
        return Ok(true);
    };
    let before = written_by(trial, tag);
    path.polls = path.polls.saturating_add(1);
    let polled = trial.poll(wanted.script, gate, tag)?;
    if !path.goes_on(wanted, trial, tag, before, polled)? {
        go_back(alloc, wanted.script, gate, trial, &mut path.polls)?;
    }
    Ok(true)
}
