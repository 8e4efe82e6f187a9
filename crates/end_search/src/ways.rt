//! The search: every order of whole polls, those of fewer polls first.
//!
//! States are looked at in spans. Workers find the parts of a span side by side, and then one adds them in the order of the states: so
//! what is found does not depend on how many they are.

ghost use Rattle.std.specs.Prelude.{OnOk};
ghost use Rattle.script_reader.specs.Scripts.{program_of};
ghost use Rattle.engine_one.specs.Trials.{TrialStands};

use crate::parts::{Desk, Part, Reached, Span, Task, parts_of};
use crate::samples::{Numbers, random_order, runs_of};
use crate::states::States;
use crate::wanted::{Account, Tell, Wanted, told_of};
use co_base::{Gate, Memory, Sink, Tag, write_all};
use engine_one::{Trial, run_in_order};
use note_book::Notes;
use std::alloc::Global;
use std::thread::Threads;

/// How many states a span has at most that one worker looks at.
const ALONE: u32 = 1024;

/// How many states of a span each of several workers looks at, at most: what they find of polls they know up to its end.
const SHARE: u32 = 8192;

/// After how many states the search says how far it is: one to three seconds.
const STEP: u32 = 100000;

/// How a search ended.
#[derive(Clone, Copy, Debug, PartialEq, Eq)]
pub enum Verdict {
    /// Every state was looked at; no end of the kind that was asked for, if one was.
    Exhausted,
    /// An end of the kind that was asked for.
    Found,
    /// There are more states than was allowed.
    Cut,
}

/// An end, and a shortest order of polls that leads to it.
#[derive(Drop)]
pub(crate) struct Way {
    pub(crate) order: Vec<Tag>,
    told: Account,
}

/// What a search came to.
#[derive(Drop)]
pub(crate) struct Ways {
    pub(crate) ends: Vec<Way>,
    pub(crate) verdict: Verdict,
    pub(crate) states: usize,
    pub(crate) turns: u64,
    /// How many of the ends no state showed that was looked at. Their orders are not shortest.
    pub(crate) sampled: usize,
}

/// What is searched.
#[derive(Clone, Copy)]
pub(crate) struct Search<'a> {
    pub(crate) task: Task<'a>,
    /// The text of the script.
    pub(crate) source: &'a [u8],
    pub(crate) wanted: Option<Wanted>,
    /// By what two ends are told apart.
    pub(crate) tell: Tell,
    /// How many states are looked at, at most.
    pub(crate) states: u32,
    /// After how many ends the search stops.
    pub(crate) ends: usize,
    /// How many workers look at states side by side.
    pub(crate) workers: u8,
}

/// How far a search is.
#[derive(Drop)]
struct Course {
    states: States,
    ends: Vec<Way>,
    /// How many of the ends states showed that were looked at, and whether as many are there as are looked for.
    reached: usize,
    found: bool,
    /// What is told of the end of one worker.
    usual: Account,
}

/// The ends that some order of whole polls leads to, each once.
pub(crate) fn find_ways<R: Threads + Sync, G: Gate + Sync, E: Sink>(
    rt: &R,
    alloc: Global,
    search: Search,
    gate: &G,
    errors: &mut E,
) -> Result<Ways, Memory> {
    let mut course = Course {
        usual: told_in_order(alloc, search, gate, &[])?,
        states: States::new(alloc, search.states),
        ends: Vec::new(alloc),
        reached: 0,
        found: false,
    };
    go_through(rt, alloc, search, gate, &mut course, errors)?;
    Ok(ways_of(course))
}

/// Looks at the states; if there are more than is allowed, at runs in random orders, too.
fn go_through<R: Threads + Sync, G: Gate + Sync, E: Sink>(
    rt: &R,
    alloc: Global,
    search: Search,
    gate: &G,
    course: &mut Course,
    errors: &mut E,
) -> Result<(), Memory> {
    course.found = look_through(rt, alloc, search, gate, course, errors)?;
    course.reached = course.ends.len();
    if course.states.full && !course.found {
        course.found = sample(alloc, search, gate, course)?;
    }
    Ok(())
}

/// What a search came to.
fn ways_of(course: Course) -> Ways {
    let Course {
        states,
        ends,
        reached,
        found,
        usual: _,
    } = course;
    Ways {
        sampled: ends.len().saturating_sub(reached),
        ends,
        verdict: verdict_of(found, states.full),
        states: states.count(),
        turns: states.turns,
    }
}

/// Looks at the states in the order in which they are reached. The answer says whether as many ends are there as are looked for.
fn look_through<R: Threads + Sync, G: Gate + Sync, E: Sink>(
    rt: &R,
    alloc: Global,
    search: Search,
    gate: &G,
    course: &mut Course,
    errors: &mut E,
) -> Result<bool, Memory> {
    let mut desk = Desk::new(alloc, search.task)?;
    look_from_desk(rt, alloc, search, gate, course, errors, &mut desk)
}

/// The same; one worker alone works at this desk.
fn look_from_desk<R: Threads + Sync, G: Gate + Sync, E: Sink>(
    rt: &R,
    alloc: Global,
    search: Search,
    gate: &G,
    course: &mut Course,
    errors: &mut E,
    desk: &mut Desk,
) -> Result<bool, Memory>
    requires { TrialStands (program_of search.task.script.now) desk.old.trial }
{
    let mut from = 0;
    for _ in 0..search.states {
        let span = span_from(from, course.states.count(), search.workers);
        if span.from >= span.to {
            break;
        }
        let states = &course.states;
        let workers = search.workers;
        let parts = parts_of(rt, alloc, search.task, gate, states, span, workers, desk)?;
        if add_parts(alloc, search, gate, course, errors, parts.as_slice())? {
            return Ok(true);
        }
        from = end_of(parts.as_slice(), from);
        course.states.aheads.leave_behind(from);
    }
    Ok(false)
}

/// Adds what was found of states. The answer says whether as many ends are there as are looked for.
fn add_parts<G: Gate, E: Sink>(
    alloc: Global,
    search: Search,
    gate: &G,
    course: &mut Course,
    errors: &mut E,
    parts: &[Part],
) -> Result<bool, Memory> {
    let mut found = false;
    for part in parts {
        if add_part(alloc, search, gate, course, errors, part)? {
            found = true;
            break;
        }
    }
    course.states.whole()?;
    Ok(found)
}

/// The number of the state behind these parts; the other, if there are none.
fn end_of(parts: &[Part], other: u32) -> u32 {
    match parts.last() {
        Some(part) => part.span.from.saturating_add(number_of(part.count())),
        None => other,
    }
}

/// The states from this number on that are looked at next, of so many.
fn span_from(from: u32, count: usize, workers: u8) -> Span {
    let most = match workers {
        0 | 1 => ALONE,
        _ => SHARE.saturating_mul(u32::from(workers)),
    };
    Span {
        from,
        to: from.saturating_add(most).min(number_of(count)),
    }
}

fn number_of(count: usize) -> u32 {
    u32::try_from(count).ok().unwrap_or(u32::MAX)
}

/// Adds what was found of states. The answer says whether as many ends are there as are looked for.
fn add_part<G: Gate, E: Sink>(
    alloc: Global,
    search: Search,
    gate: &G,
    course: &mut Course,
    errors: &mut E,
    part: &Part,
) -> Result<bool, Memory> {
    for place in 0..part.count() {
        let state = part.span.from.saturating_add(number_of(place));
        if state > 0 && state % STEP == 0 {
            tell_progress(alloc, errors, state, &course.states, course.ends.len())?;
        }
        let polls = part.polls_of(place);
        add_states(&mut course.states, state, part, polls);
        if polls.is_empty() {
            let order = course.states.order_of(alloc, state)?;
            push_end(alloc, search, gate, course, order)?;
            if course.ends.len() >= search.ends {
                return Ok(true);
            }
        }
    }
    Ok(false)
}

/// Adds the states that polls in this state lead to.
fn add_states(states: &mut States, state: u32, part: &Part, polls: &[Reached]) {
    for reached in polls {
        if reached.seen {
            states.count_turn();
        } else {
            add_state(states, state, part, *reached);
        }
    }
}

/// Adds the state that a poll in this state leads to, if it is new, and what was found of it.
fn add_state(states: &mut States, state: u32, part: &Part, reached: Reached) {
    let poll = reached.poll;
    let key = part.key_of(reached);
    if let Some(number) = states.add(state, poll.tag, poll.hash, key) {
        let found = part.found_of(reached);
        states
            .aheads
            .keep(number, found, part.found_keys_of(reached));
    }
}

/// Says how far the search is. If that cannot be written, it is not said.
fn tell_progress<E: Sink>(
    alloc: Global,
    errors: &mut E,
    looked_at: u32,
    states: &States,
    ends: usize,
) -> Result<(), Memory> {
    let mut line = String::new(alloc);
    let seen = states.count();
    write!(
        line,
        "looked at {looked_at} of {seen} states so far, {ends} ends\n"
    )?;
    let _ = write_all(errors, line.as_bytes());
    Ok(())
}

/// Adds the end that a run in this order comes to, if it is one that is looked for, and none of those that are there.
fn push_end<G: Gate>(
    alloc: Global,
    search: Search,
    gate: &G,
    course: &mut Course,
    order: Vec<Tag>,
) -> Result<(), Memory> {
    let told = told_in_order(alloc, search, gate, order.as_slice())?;
    push_way(search, course, Way { order, told })
}

/// The same of an end that is known.
fn push_way(search: Search, course: &mut Course, way: Way) -> Result<(), Memory> {
    if is_new(&course.ends, &way, search.wanted, &course.usual) {
        course.ends.push(way)?;
    }
    Ok(())
}

/// Adds the ends of runs in random orders. The answer says whether as many ends are there as are looked for.
fn sample<G: Gate>(
    alloc: Global,
    search: Search,
    gate: &G,
    course: &mut Course,
) -> Result<bool, Memory> {
    push_usual(alloc, search, course)?;
    let mut trial = Trial::new(alloc, search.task.script)?;
    sample_by(alloc, search, gate, course, &mut trial)
}

/// Adds the end of one worker.
fn push_usual(alloc: Global, search: Search, course: &mut Course) -> Result<(), Memory> {
    let usual = Way {
        order: Vec::new(alloc),
        told: course.usual.copied(alloc)?,
    };
    push_way(search, course, usual)
}

/// Adds the ends of runs in random orders, which are made by this one.
fn sample_by<G: Gate>(
    alloc: Global,
    search: Search,
    gate: &G,
    course: &mut Course,
    trial: &mut Trial<Notes>,
) -> Result<bool, Memory>
    requires { TrialStands (program_of search.task.script.now) trial.old }
{
    let script = search.task.script;
    let mut numbers = Numbers::new();
    let runs = runs_of(alloc, script)?;
    for run in 0..runs {
        if course.ends.len() >= search.ends {
            return Ok(true);
        }
        let order = random_order(alloc, script, gate, trial, &mut numbers, run % 2 == 1)?;
        push_end(alloc, search, gate, course, order)?;
    }
    Ok(course.ends.len() >= search.ends)
}

/// How a search ended that found all that it was to find, or left a state out.
fn verdict_of(found: bool, full: bool) -> Verdict {
    if found {
        Verdict::Found
    } else if full {
        Verdict::Cut
    } else {
        Verdict::Exhausted
    }
}

/// What is told of the end that a run in this order comes to.
fn told_in_order<G: Gate>(
    alloc: Global,
    search: Search,
    gate: &G,
    order: &[Tag],
) -> Result<Account, Memory> {
    let script = search.task.script;
    let done = run_in_order::<Notes, G>(alloc, script, gate, order)?.done;
    told_of(alloc, script, search.source, search.tell, &done)
}

/// Whether it is an end that is looked for, and none of these.
fn is_new(ends: &Vec<Way>, way: &Way, wanted: Option<Wanted>, usual: &Account) -> bool {
    if let Some(wanted) = wanted {
        if !way.told.is(wanted, usual) {
            return false;
        }
    }
    for end in ends.as_slice() {
        if end.told.is_same(&way.told) {
            return false;
        }
    }
    true
}
