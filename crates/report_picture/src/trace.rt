//! A trace of a report: what happens on the tracks of its coroutines and Jobs.
//!
//! Times are places in an order that both histories allow, ten for each line: they say what came before what, and not how long it took.

ghost use Rattle.std.specs.Prelude.{◌≡◌, ◌++◌, ◌∷◌, [], ◌&&◌, not, false, IfOk, OnOk, filter, map};
ghost use Rattle.report_reader.specs.Reading.{told, told_lines};
ghost use Rattle.report_picture.specs.Traces.{Tells, is_asked_for, is_traced};

use crate::arrows::{Arrow, channels_of};
use crate::columns::Wanted;
use crate::jobs::{Jobs, Stretch, Wait, jobs_of, waits_in};
use crate::looks::Look;
use crate::notes::Note;
use crate::order::caused_order;
use crate::told::{BookLines, told_in};
use gathered::{Gathered, at};
use picture_parts::{Names, is_bookkeeping};
use report_reader::{Line, Said};
use std::alloc::{AllocError, Global};

/// The track of a coroutine, or of a Job.
#[derive(Clone, Copy)]
pub struct Track {
    pub is_job: bool,
    /// The tag of the coroutine, or the row of the Job.
    pub number: u32,
}

/// A line of a book when it was written. One that an arrow joins to another lasts for eight.
#[derive(Clone, Copy)]
pub struct Moment<'a> {
    pub at: u64,
    pub joined: bool,
    pub line: Line<'a>,
    /// The line of the script that it comes from; empty where that is not known.
    pub source: &'a [u8],
}

/// What happens on a track.
#[derive(Clone, Copy)]
pub enum Happening {
    /// Something that lasts so long.
    Lasts { from: u64, lasts: u64 },
    /// An arrow begins.
    Leaves { at: u64, flow: u64 },
    /// An arrow ends.
    Arrives { at: u64, flow: u64 },
}

/// What happens on a track, with the line of the report that tells it, and the line of the script that this comes from.
#[derive(Clone, Copy)]
pub struct Event<'a> {
    pub track: u64,
    pub name: &'a [u8],
    pub category: &'a [u8],
    pub happening: Happening,
    pub line: &'a [u8],
    /// Empty where it is not known.
    pub source: &'a [u8],
}

/// A trace of a report.
#[derive(Drop)]
pub struct Trace<'a> {
    /// Of each coroutine, in the order of the tags, the name of its block, if there is a script.
    pub names: &'a [Vec<u8>],
    pub tracks: Vec<Track>,
    pub moments: Vec<Moment<'a>>,
    /// Waits, states of Jobs, and arrows.
    pub events: Vec<Event<'a>>,
}

/// A trace, and whether an order was found that fits the lines; else they follow one another as in the report.
#[derive(Drop)]
pub struct Tracing<'a> {
    pub trace: Trace<'a>,
    pub in_order: bool,
}

// ---- which lines

/// Whether a coroutine is asked for.
fn is_asked_for(wanted: Wanted, said: Said) -> bool
    ensures { result ≡ is_asked_for wanted said }
{
    match said {
        Said::Note(tag) => wanted.first <= tag && tag <= wanted.last,
        Said::Job(_) | Said::Element => false,
    }
}

/// Whether a line has its moment in the trace.
fn is_traced(wanted: Wanted, line: Line) -> bool
    ensures { result ≡ is_traced wanted (told line.entry) }
{
    is_asked_for(wanted, line.said) && !(wanted.only_channels && is_bookkeeping(line.text))
}

// ---- when

/// A line of the books: when it was written, and what is told of it.
#[derive(Clone, Copy)]
struct When<'a> {
    at: u64,
    /// Whether an arrow joins it to another line.
    joined: bool,
    /// Whether it is asked for.
    shown: bool,
    /// The track of its coroutine.
    track: u64,
    text: &'a [u8],
    channel: &'a [u8],
    source: &'a [u8],
}

/// A line of the books, if they are in the order of the report.
fn when_of<'a>(wanted: Wanted, names: Names<'a>, number: usize, note: &Note<'a>) -> When<'a> {
    let line = Line {
        said: Said::Note(note.tag),
        text: note.text,
    };
    When {
        at: (number as u64).saturating_mul(10),
        joined: false,
        shown: is_traced(wanted, line),
        track: u64::from(note.tag) * 2,
        text: note.text,
        channel: note.channel,
        source: names.source_at(number),
    }
}

/// The line with this number; behind the last the end.
fn when_at<'a>(whens: &[When<'a>], number: usize) -> When<'a> {
    let end = When {
        at: (whens.len() as u64).saturating_mul(10),
        joined: false,
        shown: false,
        track: 0,
        text: b"",
        channel: b"",
        source: b"",
    };
    at(whens, number, end)
}

/// Tells of the lines when they were written that are in this order, and which these arrows join.
fn give_times<'a>(whens: &mut Vec<When<'a>>, order: &[usize], arrows: &[Arrow]) {
    for (place, number) in order.iter().enumerate() {
        if *number < whens.len() {
            whens[*number].at = (place as u64).saturating_mul(10);
        }
    }
    for arrow in arrows {
        join(whens, arrow.from);
        join(whens, arrow.to);
    }
}

/// Tells that an arrow joins a line to another.
fn join<'a>(whens: &mut Vec<When<'a>>, number: usize) {
    if number < whens.len() {
        whens[number].joined = true;
    }
}

/// The lines of the books, as they follow one another in this order, or in that of the report, where it is empty; and which of them these
/// arrows join.
fn whens_of<'a>(
    alloc: Global,
    wanted: Wanted,
    names: Names<'a>,
    notes: &[Note<'a>],
    order: &[usize],
    arrows: &[Arrow],
) -> Gathered<When<'a>> {
    let mut whens = Gathered::new(alloc);
    for (number, note) in notes.iter().enumerate() {
        whens.add(when_of(wanted, names, number, note));
    }
    give_times(whens.as_mut(), order, arrows);
    whens
}

// ---- the lines

/// Adds the moment of a line, if it has one.
fn add_moment<'a>(
    moments: &mut Gathered<Moment<'a>>,
    wanted: Wanted,
    when: &When<'a>,
    line: Line<'a>,
)
    ensures { moments.new.full ≡ false → (moments.old.full ≡ false) × (map (λ m. told m.line) moments.new.list.items
        ≡ map (λ m. told m.line) moments.old.list.items ++ filter (is_traced wanted) (told line.entry ∷ [])) }
{
    if is_traced(wanted, line) {
        moments.add(Moment {
            at: when.at,
            joined: when.joined,
            line,
            source: when.source,
        });
    }
}

/// Adds the lines that are asked for, each with its time.
fn add_moments<'a>(
    moments: &mut Gathered<Moment<'a>>,
    wanted: Wanted,
    lines: &[Line<'a>],
    whens: &[When<'a>],
)
    ensures { moments.new.full ≡ false → map (λ m. told m.line) moments.new.list.items
        ≡ map (λ m. told m.line) moments.old.list.items ++ filter (is_traced wanted) (told_lines lines.now) }
{
    let mut rest = lines;
    let mut i = 0usize;
    while let [line, more @ ..] = rest {
        add_moment(moments, wanted, &when_at(whens, i), *line);
        i = i.saturating_add(1);
        rest = more;
    }
}

/// The lines that are asked for, each with its time.
fn moments_in<'a>(
    alloc: Global,
    wanted: Wanted,
    lines: &[Line<'a>],
    whens: &[When<'a>],
) -> Result<Vec<Moment<'a>>, AllocError>
    ensures { IfOk result (λ moments. map (λ m. told m.line) moments.items ≡ filter (is_traced wanted) (told_lines lines.now)) }
{
    let mut moments = Gathered::new(alloc);
    add_moments(&mut moments, wanted, lines, whens);
    moments.whole()
}

// ---- the rest

/// What happens at a line, on a track.
fn event_at<'a>(
    when: &When<'a>,
    track: u64,
    names: (&'a [u8], &'a [u8]),
    happening: Happening,
) -> Event<'a> {
    let (name, category) = names;
    Event {
        track,
        name,
        category,
        happening,
        line: when.text,
        source: when.source,
    }
}

/// What lasts from one time to another.
fn lasting(from: u64, until: u64) -> Happening {
    Happening::Lasts {
        from,
        lasts: until.saturating_sub(from),
    }
}

/// A Job in one state.
fn state_event<'a>(whens: &[When<'a>], one: &Stretch) -> Event<'a> {
    let from = when_at(whens, one.since);
    let lasts = lasting(from.at, when_at(whens, one.until).at);
    let track = u64::from(one.row) * 2 + 1;
    event_at(&from, track, (one.state.word(), b"state"), lasts)
}

/// A wait, from behind the line that began it to before its settle.
fn wait_event<'a>(from: &When<'a>, settle: &When<'a>, name: &'a [u8]) -> Event<'a> {
    let lasts = lasting(from.at.saturating_add(9), settle.at.saturating_sub(1));
    event_at(from, from.track, (name, b"wait"), lasts)
}

/// The name and the category of an arrow, of an element of this channel, if it is one of an element.
fn names_of<'a>(look: Look, channel: &'a [u8]) -> (&'a [u8], &'a [u8]) {
    match look {
        Look::Brings(_) => (channel, b"element"),
        Look::Cancels => (b"cancel", b"cancel"),
        _ => (b"brings about", b"cause"),
    }
}

/// The beginning of an arrow, or its end.
fn flow_event<'a>(whens: &[When<'a>], flow: u64, arrow: &Arrow, leaves: bool) -> Event<'a> {
    let from = when_at(whens, arrow.from);
    let here = if leaves {
        from
    } else {
        when_at(whens, arrow.to)
    };
    let at = here.at.saturating_add(1);
    let happening = if leaves {
        Happening::Leaves { at, flow }
    } else {
        Happening::Arrives { at, flow }
    };
    event_at(
        &here,
        here.track,
        names_of(arrow.look, from.channel),
        happening,
    )
}

/// The tracks of the coroutines that are asked for, and of the Jobs of them and in them.
fn tracks_in(alloc: Global, wanted: Wanted, begun: &[Stretch]) -> Result<Vec<Track>, AllocError> {
    let mut tracks = Gathered::new(alloc);
    for one in begun {
        if is_asked_for(wanted, Said::Note(one.tag)) {
            tracks.add(Track {
                is_job: !one.is_first,
                number: one.row,
            });
        }
    }
    tracks.whole()
}

/// Adds the stretches of the Jobs that have tracks.
fn add_states<'a>(
    events: &mut Gathered<Event<'a>>,
    wanted: Wanted,
    whens: &[When<'a>],
    stretches: &[Stretch],
) {
    for one in stretches {
        if is_asked_for(wanted, Said::Note(one.tag)) & !one.is_over() {
            events.add(state_event(whens, one));
        }
    }
}

/// Adds the waits that begin at lines which are asked for.
fn add_waits<'a>(events: &mut Gathered<Event<'a>>, whens: &[When<'a>], waits: &[Wait<'a>]) {
    for wait in waits {
        let from = when_at(whens, wait.from);
        if from.shown {
            let settle = when_at(whens, wait.to);
            events.add(wait_event(&from, &settle, wait.name));
        }
    }
}

/// Adds the arrows of which both lines are asked for.
fn add_flows<'a>(events: &mut Gathered<Event<'a>>, whens: &[When<'a>], arrows: &[Arrow]) {
    for (flow, arrow) in arrows.iter().enumerate() {
        if when_at(whens, arrow.from).shown & when_at(whens, arrow.to).shown {
            events.add(flow_event(whens, flow as u64, arrow, true));
            events.add(flow_event(whens, flow as u64, arrow, false));
        }
    }
}

/// What happens on the tracks: the states of the Jobs, the waits, and the arrows.
fn events_in<'a>(
    alloc: Global,
    wanted: Wanted,
    whens: &[When<'a>],
    stretches: &[Stretch],
    waits: &[Wait<'a>],
    arrows: &[Arrow],
) -> Result<Vec<Event<'a>>, AllocError> {
    let mut events = Gathered::new(alloc);
    add_states(&mut events, wanted, whens, stretches);
    add_waits(&mut events, whens, waits);
    add_flows(&mut events, whens, arrows);
    events.whole()
}

/// Gives a trace its tracks and what happens on them, if memory held all that it is told by.
fn give_events<'a>(
    trace: &mut Trace<'a>,
    alloc: Global,
    wanted: Wanted,
    whens: &[When<'a>],
    jobs: &Jobs,
    waits: &Gathered<Wait<'a>>,
    arrows: &[Arrow],
) -> Result<(), AllocError>
    ensures { OnOk result (trace.new.names.now ≡ trace.old.names.now) }
{
    if waits.full | jobs.stretches.full {
        return Err(AllocError);
    }
    let stretches = jobs.stretches.as_slice();
    trace.tracks = tracks_in(alloc, wanted, jobs.begun.as_slice())?;
    trace.events = events_in(alloc, wanted, whens, stretches, waits.as_slice(), arrows)?;
    Ok(())
}

/// Gives a trace what the lines of the books say, in this order, or in that of the report, where it is empty.
fn give_told<'a>(
    trace: &mut Trace<'a>,
    alloc: Global,
    wanted: Wanted,
    told: &BookLines<'a>,
    order: &[usize],
    whens: &[When<'a>],
    arrows: &[Arrow],
) -> Result<(), AllocError>
    ensures { OnOk result (trace.new.names.now ≡ trace.old.names.now) }
{
    let mut jobs = jobs_of(alloc, told, order);
    jobs.end();
    let waits = waits_in(alloc, told);
    give_events(trace, alloc, wanted, whens, &jobs, &waits, arrows)
}

/// Gives a trace the lines of a report, and what they tell, by what each line of the books is in this order; tells whether it has all of
/// them.
fn give_lines<'a>(
    trace: &mut Trace<'a>,
    alloc: Global,
    wanted: Wanted,
    lines: &[Line<'a>],
    told: &BookLines<'a>,
    order: &[usize],
    whens: &Gathered<When<'a>>,
    arrows: &[Arrow],
) -> Result<bool, AllocError>
    ensures told { OnOk result (Tells wanted (told_lines lines.now) trace.new) }
    ensures names { OnOk result (trace.new.names.now ≡ trace.old.names.now) }
{
    if whens.full | told.notes.full {
        return Err(AllocError);
    }
    let whens = whens.as_slice();
    give_told(trace, alloc, wanted, told, order, whens, arrows)?;
    trace.moments = moments_in(alloc, wanted, lines, whens)?;
    Ok(order.len() == whens.len())
}

/// Gives a trace the lines of a report, and what they tell, in an order that their causes allow, and tells whether there is one.
fn give_ordered<'a>(
    trace: &mut Trace<'a>,
    alloc: Global,
    wanted: Wanted,
    names: Names<'a>,
    lines: &[Line<'a>],
    told: &BookLines<'a>,
    arrows: &[Arrow],
) -> Result<bool, AllocError>
    ensures told { OnOk result (Tells wanted (told_lines lines.now) trace.new) }
    ensures names { OnOk result (trace.new.names.now ≡ trace.old.names.now) }
{
    let order = caused_order(alloc, told)?;
    let notes = told.notes.as_slice();
    let whens = whens_of(alloc, wanted, names, notes, order.as_slice(), arrows);
    let order = order.as_slice();
    give_lines(trace, alloc, wanted, lines, told, order, &whens, arrows)
}

/// The same, of lines of which nothing is known yet.
fn give_report<'a>(
    trace: &mut Trace<'a>,
    alloc: Global,
    wanted: Wanted,
    names: Names<'a>,
    lines: &[Line<'a>],
) -> Result<bool, AllocError>
    ensures told { OnOk result (Tells wanted (told_lines lines.now) trace.new) }
    ensures names { OnOk result (trace.new.names.now ≡ trace.old.names.now) }
{
    let mut told = told_in(alloc, lines);
    let channels = channels_of(alloc, &told);
    told.notes.full = told.notes.full | channels.arrows.full;
    let arrows = channels.arrows.as_slice();
    give_ordered(trace, alloc, wanted, names, lines, &told, arrows)
}

/// The trace of a report: each line that is asked for, and what its coroutines and Jobs went through. The names are those of a script
/// that the report is one of.
pub fn trace_of<'a>(
    alloc: Global,
    wanted: Wanted,
    names: Names<'a>,
    lines: &[Line<'a>],
) -> Result<Tracing<'a>, AllocError>
    ensures told { IfOk result (λ tracing. Tells wanted (told_lines lines.now) tracing.trace) }
    ensures names { IfOk result (λ tracing. tracing.trace.names.now ≡ names.entry.blocks.now) }
{
    let mut trace = Trace {
        names: names.blocks,
        tracks: Vec::new(alloc),
        moments: Vec::new(alloc),
        events: Vec::new(alloc),
    };
    match give_report(&mut trace, alloc, wanted, names, lines) {
        Ok(in_order) => Ok(Tracing { trace, in_order }),
        Err(fault) => Err(fault),
    }
}
