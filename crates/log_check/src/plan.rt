//! What the lines of a report say of the whole run, before any of them is written. Nothing is claimed of it.

use crate::rows::NO_ROW;
use crate::sleepers::{NO_THINGS, Things, same_of};
use channel_model::{Act, ChannelNote, Kind, Settled};
use co_base::{ChannelId, Memory, Place, Row, Tag, WaitId};
use gathered::{Gathered, at, put};
use history_text::Line;
use job_model::{JobAct, JobNote};
use note_book::Item;
use script_reader::Script;
use std::alloc::Global;

/// A place that no line begins, and a line that there is not.
pub(crate) const NOWHERE: u32 = u32::MAX;

/// How a place is begun.
#[derive(Clone, Copy)]
pub(crate) enum Begins {
    /// No line says it.
    Unsaid,
    /// By an element for which its channel has room.
    WithRoom,
    /// By an element that comes while its channel is full.
    WhenFull,
    /// By a receiver that waits.
    Receiver,
}

impl Begins {
    pub(crate) fn is_element(self) -> bool {
        matches!(self, Begins::WithRoom | Begins::WhenFull)
    }

    pub(crate) fn is_receiver(self) -> bool {
        matches!(self, Begins::Receiver)
    }
}

/// What is said of one place.
#[derive(Clone, Copy)]
pub(crate) struct PlacePlan {
    pub(crate) c: ChannelId,
    pub(crate) begins: Begins,
    /// The next place of the same wait, which is its own if the wait has one place.
    pub(crate) mate: u32,
    /// How many elements came to places before it, and how many before the first, from here on, at which the channel is full.
    pub(crate) before: u32,
    pub(crate) before_full: u32,
}

const NO_PLACE: PlacePlan = PlacePlan {
    c: ChannelId::MAX,
    begins: Begins::Unsaid,
    mate: NOWHERE,
    before: 0,
    before_full: u32::MAX,
};

/// What is said of one channel.
#[derive(Clone, Copy)]
pub(crate) struct ChannelPlan {
    /// How many elements it keeps.
    pub(crate) keeps: u32,
    /// Where its places begin among those of all channels, and how many it has.
    pub(crate) from: u32,
    pub(crate) count: u32,
    /// How many lines say that it is empty, and that it is full.
    pub(crate) empties: u32,
    pub(crate) fulls: u32,
}

/// A channel that there is not.
pub(crate) const NO_CHANNEL: ChannelPlan = ChannelPlan {
    keeps: u32::MAX,
    ..UNUSED
};

/// A channel of which no line tells, and which keeps nothing.
const UNUSED: ChannelPlan = ChannelPlan {
    keeps: 0,
    from: 0,
    count: 0,
    empties: 0,
    fulls: 0,
};

/// What is said of all.
#[derive(Drop)]
pub(crate) struct Plan {
    /// Of each coroutine where its lines stand.
    own: Vec<Vec<u32>>,
    /// Of each line the innermost Job of its coroutine.
    inner: Gathered<Row>,
    pub(crate) channels: Gathered<ChannelPlan>,
    pub(crate) places: Gathered<PlacePlan>,
    /// How many channels are not done channels.
    declared: usize,
    pub(crate) things: Things,
}

fn keeps_of(kind: Kind) -> u32 {
    match kind {
        Kind::Rendezvous | Kind::Signal => 0,
        Kind::Buffered(n) | Kind::DropOldest(n) | Kind::DropLatest(n) => n,
        Kind::Unlimited => u32::MAX,
        Kind::Conflated => 1,
    }
}

/// A place that an item begins: how, and for which wait, if it is for one.
#[derive(Clone, Copy)]
struct Begun {
    c: ChannelId,
    place: Place,
    begins: Begins,
    wait: Option<WaitId>,
}

/// The place that an item begins, if it begins one, with the item behind it.
fn begun_by(item: Item, next: Option<Item>) -> Option<Begun> {
    let Item::Channel(ChannelNote::Made(act)) = item else {
        return None;
    };
    let (c, place, begins, wait) = match act {
        Act::Put { c, place, .. } if loses(next) => (c, place, Begins::WhenFull, None),
        Act::Put { c, place, .. } => (c, place, Begins::WithRoom, None),
        Act::Offer { c, place, main, .. } => (c, place, Begins::WhenFull, Some(main)),
        Act::Await { c, place, main, .. } => (c, place, Begins::Receiver, Some(main)),
        _ => return None,
    };
    Some(Begun {
        c,
        place,
        begins,
        wait,
    })
}

/// Whether an item tells that an element is lost.
fn loses(item: Option<Item>) -> bool {
    matches!(
        item,
        Some(Item::Channel(ChannelNote::Made(Act::Drop { .. } | Act::Spurn { .. })))
    )
}

/// The wait for which a place was begun, if it was for one, and the place.
#[derive(Clone, Copy)]
struct Waiting {
    wait: Option<WaitId>,
    at: u32,
}

const NOT_WAITING: Waiting = Waiting {
    wait: None,
    at: NOWHERE,
};

impl Waiting {
    /// Whether it is this wait.
    fn is_of(self, wait: Option<WaitId>) -> bool {
        match (self.wait, wait) {
            (Some(one), Some(other)) => one == other,
            _ => false,
        }
    }
}

/// The channels before their lines are counted: those that the script declares, and those of its Jobs.
fn channels_of(alloc: Global, script: &Script) -> Gathered<ChannelPlan> {
    let mut channels = Gathered::new(alloc);
    for channel in script.channels() {
        let keeps = keeps_of(channel.kind);
        channels.add(ChannelPlan { keeps, ..UNUSED });
    }
    for _ in 0..script.jobs() {
        channels.add(UNUSED);
    }
    channels
}

/// So many lists with nothing in them.
fn no_lines(alloc: Global, count: u16) -> Result<Vec<Vec<u32>>, Memory> {
    let mut own = Vec::with_capacity(alloc, count as usize)?;
    for _ in 0..count {
        own.push(Vec::new(alloc))?;
    }
    Ok(own)
}

/// Tells where the lines of each coroutine stand.
fn read_own(own: &mut Vec<Vec<u32>>, lines: &[Line]) -> Result<(), Memory> {
    let mut place = 0u32;
    for line in lines {
        let who = line.who as usize;
        if who < own.len() {
            own[who].push(place)?;
        }
        place = place.saturating_add(1);
    }
    Ok(())
}

/// Adds the places of a channel.
fn add_places(places: &mut Gathered<PlacePlan>, c: ChannelId, channel: ChannelPlan) {
    let mut mate = channel.from;
    for _ in 0..channel.count {
        places.add(PlacePlan {
            c,
            mate,
            ..NO_PLACE
        });
        mate = mate.saturating_add(1);
    }
}

impl Plan {
    /// What these lines say.
    pub(crate) fn new(alloc: Global, script: &Script, lines: &[Line]) -> Result<Plan, Memory> {
        let mut own = no_lines(alloc, script.coroutines())?;
        read_own(&mut own, lines)?;
        let mut plan = Plan {
            own,
            inner: same_of(alloc, 0u16, lines.len()),
            channels: channels_of(alloc, script),
            places: Gathered::new(alloc),
            declared: script.channels().len(),
            things: NO_THINGS,
        };
        let read = plan.read_lines(alloc, lines, script.coroutines());
        if read { Ok(plan) } else { Err(Memory) }
    }

    /// Reads what the lines say. The answer says whether memory held all of it.
    fn read_lines(&mut self, alloc: Global, lines: &[Line], coroutines: u16) -> bool {
        self.count_lines(lines);
        self.lay_out();
        self.things = Things {
            places: self.places.len(),
            channels: self.channels.len(),
        };
        let mut inside = Gathered::new(alloc);
        self.read_all(lines, coroutines, &mut inside);
        self.count_elements();
        self.look_ahead();
        let lists = self.inner.is_whole() && self.channels.is_whole();
        lists && self.places.is_whole() && inside.is_whole()
    }

    /// Counts for each channel the places, and the lines that say that it is empty or full.
    fn count_lines(&mut self, lines: &[Line]) {
        for line in lines {
            if let Item::Channel(note) = line.item {
                self.count(note);
            }
        }
    }

    fn count(&mut self, note: ChannelNote) {
        let (c, begun, empties, fulls) = match note {
            ChannelNote::Made(Act::Put { c, .. } | Act::Offer { c, .. } | Act::Await { c, .. }) => (
                c, 1, 0, 0,
            ),
            ChannelNote::Empty { c } => (c, 0, 1, 0),
            ChannelNote::Full { c, .. } => (c, 0, 0, 1),
            _ => return,
        };
        let planned = self.channel(c);
        put(
            self.channels.as_mut(),
            c as usize,
            ChannelPlan {
                count: planned.count.saturating_add(begun),
                empties: planned.empties.saturating_add(empties),
                fulls: planned.fulls.saturating_add(fulls),
                ..planned
            },
        );
    }

    /// Gives each channel its places.
    fn lay_out(&mut self) {
        let mut c = 0u16;
        let mut from = 0u32;
        for channel in self.channels.as_mut().iter_mut() {
            channel.from = from;
            from = from.saturating_add(channel.count);
            add_places(&mut self.places, c, *channel);
            c = c.saturating_add(1);
        }
    }

    /// Counts the elements that come before each place.
    fn count_elements(&mut self) {
        let mut last = ChannelId::MAX;
        let mut before = 0u32;
        for place in self.places.as_mut().iter_mut() {
            if last != place.c {
                before = 0;
            }
            last = place.c;
            place.before = before;
            if !place.begins.is_receiver() {
                before = before.saturating_add(1);
            }
        }
    }

    /// Looks from each place on for the first at which its channel is full.
    fn look_ahead(&mut self) {
        let mut last = ChannelId::MAX;
        let mut full = u32::MAX;
        for place in self.places.as_mut().iter_mut().rev() {
            if last != place.c {
                full = u32::MAX;
            }
            last = place.c;
            if matches!(place.begins, Begins::WhenFull) {
                full = place.before;
            }
            place.before_full = full;
        }
    }

    /// Reads the lines of all coroutines, each of which is inside its own Job at first.
    fn read_all(&mut self, lines: &[Line], coroutines: u16, inside: &mut Gathered<Row>) {
        for tag in 0..coroutines {
            inside.clear();
            inside.add(tag);
            self.read(lines, tag, inside);
        }
    }

    /// Reads the lines of one coroutine.
    fn read(&mut self, lines: &[Line], tag: Tag, inside: &mut Gathered<Row>) {
        let mut last = NOT_WAITING;
        for number in 0..self.own_count(tag) {
            let place = self.line_of(tag, number) as usize;
            if place < lines.len() {
                let item = lines[place].item;
                let next = item_at(lines, self.line_of(tag, number.saturating_add(1)));
                self.begin(begun_by(item, next), &mut last);
                put(self.inner.as_mut(), place, last_of(inside.as_slice(), tag));
                enter_or_leave(inside, item, tag);
            }
        }
    }

    /// Notes how an item begins a place; `last` is the wait of the item before it, and the place that it began.
    fn begin(&mut self, begun: Option<Begun>, last: &mut Waiting) {
        let Some(begun) = begun else {
            *last = NOT_WAITING;
            return;
        };
        let place_at = self.place_at(begun.c, begun.place);
        if place_at == NOWHERE {
            return;
        }
        let mate = if last.is_of(begun.wait) {
            self.set_mate(last.at, place_at)
        } else {
            place_at
        };
        *last = Waiting {
            wait: begun.wait,
            at: place_at,
        };
        let planned = PlacePlan {
            begins: begun.begins,
            mate,
            ..self.place(place_at)
        };
        put(self.places.as_mut(), place_at as usize, planned);
    }

    /// Makes a place the next of the wait of another. The answer is the one that was next before.
    fn set_mate(&mut self, place: u32, mate: u32) -> u32 {
        let planned = self.place(place);
        put(
            self.places.as_mut(),
            place as usize,
            PlacePlan { mate, ..planned },
        );
        planned.mate
    }

    /// How many lines a coroutine has.
    pub(crate) fn own_count(&self, tag: Tag) -> usize {
        self.own_lines(tag).len()
    }

    /// Where the lines of a coroutine stand.
    fn own_lines(&self, tag: Tag) -> &[u32] {
        match self.own.get(tag as usize) {
            Some(own) => own.as_slice(),
            None => &[],
        }
    }

    /// Where the line of a coroutine stands that has this number among its own; `NOWHERE`, if it has none.
    pub(crate) fn line_of(&self, tag: Tag, number: usize) -> u32 {
        at(self.own_lines(tag), number, NOWHERE)
    }

    /// The innermost Job of its coroutine at a line.
    pub(crate) fn inner_of(&self, line: usize) -> Row {
        at(self.inner.as_slice(), line, 0)
    }

    pub(crate) fn channel(&self, c: ChannelId) -> ChannelPlan {
        at(self.channels.as_slice(), c as usize, NO_CHANNEL)
    }

    /// Where a place stands among those of all channels; `NOWHERE`, if no line begins it.
    pub(crate) fn place_at(&self, c: ChannelId, place: Place) -> u32 {
        let channel = self.channel(c);
        if place < channel.count {
            channel.from.saturating_add(place)
        } else {
            NOWHERE
        }
    }

    /// What is said of the place that stands there.
    pub(crate) fn place(&self, place_at: u32) -> PlacePlan {
        at(self.places.as_slice(), place_at as usize, NO_PLACE)
    }

    /// The row of the Job that may not be Cancelling when a line is written that stands there; `NO_ROW`, if there is none.
    pub(crate) fn needs_calm(&self, item: Item, line: usize) -> Row {
        let Item::Channel(
            ChannelNote::Made(
                Act::Settle {
                    w,
                    outcome: Settled::Value(_, _) | Settled::Sent(_) | Settled::Closed(_, _),
                },
            ),
        ) = item
        else {
            return NO_ROW;
        };
        let row = self.inner_of(line);
        let leaves = (w.channel as usize) == self.declared.saturating_add(row as usize);
        if leaves { NO_ROW } else { row }
    }

    /// The done channel of a row.
    pub(crate) fn done_channel(&self, row: Row) -> ChannelId {
        let place = self.declared.saturating_add(row as usize);
        ChannelId::try_from(place).ok().unwrap_or(ChannelId::MAX)
    }
}

/// The last of some rows; the other, if there is none.
fn last_of(rows: &[Row], other: Row) -> Row {
    at(rows, rows.len().saturating_sub(1), other)
}

fn item_at(lines: &[Line], line: u32) -> Option<Item> {
    let place = line as usize;
    if place < lines.len() {
        Some(lines[place].item)
    } else {
        None
    }
}

/// Keeps the scopes that a coroutine is inside, and its own Job below them.
fn enter_or_leave(inside: &mut Gathered<Row>, item: Item, tag: Tag) {
    match item {
        Item::Job(
            JobNote::Made(
                JobAct::Attach {
                    row,
                    kind,
                    tag: of,
                    ..
                },
            ),
        ) => {
            if kind.scoped && of == tag {
                inside.add(row);
            }
        }
        Item::Job(JobNote::SawEnd { row, .. }) => {
            if inside.len() > 1 && last_of(inside.as_slice(), tag) == row {
                let _left = inside.pop();
            }
        }
        _ => {}
    }
}
