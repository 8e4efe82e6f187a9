//! What stands in the channels of a run, as its lines say. Nothing is claimed of it.

use crate::plan::{Begins, ChannelPlan, NO_CHANNEL, NOWHERE, Plan};
use crate::sleepers::{UNKNOWN, same_of};
use channel_model::{Act, ChannelNote};
use co_base::{ChannelId, Place, WaitId};
use gathered::{Gathered, at, put};
use std::alloc::Global;

/// How many clauses a select has at most, and one more.
const CLAUSES: u32 = 8;

/// One channel.
#[derive(Clone, Copy)]
pub(crate) struct Queue {
    planned: ChannelPlan,
    /// How many places are begun; which of them is the first that stands, or `next`, if none does; and how many stand.
    next: u32,
    first: u32,
    pub(crate) standing: u32,
    pub(crate) closed: bool,
    /// How many lines are left that say that it is empty, and that it is full.
    pub(crate) empties: u32,
    pub(crate) fulls: u32,
}

/// What happens to a channel.
#[derive(Clone, Copy)]
pub(crate) enum Step {
    /// A place is begun, or ended.
    Begun,
    Ended,
    Closed,
    SaidEmpty,
    SaidFull,
}

/// A change of a channel, which can be taken back, and the place that is begun or ended, if one is.
#[derive(Clone, Copy)]
pub(crate) struct Change {
    pub(crate) c: ChannelId,
    pub(crate) at: u32,
    pub(crate) step: Step,
}

/// No change: there is no such channel.
pub(crate) const NO_CHANGE: Change = Change {
    c: ChannelId::MAX,
    at: NOWHERE,
    step: Step::Closed,
};

impl Change {
    /// Whether it is one of a place.
    pub(crate) fn is_of_place(self) -> bool {
        matches!(self.step, Step::Begun | Step::Ended)
    }

    /// Whether a place stands behind it, if it is one of a place.
    fn stands(self, back: bool) -> bool {
        matches!(self.step, Step::Begun) != back
    }
}

/// What a line tells of a channel: a place that is begun, or one of those that end with their wait.
#[derive(Clone, Copy)]
struct Told {
    c: ChannelId,
    place: Place,
    step: Step,
    /// Whether the place itself stays.
    stays: bool,
}

/// What a line tells of a channel, if it tells of a change.
fn told_by(note: ChannelNote) -> Option<Told> {
    let (c, place, step, stays) = match note {
        ChannelNote::Made(
            Act::Put { c, place, .. } | Act::Offer { c, place, .. } | Act::Await { c, place, .. },
        ) => (c, place, Step::Begun, false),
        ChannelNote::Made(
            Act::Hand { c, place, .. }
            | Act::Take { c, place, .. }
            | Act::Drop { c, place, .. }
            | Act::Spurn { c, place, .. }
            | Act::Drain { c, place, .. }
            | Act::WakeClosed { c, place },
        ) => (c, place, Step::Ended, false),
        ChannelNote::Made(Act::Admit { c, place }) => (c, place, Step::Ended, true),
        ChannelNote::Made(Act::Withdraw { w, .. }) => (w.channel, w.place, Step::Ended, false),
        ChannelNote::Made(Act::Close { c, .. }) => (c, NOWHERE, Step::Closed, false),
        ChannelNote::Empty { c } => (c, NOWHERE, Step::SaidEmpty, false),
        ChannelNote::Full { c, .. } => (c, NOWHERE, Step::SaidFull, false),
        _ => return None,
    };
    Some(Told {
        c,
        place,
        step,
        stays,
    })
}

/// All channels.
#[derive(Drop)]
pub(crate) struct Queues {
    queues: Gathered<Queue>,
    stands: Gathered<bool>,
}

const NO_QUEUE: Queue = Queue {
    planned: NO_CHANNEL,
    next: 0,
    first: 0,
    standing: 0,
    closed: false,
    empties: 0,
    fulls: 0,
};

/// One more, or one less.
pub(crate) fn moved(number: u32, up: bool) -> u32 {
    if up {
        number.saturating_add(1)
    } else {
        number.saturating_sub(1)
    }
}

impl Queue {
    /// The place that has this number among its own.
    fn place(self, number: u32) -> u32 {
        self.planned.from.saturating_add(number)
    }

    /// The first place that stands; `NOWHERE`, if none does.
    fn first_place(self) -> u32 {
        if self.first < self.next {
            self.place(self.first)
        } else {
            NOWHERE
        }
    }

    /// Whether an element that comes is one too many to be kept.
    pub(crate) fn is_full(self) -> bool {
        self.planned.keeps <= self.standing
    }

    /// Whether no line is left that needs it open.
    pub(crate) fn may_close(self) -> bool {
        let begun = self.next == self.planned.count;
        !self.closed && begun && self.empties == 0 && self.fulls == 0
    }

    /// Takes a change of the channel.
    fn take(&mut self, change: Change, back: bool) {
        match change.step {
            Step::Begun => {
                self.standing = moved(self.standing, !back);
                self.next = moved(self.next, !back);
            }
            Step::Ended => self.standing = moved(self.standing, back),
            Step::Closed => self.closed = !back,
            Step::SaidEmpty => self.empties = moved(self.empties, back),
            Step::SaidFull => self.fulls = moved(self.fulls, back),
        }
        if back && change.is_of_place() {
            let place = change.at.saturating_sub(self.planned.from);
            self.first = self.first.min(place);
        }
    }
}

impl Queues {
    /// Before the first line.
    pub(crate) fn new(alloc: Global, plan: &Plan) -> Queues {
        let mut queues = Gathered::new(alloc);
        for channel in plan.channels.as_slice() {
            queues.add(Queue {
                planned: *channel,
                empties: channel.empties,
                fulls: channel.fulls,
                ..NO_QUEUE
            });
        }
        Queues {
            queues,
            stands: same_of(alloc, false, plan.places.len()),
        }
    }

    /// Whether memory held them.
    pub(crate) fn is_whole(&self) -> bool {
        self.queues.is_whole() && self.stands.is_whole()
    }

    /// One of them.
    pub(crate) fn of(&self, c: ChannelId) -> Queue {
        at(self.queues.as_slice(), c as usize, NO_QUEUE)
    }

    fn stands_at(&self, place: u32) -> bool {
        at(self.stands.as_slice(), place as usize, false)
    }

    /// How the first place was begun that stands in a channel: all that stand there were begun by elements, or all by receivers.
    pub(crate) fn front(&self, plan: &Plan, c: ChannelId) -> Begins {
        plan.place(self.of(c).first_place()).begins
    }

    /// Whether nothing can be received of a channel that is closed, or of one that is open.
    pub(crate) fn is_empty(&self, plan: &Plan, c: ChannelId, closed: bool) -> bool {
        self.of(c).closed == closed && !self.front(plan, c).is_element()
    }

    /// Whether an open channel has no room for an element, and no receiver.
    pub(crate) fn has_no_room(&self, plan: &Plan, c: ChannelId) -> bool {
        let queue = self.of(c);
        !queue.closed && queue.is_full() && !self.front(plan, c).is_receiver()
    }

    /// Whether an element, or a receiver, may come to a place.
    pub(crate) fn may_begin(&self, plan: &Plan, c: ChannelId, place: Place) -> bool {
        let queue = self.of(c);
        if queue.closed || queue.next != place {
            return false;
        }
        let front = plan.place(queue.first_place()).begins;
        let full = queue.is_full();
        match plan.place(plan.place_at(c, place)).begins {
            Begins::Receiver => !front.is_element(),
            Begins::WhenFull => !front.is_receiver() && full,
            Begins::WithRoom => !front.is_receiver() && !full,
            Begins::Unsaid => false,
        }
    }

    /// The number of what has to happen before a place can be begun.
    pub(crate) fn until_begun(&self, plan: &Plan, c: ChannelId, place: Place) -> usize {
        if self.of(c).next < place {
            plan.things
                .of_place(plan.place_at(c, place.saturating_sub(1)))
        } else {
            plan.things.of_channel(c)
        }
    }

    /// The number of what has to happen before a place is the first of its channel.
    pub(crate) fn until_first(&self, plan: &Plan, c: ChannelId, place: Place) -> usize {
        let place_at = plan.place_at(c, place);
        let queue = self.of(c);
        let first = queue.first_place();
        if place_at == NOWHERE {
            UNKNOWN
        } else if queue.next <= place {
            plan.things.of_place(place_at)
        } else if first == NOWHERE || first == place_at {
            plan.things.of_channel(c)
        } else {
            plan.things.of_place(first)
        }
    }

    /// Whether this place, of an element or of a receiver, is the first of its channel, and may leave it with all of its wait.
    pub(crate) fn may_be_met(
        &self,
        plan: &Plan,
        c: ChannelId,
        place: Place,
        receiver: bool,
    ) -> bool {
        let place_at = plan.place_at(c, place);
        place_at != NOWHERE
            && self.of(c).first_place() == place_at
            && plan.place(place_at).begins.is_receiver() == receiver
            && self.may_leave(plan, place_at)
    }

    /// Whether all places of a wait may leave: none of them is what makes its channel full for the element that comes next.
    fn may_leave(&self, plan: &Plan, first: u32) -> bool {
        let mut place_at = first;
        for _ in 0..CLAUSES {
            let place = plan.place(place_at);
            if !place.begins.is_receiver()
                && self.stands_at(place_at)
                && self.is_needed(plan, place.c)
            {
                return false;
            }
            place_at = place.mate;
            if place_at == first {
                break;
            }
        }
        true
    }

    /// The same of a wait by its name.
    pub(crate) fn wait_may_leave(&self, plan: &Plan, w: WaitId) -> bool {
        let first = plan.place_at(w.channel, w.place);
        first != NOWHERE && self.may_leave(plan, first)
    }

    /// Whether no element may leave a channel before more come: for the first that is to come while it is full, as many have to stand as it
    /// keeps.
    fn is_needed(&self, plan: &Plan, c: ChannelId) -> bool {
        let queue = self.of(c);
        let next = plan.place(queue.place(queue.next));
        let ended = next.before.saturating_sub(queue.standing);
        queue.next < queue.planned.count
            && next.before_full != u32::MAX
            && ended.saturating_add(queue.planned.keeps) >= next.before_full
    }

    /// Makes a change, or takes it back.
    pub(crate) fn change(&mut self, change: Change, back: bool) {
        if change.is_of_place() {
            put(
                self.stands.as_mut(),
                change.at as usize,
                change.stands(back),
            );
        }
        let mut queue = self.of(change.c);
        queue.take(change, back);
        queue.first = self.first_standing(queue);
        put(self.queues.as_mut(), change.c as usize, queue);
    }

    /// Which place of a channel is the first that stands, from that on which was.
    fn first_standing(&self, queue: Queue) -> u32 {
        let mut first = queue.first;
        for _ in queue.first..queue.next {
            if self.stands_at(queue.place(first)) {
                break;
            }
            first = first.saturating_add(1);
        }
        first
    }

    /// Adds the changes that a line makes.
    pub(crate) fn add_changes(
        &self,
        plan: &Plan,
        note: ChannelNote,
        changes: &mut Gathered<Change>,
    ) {
        let Some(told) = told_by(note) else {
            return;
        };
        let change = Change {
            c: told.c,
            at: plan.place_at(told.c, told.place),
            step: told.step,
        };
        if matches!(change.step, Step::Ended) {
            self.add_ends(plan, change.at, told.stays, changes);
        } else if !change.is_of_place() || change.at != NOWHERE {
            changes.add(change);
        }
    }

    /// Adds the changes that end all places of a wait that stand, of which this is one, which perhaps stays.
    fn add_ends(&self, plan: &Plan, first: u32, stays: bool, changes: &mut Gathered<Change>) {
        if first == NOWHERE {
            return;
        }
        let mut place_at = first;
        for _ in 0..CLAUSES {
            let place = plan.place(place_at);
            if self.stands_at(place_at) && !(stays && place_at == first) {
                changes.add(Change {
                    c: place.c,
                    at: place_at,
                    step: Step::Ended,
                });
            }
            place_at = place.mate;
            if place_at == first {
                break;
            }
        }
    }
}
