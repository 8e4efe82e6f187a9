//! What the Jobs go through, in the order of the lines: stretches of one state each; and the waits of the coroutines.

use crate::keyed::Numbers;
use crate::looks::State;
use crate::notes::{Fact, Note, Of, Verb};
use crate::told::BookLines;
use gathered::{Gathered, NOWHERE, at, put};
use std::alloc::Global;

/// A stretch of a Job in one state, with the numbers of the lines that attached the Job, at which the stretch begins and ends, and of the
/// last one of the coroutine with the Job's row; nowhere, where there is none.
#[derive(Clone, Copy)]
pub(crate) struct Stretch {
    pub(crate) row: u32,
    /// The coroutine that the Job is of, or that is in the scope which has it.
    pub(crate) tag: u32,
    /// Whether a scope has it.
    pub(crate) is_scope: bool,
    /// Whether it is what the first line of a coroutine tells of the Job of that.
    pub(crate) is_first: bool,
    pub(crate) state: State,
    pub(crate) attach: usize,
    pub(crate) since: usize,
    pub(crate) until: usize,
    pub(crate) last: usize,
}

const NO_STRETCH: Stretch = Stretch {
    row: u32::MAX,
    tag: u32::MAX,
    is_scope: false,
    is_first: false,
    state: State::New,
    attach: NOWHERE,
    since: NOWHERE,
    until: NOWHERE,
    last: NOWHERE,
};

impl Stretch {
    /// Whether its Job has ended, and changes no more.
    pub(crate) fn is_over(&self) -> bool {
        let is_end = matches!(
            self.state,
            State::Completed | State::Cancelled | State::Failed
        );
        is_end & (self.until == NOWHERE)
    }

    /// Whether its Job comes from it to this one.
    fn comes_to(&self, new: &Stretch) -> bool {
        match (self.state, new.state) {
            (State::Cancelling, State::Completing | State::Active | State::Cancelling) => false,
            _ => !new.is_first,
        }
    }
}

/// The stretch that a line begins of the Job of its row, or of that of its own coroutine.
fn stretch_of<'a>(
    told: &BookLines<'a>,
    note: &Note<'a>,
    of: Of,
    state: State,
    since: usize,
) -> Stretch {
    let (_, row, _, _) = note.key(Fact::Attaches, of);
    let attach = told.said(Fact::Attaches, of, note);
    let by = told.note(attach);
    let is_scope = by.verb == Verb::Attach as usize;
    Stretch {
        row,
        tag: if is_scope { by.tag } else { row },
        is_scope,
        is_first: matches!(of, Of::Own),
        state,
        attach,
        since,
        until: NOWHERE,
        last: told.said(Fact::Last, of, note),
    }
}

/// What a line says, if it is the first of a coroutine: that the Job of that is Active.
fn first_of<'a>(told: &BookLines<'a>, note: &Note<'a>, number: usize) -> Stretch {
    if told.said(Fact::First, Of::Own, note) == number {
        stretch_of(told, note, Of::Own, State::Active, number)
    } else {
        NO_STRETCH
    }
}

/// What else a line says of a Job, if it does.
fn next_of<'a>(told: &BookLines<'a>, note: &Note<'a>, number: usize) -> Stretch {
    match note.state {
        Some(state) => stretch_of(told, note, Of::Subject, state, number),
        None => NO_STRETCH,
    }
}

/// The stretches in which coroutines and Jobs begin, in the order in which they do, and those of Jobs that have ended, in the order in
/// which they did; behind them the last one of each Job, when all were passed.
#[derive(Drop)]
pub(crate) struct Jobs {
    /// That in which a coroutine begins is what its first line tells.
    pub(crate) begun: Gathered<Stretch>,
    pub(crate) stretches: Gathered<Stretch>,
    /// The last stretch of each Job, and the number of that of each row.
    last: Gathered<Stretch>,
    numbers: Numbers<'static>,
}

impl Jobs {
    /// The last stretches of the Jobs of these coroutines.
    pub(crate) fn last_of(&self, alloc: Global, tags: &[u32]) -> Gathered<Stretch> {
        let mut last = Gathered::new(alloc);
        for tag in tags {
            let number = self.numbers.at((0, *tag, b"", b""));
            last.add(at(self.last.as_slice(), number, NO_STRETCH));
        }
        last
    }

    /// A Job begins in a stretch, if it has none; else it comes to it, if it does.
    fn pass(&mut self, new: Stretch) {
        let number = self.numbers.at((0, new.row, b"", b""));
        let old = at(self.last.as_slice(), number, NO_STRETCH);
        if number == NOWHERE {
            self.begun.add(Stretch {
                is_first: false,
                ..new
            });
            self.numbers.put((0, new.row, b"", b""), self.last.len());
            self.last.add(new);
        } else if old.comes_to(&new) {
            let until = new.since;
            self.stretches.add(Stretch { until, ..old });
            put(self.last.as_mut(), number, new);
        }
    }

    /// Passes the lines in this order; those that it has no place for in that of the report.
    fn pass_lines<'a>(&mut self, told: &BookLines<'a>, order: &[usize]) {
        for place in 0..told.notes.len() {
            let number = at(order, place, place);
            let note = told.note(number);
            let first = first_of(told, &note, number);
            if first.since != NOWHERE {
                self.begun.add(first);
                self.pass(first);
            }
            let next = next_of(told, &note, number);
            if next.since != NOWHERE {
                self.pass(next);
            }
        }
    }

    /// Adds the last stretches. Whether memory held all is asked of the stretches then.
    pub(crate) fn end(&mut self) {
        self.stretches.add_all(self.last.as_slice());
        let is_missing = self.begun.full | self.last.full | self.numbers.full;
        self.stretches.full = self.stretches.full | is_missing;
    }
}

/// What the Jobs go through in the lines of the books, in this order; in that of the report, where it is empty.
pub(crate) fn jobs_of<'a>(alloc: Global, told: &BookLines<'a>, order: &[usize]) -> Jobs {
    let mut jobs = Jobs {
        begun: Gathered::new(alloc),
        stretches: Gathered::new(alloc),
        last: Gathered::new(alloc),
        numbers: Numbers::new(alloc),
    };
    jobs.pass_lines(told, order);
    jobs
}

/// A wait of a coroutine, with the numbers of the line that began it and of its settle; nowhere, if there is none.
#[derive(Clone, Copy)]
pub(crate) struct Wait<'a> {
    pub(crate) tag: u32,
    pub(crate) name: &'a [u8],
    pub(crate) from: usize,
    pub(crate) to: usize,
}

/// The waits, in the order of the report: each begins at the first of the lines in a row that place it.
pub(crate) fn waits_in<'a>(alloc: Global, told: &BookLines<'a>) -> Gathered<Wait<'a>> {
    let mut waits = Gathered::new(alloc);
    let mut last = (u32::MAX, b" ".as_slice());
    for (number, note) in told.notes.as_slice().iter().enumerate() {
        let is_last = note.tag == last.0 && note.wait == last.1;
        if note.waits() && !is_last {
            last = (note.tag, note.wait);
            waits.add(Wait {
                tag: note.tag,
                name: note.wait,
                from: number,
                to: told.said(Fact::Settles, Of::Wait, note),
            });
        }
    }
    waits
}
