//! How many Jobs there were and how they ended, and what became of how many elements.

ghost use Rattle.std.specs.Prelude.{◌≡◌, ◌<◌, ◌+◌, ◌*◌, length, map};
ghost use Rattle.script_reader.specs.Programs.{declared_of};
ghost use Rattle.run_report.specs.Known.{element_in};
ghost use Rattle.run_report.specs.Summaries.{HasElementsUpTo, HasJobsUpTo, no_elements, with_channels, with_element, with_job, with_place, with_places};
ghost use Rattle.run_report.specs.Counted.{rows_counted, with_row_by};

use crate::fates::Known;
use crate::job_facts::JobFacts;
use crate::job_lines::is_attached;
use channel_model::Fate;
use co_base::{ChannelId, Value};
use job_model::End;
use script_reader::Channel;

/// How many Jobs were attached, and how many of them have ended so. One that failed is counted as cancelled.
#[derive(Clone, Copy)]
pub(crate) struct JobCounts {
    pub(crate) attached: u32,
    pub(crate) completed: u32,
    pub(crate) cancelled: u32,
}

/// How many elements have each fate.
#[derive(Clone, Copy)]
pub(crate) struct ElementCounts {
    pub(crate) received: u64,
    pub(crate) undelivered: u64,
    pub(crate) dropped: u64,
    pub(crate) spurned: u64,
    pub(crate) withdrawn: u64,
    pub(crate) held: u64,
}

// ---- the Jobs

const NO_JOBS: JobCounts = JobCounts {
    attached: 0,
    completed: 0,
    cancelled: 0,
};

/// The Jobs of the rows of a table.
pub(crate) fn count_jobs(table: &[JobFacts]) -> JobCounts
    requires { length table.now < 65536 }
    ensures { result ≡ rows_counted table.now (length table.now) }
{
    let mut counts = NO_JOBS;
    for (row, facts) in table.iter().enumerate() {
        counts.add_row(row, *facts);
    }
    counts
}

impl JobCounts {
    /// Adds the Job of a row, if it is attached.
    fn add_row(&mut self, row: usize, facts: JobFacts)
        requires fit { HasJobsUpTo row self.old }
        requires few { row < 65536 }
        ensures counts { self.new ≡ with_row_by self.old row facts }
        ensures most { HasJobsUpTo (row + 1) self.new }
    {
        if is_attached(row, facts) {
            self.add_job(row, facts.end);
        }
    }

    /// Adds one more Job after `before` rows.
    fn add_job(&mut self, before: usize, end: Option<End>)
        requires fit { HasJobsUpTo before self.old }
        requires few { before < 65536 }
        ensures counts { self.new ≡ with_job self.old end }
        ensures most { HasJobsUpTo (before + 1) self.new }
    {
        self.attached += 1;
        match end {
            Some(End::Completed(_)) => self.completed += 1,
            Some(End::Cancelled(_)) => self.cancelled += 1,
            None => (),
        }
    }
}

// ---- the elements

const NO_ELEMENTS: ElementCounts = ElementCounts {
    received: 0,
    undelivered: 0,
    dropped: 0,
    spurned: 0,
    withdrawn: 0,
    held: 0,
};

/// The elements of all declared channels.
pub(crate) fn count_elements(channels: &[Channel], known: &Known) -> ElementCounts
    requires { length channels.now < 65536 }
    ensures { result ≡ with_channels (element_in known.now) 0 no_elements (map declared_of channels.now) }
{
    let mut counts = NO_ELEMENTS;
    let mut c: ChannelId = 0;
    for channel in channels {
        counts = with_places(counts, c, channel.places, known);
        c += 1;
    }
    counts
}

/// With the elements of one channel.
fn with_places(counts: ElementCounts, c: ChannelId, places: u32, known: &Known) -> ElementCounts
    requires { HasElementsUpTo (c * 4294967296) counts }
    ensures counts { result ≡ with_places (element_in known.now) c counts places }
    ensures most { HasElementsUpTo ((c + 1) * 4294967296) result }
{
    let mut counts = counts;
    let mut before = u64::from(c) * 4_294_967_296;
    for place in 0..places {
        counts.add_place(before, known.element(c, place));
        before += 1;
    }
    counts
}

impl ElementCounts {
    /// Adds the element of a place after `before` others, if it has one.
    fn add_place(&mut self, before: u64, element: Option<(Value, Fate)>)
        requires fit { HasElementsUpTo before self.old }
        requires few { before < 281474976710656 }
        ensures counts { self.new ≡ with_place self.old element }
        ensures most { HasElementsUpTo (before + 1) self.new }
    {
        if let Some((_, fate)) = element {
            self.add_element(before, fate);
        }
    }

    /// Adds one more element after at most `before` others.
    fn add_element(&mut self, before: u64, fate: Fate)
        requires fit { HasElementsUpTo before self.old }
        requires few { before < 281474976710656 }
        ensures counts { self.new ≡ with_element self.old fate }
        ensures most { HasElementsUpTo (before + 1) self.new }
    {
        match fate {
            Fate::Received => self.received += 1,
            Fate::Undelivered => self.undelivered += 1,
            Fate::Dropped => self.dropped += 1,
            Fate::Spurned => self.spurned += 1,
            Fate::Withdrawn => self.withdrawn += 1,
            Fate::Held => self.held += 1,
        }
    }
}
