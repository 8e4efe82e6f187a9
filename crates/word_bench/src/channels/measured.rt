//! The cases that are measured.
ghost use Rattle.std.specs.Prelude.{◌≤◌};

use crate::channels::at_once::Work;
use crate::channels::by_one::Times;

/// What transfers go through.
#[derive(Clone, Copy)]
pub(crate) enum By {
    Words,
    Cells,
    Crossbeam,
}

/// A case of four coroutines.
#[derive(Clone, Copy)]
pub(crate) struct ByFour {
    pub name: &'static str,
    /// The word that asks for it, and for others.
    pub group: &'static str,
    /// By how many threads at least.
    pub least: u32,
    pub by: By,
    /// How many elements a channel keeps. None: all.
    pub kept: Option<u32>,
    /// What two of them do, and what the two others.
    pub work: (Work, Work),
}

/// A case of one coroutine: it transfers, or else it tries to send.
#[derive(Clone, Copy)]
pub(crate) struct ByOne {
    pub name: &'static str,
    pub group: &'static str,
    pub by: By,
    /// How many elements the channel keeps.
    pub kept: u32,
    /// How many elements it has already.
    pub queued: u32,
    /// How many receivers waited on it, and gave up.
    pub withdrawn: u32,
}

macro_rules! by_four {
    ($name:literal in $group:literal, $least:literal, $by:ident, $kept:expr, $work:ident, $other:ident) => {
        ByFour {
            name: $name,
            group: $group,
            least: $least,
            by: By::$by,
            kept: $kept,
            work: (Work::$work, Work::$other),
        }
    };
}

macro_rules! by_one {
    ($name:literal in $group:literal, $by:ident, $kept:literal, $queued:literal queued, $withdrawn:literal withdrawn) => {
        ByOne {
            name: $name,
            group: $group,
            by: By::$by,
            kept: $kept,
            queued: $queued,
            withdrawn: $withdrawn,
        }
    };
}

/// Those of four coroutines.
pub(crate) const BY_FOUR: &[ByFour] = &[
    by_four!("rendezvous" in "rendezvous", 0, Words, Some(0), Both, Both),
    by_four!("buffered" in "buffered", 0, Words, Some(64), Both, Both),
    by_four!("buffered crossbeam" in "buffered crossbeam", 0, Crossbeam, Some(64), Both, Both),
    by_four!("unlimited" in "unlimited", 0, Words, None, Both, Both),
    by_four!("unlimited crossbeam" in "unlimited crossbeam", 0, Crossbeam, None, Both, Both),
    by_four!("counted" in "counted", 0, Cells, None, Both, Both),
    by_four!("apart rendezvous" in "apart", 2, Words, Some(0), Sends, Receives),
    by_four!("apart rendezvous crossbeam" in "apart", 2, Crossbeam, Some(0), Sends, Receives),
    by_four!("apart buffered" in "apart", 2, Words, Some(64), Sends, Receives),
    by_four!("apart buffered crossbeam" in "apart", 2, Crossbeam, Some(64), Sends, Receives),
    by_four!("apart unlimited" in "apart", 2, Words, None, Sends, Receives),
    by_four!("apart unlimited crossbeam" in "apart", 2, Crossbeam, None, Sends, Receives),
    by_four!("select" in "select", 0, Words, Some(64), Selects, Selects),
    by_four!("select crossbeam" in "select", 4, Crossbeam, Some(64), Selects, Selects),
];

/// Those of one.
pub(crate) const BY_ONE: &[ByOne] = &[
    by_one!("0 of 64 queued" in "full", Words, 64, 0 queued, 0 withdrawn),
    by_one!("0 of 64 queued crossbeam" in "full", Crossbeam, 64, 0 queued, 0 withdrawn),
    by_one!("60 of 64 queued" in "full", Words, 64, 60 queued, 0 withdrawn),
    by_one!("60 of 64 queued crossbeam" in "full", Crossbeam, 64, 60 queued, 0 withdrawn),
    by_one!("0 of 4096 queued" in "full", Words, 4096, 0 queued, 0 withdrawn),
    by_one!("0 of 4096 queued crossbeam" in "full", Crossbeam, 4096, 0 queued, 0 withdrawn),
    by_one!("4000 of 4096 queued" in "full", Words, 4096, 4000 queued, 0 withdrawn),
    by_one!("4000 of 4096 queued crossbeam" in "full", Crossbeam, 4096, 4000 queued, 0 withdrawn),
    by_one!("0 withdrawn" in "withdrawn", Words, 0, 0 queued, 0 withdrawn),
    by_one!("0 withdrawn crossbeam" in "withdrawn", Crossbeam, 0, 0 queued, 0 withdrawn),
    by_one!("1000 withdrawn" in "withdrawn", Words, 0, 0 queued, 1000 withdrawn),
    by_one!("1000 withdrawn crossbeam" in "withdrawn", Crossbeam, 0, 0 queued, 1000 withdrawn),
];

impl ByFour {
    /// How many transfers are made of so many. There are 262144 selects at most.
    pub(crate) fn transfers(&self, asked: u32) -> u32
        requires asked { (4 ≤ asked) × (asked ≤ 1048576) }
        ensures { (4 ≤ result) × (result ≤ 1048576) }
    {
        match self.work.0 {
            Work::Selects => asked.min(262144),
            _ => asked,
        }
    }

    /// How many turns the first and the other of each two make for so many transfers. By no threads they make none. Those
    /// who only send or receive make a half of the transfers each, which over words is twice a quarter.
    pub(crate) fn times(&self, transfers: u32, threads: u32) -> (u64, u64) {
        let transfers = u64::from(transfers);
        let (quarter, half) = (transfers / 4, transfers / 2);
        if threads == 0 {
            return (0, 0);
        }
        match (self.by, self.work.0) {
            (By::Crossbeam, Work::Sends) if threads == 2 => (half, transfers - half),
            (By::Crossbeam, Work::Sends) => (half, half),
            (_, Work::Sends) => (2 * quarter, 2 * quarter),
            _ => (quarter, quarter),
        }
    }
}

impl ByOne {
    /// How often each is done. On a channel that keeps nothing a sixteenth as many tries are made as transfers elsewhere.
    pub(crate) fn times(&self, transfers: u32) -> Times {
        let (transfers, tries) = match self.kept {
            0 => (0, transfers / 16),
            _ => (transfers, 0),
        };
        Times {
            queued: self.queued,
            withdrawn: self.withdrawn,
            transfers,
            tries,
        }
    }
}
