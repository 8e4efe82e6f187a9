//! Numbers of acts by kind.

ghost use Rattle.std.specs.Prelude.{◌≡◌, ◌<◌, ◌+◌, ◌==◌, cond};
ghost use Rattle.tally_book.specs.Numbers.{AreActsUpTo, AreJobsUpTo, AreWithin, with_act_in, with_end_in, with_job_act_in, with_note, with_outcome};

use channel_model::{Act, ChannelNote, Settled};
use job_model::{End, JobAct, JobNote};
use note_book::Item;

/// How many acts on channels there are of each kind, and what is known of the wait that is not settled.
#[derive(Clone, Copy)]
pub struct ActNumbers {
    pub hands: u32,
    pub puts: u32,
    pub offers: u32,
    pub takes: u32,
    pub drops: u32,
    pub spurns: u32,
    pub drains: u32,
    /// How many receivers were told that their channel is closed.
    pub wakes: u32,
    pub withdraws: u32,
    pub settles: u32,
    /// How many of these as a value, and how many as undelivered.
    pub values: u32,
    pub given_up: u32,
    /// How many of the offers were made with a wait that is settled.
    pub ended: u32,
    /// How many offers the wait has that is not settled, and how many of them a plain send made.
    pub open_offers: u32,
    pub plain_offers: u32,
    /// How many plain offers were taken back.
    pub taken_back: u64,
}

/// How many Jobs were attached, and how many have ended as completed and as cancelled.
#[derive(Clone, Copy)]
pub struct JobNumbers {
    pub attached: u32,
    pub completed: u32,
    pub cancelled: u32,
}

/// How many notes there are, and what they come to.
#[derive(Clone, Copy)]
pub struct Numbers {
    pub notes: u32,
    pub acts: ActNumbers,
    pub jobs: JobNumbers,
}

pub(crate) const NO_NUMBERS: Numbers = Numbers {
    notes: 0,
    acts: ActNumbers {
        hands: 0,
        puts: 0,
        offers: 0,
        takes: 0,
        drops: 0,
        spurns: 0,
        drains: 0,
        wakes: 0,
        withdraws: 0,
        settles: 0,
        values: 0,
        given_up: 0,
        ended: 0,
        open_offers: 0,
        plain_offers: 0,
        taken_back: 0,
    },
    jobs: JobNumbers {
        attached: 0,
        completed: 0,
        cancelled: 0,
    },
};

impl Numbers {
    /// With one note more.
    #[inline(always)]
    pub(crate) fn add(&mut self, item: &Item)
        requires within { AreWithin self.old }
        requires room { self.old.notes < 4294967295 }
        ensures note { self.new ≡ with_note self.old item.now }
        ensures within { AreWithin self.new }
    {
        let before = self.notes;
        self.notes = before + 1;
        match item {
            Item::Channel(ChannelNote::Made(act)) => self.acts.add(act, before),
            Item::Job(JobNote::Made(act)) => self.jobs.add(act, before),
            Item::Channel(_) | Item::Job(_) => {}
        }
    }
}

impl ActNumbers {
    /// With one act more after so many notes.
    #[inline(always)]
    fn add(&mut self, act: &Act, notes: u32)
        requires within { AreActsUpTo notes self.old }
        requires room { notes < 4294967295 }
        ensures act { self.new ≡ with_act_in self.old act.now }
        ensures within { AreActsUpTo (notes + 1) self.new }
    {
        match act {
            Act::Hand { .. } => self.hands += 1,
            Act::Put { .. } => self.puts += 1,
            Act::Offer { clause, .. } => {
                self.offers += 1;
                self.open_offers += 1;
                self.plain_offers += plain(*clause);
            }
            Act::Take { .. } => self.takes += 1,
            Act::Drop { .. } => self.drops += 1,
            Act::Spurn { .. } => self.spurns += 1,
            Act::Drain { .. } => self.drains += 1,
            Act::WakeClosed { .. } => self.wakes += 1,
            Act::Withdraw { .. } => {
                self.withdraws += 1;
                self.taken_back += u64::from(self.plain_offers);
            }
            Act::Settle { outcome, .. } => {
                self.settles += 1;
                self.ended += self.open_offers;
                self.open_offers = 0;
                self.plain_offers = 0;
                self.add_outcome(outcome, notes);
            }
            Act::Await { .. } | Act::Admit { .. } | Act::Close { .. } | Act::Void { .. } => {}
        }
    }

    /// With one outcome more after so many notes.
    fn add_outcome(&mut self, outcome: &Settled, notes: u32)
        requires within { AreActsUpTo (notes + 1) self.old }
        requires values { self.old.values < notes + 1 }
        requires given_up { self.old.given_up < notes + 1 }
        requires room { notes < 4294967295 }
        ensures outcome { self.new ≡ with_outcome self.old outcome.now }
        ensures within { AreActsUpTo (notes + 1) self.new }
    {
        match outcome {
            Settled::Value(_, _) => self.values += 1,
            Settled::Undelivered(_) => self.given_up += 1,
            Settled::Sent(_) | Settled::Closed(_, _) | Settled::Cancelled => {}
        }
    }
}

/// 1 for the clause of a plain send, and 0 for one of a select's.
fn plain(clause: u8) -> u32
    ensures { result ≡ cond (clause == 0) 1 0 }
{
    if clause == 0 { 1 } else { 0 }
}

impl JobNumbers {
    /// With one act more after so many notes.
    fn add(&mut self, act: &JobAct, notes: u32)
        requires within { AreJobsUpTo notes self.old }
        requires room { notes < 4294967295 }
        ensures act { self.new ≡ with_job_act_in self.old act.now }
        ensures within { AreJobsUpTo (notes + 1) self.new }
    {
        match act {
            JobAct::Attach { .. } => self.attached += 1,
            JobAct::Finish { end, .. } => self.add_end(end, notes),
            JobAct::Start { .. }
            | JobAct::EndBody { .. }
            | JobAct::Cancel { .. }
            | JobAct::Gone { .. } => {}
        }
    }

    /// With one Job more that has ended so, after so many notes.
    fn add_end(&mut self, end: &End, notes: u32)
        requires within { AreJobsUpTo notes self.old }
        requires room { notes < 4294967295 }
        ensures end { self.new ≡ with_end_in self.old end.now }
        ensures within { AreJobsUpTo (notes + 1) self.new }
    {
        match end {
            End::Completed(_) => self.completed += 1,
            End::Cancelled(_) => self.cancelled += 1,
        }
    }
}
