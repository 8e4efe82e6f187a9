//! A run that a search begins again and again, and looks at between two polls.
//!
//! Nothing is claimed of what it comes to. That is claimed of `run_in_order`.

ghost use Rattle.std.specs.Prelude.{IfOk, OnOk};
ghost use Rattle.script_reader.specs.Scripts.{program_of};
ghost use Rattle.engine_one.specs.Trials.{TrialStands};

use crate::start::{start, start_again};
use crate::state::Run;
use co_base::{Gate, Memory, Tag, WaitId};
use one_thread_floor::{ListFloor, TreeFloor};
use poll_states::{Book, Frame};
use script_reader::Script;
use std::alloc::Global;
use std::mem::replace;

/// A poll that did something: whose it was, whether the coroutine had done nothing before, and whether it noted anything.
#[derive(Clone, Copy)]
pub struct Polled {
    pub tag: Tag,
    pub first: bool,
    pub noted: bool,
}

/// A run of a script between two polls. It can be put back to its beginning without taking the memory of its channels anew.
#[derive(Drop)]
pub struct Trial<B: Book> {
    pub(crate) run: Run<ListFloor, TreeFloor, B>,
    /// The polls since the beginning that did something, in their order.
    made: Vec<Tag>,
}

impl<B: Book> Trial<B> {
    /// A run before its first poll.
    pub fn new(alloc: Global, script: &Script) -> Result<Trial<B>, Memory>
        ensures { IfOk result (TrialStands (program_of script.now)) }
    {
        Ok(Trial {
            run: start(alloc, script)?,
            made: Vec::new(alloc),
        })
    }

    /// Puts it back before its first poll.
    pub fn restart(&mut self, alloc: Global, script: &Script) -> Result<(), Memory>
        ensures { OnOk result (TrialStands (program_of script.now) self.new) }
    {
        let none = ListFloor::new(alloc, &[])?;
        let old = replace(&mut self.run.channels, none);
        self.run = start_again(alloc, script, old)?;
        self.made.clear();
        Ok(())
    }

    /// Goes where these polls lead from the beginning: on from where it is, if that is on the way, else from the beginning.
    pub fn go_to<G: Gate>(
        &mut self,
        alloc: Global,
        script: &Script,
        gate: &G,
        order: &[Tag],
    ) -> Result<(), Memory>
        requires { TrialStands (program_of script.now) self.old }
        ensures { OnOk result (TrialStands (program_of script.now) self.new) }
    {
        if !order.starts_with(self.made.as_slice()) {
            self.restart(alloc, script)?;
        }
        let passed = self.made.len();
        for (i, tag) in order.iter().enumerate() {
            if i >= passed {
                let _polled = self.poll(script, gate, *tag)?;
            }
        }
        Ok(())
    }

    /// Polls a coroutine, if there is one with this tag. Nothing, if it did nothing: then all is as it was.
    pub fn poll<G: Gate>(
        &mut self,
        script: &Script,
        gate: &G,
        tag: Tag,
    ) -> Result<Option<Polled>, Memory>
        requires { TrialStands (program_of script.now) self.old }
        ensures { OnOk result (TrialStands (program_of script.now) self.new) }
    {
        let place = tag as usize;
        if place >= self.run.frames.len() {
            return Ok(None);
        }
        let first = self.run.frames[place].is_fresh();
        let before = self.run.frames[place].notes();
        let moved = self.run.turn(script, gate, tag)?;
        if !moved || place >= self.run.frames.len() {
            return Ok(None);
        }
        let noted = self.run.frames[place].notes() > before;
        self.made.push(tag)?;
        Ok(Some(Polled { tag, first, noted }))
    }

    /// Polls coroutines in order of tags, from this one on, up to the first that does something.
    pub fn first_that_moves<G: Gate>(
        &mut self,
        script: &Script,
        gate: &G,
        from: Tag,
    ) -> Result<Option<Polled>, Memory>
        requires { TrialStands (program_of script.now) self.old }
        ensures { OnOk result (TrialStands (program_of script.now) self.new) }
    {
        for tag in from..script.coroutines() {
            if let Some(polled) = self.poll(script, gate, tag)? {
                return Ok(Some(polled));
            }
        }
        Ok(None)
    }

    /// The first tag from which on no coroutine would do anything, as far as is seen without a poll: each has ended, or stands in a wait
    /// which no Job that is Cancelling ends.
    pub fn stuck_from(&self) -> Tag {
        let calm = !self.run.jobs.has_cancelling();
        let mut end = 0;
        for (place, frame) in self.run.frames.iter().enumerate() {
            if !is_stuck(&self.run.channels, frame, calm) {
                end = place.saturating_add(1);
            }
        }
        Tag::try_from(end).ok().unwrap_or(Tag::MAX)
    }

    /// The polls since the beginning that did something, in their order.
    pub fn made(&self) -> &[Tag] {
        self.made.as_slice()
    }

    /// The book of the coroutine with this tag.
    pub fn book(&self, tag: usize) -> Option<&B> {
        match self.run.frames.get(tag) {
            Some(frame) => Some(frame.book()),
            None => None,
        }
    }

    /// The clause at which a wait was resolved, if it was at one; also behind its end.
    pub fn clause_of(&self, w: WaitId) -> Option<u8> {
        self.run.channels.clause_of(w)
    }

    /// Adds the numbers of its floors, and of where each coroutine is; of what a coroutine received, if a line of its block reads it.
    pub fn push_key(&self, reads: &[bool], out: &mut Vec<u64>) -> Result<(), Memory> {
        self.run.channels.push_key(out)?;
        self.run.jobs.push_key(out)?;
        for (place, frame) in self.run.frames.iter().enumerate() {
            frame.push_key(reads.get(place).copied().unwrap_or(true), out)?;
            if let Some(wait) = frame.wait() {
                self.run.channels.push_wait_key(out, wait)?;
            }
        }
        Ok(())
    }
}

/// Whether a poll of a coroutine would do nothing, as far as is seen without it; `calm`, if no Job is Cancelling.
fn is_stuck<B: Book>(channels: &ListFloor, frame: &Frame<B>, calm: bool) -> bool {
    match frame.wait() {
        Some(wait) => (calm || frame.is_leaving()) && channels.is_standing(wait),
        None => frame.has_ended(),
    }
}
