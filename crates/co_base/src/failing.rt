//! Calls that are to fail, and the count of failures.
ghost use Rattle.std.specs.Prelude.{◌≡◌, ◌≤◌, IfOk, IsErr, OnOk, OnErr, IsTrue, ◌↔◌, Contains};
ghost use Rattle.co_base.specs.Streams.{Rose};

use crate::names::{Failed, Memory};
use crate::streams::raised;
use std::alloc::Global;

/// A count of the calls, those that are to fail by their numbers from 1, and the number of failures. Either count stands still at its last
/// value.
#[derive(Debug, Drop)]
pub(crate) struct FailingCalls {
    calls: u64,
    fails: Vec<u32>,
    faults: u64,
}

impl FailingCalls {
    ghost use Rattle.co_base.specs.FailingCalls.{MadeFor, FailsNext, after_call, after_failure};

    pub(crate) fn new(alloc: Global, fails: &[u32]) -> Result<FailingCalls, Memory>
        ensures { IfOk result (MadeFor fails.now) }
    {
        let fails = Vec::from_slice(alloc, fails)?;
        Ok(FailingCalls {
            calls: 0,
            fails,
            faults: 0,
        })
    }

    // Counts a call, which fails if its number says so.
    pub(crate) fn begin(&mut self) -> Result<(), Failed>
        ensures fails { IsErr result ↔ FailsNext self.old }
        ensures ok { OnOk result (self.new ≡ after_call self.old) }
        ensures err { OnErr result (self.new ≡ after_failure (after_call self.old)) }
        ensures failed { OnErr result (Rose self.old.faults self.new.faults) }
        ensures rises { self.old.faults ≤ self.new.faults }
    {
        self.calls = raised(self.calls);
        if self.is_to_fail() {
            return Err(self.fail());
        }
        Ok(())
    }

    // The call that was counted last is one of those that are to fail.
    fn is_to_fail(&self) -> bool
        ensures { IsTrue result ↔ Contains self.now.fails.items self.now.calls }
    {
        self.fails
            .iter()
            .any(|number| u64::from(*number) == self.calls)
    }

    pub(crate) fn fail(&mut self) -> Failed
        ensures counted { self.new ≡ after_failure self.old }
        ensures rose { Rose self.old.faults self.new.faults }
        ensures rises { self.old.faults ≤ self.new.faults }
    {
        self.faults = raised(self.faults);
        Failed
    }

    pub(crate) fn faults(&self) -> u64
        ensures { result ≡ self.now.faults }
    {
        self.faults
    }
}
