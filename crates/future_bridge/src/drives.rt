//! What drives futures to their ends.
ghost use Rattle.std.specs.Prelude.{ℕ, ◌≤◌, IfOk, OnErr};
ghost use Rattle.co_base.specs.Streams.{Rose};

use co_base::Failed;
use futures::Future;
use futures::executor::block_on;
use std::alloc::AllocGlobal;
use std::random::RandomSource;
use std::sync::Wait;

/// Why no output came of a future that was driven.
#[derive(Clone, Copy, Debug, PartialEq, Eq)]
pub enum DriveError {
    /// No memory was found.
    Memory,
    /// The drive failed.
    Failed,
}

/// Drives futures to their ends.
pub trait Drive {
    /// The number of failures so far, which stands still at its last value.
    ghost faults: { Self → ℕ };

    /// Polls the future until it is ready, and gives its output. Whether and when it is ready is not claimed.
    fn drive<T: Future>(&mut self, future: T) -> Result<T::Output, Failed>
        requires { T.can_poll future }
        ensures value { IfOk result (T.gives future) }
        ensures failed { OnErr result (Rose (faults self.old) (faults self.new)) }
        ensures rises { faults self.old ≤ faults self.new };
}

/// Drives futures on the thread that calls, which waits when a future does.
#[derive(Drop)]
pub struct HostDrive<'a, R> {
    rt: &'a R,
    faults: u64,
}

impl<'a, R> HostDrive<'a, R> {
    ghost use Rattle.std.specs.Prelude.{◌≡◌};
    ghost use Rattle.future_bridge.specs.Drives.{host_faults};

    /// A drive that has not failed.
    ///
    /// Example: `through_a_channel` in `docs/LIBRARY.md`.
    pub fn new(rt: &'a R) -> HostDrive<'a, R>
        ensures { host_faults result ≡ 0 }
    {
        HostDrive { rt, faults: 0 }
    }

    /// The number of failures so far, at most `u64::MAX`.
    pub fn faults(&self) -> u64
        ensures { result ≡ host_faults self.now }
    {
        self.faults
    }
}

impl<R: Wait + RandomSource + AllocGlobal> Drive for HostDrive<'_, R> {
    ghost use Rattle.future_bridge.specs.Drives.{host_faults};

    ghost faults = { host_faults };

    fn drive<T: Future>(&mut self, future: T) -> Result<T::Output, Failed> {
        match block_on(self.rt, future) {
            Ok(output) => Ok(output),
            Err(_) => {
                self.faults = self.faults.saturating_add(1);
                Err(Failed)
            }
        }
    }
}
