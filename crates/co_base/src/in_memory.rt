//! A source and a sink over bytes in memory, which fail at the calls that they are told.
ghost use Rattle.std.specs.Prelude.{◌≡◌, ◌≤◌, ◌<◌, Some, length, take, min, ◌++◌, [], IfOk, OnOk, OnErr, IsErr, ◌↔◌};
ghost use Rattle.co_base.specs.Streams.{Rose};
ghost use Rattle.co_base.specs.FailingCalls.{after_call, after_failure};

use crate::failing::FailingCalls;
use crate::names::{Failed, Memory};
use crate::streams::{Sink, Source};
use std::alloc::Global;

/// Gives its bytes in pieces of at most `step`.
#[derive(Debug, Drop)]
pub struct MemorySource {
    bytes: Vec<u8>,
    at: usize,
    step: u32,
    calls: FailingCalls,
    ghost steps: { 1 ≤ step },
    ghost inside: { at ≤ length bytes.items },
}

impl MemorySource {
    ghost use Rattle.co_base.specs.InMemory.{SourceOver, source_faults};

    /// `step` is the most bytes of one call; `fails` has the numbers, from 1, of the calls that fail.
    pub fn new(
        alloc: Global,
        bytes: &[u8],
        step: u32,
        fails: &[u32],
    ) -> Result<MemorySource, Memory>
        requires { 1 ≤ step }
        ensures { IfOk result (SourceOver bytes.now step fails.now) }
    {
        let bytes = Vec::from_slice(alloc, bytes)?;
        let calls = FailingCalls::new(alloc, fails)?;
        Ok(MemorySource {
            bytes,
            at: 0,
            step,
            calls,
        })
    }

    /// The number of failures so far, at most `u64::MAX`.
    pub fn faults(&self) -> u64
        ensures { result ≡ source_faults self.now }
    {
        self.calls.faults()
    }
}

impl Source for MemorySource {
    ghost use Rattle.co_base.specs.InMemory.{source_faults, bytes_left, source_step, source_calls, SourceFailsNext};

    ghost faults = { source_faults };

    ghost left = { λ s. Some (bytes_left s) };

    fn read(&mut self, buf: &mut [u8]) -> Result<usize, Failed>
        ensures length { length buf.new ≡ length buf.old }
        ensures count { IfOk result (λ n. n ≤ length buf.old) }
        ensures given { IfOk result (λ n. bytes_left self.old ≡ take n buf.new ++ bytes_left self.new) }
        ensures end { IfOk result (λ n. n ≡ 0 → 0 < length buf.old → bytes_left self.new ≡ []) }
        ensures stays { OnErr result (Some (bytes_left self.new) ≡ Some (bytes_left self.old)) }
        ensures failed { OnErr result (Rose (source_faults self.old) (source_faults self.new)) }
        ensures rises { source_faults self.old ≤ source_faults self.new }

        // The very calls of the given numbers fail, and each other gives as much as the step allows.
        ensures fails { IsErr result ↔ SourceFailsNext self.old }
        ensures piece { IfOk result (λ n. n ≡ min (min (length buf.old) (source_step self.old)) (length (bytes_left self.old))) }
        ensures step { source_step self.new ≡ source_step self.old }
        ensures call { OnOk result (source_calls self.new ≡ after_call (source_calls self.old)) }
        ensures failure { OnErr result (source_calls self.new ≡ after_failure (after_call (source_calls self.old))) }
    {
        self.calls.begin()?;
        let n = buf
            .len()
            .min(self.step as usize)
            .min(self.bytes.len() - self.at);
        buf[..n].copy_from_slice(&self.bytes[self.at..self.at + n]);
        self.at += n;
        Ok(n)
    }
}

/// Takes bytes in pieces of at most `step`.
///
/// A write for which no memory is found fails too.
#[derive(Debug, Drop)]
pub struct MemorySink {
    bytes: Vec<u8>,
    step: u32,
    calls: FailingCalls,
    ghost steps: { 1 ≤ step },
}

impl MemorySink {
    ghost use Rattle.co_base.specs.InMemory.{SinkOf, bytes_held, sink_faults};

    /// `step` is the most bytes of one call; `fails` has the numbers, from 1, of the calls that fail.
    pub fn new(alloc: Global, step: u32, fails: &[u32]) -> Result<MemorySink, Memory>
        requires { 1 ≤ step }
        ensures { IfOk result (SinkOf step fails.now) }
    {
        let calls = FailingCalls::new(alloc, fails)?;
        Ok(MemorySink {
            bytes: Vec::new(alloc),
            step,
            calls,
        })
    }

    /// The bytes taken so far.
    pub fn bytes(&self) -> &[u8]
        ensures { result.now ≡ bytes_held self.now }
    {
        &self.bytes
    }

    /// The number of failures so far, at most `u64::MAX`.
    pub fn faults(&self) -> u64
        ensures { result ≡ sink_faults self.now }
    {
        self.calls.faults()
    }
}

impl Sink for MemorySink {
    ghost use Rattle.co_base.specs.InMemory.{sink_faults, bytes_held, sink_step, sink_calls, SinkFailsNext};

    ghost faults = { sink_faults };

    ghost held = { λ s. Some (bytes_held s) };

    fn write(&mut self, bytes: &[u8]) -> Result<usize, Failed>
        ensures count { IfOk result (λ n. n ≤ length bytes.now) }
        ensures taken { IfOk result (λ n. bytes_held self.new ≡ bytes_held self.old ++ take n bytes.now) }
        ensures none { IfOk result (λ n. n ≡ 0 → 0 < length bytes.now → Rose (sink_faults self.old) (sink_faults self.new)) }
        ensures stays { OnErr result (bytes_held self.new ≡ bytes_held self.old ++ []) }
        ensures failed { OnErr result (Rose (sink_faults self.old) (sink_faults self.new)) }
        ensures rises { sink_faults self.old ≤ sink_faults self.new }

        // The calls of the given numbers fail, and one that does not takes as much as the step allows.
        ensures fails { SinkFailsNext self.old → IsErr result }
        ensures piece { IfOk result (λ n. n ≡ min (length bytes.now) (sink_step self.old)) }
        ensures step { sink_step self.new ≡ sink_step self.old }
        ensures call { OnOk result (sink_calls self.new ≡ after_call (sink_calls self.old)) }
        ensures failure { OnErr result (sink_calls self.new ≡ after_failure (after_call (sink_calls self.old))) }
    {
        self.calls.begin()?;
        let n = bytes.len().min(self.step as usize);
        match self.bytes.extend_from_slice(&bytes[..n]) {
            Ok(()) => Ok(n),
            Err(_) => Err(self.calls.fail()),
        }
    }
}
