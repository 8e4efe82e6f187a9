//! A source and a sink that never fail.
ghost use Rattle.std.specs.Prelude.{◌≡◌, ◌≤◌, ◌<◌, ◌+◌, Some, None, Ok, length, take, min, max, ◌++◌, [], IfOk, IfSome, IsSome, OnOk, OnErr, ◌↔◌, vec_capacity};
ghost use Rattle.co_base.specs.Streams.{Rose, Took};

use crate::names::{Failed, Memory};
use crate::streams::{Sink, Source};
use std::alloc::Global;

/// Gives its bytes, as many as there is room for.
#[derive(Debug, Drop)]
pub struct SteadySource {
    bytes: Vec<u8>,
    at: usize,
    ghost inside: { at ≤ length bytes.items },
}

impl SteadySource {
    ghost use Rattle.co_base.specs.Steady.{steady_left};

    pub fn new(alloc: Global, bytes: &[u8]) -> Result<SteadySource, Memory>
        ensures { IfOk result (λ s. steady_left s ≡ bytes.now) }
    {
        let bytes = Vec::from_slice(alloc, bytes)?;
        Ok(SteadySource { bytes, at: 0 })
    }
}

impl Source for SteadySource {
    ghost use Rattle.co_base.specs.Steady.{steady_left};

    ghost faults = { λ _. 0 };

    ghost left = { λ s. Some (steady_left s) };

    fn read(&mut self, buf: &mut [u8]) -> Result<usize, Failed>
        ensures length { length buf.new ≡ length buf.old }
        ensures count { IfOk result (λ n. n ≤ length buf.old) }
        ensures given { IfOk result (λ n. steady_left self.old ≡ take n buf.new ++ steady_left self.new) }
        ensures end { IfOk result (λ n. n ≡ 0 → 0 < length buf.old → steady_left self.new ≡ []) }
        ensures stays { OnErr result (Some (steady_left self.new) ≡ Some (steady_left self.old)) }
        ensures failed { OnErr result (Rose 0 0) }
        ensures rises { 0 ≤ 0 }
        ensures piece { result ≡ Ok (min (length buf.old) (length (steady_left self.old))) }
    {
        let n = buf.len().min(self.bytes.len() - self.at);
        buf[..n].copy_from_slice(&self.bytes[self.at..self.at + n]);
        self.at += n;
        Ok(n)
    }
}

/// Keeps what it takes while it has room, and from the first byte that finds none takes all and keeps nothing more.
#[derive(Debug, Drop)]
pub struct SteadySink {
    bytes: Vec<u8>,
    spare: u32,
    overflowed: bool,
    ghost room: { length bytes.items + spare ≤ vec_capacity bytes },
}

impl SteadySink {
    ghost use Rattle.co_base.specs.Steady.{steady_held, steady_spare};

    pub fn new(alloc: Global) -> SteadySink
        ensures held { steady_held result ≡ Some [] }
        ensures spare { steady_spare result ≡ 0 }
    {
        SteadySink {
            bytes: Vec::new(alloc),
            spare: 0,
            overflowed: false,
        }
    }

    /// Finds room for `n` bytes beyond those held.
    pub fn room(&mut self, n: u32) -> Result<(), Memory>
        ensures held { steady_held self.new ≡ steady_held self.old }
        ensures ok { OnOk result (steady_spare self.new ≡ max (steady_spare self.old) n) }
        ensures err { OnErr result (steady_spare self.new ≡ steady_spare self.old) }
    {
        self.bytes.reserve(n as usize)?;
        self.spare = self.spare.max(n);
        Ok(())
    }

    /// The bytes taken so far, as long as they were all kept.
    pub fn bytes(&self) -> Option<&[u8]>
        ensures some { IsSome result ↔ IsSome (steady_held self.now) }
        ensures bytes { IfSome result (λ bytes. steady_held self.now ≡ Some bytes.now) }
    {
        if self.overflowed {
            return None;
        }
        Some(&self.bytes)
    }
}

impl Sink for SteadySink {
    ghost use Rattle.co_base.specs.Steady.{steady_held, steady_spare, HoldsAlso};

    ghost faults = { λ _. 0 };

    ghost held = { steady_held };

    fn write(&mut self, bytes: &[u8]) -> Result<usize, Failed>
        ensures count { IfOk result (λ n. n ≤ length bytes.now) }
        ensures taken { IfOk result (λ n. Took (steady_held self.old) (steady_held self.new) (take n bytes.now)) }
        ensures none { IfOk result (λ n. n ≡ 0 → 0 < length bytes.now → Rose 0 0) }
        ensures stays { OnErr result (Took (steady_held self.old) (steady_held self.new) []) }
        ensures failed { OnErr result (Rose 0 0) }
        ensures rises { 0 ≤ 0 }

        // All is taken, and kept where it fits.
        ensures all { result ≡ Ok (length bytes.now) }
        ensures fits { length bytes.now ≤ steady_spare self.old → HoldsAlso bytes.now self.old self.new }
        ensures over { steady_spare self.old < length bytes.now → steady_held self.new ≡ None }
    {
        if self.spare as usize >= bytes.len() && self.bytes.extend_from_slice(bytes).is_ok() {
            self.spare -= bytes.len() as u32;
        } else {
            self.overflowed = true;
        }
        Ok(bytes.len())
    }
}
