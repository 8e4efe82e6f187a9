//! The edge: sources and sinks over the readers and writers of the standard library.
ghost use Rattle.std.specs.Prelude.{◌≡◌, ◌≤◌, ◌<◌, length, take, IfOk, OnErr, [], if◌then◌else◌, is_ok};
ghost use Rattle.std.specs.Io.KnownBytes.{ReadConsumes, WriteAppends};
ghost use Rattle.co_base.specs.Streams.{one_more, Rose, Gave, Took, IsDrained};

use crate::names::Failed;
use crate::streams::{Sink, Source, raised};
use std::io::{ErrorKind, Read, Write};

/// The most tries of one call, each but the last of which was interrupted.
const TRIES: u32 = 1_000;

/// A reader as a source. It tells no bytes.
#[derive(Debug, Drop)]
pub struct StdSource<R> {
    reader: R,
    faults: u64,
}

impl<R> StdSource<R> {
    ghost use Rattle.co_base.specs.Standard.{reader_of, source_faults};

    pub fn new(reader: R) -> StdSource<R>
        ensures reader { reader_of result ≡ reader }
        ensures faults { source_faults result ≡ 0 }
    {
        StdSource { reader, faults: 0 }
    }

    /// The number of failures so far, at most `u64::MAX`.
    pub fn faults(&self) -> u64
        ensures { result ≡ source_faults self.now }
    {
        self.faults
    }
}

impl<R: Read> Source for StdSource<R> {
    ghost use Rattle.co_base.specs.Standard.{reader_of, source_faults, source_left};

    ghost faults = { source_faults };

    ghost left = { source_left };

    fn read(&mut self, buf: &mut [u8]) -> Result<usize, Failed>
        ensures length { length buf.new ≡ length buf.old }
        ensures count { IfOk result (λ n. n ≤ length buf.old) }
        ensures given { IfOk result (λ n. Gave (source_left self.old) (source_left self.new) (take n buf.new)) }
        ensures end { IfOk result (λ n. n ≡ 0 → 0 < length buf.old → IsDrained (source_left self.new)) }
        ensures stays { OnErr result (source_left self.new ≡ source_left self.old) }
        ensures failed { OnErr result (Rose (source_faults self.old) (source_faults self.new)) }
        ensures rises { source_faults self.old ≤ source_faults self.new }

        // What is given is what the reader gave, and each failure raises the count by one.
        ensures bytes { ReadConsumes (R.remaining (reader_of self.old)) (R.remaining (reader_of self.new)) result buf.new }
        ensures counted { source_faults self.new ≡ (if is_ok result then source_faults self.old else one_more (source_faults self.old)) }
    {
        let given = read_uninterrupted(&mut self.reader, buf);
        if given.is_err() {
            self.faults = raised(self.faults);
        }
        given
    }
}

// One read, begun again while it is interrupted.
fn read_uninterrupted<R: Read>(reader: &mut R, buf: &mut [u8]) -> Result<usize, Failed>
    ensures length { length buf.new ≡ length buf.old }
    ensures count { IfOk result (λ n. n ≤ length buf.old) }
    ensures bytes { ReadConsumes (R.remaining reader.old) (R.remaining reader.new) result buf.new }
{
    for _ in 0..TRIES {
        match reader.read(buf) {
            Ok(n) => return Ok(n),
            Err(e) if e.kind() == ErrorKind::Interrupted => {}
            Err(_) => return Err(Failed),
        }
    }
    Err(Failed)
}

/// A writer as a sink. It tells no bytes.
#[derive(Debug, Drop)]
pub struct StdSink<W> {
    writer: W,
    faults: u64,
}

impl<W> StdSink<W> {
    ghost use Rattle.co_base.specs.Standard.{writer_of, sink_faults};

    pub fn new(writer: W) -> StdSink<W>
        ensures writer { writer_of result ≡ writer }
        ensures faults { sink_faults result ≡ 0 }
    {
        StdSink { writer, faults: 0 }
    }

    /// The number of failures so far, at most `u64::MAX`.
    pub fn faults(&self) -> u64
        ensures { result ≡ sink_faults self.now }
    {
        self.faults
    }
}

impl<W: Write> Sink for StdSink<W> {
    ghost use Rattle.co_base.specs.Standard.{writer_of, sink_faults, sink_held};

    ghost faults = { sink_faults };

    ghost held = { sink_held };

    fn write(&mut self, bytes: &[u8]) -> Result<usize, Failed>
        ensures count { IfOk result (λ n. n ≤ length bytes.now) }
        ensures taken { IfOk result (λ n. Took (sink_held self.old) (sink_held self.new) (take n bytes.now)) }
        ensures none { IfOk result (λ n. n ≡ 0 → 0 < length bytes.now → Rose (sink_faults self.old) (sink_faults self.new)) }
        ensures stays { OnErr result (Took (sink_held self.old) (sink_held self.new) []) }
        ensures failed { OnErr result (Rose (sink_faults self.old) (sink_faults self.new)) }
        ensures rises { sink_faults self.old ≤ sink_faults self.new }

        // What is taken is what the writer took, and each failure raises the count by one.
        ensures bytes { WriteAppends (W.contents (writer_of self.old)) (W.contents (writer_of self.new)) result bytes.now }
        ensures ok { IfOk result (λ n. 0 < n → sink_faults self.new ≡ sink_faults self.old) }
        ensures err { OnErr result (sink_faults self.new ≡ one_more (sink_faults self.old)) }
    {
        let taken = write_uninterrupted(&mut self.writer, bytes);
        match taken {
            Ok(n) if n > 0 || bytes.is_empty() => {}
            _ => self.faults = raised(self.faults),
        }
        taken
    }
}

// One write, begun again while it is interrupted.
fn write_uninterrupted<W: Write>(writer: &mut W, bytes: &[u8]) -> Result<usize, Failed>
    ensures count { IfOk result (λ n. n ≤ length bytes.now) }
    ensures bytes { WriteAppends (W.contents writer.old) (W.contents writer.new) result bytes.now }
{
    for _ in 0..TRIES {
        match writer.write(bytes) {
            Ok(n) => return Ok(n),
            Err(e) if e.kind() == ErrorKind::Interrupted => {}
            Err(_) => return Err(Failed),
        }
    }
    Err(Failed)
}
