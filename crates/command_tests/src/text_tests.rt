//! Whole texts read and written through the sources and sinks of `co_base`, in steps of several lengths and with calls that fail.

ghost use Rattle.std.specs.Prelude.{◌≤◌};

use co_base::{
    Failed, Gate, MemorySink, MemorySource, OpenGate, ReadError, Sink, Source, StdSink, StdSource,
    SteadySink, SteadySource, WriteFault, read_script, write_all,
};
use std::alloc::Global;
use std::io::{self, ErrorKind, Read};
use std::test::Fail;

const TEXT: &[u8] = b"send numbers 1 2 3 4";

/// What was read, what came of the write, and how many bytes were written.
type Copied = (Result<usize, ReadError>, Result<(), WriteFault>, usize);

/// Copies the text by steps; the calls of these numbers fail.
fn copied(alloc: Global, step: u32, fails: &[u32]) -> Result<Copied, Fail>
    requires { 1 ≤ step }
{
    let mut source = MemorySource::new(alloc, TEXT, step, fails)?;
    let mut sink = MemorySink::new(alloc, step, fails)?;
    let read = read_script(alloc, &mut source).map(|text| text.len());
    let written = write_all(&mut sink, TEXT);
    Ok((read, written, sink.bytes().len()))
}

/// How long the steps are, which call fails, and what the copy comes to.
const COPIES: [(u32, u32, Copied); 9] = [
    (1, 0, (Ok(20), Ok(()), 20)),
    (7, 0, (Ok(20), Ok(()), 20)),
    (4096, 0, (Ok(20), Ok(()), 20)),
    (1, 3, (Err(ReadError::ReadFault), Err(WriteFault), 2)),
    (1, 21, (Err(ReadError::ReadFault), Ok(()), 20)),
    (7, 3, (Err(ReadError::ReadFault), Err(WriteFault), 14)),
    (7, 4, (Err(ReadError::ReadFault), Ok(()), 20)),
    (7, 5, (Ok(20), Ok(()), 20)),
    (4096, 1, (Err(ReadError::ReadFault), Err(WriteFault), 0)),
];

/// The place of the first row whose copy comes to something else, and what it comes to.
fn first_other(
    alloc: Global,
    rows: &[(u32, u32, Copied)],
) -> Result<Option<(usize, Copied)>, Fail> {
    for (i, (step, fails, wanted)) in rows.iter().enumerate() {
        if *step == 0 {
            return Err(Fail::new("a step has no byte"));
        }
        let found = copied(alloc, *step, &[*fails])?;
        if found != *wanted {
            return Ok(Some((i, found)));
        }
    }
    Ok(None)
}

#[test]
fn a_text_of_twenty_bytes_is_read_and_written_in_any_steps(rt: HostRuntime) -> Result<(), Fail> {
    let other = first_other(rt.alloc(), &COPIES)?;
    assert_eq!(rt; other, None);
    Ok(())
}

/// How many bytes the sink has after it took these, if they fitted.
fn held_after(sink: &mut SteadySink, bytes: &[u8]) -> Result<Option<usize>, Fail> {
    write_all(sink, bytes)?;
    Ok(sink.bytes().map(|held| held.len()))
}

#[test]
fn a_steady_sink_tells_what_it_took_until_a_byte_does_not_fit(rt: HostRuntime) -> Result<(), Fail> {
    let mut source = SteadySource::new(rt.alloc(), b"abcde")?;
    let text = read_script(rt.alloc(), &mut source)?;
    let mut sink = SteadySink::new(rt.alloc());
    sink.room(4)?;
    let told = [
        held_after(&mut sink, b"abc")?,
        held_after(&mut sink, b"d")?,
        held_after(&mut sink, b"e")?,
    ];
    OpenGate.pass(0, 0);
    assert_eq!(rt; (text.len(), told), (5, [Some(3), Some(4), None]));
    Ok(())
}

/// Is interrupted so many times, and then gives one byte.
#[derive(Drop)]
struct Interrupted(u32);

impl Read for Interrupted {
    fn read(&mut self, buf: &mut [u8]) -> io::Result<usize> {
        if self.0 > 0 {
            self.0 -= 1;
            return Err(io::Error::from(ErrorKind::Interrupted));
        }
        Ok(buf.len().min(1))
    }
}

/// What a read of such a reader answers, and the count of faults.
fn read_after(times: u32) -> (Result<usize, Failed>, u64) {
    let mut source = StdSource::new(Interrupted(times));
    let answer = source.read(&mut [0; 4]);
    (answer, source.faults())
}

#[test]
fn a_standard_reader_is_tried_a_thousand_times(rt: HostRuntime) -> Result<(), Fail> {
    let mut source = StdSource::new(TEXT);
    let text = read_script(rt.alloc(), &mut source)?;
    assert_eq!(rt; text.as_slice(), TEXT);
    let answers = [read_after(999), read_after(1000)];
    assert_eq!(rt; answers, [(Ok(1), 0), (Err(Failed), 1)]);
    Ok(())
}

/// What a write answers of two bytes, of two more where one fits, and of none; and the count of faults after each.
fn written_full() -> ([Result<usize, Failed>; 2], Result<(), WriteFault>, [u64; 3]) {
    let mut room = [0u8; 3];
    let mut sink = StdSink::new(room.as_mut_slice());
    let two = sink.write(b"ab");
    let at_first = sink.faults();
    let more = write_all(&mut sink, b"cd");
    let then = sink.faults();
    let none = sink.write(b"");
    ([two, none], more, [at_first, then, sink.faults()])
}

#[test]
fn a_standard_writer_that_is_full_raises_the_count(rt: HostRuntime) {
    let found = written_full();
    assert_eq!(rt; found, ([Ok(2), Ok(0)], Err(WriteFault), [0, 1, 1]));
}
