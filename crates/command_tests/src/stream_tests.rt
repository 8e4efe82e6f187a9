//! A source and a sink of which each call fails once.

use crate::calls::{
    AT_ONCE, ONE_WORKER, Pace, RENDEZVOUS, RENDEZVOUS_ANSWER, answer, cut, first, in_a_row,
};
use co_base::OpenGate;
use std::alloc::Global;
use std::sync::Wait;
use std::test::Fail;
use std::thread::Threads;

/// What a run is answered with whose source gives seven bytes in each call, if this read fails.
fn where_a_read_fails<R: Threads + Wait + Sync>(
    rt: &R,
    alloc: Global,
    call: u32,
) -> Result<String, Fail> {
    let script = RENDEZVOUS.as_bytes();
    let fails = [call];
    let given = Pace {
        step: 7,
        fails: fails.as_slice(),
    };
    let (status, written) = answer(rt, alloc, ONE_WORKER, script, given, AT_ONCE, &OpenGate)?;
    in_a_row(alloc, status, "report", written.as_slice())
}

/// The first read whose fault is answered otherwise than by its status and no text.
fn first_other_read<R: Threads + Wait + Sync>(rt: &R, alloc: Global) -> Result<Option<u32>, Fail> {
    // Sixteen reads give the 107 bytes, and the next one finds the end.
    for call in 1..18u32 {
        let found = where_a_read_fails(rt, alloc, call)?;
        if found.as_str() != "5 report\n" {
            return Ok(Some(call));
        }
    }
    Ok(None)
}

#[test]
fn nothing_is_written_where_a_read_fails(rt: HostRuntime) -> Result<(), Fail> {
    let other = first_other_read(&rt, rt.alloc())?;
    assert_eq!(rt; other, None);
    Ok(())
}

/// The status, and what is written of the report, if this write of sixteen bytes fails.
fn where_a_write_fails<R: Threads + Wait + Sync>(
    rt: &R,
    alloc: Global,
    call: u32,
) -> Result<(u8, Vec<u8>), Fail> {
    let script = RENDEZVOUS.as_bytes();
    let fails = [call];
    let taken = Pace {
        step: 16,
        fails: fails.as_slice(),
    };
    Ok(answer(rt, alloc, ONE_WORKER, script, AT_ONCE, taken, &OpenGate)?)
}

/// The status, and how many bytes are written, if this write fails. Twenty writes take 16 bytes each, and the last one 11.
fn wanted_where_a_write_fails(call: u32) -> (u8, usize) {
    if call == 22 {
        return (0, 331);
    }
    (6, (call as usize).saturating_sub(1).saturating_mul(16))
}

/// The report, which is 331 bytes long.
fn report() -> &'static [u8] {
    let (_status, report) = cut(RENDEZVOUS_ANSWER, '\n');
    report.as_bytes()
}

/// Whether the text is the first so many bytes of the report.
fn is_part(text: &[u8], held: usize) -> bool {
    match first(report(), held) {
        Some(part) => text == part,
        None => false,
    }
}

/// The first write whose fault is answered otherwise than by its status and what was written before.
fn first_other_write<R: Threads + Wait + Sync>(rt: &R, alloc: Global) -> Result<Option<u32>, Fail> {
    for call in 1..23u32 {
        let (status, written) = where_a_write_fails(rt, alloc, call)?;
        let (wanted, held) = wanted_where_a_write_fails(call);
        if status != wanted || !is_part(written.as_slice(), held) {
            return Ok(Some(call));
        }
    }
    Ok(None)
}

#[test]
fn a_part_is_written_where_a_write_fails(rt: HostRuntime) -> Result<(), Fail> {
    let other = first_other_write(&rt, rt.alloc())?;
    assert_eq!(rt; other, None);
    assert_eq!(rt; report().len(), 331);
    Ok(())
}
