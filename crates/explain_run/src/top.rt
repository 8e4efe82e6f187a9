//! The whole call, over any source and sink.

ghost use Rattle.std.specs.Prelude.{◌≤◌, length, map, string_bytes, true};
ghost use Rattle.explain_run.specs.Words.{are_asked};
ghost use Rattle.explain_run.specs.Outcomes.{IsMade, IsMadeOf, IsWritten, Means, stream};

use crate::outcome::Outcome;
use crate::words::are_asked;
use co_base::{ReadError, Sink, Source, read_script, write_all};
use run_explanation::explain;
use std::alloc::Global;

/// Explains what the source gives, if the words are those of a call, of which the first is the program's name.
///
/// The order is words, script, report; the text is made whole before its first byte is written.
pub fn explain_main<S: Source, K: Sink>(
    alloc: Global,
    words: &[String],
    source: &mut S,
    sink: &mut K,
) -> Outcome
    ensures { Means result (are_asked (map string_bytes words.now)) (stream (S.left source.old) (S.faults source.old))
        (stream (S.left source.new) (S.faults source.new)) (stream (K.held sink.old) (K.faults sink.old))
        (stream (K.held sink.new) (K.faults sink.new)) }
{
    match make_text(alloc, words, source) {
        Ok(text) => written(sink, &text),
        Err(outcome) => outcome,
    }
}

/// Writes the explanation.
fn written<K: Sink>(sink: &mut K, text: &Vec<u8>) -> Outcome
    ensures { IsWritten result text.now.items (stream (K.held sink.old) (K.faults sink.old))
        (stream (K.held sink.new) (K.faults sink.new)) }
{
    match write_all(sink, text.as_slice()) {
        Ok(()) => Outcome::Explained,
        Err(_) => Outcome::WriteFault,
    }
}

/// Makes the explanation that the words ask for.
fn make_text<S: Source>(alloc: Global, words: &[String], source: &mut S) -> Result<Vec<u8>, Outcome>
    ensures { IsMade result (are_asked (map string_bytes words.now)) (stream (S.left source.old) (S.faults source.old))
        (stream (S.left source.new) (S.faults source.new)) }
{
    match are_asked(alloc, words) {
        Ok(true) => read_text(alloc, source),
        Ok(false) => Err(Outcome::Refused),
        Err(_) => Err(Outcome::NoMemory),
    }
}

/// Makes the explanation of what the source gives.
fn read_text<S: Source>(alloc: Global, source: &mut S) -> Result<Vec<u8>, Outcome>
    ensures { IsMade result true (stream (S.left source.old) (S.faults source.old))
        (stream (S.left source.new) (S.faults source.new)) }
{
    match read_script(alloc, source) {
        Ok(bytes) => text_of(alloc, bytes.as_slice()),
        Err(ReadError::TooLong) => Err(Outcome::TooLong),
        Err(ReadError::ReadFault) => Err(Outcome::ReadFault),
        Err(ReadError::Memory) => Err(Outcome::NoMemory),
    }
}

/// Makes the explanation of an input.
fn text_of(alloc: Global, input: &[u8]) -> Result<Vec<u8>, Outcome>
    requires { length input.now ≤ 1048576 }
    ensures { IsMadeOf input.now result }
{
    match explain(alloc, input) {
        Ok(text) => Ok(text),
        Err(fault) => Err(Outcome::Unexplained(fault)),
    }
}
