//! The whole call, over any source and sink.

ghost use Rattle.std.specs.Prelude.{◌≡◌, ◌⊎◌, false, Err, map, string_bytes};
ghost use Rattle.command_line.specs.Commands.{command_of, is_asked_to_read};
ghost use Rattle.command_line.specs.Statuses.{Completes, Means, number_of, stream};
ghost use Rattle.command_line.specs.Preparing.{AnswersTo};
ghost use Rattle.command_line.specs.declared.status.NoAnswer.TheVariants as reasons;
ghost use Rattle.command_line.specs.declared.status.Status.{Status as Outcome};

use crate::answer::Answer;
use crate::prepare::{Prepared, prepare};
use crate::running::answer_together;
use crate::status::{NoAnswer, unless_memory};
use crate::words::command_of;
use crate::writing::end;
use co_base::{Gate, Sink, Source};
use std::alloc::Global;
use std::sync::Wait;
use std::thread::Threads;

/// Does what the words ask for: those of the command line without the program's name. `run` reads a script, runs it and writes its
/// report; `check` reads a script and writes it in its canonical form; `sum` runs a generated script and writes its summary. Answers the
/// number with which the process ends.
///
/// The order is words, script, run, text; the text is made whole before its first byte is written. Several workers need the join of
/// their threads to return.
pub fn coroutine_main<R: Threads + Wait + Sync, S: Source, K: Sink, G: Gate + Sync>(
    rt: &R,
    alloc: Global,
    words: &[String],
    source: &mut S,
    sink: &mut K,
    gate: &G,
) -> u8
    ensures status { (status : Outcome) × (result ≡ number_of status)
        × Means status (command_of (map string_bytes words.now)) (stream (S.left source.old) (S.faults source.old))
        (stream (S.left source.new) (S.faults source.new)) (stream (K.held sink.old) (K.faults sink.old))
        (stream (K.held sink.new) (K.faults sink.new)) }
    ensures completes { Completes result (command_of (map string_bytes words.now)) (stream (S.left source.old) (S.faults source.old))
        (stream (S.left source.new) (S.faults source.new)) (stream (K.held sink.old) (K.faults sink.old))
        (stream (K.held sink.new) (K.faults sink.new)) }
    ensures unread { (result ≡ 2) ⊎ (is_asked_to_read (command_of (map string_bytes words.now)) ≡ false) → source.new ≡ source.old }
    ensures unwritten { (result ≡ 2) ⊎ ((result ≡ 5) ⊎ (result ≡ 7)) → sink.new ≡ sink.old }
{
    end(sink, answer(rt, alloc, words, source, gate)).number()
}

/// Makes the answer to what the words ask for.
fn answer<R: Threads + Wait + Sync, S: Source, G: Gate + Sync>(
    rt: &R,
    alloc: Global,
    words: &[String],
    source: &mut S,
    gate: &G,
) -> Result<Answer, NoAnswer>
    ensures answers { AnswersTo (command_of (map string_bytes words.now))
        (stream (S.left source.old) (S.faults source.old)) (stream (S.left source.new) (S.faults source.new)) result }
    ensures unread { (result ≡ Err reasons.Refused) ⊎ (is_asked_to_read (command_of (map string_bytes words.now)) ≡ false)
        → source.new ≡ source.old }
{
    let asked = unless_memory(command_of(alloc, words))?;
    match prepare(alloc, asked, source)? {
        Prepared::Ready(answer) => Ok(answer),
        Prepared::Script(command, script) => {
            unless_memory(answer_together(rt, alloc, command, &script, gate))
        }
    }
}
