//! The whole call for words that ask for one worker, over any source and sink: it needs no threads, and returns.

ghost use Rattle.std.specs.Prelude.{◌≡◌, ◌⊎◌, false, Err, map, string_bytes};
ghost use Rattle.command_line.specs.Commands.{alone, command_of, is_asked_to_read};
ghost use Rattle.command_line.specs.Statuses.{Completes, Means, number_of, stream};
ghost use Rattle.command_line.specs.Preparing.{AnswersTo};
ghost use Rattle.command_line.specs.declared.status.NoAnswer.TheVariants as reasons;
ghost use Rattle.command_line.specs.declared.status.Status.{Status as Outcome};

use crate::answer::Answer;
use crate::prepare::{Prepared, prepare};
use crate::running::answer_alone;
use crate::status::{NoAnswer, unless_memory};
use crate::words::alone_of;
use crate::writing::end;
use co_base::{Gate, Sink, Source};
use std::alloc::Global;

/// Does what the words ask for, as `coroutine_main`, in the calling thread. Words that ask for a second worker are refused.
pub fn coroutine_main_alone<S: Source, K: Sink, G: Gate>(
    alloc: Global,
    words: &[String],
    source: &mut S,
    sink: &mut K,
    gate: &G,
) -> u8
    ensures status { (status : Outcome) × (result ≡ number_of status)
        × Means status (alone (command_of (map string_bytes words.now))) (stream (S.left source.old) (S.faults source.old))
        (stream (S.left source.new) (S.faults source.new)) (stream (K.held sink.old) (K.faults sink.old))
        (stream (K.held sink.new) (K.faults sink.new)) }
    ensures completes { Completes result (alone (command_of (map string_bytes words.now)))
        (stream (S.left source.old) (S.faults source.old)) (stream (S.left source.new) (S.faults source.new))
        (stream (K.held sink.old) (K.faults sink.old)) (stream (K.held sink.new) (K.faults sink.new)) }
    ensures unread { (result ≡ 2) ⊎ (is_asked_to_read (alone (command_of (map string_bytes words.now))) ≡ false) → source.new ≡ source.old }
    ensures unwritten { (result ≡ 2) ⊎ ((result ≡ 5) ⊎ (result ≡ 7)) → sink.new ≡ sink.old }
{
    end(sink, answer(alloc, words, source, gate)).number()
}

/// Makes the answer to what the words ask for.
fn answer<S: Source, G: Gate>(
    alloc: Global,
    words: &[String],
    source: &mut S,
    gate: &G,
) -> Result<Answer, NoAnswer>
    ensures answers { AnswersTo (alone (command_of (map string_bytes words.now)))
        (stream (S.left source.old) (S.faults source.old)) (stream (S.left source.new) (S.faults source.new)) result }
    ensures unread { (result ≡ Err reasons.Refused) ⊎ (is_asked_to_read (alone (command_of (map string_bytes words.now))) ≡ false)
        → source.new ≡ source.old }
{
    let asked = unless_memory(alone_of(alloc, words))?;
    match prepare(alloc, asked, source)? {
        Prepared::Ready(answer) => Ok(answer),
        Prepared::Script(command, script) => {
            unless_memory(answer_alone(alloc, command, &script, gate))
        }
    }
}
