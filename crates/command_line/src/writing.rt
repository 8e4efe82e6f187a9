//! The end of a call: its answer is written, if there is one.

ghost use Rattle.std.specs.Prelude.{◌≡◌, ◌⊎◌, Err, Option};
ghost use Rattle.command_line.specs.declared.status.NoAnswer.TheVariants as reasons;
ghost use Rattle.command_line.specs.declared.status.Status.TheVariants as statuses;
ghost use Rattle.command_line.specs.declared.words.Command.{Command};
ghost use Rattle.command_line.specs.Preparing.{AnswersTo};
ghost use Rattle.command_line.specs.Statuses.{Means, Stream, stream};
ghost use Rattle.command_line.specs.Writing.{IsWritten};

use crate::answer::Answer;
use crate::status::{NoAnswer, Status};
use co_base::{Sink, write_all};

/// Ends the call: writes the answer to what was asked, if there is one.
pub fn end<K: Sink>(sink: &mut K, made: Result<Answer, NoAnswer>) -> Status
    ensures status { (asked : Option Command) (source source' : Stream) → AnswersTo asked source source' made
        → Means result asked source source' (stream (K.held sink.old) (K.faults sink.old)) (stream (K.held sink.new) (K.faults sink.new)) }
    ensures refused { result ≡ statuses.Refused → made ≡ Err reasons.Refused }
    ensures unwritten { (result ≡ statuses.Refused) ⊎ ((result ≡ statuses.ReadFault) ⊎ (result ≡ statuses.NoMemory))
        → sink.new ≡ sink.old }
{
    match made {
        Ok(answer) => written(sink, &answer),
        Err(NoAnswer::Refused) => Status::Refused,
        Err(NoAnswer::ReadFault) => Status::ReadFault,
        Err(NoAnswer::Memory) => Status::NoMemory,
    }
}

/// Writes the answer.
fn written<K: Sink>(sink: &mut K, answer: &Answer) -> Status
    ensures { IsWritten answer.now.ending answer.now.text.items (stream (K.held sink.old) (K.faults sink.old))
        (stream (K.held sink.new) (K.faults sink.new)) result }
{
    match write_all(sink, answer.text.as_slice()) {
        Ok(()) => answer.ending.status(),
        Err(_) => Status::WriteFault,
    }
}
