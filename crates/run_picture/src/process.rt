//! The whole process, over any source and sink: from the arguments that the system gives to the code that the process ends with.

ghost use Rattle.std.specs.Prelude.{◌≡◌};
ghost use Rattle.std.specs.Process.{exit_status};
ghost use Rattle.run_picture.specs.Outcomes.{Means, asked_for, is_large, message_of, number_of, stream};
ghost use Rattle.run_picture.specs.declared.outcome.Outcome.{Outcome as Comes};

use crate::outcome::{Message, Outcome, exit_code, is_large};
use crate::top::picture_main;
use co_base::{Sink, Source};
use program_input::texts_of;
use std::alloc::Global;
use std::env::Args;
use std::io;
use std::process::ExitCode;

/// What a process leaves: its code, and what standard error is to say.
#[derive(Drop)]
pub struct Left {
    pub code: ExitCode,
    pub message: Option<Message>,
    /// It says that a trace serves better.
    pub hint: bool,
}

/// Does what the arguments ask for, as `picture_main`, and answers what the process leaves. An argument that is no text is none that
/// is accepted.
pub fn process<S: Source, K: Sink>(
    alloc: Global,
    arguments: io::Result<Args>,
    source: &mut S,
    sink: &mut K,
) -> Left
    ensures { (outcome : Comes) × (exit_status result.code ≡ number_of outcome) × (result.message ≡ message_of outcome)
        × (result.hint ≡ is_large outcome) × Means outcome (asked_for arguments) (stream (S.left source.old) (S.faults source.old))
        (stream (S.left source.new) (S.faults source.new)) (stream (K.held sink.old) (K.faults sink.old))
        (stream (K.held sink.new) (K.faults sink.new)) }
{
    match texts_of(alloc, arguments) {
        Ok(Some(texts)) => leaving(picture_main(alloc, texts.as_slice(), source, sink)),
        Ok(None) => leaving(Outcome::Refused),
        Err(_) => leaving(Outcome::NoMemory),
    }
}

/// What a process leaves that comes to this.
fn leaving(outcome: Outcome) -> Left
    ensures code { exit_status result.code ≡ number_of outcome }
    ensures message { result.message ≡ message_of outcome }
    ensures hint { result.hint ≡ is_large outcome }
{
    Left {
        code: exit_code(outcome.number()),
        message: outcome.message(),
        hint: is_large(outcome),
    }
}
