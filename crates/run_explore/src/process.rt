//! The whole process, over any source and sink: from the arguments that the system gives to the code that the process ends with.

ghost use Rattle.std.specs.Prelude.{◌≡◌};
ghost use Rattle.std.specs.Process.{exit_status};
ghost use Rattle.run_explore.specs.Outcomes.{Means, asked_for, message_of, number_of, stream};
ghost use Rattle.run_explore.specs.declared.outcome.Outcome.{Outcome as Comes};

use crate::outcome::{Message, Outcome, exit_code};
use crate::top::explore_main;
use co_base::{Sink, Source};
use program_input::texts_of;
use std::alloc::Global;
use std::env::Args;
use std::io;
use std::process::ExitCode;
use std::thread::Threads;

/// What a process leaves: its code, and what standard error is to say.
#[derive(Drop)]
pub struct Left {
    pub code: ExitCode,
    pub message: Option<Message>,
}

/// Does what the arguments ask for, as `explore_main`, and answers what the process leaves. An argument that is no text is none that
/// is accepted.
pub fn process<R: Threads + Sync, S: Source, K: Sink, E: Sink>(
    rt: &R,
    alloc: Global,
    arguments: io::Result<Args>,
    source: &mut S,
    sink: &mut K,
    errors: &mut E,
) -> Left
    ensures { (outcome : Comes) × (exit_status result.code ≡ number_of outcome) × (result.message ≡ message_of outcome)
        × Means outcome (asked_for arguments) (stream (S.left source.old) (S.faults source.old))
        (stream (S.left source.new) (S.faults source.new)) (stream (K.held sink.old) (K.faults sink.old))
        (stream (K.held sink.new) (K.faults sink.new)) }
{
    match texts_of(alloc, arguments) {
        Ok(Some(texts)) => leaving(explore_main(rt, alloc, texts.as_slice(), source, sink, errors)),
        Ok(None) => leaving(Outcome::Refused),
        Err(_) => leaving(Outcome::NoMemory),
    }
}

/// What a process leaves that comes to this.
fn leaving(outcome: Outcome) -> Left
    ensures code { exit_status result.code ≡ number_of outcome }
    ensures message { result.message ≡ message_of outcome }
{
    Left {
        code: exit_code(outcome.number()),
        message: outcome.message(),
    }
}
