//! The whole process, over any source and sink: from the arguments that the system gives to the code that the process ends with.

ghost use Rattle.std.specs.Prelude.{◌≡◌, ◌⊎◌, drop, false};
ghost use Rattle.std.specs.Process.{exit_status};
ghost use Rattle.command_line.specs.Commands.{is_asked_to_read};
ghost use Rattle.command_line.specs.Exits.{asked_by, message_at};
ghost use Rattle.command_line.specs.Statuses.{Completes, Means, number_of, stream};
ghost use Rattle.command_line.specs.declared.status.Status.{Status as Outcome};

use crate::exit::{Message, exit_code, message_of};
use crate::status::Status;
use crate::top::coroutine_main;
use co_base::{Gate, Sink, Source};
use program_input::texts_of;
use std::alloc::Global;
use std::env::Args;
use std::io;
use std::process::ExitCode;
use std::sync::Wait;
use std::thread::Threads;

/// What a process leaves: its code, and what standard error is to say.
#[derive(Debug, Drop)]
pub struct Left {
    pub code: ExitCode,
    pub message: Option<Message>,
}

/// Does what the arguments ask for, as `coroutine_main`, and answers what the process leaves. An argument that is no text is none that
/// is accepted.
pub fn process<R: Threads + Wait + Sync, S: Source, K: Sink, G: Gate + Sync>(
    rt: &R,
    alloc: Global,
    arguments: io::Result<Args>,
    source: &mut S,
    sink: &mut K,
    gate: &G,
) -> Left
    ensures status { (status : Outcome) × (exit_status result.code ≡ number_of status)
        × Means status (asked_by arguments) (stream (S.left source.old) (S.faults source.old))
        (stream (S.left source.new) (S.faults source.new)) (stream (K.held sink.old) (K.faults sink.old))
        (stream (K.held sink.new) (K.faults sink.new)) }
    ensures completes { Completes (exit_status result.code) (asked_by arguments) (stream (S.left source.old) (S.faults source.old))
        (stream (S.left source.new) (S.faults source.new)) (stream (K.held sink.old) (K.faults sink.old))
        (stream (K.held sink.new) (K.faults sink.new)) }
    ensures message { result.message ≡ message_at (exit_status result.code) }
    ensures unread { (exit_status result.code ≡ 2) ⊎ (is_asked_to_read (asked_by arguments) ≡ false) → source.new ≡ source.old }
    ensures unwritten { (exit_status result.code ≡ 2) ⊎ ((exit_status result.code ≡ 5) ⊎ (exit_status result.code ≡ 7))
        → sink.new ≡ sink.old }
{
    match texts_of(alloc, arguments) {
        Ok(Some(texts)) => leaving(coroutine_main(
            rt,
            alloc,
            without_first(texts.as_slice()),
            source,
            sink,
            gate,
        )),
        Ok(None) => leaving(Status::Refused.number()),
        Err(_) => leaving(Status::NoMemory.number()),
    }
}

/// What a process leaves that ends with this number.
fn leaving(number: u8) -> Left
    ensures code { exit_status result.code ≡ number }
    ensures message { result.message ≡ message_at number }
{
    Left {
        code: exit_code(number),
        message: message_of(number),
    }
}

/// All but the first: the first argument is the program's name.
fn without_first<T>(all: &[T]) -> &[T]
    ensures { result.now ≡ drop 1 all.now }
{
    match all {
        [_, rest @ ..] => rest,
        [] => all,
    }
}
