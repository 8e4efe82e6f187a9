//! What is done before a script is run.

ghost use Rattle.std.specs.Prelude.{◌≡◌, ◌≤◌, ◌⊎◌, false, Err, IfOk, IfSome, MatchResult, Some};
ghost use Rattle.command_line.specs.declared.words.Command.TheVariants.{Check, Run};
ghost use Rattle.command_line.specs.declared.status.NoAnswer.TheVariants as reasons;
ghost use Rattle.command_line.specs.Commands.{IsInLimits, is_asked_to_read};
ghost use Rattle.command_line.specs.Statuses.{Stream, stream};
ghost use Rattle.command_line.specs.Preparing.{GaveScript, Gives, HasNoAnswer, Prepares};
ghost use Rattle.script_reader.specs.Scripts.{program_of};

use crate::answer::Answer;
use crate::input::{Input, read_input};
use crate::status::{Ending, NoAnswer, unless_memory};
use crate::words::Command;
use co_base::{Memory, Source};
use script_printer::{generate, print};
use script_reader::Script;
use std::alloc::Global;

/// An answer, or a command with the script that has to be run for it.
#[derive(Drop)]
pub enum Prepared {
    Ready(Answer),
    Script(Command, Script),
}

/// Reads or generates the script of what is asked, if it is a command. A check is answered by that alone, and so is what is no script.
pub fn prepare<S: Source>(
    alloc: Global,
    asked: Option<Command>,
    source: &mut S,
) -> Result<Prepared, NoAnswer>
    requires { IfSome asked IsInLimits }
    ensures prepares { MatchResult result
        (Prepares asked (stream (S.left source.old) (S.faults source.old)) (stream (S.left source.new) (S.faults source.new)))
        (HasNoAnswer asked (stream (S.left source.old) (S.faults source.old)) (stream (S.left source.new) (S.faults source.new))) }
    ensures unread { (result ≡ Err reasons.Refused) ⊎ (is_asked_to_read asked ≡ false) → source.new ≡ source.old }
{
    match asked {
        None => Err(NoAnswer::Refused),
        Some(command) => match command {
            Command::Run(workers) => match read_input(alloc, source) {
                Ok(input) => Ok(to_run(workers, input)),
                Err(why) => Err(why),
            },
            Command::Check => match read_input(alloc, source) {
                Ok(input) => unless_memory(to_check(alloc, input)),
                Err(why) => Err(why),
            },
            Command::Sum(size, workers) => match generate(alloc, size) {
                Ok(script) => Ok(Prepared::Script(Command::Sum(size, workers), script)),
                Err(_) => Err(NoAnswer::Memory),
            },
        },
    }
}

/// What is run of what was read, by so many workers.
fn to_run(workers: u8, input: Input) -> Prepared
    requires { (1 ≤ workers) × (workers ≤ 16) }
    ensures { (source source' : Stream) → Gives source source' input → Prepares (Some (Run workers)) source source' result }
{
    match input {
        Input::Script(script) => Prepared::Script(Command::Run(workers), script),
        Input::Fault(line) => Prepared::Ready(Answer {
            ending: Ending::NoScript,
            text: line,
        }),
    }
}

/// What a check says of what was read.
fn to_check(alloc: Global, input: Input) -> Result<Prepared, Memory>
    ensures { IfOk result (λ prepared. (source source' : Stream) → Gives source source' input
        → Prepares (Some Check) source source' prepared) }
{
    match input {
        Input::Script(script) => checked(alloc, &script),
        Input::Fault(line) => Ok(Prepared::Ready(Answer {
            ending: Ending::NoScript,
            text: line,
        })),
    }
}

/// What a check says of a script.
fn checked(alloc: Global, script: &Script) -> Result<Prepared, Memory>
    ensures { IfOk result (λ prepared. (source source' : Stream) → GaveScript source source' (program_of script.now)
        → Prepares (Some Check) source source' prepared) }
{
    let text = print(alloc, script)?;
    Ok(Prepared::Ready(Answer {
        ending: Ending::Completed,
        text,
    }))
}
