//! The text of a run, and how the call then ends.

ghost use Rattle.std.specs.Prelude.{◌≡◌, IfOk, map};
ghost use Rattle.note_book.specs.Books.{notes_of};
ghost use Rattle.script_reader.specs.Scripts.{program_of};
ghost use Rattle.command_line.specs.Runs.{LeftInOneOrder};
ghost use Rattle.command_line.specs.Statuses.{ending_of};
ghost use Rattle.command_line.specs.declared.words.Command.TheVariants.{Sum};
ghost use Rattle.command_line.specs.Preparing.{IsAnswerOf, text_of};

use crate::status::Ending;
use crate::words::Command;
use co_base::Memory;
use job_model::End;
use note_book::Notes;
use poll_states::Done;
use run_report::{report, summary};
use script_reader::Script;
use std::alloc::Global;
use tally_book::Tally;

/// What is to be written, and how the call then ends.
#[derive(Debug, Drop)]
pub struct Answer {
    pub ending: Ending,
    pub text: Vec<u8>,
}

/// What a command says of a run of its script.
pub fn answer_of(
    alloc: Global,
    command: Command,
    script: &Script,
    done: &Done<Notes>,
) -> Result<Answer, Memory>
    requires { LeftInOneOrder notes_of (program_of script.now) done.now }
    ensures { IfOk result (IsAnswerOf command (program_of script.now)) }
{
    let text = text_of(alloc, command, script, done)?;
    let ending = ending_of(done.end);
    Ok(Answer { ending, text })
}

/// What `sum` says of a run of its script whose coroutines kept tallies.
pub fn sum_of(
    alloc: Global,
    size: u32,
    workers: u8,
    script: &Script,
    done: &Done<Tally>,
) -> Result<Answer, Memory>
    requires { LeftInOneOrder (λ notes. notes) (program_of script.now) done.now }
    ensures { IfOk result (IsAnswerOf (Sum size workers) (program_of script.now)) }
{
    let text = tally_book::summary(alloc, script, done.books.as_slice(), done.end)?;
    let ending = ending_of(done.end);
    Ok(Answer { ending, text })
}

/// The text that a command makes of the books of a run.
fn text_of(
    alloc: Global,
    command: Command,
    script: &Script,
    done: &Done<Notes>,
) -> Result<Vec<u8>, Memory>
    ensures { IfOk result (λ text. text.items ≡ text_of command (program_of script.now) (map notes_of done.now.books.items)) }
{
    match command {
        Command::Run(_) | Command::Check => report(alloc, script, done),
        Command::Sum(_, _) => summary(alloc, script, done),
    }
}

/// How a run ends whose root has ended so, if it has.
fn ending_of(root: Option<End>) -> Ending
    ensures { result ≡ ending_of root }
{
    match root {
        Some(End::Completed(_)) => Ending::Completed,
        Some(End::Cancelled(_)) => Ending::Cancelled,
        None => Ending::Unfinished,
    }
}
