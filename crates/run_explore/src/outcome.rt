//! What a call of the program comes to.

ghost use Rattle.std.specs.Prelude.{◌≡◌};
ghost use Rattle.std.specs.Process.{exit_status};
ghost use Rattle.run_explore.specs.Outcomes.{message_of, number_of, number_of_run, number_of_search};

use end_search::Verdict;
use job_model::End;
use std::process::ExitCode;
use thiserror::Error;

/// How a call ends that has a text to write.
#[derive(Clone, Copy)]
pub enum Ending {
    /// The text tells the ends of the script that were looked for.
    Searched(Verdict),
    /// The text is the report of a run, whose root's Job ended so, if it did.
    Ran(Option<End>),
    /// The bytes are no script; the text says which line is faulty.
    NoScript,
}

/// What a call comes to.
#[derive(Clone, Copy)]
pub enum Outcome {
    /// The text was written, whole.
    Written(Ending),
    /// The words are not those of a call.
    Refused,
    /// There is no end with the number that was asked for.
    NoEnd,
    /// The source failed; nothing was written.
    ReadFault,
    /// The sink failed; a part of the text was written.
    WriteFault,
    /// No memory was found; nothing was written.
    NoMemory,
}

/// What standard error says.
#[derive(Clone, Copy, Debug, Error)]
pub enum Message {
    #[error("usage: run_explore [--find WHAT] [--tell WHAT] [--states N] [--report N] [--order T,T..] [--workers N]")]
    Usage,
    #[error("no end has this number")]
    NoEnd,
    #[error("read fault")]
    ReadFault,
    #[error("write fault")]
    WriteFault,
    #[error("out of memory")]
    NoMemory,
}

impl Outcome {
    /// The number with which the process ends.
    pub fn number(self) -> u8
        ensures { result ≡ number_of self }
    {
        match self {
            Outcome::Written(Ending::Searched(verdict)) => number_of_search(verdict),
            Outcome::Written(Ending::Ran(root)) => number_of_run(root),
            Outcome::Written(Ending::NoScript) => 3,
            Outcome::Refused | Outcome::NoEnd => 2,
            Outcome::ReadFault => 5,
            Outcome::WriteFault => 6,
            Outcome::NoMemory => 7,
        }
    }

    /// What standard error says.
    pub fn message(self) -> Option<Message>
        ensures { result ≡ message_of self }
    {
        match self {
            Outcome::Written(_) => None,
            Outcome::Refused => Some(Message::Usage),
            Outcome::NoEnd => Some(Message::NoEnd),
            Outcome::ReadFault => Some(Message::ReadFault),
            Outcome::WriteFault => Some(Message::WriteFault),
            Outcome::NoMemory => Some(Message::NoMemory),
        }
    }
}

fn number_of_search(verdict: Verdict) -> u8
    ensures { result ≡ number_of_search verdict }
{
    match verdict {
        Verdict::Exhausted => 0,
        Verdict::Found => 1,
        Verdict::Cut => 4,
    }
}

fn number_of_run(root: Option<End>) -> u8
    ensures { result ≡ number_of_run root }
{
    match root {
        Some(End::Completed(_)) => 0,
        Some(End::Cancelled(_)) => 1,
        None => 4,
    }
}

/// The code of a process that ends with this number.
pub fn exit_code(number: u8) -> ExitCode
    ensures { exit_status result ≡ number }
{
    ExitCode::from(number)
}
