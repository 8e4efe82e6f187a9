//! What a call of the program comes to.

ghost use Rattle.std.specs.Prelude.{◌≡◌};
ghost use Rattle.std.specs.Process.{exit_status};
ghost use Rattle.explain_run.specs.Outcomes.{message_of, number_of};

use run_explanation::Unexplained;
use std::process::ExitCode;
use thiserror::Error;

/// What a call comes to.
#[derive(Clone, Copy)]
pub enum Outcome {
    /// The explanation was written.
    Explained,
    /// The words are not those of a call.
    Refused,
    /// There is none of this input, or no memory was found; nothing was written.
    Unexplained(Unexplained),
    /// Script and report are longer than they may be together.
    TooLong,
    /// The source failed; nothing was written.
    ReadFault,
    /// The sink failed; a part of the explanation was written.
    WriteFault,
    /// No memory was found; nothing was written.
    NoMemory,
}

/// What standard error says.
#[derive(Clone, Copy, Debug, Error)]
pub enum Message {
    #[error("usage: explain_run")]
    Usage,
    #[error("line {0}: no line of a script")]
    NoScript(u32),
    #[error("line {0}: no line of a report of this script")]
    NoReport(u32),
    #[error("a script and its report have at most 1048576 bytes")]
    TooLong,
    #[error("read fault")]
    ReadFault,
    #[error("write fault")]
    WriteFault,
    #[error("out of memory")]
    NoMemory,
}

impl Outcome {
    /// The number with which the process ends.
    pub fn number(self) -> u8
        ensures { result ≡ number_of self }
    {
        match self {
            Outcome::Explained => 0,
            Outcome::Refused => 2,
            Outcome::Unexplained(Unexplained::NoScript(_)) => 3,
            Outcome::Unexplained(Unexplained::NoReport(_)) => 3,
            Outcome::TooLong => 3,
            Outcome::ReadFault => 5,
            Outcome::WriteFault => 6,
            Outcome::Unexplained(Unexplained::Memory) => 7,
            Outcome::NoMemory => 7,
        }
    }

    /// What standard error says.
    pub fn message(self) -> Option<Message>
        ensures { result ≡ message_of self }
    {
        match self {
            Outcome::Explained => None,
            Outcome::Refused => Some(Message::Usage),
            Outcome::Unexplained(Unexplained::NoScript(fault)) => {
                Some(Message::NoScript(fault.line))
            }
            Outcome::Unexplained(Unexplained::NoReport(line)) => Some(Message::NoReport(line)),
            Outcome::TooLong => Some(Message::TooLong),
            Outcome::ReadFault => Some(Message::ReadFault),
            Outcome::WriteFault => Some(Message::WriteFault),
            Outcome::Unexplained(Unexplained::Memory) => Some(Message::NoMemory),
            Outcome::NoMemory => Some(Message::NoMemory),
        }
    }
}

/// The code of a process that ends with this number.
pub fn exit_code(number: u8) -> ExitCode
    ensures { exit_status result ≡ number }
{
    ExitCode::from(number)
}
