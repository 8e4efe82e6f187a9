//! What a call of the program comes to.

ghost use Rattle.std.specs.Prelude.{◌≡◌};
ghost use Rattle.std.specs.Process.{exit_status};
ghost use Rattle.run_picture.specs.Outcomes.{is_large, message_of, message_of_shown, number_of};

use run_explanation::ScriptFault;
use std::process::ExitCode;
use thiserror::Error;

/// How far a picture that was written shows the report.
#[derive(Clone, Copy)]
pub struct Shown {
    /// Its lines stand in an order that both histories allow, and not in that of the report.
    pub in_order: bool,
    /// Each coroutine that was asked for and has a line has a column.
    pub all: bool,
    /// It has more than 2,000 lines.
    pub large: bool,
}

/// What a call comes to.
#[derive(Clone, Copy)]
pub enum Outcome {
    /// The picture was written.
    Drawn(Shown),
    /// The words are not those of a call.
    Refused,
    /// What stands in front of the report is no script: its first line at fault.
    NoScript(ScriptFault),
    /// The text is no report: the number of its first line that is none.
    NoReport(u32),
    /// What stands behind the script is no report of it: the number of the first line that cannot be one.
    NotOfScript(u32),
    /// The text is longer than a report may be.
    TooLong,
    /// The source failed; nothing was written.
    ReadFault,
    /// The sink failed; a part of the picture was written.
    WriteFault,
    /// No memory was found; nothing was written.
    NoMemory,
}

/// What standard error says.
#[derive(Clone, Copy, Debug, Error)]
pub enum Message {
    #[error("no order was found that fits the lines: they stand as in the report")]
    NoOrder,
    #[error("only the first 64 coroutines are drawn: --coroutines A-B draws others")]
    NotAll,
    #[error("no order was found that fits the lines: they stand as in the report; and only the first 64 coroutines are drawn")]
    NoOrderNotAll,
    #[error("usage: run_picture [--format svg|mermaid|trace] [--coroutines A-B] [--only channels] [--lines A-B] [--script]")]
    Usage,
    #[error("line {0}: no line of a script")]
    NoScript(u32),
    #[error("line {0} is no line of a report")]
    NoReport(u32),
    #[error("line {0}: no line of a report of this script")]
    NotOfScript(u32),
    #[error("a report has at most 67108864 bytes")]
    TooLong,
    #[error("read fault")]
    ReadFault,
    #[error("write fault")]
    WriteFault,
    #[error("out of memory")]
    NoMemory,
}

/// What standard error says of a picture that was written, which a trace would show better.
#[derive(Clone, Copy, Debug, Error)]
#[error("a picture of more than 2000 lines: --format trace serves better, or --only channels and --lines A-B show less")]
pub struct Hint;

impl Outcome {
    /// The number with which the process ends.
    pub fn number(self) -> u8
        ensures { result ≡ number_of self }
    {
        match self {
            Outcome::Drawn(_) => 0,
            Outcome::Refused => 2,
            Outcome::NoScript(_) => 3,
            Outcome::NoReport(_) => 3,
            Outcome::NotOfScript(_) => 3,
            Outcome::TooLong => 3,
            Outcome::ReadFault => 5,
            Outcome::WriteFault => 6,
            Outcome::NoMemory => 7,
        }
    }

    /// What standard error says.
    pub fn message(self) -> Option<Message>
        ensures { result ≡ message_of self }
    {
        match self {
            Outcome::Drawn(shown) => message_of_shown(shown),
            Outcome::Refused => Some(Message::Usage),
            Outcome::NoScript(fault) => Some(Message::NoScript(fault.line)),
            Outcome::NoReport(line) => Some(Message::NoReport(line)),
            Outcome::NotOfScript(line) => Some(Message::NotOfScript(line)),
            Outcome::TooLong => Some(Message::TooLong),
            Outcome::ReadFault => Some(Message::ReadFault),
            Outcome::WriteFault => Some(Message::WriteFault),
            Outcome::NoMemory => Some(Message::NoMemory),
        }
    }
}

/// Whether standard error says that a trace serves better.
pub fn is_large(outcome: Outcome) -> bool
    ensures { result ≡ is_large outcome }
{
    match outcome {
        Outcome::Drawn(shown) => shown.large,
        _ => false,
    }
}

fn message_of_shown(shown: Shown) -> Option<Message>
    ensures { result ≡ message_of_shown shown.in_order shown.all }
{
    match (shown.in_order, shown.all) {
        (true, true) => None,
        (true, false) => Some(Message::NotAll),
        (false, true) => Some(Message::NoOrder),
        (false, false) => Some(Message::NoOrderNotAll),
    }
}

/// The code of a process that ends with this number.
pub fn exit_code(number: u8) -> ExitCode
    ensures { exit_status result ≡ number }
{
    ExitCode::from(number)
}
