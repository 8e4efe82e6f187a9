//! What a call of the program comes to.

ghost use Rattle.std.specs.Prelude.{◌≡◌};
ghost use Rattle.std.specs.Process.{exit_status};
ghost use Rattle.judge_run.specs.Outcomes.{message_of, number_of, number_of_log, number_of_said, number_of_script};

use history_text::ScriptFault;
use job_model::End;
use log_check::{LogVerdict, ReportVerdict, ScriptVerdict};
use std::process::ExitCode;
use thiserror::Error;

/// What is said of an input, or of a log that was made. The lines of a history, log or report are numbered from 1.
#[derive(Clone, Copy)]
pub enum Said {
    /// Each act may come where it comes, and each note holds.
    Legal,
    /// The act of this line may not come.
    MayNotCome(usize),
    /// What this line says does not hold.
    NotSo(usize),
    /// This line is no item of a coroutine.
    NoItem(u32),
    /// What stands before the history does not declare channels.
    Fault(ScriptFault),
    /// This is said of a script and of a log or a report.
    OfScript(ScriptVerdict),
    /// The log of a run was made, which is the whole text, and the root's Job ended so, if it did.
    Logged(Option<End>),
    /// The log that was made does not stand.
    NotLogged,
    /// A log is asked for of what is no script, with this fault.
    NoScript(ScriptFault),
}

/// What a call comes to.
#[derive(Clone, Copy)]
pub enum Outcome {
    /// This was written.
    Told(Said),
    /// The words are not those of a call.
    Refused,
    /// The input has no line `history`, `log` or `report`.
    NoHistory,
    /// The input is longer than it may be.
    TooLong,
    /// The source failed; nothing was written.
    ReadFault,
    /// The sink failed; a part was written.
    WriteFault,
    /// No memory was found; nothing was written.
    NoMemory,
}

/// What standard error says.
#[derive(Clone, Copy, Debug, Error)]
pub enum Message {
    #[error("usage: judge_run [--log] [--seed N] < INPUT")]
    Usage,
    #[error("the input has no line `history`, `log` or `report`")]
    NoHistory,
    #[error("an input has at most 67108864 bytes")]
    TooLong,
    #[error("read fault")]
    ReadFault,
    #[error("write fault")]
    WriteFault,
    #[error("out of memory")]
    NoMemory,
}

fn number_of_log(v: LogVerdict) -> u8
    ensures { result ≡ number_of_log v }
{
    match v {
        LogVerdict::Stands(_) => 0,
        LogVerdict::MayNotCome(_) | LogVerdict::NotSo(_) | LogVerdict::NoItem(_) => 1,
        LogVerdict::NotShown(_) => 4,
    }
}

fn number_of_script(v: ScriptVerdict) -> u8
    ensures { result ≡ number_of_script v }
{
    match v {
        ScriptVerdict::Log(v) => number_of_log(v),
        ScriptVerdict::Report(ReportVerdict::Stands(_)) => 0,
        ScriptVerdict::Report(ReportVerdict::NotFound(_)) => 4,
        ScriptVerdict::Fault(_) => 3,
    }
}

fn number_of_said(said: Said) -> u8
    ensures { result ≡ number_of_said said }
{
    match said {
        Said::Legal | Said::Logged(_) => 0,
        Said::MayNotCome(_) | Said::NotSo(_) | Said::NoItem(_) => 1,
        Said::Fault(_) | Said::NoScript(_) => 3,
        Said::NotLogged => 4,
        Said::OfScript(v) => number_of_script(v),
    }
}

impl Outcome {
    /// The number with which the process ends.
    pub fn number(self) -> u8
        ensures { result ≡ number_of self }
    {
        match self {
            Outcome::Told(said) => number_of_said(said),
            Outcome::Refused => 2,
            Outcome::NoHistory | Outcome::TooLong => 3,
            Outcome::ReadFault => 5,
            Outcome::WriteFault => 6,
            Outcome::NoMemory => 7,
        }
    }

    /// What standard error says.
    pub fn message(self) -> Option<Message>
        ensures { result ≡ message_of self }
    {
        match self {
            Outcome::Told(_) => None,
            Outcome::Refused => Some(Message::Usage),
            Outcome::NoHistory => Some(Message::NoHistory),
            Outcome::TooLong => Some(Message::TooLong),
            Outcome::ReadFault => Some(Message::ReadFault),
            Outcome::WriteFault => Some(Message::WriteFault),
            Outcome::NoMemory => Some(Message::NoMemory),
        }
    }
}

/// The code of a process that ends with this number.
pub fn exit_code(number: u8) -> ExitCode
    ensures { exit_status result ≡ number }
{
    ExitCode::from(number)
}
