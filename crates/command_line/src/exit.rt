//! The code with which the process ends, and what standard error says.

ghost use Rattle.std.specs.Prelude.{◌≡◌};
ghost use Rattle.std.specs.Process.{exit_status};
ghost use Rattle.command_line.specs.Exits.{message_at};

use std::process::ExitCode;
use thiserror::Error;

/// What standard error says of a call that wrote no whole text.
#[derive(Debug, Drop, Error)]
pub enum Message {
    #[error("usage: coroutine_cli run [--workers N] | check | sum --size N [--workers N]")]
    Usage,
    #[error("read fault")]
    ReadFault,
    #[error("write fault")]
    WriteFault,
    #[error("out of memory")]
    NoMemory,
}

/// The code of a process that ends with this number.
pub fn exit_code(number: u8) -> ExitCode
    ensures { exit_status result ≡ number }
{
    ExitCode::from(number)
}

/// What is told of a process that ends with this number.
pub fn message_of(number: u8) -> Option<Message>
    ensures { result ≡ message_at number }
{
    match number {
        2 => Some(Message::Usage),
        5 => Some(Message::ReadFault),
        6 => Some(Message::WriteFault),
        7 => Some(Message::NoMemory),
        _ => None,
    }
}
