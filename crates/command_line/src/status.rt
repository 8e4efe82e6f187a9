//! How a call of the program ends.

ghost use Rattle.std.specs.Prelude.{◌≡◌, MatchResult, Ok};
ghost use Rattle.command_line.specs.Statuses.{number_of, status_of};
ghost use Rattle.command_line.specs.declared.status.NoAnswer.TheVariants as reasons;

use co_base::Memory;

/// How a call ends that has a text to write.
#[derive(Clone, Copy, Debug, PartialEq, Eq)]
pub enum Ending {
    /// The root's Job has completed, or the script was checked.
    Completed,
    /// The root's Job has ended as cancelled.
    Cancelled,
    /// The root's Job has not ended.
    Unfinished,
    /// The bytes are no script; the text says which line is faulty.
    NoScript,
}

/// Why there is nothing to write.
#[derive(Clone, Copy, Debug, PartialEq, Eq)]
pub enum NoAnswer {
    /// The words are not those of a command.
    Refused,
    ReadFault,
    Memory,
}

/// Where something was not made, that is for want of memory.
pub fn unless_memory<T: Drop>(made: Result<T, Memory>) -> Result<T, NoAnswer>
    ensures { MatchResult result (λ x. made ≡ Ok x) (λ why. why ≡ reasons.Memory) }
{
    match made {
        Ok(x) => Ok(x),
        Err(_) => Err(NoAnswer::Memory),
    }
}

/// How a call ends.
#[derive(Clone, Copy, Debug, PartialEq, Eq)]
pub enum Status {
    Completed,
    Cancelled,
    /// The words are not those of a command.
    Refused,
    NoScript,
    Unfinished,
    /// The source failed; nothing was written.
    ReadFault,
    /// The sink failed; a part of the text was written.
    WriteFault,
    /// No memory was found; nothing was written.
    NoMemory,
}

impl Ending {
    /// The status of a call whose whole text was written.
    pub fn status(self) -> Status
        ensures { result ≡ status_of self }
    {
        match self {
            Ending::Completed => Status::Completed,
            Ending::Cancelled => Status::Cancelled,
            Ending::Unfinished => Status::Unfinished,
            Ending::NoScript => Status::NoScript,
        }
    }
}

impl Status {
    /// The number with which the process ends.
    pub fn number(self) -> u8
        ensures { result ≡ number_of self }
    {
        match self {
            Status::Completed => 0,
            Status::Cancelled => 1,
            Status::Refused => 2,
            Status::NoScript => 3,
            Status::Unfinished => 4,
            Status::ReadFault => 5,
            Status::WriteFault => 6,
            Status::NoMemory => 7,
        }
    }
}
