//! Why a text is no script.

ghost use Rattle.std.specs.Prelude.{◌≡◌};
ghost use Rattle.script_grammar.specs.declared.fault.FaultKind.TheVariants.{Memory};

use std::alloc::{AllocError, AllocFailed};

/// What is wrong with a line.
#[derive(Clone, Copy)]
pub enum FaultKind {
    /// A byte that is neither a space nor a printed character.
    NotAscii,
    UnknownWord,
    BadNumber,
    BadName,
    Duplicate,
    Undeclared,
    NoMain,
    NoEnd,
    /// A word after the last that the line allows.
    Extra,
    TooDeep,
    TooMany,
    Recursive,
    /// No memory was found, which says nothing of the text.
    Memory,
}

/// The first faulty line, numbered from 1, and its fault. With `Memory` the line is 0.
#[derive(Clone, Copy)]
pub struct ScriptFault {
    pub line: u32,
    pub kind: FaultKind,
}

impl From<AllocError> for FaultKind {
    ghost from_gives = { λ _ kind. kind ≡ Memory };

    fn from(_error: AllocError) -> FaultKind {
        FaultKind::Memory
    }
}

impl<T: Drop> From<AllocFailed<T>> for FaultKind {
    ghost from_gives = { λ _ kind. kind ≡ Memory };

    fn from(_error: AllocFailed<T>) -> FaultKind {
        FaultKind::Memory
    }
}
