//! Names of things, and the plain errors.
ghost use Rattle.std.specs.Prelude.{◌≡◌};
ghost use Rattle.co_base.specs.declared.names.ReadError.TheVariants as read_errors;

use std::alloc::{AllocError, AllocFailed};

/// A coroutine, numbered from 0, the body of the root.
pub type Tag = u16;

/// A channel, numbered from 0 in the order in which the channels were made.
pub type ChannelId = u16;

/// A place of a channel, numbered from 0 in the order in which the places are given out.
pub type Place = u32;

/// The row of a Job in the Job tree.
pub type Row = u16;

/// An element of a channel, a result or a failure code.
pub type Value = u32;

/// A waiting call, named by the channel and the place at which it was first placed.
#[derive(Clone, Copy, Debug, PartialEq, Eq)]
pub struct WaitId {
    pub channel: ChannelId,
    pub place: Place,
}

/// Want of memory, and nothing else.
#[derive(Clone, Copy, Debug, PartialEq, Eq)]
pub struct Memory;

impl From<AllocError> for Memory {
    fn from(_error: AllocError) -> Memory {
        Memory
    }
}

impl<T: Drop> From<AllocFailed<T>> for Memory {
    fn from(_error: AllocFailed<T>) -> Memory {
        Memory
    }
}

/// A source could not give bytes, or a sink could not take them.
#[derive(Clone, Copy, Debug, PartialEq, Eq)]
pub struct Failed;

/// A sink failed before it had taken all bytes.
#[derive(Clone, Copy, Debug, PartialEq, Eq)]
pub struct WriteFault;

/// Why a script could not be read from its source.
#[derive(Clone, Copy, Debug, PartialEq, Eq)]
pub enum ReadError {
    /// The source failed.
    ReadFault,
    /// The source gave more bytes than a script may have.
    TooLong,
    /// No memory was found.
    Memory,
}

impl From<AllocError> for ReadError {
    ghost from_gives = { λ _ e. e ≡ read_errors.Memory };

    fn from(_error: AllocError) -> ReadError {
        ReadError::Memory
    }
}

impl From<Memory> for ReadError {
    ghost from_gives = { λ _ e. e ≡ read_errors.Memory };

    fn from(_error: Memory) -> ReadError {
        ReadError::Memory
    }
}
