//! What a line says.

use channel_model::Kind;
use script_grammar::Instruction;

/// What a line says: new names as they stand there, and other names as their numbers.
#[derive(Clone, Copy)]
pub(crate) enum Spoken<'a> {
    /// The script is of version 2.
    Version,
    /// The new name, the kind and the number of places.
    Channel(&'a str, Kind, u32),
    Coroutine(&'a str),
    /// The block, and how many instances of it.
    Spawn(u16, u16),
    /// A line of the open block, and the new name of the Job that it launches.
    Line(Instruction, Option<&'a str>),
    /// The end of the open block.
    End,
}
