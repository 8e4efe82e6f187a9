//! What all crates share: the names of tags, channels, places and waits, the plain errors, and the edges of the product. Bytes come from a
//! `Source` and go to a `Sink`, each with a count of its failures, so that a failure is answered only if one happened; a `Gate` stands
//! between steps on shared state, and `Wakes` asks for polls.
//!
//! - `names.rt`: names and errors
//! - `gates.rt`: gates and wakes
//! - `ghost_list.rt`: lists that contracts see
//! - `streams.rt`: what a source and a sink promise
//! - `reading.rt`, `writing.rt`: a whole script in, a whole text out
//! - `failing.rt`, `in_memory.rt`: a source and a sink that fail where they are told
//! - `steady.rt`: a source and a sink that never fail
//! - `standard.rt`: readers and writers of the standard library
#![tactic(auto)]

mod failing;
mod gates;
mod ghost_list;
mod in_memory;
mod names;
mod reading;
mod standard;
mod steady;
mod streams;
mod writing;

pub use gates::{Gate, OpenGate, Wakes};
pub use ghost_list::GhostList;
pub use in_memory::{MemorySink, MemorySource};
pub use names::{ChannelId, Failed, Memory, Place, ReadError, Row, Tag, Value, WaitId, WriteFault};
pub use reading::{LONGEST_SCRIPT, read_script};
pub use standard::{StdSink, StdSource};
pub use steady::{SteadySink, SteadySource};
pub use streams::{Sink, Source};
pub use writing::write_all;
