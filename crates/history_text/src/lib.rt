//! Histories of channels and Jobs as texts: lines that declare channels as in a script, a line `history`, which may say how many coroutines
//! and scopes there are, and then a line for each item that a coroutine noted, in one order of all of them, as a report writes it.
//!
//! - `line`: a line of a history.
//! - `names`: the names of channels, and where each stands.
//! - `words`: channels, waits, rows and numbers in a line.
//! - `items`: which words are which item of a channel; `job_items`: of a Job.
//! - `lines`: the lines of a history.
//! - `job_numbers`: how many coroutines and scopes there are; `numbers`: the line before a history, which says it.
//! - `input`: the channels and the lines that a text has.
#![tactic(auto)]

mod input;
mod items;
mod job_items;
mod job_numbers;
mod line;
mod lines;
mod names;
mod numbers;
mod words;

pub use input::{Input, NoInput, read_input};
pub use job_numbers::JobNumbers;
pub use line::Line;
pub use lines::{NoLines, lines_in};
pub use script_grammar::{FaultKind, ScriptFault};
