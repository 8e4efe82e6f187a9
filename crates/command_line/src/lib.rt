//! The command line: what words ask for, from a source of bytes to a sink of bytes. A program makes one call of `process`.
//!
//! - `status`: how a call ends.
//! - `words`: which words are accepted, and as which command.
//! - `input`: the script that the source gives, or the line of its fault.
//! - `prepare`: what a command does before a script is run.
//! - `running`: the run of a script, by one worker or several.
//! - `answer`: the text of a run, and how the call then ends.
//! - `writing`: the end of a call: its answer is written, if there is one.
//! - `top`: the whole call over any source and sink.
//! - `alone`: the same for one worker, without threads.
//! - `exit`: the code with which the process ends, and what standard error says.
//! - `program`: the whole process, from the arguments that the system gives to its code.
#![tactic(auto)]

mod alone;
mod answer;
mod exit;
mod input;
mod prepare;
mod program;
mod running;
mod status;
mod top;
mod words;
mod writing;

pub use alone::coroutine_main_alone;
pub use exit::{Message, message_of};
pub use program::{Left, process};
pub use status::Status;
pub use top::coroutine_main;
pub use words::Command;
