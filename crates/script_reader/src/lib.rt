//! Scripts of coroutines, read from text.
//!
//! `read` makes a script of a text, or names its first line that is at fault. What a text spells, and which line is first at fault, is said
//! by the definitions of `script_grammar`.
//!
//! The script:
//!
//! - `script`: a script and its parts.
//! - `names`: items that are found by their names.
//! - `reading`: the script so far.
//! - `form`: what a line says.
//!
//! From a text to a script:
//!
//! - `words`: the lines of a text, and the words of a line.
//! - `place`, `channels`: what stands at each place of a line, from left to right.
//! - `verbs`: first words of the lines of a coroutine.
//! - `lines`, `blocks`: the form of each line of a coroutine.
//! - `outside`: the form of each line outside coroutines, and of any line.
//! - `limits`: the limits, and the totals that a line leads to.
//! - `nesting`, `enter`: what a line adds to the script so far.
//! - `text`: all lines of a text.
//! - `closings`, `launches`, `sizes`, `tags`: the tables of a script.
//! - `finish`: the script, after the last line.
//! - `reader`: the script of a text.
#![tactic(auto)]

mod blocks;
mod channels;
mod closings;
mod enter;
mod finish;
mod form;
mod launches;
mod limits;
mod lines;
mod names;
mod nesting;
mod outside;
mod place;
mod reader;
mod reading;
mod script;
mod sizes;
mod tags;
mod text;
mod verbs;
mod words;

pub use closings::{is_end, opens_lines};
pub use place::value_of;
pub use reader::read;
pub use script::{Channel, Coroutine, Script, Spawn};
pub use script_grammar::{FaultKind, Instruction, Launching, Operand, ScriptFault};
