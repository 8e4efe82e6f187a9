//! Runs in words: of a script and the report of a run of it, who waits for what, and what became of which element.
//!
//! - `parts`: where the script ends and the report begins.
//! - `fits`: which lines can be those of a report of the script.
//! - `marks`, `waiting`: which coroutines are left waiting.
//! - `classes`: Jobs that failed or have not ended, and elements that were not received.
//! - `verbs`, `notes`, `source`, `walk`, `story`, `partners`, `hints`: what an entry says behind its heading, of which nothing is promised.
//! - `entries`: the entries of an explanation, and its text.
//! - `answer`: the explanation of an input.
//! - `naming`: names of coroutines, and lines of the script, beside the lines of a report.
#![tactic(auto)]

mod answer;
mod classes;
mod entries;
mod fits;
mod hints;
mod marks;
mod naming;
mod notes;
mod partners;
mod parts;
mod source;
mod story;
mod verbs;
mod waiting;
mod walk;

pub use answer::{Unexplained, explain, explain_waits};
pub use naming::{Named, name_lines};
pub use script_grammar::{FaultKind, ScriptFault};
