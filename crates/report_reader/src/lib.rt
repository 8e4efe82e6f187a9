//! Reports of runs: read from text, line by line, or refused with the number of the first line that is none.
//!
//! - `line`: a line, and what it is.
//! - `words`: the lines of a text, the words of a line, numbers and names.
//! - `forms`: which words are a line.
//! - `reader`: the lines of a report.
#![tactic(auto)]

mod forms;
mod line;
mod reader;
mod words;

pub use line::{Line, NoReport, Said};
pub use reader::read;
pub use words::{cut_at, value_of, words_of};
