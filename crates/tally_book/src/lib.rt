//! A book that keeps numbers alone: how many notes there are of each kind, and of the wait that is not settled how many offers it has. It
//! meets the contract of a `NoteBook`, whose list of notes contracts see; of that list nothing is kept when the program runs. And the
//! summary of a run whose coroutines kept such books: the line that `run_report` makes of their notes, from numbers alone.
//!
//! - `tally`: the book.
//! - `numbers`: what it keeps.
//! - `totals`: the numbers of all tallies, added.
//! - `counted`: what became of how many elements.
//! - `text`: the line.
#![tactic(auto)]

mod counted;
mod numbers;
mod tally;
mod text;
mod totals;

pub use numbers::{ActNumbers, JobNumbers, Numbers};
pub use tally::Tally;
pub use text::{line_of, summary};
