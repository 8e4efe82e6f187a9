//! The report of a run: what each coroutine noted, how each Job ended or how far it is, and what became of the elements that nobody
//! received. Its summary: one line that counts the Jobs and the elements.
//!
//! It reads the script for the names and the books for all else, so whoever has the same books gets the same report.
//!
//! - `text`: the whole text.
//! - `gathered`: a text that is put together from pieces.
//! - `shown`: the parts of a line.
//! - `job_items`: the acts and notes on Jobs.
//! - `items`: the items of a book.
//! - `books`: the lines of the books.
//! - `job_facts`: what the acts say of each row.
//! - `job_lines`: the lines of the Jobs.
//! - `table`: a value for each place of each channel.
//! - `facts`: what the acts say of each place.
//! - `resolutions`: where each wait was resolved.
//! - `fates`: what became of each element.
//! - `elements`: the lines of the elements that were not received.
//! - `counts`: how many Jobs ended how, and what became of how many elements.
//! - `totals`: the summary of a run.
//! - `fault`: the line that a text which is no script is answered with.
#![tactic(auto)]

mod books;
mod counts;
mod elements;
mod facts;
mod fates;
mod fault;
mod gathered;
mod items;
mod job_facts;
mod job_items;
mod job_lines;
mod resolutions;
mod shown;
mod table;
mod text;
mod totals;

pub use fault::fault_line;
pub use text::{ends_of, report, report_of};
pub use totals::{push_result, summary};
