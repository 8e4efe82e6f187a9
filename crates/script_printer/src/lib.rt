//! Scripts of coroutines, printed as text.
//!
//! `print` writes a script out, so that it is read as the same script; `generate` makes the script whose run adds up numbers.
//!
//! - `lines_out`, `printed_lines`: lines as they are printed.
//! - `printer`: a script written out.
//! - `generator`: the script whose run adds up numbers.
#![tactic(auto)]

mod generator;
mod lines_out;
mod printed_lines;
mod printer;

pub use generator::generate;
pub use printer::print;
