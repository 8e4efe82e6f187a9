//! What a program is given: its arguments, what they say as a command line, and what it reads.
//!
//! - `arguments`: the arguments that the system gives, as texts
//! - `words`: options and switches, and the matches that words have by a command line
//! - `reading`: a whole input, up to a limit
#![tactic(auto)]

mod arguments;
mod reading;
mod words;

pub use arguments::texts_of;
pub use reading::read_within;
pub use words::{matches_of, option, switch};
