//! What every engine needs besides polls, whatever its floors.
//!
//! - `sizes`: the channels and Jobs that a script needs.
//! - `naming`: a name for the script that is run, where a type has to say which one it is.
//! - `endings`: what a run leaves.
#![tactic(auto)]

mod endings;
mod naming;
mod sizes;

pub use endings::{books_of, done_of, end_of, end_of_root};
pub use naming::ScriptName;
pub use sizes::{kinds_of, rows_of};
