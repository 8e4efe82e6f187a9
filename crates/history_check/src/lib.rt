//! Whether a history of channels and Jobs is one that the rules allow: what the coroutines of any implementation did and were told, in one
//! order.
//!
//! - `verdict`: what is said of a history.
//! - `notes`: whether a note of a channel holds; `jobs`: what becomes of a note of a Job.
//! - `overs`: of each element, whether it was one too many when it was placed.
//! - `history`: a history, line by line, over a floor of lists and a tree of Jobs that make each act if it may
//!   come.
//! - `input`: the history that a text has.
#![tactic(auto)]

mod history;
mod input;
mod jobs;
mod notes;
mod overs;
mod verdict;

pub use history::check_history;
pub use input::check_input;
pub use verdict::{Judgement, Stood, Verdict};
