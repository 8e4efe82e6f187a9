//! A tree of Jobs that follows acts which are told: each is made if it may come, and it is said whether it may.
//!
//! Nothing is known of who makes the acts. Scopes may take their rows in any order, as they do where coroutines run side by side.
//!
//! - `job_row`: a Job as a row of a vector, and how many rows there are.
//! - `rows`: reads and writes of rows.
//! - `tests`: which acts may come now, by the rows.
//! - `changes`: what an act leaves of the rows.
//! - `replay`: the tree; `calls`: its calls.
//! - `history`: whether a history of Jobs is one that the rules allow.
#![tactic(auto)]

mod calls;
mod changes;
mod history;
mod job_row;
mod replay;
mod rows;
mod tests;

pub use calls::JobLook;
pub use history::{JobVerdict, check_jobs};
pub use job_row::JobSize;
pub use replay::JobReplay;
