//! The calls of one coroutine on the tree of Jobs, each noted in its book at once: to cancel a Job and all below it, to pass a failure on
//! to the parents, and to end Jobs from a leaf upwards.
//!
//! They stand over any floor of Jobs, and others may make entries of their own between any two steps. None of them recurses.
//!
//! - `caller`: who calls, and on what
//! - `steps`: one step of a call, noted
//! - `passes`: to cancel a Job and all below it
//! - `failures`: to pass a failure on to the parents
//! - `ends`: to end Jobs, from one upwards
#![tactic(auto)]

mod caller;
mod ends;
mod failures;
mod passes;
mod steps;

pub use caller::{JobCaller, Reserve};
pub use ends::Ends;
pub use passes::Passed;
pub use steps::{make_room, wake_job};
