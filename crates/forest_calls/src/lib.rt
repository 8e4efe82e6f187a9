//! The calls of one coroutine on a forest: what `JobCaller` does over any floor of Jobs, over the words of a forest, for one pass.
//!
//! The contracts are those of the calls over any floor, said of what the pass has seen before and after. Afterwards the pass is one of
//! the same forest, of the same tags, and gives out tags as before.
//!
//! - `passes`: to cancel a Job and all below it
//! - `failures`: to pass a failure on to the parents
//! - `endings`: to end Jobs, from one upwards
#![tactic(auto)]

mod endings;
mod failures;
mod passes;

pub use endings::finish_up;
pub use failures::fail_up;
pub use passes::cancel_pass;
