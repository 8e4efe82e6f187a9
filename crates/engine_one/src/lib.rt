//! All coroutines of a script over the list floor of channels and the tree of Jobs: on one thread, or on several round one lock.
//!
//! The tags that are to be polled stand in a queue, in the order in which the coroutines were woken or made a move. Where the
//! queue is empty, a round polls every coroutine once. Where nothing happens in it, and it leaves no tag in the queue, the run is over.
//! A turn is one such poll, or such a round.
//!
//! - `state`: a run between two turns.
//! - `start`: a run before its first turn.
//! - `run`: a whole run, and its turns.
//! - `turns`: polls of one coroutine, and of all.
//! - `ready_tags`: who is to be polled next.
//! - `trial`: a run that a search begins again and again, and looks at between two polls.
//! - `locked`: a whole run by several workers.
//! - `shared`: what they share, under a lock.
#![tactic(auto)]

mod locked;
mod ready_tags;
mod run;
mod shared;
mod start;
mod state;
mod trial;
mod turns;

pub use locked::run_locked;
pub use run::{ListRun, run_in_order, run_one};
pub use trial::{Polled, Trial};
