//! The floors of one thread, as plain lists: what a floor of channels and a floor of Jobs promise.
//!
//! The list of its entries is the history that contracts see, and nothing is kept of it when the program runs; beside it is a
//! representation from which every call is answered. Both are alone: nobody but the caller makes entries.
//!
//! - `list_channel`: a channel as two deques and a table of waits.
//! - `list_floor`: a floor as channels and the entries made so far; `list_new` makes one.
//! - `list_queries`: what the lists say.
//! - `list_removal`: how a wait that is resolved leaves the channels, and whether anything stands at a place.
//! - `list_places`: how places are given out.
//! - `list_settling`: how a wait is settled.
//! - `list_firsts`: how the first receiver or the first offer goes.
//! - `list_admission`: which offer is kept next, and how.
//! - `list_spurns`: how an offer goes that is one too many.
//! - `list_clauses`: how a clause is placed; `list_acts`: the acts that two calls share.
//! - `list_calls`: the calls on channels.
//! - `list_may`: which acts may come now; `list_steps`: acts that are told, each of which is made if it may come.
//! - `list_snapshot`: what stands at a channel and at its places, and whether a wait was resolved.
//! - `list_key`, `tree_key`: what calls can tell of a floor, as numbers.
//! - `tree_row`: a Job as a row of a vector.
//! - `tree_rows`: reads and changes of the vector of Jobs.
//! - `tree_claims`: which rows are claimed.
//! - `tree_floor`: the floor of Jobs, and what it keeps; `tree_new` makes one.
//! - `tree_calls`: the calls on Jobs; `tree_beside`: what it hears of a floor of channels.
#![tactic(auto)]

mod list_acts;
mod list_admission;
mod list_calls;
mod list_channel;
mod list_clauses;
mod list_firsts;
mod list_floor;
mod list_key;
mod list_may;
mod list_new;
mod list_places;
mod list_queries;
mod list_removal;
mod list_settling;
mod list_snapshot;
mod list_spurns;
mod list_steps;
mod tree_beside;
mod tree_calls;
mod tree_claims;
mod tree_floor;
mod tree_key;
mod tree_new;
mod tree_row;
mod tree_rows;

pub use list_floor::{ListAnchor, ListFloor};
pub use list_snapshot::Snapshot;
pub use tree_floor::TreeFloor;
pub use tree_row::TreeSize;
