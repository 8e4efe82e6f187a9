//! Calls on a forest of Jobs for tests and for a bench, and the tags of a forest shared out among passes.
//!
//! - `calls`: calls on a floor of Jobs that look first whether they may be made.
//! - `on_passes`: calls of one pass of a forest.
//! - `shares`: the tags of a forest, shared out among four passes.
//! - `at_once`: the shares, worked on by one, two or four threads at once.

mod at_once;
mod calls;
mod on_passes;
mod shares;

pub use at_once::{Four, work_by};
pub use calls::{Answer, Call, is_attached, make};
pub use on_passes::{cancel_root, make_by, meet_both, new_forest, split_off};
pub use shares::{Share, Work, run, share_of};
