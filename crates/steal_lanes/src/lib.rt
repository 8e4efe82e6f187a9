//! Lanes of tickets: each worker has one of its own, first in, first out, and takes from those of the others where it is empty.
//!
//! A lane is a work-stealing deque of the kit. What happened to it is one list of puts and takes, which nobody stores. Between any
//! two steps this list replays as a queue, a put appending and a take removing the first, and leaves what the deque holds
//! (`IsLane`). Whoever takes from a lane has seen a beginning of its list; the owner has seen all puts, since nobody else puts.
//!
//! | step | who | decides | who loses |
//! |---|---|---|---|
//! | put | the owner | nothing: nobody else puts | - |
//! | take of the own lane | the owner | who has the first ticket | takes the next one, or finds the lane empty |
//! | take of another's lane | any other worker | the same | sees that a ticket left the lane, and tries again, at most 16 times |
//!
//! - `lane_view`: a put or a take, and what is known of a lane.
//! - `other_lane`: another worker's lane, as one may take from it.
//! - `stealing`: a ticket of any of several other lanes.
//! - `lane`: a worker's own lane with the ways into the others, `put`, `take` and `next`.
//! - `all_lanes`: the lanes of so many workers.
//! - `laws`: what holds of a lane at all times.
#![tactic(auto)]

mod all_lanes;
mod lane;
mod lane_view;
mod laws;
mod other_lane;
mod stealing;

pub use all_lanes::lanes;
pub use lane::Lane;
pub use lane_view::{InOrder, LaneOp, LaneView};
pub use laws::each_ticket_is_taken_once_in_the_order_of_puts;
pub use other_lane::OtherLane;
