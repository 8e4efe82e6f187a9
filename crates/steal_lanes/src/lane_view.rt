//! A put or a take, and what is known of a lane.

use co_base::Tag;
use crossbeam_deque::protocol::{Outcome, Protocol};
use std::collections::LinkedList;

/// One put or take of a lane. No value of it is made.
#[derive(Clone, Copy, Drop)]
pub struct LaneOp {
    pub is_put: bool,
    pub ticket: Tag,
}

/// What is known of a lane. No value of it is made.
pub struct LaneView {
    /// It is the owner's, who alone puts.
    pub owns: bool,
    /// The beginning of the lane's puts and takes that was seen.
    pub seen: LinkedList<LaneOp>,
}

/// The rule of a lane: its puts and takes replay as a queue.
pub struct InOrder;

impl Protocol<Tag, LaneView> for InOrder {
    ghost use Rattle.steal_lanes.specs.Queues.{IsLane, owner, guest};

    ghost holds = { IsLane };

    ghost first = { owner };

    ghost guest = { guest };
}

/// A ticket was put.
pub(crate) struct Puts;

impl Outcome<Tag, LaneView> for Puts {
    ghost use Rattle.steal_lanes.specs.Queues.{Adds, puts};

    ghost then = { λ v xs w. Adds v (puts xs) w };
}

/// A ticket was taken. Of a step that took none nothing is told.
pub(crate) struct Takes;

impl Outcome<Tag, LaneView> for Takes {
    ghost use Rattle.steal_lanes.specs.Queues.{Adds, takes};

    ghost then = { λ v xs w. Adds v (takes xs) w };
}
