//! Another worker's lane, as one may take from it.
ghost use Rattle.std.specs.Prelude.{◌≡◌, IfOk};
ghost use Rattle.crossbeam_deque.specs.Handles.{stealer_deque, stealer_flavor, worker_deque, worker_flavor, IsPassOf};

use crate::lane_view::{InOrder, LaneView, Takes};
use co_base::Tag;
use crossbeam_deque::{Pass, Steal, Stealer, Worker};
use std::alloc::{AllocError, Global};

/// Another worker's lane, as one may take from it.
#[derive(Drop)]
pub struct OtherLane {
    stealer: Stealer<Tag, Global, LaneView, InOrder>,
    pass: Pass<Tag, LaneView, Global>,
    ghost of: { IsPassOf (stealer_deque stealer) pass },
    ghost fifo: { stealer_flavor stealer ≡ 0 },
}

impl OtherLane {
    ghost use Rattle.steal_lanes.specs.Queues.{guest};
    ghost use Rattle.steal_lanes.specs.Lanes.{other_deque, other_view, TakeAnswer};

    pub(crate) fn into(
        lane: &Worker<Tag, Global, LaneView, InOrder>,
    ) -> Result<OtherLane, AllocError>
        requires { worker_flavor lane.now ≡ 0 }
        ensures { IfOk result (λ o. (other_deque o ≡ worker_deque lane.now) × (other_view o ≡ guest)) }
    {
        let stealer = lane.stealer()?;
        let pass = stealer.pass();
        Ok(OtherLane { stealer, pass })
    }

    /// The first ticket. `None` says only that none was taken: the lane was empty, or 16 steals lost their ticket to others.
    pub(crate) fn take(&mut self) -> Option<Tag>
        ensures { TakeAnswer self.old self.new result }
    {
        'tries: for tried in 0..16u64 {
            match self.stealer.steal_as::<Takes>(&mut self.pass) {
                Steal::Success(ticket) => return Some(ticket),
                Steal::Empty => return None,
                Steal::Retry => {}
            }
        }
        None
    }
}
