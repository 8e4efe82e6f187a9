//! A ticket of any of several other lanes.
ghost use Rattle.steal_lanes.specs.Lanes.{OthersAnswer};

use crate::other_lane::OtherLane;
use co_base::Tag;

/// The first ticket of the first of these lanes in which one is found.
pub(crate) fn take_from_any(others: &mut Vec<OtherLane>) -> Option<Tag>
    ensures { OthersAnswer others.old.items others.new.items result }
{
    let mut next = 0;
    'lanes: while next < others.len() {
        match others[next].take() {
            Some(ticket) => return Some(ticket),
            None => next += 1,
        }
    }
    None
}
