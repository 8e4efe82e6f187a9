//! The coroutine that calls in between, and what it calls.

ghost use Rattle.floor_tests.specs.Meetings.{MayMeet};

use channel_model::ChannelFloor;
use co_base::{ChannelId, Tag, Value};

/// The coroutine that calls in between.
pub const OTHER: Tag = 2;

/// What the other does on one of two channels.
#[derive(Clone, Copy)]
pub enum OtherCall {
    Nothing,
    /// Offers an element, and waits where the channel keeps no more.
    Offer { c: ChannelId, value: Value },
    /// Closes the channel with a value.
    Close { c: ChannelId, v: Value },
}

/// The other makes this call, if it is of one of the two channels and there is memory for it.
pub(crate) fn make_call<F: ChannelFloor>(floor: &mut F, call: OtherCall)
    requires may { MayMeet (F.view floor.old) }
    ensures may { MayMeet (F.view floor.new) }
{
    if floor.room(1).is_err() {
        return;
    }
    match call {
        OtherCall::Nothing => {}
        OtherCall::Offer { c, value } => {
            if c < 2 {
                floor.offer(OTHER, c, value);
            }
        }
        OtherCall::Close { c, v } => {
            if c < 2 {
                let _closed = floor.close(OTHER, c, v);
            }
        }
    }
}
