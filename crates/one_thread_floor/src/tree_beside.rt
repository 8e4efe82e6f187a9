//! The floor of Jobs beside a floor of channels.

use crate::tree_floor::TreeFloor;
use call_meaning::JobsBeside;
use channel_model::ChannelFloor;

/// Nobody but the caller makes entries here, and there is no order of both histories to hear of.
impl<C: ChannelFloor> JobsBeside<C> for TreeFloor {
    fn hear(&mut self, _channels: &mut C) {}

    fn tell(&mut self, _channels: &mut C) {}
}
