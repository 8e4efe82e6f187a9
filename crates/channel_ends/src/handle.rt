//! What C holds: an end, or none.
ghost use Rattle.std.specs.Prelude.{◌≡◌};
ghost use Rattle.channel_ends.specs.Marks.{mark_of};

use crate::hidden::Hidden;

/// An end of a channel, as C holds it; all zeros are none.
#[repr(C)]
#[derive(Drop)]
pub struct ChannelEnd {
    pub(crate) used: u32,
    pub(crate) hidden: Hidden,
    pub ghost marked: { used ≡ mark_of hidden.end },
}
