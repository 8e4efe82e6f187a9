//! Two floors of one caller, of which each can hear what was seen on the other.

ghost use Rattle.std.specs.Prelude.{◌≡◌, ℕ, true, []};
ghost use Rattle.channel_model.specs.Floors.{Looked as LookedOnChannels};
ghost use Rattle.job_model.specs.Floors.{Looked};
ghost use Rattle.call_meaning.specs.Orders.{HasHeard, HasTold};

use channel_model::ChannelFloor;
use job_model::JobFloor;

/// A floor of Jobs beside a floor of channels that the same coroutine calls.
///
/// What was seen on the one floor is not known on the other until that hears of it. If the Job floor is `joint`, the entries of both have
/// one order, and who has heard knows that what it does next comes later than all that was seen on either. Else there is no such order, and
/// nothing is said of it. No entry is made.
pub trait JobsBeside<C: ChannelFloor>: JobFloor {
    /// The floor of Jobs hears what was seen on that of channels.
    fn hear(&mut self, channels: &mut C)
        ensures anchor { Self.anchor self.new ≡ Self.anchor self.old }
        ensures channels_anchor { C.anchor channels.new ≡ C.anchor channels.old }
        ensures channels { C.view channels.new ≡ C.view channels.old }
        ensures looked { (who : ℕ) → (Self.view self.old).callers who ≡ true → Looked who [] (Self.view self.old) (Self.view self.new) }
        ensures heard { (Self.view self.old).joint ≡ true → HasHeard (C.view channels.new) (Self.view self.new) };

    /// The floor of channels hears what was seen on that of Jobs.
    fn tell(&mut self, channels: &mut C)
        ensures anchor { Self.anchor self.new ≡ Self.anchor self.old }
        ensures channels_anchor { C.anchor channels.new ≡ C.anchor channels.old }
        ensures jobs { Self.view self.new ≡ Self.view self.old }
        ensures looked { (who : ℕ) → (C.view channels.old).callers who ≡ true
            → LookedOnChannels who (C.view channels.old) (C.view channels.new) }
        ensures told { (Self.view self.old).joint ≡ true → HasTold (C.view channels.new) (Self.view self.new) };
}
