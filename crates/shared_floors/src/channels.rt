//! What a floor of channels tells another.

ghost use Rattle.std.specs.Prelude.{◌≡◌};
ghost use Rattle.shared_floors.specs.Meetings.{MetOnChannels, EndedOnChannels, NoCallsOfOthers};

use channel_model::ChannelFloor;

/// A floor of channels that one caller has of its own, on channels that others call too. All floors of one type are on the same channels.
pub trait SharedChannels: ChannelFloor {
    ghost use Rattle.std.specs.Prelude.{ℕ, Bool};

    /// Under which tags entries may have been made, as far as the floor knows. No call changes it.
    ghost may_act: { Self.Anchor → ℕ → Bool };

    /// A meeting: afterwards this floor has seen all that the other has. It makes no entry, and the other sees nothing of this one.
    fn meet(&mut self, other: &mut Self)
        ensures anchor { Self.anchor self.new ≡ Self.anchor self.old }
        ensures other_anchor { Self.anchor other.new ≡ Self.anchor other.old }
        ensures met { MetOnChannels (Self.view self.old) (Self.view self.new) (Self.view other.old) (Self.view other.new) };

    /// A meeting for good: afterwards this floor has seen all that the other had, and may call for its callers.
    fn end(&mut self, other: Self)
        ensures anchor { Self.anchor self.new ≡ Self.anchor self.old }
        ensures ended { EndedOnChannels (Self.view self.old) (Self.view self.new) (Self.view other) }
        ensures none { NoCallsOfOthers (Self.may_act (Self.anchor self.new)) (Self.view self.new) };
}
