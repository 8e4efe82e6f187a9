//! What a floor of Jobs tells another.

ghost use Rattle.std.specs.Prelude.{◌≡◌};
ghost use Rattle.shared_floors.specs.Meetings.{MetOnJobs, EndedOnJobs, NoJobsOfOthers, NoRowsOfOthers};

use job_model::JobFloor;

/// A floor of Jobs that one caller has of its own, on Jobs that others call too. All floors of one type are on the same Jobs.
pub trait SharedJobs: JobFloor {
    ghost use Rattle.std.specs.Prelude.{ℕ, Bool};

    /// Under which tags entries may have been made, or rows claimed, as far as the floor knows. No call changes it.
    ghost may_act: { Self.Anchor → ℕ → Bool };

    /// A meeting: afterwards this floor has seen all that the other has, and all rows claimed that the other has seen claimed. It makes no
    /// entry and claims no row, and the other sees nothing of this one.
    fn meet(&mut self, other: &mut Self)
        ensures anchor { Self.anchor self.new ≡ Self.anchor self.old }
        ensures other_anchor { Self.anchor other.new ≡ Self.anchor other.old }
        ensures met { MetOnJobs (Self.view self.old) (Self.view self.new) (Self.view other.old) (Self.view other.new) };

    /// A meeting for good: afterwards this floor has seen all that the other had, and may call for its callers.
    fn end(&mut self, other: Self)
        ensures anchor { Self.anchor self.new ≡ Self.anchor self.old }
        ensures ended { EndedOnJobs (Self.view self.old) (Self.view self.new) (Self.view other) }
        ensures none { NoJobsOfOthers (Self.may_act (Self.anchor self.new)) (Self.view self.new) }
        ensures unclaimed { NoRowsOfOthers (Self.may_act (Self.anchor self.new)) (Self.view self.new) };
}
