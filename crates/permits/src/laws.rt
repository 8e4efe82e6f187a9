//! That all permits add up.

ghost use Rattle.std.specs.Prelude.{ℕ, List};
ghost use Rattle.channel_model.specs.declared.acts.Entry.{Entry};
ghost use Rattle.channel_model.specs.Channels.{Shape};
ghost use Rattle.permits.specs.Laws.{PermitsAddUp};

/// If every coroutine uses the n permits of a channel as the callers of this crate do, and one of them filled it with n: after every
/// beginning of the history that has the fill, the permits that are free, those on their way and those that are held add up to n, and
/// nobody gave back more than it got. So at most n are held.
pub fn permits_add_up()
    ensures { (shape : Shape) (c n f m : ℕ) (before history : List Entry) → PermitsAddUp shape c n f m before history }
{}
