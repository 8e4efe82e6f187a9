//! What a task tells of itself.

use co_base::Tag;

/// A task with a number.
pub trait Tagged {
    ghost use Rattle.std.specs.Prelude.{◌≡◌, ℕ};

    ghost tag_of: { Self → ℕ };

    fn tag(&self) -> Tag
        ensures { result ≡ Self.tag_of self.now };
}
