//! What is known of a channel by those who called there.

use co_base::{Place, Tag};

/// What callers know of a channel.
#[derive(Clone, Copy)]
pub(crate) struct Known {
    /// Whether a wait of theirs began, whose it is, and at which place: that of the last that began.
    pub(crate) owns: bool,
    pub(crate) tag: Tag,
    pub(crate) place: Place,
    pub(crate) closed: bool,
    pub(crate) voided: bool,
}

/// The same of three callers, each with a floor of its own.
#[derive(Clone, Copy)]
pub(crate) struct Three {
    pub(crate) a: Known,
    pub(crate) b: Known,
    pub(crate) c: Known,
}
