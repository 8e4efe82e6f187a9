//! How large a forest is, and what the history of its Jobs means.

use crate::deed::Deed;
use worded::HistoryRule;

/// The numbers of coroutines and of rows.
#[derive(Clone, Copy)]
pub struct ForestSize {
    pub coroutines: u16,
    pub rows: u16,
}

/// The history of a forest is a list of deeds, of which the words are a function except for hints.
pub struct JobHistory;

impl HistoryRule<Deed, ForestSize> for JobHistory {
    ghost use Rattle.word_rules.specs.Deeds.{shape_of, IsDone, Fits, doer, word_count, no_size};

    ghost legal = { λ size. IsDone (shape_of size) };

    ghost fits = { Fits };

    ghost who = { doer };

    ghost size = { word_count };

    ghost blank = { no_size };
}
