//! What a hub was made for, and what the history of its channels means.

use channel_model::{Entry, Kind};
use std::collections::LinkedList;
use worded::HistoryRule;

/// The kind of each channel, and how many places it has. It is the key of the table.
#[derive(Drop)]
pub struct Layout {
    pub kinds: LinkedList<(Kind, u32)>,
}

/// The history of a hub is that of its channels. The words are a function of it, except for the counters and the runs.
pub struct CellHistory;

impl HistoryRule<Entry, Layout> for CellHistory {
    ghost use Rattle.std.specs.Prelude.{[]};
    ghost use Rattle.channel_model.specs.Histories.{Legal};
    ghost use Rattle.word_rules.specs.Words.{Fits, word_count, maker};

    ghost legal = { λ layout. Legal layout.kinds };

    ghost fits = { λ layout. Fits layout.kinds };

    ghost who = { maker };

    ghost size = { λ layout. word_count layout.kinds };

    ghost blank = { record { kinds = [] } };
}
