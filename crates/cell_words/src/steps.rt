//! The three steps on a word of a hub.
ghost use Rattle.std.specs.Prelude.{◌≡◌, ◌<◌};
ghost use Rattle.word_rules.specs.Words.{word_count, Fits, maker};
ghost use Rattle.cell_words.specs.Hubs.{shape_of, seen_by, IsOwn};
ghost use Rattle.cell_words.specs.Seen.{Sees, ExchangeAnswer};
ghost use Rattle.cell_words.specs.Answers.{MayTurn};
ghost use Rattle.channel_model.specs.Histories.{Legal};
ghost use Rattle.worded.specs.Exchanges.{MayLift};
ghost use Rattle.joined_words.specs.Seen.{view_of};

use crate::hub::Hub;
use crate::pass::Pass;
use channel_model::Entry;
use co_base::Tag;
use either::Either;
use joined_words::{FirstPart, QUIET_WORDS, exchange_in, lift_in, load_in};
use word_rules::{CellHistory, Layout, RunEntry, RunHistory, RunKey};

// The table's word that is the hub's first.
const FIRST_WORD: usize = QUIET_WORDS;

/// The word as it is now.
pub(crate) fn load_word(hub: &Hub, pass: &mut Pass, who: Tag, word: usize) -> u64
    requires own { IsOwn hub.now pass.old who }
    requires word { word < word_count (shape_of hub.now) }
    ensures own { IsOwn hub.now pass.new who }
    ensures sees { Sees (seen_by pass.old) (seen_by pass.new) }
    ensures found { Fits (shape_of hub.now) (seen_by pass.new).seen word result }
{
    load_in::<RunEntry, RunKey, RunHistory, Entry, Layout, CellHistory, FirstPart>(
        &hub.table.shared,
        &mut pass.seat,
        FIRST_WORD,
        word,
    )
}

/// Makes the entry by turning the word from `old` into `new`, or finds another word.
pub(crate) fn exchange_word(
    hub: &Hub,
    pass: &mut Pass,
    who: Tag,
    word: usize,
    old: u64,
    new: u64,
    entry: &Entry,
) -> u64
    requires own { IsOwn hub.now pass.old who }
    requires word { word < word_count (shape_of hub.now) }
    requires may { MayTurn (shape_of hub.now) word old new entry.now (seen_by pass.old) }
    ensures own { IsOwn hub.now pass.new who }
    ensures told { ExchangeAnswer (shape_of hub.now) word old entry.now (seen_by pass.old) (seen_by pass.new) result }
{
    exchange_in::<RunEntry, RunKey, RunHistory, Entry, Layout, CellHistory, FirstPart>(
        &hub.table.shared,
        &mut pass.seat,
        FIRST_WORD,
        word,
        old,
        new,
        &Either::Left(*entry),
    )
}

/// Raises the word to at least `least`. It shows nothing, so what was seen last stays the last that was seen.
pub(crate) fn lift_word(hub: &Hub, pass: &mut Pass, who: Tag, word: usize, least: u64)
    requires own { IsOwn hub.now pass.old who }
    requires word { word < word_count (shape_of hub.now) }
    requires may { MayLift (Legal (shape_of hub.now)) (Fits (shape_of hub.now)) maker (view_of (seen_by pass.old)) word least }
    ensures own { IsOwn hub.now pass.new who }
    ensures same { seen_by pass.new ≡ seen_by pass.old }
{
    lift_in::<RunEntry, RunKey, RunHistory, Entry, Layout, CellHistory, FirstPart>(
        &hub.table.shared,
        &mut pass.seat,
        FIRST_WORD,
        word,
        least,
    )
}
