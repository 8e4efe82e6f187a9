//! What the words say.
ghost use Rattle.std.specs.Prelude.{◌≡◌, ℕ, true, List};
ghost use Rattle.atomic_table.specs.Table.{State};
ghost use Rattle.worded.specs.Histories.{HasOneHistory};
ghost use Rattle.worded.specs.declared.view.View.{View};
ghost use Rattle.channel_model.specs.declared.acts.Entry.{Entry as AnEntry};
ghost use Rattle.channel_model.specs.Channels.{Shape};
ghost use Rattle.channel_model.specs.Histories.{replay, Legal};
ghost use Rattle.word_rules.specs.declared.layout.Layout.{Layout as ALayout};
ghost use Rattle.word_rules.specs.declared.cell_word.CellWord.{CellWord as ACellWord};
ghost use Rattle.word_rules.specs.declared.wait_word.WaitWord.{WaitWord as AWaitWord};
ghost use Rattle.word_rules.specs.Cells.{cell_of, standing, awaiting, gather};
ghost use Rattle.word_rules.specs.Codes.{packed_cell, packed_wait, IsNarrowCell, IsNarrowWait};
ghost use Rattle.word_rules.specs.Words.{Fits, word_count, maker};
ghost use Rattle.cell_words.specs.Tables.{HoldsChannels};
ghost use Rattle.channel_model.specs.declared.acts.Act.{Act as AnAct};
ghost use Rattle.channel_model.specs.Fates.{removes};
ghost use Rattle.cell_words.specs.declared.found.Removal.{Removal as ARemoval};
ghost use Rattle.cell_words.specs.Removals.{removal_act, IsRemovalAt};

/// No two words have one number. So a word that is packed and unpacked is the same word.
pub fn two_words_have_two_numbers()
    ensures cells { (v w : ACellWord) → IsNarrowCell v → IsNarrowCell w → packed_cell v ≡ packed_cell w → v ≡ w }
    ensures waits { (v w : AWaitWord) → IsNarrowWait v → IsNarrowWait w → packed_wait v ≡ packed_wait w → v ≡ w }
{}

/// After a legal history the offers and the receivers of a channel are those that its cells and the waits give, by place.
pub fn cells_and_waits_tell_who_stands()
    ensures offers { (shape : Shape) (log : List AnEntry) (c : ℕ) → Legal shape log → ((replay log).channels c).queue
        ≡ gather (λ p. standing (replay log).waits p (cell_of log c p)) ((replay log).channels c).next }
    ensures receivers { (shape : Shape) (log : List AnEntry) (c : ℕ) → Legal shape log → ((replay log).channels c).receivers
        ≡ gather (λ p. awaiting (replay log).waits p (cell_of log c p)) ((replay log).channels c).next }
{}

/// Between any two steps the words are those of one legal history over all channels. Each pass has seen a beginning of it, and in
/// that all entries of its own tags. No two passes have one tag, and a tag that no pass has made no entry.
///
/// The state `s` is that of the channels: of the table's first part, which by `a_part_has_one_history` (`joined_words`) has one history as
/// a table of its own has.
pub fn a_hub_has_one_history()
    ensures { (layout : ALayout) (s : State AnEntry (View AnEntry ALayout))
        → HasOneHistory (Legal layout.kinds) (Fits layout.kinds) maker (word_count layout.kinds) s → HoldsChannels layout.kinds s }
{}

/// The acts that empty a cell are those that take an offer out of its queue.
pub fn removals_are_the_acts_that_remove()
    ensures each { (by : ARemoval) (c p v : ℕ) → removes c p (removal_act by c p v) ≡ true }
    ensures only { (act : AnAct) (c p : ℕ) → removes c p act ≡ true → IsRemovalAt c p act }
{}
