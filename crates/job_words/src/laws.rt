//! What the words say.
ghost use Rattle.std.specs.Prelude.{◌≡◌, ℕ, List};
ghost use Rattle.word_rules.specs.declared.size.ForestSize.{ForestSize as Size};
ghost use Rattle.word_rules.specs.declared.deed.Deed.{Deed as ADeed};
ghost use Rattle.word_rules.specs.declared.job_word.JobWord.{JobWord as AJobWord};
ghost use Rattle.word_rules.specs.declared.link_word.LinkWord.{LinkWord as ALinkWord};
ghost use Rattle.word_rules.specs.Rows.{job_code, link_code, IsNarrow, IsNarrowLink};
ghost use Rattle.word_rules.specs.Deeds.{shape_of, IsSize, IsDone, Fits, doer, history_of, store_of, word_count};
ghost use Rattle.job_words.specs.JobWords.{AreJobWordsOf};
ghost use Rattle.job_words.specs.JobParts.{job_part, HasBoth};
ghost use Rattle.job_words.specs.Tables.{HoldsJobs};
ghost use Rattle.joined_words.specs.Tables.{state_in};
ghost use Rattle.either.specs.declared.Either.{Either as AnEither};
ghost use Rattle.channel_model.specs.declared.acts.Entry.{Entry as AnEntry};
ghost use Rattle.word_rules.specs.declared.layout.Layout.{Layout as ALayout};
ghost use Rattle.atomic_table.specs.Table.{State};
ghost use Rattle.worded.specs.Histories.{HasOneHistory};
ghost use Rattle.worded.specs.declared.view.View.{View};

/// No two words have one number. So a word that is packed and unpacked is the same word.
pub fn two_words_have_two_numbers()
    ensures jobs { (v w : AJobWord) → IsNarrow v → IsNarrow w → job_code v ≡ job_code w → v ≡ w }
    ensures links { (v w : ALinkWord) → IsNarrowLink v → IsNarrowLink w → link_code v ≡ link_code w → v ≡ w }
{}

/// The words of a forest follow from the entries of its history and from the claims, up to bit 47 of a link word, and but for the link word
/// of the root.
pub fn words_follow_from_entries_and_claims()
    ensures { (size : Size) (log : List ADeed) (i n : ℕ) → IsSize size → IsDone (shape_of size) log → Fits size log i n
        → AreJobWordsOf (history_of log) (store_of log).claimer i n }
{}

/// Between any two steps the words are those of one legal history and of the claims. Each pass has seen a beginning of it, and in that
/// all entries of its own tags; what it has seen claimed is claimed. No two passes have one tag, and a tag that no pass has made no
/// entry. `part` says so of a forest's part of a table of both histories, which is a table of its own by
/// `joined_words::a_part_has_one_history`.
pub fn a_forest_has_one_history()
    ensures alone { (size : Size) (s : State ADeed (View ADeed Size)) → IsSize size
        → HasOneHistory (IsDone (shape_of size)) (Fits size) doer (word_count size) s → HoldsJobs size s }
    ensures part { (key : ALayout × Size) (s : State (AnEither AnEntry ADeed) (View (AnEither AnEntry ADeed) (ALayout × Size)))
        → IsSize key.1 → HasBoth key s → HoldsJobs key.1 (state_in job_part key (word_count key.1) s) }
{}
