//! What holds of a hub between any two steps.

ghost use Rattle.std.specs.Prelude.{List};
ghost use Rattle.atomic_table.specs.Table.{State};
ghost use Rattle.worded.specs.Histories.{HasOneHistory};
ghost use Rattle.worded.specs.declared.view.View.{View};
ghost use Rattle.channel_model.specs.declared.acts.Entry.{Entry as AnEntry};
ghost use Rattle.channel_model.specs.Histories.{Legal};
ghost use Rattle.word_rules.specs.declared.layout.Layout.{Layout as ALayout};
ghost use Rattle.word_rules.specs.Words.{Fits, word_count, maker};
ghost use Rattle.word_seats.specs.HubFates.{HoldsElementsOnce};

/// Between any two steps the words of a hub are those of one legal history, in which each element has at most one fate and was given to
/// a receiver at most once.
pub fn an_element_of_a_hub_has_at_most_one_fate()
    ensures { (layout : ALayout) (s : State AnEntry (View AnEntry ALayout))
        → HasOneHistory (Legal layout.kinds) (Fits layout.kinds) maker (word_count layout.kinds) s → HoldsElementsOnce layout.kinds s }
{}
