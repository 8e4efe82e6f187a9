//! What holds of counted cells at all times.
ghost use Rattle.std.specs.Prelude.{◌≡◌, ℕ, List};
ghost use Rattle.atomic_table.specs.Table.{State};
ghost use Rattle.worded.specs.Histories.{HasOneHistory};
ghost use Rattle.worded.specs.declared.view.View.{View};
ghost use Rattle.counted_cells.specs.declared.act.CellEntry.{CellEntry as AnEntry};
ghost use Rattle.counted_cells.specs.declared.cell_state.CellState.{CellState as ACellState};
ghost use Rattle.counted_cells.specs.Cells.{Legal, maker};
ghost use Rattle.counted_cells.specs.Words.{Fits, cell_code, word_count};
ghost use Rattle.counted_cells.specs.Stories.{HasStory, HoldsCells};

/// A cell is drawn at most once for each side, and has one story: one came and waits, met the other, or gave up.
pub fn each_cell_has_one_story()
    ensures { (cells : ℕ) (log : List AnEntry) (p : ℕ) → Legal cells log → HasStory log p }
{}

/// No two cells have one word.
pub fn two_cells_have_two_words()
    ensures { (x y : ACellState) → cell_code x ≡ cell_code y → x ≡ y }
{}

/// Between any two steps the words are those of one legal history. Each pass has seen a beginning of it, and in that all of its entries.
pub fn counted_cells_have_one_history()
    ensures { (cells : ℕ) (s : State AnEntry (View AnEntry ℕ))
        → HasOneHistory (Legal cells) Fits maker (word_count cells) s → HoldsCells cells s }
{}
