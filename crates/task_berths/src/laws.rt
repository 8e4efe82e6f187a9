//! What holds of the tasks at all times.
ghost use Rattle.std.specs.Prelude.{ℕ, List, ◌<◌, ◌⊎◌, Option, length};
ghost use Rattle.atomic_table.specs.Table.{State};
ghost use Rattle.task_berths.specs.declared.rule.BerthStep.{BerthStep};
ghost use Rattle.task_berths.specs.declared.rule.SeatView.{SeatView};
ghost use Rattle.task_berths.specs.Words.{word_of};
ghost use Rattle.task_berths.specs.LastMoves.{SaysWhere};
ghost use Rattle.task_berths.specs.Homes.{HoldsTasks, IsIn, IsOut};

use crate::tagged::Tagged;

/// Between any two steps a task is in its berth and no seat has it, or it is out with one seat, whose number its word has.
pub fn each_task_is_at_home_or_out<T: Tagged>()
    ensures { (s : State (Option T) SeatView) (t : ℕ) → HoldsTasks T.tag_of s → t < length s.homes → IsIn T.tag_of s t ⊎ IsOut s t }
{}

/// A word says who took its task last, unless that came home, and whether that seat was asked since.
pub fn each_word_says_where_its_task_is()
    ensures { (t : ℕ) (log : List BerthStep) → SaysWhere t log (word_of t log) }
{}
