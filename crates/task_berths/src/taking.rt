//! A take, in three steps at most, and what it answers.
ghost use Rattle.std.specs.Prelude.{◌≡◌, ◌<◌, true, false, [], None};
ghost use Rattle.task_berths.specs.Views.{has_tag};
ghost use Rattle.task_berths.specs.Answers.{TakeAnswer};
ghost use Rattle.task_berths.specs.Tables.{IsTable};

use crate::rule::SeatView;
use crate::steps::{Words, ask, claim, pick_up};
use crate::tagged::Tagged;
use atomic_table::Seat;
use co_base::Tag;

/// What a take answers.
#[derive(Drop)]
pub enum Taken<T> {
    Task(T),
    /// Another seat has the task, or had it and a further take came. Who leaves it hears that it was asked.
    Busy,
}

/// Takes the task if it is at home, and else asks the seat that has it.
pub(crate) fn take_at<T: Tagged>(
    words: &Words<T>,
    seat: &mut Seat<Option<T>, SeatView>,
    slots: usize,
    number: Tag,
    tag: Tag,
) -> Taken<T>
    requires table { IsTable words.now.table_id × (seat.old.table_id ≡ words.now.table_id) × (tag < words.now.table_id.slots) }
    requires slots { (slots ≡ words.now.table_id.slots) × (slots < 65536) }
    requires idle { (seat.old.me.1 ≡ []) × (seat.old.me.0.carries ≡ None) × (seat.old.me.0.live ≡ true) × (seat.old.me.0.number ≡ number) }
    requires lacks { has_tag tag seat.old.me.0.held ≡ false }
    ensures same { (seat.new.table_id ≡ seat.old.table_id) × (seat.new.id ≡ seat.old.id) }
    ensures idle { seat.new.me.1 ≡ [] }
    ensures taken { TakeAnswer T.tag_of tag result seat.old.me.0 seat.new.me.0 }
{
    let first = claim(words, seat, number, tag);
    if first == 0 {
        return Taken::Task(pick_up(words, seat, slots, tag));
    }
    if first % 2 != 0 {
        return Taken::Busy;
    }
    // The other seat was not asked yet: it may be, or the task has moved on.
    let second = ask(words, seat, tag, first);
    if second != 0 {
        return Taken::Busy;
    }
    // The task came home in between.
    let third = claim(words, seat, number, tag);
    if third != 0 {
        return Taken::Busy;
    }
    Taken::Task(pick_up(words, seat, slots, tag))
}
