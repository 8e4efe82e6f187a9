//! One function for each kind of step.
ghost use Rattle.std.specs.Prelude.{◌≡◌, ◌≢◌, ◌%◌, ◌<◌, true, [], ◌∷◌, Some, None};
ghost use Rattle.task_berths.specs.Views.{has_tag, carrying, having_split, new_seat, having_ended, spent_view};
ghost use Rattle.task_berths.specs.Steps.{ClaimAnswer, AskAnswer, LiftAnswer, Left};
ghost use Rattle.task_berths.specs.Tables.{IsTable};

use crate::rule::{BerthRule, SeatView};
use crate::tagged::Tagged;
use atomic_table::{Join, Play, Seat, Shared, Split};
use co_base::Tag;
use std::marker::PhantomData;

/// The words and slots of the berths.
pub(crate) type Words<T> = Shared<Option<T>, SeatView, (), BerthRule<T>>;

// The task was taken, or is with another seat.
struct Claiming<T> {
    marker: PhantomData<T>,
}

impl<T: Tagged> Play<Option<T>, SeatView> for Claiming<T> {
    ghost then = { λ s m n r. ClaimAnswer T.tag_of s.word n m r };
}

/// Puts the number of the seat where 0 stands, and carries the slot then.
pub(crate) fn claim<T: Tagged>(
    words: &Words<T>,
    seat: &mut Seat<Option<T>, SeatView>,
    number: Tag,
    tag: Tag,
) -> u64
    requires table { IsTable words.now.table_id × (seat.old.table_id ≡ words.now.table_id) × (tag < words.now.table_id.slots) }
    requires idle { (seat.old.me.1 ≡ []) × (seat.old.me.0.carries ≡ None) × (seat.old.me.0.live ≡ true) × (seat.old.me.0.number ≡ number) }
    ensures same { (seat.new.table_id ≡ seat.old.table_id) × (seat.new.id ≡ seat.old.id) }
    ensures claims { ClaimAnswer T.tag_of tag result seat.old.me seat.new.me }
{
    words.compare_exchange::<Claiming<T>>(seat, tag as usize, 0, 2 * (number as u64 + 1))
}

// The seat that has the task was asked, or the word was another.
struct Asking<T> {
    marker: PhantomData<T>,
}

impl<T: Tagged> Play<Option<T>, SeatView> for Asking<T> {
    ghost then = { λ s m n r. AskAnswer s.word s.first n m r };
}

/// Asks the seat whose number stands in the word.
pub(crate) fn ask<T: Tagged>(
    words: &Words<T>,
    seat: &mut Seat<Option<T>, SeatView>,
    tag: Tag,
    word: u64,
) -> u64
    requires table { IsTable words.now.table_id × (seat.old.table_id ≡ words.now.table_id) × (tag < words.now.table_id.slots) }
    requires out { (seat.old.me.0.live ≡ true) × (word ≢ 0) × (word % 2 ≡ 0) }
    ensures same { (seat.new.table_id ≡ seat.old.table_id) × (seat.new.id ≡ seat.old.id) }
    ensures asks { AskAnswer tag word result seat.old.me seat.new.me }
{
    words.compare_exchange::<Asking<T>>(seat, tag as usize, word, word + 1)
}

// The slot in hand is at home again, empty.
struct Laying<T> {
    marker: PhantomData<T>,
}

impl<T: Tagged> Play<Option<T>, SeatView> for Laying<T> {
    ghost then = { λ s m n r. r ≡ (carrying m.0 None, []) };
}

/// Lays the empty slot down.
pub(crate) fn lay_down<T: Tagged>(
    words: &Words<T>,
    seat: &mut Seat<Option<T>, SeatView>,
    slots: usize,
    tag: Tag,
)
    requires table { IsTable words.now.table_id × (seat.old.table_id ≡ words.now.table_id) × (tag < words.now.table_id.slots) }
    requires slots { (slots ≡ words.now.table_id.slots) × (slots < 65536) }
    requires carried { (seat.old.me.1 ≡ (tag, None) ∷ []) × (seat.old.me.0.carries ≡ Some tag) }
    requires has { has_tag tag seat.old.me.0.held ≡ true }
    ensures same { (seat.new.table_id ≡ seat.old.table_id) × (seat.new.id ≡ seat.old.id) }
    ensures now { seat.new.me ≡ (carrying seat.old.me.0 None, []) }
{
    words.load::<Laying<T>>(seat, slots + tag as usize);
}

// The empty slot is carried.
struct Lifting<T> {
    marker: PhantomData<T>,
}

impl<T: Tagged> Play<Option<T>, SeatView> for Lifting<T> {
    ghost then = { λ s m n r. LiftAnswer s.slots s.word m r };
}

/// Lifts the empty slot of a task that the seat has. The word that is loaded tells its tag to the rule, and is otherwise of no use.
pub(crate) fn lift<T: Tagged>(
    words: &Words<T>,
    seat: &mut Seat<Option<T>, SeatView>,
    slots: usize,
    tag: Tag,
)
    requires table { IsTable words.now.table_id × (seat.old.table_id ≡ words.now.table_id) × (tag < words.now.table_id.slots) }
    requires slots { (slots ≡ words.now.table_id.slots) × (slots < 65536) }
    requires idle { (seat.old.me.1 ≡ []) × (seat.old.me.0.carries ≡ None) }
    requires has { has_tag tag seat.old.me.0.held ≡ true }
    ensures same { (seat.new.table_id ≡ seat.old.table_id) × (seat.new.id ≡ seat.old.id) }
    ensures now { seat.new.me ≡ (carrying seat.old.me.0 (Some tag), (tag, None) ∷ []) }
{
    words.load::<Lifting<T>>(seat, slots + tag as usize);
}

// The task is at home again.
struct Leaving<T> {
    marker: PhantomData<T>,
}

impl<T: Tagged> Play<Option<T>, SeatView> for Leaving<T> {
    ghost then = { λ s m n r. Left s.word n m r };
}

/// Puts 0 where the number of the seat stands, and gives the slot back.
pub(crate) fn leave_word<T: Tagged>(
    words: &Words<T>,
    seat: &mut Seat<Option<T>, SeatView>,
    tag: Tag,
) -> u64
    requires table { IsTable words.now.table_id × (seat.old.table_id ≡ words.now.table_id) × (tag < words.now.table_id.slots) }
    requires carried { (task : T) × (seat.old.me.1 ≡ (tag, Some task) ∷ []) × (T.tag_of task ≡ tag) }
    requires has { (has_tag tag seat.old.me.0.held ≡ true) × (seat.old.me.0.carries ≡ Some tag) }
    ensures same { (seat.new.table_id ≡ seat.old.table_id) × (seat.new.id ≡ seat.old.id) }
    ensures left { Left tag result seat.old.me seat.new.me }
{
    words.swap::<Leaving<T>>(seat, tag as usize, 0)
}

// The first seat gives the next number out.
struct Numbering;

impl Split<SeatView> for Numbering {
    ghost left = { having_split };

    ghost right = { new_seat };
}

/// A new seat, with the next number.
pub(crate) fn split_off<T: Tagged>(
    words: &Words<T>,
    main: &mut Seat<Option<T>, SeatView>,
) -> Seat<Option<T>, SeatView>
    requires table { IsTable words.now.table_id × (main.old.table_id ≡ words.now.table_id) }
    requires main { (main.old.me.0.chief ≡ true) × (main.old.me.0.live ≡ true) }
    ensures same { (main.new.table_id ≡ main.old.table_id) × (main.new.id ≡ main.old.id) × (result.table_id ≡ main.old.table_id) }
    ensures main { main.new.me ≡ (having_split main.old.me.0, main.old.me.1) }
    ensures new { result.me ≡ (new_seat main.old.me.0, []) }
{
    words.split_seat::<Numbering>(main)
}

// The first seat counts one that ended.
struct Ending;

impl Join<SeatView> for Ending {
    ghost both = { having_ended };

    ghost spent = { spent_view };
}

/// Ends a seat that has no task.
pub(crate) fn join_to<T: Tagged>(
    words: &Words<T>,
    main: &mut Seat<Option<T>, SeatView>,
    seat: Seat<Option<T>, SeatView>,
)
    requires table { IsTable words.now.table_id × (main.old.table_id ≡ words.now.table_id) × (seat.table_id ≡ words.now.table_id) }
    requires main { (main.old.me.0.chief ≡ true) × (main.old.me.0.live ≡ true) }
    requires seat { (seat.me.1 ≡ []) × (seat.me.0.live ≡ true) × (seat.me.0.held ≡ []) }
    ensures same { (main.new.table_id ≡ main.old.table_id) × (main.new.id ≡ main.old.id) }
    ensures main { main.new.me ≡ (having_ended main.old.me.0 seat.me.0, main.old.me.1) }
{
    words.join_seat::<Ending>(main, seat);
}

/// Moves the task out of the slot that the seat carries, and lays the slot down.
pub(crate) fn pick_up<T: Tagged>(
    words: &Words<T>,
    seat: &mut Seat<Option<T>, SeatView>,
    slots: usize,
    tag: Tag,
) -> T
    requires table { IsTable words.now.table_id × (seat.old.table_id ≡ words.now.table_id) × (tag < words.now.table_id.slots) }
    requires slots { (slots ≡ words.now.table_id.slots) × (slots < 65536) }
    requires carried { (task : T) × (seat.old.me.1 ≡ (tag, Some task) ∷ []) × (T.tag_of task ≡ tag) }
    requires has { (has_tag tag seat.old.me.0.held ≡ true) × (seat.old.me.0.carries ≡ Some tag) }
    ensures same { (seat.new.table_id ≡ seat.old.table_id) × (seat.new.id ≡ seat.old.id) }
    ensures now { seat.new.me ≡ (carrying seat.old.me.0 None, []) }
    ensures task { T.tag_of result ≡ tag }
{
    let old = words.exchange(seat, tag as usize, None);
    lay_down(words, seat, slots, tag);
    let Some(task) = old else { unreachable!() };
    task
}

/// Lifts the slot, moves the task in, and puts 0 into the word. The word found has the number of the seat.
pub(crate) fn put_back<T: Tagged>(
    words: &Words<T>,
    seat: &mut Seat<Option<T>, SeatView>,
    slots: usize,
    tag: Tag,
    task: T,
) -> u64
    requires table { IsTable words.now.table_id × (seat.old.table_id ≡ words.now.table_id) × (tag < words.now.table_id.slots) }
    requires slots { (slots ≡ words.now.table_id.slots) × (slots < 65536) }
    requires idle { (seat.old.me.1 ≡ []) × (seat.old.me.0.carries ≡ None) }
    requires has { has_tag tag seat.old.me.0.held ≡ true }
    requires task { T.tag_of task ≡ tag }
    ensures same { (seat.new.table_id ≡ seat.old.table_id) × (seat.new.id ≡ seat.old.id) }
    ensures left { Left tag result seat.old.me seat.new.me }
{
    lift(words, seat, slots, tag);
    let old = words.exchange(seat, tag as usize, Some(task));
    let None = old else { unreachable!() };
    leave_word(words, seat, tag)
}
