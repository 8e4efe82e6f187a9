//! The berths, and the seats at them.
ghost use Rattle.std.specs.Prelude.{◌≡◌, true, [], None};
ghost use Rattle.task_berths.specs.Tables.{IsTable};

use crate::closing::{move_in, move_out, zeros};
use crate::rule::{BerthRule, SeatView};
use crate::steps::{join_to, put_back, split_off};
use crate::tagged::Tagged;
use crate::taking::{Taken, take_at};
use atomic_table::{Seat, Table};
use co_base::{Memory, Tag};
use std::alloc::Global;

/// The berths of some tasks, which many threads use at once, each with a seat of its own.
#[derive(Drop)]
pub struct Berths<T: Tagged + Drop> {
    table: Table<Option<T>, SeatView, (), BerthRule<T>, Global>,
    count: Tag,
    ghost sized: { IsTable table.shared.table_id × (table.shared.table_id.slots ≡ count) },
}

/// A seat at the berths. Its methods are those of `Berths`. One that is dropped counts as one that has not ended.
#[derive(Drop)]
pub struct BerthSeat<T> {
    seat: Seat<Option<T>, SeatView>,
    number: Tag,
    /// How many seats it gave out.
    splits: Tag,
    /// Room for the tasks when they are given back. Only the first seat has it.
    room: Vec<T>,
    ghost numbered: { (seat.me.0.number ≡ number) × (seat.me.0.splits ≡ splits) },
    ghost idle: { (seat.me.0.carries ≡ None) × (seat.me.0.live ≡ true) },
    ghost bare: { seat.me.1 ≡ [] },
    ghost empty: { room.items ≡ [] },
}

impl<T: Tagged + Drop> Berths<T> {
    ghost use Rattle.std.specs.Prelude.{◌<◌, ◌≤◌, false, IfOk, length};
    ghost use Rattle.task_berths.specs.Views.{has_tag, first_view, new_seat, having_split, having_ended};
    ghost use Rattle.task_berths.specs.Answers.{HaveTags, TakeAnswer, LeaveAnswer};
    ghost use Rattle.task_berths.specs.Seats.{count_of, view_of, IsSeatOf, IsMain};

    /// The berths of these tasks, all at home, and the first seat. Where there is no memory the tasks are dropped.
    pub fn new(mut tasks: Vec<T>) -> Result<(Berths<T>, BerthSeat<T>), Memory>
        requires few { length tasks.items ≤ 65535 }
        requires tags { HaveTags T.tag_of tasks.items }
        ensures count { IfOk result (λ r. count_of r.0 ≡ length tasks.items) }
        ensures main { IfOk result (λ r. IsMain r.0 r.1) }
        ensures view { IfOk result (λ r. view_of r.1 ≡ first_view) }
    {
        let alloc = *tasks.allocator();
        let count = tasks.len() as Tag;
        let words = zeros(alloc, 2 * count as usize + 1)?;
        let slots = move_in(alloc, &mut tasks)?;
        match Table::new(alloc, words.as_slice(), slots, &()) {
            Ok((table, seat)) => Ok((
                Berths { table, count },
                BerthSeat {
                    seat,
                    number: 0,
                    splits: 0,
                    room: tasks,
                },
            )),
            Err(_) => Err(Memory),
        }
    }

    /// A further seat, which has no task. The first seat numbers it.
    pub fn split(&self, main: &mut BerthSeat<T>) -> BerthSeat<T>
        requires main { IsMain self.now main.old }
        requires few { (view_of main.old).splits < 65535 }
        ensures main { IsMain self.now main.new }
        ensures view { view_of main.new ≡ having_split (view_of main.old) }
        ensures seat { IsSeatOf self.now result }
        ensures new { view_of result ≡ new_seat (view_of main.old) }
    {
        let seat = split_off(&self.table.shared, &mut main.seat);
        main.splits += 1;
        BerthSeat {
            seat,
            number: main.splits,
            splits: 0,
            room: Vec::new(*main.room.allocator()),
        }
    }

    /// Ends a seat that has no task.
    pub fn end(&self, main: &mut BerthSeat<T>, seat: BerthSeat<T>)
        requires main { IsMain self.now main.old }
        requires seat { IsSeatOf self.now seat }
        requires none { (view_of seat).held ≡ [] }
        ensures main { IsMain self.now main.new }
        ensures view { view_of main.new ≡ having_ended (view_of main.old) (view_of seat) }
    {
        let BerthSeat { seat: ended, .. } = seat;
        join_to(&self.table.shared, &mut main.seat, ended);
    }

    /// The task, or Busy. Whoever has the task then hears that it was asked when it leaves the task, unless the task was taken meanwhile.
    pub fn take(&self, seat: &mut BerthSeat<T>, tag: Tag) -> Taken<T>
        requires seat { IsSeatOf self.now seat.old }
        requires tag { tag < count_of self.now }
        requires lacks { has_tag tag (view_of seat.old).held ≡ false }
        ensures seat { IsSeatOf self.now seat.new }
        ensures main { IsMain self.now seat.old → IsMain self.now seat.new }
        ensures taken { TakeAnswer T.tag_of tag result (view_of seat.old) (view_of seat.new) }
    {
        take_at(
            &self.table.shared,
            &mut seat.seat,
            self.count as usize,
            seat.number,
            tag,
        )
    }

    /// Gives the task back. The answer says whether the seat was asked to see to it again since it took it.
    pub fn leave(&self, seat: &mut BerthSeat<T>, tag: Tag, task: T) -> bool
        requires seat { IsSeatOf self.now seat.old }
        requires tag { tag < count_of self.now }
        requires has { has_tag tag (view_of seat.old).held ≡ true }
        requires task { T.tag_of task ≡ tag }
        ensures seat { IsSeatOf self.now seat.new }
        ensures main { IsMain self.now seat.old → IsMain self.now seat.new }
        ensures left { LeaveAnswer tag result (view_of seat.old) (view_of seat.new) }
    {
        let old = put_back(
            &self.table.shared,
            &mut seat.seat,
            self.count as usize,
            tag,
            task,
        );
        old % 2 == 1
    }

    /// The tasks in order of their tags, once all other seats have ended.
    pub fn close(self, main: BerthSeat<T>) -> Vec<T>
        requires main { IsMain self main }
        requires none { (view_of main).held ≡ [] }
        requires ended { (view_of main).ends ≡ (view_of main).splits }
        ensures count { length result.items ≡ count_of self }
        ensures tags { HaveTags T.tag_of result.items }
    {
        let Berths { table, count } = self;
        let BerthSeat { seat, room, .. } = main;
        move_out(table.close_with(seat), count, room)
    }
}
