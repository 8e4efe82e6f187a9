//! Lanes: where arrows go down, so that no two of them fall on one another.
//!
//! The arrows into a column are gone through from the top down. Each gets the first lane that is free over all its rows.

use crate::arrows::Arrow;
use crate::layout::{BAR, LANE, LEVEL, NO_ROOM, Room};
use crate::looks::Look;
use crate::marks::Marks;
use crate::picture::Route;
use crate::sheet::Sheet;
use gathered::{Gathered, NOWHERE, at, put};
use std::alloc::Global;
use std::collections::BinaryHeap;

/// An arrow that is drawn: the column that it goes into, its lane, and the rows between which it goes down.
#[derive(Clone, Copy)]
pub(crate) struct Laid {
    arrow: Arrow,
    column: usize,
    lane: u32,
    upper: u32,
    lower: u32,
}

const NO_LAID: Laid = Laid {
    arrow: Arrow {
        from: NOWHERE,
        to: NOWHERE,
        look: Look::Joins,
    },
    column: NOWHERE,
    lane: 0,
    upper: 0,
    lower: 0,
};

/// An arrow, for which a lane is sought; into the column of nowhere, unless both its lines have columns, and its end is in the picture.
fn sought<'a>(sheet: &Sheet<'_, 'a>, arrow: Arrow) -> Laid {
    let from = sheet.seat(arrow.from);
    let to = sheet.seat(arrow.to);
    let is_laid = (from.column != NOWHERE) & sheet.is_seen(arrow.to);
    Laid {
        arrow,
        column: if is_laid { to.column } else { NOWHERE },
        lane: 0,
        upper: from.row.min(to.row),
        lower: from.row.max(to.row),
    }
}

/// Two numbers as one, by which the first counts for more.
fn both(first: u32, second: u32) -> u64 {
    u64::from(first) * 4_294_967_296 + u64::from(second)
}

/// The lanes of the column whose arrows get theirs. The heaps have their numbers turned round, so that the least comes first.
#[derive(Drop)]
struct Sweep {
    column: usize,
    /// How many lanes the column has so far.
    lanes: u32,
    /// The lanes that are free.
    free: BinaryHeap<u32>,
    /// The lanes that are not, each behind the row in which its arrow ends.
    busy: BinaryHeap<u64>,
    full: bool,
}

impl Sweep {
    /// Frees the lanes of the arrows that end above this row.
    fn free_above(&mut self, row: u32) {
        for _ in 0..self.busy.len() {
            let next = u64::MAX - self.busy.peek().copied().unwrap_or(0);
            if next >= both(row, 0) {
                break;
            }
            self.busy.pop();
            let lane = (next % 4_294_967_296) as u32;
            self.full = self.full | self.free.push(u32::MAX - lane).is_err();
        }
    }

    /// The first lane that is free, or one more.
    fn take(&mut self) -> u32 {
        if let Some(turned) = self.free.pop() {
            return u32::MAX - turned;
        }
        let lane = self.lanes;
        self.lanes = lane.saturating_add(1);
        lane
    }

    /// The lane of the next arrow, which goes into this column between these rows.
    fn lane_for(&mut self, column: usize, upper: u32, lower: u32) -> u32 {
        if column != self.column {
            self.column = column;
            self.lanes = 0;
            self.free.clear();
            self.busy.clear();
        }
        self.free_above(upper);
        let lane = self.take();
        self.full = self.full | self.busy.push(u64::MAX - both(lower, lane)).is_err();
        lane
    }
}

/// Gives each arrow its lane, and tells whether memory held all of them. They are sorted column by column, each column from the top down.
fn give_lanes(alloc: Global, laid: &mut Vec<Laid>) -> bool {
    let mut sweep = Sweep {
        column: NOWHERE,
        lanes: 0,
        free: BinaryHeap::new(alloc),
        busy: BinaryHeap::new(alloc),
        full: false,
    };
    for i in 0..laid.len() {
        let one = at(laid.as_slice(), i, NO_LAID);
        let lane = sweep.lane_for(one.column, one.upper, one.lower);
        put(laid, i, Laid { lane, ..one });
    }
    !sweep.full
}

/// The arrows that are drawn of these, each in its lane.
pub(crate) fn laid_in<'a>(
    alloc: Global,
    sheet: &Sheet<'_, 'a>,
    arrows: &[Arrow],
) -> Gathered<Laid> {
    let mut laid = Gathered::new(alloc);
    for arrow in arrows {
        let one = sought(sheet, *arrow);
        if one.column != NOWHERE {
            laid.add(one);
        }
    }
    let sorted = laid.as_mut().sort_by_key(|one| (one.column, one.upper));
    laid.full = laid.full | sorted.is_err();
    laid.full = laid.full | !give_lanes(alloc, laid.as_mut());
    laid
}

/// Makes room for the lanes of these arrows.
pub(crate) fn add_lanes(rooms: &mut Vec<Room>, laid: &[Laid]) {
    for one in laid {
        let room = at(rooms.as_slice(), one.column, NO_ROOM);
        let lanes = room.lanes.max(one.lane.saturating_add(1));
        put(rooms, one.column, Room { lanes, ..room });
    }
}

/// Where an arrow goes: from below its line, or, if that stands above the first row, from the edge in its lane.
fn way_of<'a>(sheet: &Sheet<'_, 'a>, one: &Laid) -> Route {
    let from = one.arrow.from;
    let left = sheet.left_of(one.column);
    let lane = left.saturating_sub(u64::from(one.lane) * LANE + 10);
    let y = sheet.y(from);
    let to_y = sheet.y(one.arrow.to);
    let to_x = left.saturating_sub(1);
    let (x, level) = if sheet.is_seen(from) {
        let left = sheet.left_of(sheet.seat(from).column);
        (left.saturating_add(BAR / 2), y.saturating_add(LEVEL))
    } else {
        (lane, y)
    };
    Route::Bent {
        x,
        level,
        lane,
        to_y,
        to_x,
    }
}

/// The arrows.
pub(crate) fn add_ways<'a>(marks: &mut Marks<'a>, sheet: &Sheet<'_, 'a>, laid: &[Laid]) {
    for one in laid {
        let title = sheet.seat(one.arrow.from).title;
        marks.add_path(way_of(sheet, one), one.arrow.look, title);
    }
}
