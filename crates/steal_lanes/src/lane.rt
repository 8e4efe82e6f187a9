//! A worker's own lane, with the ways into the others.
ghost use Rattle.std.specs.Prelude.{◌≡◌, ◌≤◌, true, length};
ghost use Rattle.crossbeam_deque.specs.Handles.{worker_flavor, worker_port, worker_view, worker_capacity, worker_index};
ghost use Rattle.steal_lanes.specs.Queues.{tickets_put};

use crate::lane_view::{InOrder, LaneView, Puts, Takes};
use crate::other_lane::OtherLane;
use crate::stealing::take_from_any;
use co_base::{Memory, Tag};
use crossbeam_deque::Worker;
use std::alloc::Global;

/// A worker's own lane, with the ways into the others.
#[derive(Drop)]
pub struct Lane {
    pub(crate) own: Worker<Tag, Global, LaneView, InOrder>,
    pub(crate) others: Vec<OtherLane>,
    /// So many puts succeed in any case.
    pub(crate) room: u32,
    ghost fifo: { worker_flavor own ≡ 0 },
    ghost first: { worker_port own ≡ 0 },
    ghost owns: { (worker_view own).owns ≡ true },
    ghost roomy: { room ≤ worker_capacity own },
    ghost counted: { worker_index own ≤ length (tickets_put (worker_view own).seen) },
}

impl Lane {
    ghost use Rattle.std.specs.Prelude.{IfOk};
    ghost use Rattle.steal_lanes.specs.Lanes.{IsNewLane, IsConnected, SameLane, PutAnswer, NextAnswer, OwnAnswer};

    // A lane without a way into another.
    pub(crate) fn new(alloc: Global, room: u32) -> Result<Lane, Memory>
        ensures { IfOk result (IsNewLane room) }
    {
        let own = Worker::fifo_as(alloc, room as usize)?;
        Ok(Lane {
            own,
            others: Vec::new(alloc),
            room,
        })
    }

    pub(crate) fn connect(&mut self, others: Vec<OtherLane>)
        ensures { IsConnected others.items self.old self.new }
    {
        self.others = others;
    }

    /// Puts a ticket behind all others of the own lane. `Err` gives it back for want of memory.
    pub fn put(&mut self, ticket: Tag) -> Result<(), Tag>
        ensures same { SameLane self.old self.new }
        ensures answer { PutAnswer ticket self.old self.new result }
    {
        self.own.push_as::<Puts>(ticket)
    }

    /// The first ticket of the own lane. `None` says only that none was taken.
    pub fn take(&mut self) -> Option<Tag>
        ensures same { SameLane self.old self.new }
        ensures answer { OwnAnswer self.old self.new result }
    {
        self.own.pop_as::<Takes>()
    }

    /// The first ticket of the own lane, or else of another, from the next worker's on. `None` says only that none was taken: each
    /// lane was looked at, but others may put and take meanwhile.
    pub fn next(&mut self) -> Option<Tag>
        ensures same { SameLane self.old self.new }
        ensures answer { NextAnswer self.old self.new result }
    {
        if let Some(ticket) = self.take() {
            return Some(ticket);
        }
        take_from_any(&mut self.others)
    }
}
