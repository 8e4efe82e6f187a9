//! Steps, what a seat knows, and what holds between any two steps.

use crate::tagged::Tagged;
use atomic_table::TableRule;
use std::collections::LinkedList;
use std::marker::PhantomData;

/// What a step did to the word of a berth. No value of it is made.
pub enum BerthStep {
    /// The task of this tag was taken by the seat of this number.
    Take(u64, u64),
    /// The seat that has the task was asked to see to it again.
    Ask(u64),
    /// The task came home.
    Leave(u64),
}

/// What a seat knows. No value of it is made.
pub struct SeatView {
    /// The word of a task that the seat has tells this number.
    pub number: u64,
    /// It has not ended.
    pub live: bool,
    /// It is the first seat, which gives out the numbers.
    pub chief: bool,
    /// How many seats it gave out.
    pub splits: u64,
    /// How many seats have ended.
    pub ends: u64,
    /// How often it took a task, and those that it ended.
    pub takes: u64,
    /// The tags of the tasks that it has.
    pub held: LinkedList<u64>,
    /// The tag of the slot that it carries.
    pub carries: Option<u64>,
    /// The beginning of the list of steps that it has seen.
    pub seen: LinkedList<BerthStep>,
}

/// The rule of the berths: each task is at home, or with the one seat whose number its word has.
pub struct BerthRule<T> {
    marker: PhantomData<T>,
}

impl<T: Tagged> TableRule<Option<T>, SeatView, ()> for BerthRule<T> {
    ghost use Rattle.task_berths.specs.Views.{first_view};
    ghost use Rattle.task_berths.specs.Homes.{HoldsTasks};

    ghost holds = { λ _. HoldsTasks T.tag_of };

    ghost first = { λ _. first_view };
}
