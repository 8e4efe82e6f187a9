//! Berths of tasks: each task lies in its berth, until some worker takes it, works at it, and leaves it there again. No call takes a lock,
//! waits, or takes memory but `new`.
//!
//! **The words.** A berth has a word and a slot. Each worker has a seat, and each seat a number; the first one has 0.
//!
//! | word | step | next word | who | the step decides |
//! |---|---|---|---|---|
//! | 0 | take | 2 (n + 1) | the seat n | that it has the task |
//! | 2 (n + 1) | ask | 2 (n + 1) + 1 | a seat that wanted the task | that the seat n hears of it when it leaves the task |
//! | 2 (n + 1) or 1 more | leave | 0 | the seat n | whether it was asked since its take |
//!
//! **A take** tries to take; if another seat has the task and was not asked yet, it asks; if the task came home meanwhile, it tries
//! once more. So it makes at most three steps on the word, and a leave makes one. A take that is answered Busy has asked the other seat,
//! or found it asked, or the task was taken meanwhile by one more seat; so whoever leaves a task where it was asked has to see to it again.
//!
//! **The slots.** Who takes a task moves it out of its slot, and lays the empty slot down again, so that a seat may have several tasks;
//! who leaves it lifts the slot, and moves the task in. To lay down and to lift are loads of a word that is no berth's: there is one for
//! each berth, and one word more, so that seats can be split and ended even where there is no task.
//!
//! **The list of steps.** Takes, asks and leaves are one list, which nobody stores. Between any two steps each word is what this list
//! makes of it; a task whose word is 0 lies in its slot, and any other is with the seat whose number its word has (`HoldsTasks`). A seat
//! has seen a beginning of the list.
//!
//! - `tagged`: what a task tells of itself.
//! - `rule`: steps, what a seat knows, and what holds between any two steps.
//! - `steps`: one function for each kind of step.
//! - `taking`: a take, in three steps at most, and what it answers.
//! - `closing`: tasks go into slots, and come out of them.
//! - `berths`: the berths, and the seats at them.
//! - `laws`: what holds of the tasks at all times.
#![tactic(auto)]

mod berths;
mod closing;
mod laws;
mod rule;
mod steps;
mod tagged;
mod taking;

pub use berths::{BerthSeat, Berths};
pub use laws::{each_task_is_at_home_or_out, each_word_says_where_its_task_is};
pub use rule::{BerthRule, BerthStep, SeatView};
pub use tagged::Tagged;
pub use taking::Taken;
