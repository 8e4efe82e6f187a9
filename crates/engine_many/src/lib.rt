//! All coroutines of a script by several workers, without a lock.
//!
//! Each coroutine is a task: its frame, and a floor of channels and one of Jobs that it alone calls. The workers of `task_crew` poll the
//! tasks; whom a poll wakes gets a ticket. A coroutine that is ready is polled several times in a row.
//!
//! **The last round.** When no ticket is left all workers end, and the calling thread holds a last round: the floors hear of one another,
//! so that each has seen all; then each coroutine is polled once. If that came to nothing all floors hear of one another once more, which
//! shows that nobody did anything since, and the floors are ended into those of the root: the run is over. Else the workers go on with
//! the tickets that the round put. So the end of a run does not rest on tickets: a wake that was lost for want of memory is made good
//! there.
//!
//! **One order.** The two floors of a task hear each other in each poll, so its coroutine told its story up to a point of one order of both
//! histories. The points of all are beginnings of one another, and the order of the run goes on from the longest.
//!
//! - `task`: a coroutine with the two floors of its own.
//! - `starting`: tasks before their first poll.
//! - `dealing`: the first tickets.
//! - `worker`: what a worker does with a coroutine.
//! - `meetings`: all hear of all.
//! - `polling`: every coroutine is polled once.
//! - `ending`: the floors are ended into those of the root.
//! - `rounds`: a last round.
//! - `run`: a whole run.
//! - `seating`: a task for each coroutine, on seats at a hub and at a forest.
//! - `word_run`: a whole run over words.
#![tactic(auto)]

mod dealing;
mod ending;
mod meetings;
mod polling;
mod rounds;
mod run;
mod seating;
mod starting;
mod task;
mod word_run;
mod worker;

pub use ending::Left;
pub use run::run_tasks;
pub use task::Task;
pub use word_run::{WordRun, run_many};
