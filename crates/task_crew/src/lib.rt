//! Tasks that are polled by several workers, without a lock.
//!
//! Each task waits in a berth of its own. A **ticket** with its tag asks that somebody polls it. A worker takes an own ticket, or else one
//! of another worker, takes the task from its berth and polls it. Whom the poll woke has the worker's latest ticket, and the one before
//! goes into its lane; so does one for the task itself if it is to be polled again. So a task is never polled by two at once. If another
//! worker comes for a task that is not in its berth, the task gets a ticket as it is left there, so that no wake is lost.
//!
//! **At hand.** A worker keeps the task that it polled last at hand while it polls one that it woke, and the one before while the two take
//! turns. So two that wait for one another go to and fro without a step on a berth. Any other is left at its berth before a poll, and both
//! are left before the worker looks for tickets of others. A task at hand cannot be taken: one that another worker woke meanwhile waits
//! until the poll beside it ends. So whatever holds a worker in a poll, as a gate may, can hold the task that it polled last too, but only
//! where the worker woke the one that is held.
//!
//! **The order.** A worker takes its latest ticket first, so that whom a poll woke goes on with what is at hand, and two that wait for one
//! another stay with one worker. After 64 of these one of its lane has its turn.
//!
//! **The end.** A worker is at work from when it begins until it has no ticket; it is at work again while it looks for others. Nobody else
//! puts a ticket where it takes its own, so where nobody is at work, no worker that has begun has a ticket, and all workers end. Workers
//! count themselves as they begin and not before: where no thread can be started the calling thread works in place of all, one after
//! another.
//!
//! **Looks.** A worker that has no ticket of its own looks into the lanes of the others. It takes a latest ticket of another only if that
//! stood there at its last look too, so that its owner did not come to it. Before a look it sleeps, each time twice as long up to 1.6
//! milliseconds; it looks at once if it ran many tickets since it had none. So what its owner runs soon is mostly left to the owner. The
//! last that comes to rest wakes all that sleep, and they end. One that finds nobody at work before all have begun looks a few times more.
//!
//! **Want of memory.** A poll that finds none has dropped its task. Then all workers end, and the tasks are dropped.
//!
//! - `apart`: a value on lines of a cache of its own, for what each worker writes to alone.
//! - `latest`: the latest ticket of each worker.
//! - `tickets`: the tickets of a worker, and who is at work.
//! - `polls`: how tasks are polled.
//! - `worker`: what a worker does with its tickets.
//! - `crew`: all workers, until no ticket is left.
#![tactic(auto)]

mod apart;
mod crew;
mod latest;
mod polls;
mod tickets;
mod worker;

pub use apart::Apart;
pub use crew::run_crew;
pub use polls::Polls;
pub use tickets::{Tickets, no_tickets};
