//! How tasks are polled.

ghost use Rattle.std.specs.Prelude.{◌≡◌, IfOk};

use crate::tickets::Tickets;
use co_base::Memory;
use task_berths::Tagged;

/// How the workers poll a task.
pub trait Polls<T: Tagged>: Sync {
    /// What each poll asks of the one that polls.
    ghost may_poll: { Self → Type 0 };

    /// Polls the task, and puts a ticket for each that it woke. The answer says whether the task is to be polled again. For want of memory
    /// the task is dropped.
    fn poll(&self, task: T, tickets: &mut Tickets) -> Result<(T, bool), Memory>
        requires { Self.may_poll self.now }
        ensures { IfOk result (λ r. T.tag_of r.0 ≡ T.tag_of task) };
}
