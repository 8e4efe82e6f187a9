//! What stands in a channel, and how a wait is resolved: the same in the model and in the list form.

ghost use Rattle.std.specs.Prelude.{◌≡◌};
ghost use Rattle.channel_model.specs.Outcomes.{outcome_of};

use crate::acts::{Settled, Why};
use co_base::{Place, Value, WaitId};

/// One side of a wait: the wait, and the clause at which it stands there.
#[derive(Clone, Copy)]
pub struct Party {
    pub wait: WaitId,
    pub clause: u8,
}

/// An offer in a queue. It is buffered if it has no holder.
#[derive(Clone, Copy)]
pub struct Standing {
    pub place: Place,
    pub value: Value,
    pub holder: Option<Party>,
}

/// A receiver that waits.
#[derive(Clone, Copy)]
pub struct Receiver {
    pub place: Place,
    pub party: Party,
}

/// By which act a wait was resolved, at which of its clauses, and with which element or close value.
///
/// | act | resolution |
/// |---|---|
/// | Hand | `Handed` |
/// | Take, Drop | `Taken` |
/// | Admit | `Admitted` |
/// | WakeClosed | `Closed` |
/// | Withdraw | `Withdrawn` |
/// | Drain | `Voided` |
#[derive(Clone, Copy)]
pub enum Resolution {
    Handed(u8, Value),
    Taken(u8),
    Admitted(u8),
    Closed(u8, Value),
    Withdrawn(Why),
    Voided,
}

/// How a wait that was so resolved ends, if its Job was cancelled before it was dispatched, and if not.
///
/// A receive that is cancelled after it was given an element gives the element up; a send that is cancelled ends as
/// cancelled even if its element was received.
pub fn outcome(how: Resolution, cancelled: bool) -> Settled
    ensures { result ≡ outcome_of how cancelled }
{
    match how {
        Resolution::Handed(clause, value) => {
            if cancelled {
                Settled::Undelivered(value)
            } else {
                Settled::Value(clause, value)
            }
        }
        Resolution::Taken(clause) | Resolution::Admitted(clause) => {
            if cancelled {
                Settled::Cancelled
            } else {
                Settled::Sent(clause)
            }
        }
        Resolution::Closed(clause, value) => {
            if cancelled {
                Settled::Cancelled
            } else {
                Settled::Closed(clause, value)
            }
        }
        Resolution::Withdrawn(_) | Resolution::Voided => Settled::Cancelled,
    }
}
