//! The calls of one coroutine on channels of every kind, over any floor of them: to send and to receive, waiting or not, to close and to
//! cancel a channel, and to end a call that waits, as it was resolved or as cancelled. Each entry, and each answer without one, is noted at
//! once, and whoever's wait was resolved is woken. What a call tells is what such a call may tell, and was so at moments of that call
//! (`specs/Calls.antt`).
//!
//! - `caller`: who calls, and on what
//! - `rooms`: room for what a call may add
//! - `repeats`: what follows an act until nothing is owed: to admit, to drop
//! - `sends`: to send
//! - `receives`: to receive
//! - `tries`: to send and to receive without waiting, as a call or as a clause of a select
//! - `closings`: to close and to cancel a channel
//! - `waits`: to end a call that waits
//!
//! No call asks for a channel's kind: where a kind never owes an admission or a drop, one look at the floor says so. A loop ends since
//! each of its acts takes something from the channel that nobody brings back (`channel_model/proofs/Left`). In `proofs/`, in the order to
//! read: `Untold`, `Repeated` and `AdmitsTold`, `DropsTold`, `ClosesTold` for the loops; `ReceivesTold`, `SendsTold` and `EndsTold` for
//! each answer of a floor; `OwnClause` and `OwnOffers` for an own offer that was received or kept before the send answered;
//! `HeardMoments` for the moment at which a note was so; `AnswersGo` for the words of those who call.
#![tactic(auto)]

mod caller;
mod closings;
mod receives;
mod repeats;
mod rooms;
mod sends;
mod tries;
mod waits;

pub use caller::{Caller, ReceiveAnswer, SendAnswer, TriedAs, TryReceiveAnswer, TrySendAnswer};
pub use rooms::{make_room, wake_some};
